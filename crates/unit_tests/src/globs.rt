// Plain globs and recorded answers.
use glob::matcher::{Answer, Matcher, PlainGlob, RecordedAnswers};
use glob::place::Place;
use glob::{is_match, well_formed};
use std::array::from_fn;

// Each ill-formed pattern beside its nearest well-formed neighbour.
#[test]
fn syntax(rt: HostRuntime) {
    let table: [(&[u8], &[u8]); 21] = [
        (b"a\\", b"a\\\\"),
        (b"[", b"\\["),
        (b"[]", b"[a]"),
        (b"[]]", b"]"),
        (b"[!]", b"[!a]"),
        (b"[a", b"[a]"),
        (b"[a-]", b"[a-a]"),
        (b"[-a]", b"[_a]"),
        (b"[b-a]", b"[a-b]"),
        (b"[a-c-e]", b"[a-cc-e]"),
        (b"[*]", b"\\*"),
        (b"[?]", b"\\?"),
        (b"[^a]", b"[!a]"),
        (b"[a!]", b"[!a]"),
        (b"[ ]", b" "),
        (b"[/]", b"/"),
        (b"[\xc3\xa9]", b"\xc3\xa9"),
        (b"[a-\\z]", b"[a-z]"),
        (b"{a}", b"\\{a\\}"),
        (b"{a,b}", b"\\{a,b\\}"),
        (b"a}", b"a\\}"),
    ];
    for (ill, well) in table {
        assert!(rt; !well_formed(ill));
        assert!(rt; !is_match(ill, ill));
        assert!(rt; well_formed(well));
    }
    assert!(rt; well_formed(b""));
    assert!(rt; well_formed(b"[A-Z0-9_.:][!:]]-,/"));
}

#[test]
fn matching(rt: HostRuntime) {
    let table: [(&[u8], &[u8], bool); 27] = [
        (b"", b"", true),
        (b"", b"a", false),
        (b"*", b"", true),
        (b"?", b"", false),
        (b"?", b"\n", true),
        (b"*", b"a\nb", true),
        (b"a*b", b"ab", true),
        (b"a*b", b"a\nb", true),
        (b"a*b", b"abc", false),
        (b"*ab*c", b"aabxabyc", true),
        (b"**/a", b"a", false),
        (b"a/**/b", b"a/b", false),
        (b"te?t", b"te\xc3\xa4t", false),
        (b"te??t", b"te\xc3\xa4t", true),
        (b"[b-d]", b"a", false),
        (b"[b-d]", b"b", true),
        (b"[b-d]", b"d", true),
        (b"[b-d]", b"e", false),
        (b"[!b-d]", b"c", false),
        (b"[!b-d]", b"e", true),
        (b"[!b-d]", b"", false),
        (b"[ax-z_]", b"y", true),
        (b"\\a", b"a", true),
        (b"\\a", b"\\a", false),
        (b"\\*", b"*", true),
        (b"\\*", b"a", false),
        (b"bus::*_[a-h]*", b"bus::low_holds", true),
    ];
    for (pattern, name, answer) in table {
        assert!(rt; is_match(pattern, name) == answer);
        assert!(rt; PlainGlob.is_match(pattern, name) == answer);
    }
    assert!(rt; true);
}

// The last star alone is tried again, so that many stars cost no more than one.
#[test]
fn many_stars(rt: HostRuntime) {
    let mut pattern: [u8; 400] = from_fn(|i| if i % 2 == 0 { b'*' } else { b'a' });
    let mut name = [b'a'; 10000];
    assert!(rt; is_match(&pattern, &name));
    pattern[399] = b'b';
    assert!(rt; !is_match(&pattern, &name));
    name[9999] = b'b';
    assert!(rt; is_match(&pattern, &name));
}

#[test]
fn recorded(rt: HostRuntime) {
    let text = b"*{low_holds";
    let pattern = Place {
        start: 0,
        length: 2,
    };
    let name = Place {
        start: 2,
        length: 3,
    };
    let end = Place {
        start: 11,
        length: 0,
    };
    let past = Place {
        start: 12,
        length: 0,
    };
    let long = Place {
        start: 10,
        length: 2,
    };
    let most = Place {
        start: usize::MAX,
        length: usize::MAX,
    };
    let rows = [
        Answer {
            pattern,
            name: past,
            answer: true,
        },
        Answer {
            pattern: long,
            name,
            answer: true,
        },
        Answer {
            pattern: most,
            name: most,
            answer: true,
        },
        Answer {
            pattern,
            name,
            answer: true,
        },
        Answer {
            pattern,
            name,
            answer: false,
        },
        Answer {
            pattern,
            name: end,
            answer: true,
        },
    ];
    let table = RecordedAnswers { text, rows: &rows };
    assert!(rt; table.is_match(b"*{", b"low"));
    assert!(rt; table.is_match(b"*{", b""));
    assert!(rt; !table.is_match(b"*{", b"low_holds"));
    assert!(rt; !table.is_match(b"ds", b"low"));
    assert!(rt; !table.is_match(b"", b""));
    assert!(rt; !table.is_match(b"*", b"low"));
}
