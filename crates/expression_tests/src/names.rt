// Name matchers.
use expression::name_matcher::MatchKind;
use glob::matcher::{Matcher, PlainGlob};

#[test]
fn contained(rt: HostRuntime) {
    let kind = MatchKind::Contains;
    assert!(rt; kind.is_match(&PlainGlob, b"", b""));
    assert!(rt; kind.is_match(&PlainGlob, b"", b"a"));
    assert!(rt; kind.is_match(&PlainGlob, b"aab", b"aaab"));
    assert!(rt; kind.is_match(&PlainGlob, b"low", b"unit::low"));
    assert!(rt; !kind.is_match(&PlainGlob, b"low", b"lo"));
    assert!(rt; !kind.is_match(&PlainGlob, b"a*", b"ab"));
    assert!(rt; !kind.is_match(&PlainGlob, b"a", b""));
}

#[test]
fn equal_or_glob(rt: HostRuntime) {
    assert!(rt; MatchKind::Equal.is_match(&PlainGlob, b"lib", b"lib"));
    assert!(rt; !MatchKind::Equal.is_match(&PlainGlob, b"lib", b"libs"));
    assert!(rt; !MatchKind::Equal.is_match(&PlainGlob, b"l*", b"lib"));
    assert!(rt; MatchKind::Glob.is_match(&PlainGlob, b"l*", b"lib"));
    assert!(rt; !MatchKind::Glob.is_match(&PlainGlob, b"i", b"lib"));
}
