// Rosters: overlapping rows, no rows, and places at and past the end of the text.
use expression::queries::{BinaryQuery, BuildPlatform, TestQuery};
use expression::roster::{PrefixRoster, PrefixRow, Roster, TestRoster, TestRow};
use glob::place::Place;

fn query<'a>(binary_id: &'a [u8], test_name: &'a [u8]) -> TestQuery<'a> {
    let (binary_name, kind, platform): (&[u8], &[u8], BuildPlatform) = (
        b"adc",
        b"lib",
        BuildPlatform::Host,
    );
    TestQuery {
        binary: BinaryQuery {
            package: 0,
            binary_id,
            binary_name,
            kind,
            platform,
        },
        test_name,
    }
}

fn row(binary_id: Place, test_name: Place, group: usize) -> TestRow {
    TestRow {
        binary_id,
        test_name,
        group,
    }
}

fn at(start: usize, length: usize) -> Place {
    Place { start, length }
}

#[test]
fn single_tests(rt: HostRuntime) {
    let (id, name, end) = (at(0, 3), at(3, 3), at(6, 0));
    let far = at(usize::MAX, usize::MAX);
    let rows = [
        row(id, at(4, 3), 1),
        row(far, name, 2),
        row(id, name, 3),
        row(id, name, 4),
        row(end, end, 5),
    ];
    let roster = TestRoster {
        text: b"adclow",
        rows: &rows,
    };
    assert_eq!(rt; roster.group(&query(b"adc", b"low")), 3);
    assert_eq!(rt; roster.group(&query(b"", b"")), 5);
    assert_eq!(rt; roster.group(&query(b"adc", b"lo")), 0);
    assert_eq!(rt; roster.group(&query(b"low", b"adc")), 0);
    assert_eq!(rt;
        TestRoster {
            text: b"adclow",
            rows: &[],
        }
        .group(&query(b"adc", b"low")),
        0
    );
}

#[test]
fn prefixes(rt: HostRuntime) {
    let past = PrefixRow {
        prefix: at(5, 2),
        group: 1,
    };
    let three = PrefixRow {
        prefix: at(0, 3),
        group: 2,
    };
    let two = PrefixRow {
        prefix: at(0, 2),
        group: 3,
    };
    let roster = PrefixRoster {
        text: b"unit::",
        rows: &[past, three, two],
    };
    assert_eq!(rt; roster.group(&query(b"adc", b"uni")), 2);
    assert_eq!(rt; roster.group(&query(b"adc", b"unit::low")), 2);
    assert_eq!(rt; roster.group(&query(b"adc", b"un")), 3);
    assert_eq!(rt; roster.group(&query(b"adc", b"u")), 0);
    let all = PrefixRow {
        prefix: at(6, 0),
        group: 7,
    };
    assert_eq!(rt;
        PrefixRoster {
            text: b"unit::",
            rows: &[all],
        }
        .group(&query(b"adc", b"")),
        7
    );
}
