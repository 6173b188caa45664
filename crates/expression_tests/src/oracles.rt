// Number sets, reachability and tables of bits.
use expression::number_set::NumberSet;
use expression::oracle::{BitTable, DependencyOracle, Edge, Reachability};
use std::process::Abort;

#[test]
fn sets_end_at_64(rt: HostRuntime) {
    let mut set = NumberSet::new();
    set.insert(64);
    set.insert(usize::MAX);
    assert!(rt; set.is_empty());
    set.insert(63);
    set.insert(0);
    assert!(rt; !set.is_empty());
    for n in [0, 62, 63, 64, 127, usize::MAX] {
        assert_eq!(rt; set.contains(n), n == 0 || n == 63);
    }
}

fn answers(
    rt: &impl Abort,
    oracle: &impl DependencyOracle,
    yes: &[(usize, usize)],
    no: &[(usize, usize)],
) {
    for (a, b) in yes {
        assert!(rt; oracle.depends_on(*a, *b));
    }
    for (a, b) in no {
        assert!(rt; !oracle.depends_on(*a, *b));
    }
}

fn edge(from: usize, to: usize) -> Edge {
    Edge { from, to }
}

// A cycle of three, what leads to it, an edge to itself, and edges that are skipped.
#[test]
fn edges(rt: HostRuntime) {
    let top = usize::MAX;
    answers(&rt, &Reachability::new(&[]), &[], &[(0, 0), (63, 63)]);
    let list = [
        edge(9, 63),
        edge(3, 9),
        edge(63, 3),
        edge(5, 5),
        edge(7, 64),
        edge(top, 8),
        edge(0, 3),
    ];
    let oracle = Reachability::new(&list);
    answers(
        &rt,
        &oracle,
        &[(0, 63), (63, 9), (9, 9), (0, 0), (5, 5)],
        &[(9, 0), (5, 3), (7, 7), (7, 64), (8, 8), (top, 8), (3, top)],
    );
}

#[test]
fn tables_of_bits(rt: HostRuntime) {
    let top = usize::MAX;
    answers(&rt, &BitTable { rows: &[] }, &[], &[(0, 0)]);
    let few = BitTable {
        rows: &[6, 0, u64::MAX],
    };
    answers(
        &rt,
        &few,
        &[(0, 1), (0, 2), (2, 2)],
        &[(0, 0), (2, 3), (3, 0), (1, 1)],
    );
    let many = BitTable {
        rows: &[u64::MAX; 66],
    };
    answers(
        &rt,
        &many,
        &[(63, 63), (0, 63)],
        &[(64, 0), (0, 64), (65, 1), (top, top)],
    );
}
