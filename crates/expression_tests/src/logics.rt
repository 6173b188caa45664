// Three-valued tables, and evaluations at the limits of the stack.
use crate::Values;
use expression::evaluate::{Leaves, evaluate};
use expression::logic::Logic;
use expression::nodes::Node;
use std::cell::Cell;

#[test]
fn kleene_tables(rt: HostRuntime) {
    let yes = Some(true);
    let no = Some(false);
    // Two operands, then what `and` and `or` make of them.
    let table = [
        (yes, yes, yes, yes),
        (yes, no, no, yes),
        (yes, None, None, yes),
        (no, yes, no, yes),
        (no, no, no, no),
        (no, None, no, None),
        (None, yes, None, yes),
        (None, no, no, None),
        (None, None, None, None),
    ];
    for (a, b, both, either) in table {
        assert_eq!(rt; a.logic_and(b), both);
        assert_eq!(rt; a.logic_or(b), either);
    }
    assert_eq!(rt; yes.logic_not(), no);
    assert_eq!(rt; no.logic_not(), yes);
    let unknown: Option<bool> = None;
    assert_eq!(rt; unknown.logic_not(), None);
}

// 96 leaves and then 95 operators: every value waits.
#[test]
fn all_values_wait(rt: HostRuntime) {
    let mut nodes = [Node::Leaf(true); 191];
    nodes[96..].fill(Node::And);
    let mut stack = [false; 96];
    assert_eq!(rt; evaluate(&nodes, &Values, &mut stack), Some(true));
    let mut short = [false; 95];
    assert_eq!(rt; evaluate(&nodes, &Values, &mut short), None);
    nodes[95] = Node::Leaf(false);
    assert_eq!(rt; evaluate(&nodes, &Values, &mut stack), Some(false));
}

// Each operator follows its operands: two values wait at most.
#[test]
fn two_values_wait(rt: HostRuntime) {
    let mut nodes = [Node::Or; 191];
    nodes[0] = Node::Leaf(Some(false));
    for leaf in nodes[1..].iter_mut().step_by(2) {
        *leaf = Node::Leaf(None);
    }
    let mut stack = [None; 2];
    assert_eq!(rt; evaluate(&nodes, &Values, &mut stack), Some(None));
    nodes[1] = Node::Leaf(Some(true));
    assert_eq!(rt; evaluate(&nodes, &Values, &mut stack), Some(Some(true)));
}

#[test]
fn no_tree(rt: HostRuntime) {
    let mut stack = [false; 4];
    assert_eq!(rt;
        evaluate::<bool, bool, Values>(&[], &Values, &mut stack),
        None
    );
    assert_eq!(rt;
        evaluate::<bool, bool, Values>(&[Node::Not], &Values, &mut stack),
        None
    );
    assert_eq!(rt;
        evaluate(&[Node::Leaf(true), Node::And], &Values, &mut stack),
        None
    );
    assert_eq!(rt;
        evaluate(&[Node::Leaf(true), Node::Leaf(true)], &Values, &mut stack),
        None
    );
    assert_eq!(rt;
        evaluate(&[Node::Leaf(true), Node::Not], &Values, &mut []),
        None
    );
    assert_eq!(rt;
        evaluate(&[Node::Leaf(true), Node::Not], &Values, &mut stack),
        Some(false)
    );
}

// Leaves that count how often one is asked.
#[derive(Drop)]
struct Counted {
    asked: Cell<usize>,
}

impl Leaves<bool, bool> for Counted {
    ghost shows = { λ _ leaf. leaf };

    fn value(&self, leaf: bool) -> bool {
        self.asked.set(self.asked.get().wrapping_add(1));
        leaf
    }
}

// A leaf for whose value no place is left is not asked. No contract sees how often a leaf is asked.
#[test]
fn no_place_no_question(rt: HostRuntime) {
    let leaves = Counted {
        asked: Cell::new(0),
    };
    let nodes = [Node::Leaf(true), Node::Leaf(false), Node::Leaf(true)];
    let mut stack = [false; 2];
    assert_eq!(rt; evaluate(&nodes, &leaves, &mut stack), None);
    assert_eq!(rt; leaves.asked.get(), 2);
}
