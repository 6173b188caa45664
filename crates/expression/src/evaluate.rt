// Copyright (c) The nextest Contributors
// SPDX-License-Identifier: MIT OR Apache-2.0

// One evaluator for every logic.
ghost use Rattle.std.specs.Prelude.{◌≡◌, ◌≤◌, [], ◌∷◌, length, MatchOption};
ghost use Rattle.std.specs.Option.{option_map};
ghost use Rattle.expression.specs.Evaluation.{Evaluation};

use crate::logic::Logic;
use crate::nodes::Node;

// The values of leaves in a logic.
pub trait Leaves<T, L> {
    ghost shows: { Self → T → L };

    fn value(&self, leaf: T) -> L
        ensures { result ≡ shows self.now leaf };
}

// A slice that the caller lends as a stack: its first `used` places hold the values, the top one last.
#[derive(Drop)]
struct Stack<'a, L> {
    places: &'a mut [L],
    used: usize,
    ghost within: { used ≤ length places.now },
}

impl<L: Copy> Stack<'_, L> {
    ghost use Rattle.expression.specs.Stack.{room, held, pushed, acts, runs};

    // Puts a value on top. None if no place is left.
    fn push(&mut self, value: L) -> Option<()>
        ensures room { room self.new ≡ room self.old }
        ensures values { option_map (λ _. held self.new) result ≡ pushed (room self.old) value (held self.old) }
    {
        if self.used == self.places.len() {
            return None;
        }
        self.places[self.used] = value;
        self.used += 1;
        Some(())
    }

    // Takes the top value away. None if there is no value.
    fn pop(&mut self) -> Option<L>
        ensures room { room self.new ≡ room self.old }
        ensures values { MatchOption result (held self.old ≡ []) (λ value. held self.old ≡ value ∷ held self.new) }
    {
        let top = self.used.checked_sub(1)?;
        self.used = top;
        Some(self.places[top])
    }

    // Carries one node out. None if a value or a place lacks.
    fn step<T: Copy, C: Leaves<T, L>>(&mut self, node: Node<T>, leaves: &C) -> Option<()>
    where
        L: Logic,
        ensures room { room self.new ≡ room self.old }
        ensures values { option_map (λ _. held self.new) result ≡ acts L.ops (C.shows leaves.now) (room self.old) node (held self.old) }
    {
        match node {
            Node::Leaf(leaf) => {
                // A leaf is asked only where its value has a place.
                if self.used == self.places.len() {
                    return None;
                }
                self.push(leaves.value(leaf))
            }
            Node::Not => {
                let a = self.pop()?;
                self.push(a.logic_not())
            }
            Node::And => {
                let b = self.pop()?;
                let a = self.pop()?;
                self.push(a.logic_and(b))
            }
            Node::Or => {
                let b = self.pop()?;
                let a = self.pop()?;
                self.push(a.logic_or(b))
            }
        }
    }

    // Carries node after node out. The value that is left, if there is just one.
    fn run<T: Copy, C: Leaves<T, L>>(&mut self, nodes: &[Node<T>], leaves: &C) -> Option<L>
    where
        L: Logic,
        ensures { result ≡ runs L.ops (C.shows leaves.now) (room self.old) nodes.now (held self.old) }
    {
        for node in nodes {
            self.step(*node, leaves)?;
        }
        let value = self.pop()?;
        match self.pop() {
            None => Some(value),
            Some(_) => None,
        }
    }
}

// The value of the tree that the nodes write down. None if they write down no tree, or if the stack has too few places for it.
pub fn evaluate<T: Copy, L: Logic + Copy, C: Leaves<T, L>>(
    nodes: &[Node<T>],
    leaves: &C,
    stack: &mut [L],
) -> Option<L>
    ensures { Evaluation L.ops L.fits (C.shows leaves.now) nodes.now (length stack.old) result }
{
    let mut stack = Stack {
        places: stack,
        used: 0,
    };
    stack.run(nodes, leaves)
}
