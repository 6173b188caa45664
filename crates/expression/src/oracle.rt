// Copyright (c) The nextest Contributors
// SPDX-License-Identifier: MIT OR Apache-2.0

// Which package depends on which: oracles take the place of a package graph.
ghost use Rattle.std.specs.Prelude.{◌≡◌, ℕ, ◌<◌, Bool, true, ◌&&◌, ◌||◌};
ghost use Rattle.expression.specs.NumberSets.{size, member};
ghost use Rattle.expression.specs.Dependencies.{Known};
ghost use Rattle.expression.specs.Oracles.{reachable, Closure, table_depends};
ghost use Rattle.expression.specs.Closing.{WithEdge, Direct, Joined};

use crate::number_set::{NumberSet, SIZE};

// A fixed relation between package numbers. A number that the oracle does not know depends on nothing, and nothing on it.
pub trait DependencyOracle {
    ghost depends: { Self → ℕ → ℕ → Bool };

    fn depends_on(&self, a: usize, b: usize) -> bool
        ensures { result ≡ depends self.now a b };
}

// A package and one that it depends on directly.
#[derive(Clone, Copy, PartialEq, Eq, Debug)]
pub struct Edge {
    pub from: usize,
    pub to: usize,
}

// A set that has k takes what the set of k has.
fn join(set: &mut NumberSet, k: usize, through: &NumberSet)
    ensures { (n : ℕ) → member set.new.words n ≡ (member set.old.words n || (member set.old.words k && member through.now.words n)) }
{
    if set.contains(k) {
        set.unite(through);
    }
}

// What is reached over direct edges.
#[derive(Clone, Copy, PartialEq, Eq, Debug)]
pub struct Reachability {
    rows: [NumberSet; SIZE],
}

impl Reachability {
    // A package is known if it stands in an edge of two packages below 64, and other edges are skipped. A known package depends on itself and on what a chain of edges leads to.
    pub fn new(edges: &[Edge]) -> Self
        ensures closure { Closure edges.now result }
        ensures known { (a b : ℕ) → reachable result a b ≡ true → Known edges.now a × Known edges.now b }
    {
        let mut reached = Reachability::direct(edges);
        for k in 0..SIZE {
            reached.join_through(k);
        }
        reached
    }

    // The edges without a chain, and each of their packages with itself.
    fn direct(edges: &[Edge]) -> Self
        ensures { Direct edges.now result.rows }
    {
        let mut reached = Reachability {
            rows: [NumberSet::new(); SIZE],
        };
        for edge in edges {
            reached.add(*edge);
        }
        reached
    }

    // Adds what one edge says. An edge with a package that is not below 64 is skipped.
    fn add(&mut self, edge: Edge)
        ensures { WithEdge self.old.rows edge self.new.rows }
    {
        let Edge { from, to } = edge;
        if from < SIZE && to < SIZE {
            self.rows[from].insert(from);
            self.rows[from].insert(to);
            self.rows[to].insert(to);
        }
    }

    // Each set that has k takes what the set of k has.
    fn join_through(&mut self, k: usize)
        requires { k < size }
        ensures { Joined self.old.rows k self.new.rows }
    {
        let through = self.rows[k];
        for row in &mut self.rows {
            join(row, k, &through);
        }
    }
}

impl DependencyOracle for Reachability {
    ghost depends = { reachable };

    fn depends_on(&self, a: usize, b: usize) -> bool {
        self.rows.get(a).is_some_and(|row| row.contains(b))
    }
}

// How many packages a table of bits can know: a row has a bit for each.
const ROW_BITS: usize = 64;

// A table of bits: bit b of row a says that a depends on b. Rows past the first 64 are not used, and a number without a row is unknown.
#[derive(Clone, Copy, PartialEq, Eq, Debug)]
pub struct BitTable<'a> {
    pub rows: &'a [u64],
}

impl DependencyOracle for BitTable<'_> {
    ghost depends = { λ s. table_depends s.rows.now };

    #[tactic(auto, unfolding(crate::specs::NumberSets::bit))]
    fn depends_on(&self, a: usize, b: usize) -> bool {
        let known = self.rows.len().min(ROW_BITS);
        a < known && b < known && (self.rows[a] >> b) % 2 == 1
    }
}
