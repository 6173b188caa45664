// Copyright (c) The nextest Contributors
// SPDX-License-Identifier: MIT OR Apache-2.0

// A lowered filter: its nodes in postfix order, and names of its own.
ghost use Rattle.std.specs.Prelude.{◌≡◌, [], IfOk, None};

use expression::name_matcher::MatchKind;
use expression::nodes::Node;
use expression::number_set::NumberSet;
use expression::queries::BuildPlatform;
use glob::place::Place;
use parsing::store::Roomy;
use std::alloc::{AllocError, Global};

// A name that a filter keeps: how it is matched, and its place in the filter's names.
#[derive(Clone, Copy, PartialEq, Eq, Debug)]
pub struct OwnName {
    pub kind: MatchKind,
    pub place: Place,
}

// A set: packages or groups by number, or what a field of a query has to be.
#[derive(Clone, Copy, PartialEq, Eq, Debug)]
pub enum FilterLeaf {
    Packages(NumberSet),
    Groups(NumberSet),
    Kind(OwnName),
    BinaryId(OwnName),
    Binary(OwnName),
    Test(OwnName),
    Platform(BuildPlatform),
    Default,
    All,
    None,
}

// Nodes in postfix order, with room for those of every filter: three for two of its at most 128 parts.
pub type FilterNodes = Roomy<Node<FilterLeaf>, 191>;

// Names end to end, with room for those of every filter: no more bytes than its text.
pub type FilterNames = Roomy<u8, 1024>;

// A filter: its nodes, its names, and where the name of its leftmost `group` starts in its text.
#[derive(Drop)]
pub struct Filter {
    pub(crate) nodes: FilterNodes,
    pub(crate) names: FilterNames,
    pub(crate) group: Option<usize>,
}

impl Filter {
    // A filter without a node, with room for every other.
    pub fn new(heap: Global) -> Result<Self, AllocError>
        ensures { IfOk result (λ f. (f.nodes.items.items ≡ []) × (f.names.items.items ≡ []) × (f.group ≡ None)) }
    {
        Ok(Filter {
            nodes: Roomy::new(heap)?,
            names: Roomy::new(heap)?,
            group: None,
        })
    }

    // The nodes, operands first.
    pub fn nodes(&self) -> &[Node<FilterLeaf>]
        ensures { result.now ≡ self.now.nodes.items.items }
    {
        self.nodes.items.as_slice()
    }

    // The names that its leaves have places in.
    pub fn names(&self) -> &[u8]
        ensures { result.now ≡ self.now.names.items.items }
    {
        self.names.items.as_slice()
    }

    // Where the name of its leftmost `group` starts in its text.
    pub fn group(&self) -> Option<usize>
        ensures { result ≡ self.now.group }
    {
        self.group
    }
}
