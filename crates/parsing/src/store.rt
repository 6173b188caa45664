// Copyright (c) The nextest Contributors
// SPDX-License-Identifier: MIT OR Apache-2.0

// Room that is there from the start.
ghost use Rattle.std.specs.Prelude.{◌≡◌, ◌≤◌, [], IfOk, vec_capacity};

use crate::nodes::ParsedNode;
use std::alloc::{AllocError, Global};

// Items in a row, with room for N at least.
#[derive(Drop)]
pub struct Roomy<T: Drop, const N: usize> {
    pub items: Vec<T>,
    ghost room: { N ≤ vec_capacity items },
}

impl<T: Drop, const N: usize> Roomy<T, N> {
    pub fn new(heap: Global) -> Result<Self, AllocError>
        ensures { IfOk result (λ r. r.items.items ≡ []) }
    {
        let items = Vec::with_capacity(heap, N)?;
        Ok(Roomy { items })
    }

    // The items, from the first on.
    pub fn as_slice(&self) -> &[T]
        ensures { result.now ≡ self.now.items.items }
    {
        self.items.as_slice()
    }
}

// The nodes of a filter in postfix, operands first, with room for those of every filter: each of at most 128 parts has one.
pub type ParsedNodes = Roomy<ParsedNode, 128>;
