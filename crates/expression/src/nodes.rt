// Copyright (c) The nextest Contributors
// SPDX-License-Identifier: MIT OR Apache-2.0

// A filter as nodes in postfix order: the operands first, then the operator.

#[derive(Clone, Copy, PartialEq, Eq, Debug)]
pub enum Node<T> {
    Leaf(T),
    Not,
    And,
    Or,
}
