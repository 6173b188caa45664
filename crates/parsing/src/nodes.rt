// Copyright (c) The nextest Contributors
// SPDX-License-Identifier: MIT OR Apache-2.0

// What is read of a filter: sets and the signs that join them.
use expression::name_matcher::MatchKind;
use expression::queries::BuildPlatform;
use glob::place::Place;
use unicode_string::Name;

// The sets that take a name.
#[derive(Clone, Copy)]
pub enum Predicate {
    Package,
    Deps,
    Rdeps,
    Kind,
    BinaryId,
    Binary,
    Test,
    Group,
}

#[derive(Clone, Copy)]
pub struct NameMatcher {
    pub kind: MatchKind,
    pub name: Name,
}

// A set, with the part of the text that a report on it speaks of: the argument, or the whole of `default()`.
#[derive(Clone, Copy)]
pub enum ParsedLeaf {
    Matched(Predicate, NameMatcher, Place),
    Platform(BuildPlatform, Place),
    Default(Place),
    All,
    None,
}

// A sign that joins two operands.
#[derive(Clone, Copy)]
pub enum Operator {
    Union,
    Intersection,
    Difference,
}

// A node of a filter in postfix: operands come before what joins, negates or brackets them.
#[derive(Clone, Copy)]
pub enum ParsedNode {
    Set(ParsedLeaf),
    Not,
    Parens,
    Joined(Operator),
}
