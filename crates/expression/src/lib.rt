// Copyright (c) The nextest Contributors
// SPDX-License-Identifier: MIT OR Apache-2.0

#![tactic(auto)]

// What a filter is evaluated with: queries, name matchers, logics with one evaluator, number sets, dependency oracles and rosters.
pub mod evaluate;
pub mod logic;
pub mod name_matcher;
pub mod nodes;
pub mod number_set;
pub mod oracle;
pub mod queries;
pub mod roster;
