// Copyright (c) The nextest Contributors
// SPDX-License-Identifier: MIT OR Apache-2.0

#![tactic(auto)]

// Lowering: what was read of a filter becomes nodes over the caller's tables.
pub mod filter;
mod ground;
pub mod kinds;
mod lowering;
mod matching;
pub mod meaning;
pub mod tables;
