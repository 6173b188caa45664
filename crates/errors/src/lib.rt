// Copyright (c) The nextest Contributors
// SPDX-License-Identifier: MIT OR Apache-2.0

#![tactic(auto)]

// What can be wrong with a filter: reports on its text, and faults by the layer that finds them.
pub mod faults;
pub mod reports;
pub mod texts;
