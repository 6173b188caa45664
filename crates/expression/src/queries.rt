// Copyright (c) The nextest Contributors
// SPDX-License-Identifier: MIT OR Apache-2.0

// What is asked of a filter: a binary, or a test in a binary.

// The platform that a binary is built for.
#[derive(Clone, Copy, PartialEq, Eq, Debug)]
pub enum BuildPlatform {
    Host,
    Target,
}

// A binary: its package by number, its id, its name, its kind and its platform.
#[derive(Clone, Copy, PartialEq, Eq, Debug)]
pub struct BinaryQuery<'a> {
    pub package: usize,
    pub binary_id: &'a [u8],
    pub binary_name: &'a [u8],
    pub kind: &'a [u8],
    pub platform: BuildPlatform,
}

// A test: its binary and its name.
#[derive(Clone, Copy, PartialEq, Eq, Debug)]
pub struct TestQuery<'a> {
    pub binary: BinaryQuery<'a>,
    pub test_name: &'a [u8],
}
