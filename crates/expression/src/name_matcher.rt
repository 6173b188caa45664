// Copyright (c) The nextest Contributors
// SPDX-License-Identifier: MIT OR Apache-2.0

// Which names a value takes: those equal to it, those that contain it, or those that match it as a glob.
ghost use Rattle.std.specs.Prelude.{◌≡◌, Decides};
ghost use Rattle.expression.specs.Names.{holds, is_taken, Taken};

use glob::matcher::Matcher;

// How a name is compared with a value.
#[derive(Clone, Copy, PartialEq, Eq, Debug)]
pub enum MatchKind {
    Equal,
    Contains,
    Glob,
}

// Whether the value stands somewhere in the name.
fn stands_in(value: &[u8], name: &[u8]) -> bool
    ensures { result ≡ holds value.now name.now }
{
    let mut rest = name;
    while let [_, after @ ..] = rest {
        if rest.starts_with(value) {
            return true;
        }
        rest = after;
    }
    value.is_empty()
}

impl MatchKind {
    // Whether the name is taken. A glob is asked of the matcher.
    pub fn is_match<M: Matcher>(self, matcher: &M, value: &[u8], name: &[u8]) -> bool
        ensures value { result ≡ is_taken (M.matches matcher.now) self value.now name.now }
        ensures meaning { Decides result (Taken (M.matches matcher.now) self value.now name.now) }
    {
        match self {
            MatchKind::Equal => value == name,
            MatchKind::Contains => stands_in(value, name),
            MatchKind::Glob => matcher.is_match(value, name),
        }
    }
}
