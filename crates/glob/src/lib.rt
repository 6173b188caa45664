// Copyright (c) The nextest Contributors
// SPDX-License-Identifier: MIT OR Apache-2.0

#![tactic(auto)]

// Plain globs over bytes: `*` takes any run, `?` one byte, `[..]` one listed byte, `[!..]` one unlisted byte, `\` makes the next byte plain.
ghost use Rattle.std.specs.Prelude.{◌≡◌, List, is_some, Decides};
ghost use Rattle.std.specs.Option.{option_map};
ghost use Rattle.std.specs.Iterator.{YieldsFirstBy, item_count};
ghost use Rattle.glob.specs.Glob.{Item, Pattern, is_member, takes as takes_byte, WellFormed, Matches};
ghost use Rattle.glob.specs.Reading.{ranges_of, member_of, members_of, item_of, items_of, matches};
ghost use Rattle.glob.specs.Tokens.{range_for, range_has, item_for, split, Moves};

pub mod matcher;
pub mod place;

// A member of a list: the bytes from `first` up to `last`.
#[derive(Clone, Copy)]
struct Bounds {
    first: u8,
    last: u8,
}

// An item of a pattern; a list keeps the bytes that its members stand at the start of.
#[derive(Clone, Copy)]
enum Token<'a> {
    AnyRun,
    One,
    Byte(u8),
    Listed { negated: bool, members: Members<'a> },
}

#[tactic(auto, unfolding(crate::specs::Glob::is_member))]
fn is_member(b: u8) -> bool
    ensures { result ≡ is_member b }
{
    b.is_ascii_alphanumeric() || matches!(b, b'_' | b'.' | b':')
}

// The member at the start of the bytes, and what follows it.
fn first_member(bytes: &[u8]) -> Option<(Bounds, &[u8])>
    ensures { option_map (λ x. (range_for x.0, x.1.now)) result ≡ split bytes.now (member_of bytes.now) }
{
    match *bytes {
        [first, b'-', last, ref rest @ ..]
            if is_member(first) && is_member(last) && first <= last => Some((
            Bounds { first, last },
            rest,
        )),
        [_, b'-', ..] => None,
        [b, ref rest @ ..] if is_member(b) => Some((Bounds { first: b, last: b }, rest)),
        _ => None,
    }
}

// The members at the start of some bytes.
#[derive(Clone, Copy)]
struct Members<'a>(&'a [u8]);

impl Iterator for Members<'_> {
    type Item = Bounds;

    ghost next_gives = { YieldsFirstBy range_for (λ s. ranges_of s.0.now) };

    ghost remaining = { item_count (λ s. ranges_of s.0.now) };

    fn next(&mut self) -> Option<Bounds> {
        let (m, rest) = first_member(self.0)?;
        self.0 = rest;
        Some(m)
    }
}

impl Bounds {
    // Whether the byte is one of the member's.
    fn has(self, b: u8) -> bool
        ensures { result ≡ range_has b (range_for self) }
    {
        (self.first..=self.last).contains(&b)
    }
}

// The list whose members the bytes begin with, and what follows its `]`.
fn listed(negated: bool, members: &[u8]) -> Option<(Token<'_>, &[u8])>
    ensures { option_map (λ x. (item_for x.0, x.1.now)) result ≡ split members.now (members_of negated 0 members.now) }
{
    let (_, mut end) = first_member(members)?;
    while let Some((_, after)) = first_member(end) {
        end = after;
    }
    let rest = end.strip_prefix(b"]")?;
    let members = Members(members);
    Some((Token::Listed { negated, members }, rest))
}

// The item at the start of the pattern, and what follows it.
fn first_token(pattern: &[u8]) -> Option<(Token<'_>, &[u8])>
    ensures { option_map (λ x. (item_for x.0, x.1.now)) result ≡ split pattern.now (item_of pattern.now) }
{
    let (byte, rest) = pattern.split_first()?;
    match *byte {
        b'*' => Some((Token::AnyRun, rest)),
        b'?' => Some((Token::One, rest)),
        b'\\' => {
            let (escaped, rest) = rest.split_first()?;
            Some((Token::Byte(*escaped), rest))
        }
        b'[' => match rest {
            [b'!', members @ ..] => listed(true, members),
            members => listed(false, members),
        },
        b'{' | b'}' => None,
        byte => Some((Token::Byte(byte), rest)),
    }
}

pub fn well_formed(pattern: &[u8]) -> bool
    ensures value { result ≡ is_some (items_of pattern.now) }
    ensures meaning { Decides result (WellFormed pattern.now) }
    ensures unique { (is js : List Item) → Pattern pattern.now is → Pattern pattern.now js → is ≡ js }
{
    let mut rest = pattern;
    while let Some((_, after)) = first_token(rest) {
        rest = after;
    }
    rest.is_empty()
}

impl Token<'_> {
    // Whether the item, which is no star, takes the byte.
    fn takes(self, b: u8) -> bool
        ensures { result ≡ takes_byte (item_for self.entry) b }
    {
        match self {
            Token::AnyRun => false,
            Token::One => true,
            Token::Byte(a) => a == b,
            Token::Listed {
                negated,
                mut members,
            } => members.any(|m| m.has(b)) != negated,
        }
    }
}

// What is left of a pattern, and of a name, to match with each other.
#[derive(Clone, Copy)]
struct Rest<'a> {
    pattern: &'a [u8],
    name: &'a [u8],
}

// What the first item of a pattern does, and what is left then.
#[derive(Clone, Copy)]
enum Move<'a> {
    Done,
    Star(Rest<'a>),
    Taken(Rest<'a>),
    Stuck,
}

impl<'a> Rest<'a> {
    // The first step of the matching.
    fn next(self) -> Move<'a>
        ensures { Moves self.entry result }
    {
        let Rest { pattern, name } = self;
        let Some((token, rest)) = first_token(pattern) else {
            return if pattern.is_empty() && name.is_empty() {
                Move::Done
            } else {
                Move::Stuck
            };
        };
        if let Token::AnyRun = token {
            return Move::Star(Rest {
                pattern: rest,
                name,
            });
        }
        match name {
            [b, left @ ..] if token.takes(*b) => Move::Taken(Rest {
                pattern: rest,
                name: left,
            }),
            _ => Move::Stuck,
        }
    }
}

pub fn is_match(pattern: &[u8], name: &[u8]) -> bool
    ensures value { result ≡ matches pattern.now name.now }
    ensures meaning { Decides result (Matches pattern.now name.now) }
{
    let mut now = Rest { pattern, name };
    // Where to go on after a mismatch: behind the last star, and where its run ended so far.
    let mut retry: Option<Rest> = None;
    'turns: loop {
        match now.next() {
            Move::Done => return true,
            Move::Star(rest) => {
                now = rest;
                retry = Some(rest);
            }
            Move::Taken(rest) => now = rest,
            Move::Stuck => {
                let Some(Rest { pattern, name }) = retry else {
                    return false;
                };
                let [_, name @ ..] = name else {
                    return false;
                };
                now = Rest { pattern, name };
                retry = Some(now);
            }
        }
    }
}
