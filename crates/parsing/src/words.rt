// Copyright (c) The nextest Contributors
// SPDX-License-Identifier: MIT OR Apache-2.0

// What the rest of a text begins with: set names, signs and marks.
ghost use Rattle.std.specs.Prelude.{◌≡◌, ◌+◌, ◌<◌, ◌≤◌, true, not, length, map, IfSome, ◌++◌, slice_index};
ghost use Rattle.unicode_string.specs.Text.{is_word};
ghost use Rattle.parsing.specs.declared.words.Mark.TheVariants as mark;
ghost use Rattle.parsing.specs.Text.{begins_at, keyword_at};
ghost use Rattle.parsing.specs.Words.{first_at, bytes_of, begun_by, read_of, paired, set_entries, sign_entries, or_entries, and_entries, opening_at, or_sign_at, and_sign_at, mark_at};

use crate::nodes::Operator::{self, Difference, Intersection, Union};
use crate::nodes::Predicate::{self, Binary, BinaryId, Deps, Group, Kind, Package, Rdeps, Test};
use Word::{Keyword, Letters};
use errors::reports::ReportKind::{
    self, ExprFoundBinaryOp, ExprFoundUnaryOp, InvalidAndOperator, InvalidOrOperator,
};
use expression::name_matcher::MatchKind;
use unicode_string::tables::is_word;

// The sets that take no argument.
#[derive(Clone, Copy)]
pub(crate) enum Nullary {
    Default,
    All,
    None,
}

#[derive(Clone, Copy)]
pub(crate) enum SetName {
    Matched(Predicate),
    Platform,
    Nullary(Nullary),
}

// What an operand begins with; an operator that stands where an operand belongs is reported.
#[derive(Clone, Copy)]
pub(crate) enum Lead {
    Set(SetName),
    Not,
    Group,
    Misplaced(ReportKind),
}

// What an operand begins with, and the bytes of it.
#[derive(Clone, Copy)]
pub(crate) struct Opening {
    pub(crate) lead: Lead,
    pub(crate) length: usize,
}

// A sign that joins, its bytes, and the report on a sign of another language.
#[derive(Clone, Copy)]
pub(crate) struct Sign {
    pub(crate) operator: Operator,
    pub(crate) fault: Option<ReportKind>,
    pub(crate) length: usize,
}

// What an argument begins with.
#[derive(Clone, Copy)]
pub(crate) enum Mark {
    Regex,
    Marked(MatchKind),
    Unmarked,
}

// A word to look for; no word byte goes on after a keyword.
#[derive(Clone, Copy)]
enum Word {
    Letters(&'static [u8]),
    Keyword(&'static [u8]),
}

// The word stands at `at`. Byte by byte, so that a test for a known word comes down to tests on its bytes.
#[inline(always)]
pub(crate) fn begins(text: &[u8], at: usize, word: &[u8]) -> bool
    requires { at ≤ length text.now }
    ensures value { result ≡ begins_at text.now at word.now }
    ensures fits { result ≡ true → at + length word.now ≤ length text.now }
{
    let mut i = 0;
    while i < word.len() {
        if at + i >= text.len() {
            return false;
        }
        if text[at + i] != word[i] {
            return false;
        }
        i += 1;
    }
    true
}

// Whether no word goes on at `at`.
fn word_boundary(text: &[u8], at: usize) -> bool
    ensures { result ≡ not (is_word (slice_index text.now at)) }
{
    if at >= text.len() {
        return true;
    }
    !is_word(text[at])
}

// The word stands at `at`, and no word byte after it.
#[inline(always)]
fn keyword(text: &[u8], at: usize, word: &[u8]) -> bool
    requires { at ≤ length text.now }
    ensures value { result ≡ keyword_at text.now at word.now }
    ensures fits { result ≡ true → at + length word.now ≤ length text.now }
{
    if !begins(text, at, word) {
        return false;
    }
    word_boundary(text, at + word.len())
}

impl Word {
    #[inline(always)]
    fn bytes(self) -> &'static [u8]
        ensures { result.now ≡ bytes_of self }
    {
        match self {
            Letters(bytes) | Keyword(bytes) => bytes,
        }
    }

    // Whether the rest begins with it.
    #[inline(always)]
    fn begins(self, rest: &[u8]) -> bool
        ensures value { result ≡ begun_by rest.now self }
        ensures fits { result ≡ true → length (bytes_of self) ≤ length rest.now }
    {
        match self {
            Letters(bytes) => begins(rest, 0, bytes),
            Keyword(bytes) => keyword(rest, 0, bytes),
        }
    }
}

// The bytes of the first of these words that the rest begins with, and what it says. The words stand in the code, so that each
// test is on bytes that are known: with a search of a table of values a text took two to seven times as long.
macro_rules! first_of {
    ($rest:expr; $(($word:expr, $says:expr)),* $(,)?) => {{
        $(
            if $word.begins($rest) {
                return Some(($word.bytes().len(), $says));
            }
        )*
        None
    }};
}

// What an operand begins with. No set name is the start of one below it: `binary` comes after `binary_id`.
fn first_opening(rest: &[u8]) -> Option<(usize, Lead)>
    ensures value { result ≡ read_of (first_at (set_entries ++ sign_entries) rest.now 0) }
    ensures fits { IfSome result (λ r. r.0 ≤ length rest.now) }
{
    first_of!(rest;
        (Letters(b"package"), Lead::Set(SetName::Matched(Package))),
        (Letters(b"deps"), Lead::Set(SetName::Matched(Deps))),
        (Letters(b"rdeps"), Lead::Set(SetName::Matched(Rdeps))),
        (Letters(b"kind"), Lead::Set(SetName::Matched(Kind))),
        (Letters(b"binary_id"), Lead::Set(SetName::Matched(BinaryId))),
        (Letters(b"binary"), Lead::Set(SetName::Matched(Binary))),
        (Letters(b"test"), Lead::Set(SetName::Matched(Test))),
        (Letters(b"group"), Lead::Set(SetName::Matched(Group))),
        (Letters(b"platform"), Lead::Set(SetName::Platform)),
        (Letters(b"default"), Lead::Set(SetName::Nullary(Nullary::Default))),
        (Letters(b"all"), Lead::Set(SetName::Nullary(Nullary::All))),
        (Letters(b"none"), Lead::Set(SetName::Nullary(Nullary::None))),
        (Keyword(b"not"), Lead::Not),
        (Letters(b"!"), Lead::Not),
        (Letters(b"("), Lead::Group),
        (Keyword(b"and"), Lead::Misplaced(ExprFoundBinaryOp)),
        (Keyword(b"or"), Lead::Misplaced(ExprFoundBinaryOp)),
        (Keyword(b"AND"), Lead::Misplaced(ExprFoundBinaryOp)),
        (Keyword(b"OR"), Lead::Misplaced(ExprFoundBinaryOp)),
        (Letters(b"&&"), Lead::Misplaced(ExprFoundBinaryOp)),
        (Letters(b"||"), Lead::Misplaced(ExprFoundBinaryOp)),
        (Keyword(b"NOT"), Lead::Misplaced(ExprFoundUnaryOp)),
    )
}

// The signs that join operands of an or-expression.
fn first_or_sign(rest: &[u8]) -> Option<(usize, (Operator, Option<ReportKind>))>
    ensures value { result ≡ read_of (first_at (map paired or_entries) rest.now 0) }
    ensures fits { IfSome result (λ r. r.0 ≤ length rest.now) }
{
    first_of!(rest;
        (Letters(b"||"), (Union, Some(InvalidOrOperator))),
        (Keyword(b"OR"), (Union, Some(InvalidOrOperator))),
        (Keyword(b"or"), (Union, None)),
        (Letters(b"|"), (Union, None)),
        (Letters(b"+"), (Union, None)),
    )
}

// The signs that join operands of an and-expression.
fn first_and_sign(rest: &[u8]) -> Option<(usize, (Operator, Option<ReportKind>))>
    ensures value { result ≡ read_of (first_at (map paired and_entries) rest.now 0) }
    ensures fits { IfSome result (λ r. r.0 ≤ length rest.now) }
{
    first_of!(rest;
        (Letters(b"&&"), (Intersection, Some(InvalidAndOperator))),
        (Keyword(b"AND"), (Intersection, Some(InvalidAndOperator))),
        (Keyword(b"and"), (Intersection, None)),
        (Letters(b"&"), (Intersection, None)),
        (Letters(b"-"), (Difference, None)),
    )
}

// What an operand begins with.
pub(crate) fn opening_at(rest: &[u8]) -> Option<Opening>
    ensures value { result ≡ opening_at rest.now 0 }
    ensures fits { IfSome result (λ o. (0 < o.length) × (o.length ≤ length rest.now)) }
{
    let (length, lead) = first_opening(rest)?;
    Some(Opening { lead, length })
}

// The sign that joins operands of an or-expression.
pub(crate) fn or_sign_at(rest: &[u8]) -> Option<Sign>
    ensures value { result ≡ or_sign_at rest.now 0 }
    ensures fits { IfSome result (λ s. (0 < s.length) × (s.length ≤ length rest.now)) }
{
    let (length, (operator, fault)) = first_or_sign(rest)?;
    Some(Sign {
        operator,
        fault,
        length,
    })
}

// The sign that joins operands of an and-expression.
pub(crate) fn and_sign_at(rest: &[u8]) -> Option<Sign>
    ensures value { result ≡ and_sign_at rest.now 0 }
    ensures fits { IfSome result (λ s. (0 < s.length) × (s.length ≤ length rest.now)) }
{
    let (length, (operator, fault)) = first_and_sign(rest)?;
    Some(Sign {
        operator,
        fault,
        length,
    })
}

// What an argument begins with.
#[tactic(auto, unfolding(crate::specs::Words::mark_at))]
pub(crate) fn mark_at(rest: &[u8]) -> Mark
    ensures value { result ≡ mark_at rest.now 0 }
    ensures fits { length rest.now ≡ 0 → result ≡ mark.Unmarked }
{
    match rest {
        [b'/', ..] => Mark::Regex,
        [b'#', ..] => Mark::Marked(MatchKind::Glob),
        [b'=', ..] => Mark::Marked(MatchKind::Equal),
        [b'~', ..] => Mark::Marked(MatchKind::Contains),
        _ => Mark::Unmarked,
    }
}
