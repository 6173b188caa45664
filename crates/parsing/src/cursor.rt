// Copyright (c) The nextest Contributors
// SPDX-License-Identifier: MIT OR Apache-2.0

// The readers: moves of one cursor that steps over the text.
ghost use Rattle.std.specs.Prelude.{◌≡◌, ℕ, ◌+◌, ◌-◌, ◌*◌, ◌^◌, ◌<◌, ◌≤◌, Bool, true, false, length, is_some, IfSome, is_ok, if◌then◌else◌, None, Ok, Err, vec_capacity, Option};
ghost use Rattle.glob.specs.Reading.{items_of};
ghost use Rattle.parsing.specs.declared.nodes.Operator.{Operator};
ghost use Rattle.parsing.specs.Text.{skip, closing};
ghost use Rattle.parsing.specs.Words.{usual};
ghost use Rattle.parsing.specs.Reading.{◌⨾◌, platform_of, moved, note, report_of, part, expect, text_at, matcher_at, argument_at, comma_at, unary_at, platform_at, nullary_at, nothing_at, set_at, sign_for, or_sign, and_sign, opened, under_at, basic_at, and_at, or_at, end_at, filter_at};
ghost use Rattle.parsing.specs.View.{view, Reads, ReadsTree, Ran, Kept, Sound, Moved, same, nothing, name_only, matcher_only, Taken, Spelt, bytes_at};

use crate::nodes::{NameMatcher, Operator, ParsedLeaf, ParsedNode, Predicate};
use crate::text::{blanks_end, closing_bracket, is_white, platform_of};
use crate::words::{
    Lead, Mark, Nullary, SetName, Sign, and_sign_at, mark_at, opening_at, or_sign_at,
};
use errors::faults::ReadingFault;
use errors::reports::{Report, ReportKind};
use expression::name_matcher::MatchKind;
use expression::queries::BuildPlatform;
use glob::place::Place;
use glob::well_formed;
use unicode_string::{Name, Texts, is_at, parse_string};

// At most so many parts are read: sets, brackets, not signs and joining signs.
const MOST_PARTS: usize = 128;

// At most so many nests are open: a group or a `not` opens one.
pub(crate) const MOST_NESTS: usize = 32;

// A place in the text, the parts counted, the reports made and the start of the first, and what is lent to write to.
// The table and its count lie in it directly: within a struct of their own the check loses what the table holds at the end.
#[derive(Drop)]
pub(crate) struct Cursor<'a> {
    pub(crate) text: &'a [u8],
    pub(crate) pos: usize,
    pub(crate) parts: usize,
    pub(crate) count: usize,
    pub(crate) first: Option<usize>,
    pub(crate) table: &'a mut [Report],
    pub(crate) used: usize,
    pub(crate) space: &'a mut [u8; 1024],
    pub(crate) nodes: &'a mut Vec<ParsedNode>,
}

impl Predicate {
    // How a name without a mark is matched.
    fn default_matcher(self) -> MatchKind
        ensures { result ≡ usual self }
    {
        match self {
            Predicate::Kind => MatchKind::Equal,
            Predicate::Test => MatchKind::Contains,
            Predicate::Package
            | Predicate::Deps
            | Predicate::Rdeps
            | Predicate::BinaryId
            | Predicate::Binary
            | Predicate::Group => MatchKind::Glob,
        }
    }
}

// Each reader asks for `Sound`: five of its facts hold of every cursor, but the room for nodes and reports that a call uses up
// would still stand in each contract, so that a type which kept the five would shorten none.
impl Cursor<'_> {
    // Where names lie.
    fn texts(&self) -> Texts<'_>
        ensures { (result.text.now ≡ self.now.text.now) × (result.space.now ≡ self.now.space.now) }
    {
        Texts {
            text: self.text,
            space: self.space,
        }
    }

    // Whether the name is a well-formed glob.
    fn is_glob(&self, name: Name) -> bool
        ensures { result ≡ is_some (items_of (bytes_at self.now.text.now self.now.space.now name)) }
    {
        match self.texts().part(name) {
            Some(part) => well_formed(part.bytes),
            None => true,
        }
    }

    // The platform that the name says.
    fn platform_at(&self, name: Name) -> Option<BuildPlatform>
        ensures { result ≡ platform_of (bytes_at self.now.text.now self.now.space.now name) }
    {
        let part = self.texts().part(name)?;
        platform_of(part.bytes)
    }

    // Makes a report, and keeps it while the table has room.
    fn report(&mut self, kind: ReportKind, start: usize, length: usize)
        requires { self.old.count + 1 < 2 ^ 64 }
        ensures ran { Ran (same {X = Unit {0}}) (view self.old) (note tt (report_of kind start length) (view self.old).at) (view self.new) (Ok tt) }
        ensures kept { Kept self.old self.new }
    {
        let report = Report {
            kind,
            start,
            length,
        };
        report.keep(self.table, self.count);
        self.first = self.first.or(Some(start));
        self.count += 1;
    }

    fn skip_blanks(&mut self)
        requires { Sound 0 16 self.old }
        ensures ran { Reads (same {X = Unit {0}}) (λ t a. moved (skip t a.pos) a) self.old self.new (Ok tt) }
        ensures kept { Kept self.old self.new }
        ensures moved { Moved 0 0 0 self.old self.new }
    {
        self.pos = blanks_end(self.text, self.pos);
    }

    // Takes blanks and the byte; where it is missing, a report is made before the blanks.
    fn expect_char(&mut self, byte: u8, kind: ReportKind)
        requires { Sound 0 16 self.old }
        ensures ran { Reads (same {X = Unit {0}}) (λ t. expect t byte kind) self.old self.new (Ok tt) }
        ensures kept { Kept self.old self.new }
        ensures moved { Moved 0 1 0 self.old self.new }
    {
        let at = blanks_end(self.text, self.pos);
        if is_at(self.text, at, byte) {
            self.pos = at + 1;
            return;
        }
        self.report(kind, self.pos, 0);
    }

    // Counts a part.
    fn count_part(&mut self, start: usize) -> Result<(), ReadingFault>
        requires { Sound 0 16 self.old }
        ensures ran { Reads (same {X = Unit {0}}) (λ _. part start) self.old self.new result }
        ensures kept { Kept self.old self.new }
        ensures moved { Moved 0 0 0 self.old self.new }
        ensures parts { self.new.parts ≡ (if is_ok result then self.old.parts + 1 else self.old.parts) }
    {
        if self.parts >= MOST_PARTS {
            return Err(ReadingFault::Crowded {
                place: start,
                count: self.count,
            });
        }
        self.parts += 1;
        Ok(())
    }

    // Takes a name. One without a byte is reported, and is a name all the same; a faulty one is none.
    fn parse_matcher_text(&mut self) -> Option<Name>
        requires { Sound 0 16 self.old }
        ensures bytes { Spelt self.old.text.now self.new.space.now (text_at self.old.text.now (view self.old).at).value }
        ensures ran { Reads name_only text_at self.old self.new (Ok result) }
        ensures kept { Kept self.old self.new }
        ensures moved { Moved 0 1 0 self.old self.new }
    {
        let start = self.pos;
        let read = parse_string(
            self.text, start, self.table, self.count, self.space, self.used,
        );
        let Some(read) = read else { unreachable() };
        self.pos = read.end;
        self.count = read.count;
        self.used = read.used;
        self.first = self.first.or(read.first);
        if read.end == start {
            return Some(Name::InText(Place { start, length: 0 }));
        }
        read.name
    }

    // Takes a name that is matched so.
    fn parse_matcher(&mut self, kind: MatchKind) -> Option<NameMatcher>
        requires { Sound 0 16 self.old }
        ensures ran { Reads matcher_only (λ t. matcher_at t kind) self.old self.new (Ok result) }
        ensures kept { Kept self.old self.new }
        ensures moved { Moved 0 2 0 self.old self.new }
    {
        let start = self.pos;
        let name = self.parse_matcher_text()?;
        match kind {
            MatchKind::Glob => {
                if !self.is_glob(name) {
                    self.report(ReportKind::InvalidGlob, start, self.pos - start);
                    return None;
                }
            }
            MatchKind::Equal | MatchKind::Contains => {}
        }
        Some(NameMatcher { kind, name })
    }

    // Takes blanks, a mark or none, and a name.
    fn set_matcher(&mut self, usual: MatchKind) -> Result<Option<NameMatcher>, ReadingFault>
        requires { Sound 0 16 self.old }
        ensures ran { Reads matcher_only (λ t. argument_at t usual) self.old self.new result }
        ensures kept { Kept self.old self.new }
        ensures moved { Moved 0 2 0 self.old self.new }
    {
        self.skip_blanks();
        match mark_at(&self.text[self.pos..]) {
            Mark::Regex => Err(ReadingFault::Regex {
                place: self.pos,
                count: self.count,
            }),
            Mark::Marked(kind) => {
                self.pos += 1;
                Ok(self.parse_matcher(kind))
            }
            Mark::Unmarked => Ok(self.parse_matcher(usual)),
        }
    }

    // Takes all up to the next `)`, and answers where it began.
    fn take_run(&mut self) -> usize
        requires { Sound 0 16 self.old }
        ensures value { result ≡ self.old.pos }
        ensures ran { Reads (same {X = Unit {0}}) (λ t a. moved (closing t a.pos) a) self.old self.new (Ok tt) }
        ensures kept { Kept self.old self.new }
        ensures moved { Moved 0 0 0 self.old self.new }
    {
        let start = self.pos;
        self.pos = closing_bracket(self.text, start);
        start
    }

    // A comma is reported, and all up to `)` is passed over.
    fn recover_unexpected_comma(&mut self)
        requires { Sound 0 16 self.old }
        ensures ran { Reads (same {X = Unit {0}}) comma_at self.old self.new (Ok tt) }
        ensures kept { Kept self.old self.new }
        ensures moved { Moved 0 1 0 self.old self.new }
    {
        if is_at(self.text, self.pos, b',') {
            let start = self.take_run();
            self.report(ReportKind::UnexpectedComma, start, 0);
        }
    }

    // Takes what follows the name of a set that takes a name.
    fn unary_set_def(&mut self, predicate: Predicate) -> Result<(), ReadingFault>
        requires { Sound 1 8 self.old }
        ensures read { ReadsTree (λ t. unary_at t predicate) self.old self.new result }
        ensures moved { Moved 0 6 1 self.old self.new }
    {
        self.expect_char(b'(', ReportKind::ExpectedOpenParenthesis);
        let start = self.pos;
        let matcher = self.set_matcher(predicate.default_matcher())?;
        let length = self.pos - start;
        self.recover_unexpected_comma();
        self.expect_char(b')', ReportKind::ExpectedCloseParenthesis);
        if let Some(matcher) = matcher {
            self.nodes.push_reserved(ParsedNode::Set(ParsedLeaf::Matched(
                predicate,
                matcher,
                Place { start, length },
            )));
        }
        Ok(())
    }

    // Takes what follows `platform`.
    fn platform_def(&mut self)
        requires { Sound 1 8 self.old }
        ensures read { ReadsTree platform_at self.old self.new (Ok tt) }
        ensures moved { Moved 0 6 1 self.old self.new }
    {
        self.expect_char(b'(', ReportKind::ExpectedOpenParenthesis);
        let start = self.pos;
        self.skip_blanks();
        let name = self.parse_matcher_text();
        let length = self.pos - start;
        self.recover_unexpected_comma();
        self.expect_char(b')', ReportKind::ExpectedCloseParenthesis);
        let Some(name) = name else {
            return;
        };
        match self.platform_at(name) {
            Some(platform) => self.nodes.push_reserved(ParsedNode::Set(ParsedLeaf::Platform(
                platform,
                Place { start, length },
            ))),
            None => self.report(ReportKind::InvalidPlatformArgument, start, length),
        }
    }

    // Takes all up to `)`, and reports what is not white space.
    fn take_nothing(&mut self)
        requires { Sound 0 16 self.old }
        ensures ran { Reads (same {X = Unit {0}}) nothing_at self.old self.new (Ok tt) }
        ensures kept { Kept self.old self.new }
        ensures moved { Moved 0 1 0 self.old self.new }
    {
        let text = self.text;
        let start = self.take_run();
        let end = self.pos;
        if !is_white(&text[start..end]) {
            self.report(ReportKind::UnexpectedArgument, start, end - start);
        }
    }

    // Takes what follows the name of a set that takes nothing; the name begins at `start`.
    fn nullary_set_def(&mut self, set: Nullary, start: usize)
        requires sound { Sound 1 8 self.old }
        requires start { start ≤ self.old.pos }
        ensures read { ReadsTree (λ t. nullary_at t set start) self.old self.new (Ok tt) }
        ensures moved { Moved 0 6 1 self.old self.new }
    {
        self.expect_char(b'(', ReportKind::ExpectedOpenParenthesis);
        self.take_nothing();
        self.expect_char(b')', ReportKind::ExpectedCloseParenthesis);
        let leaf = match set {
            Nullary::Default => ParsedLeaf::Default(Place {
                start,
                length: self.pos - start,
            }),
            Nullary::All => ParsedLeaf::All,
            Nullary::None => ParsedLeaf::None,
        };
        self.nodes.push_reserved(ParsedNode::Set(leaf));
    }

    // Takes what follows the name of a set; the name begins at `start`.
    fn parse_set_def(&mut self, set: SetName, start: usize) -> Result<(), ReadingFault>
        requires sound { Sound 1 8 self.old }
        requires start { start ≤ self.old.pos }
        ensures read { ReadsTree (λ t. set_at t start set) self.old self.new result }
        ensures moved { Moved 0 6 1 self.old self.new }
    {
        match set {
            SetName::Matched(predicate) => self.unary_set_def(predicate)?,
            SetName::Platform => self.platform_def(),
            SetName::Nullary(nullary) => self.nullary_set_def(nullary, start),
        }
        Ok(())
    }

    // Takes the sign that begins at `start`, if there is one, and counts it; a foreign one is reported.
    fn take_sign(
        &mut self,
        start: usize,
        sign: Option<Sign>,
    ) -> Result<Option<Operator>, ReadingFault>
        requires sound { Sound 0 16 self.old }
        requires start { self.old.pos ≤ start }
        requires fits { IfSome sign (λ s. (0 < s.length) × (start + s.length ≤ length self.old.text.now)) }
        ensures ran { Reads (same {X = Option Operator}) (λ _. sign_for start sign) self.old self.new result }
        ensures kept { Kept self.old self.new }
        ensures moved { Taken result self.old self.new }
        ensures stays { result ≡ Ok None → view self.new ≡ view self.old }
    {
        let Some(sign) = sign else {
            return Ok(None);
        };
        self.pos = start + sign.length;
        self.count_part(start)?;
        if let Some(kind) = sign.fault {
            self.report(kind, start, sign.length);
        }
        Ok(Some(sign.operator))
    }

    // Takes blanks and a sign that joins operands of an or-expression, if there is one.
    // What it shares with the next function is `take_sign`: one function for both, told its signs, would be no shorter.
    fn parse_or_operator(&mut self) -> Result<Option<Operator>, ReadingFault>
        requires { Sound 0 16 self.old }
        ensures ran { Reads (same {X = Option Operator}) or_sign self.old self.new result }
        ensures kept { Kept self.old self.new }
        ensures moved { Taken result self.old self.new }
        ensures stays { result ≡ Ok None → view self.new ≡ view self.old }
    {
        let start = blanks_end(self.text, self.pos);
        self.take_sign(start, or_sign_at(&self.text[start..]))
    }

    // Takes blanks and a sign that joins operands of an and-expression, if there is one.
    fn parse_and_or_difference_operator(&mut self) -> Result<Option<Operator>, ReadingFault>
        requires { Sound 0 16 self.old }
        ensures ran { Reads (same {X = Option Operator}) and_sign self.old self.new result }
        ensures kept { Kept self.old self.new }
        ensures moved { Taken result self.old self.new }
        ensures stays { result ≡ Ok None → view self.new ≡ view self.old }
    {
        let start = blanks_end(self.text, self.pos);
        self.take_sign(start, and_sign_at(&self.text[start..]))
    }

    // An or-expression: and-expressions joined from the left, with `free` nests left.
    // The two levels stay apart, as in the grammar: one reader for both would have to ask for its level at every sign and operand.
    #[cycle(expr)]
    fn parse_expr(&mut self, free: usize) -> Result<(), ReadingFault>
        requires { Sound 0 1 self.old }
        ensures read { ReadsTree (λ t. or_at t free) self.old self.new result }
        ensures moved { Moved 0 1 0 self.old self.new }
    {
        self.parse_and_or_difference_expr(free)?;
        while let Some(operator) = self.parse_or_operator()? {
            self.parse_and_or_difference_expr(free)?;
            self.nodes.push_reserved(ParsedNode::Joined(operator));
        }
        Ok(())
    }

    // An and-expression: basics joined from the left.
    #[cycle(expr)]
    fn parse_and_or_difference_expr(&mut self, free: usize) -> Result<(), ReadingFault>
        requires { Sound 0 1 self.old }
        ensures read { ReadsTree (λ t. and_at t free) self.old self.new result }
        ensures moved { Moved 0 1 0 self.old self.new }
    {
        self.parse_basic_expr(free)?;
        while let Some(operator) = self.parse_and_or_difference_operator()? {
            self.parse_basic_expr(free)?;
            self.nodes.push_reserved(ParsedNode::Joined(operator));
        }
        Ok(())
    }

    // A basic: a set, a `not` with a basic, or a group. An operator in its place, or nothing of these, is reported.
    #[cycle(expr)]
    fn parse_basic_expr(&mut self, free: usize) -> Result<(), ReadingFault>
        requires { Sound 0 1 self.old }
        ensures read { ReadsTree (λ t. basic_at t free) self.old self.new result }
        ensures moved { Moved 0 1 0 self.old self.new }
    {
        let start = blanks_end(self.text, self.pos);
        let Some(opening) = opening_at(&self.text[start..]) else {
            self.report(
                ReportKind::ExpectedExpr,
                self.pos,
                self.text.len() - self.pos,
            );
            return Ok(());
        };
        self.pos = start + opening.length;
        match opening.lead {
            Lead::Set(set) => {
                self.count_part(start)?;
                self.parse_set_def(set, start)?;
            }
            Lead::Not => self.parse_expr_not(start, free)?,
            Lead::Group => self.parse_parentheses_expr(start, free)?,
            Lead::Misplaced(kind) => self.report(kind, start, opening.length),
        }
        Ok(())
    }

    // Opens one of the nests that are left; its sign, a part, begins at `start`. Answers how many are left then.
    fn open_nest(&mut self, start: usize, free: usize) -> Result<usize, ReadingFault>
        requires { Sound 0 16 self.old }
        ensures ran { Reads (same {X = ℕ}) (λ _. opened start free) self.old self.new result }
        ensures kept { Kept self.old self.new }
        ensures moved { Moved 0 0 0 self.old self.new }
        ensures parts { is_ok result ≡ true → self.new.parts ≡ self.old.parts + 1 }
    {
        self.count_part(start)?;
        match free.checked_sub(1) {
            Some(left) => Ok(left),
            None => Err(ReadingFault::Deep {
                place: start,
                count: self.count,
            }),
        }
    }

    // What follows a not sign, which begins at `start`.
    #[cycle(expr)]
    fn parse_expr_not(&mut self, start: usize, free: usize) -> Result<(), ReadingFault>
        requires { Sound 0 1 self.old }
        ensures read { ReadsTree (λ t. part start ⨾ (λ _. (under_at t free start).not)) self.old self.new result }
        ensures moved { Moved 0 1 0 self.old self.new }
    {
        let left = self.open_nest(start, free)?;
        self.parse_basic_expr(left)?;
        self.nodes.push_reserved(ParsedNode::Not);
        Ok(())
    }

    // What follows the bracket of a group, which stands at `start`.
    #[cycle(expr)]
    fn parse_parentheses_expr(&mut self, start: usize, free: usize) -> Result<(), ReadingFault>
        requires { Sound 0 1 self.old }
        ensures read { ReadsTree (λ t. part start ⨾ (λ _. (under_at t free start).group)) self.old self.new result }
        ensures moved { Moved 0 2 0 self.old self.new }
    {
        let left = self.open_nest(start, free)?;
        self.parse_expr(left)?;
        self.expect_char(b')', ReportKind::ExpectedCloseParenthesis);
        self.nodes.push_reserved(ParsedNode::Parens);
        Ok(())
    }

    // Takes blanks and the end; what is left is reported.
    fn parse_end(&mut self)
        requires { Sound 0 16 self.old }
        ensures ran { Reads (same {X = Unit {0}}) end_at self.old self.new (Ok tt) }
        ensures kept { Kept self.old self.new }
    {
        let end = blanks_end(self.text, self.pos);
        if end < self.text.len() {
            self.report(
                ReportKind::ExpectedEndOfExpression,
                self.pos,
                self.text.len() - self.pos,
            );
            return;
        }
        self.pos = end;
    }

    // A whole filter.
    pub(crate) fn parse_filter(&mut self) -> Result<(), ReadingFault>
        requires { Sound 0 1 self.old }
        ensures read { ReadsTree filter_at self.old self.new result }
        ensures cap { vec_capacity self.new.nodes.now ≡ vec_capacity self.old.nodes.now }
    {
        self.parse_expr(MOST_NESTS)?;
        self.parse_end();
        Ok(())
    }
}
