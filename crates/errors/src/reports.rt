// Copyright (c) The nextest Contributors
// SPDX-License-Identifier: MIT OR Apache-2.0

// Reports: what is wrong at which part of a filter's text.
ghost use Rattle.std.specs.Prelude.{◌≡◌, [], ◌∷◌, ◌++◌, length, Some, codes, decimal, slice_index_or};
ghost use Rattle.std.proofs.lemmas.List.Edits.{sets};
ghost use Rattle.errors.specs.Kinds.{name_of, number_of, kinds};
ghost use Rattle.errors.specs.Reports.{log, made};

use std::fmt;

// The kinds of report.
#[derive(Clone, Copy, PartialEq, Eq, Debug)]
pub enum ReportKind {
    // A glob that is not well formed.
    InvalidGlob,
    // A predicate that this kind of filter does not allow.
    BannedPredicate,
    // `||` or `OR` where `|`, `+` or `or` belongs.
    InvalidOrOperator,
    // `&&` or `AND` where `&` or `and` belongs.
    InvalidAndOperator,
    // Something between the brackets of a set that takes no argument.
    UnexpectedArgument,
    // A comma, since no set takes two arguments.
    UnexpectedComma,
    // A name without a byte.
    InvalidString,
    // A missing `(`.
    ExpectedOpenParenthesis,
    // A missing `)`.
    ExpectedCloseParenthesis,
    // A backslash that begins no escape.
    InvalidEscapeCharacter,
    // A missing expression.
    ExpectedExpr,
    // An operator of two operands where an expression belongs.
    ExprFoundBinaryOp,
    // `NOT` where an expression belongs.
    ExprFoundUnaryOp,
    // Text after the end of the expression.
    ExpectedEndOfExpression,
    // No package matches.
    NoPackageMatch,
    // No test group matches.
    NoGroupMatch,
    // No binary has such an id.
    NoBinaryIdMatch,
    // No binary has such a name.
    NoBinaryNameMatch,
    // Neither `host` nor `target`.
    InvalidPlatformArgument,
}

impl ReportKind {
    // The kind's number, from 0, in the order in which the kinds are declared.
    pub fn number(self) -> u8
        ensures value { result ≡ number_of self }
        ensures listed { slice_index_or kinds result self ≡ self }
        ensures all { length kinds ≡ 19 }
    {
        self as u8
    }

    // The kind's name, as it is printed. Each is written out, since the names are promised and a derived `Debug` promises none.
    pub fn name(self) -> &'static str
        ensures { result.now ≡ name_of self }
    {
        match self {
            ReportKind::InvalidGlob => "InvalidGlob",
            ReportKind::BannedPredicate => "BannedPredicate",
            ReportKind::InvalidOrOperator => "InvalidOrOperator",
            ReportKind::InvalidAndOperator => "InvalidAndOperator",
            ReportKind::UnexpectedArgument => "UnexpectedArgument",
            ReportKind::UnexpectedComma => "UnexpectedComma",
            ReportKind::InvalidString => "InvalidString",
            ReportKind::ExpectedOpenParenthesis => "ExpectedOpenParenthesis",
            ReportKind::ExpectedCloseParenthesis => "ExpectedCloseParenthesis",
            ReportKind::InvalidEscapeCharacter => "InvalidEscapeCharacter",
            ReportKind::ExpectedExpr => "ExpectedExpr",
            ReportKind::ExprFoundBinaryOp => "ExprFoundBinaryOp",
            ReportKind::ExprFoundUnaryOp => "ExprFoundUnaryOp",
            ReportKind::ExpectedEndOfExpression => "ExpectedEndOfExpression",
            ReportKind::NoPackageMatch => "NoPackageMatch",
            ReportKind::NoGroupMatch => "NoGroupMatch",
            ReportKind::NoBinaryIdMatch => "NoBinaryIdMatch",
            ReportKind::NoBinaryNameMatch => "NoBinaryNameMatch",
            ReportKind::InvalidPlatformArgument => "InvalidPlatformArgument",
        }
    }
}

// Shown by its name.
impl fmt::Display for ReportKind {
    ghost output = { λ k. Some (name_of k) };

    fn fmt<W: fmt::Write>(&self, f: &mut fmt::Formatter<W>) -> fmt::Result {
        f.write_str(self.name())
    }
}

// A report: its kind, and the part of the text that it speaks of, in bytes.
#[derive(Clone, Copy, PartialEq, Eq, Debug)]
pub struct Report {
    pub kind: ReportKind,
    pub start: usize,
    pub length: usize,
}

impl Report {
    // Keeps the report as number n of the table, from 0, while the table has room.
    pub fn keep(self, table: &mut [Report], n: usize)
        ensures { table.new ≡ sets table.old n (self ∷ []) }
    {
        if n < table.len() {
            table[n] = self;
        }
    }
}

// Shown as `Kind@start+length`.
impl fmt::Display for Report {
    ghost output = { λ x. Some (name_of x.kind ++ (codes "@" ++ (decimal x.start ++ (codes "+" ++ decimal x.length)))) };

    fn fmt<W: fmt::Write>(&self, f: &mut fmt::Formatter<W>) -> fmt::Result {
        write!(f, "{}@{}+{}", self.kind, self.start, self.length)
    }
}

// Reports on one text: a lent table that holds the first ones, as many as fit; how many were made; and where the first starts.
#[derive(Drop)]
pub struct Reports<'a> {
    pub table: &'a mut [Report],
    pub count: usize,
    pub first: Option<usize>,
}

impl Reports<'_> {
    // Makes a report, and keeps it while the table has room.
    pub fn report(&mut self, kind: ReportKind, start: usize, length: usize)
        ensures { log self.new ≡ made (log self.old) (record { kind = kind; start = start; length = length } ∷ []) }
    {
        let report = Report {
            kind,
            start,
            length,
        };
        report.keep(self.table, self.count);
        self.first = self.first.or(Some(start));
        self.count = self.count.saturating_add(1);
    }
}
