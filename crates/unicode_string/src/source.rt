// Copyright (c) The nextest Contributors
// SPDX-License-Identifier: MIT OR Apache-2.0

// The text of names, as it is read.
ghost use Rattle.std.specs.Prelude.{◌≡◌, ◌+◌, ◌-◌, ◌^◌, ◌<◌, ◌≤◌, true, length};

use crate::decoded::Decoded;
use crate::{Name, StringFragment, is_at, literal_end, parse_escaped_char, plain};
use errors::reports::{Report, ReportKind};
use glob::place::Place;

// A text that is read: the place to go on at, the reports made on it, and what was decoded from it.
// The lent table lies in it directly: within a struct of its own the check loses what the table holds at the end.
#[derive(Drop)]
pub(crate) struct Source<'t, 'r, 'd> {
    pub(crate) text: &'t [u8],
    pub(crate) pos: usize,
    pub(crate) table: &'r mut [Report],
    pub(crate) count: usize,
    pub(crate) first: Option<usize>,
    pub(crate) decoded: Decoded<'d>,
    ghost within: { pos ≤ length text.now },
    ghost room: { decoded.used + (length text.now - pos) ≤ 1024 },
    ghost few: { count + (length text.now - pos) < 2 ^ 64 },
}

impl<'t> Source<'t, '_, '_> {
    ghost use Rattle.unicode_string.specs.Names.{frag_at, frags_at, name_at, moved, note, bytes_of, Scalar, more};
    ghost use Rattle.unicode_string.specs.View.{view, Ran};

    fn report(&mut self, kind: ReportKind, start: usize, size: usize)
        requires { self.old.count + 1 + (length self.old.text.now - self.old.pos) < 2 ^ 64 }
        ensures { Ran (view self.old) (note (record { kind = kind; start = start; length = size }) self.old.pos) (view self.new) }
    {
        let report = Report {
            kind,
            start,
            length: size,
        };
        report.keep(self.table, self.count);
        self.first = self.first.or(Some(start));
        self.count += 1;
    }

    // Whether a name goes on here.
    fn more(&self) -> bool
        ensures { result ≡ more self.now.text.now self.now.pos }
    {
        match self.text.get(self.pos) {
            Some(b) => *b != b',' && *b != b')',
            None => false,
        }
    }

    // The fragment that begins here. An invalid escape is reported.
    fn parse_fragment(&mut self) -> Option<StringFragment<'t>>
        requires { more self.old.text.now self.old.pos ≡ true }
        ensures ran { Ran (view self.old) (moved (frag_at self.old.text.now self.old.pos)) (view self.new) }
        ensures value { bytes_of result ≡ (frag_at self.old.text.now self.old.pos).bytes }
        ensures good { Scalar result }
    {
        let start = self.pos;
        if plain(self.text[start]) {
            let text = self.text;
            self.pos = literal_end(text, start);
            return Some(StringFragment::Literal(&text[start..self.pos]));
        }
        match parse_escaped_char(self.text, start + 1) {
            Some(e) => {
                self.pos = e.next;
                Some(StringFragment::EscapedChar(e.code))
            }
            None => {
                self.pos = start + 1;
                let length = (self.text.len() - start).min(2);
                self.report(ReportKind::InvalidEscapeCharacter, start, length);
                None
            }
        }
    }

    // Takes a fragment into the decoding space.
    fn piece(&mut self)
        requires { more self.old.text.now self.old.pos ≡ true }
        ensures { Ran (view self.old) (frag_at self.old.text.now self.old.pos) (view self.new) }
    {
        match self.parse_fragment() {
            Some(StringFragment::Literal(s)) => self.decoded.put_all(s),
            Some(StringFragment::EscapedChar(code)) => self.decoded.put_char(code),
            None => {}
        }
    }

    // Takes all fragments that follow into the decoding space.
    fn decode(&mut self)
        ensures { Ran (view self.old) (frags_at self.old.text.now (length self.old.text.now) self.old.pos) (view self.new) }
    {
        while self.more() {
            self.piece();
        }
    }

    // Takes the name that begins here.
    pub(crate) fn parse_name(&mut self) -> Option<Name>
        requires { self.old.count + 1 + (length self.old.text.now - self.old.pos) < 2 ^ 64 }
        ensures ran { Ran (view self.old) (name_at self.old.text.now self.old.pos self.old.decoded.used).out (view self.new) }
        ensures found { result ≡ (name_at self.old.text.now self.old.pos self.old.decoded.used).name }
    {
        let start = self.pos;
        let end = literal_end(self.text, start);
        if is_at(self.text, end, b'\\') {
            let from = self.decoded.used;
            let before = self.count;
            self.decode();
            if self.count > before {
                return None;
            }
            return Some(Name::InSpace(Place {
                start: from,
                length: self.decoded.used - from,
            }));
        }
        self.pos = end;
        if end == start {
            self.report(ReportKind::InvalidString, end, 0);
            return None;
        }
        Some(Name::InText(Place {
            start,
            length: end - start,
        }))
    }
}
