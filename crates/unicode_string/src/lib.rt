// Copyright (c) The nextest Contributors
// SPDX-License-Identifier: MIT OR Apache-2.0

#![tactic(auto)]

// Names of a filter: runs of text and escapes.
ghost use Rattle.std.specs.Prelude.{◌≡◌, ℕ, ◌+◌, ◌-◌, ◌*◌, ◌^◌, ◌<◌, ◌≤◌, Bool, true, false, cond, length, IfSome, slice_index};
ghost use Rattle.std.proofs.lemmas.List.Edits.{sets};
ghost use Rattle.std.proofs.Math.Utf8.{encode, scalar};
ghost use Rattle.std.specs.Option.{option_map};
ghost use Rattle.std.specs.List.{prefix_len};
ghost use Rattle.glob.specs.Parts.{part_of};
ghost use Rattle.unicode_string.specs.Names.{bytes_in, place_of, out_at, has_room, read_at};
ghost use Rattle.unicode_string.specs.Grammar.{Meant};
ghost use Rattle.unicode_string.specs.Text.{is_plain, run_end, is_at, letter_of, digit_of, digits_at, unicode_at, escape_at};

use decoded::Decoded;
use errors::reports::Report;
use glob::place::Place;
use source::Source;
use tables::hex_value;

mod decoded;
mod source;
pub mod tables;

// A name is a part of the text itself or, with an escape in it, of the decoding space.
#[derive(Clone, Copy, PartialEq, Eq, Debug)]
pub enum Name {
    InText(Place),
    InSpace(Place),
}

// A name's bytes and their place.
#[derive(Clone, Copy)]
pub struct NamePart<'a> {
    pub bytes: &'a [u8],
    pub place: Place,
}

// Where names lie: in a text, and in the decoding space that was filled from it.
#[derive(Clone, Copy)]
pub struct Texts<'a> {
    pub text: &'a [u8],
    pub space: &'a [u8; 1024],
}

// What reading a name comes to: the name, unless it was reported as faulty; the place after it; how many reports there are
// now; how far the decoding space is used; and where its first report starts.
#[derive(Clone, Copy, PartialEq, Eq, Debug)]
pub struct NameRead {
    pub name: Option<Name>,
    pub end: usize,
    pub count: usize,
    pub used: usize,
    pub first: Option<usize>,
}

// A run of text, or one decoded character as its code point.
#[derive(Clone, Copy)]
enum StringFragment<'a> {
    Literal(&'a [u8]),
    // The project's form for a decoded character is a number.
    EscapedChar(u32),
}

// What an escape decodes to, and the place after it.
#[derive(Clone, Copy)]
struct Escape {
    code: u32,
    next: usize,
}

// How many more digits there may be, the place after those read, and their number.
#[derive(Clone, Copy)]
struct Digits {
    left: usize,
    next: usize,
    code: u32,
}

// The digits of a code point, at most.
const MOST_DIGITS: usize = 6;

// Whether the byte stands at `at`.
pub fn is_at(text: &[u8], at: usize, byte: u8) -> bool
    ensures { result ≡ is_at text.now at byte }
{
    text.get(at) == Some(&byte)
}

// What the character after a backslash stands for.
fn letter(c: char) -> Option<u32>
    ensures { result ≡ letter_of c }
{
    match c {
        'n' => Some(10),
        'r' => Some(13),
        't' => Some(9),
        'b' => Some(8),
        'f' => Some(12),
        '\\' => Some(92),
        '/' => Some(47),
        ')' => Some(41),
        ',' => Some(44),
        _ => None,
    }
}

// The digit at `at`.
fn digit(text: &[u8], at: usize) -> Option<u8>
    ensures { result ≡ digit_of (slice_index text.now at) }
{
    hex_value(*text.get(at)?)
}

// As many digits as there are, at most six.
fn parse_hex(text: &[u8], from: usize) -> Digits
    ensures { result ≡ digits_at text.now 6 from 0 }
{
    let mut digits = Digits {
        left: MOST_DIGITS,
        next: from,
        code: 0,
    };
    for read in 0..MOST_DIGITS {
        let Some(value) = digit(text, digits.next) else {
            return digits;
        };
        digits = Digits {
            left: MOST_DIGITS - 1 - read,
            next: digits.next + 1,
            code: digits.code * 16 + value as u32,
        };
    }
    digits
}

// `{`, one to six digits of a scalar value, and `}`.
fn parse_unicode(text: &[u8], at: usize) -> Option<Escape>
    ensures { result ≡ unicode_at text.now at }
{
    if !is_at(text, at, b'{') {
        return None;
    }
    let d = parse_hex(text, at + 1);
    if d.left == MOST_DIGITS || !is_at(text, d.next, b'}') {
        return None;
    }
    char::from_u32(d.code)?;
    Some(Escape {
        code: d.code,
        next: d.next + 1,
    })
}

// What stands after a backslash.
fn parse_escaped_char(text: &[u8], at: usize) -> Option<Escape>
    ensures { result ≡ escape_at text.now at }
{
    let byte = *text.get(at)?;
    if byte == b'u' {
        return parse_unicode(text, at + 1);
    }
    let code = letter(byte as char)?;
    Some(Escape { code, next: at + 1 })
}

fn plain(b: u8) -> bool
    ensures { result ≡ is_plain b }
{
    b != b',' && b != b')' && b != b'\\'
}

// How many plain bytes come first.
fn run_length(bytes: &[u8]) -> usize
    ensures { result ≡ prefix_len is_plain bytes.now }
{
    bytes.iter().take_while(|b| plain(**b)).count()
}

// Where the run that begins at `from` ends. It answers a place of the text, so it takes one, and not the rest from there.
fn literal_end(text: &[u8], from: usize) -> usize
    requires { from ≤ length text.now }
    ensures value { result ≡ run_end text.now from }
    ensures onward { from ≤ result }
    ensures within { result ≤ length text.now }
{
    from + run_length(&text[from..])
}

// Whether there is room for what the bytes from `at` on can make, in the decoding space and in the count.
fn has_room(text: &[u8], at: usize, count: usize, used: usize) -> bool
    ensures { result ≡ has_room text.now at count used }
{
    if at > text.len() {
        return false;
    }
    let left = text.len() - at;
    left <= 1024 && used <= 1024 - left && count < usize::MAX - left
}

// Reads the name at `at`, up to the next `,` or `)` that no backslash escapes. The first reports stand in the table from `count` on,
// the decoded bytes of a name with an escape in the space from `used` on. Without room for them nothing is read.
// The table and its count are two parameters, since a caller cannot keep them as one value (see `Source`).
pub fn parse_string(
    text: &[u8],
    at: usize,
    reports: &mut [Report],
    count: usize,
    space: &mut [u8; 1024],
    used: usize,
) -> Option<NameRead>
    ensures read { result ≡ read_at text.now at count used }
    ensures reports { reports.new ≡ sets reports.old count (out_at text.now at count used).reports }
    ensures space { space.new ≡ sets space.old used (out_at text.now at count used).bytes }
    ensures meant { IfSome result (λ x. Meant text.now space.new at count x) }
{
    if !has_room(text, at, count, used) {
        return None;
    }
    let mut source = Source {
        text,
        pos: at,
        count,
        first: None,
        table: reports,
        decoded: Decoded { space, used },
    };
    let name = source.parse_name();
    Some(NameRead {
        name,
        end: source.pos,
        count: source.count,
        used: source.decoded.used,
        first: source.first,
    })
}

fn part_of(text: &[u8], place: Place) -> Option<NamePart<'_>>
    ensures bytes { option_map (λ p. p.bytes.now) result ≡ part_of text.now place }
    ensures place { IfSome result (λ p. p.place ≡ place) }
{
    let bytes = place.of(text)?;
    Some(NamePart { bytes, place })
}

impl<'a> Texts<'a> {
    // A name's bytes, as a part of the text or of the decoding space, with their place; none if they lie outside.
    pub fn part(self, name: Name) -> Option<NamePart<'a>>
        ensures bytes { option_map (λ p. p.bytes.now) result ≡ bytes_in self.entry.text.now self.entry.space.now name }
        ensures place { IfSome result (λ p. p.place ≡ place_of name) }
    {
        let Texts { text, space } = self;
        match name {
            Name::InText(place) => part_of(text, place),
            Name::InSpace(place) => part_of(space, place),
        }
    }
}
