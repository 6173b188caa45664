// Copyright (c) The nextest Contributors
// SPDX-License-Identifier: MIT OR Apache-2.0

// Blanks, white space and brackets of a text.
ghost use Rattle.std.specs.Prelude.{◌≡◌, ◌+◌, ◌<◌, ◌≤◌, length, ◌==◌, ◌&&◌, nat_lt, slice_index};
ghost use Rattle.parsing.specs.Text.{is_blank, skip, closing, white_of, white_at, white_end};
ghost use Rattle.parsing.specs.Reading.{platform_of, says_word};

use crate::words::begins;
use expression::queries::BuildPlatform;

// Whether the rest begins with a blank: a space or LF, or CR before LF.
fn begins_blank(rest: &[u8]) -> bool
    ensures { result ≡ (nat_lt 0 (length rest.now) && is_blank (slice_index rest.now 0) (slice_index rest.now 1)) }
{
    matches!(rest, [b' ' | b'\n', ..] | [b'\r', b'\n', ..])
}

// The place after the blanks at `from`. It answers a place of the text, so it takes one, and not the rest from there.
pub(crate) fn blanks_end(text: &[u8], from: usize) -> usize
    requires { from ≤ length text.now }
    ensures value { result ≡ skip text.now from }
    ensures onward { from ≤ result }
    ensures within { result ≤ length text.now }
{
    let mut rest = &text[from..];
    while begins_blank(rest) {
        rest = &rest[1..];
    }
    text.len() - rest.len()
}

// The place of the first `)` from `from` on, or else the end; again a place for a place.
pub(crate) fn closing_bracket(text: &[u8], from: usize) -> usize
    requires { from ≤ length text.now }
    ensures value { result ≡ closing text.now from }
    ensures onward { from ≤ result }
    ensures within { result ≤ length text.now }
{
    let rest = &text[from..];
    from + rest
        .iter()
        .position(|byte| *byte == b')')
        .unwrap_or(rest.len())
}

// White space is told by its bytes: the library's check of the text and `trim` take two to three times as long.

// The byte at `at`, and 0 past the end.
fn byte_at(text: &[u8], at: usize) -> u8
    ensures { result ≡ slice_index text.now at }
{
    if at < text.len() { text[at] } else { 0 }
}

// The bytes of the character of white space that begins with these bytes, 0 if they begin none.
fn white_of(first: u8, second: u8, third: u8) -> usize
    ensures { result ≡ white_of first second third }
{
    match (first, second, third) {
        (9..=13 | 32, _, _) => 1,
        (194, 133 | 160, _) => 2,
        (225, 154, 128) => 3,
        (226, 128, 128..=138 | 168 | 169 | 175) => 3,
        (226, 129, 159) => 3,
        (227, 128, 128) => 3,
        _ => 0,
    }
}

// The bytes of the character of white space at `at`, 0 if there is none.
fn white_at(text: &[u8], at: usize) -> usize
    requires { at < length text.now }
    ensures value { result ≡ white_at text.now at }
    ensures fits { at + result ≤ length text.now }
{
    white_of(
        byte_at(text, at),
        byte_at(text, at + 1),
        byte_at(text, at + 2),
    )
}

// The place after the white space at `from`.
fn white_end(text: &[u8], from: usize) -> usize
    requires { from ≤ length text.now }
    ensures value { result ≡ white_end text.now from }
    ensures within { result ≤ length text.now }
{
    let mut at = from;
    while at < text.len() {
        let length = white_at(text, at);
        if length == 0 {
            return at;
        }
        at += length;
    }
    at
}

// Whether there is only white space.
pub(crate) fn is_white(text: &[u8]) -> bool
    ensures { result ≡ (white_end text.now 0 == length text.now) }
{
    white_end(text, 0) == text.len()
}

// Whether the word stands at `at` with only white space after it.
fn says(name: &[u8], at: usize, word: &[u8]) -> bool
    requires { at ≤ length name.now }
    ensures { result ≡ says_word name.now word.now at }
{
    if !begins(name, at, word) {
        return false;
    }
    white_end(name, at + word.len()) == name.len()
}

// The platform that a name says, with white space around it.
pub(crate) fn platform_of(name: &[u8]) -> Option<BuildPlatform>
    ensures { result ≡ platform_of name.now }
{
    let start = white_end(name, 0);
    if says(name, start, b"host") {
        return Some(BuildPlatform::Host);
    }
    if says(name, start, b"target") {
        return Some(BuildPlatform::Target);
    }
    None
}
