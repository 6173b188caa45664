// Copyright (c) The nextest Contributors
// SPDX-License-Identifier: MIT OR Apache-2.0

#![tactic(auto)]

// The filter language: a text is read as a filter, or refused with a report on each fault.
ghost use Rattle.std.specs.Prelude.{◌≡◌, ℕ, ◌≤◌, List, [], length, Ok, Err, vec_len, vec_capacity};
ghost use Rattle.std.proofs.lemmas.List.Edits.{sets};
ghost use Rattle.parsing.specs.Law.{Law};
ghost use Rattle.parsing.specs.Nodes.{nodes_of};
ghost use Rattle.parsing.specs.Reading.{reading_of};
ghost use Rattle.parsing.specs.Outcome.{answer_for, answer_of, table_of, space_of, nodes_left, tree_of, verdict_of};

use cursor::Cursor;
use errors::faults::{ReadingFault, TextFault};
use errors::reports::Report;
use errors::texts::LONGEST;
use nodes::ParsedNode;
use store::ParsedNodes;

mod cursor;
pub mod nodes;
pub mod store;
mod text;
mod words;

// A reading that did not stop is faulty if it made reports, the first at `first`.
fn verdict(
    outcome: Result<(), ReadingFault>,
    first: Option<usize>,
    count: usize,
) -> Result<(), ReadingFault>
    ensures { result ≡ verdict_of outcome first count }
{
    outcome?;
    match first {
        Some(place) => Err(ReadingFault::Faulty { place, count }),
        None => Ok(()),
    }
}

// Reads a text that is not long.
fn read(
    text: &[u8],
    reports: &mut [Report],
    space: &mut [u8; 1024],
    nodes: &mut Vec<ParsedNode>,
) -> Result<(), ReadingFault>
    requires short { length text.now ≤ 1024 }
    requires room { 128 ≤ vec_capacity nodes.old }
    requires empty { nodes.old.items ≡ [] }
    ensures answer { result ≡ answer_for (reading_of text.now) }
    ensures reports { reports.new ≡ sets reports.old 0 (reading_of text.now).reports }
    ensures space { space.new ≡ sets space.old 0 (reading_of text.now).bytes }
    ensures nodes { result ≡ Ok tt → nodes.new.items ≡ nodes_of (tree_of (reading_of text.now).value) }
    ensures cap { vec_capacity nodes.new ≡ vec_capacity nodes.old }
{
    let mut cursor = Cursor {
        text,
        pos: 0,
        parts: 0,
        count: 0,
        first: None,
        table: reports,
        used: 0,
        space,
        nodes,
    };
    let outcome = cursor.parse_filter();
    verdict(outcome, cursor.first, cursor.count)
}

// Reads a filter into the nodes. The table gets the first reports, the space the names with an escape, end to end, and then zeros.
// A text that is refused leaves no nodes and, unless it is long, a space of zeros.
pub fn parse(
    text: &[u8],
    reports: &mut [Report],
    space: &mut [u8; 1024],
    nodes: &mut ParsedNodes,
) -> Result<(), ReadingFault>
    ensures answer { result ≡ answer_of text.now }
    ensures reports { reports.new ≡ table_of text.now reports.old }
    ensures space { space.new ≡ space_of text.now space.old }
    ensures nodes { nodes.new.items.items ≡ nodes_left text.now }
    ensures law { Law text.now space.new nodes.new.items.items result }
{
    nodes.items.clear();
    if text.len() > LONGEST {
        return Err(TextFault::Long.into());
    }
    *space = [0; 1024];
    let answer = read(text, reports, space, &mut nodes.items);
    if answer.is_err() {
        *space = [0; 1024];
        nodes.items.clear();
    }
    answer
}
