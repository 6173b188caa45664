// Copyright (c) The nextest Contributors
// SPDX-License-Identifier: MIT OR Apache-2.0

// The kinds of filter, and the sets that each bans.
ghost use Rattle.std.specs.Prelude.{◌≡◌, ◌^◌, ◌<◌, length};
ghost use Rattle.std.proofs.lemmas.List.Edits.{sets};
ghost use Rattle.std.specs.List.{flat_map};
ghost use Rattle.errors.specs.Reports.{log};
ghost use Rattle.errors.specs.declared.reports.ReportKind.TheVariants.{BannedPredicate};
ghost use Rattle.compile.specs.Reports.{note_at, logged};
ghost use Rattle.compile.specs.Bans.{bans_set, bans_default, ban_node, group_at, leftmost};
ghost use Rattle.compile.specs.Compiled.{fault_by, no_groups, answer};
ghost use Rattle.compile.specs.Tables.{names_in, rows_of};
ghost use Rattle.errors.specs.declared.faults.LoweringFault.TheVariants.{Banned};

use crate::tables::Tables;
use errors::faults::LoweringFault;
use errors::reports::{Report, ReportKind, Reports};
use glob::place::Place;
use parsing::nodes::{ParsedLeaf, ParsedNode, Predicate};

// What a filter is for.
#[derive(Clone, Copy, PartialEq, Eq, Debug)]
pub enum FiltersetKind {
    Test,
    TestArchive,
    OverrideFilter,
    DefaultFilter,
}

impl FiltersetKind {
    // Whether a set that takes a name is banned.
    fn bans(self, predicate: Predicate) -> bool
        ensures { result ≡ bans_set self predicate }
    {
        match self {
            FiltersetKind::Test => false,
            FiltersetKind::TestArchive => {
                matches!(predicate, Predicate::Test | Predicate::Group)
            }
            FiltersetKind::OverrideFilter | FiltersetKind::DefaultFilter => {
                matches!(predicate, Predicate::Group)
            }
        }
    }

    // Whether `default()` is banned.
    fn bans_default(self) -> bool
        ensures { result ≡ bans_default self }
    {
        matches!(self, FiltersetKind::DefaultFilter)
    }

    // What a banned set is reported at, if the node is one.
    fn banned_place(self, node: ParsedNode) -> Option<Place>
        ensures { note_at BannedPredicate result ≡ ban_node self node }
    {
        match node {
            ParsedNode::Set(ParsedLeaf::Matched(predicate, _, span)) if self.bans(predicate) => {
                Some(span)
            }
            ParsedNode::Set(ParsedLeaf::Default(span)) if self.bans_default() => Some(span),
            _ => None,
        }
    }
}

// Reports each banned set, leftmost first.
fn report_bans(kind: FiltersetKind, nodes: &[ParsedNode], reports: &mut Reports<'_>)
    ensures { log reports.new ≡ logged (log reports.old) (flat_map (ban_node kind) nodes.now) }
{
    for node in nodes {
        if let Some(span) = kind.banned_place(*node) {
            reports.report(ReportKind::BannedPredicate, span.start, span.length);
        }
    }
}

// Where the name of a `group` starts, if the node is one.
fn group_start(node: ParsedNode) -> Option<usize>
    ensures { result ≡ group_at node }
{
    match node {
        ParsedNode::Set(ParsedLeaf::Matched(Predicate::Group, _, span)) => Some(span.start),
        _ => None,
    }
}

// Where the name of the leftmost `group` starts.
pub(crate) fn leftmost_group(nodes: &[ParsedNode]) -> Option<usize>
    ensures { result ≡ leftmost group_at nodes.now }
{
    // A loop, since no fact of `find_map` gives the definition in one step.
    for node in nodes {
        if let Some(start) = group_start(*node) {
            return Some(start);
        }
    }
    None
}

// Refuses a filter with banned sets.
pub(crate) fn check_bans(
    kind: FiltersetKind,
    nodes: &[ParsedNode],
    reports: &mut [Report],
) -> Result<(), LoweringFault>
    requires { length nodes.now < 2 ^ 32 }
    ensures table { reports.new ≡ sets reports.old 0 (flat_map (ban_node kind) nodes.now) }
    ensures answer { result ≡ answer (fault_by Banned (flat_map (ban_node kind) nodes.now)) }
{
    let mut made = Reports {
        table: reports,
        count: 0,
        first: None,
    };
    report_bans(kind, nodes, &mut made);
    match made.first {
        Some(place) => Err(LoweringFault::Banned {
            place,
            count: made.count,
        }),
        None => Ok(()),
    }
}

// Refuses a filter with a `group` while groups are unavailable.
pub(crate) fn check_groups(tables: &Tables<'_>, group: Option<usize>) -> Result<(), LoweringFault>
    ensures { result ≡ answer (no_groups (names_in (rows_of tables.now)).groups group) }
{
    match (tables.groups, group) {
        (None, Some(place)) => Err(LoweringFault::NoGroups { place }),
        _ => Ok(()),
    }
}
