// Copyright (c) The nextest Contributors
// SPDX-License-Identifier: MIT OR Apache-2.0

// Lowering: what was read becomes a filter's nodes, with names of its own and sets of numbers.
ghost use Rattle.std.specs.Prelude.{◌≡◌, ℕ, ◌+◌, ◌^◌, ◌<◌, ◌≤◌, not, List, ◌++◌, map, length, vec_len, vec_capacity};
ghost use Rattle.std.proofs.lemmas.List.Edits.{sets};
ghost use Rattle.errors.specs.Reports.{log};
ghost use Rattle.expression.specs.NumberSets.{void};
ghost use Rattle.compile.specs.Reports.{note_if, logged};
ghost use Rattle.compile.specs.Compiled.{fault_by, answer, Compiled};
ghost use Rattle.compile.specs.Filters.{Whole};
ghost use Rattle.compile.specs.World.{world};
ghost use Rattle.parsing.specs.Tree.{Tree, postfix};
ghost use Rattle.errors.specs.declared.faults.LoweringFault.TheVariants.{NothingFound};
ghost use Rattle.compile.specs.Words.{named, leaf_of, word_of};
ghost use Rattle.compile.specs.Lowered.{has_binary, own, matched_leaf, matched_name, matched_note, leaf_for, name_for, note_for, signs, sign_size, emits, copies, notes, size, sizes, emitted, copied, noted, state, Lowers};

use crate::filter::{Filter, FilterLeaf, OwnName};
use crate::ground::Ground;
use crate::kinds::{FiltersetKind, check_bans, check_groups, leftmost_group};
use crate::matching::{BinaryField, Direction, Wanted};
use errors::faults::LoweringFault;
use errors::reports::{Report, ReportKind, Reports};
use expression::nodes::Node;
use expression::number_set::NumberSet;
use expression::oracle::DependencyOracle;
use glob::matcher::Matcher;
use glob::place::Place;
use parsing::nodes::{NameMatcher, Operator, ParsedLeaf, ParsedNode, Predicate};

// Copies a name behind those that are kept.
fn keep(wanted: Wanted<'_>, names: &mut Vec<u8>) -> OwnName
    requires { vec_len names.old + length wanted.value.now ≤ vec_capacity names.old }
    ensures place { result ≡ own (length names.old.items) wanted.entry.kind wanted.entry.value.now }
    ensures names { names.new.items ≡ names.old.items ++ wanted.entry.value.now }
    ensures capacity { vec_capacity names.old ≤ vec_capacity names.new }
{
    let Wanted { kind, value } = wanted;
    let place = Place {
        start: names.len(),
        length: value.len(),
    };
    let _ = names.extend_from_slice(value);
    OwnName { kind, place }
}

// The set, with a report if nothing is in it.
fn found(set: NumberSet, kind: ReportKind, span: Place, reports: &mut Reports<'_>) -> NumberSet
    ensures set { result ≡ set }
    ensures log { log reports.new ≡ logged (log reports.old) (note_if (void set.words) kind span) }
{
    if set.is_empty() {
        reports.report(kind, span.start, span.length);
    }
    set
}

// A sign that joins two operands; minus becomes and-not.
fn lower_operator(operator: Operator, nodes: &mut Vec<Node<FilterLeaf>>)
    requires { vec_len nodes.old + sign_size operator ≤ vec_capacity nodes.old }
    ensures nodes { nodes.new.items ≡ nodes.old.items ++ signs operator }
    ensures len { vec_len nodes.new ≡ vec_len nodes.old + sign_size operator }
    ensures capacity { vec_capacity nodes.new ≡ vec_capacity nodes.old }
{
    match operator {
        Operator::Union => nodes.push_reserved(Node::Or),
        Operator::Intersection => nodes.push_reserved(Node::And),
        Operator::Difference => {
            nodes.push_reserved(Node::Not);
            nodes.push_reserved(Node::And);
        }
    }
}

impl<M: Matcher, O: DependencyOracle> Ground<'_, M, O> {
    // Makes a report where no binary's id or name is taken.
    fn note_binary(
        &self,
        field: BinaryField,
        wanted: Wanted<'_>,
        kind: ReportKind,
        span: Place,
        reports: &mut Reports<'_>,
    )
        ensures { log reports.new ≡ logged (log reports.old) (note_if (not (has_binary (world M.matches O.depends self.now) field wanted.entry.kind wanted.entry.value.now)) kind span) }
    {
        if !self.has_binary(field, wanted) {
            reports.report(kind, span.start, span.length);
        }
    }

    // A set that takes a name, with a report if it finds nothing.
    fn lower_matched(
        &self,
        predicate: Predicate,
        wanted: Wanted<'_>,
        span: Place,
        names: &mut Vec<u8>,
        reports: &mut Reports<'_>,
    ) -> FilterLeaf
        requires { vec_len names.old + length (matched_name predicate wanted.value.now) ≤ vec_capacity names.old }
        ensures leaf { result ≡ matched_leaf (world M.matches O.depends self.now) (length names.old.items) predicate wanted.entry.kind wanted.entry.value.now }
        ensures names { names.new.items ≡ names.old.items ++ matched_name predicate wanted.entry.value.now }
        ensures capacity { vec_capacity names.old ≤ vec_capacity names.new }
        ensures log { log reports.new ≡ logged (log reports.old) (matched_note (world M.matches O.depends self.now) predicate wanted.entry.kind wanted.entry.value.now span) }
    {
        match predicate {
            Predicate::Package => {
                let set = self.packages(wanted);
                FilterLeaf::Packages(found(set, ReportKind::NoPackageMatch, span, reports))
            }
            Predicate::Deps => {
                let set = self.near(Direction::Dependencies, wanted);
                FilterLeaf::Packages(found(set, ReportKind::NoPackageMatch, span, reports))
            }
            Predicate::Rdeps => {
                let set = self.near(Direction::Dependents, wanted);
                FilterLeaf::Packages(found(set, ReportKind::NoPackageMatch, span, reports))
            }
            Predicate::Kind => FilterLeaf::Kind(keep(wanted, names)),
            Predicate::BinaryId => {
                let kind = ReportKind::NoBinaryIdMatch;
                self.note_binary(BinaryField::Id, wanted, kind, span, reports);
                FilterLeaf::BinaryId(keep(wanted, names))
            }
            Predicate::Binary => {
                let kind = ReportKind::NoBinaryNameMatch;
                self.note_binary(BinaryField::Name, wanted, kind, span, reports);
                FilterLeaf::Binary(keep(wanted, names))
            }
            Predicate::Test => FilterLeaf::Test(keep(wanted, names)),
            Predicate::Group => {
                let set = self.groups(wanted);
                FilterLeaf::Groups(found(set, ReportKind::NoGroupMatch, span, reports))
            }
        }
    }

    fn lower_leaf(
        &self,
        leaf: ParsedLeaf,
        names: &mut Vec<u8>,
        reports: &mut Reports<'_>,
    ) -> FilterLeaf
        requires { vec_len names.old + length (name_for (leaf_of self.now leaf)) ≤ vec_capacity names.old }
        ensures leaf { result ≡ leaf_for (world M.matches O.depends self.now) (length names.old.items) (leaf_of self.now leaf) }
        ensures names { names.new.items ≡ names.old.items ++ name_for (leaf_of self.now leaf) }
        ensures capacity { vec_capacity names.old ≤ vec_capacity names.new }
        ensures log { log reports.new ≡ logged (log reports.old) (note_for (world M.matches O.depends self.now) (leaf_of self.now leaf)) }
    {
        match leaf {
            ParsedLeaf::Matched(predicate, matcher, span) => {
                let NameMatcher { kind, name } = matcher;
                let value = self.name_of(name);
                self.lower_matched(predicate, Wanted { kind, value }, span, names, reports)
            }
            ParsedLeaf::Platform(platform, _) => FilterLeaf::Platform(platform),
            ParsedLeaf::Default(_) => FilterLeaf::Default,
            ParsedLeaf::All => FilterLeaf::All,
            ParsedLeaf::None => FilterLeaf::None,
        }
    }

    // One node: none, one or two nodes of the filter.
    fn lower_node(
        &self,
        node: ParsedNode,
        nodes: &mut Vec<Node<FilterLeaf>>,
        names: &mut Vec<u8>,
        reports: &mut Reports<'_>,
    )
        requires nodes { vec_len nodes.old + size (word_of self.now node) ≤ vec_capacity nodes.old }
        requires names { vec_len names.old + length (copies (word_of self.now node)) ≤ vec_capacity names.old }
        ensures nodes { nodes.new.items ≡ nodes.old.items ++ emits (world M.matches O.depends self.now) (length names.old.items) (word_of self.now node) }
        ensures names { names.new.items ≡ names.old.items ++ copies (word_of self.now node) }
        ensures log { log reports.new ≡ logged (log reports.old) (notes (world M.matches O.depends self.now) (word_of self.now node)) }
        ensures node_len { vec_len nodes.new ≡ vec_len nodes.old + size (word_of self.now node) }
        ensures node_cap { vec_capacity nodes.new ≡ vec_capacity nodes.old }
        ensures name_cap { vec_capacity names.old ≤ vec_capacity names.new }
    {
        match node {
            ParsedNode::Set(leaf) => {
                let lowered = self.lower_leaf(leaf, names, reports);
                nodes.push_reserved(Node::Leaf(lowered));
            }
            ParsedNode::Not => nodes.push_reserved(Node::Not),
            ParsedNode::Parens => {}
            ParsedNode::Joined(operator) => lower_operator(operator, nodes),
        }
    }

    // Lowers nodes after what is there.
    fn lower_nodes(
        &self,
        parsed: &[ParsedNode],
        nodes: &mut Vec<Node<FilterLeaf>>,
        names: &mut Vec<u8>,
        reports: &mut Reports<'_>,
    )
        requires nodes { vec_len nodes.old + sizes (map (word_of self.now) parsed.now) ≤ vec_capacity nodes.old }
        requires names { vec_len names.old + length (copied (map (word_of self.now) parsed.now)) ≤ vec_capacity names.old }
        ensures lowers { Lowers (world M.matches O.depends self.now) (map (word_of self.now) parsed.now) (state nodes.old.items names.old.items (log reports.old)) (state nodes.new.items names.new.items (log reports.new)) }
        ensures capacity { (vec_capacity nodes.old ≤ vec_capacity nodes.new) × (vec_capacity names.old ≤ vec_capacity names.new) }
    {
        for node in parsed {
            self.lower_node(*node, nodes, names, reports);
        }
    }

    // Lowers nodes into a filter in place of what it held, and refuses them if some find nothing.
    fn lower(
        &self,
        parsed: &[ParsedNode],
        filter: &mut Filter,
        reports: &mut [Report],
    ) -> Result<(), LoweringFault>
        requires nodes { sizes (map (word_of self.now) parsed.now) ≤ 191 }
        requires names { length (copied (map (word_of self.now) parsed.now)) ≤ 1024 }
        requires few { length parsed.now < 2 ^ 32 }
        ensures table { reports.new ≡ sets reports.old 0 (noted (world M.matches O.depends self.now) (map (word_of self.now) parsed.now)) }
        ensures answer { result ≡ answer (fault_by NothingFound (noted (world M.matches O.depends self.now) (map (word_of self.now) parsed.now))) }
        ensures nodes { filter.new.nodes.items.items ≡ emitted (world M.matches O.depends self.now) 0 (map (word_of self.now) parsed.now) }
        ensures names { filter.new.names.items.items ≡ copied (map (word_of self.now) parsed.now) }
    {
        let mut made = Reports {
            table: reports,
            count: 0,
            first: None,
        };
        let Filter { nodes, names, .. } = filter;
        nodes.items.clear();
        names.items.clear();
        self.lower_nodes(parsed, &mut nodes.items, &mut names.items, &mut made);
        match made.first {
            Some(place) => Err(LoweringFault::NothingFound {
                place,
                count: made.count,
            }),
            None => Ok(()),
        }
    }

    // Lowers what was read into a filter, unless a set is banned, a group is asked for while there are none, or a name finds nothing.
    pub(crate) fn compile_nodes(
        &self,
        kind: FiltersetKind,
        parsed: &[ParsedNode],
        filter: &mut Filter,
        reports: &mut [Report],
    ) -> Result<(), LoweringFault>
        requires nodes { sizes (map (word_of self.now) parsed.now) ≤ 191 }
        requires names { length (copied (map (word_of self.now) parsed.now)) ≤ 1024 }
        requires few { length parsed.now < 2 ^ 32 }
        ensures { (t : Tree (List ℕ)) → Whole t → postfix t ≡ map (word_of self.now) parsed.now → Compiled kind (world M.matches O.depends self.now) t reports.old reports.new filter.new result }
    {
        check_bans(kind, parsed, reports)?;
        let group = leftmost_group(parsed);
        check_groups(&self.tables, group)?;
        self.lower(parsed, filter, reports)?;
        filter.group = group;
        Ok(())
    }
}
