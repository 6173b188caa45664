// Reads filters. Each line of the input is a kind letter (T, A, O or D, which says later what the filter is for), a space and a text.
// Prints for each line `read` and the reading in postfix, or `refuse`, the number of the refusal, the place, the count and the reports.
#![tactic(auto)]

use errors::faults::{ReadingFault, Refusal};
use errors::reports::{Report, ReportKind};
use errors::texts::check_text;
use expression::name_matcher::MatchKind;
use expression::queries::BuildPlatform;
use lines::split_lines;
use parsing::nodes::{NameMatcher, Operator, ParsedLeaf, ParsedNode, Predicate};
use parsing::parse;
use parsing::store::ParsedNodes;
use std::io::{Read, Write};
use std::str::from_utf8;
use std::{fmt, io};
use unicode_string::Texts;

fn predicate(p: Predicate) -> &'static str {
    match p {
        Predicate::Package => "package",
        Predicate::Deps => "deps",
        Predicate::Rdeps => "rdeps",
        Predicate::Kind => "kind",
        Predicate::BinaryId => "binary_id",
        Predicate::Binary => "binary",
        Predicate::Test => "test",
        Predicate::Group => "group",
    }
}

fn mark(k: MatchKind) -> char {
    match k {
        MatchKind::Equal => '=',
        MatchKind::Contains => '~',
        MatchKind::Glob => '#',
    }
}

// A name, in which a control character is shown by its number.
#[derive(Clone, Copy)]
struct ShownName<'a>(&'a str);

impl fmt::Display for ShownName<'_> {
    fn fmt<W: fmt::Write>(&self, f: &mut fmt::Formatter<W>) -> fmt::Result {
        for c in self.0.chars() {
            if c.is_ascii_control() {
                write!(f, "\\u{{{:x}}}", c as u32)?;
            } else {
                f.write_char(c)?;
            }
        }
        Ok(())
    }
}

// A node of a reading, with the texts that its names lie in.
#[derive(Clone, Copy)]
struct ShownNode<'a> {
    node: ParsedNode,
    texts: Texts<'a>,
}

impl fmt::Display for ShownNode<'_> {
    fn fmt<W: fmt::Write>(&self, f: &mut fmt::Formatter<W>) -> fmt::Result {
        match self.node {
            ParsedNode::Set(ParsedLeaf::Matched(p, NameMatcher { kind, name }, _)) => {
                let bytes = self
                    .texts
                    .part(name)
                    .map_or(b"".as_slice(), |part| part.bytes);
                let name = ShownName(from_utf8(bytes).unwrap_or(""));
                write!(f, "{}({}{name})", predicate(p), mark(kind))
            }
            ParsedNode::Set(ParsedLeaf::Platform(BuildPlatform::Host, _)) => {
                f.write_str("platform(host)")
            }
            ParsedNode::Set(ParsedLeaf::Platform(BuildPlatform::Target, _)) => {
                f.write_str("platform(target)")
            }
            ParsedNode::Set(ParsedLeaf::Default(_)) => f.write_str("default()"),
            ParsedNode::Set(ParsedLeaf::All) => f.write_str("all()"),
            ParsedNode::Set(ParsedLeaf::None) => f.write_str("none()"),
            ParsedNode::Not => f.write_str("not"),
            ParsedNode::Parens => f.write_str("()"),
            ParsedNode::Joined(Operator::Union) => f.write_str("or"),
            ParsedNode::Joined(Operator::Intersection) => f.write_str("and"),
            ParsedNode::Joined(Operator::Difference) => f.write_str("-"),
        }
    }
}

// The check of the text, and then its reading.
fn read(
    text: &[u8],
    table: &mut [Report],
    space: &mut [u8; 1024],
    nodes: &mut ParsedNodes,
) -> Result<(), ReadingFault> {
    check_text(text)?;
    parse(text, table, space, nodes)
}

fn print_refusal(out: &mut impl Write, fault: ReadingFault, table: &[Report]) -> io::Result<()> {
    let Refusal {
        number,
        place,
        count,
        ..
    } = fault.refusal();
    write!(out, "refuse {number} {place} {count}")?;
    for report in table.iter().take(count) {
        write!(out, " {report}")?;
    }
    writeln!(out)
}

fn print_reading(out: &mut impl Write, texts: Texts<'_>, nodes: &[ParsedNode]) -> io::Result<()> {
    write!(out, "read")?;
    for node in nodes {
        write!(out, " {}", ShownNode { node: *node, texts })?;
    }
    writeln!(out)
}

fn print_line(out: &mut impl Write, line: &[u8], nodes: &mut ParsedNodes) -> io::Result<()> {
    let [b'T' | b'A' | b'O' | b'D', b' ', text @ ..] = line else {
        return writeln!(out, "unreadable line");
    };
    let mut table = [Report {
        kind: ReportKind::InvalidGlob,
        start: 0,
        length: 0,
    }; 1024];
    let mut space = [0; 1024];
    match read(text, &mut table, &mut space, nodes) {
        Ok(()) => print_reading(
            out,
            Texts {
                text,
                space: &space,
            },
            nodes.as_slice(),
        ),
        Err(fault) => print_refusal(out, fault, &table),
    }
}

fn main(rt: HostRuntime) -> io::Result<()> {
    let heap = rt.alloc();
    let mut input = Vec::new(heap);
    rt.stdin().read_to_end(&mut input)?;
    let lines = split_lines(heap, input.as_slice())?;
    let mut nodes = ParsedNodes::new(heap)?;
    let mut out = rt.stdout();
    for line in lines.iter() {
        print_line(&mut out, line, &mut nodes)?;
    }
    Ok(())
}
