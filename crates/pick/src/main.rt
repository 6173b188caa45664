// Picks test binaries by a plain glob: the first line of the input is the glob, each further line the name of a binary.
#![tactic(auto)]

use lines::split_lines;
use picking::{Picking, pick};
use std::io;
use std::io::{Read, Write};

// A line for each name, and how many were picked.
fn print(out: &mut impl Write, picking: &Picking) -> io::Result<()> {
    for verdict in picking.verdicts.iter() {
        out.write_all(if verdict.picked { b"yes " } else { b"no " })?;
        out.write_all(verdict.name)?;
        out.write_all(b"\n")?;
    }
    let count = picking.count;
    let all = picking.verdicts.len();
    writeln!(out, "picked {count} of {all}")
}

fn main(rt: HostRuntime) -> io::Result<()> {
    let heap = rt.alloc();
    let mut input = Vec::new(heap);
    rt.stdin().read_to_end(&mut input)?;
    let lines = split_lines(heap, input.as_slice())?;
    let Some((glob, names)) = lines.as_slice().split_first() else {
        return println!(rt; "picked 0 of 0");
    };
    match pick(heap, glob, names)? {
        Some(picking) => print(&mut rt.stdout(), &picking),
        None => println!(rt; "ill-formed glob"),
    }
}
