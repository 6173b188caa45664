// The lines of some bytes.
#![tactic(auto)]

ghost use Rattle.std.specs.Prelude.{◌≡◌, map, IfOk};
ghost use Rattle.lines.specs.Lines.{lines_of};

use std::alloc::{AllocError, Global};

// The lines: each ends at a line feed, which is no part of it, and the last one may lack it. Any other byte is a part of its line.
pub fn split_lines<'a>(heap: Global, input: &'a [u8]) -> Result<Vec<&'a [u8]>, AllocError>
    ensures { IfOk result (λ v. map (λ x. x.now) v.items ≡ lines_of input.now) }
{
    if input.is_empty() {
        return Ok(Vec::new(heap));
    }
    // A line feed at the end begins no further line.
    let text = input.strip_suffix(b"\n").unwrap_or(input);
    text.split(|b| *b == b'\n').collect(heap)
}
