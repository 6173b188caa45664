// Picks test binaries by a plain glob.
#![tactic(auto)]

ghost use Rattle.std.specs.Prelude.{◌≡◌, map, IfOk};
ghost use Rattle.picking.specs.Picks.{PicksFrom};

use glob::{is_match, well_formed};
use std::alloc::{AllocError, Global};

// A name, and whether it was picked.
#[derive(Clone, Copy, Debug, PartialEq, Eq)]
pub struct Verdict<'a> {
    pub name: &'a [u8],
    pub picked: bool,
}

// A verdict for each name, in the order of the names, and how many of them were picked.
#[derive(Drop)]
pub struct Picking<'a> {
    pub verdicts: Vec<Verdict<'a>>,
    pub count: usize,
}

// Picks the names that the glob matches; none if the glob is ill-formed.
pub fn pick<'a>(
    heap: Global,
    glob: &[u8],
    names: &[&'a [u8]],
) -> Result<Option<Picking<'a>>, AllocError>
    ensures { IfOk result (λ p. PicksFrom glob.now (map (λ x. x.now) names.now) p) }
{
    if !well_formed(glob) {
        return Ok(None);
    }
    let verdicts: Vec<Verdict> = names
        .iter()
        .map(|&name| Verdict {
            name,
            picked: is_match(glob, name),
        })
        .collect(heap)?;
    let count = verdicts.iter().filter(|v| v.picked).count();
    Ok(Some(Picking { verdicts, count }))
}
