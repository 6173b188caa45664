// The check of a text, before anything is read of it.
ghost use Rattle.errors.specs.Texts.{Checked};

use crate::faults::TextFault;
use std::str::from_utf8;

// The longest text that is read, in bytes.
pub const LONGEST: usize = 1024;

// The text, unless it is long or else garbled.
pub fn check_text(text: &[u8]) -> Result<&str, TextFault>
    ensures { Checked text.now result }
{
    if text.len() > LONGEST {
        return Err(TextFault::Long);
    }
    from_utf8(text).map_err(|e| TextFault::Garbled {
        place: e.valid_up_to(),
    })
}
