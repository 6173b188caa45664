// Names as places in one lent text.
ghost use Rattle.std.specs.Prelude.{◌≡◌};
ghost use Rattle.std.specs.Option.{option_map};
ghost use Rattle.glob.specs.Parts.{part_of, stands};

// A part of a text, in bytes.
#[derive(Clone, Copy, Debug, PartialEq, Eq)]
pub struct Place {
    pub start: usize,
    pub length: usize,
}

impl Place {
    // The part of the text at this place; none if the place does not lie in the text.
    pub fn of<'a>(self, text: &'a [u8]) -> Option<&'a [u8]>
        ensures { option_map (λ x. x.now) result ≡ part_of text.now self }
    {
        text.get(self.start..)?.get(..self.length)
    }

    // Whether the place lies in the text and the word stands there.
    pub fn holds(self, text: &[u8], word: &[u8]) -> bool
        ensures { result ≡ stands text.now self word.now }
    {
        self.of(text) == Some(word)
    }
}
