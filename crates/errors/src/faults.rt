// Copyright (c) The nextest Contributors
// SPDX-License-Identifier: MIT OR Apache-2.0

// Faults: why a call is refused, by the layer that finds it. A fault that is passed up keeps the lower one whole.
ghost use Rattle.std.specs.Prelude.{◌≡◌, length};
ghost use Rattle.errors.specs.Refusals.{text_in_reading, reading_in_lowering, tables_in_lowering, lowering_in_selector, refused_by, of_text, of_reading, of_lowering, refusal_of};

// The layers, from the lowest up.
#[derive(Clone, Copy, PartialEq, Eq, Debug)]
pub enum Layer {
    Text,
    Tables,
    Reading,
    Lowering,
    Selector,
}

// What a refused call answers: the number of the refusal, a place in the text, how many reports were made, and the layer.
#[derive(Clone, Copy, PartialEq, Eq, Debug)]
pub struct Refusal {
    pub number: u8,
    pub place: usize,
    pub count: usize,
    pub layer: Layer,
}

// A text that is not read at all.
#[derive(Clone, Copy, PartialEq, Eq, Debug)]
pub enum TextFault {
    // It has more than 1,024 bytes.
    Long,
    // It is ill-formed UTF-8; `place` is the length of its longest well-formed start.
    Garbled { place: usize },
}

// Tables with too many rows, or with a name outside the names text.
#[derive(Clone, Copy, PartialEq, Eq, Debug)]
pub struct TablesFault;

// A text that is no filter.
#[derive(Clone, Copy, PartialEq, Eq, Debug)]
pub enum ReadingFault {
    Text(TextFault),
    // A `/` where an unmarked name would begin.
    Regex { place: usize, count: usize },
    // A nest too many: the not sign or bracket that opens it.
    Deep { place: usize, count: usize },
    // A part too many.
    Crowded { place: usize, count: usize },
    // Reports were made; `place` is the start of the first.
    Faulty { place: usize, count: usize },
}

// A filter that cannot be lowered to the given tables.
#[derive(Clone, Copy, PartialEq, Eq, Debug)]
pub enum LoweringFault {
    Reading(ReadingFault),
    Tables(TablesFault),
    // Predicates that its kind does not allow; `place` is the start of the first.
    Banned { place: usize, count: usize },
    // The leftmost `group`, while groups are unavailable.
    NoGroups { place: usize },
    // Names that match nothing; `place` is the start of the first.
    NothingFound { place: usize, count: usize },
}

// A call that the selector refuses.
#[derive(Clone, Copy, PartialEq, Eq, Debug)]
pub enum SelectorFault {
    Lowering(LoweringFault),
    // A default was fixed, or a filter admitted, before.
    Late,
    // Eight filters are held.
    Full,
    // No filter has that number.
    NoSuchFilter,
    // The filter has a `group`, the leftmost at `place`, and no roster was given.
    NoRoster { place: usize },
}

impl From<TextFault> for ReadingFault {
    ghost from_gives = { λ x y. y ≡ text_in_reading x };

    fn from(value: TextFault) -> Self {
        ReadingFault::Text(value)
    }
}

impl From<TextFault> for LoweringFault {
    ghost from_gives = { λ x y. y ≡ reading_in_lowering (text_in_reading x) };

    fn from(value: TextFault) -> Self {
        LoweringFault::Reading(ReadingFault::Text(value))
    }
}

impl From<TablesFault> for LoweringFault {
    ghost from_gives = { λ x y. y ≡ tables_in_lowering x };

    fn from(value: TablesFault) -> Self {
        LoweringFault::Tables(value)
    }
}

impl From<ReadingFault> for LoweringFault {
    ghost from_gives = { λ x y. y ≡ reading_in_lowering x };

    fn from(value: ReadingFault) -> Self {
        LoweringFault::Reading(value)
    }
}

impl From<LoweringFault> for SelectorFault {
    ghost from_gives = { λ x y. y ≡ lowering_in_selector x };

    fn from(value: LoweringFault) -> Self {
        SelectorFault::Lowering(value)
    }
}

// The number is what a refused call answers: it stands beside the fault that it is the number of, and an enum of numbers would name each fault twice.
fn refused(layer: Layer, number: u8, place: usize, count: usize) -> Refusal
    ensures { result ≡ refused_by layer number place count }
{
    Refusal {
        number,
        place,
        count,
        layer,
    }
}

impl TextFault {
    fn refusal(self) -> Refusal
        ensures { result ≡ of_text self }
    {
        let layer = Layer::Text;
        match self {
            TextFault::Long => refused(layer, 3, 0, 0),
            TextFault::Garbled { place } => refused(layer, 4, place, 0),
        }
    }
}

impl ReadingFault {
    // What this fault answers where it is not passed up.
    pub fn refusal(self) -> Refusal
        ensures { result ≡ of_reading self }
    {
        let layer = Layer::Reading;
        match self {
            ReadingFault::Text(fault) => fault.refusal(),
            ReadingFault::Regex { place, count } => refused(layer, 6, place, count),
            ReadingFault::Deep { place, count } => refused(layer, 7, place, count),
            ReadingFault::Crowded { place, count } => refused(layer, 8, place, count),
            ReadingFault::Faulty { place, count } => refused(layer, 9, place, count),
        }
    }
}

impl LoweringFault {
    fn refusal(self) -> Refusal
        ensures { result ≡ of_lowering self }
    {
        let layer = Layer::Lowering;
        match self {
            LoweringFault::Reading(fault) => fault.refusal(),
            LoweringFault::Tables(_) => refused(Layer::Tables, 5, 0, 0),
            LoweringFault::Banned { place, count } => refused(layer, 10, place, count),
            LoweringFault::NoGroups { place } => refused(layer, 11, place, 0),
            LoweringFault::NothingFound { place, count } => refused(layer, 12, place, count),
        }
    }
}

impl SelectorFault {
    // What the refused call answers.
    pub fn refusal(self) -> Refusal
        ensures { result ≡ refusal_of self }
    {
        let layer = Layer::Selector;
        match self {
            SelectorFault::Lowering(fault) => fault.refusal(),
            SelectorFault::Late => refused(layer, 1, 0, 0),
            SelectorFault::Full => refused(layer, 2, 0, 0),
            SelectorFault::NoSuchFilter => refused(layer, 13, 0, 0),
            SelectorFault::NoRoster { place } => refused(layer, 14, place, 0),
        }
    }

    // The number of the refusal, 1 to 14.
    pub fn number(self) -> u8
        ensures { result ≡ (refusal_of self).number }
    {
        self.refusal().number
    }

    // Where in the text.
    pub fn place(self) -> usize
        ensures { result ≡ (refusal_of self).place }
    {
        self.refusal().place
    }

    // How many reports were made.
    pub fn count(self) -> usize
        ensures { result ≡ (refusal_of self).count }
    {
        self.refusal().count
    }

    // The layer that found it.
    pub fn layer(self) -> Layer
        ensures { result ≡ (refusal_of self).layer }
    {
        self.refusal().layer
    }
}
