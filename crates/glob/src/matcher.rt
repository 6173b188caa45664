// What a matcher means, the plain glob, and answers recorded in a table.
ghost use Rattle.std.specs.Prelude.{◌≡◌, ℕ, Bool, List, Decides};
ghost use Rattle.glob.specs.Glob.{Matches};
ghost use Rattle.glob.specs.Reading.{matches as glob_matches};
ghost use Rattle.glob.specs.Recorded.{fits, recorded};

use crate::place::Place;

// A fixed relation between patterns and names, which a question leaves as it is.
pub trait Matcher {
    // the relation
    ghost matches: { Self → List ℕ → List ℕ → Bool };

    // Yes exactly for the pairs of the relation.
    fn is_match(&self, pattern: &[u8], name: &[u8]) -> bool
        ensures { result ≡ matches self.now pattern.now name.now };
}

// The plain glob.
#[derive(Clone, Copy, Debug, PartialEq, Eq)]
pub struct PlainGlob;

impl Matcher for PlainGlob {
    ghost matches = { λ _. glob_matches };

    fn is_match(&self, pattern: &[u8], name: &[u8]) -> bool
        ensures value { result ≡ glob_matches pattern.now name.now }
        ensures meaning { Decides result (Matches pattern.now name.now) }
    {
        crate::is_match(pattern, name)
    }
}

// What a pattern and a name, each a place in the text, were answered.
#[derive(Clone, Copy, Debug, PartialEq, Eq)]
pub struct Answer {
    pub pattern: Place,
    pub name: Place,
    pub answer: bool,
}

impl Answer {
    // Whether the row records this pair, over this text.
    fn records(&self, text: &[u8], pattern: &[u8], name: &[u8]) -> bool
        ensures { result ≡ fits text.now self.now pattern.now name.now }
    {
        self.pattern.holds(text, pattern) && self.name.holds(text, name)
    }
}

// Recorded answers over one lent text. The first row that fits a pair decides; a pair that no row fits is no, and a row with
// a place outside the text fits nothing.
#[derive(Clone, Copy, Debug, PartialEq, Eq)]
pub struct RecordedAnswers<'a> {
    pub text: &'a [u8],
    pub rows: &'a [Answer],
}

impl Matcher for RecordedAnswers<'_> {
    ghost matches = { λ s. recorded s.text.now s.rows.now };

    fn is_match(&self, pattern: &[u8], name: &[u8]) -> bool {
        self.rows
            .iter()
            .find(|row| row.records(self.text, pattern, name))
            .is_some_and(|row| row.answer)
    }
}
