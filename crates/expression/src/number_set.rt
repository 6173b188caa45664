// Copyright (c) The nextest Contributors
// SPDX-License-Identifier: MIT OR Apache-2.0

// Sets of small numbers, as of packages or of groups.
ghost use Rattle.std.specs.Prelude.{◌≡◌, ℕ, ◌≤◌, false, ◌&&◌, ◌||◌, Decides, ◌==◌, nat_lt};
ghost use Rattle.expression.specs.NumberSets.{width, size, member, inserted, united, no_numbers, void, SetLaws};

// How many words of 64 bits a set has.
const WORDS: usize = 1;

// The numbers of a set lie below this one.
pub const SIZE: usize = 64 * WORDS;

// A set of numbers below 64.
// Clauses name its words: a model as the list of the words would read no plainer, and as tests on numbers no two sets compare by `≡`.
#[derive(Clone, Copy, PartialEq, Eq, Debug, Default)]
pub struct NumberSet {
    words: [u64; WORDS],
}

impl NumberSet {
    // The set of no number.
    pub fn new() -> Self
        ensures words { result.words ≡ no_numbers width }
        ensures members { (n : ℕ) → member result.words n ≡ false }
        ensures laws { SetLaws }
    {
        NumberSet { words: [0; WORDS] }
    }

    // Adds a number. One that is not below 64 leaves the set as it is.
    pub fn insert(&mut self, n: usize)
        ensures words { self.new.words ≡ inserted self.old.words n }
        ensures members { (m : ℕ) → member self.new.words m ≡ (nat_lt n size && n == m || member self.old.words m) }
    {
        if n / 64 < WORDS {
            self.words[n / 64] |= 1 << (n % 64);
        }
    }

    // Adds the numbers of another set.
    pub(crate) fn unite(&mut self, other: &NumberSet)
        ensures words { self.new.words ≡ united self.old.words other.now.words }
        ensures members { (n : ℕ) → member self.new.words n ≡ (member self.old.words n || member other.now.words n) }
    {
        for (i, word) in other.words.iter().enumerate() {
            self.words[i] |= word;
        }
    }

    // Whether the set has the number. One that is not below 64 is in no set.
    #[tactic(auto, unfolding(crate::specs::NumberSets::bit))]
    pub fn contains(&self, n: usize) -> bool
        ensures value { result ≡ member self.now.words n }
        ensures outside { size ≤ n → result ≡ false }
    {
        n / 64 < WORDS && (self.words[n / 64] >> (n % 64)) % 2 == 1
    }

    // Whether the set has no number.
    pub fn is_empty(&self) -> bool
        ensures value { result ≡ void self.now.words }
        ensures members { Decides result ((n : ℕ) → member self.now.words n ≡ false) }
    {
        // A loop, since after `all` no fact says that a word has 64 bits, which the clause `members` rests on.
        for word in &self.words {
            if *word != 0 {
                return false;
            }
        }
        true
    }
}
