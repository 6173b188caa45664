// Copyright (c) The nextest Contributors
// SPDX-License-Identifier: MIT OR Apache-2.0

// Which group a test is in, by number: rosters take the place of a lookup of groups by name.
ghost use Rattle.std.specs.Prelude.{◌≡◌, ℕ, Bool, List, Decides};
ghost use Rattle.expression.specs.Queries.{Test, test_of};
ghost use Rattle.expression.specs.Lawful.{row_decides, prefix_decides};
ghost use Rattle.expression.specs.Rosters.{row_fits, prefix_fits, first_fit, RowFits, PrefixFits, FirstDecides};

use crate::queries::TestQuery;
use glob::place::Place;

// A fixed function from tests to group numbers. It never refuses.
pub trait Roster {
    ghost groups: { Self → Test → ℕ };

    fn group(&self, query: &TestQuery<'_>) -> usize
        ensures { result ≡ groups self.now (test_of query.now) };
}

// A row of a roster: which tests it fits, and the number of their group. Names in it are places in a text.
pub trait Row {
    ghost suits: { List ℕ → Test → Self → Bool };

    ghost Suits: { List ℕ → Test → Self → Type 0 };

    ghost number: { Self → ℕ };

    fn fits(&self, text: &[u8], query: &TestQuery<'_>) -> bool
        ensures { result ≡ suits text.now (test_of query.now) self.now };

    fn group(&self) -> usize
        ensures { result ≡ number self.now };

    // The test says which tests the row fits.
    ghost decided: { (text : List ℕ) (test : Test) (row : Self) → Decides (suits text test row) (Suits text test row) };
}

// Rows in their order. The first row that fits decides; a test that no row fits is in group 0.
#[derive(Clone, Copy)]
pub struct Rows<'a, R> {
    pub text: &'a [u8],
    pub rows: &'a [R],
}

impl<R: Row> Roster for Rows<'_, R> {
    ghost groups = { λ s test. first_fit (R.suits s.text.now test) R.number s.rows.now };

    fn group(&self, query: &TestQuery<'_>) -> usize
        ensures value { result ≡ first_fit (R.suits self.now.text.now (test_of query.now)) R.number self.now.rows.now }
        ensures first { FirstDecides (R.Suits self.now.text.now (test_of query.now)) R.number self.now.rows.now result }
    {
        self.rows
            .iter()
            .find(|row| row.fits(self.text, query))
            .map_or(0, |row| row.group())
    }
}

// The group of the test of that name in the binary of that id.
#[derive(Clone, Copy, PartialEq, Eq, Debug)]
pub struct TestRow {
    pub binary_id: Place,
    pub test_name: Place,
    pub group: usize,
}

impl Row for TestRow {
    ghost suits = { row_fits };

    ghost Suits = { RowFits };

    ghost number = { λ row. row.group };

    ghost decided = { row_decides };

    fn fits(&self, text: &[u8], query: &TestQuery<'_>) -> bool {
        self.binary_id.holds(text, query.binary.binary_id)
            && self.test_name.holds(text, query.test_name)
    }

    fn group(&self) -> usize {
        self.group
    }
}

// Rows for single tests.
pub type TestRoster<'a> = Rows<'a, TestRow>;

// The group of the tests whose name begins with the prefix.
#[derive(Clone, Copy, PartialEq, Eq, Debug)]
pub struct PrefixRow {
    pub prefix: Place,
    pub group: usize,
}

impl Row for PrefixRow {
    ghost suits = { prefix_fits };

    ghost Suits = { PrefixFits };

    ghost number = { λ row. row.group };

    ghost decided = { prefix_decides };

    fn fits(&self, text: &[u8], query: &TestQuery<'_>) -> bool {
        self.prefix
            .of(text)
            .is_some_and(|prefix| query.test_name.starts_with(prefix))
    }

    fn group(&self) -> usize {
        self.group
    }
}

// Rows for prefixes of test names.
pub type PrefixRoster<'a> = Rows<'a, PrefixRow>;
