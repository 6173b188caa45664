// Copyright (c) The nextest Contributors
// SPDX-License-Identifier: MIT OR Apache-2.0

// What a name finds in the tables: packages, groups and binaries.
ghost use Rattle.std.specs.Prelude.{◌≡◌, ℕ, ◌^◌, ◌<◌, List, ◌++◌, map, length};
ghost use Rattle.expression.specs.NumberSets.{width, set_of};
ghost use Rattle.compile.specs.Tables.{name_at, binary_at};
ghost use Rattle.compile.specs.Numbers.{passes, numbers_of, along, is_led, reached, field_of};
ghost use Rattle.compile.specs.World.{world, fits};
ghost use Rattle.compile.specs.Lowered.{packages_of, near_of, groups_by, has_binary};

use crate::ground::Ground;
use crate::tables::BinaryRow;
use expression::name_matcher::MatchKind;
use expression::number_set::NumberSet;
use expression::oracle::DependencyOracle;
use glob::matcher::Matcher;
use glob::place::Place;

// How a name is compared, and what with.
#[derive(Clone, Copy)]
pub(crate) struct Wanted<'a> {
    pub(crate) kind: MatchKind,
    pub(crate) value: &'a [u8],
}

// From a package to those that it depends on, or to those that depend on it.
// An enum and no closure, since what filters mean is said by its two names.
#[derive(Clone, Copy)]
pub(crate) enum Direction {
    Dependencies,
    Dependents,
}

impl Direction {
    fn leads<O: DependencyOracle>(self, oracle: &O, from: usize, to: usize) -> bool
        ensures { result ≡ along self (O.depends oracle.now) from to }
    {
        match self {
            Direction::Dependencies => oracle.depends_on(from, to),
            Direction::Dependents => oracle.depends_on(to, from),
        }
    }
}

// What a binary is found by. An enum and no closure, since what filters mean is said by its two names.
#[derive(Clone, Copy)]
pub(crate) enum BinaryField {
    Id,
    Name,
}

impl BinaryField {
    fn of(self, row: BinaryRow) -> Place
        ensures { (names : List ℕ) → name_at names result ≡ field_of self (binary_at names row) }
    {
        match self {
            BinaryField::Id => row.id,
            BinaryField::Name => row.name,
        }
    }
}

impl<M: Matcher, O: DependencyOracle> Ground<'_, M, O> {
    // Whether a name is taken.
    fn takes(&self, wanted: Wanted<'_>, name: &[u8]) -> bool
        ensures { result ≡ fits (world M.matches O.depends self.now) wanted.entry.kind wanted.entry.value.now name.now }
    {
        wanted.kind.is_match(self.matcher, wanted.value, name)
    }

    // Adds the numbers of the rows whose name is taken, where the first row has that number.
    fn insert_taken(&self, wanted: Wanted<'_>, rows: &[Place], first: usize, set: &mut NumberSet)
        requires { first < 2 ^ 62 }
        ensures { (front : List (List ℕ)) → length front ≡ first →
            set.old.words ≡ set_of width (passes (fits (world M.matches O.depends self.now) wanted.entry.kind wanted.entry.value.now) (front ++ map (name_at self.now.tables.names.now) rows.now)) first →
            set.new.words ≡ numbers_of (fits (world M.matches O.depends self.now) wanted.entry.kind wanted.entry.value.now) (front ++ map (name_at self.now.tables.names.now) rows.now) }
    {
        for (i, row) in rows.iter().enumerate() {
            if self.takes(wanted, self.tables.name(*row)) {
                set.insert(first + i);
            }
        }
    }

    // The packages whose name is taken.
    pub(crate) fn packages(&self, wanted: Wanted<'_>) -> NumberSet
        ensures { result.words ≡ packages_of (world M.matches O.depends self.now) wanted.entry.kind wanted.entry.value.now }
    {
        let mut set = NumberSet::new();
        self.insert_taken(wanted, self.tables.packages, 0, &mut set);
        set
    }

    // The groups whose name is taken: group 0 is @global, and the rows follow from 1.
    pub(crate) fn groups(&self, wanted: Wanted<'_>) -> NumberSet
        ensures { result.words ≡ groups_by (world M.matches O.depends self.now) wanted.entry.kind wanted.entry.value.now }
    {
        let mut set = NumberSet::new();
        if let Some(rows) = self.tables.groups {
            if self.takes(wanted, b"@global") {
                set.insert(0);
            }
            self.insert_taken(wanted, rows, 1, &mut set);
        }
        set
    }

    // Whether some package of a set leads to the package.
    fn is_led(&self, way: Direction, set: NumberSet, to: usize) -> bool
        ensures { result ≡ is_led way (O.depends self.now.oracle.now) set.words (length self.now.tables.packages.now) to }
    {
        for from in 0..self.tables.packages.len() {
            if set.contains(from) && way.leads(self.oracle, from, to) {
                return true;
            }
        }
        false
    }

    // The packages to which some package of a set leads.
    fn reached_from(&self, way: Direction, set: NumberSet) -> NumberSet
        ensures { result.words ≡ reached way (O.depends self.now.oracle.now) set.words (length self.now.tables.packages.now) }
    {
        let mut found = NumberSet::new();
        for to in 0..self.tables.packages.len() {
            if self.is_led(way, set, to) {
                found.insert(to);
            }
        }
        found
    }

    // The packages that these depend on, or that depend on them.
    pub(crate) fn near(&self, way: Direction, wanted: Wanted<'_>) -> NumberSet
        ensures { result.words ≡ near_of (world M.matches O.depends self.now) way wanted.entry.kind wanted.entry.value.now }
    {
        self.reached_from(way, self.packages(wanted))
    }

    // Whether a binary's id or name is taken.
    fn takes_binary(&self, field: BinaryField, wanted: Wanted<'_>, row: BinaryRow) -> bool
        ensures { result ≡ fits (world M.matches O.depends self.now) wanted.entry.kind wanted.entry.value.now (field_of field (binary_at self.now.tables.names.now row)) }
    {
        self.takes(wanted, self.tables.name(field.of(row)))
    }

    // Whether that of some binary is taken.
    pub(crate) fn has_binary(&self, field: BinaryField, wanted: Wanted<'_>) -> bool
        ensures { result ≡ has_binary (world M.matches O.depends self.now) field wanted.entry.kind wanted.entry.value.now }
    {
        // A loop, since no fact says what `any` gives of a closure that calls through a type parameter.
        for row in self.tables.binaries {
            if self.takes_binary(field, wanted, *row) {
                return true;
            }
        }
        false
    }
}
