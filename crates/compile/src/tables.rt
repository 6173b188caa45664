// Copyright (c) The nextest Contributors
// SPDX-License-Identifier: MIT OR Apache-2.0

// The names of packages, binaries and groups, as places in one lent text.
ghost use Rattle.std.specs.Prelude.{◌≡◌, length, is_ok};
ghost use Rattle.std.specs.List.{list_all};
ghost use Rattle.compile.specs.Tables.{name_at, lies_in, binary_lies_in, groups_good, good, rows_of};

use errors::faults::TablesFault;
use glob::place::Place;

// The most packages, binaries and groups with a name.
const PACKAGES: usize = 64;

const BINARIES: usize = 256;

const GROUPS: usize = 63;

// A binary: its id and its name.
#[derive(Clone, Copy, PartialEq, Eq, Debug)]
pub struct BinaryRow {
    pub id: Place,
    pub name: Place,
}

// The rows that a filter is lowered to; `None` if groups are unavailable.
#[derive(Clone, Copy, PartialEq, Eq, Debug)]
pub struct Tables<'a> {
    pub names: &'a [u8],
    pub packages: &'a [Place],
    pub binaries: &'a [BinaryRow],
    pub groups: Option<&'a [Place]>,
}

impl<'a> Tables<'a> {
    // The name at a place; no byte where the place does not lie in the text.
    pub(crate) fn name(&self, place: Place) -> &'a [u8]
        ensures { result.now ≡ name_at self.now.names.now place }
    {
        place.of(self.names).unwrap_or(&[])
    }

    // Whether the place lies in the names text.
    fn has(&self, place: Place) -> bool
        ensures { result ≡ lies_in self.now.names.now place }
    {
        place.of(self.names).is_some()
    }

    fn has_all(&self, rows: &[Place]) -> bool
        ensures { result ≡ list_all (lies_in self.now.names.now) rows.now }
    {
        rows.iter().all(|row| self.has(*row))
    }

    fn has_binary(&self, row: BinaryRow) -> bool
        ensures { result ≡ binary_lies_in self.now.names.now row }
    {
        self.has(row.id) && self.has(row.name)
    }

    fn has_binaries(&self) -> bool
        ensures { result ≡ list_all (binary_lies_in self.now.names.now) self.now.binaries.now }
    {
        self.binaries.iter().all(|row| self.has_binary(*row))
    }

    // Whether groups are unavailable, or no more than there may be, and each name lies in the names text.
    fn has_groups(&self) -> bool
        ensures { result ≡ groups_good self.now.names.now (rows_of self.now).groups }
    {
        match self.groups {
            Some(rows) => rows.len() <= GROUPS && self.has_all(rows),
            None => true,
        }
    }

    // Whether there are no more rows than there may be, and each name lies in the names text.
    fn are_good(&self) -> bool
        ensures { result ≡ good (rows_of self.now) }
    {
        self.packages.len() <= PACKAGES
            && self.binaries.len() <= BINARIES
            && self.has_all(self.packages)
            && self.has_binaries()
            && self.has_groups()
    }
}

// Refuses tables with too many rows, or with a name outside the names text.
pub fn check_tables(tables: &Tables<'_>) -> Result<(), TablesFault>
    ensures { is_ok result ≡ good (rows_of tables.now) }
{
    if tables.are_good() {
        Ok(())
    } else {
        Err(TablesFault)
    }
}
