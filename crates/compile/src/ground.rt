// Copyright (c) The nextest Contributors
// SPDX-License-Identifier: MIT OR Apache-2.0

// What a filter is lowered against: the texts that hold its names, the tables, the matcher and the oracle.
ghost use Rattle.std.specs.Prelude.{◌≡◌};
ghost use Rattle.compile.specs.Words.{named_in};

use crate::tables::Tables;
use unicode_string::{Name, Texts};

#[derive(Drop)]
pub(crate) struct Ground<'a, M, O> {
    pub(crate) texts: Texts<'a>,
    pub(crate) tables: Tables<'a>,
    pub(crate) matcher: &'a M,
    pub(crate) oracle: &'a O,
}

impl<M, O> Ground<'_, M, O> {
    // A name's bytes.
    pub(crate) fn name_of(&self, name: Name) -> &[u8]
        ensures { result.now ≡ named_in self.now.texts.text.now self.now.texts.space.now name }
    {
        match self.texts.part(name) {
            Some(part) => part.bytes,
            None => &[],
        }
    }
}
