// Examples of what filters are evaluated with.
#![tactic(auto)]

ghost use Rattle.std.specs.Prelude.{◌≡◌};

use expression::evaluate::Leaves;

// Leaves that are values already.
#[derive(Clone, Copy)]
pub struct Values;

impl<L: Copy> Leaves<L, L> for Values {
    ghost shows = { λ _ leaf. leaf };

    fn value(&self, leaf: L) -> L {
        leaf
    }
}

#[cfg(test)]
mod logics;
#[cfg(test)]
mod names;
#[cfg(test)]
mod oracles;
#[cfg(test)]
mod rosters;
