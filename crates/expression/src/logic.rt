// Copyright (c) The nextest Contributors
// SPDX-License-Identifier: MIT OR Apache-2.0

// Propositional logics, and how their values fit the truth values.
ghost use Rattle.std.specs.Prelude.{◌≡◌, Bool};
ghost use Rattle.expression.specs.Logic.{Ops, Laws, truth, Same};
ghost use Rattle.expression.specs.Kleene.{kleene, Allows};
ghost use Rattle.expression.specs.Lawful.{truth_lawful, kleene_lawful};

// The operators that filters are evaluated with. A value fits the truth values that it may stand for.
pub trait Logic: Sized {
    ghost ops: { Ops Self };

    ghost fits: { Self → Bool → Type 0 };

    // The value of `all()`.
    fn top() -> Self
        ensures { result ≡ ops.top };

    // The value of `none()`.
    fn bottom() -> Self
        ensures { result ≡ ops.bottom };

    fn logic_and(self, other: Self) -> Self
        ensures { result ≡ ops.both self other };

    fn logic_or(self, other: Self) -> Self
        ensures { result ≡ ops.either self other };

    fn logic_not(self) -> Self
        ensures { result ≡ ops.negated self };

    ghost lawful: { Laws ops fits };
}

// Truth values: a value fits itself alone.
impl Logic for bool {
    ghost ops = { truth };

    ghost fits = { Same };

    ghost lawful = { truth_lawful };

    fn top() -> bool {
        true
    }

    fn bottom() -> bool {
        false
    }

    fn logic_and(self, other: bool) -> bool {
        self && other
    }

    fn logic_or(self, other: bool) -> bool {
        self || other
    }

    fn logic_not(self) -> bool {
        !self
    }
}

// Three values: `None` is undecided and fits both truth values.
impl Logic for Option<bool> {
    ghost ops = { kleene };

    ghost fits = { Allows };

    ghost lawful = { kleene_lawful };

    fn top() -> Option<bool> {
        Some(true)
    }

    fn bottom() -> Option<bool> {
        Some(false)
    }

    fn logic_and(self, other: Option<bool>) -> Option<bool> {
        match (self, other) {
            // One that is false decides.
            (Some(false), _) | (_, Some(false)) => Some(false),
            (Some(true), Some(true)) => Some(true),
            _ => None,
        }
    }

    fn logic_or(self, other: Option<bool>) -> Option<bool> {
        match (self, other) {
            // One that is true decides.
            (Some(true), _) | (_, Some(true)) => Some(true),
            (Some(false), Some(false)) => Some(false),
            _ => None,
        }
    }

    fn logic_not(self) -> Option<bool> {
        self.map(|b| !b)
    }
}
