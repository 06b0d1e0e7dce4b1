//! Accents and their pairs: `struct acc_t` of sys/kbio.h.
ghost use Rattle.std.specs.Prelude.{◌≡◌, ◌≢◌, ◌≤◌, ◌↔◌, ◌++◌, [], ◌∷◌, length, OnOk, OnErr, IsErrOf};
ghost use Rattle.keymap_core.specs.Numbers.{pair_limit};

use crate::bounds::{Bounded, have_bounds};
use crate::limits::PAIR_LIMIT;
use arrayvec::ArrayVec;
use std::marker::Model;

/// Why an accent takes no further pair.
#[derive(Clone, Copy, Debug, PartialEq, Eq)]
pub enum PairFault {
    /// The base is character 0, which ends the pairs in a table.
    ZeroBase,
    /// The accent has 52 pairs already.
    TooManyPairs,
}

/// An accent: its own character, and 0 to 52 pairs of a base and the result. No base is character 0.
#[derive(Debug, Drop, PartialEq, Eq)]
pub struct Accent {
    own: char,
    pairs: ArrayVec<(char, char), PAIR_LIMIT>,
}

impl Model for Accent {
    ghost use Rattle.std.specs.Prelude.{length, ◌≤◌};
    ghost use Rattle.keymap_core.specs.Accents.{AccentValue, AllBasesNotZero};

    ghost Value = { AccentValue };

    ghost view = { λ a. record { own = a.own; pairs = a.pairs.items } };

    ghost invariant = { λ a. AllBasesNotZero a.pairs.items };

    ghost inverse = { λ v. record { own = v.own; pairs = record { items = v.pairs } } };
}

impl Accent {
    ghost use Rattle.keymap_core.specs.Accents.{AllBasesNotZero};

    /// The accent with this character and no pairs.
    pub fn new(own: char) -> Accent
        ensures own { result.own ≡ own }
        ensures pairs { result.pairs ≡ [] }
    {
        Accent {
            own,
            pairs: ArrayVec::new(),
        }
    }

    /// The character that the accent itself gives.
    pub fn own(&self) -> char
        ensures { result ≡ self.now.own }
    {
        self.own
    }

    /// The pairs of a base and the result, in the order in which they were pushed.
    pub fn pairs(&self) -> &[(char, char)]
        ensures value { result.now ≡ self.now.pairs }
        ensures few { length result.now ≤ pair_limit }
        ensures bases { AllBasesNotZero result.now }
    {
        self.pairs.as_slice()
    }

    /// Adds a pair of a base and the result after the others.
    pub fn push_pair(&mut self, base: char, composed: char) -> Result<(), PairFault>
        ensures ok { OnOk result (self.new ≡ record self.old { pairs = self.old.pairs ++ (base, composed) ∷ [] }) }
        ensures zero { IsErrOf result PairFault.ZeroBase ↔ (base ≡ 0) }
        ensures full { IsErrOf result PairFault.TooManyPairs ↔ ((base ≢ 0) × (length self.old.pairs ≡ pair_limit)) }
        ensures err { OnErr result (self.new ≡ self.old) }
    {
        if base == '\0' {
            return Err(PairFault::ZeroBase);
        }
        if self.pairs.is_full() {
            return Err(PairFault::TooManyPairs);
        }
        self.pairs.push((base, composed));
        Ok(())
    }

    pub(crate) fn copied(&self) -> Accent
        ensures { result ≡ self.now }
    {
        let mut copy = Accent::new(self.own);
        for pair in self.pairs.as_slice() {
            copy.pairs.push(*pair);
        }
        copy
    }
}

impl Bounded for Accent {
    ghost use Rattle.keymap_core.specs.Bounds.{IsAccent};

    ghost Is = { IsAccent };

    fn has_bounds(&self) {
        self.own.has_bounds();
        have_bounds(self.pairs());
    }
}
