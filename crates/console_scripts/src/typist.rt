//! Which characters keys can type, told by one look at a keymap.
ghost use Rattle.std.specs.Prelude.{◌≡◌, ℕ, true, false, Some, None, IfOk};
ghost use Rattle.console_states.specs.Moves.{alone};
ghost use Rattle.console_states.specs.Sticking.{ReachesMoreThan, state_limit};
ghost use Rattle.console_scripts.specs.Typing.{CanType};

use crate::typed::{places_of, typed_by};
use keymap_core::KeyMap;
use std::alloc::{AllocError, Global};
use std::collections::BTreeSet;
use std::marker::Model;

/// The characters that keys can type on a new console.
#[derive(Drop)]
pub struct Typist<'m> {
    map: &'m KeyMap,
    /// The characters that keys can type in the states that were met.
    typed: BTreeSet<char>,
    /// Whether these are all that keys can type. Else there are more than 65,536 states.
    is_complete: bool,
}

impl<'m> Model for Typist<'m> {
    ghost use Rattle.keymap_core.specs.Maps.{MapValue};
    ghost use Rattle.console_scripts.specs.Inner.Tapped.{TellsTyped};

    ghost Value = { MapValue };

    ghost view = { λ p. p.map.now };

    ghost invariant = { λ p. TellsTyped p.map.now p.is_complete p.typed };
}

impl<'m> Typist<'m> {
    pub fn new(alloc: Global, map: &'m KeyMap) -> Result<Typist<'m>, AllocError>
        ensures { IfOk result (λ typist. typist ≡ map.now) }
    {
        let places = places_of(alloc, map)?;
        let typed = typed_by(alloc, map, &places)?;
        Ok(Typist {
            map,
            typed,
            is_complete: places.is_complete,
        })
    }

    /// Whether keys can type the character, or nothing where there are more than 65,536 states and none of those that
    /// were met serves.
    pub fn can_type(&self, c: char) -> Option<bool>
        ensures can { result ≡ Some true → CanType self.now c }
        ensures cannot { result ≡ Some false → CanType self.now c → ⊥ }
        ensures undecided { result ≡ None → (p : ℕ) × ReachesMoreThan (alone self.now) state_limit p }
    {
        if self.typed.contains(&c) {
            Some(true)
        } else if self.is_complete {
            Some(false)
        } else {
            None
        }
    }
}
