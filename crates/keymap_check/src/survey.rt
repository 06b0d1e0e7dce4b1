//! A keymap whose cells were gone over once: which keys have a modifier or lock.
ghost use Rattle.std.specs.Prelude.{◌≡◌, ◌<◌, ◌≤◌, IfSome};
ghost use Rattle.std.specs.Option.{is_some};
ghost use Rattle.keymap_core.specs.Maps.{MapValue};
ghost use Rattle.keymap_check.specs.Cells.{first_place as first_place_of};
ghost use Rattle.keymap_check.specs.Inner.Surveyed.{IsSurvey};
ghost use Rattle.keymap_core.specs.Numbers.{key_count};

use crate::cells::{first_place, place_count};
use crate::kind::Kind;
use keymap_core::{KEY_COUNT, Keymap};
use std::marker::Model;

/// How many cells each key of a keymap has, and for each key whether some of them are modifiers or locks: most keys
/// have none, and need not be asked for each of these.
#[derive(Drop)]
pub(crate) struct Survey {
    places: u8,
    holding: [bool; KEY_COUNT],
}

impl Model for Survey {
    ghost use Rattle.std.specs.Prelude.{◌≡◌, ◌≤◌};
    ghost use Rattle.keymap_check.specs.Inner.Surveyed.{SurveyValue};

    ghost Value = { SurveyValue };

    ghost view = { λ s. record { places = s.places; holding = s.holding } };

    ghost invariant = { λ s. s.places ≤ 16 };
}

impl Survey {
    /// Goes over the cells of the keymap.
    pub(crate) fn of<K: Keymap>(map: &K) -> Survey
        ensures { (m : MapValue) → K.shows map.now m → IsSurvey m result }
    {
        let places = place_count(map);
        let mut holding = [false; KEY_COUNT];
        for key in 0..KEY_COUNT as u8 {
            holding[key as usize] = first_place(map, places, key, Kind::AnyHolding).is_some();
        }
        Survey { places, holding }
    }

    /// The first place of the key that has a cell of the kind, in the keymap that was gone over.
    pub(crate) fn first_place<K: Keymap>(&self, map: &K, key: u8, kind: Kind) -> Option<u8>
        requires { key < key_count }
        ensures value { (m : MapValue) → K.shows map.now m → IsSurvey m self.now
            → result ≡ first_place_of m kind key }
        ensures in_range { IfSome result (λ place. place < 16) }
    {
        if kind.is_holding() && !self.holding[key as usize] {
            return None;
        }
        first_place(map, self.places, key, kind)
    }

    /// Whether the key has a cell of the kind.
    pub(crate) fn has<K: Keymap>(&self, map: &K, key: u8, kind: Kind) -> bool
        requires { key < key_count }
        ensures { (m : MapValue) → K.shows map.now m → IsSurvey m self.now
            → result ≡ is_some (first_place_of m kind key) }
    {
        self.first_place(map, key, kind).is_some()
    }
}
