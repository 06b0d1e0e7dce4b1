//! What a console asks of a keymap, however it is kept.
ghost use Rattle.std.specs.Prelude.{◌≡◌, ◌<◌};
ghost use Rattle.keymap_core.specs.Accents.{own_of, result_of, first_result as first_result_of};
ghost use Rattle.keymap_core.specs.Maps.{MapValue, entry_at, cell_at, accent_at};
ghost use Rattle.keymap_core.specs.Numbers.{column_count};

use crate::entry::{Cell, LockFlag};
use crate::map::KeyMap;

/// A keymap, however it is kept: what stands at each slot and column, and what each accent gives.
pub trait Keymap {
    /// The value shows this map. Where it shows none, nothing is said of what its methods answer.
    ghost shows: { Self → MapValue → Type 0 };

    /// The cell of the slot in the column.
    fn cell(&self, slot: u8, column: usize) -> Cell
        requires { column < column_count }
        ensures { (m : MapValue) → shows self.now m → result ≡ cell_at m slot column };

    /// The lock flag of the slot.
    fn flag(&self, slot: u8) -> LockFlag
        ensures { (m : MapValue) → shows self.now m → result ≡ (entry_at m slot).flag };

    /// The own character of the accent, if the accent is defined.
    fn own(&self, index: u8) -> Option<char>
        ensures { (m : MapValue) → shows self.now m → result ≡ own_of (accent_at m index) };

    /// The result of the accent's first pair with this base.
    fn composed(&self, index: u8, base: char) -> Option<char>
        ensures { (m : MapValue) → shows self.now m → result ≡ result_of (accent_at m index) base };
}

/// The result of the first pair with this base.
fn first_result(pairs: &[(char, char)], base: char) -> Option<char>
    ensures { result ≡ first_result_of pairs.now base }
{
    for (from, to) in pairs {
        if *from == base {
            return Some(*to);
        }
    }
    None
}

impl Keymap for KeyMap {
    ghost use Rattle.std.specs.Prelude.{◌≡◌};

    ghost shows = { λ k m. k ≡ m };

    fn cell(&self, slot: u8, column: usize) -> Cell {
        self.entry(slot).cells[column]
    }

    fn flag(&self, slot: u8) -> LockFlag {
        self.entry(slot).flag
    }

    fn own(&self, index: u8) -> Option<char> {
        match self.accent(index) {
            Some(accent) => Some(accent.own()),
            None => None,
        }
    }

    fn composed(&self, index: u8, base: char) -> Option<char> {
        match self.accent(index) {
            Some(accent) => first_result(accent.pairs(), base),
            None => None,
        }
    }
}
