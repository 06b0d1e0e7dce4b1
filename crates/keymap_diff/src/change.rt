//! What differs between two keymaps, as values.
use keymap_core::{Cell, LockFlag};

/// One thing that differs between an old keymap and a new one: what it is in each. Where it is unseen, no press meets
/// it under either of them, at least not before a key forgets that it holds a modifier.
#[derive(Clone, Copy, Debug, PartialEq, Eq)]
pub enum Change {
    /// How many slots the keymap has: one more than the last that is defined.
    Slots {
        old: u16,
        new: u16,
    },
    /// The cell of a slot and column.
    Cell {
        slot: u8,
        column: u8,
        old: Cell,
        new: Cell,
        is_unseen: bool,
    },
    /// The lock letter of a slot.
    Letter {
        slot: u8,
        old: LockFlag,
        new: LockFlag,
        is_unseen: bool,
    },
    /// How many accents the keymap has.
    Accents {
        old: u8,
        new: u8,
    },
    /// The own character of an accent, 0 where it isn't defined.
    Accent {
        accent: u8,
        old: char,
        new: char,
        is_unseen: bool,
    },
    /// What an accent makes of a base, if it takes it.
    Pair {
        accent: u8,
        base: char,
        old: Option<char>,
        new: Option<char>,
        is_unseen: bool,
    },
    /// The pairs of an accent, though it makes the same of each base: their order, or one behind another with its base.
    ListedOtherwise {
        accent: u8,
    },
}
