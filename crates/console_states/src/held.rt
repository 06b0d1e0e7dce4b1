//! The states that the search for sticking modifiers goes over, and the moves between them.
ghost use Rattle.std.specs.Prelude.{◌≡◌, ◌≤◌, length, All};
ghost use Rattle.keymap_core.specs.Numbers.{key_count};

mod moves;

use crate::allowed::Presses;
use keymap_core::{KeyCode, KeyMap, Lock, Modifier};

/// The keymaps of a search, whether loads exchange them, which presses are allowed, which are all where none are told,
/// and the accent of the first keymap that is minded, if one is: whether that is pending is a part of its states.
#[derive(Clone, Copy)]
pub struct Keymaps<'m> {
    pub first: &'m KeyMap,
    pub second: &'m KeyMap,
    pub has_loads: bool,
    pub presses: Option<&'m Presses>,
    pub minded: Option<u8>,
}

/// Which key holds each modifier on, which locks are on, whether the second keymap is in force, and whether the accent
/// is pending that is minded. The scroll lock, which picks no cell, is turned by no move, and so it is off. The holder
/// of a modifier is a byte, so that states are quickly told apart: 0 for none, and else one more than the key's code.
#[derive(Clone, Copy, Debug, PartialEq, Eq)]
pub struct Held {
    holders: [u8; 8],
    locks: [bool; 4],
    is_second: bool,
    is_pending: bool,
    ghost holders_len: { length holders ≡ 8 },
    ghost locks_len: { length locks ≡ 4 },
    ghost are_numbers: { All (λ n. n ≤ key_count) holders },
}

/// Presses, releases and loads that lead from one state to another.
#[derive(Clone, Copy, Debug, PartialEq, Eq)]
pub enum Move {
    /// The key is pressed and begins to hold the modifier.
    Hold(KeyCode, Modifier),
    /// The key is pressed and released, and turns the lock.
    Turn(KeyCode, Lock),
    /// The key is pressed and released, and the accent that is minded is pending.
    Tap(KeyCode),
    /// The key that holds the modifier is released.
    LetGo(KeyCode, Modifier),
    /// The other keymap is loaded, while no key holds a modifier.
    Exchange,
}

/// A move and where it leads.
#[derive(Clone, Copy, Debug, PartialEq, Eq)]
pub struct Step {
    pub by: Move,
    pub to: Held,
}
