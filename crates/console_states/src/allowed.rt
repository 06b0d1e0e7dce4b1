//! Which presses are made: a keyboard lacks keys, and sends other codes for some while control or alt is on; and some
//! actions are better not pressed.
ghost use Rattle.std.specs.Prelude.{◌≡◌};
ghost use Rattle.console_states.specs.Allowed.{is_key_pressed, is_pressed};

use crate::selection::Selection;
use keymap_core::{Cell, KeyCode};

/// When a key is pressed: while neither control is on, or neither alt, as some keys of keyboards that send other codes
/// then.
#[derive(Clone, Copy, Debug, PartialEq, Eq)]
pub enum KeyPresses {
    Always,
    WithoutControl,
    WithoutAlt,
    Never,
}

/// The keys that are pressed, by their codes, and the actions, by theirs.
#[derive(Clone, Copy)]
pub struct Presses {
    pub keys: [KeyPresses; 128],
    pub actions: [bool; 256],
}

impl KeyPresses {
    fn is_made(self, selection: Selection) -> bool
        ensures { result ≡ is_key_pressed self selection }
    {
        match self {
            KeyPresses::Always => true,
            KeyPresses::WithoutControl => !selection.control,
            KeyPresses::WithoutAlt => !selection.alt,
            KeyPresses::Never => false,
        }
    }
}

impl Presses {
    /// Whether a press of the key is made that looks up the cell under the selection.
    pub fn has(&self, selection: Selection, key: KeyCode, cell: Cell) -> bool
        ensures { result ≡ is_pressed self.now selection key cell }
    {
        let is_made = match cell {
            Cell::Char(_) => true,
            Cell::Act(action) => self.actions[action.code() as usize],
        };
        is_made && self.keys[key.get() as usize].is_made(selection)
    }
}
