//! What cells do, as far as trials tell it apart, and what is known of keys whatever is on.
ghost use Rattle.std.specs.Prelude.{◌≡◌, length};
ghost use Rattle.keymap_core.specs.Numbers.{key_count};

use crate::group::Group;
use crate::spots::holding_of;
use console_core::is_usable;
use console_states::Presses;
use keymap_core::{Action, Cell, KEY_COUNT, KeyCode, KeyMap};

/// What a cell does.
#[derive(Clone, Copy, Debug, PartialEq, Eq)]
pub enum Kind {
    Character,
    Nothing,
    Modifier,
    Lock,
    DeadKey,
    /// The dead key of an accent that has no character.
    UnusableDeadKey,
    BackTab,
    NextScreen,
    PreviousScreen,
    /// Another action of the group.
    Of(Group),
}

impl Kind {
    pub fn of(map: &KeyMap, cell: &Cell) -> Kind {
        match cell {
            Cell::Char(_) => Kind::Character,
            Cell::Act(Action::Mod(_)) => Kind::Modifier,
            Cell::Act(Action::Lock(_)) => Kind::Lock,
            Cell::Act(Action::DeadKey(accent)) if is_usable(map, accent.get()) => Kind::DeadKey,
            Cell::Act(Action::DeadKey(_)) => Kind::UnusableDeadKey,
            Cell::Act(Action::BackTab) => Kind::BackTab,
            Cell::Act(Action::NextScreen) => Kind::NextScreen,
            Cell::Act(Action::PreviousScreen) => Kind::PreviousScreen,
            Cell::Act(action) => match Group::of(action) {
                Some(group) => Kind::Of(group),
                None => Kind::Nothing,
            },
        }
    }
}

/// The keys some cell of which is an action that isn't pressed, and those that hold and turn nothing.
#[derive(Clone, Copy, Debug)]
pub(crate) struct KeyTable {
    risky: [bool; KEY_COUNT],
    still: [bool; KEY_COUNT],
    ghost risky_len: { length risky ≡ key_count },
    ghost still_len: { length still ≡ key_count },
}

/// Whether the cell is an action that isn't pressed.
fn is_withheld(presses: &Presses, cell: &Cell) -> bool {
    match cell {
        Cell::Act(action) => !presses.actions[action.code() as usize],
        Cell::Char(_) => false,
    }
}

/// Whether a cell of the slot is an action that isn't pressed.
fn is_risky_slot(map: &KeyMap, presses: &Presses, slot: u8) -> bool {
    for cell in map.entry(slot).cells() {
        if is_withheld(presses, cell) {
            return true;
        }
    }
    false
}

/// Whether no cell of the slot is a modifier or a lock.
fn is_still_slot(map: &KeyMap, slot: u8) -> bool {
    for cell in map.entry(slot).cells() {
        if holding_of(cell).is_some() {
            return false;
        }
    }
    true
}

impl KeyTable {
    pub fn of(map: &KeyMap, presses: &Presses) -> KeyTable {
        let is_live = map.is_upper_live();
        let mut keys = KeyTable {
            risky: [false; KEY_COUNT],
            still: [false; KEY_COUNT],
        };
        for code in 0..KEY_COUNT as u8 {
            let upper = code + KEY_COUNT as u8;
            keys.risky[code as usize] = is_risky_slot(map, presses, code)
                || (is_live && is_risky_slot(map, presses, upper));
            keys.still[code as usize] = is_still_slot(map, code)
                && (!is_live || is_still_slot(map, upper));
        }
        keys
    }

    /// Whether some cell of the key is an action that isn't pressed.
    pub fn is_risky(&self, key: KeyCode) -> bool {
        self.risky[key.get() as usize]
    }

    /// Whether no cell of the key is a modifier, a lock, or an action that isn't pressed.
    pub fn is_still(&self, key: KeyCode) -> bool {
        self.still[key.get() as usize] && !self.risky[key.get() as usize]
    }
}
