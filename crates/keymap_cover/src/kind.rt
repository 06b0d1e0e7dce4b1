//! What cells do, as far as trials tell it apart.
use console_core::is_usable;
use keymap_core::{Action, Cell, KeyMap};

/// What a cell does.
#[derive(Clone, Copy, PartialEq, Eq)]
pub(crate) enum Kind {
    Character,
    Nothing,
    Modifier,
    Lock,
    DeadKey,
    /// The dead key of an accent that has no character.
    UnusableDeadKey,
    BackTab,
    Function,
    Screen,
    Paste,
    /// An action that ends a pending accent and is answered.
    Other,
}

impl Kind {
    pub(crate) fn of(map: &KeyMap, cell: &Cell) -> Kind {
        match cell {
            Cell::Char(_) => Kind::Character,
            Cell::Act(Action::Nop) => Kind::Nothing,
            Cell::Act(Action::Mod(_)) => Kind::Modifier,
            Cell::Act(Action::Lock(_)) => Kind::Lock,
            Cell::Act(Action::DeadKey(accent)) if is_usable(map, accent.get()) => Kind::DeadKey,
            Cell::Act(Action::DeadKey(_)) => Kind::UnusableDeadKey,
            Cell::Act(Action::BackTab) => Kind::BackTab,
            Cell::Act(Action::Function(_)) => Kind::Function,
            Cell::Act(Action::Screen(_)) => Kind::Screen,
            Cell::Act(Action::Paste) => Kind::Paste,
            Cell::Act(_) => Kind::Other,
        }
    }

    /// A character, nothing, what holds (as a modifier), or another action.
    pub(crate) fn roughly(cell: &Cell) -> Kind {
        match cell {
            Cell::Char(_) => Kind::Character,
            Cell::Act(Action::Nop) => Kind::Nothing,
            Cell::Act(Action::Mod(_)) | Cell::Act(Action::Lock(_)) => Kind::Modifier,
            Cell::Act(_) => Kind::Other,
        }
    }

    /// Whether the kind is another action than a modifier, a lock or a dead key.
    pub(crate) fn is_other(self) -> bool {
        matches!(
            self,
            Kind::BackTab | Kind::Function | Kind::Screen | Kind::Paste | Kind::Other
        )
    }
}
