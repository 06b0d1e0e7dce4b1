//! Which actions and cells are tried in trials, and what keys look up there.
use console_states::Held;
use keymap_core::{AccentIndex, Action, Cell, Holding, KeyCode, KeyMap, Keymap, Lock, Modifier};

/// Whether an action is tried with locks: not the scroll lock, and of left and right, which pick cells alike, the
/// left.
fn is_tried_with_locks(holding: Holding) -> bool {
    !matches!(
        holding,
        Holding::Lock(Lock::Scroll)
            | Holding::Mod(Modifier::RightShift)
            | Holding::Mod(Modifier::RightControl)
            | Holding::Mod(Modifier::RightAlt)
    )
}

/// Whether two actions are tried together: two keys of one action, left and right, and a lock with another action.
pub(crate) fn are_tried(one: Holding, other: Holding) -> bool {
    match (one, other) {
        (Holding::Mod(Modifier::LeftShift), Holding::Mod(Modifier::RightShift))
        | (Holding::Mod(Modifier::LeftControl), Holding::Mod(Modifier::RightControl))
        | (Holding::Mod(Modifier::LeftAlt), Holding::Mod(Modifier::RightAlt)) => true,
        (Holding::Mod(_), Holding::Mod(_)) => one == other,
        _ => one == other || (is_tried_with_locks(one) && is_tried_with_locks(other)),
    }
}

/// What the key looks up where nothing is on.
pub(crate) fn rest_cell(map: &KeyMap, key: KeyCode) -> Cell {
    map.entry(key.get()).cells[0]
}

/// What the key looks up where the holder holds the modifier, and nothing else is on.
pub(crate) fn cell_with(map: &KeyMap, key: KeyCode, modifier: Modifier, holder: KeyCode) -> Cell {
    let held = Held::start().with_holder(modifier, Some(holder));
    held.selection().look(map, key)
}

/// Whether a cell can stand between a dead key of the accent and a blank: neither that dead key, the blank, a base
/// nor the character 0.
pub(crate) fn is_between(map: &KeyMap, accent: AccentIndex, cell: &Cell) -> bool {
    match cell {
        Cell::Char(c) => { *c != '\0' && *c != ' ' && map.composed(accent.get(), *c).is_none() }
        Cell::Act(action) => *action != Action::DeadKey(accent),
    }
}
