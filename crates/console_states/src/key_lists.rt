//! The keys that are looked at in each state of a search: those whose presses are moves in some state, and those that
//! have a dead key.
ghost use Rattle.std.specs.Prelude.{◌≡◌, ◌<◌, ℕ, Bool, false, IfOk, Some};
ghost use Rattle.keymap_core.specs.Maps.{cell_at};
ghost use Rattle.keymap_core.specs.Numbers.{key_count, column_count};
ghost use Rattle.console_core.specs.Columns.{slot_of};
ghost use Rattle.console_states.specs.Moves.{State, look_in};
ghost use Rattle.console_states.specs.Searching.{under_of, IsUnmoving, HasMovingKeys};
ghost use Rattle.console_states.specs.Inner.KeyLists.{AreKeysOf, IsOther};
ghost use Rattle.console_states.specs.declared.key_lists.CellKind.TheVariants.{DeadKey};

use crate::held::Keymaps;
use keymap_core::{Action, Cell, KEY_COUNT, KeyCode, KeyMap, Lock, key_with};
use std::alloc::{AllocError, Global};

/// What the cells of keys are looked through for.
#[derive(Clone, Copy)]
pub enum CellKind {
    /// Modifiers, locks other than the scroll lock, and dead keys of the accent that is minded, if one is.
    Moving(Option<u8>),
    DeadKey,
}

/// Whether the cell is a modifier, a lock other than the scroll lock, or the dead key of the accent that is minded.
fn is_moving(cell: Cell, minded: Option<u8>) -> bool
    ensures { result ≡ false → IsUnmoving minded cell }
{
    match &cell {
        Cell::Act(Action::Mod(_)) => true,
        Cell::Act(Action::Lock(lock)) => *lock != Lock::Scroll,
        Cell::Act(Action::DeadKey(accent)) => minded == Some(accent.get()),
        _ => false,
    }
}

/// Whether the cell is of the kind.
fn is_of_kind(cell: Cell, kind: CellKind) -> bool
    ensures { result ≡ false → IsOther kind cell }
{
    match kind {
        CellKind::Moving(minded) => is_moving(cell, minded),
        CellKind::DeadKey => match cell {
            Cell::Act(Action::DeadKey(_)) => true,
            _ => false,
        },
    }
}

/// Whether some cell of the slot is.
fn has_in_slot(map: &KeyMap, kind: CellKind, slot: u8) -> bool
    ensures { result ≡ false → (column : ℕ) → column < column_count → IsOther kind (cell_at map.now slot column) }
{
    for cell in map.entry(slot).cells() {
        if is_of_kind(*cell, kind) {
            return true;
        }
    }
    false
}

/// Whether some cell of the key is, in either half.
fn has(map: &KeyMap, kind: CellKind, key: KeyCode) -> bool
    ensures { result ≡ false → (upper : Bool) (column : ℕ) → column < column_count
        → IsOther kind (cell_at map.now (slot_of key upper) column) }
{
    has_in_slot(map, kind, key.get()) || has_in_slot(map, kind, key.get() + KEY_COUNT as u8)
}

/// Whether some cell of the key is, in one of the keymaps.
fn has_in_some(maps: &Keymaps, kind: CellKind, key: KeyCode) -> bool
    ensures { result ≡ false → (s : State) → IsOther kind (look_in (under_of maps.now) s key) }
{
    has(maps.first, kind, key) || has(maps.second, kind, key)
}

/// The keys that have such a cell in one of the keymaps.
fn keys_of(alloc: Global, maps: &Keymaps, kind: CellKind) -> Result<Vec<KeyCode>, AllocError>
    ensures { IfOk result (λ keys. AreKeysOf kind (under_of maps.now) keys.items key_count) }
{
    let mut keys = Vec::new(alloc);
    for code in 0..KEY_COUNT as u8 {
        let key = key_with(code);
        if has_in_some(maps, kind, key) {
            keys.push(key)?;
        }
    }
    Ok(keys)
}

/// The keys that have a modifier, a lock other than the scroll lock or the dead key of the accent that is minded in one
/// of the keymaps. A press of another key is a move in no state, so a search that presses these alone meets all states.
pub fn moving_keys(alloc: Global, maps: &Keymaps) -> Result<Vec<KeyCode>, AllocError>
    ensures { IfOk result (λ keys. HasMovingKeys (under_of maps.now) keys.items key_count) }
{
    keys_of(alloc, maps, CellKind::Moving(maps.minded))
}

/// The keys that have a dead key in one of the keymaps. Another key offers an accent in no state, so these alone are
/// asked which accent they offer.
pub fn dead_keys(alloc: Global, maps: &Keymaps) -> Result<Vec<KeyCode>, AllocError>
    ensures { IfOk result (λ keys. AreKeysOf DeadKey (under_of maps.now) keys.items key_count) }
{
    keys_of(alloc, maps, CellKind::DeadKey)
}
