//! Which slots of a keymap are live, and which holding actions its keys bear.
ghost use Rattle.std.specs.Prelude.{◌≡◌, ◌<◌, ◌≤◌};
ghost use Rattle.keymap_core.specs.Maps.{MapValue};
ghost use Rattle.keymap_core.specs.Numbers.{key_count};
ghost use Rattle.keymap_core.specs.Actions.{holding_action};
ghost use Rattle.keymap_core.specs.Borne.{is_cell_of_action, has_in_slot as has_in_slot_of};
ghost use Rattle.keymap_core.specs.Borne.{has_in_half as has_in_half_of, is_upper_live as is_upper_live_of};
ghost use Rattle.keymap_core.specs.Borne.{is_borne as is_borne_of};

use crate::action::{Holding, Lock, Modifier};
use crate::entry::Cell;
use crate::keymap::Keymap;
use crate::limits::{COLUMN_COUNT, KEY_COUNT};
use crate::map::KeyMap;

/// Whether the cell is the holding action.
fn is_held(cell: Cell, holding: Holding) -> bool
    ensures { result ≡ is_cell_of_action (holding_action holding) cell }
{
    match cell {
        Cell::Char(_) => false,
        Cell::Act(action) => action == holding.action(),
    }
}

/// Whether some cell of the slot is the holding action.
fn has_in_slot<K: Keymap>(map: &K, holding: Holding, slot: u8) -> bool
    ensures { (m : MapValue) → K.shows map.now m → result ≡ has_in_slot_of m (holding_action holding) slot }
{
    for column in 0..COLUMN_COUNT {
        if is_held(map.cell(slot, column), holding) {
            return true;
        }
    }
    false
}

/// Whether some cell of the 128 slots from this one on is the holding action.
fn has_in_half<K: Keymap>(map: &K, holding: Holding, from: u8) -> bool
    requires { from ≤ key_count }
    ensures { (m : MapValue) → K.shows map.now m → result ≡ has_in_half_of m (holding_action holding) from }
{
    for key in 0..KEY_COUNT as u8 {
        if has_in_slot(map, holding, key + from) {
            return true;
        }
    }
    false
}

/// Whether the slots 128 to 255 are live: some cell of the slots 0 to 127 is ashift or alock.
pub fn is_upper_live_in<K: Keymap>(map: &K) -> bool
    ensures { (m : MapValue) → K.shows map.now m → result ≡ is_upper_live_of m }
{
    has_in_half(map, Holding::Mod(Modifier::AltShift), 0)
        || has_in_half(map, Holding::Lock(Lock::Alt), 0)
}

/// Whether some key bears the holding action, in a cell of its slot or, where the slots 128 to 255 are live, of the
/// slot 128 higher.
pub fn is_borne_in<K: Keymap>(map: &K, holding: Holding) -> bool
    ensures { (m : MapValue) → K.shows map.now m → result ≡ is_borne_of m holding }
{
    has_in_half(map, holding, 0)
        || (is_upper_live_in(map) && has_in_half(map, holding, KEY_COUNT as u8))
}

impl KeyMap {
    /// Whether the slots 128 to 255 are live: some cell of the slots 0 to 127 is ashift or alock.
    pub fn is_upper_live(&self) -> bool
        ensures { result ≡ is_upper_live_of self.now }
    {
        is_upper_live_in(self)
    }

    /// Whether some cell of the slot is the holding action.
    pub fn has_in_slot(&self, holding: Holding, slot: u8) -> bool
        ensures { result ≡ has_in_slot_of self.now (holding_action holding) slot }
    {
        has_in_slot(self, holding, slot)
    }

    /// Whether some key bears the holding action, in a cell of its slot or, where the slots 128 to 255 are live, of the
    /// slot 128 higher.
    pub fn is_borne(&self, holding: Holding) -> bool
        ensures { result ≡ is_borne_of self.now holding }
    {
        is_borne_in(self, holding)
    }
}
