//! The cells of a key by their places: 0 to 7 are the columns of its slot, 8 to 15 those of the slot 128 higher, which
//! count only where the upper slots are live.
ghost use Rattle.std.specs.Prelude.{◌≡◌, ◌<◌, ◌≤◌, IfSome};
ghost use Rattle.keymap_core.specs.Maps.{MapValue};
ghost use Rattle.keymap_core.specs.Numbers.{key_count, column_count};
ghost use Rattle.keymap_check.specs.Cells.{slot_at, column_at, cell_of as cell_of_key, first_place as first_place_of};
ghost use Rattle.keymap_check.specs.Cells.{place_count as place_count_of};

use crate::kind::Kind;
use keymap_core::{COLUMN_COUNT, Cell, KEY_COUNT, Keymap, is_upper_live_in};

/// The slot of a key's cell at the place.
pub(crate) fn slot(key: u8, place: u8) -> u8
    requires is_key { key < key_count }
    ensures { result ≡ slot_at key place }
{
    if place < COLUMN_COUNT as u8 {
        key
    } else {
        key + KEY_COUNT as u8
    }
}

/// The column of a key's cell at the place.
pub(crate) fn column(place: u8) -> u8
    requires { place < 16 }
    ensures value { result ≡ column_at place }
    ensures in_range { result < column_count }
{
    if place < COLUMN_COUNT as u8 {
        place
    } else {
        place - COLUMN_COUNT as u8
    }
}

/// The key's cell at the place.
pub(crate) fn cell_of<K: Keymap>(map: &K, key: u8, place: u8) -> Cell
    requires is_key { key < key_count }
    requires is_place { place < 16 }
    ensures { (m : MapValue) → K.shows map.now m → result ≡ cell_of_key m key place }
{
    map.cell(slot(key, place), column(place) as usize)
}

/// How many cells each key has.
pub(crate) fn place_count<K: Keymap>(map: &K) -> u8
    ensures value { (m : MapValue) → K.shows map.now m → result ≡ place_count_of m }
    ensures in_range { result ≤ 16 }
{
    if is_upper_live_in(map) { 16 } else { 8 }
}

/// The first place of the key that has a cell of the kind.
pub(crate) fn first_place<K: Keymap>(map: &K, places: u8, key: u8, kind: Kind) -> Option<u8>
    requires is_bounded { places ≤ 16 }
    requires is_key { key < key_count }
    ensures value { (m : MapValue) → K.shows map.now m → places ≡ place_count_of m
        → result ≡ first_place_of m kind key }
    ensures in_range { IfSome result (λ place. place < 16) }
{
    (0..places).find(|place| kind.fits(cell_of(map, key, *place)))
}
