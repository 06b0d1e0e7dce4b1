//! A slot: its image, which is eight cells, the marks, the lock flag and the pads, and the first of its characters that
//! doesn't fit in a narrow file.
ghost use Rattle.std.specs.Prelude.{◌≡◌, ◌+◌, ◌-◌, ◌*◌, ◌<◌, ◌≤◌, ◌++◌, length, if◌then◌else◌};
ghost use Rattle.std.specs.Prelude.{MatchOption};
ghost use Rattle.std.specs.Int.{to_le_bytes};
ghost use Rattle.arrayvec.specs.ArrayVec.{array_vec_len};
ghost use Rattle.keymap_tables.specs.Image.{slot_bytes, number_of, number_bytes, flag_number, is_act, zeros};
ghost use Rattle.keymap_tables.specs.Fits.{EntryFits, character_of, character_in};
ghost use Rattle.keymap_tables.specs.Inner.Firsts.{IsFirstWideNumber};
ghost use Rattle.keymap_tables.specs.Layouts.{narrow, number_size, slot_size};

use crate::layout::{Layout, NARROW_MOST, SLOT};
use arrayvec::ArrayVec;
use keymap_core::{COLUMN_COUNT, Cell, Entry, LockFlag};

/// The number of a cell.
fn number(cell: &Cell) -> u32
    ensures { result ≡ number_of cell.now }
{
    match cell {
        Cell::Char(c) => *c as u32,
        Cell::Act(action) => action.code() as u32,
    }
}

/// 1 for an action, 0 for a character.
fn mark(cell: &Cell) -> u8
    ensures bit { result ≡ (if is_act cell.now then 1 else 0) }
    ensures small { result < 2 }
{
    match cell {
        Cell::Char(_) => 0,
        Cell::Act(_) => 1,
    }
}

/// The byte of a flag.
fn flag_byte(flag: LockFlag) -> u8
    ensures { result ≡ flag_number flag }
{
    match flag {
        LockFlag::O => 0,
        LockFlag::C => 1,
        LockFlag::N => 2,
        LockFlag::B => 3,
    }
}

/// Appends the bytes of a number, one or four.
pub(crate) fn push_number<const N: usize>(image: &mut ArrayVec<u8, N>, layout: Layout, number: u32)
    requires { array_vec_len image.old + number_size layout ≤ N }
    ensures bytes { image.new.items ≡ image.old.items ++ number_bytes layout number }
    ensures count { array_vec_len image.new ≡ array_vec_len image.old + number_size layout }
{
    let [first, second, third, fourth] = number.to_le_bytes();
    image.push(first);
    match layout {
        Layout::Wide => {
            image.push(second);
            image.push(third);
            image.push(fourth);
        }
        Layout::Narrow => {}
    }
}

/// Appends zeros up to a length. It is not inlined, so that who makes a row makes a call: a function without calls may
/// keep values below the stack pointer, where an interrupt of a kernel writes.
#[inline(never)]
pub(crate) fn push_zeros<const N: usize>(image: &mut ArrayVec<u8, N>, length: usize)
    requires below { array_vec_len image.old ≤ length }
    requires room { length ≤ N }
    ensures bytes { image.new.items ≡ image.old.items ++ zeros (length - array_vec_len image.old) }
    ensures count { array_vec_len image.new ≡ length }
{
    while image.len() < length {
        image.push(0);
    }
}

/// The bytes of a slot.
pub(crate) fn slot_image(layout: Layout, entry: &Entry) -> ArrayVec<u8, SLOT>
    ensures bytes { result.items ≡ slot_bytes layout entry.now }
    ensures whole { length result.items ≡ slot_size layout }
{
    let mut image = ArrayVec::new();
    let mut marks: u8 = 0;
    let cells = entry.cells();
    for cell in cells {
        push_number(&mut image, layout, number(cell));
        marks = 2 * marks + mark(cell);
    }
    image.push(marks);
    image.push(flag_byte(entry.flag));
    push_zeros(&mut image, layout.slot());
    image
}

/// The number of a character, 0 for an action.
fn character(cell: &Cell) -> u32
    ensures { result ≡ character_of cell.now }
{
    match cell {
        Cell::Char(c) => *c as u32,
        Cell::Act(_) => 0,
    }
}

/// The column of the first character of a slot that is above 255.
pub(crate) fn wide_column(entry: &Entry) -> Option<u8>
    ensures { MatchOption result (EntryFits narrow entry.now)
        (IsFirstWideNumber (character_in entry.now) (slot_size narrow)) }
{
    let cells = entry.cells();
    for column in 0..COLUMN_COUNT as u8 {
        if character(&cells[column as usize]) > NARROW_MOST {
            return Some(column);
        }
    }
    None
}
