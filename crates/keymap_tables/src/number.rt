//! Reading of the numbers of a table.
ghost use Rattle.std.specs.Prelude.{◌≡◌, ℕ, ◌+◌, ◌*◌, ◌<◌, ◌≤◌, length, slice_index, IfOk, IfErr, OnOk, None, Some};
ghost use Rattle.std.specs.Prelude.{MatchResult, IsTrue};
ghost use Rattle.std.specs.Char.{IsScalar};
ghost use Rattle.keymap_core.specs.Bounds.{IsCell};
ghost use Rattle.keymap_tables.specs.Faults.{number_at, count_at, char_fault, action_fault, cell_fault, count_fault};
ghost use Rattle.keymap_tables.specs.Faults.{IsFirstFault};
ghost use Rattle.keymap_tables.specs.Inner.Firsts.{IsFirstFilled};
ghost use Rattle.keymap_tables.specs.Image.{number_of, is_act, count_bytes};
ghost use Rattle.keymap_tables.specs.Layouts.{number_size, count_size};
ghost use Rattle.keymap_tables.specs.Types.{Layout};

use crate::fault::{TableFault, TableFaultKind};
use crate::layout::{COUNT_PADS_AT, Layout};
use keymap_core::{Action, Cell};

/// The number of an index, of one or four bytes.
pub(crate) fn read_number(layout: Layout, bytes: &[u8], index: usize) -> u32
    requires { number_size layout * index + number_size layout ≤ length bytes.now }
    ensures { result ≡ number_at layout bytes.now (number_size layout * index) }
{
    match layout {
        Layout::Wide => {
            let at = 4 * index;
            u32::from_le_bytes([bytes[at], bytes[at + 1], bytes[at + 2], bytes[at + 3]])
        }
        Layout::Narrow => u32::from(bytes[index]),
    }
}

/// The character of the number of an index.
pub(crate) fn read_char(layout: Layout, bytes: &[u8], index: usize) -> Result<char, TableFault>
    requires { number_size layout * index + number_size layout ≤ length bytes.now }
    ensures number { IfOk result (λ c. c ≡ number_at layout bytes.now (number_size layout * index)) }
    ensures known { IfOk result IsScalar }
    ensures sound { OnOk result (char_fault (number_at layout bytes.now (number_size layout * index)) ≡ None) }
    ensures fault { IfErr result (λ f. (f.offset ≡ number_size layout * index)
        × (char_fault (number_at layout bytes.now (number_size layout * index)) ≡ Some f.kind)) }
{
    match char::from_u32(read_number(layout, bytes, index)) {
        Some(c) => Ok(c),
        None => Err(TableFault {
            offset: (layout.number() * index) as u64,
            kind: TableFaultKind::BadChar,
        }),
    }
}

/// The action of a number.
#[inline(always)]
fn action_of_number(number: u32) -> Result<Action, TableFaultKind>
    ensures number { IfOk result (λ a. number_of (Cell.Act a) ≡ number) }
    ensures known { IfOk result (λ a. IsCell (Cell.Act a)) }
    ensures fault { MatchResult result (λ _. action_fault number ≡ None) (λ kind. action_fault number ≡ Some kind) }
{
    match u8::try_from(number) {
        Ok(0x9b..=0xa0) => Err(TableFaultKind::Combined),
        Ok(code) => Action::from_code(code).ok_or(TableFaultKind::BadAction),
        Err(_) => Err(TableFaultKind::BadAction),
    }
}

/// The cell of a number, an action where it is marked.
#[inline(always)]
pub(crate) fn cell_of(number: u32, is_marked: bool) -> Result<Cell, TableFaultKind>
    ensures number { IfOk result (λ c. number_of c ≡ number) }
    ensures mark { IfOk result (λ c. is_act c ≡ is_marked) }
    ensures known { IfOk result IsCell }
    ensures fault { MatchResult result (λ _. cell_fault number is_marked ≡ None)
        (λ kind. cell_fault number is_marked ≡ Some kind) }
{
    if is_marked {
        Ok(Cell::Act(action_of_number(number)?))
    } else {
        match char::from_u32(number) {
            Some(c) => Ok(Cell::Char(c)),
            None => Err(TableFaultKind::BadChar),
        }
    }
}

/// Are the first eight bytes 0?
fn begins_with_zeros(bytes: &[u8]) -> bool
    requires { 8 ≤ length bytes.now }
    ensures { IsTrue result → (p : ℕ) → p < 8 → slice_index bytes.now p ≡ 0 }
{
    let eight = bytes.first_chunk::<8>().unwrap();
    u64::from_le_bytes(*eight) == 0
}

/// A place behind zeros, from a place on: eight are seen at once, and the last few aren't looked at.
fn past_zeros(bytes: &[u8], from: usize) -> usize
    requires { from ≤ length bytes.now }
    ensures past { from ≤ result }
    ensures inside { result ≤ length bytes.now }
    ensures zeros { (p : ℕ) → from ≤ p → p < result → slice_index bytes.now p ≡ 0 }
{
    let mut place = from;
    while bytes.len() - place >= 8 && begins_with_zeros(&bytes[place..]) {
        place += 8;
    }
    place
}

/// Looks for a byte that isn't 0, from a place on. It is a fault of this kind.
pub(crate) fn check_zeros(bytes: &[u8], from: usize, kind: TableFaultKind) -> Result<(), TableFault>
    requires { from ≤ length bytes.now }
    ensures none { OnOk result ((p : ℕ) → from ≤ p → slice_index bytes.now p ≡ 0) }
    ensures first { IfErr result (IsFirstFilled bytes.now from kind) }
{
    for place in past_zeros(bytes, from)..bytes.len() {
        if bytes[place] != 0 {
            return Err(TableFault {
                offset: place as u64,
                kind,
            });
        }
    }
    Ok(())
}

/// The first two bytes, as a number.
pub(crate) fn read_half(bytes: &[u8]) -> u16
    requires { 2 ≤ length bytes.now }
    ensures { result ≡ count_at bytes.now 0 }
{
    u16::from_le_bytes([bytes[0], bytes[1]])
}

/// A count of at most `most`, and its pads.
pub(crate) fn read_count(bytes: &[u8], most: u16) -> Result<u16, TableFault>
    requires { 2 ≤ length bytes.now }
    ensures value { IfOk result (λ n. n ≡ count_at bytes.now 0) }
    ensures few { IfOk result (λ n. n ≤ most) }
    ensures image { (l : Layout) → length bytes.now ≡ count_size l → IfOk result (λ n. bytes.now ≡ count_bytes l n) }
    ensures fault { IfErr result (λ f. IsFirstFault (count_fault most bytes.now) f × (f.offset < length bytes.now)) }
{
    let count = read_half(bytes);
    if count > most {
        return Err(TableFault {
            offset: 0,
            kind: TableFaultKind::BadCount,
        });
    }
    check_zeros(bytes, COUNT_PADS_AT, TableFaultKind::BadPad)?;
    Ok(count)
}
