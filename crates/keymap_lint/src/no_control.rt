//! Letters of which control types no control character.
ghost use Rattle.std.specs.Prelude.{◌≡◌, ◌==◌, find, option_copied};
ghost use Rattle.std.specs.List.{list_any};
ghost use Rattle.std.specs.Option.{option_to_list};
ghost use Rattle.keymap_lint.specs.Alphabets as spec;

use crate::alphabet::{Alphabet, LETTER_COUNT, letters, standing};
use crate::cells::CellInForce;
use crate::diagnostic::{Diagnostic, Kind};
use crate::gap::is_whole;
use crate::spelled::SpelledText;
use arrayvec::ArrayVec;
use keymap_core::{Cell, KEY_COUNT, push_if};

fn has_letter(letters: &[u8], letter: u8) -> bool
    ensures { result ≡ spec.has_letter letters.now letter }
{
    letters.iter().any(|other| *other == letter)
}

/// Whether the letter is among the first and not among the others.
fn is_lost(there: &[u8], typed: &[u8], letter: u8) -> bool
    ensures { result ≡ spec.is_lost there.now typed.now letter }
{
    has_letter(there, letter) && !has_letter(typed, letter)
}

/// The characters of these letters.
#[tactic(auto, using(crate::proofs::Lists::gathered_rules))]
fn lost(there: &[u8], typed: &[u8]) -> ArrayVec<u8, KEY_COUNT>
    ensures { result.items ≡ spec.lost there.now typed.now }
{
    let mut lost = ArrayVec::new();
    for letter in 0..LETTER_COUNT {
        push_if(&mut lost, letter + b'a', is_lost(there, typed, letter));
    }
    lost
}

/// The letters of the main block whose control character no slot below 128 has, where 20 stand there at least.
fn lost_below(text: &SpelledText) -> ArrayVec<u8, KEY_COUNT>
    ensures { result.items ≡ spec.lost_below text.now }
{
    let small = letters(text, Alphabet::Small);
    if standing(small.as_slice(), 0).len() <= 6 {
        lost(
            small.as_slice(),
            letters(text, Alphabet::Control).as_slice(),
        )
    } else {
        ArrayVec::new()
    }
}

/// The letters whose control character a slot below 128 has and none from 128 on, where these are live.
fn lost_above(text: &SpelledText) -> ArrayVec<u8, KEY_COUNT>
    ensures { result.items ≡ spec.lost_above text.now }
{
    if text.is_upper_live() {
        lost(
            letters(text, Alphabet::Control).as_slice(),
            letters(text, Alphabet::UpperControl).as_slice(),
        )
    } else {
        ArrayVec::new()
    }
}

/// Whether none is lost below 128.
fn is_above(text: &SpelledText) -> bool
    ensures { result ≡ spec.is_above text.now }
{
    lost_below(text).is_empty()
}

/// The letters of which control types no control character, of a text that isn't a part of a keymap; in ascending
/// order.
pub(crate) fn lost_letters(text: &SpelledText) -> ArrayVec<u8, KEY_COUNT>
    ensures { result.items ≡ spec.lost_letters text.now }
{
    if !is_whole(text) {
        return ArrayVec::new();
    }
    if is_above(text) {
        lost_above(text)
    } else {
        lost_below(text)
    }
}

fn has_number(letters: &[u8], number: u32) -> bool
    ensures { result ≡ list_any (λ l. l == number) letters.now }
{
    letters.iter().any(|letter| u32::from(*letter) == number)
}

/// Whether the cell is one of these letters.
fn is_one_of(letters: &[u8], content: Cell) -> bool
    ensures { result ≡ spec.is_one_of letters.now content }
{
    match content {
        Cell::Char(c) => has_number(letters, u32::from(c)),
        Cell::Act(_) => false,
    }
}

/// The slot below 128 of the same key.
fn lower_slot(slot: u8) -> u8
    ensures { result ≡ spec.lower_slot slot }
{
    if slot < KEY_COUNT as u8 {
        slot
    } else {
        slot - KEY_COUNT as u8
    }
}

/// Whether the slot is one from 128 on, or one below.
fn in_half(above: bool, slot: u8) -> bool
    ensures { result ≡ spec.in_half above slot }
{
    if above {
        slot >= KEY_COUNT as u8
    } else {
        slot < KEY_COUNT as u8
    }
}

/// Whether the cell stands in column 2 of a slot of that half, and one of the letters in column 0 of the slot below
/// 128.
fn is_concerned(text: &SpelledText, letters: &[u8], above: bool, cell: &CellInForce) -> bool
    ensures { result ≡ spec.is_concerned text.now letters.now above cell.now }
{
    cell.column == 2
        && in_half(above, cell.slot)
        && is_one_of(letters, text.cell(lower_slot(cell.slot), 0))
}

/// The first such cell.
fn first_concerned<'c>(
    text: &SpelledText,
    letters: &[u8],
    above: bool,
    cells: &'c [CellInForce],
) -> Option<&'c CellInForce>
    ensures { option_copied result ≡ find (spec.is_concerned text.now letters.now above) cells.now }
{
    cells
        .iter()
        .find(|cell| is_concerned(text, letters, above, cell))
}

/// What is said of a text with such letters.
pub(crate) fn no_control(text: &SpelledText, cells: &[CellInForce]) -> Option<Diagnostic>
    ensures { option_to_list result ≡ spec.no_control text.now cells.now }
{
    let letters = lost_letters(text);
    let is_above = is_above(text);
    match first_concerned(text, letters.as_slice(), is_above, cells) {
        Some(cell) => Some(Diagnostic {
            place: Some(cell.span.start),
            kind: Kind::NoControl { is_above },
        }),
        None => None,
    }
}
