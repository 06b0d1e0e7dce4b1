//! The letters that keys give, and the control characters of letters.
ghost use Rattle.std.specs.Prelude.{◌≡◌, ◌+◌, ◌<◌, ◌++◌, All, IfSome};
ghost use Rattle.std.specs.Option.{option_to_list};
ghost use Rattle.arrayvec.specs.ArrayVec.{array_vec_len};
ghost use Rattle.keymap_lint.specs.Alphabets as spec;
ghost use Rattle.keymap_lint.specs.Alphabets.{letter_count};
ghost use Rattle.keymap_lint.specs.Kinds.{is_the};

use crate::gap::is_main;
use crate::spelled::SpelledText;
use arrayvec::ArrayVec;
use keymap_core::{Cell, KEY_COUNT, SLOT_LIMIT, push_if};

/// Where letters are looked for. Each is told by its number, a is 0.
#[derive(Clone, Copy)]
pub(crate) enum Alphabet {
    /// a to z in column 0 of the main block.
    Small,
    /// A to Z in column 1 of the main block.
    Capital,
    /// Their control characters in column 2 of the slots below 128.
    Control,
    /// The same of the slots from 128 on.
    UpperControl,
}

pub(crate) const LETTER_COUNT: u8 = 26;

impl Alphabet {
    fn has_slot(self, slot: u8) -> bool
        ensures { result ≡ spec.has_slot self slot }
    {
        match self {
            Alphabet::Small | Alphabet::Capital => is_main(slot),
            Alphabet::Control => slot < KEY_COUNT as u8,
            Alphabet::UpperControl => slot >= KEY_COUNT as u8,
        }
    }

    pub(crate) fn column(self) -> u8
        ensures value { result ≡ spec.column_of self }
        ensures in_range { result < 3 }
    {
        match self {
            Alphabet::Small => 0,
            Alphabet::Capital => 1,
            Alphabet::Control | Alphabet::UpperControl => 2,
        }
    }

    /// The character of the first letter.
    pub(crate) fn first(self) -> u8
        ensures value { result ≡ spec.first_of self }
        ensures in_range { result < 128 }
    {
        match self {
            Alphabet::Small => b'a',
            Alphabet::Capital => b'A',
            Alphabet::Control | Alphabet::UpperControl => 1,
        }
    }

    /// The letter that a slot gives, if it gives one.
    fn letter_at(self, text: &SpelledText, slot: u8) -> Option<u8>
        ensures value { result ≡ spec.letter_at text.now self slot }
        ensures in_range { IfSome result (λ i. i < letter_count) }
    {
        if self.has_slot(slot) {
            letter_of(self.first(), text.cell(slot, self.column()))
        } else {
            None
        }
    }
}

/// The letter that stands in a cell, where the first one has this character.
fn letter_of(first: u8, content: Cell) -> Option<u8>
    requires { first < 128 }
    ensures value { result ≡ spec.letter_of first content }
    ensures in_range { IfSome result (λ i. i < letter_count) }
{
    let first = u32::from(first);
    match content {
        Cell::Char(c) => {
            let c = u32::from(c);
            if first <= c && c <= first + 25 {
                Some((c - first) as u8)
            } else {
                None
            }
        }
        Cell::Act(_) => None,
    }
}

/// Adds a letter to a list that has room for it, if there is one.
fn push_some(letters: &mut ArrayVec<u8, SLOT_LIMIT>, letter: Option<u8>)
    requires { array_vec_len letters.old < 256 }
    ensures items { letters.new.items ≡ letters.old.items ++ option_to_list letter }
    ensures room { array_vec_len letters.new < array_vec_len letters.old + 2 }
{
    if let Some(letter) = letter {
        letters.push(letter);
    }
}

/// The letters that slots give, in the order of the slots.
#[tactic(auto, using(crate::proofs::Lists::gathered_rules))]
pub(crate) fn letters(text: &SpelledText, alphabet: Alphabet) -> ArrayVec<u8, SLOT_LIMIT>
    ensures { result.items ≡ spec.letters text.now alphabet }
{
    let mut letters = ArrayVec::new();
    for number in 0..SLOT_LIMIT as u16 {
        push_some(&mut letters, alphabet.letter_at(text, number as u8));
    }
    letters
}

/// Whether the slot gives the letter.
fn gives(text: &SpelledText, alphabet: Alphabet, letter: u8, slot: u8) -> bool
    ensures { result ≡ is_the letter (spec.letter_at text.now alphabet slot) }
{
    match alphabet.letter_at(text, slot) {
        Some(other) => other == letter,
        None => false,
    }
}

/// The slots that give the letter.
#[tactic(auto, using(crate::proofs::Lists::gathered_rules))]
pub(crate) fn holders(
    text: &SpelledText,
    alphabet: Alphabet,
    letter: u8,
) -> ArrayVec<u8, SLOT_LIMIT>
    ensures { result.items ≡ spec.holders text.now alphabet letter }
{
    let mut slots = ArrayVec::new();
    for number in 0..SLOT_LIMIT as u16 {
        let slot = number as u8;
        push_if(&mut slots, slot, gives(text, alphabet, letter, slot));
    }
    slots
}

/// How many times the letter stands in the list.
fn times(letters: &[u8], letter: u8) -> usize
    ensures { result ≡ spec.times letters.now letter }
{
    letters.iter().filter(|other| **other == letter).count()
}

/// The letters that stand so many times in the list.
#[tactic(auto, using(crate::proofs::Lists::gathered_rules))]
pub(crate) fn standing(letters: &[u8], number: usize) -> ArrayVec<u8, KEY_COUNT>
    ensures items { result.items ≡ spec.standing letters.now number }
    ensures in_range { All (λ i. i < letter_count) result.items }
{
    let mut standing = ArrayVec::new();
    for letter in 0..LETTER_COUNT {
        push_if(&mut standing, letter, times(letters, letter) == number);
    }
    standing
}
