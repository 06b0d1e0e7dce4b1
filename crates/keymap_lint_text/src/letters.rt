//! Lists of characters, and what is said of letters that control doesn't type and of numbers that look octal.
ghost use Rattle.std.specs.Prelude.{◌≡◌, ◌<◌, ◌≤◌, ◌++◌, length, IfOk, OnOk};
ghost use Rattle.keymap_lint_text.specs.Letters as spec;

use crate::faults::token_at;
use crate::wanted::character_name;
use crate::words::{ABOVE, CANNOT_TYPE, CONTROL, LOST_CONTROLS, LOST_LETTERS, OCTAL, OCTAL_LIKE};
use keymap_names::word;
use messages::{either, filled, number};
use std::alloc::{AllocError, Global};

/// What is told of each character of a list.
#[derive(Clone, Copy)]
pub(crate) enum Listed {
    Character,
    /// A letter's control character.
    Control,
    Letter,
}

#[tactic(auto, unfolding(crate::specs::Letters::item_text))]
fn item(alloc: Global, listed: Listed, character: u8) -> Result<Vec<u8>, AllocError>
    ensures { IfOk result (λ text. text.items ≡ spec.item_text listed character) }
{
    let letter = word(alloc, &[character])?;
    match listed {
        Listed::Character => character_name(alloc, char::from(character)),
        Listed::Control => {
            let name = character_name(alloc, char::from(character.saturating_sub(96)))?;
            filled(alloc, CONTROL, &[name.as_slice(), letter.as_slice()])
        }
        Listed::Letter => Ok(letter),
    }
}

/// What stands before the element at a place of a list of so many, and before its last one.
fn before(place: usize, count: usize, last: &[u8]) -> &[u8]
    requires { place < count }
    ensures { result.now ≡ spec.before place count last.now }
{
    if place == 0 {
        b""
    } else {
        either(place + 1 == count, last, b", ")
    }
}

fn push_item(
    alloc: Global,
    text: &mut Vec<u8>,
    listed: Listed,
    last: &[u8],
    characters: &[u8],
    place: usize,
) -> Result<(), AllocError>
    requires { place < length characters.now }
    ensures { OnOk result (text.new.items
        ≡ text.old.items ++ spec.listed_item listed last.now characters.now place) }
{
    text.extend_from_slice(before(place, characters.len(), last))?;
    text.extend_from_slice(item(alloc, listed, characters[place])?.as_slice())
}

/// Characters with commas between them, and with this before the last one.
pub(crate) fn list(
    alloc: Global,
    listed: Listed,
    last: &[u8],
    characters: &[u8],
) -> Result<Vec<u8>, AllocError>
    ensures { IfOk result (λ text. text.items ≡ spec.list_text listed last.now characters.now) }
{
    let mut text = Vec::new(alloc);
    for i in 0..characters.len() {
        push_item(alloc, &mut text, listed, last, characters, i)?;
    }
    Ok(text)
}

/// What is said of characters that no keys type.
pub(crate) fn cannot_type(alloc: Global, characters: &[u8]) -> Result<Vec<u8>, AllocError>
    ensures { IfOk result (λ text. text.items ≡ spec.cannot_type_text characters.now) }
{
    let told = list(alloc, Listed::Character, b" or ", characters)?;
    filled(alloc, CANNOT_TYPE, &[told.as_slice()])
}

fn above_text(is_above: bool) -> &'static [u8]
    ensures { result.now ≡ spec.above_text is_above }
{
    if is_above { ABOVE } else { b"" }
}

/// What is said of letters without a control character, of the upper half or of all: up to three are told each by its
/// character.
#[tactic(auto, unfolding(crate::specs::Letters::no_control_text))]
pub(crate) fn no_control(
    alloc: Global,
    letters: &[u8],
    is_above: bool,
) -> Result<Vec<u8>, AllocError>
    ensures { IfOk result (λ text. text.items ≡ spec.no_control_text letters.now is_above) }
{
    if letters.len() < 4 {
        let told = list(alloc, Listed::Control, b" or ", letters)?;
        filled(
            alloc,
            LOST_CONTROLS,
            &[told.as_slice(), above_text(is_above)],
        )
    } else {
        let told = list(alloc, Listed::Letter, b", ", letters)?;
        filled(
            alloc,
            LOST_LETTERS,
            &[told.as_slice(), above_text(is_above)],
        )
    }
}

fn octal_text(alloc: Global, octal: Option<u32>) -> Result<Vec<u8>, AllocError>
    ensures { IfOk result (λ text. text.items ≡ spec.octal_text octal) }
{
    match octal {
        Some(octal) => {
            let digits = format!(in alloc; "{octal:x}")?;
            filled(alloc, OCTAL, &[word(alloc, digits.as_bytes())?.as_slice()])
        }
        None => Ok(Vec::new(alloc)),
    }
}

/// What is said of a number that looks octal, which is spelled there.
#[tactic(auto, unfolding(crate::specs::Letters::octal_like_text))]
pub(crate) fn octal_like(
    alloc: Global,
    source: &[u8],
    character: char,
    start: usize,
    octal: Option<u32>,
) -> Result<Vec<u8>, AllocError>
    requires { start ≤ length source.now }
    ensures { IfOk result (λ text. text.items ≡ spec.octal_like_text source.now character start octal) }
{
    let spelled = word(alloc, token_at(source, start))?;
    filled(
        alloc,
        OCTAL_LIKE,
        &[
            spelled.as_slice(),
            number(u64::from(u32::from(character))).as_slice(),
            character_name(alloc, character)?.as_slice(),
            octal_text(alloc, octal)?.as_slice(),
        ],
    )
}
