//! Letters whose capitals stand where the small ones are wanted.
ghost use Rattle.std.specs.Prelude.{◌≡◌, ◌++◌, OnOk};
ghost use Rattle.std.specs.Option.{option_to_list};
ghost use Rattle.keymap_lint.specs.Kinds.{character_of};
ghost use Rattle.keymap_lint.specs.Shifted as spec;

use crate::capitals::{is_ascii, is_capital_of};
use crate::diagnostic::{Added, Diagnostic, Found, Kind, add};
use crate::spelled::SpelledText;
use keymap_core::{Cell, SLOT_LIMIT};

/// Whether two cells are a small letter and its capital: of ASCII, or of a text that is Unicode for sure.
pub(crate) fn is_pair(text: &SpelledText, small: Cell, capital: Cell) -> bool
    ensures { result ≡ spec.is_pair text.now small capital }
{
    match (small, capital) {
        (Cell::Char(small), Cell::Char(capital)) => {
            is_capital_of(small, capital)
                && (is_ascii(small) && is_ascii(capital) || text.is_sure())
        }
        _ => false,
    }
}

/// The character that stands in the cell, or 0.
pub(crate) fn character_in(content: Cell) -> char
    ensures { result ≡ character_of content }
{
    match content {
        Cell::Char(c) => c,
        Cell::Act(_) => '\0',
    }
}

/// Whether the slot is live and its column 0 the capital of its column 1.
fn is_exchanged(text: &SpelledText, slot: u8) -> bool
    ensures { result ≡ spec.is_exchanged text.now slot }
{
    text.is_live(slot) && is_pair(text, text.cell(slot, 1), text.cell(slot, 0))
}

/// What is said of such a slot.
fn exchanged(text: &SpelledText, slot: u8) -> Option<Diagnostic>
    ensures { option_to_list result ≡ spec.exchanged text.now slot }
{
    match text.slot(slot) {
        Some(definition) if is_exchanged(text, slot) => Some(Diagnostic {
            place: Some(text.offset_behind(definition.first, 1)),
            kind: Kind::Exchanged {
                slot,
                base: character_in(text.cell(slot, 0)),
                shifted: character_in(text.cell(slot, 1)),
            },
        }),
        _ => None,
    }
}

/// Adds the slots in which a letter and its capital are exchanged, in ascending order.
#[tactic(auto, using(crate::proofs::Lists::gathered_rules))]
pub(crate) fn add_exchanged(found: &mut Found, text: &SpelledText) -> Added
    ensures { OnOk result (found.new.items ≡ found.old.items ++ spec.all_exchanged text.now) }
{
    for number in 0..SLOT_LIMIT as u16 {
        add(found, exchanged(text, number as u8))?;
    }
    Ok(())
}
