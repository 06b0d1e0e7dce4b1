//! Texts in which some cell selects the slots from 128 on, and that define one slot of some key and not the other.
ghost use Rattle.std.specs.Prelude.{◌≡◌, ◌&&◌, not, find, option_copied};
ghost use Rattle.keymap_core.specs.Below.{gathered};
ghost use Rattle.keymap_core.specs.Numbers.{slot_limit};
ghost use Rattle.keymap_lint.specs.Kinds.{selector_of as selector_in, selector as selector_at, selects as selects_at};
ghost use Rattle.keymap_lint.specs.Kinds.{other_slot as other_slot_of, missing_slot as missing_slot_of};
ghost use Rattle.keymap_lint.specs.Kinds.{missing_slots as missing_slots_of, half, defines};

use crate::cells::CellInForce;
use crate::diagnostic::{Diagnostic, Kind};
use crate::spelled::SpelledText;
use arrayvec::ArrayVec;
use keymap_core::{Action, Cell, Holding, KEY_COUNT, Lock, Modifier, SLOT_LIMIT, push_if};

/// What selects the slots from 128 on.
fn selector_of(content: &Cell) -> Option<Holding>
    ensures { result ≡ selector_in content.now }
{
    match content {
        Cell::Act(Action::Mod(Modifier::AltShift)) => Some(Holding::Mod(Modifier::AltShift)),
        Cell::Act(Action::Lock(Lock::Alt)) => Some(Holding::Lock(Lock::Alt)),
        _ => None,
    }
}

fn selector(text: &SpelledText, cell: &CellInForce) -> Option<Holding>
    ensures { result ≡ selector_at text.now cell.now }
{
    if cell.slot < KEY_COUNT as u8 {
        selector_of(&text.content(cell))
    } else {
        None
    }
}

fn selects(text: &SpelledText, cell: &CellInForce) -> bool
    ensures { result ≡ selects_at text.now cell.now }
{
    selector(text, cell).is_some()
}

/// The first cell that selects them.
fn first_selecting<'c>(text: &SpelledText, cells: &'c [CellInForce]) -> Option<&'c CellInForce>
    ensures { option_copied result ≡ find (selects_at text.now) cells.now }
{
    cells.iter().find(|cell| selects(text, cell))
}

/// The other slot of the same key.
fn other_slot(slot: u8) -> u8
    ensures { result ≡ other_slot_of slot }
{
    if slot < KEY_COUNT as u8 {
        slot + KEY_COUNT as u8
    } else {
        slot - KEY_COUNT as u8
    }
}

/// Whether the text doesn't define the slot though it defines the other slot of its key.
fn is_missing(text: &SpelledText, slot: u8) -> bool
    ensures { result ≡ (defines text.now (other_slot_of slot) && not (defines text.now slot)) }
{
    text.defines(other_slot(slot)) && !text.defines(slot)
}

/// The slots of which it is so.
#[tactic(auto, using(crate::proofs::Lists::gathered_rules))]
fn undefined_halves(text: &SpelledText) -> ArrayVec<u8, SLOT_LIMIT>
    ensures { result.items ≡ gathered (missing_slot_of text.now) slot_limit }
{
    let mut slots = ArrayVec::new();
    for number in 0..SLOT_LIMIT as u16 {
        let slot = number as u8;
        push_if(&mut slots, slot, is_missing(text, slot));
    }
    slots
}

/// The slots that the text doesn't define though it defines the other slot of their key, 128 apart, where some cell
/// selects the slots from 128 on; in ascending order.
pub(crate) fn missing_slots(text: &SpelledText) -> ArrayVec<u8, SLOT_LIMIT>
    ensures { result.items ≡ missing_slots_of text.now }
{
    if text.is_upper_live() {
        undefined_halves(text)
    } else {
        ArrayVec::new()
    }
}

/// What is said of a text with such slots: whether some key has a modifier or lock and a character in one of them.
pub(crate) fn half_defined(
    text: &SpelledText,
    cells: &[CellInForce],
    has_slots: bool,
    has_keys: bool,
) -> Option<Diagnostic>
    ensures { result ≡ half text.now cells.now has_slots has_keys }
{
    if !has_slots {
        return None;
    }
    let cell = first_selecting(text, cells)?;
    let selector = selector(text, cell)?;
    Some(Diagnostic {
        place: Some(cell.span.start),
        kind: Kind::HalfDefined { selector, has_keys },
    })
}
