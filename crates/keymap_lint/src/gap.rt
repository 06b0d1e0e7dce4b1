//! Slots of the main block that a text leaves out.
ghost use Rattle.std.specs.Prelude.{◌≡◌, ◌&&◌, find, option_copied};
ghost use Rattle.std.specs.Option.{option_to_list};
ghost use Rattle.keymap_core.specs.Below.{gathered};
ghost use Rattle.keymap_core.specs.Borne.{any_below};
ghost use Rattle.keymap_core.specs.Numbers.{key_count};
ghost use Rattle.keymap_lint.specs.Letters as spec;
ghost use Rattle.keymap_lint.specs.Letters.{main_end};

use crate::diagnostic::{Diagnostic, Kind};
use crate::spelled::SpelledText;
use arrayvec::ArrayVec;
use keymap_core::{KEY_COUNT, push_if};
use keymap_places::{Defined, Placed};

/// The number behind the slots of the main block.
const MAIN_END: u8 = 58;

/// Whether the slot is one of the main block: the keys of letters, digits and punctuation that each board has, and the
/// space bar.
pub(crate) fn is_main(slot: u8) -> bool
    ensures { result ≡ spec.is_main slot }
{
    2 <= slot && slot <= 13
        || 16 <= slot && slot <= 27
        || 30 <= slot && slot <= 41
        || 43 <= slot && slot <= 53
        || slot == 57
}

/// Whether it is, and the text doesn't define it.
fn is_left_out(text: &SpelledText, slot: u8) -> bool
    ensures { result ≡ spec.is_left_out text.now slot }
{
    is_main(slot) && !text.defines(slot)
}

/// The slots of which it is so.
#[tactic(auto, using(crate::proofs::Lists::gathered_rules))]
fn left_out(text: &SpelledText) -> ArrayVec<u8, KEY_COUNT>
    ensures { result.items ≡ spec.left_out text.now }
{
    let mut slots = ArrayVec::new();
    for slot in 0..MAIN_END {
        push_if(&mut slots, slot, is_left_out(text, slot));
    }
    slots
}

/// Whether the text defines 40 slots of the main block at least, and so isn't a part of a keymap.
pub(crate) fn is_whole(text: &SpelledText) -> bool
    ensures { result ≡ spec.is_whole text.now }
{
    left_out(text).len() <= 8
}

/// The slots of the main block that the text doesn't define, where it defines 40 of the 48 at least; in ascending
/// order.
pub(crate) fn gaps(text: &SpelledText) -> ArrayVec<u8, KEY_COUNT>
    ensures { result.items ≡ spec.gaps text.now }
{
    let slots = left_out(text);
    if slots.len() <= 8 {
        slots
    } else {
        ArrayVec::new()
    }
}

/// Whether the text defines this slot, which is greater.
fn is_greater(text: &SpelledText, slot: u8, key: u8) -> bool
    ensures { result ≡ spec.is_greater text.now slot key }
{
    slot < key && text.defines(key)
}

/// Whether it defines a greater slot below 128.
#[tactic(auto, using(crate::proofs::Lists::any_rules))]
fn has_greater(text: &SpelledText, slot: u8) -> bool
    ensures { result ≡ any_below (spec.is_greater text.now slot) key_count }
{
    for key in 0..KEY_COUNT as u8 {
        if is_greater(text, slot, key) {
            return true;
        }
    }
    false
}

/// Whether it defines a slot below 128 that is greater than this gap, or than all others.
fn is_behind(text: &SpelledText, first: u8, definition: &Placed) -> bool
    ensures { result ≡ spec.is_behind text.now first definition.now }
{
    match definition.what {
        Defined::Slot(slot) => {
            slot < KEY_COUNT as u8 && (first < slot || !has_greater(text, slot))
        }
        Defined::Accent(_) => false,
    }
}

/// The first definition of which it is so.
fn first_behind<'t>(text: &'t SpelledText, first: u8) -> Option<&'t Placed>
    ensures { option_copied result ≡ find (spec.is_behind text.now first) text.now.definitions }
{
    text.definitions()
        .iter()
        .find(|definition| is_behind(text, first, definition))
}

/// What is said of a text with these gaps.
pub(crate) fn gap(text: &SpelledText, gaps: &[u8]) -> Option<Diagnostic>
    ensures { option_to_list result ≡ spec.gap_before text.now gaps.now }
{
    let [first, ..] = gaps else {
        return None;
    };
    match first_behind(text, *first) {
        Some(definition) => Some(Diagnostic {
            place: Some(text.offset(definition.first)),
            kind: Kind::Gap,
        }),
        None => None,
    }
}
