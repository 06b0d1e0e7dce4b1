//! The slots from 128 on that no key selects.
ghost use Rattle.std.specs.Prelude.{◌≡◌, find, option_copied};
ghost use Rattle.std.specs.Option.{option_to_list};
ghost use Rattle.keymap_places.specs.Placed.{HasIndex};
ghost use Rattle.keymap_lint.specs.Spelled.{AreDefined};
ghost use Rattle.keymap_lint.specs.Kinds.{is_above_in_force as is_above_in_force_in, unused_half as unused_half_of};
ghost use Rattle.keymap_lint.specs.Kinds.{unused_slots as unused_slots_of, slots_above as slots_above_of};

use crate::diagnostic::{Diagnostic, Kind};
use crate::spelled::SpelledText;
use arrayvec::ArrayVec;
use keymap_core::{KEY_COUNT, push_if};
use keymap_places::{Defined, Placed};

/// Whether this is a definition in force of a slot from 128 on.
fn is_above_in_force(text: &SpelledText, definition: &Placed) -> bool
    requires { HasIndex definition.now.what }
    ensures { result ≡ is_above_in_force_in text.now definition.now }
{
    match definition.what {
        Defined::Slot(slot) => slot >= KEY_COUNT as u8 && text.is_in_force(definition),
        Defined::Accent(_) => false,
    }
}

/// The first definition in force of a slot from 128 on.
fn first_above<'t>(text: &'t SpelledText) -> Option<&'t Placed>
    requires { AreDefined text.now }
    ensures { option_copied result ≡ find (is_above_in_force_in text.now) text.now.definitions }
{
    text.definitions()
        .iter()
        .find(|definition| is_above_in_force(text, definition))
}

/// What is said of a text that defines slots from 128 on, where no cell selects them.
pub(crate) fn unused_half(text: &SpelledText) -> Option<Diagnostic>
    requires { AreDefined text.now }
    ensures { option_to_list result ≡ unused_half_of text.now }
{
    if text.is_upper_live() {
        return None;
    }
    match first_above(text) {
        Some(definition) => Some(Diagnostic {
            place: Some(text.offset(definition.first)),
            kind: Kind::UnusedHalf,
        }),
        None => None,
    }
}

/// The slots from 128 on that the text defines.
#[tactic(auto, using(crate::proofs::Lists::gathered_rules))]
fn slots_above(text: &SpelledText) -> ArrayVec<u8, KEY_COUNT>
    ensures { result.items ≡ slots_above_of text.now }
{
    let mut slots = ArrayVec::new();
    for key in 0..KEY_COUNT as u8 {
        let slot = key + KEY_COUNT as u8;
        push_if(&mut slots, slot, text.defines(slot));
    }
    slots
}

/// The slots from 128 on that the text defines, where no cell selects them, in ascending order.
pub(crate) fn unused_slots(text: &SpelledText) -> ArrayVec<u8, KEY_COUNT>
    ensures { result.items ≡ unused_slots_of text.now }
{
    if text.is_upper_live() {
        ArrayVec::new()
    } else {
        slots_above(text)
    }
}
