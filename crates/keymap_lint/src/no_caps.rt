//! Letters of which caps lock makes no capitals.
ghost use Rattle.std.specs.Prelude.{◌≡◌, find, option_copied};
ghost use Rattle.std.specs.Option.{option_to_list};
ghost use Rattle.keymap_core.specs.Below.{gathered};
ghost use Rattle.keymap_core.specs.Numbers.{slot_limit};
ghost use Rattle.keymap_places.specs.Placed.{HasIndex};
ghost use Rattle.keymap_lint.specs.Spelled.{AreDefined};
ghost use Rattle.keymap_lint.specs.Shifted as spec;

use crate::diagnostic::{Diagnostic, Kind};
use crate::exchanged::is_pair;
use crate::spelled::SpelledText;
use arrayvec::ArrayVec;
use keymap_core::{Holding, Lock, LockFlag, SLOT_LIMIT, push_if};
use keymap_places::{Defined, Placed};

/// Whether caps lock leaves a slot with this lock letter as it is.
fn is_left_small(flag: LockFlag) -> bool
    ensures { result ≡ spec.is_left_small flag }
{
    match flag {
        LockFlag::O | LockFlag::N => true,
        LockFlag::C | LockFlag::B => false,
    }
}

/// Whether the slot is live and has a letter and its capital, which caps lock leaves as it is.
fn is_small(text: &SpelledText, slot: u8) -> bool
    ensures { result ≡ spec.is_small text.now slot }
{
    text.is_live(slot)
        && is_left_small(text.map().entry(slot).flag)
        && is_pair(text, text.cell(slot, 0), text.cell(slot, 1))
}

/// The slots of which it is so.
#[tactic(auto, using(crate::proofs::Lists::gathered_rules))]
fn all_small(text: &SpelledText) -> ArrayVec<u8, SLOT_LIMIT>
    ensures { result.items ≡ gathered (spec.small_slot text.now) slot_limit }
{
    let mut slots = ArrayVec::new();
    for number in 0..SLOT_LIMIT as u16 {
        let slot = number as u8;
        push_if(&mut slots, slot, is_small(text, slot));
    }
    slots
}

/// The live slots with a letter and its capital that caps lock leaves as it is, where some key is caps lock; in
/// ascending order.
pub(crate) fn small_slots(text: &SpelledText) -> ArrayVec<u8, SLOT_LIMIT>
    ensures { result.items ≡ spec.small_slots text.now }
{
    if text.map().is_borne(Holding::Lock(Lock::Caps)) {
        all_small(text)
    } else {
        ArrayVec::new()
    }
}

/// Whether this is the definition in force of such a slot.
fn is_small_in_force(text: &SpelledText, definition: &Placed) -> bool
    requires { HasIndex definition.now.what }
    ensures { result ≡ spec.is_small_in_force text.now definition.now }
{
    match definition.what {
        Defined::Slot(slot) => text.is_in_force(definition) && is_small(text, slot),
        Defined::Accent(_) => false,
    }
}

/// The first one.
fn first_small<'t>(text: &'t SpelledText) -> Option<&'t Placed>
    requires { AreDefined text.now }
    ensures { option_copied result ≡ find (spec.is_small_in_force text.now) text.now.definitions }
{
    text.definitions()
        .iter()
        .find(|definition| is_small_in_force(text, definition))
}

/// What is said of a text with such slots, at the lock letter of the first definition of one.
pub(crate) fn no_caps(text: &SpelledText) -> Option<Diagnostic>
    requires { AreDefined text.now }
    ensures { option_to_list result ≡ spec.no_caps text.now }
{
    if small_slots(text).is_empty() {
        return None;
    }
    match first_small(text) {
        Some(definition) => Some(Diagnostic {
            place: Some(text.offset_behind(definition.first, 9)),
            kind: Kind::NoCaps,
        }),
        None => None,
    }
}
