//! What notes tell: of modifiers that stay on, and where a definition begins.
ghost use Rattle.std.specs.Prelude.{◌≡◌, ◌++◌, IfOk, OnOk};
ghost use Rattle.std.specs.List.{flat_map};
ghost use Rattle.keymap_lint_text.specs.Notes as spec;
ghost use Rattle.keymap_core.specs.Actions.{holding_action, name_of};

use crate::wanted::defined;
use crate::words::{BEGINS, ONE_STAYS, SOME_STAY, STICKS, UNDECIDED};
use console_core::Event;
use keymap_core::{Holding, Modifier};
use keymap_places::Defined;
use messages::{either, filled, number};
use std::alloc::{AllocError, Global};

/// Adds the name of a modifier or lock.
fn push_name(text: &mut Vec<u8>, holding: Holding) -> Result<(), AllocError>
    ensures { OnOk result (text.new.items ≡ text.old.items ++ name_of (holding_action holding)) }
{
    text.extend_from_slice(holding.action().name().as_slice())
}

fn push_further_modifiers(text: &mut Vec<u8>, modifiers: &[Modifier]) -> Result<(), AllocError>
    ensures { OnOk result (text.new.items ≡ text.old.items ++ flat_map spec.further_modifier modifiers.now) }
{
    for modifier in modifiers {
        text.extend_from_slice(b" and ")?;
        push_name(text, Holding::Mod(*modifier))?;
    }
    Ok(())
}

/// The names of modifiers, as `lshift and lctrl`.
fn modifiers(alloc: Global, modifiers: &[Modifier]) -> Result<Vec<u8>, AllocError>
    ensures { IfOk result (λ text. text.items ≡ spec.modifiers_text modifiers.now) }
{
    let mut text = Vec::new(alloc);
    if let [first, rest @ ..] = modifiers {
        push_name(&mut text, Holding::Mod(*first))?;
        push_further_modifiers(&mut text, rest)?;
    }
    Ok(text)
}

/// Adds an event as it stands in a script.
fn push_event(text: &mut Vec<u8>, event: Event) -> Result<(), AllocError>
    ensures { OnOk result (text.new.items ≡ text.old.items ++ spec.event_text event) }
{
    match &event {
        Event::Press(key) => {
            text.extend_from_slice(b"down ")?;
            text.extend_from_slice(number(u64::from(key.get())).as_slice())
        }
        Event::Release(key) => {
            text.extend_from_slice(b"up ")?;
            text.extend_from_slice(number(u64::from(key.get())).as_slice())
        }
        Event::Reset => text.extend_from_slice(b"reset"),
        Event::Load => text.extend_from_slice(b"load"),
    }
}

fn push_further_events(text: &mut Vec<u8>, events: &[Event]) -> Result<(), AllocError>
    ensures { OnOk result (text.new.items ≡ text.old.items ++ flat_map spec.further_event events.now) }
{
    for event in events {
        text.extend_from_slice(b", ")?;
        push_event(text, *event)?;
    }
    Ok(())
}

/// Events, as `down 42, up 42`.
fn events(alloc: Global, events: &[Event]) -> Result<Vec<u8>, AllocError>
    ensures { IfOk result (λ text. text.items ≡ spec.events_text events.now) }
{
    let mut text = Vec::new(alloc);
    if let [first, rest @ ..] = events {
        push_event(&mut text, *first)?;
        push_further_events(&mut text, rest)?;
    }
    Ok(text)
}

/// Which modifiers stay on, and after which events.
#[tactic(auto, using(crate::proofs::NoteWords::sticks_is))]
pub(crate) fn sticks_message(
    alloc: Global,
    stuck: &[Modifier],
    found: &[Event],
) -> Result<Vec<u8>, AllocError>
    ensures { IfOk result (λ text. text.items ≡ spec.sticks_text stuck.now found.now) }
{
    filled(
        alloc,
        STICKS,
        &[
            modifiers(alloc, stuck)?.as_slice(),
            either(stuck.len() == 1, ONE_STAYS, SOME_STAY),
            events(alloc, found)?.as_slice(),
        ],
    )
}

/// The message that the search has no answer.
pub(crate) fn undecided_message() -> &'static [u8]
    ensures { result.now ≡ spec.undecided_text }
{
    UNDECIDED
}

/// Where a definition begins in which a fault stands.
#[tactic(auto, unfolding(crate::specs::Notes::begins_text))]
pub(crate) fn begins_message(alloc: Global, what: Defined) -> Result<Vec<u8>, AllocError>
    ensures { IfOk result (λ text. text.items ≡ spec.begins_text what) }
{
    filled(alloc, BEGINS, &[defined(alloc, what)?.as_slice()])
}
