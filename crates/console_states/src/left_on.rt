//! The modifiers that are on after events.
ghost use Rattle.std.specs.Prelude.{◌≡◌, List, filter, reverse, IfOk};
ghost use Rattle.console_core.specs.declared.event.Event.{Event as EventValue};
ghost use Rattle.console_core.specs.History.{Maps, is_on_after};
ghost use Rattle.console_states.specs.Sticking.{AreOnAfter};
ghost use Rattle.console_states.specs.Searching.{under_of};

use crate::held::Keymaps;
use console_core::{Event, Translator, WordConsole};
use keymap_core::{MODIFIERS, Modifier};
use std::alloc::{AllocError, Global};

/// The modifiers among these that are on.
fn those_on<T: Translator>(
    alloc: Global,
    console: &T,
    modifiers: &[Modifier],
) -> Result<Vec<Modifier>, AllocError>
    ensures { IfOk result (λ on. (ms : Maps) (h : List EventValue) → T.stands console.now ms h
        → on.items ≡ filter (λ i. is_on_after ms i h) modifiers.now) }
{
    let mut on = Vec::new(alloc);
    for modifier in modifiers {
        if console.on(*modifier) {
            on.push(*modifier)?;
        }
    }
    Ok(on)
}

/// The modifiers that are on after the events, in their order.
pub fn left_on(alloc: Global, maps: &Keymaps, events: &[Event]) -> Result<Vec<Modifier>, AllocError>
    ensures { IfOk result (λ on. AreOnAfter (under_of maps.now).maps (reverse events.now) on.items) }
{
    let console = WordConsole::after(maps.first, maps.second, events);
    those_on(alloc, &console, &MODIFIERS)
}
