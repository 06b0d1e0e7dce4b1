//! The events that lead home from a state, and those of a tap.
ghost use Rattle.std.specs.Prelude.{◌≡◌, ◌++◌, ◌∷◌, List, reverse, OnOk};
ghost use Rattle.console_core.specs.declared.event.Event.TheVariants as event;
ghost use Rattle.console_states.specs.declared.held.Move.{Move as MoveValue};
ghost use Rattle.console_states.specs.Moves.{Under, events_along, state_of};
ghost use Rattle.console_scripts.specs.Inner.Routes.{AllLeadHome, HasRoute, LeadsHome};

use crate::routes::Routes;
use console_core::Event;
use console_states::{Held, push_moves};
use keymap_core::KeyCode;
use std::alloc::AllocError;

/// Adds the events that lead home from the state.
pub fn come_home(events: &mut Vec<Event>, routes: &Routes, held: &Held) -> Result<(), AllocError>
    requires { HasRoute routes.now.entries (state_of held.now) }
    ensures { OnOk result ((u : Under) → AllLeadHome u routes.now.entries
        → (moves : List MoveValue) × LeadsHome u (state_of held.now) moves
        × (reverse events.new.items ≡ events_along (reverse moves) ++ reverse events.old.items)) }
{
    match routes.get(held) {
        Some(route) => push_moves(events, &route.moves),
        None => unreachable!(),
    }
}

/// Adds a press of the key and its release.
pub fn tap(events: &mut Vec<Event>, key: KeyCode) -> Result<(), AllocError>
    ensures { OnOk result (reverse events.new.items ≡ event.Release key ∷ event.Press key ∷ reverse events.old.items) }
{
    events.push(Event::Press(key))?;
    events.push(Event::Release(key))?;
    Ok(())
}
