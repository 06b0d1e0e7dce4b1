//! The events that lead from where the search began to a state that was met.
ghost use Rattle.std.specs.Prelude.{◌≡◌, ◌<◌, ◌++◌, List, length, reverse, OnOk, IfOk};
ghost use Rattle.console_states.specs.declared.held.Move.{Move as MoveValue};
ghost use Rattle.console_states.specs.Moves.{events_along};
ghost use Rattle.console_states.specs.Searching.{GoBack, IsTrail};

use crate::held::Move;
use crate::search::{Met, entry};
use console_core::Event;
use std::alloc::{AllocError, Global};

/// Adds the events of the moves in their order.
pub fn push_moves(events: &mut Vec<Event>, moves: &[Move]) -> Result<(), AllocError>
    ensures { OnOk result (reverse events.new.items ≡ events_along (reverse moves.now) ++ reverse events.old.items) }
{
    for by in moves {
        by.push_events(events)?;
    }
    Ok(())
}

/// The moves that lead from home to the state at the place, in their order.
fn moves_to(alloc: Global, met: &Met, place: usize) -> Result<Vec<Move>, AllocError>
    requires place { place < length met.now.entries }
    requires back { GoBack met.now.entries }
    ensures { IfOk result (λ moves. (path : List MoveValue) → IsTrail met.now.entries place path
        → moves.items ≡ reverse path) }
{
    let mut moves = Vec::new(alloc);
    let mut last = entry(met, place).1.last;
    while let Some((parent, by)) = last {
        moves.push(by)?;
        last = entry(met, parent).1.last;
    }
    moves.reverse();
    Ok(moves)
}

/// Adds the events that lead from home to the state at the place.
pub fn go_out(
    events: &mut Vec<Event>,
    alloc: Global,
    met: &Met,
    place: usize,
) -> Result<(), AllocError>
    requires place { place < length met.now.entries }
    requires back { GoBack met.now.entries }
    ensures { OnOk result ((path : List MoveValue) → IsTrail met.now.entries place path
        → reverse events.new.items ≡ events_along path ++ reverse events.old.items) }
{
    let moves = moves_to(alloc, met, place)?;
    push_moves(events, &moves)
}
