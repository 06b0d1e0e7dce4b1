//! The delivery of a whole list of events.
ghost use Rattle.std.specs.Prelude.{◌≡◌, ◌++◌, List, IfOk, OnOk, OnErr, reverse};
ghost use Rattle.console_core.specs.Types.{Event as EventValue};
ghost use Rattle.console_core.specs.History.{Maps, in_force, answers_to};
ghost use Rattle.console_core.specs.Headline.{IsSafe, Headline, Afterwards, LastRepeatsTurnNoSteadyLock};
ghost use Rattle.console_core.specs.Headline.{IsLockedByFreshPresses};
ghost use Rattle.console_core.specs.Plain.{IsPlainAfter};
ghost use Rattle.console_core.specs.Traps.{IsOnOnlyWhilePressedWithoutTraps};

use crate::event::{Answer, Event};
use crate::translator::Translator;
use std::alloc::{AllocError, Global};

/// Delivers the events in their order and collects the answers, one for each event. The vector is reserved first: if
/// that is refused, no event was delivered.
pub fn replay<T: Translator>(
    alloc: Global,
    console: &mut T,
    events: &[Event],
) -> Result<Vec<Answer>, AllocError>
    ensures answers { IfOk result
        (λ answers. (ms : Maps) (h : List EventValue) → T.stands console.old ms h
        → answers.items ≡ answers_to ms h events.now) }
    ensures next { OnOk result
        ((ms : Maps) (h : List EventValue) → T.stands console.old ms h
        → T.stands console.new ms (reverse events.now ++ h)) }
    ensures refused { OnErr result (console.new ≡ console.old) }

    // The headline, by what the console then shows: each clause, those that want it where the map in force is safe.
    ensures headline { OnOk result (Afterwards (T.stands console.old) events.now (λ ms h.
        Headline (IsSafe (in_force ms h)) ms h
        (T.shows_on console.new) (T.shows_locked console.new) (T.shows_pending console.new))) }

    // The repeats that the events end in leave a steady lock as it was before them.
    ensures repeats_turn_no_steady_lock { OnOk result ((ms : Maps) (h : List EventValue) → T.stands console.old ms h
        → LastRepeatsTurnNoSteadyLock ms h events.now (T.shows_locked console.new)) }

    // A lock that one key alone bears throughout, where there are loads in both maps, is on exactly after an odd number
    // of fresh presses of that key.
    ensures locked_by_fresh_presses { OnOk result (Afterwards (T.stands console.old) events.now (λ ms h.
        IsLockedByFreshPresses ms h (T.shows_locked console.new))) }

    // In a plain map, without loads, the next look follows from the keys that are pressed and from fresh presses of the
    // locks' keys.
    ensures looks_plainly { OnOk result (Afterwards (T.stands console.old) events.now (λ ms h.
        IsPlainAfter ms h (T.shows_on console.new) (T.shows_locked console.new))) }

    // Without a trap for it a modifier is on only while a key that bears it is pressed, in any map.
    ensures on_only_while_pressed_without_traps { OnOk result (Afterwards (T.stands console.old) events.now (λ ms h.
        IsOnOnlyWhilePressedWithoutTraps (in_force ms h) h (T.shows_on console.new))) }
{
    let mut answers = Vec::with_capacity(alloc, events.len())?;
    for event in events {
        answers.push_reserved(console.step(*event));
    }
    Ok(answers)
}

/// Delivers the events in their order and drops the answers. It takes no memory.
pub fn deliver_all<T: Translator>(console: &mut T, events: &[Event])
    ensures { (ms : Maps) (h : List EventValue) → T.stands console.old ms h
        → T.stands console.new ms (reverse events.now ++ h) }
{
    for event in events {
        let _ = console.step(*event);
    }
}
