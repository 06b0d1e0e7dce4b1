//! What is told of two keymaps by the nearest of what the searches found.
ghost use Rattle.std.specs.Prelude.{◌≡◌, ◌≢◌, ◌⊎◌, ◌≤◌, None, true, false, reverse, IfOk};
ghost use Rattle.console_core.specs.History.{between, answer_to};
ghost use Rattle.keymap_diff.specs.Telling.{CanForgetBy, IsTelling};
ghost use Rattle.keymap_diff.specs.Inner.Searches.{IsNearest, IsScript, IsSearched, IsWithin, NeverForgetsBelow};

use crate::searched::{Searched, presses_to};
use crate::showing::Both;
use crate::telling::Telling;
use console_core::{Answer, Event, Translator, WordConsole};
use console_states::{first_stuck, go_out};
use keymap_core::{KeyCode, KeyMap};
use std::alloc::{AllocError, Global};

/// The answer of a console of the keymap to the event behind the others.
fn answer(map: &KeyMap, before: &[Event], event: Event) -> Answer
    ensures { result ≡ answer_to (between map.now map.now) (reverse before.now) event }
{
    let mut console = WordConsole::after(map, map, before);
    console.step(event)
}

fn are_same(old: &Answer, new: &Answer) -> bool
    ensures same { result ≡ true → old.now ≡ new.now }
    ensures differ { result ≡ false → old.now ≢ new.now }
{
    *old == *new
}

/// The events and a press of the key and, where that is answered alike, its release, with what is answered to the last.
pub(crate) fn tell(both: &Both, events: Vec<Event>, key: KeyCode) -> Result<Telling, AllocError>
    ensures { IfOk result (λ x. IsScript both.now.old.now both.now.new.now (reverse events.items) key x) }
{
    let mut events = events;
    let old = answer(both.old, &events, Event::Press(key));
    let new = answer(both.new, &events, Event::Press(key));
    events.push(Event::Press(key))?;
    if !are_same(&old, &new) {
        return Ok(Telling::Told { events, old, new });
    }
    let old = answer(both.old, &events, Event::Release(key));
    let new = answer(both.new, &events, Event::Release(key));
    events.push(Event::Release(key))?;
    Ok(Telling::Told { events, old, new })
}

/// So many presses, or as many as lead to where a key can forget that it holds a modifier, if these are fewer.
fn before_forgetting(both: &Both, nearest: &Searched, presses: usize) -> usize
    requires searched { IsSearched both.now.old.now both.now.new.now nearest.now }
    requires within { IsWithin presses nearest.now.reach }
    ensures few { result ≤ presses }
    ensures clean { NeverForgetsBelow both.now.old.now result }
    ensures most { (result ≡ presses) ⊎ CanForgetBy both.now.old.now result }
{
    match first_stuck(&nearest.met, &both.maps(nearest.minded)) {
        Some(stuck) => presses.min(presses_to(&nearest.met, stuck.place)),
        None => presses,
    }
}

/// What is told where nothing shows. Where the searches gave up, that is of all lists, also of those along which a key
/// forgets that it holds a modifier.
fn unshown(both: &Both, nearest: &Searched) -> Telling
    requires nearest { IsNearest both.now.old.now both.now.new.now nearest.now }
    requires none { nearest.now.shown ≡ None }
    ensures { IsTelling both.now.old.now both.now.new.now result }
{
    match nearest.reach {
        Some(presses) => Telling::Undecided(before_forgetting(both, nearest, presses)),
        None => Telling::Never {
            forgets: first_stuck(&nearest.met, &both.maps(nearest.minded)).is_some(),
        },
    }
}

/// What is told by the nearest.
pub(crate) fn told(alloc: Global, both: &Both, nearest: &Searched) -> Result<Telling, AllocError>
    requires { IsNearest both.now.old.now both.now.new.now nearest.now }
    ensures { IfOk result (λ x. IsTelling both.now.old.now both.now.new.now x) }
{
    match nearest.shown {
        Some(at) => {
            let mut events = Vec::new(alloc);
            go_out(&mut events, alloc, &nearest.met, at.place)?;
            tell(both, events, at.key)
        }
        None => Ok(unshown(both, nearest)),
    }
}
