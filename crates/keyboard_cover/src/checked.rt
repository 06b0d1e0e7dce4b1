//! The script of the cases that were thought of: each is made once more, press by press, and is kept if all its events
//! may come and it ends at rest.
ghost use Rattle.std.specs.Prelude.{◌≡◌, ◌∷◌, ◌++◌, [], List, IfOk, IfSome, OnOk};
ghost use Rattle.console_core.specs.declared.event.Event.{Event as EventValue};
ghost use Rattle.console_core.specs.History.{between};
ghost use Rattle.keyboard_cover.specs.Covering.{IsScript, Knows, RunsAlong};
ghost use Rattle.keyboard_cover.specs.Runs.{EndsAtRest, run_events};

use crate::cases::{Case, What};
use crate::drafts::Draft;
use crate::run::{Run, Stop};
use console_core::{Event, Translator};
use console_states::Presses;
use keymap_core::KeyMap;
use keymap_cover::{ScriptEvent, Seen};
use std::alloc::{AllocError, Global};

/// Makes the event, if it may come.
fn deliver(run: &mut Run, event: &ScriptEvent) -> Result<(), Stop>
    ensures { (run.new.map ≡ run.old.map) × (run.new.presses ≡ run.old.presses) }
{
    match event {
        ScriptEvent::Down(key) | ScriptEvent::Repeat(key) => run.press(*key),
        ScriptEvent::Up(key) => {
            run.up(*key)?;
            Ok(())
        }
        ScriptEvent::Reset => Err(Stop::Refused),
    }
}

/// Makes the events.
fn deliver_all(run: &mut Run, events: &[ScriptEvent]) -> Result<(), Stop>
    ensures { (run.new.map ≡ run.old.map) × (run.new.presses ≡ run.old.presses) }
{
    for event in events {
        deliver(run, event)?;
    }
    Ok(())
}

/// The run of the events, if they may come and it ends at rest.
fn checked<'m>(
    alloc: Global,
    map: &'m KeyMap,
    presses: Presses,
    events: &[ScriptEvent],
) -> Result<Option<Run<'m>>, AllocError>
    ensures { IfOk result (λ x. IfSome x (λ run. (run.map ≡ map.now) × (run.presses ≡ presses)
        × EndsAtRest map.now run.events)) }
{
    let mut run = Run::new(alloc, map, presses);
    match deliver_all(&mut run, events) {
        Ok(()) => {
            if run.is_at_rest() {
                Ok(Some(run))
            } else {
                Ok(None)
            }
        }
        Err(Stop::Refused) => Ok(None),
        Err(Stop::Memory) => Err(AllocError),
    }
}

/// Adds what the press or release sees, and delivers it.
fn see<T: Translator>(
    seen: &mut Seen,
    console: &mut T,
    map: &KeyMap,
    event: &ScriptEvent,
) -> Result<(), AllocError>
    ensures { OnOk result ((h : List EventValue) → T.stands console.old (between map.now map.now) h
        → Knows map.now seen.old h
        → T.stands console.new (between map.now map.now) (run_events (event.now ∷ []) ++ h)
        × Knows map.now seen.new (run_events (event.now ∷ []) ++ h)) }
{
    match event {
        ScriptEvent::Down(key) | ScriptEvent::Repeat(key) => {
            seen.add_sights(&*console, map, *key)?;
            let _ = console.step(Event::Press(*key));
        }
        ScriptEvent::Up(key) => {
            let _ = console.step(Event::Release(*key));
        }
        ScriptEvent::Reset => {
            let _ = console.step(Event::Reset);
        }
    }
    Ok(())
}

/// Adds what the presses of the events see.
fn see_all<T: Translator>(
    seen: &mut Seen,
    console: &mut T,
    map: &KeyMap,
    events: &[ScriptEvent],
) -> Result<(), AllocError>
    ensures { OnOk result ((h : List EventValue) → T.stands console.old (between map.now map.now) h
        → Knows map.now seen.old h
        → T.stands console.new (between map.now map.now) (run_events events.now ++ h)
        × Knows map.now seen.new (run_events events.now ++ h)) }
{
    for event in events {
        see(seen, console, map, event)?;
    }
    Ok(())
}

/// A script: its cases, their events, and what these see.
#[derive(Drop)]
pub struct KeyboardScript {
    pub events: Vec<ScriptEvent>,
    pub cases: Vec<Case>,
    pub seen: Seen,
}

/// Adds the run as a case, while the console runs along.
fn add<T: Translator>(
    cover: &mut KeyboardScript,
    console: &mut T,
    what: &What,
    run: &Run,
) -> Result<(), AllocError>
    requires { EndsAtRest run.now.map run.now.events }
    ensures { OnOk result (RunsAlong T.stands run.now.map run.now.presses console.old cover.old
        → RunsAlong T.stands run.now.map run.now.presses console.new cover.new) }
{
    let at = cover.events.len();
    cover.cases.push(Case { what: *what, at })?;
    cover.events.extend_from_slice(run.events())?;
    see_all(&mut cover.seen, console, run.map(), run.events())
}

/// Adds the case that was thought of, if its events may come and it ends at rest.
fn add_draft<T: Translator>(
    alloc: Global,
    cover: &mut KeyboardScript,
    console: &mut T,
    map: &KeyMap,
    presses: Presses,
    draft: &Draft,
) -> Result<(), AllocError>
    ensures { OnOk result (RunsAlong T.stands map.now presses console.old cover.old
        → RunsAlong T.stands map.now presses console.new cover.new) }
{
    match checked(alloc, map, presses, &draft.events)? {
        Some(run) => add(cover, console, &draft.what, &run),
        None => Ok(()),
    }
}

/// The script of the cases that were thought of, while a new console runs along.
pub(crate) fn script_of<T: Translator>(
    alloc: Global,
    console: &mut T,
    map: &KeyMap,
    presses: Presses,
    drafts: &[Draft],
) -> Result<KeyboardScript, AllocError>
    requires { T.stands console.old (between map.now map.now) [] }
    ensures { IfOk result (λ cover. IsScript map.now presses cover) }
{
    let mut cover = KeyboardScript {
        events: Vec::new(alloc),
        cases: Vec::new(alloc),
        seen: Seen::new(alloc)?,
    };
    for draft in drafts {
        add_draft(alloc, &mut cover, console, map, presses, draft)?;
    }
    Ok(cover)
}
