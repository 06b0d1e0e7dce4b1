//! Cases as they are thought of: what each is about, and its events.
use crate::cases::What;
use crate::run::Run;
use console_core::{Event, PlainConsole, Translator};
use keymap_core::KeyMap;
use keymap_cover::{ScriptEvent, Seen};
use std::alloc::{AllocError, Global};

/// A case as it is thought of.
#[derive(Drop)]
pub(crate) struct Draft {
    pub what: What,
    pub events: Vec<ScriptEvent>,
}

/// The cases that are thought of so far, and what their presses see.
#[derive(Drop)]
pub(crate) struct Drafts {
    pub alloc: Global,
    pub cases: Vec<Draft>,
    pub seen: Seen,
}

/// Adds what the presses of the events see, while the console runs along.
fn see<T: Translator>(
    seen: &mut Seen,
    console: &mut T,
    map: &KeyMap,
    events: &[ScriptEvent],
) -> Result<(), AllocError> {
    for event in events {
        match event {
            ScriptEvent::Down(key) | ScriptEvent::Repeat(key) => {
                seen.add_sights(&*console, map, *key)?;
                let _ = console.step(Event::Press(*key));
            }
            ScriptEvent::Up(key) => {
                let _ = console.step(Event::Release(*key));
            }
            ScriptEvent::Reset => {}
        }
    }
    Ok(())
}

impl Drafts {
    pub fn new(alloc: Global) -> Result<Drafts, AllocError> {
        Ok(Drafts {
            alloc,
            cases: Vec::new(alloc),
            seen: Seen::new(alloc)?,
        })
    }

    /// Adds a run that is at rest as a case, unless it has no events. Answers whether it was added.
    pub fn keep<'m>(&mut self, what: &What, run: &Run<'m>) -> Result<bool, AllocError> {
        if run.events().is_empty() || !run.is_at_rest() {
            return Ok(false);
        }
        let mut events = Vec::new(self.alloc);
        events.extend_from_slice(run.events())?;
        let mut console = PlainConsole::new(run.map());
        see(&mut self.seen, &mut console, run.map(), &events)?;
        self.cases.push(Draft {
            what: *what,
            events,
        })?;
        Ok(true)
    }
}
