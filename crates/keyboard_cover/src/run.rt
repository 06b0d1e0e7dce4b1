//! A run of a console from rest on: the events, each of which a keyboard may send, and the console that runs along.
ghost use Rattle.std.specs.Prelude.{◌≡◌, ◌<◌, ◌++◌, [], ℕ, List, true, false, length, reverse, slice_index_or, IfOk};
ghost use Rattle.keymap_core.specs.Numbers.{key_count};
ghost use Rattle.console_states.specs.Sights.{look_selected, selection_with};
ghost use Rattle.console_core.specs.declared.event.Event.{Event as EventValue};
ghost use Rattle.keymap_core.specs.declared.action.Lock.{Lock as LockValue};
ghost use Rattle.console_core.specs.History.{IsQuiet, between, pressed};
ghost use Rattle.keymap_cover.specs.ScriptEvents.{ArePossible};
ghost use Rattle.keyboard_cover.specs.Allowed.{AllMayCome, may_press, may_press_after, must_wait, sends_other};
ghost use Rattle.std.specs.Option.{is_some};
ghost use Rattle.keyboard_cover.specs.Runs.{EndsAtRest, IsRest, IsUnlocked, run_events};

use crate::allowed::counted_as;
use console_core::{Answer, Event, PlainConsole, Translator, is_any_on};
use console_states::Presses;
use console_states::laws::sights_are_reachable;
use keymap_core::{Cell, KEY_COUNT, KeyCode, KeyMap, Lock, key_with};
use keymap_cover::{ScriptEvent, selection};
use std::alloc::{AllocError, AllocFailed, Global};
use std::marker::Model;

/// Why a run stops.
#[derive(Clone, Copy, Debug, PartialEq, Eq)]
pub(crate) enum Stop {
    Memory,
    /// A press isn't presses, or what is looked for isn't there.
    Refused,
}

impl From<AllocError> for Stop {
    ghost use Rattle.std.specs.Prelude.{◌≡◌};
    ghost use Rattle.keyboard_cover.specs.declared.run.Stop.TheVariants.{Memory};

    ghost from_gives = { λ _ e. e ≡ Memory };

    fn from(_e: AllocError) -> Stop {
        Stop::Memory
    }
}

impl<T: Drop> From<AllocFailed<T>> for Stop {
    ghost use Rattle.std.specs.Prelude.{◌≡◌};
    ghost use Rattle.keyboard_cover.specs.declared.run.Stop.TheVariants.{Memory};

    ghost from_gives = { λ _ e. e ≡ Memory };

    fn from(_e: AllocFailed<T>) -> Stop {
        Stop::Memory
    }
}

/// The events so far, the console behind them, and which keys are pressed.
#[derive(Drop)]
pub(crate) struct Run<'m> {
    alloc: Global,
    map: &'m KeyMap,
    presses: Presses,
    console: PlainConsole<'m>,
    down: [bool; 128],
    events: Vec<ScriptEvent>,
}

impl<'m> Model for Run<'m> {
    ghost use Rattle.std.specs.Prelude.{◌≡◌, length};
    ghost use Rattle.keyboard_cover.specs.Runs.{RunValue, IsRun};

    ghost Value = { RunValue };

    ghost view = { λ r. record { map = r.map.now; presses = r.presses; events = r.events.items } };

    ghost invariant = { λ r. (length r.down ≡ 128)
        × IsRun (⟦<PlainConsole<'static> as Translator>⟧.stands) r.map.now r.presses r.console r.down r.events.items };
}

/// No key is pressed.
fn none_down() -> [bool; 128]
    ensures len { length result ≡ 128 }
    ensures none { (k : ℕ) → k < key_count → slice_index_or result k false ≡ false }
{
    [false; 128]
}

/// Whether a keyboard sends another code in place of the key's, or its release before.
fn sends_other(down: &[bool; 128], key: KeyCode) -> bool
    requires { length down.now ≡ 128 }
    ensures { result ≡ sends_other (λ j. slice_index_or down.now j false) key }
{
    if down[104] {
        return true;
    }
    match key.get() {
        92 => down[56] || down[93],
        104 => down[29] || down[90],
        _ => false,
    }
}

/// Whether the release of the key comes behind that of key 104.
fn must_wait(down: &[bool; 128], key: KeyCode) -> bool
    requires { length down.now ≡ 128 }
    ensures { result ≡ must_wait (λ j. slice_index_or down.now j false) key }
{
    down[104] && key.get() != 104
}

/// Whether a press of the key, which looks up the cell, may be made.
#[tactic(auto, unfolding(crate::specs::Allowed::may_press))]
fn may_press<T: Translator>(
    console: &T,
    down: &[bool; 128],
    presses: &Presses,
    key: KeyCode,
    cell: &Cell,
) -> bool
    requires { length down.now ≡ 128 }
    ensures { result ≡ may_press presses.now (selection_with (T.shows_on console.now) (T.shows_locked console.now))
        (λ j. slice_index_or down.now j false) (is_some (T.shows_pending console.now)) key cell.now }
{
    let counted = counted_as(console.pending().is_some(), cell);
    presses.has(selection(console), key, counted) && !sends_other(down, key)
}

/// What a press of the key looks up.
fn look<T: Translator>(console: &T, map: &KeyMap, key: KeyCode) -> Cell
    ensures { result ≡ look_selected map.now (selection_with (T.shows_on console.now) (T.shows_locked console.now)) key }
{
    selection(console).look(map, key)
}

impl<'m> Run<'m> {
    /// No events, for a console at rest.
    pub fn new(alloc: Global, map: &'m KeyMap, presses: Presses) -> Run<'m>
        ensures map { result.map ≡ map.now }
        ensures presses { result.presses ≡ presses }
        ensures events { result.events ≡ [] }
    {
        Run {
            alloc,
            map,
            presses,
            console: PlainConsole::new(map),
            down: none_down(),
            events: Vec::new(alloc),
        }
    }

    /// The run once more.
    pub fn copied(&self) -> Result<Run<'m>, AllocError>
        ensures { IfOk result (λ run. run ≡ self.now) }
    {
        let mut events = Vec::new(self.alloc);
        events.extend_from_slice(&self.events)?;
        Ok(Run {
            alloc: self.alloc,
            map: self.map,
            presses: self.presses,
            console: self.console.copied(),
            down: self.down,
            events,
        })
    }

    pub fn alloc(&self) -> Global {
        self.alloc
    }

    pub fn map(&self) -> &'m KeyMap
        ensures { result.now ≡ self.now.map }
    {
        self.map
    }

    pub fn console(&self) -> &PlainConsole<'m>
        ensures { (h : List EventValue) → IsRest self.now.map h
            → ⟦<PlainConsole<'static> as Translator>⟧.stands result.now (between self.now.map self.now.map)
            (run_events self.now.events ++ h) }
    {
        &self.console
    }

    pub fn events(&self) -> &[ScriptEvent]
        ensures events { result.now ≡ self.now.events }
        ensures comes { (h : List EventValue) → IsRest self.now.map h
            → AllMayCome self.now.presses self.now.map h (run_events self.now.events) }
        ensures possible { ArePossible (reverse self.now.events) }
    {
        &self.events
    }

    /// Whether the key is pressed.
    pub fn is_down(&self, key: KeyCode) -> bool
        ensures in_range { key < key_count }
        ensures pressed { (h : List EventValue) → IsRest self.now.map h
            → result ≡ pressed key (run_events self.now.events ++ h) }
    {
        self.down[key.get() as usize]
    }

    /// What a press of the key looks up.
    pub fn look(&self, key: KeyCode) -> Cell {
        look(&self.console, self.map, key)
    }

    /// Whether the press of the key may be made.
    pub fn may_press(&self, key: KeyCode) -> bool
        ensures in_range { key < key_count }
        ensures may { (h : List EventValue) → IsRest self.now.map h
            → result ≡ may_press_after self.now.presses self.now.map (run_events self.now.events ++ h) key }
    {
        sights_are_reachable();
        let cell = look(&self.console, self.map, key);
        may_press(&self.console, &self.down, &self.presses, key, &cell)
    }

    /// Presses the key, once more if it is pressed, where that may be made.
    pub fn press(&mut self, key: KeyCode) -> Result<(), Stop>
        ensures { (self.new.map ≡ self.old.map) × (self.new.presses ≡ self.old.presses) }
    {
        match self.press_answered(key) {
            Ok(_) => Ok(()),
            Err(stop) => Err(stop),
        }
    }

    /// Does so, and answers what the console does.
    pub fn press_answered(&mut self, key: KeyCode) -> Result<Answer, Stop>
        ensures { (self.new.map ≡ self.old.map) × (self.new.presses ≡ self.old.presses) }
    {
        if !self.may_press(key) {
            return Err(Stop::Refused);
        }
        let event = if self.down[key.get() as usize] {
            ScriptEvent::Repeat(key)
        } else {
            ScriptEvent::Down(key)
        };
        self.events.push(event)?;
        self.down[key.get() as usize] = true;
        Ok(self.console.step(Event::Press(key)))
    }

    /// Releases the key, if it is pressed and needn't wait.
    pub fn up(&mut self, key: KeyCode) -> Result<(), AllocError>
        ensures { (self.new.map ≡ self.old.map) × (self.new.presses ≡ self.old.presses) }
    {
        if self.down[key.get() as usize] && !must_wait(&self.down, key) {
            self.events.push(ScriptEvent::Up(key))?;
            self.down[key.get() as usize] = false;
            let _ = self.console.step(Event::Release(key));
        }
        Ok(())
    }

    fn is_any_down(&self) -> bool
        ensures { result ≡ false → (h : List EventValue) → IsRest self.now.map h
            → IsQuiet (run_events self.now.events ++ h) }
    {
        for code in 0..KEY_COUNT as u8 {
            if self.is_down(key_with(code)) {
                return true;
            }
        }
        false
    }

    /// Whether the lock is on, or down.
    fn has_lock(&self, lock: Lock) -> bool
        ensures { result ≡ false → (h : List EventValue) → IsRest self.now.map h
            → IsUnlocked self.now.map lock (run_events self.now.events ++ h) }
    {
        self.console.locked(lock) || self.console.is_down(lock)
    }

    fn has_any_lock(&self) -> bool
        ensures { result ≡ false → (h : List EventValue) → IsRest self.now.map h → (l : LockValue)
            → IsUnlocked self.now.map l (run_events self.now.events ++ h) }
    {
        self.has_lock(Lock::Caps)
            || self.has_lock(Lock::Num)
            || self.has_lock(Lock::Scroll)
            || self.has_lock(Lock::Alt)
    }

    /// Whether the run ends at rest: the console is as a new one.
    pub fn is_at_rest(&self) -> bool
        ensures { result ≡ true → EndsAtRest self.now.map self.now.events }
    {
        !self.is_any_down()
            && !is_any_on(&self.console)
            && !self.has_any_lock()
            && self.console.pending().is_none()
    }
}
