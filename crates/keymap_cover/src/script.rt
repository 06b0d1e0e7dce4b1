//! A script while it is made, and the console that runs along.
ghost use Rattle.std.specs.Prelude.{◌≡◌, ◌<◌, ℕ, List, length, slice_index_or, false};
ghost use Rattle.keymap_core.specs.Maps.{MapValue};
ghost use Rattle.keymap_core.specs.Numbers.{key_count};
ghost use Rattle.console_core.specs.declared.event.Event.TheVariants.{Press, Reset};
ghost use Rattle.keymap_cover.specs.declared.script_event.ScriptEvent.{ScriptEvent as ScriptEventValue};
ghost use Rattle.keymap_cover.specs.ScriptEvents.{event_of, is_down, CanFollow};

use crate::script_event::ScriptEvent;
use crate::seen::Seen;
use console_core::{Event, Translator, is_any_on};
use keymap_core::{KEY_COUNT, KeyCode, KeyMap, key_with};
use std::alloc::{AllocError, Global};

/// A script so far: the console that runs along, which keys are pressed, and what presses saw.
#[derive(Drop)]
pub struct Script<T: Drop> {
    pub alloc: Global,
    pub console: T,
    pub events: Vec<ScriptEvent>,
    pub pressed: [bool; 128],
    pub seen: Seen,
    ghost pressed_len: { length pressed ≡ 128 },
}

/// A press of the key, by whether it is pressed already.
fn press_of(key: KeyCode, is_pressed: bool) -> ScriptEvent
    ensures in_range { key < key_count }
    ensures event { event_of result ≡ Press key }
    ensures possible { (before : List ScriptEventValue) → is_pressed ≡ is_down key before → CanFollow before result }
{
    if is_pressed {
        ScriptEvent::Repeat(key)
    } else {
        ScriptEvent::Down(key)
    }
}

impl<T: Translator + Drop> Script<T> {
    ghost use Rattle.std.specs.Prelude.{◌≢◌, ◌∷◌, [], reverse, OnOk, IfOk};
    ghost use Rattle.console_core.specs.History.{between};
    ghost use Rattle.keymap_cover.specs.Inner.Scripts.{AreUp, GoesAlong, GoesAlongToRest, GoesBy, GoesOn, GoesToRest};
    ghost use Rattle.keymap_cover.specs.Inner.Scripts.{GoesUp, RunsAlong};

    /// No events, for a console that is new.
    pub fn new(alloc: Global, console: T) -> Result<Script<T>, AllocError>
        ensures { IfOk result (λ t. (m : MapValue) → T.stands console (between m m) [] → RunsAlong m T.stands [] t) }
    {
        Ok(Script {
            alloc,
            console,
            events: Vec::new(alloc),
            pressed: [false; 128],
            seen: Seen::new(alloc)?,
        })
    }

    /// Whether the key is pressed.
    pub fn is_pressed(&self, key: KeyCode) -> bool
        ensures in_range { key < key_count }
        ensures value { result ≡ slice_index_or self.now.pressed key false }
    {
        self.pressed[key.get() as usize]
    }

    /// Presses the key: down, or once more if it is pressed.
    pub fn press(&mut self, map: &KeyMap, key: KeyCode) -> Result<(), AllocError>
        ensures { OnOk result (GoesBy map.now (Press key) T.stands self.old self.new) }
    {
        self.seen.add_sights(&self.console, map, key)?;
        let event = press_of(key, self.is_pressed(key));
        self.events.push(event)?;
        self.pressed[key.get() as usize] = true;
        let _ = self.console.step(Event::Press(key));
        Ok(())
    }

    /// Releases the key, if it is pressed.
    pub fn up(&mut self, key: KeyCode) -> Result<(), AllocError>
        ensures along { OnOk result ((m : MapValue) → GoesUp m key T.stands self.old self.new) }
        ensures up { OnOk result (slice_index_or self.new.pressed key false ≡ false) }
        ensures others { OnOk result ((k : ℕ) → k ≢ key
            → slice_index_or self.new.pressed k false ≡ slice_index_or self.old.pressed k false) }
    {
        if self.is_pressed(key) {
            self.events.push(ScriptEvent::Up(key))?;
            self.pressed[key.get() as usize] = false;
            let _ = self.console.step(Event::Release(key));
        }
        Ok(())
    }

    /// Resets the console. Keys stay down.
    pub fn reset(&mut self) -> Result<(), AllocError>
        ensures along { OnOk result ((m : MapValue) → GoesBy m Reset T.stands self.old self.new) }
        ensures kept { OnOk result (self.new.pressed ≡ self.old.pressed) }
    {
        self.events.push(ScriptEvent::Reset)?;
        let _ = self.console.step(Event::Reset);
        Ok(())
    }

    /// Delivers the event. A release of a key that isn't pressed is left out.
    fn deliver(&mut self, map: &KeyMap, event: &Event) -> Result<(), AllocError>
        ensures { OnOk result (GoesAlong map.now (event.now ∷ []) T.stands self.old self.new) }
    {
        match event {
            Event::Press(key) => self.press(map, *key)?,
            Event::Release(key) => self.up(*key)?,
            _ => self.reset()?,
        }
        Ok(())
    }

    /// Releases all keys.
    fn let_go(&mut self) -> Result<(), AllocError>
        ensures along { OnOk result ((m : MapValue) → GoesOn m T.stands self.old self.new) }
        ensures up { OnOk result (AreUp self.new.pressed) }
    {
        for code in 0..KEY_COUNT as u8 {
            self.up(key_with(code))?;
        }
        Ok(())
    }

    /// Resets the console if a modifier is on or an accent is pending.
    fn settle(&mut self) -> Result<(), AllocError>
        requires { AreUp self.old.pressed }
        ensures along { OnOk result ((m : MapValue) → GoesToRest m T.stands self.old self.new) }
        ensures kept { OnOk result (self.new.pressed ≡ self.old.pressed) }
    {
        if is_any_on(&self.console) || self.console.pending().is_some() {
            self.reset()?;
        }
        Ok(())
    }

    /// Delivers the events, whatever they are, releases all keys, and leaves no modifier on and no accent pending.
    /// Events that are taken are delivered one by one.
    pub fn walk(&mut self, map: &KeyMap, events: &[Event]) -> Result<(), AllocError>
        ensures along { OnOk result (GoesAlongToRest map.now (reverse events.now) T.stands self.old self.new) }
        ensures up { OnOk result (AreUp self.new.pressed) }
    {
        for event in events {
            self.deliver(map, event)?;
        }
        self.let_go()?;
        self.settle()
    }
}
