//! The console that is packed into a word and a byte for each key.
ghost use Rattle.std.specs.Prelude.{List, [], reverse};
ghost use Rattle.keymap_core.specs.Maps.{MapValue};
ghost use Rattle.console_core.specs.Types.{Event as EventValue};
ghost use Rattle.console_core.specs.History.{Maps, between};

use crate::event::{Answer, Event};
use crate::machine::Console;
use crate::replays::deliver_all;
use crate::translator::Translator;
use crate::word_store::WordStore;
use keymap_core::{KeyMap, Keymap, Lock, Modifier};

/// A console that keeps one word of 32 bits, for the modifiers, the locks, the down marks, the pending accent and the
/// map in force, and a byte for each key, the code of its remembered action.
#[derive(Drop)]
pub struct WordConsole<'m, K = KeyMap> {
    console: Console<'m, K, WordStore>,
}

impl<'m> WordConsole<'m> {
    /// A console of one map, where a load acts as a reset. All modifiers and locks are off and nothing is pending.
    pub fn new(map: &'m KeyMap) -> WordConsole<'m>
        ensures { ⟦<WordConsole<'m> as Translator>⟧.stands result (between map.now map.now) [] }
    {
        WordConsole::between(map, map)
    }

    /// A console of two maps, the first one in force. All modifiers and locks are off and nothing is pending.
    pub fn between(first: &'m KeyMap, second: &'m KeyMap) -> WordConsole<'m>
        ensures { ⟦<WordConsole<'m> as Translator>⟧.stands result (between first.now second.now) [] }
    {
        WordConsole::over(first, second)
    }

    /// A console of two maps, the first one in force at first, that was delivered the events.
    pub fn after(first: &'m KeyMap, second: &'m KeyMap, events: &[Event]) -> WordConsole<'m>
        ensures { ⟦<WordConsole<'m> as Translator>⟧.stands result (between first.now second.now) (reverse events.now) }
    {
        let mut console = WordConsole::between(first, second);
        deliver_all(&mut console, events);
        console
    }
}

impl<'m, K: Keymap> WordConsole<'m, K> {
    /// A console of two keymaps, however they are kept, the first one in force. All modifiers and locks are off and
    /// nothing is pending.
    pub fn over(first: &'m K, second: &'m K) -> WordConsole<'m, K>
        ensures { (m n : MapValue) → K.shows first.now m → K.shows second.now n
            → ⟦<WordConsole<'m, K> as Translator>⟧.stands result (between m n) [] }
    {
        WordConsole {
            console: Console::over(first, second, WordStore::new()),
        }
    }

    /// A console of the same maps that was delivered the same events.
    pub fn copied(&self) -> WordConsole<'m, K>
        ensures { (ms : Maps) (h : List EventValue) → ⟦<WordConsole<'m, K> as Translator>⟧.stands self.now ms h
            → ⟦<WordConsole<'m, K> as Translator>⟧.stands result ms h }
    {
        WordConsole {
            console: self.console.with_store(self.console.store().copied()),
        }
    }
}

impl<'m, K: Keymap> Translator for WordConsole<'m, K> {
    ghost use Rattle.console_core.specs.Types.{Mod};

    ghost stands = { λ c. ⟦<Console<'m, K, WordStore> as Translator>⟧.stands c.console };

    ghost shows_on = { λ c. ⟦<Console<'m, K, WordStore> as Translator>⟧.shows_on c.console };

    ghost shows_locked = { λ c. ⟦<Console<'m, K, WordStore> as Translator>⟧.shows_locked c.console };

    ghost shows_pending = { λ c. ⟦<Console<'m, K, WordStore> as Translator>⟧.shows_pending c.console };

    ghost on_where_it_stands = { λ c ms h at i. at.3.agrees.marks (Mod i) };

    ghost locked_where_it_stands = { λ c ms h at l. at.3.agrees.locks l };

    ghost keys_where_it_stands = { λ c ms h at. at.2 };

    ghost pending_where_it_stands = { λ c ms h at. at.3.agrees.pending };

    #[inline(always)]
    fn step(&mut self, event: Event) -> Answer {
        self.console.step(event)
    }

    fn on(&self, modifier: Modifier) -> bool {
        self.console.on(modifier)
    }

    fn locked(&self, lock: Lock) -> bool {
        self.console.locked(lock)
    }

    fn pending(&self) -> Option<u8> {
        self.console.pending()
    }
}
