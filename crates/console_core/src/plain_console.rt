//! The console with a truth value for each modifier, lock and down mark.
ghost use Rattle.std.specs.Prelude.{◌≡◌, [], List};
ghost use Rattle.keymap_core.specs.Maps.{MapValue};
ghost use Rattle.console_core.specs.History.{Maps, between, resolved};
ghost use Rattle.console_core.specs.Resolved.{down};
ghost use Rattle.console_core.specs.Types.{Event as EventValue};

use crate::event::{Answer, Event};
use crate::machine::Console;
use crate::plain_store::PlainStore;
use crate::store::Store;
use crate::translator::Translator;
use keymap_core::{Holding, KeyMap, Keymap, Lock, Modifier};

/// A console that keeps a truth value for each modifier, lock and down mark, an optional action for each key, an
/// optional pending accent, and a truth value for the map in force.
#[derive(Drop)]
pub struct PlainConsole<'m, K = KeyMap> {
    console: Console<'m, K, PlainStore>,
}

impl<'m> PlainConsole<'m> {
    /// A console of one map, where a load acts as a reset. All modifiers and locks are off and nothing is pending.
    pub fn new(map: &'m KeyMap) -> PlainConsole<'m>
        ensures { ⟦<PlainConsole<'m> as Translator>⟧.stands result (between map.now map.now) [] }
    {
        PlainConsole::between(map, map)
    }

    /// A console of two maps, the first one in force. All modifiers and locks are off and nothing is pending.
    pub fn between(first: &'m KeyMap, second: &'m KeyMap) -> PlainConsole<'m>
        ensures { ⟦<PlainConsole<'m> as Translator>⟧.stands result (between first.now second.now) [] }
    {
        PlainConsole::over(first, second)
    }
}

impl<'m, K: Keymap> PlainConsole<'m, K> {
    /// A console of two keymaps, however they are kept, the first one in force. All modifiers and locks are off and
    /// nothing is pending.
    pub fn over(first: &'m K, second: &'m K) -> PlainConsole<'m, K>
        ensures { (m n : MapValue) → K.shows first.now m → K.shows second.now n
            → ⟦<PlainConsole<'m, K> as Translator>⟧.stands result (between m n) [] }
    {
        PlainConsole {
            console: Console::over(first, second, PlainStore::new()),
        }
    }

    /// The console once more, as it stands.
    pub fn copied(&self) -> PlainConsole<'m, K>
        ensures { result ≡ self.now }
    {
        PlainConsole {
            console: self.console.with_store(*self.console.store()),
        }
    }

    /// Whether the lock is down: a press raised it that no release, reset or load has lowered since, so that a further
    /// press turns it no more.
    pub fn is_down(&self, lock: Lock) -> bool
        ensures { (ms : Maps) (h : List EventValue) → ⟦<PlainConsole<'m, K> as Translator>⟧.stands self.now ms h
            → result ≡ down lock (resolved ms h) }
    {
        self.console.store().is_marked(Holding::Lock(lock))
    }
}

impl<'m, K: Keymap> Translator for PlainConsole<'m, K> {
    ghost use Rattle.console_core.specs.Types.{Mod};

    ghost stands = { λ c. ⟦<Console<'m, K, PlainStore> as Translator>⟧.stands c.console };

    ghost shows_on = { λ c. ⟦<Console<'m, K, PlainStore> as Translator>⟧.shows_on c.console };

    ghost shows_locked = { λ c. ⟦<Console<'m, K, PlainStore> as Translator>⟧.shows_locked c.console };

    ghost shows_pending = { λ c. ⟦<Console<'m, K, PlainStore> as Translator>⟧.shows_pending c.console };

    ghost on_where_it_stands = { λ c ms h at i. at.3.agrees.marks (Mod i) };

    ghost locked_where_it_stands = { λ c ms h at l. at.3.agrees.locks l };

    ghost keys_where_it_stands = { λ c ms h at. at.2 };

    ghost pending_where_it_stands = { λ c ms h at. at.3.agrees.pending };

    fn step(&mut self, event: Event) -> Answer {
        self.console.step(event)
    }

    fn on(&self, modifier: Modifier) -> bool {
        self.console.on(modifier)
    }

    fn locked(&self, lock: Lock) -> bool {
        self.console.locked(lock)
    }

    fn pending(&self) -> Option<u8> {
        self.console.pending()
    }
}
