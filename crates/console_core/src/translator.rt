//! What every console promises.
ghost use Rattle.std.specs.Prelude.{◌≡◌, ℕ, Bool, List, ◌∷◌, [], Option};
ghost use Rattle.console_core.specs.Types.{Modifier as ModifierValue, Lock as LockValue, Event as EventValue};
ghost use Rattle.console_core.specs.History.{Maps, is_on_after, is_locked_after, accent_pending_after, answer_to};
ghost use Rattle.console_core.specs.History.{HasKeys, is_any_on_after};

use crate::event::{Answer, Event};
use keymap_core::{Lock, Modifier};

/// A console: it is delivered events, and answers each by the list of all events so far.
pub trait Translator {
    /// The console stands at the list of events, which are all about keys, under the two maps.
    ghost stands: { Self → Maps → List EventValue → Type 0 };

    /// Which modifiers are on.
    ghost shows_on: { Self → ModifierValue → Bool };

    /// Which locks are on.
    ghost shows_locked: { Self → LockValue → Bool };

    /// The index of the pending accent.
    ghost shows_pending: { Self → Option ℕ };

    /// Delivers an event. Where the console stands at a list of events, it stands at that list with the event
    /// afterwards.
    fn step(&mut self, event: Event) -> Answer
        ensures answer { (ms : Maps) (h : List EventValue) → stands self.old ms h → result ≡ answer_to ms h event }
        ensures next { (ms : Maps) (h : List EventValue) → stands self.old ms h → stands self.new ms (event ∷ h) };

    /// Whether the modifier is on.
    fn on(&self, modifier: Modifier) -> bool
        ensures { result ≡ shows_on self.now modifier };

    /// Whether the lock is on.
    fn locked(&self, lock: Lock) -> bool
        ensures { result ≡ shows_locked self.now lock };

    /// The index of the pending accent, if there is one.
    fn pending(&self) -> Option<u8>
        ensures { result ≡ shows_pending self.now };

    ghost on_where_it_stands: { (c : Self) (ms : Maps) (h : List EventValue) → stands c ms h → (i : ModifierValue)
        → shows_on c i ≡ is_on_after ms i h };

    ghost locked_where_it_stands: { (c : Self) (ms : Maps) (h : List EventValue) → stands c ms h → (l : LockValue)
        → shows_locked c l ≡ is_locked_after ms l h };

    ghost keys_where_it_stands: { (c : Self) (ms : Maps) (h : List EventValue) → stands c ms h → HasKeys h };

    ghost pending_where_it_stands: { (c : Self) (ms : Maps) (h : List EventValue) → stands c ms h
        → shows_pending c ≡ accent_pending_after ms h };
}

/// Whether some modifier is on.
pub fn is_any_on<T: Translator>(console: &T) -> bool
    ensures { (ms : Maps) (h : List EventValue) → T.stands console.now ms h → result ≡ is_any_on_after ms h }
{
    console.on(Modifier::LeftShift)
        || console.on(Modifier::RightShift)
        || console.on(Modifier::LeftControl)
        || console.on(Modifier::RightControl)
        || console.on(Modifier::LeftAlt)
        || console.on(Modifier::RightAlt)
        || console.on(Modifier::AltShift)
        || console.on(Modifier::Meta)
}
