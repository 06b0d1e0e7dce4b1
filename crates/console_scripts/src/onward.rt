//! Presses that no moves lead back from, and such as turn the scroll lock.
ghost use Rattle.std.specs.Prelude.{◌≡◌, ℕ, List, false, true, reverse, IfOk, MatchOption};
ghost use Rattle.std.specs.List.{Contains};
ghost use Rattle.console_scripts.specs.Types.{Act, Event as EventValue, Scroll, Sight as SightValue};
ghost use Rattle.console_core.specs.History.{between, is_locked_after, HasKeys, HasNoLoads};
ghost use Rattle.console_states.specs.Moves.{Takes, state_of};
ghost use Rattle.keymap_core.specs.declared.action.Action.TheVariants.{Lock as LockAction};
ghost use Rattle.console_scripts.specs.Visiting.{CannotScroll, CannotSee, IsOnward, TurnsScrollOff, resting_after};
ghost use Rattle.console_scripts.specs.Inner.Exploring.{map_of_explored, origin_in, IsExplored};
ghost use Rattle.console_states.specs.Searching.{under_of};
ghost use Rattle.console_states.specs.Looks.{HoldsAt, IsFirst, IsNowhere};
ghost use Rattle.console_scripts.specs.Inner.Showing.{Sees, TurnsScroll};

use crate::explored::{Explored, explore};
use console_core::{Event, Translator};
use console_states::{Held, KeyAt, Keymaps, Selection, Sight, first_where, go_out};
use keymap_core::{KEY_COUNT, KeyCode, KeyMap, Lock, key_with};
use std::alloc::{AllocError, Global};

impl<'m> Explored<'m> {
    /// The first place where a press sees the first of these that some press sees, and its key.
    fn first_seeing_any(&self, sights: &[Sight]) -> Option<KeyAt>
        ensures { MatchOption result ((x : SightValue) → Contains sights.now x
            → IsNowhere (Sees self.now x) self.now.met.entries)
            (λ at. (x : SightValue) × Contains sights.now x × HoldsAt (Sees self.now x) self.now.met.entries at) }
    {
        for sight in sights {
            if let Some(at) = self.first_showing(*sight, false) {
                return Some(at);
            }
        }
        None
    }

    /// The events that see one of these from the origin, if that is where the console stands.
    fn go_onward<F: Fn(Selection, KeyCode) -> bool>(
        &self,
        alloc: Global,
        sights: &[Sight],
        wants: F,
    ) -> Result<Option<Vec<Event>>, AllocError>
        requires explored { IsExplored self.now }
        requires wants { F.IsAlwaysCallable wants }
        ensures { let m = map_of_explored self.now in IfOk result (λ x. (h : List EventValue)
            → origin_in self.now ≡ resting_after m h → HasKeys h → HasNoLoads h
            → MatchOption x ((y : SightValue) → Contains sights.now y → CannotSee m h y)
            (λ events. IsOnward m h sights.now (reverse events.items))) }
    {
        let Some(at) = self.first_seeing_any(sights) else {
            return Ok(None);
        };
        let key = at.key;
        let mut events = Vec::new(alloc);
        events.push(Event::Reset)?;
        self.go_looking(alloc, &mut events, at, wants)?;
        events.push(Event::Press(key))?;
        Ok(Some(events))
    }
}

/// The events that see one of these from where the console stands while no key holds a modifier, whether moves lead
/// back or not: a reset, moves, taps of keys that are wanted, and a press.
pub fn find_onward<T: Translator, F: Fn(Selection, KeyCode) -> bool>(
    alloc: Global,
    map: &KeyMap,
    console: &T,
    sights: &[Sight],
    wants: F,
) -> Result<Option<Vec<Event>>, AllocError>
    requires { F.IsAlwaysCallable wants }
    ensures { IfOk result (λ x. (h : List EventValue) → T.stands console.now (between map.now map.now) h → HasNoLoads h
        → MatchOption x ((y : SightValue) → Contains sights.now y → CannotSee map.now h y)
        (λ events. IsOnward map.now h sights.now (reverse events.items))) }
{
    let explored = explore(alloc, map, &Held::free(console))?;
    explored.go_onward(alloc, sights, wants)
}

/// Whether a press of the key turns the scroll lock.
fn is_turned_by(held: &Held, maps: &Keymaps, key: KeyCode) -> bool
    ensures turns { result ≡ true → Takes (under_of maps.now) (state_of held.now) key (Act (LockAction Scroll)) }
    ensures never { result ≡ false
        → Takes (under_of maps.now) (state_of held.now) key (Act (LockAction Scroll)) → ⊥ }
{
    matches!(held.turned_by(maps, key), Some(Lock::Scroll))
}

/// A key whose press turns the scroll lock.
fn key_turning(held: &Held, maps: &Keymaps) -> Option<KeyCode>
    ensures { MatchOption result
        ((k : ℕ) → Takes (under_of maps.now) (state_of held.now) k (Act (LockAction Scroll)) → ⊥)
        (λ k. Takes (under_of maps.now) (state_of held.now) k (Act (LockAction Scroll))) }
{
    for code in 0..KEY_COUNT as u8 {
        let key = key_with(code);
        if is_turned_by(held, maps, key) {
            return Some(key);
        }
    }
    None
}

impl<'m> Explored<'m> {
    /// The first place where a press turns the scroll lock, and its key.
    #[tactic(auto, using(console_states::proofs::Shared::look_tells))]
    fn first_turning(&self) -> Option<KeyAt>
        ensures { IsFirst (TurnsScroll self.now) self.now.met.entries result }
    {
        first_where(&self.met, |held| key_turning(&held, &self.maps))
    }

    /// The events that turn the scroll lock off where it is on, if the origin is where the console stands but for that
    /// lock: a reset, moves, and a press.
    fn go_turning(&self, alloc: Global) -> Result<Option<Vec<Event>>, AllocError>
        requires { IsExplored self.now }
        ensures { let m = map_of_explored self.now in IfOk result (λ x. (h : List EventValue)
            → origin_in self.now ≡ resting_after m h → HasKeys h → HasNoLoads h
            → is_locked_after (between m m) Scroll h ≡ true
            → MatchOption x (CannotScroll m h) (λ events. TurnsScrollOff m h (reverse events.items))) }
    {
        let Some(at) = self.first_turning() else {
            return Ok(None);
        };
        let mut events = Vec::new(alloc);
        events.push(Event::Reset)?;
        go_out(&mut events, alloc, &self.met, at.place)?;
        events.push(Event::Press(at.key))?;
        Ok(Some(events))
    }
}

/// The events that turn the scroll lock off from where the console stands while it is on and no key holds a modifier: a
/// reset, moves, and a press.
pub fn scroll_off<T: Translator>(
    alloc: Global,
    map: &KeyMap,
    console: &T,
) -> Result<Option<Vec<Event>>, AllocError>
    ensures { IfOk result (λ x. (h : List EventValue) → T.stands console.now (between map.now map.now) h → HasNoLoads h
        → is_locked_after (between map.now map.now) Scroll h ≡ true
        → MatchOption x (CannotScroll map.now h) (λ events. TurnsScrollOff map.now h (reverse events.items))) }
{
    let explored = explore(alloc, map, &Held::free(console))?;
    explored.go_turning(alloc)
}
