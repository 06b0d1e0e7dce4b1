//! Makes visits that show what presses can see: each leads from where a console rests to a state in which a press sees
//! something, and to where a route leads home again.
ghost use Rattle.std.specs.Prelude.{◌≡◌, ◌<◌, ◌++◌, [], ℕ, List, false, true, None, Some, length, reverse};
ghost use Rattle.std.specs.Prelude.{slice_get, OnOk, IfOk, IfSome, MatchOption};
ghost use Rattle.keymap_core.specs.Maps.{MapValue};
ghost use Rattle.keymap_core.specs.Numbers.{key_count};
ghost use Rattle.console_core.specs.History.{between, HasKeys, HasNoLoads};
ghost use Rattle.console_states.specs.declared.held.Held.{Held as HeldValue};
ghost use Rattle.console_states.specs.Looks.{HoldsAt, IsLook};
ghost use Rattle.console_states.specs.Moves.{alone, start, free_with, state_of};
ghost use Rattle.console_states.specs.Returning.{IsAfter, but_scroll};
ghost use Rattle.console_states.specs.Sights.{AreSightsOf};
ghost use Rattle.console_scripts.specs.Types.{Event as EventValue, Scroll};
ghost use Rattle.console_scripts.specs.Typing.{ComesHome};
ghost use Rattle.console_scripts.specs.Visiting.{AreStatesOf, CanReach, CanVisit, IsNearHome, IsVisit, IsWayHome};
ghost use Rattle.console_scripts.specs.Visiting.{LeadsBy, resting_after};
ghost use Rattle.console_states.specs.Sticking.{ReachesMoreThan, state_limit};
ghost use Rattle.console_scripts.specs.Inner.Exploring.{map_of_explored, origin_in, IsExplored, IsMetAt, IsTapAt};
ghost use Rattle.console_scripts.specs.declared.explored.Symbol.TheVariants as symbol;
ghost use Rattle.console_scripts.specs.Inner.Routes.{HasRoute};
ghost use Rattle.console_states.specs.Searching.{under_of, Entry};
ghost use Rattle.console_scripts.specs.Inner.Showing.{IsAim, IsWhole, Leads, LeadsComposing, LeadsToSee, Sees, Shows};
ghost use Rattle.console_scripts.specs.Inner.Showing.{ShowsNot};

use crate::explored::{Explored, Symbol, explore};
use crate::routes::has_route;
use crate::showing::{come_home, tap};
use console_core::{Event, Translator};
use console_states::{
    Held, KeyAt, Keymaps, Selection, Sight, Sights, entry, first_where, go_out, sights_in, state_at,
};
use keymap_core::{KEY_COUNT, KeyCode, KeyMap, Lock, key_with};
use std::alloc::{AllocError, Global};
use std::marker::Model;

/// What a visit is to see, the press that sees it, and behind which dead key.
#[derive(Clone, Copy, Debug)]
struct Aim {
    sight: Sight,
    at: KeyAt,
    dead: Option<KeyAt>,
}

/// The states that presses lead to, and routes home.
#[derive(Drop)]
pub struct Explorer<'m> {
    explored: Explored<'m>,
}

impl<'m> Model for Explorer<'m> {
    ghost use Rattle.console_scripts.specs.Visiting.{ExplorerValue};
    ghost use Rattle.console_scripts.specs.Inner.Showing.{IsWhole, states_in};

    ghost Value = { ExplorerValue };

    ghost view = { λ p. record {
      map = p.explored.maps.first.now;
      states = states_in p.explored.met.entries;
    } };

    ghost invariant = { λ p. IsWhole p.explored };
}

/// The state after a press of the key once all keys are let go.
fn after(held: &Held, maps: &Keymaps, key: KeyCode) -> Held
    ensures in_range { key < key_count }
    ensures value { IsAfter (under_of maps.now) (state_of held.now) key (state_of result) }
{
    match held.turned_by(maps, key) {
        None | Some(Lock::Scroll) => held.freed(),
        Some(lock) => held.with_turned(lock).freed(),
    }
}

/// Adds a tap of the key, if it is wanted and keeps the state, and one more of a dead key, so that no accent of it
/// stays pending.
fn tap_if(
    events: &mut Vec<Event>,
    maps: &Keymaps,
    held: &Held,
    key: KeyCode,
    is_wanted: bool,
) -> Result<(), AllocError>
    ensures { OnOk result ((m : MapValue) → under_of maps.now ≡ alone m
        → Leads m (state_of held.now) (state_of held.now) (reverse events.old.items) (reverse events.new.items)) }
{
    if !is_wanted {
        return Ok(());
    }
    if !held.is_steady(maps, key) {
        return Ok(());
    }
    tap(events, key)?;
    match held.offered(maps, key) {
        Some(_) => tap(events, key),
        None => Ok(()),
    }
}

/// Adds taps of the keys that are wanted in the state and keep it, but for the one that is pressed there last.
fn tap_wanted<F: Fn(Selection, KeyCode) -> bool>(
    events: &mut Vec<Event>,
    maps: &Keymaps,
    held: &Held,
    last: KeyCode,
    wants: F,
) -> Result<(), AllocError>
    requires { F.IsAlwaysCallable wants }
    ensures { OnOk result ((m : MapValue) → under_of maps.now ≡ alone m
        → Leads m (state_of held.now) (state_of held.now) (reverse events.old.items) (reverse events.new.items)) }
{
    let selection = held.selection();
    for code in 0..KEY_COUNT as u8 {
        let key = key_with(code);
        let is_wanted = key != last && wants(selection, key);
        tap_if(events, maps, held, key, is_wanted)?;
    }
    Ok(())
}

impl<'m> Explored<'m> {
    /// A key whose press sees it in the state, where a pair's accent is pending.
    #[inline(always)]
    fn key_seeing(&self, held: &Held, sight: Sight) -> Option<KeyCode>
        ensures { MatchOption result ((k : ℕ) → Sees self.now sight held.now k → ⊥)
            (λ k. Sees self.now sight held.now k) }
    {
        held.selection().key_seeing(self.maps.first, sight)
    }

    /// A key whose press sees it in the state, and leads to where a route home begins, if it is to lead back.
    #[inline(always)]
    fn key_showing(&self, held: &Held, sight: Sight, leads_back: bool) -> Option<KeyCode>
        ensures { MatchOption result (ShowsNot self.now sight leads_back held.now)
            (λ k. Shows self.now sight leads_back held.now k) }
    {
        let Some(key) = self.key_seeing(held, sight) else {
            return None;
        };
        if !leads_back {
            return Some(key);
        }
        if has_route(&self.routes, &after(held, &self.maps, key)) {
            Some(key)
        } else {
            None
        }
    }

    /// The first place where a press sees it, and leads to where a route home begins, if it is to lead back.
    #[tactic(auto, using(console_states::proofs::Shared::look_tells))]
    pub(crate) fn first_showing(&self, sight: Sight, leads_back: bool) -> Option<KeyAt>
        ensures { IsLook (ShowsNot self.now sight leads_back) (Shows self.now sight leads_back)
            self.now.met.entries result }
    {
        first_where(&self.met, |held| self.key_showing(&held, sight, leads_back))
    }

    /// How to see it, behind the dead key if there is one.
    fn aim_behind(&self, dead: Option<KeyAt>, sight: Sight) -> Option<Aim>
        ensures { MatchOption result (IsLook (ShowsNot self.now sight true) (Shows self.now sight true)
            self.now.met.entries None)
            (λ a. HoldsAt (Shows self.now sight true) self.now.met.entries a.at × (a.sight ≡ sight) × (a.dead ≡ dead)) }
    {
        match self.first_showing(sight, true) {
            Some(at) => Some(Aim { sight, at, dead }),
            None => None,
        }
    }

    /// How to see it.
    fn aim_at(&self, sight: Sight) -> Option<Aim>
        requires { IsWhole self.now }
        ensures { MatchOption result (CanVisit (map_of_explored self.now) sight → ⊥)
            (λ a. IsAim self.now a × (a.sight ≡ sight)) }
    {
        match sight {
            Sight::Pair { accent, .. } => {
                match self.first_place(Symbol::DeadKey(accent)) {
                    Some(dead) => self.aim_behind(Some(dead), sight),
                    None => None,
                }
            }
            _ => self.aim_behind(None, sight),
        }
    }

    /// Adds the events to the place, and taps of keys that are wanted there and keep its state, but not of its own.
    pub(crate) fn go_looking<F: Fn(Selection, KeyCode) -> bool>(
        &self,
        alloc: Global,
        events: &mut Vec<Event>,
        at: KeyAt,
        wants: F,
    ) -> Result<(), AllocError>
        requires explored { IsExplored self.now }
        requires place { at.place < length self.now.met.entries }
        requires wants { F.IsAlwaysCallable wants }
        ensures { OnOk result ((y : Entry) → slice_get self.now.met.entries at.place ≡ Some y
            → Leads (map_of_explored self.now) (origin_in self.now) (state_of y.0)
            (reverse events.old.items) (reverse events.new.items)) }
    {
        go_out(events, alloc, &self.met, at.place)?;
        let held = state_at(&self.met, at.place);
        tap_wanted(events, &self.maps, &held, at.key, wants)
    }

    /// Adds the events to a dead key, a tap of it, and the events home and on to the place.
    fn go_composing(
        &self,
        alloc: Global,
        events: &mut Vec<Event>,
        dead: KeyAt,
        place: usize,
    ) -> Result<(), AllocError>
        requires explored { IsWhole self.now }
        requires dead { IsMetAt self.now dead.place }
        requires place { place < length self.now.met.entries }
        ensures { OnOk result ((y : Entry) (accent : ℕ) → slice_get self.now.met.entries place ≡ Some y
            → IsTapAt self.now (symbol.DeadKey accent) dead.place dead.key
            → LeadsComposing (map_of_explored self.now) accent start (state_of y.0)
            (reverse events.old.items) (reverse events.new.items)) }
    {
        go_out(events, alloc, &self.met, dead.place)?;
        tap(events, dead.key)?;
        come_home(events, &self.routes, &state_at(&self.met, dead.place))?;
        go_out(events, alloc, &self.met, place)
    }

    /// Adds the events from home to where the press sees what is aimed at.
    fn approach<F: Fn(Selection, KeyCode) -> bool>(
        &self,
        alloc: Global,
        events: &mut Vec<Event>,
        aim: &Aim,
        wants: F,
    ) -> Result<(), AllocError>
        requires explored { IsWhole self.now }
        requires aim { IsAim self.now aim.now }
        requires wants { F.IsAlwaysCallable wants }
        ensures { OnOk result ((y : Entry) → slice_get self.now.met.entries aim.now.at.place ≡ Some y
            → LeadsToSee (map_of_explored self.now) aim.now.sight start (state_of y.0)
            (reverse events.old.items) (reverse events.new.items)) }
    {
        match aim.dead {
            Some(dead) => self.go_composing(alloc, events, dead, aim.at.place),
            None => self.go_looking(alloc, events, aim.at, wants),
        }
    }

    /// A reset, and the events home from the state and on to the press that sees what is aimed at.
    fn events_of<F: Fn(Selection, KeyCode) -> bool>(
        &self,
        alloc: Global,
        from: &Held,
        aim: &Aim,
        wants: F,
    ) -> Result<Vec<Event>, AllocError>
        requires explored { IsWhole self.now }
        requires from { HasRoute self.now.routes.entries (state_of from.now) }
        requires aim { IsAim self.now aim.now }
        requires wants { F.IsAlwaysCallable wants }
        ensures { let m = map_of_explored self.now in IfOk result (λ events. (h : List EventValue)
            → state_of from.now ≡ resting_after m h → HasKeys h → HasNoLoads h
            → IsVisit m h aim.now.sight (reverse events.items) × IsNearHome m (reverse events.items ++ h)) }
    {
        let mut events = Vec::new(alloc);
        events.push(Event::Reset)?;
        come_home(&mut events, &self.routes, from)?;
        self.approach(alloc, &mut events, aim, wants)?;
        events.push(Event::Press(aim.at.key))?;
        Ok(events)
    }
}

impl<'m> Explorer<'m> {
    /// An explorer of the keymap, or nothing where there are more than 65,536 states.
    pub fn new(alloc: Global, map: &'m KeyMap) -> Result<Option<Explorer<'m>>, AllocError>
        ensures explorer { IfOk result (λ x. MatchOption x ((p : ℕ) × ReachesMoreThan (alone map.now) state_limit p)
            (λ p. p.map ≡ map.now)) }
        ensures states { IfOk result (λ x. IfSome x (λ p. AreStatesOf map.now p.states)) }
    {
        let explored = explore(alloc, map, &Held::start())?;
        if explored.is_complete {
            Ok(Some(Explorer { explored }))
        } else {
            Ok(None)
        }
    }

    /// What presses of keys can see.
    pub fn sights(&self, alloc: Global) -> Result<Sights, AllocError>
        ensures { IfOk result (λ x. AreSightsOf self.now.map x) }
    {
        sights_in(alloc, &self.explored.met, &self.explored.maps)
    }

    /// The events of a visit from where the console stands while no key holds a modifier, if that is near home: a
    /// reset, moves, and a press that sees it; nothing where it can't be visited. Keys that are wanted are tapped
    /// before that press, if they keep the state; not where it is behind a dead key. Which keys are tapped on the way
    /// is in no clause: a visit without them sees what it is to see, too.
    pub fn visit<T: Translator, F: Fn(Selection, KeyCode) -> bool>(
        &self,
        alloc: Global,
        console: &T,
        sight: Sight,
        wants: F,
    ) -> Result<Option<Vec<Event>>, AllocError>
        requires { F.IsAlwaysCallable wants }
        ensures { let m = self.now.map in IfOk result (λ x. (h : List EventValue)
            → T.stands console.now (between m m) h → HasNoLoads h → IsNearHome m h
            → MatchOption x (CanVisit m sight → ⊥)
            (λ events. IsVisit m h sight (reverse events.items) × IsNearHome m (reverse events.items ++ h))) }
    {
        let Some(aim) = self.explored.aim_at(sight) else {
            return Ok(None);
        };
        let from = Held::free(console);
        if !has_route(&self.explored.routes, &from) {
            return Ok(None);
        }
        let events = self.explored.events_of(alloc, &from, &aim, wants)?;
        Ok(Some(events))
    }
}

/// The states and ways between them, for who presses keys in them for other reasons.
impl<'m> Explorer<'m> {
    /// How many states there are.
    pub fn len(&self) -> usize
        ensures { result ≡ length self.now.states }
    {
        self.explored.met.len()
    }

    /// The state at the place, if there is one.
    pub fn state(&self, place: usize) -> Option<Held>
        ensures { result ≡ slice_get self.now.states place }
    {
        if place >= self.explored.met.len() {
            return None;
        }
        let (held, _) = entry(&self.explored.met, place);
        Some(held)
    }

    /// Whether moves lead home from the state, if moves lead to it.
    pub fn leads_home(&self, held: &Held) -> bool
        ensures home { result ≡ true → ComesHome (alone self.now.map) (state_of held.now) }
        ensures astray { result ≡ false → CanReach self.now.map (state_of held.now)
            → ComesHome (alone self.now.map) (state_of held.now) → ⊥ }
    {
        has_route(&self.explored.routes, held)
    }

    /// The events from home to the place, if there is a state.
    pub fn events_to(&self, alloc: Global, place: usize) -> Result<Vec<Event>, AllocError>
        ensures leads { IfOk result (λ events. (x : HeldValue) → slice_get self.now.states place ≡ Some x
            → LeadsBy self.now.map start (state_of x) (reverse events.items)) }
        ensures none { IfOk result (λ events. slice_get self.now.states place ≡ None → events.items ≡ []) }
    {
        let mut events = Vec::new(alloc);
        if place >= self.explored.met.len() {
            return Ok(events);
        }
        go_out(&mut events, alloc, &self.explored.met, place)?;
        Ok(events)
    }

    /// The events home from where the console stands while no key holds a modifier, if moves lead there and home.
    pub fn events_home<T: Translator>(
        &self,
        alloc: Global,
        console: &T,
    ) -> Result<Vec<Event>, AllocError>
        ensures { IfOk result (λ events. IsWayHome self.now.map (free_with (but_scroll (T.shows_locked console.now)))
            (reverse events.items)) }
    {
        let mut events = Vec::new(alloc);
        let held = Held::free(console);
        if !has_route(&self.explored.routes, &held) {
            return Ok(events);
        }
        come_home(&mut events, &self.explored.routes, &held)?;
        Ok(events)
    }
}
