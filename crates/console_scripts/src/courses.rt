//! The states that the presses of a class lead to, and the nearest of them where a key types a character.
ghost use Rattle.std.specs.Prelude.{◌≡◌, ◌<◌, ℕ, true, false, length, IfOk, MatchOption};
ghost use Rattle.keymap_core.specs.Bounds.{IsMap};
ghost use Rattle.console_states.specs.Looks.{IsFirst};
ghost use Rattle.console_states.specs.Allowed.{is_pressed};
ghost use Rattle.console_states.specs.Searching.{GoBack, state_of, under_of};
ghost use Rattle.console_scripts.specs.Inner.Courses.{EndsAt, Gives, IsEnding, IsFoundAt, IsGiven, IsNearestAt};
ghost use Rattle.console_scripts.specs.Inner.Courses.{IsReached, LackAll, Lacks, MayEnd, under_by};
ghost use Rattle.console_scripts.specs.Inner.Exploring.{IsOrigin};
ghost use Rattle.console_scripts.specs.Ways.{IsLast};

use crate::classes::{Class, Spared, presses_of, takes};
use crate::making::{can_make, has_made, is_made};
use crate::routes::{Routes, has_route};
use console_core::Event;
use console_states::{
    End, Held, KeyAt, Keymaps, Met, Presses, entry, first_where, go_out, meet_all,
};
use keyboard::Board;
use keymap_core::{KEY_COUNT, KeyCode, KeyMap, key_with};
use std::alloc::{AllocError, Global};

/// From where ways go, of which class, which keys they spare, and the accent of their dead key, if they have one.
#[derive(Clone, Copy, Debug, PartialEq, Eq, Hash)]
pub struct Course {
    pub from: Held,
    pub class: Class,
    pub spared: Spared,
    pub accent: Option<u8>,
}

/// What ways are looked for: those that type the character, and end with a press of the key, if one is told.
#[derive(Clone, Copy, Debug, PartialEq, Eq, Hash)]
pub struct Target {
    pub character: char,
    pub last: Option<u8>,
}

/// The states that its presses lead to, in the order of the fewest presses, and whether they are all.
#[derive(Drop)]
pub struct Reached {
    pub(crate) met: Met,
    pub is_complete: bool,
}

/// The keymap alone, by these presses, where the accent is minded, if one is told.
fn keymaps_by<'m>(map: &'m KeyMap, presses: &'m Presses, accent: Option<u8>) -> Keymaps<'m>
    ensures { under_of result ≡ under_by (is_pressed presses.now) accent map.now }
{
    let allowed = Some(presses);
    Keymaps {
        first: map,
        second: map,
        has_loads: false,
        presses: allowed,
        minded: accent,
    }
}

/// The states that the course leads to.
pub fn reach(
    alloc: Global,
    map: &KeyMap,
    board: Board,
    course: &Course,
) -> Result<Reached, AllocError>
    requires known { IsMap map.now }
    requires source { IsOrigin (state_of course.now.from) }
    ensures { IfOk result (λ reached. IsReached board map.now course.now reached) }
{
    let presses = presses_of(board, course.class, course.spared);
    let maps = keymaps_by(map, &presses, course.accent);
    let (met, end) = meet_all(alloc, &maps, &course.from)?;
    let is_complete = match end {
        End::Complete => true,
        End::TooMany(_) => false,
    };
    Ok(Reached { met, is_complete })
}

/// What ends ways: the character that a tap types, while the accent is pending, if one is told, and the keys that are
/// pressed for it.
#[derive(Clone, Copy)]
pub struct Ending {
    pub accent: Option<u8>,
    pub character: char,
    pub keys: [bool; KEY_COUNT],
}

/// Whether the key is the one that is told, if one is.
fn is_last(last: Option<u8>, key: KeyCode) -> bool
    ensures is { result ≡ true → IsLast last key }
    ensures other { result ≡ false → IsLast last key → ⊥ }
{
    match last {
        Some(code) => key.get() == code,
        None => true,
    }
}

/// Whether ways of the course may end with a press of the key.
fn may_end(map: &KeyMap, board: Board, course: &Course, target: Target, key: KeyCode) -> bool
    ensures may { result ≡ true → MayEnd board course.now target key }
    ensures other { result ≡ false → MayEnd board course.now target key
        → Lacks map.now course.now.accent target.character key }
{
    is_last(target.last, key)
        && takes(board, course.class, course.spared, key)
        && has_made(map, course.accent, target.character, key)
}

/// The ending of the course's ways that are looked for, if some key may be pressed for it.
pub fn ending_of(map: &KeyMap, board: Board, course: &Course, target: Target) -> Option<Ending>
    ensures { MatchOption result (LackAll board map.now course.now target)
        (IsEnding board map.now course.now target) }
{
    if !can_make(map, course.accent, target.character) {
        return None;
    }
    let mut keys = [false; KEY_COUNT];
    let mut has_any = false;
    for code in 0..KEY_COUNT as u8 {
        let ends = may_end(map, board, course, target, key_with(code));
        keys[code as usize] = ends;
        has_any = has_any || ends;
    }
    if has_any {
        Some(Ending {
            accent: course.accent,
            character: target.character,
            keys,
        })
    } else {
        None
    }
}

impl Ending {
    /// Whether a press of the key in the state types the character, where meta is off and the accent is pending.
    fn is_given(&self, map: &KeyMap, held: &Held, key: KeyCode) -> bool
        ensures given { result ≡ true → IsGiven map.now self.now (state_of held.now) key }
        ensures other { result ≡ false → IsGiven map.now self.now (state_of held.now) key → ⊥ }
    {
        is_made(
            map,
            self.accent,
            self.character,
            &held.selection().look(map, key),
        ) && !held.holds(key)
    }

    /// A key that types the character in the state.
    fn key_giving(&self, map: &KeyMap, held: &Held) -> Option<KeyCode>
        ensures { MatchOption result ((k : ℕ) → Gives map.now self.now (state_of held.now) k → ⊥)
            (Gives map.now self.now (state_of held.now)) }
    {
        if held.is_meta_held() || held.is_accent_pending() != self.accent.is_some() {
            return None;
        }
        for code in 0..KEY_COUNT as u8 {
            if self.keys[code as usize] {
                let key = key_with(code);
                if self.is_given(map, held, key) {
                    return Some(key);
                }
            }
        }
        None
    }

    /// A key that types the character in the state, if a route leads home from there.
    fn key_ending(&self, map: &KeyMap, held: &Held, routes: &Routes) -> Option<KeyCode>
        ensures { MatchOption result ((k : ℕ) → EndsAt map.now self.now routes.now.entries (state_of held.now) k → ⊥)
            (EndsAt map.now self.now routes.now.entries (state_of held.now)) }
    {
        match self.key_giving(map, held) {
            Some(key) => if has_route(routes, &held.without_accent()) {
                Some(key)
            } else {
                None
            },
            None => None,
        }
    }
}

/// A way: its events up to the press that types, the key of that press, the state in which it is pressed, but for the
/// accent, and how many presses come before it.
#[derive(Debug, Drop)]
pub struct Found {
    pub events: Vec<Event>,
    pub key: KeyCode,
    pub held: Held,
    pub presses: usize,
}

impl Reached {
    /// The first place where a key types the character and a route leads home, and that key.
    #[tactic(auto, using(console_states::proofs::Shared::look_tells))]
    fn first_ending(&self, map: &KeyMap, ending: &Ending, routes: &Routes) -> Option<KeyAt>
        ensures { IsFirst (λ h. EndsAt map.now ending.now routes.now.entries (state_of h)) self.now.met.entries result }
    {
        first_where(&self.met, |held| ending.key_ending(map, &held, routes))
    }

    /// The way to the place and a press of the key there.
    fn way_to(&self, alloc: Global, at: KeyAt) -> Result<Found, AllocError>
        requires place { at.place < length self.now.met.entries }
        requires back { GoBack self.now.met.entries }
        ensures { IfOk result (IsFoundAt self.now.met.entries at) }
    {
        let mut events = Vec::new(alloc);
        go_out(&mut events, alloc, &self.met, at.place)?;
        let (held, origin) = entry(&self.met, at.place);
        Ok(Found {
            events,
            key: at.key,
            held: held.without_accent(),
            presses: origin.presses,
        })
    }

    /// The nearest way that ends so.
    pub fn look(
        &self,
        alloc: Global,
        map: &KeyMap,
        ending: &Ending,
        routes: &Routes,
    ) -> Result<Option<Found>, AllocError>
        requires back { GoBack self.now.met.entries }
        ensures { IfOk result (IsNearestAt map.now ending.now routes.now.entries self.now.met.entries) }
    {
        match self.first_ending(map, ending, routes) {
            Some(at) => Ok(Some(self.way_to(alloc, at)?)),
            None => Ok(None),
        }
    }
}
