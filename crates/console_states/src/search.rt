//! The search for sticking modifiers over the states that presses, releases and loads lead to, by the number of
//! presses.
ghost use Rattle.std.specs.Prelude.{◌≡◌, ◌+◌, ◌<◌, ◌≤◌, ◌∷◌, ◌++◌, ℕ, true, false, List, [], None, Some, length};
ghost use Rattle.std.specs.Prelude.{reverse, slice_get, OnOk, IfOk, IfSome};
ghost use Rattle.keymap_core.specs.Numbers.{key_count};
ghost use Rattle.keymap_core.specs.declared.action.Modifier.{Modifier as ModifierValue};
ghost use Rattle.console_states.specs.declared.held.Held.{Held as HeldValue};
ghost use Rattle.console_states.specs.Searching.{state_of, under_of, Entry, IsMetBy, AreWithin, Grows, IsBegun};
ghost use Rattle.console_states.specs.Searching.{IsStep, AreMet, AreAdded, Searched, AreInOrder, HasMovingKeys};
ghost use Rattle.console_states.specs.Searching.{limit_of};
ghost use Rattle.console_states.specs.Searching.{HasEnded, GoBack, IsScriptTo};
ghost use Rattle.console_states.specs.Looks.{IsFirstStuck};
ghost use Rattle.console_states.specs.AllowedSights.{IsFirstAllowed};
ghost use Rattle.console_core.specs.History.{between};
ghost use Rattle.console_states.specs.Moves.{Under, State, Holds, alone, start, with_holder};
ghost use Rattle.console_states.specs.Sticking.{HasFewStates, IsAnswer, IsAnswerBetween, IsAnswerUnder};
ghost use Rattle.console_states.specs.Sticking.{ReachesMoreThan, state_limit};

use crate::held::{Held, Keymaps, Move, Step};
use crate::key_lists::moving_keys;
use crate::left_on::left_on;
use crate::look::{KeyAt, first_where};
use crate::outcome::Sticking;
use crate::selection::Sight;
use crate::showing::go_out;
use console_core::Event;
use indexmap::IndexMap;
use keymap_core::{KeyCode, KeyMap, MODIFIERS};
use std::alloc::{AllocError, Global};

/// How many states a search goes over that minds no accent, and one that does.
const BOUND: usize = 65_536;

const BOUND_MINDING: usize = 131_072;

/// How a state was come to: by so many presses, and at last, unless it is the start, by a move from the state at a
/// place.
#[derive(Clone, Copy, Debug, PartialEq, Eq)]
pub struct Origin {
    pub presses: usize,
    pub last: Option<(usize, Move)>,
}

/// How a search ended.
#[derive(Clone, Copy, Debug, PartialEq, Eq)]
pub enum End {
    /// All states were met.
    Complete,
    /// More states were met than the search goes over, by at most so many presses.
    TooMany(usize),
}

/// The states that were met, in their order.
pub type Met = IndexMap<Held, Origin>;

/// The state that was met at the place, and how it was come to.
pub fn entry(met: &Met, place: usize) -> (Held, Origin)
    requires { place < length met.now.entries }
    ensures { slice_get met.now.entries place ≡ Some result }
{
    match met.get_index(place) {
        Some((held, origin)) => (*held, *origin),
        None => unreachable!(),
    }
}

/// The state that was met at the place.
pub fn state_at(met: &Met, place: usize) -> Held
    requires { place < length met.now.entries }
    ensures { (x : Entry) → slice_get met.now.entries place ≡ Some x → result ≡ x.0 }
{
    entry(met, place).0
}

/// Adds where the step from the place leads, if that wasn't met.
fn meet_step(met: &mut Met, place: usize, step: Step, presses: usize) -> Result<(), AllocError>
    requires { AreWithin met.old.entries presses }
    ensures met { OnOk result (IsMetBy met.new.entries presses (state_of step.to)) }
    ensures within { OnOk result (AreWithin met.new.entries presses) }
    ensures grown { OnOk result (Grows met.old.entries met.new.entries) }
    ensures added { OnOk result ((u : Under) (h : HeldValue) (n : ℕ) → IsStep u (state_of h) n step
        → AreAdded u (state_of h) place n presses met.old.entries met.new.entries) }
{
    if !met.contains_key(&step.to) {
        let origin = Origin {
            presses,
            last: Some((place, step.by)),
        };
        met.insert(step.to, origin)?;
    }
    Ok(())
}

/// Adds where the step from the place leads, if there is one. Inlined, since half of the calls are given none.
#[inline(always)]
fn meet(met: &mut Met, place: usize, step: Option<Step>, presses: usize) -> Result<(), AllocError>
    requires { AreWithin met.old.entries presses }
    ensures met { OnOk result (IfSome step (λ x. IsMetBy met.new.entries presses (state_of x.to))) }
    ensures within { OnOk result (AreWithin met.new.entries presses) }
    ensures grown { OnOk result (Grows met.old.entries met.new.entries) }
    ensures added { OnOk result ((u : Under) (h : HeldValue) (n : ℕ) → IfSome step (IsStep u (state_of h) n)
        → AreAdded u (state_of h) place n presses met.old.entries met.new.entries) }
{
    match step {
        Some(step) => meet_step(met, place, step, presses),
        None => Ok(()),
    }
}

/// Adds where letting go of the modifiers leads.
fn meet_let_gos(met: &mut Met, place: usize, held: &Held, presses: usize) -> Result<(), AllocError>
    requires { AreWithin met.old.entries presses }
    ensures met { OnOk result ((k : ℕ) (i : ModifierValue) → Holds (state_of held.now) k i
        → IsMetBy met.new.entries presses (with_holder (state_of held.now) i None)) }
    ensures within { OnOk result (AreWithin met.new.entries presses) }
    ensures added { OnOk result ((u : Under)
        → AreAdded u (state_of held.now) place 0 presses met.old.entries met.new.entries) }
{
    for modifier in MODIFIERS {
        meet(met, place, held.let_go(modifier), presses)?;
    }
    Ok(())
}

/// Adds where moves without a press lead: letting go of the modifiers, and a load.
fn meet_frees(
    met: &mut Met,
    maps: &Keymaps,
    place: usize,
    held: &Held,
    presses: usize,
) -> Result<(), AllocError>
    requires { AreWithin met.old.entries presses }
    ensures met { OnOk result (AreMet (under_of maps.now) met.new.entries 0 presses (state_of held.now)) }
    ensures added { OnOk result (AreAdded (under_of maps.now) (state_of held.now) place 0 presses met.old.entries
        met.new.entries) }
{
    meet_let_gos(met, place, held, presses)?;
    meet(met, place, held.exchange(maps), presses)?;
    Ok(())
}

/// A state, and the place at which it was met.
#[derive(Clone, Copy)]
struct Placed {
    place: usize,
    held: Held,
}

/// Adds where presses of keys lead from a state, of which those are given that can be moves.
fn meet_presses(
    met: &mut Met,
    maps: &Keymaps,
    keys: &[KeyCode],
    from: Placed,
    presses: usize,
) -> Result<(), AllocError>
    requires within { AreWithin met.old.entries presses }
    requires keys { HasMovingKeys (under_of maps.now) keys.now key_count }
    ensures met { OnOk result (AreMet (under_of maps.now) met.new.entries 1 presses (state_of from.held)) }
    ensures added { OnOk result (AreAdded (under_of maps.now) (state_of from.held) from.place 1 presses met.old.entries
        met.new.entries) }
{
    for key in keys {
        meet(met, from.place, from.held.pressed(maps, *key), presses)?;
    }
    Ok(())
}

/// How many states the search goes over.
fn limit(maps: &Keymaps) -> usize
    ensures value { result ≡ limit_of (under_of maps.now) }
    ensures small { result ≤ 131072 }
{
    match maps.minded {
        Some(_) => BOUND_MINDING,
        None => BOUND,
    }
}

/// Adds where letting go and loads lead from the states of a level, which as many presses lead to. Stops once too many
/// were met.
fn close(met: &mut Met, maps: &Keymaps, level: usize, presses: usize) -> Result<(), AllocError>
    requires order { AreInOrder met.old.entries level presses }
    requires below { level ≤ length met.old.entries }
    ensures searched { OnOk result ((origins : List State)
        → Searched (under_of maps.now) origins met.old.entries level level
        → Searched (under_of maps.now) origins met.new.entries level level
        × (length met.new.entries ≤ limit_of (under_of maps.now)
        → Searched (under_of maps.now) origins met.new.entries level (length met.new.entries))) }
    ensures order { OnOk result (AreInOrder met.new.entries level presses) }
    ensures grown { OnOk result (Grows met.old.entries met.new.entries) }
{
    let bound = limit(maps);
    let mut place = level;
    while place < met.len() && met.len() <= bound {
        let (held, _) = entry(met, place);
        meet_frees(met, maps, place, &held, presses)?;
        place += 1;
    }
    Ok(())
}

/// Adds where presses lead from the states of a level, which as many presses lead to. Stops once too many were met.
fn press(
    met: &mut Met,
    maps: &Keymaps,
    keys: &[KeyCode],
    level: usize,
    presses: usize,
) -> Result<(), AllocError>
    requires keys { HasMovingKeys (under_of maps.now) keys.now key_count }
    requires small { presses < limit_of (under_of maps.now) }
    requires order { AreInOrder met.old.entries level presses }
    ensures searched { OnOk result ((origins : List State)
        → Searched (under_of maps.now) origins met.old.entries level (length met.old.entries)
        → Searched (under_of maps.now) origins met.new.entries level (length met.old.entries)
        × (length met.new.entries ≤ limit_of (under_of maps.now)
        → Searched (under_of maps.now) origins met.new.entries (length met.old.entries) (length met.old.entries))) }
    ensures order { OnOk result (AreInOrder met.new.entries (length met.old.entries) (presses + 1)) }
    ensures grown { OnOk result (Grows met.old.entries met.new.entries) }
{
    let bound = limit(maps);
    let end = met.len();
    for place in level..end {
        if met.len() > bound {
            return Ok(());
        }
        let (held, _) = entry(met, place);
        meet_presses(met, maps, keys, Placed { place, held }, presses + 1)?;
    }
    Ok(())
}

/// The events to the state at the place, a repeat of the key, and the releases of all keys that hold a modifier.
fn script(alloc: Global, met: &Met, stuck: KeyAt) -> Result<Vec<Event>, AllocError>
    requires place { stuck.place < length met.now.entries }
    requires back { GoBack met.now.entries }
    ensures { IfOk result (λ events. (u : Under)
        → IsScriptTo u met.now.entries stuck.place stuck.key (reverse events.items)) }
{
    let mut events = Vec::new(alloc);
    go_out(&mut events, alloc, met, stuck.place)?;
    events.push(Event::Press(stuck.key))?;
    let mut releases = Vec::new(alloc);
    state_at(met, stuck.place).push_releases(&mut releases)?;
    releases.reverse();
    events.extend_from_slice(&releases)?;
    Ok(events)
}

/// The state where a search begins.
fn begin(alloc: Global, from: Held) -> Result<Met, AllocError>
    ensures { IfOk result (λ met. IsBegun from met.entries) }
{
    let mut met = IndexMap::new(alloc);
    let origin = Origin {
        presses: 0,
        last: None,
    };
    met.insert(from, origin)?;
    Ok(met)
}

/// Meets the states that moves lead to from those that were met, level by level, in the order of the fewest presses. Of
/// the keys those are given that can be moves.
fn meet_levels(met: &mut Met, maps: &Keymaps, keys: &[KeyCode]) -> Result<End, AllocError>
    requires keys { HasMovingKeys (under_of maps.now) keys.now key_count }
    requires order { AreInOrder met.old.entries 0 0 }
    ensures { IfOk result (λ end. (origins : List State) → Searched (under_of maps.now) origins met.old.entries 0 0
        → HasEnded (under_of maps.now) origins met.new.entries end) }
{
    let bound = limit(maps);
    let mut level = 0;
    let mut presses = 0;
    while level < met.len() {
        close(met, maps, level, presses)?;
        if met.len() > bound {
            return Ok(End::TooMany(presses));
        }
        let end = met.len();
        press(met, maps, keys, level, presses)?;
        if met.len() > bound {
            return Ok(End::TooMany(presses + 1));
        }
        level = end;
        presses += 1;
    }
    Ok(End::Complete)
}

/// Meets the states that moves lead to from this one, level by level, in the order of the fewest presses.
pub fn meet_all(alloc: Global, maps: &Keymaps, from: &Held) -> Result<(Met, End), AllocError>
    ensures { IfOk result (λ x. HasEnded (under_of maps.now) (state_of from.now ∷ []) x.0.entries x.1) }
{
    let keys = moving_keys(alloc, maps)?;
    let mut met = begin(alloc, *from)?;
    let end = meet_levels(&mut met, maps, keys.as_slice())?;
    Ok((met, end))
}

/// The first place where a key that holds a modifier looks up a character.
#[tactic(auto, using(crate::proofs::Looks::look_tells))]
pub fn first_stuck(met: &Met, maps: &Keymaps) -> Option<KeyAt>
    ensures { IsFirstStuck (under_of maps.now) met.now.entries result }
{
    first_where(met, |held| held.forgetful(maps))
}

/// The first place whose state an allowed press sees it in, where a pair's accent is pending. Where none is told of all
/// states that moves lead to, no list of allowed presses sees it, as `laws` says.
#[tactic(auto, using(crate::proofs::Looks::look_tells))]
pub fn first_allowed(met: &Met, maps: &Keymaps, sight: Sight) -> Option<KeyAt>
    ensures { IsFirstAllowed (under_of maps.now) sight met.now.entries result }
{
    first_where(met, |held| held.key_seeing(maps, sight))
}

/// What the states that a search met tell of whether a modifier can be left on while no key is pressed.
fn conclude(alloc: Global, maps: &Keymaps, met: &Met, end: End) -> Result<Sticking, AllocError>
    requires ended { HasEnded (under_of maps.now) (start ∷ []) met.now.entries end }
    requires unminded { maps.now.minded ≡ None }
    ensures { IfOk result (λ answer. IsAnswerUnder (under_of maps.now) answer) }
{
    if let Some(stuck) = first_stuck(met, maps) {
        let events = script(alloc, met, stuck)?;
        let modifiers = left_on(alloc, maps, events.as_slice())?;
        return Ok(Sticking::Sticks { events, modifiers });
    }
    match end {
        End::Complete => Ok(Sticking::Never),
        End::TooMany(presses) => Ok(Sticking::Undecided(presses)),
    }
}

/// Decides whether presses, releases and, where there are any, loads can leave a modifier on while no key is pressed.
fn decide(alloc: Global, maps: &Keymaps) -> Result<Sticking, AllocError>
    requires { maps.now.minded ≡ None }
    ensures { IfOk result (λ answer. IsAnswerUnder (under_of maps.now) answer) }
{
    let (met, end) = meet_all(alloc, maps, &Held::start())?;
    conclude(alloc, maps, &met, end)
}

/// Whether presses and releases lead to no more states than a search goes over.
pub fn has_few_states(alloc: Global, map: &KeyMap) -> Result<bool, AllocError>
    ensures few { IfOk result (λ few. few ≡ true → HasFewStates (alone map.now)) }
    ensures many { IfOk result (λ few. few ≡ false → (p : ℕ) × ReachesMoreThan (alone map.now) state_limit p) }
{
    let (_, end) = meet_all(alloc, &Keymaps::alone(map), &Held::start())?;
    match end {
        End::Complete => Ok(true),
        End::TooMany(_) => Ok(false),
    }
}

/// Decides whether a keymap can leave a modifier on while no key is pressed.
pub fn sticking(alloc: Global, map: &KeyMap) -> Result<Sticking, AllocError>
    ensures { IfOk result (λ answer. IsAnswer map.now answer) }
{
    decide(alloc, &Keymaps::alone(map))
}

/// Decides whether two keymaps, the first one in force to begin with, can leave a modifier on while no key is pressed,
/// where each load exchanges the one in force. The bound counts the states of both, so this can be undecided where
/// `sticking` decides of each of them.
pub fn sticking_between<'m>(
    alloc: Global,
    first: &'m KeyMap,
    second: &'m KeyMap,
) -> Result<Sticking, AllocError>
    ensures { IfOk result (λ answer. IsAnswerBetween (between first.now second.now) answer) }
{
    let maps = Keymaps {
        first,
        second,
        has_loads: true,
        presses: None,
        minded: None,
    };
    decide(alloc, &maps)
}
