//! The moves that lead home, to where no key holds a modifier and no lock is on, from the states that the search met.
ghost use Rattle.std.specs.Prelude.{◌≡◌, ◌<◌, ◌≤◌, ◌⊎◌, ◌∷◌, ℕ, false, true, None, Some, length};
ghost use Rattle.std.specs.Prelude.{slice_get, OnOk, IfOk, IfSome};
ghost use Rattle.std.specs.List.{Contains};
ghost use Rattle.keymap_core.specs.Numbers.{key_count};
ghost use Rattle.console_states.specs.declared.held.Held.{Held as HeldValue};
ghost use Rattle.console_states.specs.Moves.{Under, State};
ghost use Rattle.console_states.specs.Searching.{state_of, under_of, Entry, IsStep};
ghost use Rattle.console_scripts.specs.Inner.Routes.{LeadsHome, AllLeadHome, HasRoute, IsAstray, NoLetGoLeads};
ghost use Rattle.console_scripts.specs.Inner.Routes.{NoPressLeads};

use console_states::{Held, Keymaps, Met, Move, Step};
use indexmap::IndexMap;
use keymap_core::{KEY_COUNT, MODIFIERS, key_with};
use std::alloc::{AllocError, Global};

/// Moves that lead home from a state, in their order.
#[derive(Debug, Drop)]
pub struct Route {
    pub moves: Vec<Move>,
}

/// Routes home, by the state where they begin.
pub type Routes = IndexMap<Held, Route>;

/// The move, and the route behind it.
fn longer(alloc: Global, by: Move, route: &Route) -> Result<Route, AllocError>
    ensures { IfOk result (λ x. x.moves.items ≡ by ∷ route.now.moves.items) }
{
    let mut moves = Vec::new(alloc);
    moves.push(by)?;
    moves.extend_from_slice(&route.moves)?;
    Ok(Route { moves })
}

/// A route by the step, if one begins where it leads.
fn route_by(alloc: Global, routes: &Routes, step: Option<Step>) -> Result<Option<Route>, AllocError>
    ensures home { (u : Under) (s : State) (n : ℕ) → AllLeadHome u routes.now.entries → IfSome step (IsStep u s n)
        → IfOk result (λ route. IfSome route (λ x. LeadsHome u s x.moves.items)) }
    ensures astray { IfOk result (λ route. route ≡ None
        → IfSome step (λ x. HasRoute routes.now.entries (state_of x.to) → ⊥)) }
{
    match step {
        Some(step) => match routes.get(&step.to) {
            Some(route) => Ok(Some(longer(alloc, step.by, route)?)),
            None => Ok(None),
        },
        None => Ok(None),
    }
}

/// A route that begins with letting go of a modifier.
fn route_by_let_go(alloc: Global, routes: &Routes, held: &Held) -> Result<Option<Route>, AllocError>
    ensures home { (u : Under) → AllLeadHome u routes.now.entries
        → IfOk result (λ route. IfSome route (λ x. LeadsHome u (state_of held.now) x.moves.items)) }
    ensures astray { IfOk result (λ route. route ≡ None → NoLetGoLeads routes.now.entries (state_of held.now)) }
{
    for modifier in MODIFIERS {
        if let Some(route) = route_by(alloc, routes, held.let_go(modifier))? {
            return Ok(Some(route));
        }
    }
    Ok(None)
}

/// A route that begins with a press.
fn route_by_press(
    alloc: Global,
    routes: &Routes,
    maps: &Keymaps,
    held: &Held,
) -> Result<Option<Route>, AllocError>
    ensures home { AllLeadHome (under_of maps.now) routes.now.entries
        → IfOk result (λ route. IfSome route (λ x. LeadsHome (under_of maps.now) (state_of held.now) x.moves.items)) }
    ensures astray { IfOk result (λ route. route ≡ None → (k : ℕ) → k < key_count
        → NoPressLeads (under_of maps.now) routes.now.entries (state_of held.now) k) }
{
    for code in 0..KEY_COUNT as u8 {
        if let Some(route) = route_by(alloc, routes, held.pressed(maps, key_with(code)))? {
            return Ok(Some(route));
        }
    }
    Ok(None)
}

/// A route from the state, if it is home or a move leads from it to where a route begins.
fn route_from(
    alloc: Global,
    routes: &Routes,
    maps: &Keymaps,
    held: &Held,
) -> Result<Option<Route>, AllocError>
    ensures home { AllLeadHome (under_of maps.now) routes.now.entries
        → IfOk result (λ route. IfSome route (λ x. LeadsHome (under_of maps.now) (state_of held.now) x.moves.items)) }
    ensures astray { IfOk result (λ route. route ≡ None → maps.now.has_loads ≡ false
        → IsAstray (under_of maps.now) routes.now.entries (state_of held.now)) }
{
    if held.is_home() {
        let moves = Vec::new(alloc);
        return Ok(Some(Route { moves }));
    }
    match route_by_let_go(alloc, routes, held)? {
        Some(route) => Ok(Some(route)),
        None => route_by_press(alloc, routes, maps, held),
    }
}

/// Adds a route that begins at the state.
fn add_route(routes: &mut Routes, held: Held, route: Route) -> Result<(), AllocError>
    ensures home { OnOk result ((u : Under) → AllLeadHome u routes.old.entries
        → LeadsHome u (state_of held) route.moves.items → AllLeadHome u routes.new.entries) }
    ensures added { OnOk result (HasRoute routes.new.entries (state_of held)) }
    ensures kept { OnOk result ((s : State) → HasRoute routes.old.entries s → HasRoute routes.new.entries s) }
{
    routes.insert(held, route)?;
    Ok(())
}

/// Adds routes from those of the states from which one move leads to where a route begins, and answers the others.
fn settle(
    alloc: Global,
    routes: &mut Routes,
    maps: &Keymaps,
    states: &[Held],
) -> Result<Vec<Held>, AllocError>
    requires { AllLeadHome (under_of maps.now) routes.old.entries }
    ensures home { OnOk result (AllLeadHome (under_of maps.now) routes.new.entries) }
    ensures fewer { IfOk result (λ rest. length rest.items ≤ length states.now) }
    ensures astray { IfOk result (λ rest. length rest.items ≡ length states.now → maps.now.has_loads ≡ false
        → (x : HeldValue) → Contains states.now x
        → IsAstray (under_of maps.now) routes.new.entries (state_of x)) }
    ensures all { IfOk result (λ rest. (x : HeldValue) → Contains states.now x
        → HasRoute routes.new.entries (state_of x) ⊎ Contains rest.items x) }
    ensures kept { OnOk result ((s : State) → HasRoute routes.old.entries s → HasRoute routes.new.entries s) }
{
    let mut rest = Vec::new(alloc);
    for held in states {
        match route_from(alloc, routes, maps, held)? {
            Some(route) => add_route(routes, *held, route)?,
            None => rest.push(*held)?,
        }
    }
    Ok(rest)
}

/// The states that were met.
fn states_of(alloc: Global, met: &Met) -> Result<Vec<Held>, AllocError>
    ensures { IfOk result (λ states. (j : ℕ) (x : Entry) → slice_get met.now.entries j ≡ Some x
        → Contains states.items x.0) }
{
    let mut states = Vec::new(alloc);
    for place in 0..met.len() {
        match met.get_index(place) {
            Some((held, _)) => states.push(*held)?,
            None => unreachable!(),
        }
    }
    Ok(states)
}

/// Routes home from the states that were met. From a state without one no moves lead home.
pub fn routes_home(alloc: Global, met: &Met, maps: &Keymaps) -> Result<Routes, AllocError>
    ensures home { IfOk result (λ routes. AllLeadHome (under_of maps.now) routes.entries) }
    ensures all { IfOk result (λ routes. maps.now.has_loads ≡ false → (j : ℕ) (x : Entry)
        → slice_get met.now.entries j ≡ Some x → HasRoute routes.entries (state_of x.0)
        ⊎ IsAstray (under_of maps.now) routes.entries (state_of x.0)) }
{
    let mut routes = IndexMap::new(alloc);
    let mut states = states_of(alloc, met)?;
    loop {
        let rest = settle(alloc, &mut routes, maps, &states)?;
        if rest.len() == states.len() {
            return Ok(routes);
        }
        states = rest;
    }
}

/// Whether a route begins at the state.
pub fn has_route(routes: &Routes, held: &Held) -> bool
    ensures has { result ≡ true → HasRoute routes.now.entries (state_of held.now) }
    ensures none { result ≡ false → HasRoute routes.now.entries (state_of held.now) → ⊥ }
{
    routes.contains_key(held)
}
