//! The states that presses lead to from one where no key holds a modifier, the taps that can be made in them, and the
//! events of those.
ghost use Rattle.std.specs.Prelude.{◌≡◌, true, false, reverse, Some, IfOk, MatchOption, ℕ};
ghost use Rattle.console_states.specs.Moves.{Under, alone, map_in};
ghost use Rattle.console_scripts.specs.Typing.{IsTapOf, cell_of};
ghost use Rattle.console_scripts.specs.Inner.Exploring.{map_of_explored, origin_in, IsExplored, IsTapAt, HasTap};
ghost use Rattle.console_scripts.specs.Inner.Exploring.{IsOrigin, LetsGo, IsExploredFrom, GoesHome};
ghost use Rattle.console_scripts.specs.Inner.Exploring.{CanTapIn, Leaves};
ghost use Rattle.console_scripts.specs.Inner.Routes.{HasRoute};
ghost use Rattle.console_scripts.specs.Inner.Symbols.{AreKeysWith};
ghost use Rattle.console_states.specs.Searching.{state_of};

use crate::routes::{Routes, has_route, routes_home};
use crate::showing::come_home;
use crate::symbols::keys_with;
use console_core::Event;
use console_states::{End, Held, KeyAt, Keymaps, Met, first_where, meet_all};
use keymap_core::{Action, Cell, KEY_COUNT, KeyCode, KeyMap, MODIFIERS, key_with};
use std::alloc::{AllocError, Global};

/// What a key that is tapped looks up.
#[derive(Clone, Copy, Debug, PartialEq, Eq)]
pub enum Symbol {
    Character(char),
    /// The dead key of the accent.
    DeadKey(u8),
}

/// The states that presses lead to from the origin, which is one of them, in the order of the fewest presses, and
/// routes home from them.
#[derive(Drop)]
pub struct Explored<'m> {
    pub maps: Keymaps<'m>,
    pub(crate) origin: Held,
    pub(crate) met: Met,
    pub(crate) routes: Routes,
    /// Whether the states that were met are all. Else they are more than 65,536.
    pub is_complete: bool,
}

/// Explores the states from the origin.
pub fn explore<'m>(
    alloc: Global,
    map: &'m KeyMap,
    origin: &Held,
) -> Result<Explored<'m>, AllocError>
    requires { IsOrigin (state_of origin.now) }
    ensures { IfOk result (λ e. IsExploredFrom map.now (state_of origin.now) e) }
{
    let maps = Keymaps {
        first: map,
        second: map,
        has_loads: false,
        presses: None,
        minded: None,
    };
    let (met, end) = meet_all(alloc, &maps, origin)?;
    let is_complete = match end {
        End::Complete => true,
        End::TooMany(_) => false,
    };
    let routes = routes_home(alloc, &met, &maps)?;
    Ok(Explored {
        maps,
        origin: *origin,
        met,
        routes,
        is_complete,
    })
}

/// Whether the cell is the symbol.
pub fn is_symbol(cell: &Cell, symbol: Symbol) -> bool
    ensures same { result ≡ true → cell.now ≡ cell_of symbol }
    ensures other { result ≡ false → cell.now ≡ cell_of symbol → ⊥ }
{
    match symbol {
        Symbol::Character(wanted) => match cell {
            Cell::Char(c) => *c == wanted,
            Cell::Act(_) => false,
        },
        Symbol::DeadKey(wanted) => match cell {
            Cell::Act(Action::DeadKey(accent)) => accent.get() == wanted,
            _ => false,
        },
    }
}

/// A key that holds nothing in the state and looks up the cell, of those that have the symbol.
fn key_tapping(
    held: &Held,
    map: &KeyMap,
    symbol: Symbol,
    have: &[bool; KEY_COUNT],
) -> Option<KeyCode>
    requires { AreKeysWith map.now symbol have.now }
    ensures { (u : Under) → map_in u (state_of held.now) ≡ map.now
        → MatchOption result ((k : ℕ) → IsTapOf u (state_of held.now) false symbol k → ⊥)
        (λ k. IsTapOf u (state_of held.now) false symbol k) }
{
    let selection = held.selection();
    for code in 0..KEY_COUNT as u8 {
        if have[code as usize] {
            let key = key_with(code);
            if is_symbol(&selection.look(map, key), symbol) && !held.holds(key) {
                return Some(key);
            }
        }
    }
    None
}

/// All keys let go, one after another: adds the events of that, and answers the state behind them.
fn let_all_go(from: &Held, events: &mut Vec<Event>) -> Result<Held, AllocError>
    ensures { IfOk result (λ held. LetsGo (state_of from.now) (reverse events.old.items) (reverse events.new.items)
        (state_of held)) }
{
    let mut held = *from;
    for modifier in MODIFIERS {
        if let Some(key) = held.holder(modifier) {
            events.push(Event::Release(key))?;
            held = held.with_holder(modifier, None);
        }
    }
    Ok(held)
}

impl<'m> Explored<'m> {
    /// A key that can be tapped for the symbol in the state, if a route leads home from there.
    #[inline(always)]
    fn key_in(&self, held: &Held, symbol: Symbol, have: &[bool; KEY_COUNT]) -> Option<KeyCode>
        requires { AreKeysWith (map_of_explored self.now) symbol have.now }
        ensures { MatchOption result ((k : ℕ) → CanTapIn self.now symbol held.now k → ⊥)
            (λ k. CanTapIn self.now symbol held.now k) }
    {
        match key_tapping(held, self.maps.first, symbol, have) {
            Some(key) => {
                if has_route(&self.routes, held) {
                    Some(key)
                } else {
                    None
                }
            }
            None => None,
        }
    }

    /// The first place from which a route leads home and where a key can be tapped for the symbol, and that key.
    pub fn first_place(&self, symbol: Symbol) -> Option<KeyAt>
        requires { IsExplored self.now }
        ensures { MatchOption result (HasTap self.now symbol → ⊥)
            (λ at. IsTapAt self.now symbol at.place at.key) }
    {
        let have = keys_with(self.maps.first, symbol);
        first_where(&self.met, |held| self.key_in(&held, symbol, &have))
    }

    /// Adds the events from the state, which was met and from which a route leads home, to one where no key holds a
    /// modifier and from which a route leads home.
    pub fn leave(&self, events: &mut Vec<Event>, held: &Held) -> Result<Held, AllocError>
        requires explored { IsExplored self.now }
        requires route { HasRoute self.now.routes.entries (state_of held.now) }
        ensures { IfOk result (λ next. IsOrigin (state_of held.now)
            → Leaves (alone (map_of_explored self.now)) (state_of held.now) (reverse events.old.items)
            (reverse events.new.items) (state_of next)) }
    {
        if has_route(&self.routes, &held.freed()) {
            let next = let_all_go(held, events)?;
            Ok(next)
        } else {
            come_home(events, &self.routes, held)?;
            Ok(Held::start())
        }
    }

    /// Adds the events from the origin home, if a route begins there.
    pub fn go_home(&self, events: &mut Vec<Event>) -> Result<bool, AllocError>
        requires { IsExplored self.now }
        ensures { IfOk result (λ found. (found ≡ true → GoesHome (alone (map_of_explored self.now))
            (origin_in self.now) (reverse events.old.items) (reverse events.new.items))
            × (found ≡ false → HasRoute self.now.routes.entries (origin_in self.now) → ⊥)) }
    {
        if has_route(&self.routes, &self.origin) {
            come_home(events, &self.routes, &self.origin)?;
            Ok(true)
        } else {
            Ok(false)
        }
    }
}
