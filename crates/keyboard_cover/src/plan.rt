//! The cases so far, and what each is made with.
use crate::kind::KeyTable;
use crate::probes::{Probe, probes_of, tap_probe};
use crate::run::{Run, Stop};
use crate::spots::{Spot, go, holding_of, holdings, let_go, spots_of, tap};
use console_core::Translator;
use console_states::Presses;
use keymap_core::{Cell, Holding, KEY_COUNT, KeyCode, KeyMap, Keymap, LOCKS, Lock, key_with};
use std::alloc::Global;

/// How often a run may try to come to rest.
const REST_LIMIT: usize = 8;

/// How many steps lead to a spot that is near.
const NEAR: usize = 3;

/// Whether it was done; it wasn't where a press was refused.
pub(crate) fn attempt(done: Result<(), Stop>) -> Result<bool, Stop> {
    match done {
        Ok(()) => Ok(true),
        Err(Stop::Refused) => Ok(false),
        Err(Stop::Memory) => Err(Stop::Memory),
    }
}

/// A key that isn't pressed, may be, and looks up the cell.
pub(crate) fn key_looking(run: &Run, cell: &Cell) -> Option<KeyCode> {
    for code in 0..KEY_COUNT as u8 {
        let key = key_with(code);
        if !run.is_down(key) && run.may_press(key) && run.look(key) == *cell {
            return Some(key);
        }
    }
    None
}

/// What cases are made with: what is on at which spots, what is known of keys, and the probes.
#[derive(Drop)]
pub(crate) struct Plan<'m> {
    pub alloc: Global,
    pub map: &'m KeyMap,
    pub presses: Presses,
    pub keys: KeyTable,
    pub spots: Vec<Spot>,
    /// For each spot that is near the run to there.
    pub near: Vec<Run<'m>>,
    pub probes: Vec<Probe>,
}

impl<'m> Plan<'m> {
    /// A run from rest.
    pub fn fresh(&self) -> Run<'m> {
        Run::new(self.alloc, self.map, self.presses)
    }

    /// A key that isn't risky, isn't pressed, and looks up a character; one that the accent composes, if one is told.
    pub fn character_key(&self, run: &Run, accent: Option<u8>) -> Option<KeyCode> {
        for code in 0..KEY_COUNT as u8 {
            let key = key_with(code);
            if self.keys.is_risky(key) || run.is_down(key) || !run.may_press(key) {
                continue;
            }
            if let Cell::Char(c) = run.look(key) {
                let is_wanted = match accent {
                    Some(accent) => self.map.composed(accent, c).is_some(),
                    None => true,
                };
                if is_wanted {
                    return Some(key);
                }
            }
        }
        None
    }

    /// Taps each probe that changes nothing.
    pub fn probe(&self, run: &mut Run<'m>) -> Result<(), Stop> {
        if run.console().pending().is_some() {
            return Ok(());
        }
        for probe in &self.probes {
            let mut copy = run.copied()?;
            match tap_probe(&mut copy, probe) {
                Ok(_) => {
                    if holdings(&copy) == holdings(run) {
                        *run = copy;
                    }
                }
                Err(Stop::Refused) => {}
                Err(Stop::Memory) => return Err(Stop::Memory),
            }
        }
        Ok(())
    }

    /// Types what tells how the console stands: a base behind a dead key, or the probes.
    pub fn show(&self, run: &mut Run<'m>) -> Result<(), Stop> {
        let Some(accent) = run.console().pending() else {
            return self.probe(run);
        };
        let key = match self.character_key(run, Some(accent)) {
            Some(key) => Some(key),
            None => self.character_key(run, None),
        };
        if let Some(key) = key {
            tap(run, key)?;
        }
        Ok(())
    }

    /// Turns the lock by a key that looks it up, while the key holds a modifier if one is told. Answers whether that
    /// was done.
    fn turn_with(
        &self,
        run: &mut Run<'m>,
        lock: Lock,
        hold: Option<KeyCode>,
    ) -> Result<bool, Stop> {
        let mut copy = run.copied()?;
        if let Some(key) = hold {
            copy.press(key)?;
        }
        let Some(key) = key_looking(&copy, &Cell::Act(Holding::Lock(lock).action())) else {
            return Ok(false);
        };
        tap(&mut copy, key)?;
        if let Some(key) = hold {
            copy.up(key)?;
        }
        *run = copy;
        Ok(true)
    }

    /// Turns the lock, while a key holds a modifier if need be. Answers whether that was done.
    pub fn turn(&self, run: &mut Run<'m>, lock: Lock) -> Result<bool, Stop> {
        if self.turn_with(run, lock, None)? {
            return Ok(true);
        }
        for code in 0..KEY_COUNT as u8 {
            let key = key_with(code);
            if let Some(Holding::Mod(_)) = holding_of(&run.look(key)) {
                if run.may_press(key)
                    && !run.is_down(key)
                    && self.turn_with(run, lock, Some(key))?
                {
                    return Ok(true);
                }
            }
        }
        Ok(false)
    }

    /// Turns the locks off that are on.
    pub fn turn_off(&self, run: &mut Run<'m>) -> Result<(), Stop> {
        for lock in LOCKS {
            if run.console().locked(lock) && !self.turn(run, lock)? {
                return Err(Stop::Refused);
            }
        }
        Ok(())
    }

    /// Goes a step towards rest, where no key is pressed: types what composes, or turns a lock.
    fn calm(&self, run: &mut Run<'m>) -> Result<(), Stop> {
        if run.console().pending().is_some() {
            let Some(key) = self.character_key(run, None) else {
                return Err(Stop::Refused);
            };
            return tap(run, key);
        }
        for lock in LOCKS {
            if run.console().locked(lock) || run.console().is_down(lock) {
                self.turn(run, lock)?;
                return Ok(());
            }
        }
        Err(Stop::Refused)
    }

    /// Comes to rest.
    pub fn settle(&self, run: &mut Run<'m>) -> Result<(), Stop> {
        let_go(run, None)?;
        for _ in 0..REST_LIMIT {
            if run.is_at_rest() {
                return Ok(());
            }
            self.calm(run)?;
        }
        Ok(())
    }

    /// The first spot that leads to a key with the cell, and that key.
    pub fn reach(&self, cell: &Cell) -> Option<(usize, KeyCode)> {
        for place in 0..self.near.len() {
            if let Some(run) = self.near.get(place) {
                if let Some(key) = key_looking(run, cell) {
                    return Some((place, key));
                }
            }
        }
        None
    }

    /// Goes to the spot.
    pub fn go_to(&self, run: &mut Run<'m>, place: usize) -> Result<(), Stop> {
        match self.spots.get(place) {
            Some(spot) => go(run, &spot.steps),
            None => Err(Stop::Refused),
        }
    }

    /// Leaves the spot, while the key stays pressed if it is.
    pub fn leave(&self, run: &mut Run<'m>, place: usize, but: Option<KeyCode>) -> Result<(), Stop> {
        match self.spots.get(place) {
            Some(spot) => crate::spots::leave(run, &spot.steps, but),
            None => Err(Stop::Refused),
        }
    }
}

/// What cases are made with, for a keymap.
pub(crate) fn plan_for<'m>(
    alloc: Global,
    map: &'m KeyMap,
    presses: Presses,
) -> Result<Plan<'m>, Stop> {
    let keys = KeyTable::of(map, &presses);
    let spots = spots_of(alloc, map, presses)?;
    let start = Run::new(alloc, map, presses);
    let probes = probes_of(&start, &spots, &keys)?;
    let mut near = Vec::new(alloc);
    for spot in &spots {
        if spot.steps.len() > NEAR {
            break;
        }
        let mut run = start.copied()?;
        go(&mut run, &spot.steps)?;
        near.push(run)?;
    }
    Ok(Plan {
        alloc,
        map,
        presses,
        keys,
        spots,
        near,
        probes,
    })
}
