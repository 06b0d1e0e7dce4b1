//! The modifiers and locks that presses can turn on from rest, and the presses that do.
use crate::run::{Run, Stop};
use console_core::Translator;
use console_states::Presses;
use keymap_core::{Cell, HOLDINGS, Holding, KEY_COUNT, KeyCode, KeyMap, key_with};
use std::alloc::{AllocError, Global};

/// How many spots there are at most.
const SPOT_LIMIT: usize = 1_024;

/// Which modifiers and locks are on, each by its place among the holding actions.
pub type Holdings = [bool; 12];

/// A press on the way to a spot.
#[derive(Clone, Copy, Debug, PartialEq, Eq)]
pub(crate) enum Step {
    /// The key stays down.
    Hold(KeyCode),
    Tap(KeyCode),
}

impl Step {
    pub fn key(self) -> KeyCode {
        match self {
            Step::Hold(key) | Step::Tap(key) => key,
        }
    }
}

/// What is on, and the steps that lead there from rest.
#[derive(Drop)]
pub(crate) struct Spot {
    pub on: Holdings,
    pub steps: Vec<Step>,
}

impl Spot {
    /// Whether it is reached by holding keys alone.
    pub fn is_held(&self) -> bool {
        for step in &self.steps {
            if let Step::Tap(_) = step {
                return false;
            }
        }
        true
    }
}

/// The modifier or lock that the cell is.
pub(crate) fn holding_of(cell: &Cell) -> Option<Holding> {
    match cell {
        Cell::Act(action) => action.holding(),
        Cell::Char(_) => None,
    }
}

/// The modifiers and locks that are on.
pub(crate) fn holdings(run: &Run) -> Holdings {
    let mut on = [false; 12];
    for holding in HOLDINGS {
        on[holding.index()] = is_on(run, holding);
    }
    on
}

/// Whether the modifier or lock is on.
pub(crate) fn is_on(run: &Run, holding: Holding) -> bool {
    match holding {
        Holding::Mod(modifier) => run.console().on(modifier),
        Holding::Lock(lock) => run.console().locked(lock),
    }
}

/// Presses the key and releases it.
pub(crate) fn tap(run: &mut Run, key: KeyCode) -> Result<(), Stop> {
    run.press(key)?;
    run.up(key)?;
    Ok(())
}

/// Makes the step.
fn go_step(run: &mut Run, step: &Step) -> Result<(), Stop> {
    match step {
        Step::Hold(key) => run.press(*key),
        Step::Tap(key) => tap(run, *key),
    }
}

/// Makes the steps.
pub(crate) fn go(run: &mut Run, steps: &[Step]) -> Result<(), Stop> {
    for step in steps {
        go_step(run, step)?;
    }
    Ok(())
}

/// Releases all keys but this one; key 104 first, for which the others wait.
pub(crate) fn let_go(run: &mut Run, but: Option<KeyCode>) -> Result<(), AllocError> {
    let first = key_with(104);
    if Some(first) != but {
        run.up(first)?;
    }
    for code in 0..KEY_COUNT as u8 {
        let key = key_with(code);
        if Some(key) != but {
            run.up(key)?;
        }
    }
    Ok(())
}

/// Releases all keys but this one, and turns off again the locks that the steps turned on.
pub(crate) fn leave(run: &mut Run, steps: &[Step], but: Option<KeyCode>) -> Result<(), Stop> {
    let_go(run, but)?;
    for step in steps {
        if let Step::Tap(key) = *step {
            if let Some(Holding::Lock(lock)) = holding_of(&run.look(key)) {
                if Some(key) != but && run.console().locked(lock) {
                    tap(run, key)?;
                }
            }
        }
    }
    Ok(())
}

/// Whether some spot has these on.
fn is_known(spots: &[Spot], on: &Holdings) -> bool {
    for spot in spots {
        if spot.on == *on {
            return true;
        }
    }
    false
}

/// The step by which a press of the key turns something on that is off.
fn step_of(run: &Run, key: KeyCode) -> Option<Step> {
    if run.is_down(key) || !run.may_press(key) {
        return None;
    }
    let holding = holding_of(&run.look(key))?;
    if is_on(run, holding) {
        return None;
    }
    match holding {
        Holding::Mod(_) => Some(Step::Hold(key)),
        Holding::Lock(_) => Some(Step::Tap(key)),
    }
}

/// The steps, and one more.
fn with_step(alloc: Global, steps: &[Step], step: &Step) -> Result<Vec<Step>, AllocError> {
    let mut all = Vec::new(alloc);
    all.extend_from_slice(steps)?;
    all.push(*step)?;
    Ok(all)
}

/// Adds the spots that one press more leads to from the place.
fn add_next(spots: &mut Vec<Spot>, run: &Run, place: usize) -> Result<(), Stop> {
    for code in 0..KEY_COUNT as u8 {
        let Some(step) = step_of(run, key_with(code)) else {
            continue;
        };
        let mut next = run.copied()?;
        go_step(&mut next, &step)?;
        let on = holdings(&next);
        if spots.len() < SPOT_LIMIT && !is_known(spots, &on) {
            let Some(spot) = spots.get(place) else {
                continue;
            };
            let steps = with_step(run.alloc(), &spot.steps, &step)?;
            spots.push(Spot { on, steps })?;
        }
    }
    Ok(())
}

/// The spots, by the fewest presses; the first is rest itself.
pub(crate) fn spots_of(alloc: Global, map: &KeyMap, presses: Presses) -> Result<Vec<Spot>, Stop> {
    let mut spots = Vec::new(alloc);
    spots.push(Spot {
        on: [false; 12],
        steps: Vec::new(alloc),
    })?;
    for place in 0..SPOT_LIMIT {
        let mut run = Run::new(alloc, map, presses);
        match spots.get(place) {
            Some(spot) => go(&mut run, &spot.steps)?,
            None => break,
        }
        add_next(&mut spots, &run, place)?;
    }
    Ok(spots)
}
