//! Cases that see what is left: the pairs of accents, and cells.
use crate::between::{DeadAt, dead_at, tap_dead};
use crate::cases::What;
use crate::drafts::Drafts;
use crate::making::make;
use crate::plan::{Plan, attempt, key_looking};
use crate::run::{Run, Stop};
use crate::spots::{holding_of, holdings, tap};
use console_core::Translator;
use console_states::Sight;
use keymap_core::{ACCENT_LIMIT, Cell, Holding, KEY_COUNT, KeyCode, Keymap, Modifier, key_with};
use keymap_cover::{Seen, selection};
use std::alloc::AllocError;

/// The blank and the bases of the accent that weren't seen.
fn bases_left(plan: &Plan, seen: &Seen, accent: u8) -> Result<Vec<char>, AllocError> {
    let mut left = Vec::new(plan.alloc);
    let Some(defined) = plan.map.accent(accent) else {
        return Ok(left);
    };
    if !seen.has(Sight::Pair {
        accent,
        character: ' ',
    }) {
        left.push(' ')?;
    }
    for pair in defined.pairs() {
        let character = pair.0;
        if !seen.has(Sight::Pair { accent, character }) && !left.contains(&character) {
            left.push(character)?;
        }
    }
    Ok(left)
}

/// The dead key, and the character at the spot.
fn pair_at<'m>(
    plan: &Plan<'m>,
    run: &mut Run<'m>,
    dead: &DeadAt,
    place: usize,
    character: char,
) -> Result<(), Stop> {
    tap_dead(plan, run, dead)?;
    plan.go_to(run, place)?;
    let Some(key) = key_looking(run, &Cell::Char(character)) else {
        return Err(Stop::Refused);
    };
    tap(run, key)?;
    plan.leave(run, place, None)?;
    plan.turn_off(run)
}

/// The first spot that is near, has meta off, and where a key looks up the character.
fn place_of(plan: &Plan, character: char) -> Option<usize> {
    let cell = Cell::Char(character);
    for place in 0..plan.near.len() {
        if let Some(run) = plan.near.get(place) {
            if !run.console().on(Modifier::Meta) && key_looking(run, &cell).is_some() {
                return Some(place);
            }
        }
    }
    None
}

/// The accent with each of the characters that can be typed behind it.
fn pairs<'m>(plan: &Plan<'m>, dead: &DeadAt, characters: &[char]) -> Result<Run<'m>, Stop> {
    let mut run = plan.fresh();
    let mut is_any = false;
    for character in characters {
        let Some(place) = place_of(plan, *character) else {
            continue;
        };
        let mut copy = run.copied()?;
        match pair_at(plan, &mut copy, dead, place, *character) {
            Ok(()) => {
                run = copy;
                is_any = true;
            }
            Err(Stop::Refused) => {}
            Err(Stop::Memory) => return Err(Stop::Memory),
        }
    }
    if is_any { Ok(run) } else { Err(Stop::Refused) }
}

/// The pairs of each accent.
pub(crate) fn add_pairs<'m>(drafts: &mut Drafts, plan: &Plan<'m>) -> Result<(), AllocError> {
    for accent in 0..ACCENT_LIMIT as u8 {
        if let Some(dead) = dead_at(plan, accent) {
            let left = bases_left(plan, &drafts.seen, accent)?;
            make(drafts, plan, What::Pairs(accent), pairs(plan, &dead, &left))?;
        }
    }
    Ok(())
}

/// Whether a press of the key sees a cell or a lock setting that wasn't seen.
fn is_new(plan: &Plan, seen: &Seen, run: &Run, key: KeyCode) -> bool {
    let selection = selection(run.console());
    let slot = selection.slot(key);
    let column = selection.column(plan.map, key);
    !seen.has(Sight::Cell { slot, column })
        || !seen.has(Sight::Locks {
            slot,
            caps: selection.caps,
            num: selection.num,
        })
}

/// Whether the key is one that is looked at in the sweep: risky or not, presses, new, and turning nothing.
fn is_swept(plan: &Plan, seen: &Seen, run: &Run, key: KeyCode, is_risky: bool) -> bool {
    plan.keys.is_risky(key) == is_risky
        && !run.is_down(key)
        && run.may_press(key)
        && holding_of(&run.look(key)).is_none()
        && is_new(plan, seen, run, key)
}

/// The cells of the keys at the spot, and what a dead key composes behind it.
fn cells<'m>(plan: &Plan<'m>, seen: &Seen, place: usize, is_risky: bool) -> Result<Run<'m>, Stop> {
    let mut run = plan.fresh();
    plan.go_to(&mut run, place)?;
    let mut is_any = false;
    for code in 0..KEY_COUNT as u8 {
        let key = key_with(code);
        if is_swept(plan, seen, &run, key, is_risky) {
            tap(&mut run, key)?;
            is_any = true;
            if run.console().pending().is_some() {
                plan.show(&mut run)?;
            }
        }
    }
    if is_any { Ok(run) } else { Err(Stop::Refused) }
}

/// A repeat of the key if it is pressed; else a tap, and of a lock another one.
fn turn<'m>(plan: &Plan<'m>, run: &mut Run<'m>, key: KeyCode) -> Result<(), Stop> {
    if run.is_down(key) {
        run.press(key)?;
        return plan.probe(run);
    }
    let is_lock = matches!(holding_of(&run.look(key)), Some(Holding::Lock(_)));
    tap(run, key)?;
    if is_lock {
        tap(run, key)?;
    }
    Ok(())
}

/// The cells of the keys that hold or turn something at the spot, which stays on there.
fn own_cells<'m>(
    plan: &Plan<'m>,
    seen: &Seen,
    place: usize,
    is_risky: bool,
) -> Result<Run<'m>, Stop> {
    let mut run = plan.fresh();
    plan.go_to(&mut run, place)?;
    let mut is_any = false;
    for code in 0..KEY_COUNT as u8 {
        let key = key_with(code);
        let holds = run.is_down(key) || holding_of(&run.look(key)).is_some();
        let is_tried = holds && plan.keys.is_risky(key) == is_risky && run.may_press(key);
        if is_tried && is_new(plan, seen, &run, key) {
            let mut copy = run.copied()?;
            if attempt(turn(plan, &mut copy, key))? && holdings(&copy) == holdings(&run) {
                run = copy;
                is_any = true;
            }
        }
    }
    if is_any { Ok(run) } else { Err(Stop::Refused) }
}

/// What a case of the cells at the spot is about.
fn cells_at(plan: &Plan, place: usize, is_risky: bool) -> What {
    let on = match plan.spots.get(place) {
        Some(spot) => spot.on,
        None => [false; 12],
    };
    if is_risky {
        What::RiskyCells(on)
    } else {
        What::Cells(on)
    }
}

/// The cells at each spot: by the keys no cell of which isn't pressed, or by the others.
pub(crate) fn add_cells<'m>(
    drafts: &mut Drafts,
    plan: &Plan<'m>,
    is_risky: bool,
) -> Result<(), AllocError> {
    for place in 0..plan.spots.len() {
        let made = cells(plan, &drafts.seen, place, is_risky);
        make(drafts, plan, cells_at(plan, place, is_risky), made)?;
        let own = own_cells(plan, &drafts.seen, place, is_risky);
        make(drafts, plan, cells_at(plan, place, is_risky), own)?;
    }
    Ok(())
}
