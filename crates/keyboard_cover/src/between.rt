//! Trials of what comes between a dead key and a base.
use crate::cases::What;
use crate::drafts::Drafts;
use crate::kind::Kind;
use crate::making::make;
use crate::plan::Plan;
use crate::run::{Run, Stop};
use crate::spots::{holding_of, let_go, tap};
use console_core::{Translator, is_usable};
use keymap_core::{ACCENT_LIMIT, AccentIndex, Action, Cell, KEY_COUNT, KeyCode, Keymap, key_with};
use std::alloc::AllocError;

/// Between the dead keys of how many accents and bases there are trials.
const ACCENTS: usize = 2;

/// The dead key of the accent with this index.
pub(crate) fn dead_key(accent: u8) -> Option<Cell> {
    if (accent as usize) < ACCENT_LIMIT {
        Some(Cell::Act(Action::DeadKey(AccentIndex::new(accent))))
    } else {
        None
    }
}

/// An accent, and where its dead key is tapped.
#[derive(Clone, Copy, Debug)]
pub(crate) struct DeadAt {
    pub accent: u8,
    pub place: usize,
    pub key: KeyCode,
}

/// Where the dead key of the accent is tapped, if it is usable and can be.
pub(crate) fn dead_at(plan: &Plan, accent: u8) -> Option<DeadAt> {
    if !is_usable(plan.map, accent) {
        return None;
    }
    let Some(cell) = dead_key(accent) else {
        return None;
    };
    match plan.reach(&cell) {
        Some((place, key)) => Some(DeadAt { accent, place, key }),
        None => None,
    }
}

/// Taps the dead key, and leaves its spot.
pub(crate) fn tap_dead<'m>(plan: &Plan<'m>, run: &mut Run<'m>, dead: &DeadAt) -> Result<(), Stop> {
    plan.go_to(run, dead.place)?;
    tap(run, dead.key)?;
    plan.leave(run, dead.place, None)
}

/// Taps a base of the accent.
pub(crate) fn tap_base<'m>(plan: &Plan<'m>, run: &mut Run<'m>, accent: u8) -> Result<(), Stop> {
    match plan.character_key(run, Some(accent)) {
        Some(key) => tap(run, key),
        None => Err(Stop::Refused),
    }
}

/// The dead key, a press of the key at the spot, which is repeated or not, and a base.
fn compose_over<'m>(
    plan: &Plan<'m>,
    run: &mut Run<'m>,
    dead: &DeadAt,
    place: usize,
    key: KeyCode,
    is_repeated: bool,
) -> Result<(), Stop> {
    tap_dead(plan, run, dead)?;
    plan.go_to(run, place)?;
    run.press(key)?;
    if is_repeated && run.may_press(key) {
        run.press(key)?;
    }
    let_go(run, None)?;
    tap_base(plan, run, dead.accent)?;
    if run.console().pending().is_some() {
        return Err(Stop::Refused);
    }
    plan.turn_off(run)
}

/// That with the key not repeated, and repeated.
fn between<'m>(
    plan: &Plan<'m>,
    dead: &DeadAt,
    place: usize,
    key: KeyCode,
) -> Result<Run<'m>, Stop> {
    let mut run = plan.fresh();
    compose_over(plan, &mut run, dead, place, key, false)?;
    compose_over(plan, &mut run, dead, place, key, true)?;
    Ok(run)
}

/// Whether the cell is tried between: no base, no blank, not the same dead key, no nop of a risky key.
fn is_tried(plan: &Plan, dead: &DeadAt, key: KeyCode, cell: &Cell) -> bool {
    match cell {
        Cell::Char(c) => *c != ' ' && plan.map.composed(dead.accent, *c).is_none(),
        Cell::Act(Action::Nop) => !plan.keys.is_risky(key),
        Cell::Act(_) => dead_key(dead.accent) != Some(*cell),
    }
}

/// Tries what the keys look up at the spot between the dead key and a base, unless that is of a kind that was tried.
fn add_at<'m>(
    drafts: &mut Drafts,
    plan: &Plan<'m>,
    kinds: &mut Vec<Kind>,
    dead: &DeadAt,
    place: usize,
) -> Result<(), AllocError> {
    let mut run = plan.fresh();
    if tap_dead(plan, &mut run, dead).is_err() || plan.go_to(&mut run, place).is_err() {
        return Ok(());
    }
    for code in 0..KEY_COUNT as u8 {
        let key = key_with(code);
        let cell = run.look(key);
        let kind = Kind::of(plan.map, &cell);
        let is_new = !run.is_down(key) && run.may_press(key) && !kinds.contains(&kind);
        if is_new && is_tried(plan, dead, key, &cell) {
            let what = What::Between(dead.accent, kind);
            if make(drafts, plan, what, between(plan, dead, place, key))? {
                kinds.push(kind)?;
            }
        }
    }
    Ok(())
}

/// A key that isn't risky and holds something at rest.
fn holding_key(plan: &Plan, run: &Run) -> Option<KeyCode> {
    for code in 0..KEY_COUNT as u8 {
        let key = key_with(code);
        let is_free = !plan.keys.is_risky(key) && !run.is_down(key) && run.may_press(key);
        if is_free && holding_of(&run.look(key)).is_some() {
            return Some(key);
        }
    }
    None
}

/// The dead key repeated, another key repeated behind it, and a modifier pressed before it and released behind it.
fn repeats<'m>(plan: &Plan<'m>, dead: &DeadAt) -> Result<Run<'m>, Stop> {
    let mut run = plan.fresh();
    plan.go_to(&mut run, dead.place)?;
    run.press(dead.key)?;
    run.press(dead.key)?;
    run.up(dead.key)?;
    plan.leave(&mut run, dead.place, None)?;
    tap_base(plan, &mut run, dead.accent)?;
    if let Some(other) = plan.character_key(&run, None) {
        run.press(other)?;
        plan.go_to(&mut run, dead.place)?;
        tap(&mut run, dead.key)?;
        plan.leave(&mut run, dead.place, Some(other))?;
        run.press(other)?;
        run.up(other)?;
        plan.show(&mut run)?;
    }
    if let Some(key) = holding_key(plan, &run) {
        tap_dead(plan, &mut run, dead)?;
        run.press(key)?;
        run.up(key)?;
        tap_base(plan, &mut run, dead.accent)?;
        plan.turn_off(&mut run)?;
    }
    Ok(run)
}

/// The trials between the dead key and a base.
fn add_accent<'m>(drafts: &mut Drafts, plan: &Plan<'m>, dead: &DeadAt) -> Result<(), AllocError> {
    let mut kinds = Vec::new(plan.alloc);
    for place in 0..plan.near.len() {
        add_at(drafts, plan, &mut kinds, dead, place)?;
    }
    make(
        drafts,
        plan,
        What::BetweenRepeats(dead.accent),
        repeats(plan, dead),
    )?;
    Ok(())
}

/// The trials between dead keys and bases, of the first accents.
pub(crate) fn add_between<'m>(drafts: &mut Drafts, plan: &Plan<'m>) -> Result<(), AllocError> {
    let mut count: usize = 0;
    for accent in 0..ACCENT_LIMIT as u8 {
        if let (true, Some(dead)) = (count < ACCENTS, dead_at(plan, accent)) {
            add_accent(drafts, plan, &dead)?;
            count = count.wrapping_add(1);
        }
    }
    Ok(())
}

/// Nops of the key, which is risky, each between the dead key and a base.
fn nops<'m>(plan: &Plan<'m>, dead: &DeadAt, key: KeyCode) -> Result<Run<'m>, Stop> {
    let mut run = plan.fresh();
    let mut is_any = false;
    let mut place: usize = 0;
    for near in &plan.near {
        if !near.is_down(key) && near.may_press(key) && near.look(key) == Cell::Act(Action::Nop) {
            let mut copy = run.copied()?;
            match compose_over(plan, &mut copy, dead, place, key, false) {
                Ok(()) => {
                    run = copy;
                    is_any = true;
                }
                Err(Stop::Refused) => {}
                Err(Stop::Memory) => return Err(Stop::Memory),
            }
        }
        place = place.wrapping_add(1);
    }
    if is_any { Ok(run) } else { Err(Stop::Refused) }
}

/// The first accent whose dead key can be tapped.
fn first_dead(plan: &Plan) -> Option<DeadAt> {
    for accent in 0..ACCENT_LIMIT as u8 {
        if let Some(dead) = dead_at(plan, accent) {
            return Some(dead);
        }
    }
    None
}

/// Nops of risky keys between a dead key and a base: they tell actions that drop an accent from nop.
pub(crate) fn add_risky_between<'m>(
    drafts: &mut Drafts,
    plan: &Plan<'m>,
) -> Result<(), AllocError> {
    let Some(dead) = first_dead(plan) else {
        return Ok(());
    };
    for code in 0..KEY_COUNT as u8 {
        let key = key_with(code);
        if plan.keys.is_risky(key) {
            let what = What::RiskyBetween(dead.accent, key);
            make(drafts, plan, what, nops(plan, &dead, key))?;
        }
    }
    Ok(())
}
