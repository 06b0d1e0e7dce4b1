//! Trials of keys that hold: alone, together, many at once; repeats of characters, and the scroll lock.
use crate::cases::What;
use crate::drafts::Drafts;
use crate::making::make;
use crate::plan::Plan;
use crate::run::{Run, Stop};
use crate::spots::{holding_of, let_go, tap};
use console_core::Translator;
use keymap_core::{Cell, HOLDINGS, Holding, KEY_COUNT, KeyCode, Lock, Modifier, key_with};
use std::alloc::AllocError;

/// How many keys are pressed at once, and how many repeat.
const MANY: usize = 9;

const REPEATS: usize = 3;

/// The cell that is the modifier or lock.
fn cell(holding: Holding) -> Cell {
    Cell::Act(holding.action())
}

/// Presses the key once more, unless it is one that isn't repeated.
fn repeat(run: &mut Run, key: KeyCode) -> Result<(), Stop> {
    if run.may_press(key) {
        run.press(key)?;
    }
    Ok(())
}

/// The key pressed, released, pressed and repeated.
fn alone<'m>(plan: &Plan<'m>, holding: Holding) -> Result<Run<'m>, Stop> {
    let Some((place, key)) = plan.reach(&cell(holding)) else {
        return Err(Stop::Refused);
    };
    let mut run = plan.fresh();
    plan.go_to(&mut run, place)?;
    run.press(key)?;
    plan.probe(&mut run)?;
    run.up(key)?;
    plan.probe(&mut run)?;
    run.press(key)?;
    repeat(&mut run, key)?;
    plan.probe(&mut run)?;
    run.up(key)?;
    plan.probe(&mut run)?;
    Ok(run)
}

/// The two keys pressed at once, and released and pressed again in each order.
fn together<'m>(plan: &Plan<'m>, first: KeyCode, second: KeyCode) -> Result<Run<'m>, Stop> {
    let mut run = plan.fresh();
    run.press(first)?;
    plan.probe(&mut run)?;
    run.press(second)?;
    plan.probe(&mut run)?;
    run.up(second)?;
    plan.probe(&mut run)?;
    run.press(second)?;
    run.up(first)?;
    plan.probe(&mut run)?;
    run.press(first)?;
    plan.probe(&mut run)?;
    run.up(second)?;
    run.up(first)?;
    plan.probe(&mut run)?;
    Ok(run)
}

/// Whether the two are tried together: two keys of one, left and right, or a lock with another.
fn are_tried(one: Holding, other: Holding) -> bool {
    match (one, other) {
        (Holding::Mod(Modifier::LeftShift), Holding::Mod(Modifier::RightShift))
        | (Holding::Mod(Modifier::LeftControl), Holding::Mod(Modifier::RightControl))
        | (Holding::Mod(Modifier::LeftAlt), Holding::Mod(Modifier::RightAlt)) => true,
        (Holding::Mod(_), Holding::Mod(_)) => one == other,
        _ => true,
    }
}

/// The first key but this one that looks up the modifier or lock at rest.
fn key_but(run: &Run, holding: Holding, but: Option<KeyCode>) -> Option<KeyCode> {
    for code in 0..KEY_COUNT as u8 {
        let key = key_with(code);
        if Some(key) != but && run.may_press(key) && run.look(key) == cell(holding) {
            return Some(key);
        }
    }
    None
}

/// Tries the two together, and two locks in both orders.
fn add_together<'m>(
    drafts: &mut Drafts,
    plan: &Plan<'m>,
    one: Holding,
    other: Holding,
) -> Result<(), AllocError> {
    let rest = plan.fresh();
    let Some(first) = key_but(&rest, one, None) else {
        return Ok(());
    };
    let Some(second) = key_but(&rest, other, Some(first)) else {
        return Ok(());
    };
    make(
        drafts,
        plan,
        What::Together(one, other),
        together(plan, first, second),
    )?;
    if let (Holding::Lock(_), Holding::Lock(_)) = (one, other) {
        if one != other {
            make(
                drafts,
                plan,
                What::Together(other, one),
                together(plan, second, first),
            )?;
        }
    }
    Ok(())
}

/// Whether a press of the key turns on what is off, and of which kind that is.
fn adds(run: &Run, key: KeyCode, is_lock: bool) -> bool {
    if run.is_down(key) || !run.may_press(key) || key.get() == 104 {
        return false;
    }
    match holding_of(&run.look(key)) {
        Some(Holding::Lock(lock)) => {
            is_lock && !run.console().locked(lock) && !run.console().is_down(lock)
        }
        Some(Holding::Mod(modifier)) => !is_lock && !run.console().on(modifier),
        None => false,
    }
}

/// Presses keys that hold, locks or modifiers, until so many are pressed. Answers how many are.
fn press_many(run: &mut Run, pressed: &mut Vec<KeyCode>, is_lock: bool) -> Result<(), Stop> {
    for code in 0..KEY_COUNT as u8 {
        let key = key_with(code);
        if pressed.len() < MANY && adds(run, key, is_lock) {
            run.press(key)?;
            pressed.push(key)?;
        }
    }
    Ok(())
}

/// Many keys that hold are pressed at once, and released one by one.
fn many<'m>(plan: &Plan<'m>) -> Result<Run<'m>, Stop> {
    let mut run = plan.fresh();
    let mut pressed = Vec::new(plan.alloc);
    press_many(&mut run, &mut pressed, true)?;
    press_many(&mut run, &mut pressed, false)?;
    plan.probe(&mut run)?;
    for key in &pressed {
        run.up(*key)?;
        plan.probe(&mut run)?;
    }
    Ok(run)
}

/// Characters repeated.
fn repeats<'m>(plan: &Plan<'m>) -> Result<Run<'m>, Stop> {
    let mut run = plan.fresh();
    let mut count: usize = 0;
    for code in 0..KEY_COUNT as u8 {
        let key = key_with(code);
        let is_plain = !plan.keys.is_risky(key) && run.may_press(key) && count < REPEATS;
        if is_plain && matches!(run.look(key), Cell::Char(_)) {
            run.press(key)?;
            run.press(key)?;
            run.press(key)?;
            run.up(key)?;
            count = count.wrapping_add(1);
        }
    }
    Ok(run)
}

/// What characters are while the scroll lock is on.
fn scroll_lock<'m>(plan: &Plan<'m>) -> Result<Run<'m>, Stop> {
    let Some((place, key)) = plan.reach(&cell(Holding::Lock(Lock::Scroll))) else {
        return Err(Stop::Refused);
    };
    let mut run = plan.fresh();
    plan.go_to(&mut run, place)?;
    tap(&mut run, key)?;
    let_go(&mut run, None)?;
    plan.probe(&mut run)?;
    Ok(run)
}

/// The trials of keys that hold, one by one and by two.
pub(crate) fn add_trials<'m>(drafts: &mut Drafts, plan: &Plan<'m>) -> Result<(), AllocError> {
    for holding in HOLDINGS {
        make(drafts, plan, What::Alone(holding), alone(plan, holding))?;
    }
    for one in HOLDINGS {
        for other in HOLDINGS {
            if one.index() <= other.index() && are_tried(one, other) {
                add_together(drafts, plan, one, other)?;
            }
        }
    }
    Ok(())
}

/// Many keys at once, repeats of characters, and the scroll lock.
pub(crate) fn add_more<'m>(drafts: &mut Drafts, plan: &Plan<'m>) -> Result<(), AllocError> {
    make(drafts, plan, What::Many, many(plan))?;
    make(drafts, plan, What::Repeats, repeats(plan))?;
    make(drafts, plan, What::ScrollLock, scroll_lock(plan))?;
    Ok(())
}
