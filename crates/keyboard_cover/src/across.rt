//! Trials of one key that is pressed as one cell, and repeated and released as others.
use crate::cases::What;
use crate::drafts::Drafts;
use crate::kind::Kind;
use crate::making::make;
use crate::plan::Plan;
use crate::run::{Run, Stop};
use keymap_core::{Cell, KEY_COUNT, KeyCode, key_with};
use std::alloc::AllocError;

/// A cell that a key looks up, and at which spot.
#[derive(Clone, Copy, Debug)]
struct LookAt {
    cell: Cell,
    place: usize,
}

/// What the cells of a trial do, and whether the last is the first once more.
#[derive(Clone, Copy, Debug, PartialEq, Eq)]
struct Tried {
    first: Kind,
    second: Kind,
    third: Option<Kind>,
    is_back: bool,
}

/// Whether the cell is among these.
fn has_cell(looks: &[LookAt], cell: &Cell) -> bool {
    for look in looks {
        if look.cell == *cell {
            return true;
        }
    }
    false
}

/// The cells that the key looks up at spots that are near, each at the first one.
fn looks_of(plan: &Plan, key: KeyCode) -> Result<Vec<LookAt>, AllocError> {
    let mut looks = Vec::new(plan.alloc);
    let mut place: usize = 0;
    for run in &plan.near {
        let cell = run.look(key);
        if !run.is_down(key) && run.may_press(key) && !has_cell(&looks, &cell) {
            looks.push(LookAt { cell, place })?;
        }
        place = place.wrapping_add(1);
    }
    Ok(looks)
}

/// Goes to each spot, presses the key there, and leaves while it is pressed; it is released at the last spot or behind
/// it.
fn cross<'m>(
    plan: &Plan<'m>,
    run: &mut Run<'m>,
    key: KeyCode,
    looks: &[LookAt],
    is_released_there: bool,
) -> Result<(), Stop> {
    let mut left = looks.len();
    for look in looks {
        left = left.wrapping_sub(1);
        plan.go_to(run, look.place)?;
        run.press(key)?;
        if left == 0 && is_released_there {
            run.up(key)?;
            plan.show(run)?;
        }
        plan.leave(run, look.place, Some(key))?;
        if left == 0 || is_released_there {
            plan.show(run)?;
        }
    }
    run.up(key)?;
    plan.show(run)
}

/// The key across the cells, released as the last one, and behind it.
fn across<'m>(plan: &Plan<'m>, key: KeyCode, looks: &[LookAt]) -> Result<Run<'m>, Stop> {
    let mut run = plan.fresh();
    cross(plan, &mut run, key, looks, true)?;
    cross(plan, &mut run, key, looks, false)?;
    Ok(run)
}

/// What was tried before.
#[derive(Drop)]
struct Before {
    tried: Vec<Tried>,
}

impl Before {
    fn has(&self, tried: &Tried) -> bool {
        self.tried.contains(tried)
    }
}

/// Tries the key across the cells, unless cells that do the same were tried before.
fn add_one<'m>(
    drafts: &mut Drafts,
    plan: &Plan<'m>,
    before: &mut Before,
    key: KeyCode,
    looks: &[LookAt],
) -> Result<(), AllocError> {
    let (Some(one), Some(other)) = (looks.get(0), looks.get(1)) else {
        return Ok(());
    };
    let third = looks.get(2);
    let tried = Tried {
        first: Kind::of(plan.map, &one.cell),
        second: Kind::of(plan.map, &other.cell),
        third: third.map(|it| Kind::of(plan.map, &it.cell)),
        is_back: third.map(|it| it.cell == one.cell) == Some(true),
    };
    if before.has(&tried) {
        return Ok(());
    }
    let what = What::Across(key, tried.first, tried.second, tried.third);
    if make(drafts, plan, what, across(plan, key, looks))? {
        before.tried.push(tried)?;
    }
    Ok(())
}

/// Whether two cells are worth a trial: not two characters, or two nops.
fn differ(plan: &Plan, one: &LookAt, other: &LookAt) -> bool {
    let kind = Kind::of(plan.map, &one.cell);
    one.cell != other.cell
        && (kind != Kind::of(plan.map, &other.cell)
            || (kind != Kind::Character && kind != Kind::Nothing))
}

/// Whether the key is tried over a third cell: an action, a character or nop, and an action again.
fn is_third(plan: &Plan, one: &LookAt, other: &LookAt, third: &LookAt) -> bool {
    let acts = |look: &LookAt| {
        let kind = Kind::of(plan.map, &look.cell);
        kind != Kind::Character && kind != Kind::Nothing
    };
    third.cell != other.cell && acts(one) && !acts(other) && acts(third)
}

/// Tries the key across the two cells, and a third one.
fn add_two<'m>(
    drafts: &mut Drafts,
    plan: &Plan<'m>,
    before: &mut Before,
    key: KeyCode,
    looks: &[LookAt],
    one: LookAt,
    other: LookAt,
) -> Result<(), AllocError> {
    if !differ(plan, &one, &other) {
        return Ok(());
    }
    add_one(drafts, plan, before, key, &[one, other])?;
    for third in looks {
        if is_third(plan, &one, &other, third) {
            add_one(drafts, plan, before, key, &[one, other, *third])?;
        }
    }
    Ok(())
}

/// Tries the key across each two of its cells.
fn add_key<'m>(
    drafts: &mut Drafts,
    plan: &Plan<'m>,
    before: &mut Before,
    key: KeyCode,
) -> Result<(), AllocError> {
    let looks = looks_of(plan, key)?;
    for one in &looks {
        for other in &looks {
            add_two(drafts, plan, before, key, &looks, *one, *other)?;
        }
    }
    Ok(())
}

/// Tries each key across its cells.
pub(crate) fn add_across<'m>(drafts: &mut Drafts, plan: &Plan<'m>) -> Result<(), AllocError> {
    let mut before = Before {
        tried: Vec::new(plan.alloc),
    };
    for code in 0..KEY_COUNT as u8 {
        add_key(drafts, plan, &mut before, key_with(code))?;
    }
    Ok(())
}
