//! The drawing of one half of the slots: its headline, its board, and the keys that the board doesn't have.
ghost use Rattle.std.specs.Prelude.{◌≡◌, ◌++◌, ◌∷◌, [], ◌≤◌, ◌<◌, ◌^◌, IfOk, length};
ghost use Rattle.std.specs.List.{flat_map};
ghost use Rattle.keymap_core.specs.Numbers.{key_count};
ghost use Rattle.keymap_draw.specs.Boards.{laid};
ghost use Rattle.keymap_draw.specs.Facts.{numbered};
ghost use Rattle.keymap_draw.specs.Halves as spec;

use crate::board::{RUNS, Run, Shape, has_run};
use crate::drawing::Drawing;
use crate::key::{Cap, is_blank_entry, push_key};
use crate::marks::mark_of;
use crate::markup::Added;
use crate::sheet::Content::{Characters, Number, Plain};
use crate::sheet::{InPicture, Sheet, tell};
use crate::words::{
    IS_ACCEPTED, KEY_CODE, KEYMAP, LOWER_HALF, MORE_FINDINGS, ONE_FINDING, OTHER_KEYS, PANEL,
    SAMPLE, SLOT, UPPER_HALF,
};
use arrayvec::ArrayVec;
use keyboard::is_on;
use keymap_core::{KEY_COUNT, key_with, push_if};

/// A half of the slots: 0 to 127, or 128 to 255.
#[derive(Clone, Copy)]
pub(crate) enum Half {
    Lower,
    Upper,
}

impl Half {
    ghost use Rattle.keymap_draw.specs.Halves.{slot_of};

    /// The slot of a key.
    pub(crate) fn slot(self, key: u8) -> u8
        ensures { result ≡ slot_of self key }
    {
        match self {
            Half::Lower => key,
            Half::Upper => key % KEY_COUNT as u8 + KEY_COUNT as u8,
        }
    }
}

/// Adds the keys of a run side by side, up to a code 0.
fn push_keys(
    sheet: Sheet<InPicture>,
    drawing: &Drawing,
    half: Half,
    y: u32,
    run: &Run,
) -> Added<Sheet<InPicture>>
    requires { y < 2 ^ 27 }
    ensures { IfOk result (λ s. s ≡ sheet ++ flat_map (spec.board_key drawing.now half y)
        (laid run.now.x run.now.y run.now.shape run.now.codes)) }
{
    let mut sheet = sheet;
    let mut x = u32::from(run.x);
    for code in &run.codes {
        if *code == 0 {
            break;
        }
        let cap = Cap {
            x: 28 + x,
            y: y + 12 + u32::from(run.y),
            shape: run.shape,
        };
        sheet = push_key(sheet, drawing, half.slot(*code), cap)?;
        x += run.shape.width();
    }
    Ok(sheet)
}

/// Adds the keys of a run, if the board has them.
fn push_run(
    sheet: Sheet<InPicture>,
    drawing: &Drawing,
    half: Half,
    y: u32,
    run: &Run,
) -> Added<Sheet<InPicture>>
    requires { y < 2 ^ 27 }
    ensures { IfOk result (λ s. s ≡ sheet ++ spec.run_keys drawing.now half y run.now) }
{
    if has_run(drawing.board(), run) {
        push_keys(sheet, drawing, half, y, run)
    } else {
        Ok(sheet)
    }
}

fn push_runs(
    sheet: Sheet<InPicture>,
    drawing: &Drawing,
    half: Half,
    y: u32,
    runs: &[Run],
) -> Added<Sheet<InPicture>>
    requires { y < 2 ^ 27 }
    ensures { IfOk result (λ s. s ≡ sheet ++ flat_map (spec.run_keys drawing.now half y) runs.now) }
{
    let mut sheet = sheet;
    for run in runs {
        sheet = push_run(sheet, drawing, half, y, run)?;
    }
    Ok(sheet)
}

/// Whether a slot is worth a key below the board: it isn't blank, or it differs.
fn is_worth_a_key(drawing: &Drawing, slot: u8) -> bool
    ensures { result ≡ spec.is_worth_a_key drawing.now slot }
{
    !is_blank_entry(drawing.map().entry(slot)) || mark_of(drawing, slot).is_some()
}

/// Whether the key isn't on the board and its slot isn't blank, or differs.
#[tactic(auto, unfolding(crate::specs::Halves::is_other))]
fn is_other(drawing: &Drawing, half: Half, key: u8) -> bool
    requires { key < key_count }
    ensures { result ≡ spec.is_other drawing.now half key }
{
    !is_on(drawing.board(), key_with(key)) && is_worth_a_key(drawing, half.slot(key))
}

/// The keys that aren't on the board and whose slots aren't blank, or differ.
#[tactic(auto, using(crate::proofs::Loops::passing_rules), unfolding(crate::specs::Halves::other_keys))]
pub(crate) fn other_keys(drawing: &Drawing, half: Half) -> ArrayVec<u8, KEY_COUNT>
    ensures keys { result.items ≡ spec.other_keys drawing.now half }
    ensures few { length result.items ≤ 128 }
{
    let mut keys = ArrayVec::new();
    for key in 0..KEY_COUNT as u8 {
        push_if(&mut keys, key, is_other(drawing, half, key));
    }
    keys
}

/// Adds the line above so many keys that the board doesn't have, if there are any.
fn push_other_line(sheet: Sheet<InPicture>, y: u32, count: usize) -> Added<Sheet<InPicture>>
    requires low { y < 2 ^ 27 }
    ensures { IfOk result (λ s. s ≡ sheet ++ spec.others_line y count) }
{
    if count == 0 {
        Ok(sheet)
    } else {
        tell(sheet, OTHER_KEYS, &[Number(y + 16)])
    }
}

/// Adds the keys that the board doesn't have, in their rows.
fn push_each_other(
    sheet: Sheet<InPicture>,
    drawing: &Drawing,
    half: Half,
    y: u32,
    keys: &[u8],
) -> Added<Sheet<InPicture>>
    requires low { y < 2 ^ 27 }
    requires few { length keys.now ≤ 128 }
    ensures { IfOk result (λ s. s ≡ sheet ++ numbered (spec.other_key drawing.now half y) 0 keys.now) }
{
    let mut sheet = sheet;
    for i in 0..keys.len() {
        let place = i as u32;
        let cap = Cap {
            x: 28 + place % 22 * 64,
            y: y + 26 + place / 22 * 64,
            shape: Shape::A,
        };
        sheet = push_key(sheet, drawing, half.slot(keys[i]), cap)?;
    }
    Ok(sheet)
}

/// Adds the keys that the board doesn't have, below a line, if there are any.
pub(crate) fn push_other_keys(
    sheet: Sheet<InPicture>,
    drawing: &Drawing,
    half: Half,
    y: u32,
    keys: &[u8],
) -> Added<Sheet<InPicture>>
    requires low { y < 2 ^ 27 }
    requires few { length keys.now ≤ 128 }
    ensures { IfOk result (λ s. s ≡ sheet ++ spec.others drawing.now half y keys.now) }
{
    let sheet = push_other_line(sheet, y, keys.len())?;
    push_each_other(sheet, drawing, half, y, keys)
}

/// How high a board with its headline is.
pub(crate) const BOARD_HEIGHT: u32 = 472;

/// How high so many keys are that a board doesn't have.
pub(crate) fn others_height(others: usize) -> u32
    requires { others ≤ 128 }
    ensures value { result ≡ spec.others_height others }
    ensures low { result ≤ 418 }
{
    if others == 0 {
        0
    } else {
        34 + (others as u32 + 21) / 22 * 64
    }
}

/// Adds whether the keymap is accepted, and how many keys the check names.
fn push_verdict(sheet: Sheet<InPicture>, y: u32, count: u32) -> Added<Sheet<InPicture>>
    ensures { IfOk result (λ s. s ≡ sheet ++ spec.verdict y count ∷ []) }
{
    if count == 0 {
        tell(sheet, IS_ACCEPTED, &[Number(y)])
    } else if count == 1 {
        tell(sheet, ONE_FINDING, &[Number(y)])
    } else {
        tell(sheet, MORE_FINDINGS, &[Number(y), Number(count)])
    }
}

/// Adds the name, and that this is the lower half where both are drawn.
fn push_name(sheet: Sheet<InPicture>, drawing: &Drawing, y: u32) -> Added<Sheet<InPicture>>
    ensures { IfOk result (λ s. s ≡ sheet ++ spec.name drawing.now y) }
{
    if drawing.is_upper_live() {
        tell(sheet, LOWER_HALF, &[Number(y), Characters(drawing.name())])
    } else {
        tell(sheet, KEYMAP, &[Number(y), Characters(drawing.name())])
    }
}

/// Adds the headline of a half.
fn push_headline(
    sheet: Sheet<InPicture>,
    drawing: &Drawing,
    half: Half,
    y: u32,
) -> Added<Sheet<InPicture>>
    ensures { IfOk result (λ s. s ≡ sheet ++ spec.headline drawing.now half y) }
{
    match half {
        Half::Lower => {
            let sheet = push_name(sheet, drawing, y)?;
            push_verdict(sheet, y, drawing.findings().len() as u32)
        }
        Half::Upper => tell(sheet, UPPER_HALF, &[Number(y)]),
    }
}

/// Adds the key that shows where the legends stand, and what the number of a key is.
fn push_sample(sheet: Sheet<InPicture>, half: Half, y: u32) -> Added<Sheet<InPicture>>
    ensures { IfOk result (λ s. s ≡ sheet ++ spec.sample half y) }
{
    match half {
        Half::Lower => tell(sheet, SAMPLE, &[Number(y), Plain(KEY_CODE)]),
        Half::Upper => tell(sheet, SAMPLE, &[Number(y), Plain(SLOT)]),
    }
}

/// Adds the board of a half below its headline, from y on.
#[tactic(auto, unfolding(crate::specs::Halves::board_facts))]
pub(crate) fn push_board(
    sheet: Sheet<InPicture>,
    drawing: &Drawing,
    half: Half,
    y: u32,
) -> Added<Sheet<InPicture>>
    requires { y < 2 ^ 26 }
    ensures { IfOk result (λ s. s ≡ sheet ++ spec.board_facts drawing.now half y) }
{
    let sheet = push_headline(sheet, drawing, half, y + 26)?;
    let sheet = tell(sheet, PANEL, &[Number(y + 40)])?;
    let sheet = push_runs(sheet, drawing, half, y + 40, &RUNS)?;
    push_sample(sheet, half, y + 52)
}
