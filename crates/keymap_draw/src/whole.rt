//! The whole picture.
ghost use Rattle.std.specs.Prelude.{◌≡◌, ◌++◌, ◌≤◌, ◌<◌, ◌^◌, IfOk, All, length};
ghost use Rattle.keymap_core.specs.Numbers.{accent_limit};
ghost use Rattle.keymap_draw.specs.WellFormed.{Tells};
ghost use Rattle.keymap_draw.specs.Pictures as spec;

use crate::change::Before;
use crate::changes::{changed_rows, changes_height, push_changes, push_style};
use crate::drawing::Drawing;
use crate::half::{BOARD_HEIGHT, Half, other_keys, others_height, push_board, push_other_keys};
use crate::lists::{
    accents_height, findings_height, named_accents, push_accents, push_findings, push_silent,
    silent_accents, silent_height,
};
use crate::markup::Added;
use crate::name::name_of;
use crate::sheet::{InPicture, Sheet, begin, finish};
use crate::shown::Shown;
use arrayvec::ArrayVec;
use keyboard::Board;
use keymap_check::Report;
use keymap_core::{KEY_COUNT, KeyMap};
use std::alloc::{AllocError, Global};

/// More lines and rows of what changed than there ever are: of above so many there is no picture.
const MOST: usize = 100_000;

/// How many there are of what is listed.
#[derive(Clone, Copy)]
struct Counts {
    rows: usize,
    lower: usize,
    upper: usize,
    named: usize,
    silent: usize,
}

/// Where the parts of the picture begin: the keys that the lower board doesn't have, the upper half, the findings, the
/// accents, the dead keys without one, and the key to the colours.
#[derive(Clone, Copy)]
struct Starts {
    others: u32,
    upper: u32,
    findings: u32,
    accents: u32,
    silent: u32,
    key: u32,
}

/// How high the upper half is, if it is drawn.
fn upper_height(drawing: &Drawing, others: usize) -> u32
    requires { others ≤ 128 }
    ensures value { result ≡ spec.upper_height drawing.now others }
    ensures low { result ≤ 890 }
{
    if drawing.is_upper_live() {
        BOARD_HEIGHT + others_height(others)
    } else {
        0
    }
}

/// Where the parts begin.
fn starts_of(drawing: &Drawing, counts: Counts) -> Starts
    requires rows { counts.rows < 2 ^ 20 }
    requires lower { counts.lower ≤ 128 }
    requires upper { counts.upper ≤ 128 }
    requires named { counts.named ≤ 15 }
    ensures value { result ≡ spec.starts_of drawing.now (record {
      rows = counts.rows;
      lower = counts.lower;
      upper = counts.upper;
      named = counts.named;
      silent = counts.silent;
    }) }
    ensures others { result.others < 2 ^ 26 }
    ensures low { result.upper < 2 ^ 26 }
    ensures findings { result.findings < 2 ^ 26 }
    ensures accents { result.accents < 2 ^ 26 }
    ensures silent { result.silent < 2 ^ 26 }
    ensures key { result.key < 2 ^ 26 }
{
    let others = 16 + BOARD_HEIGHT + changes_height(drawing, counts.rows);
    let upper = others + others_height(counts.lower);
    let findings = upper + upper_height(drawing, counts.upper);
    let accents = findings + findings_height(drawing.findings().len());
    let silent = accents + accents_height(counts.named);
    Starts {
        others,
        upper,
        findings,
        accents,
        silent,
        key: silent + silent_height(counts.silent) + 16,
    }
}

/// Adds the drawing of the upper half, if it is live.
#[tactic(auto, unfolding(crate::specs::Pictures::upper))]
fn push_upper(
    sheet: Sheet<InPicture>,
    drawing: &Drawing,
    keys: &[u8],
    y: u32,
) -> Added<Sheet<InPicture>>
    requires low { y < 2 ^ 26 }
    requires few { length keys.now ≤ 128 }
    ensures { IfOk result (λ s. s ≡ sheet ++ spec.upper drawing.now keys.now y) }
{
    if drawing.is_upper_live() {
        let sheet = push_board(sheet, drawing, Half::Upper, y)?;
        push_other_keys(sheet, drawing, Half::Upper, y + BOARD_HEIGHT, keys)
    } else {
        Ok(sheet)
    }
}

/// The keys of the upper half that the board doesn't have, if that half is drawn.
fn upper_keys(drawing: &Drawing) -> ArrayVec<u8, KEY_COUNT>
    ensures keys { result.items ≡ spec.upper_keys drawing.now }
    ensures few { length result.items ≤ 128 }
{
    if drawing.is_upper_live() {
        other_keys(drawing, Half::Upper)
    } else {
        ArrayVec::new()
    }
}

/// What is listed in a picture: the rows of what changed, the keys below the boards of the two halves, the accents, and
/// the dead keys without one.
#[derive(Clone, Copy)]
struct Listed<'a> {
    rows: &'a [Shown],
    lower: &'a [u8],
    upper: &'a [u8],
    named: &'a [u8],
    silent: &'a [u8],
}

/// Adds the lower half with what changed, and the upper one.
fn push_halves(
    sheet: Sheet<InPicture>,
    drawing: &Drawing,
    starts: Starts,
    listed: Listed,
) -> Added<Sheet<InPicture>>
    requires others { starts.others < 2 ^ 26 }
    requires upper { starts.upper < 2 ^ 26 }
    requires rows { length listed.rows.now < 2 ^ 20 }
    requires lines { length drawing.now.lines < 2 ^ 32 }
    requires lower { length listed.lower.now ≤ 128 }
    requires above { length listed.upper.now ≤ 128 }
    ensures { IfOk result (λ s. s ≡ sheet ++ spec.halves drawing.now starts listed.entry.rows.now
        listed.entry.lower.now listed.entry.upper.now) }
{
    let sheet = push_board(sheet, drawing, Half::Lower, 16)?;
    let sheet = push_changes(sheet, drawing, listed.rows, 16 + BOARD_HEIGHT)?;
    let sheet = push_other_keys(sheet, drawing, Half::Lower, starts.others, listed.lower)?;
    push_upper(sheet, drawing, listed.upper, starts.upper)
}

/// The picture with what is listed in it, whose parts begin at these places.
fn draw(alloc: Global, drawing: &Drawing, starts: Starts, listed: Listed) -> Added<Vec<u8>>
    requires others { starts.others < 2 ^ 26 }
    requires upper { starts.upper < 2 ^ 26 }
    requires findings { starts.findings < 2 ^ 26 }
    requires accents { starts.accents < 2 ^ 26 }
    requires silent_low { starts.silent < 2 ^ 26 }
    requires key { starts.key < 2 ^ 26 }
    requires rows { length listed.rows.now < 2 ^ 20 }
    requires lines { length drawing.now.lines < 2 ^ 32 }
    requires lower { length listed.lower.now ≤ 128 }
    requires above { length listed.upper.now ≤ 128 }
    requires named { length listed.named.now ≤ 15 }
    requires silent { length listed.silent.now ≤ 15 }
    requires named_known { All (λ i. i < accent_limit) listed.named.now }
    requires silent_known { All (λ i. i < accent_limit) listed.silent.now }
    ensures { IfOk result (λ text. Tells (spec.parts drawing.now starts (record {
      rows = listed.entry.rows.now;
      lower = listed.entry.lower.now;
      upper = listed.entry.upper.now;
      named = listed.entry.named.now;
      silent = listed.entry.silent.now;
    })) text.items) }
{
    let findings = drawing.findings();
    let sheet = begin(alloc, drawing.name(), findings.len(), starts.key + 76)?;
    let sheet = push_style(sheet, drawing)?;
    let sheet = push_halves(sheet, drawing, starts, listed)?;
    let sheet = push_findings(sheet, findings, starts.findings)?;
    let sheet = push_accents(sheet, drawing, listed.named, starts.accents)?;
    let sheet = push_silent(sheet, listed.silent, starts.silent)?;
    finish(sheet, starts.key)
}

/// The picture of what is drawn.
#[tactic(auto, unfolding(crate::specs::Pictures::picture_facts))]
fn picture_of(alloc: Global, drawing: &Drawing) -> Added<Vec<u8>>
    ensures { IfOk result (λ text. spec.IsPicture drawing.now text.items) }
{
    let rows = changed_rows(alloc, drawing)?;
    if drawing.lines().len() > MOST || rows.len() > MOST {
        return Err(AllocError);
    }
    let (lower, upper) = (other_keys(drawing, Half::Lower), upper_keys(drawing));
    let (named, silent) = (named_accents(drawing.map()), silent_accents(drawing));
    let listed = Listed {
        rows: rows.as_slice(),
        lower: lower.as_slice(),
        upper: upper.as_slice(),
        named: named.as_slice(),
        silent: silent.as_slice(),
    };
    let counts = Counts {
        rows: rows.len(),
        lower: lower.len(),
        upper: upper.len(),
        named: named.len(),
        silent: silent.len(),
    };
    draw(alloc, drawing, starts_of(drawing, counts), listed)
}

/// The picture of a keymap on a board, as SVG, with the findings of a report on it. It is headed by a name, in UTF-8,
/// of which 48 characters are shown at most, and by `Console keymap` where that is empty.
pub fn picture<'a>(
    alloc: Global,
    map: &'a KeyMap,
    report: &'a Report,
    board: Board,
    name: &[u8],
) -> Result<Vec<u8>, AllocError>
    ensures { IfOk result (λ text. spec.IsPictureWith map.now report.now.findings board name.now text.items) }
{
    let shown = name_of(alloc, name)?;
    let drawing = Drawing::new(map, report, board, shown.as_slice());
    picture_of(alloc, &drawing)
}

/// The same picture with what changed of a keymap before: keys and accents that differ are marked, and below the board
/// stand the lines that aren't in their titles.
pub fn picture_of_change<'a>(
    alloc: Global,
    map: &'a KeyMap,
    report: &'a Report,
    board: Board,
    name: &[u8],
    before: &Before<'a>,
) -> Result<Vec<u8>, AllocError>
    ensures { IfOk result (λ text. spec.IsPicture (spec.since before.now.map.now before.now.name.now
        before.now.lines.now (spec.drawing_with map.now report.now.findings board name.now)) text.items) }
{
    let (shown, old_name) = (name_of(alloc, name)?, name_of(alloc, before.name)?);
    let drawing = Drawing::new(map, report, board, shown.as_slice());
    let changed = drawing.since(before.map, old_name.as_slice(), before.lines);
    picture_of(alloc, &changed)
}
