//! What stands below the board in a picture of a change: how much changed, and the lines that stand in no title.
ghost use Rattle.std.specs.Prelude.{◌≡◌, ◌++◌, ◌∷◌, [], ◌+◌, ◌<◌, ◌^◌, nat_lt, IfOk, IfSome, OnOk, codes, length, position, true};
ghost use Rattle.std.specs.List.{flat_map, list_all};
ghost use Rattle.keymap_draw.specs.Facts.{headline_at, numbered};
ghost use Rattle.keymap_draw.specs.Changes as spec;
ghost use Rattle.keymap_draw.specs.Sheets.{is_inner, is_seen};

use crate::change::{About, ChangeLine};
use crate::drawing::Drawing;
use crate::lists::has_character;
use crate::markup::Added;
use crate::sheet::Content::{Characters, Number, Plain};
use crate::sheet::{InPicture, Sheet, tell};
use crate::shown::Shown;
use crate::words::{
    CHANGE_STYLE, CHANGED, CHANGED_IN, CHANGED_IN_BOTH, LISTED_CHANGE, MARKS, NOTHING,
};
use keymap_core::KEY_COUNT;
use std::alloc::Global;

/// How many places a row has.
const ROW_PLACES: usize = 185;

/// Where the first blank stands.
fn blank_in(characters: &[char]) -> Option<usize>
    ensures place { result ≡ position spec.is_space characters.now }
    ensures bound { IfSome result (λ i. i < length characters.now) }
{
    characters.iter().position(|c| *c == ' ')
}

/// The word in front.
fn word_in(characters: &[char]) -> &[char]
    ensures { result.now ≡ spec.word_in characters.now }
{
    match blank_in(characters) {
        Some(end) => &characters[..end],
        None => characters,
    }
}

/// Whether a blank and so many characters have no room behind so many others.
fn has_no_room(before: usize, wide: usize) -> bool
    ensures { result ≡ nat_lt spec.row_places (before + 1 + wide) }
{
    if before >= ROW_PLACES {
        true
    } else {
        wide > ROW_PLACES - 1 - before
    }
}

/// Whether the first of these characters is a blank that ends its row, behind others.
fn ends_row(before: &[char], first: char, behind: &[char]) -> bool
    ensures { result ≡ spec.ends_row (length before.now) first behind.now }
{
    first == ' ' && has_no_room(before.len(), word_in(behind).len())
}

/// Four blanks.
fn indent(alloc: Global) -> Added<Vec<char>>
    ensures { IfOk result (λ row. row.items ≡ spec.indent) }
{
    Vec::from_slice(alloc, &[' ', ' ', ' ', ' '])
}

/// What the row is with a character, before these: where that ends the row, the row is added, and the next one begins.
fn row_with(
    rows: &mut Vec<Shown>,
    alloc: Global,
    row: Vec<char>,
    c: char,
    behind: &[char],
) -> Added<Vec<char>>
    requires row { list_all is_seen row.items ≡ true }
    requires character { is_seen c ≡ true }
    ensures rows { IfOk result (λ next. rows.new.items ++ spec.rows_behind next.items behind.now
        ≡ rows.old.items ++ spec.rows_behind row.items (c ∷ behind.now)) }
    ensures seen { IfOk result (λ next. list_all is_seen next.items ≡ true) }
{
    if ends_row(row.as_slice(), c, behind) {
        rows.push(Shown::new(row))?;
        let next = indent(alloc)?;
        Ok(next)
    } else {
        let mut longer = row;
        longer.push(c)?;
        Ok(longer)
    }
}

/// Adds the rows of a line.
fn push_rows(rows: &mut Vec<Shown>, alloc: Global, line: &[char]) -> Added
    requires { list_all is_seen line.now ≡ true }
    ensures { OnOk result (rows.new.items ≡ rows.old.items ++ spec.rows_of line.now) }
{
    let mut row = Vec::new(alloc);
    for i in 0..line.len() {
        row = row_with(rows, alloc, row, line[i], &line[i + 1..])?;
    }
    rows.push(Shown::new(row))?;
    Ok(())
}

/// Whether what a line tells of stands in a title.
fn is_drawn(drawing: &Drawing, about: About) -> bool
    ensures { result ≡ spec.is_drawn drawing.now about }
{
    match about {
        About::Whole => false,
        About::Slot(slot) => slot < KEY_COUNT as u8 || drawing.is_upper_live(),
        About::Accent(accent) => has_character(drawing.map(), accent),
    }
}

/// Adds the rows of a line, unless it stands in a title.
fn push_listed(rows: &mut Vec<Shown>, alloc: Global, drawing: &Drawing, line: &ChangeLine) -> Added
    ensures { OnOk result (rows.new.items ≡ rows.old.items ++ spec.listed_rows drawing.now line.now) }
{
    if is_drawn(drawing, line.about) {
        Ok(())
    } else {
        push_rows(rows, alloc, line.words.as_slice())
    }
}

fn push_each_listed(
    rows: &mut Vec<Shown>,
    alloc: Global,
    drawing: &Drawing,
    lines: &[ChangeLine],
) -> Added
    ensures { OnOk result (rows.new.items ≡ rows.old.items ++ flat_map (spec.listed_rows drawing.now) lines.now) }
{
    for line in lines {
        push_listed(rows, alloc, drawing, line)?;
    }
    Ok(())
}

/// The rows of the lines that stand in no title.
pub(crate) fn changed_rows(alloc: Global, drawing: &Drawing) -> Added<Vec<Shown>>
    ensures { IfOk result (λ rows. rows.items ≡ spec.changed_rows drawing.now) }
{
    let mut rows = Vec::new(alloc);
    push_each_listed(&mut rows, alloc, drawing, drawing.lines())?;
    Ok(rows)
}

fn is_slot(about: About) -> bool
    ensures { result ≡ spec.is_slot about }
{
    match about {
        About::Slot(_) => true,
        _ => false,
    }
}

fn is_upper_slot(about: About) -> bool
    ensures { result ≡ spec.is_upper_slot about }
{
    match about {
        About::Slot(slot) => slot >= KEY_COUNT as u8,
        _ => false,
    }
}

fn is_accent(about: About) -> bool
    ensures { result ≡ spec.is_accent about }
{
    match about {
        About::Accent(_) => true,
        _ => false,
    }
}

/// How many of the lines tell of slots.
fn slots_in(lines: &[ChangeLine]) -> usize
    ensures { result ≡ spec.slots_in lines.now }
{
    lines.iter().filter(|line| is_slot(line.about)).count()
}

/// How many of the lines tell of accents.
fn accents_in(lines: &[ChangeLine]) -> usize
    ensures { result ≡ spec.accents_in lines.now }
{
    lines.iter().filter(|line| is_accent(line.about)).count()
}

/// So many slots: keys where none of them is of the upper half.
fn slots_noun(has_upper: bool, count: usize) -> &'static [u8]
    ensures value { result.now ≡ spec.slots_noun has_upper count }
    ensures inner { list_all is_inner result.now ≡ true }
{
    match (has_upper, count) {
        (true, 1) => b"slot",
        (true, _) => b"slots",
        (false, 1) => b"key",
        (false, _) => b"keys",
    }
}

fn accents_noun(count: usize) -> &'static [u8]
    ensures value { result.now ≡ spec.accents_noun count }
    ensures inner { list_all is_inner result.now ≡ true }
{
    if count == 1 { b"accent" } else { b"accents" }
}

/// Whether one of the lines tells of a slot of the upper half.
fn have_upper_slot(lines: &[ChangeLine]) -> bool
    ensures { result ≡ spec.have_upper_slot lines.now }
{
    lines.iter().any(|line| is_upper_slot(line.about))
}

/// What the lines tell of slots.
fn noun_in(lines: &[ChangeLine]) -> &'static [u8]
    ensures value { result.now ≡ spec.noun_in lines.now }
    ensures inner { list_all is_inner result.now ≡ true }
{
    slots_noun(have_upper_slot(lines), slots_in(lines))
}

/// Adds how many slots and accents changed.
fn push_counts(
    sheet: Sheet<InPicture>,
    y: u32,
    name: &[char],
    lines: &[ChangeLine],
) -> Added<Sheet<InPicture>>
    requires seen { list_all is_seen name.now ≡ true }
    requires few { length lines.now < 2 ^ 32 }
    ensures { IfOk result (λ s. s ≡ sheet ++ headline_at y (codes "h") (spec.changed_counts
        (spec.changed_from name.now) (spec.slots_in lines.now) (spec.noun_in lines.now) (spec.accents_in lines.now)
        (spec.accents_noun (spec.accents_in lines.now))) ∷ []) }
{
    let (slots, accents) = (slots_in(lines), accents_in(lines));
    let (keys, others) = (Plain(noun_in(lines)), Plain(accents_noun(accents)));
    let (y, name) = (Number(y), Characters(name));
    let (slot_count, accent_count) = (Number(slots as u32), Number(accents as u32));
    if accents == 0 {
        tell(sheet, CHANGED_IN, &[y, name, slot_count, keys])
    } else if slots == 0 {
        tell(sheet, CHANGED_IN, &[y, name, accent_count, others])
    } else {
        tell(
            sheet,
            CHANGED_IN_BOTH,
            &[y, name, slot_count, keys, accent_count, others],
        )
    }
}

/// Adds what changed of the old keymap, by the lines that tell it.
fn push_changed(sheet: Sheet<InPicture>, drawing: &Drawing, y: u32) -> Added<Sheet<InPicture>>
    requires few { length drawing.now.lines < 2 ^ 32 }
    ensures { IfOk result (λ s. s
        ≡ sheet ++ headline_at y (codes "h") (spec.changed_said drawing.now.old_name drawing.now.lines) ∷ []) }
{
    let (name, lines) = (drawing.old_name(), drawing.lines());
    if lines.is_empty() {
        let contents = [Number(y), Characters(name), Plain(NOTHING)];
        tell(sheet, CHANGED, &contents)
    } else {
        push_counts(sheet, y, name, lines)
    }
}

/// Adds a row of the list, at its place.
fn push_row(sheet: Sheet<InPicture>, y: u32, i: u32, row: &[char]) -> Added<Sheet<InPicture>>
    requires low { y < 2 ^ 24 }
    requires few { i < 2 ^ 20 }
    requires seen { list_all is_seen row.now ≡ true }
    ensures { IfOk result (λ s. s ≡ sheet ++ spec.listed_row y i row.now) }
{
    tell(
        sheet,
        LISTED_CHANGE,
        &[Number(y + 52 + i * 20), Characters(row)],
    )
}

/// Adds the rows of the list, one below the other.
fn push_each_row(sheet: Sheet<InPicture>, rows: &[Shown], y: u32) -> Added<Sheet<InPicture>>
    requires low { y < 2 ^ 24 }
    requires few { length rows.now < 2 ^ 20 }
    ensures { IfOk result (λ s. s ≡ sheet ++ numbered (spec.listed_row y) 0 rows.now) }
{
    let mut sheet = sheet;
    for i in 0..rows.len() {
        sheet = push_row(sheet, y, i as u32, rows[i].as_slice())?;
    }
    Ok(sheet)
}

/// Adds the rows of the list, and below them what the marks mean, if there are any.
fn push_list(sheet: Sheet<InPicture>, rows: &[Shown], y: u32) -> Added<Sheet<InPicture>>
    requires low { y < 2 ^ 24 }
    requires few { length rows.now < 2 ^ 20 }
    ensures { IfOk result (λ s. s ≡ sheet ++ spec.list_of y rows.now) }
{
    if rows.is_empty() {
        Ok(sheet)
    } else {
        let sheet = push_each_row(sheet, rows, y)?;
        tell(sheet, MARKS, &[Number(y + 52 + rows.len() as u32 * 20)])
    }
}

/// Adds what changed and the list, in a picture of a change.
#[tactic(auto, unfolding(crate::specs::Changes::changes_list))]
pub(crate) fn push_changes(
    sheet: Sheet<InPicture>,
    drawing: &Drawing,
    rows: &[Shown],
    y: u32,
) -> Added<Sheet<InPicture>>
    requires low { y < 2 ^ 24 }
    requires few { length rows.now < 2 ^ 20 }
    requires lines { length drawing.now.lines < 2 ^ 32 }
    ensures { IfOk result (λ s. s ≡ sheet ++ spec.changes_list drawing.now rows.now y) }
{
    if drawing.is_change() {
        let sheet = push_changed(sheet, drawing, y + 26)?;
        push_list(sheet, rows, y)
    } else {
        Ok(sheet)
    }
}

/// How high they are, with so many rows.
pub(crate) fn changes_height(drawing: &Drawing, rows: usize) -> u32
    requires { rows < 2 ^ 20 }
    ensures value { result ≡ spec.changes_height drawing.now rows }
    ensures low { result < 2 ^ 25 }
{
    if !drawing.is_change() {
        0
    } else if rows == 0 {
        58
    } else {
        58 + (rows as u32 + 1) * 20
    }
}

/// Adds the style of the marks, in a picture of a change.
pub(crate) fn push_style(sheet: Sheet<InPicture>, drawing: &Drawing) -> Added<Sheet<InPicture>>
    ensures { IfOk result (λ s. s ≡ sheet ++ spec.marks_style drawing.now) }
{
    if drawing.is_change() {
        tell(sheet, CHANGE_STYLE, &[])
    } else {
        Ok(sheet)
    }
}
