//! The words of the script that tests a console by its keyboard: what isn't pressed, and what a case is about. Of a
//! line it is proved that it is one; the words are tested, by transcripts.

use crate::consequences::push_piece;
use crate::words::{
    ACROSS, ALONE, BETWEEN, BLANK, CASE, CELLS_CASE, KEYBOARD, LISTED, NOT_PRESSED, NOT_SENT,
    PAIRS_CASE, RISKY_BETWEEN, RISKY_CELLS, SEMICOLON, SLOT_COLUMNS, SLOTS_COLUMNS, TOGETHER,
};
use keyboard::{Board, is_on};
use keyboard_cover::{GROUPS, Group, Holdings, Keyboard, Kind, What};
use keymap_core::{COLUMN_COUNT, Cell, HOLDINGS, Holding, KEY_COUNT, KeyMap, SLOT_LIMIT, key_with};
use keymap_names::accent_name;
use messages::{either, fill, filled, number, small};
use std::alloc::{AllocError, Global};

type Text = Result<Vec<u8>, AllocError>;

/// The name of a group, as it is asked for.
fn group_name(group: Group) -> &'static [u8] {
    match group {
        Group::Screens => b"screens",
        Group::Functions => b"fkeys",
        _ => action_letters(group),
    }
}

/// The name of the group's actions, without digits.
fn action_letters(group: Group) -> &'static [u8] {
    match group {
        Group::Boot => b"boot",
        Group::Debug => b"debug",
        Group::Suspend => b"susp",
        Group::Saver => b"saver",
        Group::Standby => b"stby",
        Group::Panic => b"panic",
        Group::Halt => b"halt",
        Group::PowerDown => b"pdwn",
        Group::Screens => b"scr",
        Group::Functions => b"fkey",
        Group::Paste => b"paste",
    }
}

/// Whether the cell is an action of the group.
fn is_of(cell: &Cell, group: Group) -> bool {
    match cell {
        Cell::Act(action) => Group::of(action) == Some(group),
        Cell::Char(_) => false,
    }
}

/// The columns of the slot that are actions of the group.
fn columns_of(alloc: Global, map: &KeyMap, slot: u8, group: Group) -> Text {
    let mut text = Vec::new(alloc);
    let entry = map.entry(slot);
    for column in 0..COLUMN_COUNT {
        if is_of(&entry.cells[column], group) {
            fill(&mut text, LISTED, &[number(column as u64).as_slice()])?;
        }
    }
    Ok(text)
}

/// The same, if the slot is one of a key of the board.
fn row_of(alloc: Global, map: &KeyMap, board: Board, slot: usize, group: Group) -> Text {
    if slot < SLOT_LIMIT && is_on(board, key_with((slot % KEY_COUNT) as u8)) {
        columns_of(alloc, map, slot as u8, group)
    } else {
        Ok(Vec::new(alloc))
    }
}

/// Adds the slots from one on to before another, if there are columns of them.
fn push_row(
    text: &mut Vec<u8>,
    alloc: Global,
    first: usize,
    end: usize,
    row: &[u8],
) -> Result<(), AllocError> {
    if row.is_empty() {
        return Ok(());
    }
    let begin = number(first as u64);
    let last = number(end.wrapping_sub(1) as u64);
    let piece = if end == first.wrapping_add(1) {
        filled(alloc, SLOT_COLUMNS, &[begin.as_slice(), row])?
    } else {
        filled(
            alloc,
            SLOTS_COLUMNS,
            &[begin.as_slice(), last.as_slice(), row],
        )?
    };
    push_piece(text, SEMICOLON, piece.as_slice())
}

/// The slots of the board's keys with actions of the group, in runs with the same columns.
fn slots_of(alloc: Global, map: &KeyMap, board: Board, group: Group) -> Text {
    let mut text = Vec::new(alloc);
    let mut first = 0;
    let mut row = Vec::new(alloc);
    for slot in 0..=SLOT_LIMIT {
        let next = row_of(alloc, map, board, slot, group)?;
        if next.as_slice() != row.as_slice() {
            push_row(&mut text, alloc, first, slot, row.as_slice())?;
            first = slot;
            row = next;
        }
    }
    Ok(text)
}

/// Adds the line of a group that isn't pressed, if the board's keys have it.
fn push_group(
    lines: &mut Vec<Vec<u8>>,
    alloc: Global,
    map: &KeyMap,
    board: Board,
    group: Group,
) -> Result<(), AllocError> {
    let slots = slots_of(alloc, map, board, group)?;
    if slots.is_empty() {
        return Ok(());
    }
    lines.push(filled(alloc, NOT_PRESSED, &[group_name(group), slots.as_slice()])?)?;
    Ok(())
}

/// The board, and what isn't pressed of it.
pub(crate) fn head_lines(
    alloc: Global,
    map: &KeyMap,
    keyboard: &Keyboard,
) -> Result<Vec<Vec<u8>>, AllocError> {
    let mut lines = Vec::new(alloc);
    let size = match keyboard.board {
        Board::Iso => b"105",
        Board::Ansi => b"104",
    };
    lines.push(filled(alloc, KEYBOARD, &[size])?)?;
    for group in GROUPS {
        if !keyboard.has(group) {
            push_group(&mut lines, alloc, map, keyboard.board, group)?;
        }
    }
    Ok(lines)
}

/// The name of a kind of cell.
fn kind_name(kind: Kind) -> &'static [u8] {
    match kind {
        Kind::Character => b"character",
        Kind::Nothing => b"nop",
        Kind::Modifier => b"modifier",
        Kind::Lock => b"lock",
        Kind::DeadKey | Kind::UnusableDeadKey => b"dead key",
        Kind::BackTab => b"btab",
        Kind::NextScreen => b"nscr",
        Kind::PreviousScreen => b"pscr",
        Kind::Of(group) => action_letters(group),
    }
}

/// The modifiers and locks that are on.
fn state_text(alloc: Global, on: &Holdings) -> Text {
    let mut text = Vec::new(alloc);
    for holding in HOLDINGS {
        if on.get(holding.index()) == Some(&true) {
            push_piece(&mut text, BLANK, holding.action().name().as_slice())?;
        }
    }
    if text.is_empty() {
        text.extend_from_slice(b"none")?;
    }
    Ok(text)
}

/// Two modifiers or locks that are tried together.
fn together_text(alloc: Global, one: Holding, other: Holding) -> Text {
    let (one, other) = (one.action().name(), other.action().name());
    filled(alloc, TOGETHER, &[one.as_slice(), other.as_slice()])
}

/// A key that is tried across cells of these kinds.
fn across_text(alloc: Global, key: u8, one: Kind, other: Kind, third: Option<Kind>) -> Text {
    let code = small(key);
    let mut text = filled(
        alloc,
        ACROSS,
        &[code.as_slice(), kind_name(one), kind_name(other)],
    )?;
    if let Some(third) = third {
        push_piece(&mut text, BLANK, kind_name(third))?;
    }
    Ok(text)
}

/// What a case is about.
fn what_text(alloc: Global, what: &What) -> Text {
    match what {
        What::Together(one, other) => together_text(alloc, *one, *other),
        What::Alone(holding) => filled(alloc, ALONE, &[holding.action().name().as_slice()]),
        What::Across(key, one, other, third) => {
            across_text(alloc, key.get(), *one, *other, *third)
        }
        What::Between(accent, kind) => {
            filled(
                alloc,
                BETWEEN,
                &[accent_name(*accent).as_slice(), kind_name(*kind)],
            )
        }
        What::BetweenRepeats(accent) => {
            filled(
                alloc,
                BETWEEN,
                &[accent_name(*accent).as_slice(), b"repeat"],
            )
        }
        What::Many => filled(alloc, b"many", &[]),
        What::Repeats => filled(alloc, b"repeats", &[]),
        What::ScrollLock => filled(alloc, b"scroll lock", &[]),
        What::Pairs(accent) => filled(alloc, PAIRS_CASE, &[accent_name(*accent).as_slice()]),
        What::Cells(on) => filled(alloc, CELLS_CASE, &[state_text(alloc, on)?.as_slice()]),
        What::RiskyCells(on) => filled(alloc, RISKY_CELLS, &[state_text(alloc, on)?.as_slice()]),
        What::RiskyBetween(accent, key) => filled(
            alloc,
            RISKY_BETWEEN,
            &[accent_name(*accent).as_slice(), small(key.get()).as_slice()],
        ),
    }
}

/// The line of a case, from 1 on, whether its events are sent or not.
pub(crate) fn case_line(alloc: Global, n: u64, what: &What, is_sent: bool) -> Text {
    let what = what_text(alloc, what)?;
    let not_sent = either(is_sent, b"", NOT_SENT);
    filled(
        alloc,
        CASE,
        &[number(n).as_slice(), what.as_slice(), not_sent],
    )
}
