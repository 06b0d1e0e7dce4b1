//! The lines that tell in words how characters are typed: the taps of a way, each by the names of its keys. They are
//! plain printings.
ghost use Rattle.std.specs.Prelude.{IfErr};
ghost use Rattle.kmap_runs.specs.Spelling.{IsSheetError};

use crate::missing::character_told;
use crate::spelling::{Spelled, are_on};
use crate::type_error::TypeError;
use crate::way_order::ways_in_order;
use console_core::Event;
use keyboard::{Board, is_on_pad, name_of};
use keymap_core::{Action, Cell, KeyCode, KeyMap, Keymap, is_unseen};
use messages::number;
use std::alloc::{AllocError, Global};

/// Which ways are told of a character.
#[derive(Clone, Copy, Debug, PartialEq, Eq)]
pub enum WaysTold {
    /// The one that is taken.
    Taken,
    /// For each key by whose press the character comes, the one that is taken of those that end with it.
    ByEachKey,
}

/// A key of a tap: one that is down meanwhile, or, the last one, the one that is tapped.
#[derive(Clone, Copy, Debug)]
struct Touch {
    key: KeyCode,
    is_last: bool,
}

/// Adds the tap of the last of the keys that are down.
fn push_tap(touches: &mut Vec<Touch>, down: &[KeyCode]) -> Result<(), AllocError> {
    for place in 0..down.len() {
        touches.push(Touch {
            key: down[place],
            is_last: place + 1 == down.len(),
        })?;
    }
    Ok(())
}

/// The keys without this one.
fn without(alloc: Global, down: &[KeyCode], key: KeyCode) -> Result<Vec<KeyCode>, AllocError> {
    let mut left = Vec::new(alloc);
    for other in down {
        if *other != key {
            left.push(*other)?;
        }
    }
    Ok(left)
}

/// The keys of the taps that the events make, tap by tap, in the order of presses. A press that a release of the key
/// follows is a tap.
fn touches_of(alloc: Global, events: &[Event]) -> Result<Vec<Touch>, AllocError> {
    let mut touches = Vec::new(alloc);
    let mut down = Vec::new(alloc);
    let mut last = None;
    for event in events {
        match event {
            Event::Press(key) => {
                down.push(*key)?;
                last = Some(*key);
            }
            Event::Release(key) => {
                if last == Some(*key) {
                    push_tap(&mut touches, down.as_slice())?;
                }
                down = without(alloc, down.as_slice(), *key)?;
                last = None;
            }
            _ => {}
        }
    }
    Ok(touches)
}

/// Whether the second character is the upper case of the first one.
fn is_upper_case(first: char, second: char) -> bool {
    let mut upper = first.to_uppercase();
    upper.next() == Some(second) && upper.next().is_none()
}

/// The character, or that of the other cell where it is its upper case.
fn upper_case_or(first: char, second: Cell) -> char {
    match second {
        Cell::Char(second) if is_upper_case(first, second) => second,
        _ => first,
    }
}

/// The accent's own character of a dead key, and the blank of other cells.
fn own_of(map: &KeyMap, cell: &Cell) -> char {
    match cell {
        Cell::Act(Action::DeadKey(accent)) => map.own(accent.get()).unwrap_or(' '),
        _ => ' ',
    }
}

/// The character that the key is called by: the blank where there is none.
fn label_of(map: &KeyMap, key: KeyCode) -> char {
    let cells = &map.entry(key.get()).cells;
    match cells[0] {
        Cell::Char(first) => upper_case_or(first, cells[1]),
        _ => own_of(map, &cells[0]),
    }
}

/// Adds the name of the key: a character of the main block, or the name that the board has for it.
fn push_name(
    text: &mut Vec<u8>,
    map: &KeyMap,
    board: Board,
    key: KeyCode,
) -> Result<(), AllocError> {
    let label = label_of(map, key);
    let name = name_of(board, key);
    if !is_on_pad(key) && label != ' ' && !is_unseen(label) {
        let mut bytes = [0; 4];
        text.extend_from_slice(label.encode_utf8(&mut bytes).as_bytes())
    } else if name.is_empty() {
        text.extend_from_slice(b"key ")?;
        text.extend_from_slice(number(u64::from(key.get())).as_slice())
    } else {
        text.extend_from_slice(name)
    }
}

/// Adds the names of the keys of the taps.
fn push_names(
    text: &mut Vec<u8>,
    map: &KeyMap,
    board: Board,
    touches: &[Touch],
) -> Result<(), AllocError> {
    let mut between: &[u8] = b"";
    for touch in touches {
        text.extend_from_slice(between)?;
        push_name(text, map, board, touch.key)?;
        between = if touch.is_last { b" then " } else { b"+" };
    }
    Ok(())
}

/// Adds their numbers.
fn push_codes(text: &mut Vec<u8>, touches: &[Touch]) -> Result<(), AllocError> {
    let mut between: &[u8] = b"";
    for touch in touches {
        text.extend_from_slice(between)?;
        text.extend_from_slice(number(u64::from(touch.key.get())).as_slice())?;
        between = if touch.is_last { b" " } else { b"+" };
    }
    Ok(())
}

/// Adds the line of a character that these events type.
fn push_line(
    text: &mut Vec<u8>,
    alloc: Global,
    map: &KeyMap,
    board: Board,
    character: char,
    events: &[Event],
) -> Result<(), AllocError> {
    let touches = touches_of(alloc, events)?;
    text.extend_from_slice(character_told(alloc, character)?.as_slice())?;
    text.extend_from_slice(b": ")?;
    push_names(text, map, board, touches.as_slice())?;
    text.extend_from_slice(b" (")?;
    push_codes(text, touches.as_slice())?;
    text.extend_from_slice(if are_on(board, events) {
        b")\n"
    } else {
        b") off the board\n"
    })
}

/// Adds a line for each of its ways.
fn push_ways(
    text: &mut Vec<u8>,
    alloc: Global,
    map: &KeyMap,
    board: Board,
    character: char,
) -> Result<(), TypeError>
    ensures { IfErr result (IsSheetError map.now) }
{
    let ways = ways_in_order(alloc, map, board, character)?;
    for way in ways.as_slice() {
        push_line(text, alloc, map, board, character, way.events.as_slice())?;
    }
    Ok(())
}

/// Adds the lines of a character.
fn push_lines(
    text: &mut Vec<u8>,
    alloc: Global,
    map: &KeyMap,
    board: Board,
    told: WaysTold,
    one: &Spelled,
) -> Result<(), TypeError>
    ensures { IfErr result (IsSheetError map.now) }
{
    match told {
        WaysTold::Taken => {
            let events = one.typing.events.as_slice();
            Ok(push_line(text, alloc, map, board, one.character, events)?)
        }
        WaysTold::ByEachKey => push_ways(text, alloc, map, board, one.character),
    }
}

/// The lines of the characters.
pub(crate) fn word_lines(
    alloc: Global,
    map: &KeyMap,
    board: Board,
    told: WaysTold,
    each: &[Spelled],
) -> Result<Vec<u8>, TypeError>
    ensures { IfErr result (IsSheetError map.now) }
{
    let mut text = Vec::new(alloc);
    for one in each {
        push_lines(&mut text, alloc, map, board, told, one)?;
    }
    Ok(text)
}
