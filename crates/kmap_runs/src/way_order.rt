//! The ways to type a character by each key, in the order in which ways are taken.
ghost use Rattle.std.specs.Prelude.{IfErr};
ghost use Rattle.kmap_runs.specs.Spelling.{IsSheetError};

use crate::type_error::TypeError;
use console_core::Event;
use console_scripts::{Typing, TypingError, WayBy, ways_of};
use keyboard::Board;
use keymap_core::KeyMap;
use std::alloc::{AllocError, Global};
use std::cmp::Ordering;

const LEFT_ALT: u8 = 56;

const RIGHT_SHIFT: u8 = 54;

/// A way, and the codes of the keys that it presses, in their order.
#[derive(Debug, Drop)]
struct Pressed {
    way: WayBy,
    codes: Vec<u8>,
}

/// The codes of the keys that the events press.
fn codes_pressed(alloc: Global, events: &[Event]) -> Result<Vec<u8>, AllocError> {
    let mut codes = Vec::new(alloc);
    for event in events {
        if let Event::Press(key) = event {
            codes.push(key.get())?;
        }
    }
    Ok(codes)
}

/// Whether the way presses the key.
fn presses(pressed: &Pressed, code: u8) -> bool {
    pressed.codes.as_slice().contains(&code)
}

/// What the class of the way doesn't keep to, in the order in which it counts.
fn lacks(way: &WayBy) -> [bool; 5] {
    let class = way.class;
    [
        !class.keeps_to_board,
        !class.keeps_locks,
        !class.is_one_tap,
        !class.avoids_pad,
        !class.avoids_86,
    ]
}

/// Which way is taken before the other: that of the class that is, that of fewer presses, that without left alt, that
/// without right shift, and else the first one by its keys.
fn order(first: &Pressed, second: &Pressed) -> Ordering {
    lacks(&first.way)
        .cmp(&lacks(&second.way))
        .then(first.way.before.cmp(&second.way.before))
        .then(presses(first, LEFT_ALT).cmp(&presses(second, LEFT_ALT)))
        .then(presses(first, RIGHT_SHIFT).cmp(&presses(second, RIGHT_SHIFT)))
        .then(first.codes.cmp(&second.codes))
}

/// The ways in their order.
fn in_order(alloc: Global, ways: Vec<WayBy>) -> Result<Vec<Typing>, AllocError> {
    let mut found = Vec::new(alloc);
    for way in ways {
        let codes = codes_pressed(alloc, way.typing.events.as_slice())?;
        found.push(Pressed { way, codes })?;
    }
    found.sort_by(|first, second| order(first, second))?;
    let mut typings = Vec::new(alloc);
    for pressed in found {
        typings.push(pressed.way.typing)?;
    }
    Ok(typings)
}

/// Of each key by which the character comes the events of the way that is taken, in the order in which these ways are.
pub(crate) fn ways_in_order(
    alloc: Global,
    map: &KeyMap,
    board: Board,
    character: char,
) -> Result<Vec<Typing>, TypeError>
    ensures { IfErr result (IsSheetError map.now) }
{
    match ways_of(alloc, map, board, character) {
        Ok(ways) => match in_order(alloc, ways) {
            Ok(typings) => Ok(typings),
            Err(AllocError) => Err(TypeError::Memory),
        },
        Err(TypingError::TooManyStates) => Err(TypeError::TooManyStates),
        Err(_) => Err(TypeError::Memory),
    }
}
