//! The board that is asked for, and the keyboard by which a script tests a console: its board, and the actions that it
//! presses beside those that end and leave nothing.
ghost use Rattle.std.specs.Prelude.{◌≡◌, length};

use crate::command_line::Request;
use keyboard::Board;
use keyboard_cover::{GROUP_COUNT, GROUPS, Group, Keyboard};

/// A word that is none of those that are, which stand behind it.
#[derive(Clone, Copy, Drop)]
pub(crate) struct Unknown<'a> {
    pub(crate) front: &'static [u8],
    pub(crate) word: &'a str,
    pub(crate) known: &'static [u8],
}

const NO_BOARD: &[u8] = b"kmap: no board ";

const BOARDS: &[u8] = b": 105 104\n";

const NO_ACTION: &[u8] = b"kmap: no action ";

const ACTIONS: &[u8] = b": boot debug susp saver stby panic halt pdwn screens fkeys paste\n";

fn board_named(word: &str) -> Option<Board> {
    match word {
        "105" => Some(Board::Iso),
        "104" => Some(Board::Ansi),
        _ => None,
    }
}

/// The board of a word, that of 105 keys where none is told.
pub(crate) fn board_of(word: Option<&str>) -> Board {
    match word {
        Some(word) => board_named(word).unwrap_or(Board::Iso),
        None => Board::Iso,
    }
}

/// The group of actions with the name.
fn group_of(name: &str) -> Option<Group> {
    match name {
        "boot" => Some(Group::Boot),
        "debug" => Some(Group::Debug),
        "susp" => Some(Group::Suspend),
        "saver" => Some(Group::Saver),
        "stby" => Some(Group::Standby),
        "panic" => Some(Group::Panic),
        "halt" => Some(Group::Halt),
        "pdwn" => Some(Group::PowerDown),
        "screens" => Some(Group::Screens),
        "fkeys" => Some(Group::Functions),
        "paste" => Some(Group::Paste),
        _ => None,
    }
}

/// The first of the names that no group has.
fn unknown_name(names: &str) -> Option<&str> {
    for name in names.split(',') {
        if group_of(name).is_none() {
            return Some(name);
        }
    }
    None
}

/// Whether the group is among the names.
fn is_among(group: Group, names: &str) -> bool {
    for name in names.split(',') {
        if group_of(name) == Some(group) {
            return true;
        }
    }
    false
}

/// The word, if it names no board.
fn unknown_board(word: &str) -> Option<Unknown<'_>> {
    match board_named(word) {
        Some(_) => None,
        None => Some(Unknown {
            front: NO_BOARD,
            word,
            known: BOARDS,
        }),
    }
}

/// The first of the names that is of no action.
fn unknown_action(names: &str) -> Option<Unknown<'_>> {
    let word = unknown_name(names)?;
    Some(Unknown {
        front: NO_ACTION,
        word,
        known: ACTIONS,
    })
}

/// The word for a board or an action that a request has, if there is no such one.
pub(crate) fn unknown_keyboard<'a>(request: &Request<'_, 'a>) -> Option<Unknown<'a>> {
    match request {
        Request::Type { board, .. } | Request::Words { board, .. } => unknown_board((*board)?),
        Request::Cover {
            keyboard,
            press,
            ..
        } => match unknown_board((*keyboard)?) {
            Some(unknown) => Some(unknown),
            None => unknown_action((*press)?),
        },
        _ => None,
    }
}

/// The groups whose actions are among the names, each by its place.
fn groups_among(names: &str) -> [bool; GROUP_COUNT]
    ensures { length result ≡ 11 }
{
    let mut groups = [false; GROUP_COUNT];
    for group in GROUPS {
        groups[group.index()] = is_among(group, names);
    }
    groups
}

/// The keyboard of a board, if one is named, that presses the actions of these names too.
pub(crate) fn keyboard_of(board: Option<&str>, press: Option<&str>) -> Option<Keyboard> {
    let board = board_named(board?)?;
    let groups = groups_among(press.unwrap_or(""));
    Some(Keyboard { board, groups })
}
