//! Which presses are made when a console is tested by its keyboard: those of the board's keys that look up no action
//! which ends or leaves the console, unless it is one that is pressed.
ghost use Rattle.std.specs.Prelude.{◌≡◌, ◌<◌, ℕ, false, slice_index_or};
ghost use Rattle.keymap_core.specs.Numbers.{key_count};
ghost use Rattle.console_states.specs.declared.allowed.KeyPresses.TheVariants.{Never};
ghost use Rattle.keyboard_cover.specs.Allowed.{ArePresses, counted_as, group_index, is_code_pressed, key_presses};

use crate::group::Group;
use crate::keyboards::Keyboard;
use console_states::{KeyPresses, Presses};
use keyboard::{Board, is_on};
use keymap_core::{Action, Cell, KEY_COUNT, KeyCode, key_with};

/// When the key is pressed. With alt a keyboard sends another code for key 92, and with control for key 104.
fn key_presses(board: Board, key: KeyCode) -> KeyPresses
    ensures { result ≡ key_presses board key }
{
    if !is_on(board, key) {
        return KeyPresses::Never;
    }
    match key.get() {
        92 => KeyPresses::WithoutAlt,
        104 => KeyPresses::WithoutControl,
        _ => KeyPresses::Always,
    }
}

impl Keyboard {
    /// Whether actions of the group are pressed.
    pub fn has(&self, group: Group) -> bool
        ensures { result ≡ slice_index_or self.now.groups (group_index group) false }
    {
        self.groups[group.index()]
    }
}

/// Whether the action that has the code is pressed.
fn is_code_pressed(keyboard: &Keyboard, code: u8) -> bool
    ensures { result ≡ is_code_pressed keyboard.now.groups code }
{
    match Action::from_code(code) {
        Some(action) => match Group::of(&action) {
            Some(group) => keyboard.has(group),
            None => true,
        },
        None => true,
    }
}

/// When each key is pressed.
fn all_key_presses(board: Board) -> [KeyPresses; 128]
    ensures { (k : ℕ) → k < key_count → slice_index_or result k Never ≡ key_presses board k }
{
    let mut keys = [KeyPresses::Never; 128];
    for code in 0..KEY_COUNT as u8 {
        keys[code as usize] = key_presses(board, key_with(code));
    }
    keys
}

/// Which codes are pressed.
fn pressed_codes(keyboard: &Keyboard) -> [bool; 256]
    ensures { (c : ℕ) → c < 256 → slice_index_or result c false ≡ is_code_pressed keyboard.now.groups c }
{
    let mut actions = [false; 256];
    for code in 0..256_usize {
        actions[code] = is_code_pressed(keyboard, code as u8);
    }
    actions
}

/// The presses of the board's keys, of the actions of the groups that are pressed and of those that are in none.
pub fn presses_of(keyboard: &Keyboard) -> Presses
    ensures { ArePresses keyboard.now result }
{
    Presses {
        keys: all_key_presses(keyboard.board),
        actions: pressed_codes(keyboard),
    }
}

/// What a press counts as that looks up the cell, where an accent is pending or not.
pub(crate) fn counted_as(is_pending: bool, cell: &Cell) -> Cell
    ensures { result ≡ counted_as is_pending cell.now }
{
    match cell {
        Cell::Act(Action::Function(_)) | Cell::Act(Action::Paste) if is_pending => Cell::Char(' '),
        _ => *cell,
    }
}
