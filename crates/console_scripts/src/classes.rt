//! The classes of ways to type a character, and the presses that ways of a class are made of.
ghost use Rattle.std.specs.Prelude.{◌≡◌, ◌<◌, ℕ, false, slice_index_or};
ghost use Rattle.keymap_core.specs.Numbers.{key_count};
ghost use Rattle.console_states.specs.declared.allowed.KeyPresses.TheVariants.{Never};
ghost use Rattle.console_scripts.specs.Ways.{presses_key, rank};
ghost use Rattle.console_scripts.specs.Inner.Courses.{ArePresses, is_spared as is_spared_in, has_lock_code, takes_key};
ghost use Rattle.console_scripts.specs.Inner.Courses.{presses_always, presses_code_in};

use console_states::{KeyPresses, Presses};
use keyboard::{Board, is_on, is_on_pad};
use keymap_core::{KEY_COUNT, KeyCode, key_with};

/// What the ways of a class keep to. Of what tells two classes apart the first decides which of them comes before: the
/// one that keeps to it.
#[derive(Clone, Copy, Debug, PartialEq, Eq, Hash)]
pub struct Class {
    /// They press keys of the board alone.
    pub keeps_to_board: bool,
    /// They turn no lock.
    pub keeps_locks: bool,
    /// They are one tap, and not that of a dead key and another one.
    pub is_one_tap: bool,
    /// They press no key of the pad.
    pub avoids_pad: bool,
    /// They don't press the key behind a short left shift, which half of the boards lack.
    pub avoids_86: bool,
}

/// Keys that aren't pressed where ways without them take as few presses.
#[derive(Clone, Copy, Debug, PartialEq, Eq, Hash)]
pub struct Spared {
    pub left_alt: bool,
    pub right_shift: bool,
}

/// How many classes there are.
pub const CLASSES: u8 = 32;

pub const LEFT_ALT: u8 = 56;

pub const RIGHT_SHIFT: u8 = 54;

const BEHIND_SHIFT: u8 = 86;

/// What is spared, the first where it can be.
pub static SPARED: [Spared; 3] = [
    Spared {
        left_alt: true,
        right_shift: true,
    },
    Spared {
        left_alt: true,
        right_shift: false,
    },
    Spared {
        left_alt: false,
        right_shift: true,
    },
];

impl Spared {
    pub fn none() -> Spared
        ensures { (k : ℕ) → is_spared_in result k ≡ false }
    {
        Spared {
            left_alt: false,
            right_shift: false,
        }
    }
}

/// The class that so many classes come before.
pub fn class_at(place: u8) -> Class
    requires { place < 32 }
    ensures { rank result ≡ place }
{
    Class {
        keeps_to_board: place < 16,
        keeps_locks: place % 16 < 8,
        is_one_tap: place % 8 < 4,
        avoids_pad: place % 4 < 2,
        avoids_86: place % 2 < 1,
    }
}

/// Whether ways of the class press the key.
fn is_of_class(board: Board, class: Class, key: KeyCode) -> bool
    ensures { result ≡ presses_key board class key }
{
    (!class.keeps_to_board || is_on(board, key))
        && (!class.avoids_pad || !is_on_pad(key))
        && (!class.avoids_86 || key.get() != BEHIND_SHIFT)
}

fn is_spared(spared: Spared, key: KeyCode) -> bool
    ensures { result ≡ is_spared_in spared key }
{
    (spared.left_alt && key.get() == LEFT_ALT) || (spared.right_shift && key.get() == RIGHT_SHIFT)
}

/// Whether ways of the class press the key, and it isn't spared.
pub fn takes(board: Board, class: Class, spared: Spared, key: KeyCode) -> bool
    ensures { result ≡ takes_key board class spared key }
{
    is_of_class(board, class, key) && !is_spared(spared, key)
}

/// Whether it is the code of a lock.
fn is_lock_code(code: usize) -> bool
    ensures { result ≡ has_lock_code code }
{
    code == 4 || code == 5 || code == 6 || code == 130
}

/// Whether ways of the class press the actions of the code: where they turn no lock all but locks, and else all.
fn presses_code(class: Class, code: usize) -> bool
    ensures { result ≡ presses_code_in class code }
{
    !class.keeps_locks || !is_lock_code(code)
}

/// The actions that ways of the class press, by their codes.
fn actions_of(class: Class) -> [bool; 256]
    ensures { (c : ℕ) → c < 256 → slice_index_or result c false ≡ presses_code_in class c }
{
    let mut actions = [false; 256];
    for code in 0..256 {
        actions[code] = presses_code(class, code);
    }
    actions
}

/// When a key is pressed.
fn presses_if(is_pressed: bool) -> KeyPresses
    ensures { result ≡ presses_always is_pressed }
{
    if is_pressed {
        KeyPresses::Always
    } else {
        KeyPresses::Never
    }
}

/// The keys that ways of the class press, but for spared ones.
fn keys_of(board: Board, class: Class, spared: Spared) -> [KeyPresses; KEY_COUNT]
    ensures { (k : ℕ) → k < key_count
        → slice_index_or result k Never ≡ presses_always (takes_key board class spared k) }
{
    let mut keys = [KeyPresses::Never; KEY_COUNT];
    for code in 0..KEY_COUNT as u8 {
        keys[code as usize] = presses_if(takes(board, class, spared, key_with(code)));
    }
    keys
}

/// The presses that ways of the class are made of, but for those of spared keys.
pub fn presses_of(board: Board, class: Class, spared: Spared) -> Presses
    ensures presses { ArePresses board class spared result }
    ensures keys { (k : ℕ) → k < key_count
        → slice_index_or result.keys k Never ≡ presses_always (takes_key board class spared k) }
{
    Presses {
        keys: keys_of(board, class, spared),
        actions: actions_of(class),
    }
}
