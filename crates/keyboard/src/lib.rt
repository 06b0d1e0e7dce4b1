//! The keys of the boards of 105 and 104 keys: what stands on them, and by which codes programs and wires know them.
//!
//! A key of the FreeBSD console has a number, its key code. For each one there is its name on a board and whether it
//! stands there, whether it is one of the pad, its bytes in set 1, its number in evdev and in X, and its name in QEMU.
//! `specs/Boards.antt` has the boards row by row, from left to right, and `specs/Codes.antt` the rules by which codes
//! follow from a key; the tables here are proved to be these.
#![tactic(auto)]

mod board;
mod keys;
mod table;

pub use board::Board;
pub use keys::{
    evdev_of, is_on, is_on_pad, key_of_evdev, name_of, on_release, qcode_of, set1_of, x11_of,
};
