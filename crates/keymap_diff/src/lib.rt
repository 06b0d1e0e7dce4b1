//! What differs between two keymaps, whether any press of a key meets it before a modifier sticks, and whether anybody
//! at a console can tell the keymaps apart.
//!
//! The crate stands on `keymap_core`, whose keymaps it compares, on `console_core`, whose consoles the two are told
//! apart by, and on `console_states`, whose searches tell what presses meet. `specs/Changes.antt` says what differs:
//! how many slots and accents there are, cells, lock letters, the own characters of accents, what accents make of
//! bases, and the order of pairs. `specs/Telling.antt` says what it is to be told apart.
#![tactic(auto)]

mod change;
mod compared;
pub mod laws;
mod marking;
mod nearest;
mod searched;
mod showing;
mod telling;
mod unseen;
mod versions;

pub use change::Change;
pub use marking::differences;
pub use telling::{Telling, telling_apart};
