//! Plays a script of key presses, repeats, releases, resets and loads on a keymap, or between two.
//!
//! A script has one event a line; a line marked as lost is sent and not delivered. `play` reads a keymap from a text
//! and then the script, and writes a line for each delivered event, or the bytes that the answers type; `play_next`
//! reads a second text, whose keymap a load puts in force. `read_script` reads a script alone, and `read_whole` the
//! bytes of one.
//!
//! The crate stands on `keymap_text` for the keymap of a text, on `console_core` for the answers, and on `keymap_core`
//! for readers and writers. It promises that what is written is the text that `specs/Written.antt` defines for the
//! keymaps and the script that were read, that nothing is written before the whole script was read, and that a fault is
//! that of the bytes that were read (`specs/Playing.antt`, `specs/Scripts.antt`). Each script has one list of events or
//! one fault, and never both (`laws::one_reading`).
#![tactic(auto)]

mod answer_line;
pub mod laws;
mod number;
mod output;
mod plain_line;
mod player;
mod playing;
mod script;
mod script_line;
mod sent;
mod show;
mod tail;
mod typed_bytes;
mod whole;
mod words;

pub use playing::{PlayError, Source, play, play_next};
pub use script::{ScriptError, ScriptFault, read_script};
pub use sent::{Sent, What};
pub use show::Show;
pub use typed_bytes::typed;
pub use whole::read_whole;
