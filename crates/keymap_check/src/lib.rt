//! Whether a keymap can leave a modifier stuck: which keymaps are accepted, which key bears which modifier or lock,
//! and a search for a few events that show how a refused keymap sticks.
//!
//! A keymap is accepted exactly if no key has both a modifier or lock and a character among its cells. The contract of
//! [`check`] says what that gives, for every list of events, delivered to a console of `console_core`, that leaves the
//! keymap in force:
//!
//! - In an accepted keymap all of the promise, as one record, `KeepsPromise` (`promise`): a modifier is on only while a
//!   key that bears it is pressed; once no key is pressed, no modifier is on, and with no accent pending the console
//!   goes on as after a reset; and what holds in every keymap.
//! - In every keymap a modifier that one key alone bears throughout is on exactly while that key is pressed
//!   (`exactly_while`). While no other keymap is loaded, such a lock is on exactly after an odd number of fresh
//!   presses of its key (`fresh_presses`), and without loads, where all that picks a cell is borne so or by nobody,
//!   what a key looks up follows from the pressed keys and those presses (`looks_plainly`).
//! - In every keymap no repeat turns a steady lock (`repeats`).
//!
//! [`demonstrate`] tries a fixed list of scripts. That it gives none for a refused keymap does not mean that the
//! keymap cannot stick: only some traps are sure to be shown (`shown`). In a keymap without traps where nobody bears
//! clock, nlock or alock, it gives none (`without_traps`).
//!
//! No call takes memory or fails.
#![tactic(auto)]

mod bearer;
mod cells;
mod demonstration;
mod finding;
mod kind;
pub mod laws;
mod report;
mod said;
mod script;
mod survey;
mod words;

pub use bearer::Bearer;
pub use demonstration::demonstrate;
pub use finding::{Finding, Place};
pub use report::{Report, check, check_shown, first_finding};
pub use said::{finding_words, say_of_key};
pub use script::Script;
