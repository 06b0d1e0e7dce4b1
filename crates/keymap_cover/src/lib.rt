//! A script of key events after which a console has looked up every cell to which moves lead that lead home again, and
//! what it sees.
//!
//! The crate stands on `console_core`: a console runs along while the script is made, so that what each press looks up
//! is kept; and on `console_states`: its search tells what can be looked up at all (`Sights`), and an `Explorer` makes
//! visits to what wasn't looked up yet. Behind these stand trials of what keys do to each other, of which nothing is
//! promised.
//!
//! Contracts (`cover_of`, `Cover::verdict`) say that what is told as seen is what the script sees in its events from a
//! new console, that what is told as left out can be seen, and that what is told as never seen no list of events sees,
//! or no clean one where a key that holds a modifier can look up a character. Nothing is left out to which moves lead
//! from which, once all keys are let go, more of them lead home. Only released keys are pressed, only pressed ones
//! repeated and released; at the end no key is down, no modifier on and no accent pending, and the scroll lock is off
//! unless no presses can turn it off from there; no moves lead from there to a press that sees a cell or a lock setting
//! that is left out. The parts of the script begin in their order, and each has events. Where that of cells ends, all
//! cells and lock settings were seen that can be visited, and where that of pairs ends all pairs. That of pairs shows
//! one that wasn't seen before, and that of one-way turns is there only where something can be seen that wasn't.
#![tactic(auto)]

mod cover;
mod idle_keys;
mod kind;
pub mod laws;
mod one_way;
mod parts;
mod probes;
mod script;
mod script_event;
mod scroll;
mod seen;
mod sight_lists;
mod told;
mod trials;
mod tried;
mod verdicts;

pub use cover::cover_of;
pub use parts::{Counts, Cover, Part, Start, Verdict};
pub use script_event::ScriptEvent;
pub use seen::{Seen, selection};
pub use sight_lists::{cells, lock_settings};
pub use verdicts::{Can, Verdicts};
