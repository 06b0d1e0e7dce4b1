//! Messages: words with places for what is told, and the texts that are put there.
//!
//! A message is a constant of the crate that prints it, with `{}` where something is told. What comes out is one
//! definition (`filled`, `specs/Filled.antt`), so a contract lists what a message tells and cites its words by name.
#![tactic(auto)]

mod templates;

pub use templates::{LINE, Line, either, fill, fill_next, filled, line, number, parted, small};
