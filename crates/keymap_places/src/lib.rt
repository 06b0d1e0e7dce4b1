//! Where the definitions of a keymap text stand: who tells of a place in a text stands on it.
//!
//! It goes over the tokens of `keymap_text` again, whose reader answers a map and keeps no place. [`definitions`] has
//! the span of each token and the place of each definition, [`last_definitions`] those in force, [`TextLines`] the line
//! of a place, and [`wanted_at_fault`] what is wanted where a text goes wrong. [`laws`] says that the tokens of a
//! definition stand where it begins, and that the last one of a slot or an accent is what the map has there.
#![tactic(auto)]

mod last;
pub mod laws;
mod placed;
mod text_line;
mod unicode;
mod wanted;

pub use last::{LastDefinitions, last_definitions};
pub use placed::{Defined, Placed, PlacedText, definitions};
pub use text_line::{TextLine, TextLines};
pub use unicode::{is_lone, is_unicode};
pub use wanted::{DefinitionStart, FaultPlace, Wanted, wanted_at_fault};
