//! What printed lines tell by name: characters, accents, columns and ranges of slots, and bytes of a text or the name
//! of a file as a terminal shows them.
//!
//! What stands in one line and a terminal shows is `IsLine` (`specs/Shown.antt`); proofs/Lines.antt proves it of each
//! of these, of numbers and of words with such texts at their places, for all crates that print.
#![tactic(auto)]

mod characters;
mod lists;
mod quoted;
mod shown;

pub use characters::{Readable, is_coded, is_mark, is_numbered, readable};
pub use lists::{accent_name, accents, column_name, ranges};
pub use quoted::is_quoted;
pub use shown::{all_chars, first_shown, push_characters, shown_name, word};
