//! What `kmap lint` prints of a keymap text: the values of keymap_lint in words, each with its place, the line of the
//! text and a caret.
//!
//! `remarks` answers what is said, as values, and `remarks_text` prints them. Which remarks a text has, and what each
//! tells, `specs/Whole.antt` and the definitions that it cites say. A message is there the words of its kind, filled
//! with what the diagnostic tells in their order; docs/FORMATS.md has each of them. The module `laws` says what who
//! reads the lines may rely on.
#![tactic(auto)]

mod excerpt;
mod faults;
mod hints;
pub mod laws;
mod letters;
mod near;
mod notes;
mod other_names;
mod printer;
mod remark;
mod said;
mod told;
mod wanted;
mod whole;
mod words;

pub use printer::{line_of, push_remark};
pub use remark::{Remark, Said, count};
pub use told::remarks;
pub use whole::remarks_text;
