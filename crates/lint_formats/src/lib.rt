//! The remarks on texts in the formats that `kmap lint` prints.
//!
//! Each format is a printing of the same values, the remarks of keymap_lint_text: `rows` prints those of one text, and
//! between `front` and `end` stand the rows of all texts. `Format::Text` is what `remarks_text` prints; the others are
//! plain printings, whose form docs/FORMATS.md has ("Formats of lint").
#![tactic(auto)]

mod coloured;
mod format;
mod github;
mod json;
mod row;
mod sarif;

pub use format::{Format, end, front, rows};
