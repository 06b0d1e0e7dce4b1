//! The diagnostics of a keymap text: its faults, or what is wrong or doubtful in a text that spells a keymap.
//!
//! keymap_text tells where the parts of a text stand; the crate also takes the check and the search for sticking
//! modifiers. `diagnostics` answers values, each with the offset of its place; the words are those of keymap_lint_text.
//!
//! What is promised (`IsLint`, `specs/Lists.antt`): the faults of a text that has one, and else kind by kind exactly
//! the diagnostics that the definitions say, each at its place, those without a place first and then by place.
#![tactic(auto)]

mod alphabet;
mod bare_digit;
mod capitals;
mod cells;
mod collect;
mod dead_key;
mod defined_again;
mod diagnostic;
mod directives;
mod exchanged;
mod faults;
mod gap;
mod half_defined;
mod ignored;
pub mod laws;
mod lint;
mod mixed_key;
mod no_caps;
mod no_control;
mod no_key;
mod no_shift;
mod octal_like;
mod order;
mod pair_again;
mod spelled;
mod twice;
mod typed;
mod unused_half;
mod zero_accent;

pub use diagnostic::{BadIgnore, Diagnostic, Diagnostics, Kind, Lint, PlacedFault, Severity};
pub use lint::diagnostics;
pub use spelled::bytes_at;
