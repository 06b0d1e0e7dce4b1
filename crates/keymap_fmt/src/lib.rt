//! The layout of keymap texts: columns aligned, comments kept, and no byte of a token changed.
//!
//! A text is a row of pieces, its tokens and its comments, and the layout depends on these and on where each stands:
//! beside the one before it, in the next line, or behind an empty line. [`format`] writes them anew. [`laws`] says
//! that what it writes has the same tokens and, but for blanks at their ends, the same comments between them, spells
//! the same keymap, and is left alone when it is formatted again.
#![tactic(auto)]

pub mod laws;
mod layout;
mod piece;
mod quoted;
mod whole;

pub use quoted::Characters;
pub use whole::{FormatError, format};
