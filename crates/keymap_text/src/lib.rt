//! The text form of keymaps, that of keymap(5) in the profile of docs/FORMATS.md: tokens, the reader and the printer.
//!
//! A text is a row of definitions of keys and accents. It spells one map or has one fault, and the reader answers
//! exactly that, whether the text comes whole, in pieces or from a device. The crate stands on `keymap_core`, whose
//! maps it reads and prints.
#![tactic(auto)]

mod defining;
mod fault;
mod grammar;
pub mod laws;
mod layout;
mod names;
mod printer;
mod reader;
mod reading;
mod scanner;
mod source;
mod token;
mod words;

pub use defining::read_into;
pub use fault::{TextError, TextFault, TextFaultKind};
pub use grammar::character_of;
pub use layout::{accent_line, accent_words, character_text, flag_letter, key_line, slot_words};
pub use names::control_name;
pub use printer::print_map;
pub use reader::{MapReader, read_map};
pub use source::{LIMIT, read_from};
pub use token::{Span, Token, TokenKind, is_space_byte, line_end, next_token, space_len, word_len};
pub use words::{Item, Meaning, item_of, word_meaning};
