//! A picture of a keymap: its keys with their legends on a board, as SVG.
//!
//! [`picture`] puts it together as a sheet, which is seen as the facts that a reader makes of its bytes (`Facts`,
//! `WellFormed`): its groups, shapes and texts, with their attributes. `Pictures` says which facts a picture tells,
//! `Halves` those of a board with the verdict, `Keys` those of a key, `Lists` those of the findings and the accents;
//! `Legends` has what is written on a cap for a cell, `Drawn` which cells are drawn, `Places` where and in which
//! classes. Of a change `Marks` says which keys and accents are marked, and `Changes` what stands below the board.
//!
//! Proved is that the bytes tell these facts and no other ones; and in [`laws`] that they are plain ASCII and well
//! formed, that legends have characters of XML alone that can be seen and classes are out of a list, that titles are
//! lines of the printed form, that a cap is red exactly if one of the findings is of its key, and that the boards are
//! those of `Keyboards` and no key stands over another one. The tables of capitals and marks are data, which
//! `bench/unseen.py` compares with Unicode's.
#![tactic(auto)]

mod board;
mod change;
mod changes;
mod characters;
mod constants;
mod drawing;
mod drawn;
mod half;
mod key;
pub mod laws;
mod legend;
mod lists;
mod marks;
mod markup;
mod name;
mod place;
mod sheet;
mod shown;
mod tables;
mod whole;
mod words;

pub use change::{About, Before, ChangeLine};
pub use keyboard::Board;
pub use whole::{picture, picture_of_change};
