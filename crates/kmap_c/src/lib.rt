//! The console for C. It runs over the bytes of table files and keeps its state in the memory of its caller. It takes
//! no memory, and needs no function of a C library but memcpy, memmove and memset.
//!
//! The header kmap.h declares the calls, which stand in `tables`, `texts`, `narrow`, `console`, `sentences` and `keys`.
//! A slice is a pointer and a length there. Any bytes are safe as tables and as the state of a console; what is
//! answered is promised where the tables are the image of a keymap, which `kmap_check` tells, and where the state is
//! one that `kmap_start` and steps under the same tables left.
#![tactic(auto)]

mod buffer;
pub mod console;
pub mod keys;
pub mod narrow;
mod print;
pub mod sentences;
mod status;
pub mod tables;
pub mod texts;
mod words;
