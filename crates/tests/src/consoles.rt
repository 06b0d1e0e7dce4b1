//! The tests of console_core, console_states, keymap_check and keymap_diff: histories on both consoles, the searches
//! for sticking modifiers, the check of keymaps, and how two differ.

mod console;
mod differences;
mod histories;
mod promises;
mod reports;
mod searches;
mod surface_of_check;
mod surface_of_console;
mod tellings;
