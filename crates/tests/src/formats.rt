//! The tests of keymap_core, keymap_text and keymap_tables: the tables of codes and names, the limits of keymaps,
//! tokens, reading and printing of texts, table files of both forms, and devices that fail, those of std too.

mod actions;
mod devices;
mod faults;
mod maps;
mod pieces;
mod printing;
mod reading;
mod std_devices;
mod surface_of_core;
mod surface_of_tables;
mod surface_of_text;
mod table_faults;
mod tables;
mod tokens;
