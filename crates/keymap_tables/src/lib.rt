//! Binary keymap tables: the layout of `struct keymap` and `struct accentmap` of sys/kbio.h, 15,524 bytes, numbers
//! little endian.
//!
//! `write_tables` writes the one image of a map. `read_tables` answers the map whose image the bytes are, or else the
//! fault of least offset. `read_tables_from` does so with the bytes of a reader.
//!
//! The narrow file is this project's own: the same parts with one byte a number and no pads, 4,139 bytes.
//! `write_narrow`, `read_narrow` and `read_narrow_from` are the same calls for it. A map fits if no character is above
//! 255; `write_narrow` names the first that is, and writes nothing.
//!
//! `Tables` is a keymap that is read in place, from the bytes of a table file: a console runs over it without a map and
//! without memory.
//!
//! Both files are one format at two widths (`Layout`): images, faults, writers and readers are said once.
//!
//! The crate stands on keymap_core, which has the maps and the devices.
#![tactic(auto)]

mod accent;
mod check;
mod content;
mod count;
mod fault;
mod file;
pub mod laws;
mod layout;
mod narrow;
mod number;
mod read;
mod read_accent;
mod read_slot;
mod row;
mod slot;
mod source;
mod tables;
mod write;

pub use check::{Unkept, check_narrow, check_tables};
pub use fault::{TableError, TableFault, TableFaultKind};
pub use file::{NarrowFile, TableFile};
pub use layout::{NARROW_FILE, WIDE_FILE};
pub use narrow::{NarrowError, Wide, wide_in, write_narrow};
pub use read::{read_narrow, read_tables};
pub use source::{read_narrow_from, read_tables_from};
pub use tables::{NarrowTables, Tables, TablesIn};
pub use write::write_tables;
