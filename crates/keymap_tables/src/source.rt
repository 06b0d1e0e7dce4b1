//! Reading of tables from a reader.
ghost use Rattle.std.specs.Prelude.{◌≡◌, ◌||◌};
ghost use Rattle.keymap_tables.specs.Sources.{ReadsTables, ReadsNarrow, blames_reader};

use crate::fault::TableError;
use crate::layout::{NARROW_FILE, WIDE_FILE};
use crate::read::{read_narrow, read_tables};
use keymap_core::{KeyMap, Read, ReadError, read_up_to};
use std::alloc::Global;

/// Reads a table file from a reader, of which at most one byte more than a table file has is taken.
pub fn read_tables_from<R: Read>(alloc: Global, reader: &mut R) -> Result<KeyMap, TableError>
    ensures tables { ReadsTables (R.remaining reader.old) (R.remaining reader.new) result }
    ensures failed { R.has_failed reader.new ≡ (blames_reader result || R.has_failed reader.old) }
{
    match read_up_to(alloc, reader, WIDE_FILE + 1) {
        Ok(bytes) => read_tables(alloc, &bytes),
        Err(ReadError::Memory) => Err(TableError::Memory),
        Err(ReadError::Read(fault)) => Err(TableError::Read(fault)),
    }
}

/// Reads a narrow file from a reader, of which at most one byte more than a narrow file has is taken.
pub fn read_narrow_from<R: Read>(alloc: Global, reader: &mut R) -> Result<KeyMap, TableError>
    ensures tables { ReadsNarrow (R.remaining reader.old) (R.remaining reader.new) result }
    ensures failed { R.has_failed reader.new ≡ (blames_reader result || R.has_failed reader.old) }
{
    match read_up_to(alloc, reader, NARROW_FILE + 1) {
        Ok(bytes) => read_narrow(alloc, &bytes),
        Err(ReadError::Memory) => Err(TableError::Memory),
        Err(ReadError::Read(stop)) => Err(TableError::Read(stop)),
    }
}
