//! keymap_tables: table files and narrow files.

use crate::asserts::map_of;
use crate::support::devices::{reader_of, sheet_of};
use crate::support::keymaps::LETTER_AND_SHIFT;
use keymap_core::{KeyMap, ReadFault, WriteFault};
use keymap_tables::{
    NarrowError, TableError, TableFault, TableFaultKind, Wide, read_narrow, read_narrow_from,
    read_tables, read_tables_from, write_narrow, write_tables,
};
use std::alloc::Global;

#[test]
fn faults() {
    let kind = TableFaultKind::Short;
    match kind {
        TableFaultKind::Short | TableFaultKind::Long | TableFaultKind::BadCount => {}
        TableFaultKind::BadPad | TableFaultKind::BadFlag | TableFaultKind::BadAction => {}
        TableFaultKind::Combined | TableFaultKind::BadChar | TableFaultKind::NotEmpty => {}
    }
    let offset = 37_u64;
    let _ = TableFault { offset, kind };
    let _: fn(ReadFault) -> TableError = TableError::Read;
    let _: fn(TableFault) -> TableError = TableError::Fault;
    let (TableError::Memory | TableError::Read(_) | TableError::Fault(_)) = TableError::Memory;
}

/// The numbers of a place that is too wide.
fn numbers(wide: Wide) -> (u8, u8) {
    match wide {
        Wide::Cell { slot, column } => (slot, column),
        Wide::Accent { accent, number } => (accent, number),
    }
}

#[test]
fn faults_of_narrow_files() {
    let wide = Wide::Cell { slot: 0, column: 6 };
    let _: (u8, u8) = numbers(wide);
    let _: fn(Wide) -> NarrowError = NarrowError::TooWide;
    let _: fn(WriteFault) -> NarrowError = NarrowError::Write;
    let (NarrowError::TooWide(_) | NarrowError::Write(_)) = NarrowError::TooWide(wide);
}

#[test]
fn readers_and_writers(rt: HostRuntime) {
    let _: fn(Global, &[u8]) -> Result<KeyMap, TableError> = read_tables;
    let _: fn(Global, &[u8]) -> Result<KeyMap, TableError> = read_narrow;
    let mut tape = reader_of(b"", 1, usize::MAX);
    let _: Result<KeyMap, TableError> = read_tables_from(rt.alloc(), &mut tape);
    let _: Result<KeyMap, TableError> = read_narrow_from(rt.alloc(), &mut tape);
    let map: &KeyMap = &map_of(&rt, LETTER_AND_SHIFT);
    let _: Result<(), WriteFault> = write_tables(map, &mut sheet_of(9));
    let _: Result<(), NarrowError> = write_narrow(map, &mut sheet_of(9));
}
