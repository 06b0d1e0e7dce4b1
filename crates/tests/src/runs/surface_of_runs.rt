//! kmap_runs: the runs of the program `kmap` that check and dump, and the line of an error.

use crate::support::devices::{reader_of, sheet_of};
use keymap_core::{ReadFault, WriteFault};
use keymap_tables::{TableFault, Wide};
use keymap_text::TextFault;
use kmap_runs::{RunError, check_run, dump_narrow_run, dump_run, write_run_error};
use play_core::{PlayError, ScriptFault};

#[test]
fn run_errors() {
    let _: fn(TextFault) -> RunError = RunError::Text;
    let _: fn(TextFault) -> RunError = RunError::Next;
    let _: fn(ScriptFault) -> RunError = RunError::Script;
    let _: fn(TableFault) -> RunError = RunError::Tables;
    let _: fn(ReadFault) -> RunError = RunError::ReadText;
    let _: fn(ReadFault) -> RunError = RunError::ReadNext;
    let _: fn(ReadFault) -> RunError = RunError::ReadScript;
    let _: fn(ReadFault) -> RunError = RunError::ReadTables;
    let _: fn(Wide) -> RunError = RunError::TooWide;
    let _: fn(WriteFault) -> RunError = RunError::Write;
    match RunError::from(PlayError::Memory) {
        RunError::Memory | RunError::Text(_) | RunError::Next(_) | RunError::Script(_) => {}
        RunError::Tables(_) | RunError::ReadText(_) | RunError::ReadNext(_) => {}
        RunError::ReadScript(_) | RunError::ReadTables(_) => {}
        RunError::TooWide(_) | RunError::Write(_) => {}
    }
}

#[test]
fn runs(rt: HostRuntime) {
    let (mut input, mut out) = (reader_of(b"", 1, usize::MAX), sheet_of(0));
    let show: bool = false;
    let _: Result<bool, RunError> = check_run(rt.alloc(), &mut input, show, &mut out);
    let _: Result<(), RunError> = dump_run(rt.alloc(), &mut input, &mut out);
    let _: Result<(), RunError> = dump_narrow_run(rt.alloc(), &mut input, &mut out);
    let error: &RunError = &RunError::Memory;
    let _: Result<(), WriteFault> = write_run_error(error, &mut out);
}
