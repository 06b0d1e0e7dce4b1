//! `kmap compile`: the table file of a text takes the place of OUT.
use crate::inputs::{buffered, opened_file};
use crate::program::{Failure, FileFault, run_outcome};
use crate::replace::{Old, ReplaceFault, is_same, replace};
use keymap_core::{Accent, Definitions, Entry, FromStd, ReadError, ToStd, read_up_to, write_text};
use keymap_tables::{NARROW_FILE, WIDE_FILE};
use keymap_text::{LIMIT, read_into};
use kmap_runs::{RunError, compile_narrow_run, compile_run};
use std::fs;
use std::fs::{File, Metadata};

/// What a new table file has behind the name of the old one until it takes its place.
const SUFFIX: &str = ".kmap-new";

/// Whether a file of this name can be replaced by a new one. A pipe, a device or a folder can't, nor can a link to
/// nothing; and what the program was given as an open file is to be written there, whatever file it is.
fn is_replaceable(rt: &HostRuntime, out: &str) -> bool {
    match fs::symlink_metadata(rt, out) {
        Ok(found) if found.is_symlink() && is_of_the_system(out) => false,
        Ok(_) => fs::metadata(rt, out).is_ok_and(|file| file.is_file()),
        Err(_) => !out.is_empty(),
    }
}

/// Whether a link of this name may stand for an open file, as /dev/stdout and /proc/self/fd/1 do.
fn is_of_the_system(name: &str) -> bool {
    name.starts_with("/dev/") || name.starts_with("/proc/")
}

/// Whether OUT is the file that the text was read from. What has no bytes of its own, as a terminal, may be both.
fn is_the_text(rt: &HostRuntime, text: &Metadata, out: &str) -> bool {
    text.is_file() && fs::metadata(rt, out).is_ok_and(|found| is_same(&found, text))
}

/// Whether a definition came by.
#[derive(Drop)]
struct Came(bool);

impl Definitions for Came {
    ghost use Rattle.std.specs.Prelude.{⊤};

    ghost shows = { λ _ _. ⊤ };

    fn define(&mut self, _slot: u8, _entry: Entry) {
        self.0 = true;
    }

    fn define_accent(&mut self, _index: u8, _accent: Accent) {
        self.0 = true;
    }
}

/// Whether OUT is a keymap text itself, in which a definition stands before any fault. What isn't a regular file isn't
/// read.
fn is_a_text<'a>(rt: &HostRuntime, out: &str) -> Result<bool, Failure<'a>> {
    if !fs::metadata(rt, out).is_ok_and(|found| found.is_file()) {
        return Ok(false);
    }
    let Ok(file) = fs::open(rt, out) else {
        return Ok(false);
    };
    match read_up_to(rt.alloc(), &mut FromStd::new(file), LIMIT) {
        Ok(bytes) => {
            let mut came = Came(false);
            let _ = read_into(bytes.as_slice(), &mut came);
            Ok(came.0)
        }
        Err(ReadError::Memory) => Err(Failure::of_run(RunError::Memory)),
        Err(ReadError::Read(_)) => Ok(false),
    }
}

/// The table file is made before OUT is touched, so a fault of the text leaves an old OUT as it is; and so does a fault
/// of writing, since a new file takes the place of the old one. A keymap that doesn't fit in a narrow file leaves an
/// empty OUT, which nobody takes for its tables. An OUT that is a keymap text stays: it may be the second of many that
/// were meant for another command.
pub(crate) fn compile<'a>(
    rt: &HostRuntime,
    text: &'a str,
    out: &'a str,
    narrow: bool,
) -> Result<(), Failure<'a>> {
    let file = opened_file(rt, text)?;
    let Ok(found) = file.metadata() else {
        return Err(Failure::File(text, FileFault::CannotOpen));
    };
    let mut source = buffered(rt, file)?;
    let mut table = [0; WIDE_FILE];
    let mut room = ToStd::new(table.as_mut_slice());
    let (outcome, size) = if narrow {
        let outcome = compile_narrow_run(rt.alloc(), &mut source, &mut room);
        (outcome, NARROW_FILE)
    } else {
        let outcome = compile_run(rt.alloc(), &mut source, &mut room);
        (outcome, WIDE_FILE)
    };
    let table = match outcome {
        Ok(()) => &table[..size],
        Err(RunError::TooWide(_)) => &table[..0],
        Err(error) => return Err(Failure::of_run(error)),
    };
    if is_the_text(rt, &found, out) || is_a_text(rt, out)? {
        return Err(Failure::File(out, FileFault::CannotCreate));
    }
    write_table(rt, table, out)?;
    run_outcome(outcome)
}

/// Writes a table file under this name: in place where no new file can take the place of the old one.
fn write_table<'a>(rt: &HostRuntime, table: &[u8], out: &'a str) -> Result<(), Failure<'a>> {
    if is_replaceable(rt, out) {
        let old = match fs::metadata(rt, out) {
            Ok(old) => Old::Owned(old),
            Err(_) => Old::Absent,
        };
        match replace(rt, out, &old, SUFFIX, table) {
            Err(ReplaceFault::TakesNone(_)) => {}
            Err(fault) => return Err(failure_of(out, fault)),
            Ok(()) => return Ok(()),
        }
    }
    let Ok(file) = fs::create(rt, out) else {
        return Err(Failure::File(out, FileFault::CannotCreate));
    };
    run_outcome(write_text(&mut ToStd::new(file), table).map_err(RunError::Write))
}

/// Why no table file of this name was written.
fn failure_of<'a>(out: &'a str, fault: ReplaceFault) -> Failure<'a> {
    match fault {
        ReplaceFault::Memory => Failure::of_run(RunError::Memory),
        ReplaceFault::NotWritable | ReplaceFault::TakesNone(_) | ReplaceFault::CannotCreate(_) =>
            Failure::File(out, FileFault::CannotCreate),
        ReplaceFault::Write(fault) | ReplaceFault::Partly(fault) => {
            Failure::of_run(RunError::Write(fault))
        }
        ReplaceFault::Changed | ReplaceFault::CannotReplace => {
            Failure::File(out, FileFault::CannotReplace)
        }
    }
}
