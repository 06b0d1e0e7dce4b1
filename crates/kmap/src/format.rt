//! `kmap fmt`: texts are laid out, and written, compared or printed.
use crate::command_line::FmtMode;
use crate::inputs::{Source, buffered, given, is_standard_input, opened_or_why};
use crate::output::{Faults, Output, tell};
use crate::program::{Failure, FileFault, is_of_output, of_many, report, report_name, well};
use crate::replace::{Old, ReplaceFault, replace};
use keymap_core::{FromStd, read_up_to};
use keymap_fmt::Characters;
use kmap_runs::{RunError, fmt_print_run, fmt_run};
use std::alloc::{AllocError, Global};
use std::fs;
use std::fs::{File, Metadata};
use std::io::Read;

/// What a new file has behind the name of the old one until it takes its place.
const SUFFIX: &str = ".kmap-fmt";

/// Whether all is well: no text had a fault, and none was to be changed where they are only compared. A text that can't
/// be laid out or written gets its line, and the next one follows; where the output fails, none does.
pub(crate) fn format_texts<'a>(
    rt: &HostRuntime,
    mode: FmtMode,
    characters: Characters,
    texts: &[&'a str],
    faults: &mut Faults,
) -> Result<bool, Failure<'a>> {
    let mut well = true;
    for text in texts {
        let outcome = match mode {
            FmtMode::Write => return write_texts(rt, characters, texts, faults),
            FmtMode::Check => check_one(rt, characters, text),
            FmtMode::Print => print_one(rt, characters, text),
        };
        well = of_many(rt.alloc(), outcome, faults)? && well;
    }
    Ok(well)
}

/// Writes texts anew. Where no one reads the names any more, the texts are still written; where the output fails, it is
/// told which texts were replaced before.
fn write_texts<'a>(
    rt: &HostRuntime,
    characters: Characters,
    texts: &[&'a str],
    faults: &mut Faults,
) -> Result<bool, Failure<'a>> {
    let mut replaced = Vec::new(rt.alloc());
    let mut well = true;
    for text in texts {
        match write_one(rt, characters, text, &mut replaced) {
            Err(Failure::NoReader) => well = false,
            Err(Failure::Command(None, error)) if is_of_output(&error) => {
                report(rt.alloc(), &Failure::Command(Some(text), error), faults);
                report_replaced(rt, replaced.as_slice(), faults);
                return Ok(false);
            }
            outcome => well = of_many(rt.alloc(), outcome, faults)? && well,
        }
    }
    Ok(well)
}

/// Writes a line for each text that was replaced before the output failed.
fn report_replaced(rt: &HostRuntime, replaced: &[&str], faults: &mut Faults) {
    for text in replaced {
        report_name(rt.alloc(), b"kmap: ", text, b": replaced\n", faults);
    }
}

/// Writes a text anew if it isn't in the layout, and keeps its name.
fn write_one<'a>(
    rt: &HostRuntime,
    characters: Characters,
    text: &'a str,
    replaced: &mut Vec<&'a str>,
) -> Result<bool, Failure<'a>> {
    if is_standard_input(text) {
        return print_one(rt, characters, text);
    }
    let (old, file) = regular(rt, text)?;
    match laid_out(rt, characters, text, buffered(rt, file)?)? {
        Some(laid) => well(rewrite(rt, text, &Old::Read(old), laid.as_slice(), replaced)),
        None => Ok(true),
    }
}

/// Writes a layout in the place of its text, and tells the name. Another run may have written the same meanwhile.
fn rewrite<'a>(
    rt: &HostRuntime,
    text: &'a str,
    old: &Old,
    laid: &[u8],
    replaced: &mut Vec<&'a str>,
) -> Result<(), Failure<'a>> {
    let line = name_line(rt.alloc(), text)?;
    replaced.reserve(1)?;
    match replace(rt, text, old, SUFFIX, laid) {
        Ok(()) => {
            let _ = replaced.push(text);
            tell(rt, line.as_bytes())
        }
        Err(ReplaceFault::Changed) if has_text(rt, text, laid) => Ok(()),
        Err(fault) => Err(failure_of(text, fault)),
    }
}

/// Whether a file has these bytes and no others.
fn has_text(rt: &HostRuntime, name: &str, bytes: &[u8]) -> bool {
    match fs::open(rt, name) {
        Ok(file) => read_up_to(rt.alloc(), &mut FromStd::new(file), bytes.len() + 1).is_ok_and(
            |found| found.as_slice() == bytes,
        ),
        Err(_) => false,
    }
}

/// A regular file, which is open, and what is known of it.
fn regular<'a>(rt: &HostRuntime, text: &'a str) -> Result<(Metadata, File), Failure<'a>> {
    // A pipe isn't opened, since that waits for its other end.
    match fs::metadata(rt, text) {
        Ok(found) if found.is_file() => {}
        Ok(_) => return Err(Failure::File(text, FileFault::NotRegular)),
        Err(error) => return Err(Failure::File(text, FileFault::CannotOpenFor(error.kind()))),
    }
    let file = opened_or_why(rt, text)?;
    match file.metadata() {
        Ok(found) if found.is_file() => Ok((found, file)),
        Ok(_) => Err(Failure::File(text, FileFault::NotRegular)),
        Err(error) => Err(Failure::File(text, FileFault::CannotOpenFor(error.kind()))),
    }
}

/// Whether a text is in the layout. If not, its name is told.
fn check_one<'a>(
    rt: &HostRuntime,
    characters: Characters,
    text: &'a str,
) -> Result<bool, Failure<'a>> {
    let is_laid = laid_out(rt, characters, text, given(rt, text)?)?.is_none();
    if !is_laid {
        tell_name(rt, text)?;
    }
    Ok(is_laid)
}

fn tell_name<'a>(rt: &HostRuntime, name: &str) -> Result<(), Failure<'a>> {
    let line = name_line(rt.alloc(), name)?;
    tell(rt, line.as_bytes())
}

fn print_one<'a>(
    rt: &HostRuntime,
    characters: Characters,
    text: &'a str,
) -> Result<bool, Failure<'a>> {
    let mut source = given(rt, text)?;
    let mut out = Output::new(rt);
    let outcome = fmt_print_run(rt.alloc(), &mut source, characters, &mut out);
    well(out.file_outcome(text, outcome))
}

/// The layout of a text where that differs from it.
fn laid_out<'a, F: Read + Drop>(
    rt: &HostRuntime,
    characters: Characters,
    text: &'a str,
    mut source: Source<F>,
) -> Result<Option<Vec<u8>>, Failure<'a>> {
    match fmt_run(rt.alloc(), &mut source, characters) {
        Ok(laid) => Ok(laid),
        Err(error) => Err(Failure::Command(Some(text), error)),
    }
}

fn failure_of<'a>(text: &'a str, fault: ReplaceFault) -> Failure<'a> {
    match fault {
        ReplaceFault::Memory => Failure::of_run(RunError::Memory),
        ReplaceFault::TakesNone(name) | ReplaceFault::CannotCreate(name) => {
            Failure::CannotCreateNew(name)
        }
        ReplaceFault::Write(fault) | ReplaceFault::Partly(fault) => {
            Failure::Command(Some(text), RunError::Write(fault).into())
        }
        ReplaceFault::Changed => Failure::File(text, FileFault::Changed),
        ReplaceFault::NotWritable | ReplaceFault::CannotReplace => {
            Failure::File(text, FileFault::CannotReplace)
        }
    }
}

/// The name of a file and a line feed. They are written at once, since another run may write into the same file.
fn name_line(alloc: Global, name: &str) -> Result<String, AllocError> {
    format!(in alloc; "{name}\n")
}
