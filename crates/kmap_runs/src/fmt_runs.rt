//! The runs that lay a text out.
ghost use Rattle.std.specs.Prelude.{◌≡◌, ◌||◌, MatchOption, MatchResult};
ghost use Rattle.kmap_runs.specs.FmtRuns as spec;
ghost use Rattle.kmap_runs.specs.Inputs.{blames_text, run_of};
ghost use Rattle.kmap_runs.specs.Runs.{blames_writer};

use crate::fault_line::{CommandError, RunError};
use crate::inputs::read_text_bytes;
use keymap_core::{Read, Write, write_text};
use keymap_fmt::{Characters, FormatError, format};
use std::alloc::Global;

fn format_failure(error: FormatError) -> CommandError
    ensures { result ≡ spec.of_format_error error }
{
    match error {
        FormatError::Memory => CommandError::Run(RunError::Memory),
        FormatError::Fault(fault) => CommandError::Run(RunError::Text(fault)),
        FormatError::TooLong => CommandError::TooLong,
    }
}

/// A text that is read whole, and the same text in the layout.
fn read_and_laid_out<R: Read>(
    alloc: Global,
    reader: &mut R,
    characters: Characters,
) -> Result<(Vec<u8>, Vec<u8>), CommandError>
    ensures reads { MatchResult result
        (λ r. spec.LaysOut characters (R.remaining reader.old) (R.remaining reader.new) r.0.items r.1.items)
        (spec.RefusesLayout characters (R.remaining reader.old) (R.remaining reader.new)) }
    ensures failed { R.has_failed reader.new ≡ (blames_text (run_of result) || R.has_failed reader.old) }
{
    let text = read_text_bytes(alloc, reader)?;
    match format(alloc, text.as_slice(), characters) {
        Ok(laid) => Ok((text, laid)),
        Err(error) => Err(format_failure(error)),
    }
}

/// Reads a text, and answers its layout where that differs from it.
pub fn fmt_run<R: Read>(
    alloc: Global,
    reader: &mut R,
    characters: Characters,
) -> Result<Option<Vec<u8>>, CommandError>
    ensures run { MatchResult result
        (λ told. MatchOption told (spec.IsInLayout characters (R.remaining reader.old) (R.remaining reader.new))
        (λ laid. spec.ChangesText characters (R.remaining reader.old) (R.remaining reader.new) laid.items))
        (spec.RefusesLayout characters (R.remaining reader.old) (R.remaining reader.new)) }
    ensures reader_failed { R.has_failed reader.new ≡ (blames_text (run_of result) || R.has_failed reader.old) }
{
    let (text, laid) = read_and_laid_out(alloc, reader, characters)?;
    if text.as_slice() == laid.as_slice() {
        Ok(None)
    } else {
        Ok(Some(laid))
    }
}

/// Reads a text and writes its layout.
pub fn fmt_print_run<R: Read, W: Write>(
    alloc: Global,
    reader: &mut R,
    characters: Characters,
    writer: &mut W,
) -> Result<(), CommandError>
    ensures run { spec.PrintsLayout characters (R.remaining reader.old) (R.remaining reader.new) (W.contents writer.old)
        (W.contents writer.new) result }
    ensures reader_failed { R.has_failed reader.new ≡ (blames_text (run_of result) || R.has_failed reader.old) }
    ensures writer_failed { W.has_failed writer.new ≡ (blames_writer (run_of result) || W.has_failed writer.old) }
{
    let (_, laid) = read_and_laid_out(alloc, reader, characters)?;
    match write_text(writer, laid.as_slice()) {
        Ok(()) => Ok(()),
        Err(fault) => Err(CommandError::Run(RunError::Write(fault))),
    }
}
