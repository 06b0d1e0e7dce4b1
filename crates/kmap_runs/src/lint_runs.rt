//! The run that prints the diagnostics of a text.
ghost use Rattle.std.specs.Prelude.{◌≡◌, ◌||◌, IfOk};
ghost use Rattle.kmap_runs.specs.Inputs.{blames_text};
ghost use Rattle.kmap_runs.specs.LintRuns as spec;
ghost use Rattle.kmap_runs.specs.Runs.{LintsText, blames_writer};
ghost use Rattle.play_core.specs.Runs.{moves};

use crate::fault_line::RunError;
use crate::inputs::read_text_bytes;
use crate::runs::answer_once_written;
use keymap_core::{Read, Write};
use keymap_lint::{Severity, diagnostics};
use keymap_lint_text::{count, remarks};
use lint_formats::{Format, rows};
use std::alloc::{AllocError, Global};

/// What was found in a text.
#[derive(Clone, Copy, Debug, PartialEq, Eq)]
pub struct Linted {
    /// No diagnostic is an error.
    pub is_well: bool,
    pub errors: usize,
    pub warnings: usize,
}

/// What is found in a text, and what is printed of it in a format, under the name of its file and behind rows of other
/// texts or none.
fn found_in(
    alloc: Global,
    format: Format,
    follows: bool,
    file: &[u8],
    source: &[u8],
) -> Result<(Linted, Vec<u8>), AllocError>
    ensures { IfOk result (λ r. spec.IsLinted format file.now source.now r.0 r.1.items) }
{
    let lint = diagnostics(alloc, source)?;
    let told = remarks(alloc, source, &lint)?;
    let list = told.as_slice();
    let text = rows(alloc, format, follows, file, source, list)?;
    let is_well = !lint.has_error();
    let errors = count(list, Severity::Error);
    let warnings = count(list, Severity::Warning);
    let found = Linted {
        is_well,
        errors,
        warnings,
    };
    Ok((found, text))
}

/// Reads a text and writes its diagnostics in a format, under the name of its file and behind rows of other texts or
/// none. Answers what was found.
pub fn lint_run<R: Read, W: Write>(
    alloc: Global,
    format: Format,
    follows: bool,
    file: &[u8],
    reader: &mut R,
    writer: &mut W,
) -> Result<Linted, RunError>
    ensures run { LintsText format file.now (moves (R.remaining reader.old) (R.remaining reader.new))
        (moves (W.contents writer.old) (W.contents writer.new)) result }
    ensures reader_failed { R.has_failed reader.new ≡ (blames_text result || R.has_failed reader.old) }
    ensures writer_failed { W.has_failed writer.new ≡ (blames_writer result || W.has_failed writer.old) }
{
    let source = read_text_bytes(alloc, reader)?;
    let Ok((found, told)) = found_in(alloc, format, follows, file, source.as_slice()) else {
        return Err(RunError::Memory);
    };
    answer_once_written(writer, told.as_slice(), found)
}
