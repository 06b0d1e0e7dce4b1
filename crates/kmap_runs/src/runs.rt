//! The runs of the program over any reader and writer.
ghost use Rattle.std.specs.Prelude.{◌≡◌, ◌||◌, false, [], IfOk, MatchResult};
ghost use Rattle.std.specs.Io.KnownBytes.{Appends};
ghost use Rattle.keymap_core.specs.Bounds.{IsMap};
ghost use Rattle.keymap_draw.specs.Pictures.{IsPicture, drawing};
ghost use Rattle.keymap_tables.specs.Sources.{ReadsTables, ReadsNarrow};
ghost use Rattle.kmap_runs.specs.Inputs.{blames_next, blames_sentence, blames_tables, blames_text, of_command_writer};
ghost use Rattle.kmap_runs.specs.Inputs.{of_writer, run_of};
ghost use Rattle.kmap_runs.specs.Runs.{ChecksText, CompilesNarrowly, CompilesText, DrawsText, DumpsFile, Reports};
ghost use Rattle.kmap_runs.specs.Runs.{blames_writer};
ghost use Rattle.play_core.specs.Runs.{StopsWriting, moves};

use crate::fault_line::{CommandError, RunError};
use crate::inputs::{read_narrow_file, read_table_file, read_text};
use crate::report::{Text, append_report};
use keymap_check::check;
use keymap_core::laws::every_keymap_is_within_the_bounds;
use keymap_core::{KeyMap, Read, Write, write_text};
use keymap_draw::{Board, picture};
use keymap_tables::{NarrowError, write_narrow, write_tables};
use keymap_text::print_map;
use std::alloc::{AllocError, Global};

/// Writes a text, and once all of it is written answers this.
pub(crate) fn answer_once_written<X: Copy, W: Write>(
    writer: &mut W,
    told: &[u8],
    answer: X,
) -> Result<X, RunError>
    ensures bytes { MatchResult result
        (λ x. (x ≡ answer) × Appends (W.contents writer.old) (W.contents writer.new) told.now)
        (λ e. StopsWriting of_writer e told.now (moves (W.contents writer.old) (W.contents writer.new))) }
    ensures text_kept { blames_text result ≡ false }
    ensures next_kept { blames_next result ≡ false }
    ensures failed { W.has_failed writer.new ≡ (blames_writer result || W.has_failed writer.old) }
{
    match write_text(writer, told) {
        Ok(()) => Ok(answer),
        Err(fault) => Err(RunError::Write(fault)),
    }
}

/// The same, with an error of a command.
pub(crate) fn command_once_written<X: Copy, W: Write>(
    writer: &mut W,
    told: &[u8],
    answer: X,
) -> Result<X, CommandError>
    ensures bytes { MatchResult result
        (λ x. (x ≡ answer) × Appends (W.contents writer.old) (W.contents writer.new) told.now)
        (λ e. StopsWriting of_command_writer e told.now (moves (W.contents writer.old) (W.contents writer.new))) }
    ensures text_kept { blames_text (run_of result) ≡ false }
    ensures sentence_kept { blames_sentence result ≡ false }
    ensures failed { W.has_failed writer.new ≡ (blames_writer (run_of result) || W.has_failed writer.old) }
{
    match write_text(writer, told) {
        Ok(()) => Ok(answer),
        Err(fault) => Err(CommandError::Run(RunError::Write(fault))),
    }
}

/// Checks a map and appends the report. Answers whether the map is accepted.
fn reported(map: &KeyMap, show: bool, text: &mut Text) -> bool
    requires { text.old.items ≡ [] }
    ensures { Reports show map.now result text.new.items }
{
    let report = check(map);
    let accepted = report.accepted();
    append_report(text, map, &report, show);
    accepted
}

/// Reads a text, checks its map and writes the report, with a demonstration where it is asked for.
/// Answers whether the map was accepted.
pub fn check_run<R: Read, W: Write>(
    alloc: Global,
    reader: &mut R,
    show: bool,
    writer: &mut W,
) -> Result<bool, RunError>
    ensures run { ChecksText show (moves (R.remaining reader.old) (R.remaining reader.new))
        (moves (W.contents writer.old) (W.contents writer.new)) result }
    ensures reader_failed { R.has_failed reader.new ≡ (blames_text result || R.has_failed reader.old) }
    ensures writer_failed { W.has_failed writer.new ≡ (blames_writer result || W.has_failed writer.old) }
{
    let map = read_text(alloc, reader)?;
    let mut told = Text::new();
    let accepted = reported(&map, show, &mut told);
    match write_text(writer, told.as_slice()) {
        Ok(()) => Ok(accepted),
        Err(fault) => Err(RunError::Write(fault)),
    }
}

/// Reads a table file and prints its map as text.
pub fn dump_run<R: Read, W: Write>(
    alloc: Global,
    reader: &mut R,
    writer: &mut W,
) -> Result<(), RunError>
    ensures run { DumpsFile ReadsTables (moves (R.remaining reader.old) (R.remaining reader.new))
        (moves (W.contents writer.old) (W.contents writer.new)) result }
    ensures reader_failed { R.has_failed reader.new ≡ (blames_tables result || R.has_failed reader.old) }
    ensures writer_failed { W.has_failed writer.new ≡ (blames_writer result || W.has_failed writer.old) }
{
    let map = read_table_file(alloc, reader)?;
    print_map(&map, writer).map_err(RunError::Write)
}

/// Reads a narrow file and prints its map as text.
pub fn dump_narrow_run<R: Read, W: Write>(
    alloc: Global,
    reader: &mut R,
    writer: &mut W,
) -> Result<(), RunError>
    ensures run { DumpsFile ReadsNarrow (moves (R.remaining reader.old) (R.remaining reader.new))
        (moves (W.contents writer.old) (W.contents writer.new)) result }
    ensures reader_failed { R.has_failed reader.new ≡ (blames_tables result || R.has_failed reader.old) }
    ensures writer_failed { W.has_failed writer.new ≡ (blames_writer result || W.has_failed writer.old) }
{
    let narrow = read_narrow_file(alloc, reader)?;
    print_map(&narrow, writer).map_err(RunError::Write)
}

/// Reads a text and writes the table file of its map.
pub fn compile_run<R: Read, W: Write>(
    alloc: Global,
    reader: &mut R,
    writer: &mut W,
) -> Result<(), RunError>
    ensures run { CompilesText (moves (R.remaining reader.old) (R.remaining reader.new))
        (moves (W.contents writer.old) (W.contents writer.new)) result }
    ensures reader_failed { R.has_failed reader.new ≡ (blames_text result || R.has_failed reader.old) }
    ensures writer_failed { W.has_failed writer.new ≡ (blames_writer result || W.has_failed writer.old) }
{
    let map = read_text(alloc, reader)?;
    write_tables(&map, writer).map_err(RunError::Write)
}

/// Reads a text and writes the narrow file of its map, in which each character has one byte. Where a character has no
/// room there, nothing is written.
pub fn compile_narrow_run<R: Read, W: Write>(
    alloc: Global,
    reader: &mut R,
    writer: &mut W,
) -> Result<(), RunError>
    ensures run { CompilesNarrowly (moves (R.remaining reader.old) (R.remaining reader.new))
        (moves (W.contents writer.old) (W.contents writer.new)) result }
    ensures reader_failed { R.has_failed reader.new ≡ (blames_text result || R.has_failed reader.old) }
    ensures writer_failed { W.has_failed writer.new ≡ (blames_writer result || W.has_failed writer.old) }
{
    let map = read_text(alloc, reader)?;
    match write_narrow(&map, writer) {
        Ok(()) => Ok(()),
        Err(NarrowError::TooWide(wide)) => Err(RunError::TooWide(wide)),
        Err(NarrowError::Write(fault)) => Err(RunError::Write(fault)),
    }
}

/// The picture of a map on a board under a name, with what the check finds.
fn drawn_on(alloc: Global, map: &KeyMap, board: Board, name: &[u8]) -> Result<Vec<u8>, AllocError>
    ensures { IfOk result (λ text. IsMap map.now × IsPicture (drawing map.now board name.now) text.items) }
{
    every_keymap_is_within_the_bounds(map);
    match picture(alloc, map, &check(map), board, name) {
        Ok(drawn) => Ok(drawn),
        Err(error) => Err(error),
    }
}

/// Reads a text and writes the picture of its map on a board, headed by a name, as `picture` says.
pub fn draw_run<R: Read, W: Write>(
    alloc: Global,
    reader: &mut R,
    board: Board,
    name: &[u8],
    writer: &mut W,
) -> Result<(), RunError>
    ensures run { DrawsText board name.now (moves (R.remaining reader.old) (R.remaining reader.new))
        (moves (W.contents writer.old) (W.contents writer.new)) result }
    ensures reader_failed { R.has_failed reader.new ≡ (blames_text result || R.has_failed reader.old) }
    ensures writer_failed { W.has_failed writer.new ≡ (blames_writer result || W.has_failed writer.old) }
{
    let map = read_text(alloc, reader)?;
    let Ok(drawn) = drawn_on(alloc, &map, board, name) else {
        return Err(RunError::Memory);
    };
    answer_once_written(writer, drawn.as_slice(), ())
}
