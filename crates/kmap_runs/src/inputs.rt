//! Reading what the runs are given.
ghost use Rattle.std.specs.Prelude.{◌≡◌, ◌||◌, false, Ok, Err, MatchResult};
ghost use Rattle.std.specs.Option.{is_some};
ghost use Rattle.keymap_tables.specs.Sources.{ReadsTables, ReadsNarrow};
ghost use Rattle.kmap_runs.specs.Inputs as spec;
ghost use Rattle.kmap_runs.specs.Inputs.{ReadsBytes, ReadsFile, ReadsKeymaps, ReadsNext, ReadsOther, ReadsSentence};
ghost use Rattle.kmap_runs.specs.Inputs.{ReadsText, blames_next, blames_sentence, blames_tables, blames_text};
ghost use Rattle.kmap_runs.specs.Inputs.{has_failed_if, moves_if, run_of};
ghost use Rattle.kmap_runs.specs.Runs.{blames_writer};
ghost use Rattle.play_core.specs.Runs.{moves};

use crate::fault_line::{CommandError, RunError};
use keymap_core::{KeyMap, Read, ReadError};
use keymap_tables::{TableError, read_narrow_from, read_tables_from};
use keymap_text::{TextError, read_from};
use play_core::read_whole;
use std::alloc::Global;

fn text_error(error: TextError) -> RunError
    ensures { result ≡ spec.of_text error }
{
    match error {
        TextError::Memory => RunError::Memory,
        TextError::Read(fault) => RunError::ReadText(fault),
        TextError::Fault(fault) => RunError::Text(fault),
    }
}

fn next_error(error: TextError) -> RunError
    ensures { result ≡ spec.of_next error }
{
    match error {
        TextError::Memory => RunError::Memory,
        TextError::Read(fault) => RunError::ReadNext(fault),
        TextError::Fault(fault) => RunError::Next(fault),
    }
}

fn table_error(error: TableError) -> RunError
    ensures { result ≡ spec.of_tables error }
{
    match error {
        TableError::Memory => RunError::Memory,
        TableError::Read(fault) => RunError::ReadTables(fault),
        TableError::Fault(fault) => RunError::Tables(fault),
    }
}

/// The map of a text.
pub(crate) fn read_text<R: Read>(alloc: Global, reader: &mut R) -> Result<KeyMap, RunError>
    ensures reads { ReadsText (moves (R.remaining reader.old) (R.remaining reader.new)) result }
    ensures failed { R.has_failed reader.new ≡ (blames_text result || R.has_failed reader.old) }
    ensures next_kept { blames_next result ≡ false }
    ensures writer_kept { blames_writer result ≡ false }
{
    match read_from(alloc, reader) {
        Ok(map) => Ok(map),
        Err(error) => Err(text_error(error)),
    }
}

/// The map of a second text, where there is one.
fn read_next<N: Read>(alloc: Global, next: &mut Option<N>) -> Result<Option<KeyMap>, RunError>
    ensures reads { ReadsNext (moves_if N.remaining next.old next.new) result }
    ensures stays { is_some next.new ≡ is_some next.old }
    ensures failed { has_failed_if N.has_failed next.new
        ≡ (blames_next result || has_failed_if N.has_failed next.old) }
    ensures text_kept { blames_text result ≡ false }
    ensures writer_kept { blames_writer result ≡ false }
{
    match next {
        Some(reader) => match read_from(alloc, reader) {
            Ok(map) => Ok(Some(map)),
            Err(error) => Err(next_error(error)),
        },
        None => Ok(None),
    }
}

/// The map of a second text.
pub(crate) fn read_other<N: Read>(alloc: Global, next: &mut N) -> Result<KeyMap, RunError>
    ensures reads { ReadsOther (moves (N.remaining next.old) (N.remaining next.new)) result }
    ensures failed { N.has_failed next.new ≡ (blames_next result || N.has_failed next.old) }
    ensures text_kept { blames_text result ≡ false }
    ensures writer_kept { blames_writer result ≡ false }
{
    match read_from(alloc, next) {
        Ok(map) => Ok(map),
        Err(error) => Err(next_error(error)),
    }
}

/// The map of a text, and that of a second text, where there is one.
pub(crate) fn read_keymaps<R: Read, N: Read>(
    alloc: Global,
    text: &mut R,
    next: &mut Option<N>,
) -> Result<(KeyMap, Option<KeyMap>), RunError>
    ensures reads { ReadsKeymaps (moves (R.remaining text.old) (R.remaining text.new))
        (moves_if N.remaining next.old next.new) result }
    ensures text_failed { R.has_failed text.new ≡ (blames_text result || R.has_failed text.old) }
    ensures next_stays { is_some next.new ≡ is_some next.old }
    ensures next_failed { has_failed_if N.has_failed next.new
        ≡ (blames_next result || has_failed_if N.has_failed next.old) }
    ensures writer_kept { blames_writer result ≡ false }
{
    let first = read_text(alloc, text)?;
    let second = read_next(alloc, next)?;
    Ok((first, second))
}

/// The bytes of a text, which are read whole.
pub(crate) fn read_text_bytes<R: Read>(alloc: Global, reader: &mut R) -> Result<Vec<u8>, RunError>
    ensures reads { MatchResult result
        (λ bytes. ReadsBytes (moves (R.remaining reader.old) (R.remaining reader.new)) (Ok bytes.items))
        (λ e. ReadsBytes (moves (R.remaining reader.old) (R.remaining reader.new)) (Err e)) }
    ensures failed { R.has_failed reader.new ≡ (blames_text result || R.has_failed reader.old) }
    ensures writer_kept { blames_writer result ≡ false }
{
    match read_whole(alloc, reader) {
        Ok(bytes) => Ok(bytes),
        Err(ReadError::Memory) => Err(RunError::Memory),
        Err(ReadError::Read(fault)) => Err(RunError::ReadText(fault)),
    }
}

/// The bytes of a sentence, which are read whole.
pub(crate) fn read_sentence<S: Read>(alloc: Global, reader: &mut S) -> Result<Vec<u8>, CommandError>
    ensures reads { MatchResult result
        (λ bytes. ReadsSentence (moves (S.remaining reader.old) (S.remaining reader.new)) (Ok bytes.items))
        (λ e. ReadsSentence (moves (S.remaining reader.old) (S.remaining reader.new)) (Err e)) }
    ensures failed { S.has_failed reader.new ≡ (blames_sentence result || S.has_failed reader.old) }
    ensures text_kept { blames_text (run_of result) ≡ false }
    ensures writer_kept { blames_writer (run_of result) ≡ false }
{
    match read_whole(alloc, reader) {
        Ok(bytes) => Ok(bytes),
        Err(ReadError::Memory) => Err(CommandError::Run(RunError::Memory)),
        Err(ReadError::Read(fault)) => Err(CommandError::ReadSentence(fault)),
    }
}

/// The map of a table file.
pub(crate) fn read_table_file<R: Read>(alloc: Global, reader: &mut R) -> Result<KeyMap, RunError>
    ensures reads { ReadsFile ReadsTables (moves (R.remaining reader.old) (R.remaining reader.new)) result }
    ensures failed { R.has_failed reader.new ≡ (blames_tables result || R.has_failed reader.old) }
    ensures writer_kept { blames_writer result ≡ false }
{
    match read_tables_from(alloc, reader) {
        Ok(map) => Ok(map),
        Err(error) => Err(table_error(error)),
    }
}

/// The map of a narrow file.
pub(crate) fn read_narrow_file<R: Read>(alloc: Global, reader: &mut R) -> Result<KeyMap, RunError>
    ensures reads { ReadsFile ReadsNarrow (moves (R.remaining reader.old) (R.remaining reader.new)) result }
    ensures failed { R.has_failed reader.new ≡ (blames_tables result || R.has_failed reader.old) }
    ensures writer_kept { blames_writer result ≡ false }
{
    match read_narrow_from(alloc, reader) {
        Ok(map) => Ok(map),
        Err(error) => Err(table_error(error)),
    }
}
