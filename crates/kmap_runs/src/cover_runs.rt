//! The run that prints a script which shows a console what a keymap can do.
ghost use Rattle.std.specs.Prelude.{◌≡◌, ◌||◌, IfOk, IfErr};
ghost use Rattle.kmap_runs.specs.Inputs.{blames_text, run_of};
ghost use Rattle.kmap_runs.specs.Runs.{CoversText, IsCovered, LacksCover, blames_writer};
ghost use Rattle.play_core.specs.Runs.{moves};

use crate::fault_line::{CommandError, RunError};
use crate::inputs::read_text;
use crate::runs::command_once_written;
use keymap_core::{KeyMap, Read, Write};
use keymap_cover::cover_of;
use script_text::cover_text;
use std::alloc::{AllocError, Global};

/// What is printed of the script of a keymap.
fn covered(alloc: Global, map: &KeyMap) -> Result<Vec<u8>, CommandError>
    ensures ok { IfOk result (λ text. IsCovered map.now tt text.items) }
    ensures err { IfErr result (LacksCover map.now) }
{
    let cover = match cover_of(alloc, map) {
        Ok(Some(cover)) => cover,
        Ok(None) => return Err(CommandError::TooManyStates),
        Err(AllocError) => return Err(CommandError::Run(RunError::Memory)),
    };
    match cover_text(alloc, map, &cover) {
        Ok(text) => Ok(text),
        Err(AllocError) => Err(CommandError::Run(RunError::Memory)),
    }
}

/// Reads a text and writes a script that looks up each cell of its map that can be looked up, composes each accent with
/// each base, and tries what keys do to each other; before it, in comments, how much it sees and what it doesn't.
pub fn cover_run<R: Read, W: Write>(
    alloc: Global,
    reader: &mut R,
    writer: &mut W,
) -> Result<(), CommandError>
    ensures run { CoversText (moves (R.remaining reader.old) (R.remaining reader.new))
        (moves (W.contents writer.old) (W.contents writer.new)) result }
    ensures reader_failed { R.has_failed reader.new ≡ (blames_text (run_of result) || R.has_failed reader.old) }
    ensures writer_failed { W.has_failed writer.new ≡ (blames_writer (run_of result) || W.has_failed writer.old) }
{
    let map = read_text(alloc, reader)?;
    let told = covered(alloc, &map)?;
    command_once_written(writer, told.as_slice(), ())
}
