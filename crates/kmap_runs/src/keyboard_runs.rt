//! The run that prints a script which tests a console by its keyboard.
ghost use Rattle.std.specs.Prelude.{◌≡◌, ◌||◌, IfOk, IfErr};
ghost use Rattle.kmap_runs.specs.Inputs.{blames_text, run_of};
ghost use Rattle.kmap_runs.specs.Runs.{CoversByKeyboard, IsCoverBy, IsCoveredBy, LacksKeyboardCover, blames_writer};
ghost use Rattle.play_core.specs.Runs.{moves};

use crate::fault_line::{CommandError, RunError};
use crate::inputs::read_text;
use crate::runs::command_once_written;
use keyboard_cover::{Keyboard, KeyboardCover, keyboard_cover_of, presses_of};
use keymap_core::{KeyMap, Read, Write};
use script_text::keyboard_text;
use std::alloc::{AllocError, Global};

/// The script of a keymap by a keyboard.
fn cover_by(alloc: Global, map: &KeyMap, keyboard: &Keyboard) -> Result<KeyboardCover, CommandError>
    ensures ok { IfOk result (λ cover. IsCoverBy keyboard.now map.now cover) }
    ensures err { IfErr result (LacksKeyboardCover keyboard.now map.now) }
{
    let presses = presses_of(keyboard);
    match keyboard_cover_of(alloc, map, &presses) {
        Ok(Some(cover)) => Ok(cover),
        Ok(None) => Err(CommandError::TooManyStates),
        Err(AllocError) => Err(CommandError::Run(RunError::Memory)),
    }
}

/// What is printed of it.
fn covered_by(
    alloc: Global,
    map: &KeyMap,
    keyboard: &Keyboard,
    sends_repeats: bool,
) -> Result<Vec<u8>, CommandError>
    ensures ok { IfOk result (λ text. IsCoveredBy keyboard.now sends_repeats map.now tt text.items) }
    ensures err { IfErr result (LacksKeyboardCover keyboard.now map.now) }
{
    let cover = cover_by(alloc, map, keyboard)?;
    if !cover.types(map) {
        return Err(CommandError::NoKeyTypes);
    }
    match keyboard_text(alloc, map, keyboard, &cover, sends_repeats) {
        Ok(text) => Ok(text),
        Err(AllocError) => Err(CommandError::Run(RunError::Memory)),
    }
}

/// Reads a text and writes a script that tests a console by a keyboard, in cases from rest to rest; before it, in
/// comments, how much it sees and what it leaves out. Where no repeats are sent, cases with one are left out.
pub fn keyboard_cover_run<R: Read, W: Write>(
    alloc: Global,
    keyboard: &Keyboard,
    sends_repeats: bool,
    reader: &mut R,
    writer: &mut W,
) -> Result<(), CommandError>
    ensures run { CoversByKeyboard keyboard.now sends_repeats (moves (R.remaining reader.old) (R.remaining reader.new))
        (moves (W.contents writer.old) (W.contents writer.new)) result }
    ensures reader_failed { R.has_failed reader.new ≡ (blames_text (run_of result) || R.has_failed reader.old) }
    ensures writer_failed { W.has_failed writer.new ≡ (blames_writer (run_of result) || W.has_failed writer.old) }
{
    let map = read_text(alloc, reader)?;
    let told = covered_by(alloc, &map, keyboard, sends_repeats)?;
    command_once_written(writer, told.as_slice(), ())
}
