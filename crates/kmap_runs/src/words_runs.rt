//! The runs that tell in words how characters are typed.
ghost use Rattle.std.specs.Prelude.{◌≡◌, ◌||◌, List, IfOk, IfErr};
ghost use Rattle.kmap_runs.specs.Inputs.{blames_sentence, blames_text, run_of};
ghost use Rattle.kmap_runs.specs.Runs.{AreToldInWords, LacksDecision, LacksSheet, TellsAllInWords};
ghost use Rattle.kmap_runs.specs.Runs.{TellsInWords, blames_writer};
ghost use Rattle.kmap_runs.specs.Spelling.{IsSheet};
ghost use Rattle.kmap_runs.specs.declared.spelling.Spelled.{Spelled as SpelledValue};
ghost use Rattle.play_core.specs.Runs.{moves};

use crate::fault_line::{CommandError, RunError};
use crate::inputs::{read_sentence, read_text};
use crate::runs::command_once_written;
use crate::spelling::{spelled_all, spelled_in};
use crate::type_error::TypeError;
use crate::word_lines::{WaysTold, word_lines};
use keyboard::Board;
use keymap_core::{KeyMap, Read, Write};
use std::alloc::Global;

/// Why no more characters are told, if something ended them, and the lines of those before.
fn told_of(
    alloc: Global,
    map: &KeyMap,
    board: Board,
    told: WaysTold,
    sentence: &[u8],
) -> Result<(Option<TypeError>, Vec<u8>), CommandError>
    ensures ok { IfOk result (λ r. AreToldInWords board map.now sentence.now r.0) }
    ensures err { IfErr result (LacksDecision map.now sentence.now) }
{
    let spelling = match spelled_in(alloc, map, board, sentence) {
        Ok(spelling) => spelling,
        Err(TypeError::NotText { offset }) => return Err(CommandError::NotText { offset }),
        Err(TypeError::TooManyStates) => return Err(CommandError::TooManyStates),
        Err(_) => return Err(CommandError::Run(RunError::Memory)),
    };
    match word_lines(alloc, map, board, told, spelling.each.as_slice()) {
        Ok(text) => Ok((spelling.stopped, text)),
        Err(TypeError::TooManyStates) => Err(CommandError::TooManyStates),
        Err(_) => Err(CommandError::Run(RunError::Memory)),
    }
}

/// Reads a text and then a sentence, and writes lines for each different character of the sentence, by which keys it is
/// typed on the map of the text, up to the first one that isn't. Answers why that one isn't, if there is one.
pub fn type_words_run<R: Read, S: Read, W: Write>(
    alloc: Global,
    board: Board,
    told: WaysTold,
    text: &mut R,
    sentence: &mut S,
    writer: &mut W,
) -> Result<Option<TypeError>, CommandError>
    ensures run { TellsInWords board (moves (R.remaining text.old) (R.remaining text.new))
        (moves (S.remaining sentence.old) (S.remaining sentence.new))
        (moves (W.contents writer.old) (W.contents writer.new)) result }
    ensures text_failed { R.has_failed text.new ≡ (blames_text (run_of result) || R.has_failed text.old) }
    ensures sentence_failed { S.has_failed sentence.new ≡ (blames_sentence result || S.has_failed sentence.old) }
    ensures writer_failed { W.has_failed writer.new ≡ (blames_writer (run_of result) || W.has_failed writer.old) }
{
    let map = read_text(alloc, text)?;
    let bytes = read_sentence(alloc, sentence)?;
    let (stopped, lines) = told_of(alloc, &map, board, told, bytes.as_slice())?;
    command_once_written(writer, lines.as_slice(), stopped)
}

/// The lines of the characters that keys of the board type.
fn sheet_of(
    alloc: Global,
    map: &KeyMap,
    board: Board,
    told: WaysTold,
) -> Result<Vec<u8>, CommandError>
    ensures ok { IfOk result (λ lines. (xs : List SpelledValue) × IsSheet board map.now xs) }
    ensures err { IfErr result (LacksSheet map.now) }
{
    let each = match spelled_all(alloc, map, board) {
        Ok(each) => each,
        Err(TypeError::TooManyStates) => return Err(CommandError::TooManyStates),
        Err(_) => return Err(CommandError::Run(RunError::Memory)),
    };
    match word_lines(alloc, map, board, told, each.as_slice()) {
        Ok(text) => Ok(text),
        Err(TypeError::TooManyStates) => Err(CommandError::TooManyStates),
        Err(_) => Err(CommandError::Run(RunError::Memory)),
    }
}

/// Reads a text, and writes such lines for each character that keys of the board type on its map.
pub fn type_sheet_run<R: Read, W: Write>(
    alloc: Global,
    board: Board,
    told: WaysTold,
    text: &mut R,
    writer: &mut W,
) -> Result<(), CommandError>
    ensures run { TellsAllInWords board (moves (R.remaining text.old) (R.remaining text.new))
        (moves (W.contents writer.old) (W.contents writer.new)) result }
    ensures text_failed { R.has_failed text.new ≡ (blames_text (run_of result) || R.has_failed text.old) }
    ensures writer_failed { W.has_failed writer.new ≡ (blames_writer (run_of result) || W.has_failed writer.old) }
{
    let map = read_text(alloc, text)?;
    let lines = sheet_of(alloc, &map, board, told)?;
    command_once_written(writer, lines.as_slice(), ())
}
