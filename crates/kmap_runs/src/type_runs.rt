//! The run that prints the script which types a sentence.
ghost use Rattle.std.specs.Prelude.{◌≡◌, ◌||◌, IfOk, IfErr};
ghost use Rattle.kmap_runs.specs.Inputs.{blames_sentence, blames_text, run_of};
ghost use Rattle.kmap_runs.specs.Runs.{LacksScript, Types, TypesSentence, blames_writer};
ghost use Rattle.play_core.specs.Runs.{moves};

use crate::fault_line::{CommandError, RunError};
use crate::inputs::{read_sentence, read_text};
use crate::runs::command_once_written;
use crate::sentence::type_sentence;
use crate::type_error::TypeError;
use crate::typing::typing_script;
use keyboard::Board;
use keymap_core::{KeyMap, Read, Write};
use std::alloc::{AllocError, Global};

/// The script that types the sentence on the map.
fn script_for(
    alloc: Global,
    map: &KeyMap,
    board: Board,
    sentence: &[u8],
) -> Result<Vec<u8>, CommandError>
    ensures ok { IfOk result (λ script. Types board map.now sentence.now script.items) }
    ensures err { IfErr result (LacksScript map.now sentence.now) }
{
    let typing = match type_sentence(alloc, map, board, sentence) {
        Ok(typing) => typing,
        Err(TypeError::Memory) => return Err(CommandError::Run(RunError::Memory)),
        Err(TypeError::NotText { offset }) => return Err(CommandError::NotText { offset }),
        Err(TypeError::NoWay { offset, c }) => return Err(CommandError::NoWay { offset, c }),
        Err(TypeError::TooManyStates) => return Err(CommandError::TooManyStates),
    };
    match typing_script(alloc, &typing) {
        Ok(script) => Ok(script),
        Err(AllocError) => Err(CommandError::Run(RunError::Memory)),
    }
}

/// Reads a text and then a sentence, and prints a script of the events that type the sentence on the map of the text:
/// the events of each character, and before those of each line of the sentence a comment that shows it.
pub fn type_run<R: Read, S: Read, W: Write>(
    alloc: Global,
    board: Board,
    text: &mut R,
    sentence: &mut S,
    writer: &mut W,
) -> Result<(), CommandError>
    ensures run { TypesSentence board (moves (R.remaining text.old) (R.remaining text.new))
        (moves (S.remaining sentence.old) (S.remaining sentence.new))
        (moves (W.contents writer.old) (W.contents writer.new)) result }
    ensures text_failed { R.has_failed text.new ≡ (blames_text (run_of result) || R.has_failed text.old) }
    ensures sentence_failed { S.has_failed sentence.new ≡ (blames_sentence result || S.has_failed sentence.old) }
    ensures writer_failed { W.has_failed writer.new ≡ (blames_writer (run_of result) || W.has_failed writer.old) }
{
    let map = read_text(alloc, text)?;
    let bytes = read_sentence(alloc, sentence)?;
    let script = script_for(alloc, &map, board, bytes.as_slice())?;
    command_once_written(writer, script.as_slice(), ())
}
