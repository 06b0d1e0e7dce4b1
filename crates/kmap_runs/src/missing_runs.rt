//! The run that tells which characters of a sentence keys can't type.
ghost use Rattle.std.specs.Prelude.{◌≡◌, ◌||◌, IfOk, IfErr};
ghost use Rattle.kmap_runs.specs.Inputs.{blames_sentence, blames_text, run_of};
ghost use Rattle.kmap_runs.specs.Runs.{LacksDecision, MissingAreTold, TellsMissing, blames_writer};
ghost use Rattle.play_core.specs.Runs.{moves};

use crate::fault_line::{CommandError, RunError};
use crate::inputs::{read_sentence, read_text};
use crate::missing::{missing_in, missing_text};
use crate::runs::command_once_written;
use crate::type_error::TypeError;
use keymap_core::{KeyMap, Read, Write};
use std::alloc::{AllocError, Global};

/// Whether keys can type each character of the sentence, and the lines of those that they can't.
fn told_of(
    alloc: Global,
    name: &[u8],
    map: &KeyMap,
    sentence: &[u8],
) -> Result<(bool, Vec<u8>), CommandError>
    ensures ok { IfOk result (λ r. MissingAreTold name.now map.now sentence.now r.0 r.1.items) }
    ensures err { IfErr result (LacksDecision map.now sentence.now) }
{
    let found = match missing_in(alloc, map, sentence) {
        Ok(found) => found,
        Err(TypeError::NotText { offset }) => return Err(CommandError::NotText { offset }),
        Err(TypeError::TooManyStates) => return Err(CommandError::TooManyStates),
        Err(_) => return Err(CommandError::Run(RunError::Memory)),
    };
    match missing_text(alloc, name, sentence, found.as_slice()) {
        Ok(text) => Ok((found.is_empty(), text)),
        Err(AllocError) => Err(CommandError::Run(RunError::Memory)),
    }
}

/// Reads a text and then a sentence, and writes a line for each different character of the sentence that keys can't
/// type on the map of the text: where it stands first, under the name of the sentence, and the character. Answers
/// whether there is none.
pub fn missing_run<R: Read, S: Read, W: Write>(
    alloc: Global,
    name: &[u8],
    text: &mut R,
    sentence: &mut S,
    writer: &mut W,
) -> Result<bool, CommandError>
    ensures run { TellsMissing name.now (moves (R.remaining text.old) (R.remaining text.new))
        (moves (S.remaining sentence.old) (S.remaining sentence.new))
        (moves (W.contents writer.old) (W.contents writer.new)) result }
    ensures text_failed { R.has_failed text.new ≡ (blames_text (run_of result) || R.has_failed text.old) }
    ensures sentence_failed { S.has_failed sentence.new ≡ (blames_sentence result || S.has_failed sentence.old) }
    ensures writer_failed { W.has_failed writer.new ≡ (blames_writer (run_of result) || W.has_failed writer.old) }
{
    let map = read_text(alloc, text)?;
    let bytes = read_sentence(alloc, sentence)?;
    let (can_type_all, told) = told_of(alloc, name, &map, bytes.as_slice())?;
    command_once_written(writer, told.as_slice(), can_type_all)
}
