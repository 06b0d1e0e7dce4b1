//! The run that tells in one line whether the check accepts a text.
ghost use Rattle.std.specs.Prelude.{◌≡◌, ◌↔◌, ◌||◌, IsTrue, IfOk};
ghost use Rattle.console_core.specs.Headline.{IsSafe};
ghost use Rattle.kmap_runs.specs.Inputs.{blames_text};
ghost use Rattle.kmap_runs.specs.Report as spec;
ghost use Rattle.kmap_runs.specs.Runs.{ChecksBriefly, blames_writer};
ghost use Rattle.play_core.specs.Runs.{moves};

use crate::fault_line::RunError;
use crate::inputs::read_text;
use crate::runs::answer_once_written;
use crate::words::{ACCEPTED, BRIEF, REFUSED};
use keymap_check::check;
use keymap_core::{KeyMap, Read, Write};
use keymap_names::shown_name;
use messages::filled;
use std::alloc::{AllocError, Global};

/// The line with the name of a file and the verdict on its keymap.
#[tactic(auto, unfolding(messages::specs::Filled::filled))]
fn brief_line(alloc: Global, file: &[u8], is_accepted: bool) -> Result<Vec<u8>, AllocError>
    ensures { IfOk result (λ line. line.items ≡ spec.brief_line file.now is_accepted) }
{
    let name = shown_name(alloc, file)?;
    if is_accepted {
        filled(alloc, BRIEF, &[name.as_slice(), ACCEPTED])
    } else {
        filled(alloc, BRIEF, &[name.as_slice(), REFUSED])
    }
}

fn is_accepted(map: &KeyMap) -> bool
    ensures { IsTrue result ↔ IsSafe map.now }
{
    check(map).accepted()
}

/// Reads a text, checks its map and writes the name of its file and the verdict in one line. Answers whether the map
/// was accepted.
pub fn check_brief_run<R: Read, W: Write>(
    alloc: Global,
    file: &[u8],
    reader: &mut R,
    writer: &mut W,
) -> Result<bool, RunError>
    ensures run { ChecksBriefly file.now (moves (R.remaining reader.old) (R.remaining reader.new))
        (moves (W.contents writer.old) (W.contents writer.new)) result }
    ensures reader_failed { R.has_failed reader.new ≡ (blames_text result || R.has_failed reader.old) }
    ensures writer_failed { W.has_failed writer.new ≡ (blames_writer result || W.has_failed writer.old) }
{
    let map = read_text(alloc, reader)?;
    let accepted = is_accepted(&map);
    let Ok(line) = brief_line(alloc, file, accepted) else {
        return Err(RunError::Memory);
    };
    answer_once_written(writer, line.as_slice(), accepted)
}
