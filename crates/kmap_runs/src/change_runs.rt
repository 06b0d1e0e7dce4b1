//! The run that draws what changed between two keymaps.
ghost use Rattle.std.specs.Prelude.{◌≡◌, ◌↔◌, ◌||◌, ◌≤◌, [], IfOk, OnOk, length};
ghost use Rattle.kmap_runs.specs.Inputs.{blames_next, blames_text};
ghost use Rattle.kmap_runs.specs.Runs.{DrawsChange, IsChangeDrawn, blames_writer};
ghost use Rattle.play_core.specs.Runs.{moves};

use crate::diff_runs::are_same;
use crate::fault_line::RunError;
use crate::inputs::{read_other, read_text};
use crate::runs::answer_once_written;
use keymap_check::check;
use keymap_consequences::consequences_of;
use keymap_core::laws::every_keymap_is_within_the_bounds;
use keymap_core::{KeyMap, Read, Write};
use keymap_diff::{Change, differences, telling_apart};
use keymap_draw::{About, Before, Board, ChangeLine, picture_of_change};
use script_text::{Subject, change_lines, consequence_lines, verdict_words};
use std::alloc::{AllocError, Global};

/// What a line of the picture tells of.
fn about(subject: Subject) -> About {
    match subject {
        Subject::LastSlot | Subject::LastAccent => About::Whole,
        Subject::Slot(slot) => About::Slot(slot),
        Subject::Accent(accent) => About::Accent(accent),
    }
}

/// The verdict.
fn verdict(alloc: Global, old: &KeyMap, new: &KeyMap) -> Result<ChangeLine, AllocError> {
    let telling = telling_apart(alloc, old, new)?;
    let words = verdict_words(alloc, &telling)?;
    ChangeLine::new(alloc, About::Whole, words.as_slice())
}

/// Adds the consequences for who types.
fn push_consequences(
    lines: &mut Vec<ChangeLine>,
    alloc: Global,
    old: &KeyMap,
    new: &KeyMap,
) -> Result<(), AllocError>
    ensures { OnOk result (length lines.old.items ≤ length lines.new.items) }
{
    for words in &consequence_lines(alloc, &consequences_of(alloc, old, new)?)? {
        lines.push(ChangeLine::new(alloc, About::Whole, words.as_slice())?)?;
    }
    Ok(())
}

/// Adds a line for each slot and accent that differs, and before these for the last ones.
fn push_differences(
    lines: &mut Vec<ChangeLine>,
    alloc: Global,
    found: &[Change],
) -> Result<(), AllocError>
    ensures { OnOk result (length lines.old.items ≤ length lines.new.items) }
{
    for line in &change_lines(alloc, found)? {
        let words = line.words.as_slice();
        lines.push(ChangeLine::new(alloc, about(line.subject), words)?)?;
    }
    Ok(())
}

/// The lines that tell what changed: none if the keymaps are the same.
fn lines_of_change(alloc: Global, old: &KeyMap, new: &KeyMap) -> Result<Vec<ChangeLine>, AllocError>
    ensures { IfOk result (λ lines. (lines.items ≡ []) ↔ (old.now ≡ new.now)) }
{
    let found = differences(alloc, old, new)?;
    let mut lines = Vec::new(alloc);
    if are_same(old, new, found.as_slice()) {
        return Ok(lines);
    }
    lines.push(verdict(alloc, old, new)?)?;
    push_consequences(&mut lines, alloc, old, new)?;
    push_differences(&mut lines, alloc, found.as_slice())?;
    Ok(lines)
}

/// The picture of what changed, on a board, headed by a name; the name of the old keymap stands before what changed.
fn change_drawn(
    alloc: Global,
    old: &KeyMap,
    new: &KeyMap,
    board: Board,
    name: &[u8],
    old_name: &[u8],
) -> Result<Vec<u8>, AllocError>
    ensures { IfOk result (λ text. IsChangeDrawn board name.now old_name.now (old.now, new.now) text.items) }
{
    every_keymap_is_within_the_bounds(new);
    let lines = lines_of_change(alloc, old, new)?;
    let before = Before {
        map: old,
        name: old_name,
        lines: lines.as_slice(),
    };
    picture_of_change(alloc, new, &check(new), board, name, &before)
}

/// Reads two texts and writes the picture of the keymap of the second one on a board, headed by a name, with what
/// changed of the first one, which has a name, too, as `picture_of_change` says.
pub fn draw_change_run<R: Read, N: Read, W: Write>(
    alloc: Global,
    text: &mut R,
    next: &mut N,
    board: Board,
    name: &[u8],
    old_name: &[u8],
    writer: &mut W,
) -> Result<(), RunError>
    ensures run { DrawsChange board name.now old_name.now (moves (R.remaining text.old) (R.remaining text.new))
        (moves (N.remaining next.old) (N.remaining next.new))
        (moves (W.contents writer.old) (W.contents writer.new)) result }
    ensures text_failed { R.has_failed text.new ≡ (blames_text result || R.has_failed text.old) }
    ensures next_failed { N.has_failed next.new ≡ (blames_next result || N.has_failed next.old) }
    ensures writer_failed { W.has_failed writer.new ≡ (blames_writer result || W.has_failed writer.old) }
{
    let old = read_text(alloc, text)?;
    let new = read_other(alloc, next)?;
    let Ok(drawn) = change_drawn(alloc, &old, &new, board, name, old_name) else {
        return Err(RunError::Memory);
    };
    answer_once_written(writer, drawn.as_slice(), ())
}
