//! The run that tells what differs between two keymaps, and what tells them apart.
ghost use Rattle.std.specs.Prelude.{◌≡◌, ◌↔◌, ◌||◌, IsTrue, IfOk};
ghost use Rattle.keymap_diff.specs.Changes.{AreDifferences};
ghost use Rattle.kmap_runs.specs.Inputs.{blames_next, blames_text};
ghost use Rattle.kmap_runs.specs.Runs.{Compares, DiffsTexts, TellsDifferences, blames_writer};
ghost use Rattle.play_core.specs.Runs.{moves};

use crate::fault_line::RunError;
use crate::inputs::{read_other, read_text};
use crate::runs::answer_once_written;
use keymap_consequences::consequences_of;
use keymap_core::laws::every_keymap_is_within_the_bounds;
use keymap_core::{KeyMap, Read, Write};
use keymap_diff::laws::the_same_keymaps_have_no_changes;
use keymap_diff::{Change, differences, telling_apart};
use script_text::{brief_text, diff_text, same_text};
use std::alloc::{AllocError, Global};

/// Whether the keymaps are the same, by what differs between them.
pub(crate) fn are_same(old: &KeyMap, new: &KeyMap, found: &[Change]) -> bool
    requires { AreDifferences old.now new.now found.now }
    ensures { IsTrue result ↔ (old.now ≡ new.now) }
{
    every_keymap_is_within_the_bounds(old);
    every_keymap_is_within_the_bounds(new);
    the_same_keymaps_have_no_changes();
    found.is_empty()
}

/// What is told of keymaps between which this differs.
fn differing(
    alloc: Global,
    old: &KeyMap,
    new: &KeyMap,
    found: &[Change],
    is_brief: bool,
) -> Result<Vec<u8>, AllocError>
    requires { AreDifferences old.now new.now found.now }
    ensures { IfOk result (λ text. TellsDifferences is_brief old.now new.now text.items) }
{
    let telling = telling_apart(alloc, old, new)?;
    let consequences = consequences_of(alloc, old, new)?;
    if is_brief {
        brief_text(alloc, &telling, &consequences, found)
    } else {
        diff_text(alloc, &telling, &consequences, found)
    }
}

/// Whether the keymaps are the same, and what is told of them.
fn compared(
    alloc: Global,
    old: &KeyMap,
    new: &KeyMap,
    is_brief: bool,
) -> Result<(bool, Vec<u8>), AllocError>
    ensures { IfOk result (λ r. Compares is_brief (old.now, new.now) r.0 r.1.items) }
{
    let found = differences(alloc, old, new)?;
    let found = found.as_slice();
    if are_same(old, new, found) {
        Ok((true, same_text(alloc)?))
    } else {
        Ok((false, differing(alloc, old, new, found, is_brief)?))
    }
}

/// Reads two texts and tells what differs between their keymaps: whether any list of events is answered differently,
/// the consequences for who types, each difference, and the events; in brief, how many slots and accents differ. Answers
/// whether the keymaps are the same.
pub fn diff_run<R: Read, N: Read, W: Write>(
    alloc: Global,
    text: &mut R,
    next: &mut N,
    writer: &mut W,
    is_brief: bool,
) -> Result<bool, RunError>
    ensures run { DiffsTexts is_brief (moves (R.remaining text.old) (R.remaining text.new))
        (moves (N.remaining next.old) (N.remaining next.new))
        (moves (W.contents writer.old) (W.contents writer.new)) result }
    ensures text_failed { R.has_failed text.new ≡ (blames_text result || R.has_failed text.old) }
    ensures next_failed { N.has_failed next.new ≡ (blames_next result || N.has_failed next.old) }
    ensures writer_failed { W.has_failed writer.new ≡ (blames_writer result || W.has_failed writer.old) }
{
    let old = read_text(alloc, text)?;
    let new = read_other(alloc, next)?;
    let Ok((same, told)) = compared(alloc, &old, &new, is_brief) else {
        return Err(RunError::Memory);
    };
    answer_once_written(writer, told.as_slice(), same)
}
