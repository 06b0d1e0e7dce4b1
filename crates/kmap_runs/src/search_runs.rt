//! The run that searches one keymap, or between two, for presses and releases that leave a modifier on.
ghost use Rattle.std.specs.Prelude.{◌≡◌, ◌↔◌, ◌||◌, IsTrue, IfOk};
ghost use Rattle.std.specs.Option.{is_some};
ghost use Rattle.kmap_runs.specs.Search.{is_never as is_never_of};
ghost use Rattle.kmap_runs.specs.Inputs.{blames_next, blames_text, has_failed_if, moves_if};
ghost use Rattle.kmap_runs.specs.Runs.{AreSafe, Finds, IsFound, SearchesTexts, blames_writer};
ghost use Rattle.play_core.specs.Runs.{moves};

use crate::fault_line::RunError;
use crate::inputs::read_keymaps;
use crate::runs::answer_once_written;
use crate::search::found_text;
use console_states::{Sticking, sticking, sticking_between};
use keymap_check::check;
use keymap_core::{KeyMap, Read, Write};
use std::alloc::{AllocError, Global};

fn is_never(found: &Sticking) -> bool
    ensures { result ≡ is_never_of found.now }
{
    matches!(found, Sticking::Never)
}

/// Whether the check accepts a map, and a second one where there is one.
fn are_accepted(first: &KeyMap, next: &Option<KeyMap>) -> bool
    ensures { IsTrue result ↔ AreSafe (first.now, next.now) }
{
    let is_first = check(first).accepted();
    match next {
        Some(second) => is_first && check(second).accepted(),
        None => is_first,
    }
}

/// What a search over the states answers to a map, or with a second one between the two.
fn met_in(alloc: Global, first: &KeyMap, next: &Option<KeyMap>) -> Result<Sticking, AllocError>
    ensures { IfOk result (λ found. IsFound (first.now, next.now) found) }
{
    match next {
        Some(second) => sticking_between(alloc, first, second),
        None => sticking(alloc, first),
    }
}

/// What is found of a map, or with a second one between the two. Accepted ones never stick, so their states, which may
/// be too many, aren't gone over.
#[tactic(auto, using(crate::proofs::Accepted::accepted_never_stick))]
fn found_in(alloc: Global, first: &KeyMap, next: &Option<KeyMap>) -> Result<Sticking, AllocError>
    ensures found { IfOk result (λ found. IsFound (first.now, next.now) found) }
    ensures accepted { IfOk result (λ found. AreSafe (first.now, next.now) → found ≡ Sticking.Never) }
{
    if are_accepted(first, next) {
        return Ok(Sticking::Never);
    }
    met_in(alloc, first, next)
}

/// Searches: whether no modifier ever sticks, and the script that tells what was found.
fn searched(
    alloc: Global,
    first: &KeyMap,
    next: &Option<KeyMap>,
) -> Result<(bool, Vec<u8>), AllocError>
    ensures { IfOk result (λ r. Finds (first.now, next.now) r.0 r.1.items) }
{
    let found = found_in(alloc, first, next)?;
    let text = found_text(alloc, &found)?;
    Ok((is_never(&found), text))
}

/// Reads the text of a keymap, and that of a next one where there is one. Searches for presses and releases that leave
/// a modifier on, with two keymaps for loads between them too, the first in force to begin with, and writes what was
/// found: of keymaps that the check accepts that none does. Answers whether no modifier ever sticks.
pub fn search_run<R: Read, N: Read, W: Write>(
    alloc: Global,
    text: &mut R,
    next: &mut Option<N>,
    writer: &mut W,
) -> Result<bool, RunError>
    ensures run { SearchesTexts (moves (R.remaining text.old) (R.remaining text.new))
        (moves_if N.remaining next.old next.new)
        (moves (W.contents writer.old) (W.contents writer.new)) result }
    ensures text_failed { R.has_failed text.new ≡ (blames_text result || R.has_failed text.old) }
    ensures next_stays { is_some next.new ≡ is_some next.old }
    ensures next_failed { has_failed_if N.has_failed next.new
        ≡ (blames_next result || has_failed_if N.has_failed next.old) }
    ensures writer_failed { W.has_failed writer.new ≡ (blames_writer result || W.has_failed writer.old) }
{
    let (first, second) = read_keymaps(alloc, text, next)?;
    let Ok((never, told)) = searched(alloc, &first, &second) else {
        return Err(RunError::Memory);
    };
    answer_once_written(writer, told.as_slice(), never)
}
