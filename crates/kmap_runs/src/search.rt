//! What the search for sticking modifiers found, as a script that `kmap play` reads.
ghost use Rattle.std.specs.Prelude.{◌≡◌, ◌++◌, IfOk, OnOk};
ghost use Rattle.std.specs.List.{flat_map};
ghost use Rattle.kmap_runs.specs.Search as spec;

use crate::words::{NEVER_STICKS, STICKS, UNDECIDED};
use console_core::Event;
use console_states::Sticking;
use keymap_core::{Holding, Modifier};
use messages::{number, parted};
use script_text::{push_comment, push_events};
use std::alloc::{AllocError, Global};

/// The names of the modifiers, each after a blank.
fn push_names(text: &mut Vec<u8>, modifiers: &[Modifier]) -> Result<(), AllocError>
    ensures { OnOk result (text.new.items ≡ text.old.items ++ flat_map spec.modifier_name modifiers.now) }
{
    for modifier in modifiers {
        text.push(b' ')?;
        text.extend_from_slice(Holding::Mod(*modifier).action().name().as_slice())?;
    }
    Ok(())
}

#[tactic(auto, using(std::proofs::Common::append_assoc), unfolding(messages::specs::Filled::filled))]
fn push_script(
    text: &mut Vec<u8>,
    modifiers: &[Modifier],
    events: &[Event],
) -> Result<(), AllocError>
    ensures { OnOk result (text.new.items ≡ text.old.items ++ spec.script_text modifiers.now events.now) }
{
    let (before, behind) = parted(STICKS);
    text.push(b'#')?;
    text.extend_from_slice(before)?;
    push_names(text, modifiers)?;
    text.extend_from_slice(behind)?;
    text.push(b'\n')?;
    push_events(text, events)
}

/// Adds that the search gave up, and up to how many presses no list leaves a modifier on.
fn push_undecided(text: &mut Vec<u8>, presses: usize) -> Result<(), AllocError>
    ensures { OnOk result (text.new.items ≡ text.old.items ++ spec.undecided_text presses) }
{
    push_comment(text, UNDECIDED, &[number(presses as u64).as_slice()])
}

/// The script that tells what was found.
pub(crate) fn found_text(alloc: Global, found: &Sticking) -> Result<Vec<u8>, AllocError>
    ensures { IfOk result (λ text. text.items ≡ spec.found_text found.now) }
{
    let mut text = Vec::new(alloc);
    match found {
        Sticking::Sticks { events, modifiers } => push_script(&mut text, modifiers, events)?,
        Sticking::Never => push_comment(&mut text, NEVER_STICKS, &[])?,
        Sticking::Undecided(presses) => push_undecided(&mut text, *presses)?,
    }
    Ok(text)
}
