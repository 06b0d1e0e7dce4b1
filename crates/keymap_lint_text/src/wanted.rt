//! What a definition wants, and what is told of it: its name, its columns and characters.
ghost use Rattle.std.specs.Prelude.{◌≡◌, IfOk};
ghost use Rattle.keymap_lint_text.specs.Wanted as spec;

use crate::words::{
    A_BASE, A_CELL, A_CHARACTER, A_DEFINITION, A_LOCK, A_PAIR, A_PAIR_END, A_RESULT, COLUMN,
    QUOTED, SLOT,
};
use keymap_names::{accent_name, column_name, is_quoted, word};
use keymap_places::{Defined, DefinitionStart, Wanted};
use keymap_text::character_text;
use messages::{filled, number};
use std::alloc::{AllocError, Global};

/// A character as a text that is Unicode has it: quoted where it is a sign, or else by its name or number.
#[tactic(auto, unfolding(crate::specs::Wanted::character_name))]
pub(crate) fn character_name(alloc: Global, c: char) -> Result<Vec<u8>, AllocError>
    ensures { IfOk result (λ text. text.items ≡ spec.character_name c) }
{
    if is_quoted(c) {
        let mut bytes = [0; 4];
        let quoted = filled(alloc, QUOTED, &[c.encode_utf8(&mut bytes).as_bytes()])?;
        word(alloc, quoted.as_slice())
    } else {
        word(alloc, character_text(c).as_slice())
    }
}

/// A column, and what selects it.
#[tactic(auto, unfolding(crate::specs::Wanted::column_text))]
pub(crate) fn column(alloc: Global, column: usize) -> Result<Vec<u8>, AllocError>
    ensures { IfOk result (λ text. text.items ≡ spec.column_text column) }
{
    filled(
        alloc,
        COLUMN,
        &[number(column as u64).as_slice(), column_name(column)],
    )
}

/// What a definition defines: a slot by its number, an accent by its name.
pub(crate) fn defined(alloc: Global, what: Defined) -> Result<Vec<u8>, AllocError>
    ensures { IfOk result (λ text. text.items ≡ spec.defined_text what) }
{
    match what {
        Defined::Slot(slot) => filled(alloc, SLOT, &[number(u64::from(slot)).as_slice()]),
        Defined::Accent(accent) => Vec::from_slice(alloc, accent_name(accent).as_slice()),
    }
}

/// What the definition that has begun defines, if one has.
pub(crate) fn started(
    alloc: Global,
    definition: Option<DefinitionStart>,
) -> Result<Vec<u8>, AllocError>
    ensures { IfOk result (λ text. text.items ≡ spec.started_text definition) }
{
    match definition {
        Some(start) => defined(alloc, start.what),
        None => Ok(Vec::new(alloc)),
    }
}

/// What is wanted in the definition that has begun.
#[tactic(auto, unfolding(crate::specs::Wanted::wanted_text))]
pub(crate) fn wanted(
    alloc: Global,
    wanted: Wanted,
    definition: Option<DefinitionStart>,
) -> Result<Vec<u8>, AllocError>
    ensures { IfOk result (λ text. text.items ≡ spec.wanted_text wanted definition) }
{
    let what = started(alloc, definition)?;
    let what = what.as_slice();
    match wanted {
        Wanted::Definition => filled(alloc, A_DEFINITION, &[]),
        Wanted::Cell { column: place } => {
            filled(alloc, A_CELL, &[what, column(alloc, place)?.as_slice()])
        }
        Wanted::Lock => filled(alloc, A_LOCK, &[what]),
        Wanted::AccentCharacter => filled(alloc, A_CHARACTER, &[what]),
        Wanted::Pair { .. } => filled(alloc, A_PAIR, &[what]),
        Wanted::Base { .. } => filled(alloc, A_BASE, &[what]),
        Wanted::Composed { .. } => filled(alloc, A_RESULT, &[what]),
        Wanted::PairEnd { .. } => filled(alloc, A_PAIR_END, &[what]),
    }
}
