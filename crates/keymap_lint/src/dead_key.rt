//! Dead keys of accents that the text doesn't define.
ghost use Rattle.std.specs.Prelude.{◌≡◌, ◌<◌, ◌&&◌, ℕ, not, find, option_copied, slice_index_or, false};
ghost use Rattle.std.specs.Option.{option_to_list};
ghost use Rattle.keymap_core.specs.Borne.{any_below};
ghost use Rattle.keymap_core.specs.Numbers.{accent_limit};
ghost use Rattle.keymap_lint.specs.Kinds.{is_defined, is_missing as is_missing_in, dead_key as dead_key_of};
ghost use Rattle.keymap_lint.specs.Kinds.{missing_accents as missing_accents_of, is_given as is_given_by};

use crate::cells::CellInForce;
use crate::diagnostic::{Diagnostic, Kind};
use crate::spelled::SpelledText;
use crate::zero_accent::live_accent;
use arrayvec::ArrayVec;
use keymap_core::{ACCENT_LIMIT, push_if};

/// Whether the cell is live and the dead key of an accent that the text doesn't define.
fn is_missing(text: &SpelledText, cell: &CellInForce) -> bool
    ensures { result ≡ is_missing_in text.now cell.now }
{
    match live_accent(text, cell) {
        Some(accent) => !text.defines_accent(accent),
        None => false,
    }
}

/// The first such cell.
fn first_missing<'c>(text: &SpelledText, cells: &'c [CellInForce]) -> Option<&'c CellInForce>
    ensures { option_copied result ≡ find (is_missing_in text.now) cells.now }
{
    cells.iter().find(|cell| is_missing(text, cell))
}

/// Whether the text defines an accent.
#[tactic(auto, using(crate::proofs::Lists::any_rules))]
fn defines_some(text: &SpelledText) -> bool
    ensures { result ≡ any_below (is_defined text.now) accent_limit }
{
    for accent in 0..ACCENT_LIMIT as u8 {
        if text.defines_accent(accent) {
            return true;
        }
    }
    false
}

/// What is said of a text in which live cells are dead keys of accents that it doesn't define.
pub(crate) fn dead_key(text: &SpelledText, cells: &[CellInForce]) -> Option<Diagnostic>
    ensures { option_to_list result ≡ dead_key_of text.now cells.now }
{
    match first_missing(text, cells) {
        Some(cell) => Some(Diagnostic {
            place: Some(cell.span.start),
            kind: Kind::DeadKey {
                defines_some: defines_some(text),
            },
        }),
        None => None,
    }
}

/// Whether some live cell is the dead key of each accent.
fn given_accents(text: &SpelledText, cells: &[CellInForce]) -> [bool; ACCENT_LIMIT]
    ensures { (i : ℕ) → i < accent_limit → slice_index_or result i false ≡ is_given_by text.now cells.now i }
{
    let mut given = [false; ACCENT_LIMIT];
    for cell in cells {
        if let Some(accent) = live_accent(text, cell) {
            given[accent as usize] = true;
        }
    }
    given
}

/// Whether an accent is given and the text doesn't define it.
fn is_absent(text: &SpelledText, is_given: bool, accent: u8) -> bool
    requires { accent < accent_limit }
    ensures { result ≡ (is_given && not (is_defined text.now accent)) }
{
    is_given && !text.defines_accent(accent)
}

/// The accents that the text doesn't define though a live cell is their dead key, in ascending order.
#[tactic(auto, using(crate::proofs::Lists::gathered_rules))]
pub(crate) fn missing_accents(
    text: &SpelledText,
    cells: &[CellInForce],
) -> ArrayVec<u8, ACCENT_LIMIT>
    ensures { result.items ≡ missing_accents_of text.now cells.now }
{
    let mut accents = ArrayVec::new();
    if first_missing(text, cells).is_none() {
        return accents;
    }
    let given = given_accents(text, cells);
    for accent in 0..ACCENT_LIMIT as u8 {
        push_if(
            &mut accents,
            accent,
            is_absent(text, given[accent as usize], accent),
        );
    }
    accents
}
