//! Accents, and the dead keys that give them.
ghost use Rattle.std.specs.Prelude.{◌≡◌, ◌<◌, ◌++◌, IfSome, OnOk};
ghost use Rattle.std.specs.Option.{option_to_list};
ghost use Rattle.keymap_core.specs.Accents.{own_of};
ghost use Rattle.keymap_core.specs.Maps.{accent_at};
ghost use Rattle.keymap_core.specs.Numbers.{accent_limit};
ghost use Rattle.keymap_lint.specs.Kinds.{dead_key_of, live_accent as live_accent_of, is_the, is_zero};
ghost use Rattle.keymap_lint.specs.Kinds.{is_given as is_given_by, zero_accent as zero_accent_of, zero_accents};

use crate::cells::CellInForce;
use crate::diagnostic::{Added, Diagnostic, Found, Kind, add};
use crate::spelled::SpelledText;
use keymap_core::{ACCENT_LIMIT, Action, Cell};

/// The accent whose dead key this is.
fn dead_key(content: &Cell) -> Option<u8>
    ensures value { result ≡ dead_key_of content.now }
    ensures in_range { IfSome result (λ i. i < accent_limit) }
{
    match content {
        Cell::Act(Action::DeadKey(accent)) => Some(accent.get()),
        _ => None,
    }
}

/// The accent whose dead key the cell is, if it is live.
pub(crate) fn live_accent(text: &SpelledText, cell: &CellInForce) -> Option<u8>
    ensures value { result ≡ live_accent_of text.now cell.now }
    ensures in_range { IfSome result (λ i. i < accent_limit) }
{
    if text.is_live(cell.slot) {
        dead_key(&text.content(cell))
    } else {
        None
    }
}

/// Whether the cell is live and the accent's dead key.
fn gives(text: &SpelledText, cell: &CellInForce, accent: u8) -> bool
    ensures { result ≡ is_the accent (live_accent_of text.now cell.now) }
{
    match live_accent(text, cell) {
        Some(other) => other == accent,
        None => false,
    }
}

/// Whether some live cell is the accent's dead key.
pub(crate) fn is_given(text: &SpelledText, cells: &[CellInForce], accent: u8) -> bool
    ensures { result ≡ is_given_by text.now cells.now accent }
{
    cells.iter().any(|cell| gives(text, cell, accent))
}

/// Whether the accent's own character is 0.
fn has_zero(text: &SpelledText, accent: u8) -> bool
    ensures { result ≡ is_zero (own_of (accent_at text.now.map accent)) }
{
    match text.map().accent(accent) {
        Some(accent) => accent.own() == '\0',
        None => true,
    }
}

/// What is said of an accent whose own character is 0.
fn zero_accent(text: &SpelledText, cells: &[CellInForce], accent: u8) -> Option<Diagnostic>
    requires { accent < accent_limit }
    ensures { option_to_list result ≡ zero_accent_of text.now cells.now accent }
{
    match text.accent(accent) {
        Some(definition) if has_zero(text, accent) && is_given(text, cells, accent) => {
            Some(Diagnostic {
                place: Some(text.offset_behind(definition.first, 1)),
                kind: Kind::ZeroAccent { accent },
            })
        }
        _ => None,
    }
}

/// Adds the accents with the character 0 whose dead key is a live cell, in the order of their indices.
#[tactic(auto, using(crate::proofs::Lists::gathered_rules))]
pub(crate) fn add_zero_accents(
    found: &mut Found,
    text: &SpelledText,
    cells: &[CellInForce],
) -> Added
    ensures { OnOk result (found.new.items ≡ found.old.items ++ zero_accents text.now cells.now) }
{
    for accent in 0..ACCENT_LIMIT as u8 {
        add(found, zero_accent(text, cells, accent))?;
    }
    Ok(())
}
