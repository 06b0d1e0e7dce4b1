//! Cells that are spelled by a bare digit.
ghost use Rattle.std.specs.Prelude.{◌≡◌, ◌++◌, OnOk};
ghost use Rattle.std.specs.Option.{option_to_list};
ghost use Rattle.keymap_lint.specs.Kinds.{digit as digit_of, bare_digits};

use crate::cells::CellInForce;
use crate::diagnostic::{Added, Diagnostic, Found, Kind, add};
use crate::spelled::SpelledText;
use keymap_core::Cell;

/// What is said of a character that one byte spells.
fn digit(text: &SpelledText, cell: &CellInForce) -> Option<Diagnostic>
    ensures { option_to_list result ≡ digit_of text.now cell.now }
{
    match &text.content(cell) {
        Cell::Char(character) if cell.span.end.saturating_sub(cell.span.start) == 1 => {
            Some(Diagnostic {
                place: Some(cell.span.start),
                kind: Kind::BareDigit {
                    character: *character,
                },
            })
        }
        _ => None,
    }
}

/// Adds the cells that are spelled by one decimal digit, in the order of the text.
pub(crate) fn add_bare_digits(found: &mut Found, text: &SpelledText, cells: &[CellInForce]) -> Added
    ensures { OnOk result (found.new.items ≡ found.old.items ++ bare_digits text.now cells.now) }
{
    for cell in cells {
        add(found, digit(text, cell))?;
    }
    Ok(())
}
