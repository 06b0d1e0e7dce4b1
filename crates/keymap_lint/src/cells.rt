//! The cells of a text that count.
ghost use Rattle.std.specs.Prelude.{◌≡◌, ◌++◌, ◌<◌, OnOk, IfOk, map};
ghost use Rattle.std.specs.List.{range_with_len};
ghost use Rattle.keymap_core.specs.Numbers.{column_count};
ghost use Rattle.keymap_places.specs.Placed.{HasIndex};
ghost use Rattle.keymap_lint.specs.Spelled.{AreDefined, cell_in, cells_of, cells_in_force as cells_of_text};

use crate::spelled::SpelledText;
use keymap_core::{COLUMN_COUNT, SLOT_LIMIT};
use keymap_places::{Defined, Placed};
use keymap_text::Span;
use std::alloc::{AllocError, Global};

/// A cell of a definition in force: its slot and column, 0 to 7, and where its token stands.
#[derive(Clone, Copy)]
pub(crate) struct CellInForce {
    pub(crate) slot: u8,
    pub(crate) column: u8,
    pub(crate) span: Span,
}

/// The cell in a column of a slot whose definition begins with this token.
fn cell_of(text: &SpelledText, slot: u8, first: usize, column: u8) -> CellInForce
    requires { column < column_count }
    ensures { result ≡ cell_in text.now slot first column }
{
    CellInForce {
        slot,
        column,
        span: text.span(first, 1 + column as usize),
    }
}

/// Adds the cells of a slot whose definition begins with this token.
fn add_slot(
    cells: &mut Vec<CellInForce>,
    text: &SpelledText,
    slot: u8,
    first: usize,
) -> Result<(), AllocError>
    ensures { OnOk result (cells.new.items ≡ cells.old.items
        ++ map (cell_in text.now slot first) (range_with_len 0 column_count)) }
{
    for column in 0..COLUMN_COUNT as u8 {
        cells.push(cell_of(text, slot, first, column))?;
    }
    Ok(())
}

/// Adds the cells of a definition, if it is in force and defines a slot.
fn add_cells(
    cells: &mut Vec<CellInForce>,
    text: &SpelledText,
    definition: &Placed,
) -> Result<(), AllocError>
    requires { HasIndex definition.now.what }
    ensures { OnOk result (cells.new.items ≡ cells.old.items ++ cells_of text.now definition.now) }
{
    match definition.what {
        Defined::Slot(slot) if text.is_in_force(definition) => {
            add_slot(cells, text, slot, definition.first)
        }
        _ => Ok(()),
    }
}

/// The cells of the definitions in force, in the order of the text.
pub(crate) fn cells_in_force(
    alloc: Global,
    text: &SpelledText,
) -> Result<Vec<CellInForce>, AllocError>
    requires { AreDefined text.now }
    ensures { IfOk result (λ cells. cells.items ≡ cells_of_text text.now) }
{
    let slots = text.definitions().len().min(SLOT_LIMIT);
    let mut cells = Vec::with_capacity(alloc, slots * COLUMN_COUNT)?;
    for definition in text.definitions() {
        add_cells(&mut cells, text, definition)?;
    }
    Ok(cells)
}
