//! Reading of a slot: eight cells, the marks, the lock flag and the pads.
ghost use Rattle.std.specs.Prelude.{◌≡◌, ◌<◌, length, take, IfOk, IfErr, OnOk, None, Some, All, slice_index};
ghost use Rattle.std.specs.Prelude.{MatchOption};
ghost use Rattle.std.specs.List.{flat_map};
ghost use Rattle.keymap_core.specs.Bounds.{IsCell};
ghost use Rattle.keymap_core.specs.Numbers.{column_count};
ghost use Rattle.keymap_tables.specs.Faults.{slot_fault, IsFirstFault};
ghost use Rattle.keymap_tables.specs.Inner.Firsts.{HasNoFault};
ghost use Rattle.keymap_tables.specs.Inner.Taken.{IsEntryIn};
ghost use Rattle.keymap_tables.specs.Fits.{CellFits};
ghost use Rattle.keymap_tables.specs.Image.{slot_bytes, cell_bytes, marks_of, flag_number};
ghost use Rattle.keymap_tables.specs.Layouts.{cells_size, slot_size};

use crate::fault::{TableFault, TableFaultKind};
use crate::layout::Layout;
use crate::number::{cell_of, check_zeros, read_number};
use keymap_core::{COLUMN_COUNT, Cell, Entry, LockFlag};

/// The flag of a byte.
pub(crate) fn flag_of(byte: u8) -> Option<LockFlag>
    ensures { MatchOption result (3 < byte) (λ flag. flag_number flag ≡ byte) }
{
    match byte {
        0 => Some(LockFlag::O),
        1 => Some(LockFlag::C),
        2 => Some(LockFlag::N),
        3 => Some(LockFlag::B),
        _ => None,
    }
}

/// The cells of a slot.
fn read_cells(layout: Layout, bytes: &[u8]) -> Result<[Cell; COLUMN_COUNT], TableFault>
    requires { length bytes.now ≡ slot_size layout }
    ensures eight { IfOk result (λ cells. length cells ≡ column_count) }
    ensures known { IfOk result (All IsCell) }
    ensures fits { IfOk result (All (CellFits layout)) }
    ensures bytes { IfOk result (λ cells. take (cells_size layout) bytes.now
        ≡ flat_map (cell_bytes layout) cells) }
    ensures marks { IfOk result (λ cells. slice_index bytes.now (cells_size layout) ≡ marks_of cells) }
    ensures sound { OnOk result (HasNoFault (slot_fault layout bytes.now) (cells_size layout)) }
    ensures fault { IfErr result (λ f. IsFirstFault (slot_fault layout bytes.now) f
        × (f.offset < cells_size layout)) }
{
    let marks = bytes[layout.cells()];
    let mut cells = [Cell::Char('\0'); COLUMN_COUNT];
    for column in 0..COLUMN_COUNT {
        let is_marked = (marks >> (7 - column)) % 2 == 1;
        match cell_of(read_number(layout, bytes, column), is_marked) {
            Ok(cell) => cells[column] = cell,
            Err(kind) => {
                return Err(TableFault {
                    offset: (layout.number() * column) as u64,
                    kind,
                });
            }
        }
    }
    Ok(cells)
}

/// The entry whose image the bytes are, or their first fault.
pub(crate) fn read_slot(layout: Layout, bytes: &[u8]) -> Result<Entry, TableFault>
    requires { length bytes.now ≡ slot_size layout }
    ensures image { IfOk result (λ entry. bytes.now ≡ slot_bytes layout entry) }
    ensures known { IfOk result (IsEntryIn layout) }
    ensures fault { IfErr result (λ f. IsFirstFault (slot_fault layout bytes.now) f × (f.offset < slot_size layout)) }
{
    let cells = read_cells(layout, bytes)?;
    let flag_at = layout.cells() + 1;
    let Some(flag) = flag_of(bytes[flag_at]) else {
        return Err(TableFault {
            offset: flag_at as u64,
            kind: TableFaultKind::BadFlag,
        });
    };
    check_zeros(bytes, flag_at + 1, TableFaultKind::BadPad)?;
    Ok(Entry { cells, flag })
}
