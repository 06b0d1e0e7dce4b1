//! The tables of a table file, each row read once and defined in what takes definitions, up to the first fault.
ghost use Rattle.std.specs.Prelude.{◌≡◌, ◌+◌, ◌*◌, ◌<◌, ◌≤◌, length, IfErr, OnOk};
ghost use Rattle.keymap_tables.specs.Faults.{used_fault, table_fault, content_fault, IsFirstFault};
ghost use Rattle.keymap_tables.specs.Image.{rows_bytes, table_bytes};
ghost use Rattle.keymap_tables.specs.Inner.Taken.{AreRows, TakesRows, TakesFile};
ghost use Rattle.keymap_tables.specs.Layouts.{count_size, file_size};

use crate::fault::{TableFault, TableFaultKind};
use crate::layout::Layout;
use crate::number::{check_zeros, read_count};
use crate::row::Row;
use keymap_core::{Accent, Definitions, Entry};

/// Defines so many rows, and checks that zeros stand in place of the others.
fn read_rows<R: Row, D: Definitions>(
    layout: Layout,
    bytes: &[u8],
    count: u16,
    into: &mut D,
) -> Result<(), TableFault>
    requires rows { AreRows (R.image layout) (R.size layout) (R.faults layout) (R.Is layout) R.blank }
    requires whole { length bytes.now ≡ R.MOST * R.size layout }
    requires few { count ≤ R.MOST }
    ensures taken { OnOk result (TakesRows D.shows into.old into.new R.put (R.Is layout) (λ n. n ≡ count)
        (rows_bytes (R.image layout) (R.size layout) R.MOST) bytes.now) }
    ensures fault { IfErr result (λ f. IsFirstFault (used_fault (R.faults layout) (R.size layout) count bytes.now) f
        × (f.offset < R.MOST * R.size layout)) }
{
    let size = R::size(layout);
    for index in 0..count {
        let at = size * index as usize;
        match R::read(layout, &bytes[at..at + size]) {
            Ok(row) => row.define(into, index),
            Err(fault) => return Err(fault.after(at)),
        }
    }
    check_zeros(bytes, size * count as usize, TableFaultKind::NotEmpty)
}

/// Reads a count, and defines so many rows.
fn read_table<R: Row, D: Definitions>(
    layout: Layout,
    bytes: &[u8],
    into: &mut D,
) -> Result<(), TableFault>
    requires rows { AreRows (R.image layout) (R.size layout) (R.faults layout) (R.Is layout) R.blank }
    requires whole { length bytes.now ≡ count_size layout + R.MOST * R.size layout }
    ensures taken { OnOk result (TakesRows D.shows into.old into.new R.put (R.Is layout) (λ n. n ≤ R.MOST)
        (table_bytes layout (R.image layout) (R.size layout) R.MOST) bytes.now) }
    ensures fault { IfErr result (λ f. IsFirstFault (table_fault layout (R.faults layout) (R.size layout) R.MOST
        bytes.now) f × (f.offset < count_size layout + R.MOST * R.size layout)) }
{
    let at = layout.count();
    let count = read_count(&bytes[..at], R::MOST)?;
    match read_rows::<R, D>(layout, &bytes[at..], count, into) {
        Ok(()) => Ok(()),
        Err(fault) => Err(fault.after(at)),
    }
}

/// Reads a file of the right length into what takes definitions, of which none was made before. At a fault those of the
/// rows before it are made.
pub(crate) fn read_content<D: Definitions>(
    layout: Layout,
    bytes: &[u8],
    into: &mut D,
) -> Result<(), TableFault>
    requires whole { length bytes.now ≡ file_size layout }
    ensures taken { OnOk result (TakesFile D.shows into.old into.new layout bytes.now) }
    ensures fault { IfErr result (IsFirstFault (content_fault layout bytes.now)) }
{
    let n_accs_at = layout.n_accs_at();
    read_table::<Entry, D>(layout, &bytes[..n_accs_at], into)?;
    match read_table::<Accent, D>(layout, &bytes[n_accs_at..], into) {
        Ok(()) => Ok(()),
        Err(fault) => Err(fault.after(n_accs_at)),
    }
}
