//! The check of a table file without memory: what the reading of it finds, and no map.
ghost use Rattle.std.specs.Prelude.{◌≡◌, length, IfErr, OnOk};
ghost use Rattle.keymap_core.specs.Bounds.{IsMap};
ghost use Rattle.keymap_core.specs.Maps.{MapValue};
ghost use Rattle.keymap_tables.specs.Faults.{IsFirstFault, IsNarrowFault, IsTableFault, fault_at};
ghost use Rattle.keymap_tables.specs.Fits.{Fits, FitsIn};
ghost use Rattle.keymap_tables.specs.Image.{image, image_in, narrow_image};
ghost use Rattle.keymap_tables.specs.Layouts.{file_size};

use crate::content::read_content;
use crate::fault::{TableFault, TableFaultKind};
use crate::layout::Layout;
use keymap_core::{Accent, Definitions, Entry};

/// Takes definitions and keeps none.
#[derive(Drop)]
pub struct Unkept;

impl Definitions for Unkept {
    ghost use Rattle.std.specs.Prelude.{⊤};

    ghost shows = { λ u m. ⊤ };

    fn define(&mut self, _slot: u8, _entry: Entry) {}

    fn define_accent(&mut self, _index: u8, _accent: Accent) {}
}

/// Checks the length of a file.
pub(crate) fn check_length(layout: Layout, bytes: &[u8]) -> Result<(), TableFault>
    ensures whole { OnOk result (length bytes.now ≡ file_size layout) }
    ensures fault { IfErr result (IsFirstFault (fault_at layout bytes.now)) }
{
    let length = layout.file();
    if bytes.len() < length {
        return Err(TableFault {
            offset: bytes.len() as u64,
            kind: TableFaultKind::Short,
        });
    }
    if bytes.len() > length {
        return Err(TableFault {
            offset: length as u64,
            kind: TableFaultKind::Long,
        });
    }
    Ok(())
}

/// Checks a file of a layout.
fn check_file(layout: Layout, bytes: &[u8]) -> Result<(), TableFault>
    ensures image { OnOk result ((m : MapValue) × IsMap m × FitsIn layout m × (bytes.now ≡ image_in layout m)) }
    ensures fault { IfErr result (IsFirstFault (fault_at layout bytes.now)) }
{
    check_length(layout, bytes)?;
    let mut unkept = Unkept;
    read_content(layout, bytes, &mut unkept)
}

/// Checks a table file and takes no memory: the fault is the one that `read_tables` answers, and a file without one is
/// the image of a map.
pub fn check_tables(bytes: &[u8]) -> Result<(), TableFault>
    ensures image { OnOk result ((m : MapValue) × IsMap m × (bytes.now ≡ image m)) }
    ensures fault { IfErr result (IsTableFault bytes.now) }
{
    check_file(Layout::Wide, bytes)
}

/// Checks a narrow file and takes no memory: the fault is the one that `read_narrow` answers, and a file without one is
/// the narrow image of a map.
pub fn check_narrow(bytes: &[u8]) -> Result<(), TableFault>
    ensures image { OnOk result ((m : MapValue) × IsMap m × Fits m × (bytes.now ≡ narrow_image m)) }
    ensures fault { IfErr result (IsNarrowFault bytes.now) }
{
    check_file(Layout::Narrow, bytes)
}
