//! Reading of tables into a map, which is let go at a fault.
ghost use Rattle.std.specs.Prelude.{◌≡◌};
ghost use Rattle.keymap_core.specs.Bounds.{IsMap};
ghost use Rattle.keymap_tables.specs.Faults.{IsTableFault, IsNarrowFault};
ghost use Rattle.keymap_tables.specs.Image.{image, narrow_image};
ghost use Rattle.keymap_tables.specs.Fits.{Fits};
ghost use Rattle.keymap_tables.specs.Types.{TableFault};
ghost use Rattle.keymap_tables.specs.Readings.{IsReading, IsNarrowReading, IsReadingIn, AnswersMap, AnswersFault};
ghost use Rattle.keymap_core.specs.Maps.{MapValue};

use crate::check::check_length;
use crate::content::read_content;
use crate::fault::TableError;
use crate::layout::Layout;
use keymap_core::KeyMap;
use std::alloc::Global;

/// Reads a file of a layout. A wrong length is answered first, then want of memory, then the fault of least offset.
fn read_file(layout: Layout, alloc: Global, bytes: &[u8]) -> Result<KeyMap, TableError>
    ensures { IsReadingIn layout bytes.now result }
{
    match check_length(layout, bytes) {
        Ok(()) => {}
        Err(fault) => return Err(TableError::Fault(fault)),
    }
    let Ok(mut map) = KeyMap::new(alloc) else {
        return Err(TableError::Memory);
    };
    match read_content(layout, bytes, &mut map) {
        Ok(()) => Ok(map),
        Err(fault) => Err(TableError::Fault(fault)),
    }
}

/// Reads a table file. A wrong length is answered first, then want of memory, then the fault of least offset.
pub fn read_tables(alloc: Global, bytes: &[u8]) -> Result<KeyMap, TableError>
    ensures reading { IsReading bytes.now result }
    ensures map { (m : MapValue) → IsMap m → bytes.now ≡ image m → AnswersMap result m }
    ensures fault { (f : TableFault) → IsTableFault bytes.now f → AnswersFault result f }
{
    read_file(Layout::Wide, alloc, bytes)
}

/// Reads a narrow file of 4,139 bytes. A wrong length is answered first, then want of memory, then the fault of least
/// offset.
pub fn read_narrow(alloc: Global, bytes: &[u8]) -> Result<KeyMap, TableError>
    ensures reading { IsNarrowReading bytes.now result }
    ensures map { (m : MapValue) → IsMap m → Fits m → bytes.now ≡ narrow_image m → AnswersMap result m }
    ensures fault { (f : TableFault) → IsNarrowFault bytes.now f → AnswersFault result f }
{
    read_file(Layout::Narrow, alloc, bytes)
}
