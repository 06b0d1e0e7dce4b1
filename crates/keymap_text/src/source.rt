//! Reading a text from a device. It sees what a device gives at once, and hands it to the reader.
ghost use Rattle.std.specs.Prelude.{◌≡◌, ◌||◌, IfErr};
ghost use Rattle.keymap_text.specs.Sources.{ReadsMap, StopsAtOnce, blames_reader};

use crate::fault::TextError;
use crate::reader::{MapReader, conclude};
use keymap_core::{Failed, KeyMap, Read, ReadFault, ReadFaultKind};
use std::alloc::Global;

/// How many bytes one read asks for at most.
const PIECE: usize = 512;

/// How many bytes of a text are read at most.
pub const LIMIT: usize = 1_048_576;

fn read_fault(offset: usize, kind: ReadFaultKind) -> TextError
    ensures { result ≡ TextError.Read (record { offset = offset; kind = kind }) }
{
    TextError::Read(ReadFault {
        offset: offset as u64,
        kind,
    })
}

/// The map that the text from a device spells, or its fault. The map is reserved before the first read, and is all that
/// is allocated. Nothing is read after a fault. At the limit one byte more is asked for.
pub fn read_from<R: Read>(alloc: Global, reader: &mut R) -> Result<KeyMap, TextError>
    ensures reads { ReadsMap (R.remaining reader.old) (R.remaining reader.new) result }
    ensures at_once { IfErr result (StopsAtOnce (R.remaining reader.old) (R.remaining reader.new)) }
    ensures failed { R.has_failed reader.new ≡ (blames_reader result || R.has_failed reader.old) }
{
    let Ok(mut text) = MapReader::new(alloc) else {
        return Err(TextError::Memory);
    };
    let mut buffer = [0; PIECE];
    let mut taken = 0;
    while taken < LIMIT {
        let room = PIECE.min(LIMIT - taken);
        let piece = &mut buffer[..room];
        let count = match reader.read(piece) {
            Ok(0) => return conclude(text),
            Ok(count) => count,
            Err(Failed) => return Err(read_fault(taken, ReadFaultKind::Device)),
        };
        if let Err(fault) = text.feed(&piece[..count]) {
            return Err(TextError::Fault(fault));
        }
        taken += count;
    }
    let mut next = [0];
    match reader.read(&mut next) {
        Ok(0) => conclude(text),
        Ok(_) => Err(read_fault(LIMIT, ReadFaultKind::Endless)),
        Err(Failed) => Err(read_fault(LIMIT, ReadFaultKind::Device)),
    }
}
