//! Bytes that are read whole.
ghost use Rattle.std.specs.Prelude.{◌≡◌, ◌||◌, Ok, Err, MatchResult};
ghost use Rattle.play_core.specs.Runs.{ReadsWhole, blames_device, moves};

use keymap_core::{Read, ReadError, ReadFault, ReadFaultKind, read_up_to};
use keymap_text::LIMIT;
use std::alloc::Global;

/// The bytes of a reader up to its end, at most `LIMIT` of them. One byte more than the limit is asked for, and where
/// it comes the fault is `Endless`.
pub fn read_whole<R: Read>(alloc: Global, reader: &mut R) -> Result<Vec<u8>, ReadError>
    ensures reads { MatchResult result
        (λ bytes. ReadsWhole (moves (R.remaining reader.old) (R.remaining reader.new)) (Ok bytes.items))
        (λ e. ReadsWhole (moves (R.remaining reader.old) (R.remaining reader.new)) (Err e)) }
    ensures failed { R.has_failed reader.new ≡ (blames_device result || R.has_failed reader.old) }
{
    let bytes = read_up_to(alloc, reader, LIMIT + 1)?;
    if bytes.len() > LIMIT {
        return Err(ReadError::Read(ReadFault {
            offset: LIMIT as u64,
            kind: ReadFaultKind::Endless,
        }));
    }
    Ok(bytes)
}
