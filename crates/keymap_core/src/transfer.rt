//! Loops over devices: a whole text is written and the bytes of a reader are gathered. A failure ends a loop, and
//! nothing is tried again.
ghost use Rattle.std.specs.Prelude.{◌≡◌, ◌+◌, ◌^◌, ◌<◌, ◌≤◌, ◌||◌, length, IfOk, IfErr};
ghost use Rattle.std.specs.Prelude.{is_err};
ghost use Rattle.keymap_core.specs.Devices.{WritesText, PutsPiece};
ghost use Rattle.keymap_core.specs.Transfers.{ReadsUpTo, IsDeviceFault, blames_reader};

use crate::device::{Failed, Read, Write};
use std::alloc::Global;

/// A writer failed, after it had taken so many bytes.
#[derive(Clone, Copy, Debug, PartialEq, Eq)]
pub struct WriteFault {
    pub written: u64,
}

/// Why reading ended before its time.
#[derive(Clone, Copy, Debug, PartialEq, Eq)]
pub enum ReadFaultKind {
    /// The reader failed.
    Device,
    /// More bytes came than the limit.
    Endless,
}

/// A fault of a reader, after so many bytes were taken from it.
#[derive(Clone, Copy, Debug, PartialEq, Eq)]
pub struct ReadFault {
    pub offset: u64,
    pub kind: ReadFaultKind,
}

/// Why no bytes were gathered.
#[derive(Clone, Copy, Debug, PartialEq, Eq)]
pub enum ReadError {
    /// Memory was refused.
    Memory,
    /// The reader failed.
    Read(ReadFault),
}

/// How many bytes are asked for at once.
const PIECE: usize = 4096;

/// How many bytes there is room for at once. Most texts have fewer, and each table file has.
const ROOM: usize = 16_384;

/// The bytes up to the end, or the first `max` of them, in at most `max` + 1 reads.
pub fn read_up_to<R: Read>(alloc: Global, reader: &mut R, max: usize) -> Result<Vec<u8>, ReadError>
    ensures ok { IfOk result (λ bytes. ReadsUpTo max (R.remaining reader.old) (R.remaining reader.new) bytes.items) }
    ensures failed { R.has_failed reader.new ≡ (blames_reader result || R.has_failed reader.old) }
    ensures fault { IfErr result (IsDeviceFault max (R.remaining reader.old) (R.remaining reader.new)) }
{
    let Ok(mut bytes) = Vec::with_capacity(alloc, ROOM.min(max)) else {
        return Err(ReadError::Memory);
    };
    let mut buffer = [0; PIECE];
    while bytes.len() < max {
        let room = PIECE.min(max - bytes.len());
        match reader.read(&mut buffer[..room]) {
            Ok(0) => return Ok(bytes),
            Ok(count) => {
                if bytes.extend_from_slice(&buffer[..count]).is_err() {
                    return Err(ReadError::Memory);
                }
            }
            Err(Failed) => {
                return Err(ReadError::Read(ReadFault {
                    offset: bytes.len() as u64,
                    kind: ReadFaultKind::Device,
                }));
            }
        }
    }
    Ok(bytes)
}

/// Writes a piece of a text, of which `before` bytes were written before, and counts on.
pub fn put<W: Write>(writer: &mut W, before: u64, piece: &[u8]) -> Result<u64, WriteFault>
    requires { before + length piece.now < 2 ^ 64 }
    ensures bytes { PutsPiece (λ f. f.written) (W.contents writer.old) (W.contents writer.new) before piece.now result }
    ensures failed { W.has_failed writer.new ≡ (is_err result || W.has_failed writer.old) }
{
    let mut done = 0;
    while done < piece.len() {
        match writer.write(&piece[done..]) {
            Ok(count) => done += count,
            Err(Failed) => {
                return Err(WriteFault {
                    written: before + done as u64,
                });
            }
        }
    }
    Ok(before + piece.len() as u64)
}

/// Writes a whole text.
pub fn write_text<W: Write>(writer: &mut W, text: &[u8]) -> Result<(), WriteFault>
    ensures bytes { WritesText (λ f. f.written) (W.contents writer.old) (W.contents writer.new) text.now result }
    ensures failed { W.has_failed writer.new ≡ (is_err result || W.has_failed writer.old) }
{
    put(writer, 0, text)?;
    Ok(())
}
