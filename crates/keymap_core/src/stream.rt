//! Writing through a buffer of fixed size, so that a text of many small pieces costs few writes.
ghost use Rattle.std.specs.Prelude.{◌≡◌, ℕ, ◌+◌, ◌^◌, ◌<◌, ◌≤◌, ◌||◌, [], ◌++◌, List, Option, length, is_err, OnOk};
ghost use Rattle.std.specs.Prelude.{OnErr};
ghost use Rattle.keymap_core.specs.Devices.{WritesText, PutsPiece};
ghost use Rattle.keymap_core.specs.Streams.{Gathers, Flushes, Pushes, size_of};

use crate::device::Write;
use crate::transfer::{WriteFault, put};
use std::marker::Model;

/// Bytes on their way to a writer: how many it took, and those that still wait in a buffer of `SIZE` bytes.
#[derive(Drop)]
pub struct SizedStream<const SIZE: usize> {
    bytes: [u8; SIZE],
    waiting: usize,
    written: u64,
}

/// A stream that takes little of the stack.
pub type Stream = SizedStream<4096>;

impl<const SIZE: usize> Model for SizedStream<SIZE> {
    ghost use Rattle.std.specs.Prelude.{◌≡◌, ◌≤◌, length, take};
    ghost use Rattle.keymap_core.specs.Streams.{StreamValue};

    ghost Value = { StreamValue };

    ghost view = { λ s. record { written = s.written; waiting = take s.waiting s.bytes } };

    ghost invariant = { λ s. (s.waiting ≤ SIZE) × (length s.bytes ≡ SIZE) };
}

impl<const SIZE: usize> SizedStream<SIZE> {
    /// A stream of which nothing was written.
    pub fn new() -> SizedStream<SIZE>
        ensures none { result.written ≡ 0 }
        ensures empty { result.waiting ≡ [] }
    {
        SizedStream {
            bytes: [0; SIZE],
            waiting: 0,
            written: 0,
        }
    }

    /// How many bytes the buffer has room for.
    pub fn room(&self) -> usize
        ensures { result + length self.now.waiting ≡ SIZE }
    {
        SIZE - self.waiting
    }

    /// Lets what waits go, where so many bytes were written by then.
    fn restart(&mut self, written: u64)
        ensures written { self.new.written ≡ written }
        ensures waiting { self.new.waiting ≡ [] }
    {
        self.written = written;
        self.waiting = 0;
    }

    /// Adds a piece for which there is room.
    #[inline(always)]
    pub fn append(&mut self, piece: &[u8])
        requires { length self.old.waiting + length piece.now ≤ SIZE }
        ensures written { self.new.written ≡ self.old.written }
        ensures waiting { self.new.waiting ≡ self.old.waiting ++ piece.now }
    {
        let start = self.waiting;
        let end = start + piece.len();
        let bytes = &mut self.bytes[..];
        bytes[start..end].copy_from_slice(piece);
        self.waiting = end;
    }

    /// Writes what waits. The answer is how many bytes were written by then.
    fn flush<W: Write>(&self, writer: &mut W) -> Result<u64, WriteFault>
        requires { size_of self.now < 2 ^ 64 }
        ensures bytes { PutsPiece (λ f. f.written) (W.contents writer.old) (W.contents writer.new) self.now.written
            self.now.waiting result }
        ensures failed { W.has_failed writer.new ≡ (is_err result || W.has_failed writer.old) }
    {
        put(writer, self.written, &self.bytes[..self.waiting])
    }

    /// Makes room for so many bytes. What waits is written first where the buffer has none.
    pub fn make_room<W: Write>(&mut self, writer: &mut W, count: usize) -> Result<(), WriteFault>
        requires small { count ≤ SIZE }
        requires counted { size_of self.old < 2 ^ 64 }
        ensures bytes { Flushes (W.contents writer.old) (W.contents writer.new) self.old self.new result }
        ensures room { OnOk result (length self.new.waiting + count ≤ SIZE) }
        ensures count { OnOk result (size_of self.new ≡ size_of self.old) }
        ensures err { OnErr result (self.new ≡ self.old) }
        ensures failed { W.has_failed writer.new ≡ (is_err result || W.has_failed writer.old) }
    {
        if self.room() < count {
            let written = self.flush(writer)?;
            self.restart(written);
        }
        Ok(())
    }

    /// Adds a piece that the buffer can hold to the text.
    pub fn push<W: Write>(&mut self, writer: &mut W, piece: &[u8]) -> Result<(), WriteFault>
        requires small { length piece.now ≤ SIZE }
        requires counted { size_of self.old + length piece.now < 2 ^ 64 }
        ensures bytes { Pushes (W.contents writer.old) (W.contents writer.new) self.old self.new piece.now result }
        ensures count { OnOk result (size_of self.new ≡ size_of self.old + length piece.now) }
        ensures err { OnErr result (self.new ≡ self.old) }
        ensures failed { W.has_failed writer.new ≡ (is_err result || W.has_failed writer.old) }
    {
        self.make_room(writer, piece.len())?;
        self.append(piece);
        Ok(())
    }

    /// Writes what is left of the text.
    pub fn finish<W: Write>(&self, writer: &mut W) -> Result<(), WriteFault>
        requires { size_of self.now < 2 ^ 64 }
        ensures bytes { (start : Option (List ℕ)) (text : List ℕ) → Gathers start (W.contents writer.old) self.now text
            → WritesText (λ f. f.written) start (W.contents writer.new) text result }
        ensures failed { W.has_failed writer.new ≡ (is_err result || W.has_failed writer.old) }
    {
        self.flush(writer)?;
        Ok(())
    }
}
