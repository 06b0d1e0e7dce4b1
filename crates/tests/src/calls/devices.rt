//! Devices that count what was done to them, and the line that tells where a call begins and ends.
ghost use Rattle.std.specs.Prelude.{None, false};

use keymap_core::{Failed, Read, Write, write_text};

/// Gives bytes, and counts the reads.
#[derive(Drop)]
pub struct Given<'a> {
    bytes: &'a [u8],
    given: usize,
    pub reads: u32,
}

pub(crate) fn reader_of(bytes: &[u8]) -> Given<'_> {
    Given {
        bytes,
        given: 0,
        reads: 0,
    }
}

impl Read for Given<'_> {
    ghost remaining = { λ _. None };

    ghost has_failed = { λ _. false };

    fn read(&mut self, buffer: &mut [u8]) -> Result<usize, Failed> {
        self.reads = self.reads.saturating_add(1);
        if self.given >= self.bytes.len() {
            return Ok(0);
        }
        let left = &self.bytes[self.given..];
        let count = left.len().min(buffer.len());
        buffer[..count].copy_from_slice(&left[..count]);
        self.given += count;
        Ok(count)
    }

    fn failed(&self) -> bool {
        false
    }
}

/// Takes all bytes, and counts the writes.
#[derive(Drop)]
pub struct Counting {
    pub writes: u32,
}

pub(crate) fn writer() -> Counting {
    Counting { writes: 0 }
}

impl Write for Counting {
    ghost contents = { λ _. None };

    ghost has_failed = { λ _. false };

    fn write(&mut self, bytes: &[u8]) -> Result<usize, Failed> {
        self.writes = self.writes.saturating_add(1);
        Ok(bytes.len())
    }

    fn failed(&self) -> bool {
        false
    }
}

/// Tells that the call begins, or that it has ended.
pub(crate) fn mark<W: Write>(marks: &mut W) {
    let _ = write_text(marks, b"call\n");
}
