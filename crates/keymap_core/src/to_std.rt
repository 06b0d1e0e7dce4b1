//! A writer of std as a device: each call is passed on, and an error sets the flag, as does a write that takes nothing.
ghost use Rattle.std.specs.Prelude.{◌≡◌, false};

use crate::device::{Failed, Write};
use std::io;

/// A writer of std as a device. A write of one byte or more that takes none is a failure.
#[derive(Drop)]
pub struct ToStd<W> {
    writer: W,
    failed: bool,
}

impl<W: io::Write> ToStd<W> {
    /// The device over the writer, with the flag not set.
    pub fn new(writer: W) -> Self
        ensures contents { ⟦<ToStd<W> as Write>⟧.contents result ≡ W.contents writer }
        ensures fresh { ⟦<ToStd<W> as Write>⟧.has_failed result ≡ false }
    {
        ToStd {
            writer,
            failed: false,
        }
    }
}

impl<W: io::Write> Write for ToStd<W> {
    ghost contents = { λ device. W.contents device.writer };

    ghost has_failed = { λ device. device.failed };

    fn write(&mut self, bytes: &[u8]) -> Result<usize, Failed> {
        match self.writer.write(bytes) {
            Ok(0) if !bytes.is_empty() => {
                self.failed = true;
                Err(Failed)
            }
            Ok(count) => Ok(count),
            Err(_) => {
                self.failed = true;
                Err(Failed)
            }
        }
    }

    fn failed(&self) -> bool {
        self.failed
    }
}
