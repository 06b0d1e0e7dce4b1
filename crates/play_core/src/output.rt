//! What is shown, on its way to a writer.
use keymap_core::SizedStream;

/// A stream that writes 64 KiB at a time.
pub(crate) type Output = SizedStream<65536>;
