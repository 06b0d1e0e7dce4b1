//! The devices that bytes are read from and written to. Their failures are kept, so that one that was passed over can
//! be seen afterwards.
ghost use Rattle.std.specs.Prelude.{◌≡◌, ℕ, ◌<◌, ◌≤◌, ◌||◌, Bool, List, length, IfOk, is_err};
ghost use Rattle.std.specs.Io.KnownBytes.{WriteAppends};
ghost use Rattle.std.specs.Prelude.{Option};
ghost use Rattle.keymap_core.specs.Devices.{ReadTakes};

/// A device failed. Its flag says so from then on.
#[derive(Clone, Copy, Debug, PartialEq, Eq)]
pub struct Failed;

/// What gives bytes.
pub trait Read {
    /// The bytes left to read, where the device tells them.
    ghost remaining: { Self → Option (List ℕ) };

    /// Whether a read has failed.
    ghost has_failed: { Self → Bool };

    /// Reads some bytes into the front of the buffer and answers how many. 0, where there is room, is the end. A read
    /// that fails has taken no byte.
    fn read(&mut self, buffer: &mut [u8]) -> Result<usize, Failed>
        ensures bound { IfOk result (λ n. n ≤ length buffer.new) }
        ensures bytes { ReadTakes (remaining self.old) (remaining self.new) result buffer.new }
        ensures failed { has_failed self.new ≡ (is_err result || has_failed self.old) };

    /// Whether a read has failed.
    fn failed(&self) -> bool
        ensures { result ≡ has_failed self.now };
}

/// What takes bytes.
pub trait Write {
    /// The bytes taken, where the device tells them.
    ghost contents: { Self → Option (List ℕ) };

    /// Whether a write has failed.
    ghost has_failed: { Self → Bool };

    /// Writes some bytes from the front and answers how many: at least one, where there is one. A write that fails has
    /// taken no byte.
    fn write(&mut self, bytes: &[u8]) -> Result<usize, Failed>
        ensures bound { IfOk result (λ n. n ≤ length bytes.now) }
        ensures progress { 0 < length bytes.now → IfOk result (λ n. 0 < n) }
        ensures bytes { WriteAppends (contents self.old) (contents self.new) result bytes.now }
        ensures failed { has_failed self.new ≡ (is_err result || has_failed self.old) };

    /// Whether a write has failed.
    fn failed(&self) -> bool
        ensures { result ≡ has_failed self.now };
}
