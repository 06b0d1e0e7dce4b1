//! Readers and writers for tests: they fail in mid-stream, give or take so many bytes at a time, and count their calls.
//!
//! The devices stand on those of keymap_core, whose laws they keep; they tell no reader which bytes are left and no
//! writer's caller which were taken, so a test looks at their fields.
ghost use Rattle.std.specs.Prelude.{[], None, false, length, ◌-◌, ◌^◌, ◌≡◌};

use arrayvec::ArrayVec;
use keymap_core::{Failed, Read, Write};

/// A reader that gives a text and then one byte again and again, and fails after so many bytes.
#[derive(Drop)]
pub struct Tape<'a> {
    pub text: &'a [u8],
    /// What the tape gives behind the text.
    pub rest: u8,
    /// How many bytes the tape has.
    pub size: usize,
    /// How many bytes the tape gives at a time.
    pub pace: usize,
    /// How many bytes it gives before it fails: in place of the end where these are all.
    pub most: usize,
    pub given: usize,
    pub reads: u32,
    pub failed: bool,
}

/// A reader of the text, so many bytes at a time, that fails after so many.
pub fn reader_of(text: &[u8], pace: usize, most: usize) -> Tape<'_>
    ensures text { result.text.now ≡ text.now }
    ensures size { result.size ≡ length text.now }
    ensures pace { result.pace ≡ pace }
    ensures most { result.most ≡ most }
    ensures given { result.given ≡ 0 }
    ensures reads { result.reads ≡ 0 }
    ensures failed { result.failed ≡ false }
{
    tape_of(text, text.len(), pace, most)
}

/// A reader of the text and then blanks, so many bytes in all, which come so many at a time, that fails after so many.
pub fn tape_of(text: &[u8], size: usize, pace: usize, most: usize) -> Tape<'_>
    ensures text { result.text.now ≡ text.now }
    ensures rest { result.rest ≡ 32 }
    ensures size { result.size ≡ size }
    ensures pace { result.pace ≡ pace }
    ensures most { result.most ≡ most }
    ensures given { result.given ≡ 0 }
    ensures reads { result.reads ≡ 0 }
    ensures failed { result.failed ≡ false }
{
    Tape {
        text,
        rest: b' ',
        size,
        pace,
        most,
        given: 0,
        reads: 0,
        failed: false,
    }
}

/// A reader without an end, which gives this byte again and again, one at a time.
pub fn endless_tape_of(byte: u8) -> Tape<'static>
    ensures text { result.text.now ≡ [] }
    ensures rest { result.rest ≡ byte }
    ensures size { result.size ≡ 2 ^ 64 - 1 }
    ensures pace { result.pace ≡ 1 }
    ensures most { result.most ≡ 2 ^ 64 - 1 }
    ensures given { result.given ≡ 0 }
    ensures reads { result.reads ≡ 0 }
    ensures failed { result.failed ≡ false }
{
    let mut tape = tape_of(b"", usize::MAX, 1, usize::MAX);
    tape.rest = byte;
    tape
}

impl Read for Tape<'_> {
    ghost remaining = { λ _. None };

    ghost has_failed = { λ tape. tape.failed };

    fn read(&mut self, buffer: &mut [u8]) -> Result<usize, Failed> {
        self.reads = self.reads.saturating_add(1);
        if self.given >= self.most {
            self.failed = true;
            return Err(Failed);
        }
        let left = self.size.min(self.most).saturating_sub(self.given);
        let count = left.min(self.pace).min(buffer.len());
        let text = self.text.get(self.given..).unwrap_or(b"");
        let copied = text.len().min(count);
        buffer[..copied].copy_from_slice(&text[..copied]);
        for place in &mut buffer[copied..count] {
            *place = self.rest;
        }
        self.given = self.given.saturating_add(count);
        Ok(count)
    }

    fn failed(&self) -> bool {
        self.failed
    }
}

/// The most bytes that a sheet or a long text has.
pub const ROOM: usize = 16_384;

/// A writer that keeps what it takes, and fails when it is full.
#[derive(Drop)]
pub struct Sheet {
    pub bytes: ArrayVec<u8, ROOM>,
    pub writes: u32,
    pub pace: usize,
    pub most: usize,
    pub failed: bool,
}

/// A sheet of so many bytes at most.
pub fn sheet_of(most: usize) -> Sheet
    ensures pace { result.pace ≡ 2 ^ 64 - 1 }
    ensures most { result.most ≡ most }
    ensures bytes { result.bytes.items ≡ [] }
    ensures writes { result.writes ≡ 0 }
    ensures failed { result.failed ≡ false }
{
    slow_sheet_of(usize::MAX, most)
}

/// A sheet that takes so many bytes at a time.
pub fn slow_sheet_of(pace: usize, most: usize) -> Sheet
    ensures pace { result.pace ≡ pace }
    ensures most { result.most ≡ most }
    ensures bytes { result.bytes.items ≡ [] }
    ensures writes { result.writes ≡ 0 }
    ensures failed { result.failed ≡ false }
{
    Sheet {
        bytes: ArrayVec::new(),
        writes: 0,
        pace,
        most,
        failed: false,
    }
}

impl Write for Sheet {
    ghost contents = { λ _. None };

    ghost has_failed = { λ sheet. sheet.failed };

    fn write(&mut self, bytes: &[u8]) -> Result<usize, Failed> {
        self.writes = self.writes.saturating_add(1);
        if bytes.is_empty() {
            return Ok(0);
        }
        let room = self.most.saturating_sub(self.bytes.len());
        let count = bytes.len().min(room).min(self.pace);
        if count == 0 || self.bytes.try_extend_from_slice(&bytes[..count]).is_err() {
            self.failed = true;
            return Err(Failed);
        }
        Ok(count)
    }

    fn failed(&self) -> bool {
        self.failed
    }
}
