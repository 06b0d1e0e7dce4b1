//! Devices of plays: a reader or a writer that fails in mid-stream is named, and nothing more is done. How many writes
//! a long output takes.
ghost use Rattle.std.specs.Prelude.{None, false};

use crate::asserts::{expect_at, expect_equal, expect_equal_at};
use crate::runs::plays::{Played, play_texts};
use crate::support::devices::{reader_of, sheet_of};
use crate::support::keymaps::{ACCENTS, LETTER_AND_SHIFT, SHIFT_AND_CAPS};
use keymap_core::{Failed, Read, ReadFault, ReadFaultKind, Write, WriteFault};
use play_core::{PlayError, Show, Source, play_next};

const SCRIPT: &[u8] = b"down 42\nlost up 42\nrepeat 30\n# shift stays on\nload\nreset\n";

/// What fails, and after how many bytes; the script in place of its end.
static FAILING: [(Source, usize); 3] = [
    (Source::Text, 70),
    (Source::Next, 20),
    (Source::Script, 57),
];

/// How many bytes a reader gives at most, where the one that fails gives so many.
fn most_of(own: Source, failing: Source, most: usize) -> usize {
    if own == failing { most } else { usize::MAX }
}

/// The fault names the reader that failed, no other one has failed, and nothing is written.
#[test]
fn a_reader_that_fails_is_named(rt: HostRuntime) {
    for &(source, most) in &FAILING {
        let mut text = reader_of(ACCENTS, 1, most_of(Source::Text, source, most));
        let mut next = reader_of(SHIFT_AND_CAPS, 1, most_of(Source::Next, source, most));
        let mut script = reader_of(SCRIPT, 1, most_of(Source::Script, source, most));
        let mut out = sheet_of(usize::MAX);
        let (alloc, show) = (rt.alloc(), Show::Lines);
        let answer = play_next(alloc, show, &mut text, &mut next, &mut script, &mut out);
        let (offset, kind) = (most as u64, ReadFaultKind::Device);
        let wanted = Err(PlayError::Read(source, ReadFault { offset, kind }));
        expect_equal_at(&rt, source, answer, wanted);
        let failed = (text.failed(), next.failed(), script.failed());
        let wanted = (
            source == Source::Text,
            source == Source::Next,
            source == Source::Script,
        );
        expect_equal_at(&rt, source, failed, wanted);
        assert!(rt; out.writes == 0 && !out.failed());
    }
}

/// What is played, and what is written of it before the writer fails.
static WRITTEN: [(Played, &[u8]); 3] = [
    (
        (Show::Lines, LETTER_AND_SHIFT, None, "down 42\nup 42\n"),
        b"press 42: lshift; mods lshift; locks none\nrelease 42: rel",
    ),
    (
        (Show::Typed, ACCENTS, None, "down 42\ndown 15\nup 15\n"),
        b"\x1b[",
    ),
    (
        (
            Show::Lines,
            SHIFT_AND_CAPS,
            Some(LETTER_AND_SHIFT),
            "load\ndown 30\n",
        ),
        b"load: none; mo",
    ),
];

#[test]
fn a_writer_that_fails_has_the_first_bytes(rt: HostRuntime) {
    for &(played, wanted) in &WRITTEN {
        let mut out = sheet_of(wanted.len());
        let answer = play_texts(rt.alloc(), played, &mut out);
        let written = wanted.len() as u64;
        let fault = PlayError::Write(WriteFault { written });
        expect_equal_at(&rt, wanted, answer, Err(fault));
        let is_front = out.bytes.as_slice() == wanted;
        expect_at(&rt, wanted, is_front && out.failed());
    }
}

/// A writer that counts what it takes.
#[derive(Drop)]
struct Counter {
    bytes: usize,
    writes: u32,
}

impl Write for Counter {
    ghost contents = { λ _. None };

    ghost has_failed = { λ _. false };

    fn write(&mut self, bytes: &[u8]) -> Result<usize, Failed> {
        self.bytes = self.bytes.saturating_add(bytes.len());
        self.writes = self.writes.saturating_add(1);
        Ok(bytes.len())
    }

    fn failed(&self) -> bool {
        false
    }
}

#[test]
fn long_outputs_take_few_writes(rt: HostRuntime) {
    let mut lines = Vec::new(rt.alloc());
    for _ in 0..2_000 {
        lines.extend_from_slice(b"reset\n").expect(&rt, "memory");
    }
    let mut text = reader_of(ACCENTS, 512, usize::MAX);
    let mut next = reader_of(b"", 1, usize::MAX);
    let mut script = reader_of(lines.as_slice(), 4096, usize::MAX);
    let (bytes, writes) = (0, 0);
    let mut out = Counter { bytes, writes };
    let (alloc, show) = (rt.alloc(), Show::Lines);
    let answer = play_next(alloc, show, &mut text, &mut next, &mut script, &mut out);
    expect_equal(&rt, answer, Ok(()));
    expect_equal(&rt, (out.bytes, out.writes), (70_000, 2));
}
