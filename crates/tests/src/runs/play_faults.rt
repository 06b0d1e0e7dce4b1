//! Faults of what was read, named with their source and place before anything is written.

use crate::asserts::{expect_at, expect_equal_at};
use crate::runs::plays::{Played, play_texts};
use crate::support::devices::{sheet_of, tape_of};
use crate::support::keymaps::{LETTER_AND_SHIFT, SHIFT_AND_CAPS};
use keymap_core::{FromStd, Read, ReadFault, ReadFaultKind};
use keymap_text::TextFaultKind::{BadFunction, BadLiteral, EndInside, KeyTooLarge};
use keymap_text::{TextFault, TextFaultKind};
use play_core::{PlayError, ScriptFault, Show, Source, play, play_next};

/// A fault in the first line of a text, with its offset, or of a script.
#[derive(Clone, Copy)]
enum Fault {
    Text(u64, TextFaultKind),
    Next(u64, TextFaultKind),
    Script(ScriptFault),
}

use Fault::{Next, Script, Text};

/// What is played, and its fault. Texts are judged first, and the lines before the fault are not played.
static FAULTS: [(Played, Fault); 16] = [
    ((Show::Lines, b"1 'ab'", None, ""), Text(2, BadLiteral)),
    ((Show::Lines, b"30 nul", None, ""), Text(6, EndInside)),
    ((Show::Lines, b"30 97", None, ""), Text(5, EndInside)),
    ((Show::Lines, b"256", None, ""), Text(0, KeyTooLarge)),
    ((Show::Lines, b"1 '", None, "down 300"), Text(3, EndInside)),
    (
        (Show::Lines, b"1 fkey97", None, "down"),
        Text(2, BadFunction),
    ),
    (
        (Show::Lines, b"256", Some(b"1 '"), "down 300"),
        Text(0, KeyTooLarge),
    ),
    (
        (Show::Lines, SHIFT_AND_CAPS, Some(b"1 '"), "down 300"),
        Next(3, EndInside),
    ),
    (
        (Show::Typed, SHIFT_AND_CAPS, Some(b"1 'ab'"), ""),
        Next(2, BadLiteral),
    ),
    (
        (Show::Lines, SHIFT_AND_CAPS, Some(b"1 fkey97"), "down"),
        Next(2, BadFunction),
    ),
    (
        (Show::Lines, b"", None, "down 30\nup 128"),
        Script(ScriptFault::BadKey(2)),
    ),
    (
        (Show::Lines, b"", None, "reset\ndown"),
        Script(ScriptFault::BadLine(2)),
    ),
    (
        (Show::Lines, LETTER_AND_SHIFT, None, "down 0128"),
        Script(ScriptFault::BadKey(1)),
    ),
    (
        (Show::Lines, LETTER_AND_SHIFT, None, "lost"),
        Script(ScriptFault::BadLine(1)),
    ),
    (
        (Show::Typed, LETTER_AND_SHIFT, None, "down 30\nDOWN 30"),
        Script(ScriptFault::BadLine(2)),
    ),
    (
        (Show::Lines, LETTER_AND_SHIFT, None, "\n#\nup 300\nup"),
        Script(ScriptFault::BadKey(3)),
    ),
];

fn at(offset: u64, kind: TextFaultKind) -> TextFault {
    TextFault {
        offset,
        line: 1,
        kind,
    }
}

fn error(fault: Fault) -> PlayError {
    match fault {
        Text(offset, kind) => PlayError::Text(at(offset, kind)),
        Next(offset, kind) => PlayError::Next(at(offset, kind)),
        Script(fault) => PlayError::Script(fault),
    }
}

#[test]
fn the_first_fault_is_named_and_nothing_is_written(rt: HostRuntime) {
    for &(played, fault) in &FAULTS {
        let mut out = sheet_of(usize::MAX);
        let answer = play_texts(rt.alloc(), played, &mut out);
        expect_equal_at(&rt, played.3, answer, Err(error(fault)));
        assert!(rt; out.writes == 0 && !out.failed);
    }
}

const LIMIT: usize = 1_048_576;

/// What has so many blanks, how many come at a time, and whether they are too many.
static SIZES: [(Source, usize, usize, bool); 9] = [
    (Source::Text, LIMIT, usize::MAX, false),
    (Source::Text, LIMIT + 1, usize::MAX, true),
    (Source::Text, usize::MAX, 1, true),
    (Source::Next, LIMIT, usize::MAX, false),
    (Source::Next, LIMIT + 1, usize::MAX, true),
    (Source::Next, usize::MAX, 1, true),
    (Source::Script, LIMIT, usize::MAX, false),
    (Source::Script, LIMIT + 1, usize::MAX, true),
    (Source::Script, usize::MAX, 1, true),
];

#[test]
fn texts_and_scripts_are_read_to_their_limit(rt: HostRuntime) {
    for &(source, size, pace, is_endless) in &SIZES {
        let mut long = tape_of(b"", size, pace, usize::MAX);
        let mut text = FromStd::new(LETTER_AND_SHIFT);
        let mut other = FromStd::new(b"".as_slice());
        let mut out = sheet_of(usize::MAX);
        let (alloc, show) = (rt.alloc(), Show::Lines);
        let answer = match source {
            Source::Text => play(alloc, show, &mut long, &mut other, &mut out),
            Source::Next => play_next(alloc, show, &mut text, &mut long, &mut other, &mut out),
            Source::Script => play(alloc, show, &mut text, &mut long, &mut out),
        };
        let fault = ReadFault {
            offset: LIMIT as u64,
            kind: ReadFaultKind::Endless,
        };
        let wanted = if is_endless {
            Err(PlayError::Read(source, fault))
        } else {
            Ok(())
        };
        expect_equal_at(&rt, source, answer, wanted);
        let is_left = out.writes == 0 && long.reads <= LIMIT as u32 + 2 && !long.failed();
        expect_at(&rt, source, is_left);
    }
}
