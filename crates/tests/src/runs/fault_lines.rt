//! The lines that tell why a run failed, as far as no transcript has them: the name of each kind of a fault, and what
//! commands of the program don't come to.

use crate::asserts::expect_equal_at;
use crate::support::devices::sheet_of;
use keymap_core::{ReadFault, ReadFaultKind};
use keymap_tables::{TableFault, TableFaultKind, Wide};
use keymap_text::{TextFault, TextFaultKind};
use kmap_runs::{CommandError, RunError, write_command_error, write_run_error};
use play_core::ScriptFault;

/// The names of the faults of a text and of a table file.
static TEXT_KINDS: [(TextFaultKind, &[u8]); 11] = [
    (TextFaultKind::BadByte, b"BadByte\n"),
    (TextFaultKind::BadLiteral, b"BadLiteral\n"),
    (TextFaultKind::BadWord, b"BadWord\n"),
    (TextFaultKind::Unexpected, b"Unexpected\n"),
    (TextFaultKind::KeyTooLarge, b"KeyTooLarge\n"),
    (TextFaultKind::BadChar, b"BadChar\n"),
    (TextFaultKind::BadFunction, b"BadFunction\n"),
    (TextFaultKind::TooManyPairs, b"TooManyPairs\n"),
    (TextFaultKind::ZeroBase, b"ZeroBase\n"),
    (TextFaultKind::Combined, b"Combined\n"),
    (TextFaultKind::EndInside, b"EndInside\n"),
];

static TABLE_KINDS: [(TableFaultKind, &[u8]); 9] = [
    (TableFaultKind::Short, b"Short\n"),
    (TableFaultKind::Long, b"Long\n"),
    (TableFaultKind::BadCount, b"BadCount\n"),
    (TableFaultKind::BadPad, b"BadPad\n"),
    (TableFaultKind::BadFlag, b"BadFlag\n"),
    (TableFaultKind::BadAction, b"BadAction\n"),
    (TableFaultKind::Combined, b"Combined\n"),
    (TableFaultKind::BadChar, b"BadChar\n"),
    (TableFaultKind::NotEmpty, b"NotEmpty\n"),
];

#[test]
fn each_kind_has_its_name(rt: HostRuntime) {
    let (offset, line) = (2, 1);
    for &(kind, name) in &TEXT_KINDS {
        let fault = TextFault { offset, line, kind };
        let mut out = sheet_of(usize::MAX);
        let written = write_run_error(&RunError::Text(fault), &mut out);
        let told = out.bytes.as_slice();
        let end = told.strip_prefix(b"kmap: text line 1 offset 2: ".as_slice());
        expect_equal_at(&rt, kind, (written, end), (Ok(()), Some(name)));
    }
    for &(kind, name) in &TABLE_KINDS {
        let fault = TableFault { offset, kind };
        let mut out = sheet_of(usize::MAX);
        let written = write_run_error(&RunError::Tables(fault), &mut out);
        let told = out.bytes.as_slice();
        let end = told.strip_prefix(b"kmap: tables offset 2: ".as_slice());
        expect_equal_at(&rt, kind, (written, end), (Ok(()), Some(name)));
    }
}

const ENDLESS: ReadFault = ReadFault {
    offset: 1_048_576,
    kind: ReadFaultKind::Endless,
};

const LAST: Wide = Wide::Accent {
    accent: 14,
    number: 104,
};

/// Errors and their lines.
static LINES: [(CommandError, &[u8]); 6] = [
    (
        CommandError::Run(RunError::Script(ScriptFault::BadLine(u64::MAX))),
        b"kmap: script line 18446744073709551615: BadLine\n",
    ),
    (
        CommandError::Run(RunError::ReadTables(ENDLESS)),
        b"kmap: tables: more than 1048576 bytes\n",
    ),
    (
        CommandError::Run(RunError::TooWide(LAST)),
        b"kmap: accent too wide at accent 14 number 104\n",
    ),
    (
        CommandError::NotText { offset: u64::MAX },
        b"kmap: sentence offset 18446744073709551615: not UTF-8\n",
    ),
    (
        CommandError::NoWay { offset: 0, c: '\n' },
        b"kmap: sentence offset 0: no keys found for U+000a\n",
    ),
    (
        CommandError::NoWay {
            offset: u64::MAX,
            c: '\u{10ffff}',
        },
        b"kmap: sentence offset 18446744073709551615: no keys found for U+10ffff\n",
    ),
];

#[test]
fn errors_have_their_lines(rt: HostRuntime) {
    for (error, line) in &LINES {
        let mut out = sheet_of(usize::MAX);
        let written = write_command_error(error, &mut out);
        let told = (written, out.bytes.as_slice());
        expect_equal_at(&rt, *line, told, (Ok(()), *line));
    }
}
