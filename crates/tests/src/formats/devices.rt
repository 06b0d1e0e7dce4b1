//! Reading and writing at devices: a reader and a writer that fail in mid-stream, how much is read of a text that is
//! too long, and how pieces are gathered.

use crate::asserts::{expect_at, expect_equal, expect_equal_at, map_of};
use crate::formats::reading::is_map;
use crate::formats::tables::{Form, LENGTH};
use crate::support::devices::{Sheet, Tape, reader_of, sheet_of, tape_of};
use crate::support::keymaps::{ACCENTS, LETTER_AND_SHIFT};
use keymap_core::{KeyMap, Read, ReadFault, ReadFaultKind, Stream, Write, WriteFault, read_up_to};
use keymap_tables::{NarrowError, TableError};
use keymap_text::{TextError, TextFault, TextFaultKind, print_map, read_from, read_map};
use std::alloc::Global;

/// What is read or written.
#[derive(Clone, Copy, Debug)]
enum Format {
    Text,
    Tables(Form),
}

const WIDE: Format = Format::Tables(Form::Wide);

const NARROW: Format = Format::Tables(Form::Narrow);

/// The fault of a reader that failed or had too much.
fn read_fault(alloc: Global, format: Format, tape: &mut Tape<'_>) -> Option<ReadFault> {
    match format {
        Format::Text => match read_from(alloc, tape) {
            Err(TextError::Read(fault)) => Some(fault),
            _ => None,
        },
        Format::Tables(form) => match form.read_from(alloc, tape) {
            Err(TableError::Read(fault)) => Some(fault),
            _ => None,
        },
    }
}

/// What is read of a text and then blanks, how many bytes come at a time, and how many in all before the reader fails:
/// the last one in place of the end.
static READS: [(Format, &[u8], usize, usize); 3] = [
    (Format::Text, LETTER_AND_SHIFT, 13, 30),
    (WIDE, b"", 4_000, 9_000),
    (NARROW, b"", 4_139, 4_139),
];

#[test]
fn a_reader_that_fails_is_a_fault(rt: HostRuntime) {
    for &(format, text, pace, most) in &READS {
        let mut tape = tape_of(text, most, pace, most);
        let (offset, kind) = (most as u64, ReadFaultKind::Device);
        let wanted = ReadFault { offset, kind };
        let fault = read_fault(rt.alloc(), format, &mut tape);
        expect_equal_at(&rt, format, fault, Some(wanted));
        assert!(rt; tape.failed());
    }
}

fn write_as<W: Write>(format: Format, map: &KeyMap, writer: &mut W) -> Result<(), NarrowError> {
    match format {
        Format::Text => print_map(map, writer).map_err(NarrowError::Write),
        Format::Tables(form) => form.write(map, writer),
    }
}

/// What is written of the keymap of a text, and how many bytes before the writer fails. The printed form has more bytes
/// than are gathered before they are written.
static WRITES: [(Format, &[u8], usize); 3] = [
    (Format::Text, ACCENTS, 4_200),
    (WIDE, LETTER_AND_SHIFT, 9_000),
    (NARROW, LETTER_AND_SHIFT, 10),
];

/// A writer that fails has just the first bytes.
#[test]
fn a_writer_that_fails_is_a_fault(rt: HostRuntime) {
    for &(format, text, most) in &WRITES {
        let map = map_of(&rt, text);
        let mut whole = sheet_of(LENGTH);
        write_as(format, &map, &mut whole).expect(&rt, "a writer");
        let mut writer = sheet_of(most);
        let written = most as u64;
        let fault = NarrowError::Write(WriteFault { written });
        let answer = write_as(format, &map, &mut writer);
        expect_equal_at(&rt, format, answer, Err(fault));
        let is_front = whole.bytes.starts_with(writer.bytes.as_slice());
        let has_most = writer.bytes.len() == most && writer.failed();
        expect_at(&rt, format, is_front && has_most);
    }
}

const LIMIT: usize = 1_048_576;

const ENDLESS: TextError = TextError::Read(ReadFault {
    offset: 1_048_576,
    kind: ReadFaultKind::Endless,
});

const FAILED: TextError = TextError::Read(ReadFault {
    offset: 1_048_576,
    kind: ReadFaultKind::Device,
});

const BAD_LITERAL: TextError = TextError::Fault(TextFault {
    offset: 2,
    line: 1,
    kind: TextFaultKind::BadLiteral,
});

/// A text and how many bytes there are with the blanks behind it, how many come at a time and at most, the error, and
/// how many are taken at most.
type Limited = (&'static [u8], usize, usize, usize, Option<TextError>, usize);

static LIMITED: [Limited; 6] = [
    (LETTER_AND_SHIFT, 100, 1, usize::MAX, None, 100),
    (b"", LIMIT, 1, usize::MAX, None, LIMIT),
    (b"", LIMIT + 1, 512, usize::MAX, Some(ENDLESS), LIMIT + 1),
    (b"", usize::MAX, 1, usize::MAX, Some(ENDLESS), LIMIT + 1),
    (b"", usize::MAX, 512, LIMIT, Some(FAILED), LIMIT),
    (b"1 'ab'", usize::MAX, 1, usize::MAX, Some(BAD_LITERAL), 6),
];

/// A text is read to its limit or its first fault, and one byte is asked for behind the limit.
#[test]
fn a_text_is_read_to_its_limit(rt: HostRuntime) {
    for &(text, size, pace, most, error, taken) in &LIMITED {
        let mut tape = tape_of(text, size, pace, most);
        let answer = read_from(rt.alloc(), &mut tape);
        if let Ok(map) = &answer {
            let is_same = is_map(read_map(rt.alloc(), text), map);
            expect_at(&rt, (size, pace), is_same);
        }
        expect_equal_at(&rt, (size, pace), answer.err(), error);
        let most_reads = taken.checked_div(pace).unwrap_or(0).saturating_add(2);
        let is_left = tape.given <= taken && tape.reads as usize <= most_reads.min(1_048_578);
        expect_at(&rt, (size, pace), is_left);
        expect_equal_at(&rt, (size, pace), tape.failed(), error == Some(FAILED));
    }
}

#[test]
fn reads_end_at_the_limit(rt: HostRuntime) {
    let mut reader = reader_of(b"12345", 1, 9);
    let bytes = read_up_to(rt.alloc(), &mut reader, 3).expect(&rt, "bytes");
    expect_equal(&rt, bytes.as_slice(), b"123".as_slice());
    assert!(rt; reader.reads <= 4 && !reader.failed());
}

/// Five pieces of 1,000 bytes: four wait in the buffer when the fifth comes.
fn stream_pieces(writer: &mut Sheet) -> Result<(), WriteFault> {
    let piece = [b'x'; 1000];
    let mut stream = Stream::new();
    stream.push(writer, &piece)?;
    stream.push(writer, &piece)?;
    stream.push(writer, &piece)?;
    stream.push(writer, &piece)?;
    stream.push(writer, &piece)?;
    stream.finish(writer)
}

#[test]
fn pieces_are_gathered(rt: HostRuntime) {
    let mut writer = sheet_of(9000);
    expect_equal(&rt, stream_pieces(&mut writer), Ok(()));
    expect_equal(&rt, (writer.bytes.len(), writer.writes), (5000, 2));
}
