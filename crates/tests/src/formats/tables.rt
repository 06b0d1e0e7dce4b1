//! Table files of both forms: their bytes as they were published, and what a narrow file can't hold.

use crate::asserts::{expect_at, expect_equal, expect_equal_at, map_of};
use crate::formats::reading::is_map;
use crate::support::devices::{Sheet, sheet_of};
use crate::support::keymaps::{
    ACCENTS, ALT_SHIFT_WITH_TRAP, CAPS_AND_NUM, LETTER_AND_SHIFT, SHIFT_AND_CAPS, SHIFT_WITH_TRAP,
    TWO_CONTROLS, TWO_SCROLL_LOCKS, UPPER_HALF,
};
use keymap_core::{Cell, FromStd, KeyMap, Keymap, LockFlag, Read, Write};
use keymap_tables::{
    NarrowError, TableError, Tables, Wide, read_narrow, read_narrow_from, read_tables,
    read_tables_from, write_narrow, write_tables,
};
use std::alloc::Global;
use std::process::Abort;

/// How long a table file and a narrow file are.
pub(crate) const LENGTH: usize = 15_524;

pub(crate) const NARROW_LENGTH: usize = 4_139;

/// The two forms of a table file.
#[derive(Clone, Copy, Debug)]
pub(crate) enum Form {
    Wide,
    Narrow,
}

pub(crate) static FORMS: [Form; 2] = [Form::Wide, Form::Narrow];

impl Form {
    /// How many bytes a file has.
    pub(crate) fn length(self) -> usize {
        match self {
            Form::Wide => LENGTH,
            Form::Narrow => NARROW_LENGTH,
        }
    }

    pub(crate) fn read(self, alloc: Global, bytes: &[u8]) -> Result<KeyMap, TableError> {
        match self {
            Form::Wide => read_tables(alloc, bytes),
            Form::Narrow => read_narrow(alloc, bytes),
        }
    }

    pub(crate) fn read_from<R: Read>(
        self,
        alloc: Global,
        reader: &mut R,
    ) -> Result<KeyMap, TableError> {
        match self {
            Form::Wide => read_tables_from(alloc, reader),
            Form::Narrow => read_narrow_from(alloc, reader),
        }
    }

    pub(crate) fn write<W: Write>(self, map: &KeyMap, writer: &mut W) -> Result<(), NarrowError> {
        match self {
            Form::Wide => write_tables(map, writer).map_err(NarrowError::Write),
            Form::Narrow => write_narrow(map, writer),
        }
    }
}

/// The file of a keymap.
pub(crate) fn file_of(rt: &impl Abort, form: Form, map: &KeyMap) -> Sheet {
    let mut sheet = sheet_of(LENGTH);
    form.write(map, &mut sheet).expect(rt, "a writer");
    sheet
}

/// A text, the bytes of its file at some places, and how many of all are not 0.
type Bytes = (
    Form,
    &'static [u8],
    &'static [(usize, &'static [u8])],
    usize,
);

static FILES: [Bytes; 7] = [
    (Form::Wide, b"", &[], 0),
    (Form::Narrow, b"", &[], 0),
    (
        Form::Wide,
        LETTER_AND_SHIFT,
        &[
            (0, &[0x2b, 0, 0, 0]),
            (
                1084,
                &[0x61, 0, 0, 0, 0x41, 0, 0, 0, 1, 0, 0, 0, 1, 0, 0, 0],
            ),
            (
                1100,
                &[0x61, 0, 0, 0, 0x41, 0, 0, 0, 1, 0, 0, 0, 1, 0, 0, 0],
            ),
            (1116, &[0, 1, 0, 0]),
            (1516, &[2, 0, 0, 0, 2, 0, 0, 0, 2, 0, 0, 0, 2, 0, 0, 0]),
            (1532, &[2, 0, 0, 0, 2, 0, 0, 0, 2, 0, 0, 0, 2, 0, 0, 0]),
            (1548, &[0xff, 0, 0, 0]),
        ],
        1 + 9 + 9,
    ),
    (
        Form::Narrow,
        LETTER_AND_SHIFT,
        &[
            (0, &[0x2b, 0]),
            (302, &[0x61, 0x41, 1, 1, 0x61, 0x41, 1, 1, 0, 1]),
            (422, &[2, 2, 2, 2, 2, 2, 2, 2, 0xff, 0]),
        ],
        1 + 9 + 9,
    ),
    (
        Form::Wide,
        b"dacu 180 ( 'e' 0xe9 ) ( 'E' 0xc9 )",
        &[
            (9220, &[2, 0, 0, 0]),
            (9644, &[0xb4, 0, 0, 0, 0x65, 0, 0, 0, 0xe9, 0, 0, 0]),
            (9656, &[0x45, 0, 0, 0, 0xc9, 0, 0, 0, 0]),
        ],
        1 + 5,
    ),
    (
        Form::Narrow,
        b"dacu 180 ( 'e' 0xe9 ) ( 'E' 0xc9 ) ( 'e' 0xea )",
        &[
            (2562, &[2, 0]),
            (2669, &[0xb4, 0x65, 0xe9, 0x45, 0xc9, 0x65, 0xea, 0]),
        ],
        1 + 7,
    ),
    (
        Form::Narrow,
        b"255 'a' 'a' 'a' 'a' 'a' 'a' 'a' 0xff O",
        &[
            (0, &[0, 1]),
            (
                2552,
                &[0x61, 0x61, 0x61, 0x61, 0x61, 0x61, 0x61, 0xff, 0, 0],
            ),
        ],
        1 + 8,
    ),
];

/// The most writes that a file takes.
fn most_writes(form: Form) -> u32 {
    match form {
        Form::Wide => 8,
        Form::Narrow => 4,
    }
}

fn is_used(byte: &&u8) -> bool {
    **byte != 0
}

/// Asserts that the bytes stand at their places, and that so many of all are not 0.
fn expect_bytes(
    rt: &impl Abort,
    row: (Form, &[u8]),
    bytes: &[u8],
    places: &[(usize, &[u8])],
    used: usize,
) {
    expect_equal_at(rt, row, bytes.len(), row.0.length());
    for &(place, wanted) in places {
        let given = bytes.get(place..).unwrap_or(b"");
        expect_at(rt, (row.0, place), given.starts_with(wanted));
    }
    let count = bytes.iter().filter(is_used).count();
    expect_equal_at(rt, row, count, used);
}

/// Asserts that the bytes are read as the map, from memory and from a device.
fn expect_read(rt: &impl Abort, alloc: Global, row: (Form, &[u8]), bytes: &[u8], map: &KeyMap) {
    expect_at(rt, row, is_map(row.0.read(alloc, bytes), map));
    let mut reader = FromStd::new(bytes);
    expect_at(rt, row, is_map(row.0.read_from(alloc, &mut reader), map));
}

#[test]
fn files_have_their_bytes(rt: HostRuntime) {
    for &(form, text, places, used) in &FILES {
        let map = map_of(&rt, text);
        let sheet = file_of(&rt, form, &map);
        let bytes = sheet.bytes.as_slice();
        expect_bytes(&rt, (form, text), bytes, places, used);
        expect_at(&rt, (form, text), sheet.writes <= most_writes(form));
        expect_read(&rt, rt.alloc(), (form, text), bytes, &map);
    }
}

/// A text, and the first place of its keymap that a narrow file can't hold.
static TOO_WIDE: [(&[u8], Wide); 6] = [
    (
        b"0 'a' 'A' SOH soh fkey1 scr16 0x20ac DEL b",
        Wide::Cell { slot: 0, column: 6 },
    ),
    (
        b"7 'a' 'A' SOH soh fkey1 scr16 0x20ac DEL b dacu 0x20ac
0 'a' 'A' SOH soh fkey1 scr16 0x20ac DEL b",
        Wide::Cell { slot: 0, column: 6 },
    ),
    (
        b"255 'a' 'a' 'a' 'a' 'a' 'a' 'a' 0x100 O",
        Wide::Cell {
            slot: 255,
            column: 7,
        },
    ),
    (
        b"dacu 0x20ac ( 'e' 0x20ac )",
        Wide::Accent {
            accent: 1,
            number: 0,
        },
    ),
    (
        b"dacu 180 ( 'e' 0xe9 ) ( 0x100 0x100 )",
        Wide::Accent {
            accent: 1,
            number: 3,
        },
    ),
    (
        b"dacu 180 ( 'e' 0xe9 ) ( 'E' 0x100 )",
        Wide::Accent {
            accent: 1,
            number: 4,
        },
    ),
];

#[test]
fn the_first_place_that_does_not_fit_is_named(rt: HostRuntime) {
    for &(text, wide) in &TOO_WIDE {
        let mut sheet = sheet_of(LENGTH);
        let answer = write_narrow(&map_of(&rt, text), &mut sheet);
        expect_equal_at(&rt, text, answer, Err(NarrowError::TooWide(wide)));
        assert!(rt; sheet.bytes.is_empty() && sheet.writes == 0 && !sheet.failed());
    }
}

/// Old files become narrow ones and come back.
static MIGRATED: [&[u8]; 10] = [
    b"",
    LETTER_AND_SHIFT,
    TWO_SCROLL_LOCKS,
    SHIFT_WITH_TRAP,
    ALT_SHIFT_WITH_TRAP,
    CAPS_AND_NUM,
    ACCENTS,
    TWO_CONTROLS,
    UPPER_HALF,
    SHIFT_AND_CAPS,
];

#[test]
fn wide_files_become_narrow_and_come_back(rt: HostRuntime) {
    for &text in &MIGRATED {
        let old = file_of(&rt, Form::Wide, &map_of(&rt, text));
        let map = read_tables(rt.alloc(), old.bytes.as_slice()).expect(&rt, "a map");
        let narrow = file_of(&rt, Form::Narrow, &map);
        let back = read_narrow(rt.alloc(), narrow.bytes.as_slice()).expect(&rt, "a map");
        let new = file_of(&rt, Form::Wide, &back);
        expect_equal_at(&rt, text, narrow.bytes.len(), NARROW_LENGTH);
        expect_at(&rt, text, new.bytes.as_slice() == old.bytes.as_slice());
    }
}

/// Tables in place, of bytes that are no file: what the contracts leave open.
#[test]
fn what_is_no_cell_reads_as_character_0(rt: HostRuntime) {
    let bytes = [0xff; LENGTH];
    let tables = Tables::new(&bytes).expect(&rt, "tables");
    let key = (tables.cell(0, 0), tables.cell(255, 7), tables.flag(255));
    let accents = (tables.own(14), tables.own(15), tables.composed(0, 'a'));
    expect_equal(&rt, key, (Cell::Char('\0'), Cell::Char('\0'), LockFlag::O));
    expect_equal(&rt, accents, (None, None, None));
}
