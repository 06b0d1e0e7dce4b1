//! Faults of table files of both forms: wrong lengths, changed bytes, and readers without an end.

use crate::asserts::{expect_at, expect_equal_at, map_of};
use crate::formats::tables::{FORMS, Form, LENGTH, NARROW_LENGTH, file_of};
use crate::support::devices::endless_tape_of;
use crate::support::keymaps::LETTER_AND_SHIFT;
use keymap_core::{FromStd, KeyMap, Read};
use keymap_tables::{TableError, TableFault, TableFaultKind};
use std::alloc::Global;
use std::process::Abort;

/// More zeros than a table file has.
static ZEROS: [u8; 15_525] = [0; 15_525];

/// Changes bytes, each with its place.
fn change(bytes: &mut [u8], changes: &[(usize, u8)]) {
    for &(place, byte) in changes {
        if let Some(changed) = bytes.get_mut(place) {
            *changed = byte;
        }
    }
}

/// The fault of the bytes, where that is the answer.
fn fault_of(answer: Result<KeyMap, TableError>) -> Option<TableFault> {
    match answer {
        Err(TableError::Fault(fault)) => Some(fault),
        _ => None,
    }
}

/// A file of so many zeros, bytes that are changed in it, each with its place, and its fault.
type Faulty = (Form, usize, &'static [(usize, u8)], u64, TableFaultKind);

static FAULTY: [Faulty; 29] = [
    (Form::Wide, 15_523, &[], 15_523, TableFaultKind::Short),
    (Form::Wide, 15_525, &[], 15_524, TableFaultKind::Long),
    (Form::Narrow, 4_138, &[], 4_138, TableFaultKind::Short),
    (Form::Narrow, 4_140, &[], 4_139, TableFaultKind::Long),
    (Form::Wide, LENGTH, &[(2, 1)], 2, TableFaultKind::BadPad),
    (
        Form::Wide,
        LENGTH,
        &[(9223, 1)],
        9223,
        TableFaultKind::BadPad,
    ),
    (
        Form::Wide,
        LENGTH,
        &[(0, 1), (38, 7)],
        38,
        TableFaultKind::BadPad,
    ),
    (
        Form::Wide,
        LENGTH,
        &[(0, 1), (1, 1)],
        0,
        TableFaultKind::BadCount,
    ),
    (
        Form::Wide,
        LENGTH,
        &[(9220, 16)],
        9220,
        TableFaultKind::BadCount,
    ),
    (Form::Wide, LENGTH, &[(40, 1)], 40, TableFaultKind::NotEmpty),
    (Form::Wide, LENGTH, &[(39, 1)], 39, TableFaultKind::NotEmpty),
    (
        Form::Wide,
        LENGTH,
        &[(0, 1), (37, 4)],
        37,
        TableFaultKind::BadFlag,
    ),
    (
        Form::Wide,
        LENGTH,
        &[(0, 1), (5, 0xd8)],
        4,
        TableFaultKind::BadChar,
    ),
    (
        Form::Wide,
        LENGTH,
        &[(0, 1), (4, 0x9b), (36, 0x80)],
        4,
        TableFaultKind::Combined,
    ),
    (
        Form::Wide,
        LENGTH,
        &[(0, 1), (4, 0x7b), (36, 0x80)],
        4,
        TableFaultKind::BadAction,
    ),
    (
        Form::Wide,
        LENGTH,
        &[(0, 1), (4, 2), (5, 1), (36, 0x80)],
        4,
        TableFaultKind::BadAction,
    ),
    (
        Form::Wide,
        LENGTH,
        &[(9220, 1), (9228, 0), (9232, 0x61)],
        9232,
        TableFaultKind::NotEmpty,
    ),
    (
        Form::Wide,
        LENGTH,
        &[(9220, 1), (9228, 0), (9233, 0xd8)],
        9233,
        TableFaultKind::NotEmpty,
    ),
    (
        Form::Wide,
        LENGTH,
        &[(9220, 1), (9228, 1), (9233, 0xd8)],
        9232,
        TableFaultKind::BadChar,
    ),
    (
        Form::Narrow,
        NARROW_LENGTH,
        &[(0, 1), (1, 1)],
        0,
        TableFaultKind::BadCount,
    ),
    (
        Form::Narrow,
        NARROW_LENGTH,
        &[(2562, 16)],
        2562,
        TableFaultKind::BadCount,
    ),
    (
        Form::Narrow,
        NARROW_LENGTH,
        &[(0, 1), (11, 4)],
        11,
        TableFaultKind::BadFlag,
    ),
    (
        Form::Narrow,
        NARROW_LENGTH,
        &[(0, 1), (2, 0x9b), (10, 0x80)],
        2,
        TableFaultKind::Combined,
    ),
    (
        Form::Narrow,
        NARROW_LENGTH,
        &[(0, 1), (9, 0x7b), (10, 1)],
        9,
        TableFaultKind::BadAction,
    ),
    (
        Form::Narrow,
        NARROW_LENGTH,
        &[(12, 1)],
        12,
        TableFaultKind::NotEmpty,
    ),
    (
        Form::Narrow,
        NARROW_LENGTH,
        &[(0, 1), (12, 1)],
        12,
        TableFaultKind::NotEmpty,
    ),
    (
        Form::Narrow,
        NARROW_LENGTH,
        &[(2562, 1), (2566, 1)],
        2566,
        TableFaultKind::NotEmpty,
    ),
    (
        Form::Narrow,
        NARROW_LENGTH,
        &[(2562, 1), (2565, 1), (2567, 0), (2569, 1)],
        2569,
        TableFaultKind::NotEmpty,
    ),
    (
        Form::Narrow,
        NARROW_LENGTH,
        &[(2562, 1), (2669, 1)],
        2669,
        TableFaultKind::NotEmpty,
    ),
];

/// Read from memory and from a device.
#[test]
fn each_fault_is_at_its_offset(rt: HostRuntime) {
    for &(form, count, changes, offset, kind) in &FAULTY {
        let zeros = ZEROS.get(..count).expect(&rt, "zeros");
        let mut bytes = zeros.to_vec(rt.alloc()).expect(&rt, "memory");
        change(&mut bytes, changes);
        let wanted = Some(TableFault { offset, kind });
        let fault = fault_of(form.read(rt.alloc(), bytes.as_slice()));
        let mut reader = FromStd::new(bytes.as_slice());
        let read = fault_of(form.read_from(rt.alloc(), &mut reader));
        expect_equal_at(&rt, (form, changes), (fault, read), (wanted, wanted));
    }
}

#[test]
fn each_proper_prefix_is_short(rt: HostRuntime) {
    let map = map_of(&rt, LETTER_AND_SHIFT);
    for &form in &FORMS {
        let sheet = file_of(&rt, form, &map);
        for length in 0..form.length() {
            let prefix = sheet.bytes.as_slice().get(..length).unwrap_or(b"");
            let (offset, kind) = (length as u64, TableFaultKind::Short);
            let wanted = TableFault { offset, kind };
            let fault = fault_of(form.read(rt.alloc(), prefix));
            expect_equal_at(&rt, (form, length), fault, Some(wanted));
        }
    }
}

/// Of zero bytes, which are a map as far as they go. It is left after one byte more than a file has.
#[test]
fn a_reader_without_end_is_left(rt: HostRuntime) {
    for &form in &FORMS {
        let mut reader = endless_tape_of(0);
        let (offset, kind) = (form.length() as u64, TableFaultKind::Long);
        let wanted = TableFault { offset, kind };
        let fault = fault_of(form.read_from(rt.alloc(), &mut reader));
        expect_equal_at(&rt, form, fault, Some(wanted));
        assert!(rt; reader.reads as usize <= form.length().saturating_add(2) && !reader.failed());
    }
}

/// A fault, or a map whose image the bytes are.
fn is_read_exactly(rt: &impl Abort, alloc: Global, form: Form, bytes: &[u8]) -> bool {
    match form.read(alloc, bytes) {
        Err(TableError::Fault(_)) => true,
        Err(_) => false,
        Ok(map) => file_of(rt, form, &map).bytes.as_slice() == bytes,
    }
}

/// Each byte in turn plus one, and with its top bit turned.
#[test]
fn each_changed_byte_is_a_fault_or_another_map(rt: HostRuntime) {
    let mut sheet = file_of(&rt, Form::Wide, &map_of(&rt, LETTER_AND_SHIFT));
    let bytes = sheet.bytes.as_mut_slice();
    for place in 0..bytes.len() {
        let byte = bytes[place];
        for changed in [byte.wrapping_add(1), byte ^ 0x80, byte] {
            bytes[place] = changed;
            let is_exact = changed == byte || is_read_exactly(&rt, rt.alloc(), Form::Wide, bytes);
            expect_at(&rt, (place, changed), is_exact);
        }
    }
}
