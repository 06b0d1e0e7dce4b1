//! Each kind of fault at each kind of place where it can come, and the first fault of a text.

use crate::asserts::{expect_equal, expect_equal_at};
use keymap_text::TextFaultKind::{
    BadChar, BadFunction, BadLiteral, BadWord, Combined, EndInside, KeyTooLarge, Unexpected,
    ZeroBase,
};
use keymap_text::{TextError, TextFault, TextFaultKind, read_map};
use std::alloc::Global;
use std::process::Abort;

/// An accent with as many pairs as one has at most.
pub(crate) const FULL_ACCENT: &[u8] = b"dgra 96 \
          ( 'a' 'b' ) ( 'a' 'b' ) ( 'a' 'b' ) ( 'a' 'b' ) \
          ( 'a' 'b' ) ( 'a' 'b' ) ( 'a' 'b' ) ( 'a' 'b' ) \
          ( 'a' 'b' ) ( 'a' 'b' ) ( 'a' 'b' ) ( 'a' 'b' ) \
          ( 'a' 'b' ) ( 'a' 'b' ) ( 'a' 'b' ) ( 'a' 'b' ) \
          ( 'a' 'b' ) ( 'a' 'b' ) ( 'a' 'b' ) ( 'a' 'b' ) \
          ( 'a' 'b' ) ( 'a' 'b' ) ( 'a' 'b' ) ( 'a' 'b' ) \
          ( 'a' 'b' ) ( 'a' 'b' ) ( 'a' 'b' ) ( 'a' 'b' ) \
          ( 'a' 'b' ) ( 'a' 'b' ) ( 'a' 'b' ) ( 'a' 'b' ) \
          ( 'a' 'b' ) ( 'a' 'b' ) ( 'a' 'b' ) ( 'a' 'b' ) \
          ( 'a' 'b' ) ( 'a' 'b' ) ( 'a' 'b' ) ( 'a' 'b' ) \
          ( 'a' 'b' ) ( 'a' 'b' ) ( 'a' 'b' ) ( 'a' 'b' ) \
          ( 'a' 'b' ) ( 'a' 'b' ) ( 'a' 'b' ) ( 'a' 'b' ) \
          ( 'a' 'b' ) ( 'a' 'b' ) ( 'a' 'b' ) ( 'a' 'b' ) \
";

/// What stands before a definition, a cell, a lock letter, an accent's character, after that, after a pair, after the
/// last of 52 pairs, before a pair's base, its result, and its end.
static PLACES: [&[u8]; 10] = [
    b"",
    b"1 ",
    b"1 nop nop nop nop nop nop nop nop ",
    b"dgra ",
    b"dgra 96 ",
    b"dgra 96 ( 'a' 'b' ) ",
    FULL_ACCENT,
    b"dgra 96 ( ",
    b"dgra 96 ( 'a' ",
    b"dgra 96 ( 'a' 'b' ",
];

type Kinds = [Option<TextFaultKind>; 10];

const BYTE: Option<TextFaultKind> = Some(TextFaultKind::BadByte);

const LITERAL: Option<TextFaultKind> = Some(TextFaultKind::BadLiteral);

const WORD: Option<TextFaultKind> = Some(TextFaultKind::BadWord);

const OTHER: Option<TextFaultKind> = Some(TextFaultKind::Unexpected);

const LARGE: Option<TextFaultKind> = Some(TextFaultKind::KeyTooLarge);

const CHAR: Option<TextFaultKind> = Some(TextFaultKind::BadChar);

const FUNCTION: Option<TextFaultKind> = Some(TextFaultKind::BadFunction);

const MANY: Option<TextFaultKind> = Some(TextFaultKind::TooManyPairs);

const ZERO: Option<TextFaultKind> = Some(TextFaultKind::ZeroBase);

const COMBINED: Option<TextFaultKind> = Some(TextFaultKind::Combined);

const INSIDE: Option<TextFaultKind> = Some(TextFaultKind::EndInside);

/// A token, and the fault of the text that ends with it at each of the places; none where that text is whole. A text
/// may end before and after a definition, and nowhere else.
static TOKENS: [(&[u8], Kinds); 27] = [
    (
        b"",
        [
            None, INSIDE, INSIDE, INSIDE, None, None, None, INSIDE, INSIDE, INSIDE,
        ],
    ),
    (b"@", [BYTE; 10]),
    (b"'ab'", [LITERAL; 10]),
    (b"unknown", [WORD; 10]),
    (b"123456789012345678901234567890123", [WORD; 10]),
    (b"fkey97", [FUNCTION; 10]),
    (b"scr0", [FUNCTION; 10]),
    (b"ralta", [COMBINED; 10]),
    (b"'", [INSIDE; 10]),
    (b"'\xe2\x82", [INSIDE; 10]),
    (b"'a", [INSIDE; 10]),
    (
        b"(",
        [
            OTHER, OTHER, OTHER, OTHER, INSIDE, INSIDE, MANY, OTHER, OTHER, OTHER,
        ],
    ),
    (
        b"( 'a' 'b' )",
        [
            OTHER, OTHER, OTHER, OTHER, None, None, MANY, OTHER, OTHER, OTHER,
        ],
    ),
    (
        b")",
        [
            OTHER, OTHER, OTHER, OTHER, OTHER, OTHER, OTHER, OTHER, OTHER, None,
        ],
    ),
    (
        b"o",
        [
            OTHER, OTHER, None, OTHER, OTHER, OTHER, OTHER, OTHER, OTHER, OTHER,
        ],
    ),
    (
        b"B",
        [
            OTHER, OTHER, None, OTHER, OTHER, OTHER, OTHER, OTHER, OTHER, OTHER,
        ],
    ),
    (
        b"lshift",
        [
            OTHER, INSIDE, OTHER, OTHER, OTHER, OTHER, OTHER, OTHER, OTHER, OTHER,
        ],
    ),
    (
        b"dcar",
        [
            INSIDE, INSIDE, OTHER, OTHER, INSIDE, INSIDE, INSIDE, OTHER, OTHER, OTHER,
        ],
    ),
    (
        b"'a'",
        [
            OTHER, INSIDE, OTHER, None, OTHER, OTHER, OTHER, INSIDE, INSIDE, OTHER,
        ],
    ),
    (
        b"esc",
        [
            OTHER, INSIDE, OTHER, None, OTHER, OTHER, OTHER, INSIDE, INSIDE, OTHER,
        ],
    ),
    (
        b"nul",
        [
            OTHER, INSIDE, OTHER, None, OTHER, OTHER, OTHER, ZERO, INSIDE, OTHER,
        ],
    ),
    (
        b"'\0'",
        [
            OTHER, INSIDE, OTHER, None, OTHER, OTHER, OTHER, ZERO, INSIDE, OTHER,
        ],
    ),
    (
        b"0",
        [
            INSIDE, INSIDE, OTHER, None, INSIDE, INSIDE, INSIDE, ZERO, INSIDE, OTHER,
        ],
    ),
    (
        b"255",
        [
            INSIDE, INSIDE, OTHER, None, INSIDE, INSIDE, INSIDE, INSIDE, INSIDE, OTHER,
        ],
    ),
    (
        b"0x100",
        [
            LARGE, INSIDE, OTHER, None, LARGE, LARGE, LARGE, INSIDE, INSIDE, OTHER,
        ],
    ),
    (
        b"0x110000",
        [
            LARGE, CHAR, OTHER, CHAR, LARGE, LARGE, LARGE, CHAR, CHAR, OTHER,
        ],
    ),
    (
        b"55296",
        [
            LARGE, CHAR, OTHER, CHAR, LARGE, LARGE, LARGE, CHAR, CHAR, OTHER,
        ],
    ),
];

/// The fault of a text that is a place and a token: it stands at the token, and at the end where the text ends inside
/// of something.
fn wanted_fault(place: usize, token: usize, kind: Option<TextFaultKind>) -> Option<TextError> {
    let kind = kind?;
    let at = match kind {
        TextFaultKind::EndInside => place.saturating_add(token),
        _ => place,
    };
    let (offset, line) = (at as u64, 1);
    Some(TextError::Fault(TextFault { offset, line, kind }))
}

/// The fault of the text that is a place and a token.
fn fault_of(rt: &impl Abort, alloc: Global, place: &[u8], token: &[u8]) -> Option<TextError> {
    let mut text = Vec::new(alloc);
    text.extend_from_slice(place).expect(rt, "memory");
    text.extend_from_slice(token).expect(rt, "memory");
    read_map(alloc, text.as_slice()).err()
}

#[test]
fn each_kind_of_fault_is_found_at_each_place(rt: HostRuntime) {
    expect_equal(&rt, FULL_ACCENT.len(), 632);
    for &(token, kinds) in &TOKENS {
        for (place, kind) in PLACES.iter().zip(kinds) {
            let fault = fault_of(&rt, rt.alloc(), place, token);
            let wanted = wanted_fault(place.len(), token.len(), kind);
            expect_equal_at(&rt, (token, place), fault, wanted);
        }
    }
}

/// Texts, and the offset, line and kind of their fault.
static FAULTS: [(&[u8], u64, u64, TextFaultKind); 20] = [
    (b"1 'ab'", 2, 1, BadLiteral),
    (b"256", 0, 1, KeyTooLarge),
    (b"4294967296", 0, 1, KeyTooLarge),
    (b"18446744073709551616", 0, 1, KeyTooLarge),
    (b"1 4294967393", 2, 1, BadChar),
    (b"30 nul", 6, 1, EndInside),
    (b"30 97", 5, 1, EndInside),
    (b"1 fkey96", 8, 1, EndInside),
    (b"1 fkey97", 2, 1, BadFunction),
    (b"1 scr0", 2, 1, BadFunction),
    (b"1 fkey4294967297", 2, 1, BadFunction),
    (b"dgra 96 ( 0 'a' )", 10, 1, ZeroBase),
    (b"1 lshifta", 2, 1, Combined),
    (b"1 '", 3, 1, EndInside),
    (b"1 'a' 'a' 'a' 'a' 'a' 'a' 'a' 'a'", 33, 1, EndInside),
    (b"dacu 180 ( 'e'", 14, 1, EndInside),
    (b"\n\n1 C", 4, 3, Unexpected),
    (b"\r\r1 C", 4, 1, Unexpected),
    (b"1 nul#\n\n(", 8, 3, Unexpected),
    (b"zzz@", 0, 1, BadWord),
];

#[test]
fn the_first_fault_is_answered(rt: HostRuntime) {
    for &(text, offset, line, kind) in &FAULTS {
        let fault = TextFault { offset, line, kind };
        let found = read_map(rt.alloc(), text).err();
        expect_equal_at(&rt, text, found, Some(TextError::Fault(fault)));
    }
}
