//! Long texts that come in thousands of pieces: they are answered as the whole text is, whatever the pieces are.

use crate::asserts::{expect_at, expect_equal_at};
use crate::formats::faults::FULL_ACCENT;
use crate::formats::reading::is_map;
use crate::support::keymaps::{ACCENTS, LETTER_AND_SHIFT, UPPER_HALF};
use keymap_core::KeyMap;
use keymap_text::TextFaultKind::{
    BadByte, BadChar, BadLiteral, BadWord, EndInside, KeyTooLarge, Unexpected, ZeroBase,
};
use keymap_text::{MapReader, TextError, TextFaultKind, read_map};
use rand_core::utils::NextWord;
use rand_pcg::Pcg32;
use std::alloc::Global;
use std::process::Abort;

/// How often the lines of a text stand in it: it has some 90,000 bytes.
const TIMES: u32 = 60;

/// In how many pieces a text comes: of thousands of bytes, of a line or so, and of less than a word.
const PIECES: [usize; 3] = [40, 1_000, 10_000];

/// Characters of one to four bytes, tabs, CRs and a NUL, tokens with no blank between them, and comments, of which one
/// is longer than most pieces, one ends in a part of a character, and one has an apostrophe.
const SIGNS: &[u8] =
    b"# What stands here is longer than most pieces, so it is broken off more than once. ## #
001 'a' '\xc3\xa9' '\xe2\x82\xac' '\xf0\x9f\x98\x80' '#' ''' '\\' '\xff' C\r\n\
\t0x2\tfkey01\tfkey96\tscr01\tSCR16\t0x20ac\t8364\tpanic\tDEL\tb\t# the row's end \xe2\x82\r\n\
255'a''b''c''d'nop'\0''\r''\t'N dgra'`'('a'0xe0)('e'232)# ' (
dacu 180\n\n  ( 'e' 0x0000000000000000000000000000e9 )\n#\n##\ndtil 0 ( 1 2 )\n";

/// What stands at the end of a long text, and its fault.
static ENDS: [(&[u8], Option<TextFaultKind>); 14] = [
    (b"", None),
    (b"# no line feed", None),
    (FULL_ACCENT, None),
    (b"dmac 000", None),
    (b"@", Some(BadByte)),
    (b"'ab'", Some(BadLiteral)),
    (b"'\xe2\x82", Some(EndInside)),
    (b"1 nop nop nop nop nop nop nop nop # O", Some(EndInside)),
    (b"123456789012345678901234567890123", Some(BadWord)),
    (b"256", Some(KeyTooLarge)),
    (b"1 0x110000", Some(BadChar)),
    (b"dgra 96 ( 'a' 'b' ) ( 'a' 'b' 'c' )", Some(Unexpected)),
    (b"dgra 96 ( nul 'b' )", Some(ZeroBase)),
    (b"dgra 96 ( 'a' 'b' ) ( 0", Some(ZeroBase)),
];

fn long_text(rt: &impl Abort, alloc: Global, end: &[u8]) -> Vec<u8> {
    let mut text = Vec::new(alloc);
    for _ in 0..TIMES {
        for lines in [SIGNS, LETTER_AND_SHIFT, ACCENTS, UPPER_HALF] {
            text.extend_from_slice(lines).expect(rt, "memory");
        }
    }
    text.extend_from_slice(end).expect(rt, "memory");
    text
}

/// The size of a piece: any number up to twice what each has if all of them have the same.
fn some_size(random: &mut Pcg32, rest: usize, pieces: usize) -> usize {
    if pieces < 2 {
        return rest;
    }
    let most = rest / pieces * 2;
    (random.next_word() as usize % (most + 1)).min(rest)
}

/// The map or fault of a text that comes in so many pieces.
fn read_in_pieces(
    rt: &impl Abort,
    alloc: Global,
    random: &mut Pcg32,
    text: &[u8],
    pieces: usize,
) -> Result<KeyMap, TextError> {
    let Ok(mut reader) = MapReader::new(alloc) else {
        return Err(TextError::Memory);
    };
    let mut rest = text;
    for left in (1..=pieces).rev() {
        let size = some_size(random, rest.len(), left);
        assert!(rt; size <= rest.len() && size <= 1 << 20 && reader.fed() <= 1 << 20);
        let (piece, behind) = rest.split_at(size);
        if let Err(fault) = reader.feed(piece) {
            return Err(TextError::Fault(fault));
        }
        rest = behind;
    }
    reader.finish().map_err(TextError::Fault)
}

fn kind_of<T: Drop>(answer: &Result<T, TextError>) -> Option<TextFaultKind> {
    match answer {
        Err(TextError::Fault(fault)) => Some(fault.kind),
        _ => None,
    }
}

/// Whether two answers are the same map or the same fault at the same place.
fn agree(one: &Result<KeyMap, TextError>, other: Result<KeyMap, TextError>) -> bool {
    match one {
        Ok(map) => is_map(other, map),
        Err(error) => other.err() == Some(*error),
    }
}

#[test]
fn a_text_in_thousands_of_pieces_is_read_as_the_whole_is(rt: HostRuntime) {
    let mut random = Pcg32::new(42, 54);
    for &(end, kind) in &ENDS {
        let text = long_text(&rt, rt.alloc(), end);
        let whole = read_map(rt.alloc(), text.as_slice());
        expect_equal_at(&rt, end, kind_of(&whole), kind);
        for pieces in PIECES {
            let answer = read_in_pieces(&rt, rt.alloc(), &mut random, text.as_slice(), pieces);
            expect_at(&rt, (end, pieces), agree(&whole, answer));
        }
    }
}
