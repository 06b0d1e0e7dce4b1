//! Reading texts, whole and in pieces: the keymaps that were worked out by hand, and when a fault is answered.

use crate::asserts::{expect_at, expect_equal, expect_equal_at, map_of};
use crate::formats::faults::FULL_ACCENT;
use crate::support::keymaps::{ACCENTS, LETTER_AND_SHIFT, UPPER_HALF};
use keymap_core::{Accent, Action, Cell, KeyMap, LockFlag, ToStd};
use keymap_text::TextFaultKind::{BadLiteral, BadWord, EndInside, KeyTooLarge, Unexpected};
use keymap_text::{MapReader, TextError, TextFault, TextFaultKind, print_map, read_map};
use std::alloc::Global;
use std::process::Abort;

/// Whether the answer is the map.
pub(crate) fn is_map<E: Drop>(answer: Result<KeyMap, E>, map: &KeyMap) -> bool {
    match answer {
        Ok(answered) => answered == *map,
        Err(_) => false,
    }
}

#[test]
fn the_empty_text_is_the_map_of_no_keys(rt: HostRuntime) {
    let map = map_of(&rt, b"");
    expect_equal(&rt, (map.n_keys(), map.n_accs()), (0, 0));
    assert!(rt; is_map(KeyMap::new(rt.alloc()), &map));
    assert!(rt; is_map(map.try_clone(rt.alloc()), &map));
    let mut page = [b'x'; 1];
    print_map(&map, &mut ToStd::new(page.as_mut_slice())).expect(&rt, "a writer");
    expect_equal(&rt, page, [b'x']);
}

/// A line of the layout that kbdcontrol(1) dumps, with its header.
pub(crate) const DUMPED: &[u8] = b"#                                                         alt
# scan                       cntrl          alt    alt   cntrl lock
  104   slock  saver  slock  saver  susp   nop    susp   nop     O
";

/// A cell, by the code of its action.
#[derive(Clone, Copy)]
enum Typed {
    Char(char),
    Act(u8),
}

use Typed::{Act, Char};

const NUL: Typed = Char('\0');

/// A text, how many keys its map has, a slot, and its cells and flag.
static KEYS: [(&[u8], u16, u8, [Typed; 8], LockFlag); 14] = [
    (LETTER_AND_SHIFT, 43, 30, LETTER, LockFlag::C),
    (LETTER_AND_SHIFT, 43, 42, [Act(2); 8], LockFlag::O),
    (LETTER_AND_SHIFT, 43, 31, [NUL; 8], LockFlag::O),
    (
        SIGNS,
        2,
        1,
        [
            Char('\''),
            Char('\\'),
            Char('#'),
            Char(' '),
            NUL,
            NUL,
            NUL,
            NUL,
        ],
        LockFlag::O,
    ),
    (SIGNS, 2, 0, [NUL; 8], LockFlag::O),
    (
        QUOTED,
        8,
        7,
        [
            Char('é'),
            Char('é'),
            Char('\u{80}'),
            Char('€'),
            NUL,
            NUL,
            NUL,
            NUL,
        ],
        LockFlag::O,
    ),
    (
        b"0 'a' 'A' SOH soh fkey1 scr16 0x20ac DEL b",
        1,
        0,
        EACH_KIND,
        LockFlag::B,
    ),
    (NOPS, 256, 255, [Act(0); 8], LockFlag::O),
    (NOPS, 256, 254, [NUL; 8], LockFlag::O),
    (
        DUMPED,
        105,
        104,
        [
            Act(0x06),
            Act(0x88),
            Act(0x06),
            Act(0x88),
            Act(0x87),
            Act(0),
            Act(0x87),
            Act(0),
        ],
        LockFlag::O,
    ),
    (TWICE, 2, 1, [Char('b'); 8], LockFlag::C),
    (TWICE_ON_LINES, 2, 1, [Char('b'); 8], LockFlag::C),
    (
        b"9 nop nop nop nop nop nop nop nop O 1 bs nul nul nul nul nul nul nul N",
        10,
        9,
        [Act(0); 8],
        LockFlag::O,
    ),
    (
        b"9 nop nop nop nop nop nop nop nop O 1 bs nul nul nul nul nul nul nul N",
        10,
        1,
        [Char('\x08'), NUL, NUL, NUL, NUL, NUL, NUL, NUL],
        LockFlag::N,
    ),
];

const LETTER: [Typed; 8] = [
    Char('a'),
    Char('A'),
    Char('\x01'),
    Char('\x01'),
    Char('a'),
    Char('A'),
    Char('\x01'),
    Char('\x01'),
];

/// Letters, control characters, the first function key, the last screen, the sign of the euro, and DEL.
const EACH_KIND: [Typed; 8] = [
    Char('a'),
    Char('A'),
    Char('\x01'),
    Char('\x01'),
    Act(0x1b),
    Act(0x1a),
    Char('€'),
    Char('\x7f'),
];

const SIGNS: &[u8] = b"001 ''' '\\' '#' ' ' nul nul nul nul O";

/// Characters in UTF-8, and single bytes above 127.
const QUOTED: &[u8] = b"7 '\xc3\xa9' '\xe9' '\x80' '\xe2\x82\xac' nul nul nul nul O";

const NOPS: &[u8] = b"255 nop nop nop nop nop nop nop nop O";

const TWICE: &[u8] = b"1 'a' 'a' 'a' 'a' 'a' 'a' 'a' 'a' O 001 'b' 'b' 'b' 'b' 'b' 'b' 'b' 'b' C";

const TWICE_ON_LINES: &[u8] =
    b"1 'a' 'a' 'a' 'a' 'a' 'a' 'a' 'a' O\n001 'b' 'b' 'b' 'b' 'b' 'b' 'b' 'b' C\n";

/// None where no action has the code.
fn cell(typed: Typed) -> Option<Cell> {
    match typed {
        Char(c) => Some(Cell::Char(c)),
        Act(code) => Some(Cell::Act(Action::from_code(code)?)),
    }
}

#[test]
fn keys_are_read(rt: HostRuntime) {
    for &(text, n_keys, slot, cells, flag) in &KEYS {
        let map = map_of(&rt, text);
        expect_equal_at(&rt, text, map.n_keys(), n_keys);
        let entry = map.entry(slot);
        for (given, typed) in entry.cells.iter().zip(cells) {
            expect_equal_at(&rt, (text, slot), Some(*given), cell(typed));
        }
        expect_equal_at(&rt, (text, slot), entry.flag, flag);
    }
}

/// A text, how many accents its map has, an accent, its own character and its pairs.
static ACCENTS_READ: [(&[u8], u8, u8, char, &[(char, char)]); 7] = [
    (ACUTE, 2, 1, '´', &[('e', 'é'), ('E', 'É')]),
    (ACUTE, 2, 0, '\0', &[]),
    (b"dmac 000", 5, 4, '\0', &[]),
    (b"dacu 1 ( 2 3 ) dgra 4 dacu 5", 2, 1, '\x05', &[]),
    (ACUTE_TWICE, 2, 1, '´', &[('e', 'é'), ('E', 'É')]),
    (ACCENTS, 2, 1, '´', &[('e', 'é'), ('E', 'É'), ('e', 'ê')]),
    (FULL_ACCENT, 1, 0, '`', &[('a', 'b'); 52]),
];

const ACUTE: &[u8] = b"dacu 180\n( 'e' 0xe9 )\n( 'E' 0xc9 )";

const ACUTE_TWICE: &[u8] =
    b"dacu 96 ( 'a' 'b' )\n( 'E' 'c' )\ndacu 180\n( 'e' 0xe9 )\n( 'E' 0xc9 )\n";

fn parts(accent: Option<&Accent>) -> Option<(char, &[(char, char)])> {
    let accent = accent?;
    Some((accent.own(), accent.pairs()))
}

#[test]
fn accents_are_read(rt: HostRuntime) {
    for &(text, n_accs, index, own, pairs) in &ACCENTS_READ {
        let map = map_of(&rt, text);
        expect_equal_at(&rt, text, map.n_accs(), n_accs);
        let accent = parts(map.accent(index));
        expect_equal_at(&rt, text, accent, Some((own, pairs)));
    }
}

/// Pieces, the offset and kind of the fault, and whether it comes before the end.
type Feeding = (&'static [&'static [u8]], u64, TextFaultKind, bool);

static FEEDINGS: [Feeding; 8] = [
    (&[b"25", b"6"], 0, KeyTooLarge, false),
    (&[b"25", b"6", b" "], 0, KeyTooLarge, true),
    (&[b"1 ", b"'\xc3", b"\xa9", b"'"], 6, EndInside, false),
    (&[b"1 ", b"''", b"a"], 2, BadLiteral, true),
    (&[b"1 ", b"''"], 4, EndInside, false),
    (
        &[b"1 ", b"xxxxxxxxxxxxxxxxxxxxxxxxxxxxxxxx"],
        2,
        BadWord,
        false,
    ),
    (
        &[b"1 ", b"xxxxxxxxxxxxxxxxxxxxxxxxxxxxxxxx", b"x"],
        2,
        BadWord,
        true,
    ),
    (&[b"1 ("], 2, Unexpected, true),
];

/// Words are judged when they are complete, and what was answered stays the answer.
#[test]
fn faults_in_pieces_are_answered_in_time(rt: HostRuntime) {
    for &(pieces, offset, kind, early) in &FEEDINGS {
        let line = 1;
        let wanted = TextFault { offset, line, kind };
        let mut reader = MapReader::new(rt.alloc()).expect(&rt, "memory");
        let mut answer = Ok(());
        for piece in pieces {
            assert!(rt; answer.is_ok() && reader.fed() <= 99 && piece.len() <= 99);
            answer = reader.feed(piece);
        }
        let fault = early.then_some(wanted);
        expect_equal_at(&rt, pieces, answer.err(), fault);
        if early {
            assert!(rt; reader.fed() <= 99);
            expect_equal_at(&rt, pieces, reader.feed(b" ").err(), fault);
        }
        expect_equal_at(&rt, pieces, reader.finish().err(), Some(wanted));
    }
}

/// The map or fault of a text that is fed byte by byte.
fn read_by_bytes(rt: &impl Abort, alloc: Global, text: &[u8]) -> Result<KeyMap, TextError> {
    let Ok(mut reader) = MapReader::new(alloc) else {
        return Err(TextError::Memory);
    };
    for byte in text {
        assert!(rt; reader.fed() <= 1 << 20);
        if let Err(fault) = reader.feed(&[*byte]) {
            return Err(TextError::Fault(fault));
        }
    }
    reader.finish().map_err(TextError::Fault)
}

/// Whether the text is answered the same whole and byte by byte.
fn is_read_the_same(rt: &impl Abort, alloc: Global, text: &[u8]) -> bool {
    let by_bytes = read_by_bytes(rt, alloc, text);
    match read_map(alloc, text) {
        Ok(map) => is_map(by_bytes, &map),
        Err(error) => by_bytes.err() == Some(error) && error != TextError::Memory,
    }
}

#[test]
fn each_prefix_is_read_the_same_byte_by_byte(rt: HostRuntime) {
    for text in [ACCENTS, UPPER_HALF, LETTER_AND_SHIFT] {
        for end in 0..=text.len() {
            expect_at(&rt, end, is_read_the_same(&rt, rt.alloc(), &text[..end]));
        }
    }
}
