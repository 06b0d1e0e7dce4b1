//! The events that type a sentence, and what keeps one from being typed.

use crate::asserts::expect_equal_at;
use crate::support::keymaps::{ACCENTS, LETTER_AND_SHIFT, TWO_DEAD_KEYS};
use console_core::Event;
use console_scripts::Keyed;
use keymap_draw::Board;
use keymap_text::read_map;
use kmap_runs::{TypeError, type_sentence};
use play_core::read_script;
use std::alloc::Global;
use std::process::Abort;

/// Latin letters in the lower half and Greek ones in the upper one, between which alock changes.
const TWO_LAYOUTS: &[u8] = b"030 'a' 'A' soh soh 'a' 'A' soh soh C
040 dacu dacu dacu dacu dacu dacu dacu dacu O
042 lshift lshift lshift lshift lshift lshift lshift lshift O
057 ' ' ' ' ' ' ' ' ' ' ' ' ' ' ' ' O
058 alock alock alock alock alock alock alock alock O
158 0x3b1 0x391 soh soh 0x3b1 0x391 soh soh C
168 dacu dacu dacu dacu dacu dacu dacu dacu O
170 lshift lshift lshift lshift lshift lshift lshift lshift O
185 ' ' ' ' ' ' ' ' ' ' ' ' ' ' ' ' O
186 alock alock alock alock alock alock alock alock O
dacu 180 ( 'a' 0xe1 ) ( 0x3b1 0x3ac )
";

/// The lock is turned on by its key, and never off again.
const ONE_WAY: &[u8] = b"030 'a' 'A' soh soh 'a' 'A' soh soh C
058 alock alock alock alock alock alock alock alock O
158 'b' 'B' soh soh 'b' 'B' soh soh C
186 nop nop nop nop nop nop nop nop O
";

/// Caps lock has a lower number than shift.
const LOCK_BEFORE_SHIFT: &[u8] = b"029 clock clock clock clock clock clock clock clock O
030 'a' 'A' soh soh 'a' 'A' soh soh C
042 lshift lshift lshift lshift lshift lshift lshift lshift O
";

/// A dead key, and no blank.
const DEAD_KEY_ALONE: &[u8] = b"026 dacu dacu dacu dacu dacu dacu dacu dacu O
dacu 180
";

/// The text of a keymap, a sentence, and a script of the events that type it.
static TYPED: [(&[u8], &[u8], &[u8]); 14] = [
    (LETTER_AND_SHIFT, b"", b""),
    (
        LETTER_AND_SHIFT,
        b"aA",
        b"down 30\nup 30\ndown 42\ndown 30\nup 30\nup 42\n",
    ),
    (LOCK_BEFORE_SHIFT, b"A", b"down 42\ndown 30\nup 30\nup 42\n"),
    (ACCENTS, b"\t", b"down 15\nup 15\n"),
    // of the dead key and the blank the dead key has the lower number
    (
        ACCENTS,
        b"\xc3\x89\xc2\xb4",
        b"down 26\nup 26\ndown 42\ndown 18\nup 18\nup 42\ndown 26\nup 26\ndown 26\nup 26\n",
    ),
    (
        DEAD_KEY_ALONE,
        b"\xc2\xb4",
        b"down 26\nup 26\ndown 26\nup 26\n",
    ),
    (
        TWO_DEAD_KEYS,
        b"@\xce\xa9",
        b"down 100\ndown 16\nup 16\nup 100\ndown 29\ndown 100\ndown 16\nup 16\nup 29\nup 100\n",
    ),
    (
        TWO_DEAD_KEYS,
        b"\xc3\xa0\xc3\xa1",
        b"down 42\ndown 40\nup 40\nup 42\ndown 30\nup 30\ndown 40\nup 40\ndown 30\nup 30\n",
    ),
    (
        TWO_DEAD_KEYS,
        b"`",
        b"down 42\ndown 40\nup 40\ndown 40\nup 40\nup 42\n",
    ),
    // the lock is turned once, and back at the end
    (
        TWO_LAYOUTS,
        b"\xce\xb1\xce\x91",
        b"down 58\nup 58\ndown 30\nup 30\ndown 42\ndown 30\nup 30\nup 42\ndown 58\nup 58\n",
    ),
    // the blank is there in both layouts
    (
        TWO_LAYOUTS,
        b"\xce\xb1 a",
        b"down 58\nup 58\ndown 30\nup 30\ndown 57\nup 57\ndown 58\nup 58\ndown 30\nup 30\n",
    ),
    // a dead key in either layout, and the lock between it and its base
    (
        TWO_LAYOUTS,
        b"\xce\xac\xce\xac",
        b"down 40\nup 40\ndown 58\nup 58\ndown 30\nup 30\ndown 40\nup 40\ndown 30\nup 30\ndown 58\nup 58\n",
    ),
    (
        TWO_LAYOUTS,
        b"\xc3\xa1",
        b"down 40\nup 40\ndown 30\nup 30\n",
    ),
    (ONE_WAY, b"a", b"down 30\nup 30\n"),
];

/// The text of a keymap, a sentence that isn't typed, and why.
static REFUSED: [(&[u8], &[u8], TypeError); 8] = [
    (
        LETTER_AND_SHIFT,
        b"ab",
        TypeError::NoWay { offset: 1, c: 'b' },
    ),
    (
        ACCENTS,
        b"e\xc3\xaaz",
        TypeError::NoWay { offset: 1, c: 'ê' },
    ),
    // the offset counts bytes
    (
        TWO_LAYOUTS,
        b"\xce\xb1\xc3\xa1b",
        TypeError::NoWay { offset: 4, c: 'b' },
    ),
    // a new line is no blank
    (TWO_LAYOUTS, b"a\n", TypeError::NoWay { offset: 1, c: '\n' }),
    // from where it is typed no presses lead back
    (ONE_WAY, b"ab", TypeError::NoWay { offset: 1, c: 'b' }),
    (
        DEAD_KEY_ALONE,
        b"\xcc\x81",
        TypeError::NoWay {
            offset: 0,
            c: '\u{301}',
        },
    ),
    (ACCENTS, b"\xc3\xa9\xc3(z", TypeError::NotText { offset: 2 }),
    (ACCENTS, b"z\xe2\x82", TypeError::NotText { offset: 1 }),
];

/// The events of a script without lost ones.
fn events_of(rt: &impl Abort, alloc: Global, script: &[u8]) -> Vec<Event> {
    let script = read_script(alloc, script).expect(rt, "a script");
    let mut events = Vec::new(alloc);
    for sent in &script {
        if let Some(event) = sent.event() {
            events.push(event).expect(rt, "memory");
        }
    }
    events
}

fn expect_typed(rt: &impl Abort, alloc: Global, text: &[u8], sentence: &[u8], script: &[u8]) {
    let map = read_map(alloc, text).expect(rt, "a keymap");
    let wanted = events_of(rt, alloc, script);
    match type_sentence(alloc, &map, Board::Iso, sentence) {
        Ok(typing) => {
            expect_equal_at(rt, sentence, typing.events.as_slice(), wanted.as_slice());
        }
        Err(error) => expect_equal_at(rt, sentence, Some(error), None),
    }
}

#[test]
fn sentences_are_typed_by_the_nearest_keys(rt: HostRuntime) {
    for &(text, sentence, script) in &TYPED {
        expect_typed(&rt, rt.alloc(), text, sentence, script);
    }
}

/// Of a letter of each layout: the lock is turned for the second one, and back behind it.
#[test]
fn each_character_tells_where_its_events_end(rt: HostRuntime) {
    let map = read_map(rt.alloc(), TWO_LAYOUTS).expect(&rt, "a keymap");
    let typing = type_sentence(rt.alloc(), &map, Board::Iso, b"a\xce\xb1").expect(&rt, "events");
    let wanted = [
        Keyed {
            character: 'a',
            end: 2,
        },
        Keyed {
            character: '\u{3b1}',
            end: 6,
        },
    ];
    expect_equal_at(&rt, "keyed", typing.keyed.as_slice(), wanted.as_slice());
    expect_equal_at(&rt, "events", typing.events.len(), 8);
}

#[test]
fn what_no_keys_type_is_refused(rt: HostRuntime) {
    for &(text, sentence, error) in &REFUSED {
        let map = read_map(rt.alloc(), text).expect(&rt, "a keymap");
        let answer = type_sentence(rt.alloc(), &map, Board::Iso, sentence);
        expect_equal_at(&rt, sentence, answer.err(), Some(error));
    }
}
