//! Printing maps, and reading them again.

use crate::asserts::{expect_at, expect_equal, expect_equal_at, map_of};
use crate::formats::reading::{DUMPED, is_map};
use crate::support::devices::slow_sheet_of;
use crate::support::keymaps;
use keymap_core::{ToStd, Write, WriteFault};
use keymap_text::{print_map, read_map};
use std::alloc::Global;
use std::process::Abort;

/// A text, how many lines its map has for keys, those of them that are not undefined, and the lines for accents.
struct Printed {
    text: &'static [u8],
    keys: usize,
    lines: &'static [&'static [u8]],
    accents: &'static [u8],
}

/// The line of an undefined entry, after its slot.
const UNDEFINED: &[u8] = b" nul    nul    nul    nul    nul    nul    nul    nul    O";

static MAPS: [Printed; 17] = [
    Printed {
        text: b"",
        keys: 0,
        lines: &[],
        accents: b"",
    },
    Printed {
        text: keymaps::LETTER_AND_SHIFT,
        keys: 43,
        lines: &[
            b"030 'a'    'A'    soh    soh    'a'    'A'    soh    soh    C",
            b"042 lshift lshift lshift lshift lshift lshift lshift lshift O",
        ],
        accents: b"",
    },
    Printed {
        text: keymaps::TWO_SCROLL_LOCKS,
        keys: 105,
        lines: &[
            b"070 slock  slock  slock  slock  slock  slock  slock  slock  O",
            b"104 slock  slock  slock  slock  slock  slock  slock  slock  O",
        ],
        accents: b"",
    },
    Printed {
        text: keymaps::SHIFT_WITH_TRAP,
        keys: 43,
        lines: &[
            b"029 lctrl  lctrl  lctrl  lctrl  lctrl  lctrl  lctrl  lctrl  O",
            b"042 lshift lshift 'x'    'x'    lshift lshift lshift lshift O",
        ],
        accents: b"",
    },
    Printed {
        text: keymaps::ALT_SHIFT_WITH_TRAP,
        keys: 94,
        lines: &[
            b"042 lshift lshift lshift lshift lshift lshift lshift lshift O",
            b"093 ashift ashift ashift ashift ashift ashift ashift ashift O",
        ],
        accents: b"",
    },
    Printed {
        text: keymaps::CAPS_AND_NUM,
        keys: 70,
        lines: &[
            b"030 'a'    'A'    soh    soh    'a'    'A'    soh    soh    B",
            b"058 clock  clock  clock  clock  clock  clock  clock  clock  O",
            b"069 nlock  nlock  nlock  nlock  nlock  nlock  nlock  nlock  O",
        ],
        accents: b"",
    },
    Printed {
        text: keymaps::ACCENTS,
        keys: 93,
        lines: &[
            b"015 ht     btab   ht     ht     ht     btab   ht     ht     O",
            b"018 'e'    'E'    enq    enq    'e'    'E'    enq    enq    C",
            b"026 dacu   dacu   dacu   dacu   dacu   dacu   dacu   dacu   O",
            b"030 'a'    'A'    soh    soh    'a'    'A'    soh    soh    C",
            b"041 dgra   dgra   dgra   dgra   dgra   dgra   dgra   dgra   O",
            b"042 lshift lshift lshift lshift lshift lshift lshift lshift O",
            b"056 meta   meta   meta   meta   meta   meta   meta   meta   O",
            b"057 ' '    ' '    ' '    ' '    ' '    ' '    ' '    ' '    O",
            b"059 fkey01 fkey01 fkey01 fkey01 fkey01 fkey01 fkey01 fkey01 O",
            b"092 nscr   nscr   nscr   nscr   nscr   nscr   nscr   nscr   O",
        ],
        accents: b"dgra nul
dacu 0x00b4 ( 'e' 0x00e9 ) ( 'E' 0x00c9 ) ( 'e' 0x00ea )
",
    },
    Printed {
        text: keymaps::TWO_CONTROLS,
        keys: 43,
        lines: &[
            b"029 lctrl  rctrl  lctrl  rctrl  lctrl  rctrl  lctrl  rctrl  O",
            b"042 lshift lshift lshift lshift lshift lshift lshift lshift O",
        ],
        accents: b"",
    },
    Printed {
        text: keymaps::UPPER_HALF,
        keys: 222,
        lines: &[
            b"030 'a'    'A'    soh    soh    'a'    'A'    soh    soh    C",
            b"058 alock  alock  alock  alock  alock  alock  alock  alock  O",
            b"093 ashift ashift ashift ashift ashift ashift ashift ashift O",
            b"158 'b'    'B'    stx    stx    'b'    'B'    stx    stx    C",
            b"186 alock  alock  alock  alock  alock  alock  alock  alock  O",
            b"221 ashift ashift ashift ashift ashift ashift ashift ashift O",
        ],
        accents: b"",
    },
    Printed {
        text: keymaps::SHIFT_AND_CAPS,
        keys: 59,
        lines: &[
            b"042 lshift lshift lshift lshift lshift lshift lshift lshift O",
            b"058 clock  clock  clock  clock  clock  clock  clock  clock  O",
        ],
        accents: b"",
    },
    Printed {
        text: b"001 ''' '\\' '#' ' ' nul nul nul nul O",
        keys: 2,
        lines: &[b"001 '''    '\\'    '#'    ' '    nul    nul    nul    nul    O"],
        accents: b"",
    },
    Printed {
        text: b"255 nop nop nop nop nop nop nop nop O",
        keys: 256,
        lines: &[b"255 nop    nop    nop    nop    nop    nop    nop    nop    O"],
        accents: b"",
    },
    Printed {
        text: b"dacu 180\n( 'e' 0xe9 )\n( 'E' 0xc9 )",
        keys: 0,
        lines: &[],
        accents: b"dgra nul
dacu 0x00b4 ( 'e' 0x00e9 ) ( 'E' 0x00c9 )
",
    },
    Printed {
        text: b"dmac 000",
        keys: 0,
        lines: &[],
        accents: b"dgra nul
dacu nul
dcir nul
dtil nul
dmac nul
",
    },
    Printed {
        text: DUMPED,
        keys: 105,
        lines: &[b"104 slock  saver  slock  saver  susp   nop    susp   nop    O"],
        accents: b"",
    },
    Printed {
        text: b"0 'a' 'A' SOH soh fkey1 scr16 0x20ac DEL b",
        keys: 1,
        lines: &[b"000 'a'    'A'    soh    soh    fkey01 scr16  0x20ac del    B"],
        accents: b"",
    },
    Printed {
        text: b"dgra 0x10ffff ( 65536 127 )",
        keys: 0,
        lines: &[],
        accents: b"dgra 0x10ffff ( 0x10000 del )
",
    },
];

fn digit(number: usize) -> u8 {
    b'0' + (number % 10) as u8
}

/// The printed form of the map.
fn printed_form(rt: &impl Abort, alloc: Global, printed: &Printed) -> Vec<u8> {
    let mut wanted = Vec::new(alloc);
    let mut lines = printed.lines.iter();
    let mut next = lines.next();
    for slot in 0..printed.keys {
        let slot = [slot / 100, slot / 10, slot].map(digit);
        match next {
            Some(line) if line.starts_with(&slot) => {
                wanted.extend_from_slice(line).expect(rt, "memory");
                next = lines.next();
            }
            _ => {
                wanted.extend_from_slice(&slot).expect(rt, "memory");
                wanted.extend_from_slice(UNDEFINED).expect(rt, "memory");
            }
        }
        wanted.push(b'\n').expect(rt, "memory");
    }
    wanted
        .extend_from_slice(printed.accents)
        .expect(rt, "memory");
    wanted
}

#[test]
fn maps_are_printed_and_read_again(rt: HostRuntime) {
    for printed in &MAPS {
        let map = map_of(&rt, printed.text);
        let mut page = slow_sheet_of(7, usize::MAX);
        print_map(&map, &mut page).expect(&rt, "a writer");
        let wanted = printed_form(&rt, rt.alloc(), printed);
        let bytes = page.bytes.as_slice();
        expect_equal_at(&rt, printed.text, bytes, wanted.as_slice());
        let is_same = is_map(read_map(rt.alloc(), bytes), &map);
        expect_at(&rt, printed.text, is_same);
    }
}

#[test]
fn a_full_writer_is_a_fault(rt: HostRuntime) {
    let map = map_of(&rt, b"0 'a' 'A' SOH soh fkey1 scr16 0x20ac DEL b");
    let mut page = [0u8; 10];
    let mut writer = ToStd::new(page.as_mut_slice());
    let answer = print_map(&map, &mut writer);
    assert!(rt; writer.failed());
    expect_equal(&rt, answer, Err(WriteFault { written: 10 }));
    expect_equal(&rt, page.as_slice(), b"000 'a'   ".as_slice());
}
