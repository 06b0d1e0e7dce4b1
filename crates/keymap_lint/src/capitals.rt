//! Letters and their capitals, by Unicode's properties.
ghost use Rattle.std.specs.Prelude.{◌≡◌};
ghost use Rattle.std.specs.List.{list_any};
ghost use Rattle.keymap_core.specs.Borne.{any_below};
ghost use Rattle.keymap_lint.specs.Capitals as spec;

use keymap_core::{Cell, KeyMap, SLOT_LIMIT};
use keymap_places::is_unicode;

/// Small letters from one to another, each or each second one, and the capital of the first; the capitals of the others
/// are as far behind it.
#[derive(Clone, Copy)]
pub(crate) struct Letters {
    first: u32,
    last: u32,
    has_each: bool,
    capital: u32,
}

/// A row of the table below.
macro_rules! each {
    ($first:expr, $last:expr, $capital:expr) => {
        Letters {
            first: $first,
            last: $last,
            has_each: true,
            capital: $capital,
        }
    };
}

macro_rules! second {
    ($first:expr, $last:expr, $capital:expr) => {
        Letters {
            first: $first,
            last: $last,
            has_each: false,
            capital: $capital,
        }
    };
}

/// The letters of Latin, Greek, Cyrillic and Armenian. Of some that are one character for two letters there are two
/// capitals, one with a small second letter, and Turkish has a second one of i.
pub(crate) static LETTERS: [Letters; 38] = [
    each!(0x61, 0x7a, 0x41),
    each!(0x69, 0x69, 0x130),
    each!(0xdf, 0xdf, 0x1e9e),
    each!(0xe0, 0xf6, 0xc0),
    each!(0xf8, 0xfe, 0xd8),
    each!(0xff, 0xff, 0x178),
    second!(0x101, 0x12f, 0x100),
    each!(0x131, 0x131, 0x49),
    second!(0x133, 0x137, 0x132),
    second!(0x13a, 0x148, 0x139),
    second!(0x14b, 0x177, 0x14a),
    second!(0x17a, 0x17e, 0x179),
    each!(0x1a1, 0x1a1, 0x1a0),
    each!(0x1b0, 0x1b0, 0x1af),
    each!(0x1c6, 0x1c6, 0x1c4),
    each!(0x1c6, 0x1c6, 0x1c5),
    each!(0x1c9, 0x1c9, 0x1c7),
    each!(0x1c9, 0x1c9, 0x1c8),
    each!(0x1cc, 0x1cc, 0x1ca),
    each!(0x1cc, 0x1cc, 0x1cb),
    each!(0x1f3, 0x1f3, 0x1f1),
    each!(0x1f3, 0x1f3, 0x1f2),
    second!(0x219, 0x21b, 0x218),
    each!(0x3ac, 0x3ac, 0x386),
    each!(0x3ad, 0x3af, 0x388),
    each!(0x3b1, 0x3c1, 0x391),
    each!(0x3c3, 0x3cb, 0x3a3),
    each!(0x3cc, 0x3cc, 0x38c),
    each!(0x3cd, 0x3ce, 0x38e),
    each!(0x430, 0x44f, 0x410),
    each!(0x450, 0x45f, 0x400),
    second!(0x461, 0x481, 0x460),
    second!(0x48b, 0x4bf, 0x48a),
    second!(0x4c2, 0x4ce, 0x4c1),
    second!(0x4d1, 0x52f, 0x4d0),
    each!(0x561, 0x586, 0x531),
    second!(0x1e01, 0x1e95, 0x1e00),
    second!(0x1ea1, 0x1eff, 0x1ea0),
];

/// Whether the two are a small letter of the row and its capital.
fn is_pair_of(small: u32, capital: u32, row: &Letters) -> bool
    ensures { result ≡ spec.is_pair_of small capital row.now }
{
    row.first <= small
        && small <= row.last
        && (row.has_each || (small - row.first) % 2 == 0)
        && row.capital <= capital
        && capital - row.capital == small - row.first
}

/// Whether some row has the two.
fn is_pair(small: u32, capital: u32) -> bool
    ensures { result ≡ list_any (spec.is_pair_of small capital) LETTERS }
{
    LETTERS.iter().any(|row| is_pair_of(small, capital, row))
}

/// Whether a letter is the capital of another one.
pub(crate) fn is_capital_of(small: char, capital: char) -> bool
    ensures { result ≡ spec.is_capital_of small capital }
{
    let (small, capital) = (u32::from(small), u32::from(capital));
    97 <= small && is_pair(small, capital)
}

/// Whether it is a character of ASCII.
pub(crate) fn is_ascii(c: char) -> bool
    ensures { result ≡ spec.is_ascii c }
{
    c <= '\u{7f}'
}

fn is_wide_cell(content: &Cell) -> bool
    ensures { result ≡ spec.is_wide_cell content.now }
{
    match content {
        Cell::Char(c) => !is_ascii(*c),
        Cell::Act(_) => false,
    }
}

/// Whether the slot has a character above ASCII without shift or with it.
fn is_wide_slot(map: &KeyMap, slot: u8) -> bool
    ensures { result ≡ spec.is_wide_slot map.now slot }
{
    let entry = map.entry(slot);
    is_wide_cell(&entry.cells[0]) || is_wide_cell(&entry.cells[1])
}

/// Whether some slot has.
#[tactic(auto, using(crate::proofs::Lists::any_rules))]
fn has_wide(map: &KeyMap) -> bool
    ensures { result ≡ spec.has_wide map.now }
{
    for number in 0..SLOT_LIMIT as u16 {
        if is_wide_slot(map, number as u8) {
            return true;
        }
    }
    false
}

/// Whether letters above ASCII are letters for sure: some slot has one, and the text is Unicode.
pub(crate) fn is_sure(map: &KeyMap, text: &[u8]) -> bool
    ensures { result ≡ spec.is_sure map.now text.now }
{
    has_wide(map) && is_unicode(text)
}
