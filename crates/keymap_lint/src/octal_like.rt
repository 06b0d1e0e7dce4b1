//! Characters that look octal and are decimal.
ghost use Rattle.std.specs.Prelude.{◌≡◌, ◌<◌, ◌≤◌, ◌++◌, OnOk, length};
ghost use Rattle.std.specs.List.{flat_map, list_all};
ghost use Rattle.std.specs.Option.{option_to_list};
ghost use Rattle.keymap_core.specs.Below.{gathered};
ghost use Rattle.keymap_core.specs.Numbers.{accent_limit, pair_limit};
ghost use Rattle.keymap_lint.specs.Octal as spec;

use crate::cells::CellInForce;
use crate::diagnostic::{Added, Diagnostic, Found, Kind, add};
use crate::spelled::{SpelledText, bytes_at};
use keymap_core::{ACCENT_LIMIT, Accent, Cell};
use keymap_text::Span;

fn are_digits(bytes: &[u8]) -> bool
    ensures { result ≡ list_all spec.is_digit bytes.now }
{
    bytes.iter().all(|c| b'0' <= *c && *c <= b'9')
}

/// Whether these are two or more decimal digits, the first of which is 0.
fn looks_octal(bytes: &[u8]) -> bool
    ensures { result ≡ spec.looks_octal bytes.now }
{
    bytes.len() >= 2 && bytes[0] == b'0' && are_digits(bytes)
}

/// A decimal digit of a number.
fn digit(n: u32, unit: u32) -> u32
    requires { 0 < unit }
    ensures value { result ≡ spec.digit n unit }
    ensures in_range { result < 10 }
{
    n / unit % 10
}

/// Whether all decimal digits of a character's number are octal ones.
fn is_octal(n: u32) -> bool
    ensures { result ≡ spec.is_octal n }
{
    digit(n, 1) < 8
        && digit(n, 10) < 8
        && digit(n, 100) < 8
        && digit(n, 1_000) < 8
        && digit(n, 10_000) < 8
        && digit(n, 100_000) < 8
        && digit(n, 1_000_000) < 8
}

/// The number that they are as octal ones.
fn octal_number(n: u32) -> u32
    ensures { result ≡ spec.octal_number n }
{
    digit(n, 1)
        + 8 * digit(n, 10)
        + 64 * digit(n, 100)
        + 512 * digit(n, 1_000)
        + 4_096 * digit(n, 10_000)
        + 32_768 * digit(n, 100_000)
        + 262_144 * digit(n, 1_000_000)
}

/// The same where they may be octal ones, and are another number then.
fn octal_of(n: u32) -> Option<u32>
    ensures { result ≡ spec.octal_of n }
{
    if is_octal(n) && octal_number(n) != n {
        Some(octal_number(n))
    } else {
        None
    }
}

/// What is said of a character that is spelled there.
fn octal_at(text: &SpelledText, span: Span, character: char) -> Option<Diagnostic>
    ensures { option_to_list result ≡ spec.octal_at text.now span character }
{
    if !looks_octal(bytes_at(text.text(), span)) {
        return None;
    }
    Some(Diagnostic {
        place: Some(span.start),
        kind: Kind::OctalLike {
            character,
            start: span.start,
            octal: octal_of(u32::from(character)),
        },
    })
}

fn octal_cell(text: &SpelledText, cell: &CellInForce) -> Option<Diagnostic>
    ensures { option_to_list result ≡ spec.octal_cell text.now cell.now }
{
    match text.content(cell) {
        Cell::Char(character) => octal_at(text, cell.span, character),
        Cell::Act(_) => None,
    }
}

/// Adds what is said of cells.
fn add_cells(found: &mut Found, text: &SpelledText, cells: &[CellInForce]) -> Added
    ensures { OnOk result (found.new.items ≡ found.old.items ++ flat_map (spec.octal_cell text.now) cells.now) }
{
    for cell in cells {
        add(found, octal_cell(text, cell))?;
    }
    Ok(())
}

/// Adds what is said of the base and the result of a pair.
fn add_pair(
    found: &mut Found,
    text: &SpelledText,
    first: usize,
    pairs: &[(char, char)],
    place: usize,
) -> Added
    requires place { place < length pairs.now }
    requires few { length pairs.now ≤ pair_limit }
    ensures { OnOk result (found.new.items ≡ found.old.items ++ spec.octal_pair text.now first pairs.now place) }
{
    let (base, result_of) = pairs[place];
    add(found, octal_at(text, text.span(first, 4 * place + 3), base))?;
    add(
        found,
        octal_at(text, text.span(first, 4 * place + 4), result_of),
    )
}

/// Adds what is said of pairs.
#[tactic(auto, using(crate::proofs::Lists::gathered_rules))]
fn add_pairs(found: &mut Found, text: &SpelledText, first: usize, pairs: &[(char, char)]) -> Added
    requires { length pairs.now ≤ pair_limit }
    ensures { OnOk result (found.new.items ≡ found.old.items
        ++ gathered (spec.octal_pair text.now first pairs.now) (length pairs.now)) }
{
    for place in 0..pairs.len() {
        add_pair(found, text, first, pairs, place)?;
    }
    Ok(())
}

/// What is said of the accent's own character, which stands behind its name.
fn octal_own(text: &SpelledText, first: usize, accent: &Accent) -> Option<Diagnostic>
    ensures { option_to_list result ≡ spec.octal_own text.now first accent.now }
{
    octal_at(text, text.span(first, 1), accent.own())
}

/// Adds what is said of an accent whose definition begins with this token.
#[tactic(auto, using(crate::proofs::Lists::gathered_rules))]
fn add_defined(found: &mut Found, text: &SpelledText, first: usize, accent: &Accent) -> Added
    ensures { OnOk result (found.new.items ≡ found.old.items
        ++ spec.octal_defined text.now first accent.now) }
{
    add(found, octal_own(text, first, accent))?;
    add_pairs(found, text, first, accent.pairs())
}

fn add_accent(found: &mut Found, text: &SpelledText, index: u8) -> Added
    requires { index < accent_limit }
    ensures { OnOk result (found.new.items ≡ found.old.items ++ spec.octal_accent text.now index) }
{
    match (text.accent(index), text.map().accent(index)) {
        (Some(definition), Some(accent)) => add_defined(found, text, definition.first, accent),
        _ => Ok(()),
    }
}

/// Adds what is said of accents.
#[tactic(auto, using(crate::proofs::Lists::gathered_rules))]
fn add_accents(found: &mut Found, text: &SpelledText) -> Added
    ensures { OnOk result (found.new.items ≡ found.old.items ++ gathered (spec.octal_accent text.now) accent_limit) }
{
    for index in 0..ACCENT_LIMIT as u8 {
        add_accent(found, text, index)?;
    }
    Ok(())
}

/// Adds the characters of cells, accents and pairs that are spelled by two or more digits, the first of which is 0.
pub(crate) fn add_octal_like(found: &mut Found, text: &SpelledText, cells: &[CellInForce]) -> Added
    ensures { OnOk result (found.new.items ≡ found.old.items ++ spec.all_octal text.now cells.now) }
{
    add_cells(found, text, cells)?;
    add_accents(found, text)
}
