//! What is said of the fault of a text.
ghost use Rattle.std.specs.Prelude.{◌≡◌, ◌<◌, ◌≤◌, ◌-◌, ◌∷◌, [], length, take, slice_index, position, IfOk, IfSome};
ghost use Rattle.std.specs.List.{before_first};
ghost use Rattle.messages.specs.Filled.{filled as filled_with};
ghost use Rattle.keymap_lint_text.specs.Faults as spec;
ghost use Rattle.keymap_lint_text.specs.Wanted.{wanted_text};
ghost use Rattle.keymap_names.specs.Shown.{word_text};
ghost use Rattle.keymap_lint_text.specs.declared.words.TheConstants as words;

use crate::hints::{is_utf16, joined_word};
use crate::near::{behind, meant_name};
use crate::wanted::{started, wanted};
use crate::words::{
    ALL_CELLS, BAD_BYTE, BAD_CHAR, BAD_FUNCTION, BAD_LITERAL, BAD_WORD, COMBINED, ENDS,
    ENDS_QUOTED, FEW_CELLS, FUNCTION_KEYS, KEY_TOO_LARGE, LOCK_LETTERS, LONG_WORD, MARK,
    MEANT_CHARACTER, MEANT_NAME, MEANT_NUMBER, NOP, SCREENS, TOO_MANY_PAIRS, TWO_CHARACTERS,
    UNEXPECTED, UNNAMED_BYTE, UTF16, ZERO_BASE,
};
use keymap_core::{code_digits, hex_digit};
use keymap_names::{first_shown, word};
use keymap_places::{DefinitionStart, FaultPlace, Wanted};
use keymap_text::{Meaning, TextFaultKind, next_token, word_len, word_meaning};
use messages::{either, filled, number};
use std::alloc::{AllocError, Global};

/// The bytes of the token at a place; none where no token stands.
pub(crate) fn token_at(text: &[u8], place: usize) -> &[u8]
    requires { place ≤ length text.now }
    ensures { result.now ≡ spec.token_bytes (spec.first_at text.now place) }
{
    match next_token(text, place) {
        Ok(Some(token)) => token.slice,
        _ => &[],
    }
}

/// Whether what stands first at a place isn't a token, but for the text's end.
fn is_refused(text: &[u8], place: usize) -> bool
    requires { place ≤ length text.now }
    ensures { result ≡ spec.is_refused (spec.first_at text.now place) }
{
    match next_token(text, place) {
        Ok(_) => false,
        Err(_) => true,
    }
}

/// The word in front of bytes.
fn front_word(bytes: &[u8]) -> &[u8]
    ensures { result.now ≡ spec.front_word bytes.now }
{
    &bytes[..word_len(bytes)]
}

fn hex_end(bytes: &[u8]) -> Option<usize>
    ensures place { result ≡ position spec.is_no_hex bytes.now }
    ensures bound { IfSome result (λ i. i < length bytes.now) }
{
    bytes.iter().position(|c| !c.is_ascii_hexdigit())
}

/// The hexadecimal digits in front of bytes.
fn hex_front(bytes: &[u8]) -> &[u8]
    ensures { result.now ≡ before_first spec.is_no_hex bytes.now }
{
    let end = hex_end(bytes).unwrap_or(bytes.len());
    &bytes[..end]
}

/// The hexadecimal digits behind `U+` or `u+` in front of bytes.
fn unicode_digits(bytes: &[u8]) -> &[u8]
    ensures { result.now ≡ spec.unicode_digits bytes.now }
{
    if bytes.len() >= 2 && bytes[0].to_ascii_lowercase() == b'u' && bytes[1] == b'+' {
        hex_front(&bytes[2..])
    } else {
        &[]
    }
}

/// The front of bytes in which their first character stands whole.
fn few_bytes(bytes: &[u8]) -> &[u8]
    ensures { result.now ≡ take 4 bytes.now }
{
    if bytes.len() < 4 { bytes } else { &bytes[..4] }
}

/// The character in front of bytes, as it is shown.
#[tactic(auto, unfolding(crate::specs::Faults::front_text))]
fn front(alloc: Global, bytes: &[u8]) -> Result<Vec<u8>, AllocError>
    ensures { IfOk result (λ text. text.items ≡ spec.front_text bytes.now) }
{
    first_shown(alloc, few_bytes(bytes), 1)
}

fn first_byte(bytes: &[u8]) -> u8
    ensures { result ≡ slice_index bytes.now 0 }
{
    if bytes.is_empty() { 0 } else { bytes[0] }
}

/// Whether a byte order mark stands in front of bytes.
fn begins_with_mark(bytes: &[u8]) -> bool
    ensures { result ≡ spec.is_mark bytes.now }
{
    bytes.len() > 2 && bytes[0] == 0xef && bytes[1] == 0xbb && bytes[2] == 0xbf
}

/// What is said of bytes that begin no token.
#[tactic(auto, unfolding(crate::specs::Faults::lone_byte_text))]
fn lone_byte(alloc: Global, bytes: &[u8]) -> Result<Vec<u8>, AllocError>
    ensures { IfOk result (λ text. text.items ≡ spec.lone_byte_text bytes.now) }
{
    let byte = first_byte(bytes);
    if byte < 33 || byte == 127 {
        let byte = u32::from(byte);
        let digits = [hex_digit(byte / 16), hex_digit(byte % 16)];
        filled(alloc, UNNAMED_BYTE, &[&digits])
    } else if begins_with_mark(bytes) {
        filled(alloc, MARK, &[])
    } else {
        let character = front(alloc, bytes)?;
        filled(
            alloc,
            BAD_BYTE,
            &[character.as_slice(), character.as_slice()],
        )
    }
}

/// What is said of the bytes of a text from a place on that begin no token.
#[tactic(auto, unfolding(crate::specs::Faults::bad_byte_text))]
fn bad_byte(alloc: Global, source: &[u8], bytes: &[u8]) -> Result<Vec<u8>, AllocError>
    ensures { IfOk result (λ text. text.items ≡ spec.bad_byte_text source.now bytes.now) }
{
    if is_utf16(source) {
        filled(alloc, UTF16, &[])
    } else {
        lone_byte(alloc, bytes)
    }
}

/// The character in front of bytes, if one other than a line feed stands there, and how many bytes it has.
#[tactic(auto, unfolding(crate::specs::Faults::front_character))]
fn front_character(bytes: &[u8]) -> Option<(char, usize)>
    ensures { result ≡ spec.front_character bytes.now }
{
    let (character, size) = bstr::decode_utf8(bytes);
    match character {
        None | Some('\n') => None,
        Some(c) => Some((c, size)),
    }
}

/// The two characters in front of bytes, where an apostrophe stands behind them.
#[tactic(auto, unfolding(crate::specs::Faults::two_characters))]
fn two_characters(bytes: &[u8]) -> Option<(char, char)>
    ensures { result ≡ spec.two_characters bytes.now }
{
    let (first, size) = front_character(bytes)?;
    let rest = behind(bytes, size);
    let (second, size) = front_character(rest)?;
    if first_byte(behind(rest, size)) == b'\'' {
        Some((first, second))
    } else {
        None
    }
}

/// What is said of an apostrophe that begins no quoted character, by the bytes from it on.
#[tactic(auto, unfolding(crate::specs::Faults::bad_literal_text))]
fn bad_literal(alloc: Global, bytes: &[u8]) -> Result<Vec<u8>, AllocError>
    ensures { IfOk result (λ text. text.items ≡ spec.bad_literal_text bytes.now) }
{
    match two_characters(behind(bytes, 1)) {
        None => filled(alloc, BAD_LITERAL, &[]),
        Some((first, second)) => {
            filled(
                alloc,
                TWO_CHARACTERS,
                &[
                    code_digits(first).as_slice(),
                    code_digits(second).as_slice(),
                ],
            )
        }
    }
}

fn wants_character(wanted: Wanted) -> bool
    ensures { result ≡ spec.wants_character wanted }
{
    matches!(
        wanted,
        Wanted::Cell { .. }
            | Wanted::AccentCharacter
            | Wanted::Base { .. }
            | Wanted::Composed { .. }
    )
}

/// What may stand in a cell that gives nothing, and as a lock letter.
fn help_text(wanted: Wanted) -> &'static [u8]
    ensures { result.now ≡ spec.help_text wanted }
{
    match wanted {
        Wanted::Cell { .. } => NOP,
        Wanted::Lock => LOCK_LETTERS,
        _ => b"",
    }
}

/// The name that is meant by the word in front of bytes, or what may stand here.
#[tactic(auto, unfolding(crate::specs::Faults::near_text))]
fn near_message(alloc: Global, bytes: &[u8], wanted: Wanted) -> Result<Vec<u8>, AllocError>
    ensures { IfOk result (λ text. text.items ≡ spec.near_text bytes.now wanted) }
{
    let name = meant_name(alloc, front_word(bytes), joined_word(bytes), wanted)?;
    if name.is_empty() {
        Vec::from_slice(alloc, help_text(wanted))
    } else {
        let told = word(alloc, name.as_slice())?;
        filled(alloc, MEANT_NAME, &[told.as_slice()])
    }
}

/// What may have been meant by the word in front of bytes.
#[tactic(auto, unfolding(crate::specs::Faults::meant_text))]
fn meant(alloc: Global, bytes: &[u8], wanted: Wanted) -> Result<Vec<u8>, AllocError>
    ensures { IfOk result (λ text. text.items ≡ spec.meant_text bytes.now wanted) }
{
    let digits = unicode_digits(bytes);
    let token = front_word(bytes);
    if 0 < digits.len() {
        let told = word(alloc, digits)?;
        filled(alloc, MEANT_NUMBER, &[told.as_slice(), told.as_slice()])
    } else if token.len() == 1 && wants_character(wanted) {
        filled(alloc, MEANT_CHARACTER, &[word(alloc, token)?.as_slice()])
    } else {
        near_message(alloc, bytes, wanted)
    }
}

/// What is said of a word without a meaning, or one that is too long.
#[tactic(auto, unfolding(crate::specs::Faults::bad_word_text))]
fn bad_word(alloc: Global, bytes: &[u8], wanted: Wanted) -> Result<Vec<u8>, AllocError>
    ensures { IfOk result (λ text. text.items ≡ spec.bad_word_text bytes.now wanted) }
{
    let token = front_word(bytes);
    if token.len() > 32 {
        let help = help_text(wanted);
        filled(
            alloc,
            LONG_WORD,
            &[number(token.len() as u64).as_slice(), help],
        )
    } else {
        filled(
            alloc,
            BAD_WORD,
            &[
                word(alloc, token)?.as_slice(),
                meant(alloc, bytes, wanted)?.as_slice(),
            ],
        )
    }
}

fn is_letter(meaning: &Meaning) -> bool
    ensures { result ≡ spec.is_letter meaning.now }
{
    matches!(meaning, Meaning::Letter(_))
}

fn is_lock_letter(token: &[u8]) -> bool
    ensures { result ≡ spec.is_lock_letter token.now }
{
    token.len() == 1 && is_letter(&word_meaning(token))
}

/// How many cells the slot has, where its lock letter may be meant.
#[tactic(auto, unfolding(crate::specs::Faults::cells_text))]
fn cells(
    alloc: Global,
    token: &[u8],
    wanted: Wanted,
    definition: Option<DefinitionStart>,
) -> Result<Vec<u8>, AllocError>
    ensures { IfOk result (λ text. text.items ≡ spec.cells_text token.now wanted definition) }
{
    match wanted {
        Wanted::Cell { column } if is_lock_letter(token) => {
            let what = started(alloc, definition)?;
            filled(
                alloc,
                FEW_CELLS,
                &[what.as_slice(), number(column as u64).as_slice()],
            )
        }
        Wanted::Lock => filled(alloc, ALL_CELLS, &[]),
        _ => Ok(Vec::new(alloc)),
    }
}

/// Whether the word is one of a screen, and not of a function key.
fn is_screen(bytes: &[u8]) -> bool
    ensures { result ≡ spec.is_screen bytes.now }
{
    !bytes.is_empty() && bytes[0].to_ascii_lowercase() == b's'
}

/// The bytes but for the last one.
fn but_last(bytes: &[u8]) -> &[u8]
    ensures { result.now ≡ take (length bytes.now - 1) bytes.now }
{
    &bytes[..bytes.len().saturating_sub(1)]
}

/// What is said of a text that ends inside a token or a definition.
#[tactic(auto, unfolding(crate::specs::Faults::end_text))]
fn end_inside(alloc: Global, source: &[u8], fault: &FaultPlace) -> Result<Vec<u8>, AllocError>
    requires { fault.now.behind ≤ length source.now }
    ensures { IfOk result (λ text. text.items ≡ spec.end_text source.now fault.now) }
{
    if is_refused(source, fault.behind) {
        filled(alloc, ENDS_QUOTED, &[])
    } else {
        let what = wanted(alloc, fault.wanted, fault.definition)?;
        filled(alloc, ENDS, &[what.as_slice()])
    }
}

/// What is said of a token that stands where something else is wanted.
fn unexpected(alloc: Global, token: &[u8], fault: &FaultPlace) -> Result<Vec<u8>, AllocError>
    ensures { IfOk result (λ text. text.items ≡ filled_with words.UNEXPECTED.now (word_text token.now
        ∷ wanted_text fault.now.wanted fault.now.definition
        ∷ spec.cells_text token.now fault.now.wanted fault.now.definition ∷ [])) }
{
    let told = word(alloc, token)?;
    let what = wanted(alloc, fault.wanted, fault.definition)?;
    let cells = cells(alloc, token, fault.wanted, fault.definition)?;
    filled(
        alloc,
        UNEXPECTED,
        &[told.as_slice(), what.as_slice(), cells.as_slice()],
    )
}

/// What is said of the fault of a text at a place.
#[tactic(auto, unfolding(crate::specs::Faults::fault_text))]
pub(crate) fn fault_message(
    alloc: Global,
    source: &[u8],
    place: usize,
    kind: TextFaultKind,
    fault: &FaultPlace,
) -> Result<Vec<u8>, AllocError>
    requires place { place ≤ length source.now }
    requires behind { fault.now.behind ≤ length source.now }
    ensures { IfOk result (λ text. text.items ≡ spec.fault_text source.now place kind fault.now) }
{
    let rest = behind(source, place);
    let name = front_word(rest);
    let told = word(alloc, name)?;
    let told = told.as_slice();
    match kind {
        TextFaultKind::BadByte => bad_byte(alloc, source, rest),
        TextFaultKind::BadLiteral => bad_literal(alloc, rest),
        TextFaultKind::BadWord => bad_word(alloc, rest, fault.wanted),
        TextFaultKind::Unexpected => unexpected(alloc, token_at(source, place), fault),
        TextFaultKind::KeyTooLarge => filled(alloc, KEY_TOO_LARGE, &[told]),
        TextFaultKind::BadChar => filled(alloc, BAD_CHAR, &[told]),
        TextFaultKind::BadFunction => {
            let names = either(is_screen(name), SCREENS, FUNCTION_KEYS);
            filled(alloc, BAD_FUNCTION, &[told, names])
        }
        TextFaultKind::TooManyPairs => {
            let accent = started(alloc, fault.definition)?;
            filled(alloc, TOO_MANY_PAIRS, &[accent.as_slice()])
        }
        TextFaultKind::ZeroBase => filled(alloc, ZERO_BASE, &[]),
        TextFaultKind::Combined => {
            let alone = word(alloc, but_last(name))?;
            filled(alloc, COMBINED, &[told, alone.as_slice()])
        }
        TextFaultKind::EndInside => end_inside(alloc, source, fault),
    }
}
