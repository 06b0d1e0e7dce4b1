//! What words mean: numbers, characters, lock letters and actions. It sees the bytes of one token, and knows neither
//! its place nor the tokens beside it.
ghost use Rattle.std.specs.Prelude.{◌≡◌, ◌+◌, ◌≤◌, ◌<◌, length, take, Some, None, IfSome};
ghost use Rattle.std.specs.Char as char_spec;
ghost use Rattle.keymap_text.specs.declared.token.TokenKind.TheVariants.{Word};
ghost use Rattle.keymap_text.specs.declared.words.Meaning.TheVariants.{Number};
ghost use Rattle.keymap_text.specs.Lexical.{is_word, leading};
ghost use Rattle.keymap_text.specs.Words.{meaning, item, digits_of, number_after, of_action};

use crate::names::{character_or_letter, is_same_name, name_meaning};
use crate::token::{TokenKind, is_word_byte, word_len};
use keymap_core::{Action, LockFlag, Named};

/// The meaning of a word.
#[derive(Clone, Copy, Debug, PartialEq, Eq)]
pub enum Meaning {
    Number(u128),
    Char(char),
    Act(Action),
    /// A modifier joined with a lock, which is no action here.
    Combined,
    /// A screen or function key with a number that no such has.
    OutOfRange,
    Letter(LockFlag),
    Unknown,
}

/// What a token stands for in a definition.
#[derive(Clone, Copy)]
pub enum Item {
    Open,
    Close,
    Value(Meaning),
}

/// The value of each byte as a digit, and 36 where it is none.
static DIGITS: [u8; 256] = [
    36, 36, 36, 36, 36, 36, 36, 36, 36, 36, 36, 36, 36, 36, 36, 36, 36, 36, 36, 36, 36, 36, 36, 36,
    36, 36, 36, 36, 36, 36, 36, 36, 36, 36, 36, 36, 36, 36, 36, 36, 36, 36, 36, 36, 36, 36, 36, 36,
    0, 1, 2, 3, 4, 5, 6, 7, 8, 9, 36, 36, 36, 36, 36, 36, 36, 10, 11, 12, 13, 14, 15, 16, 17, 18,
    19, 20, 21, 22, 23, 24, 25, 26, 27, 28, 29, 30, 31, 32, 33, 34, 35, 36, 36, 36, 36, 36, 36, 10,
    11, 12, 13, 14, 15, 16, 17, 18, 19, 20, 21, 22, 23, 24, 25, 26, 27, 28, 29, 30, 31, 32, 33, 34,
    35, 36, 36, 36, 36, 36, 36, 36, 36, 36, 36, 36, 36, 36, 36, 36, 36, 36, 36, 36, 36, 36, 36, 36,
    36, 36, 36, 36, 36, 36, 36, 36, 36, 36, 36, 36, 36, 36, 36, 36, 36, 36, 36, 36, 36, 36, 36, 36,
    36, 36, 36, 36, 36, 36, 36, 36, 36, 36, 36, 36, 36, 36, 36, 36, 36, 36, 36, 36, 36, 36, 36, 36,
    36, 36, 36, 36, 36, 36, 36, 36, 36, 36, 36, 36, 36, 36, 36, 36, 36, 36, 36, 36, 36, 36, 36, 36,
    36, 36, 36, 36, 36, 36, 36, 36, 36, 36, 36, 36, 36, 36, 36, 36, 36, 36, 36, 36, 36, 36, 36, 36,
    36, 36, 36, 36, 36, 36, 36, 36, 36, 36, 36, 36, 36, 36,
];

/// The value of a digit, and 36 where the byte is none.
#[inline(always)]
fn digit_value(c: u8) -> u8
    ensures { result ≡ char_spec.digit_value c }
{
    DIGITS[c as usize]
}

/// The number that the digits spell; none where there are no bytes or one of them is no digit.
#[inline(never)]
fn number_of(base: u8, digits: &[u8]) -> Option<u128>
    requires base { base ≤ 16 }
    requires length { length digits.now ≤ 32 }
    ensures { result ≡ digits_of base digits.now }
{
    if digits.is_empty() {
        return None;
    }
    let mut n: u128 = 0;
    for c in digits {
        let d = digit_value(*c);
        if d >= base {
            return None;
        }
        n = n * base as u128 + d as u128;
    }
    Some(n)
}

/// The number after the prefix.
#[inline(never)]
fn prefixed_number(prefix: &[u8], base: u8, word: &[u8]) -> Option<u128>
    requires base { base ≤ 16 }
    requires length { length word.now ≤ 32 }
    ensures { result ≡ number_after prefix.now base word.now }
{
    if word.len() < prefix.len() || !is_same_name(prefix, &word[..prefix.len()]) {
        return None;
    }
    number_of(base, &word[prefix.len()..])
}

#[inline(never)]
fn action_meaning(named: Named) -> Meaning
    ensures { result ≡ of_action named }
{
    match &named {
        Named::Action(action) => Meaning::Act(*action),
        Named::Combined => Meaning::Combined,
        Named::OutOfRange => Meaning::OutOfRange,
        Named::Unknown => Meaning::Unknown,
    }
}

/// The meaning of a word that is a name of at most eight bytes.
#[inline(never)]
fn short_name(word: &[u8]) -> Option<Meaning>
    ensures { IfSome result (λ m. m ≡ meaning word.now) }
{
    if word_len(word) < word.len() {
        return None;
    }
    name_meaning(word, word.len())
}

/// The meaning of a word of at most 32 bytes, without regard to ASCII case: a decimal number, a hexadecimal one after
/// `0x`, the name of a control character, a lock letter, or the name of an action.
#[inline(always)]
#[tactic(auto, unfolding(crate::specs::Words::meaning))]
pub fn word_meaning(word: &[u8]) -> Meaning
    requires { length word.now ≤ 32 }
    ensures { result ≡ meaning word.now }
{
    if let Some(n) = number_of(10, word) {
        return Meaning::Number(n);
    }
    if let Some(n) = prefixed_number(b"0x", 16, word) {
        return Meaning::Number(n);
    }
    if let Some(meaning) = short_name(word) {
        return meaning;
    }
    match character_or_letter(word) {
        Some(meaning) => meaning,
        None => action_meaning(Action::named(word)),
    }
}

/// The number in front that is `0x` and four digits, with a byte behind it that is none of a word.
#[inline(always)]
pub(crate) fn four_digit_number(rest: &[u8]) -> Option<u64>
    requires { 7 ≤ length rest.now }
    ensures { IfSome result (λ n. (6 < length rest.now) × (leading is_word rest.now ≡ 6)
        × (Number n ≡ meaning (take 6 rest.now))) }
{
    if rest[0] != b'0' || rest[1] != b'x' || is_word_byte(rest[6]) {
        return None;
    }
    let first = digit_value(rest[2]);
    let second = digit_value(rest[3]);
    let third = digit_value(rest[4]);
    let last = digit_value(rest[5]);
    if first >= 16 || second >= 16 || third >= 16 || last >= 16 {
        return None;
    }
    Some(((first as u64 * 16 + second as u64) * 16 + third as u64) * 16 + last as u64)
}

/// The number in front that is three digits, with a byte behind it that is none of a word.
#[inline(always)]
pub(crate) fn three_digit_number(rest: &[u8]) -> Option<u64>
    ensures { IfSome result (λ n. (3 < length rest.now) × (leading is_word rest.now ≡ 3)
        × (Number n ≡ meaning (take 3 rest.now))) }
{
    if rest.len() < 4 || is_word_byte(rest[3]) {
        return None;
    }
    let first = digit_value(rest[0]);
    let second = digit_value(rest[1]);
    let last = digit_value(rest[2]);
    if first >= 10 || second >= 10 || last >= 10 {
        return None;
    }
    Some((first as u64 * 10 + second as u64) * 10 + last as u64)
}

/// What a token stands for, by its kind and its bytes.
#[inline(never)]
pub fn item_of(kind: TokenKind, bytes: &[u8]) -> Item
    requires { kind ≡ Word → length bytes.now ≤ 32 }
    ensures { result ≡ item kind bytes.now }
{
    match kind {
        TokenKind::ParenL => Item::Open,
        TokenKind::ParenR => Item::Close,
        TokenKind::Literal(c) => Item::Value(Meaning::Char(c)),
        TokenKind::Word => Item::Value(word_meaning(bytes)),
    }
}
