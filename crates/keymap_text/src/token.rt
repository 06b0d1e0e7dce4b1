//! Tokens of a text: where blanks, words and quoted characters end. It sees bytes, and knows neither what a word means
//! nor which token may come next.
ghost use Rattle.std.specs.Prelude.{◌≡◌, ◌+◌, ◌<◌, ◌≤◌, ◌==◌, length, drop, slice_index, if◌then◌else◌, IsFalse, IfOk};
ghost use Rattle.std.specs.Prelude.{IfSome, IfErr, count_by, ◌^◌};
ghost use Rattle.keymap_text.specs.Lexical as lexical;
ghost use Rattle.keymap_text.specs.Inner.Keys.{first_of_sixteen};
ghost use Rattle.keymap_text.specs.Lexical.{is_blank, is_space, is_word, stays_on_line, separates, leading, is_lone};
ghost use Rattle.keymap_text.specs.Lexical.{literal, quoted, word, front_of, tokens_after, first};
ghost use Rattle.keymap_text.specs.Meaning.{line};
ghost use Rattle.keymap_text.specs.Tokens.{result_view};
ghost use Rattle.keymap_text.specs.Inner.Views.{front_view, FoundFits};

use crate::fault::{TextFault, TextFaultKind};
use bstr::ByteSlice;
use std::simd::prelude::*;

/// What a token is.
#[derive(Clone, Copy, Debug, PartialEq, Eq)]
pub enum TokenKind {
    ParenL,
    ParenR,
    /// A character between apostrophes.
    Literal(char),
    /// A longest run of ASCII letters and digits.
    Word,
}

/// Where a token stands in the text: the offset of its first byte, and that after its last one.
#[derive(Clone, Copy, Debug, PartialEq, Eq)]
pub struct Span {
    pub start: usize,
    pub end: usize,
}

/// A token, with its bytes and its place in the text.
#[derive(Clone, Copy, Debug)]
pub struct Token<'a> {
    pub kind: TokenKind,
    pub slice: &'a [u8],
    pub span: Span,
}

/// What stands at the front of some bytes; a token has this many bytes after its first one.
#[derive(Clone, Copy)]
pub(crate) enum Front {
    Found(TokenKind, usize),
    Refused(TextFaultKind),
    Unfinished,
}

pub(crate) fn is_blank_byte(c: u8) -> bool
    ensures { result ≡ is_blank c }
{
    c == b' ' || c == b'\t' || c == b'\r' || c == b'\n'
}

/// Which bytes are ASCII letters and digits.
static WORD_BYTES: [bool; 256] = [
    false, false, false, false, false, false, false, false, false, false, false, false, false,
    false, false, false, false, false, false, false, false, false, false, false, false, false,
    false, false, false, false, false, false, false, false, false, false, false, false, false,
    false, false, false, false, false, false, false, false, false, true, true, true, true, true,
    true, true, true, true, true, false, false, false, false, false, false, false, true, true,
    true, true, true, true, true, true, true, true, true, true, true, true, true, true, true, true,
    true, true, true, true, true, true, true, true, false, false, false, false, false, false, true,
    true, true, true, true, true, true, true, true, true, true, true, true, true, true, true, true,
    true, true, true, true, true, true, true, true, true, false, false, false, false, false, false,
    false, false, false, false, false, false, false, false, false, false, false, false, false,
    false, false, false, false, false, false, false, false, false, false, false, false, false,
    false, false, false, false, false, false, false, false, false, false, false, false, false,
    false, false, false, false, false, false, false, false, false, false, false, false, false,
    false, false, false, false, false, false, false, false, false, false, false, false, false,
    false, false, false, false, false, false, false, false, false, false, false, false, false,
    false, false, false, false, false, false, false, false, false, false, false, false, false,
    false, false, false, false, false, false, false, false, false, false, false, false, false,
    false, false, false, false, false, false, false, false, false, false, false, false, false,
    false, false, false, false, false, false, false, false, false, false,
];

/// Is it a blank, a tab or a CR?
#[inline(always)]
pub fn is_space_byte(c: u8) -> bool
    ensures { result ≡ is_space c }
{
    c == b' ' || c == b'\t' || c == b'\r'
}

/// How many of the first sixteen bytes are spaces, up to one that isn't: all are compared at once.
#[inline(always)]
pub(crate) fn space_run(bytes: &[u8]) -> usize
    requires { 16 ≤ length bytes.now }
    ensures some { result ≤ leading (λ c. c == 32) bytes.now }
    ensures all { result < 16 → result ≡ leading (λ c. c == 32) bytes.now }
    ensures bound { result ≤ 16 }
{
    let others = u8x16::from_slice(bytes).simd_ne(u8x16::splat(b' '));
    first_set(others.to_bitmask())
}

/// How many blanks that end no line stand in front, up to a tab or carriage return behind spaces: at most sixteen
/// spaces are seen at once.
#[inline(always)]
#[tactic(auto, using(crate::proofs::Leading::front_rules))]
pub(crate) fn first_spaces(bytes: &[u8]) -> usize
    ensures length { result ≤ length bytes.now }
    ensures blank { result ≤ leading is_space bytes.now }
{
    if bytes.len() >= 16 {
        let run = space_run(bytes);
        if run > 0 {
            return run;
        }
        if bytes[0] > b' ' {
            return 0;
        }
    }
    all_space_len(bytes)
}

/// How many blanks, tabs and CRs stand in front: few spaces are seen at once.
#[inline(always)]
#[tactic(auto, using(crate::proofs::Leading::spaces_end, crate::proofs::Leading::leading_le))]
pub fn space_len(bytes: &[u8]) -> usize
    ensures length { result ≤ length bytes.now }
    ensures value { result ≡ leading is_space bytes.now }
{
    if bytes.len() >= 16 {
        let run = space_run(bytes);
        if run < 16 && !is_space_byte(bytes[run]) {
            return run;
        }
    }
    all_space_len(bytes)
}

/// How many blanks, tabs and CRs stand in front, counted byte by byte.
#[inline(never)]
#[tactic(auto, using(crate::proofs::Leading::leading_rules))]
fn all_space_len(bytes: &[u8]) -> usize
    ensures length { result ≤ length bytes.now }
    ensures value { result ≡ leading is_space bytes.now }
{
    let mut i: usize = 0;
    while i < bytes.len() && is_space_byte(bytes[i]) {
        i += 1;
    }
    i
}

#[inline(always)]
pub(crate) fn is_word_byte(c: u8) -> bool
    ensures { result ≡ is_word c }
{
    WORD_BYTES[c as usize]
}

/// How many of the first sixteen bytes are word bytes, up to one that isn't: all are compared at once.
#[inline(always)]
fn word_run(bytes: &[u8]) -> usize
    requires { 16 ≤ length bytes.now }
    ensures { result < 16 → result ≡ leading is_word bytes.now }
{
    let v = u8x16::from_slice(bytes);
    let from_a = (v | u8x16::splat(0x20)) - u8x16::splat(b'a');
    let from_0 = v - u8x16::splat(b'0');
    let others = from_a.simd_ge(u8x16::splat(26)) & from_0.simd_ge(u8x16::splat(10));
    first_set(others.to_bitmask())
}

/// The place of the lowest bit that is set, 16 where none is.
#[inline(always)]
fn first_set(mask: u64) -> usize
    ensures { result ≡ first_of_sixteen mask }
{
    if mask == 0 {
        16
    } else {
        mask.trailing_zeros() as usize
    }
}

/// How many word bytes stand in front, where that is less than 16 and another byte stands behind them; else 16 or more.
#[inline(always)]
pub(crate) fn short_word_len(bytes: &[u8]) -> usize
    ensures { result < 16 → (result < length bytes.now) × (result ≡ leading is_word bytes.now) }
{
    if bytes.len() >= 16 {
        word_run(bytes)
    } else {
        short_word_len_at_end(bytes)
    }
}

/// What `short_word_len` answers where fewer than 16 bytes are left.
#[inline(never)]
fn short_word_len_at_end(bytes: &[u8]) -> usize
    ensures { result < 16 → (result < length bytes.now) × (result ≡ leading is_word bytes.now) }
{
    let n = word_len(bytes);
    if n < bytes.len() { n } else { 16 }
}

/// How many ASCII letters and digits stand in front.
#[inline(always)]
#[tactic(auto, using(crate::proofs::Leading::leading_le))]
pub fn word_len(bytes: &[u8]) -> usize
    ensures length { result ≤ length bytes.now }
    ensures value { result ≡ leading is_word bytes.now }
{
    if bytes.len() >= 16 {
        let run = word_run(bytes);
        if run < 16 {
            return run;
        }
    }
    all_word_len(bytes)
}

/// How many ASCII letters and digits stand in front, counted byte by byte.
#[inline(never)]
#[tactic(auto, using(crate::proofs::Leading::leading_rules))]
fn all_word_len(bytes: &[u8]) -> usize
    ensures length { result ≤ length bytes.now }
    ensures value { result ≡ leading is_word bytes.now }
{
    let mut i: usize = 0;
    while i < bytes.len() && is_word_byte(bytes[i]) {
        i += 1;
    }
    i
}

/// How many bytes stand in front of the line's end.
pub(crate) fn line_len(bytes: &[u8]) -> usize
    ensures length { result ≤ length bytes.now }
    ensures value { result ≡ leading stays_on_line bytes.now }
{
    match bytes.find_byte(b'\n') {
        Some(n) => n,
        None => bytes.len(),
    }
}

/// How many LFs stand in few bytes: a sum in a byte is one that is made sixteen bytes at once.
fn few_line_feeds(bytes: &[u8]) -> u8
    requires { length bytes.now < 256 }
    ensures { result ≡ count_by (λ c. c == 10) bytes.now }
{
    let mut n: u8 = 0;
    for c in bytes {
        if *c == b'\n' {
            n += 1;
        }
    }
    n
}

/// How many bytes are counted at once.
const RUN: usize = 192;

/// How many LFs stand in bytes.
pub(crate) fn line_feeds(bytes: &[u8]) -> u64
    requires { length bytes.now < 2 ^ 63 }
    ensures value { result ≡ count_by (λ c. c == 10) bytes.now }
    ensures bound { result ≤ length bytes.now }
{
    let mut n: u64 = 0;
    let mut i: usize = 0;
    while i + RUN < bytes.len() {
        n += few_line_feeds(&bytes[i..i + RUN]) as u64;
        i += RUN;
    }
    n + few_line_feeds(&bytes[i..]) as u64
}

/// The place of the line's end, at `at` or after it.
pub fn line_end(text: &[u8], at: usize) -> usize
    requires { at ≤ length text.now }
    ensures length { result ≤ length text.now }
    ensures value { result ≡ at + leading stays_on_line (drop at text.now) }
{
    at + line_len(&text[at..])
}

/// Does a byte from 0x80 on stand before an apostrophe?
fn is_lone_byte(bytes: &[u8]) -> bool
    ensures { result ≡ is_lone bytes.now }
{
    bytes.len() > 1 && bytes[0] >= 0x80 && bytes[1] == b'\''
}

/// The quoted character whose bytes these are, after the first apostrophe.
pub(crate) fn literal_front(bytes: &[u8]) -> Front
    ensures value { front_view result ≡ literal bytes.now }
    ensures fits { FoundFits result (length bytes.now) }
{
    if is_lone_byte(bytes) {
        return Front::Found(TokenKind::Literal(bytes[0] as char), 2);
    }
    let (character, size) = bstr::decode_utf8(bytes);
    character_front(bytes, character, size)
}

/// The quoted character, where this one stands first in the bytes, or none of them begins one, and has that size.
fn character_front(bytes: &[u8], character: Option<char>, size: usize) -> Front
    ensures value { front_view result ≡ quoted (record { char = character; size = size }) bytes.now }
    ensures fits { FoundFits result (length bytes.now) }
{
    match character {
        Some('\n') => Front::Refused(TextFaultKind::BadLiteral),
        Some(c) => {
            if bytes.len() <= size {
                Front::Unfinished
            } else if bytes[size] == b'\'' {
                Front::Found(TokenKind::Literal(c), size + 1)
            } else {
                Front::Refused(TextFaultKind::BadLiteral)
            }
        }
        None => {
            if bytes.len() == size {
                Front::Unfinished
            } else {
                Front::Refused(TextFaultKind::BadLiteral)
            }
        }
    }
}

/// What stands at the front of some bytes that begin with neither a blank nor a comment.
#[inline(always)]
#[tactic(auto, unfolding(crate::specs::Lexical::front_of))]
pub(crate) fn token_front(bytes: &[u8]) -> Front
    requires some { 0 < length bytes.now }
    requires stands { IsFalse (separates (slice_index bytes.now 0)) }
    ensures value { front_view result ≡ front_of (slice_index bytes.now 0) (drop 1 bytes.now) }
    ensures fits { FoundFits result (length (drop 1 bytes.now)) }
{
    let c = bytes[0];
    let rest = &bytes[1..];
    match c {
        b'(' => Front::Found(TokenKind::ParenL, 0),
        b')' => Front::Found(TokenKind::ParenR, 0),
        b'\'' => literal_front(rest),
        _ => word_front(c, rest),
    }
}

#[inline(always)]
#[tactic(auto, unfolding(crate::specs::Lexical::front_of))]
fn word_front(c: u8, rest: &[u8]) -> Front
    ensures value { front_view result ≡ if is_word c then word (leading is_word rest.now)
        else lexical.Refused TextFaultKind.BadByte }
    ensures fits { FoundFits result (length rest.now) }
{
    if !is_word_byte(c) {
        return Front::Refused(TextFaultKind::BadByte);
    }
    let n = word_len(rest);
    if n < 32 {
        Front::Found(TokenKind::Word, n)
    } else {
        Front::Refused(TextFaultKind::BadWord)
    }
}

/// The place after the blanks and comments at `at`.
#[inline(always)]
fn token_start(text: &[u8], at: usize) -> usize
    requires { at ≤ length text.now }
    ensures length { result ≤ length text.now }
    ensures same { tokens_after 0 at (drop at text.now) ≡ tokens_after 0 result (drop result text.now) }
    ensures stands { result < length text.now → IsFalse (separates (slice_index text.now result)) }
{
    let mut i = at + first_spaces(&text[at..]);
    while i < text.len() {
        if text[i] == b'#' {
            i = line_end(text, i + 1);
        } else if is_blank_byte(text[i]) {
            i += 1;
        } else {
            return i;
        }
    }
    i
}

/// The line of a place, counted from 1.
pub(crate) fn line_of(text: &[u8], place: usize) -> u64
    requires { place ≤ length text.now }
    ensures { result ≡ line text.now place }
{
    text[..place].iter().filter(|c| **c == b'\n').count() as u64 + 1
}

#[inline(never)]
pub(crate) fn fault_at(text: &[u8], place: usize, kind: TextFaultKind) -> TextFault
    requires { place ≤ length text.now }
    ensures place { result.offset ≡ place }
    ensures line { result.line ≡ line text.now place }
    ensures kind { result.kind ≡ kind }
{
    TextFault {
        offset: place as u64,
        line: line_of(text, place),
        kind,
    }
}

/// The first token of the bytes from `at` on, after blanks and comments; none where the text ends there.
#[inline(always)]
pub fn next_token(text: &[u8], at: usize) -> Result<Option<Token<'_>>, TextFault>
    requires { at ≤ length text.now }
    ensures exact { result_view text.now result ≡ first (tokens_after 0 at (drop at text.now)) }
    ensures span { IfOk result (λ token. IfSome token (λ t. t.span.end ≡ t.span.start + length t.slice.now)) }
    ensures line { IfErr result (λ f. f.line ≡ line text.now f.offset) }
{
    let start = token_start(text, at);
    if start == text.len() {
        return Ok(None);
    }
    match token_front(&text[start..]) {
        Front::Found(kind, n) => {
            let end = start + 1 + n;
            Ok(Some(Token {
                kind,
                slice: &text[start..end],
                span: Span { start, end },
            }))
        }
        Front::Refused(kind) => Err(fault_at(text, start, kind)),
        Front::Unfinished => Err(fault_at(text, text.len(), TextFaultKind::EndInside)),
    }
}
