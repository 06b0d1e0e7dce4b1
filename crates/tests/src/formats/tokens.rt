//! Tokens and words.

use crate::asserts::{expect_equal, expect_equal_at};
use keymap_core::{Action, LockFlag};
use keymap_text::TextFaultKind::{BadByte, BadLiteral, BadWord, EndInside};
use keymap_text::{
    Meaning, Span, TextFault, TextFaultKind, Token, TokenKind, next_token, word_meaning,
};
use std::process::Abort;

/// A text, a place, and the first token from there, where it begins and ends, or none.
static TOKENS: [(&[u8], usize, Option<(TokenKind, usize, usize)>); 21] = [
    (b"abc", 1, Some((TokenKind::Word, 1, 3))),
    (b"", 0, None),
    (b" \t\r\n# nop\rnop", 0, None),
    (b"# nop\n(", 0, Some((TokenKind::ParenL, 6, 7))),
    (b")nop", 0, Some((TokenKind::ParenR, 0, 1))),
    (b"030nop ", 0, Some((TokenKind::Word, 0, 6))),
    (b"nop'a'", 0, Some((TokenKind::Word, 0, 3))),
    (
        b"12345678901234567890123456789012",
        0,
        Some((TokenKind::Word, 0, 32)),
    ),
    (b" 'a'", 0, Some((TokenKind::Literal('a'), 1, 4))),
    (b"'''", 0, Some((TokenKind::Literal('\''), 0, 3))),
    (b"'\\'", 0, Some((TokenKind::Literal('\\'), 0, 3))),
    (b"'#'", 0, Some((TokenKind::Literal('#'), 0, 3))),
    (b"' '", 0, Some((TokenKind::Literal(' '), 0, 3))),
    (b"'\0'", 0, Some((TokenKind::Literal('\0'), 0, 3))),
    (b"'\t'", 0, Some((TokenKind::Literal('\t'), 0, 3))),
    (b"'\r'", 0, Some((TokenKind::Literal('\r'), 0, 3))),
    (b"'\xc3\xa9'", 0, Some((TokenKind::Literal('\u{e9}'), 0, 4))),
    (b"'\xe9'", 0, Some((TokenKind::Literal('\u{e9}'), 0, 3))),
    (b"'\x80'", 0, Some((TokenKind::Literal('\u{80}'), 0, 3))),
    (
        b"'\xe2\x82\xac'",
        0,
        Some((TokenKind::Literal('\u{20ac}'), 0, 5)),
    ),
    (
        b"'\xf4\x8f\xbf\xbf'",
        0,
        Some((TokenKind::Literal('\u{10ffff}'), 0, 6)),
    ),
];

/// The kind of a token, and where it begins and ends.
fn placed(token: Option<Token<'_>>) -> Option<(TokenKind, usize, usize)> {
    let token = token?;
    Some((token.kind, token.span.start, token.span.end))
}

#[test]
fn first_tokens_are_found(rt: HostRuntime) {
    for &(text, from, wanted) in &TOKENS {
        let token = next_token(text, from).expect(&rt, "no fault");
        expect_equal_at(&rt, text, placed(token), wanted);
    }
    let token = next_token(b"abc", 1)
        .expect(&rt, "no fault")
        .expect(&rt, "a token");
    let wanted = (b"bc".as_slice(), Span { start: 1, end: 3 });
    expect_equal(&rt, (token.slice, token.span), wanted);
}

/// A text, a place, and the fault of the first token from there, with its offset and line.
static BROKEN: [(&[u8], usize, TextFaultKind, u64, u64); 23] = [
    (b" 'ab'", 0, BadLiteral, 1, 1),
    (b"''x", 0, BadLiteral, 0, 1),
    (b"'\n'", 0, BadLiteral, 0, 1),
    (b"'a\n", 0, BadLiteral, 0, 1),
    (b"'\xc0\x80", 0, BadLiteral, 0, 1),
    (b"'\xe0\x80", 0, BadLiteral, 0, 1),
    (b"'\xed\xa0", 0, BadLiteral, 0, 1),
    (b"'\xf4\x90", 0, BadLiteral, 0, 1),
    (b"'\xc3\xa9\xc3", 0, BadLiteral, 0, 1),
    (b"'", 0, EndInside, 1, 1),
    (b"''", 0, EndInside, 2, 1),
    (b" 'a", 0, EndInside, 3, 1),
    (b"'\xff", 0, EndInside, 2, 1),
    (b"'\xc3", 0, EndInside, 2, 1),
    (b"'\xe0\xa0", 0, EndInside, 3, 1),
    (b"'\xf4\x8f\xbf\xbf", 0, EndInside, 5, 1),
    (b"123456789012345678901234567890123", 0, BadWord, 0, 1),
    (b"\n\x0c", 0, BadByte, 1, 2),
    (b"\x0b", 0, BadByte, 0, 1),
    (b"\xef\xbb\xbf1", 0, BadByte, 0, 1),
    (b"_", 0, BadByte, 0, 1),
    (b"''''ab'", 3, BadLiteral, 3, 1),
    (b"nop\n\n%", 3, BadByte, 5, 3),
];

#[test]
fn broken_tokens_are_refused(rt: HostRuntime) {
    for &(text, from, kind, offset, line) in &BROKEN {
        let fault = TextFault { offset, line, kind };
        expect_equal_at(&rt, text, next_token(text, from).err(), Some(fault));
    }
}

/// The names of the characters 0 to 31.
static CONTROL_NAMES: [&[u8]; 32] = [
    b"nul", b"soh", b"stx", b"etx", b"eot", b"enq", b"ack", b"bel", b"bs", b"ht", b"nl", b"vt",
    b"ff", b"cr", b"so", b"si", b"dle", b"dc1", b"dc2", b"dc3", b"dc4", b"nak", b"syn", b"etb",
    b"can", b"em", b"sub", b"esc", b"fs", b"gs", b"rs", b"ns",
];

/// The meaning of a word, by the code of its action.
#[derive(Clone, Copy)]
enum Means {
    Number(u128),
    Char(char),
    Letter(LockFlag),
    Act(u8),
    OutOfRange,
    Combined,
    Unknown,
}

static WORDS: [(&[u8], Means); 36] = [
    (b"0", Means::Number(0)),
    (b"008", Means::Number(8)),
    (b"0x1F", Means::Number(31)),
    (b"0Xff", Means::Number(255)),
    (b"4294967296", Means::Number(4294967296)),
    (b"18446744073709551616", Means::Number(18446744073709551616)),
    (
        b"99999999999999999999999999999999",
        Means::Number(99999999999999999999999999999999),
    ),
    (
        b"0xffffffffffffffffffffffffffffff",
        Means::Number(0xffffffffffffffffffffffffffffff),
    ),
    (b"del", Means::Char('\x7f')),
    (b"DEL", Means::Char('\x7f')),
    (b"lf", Means::Char('\n')),
    (b"np", Means::Char('\x0c')),
    (b"us", Means::Char('\x1f')),
    (b"NUL", Means::Char('\0')),
    (b"o", Means::Letter(LockFlag::O)),
    (b"C", Means::Letter(LockFlag::C)),
    (b"n", Means::Letter(LockFlag::N)),
    (b"B", Means::Letter(LockFlag::B)),
    (b"nop", Means::Act(0x00)),
    (b"LShift", Means::Act(0x02)),
    (b"alock", Means::Act(0x82)),
    (b"ctrl", Means::Act(0x09)),
    (b"backtab", Means::Act(0x08)),
    (b"stby", Means::Act(0x98)),
    (b"ddia", Means::Act(0x90)),
    (b"scr16", Means::Act(0x1a)),
    (b"FKEY0096", Means::Act(0x7a)),
    (b"scr17", Means::OutOfRange),
    (b"fkey4294967297", Means::OutOfRange),
    (b"rctrla", Means::Combined),
    (b"alta", Means::Unknown),
    (b"ctrla", Means::Unknown),
    (b"fkey", Means::Unknown),
    (b"0x", Means::Unknown),
    (b"0xg", Means::Unknown),
    (b"1a", Means::Unknown),
];

/// None where no action has the code.
fn meaning(means: Means) -> Option<Meaning> {
    match means {
        Means::Number(number) => Some(Meaning::Number(number)),
        Means::Char(c) => Some(Meaning::Char(c)),
        Means::Letter(flag) => Some(Meaning::Letter(flag)),
        Means::Act(code) => Some(Meaning::Act(Action::from_code(code)?)),
        Means::OutOfRange => Some(Meaning::OutOfRange),
        Means::Combined => Some(Meaning::Combined),
        Means::Unknown => Some(Meaning::Unknown),
    }
}

fn expect_meaning(rt: &impl Abort, word: &[u8], wanted: Option<Meaning>) {
    assert!(rt; word.len() <= 32);
    expect_equal_at(rt, word, Some(word_meaning(word)), wanted);
}

#[test]
fn words_have_meanings(rt: HostRuntime) {
    for &(word, means) in &WORDS {
        expect_meaning(&rt, word, meaning(means));
    }
    for (number, &name) in (0..32u8).zip(&CONTROL_NAMES) {
        expect_meaning(&rt, name, Some(Meaning::Char(char::from(number))));
    }
}
