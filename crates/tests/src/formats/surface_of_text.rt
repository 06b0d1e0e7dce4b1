//! keymap_text: tokens, words, the reader of texts and the printer.

use crate::support::devices::{reader_of, sheet_of};
use crate::support::keymaps::LETTER_AND_SHIFT;
use keymap_core::{Action, KeyMap, LockFlag, ReadFault, WriteFault};
use keymap_text::{
    MapReader, Meaning, Span, TextError, TextFault, TextFaultKind, Token, TokenKind, next_token,
    print_map, read_from, read_map, word_meaning,
};
use std::alloc::{AllocError, Global};

#[test]
fn tokens() {
    let found: Result<Option<Token<'_>>, TextFault> = next_token(b"abc", 1_usize);
    if let Ok(Some(Token { kind, slice, span })) = found {
        let _: (TokenKind, &[u8]) = (kind, slice);
        let Span { start, end } = span;
        let _: (usize, usize) = (start, end);
    }
    let word = TokenKind::Word;
    let (TokenKind::ParenL | TokenKind::ParenR | TokenKind::Literal(_) | TokenKind::Word) = word;
    let _: fn(char) -> TokenKind = TokenKind::Literal;
}

#[test]
fn words() {
    let _: fn(&[u8]) -> Meaning = word_meaning;
    let _: fn(u128) -> Meaning = Meaning::Number;
    let _: fn(char) -> Meaning = Meaning::Char;
    let _: fn(Action) -> Meaning = Meaning::Act;
    let _: fn(LockFlag) -> Meaning = Meaning::Letter;
    match Meaning::Unknown {
        Meaning::Number(_) | Meaning::Char(_) | Meaning::Act(_) | Meaning::Letter(_) => {}
        Meaning::Combined | Meaning::OutOfRange | Meaning::Unknown => {}
    }
}

#[test]
fn faults() {
    let kind = TextFaultKind::BadByte;
    match kind {
        TextFaultKind::BadByte | TextFaultKind::BadLiteral | TextFaultKind::BadWord => {}
        TextFaultKind::Unexpected | TextFaultKind::KeyTooLarge | TextFaultKind::BadChar => {}
        TextFaultKind::BadFunction | TextFaultKind::TooManyPairs | TextFaultKind::ZeroBase => {}
        TextFaultKind::Combined | TextFaultKind::EndInside => {}
    }
    let (offset, line) = (2_u64, 1_u64);
    let _ = TextFault { offset, line, kind };
    let _: fn(ReadFault) -> TextError = TextError::Read;
    let _: fn(TextFault) -> TextError = TextError::Fault;
    let (TextError::Memory | TextError::Read(_) | TextError::Fault(_)) = TextError::Memory;
}

#[test]
fn readers_and_the_printer(rt: HostRuntime) {
    let _: fn(Global, &[u8]) -> Result<KeyMap, TextError> = read_map;
    let _: fn(Global) -> Result<MapReader, AllocError> = MapReader::new;
    let _: fn(&mut MapReader, &[u8]) -> Result<(), TextFault> = MapReader::feed;
    let _: fn(&MapReader) -> u64 = MapReader::fed;
    let _: fn(MapReader) -> Result<KeyMap, TextFault> = MapReader::finish;
    let mut tape = reader_of(LETTER_AND_SHIFT, 1, usize::MAX);
    let map: Result<KeyMap, TextError> = read_from(rt.alloc(), &mut tape);
    let map: &KeyMap = &map.expect(&rt, "a map");
    let _: Result<(), WriteFault> = print_map(map, &mut sheet_of(10));
}
