//! What is shown of the bytes of a text.
ghost use Rattle.std.specs.Prelude.{◌≡◌, ◌++◌, take, encode_utf8, OnOk, IfOk};
ghost use Rattle.std.specs.List.{flat_map};
ghost use Rattle.keymap_names.specs.Shown as spec;

use bstr::ByteSlice;
use keymap_core::is_unseen;
use std::alloc::{AllocError, Global};

/// The character as it is shown: U+FFFD for one that a terminal doesn't show, other than a tab.
fn shown_char(c: char) -> char
    ensures { result ≡ spec.shown_char c }
{
    if c == '\t' {
        c
    } else if is_unseen(c) {
        '\u{fffd}'
    } else {
        c
    }
}

/// The first characters that are shown of bytes, so many at most, with one U+FFFD for each maximal piece that isn't
/// UTF-8. Nothing behind them is decoded.
#[tactic(auto, unfolding(crate::specs::Shown::shown_chars))]
fn first_chars(alloc: Global, bytes: &[u8], limit: usize) -> Result<Vec<char>, AllocError>
    ensures { IfOk result (λ cs. cs.items ≡ take limit (spec.shown_chars bytes.now)) }
{
    let mut characters = Vec::with_capacity(alloc, limit.min(bytes.len()))?;
    let mut rest = bytes.chars();
    while characters.len() < limit {
        let Some(c) = rest.next() else {
            return Ok(characters);
        };
        characters.push(shown_char(c))?;
    }
    Ok(characters)
}

/// All characters that are shown of bytes.
#[tactic(auto, unfolding(crate::specs::Shown::shown_chars))]
pub fn all_chars(alloc: Global, bytes: &[u8]) -> Result<Vec<char>, AllocError>
    ensures { IfOk result (λ cs. cs.items ≡ spec.shown_chars bytes.now) }
{
    bytes.chars().map(|c| shown_char(c)).collect(alloc)
}

/// Adds a character as UTF-8.
fn push_character(text: &mut Vec<u8>, c: char) -> Result<(), AllocError>
    ensures { OnOk result (text.new.items ≡ text.old.items ++ encode_utf8 c) }
{
    if c < '\u{80}' {
        text.push(c as u8)?;
        Ok(())
    } else {
        let mut bytes = [0; 4];
        text.extend_from_slice(c.encode_utf8(&mut bytes).as_bytes())
    }
}

/// Adds characters as UTF-8.
pub fn push_characters(text: &mut Vec<u8>, characters: &[char]) -> Result<(), AllocError>
    ensures { OnOk result (text.new.items ≡ text.old.items ++ flat_map encode_utf8 characters.now) }
{
    for c in characters {
        push_character(text, *c)?;
    }
    Ok(())
}

/// The name of a file as a message shows it: U+FFFD stands for what a terminal doesn't show and for what isn't UTF-8,
/// so it stays within its line and turns no direction of writing.
#[tactic(auto, unfolding(crate::specs::Shown::shown_name))]
pub fn shown_name(alloc: Global, name: &[u8]) -> Result<Vec<u8>, AllocError>
    ensures { IfOk result (λ text. text.items ≡ spec.shown_name name.now) }
{
    let characters = all_chars(alloc, name)?;
    let mut text = Vec::new(alloc);
    push_characters(&mut text, characters.as_slice())?;
    Ok(text)
}

/// The first characters of bytes as they are shown, so many at most.
pub fn first_shown(alloc: Global, bytes: &[u8], limit: usize) -> Result<Vec<u8>, AllocError>
    ensures { IfOk result (λ text. text.items ≡ flat_map encode_utf8 (take limit (spec.shown_chars bytes.now))) }
{
    let characters = first_chars(alloc, bytes, limit)?;
    let mut text = Vec::new(alloc);
    push_characters(&mut text, characters.as_slice())?;
    Ok(text)
}

/// How many characters of a word are told.
const WORD_LIMIT: usize = 24;

/// A word of a text as it is told: its first characters as they are shown.
#[tactic(auto, unfolding(crate::specs::Shown::word_text))]
pub fn word(alloc: Global, word: &[u8]) -> Result<Vec<u8>, AllocError>
    ensures { IfOk result (λ text. text.items ≡ spec.word_text word.now) }
{
    first_shown(alloc, word, WORD_LIMIT)
}
