//! The characters of a sentence that keys can't type, and the lines that tell them.
ghost use Rattle.std.specs.HashSet.{contains};
ghost use Rattle.std.specs.Prelude.{◌≡◌, ◌⊎◌, ◌∷◌, ◌++◌, ◌^◌, ◌<◌, ◌≤◌, [], ℕ, All, List, true, false, length, nat_eq};
ghost use Rattle.std.specs.Prelude.{if◌then◌else◌, Ok, IfOk, IfErr, OnOk};
ghost use Rattle.std.specs.Str.{IsUtf8, encode_utf8_all};
ghost use Rattle.keymap_core.specs.Maps.{MapValue};
ghost use Rattle.console_scripts.specs.Typing.{CanType};
ghost use Rattle.keymap_names.specs.Shown.{shown_name as shown_name_of};
ghost use Rattle.kmap_runs.specs.Missing as spec;
ghost use Rattle.kmap_runs.specs.Missing.{AreMissing, AreMissingIn, IsMissingError, IsUndecided};
ghost use Rattle.kmap_runs.specs.declared.missing.Missing.{Missing as MissingValue};

use crate::type_error::TypeError;
use crate::words::{AT_PLACE, SHOWN};
use console_scripts::Typist;
use keymap_core::{KeyMap, code_text, is_unseen};
use keymap_names::shown_name;
use keymap_places::TextLines;
use messages::{fill, filled, number};
use std::alloc::{AllocError, Global};
use std::collections::HashSet;
use std::str::from_utf8;

/// A character that keys can't type, and the offset of its first byte where it stands first in a sentence.
#[derive(Clone, Copy)]
pub(crate) struct Missing {
    pub(crate) offset: usize,
    pub(crate) character: char,
}

/// Adds a character that wasn't seen before, if keys can't type it. Answers whether that is known.
fn add_untyped(
    seen: &mut HashSet<char>,
    found: &mut Vec<Missing>,
    typist: &Typist,
    one: Missing,
) -> Result<bool, AllocError>
    ensures seen { OnOk result ((q : ℕ) → contains nat_eq seen.new q
        ≡ (if nat_eq one.character q then true else contains nat_eq seen.old q)) }
    ensures again { result ≡ Ok true → contains nat_eq seen.old one.character ≡ true
        → found.new.items ≡ found.old.items }
    ensures new { result ≡ Ok true → contains nat_eq seen.old one.character ≡ false
        → ((found.new.items ≡ found.old.items) × CanType typist.now one.character)
        ⊎ ((found.new.items ≡ found.old.items ++ one ∷ []) × (CanType typist.now one.character → ⊥)) }
    ensures undecided { result ≡ Ok false → IsUndecided typist.now }
{
    if !seen.insert(one.character)? {
        return Ok(true);
    }
    match typist.can_type(one.character) {
        Some(true) => Ok(true),
        Some(false) => {
            found.push(one)?;
            Ok(true)
        }
        None => Ok(false),
    }
}

/// Those of the characters that keys can't type, if that is known of all. Each different one is decided once.
fn missing_among(
    alloc: Global,
    typist: &Typist,
    characters: &[char],
) -> Result<Vec<Missing>, TypeError>
    requires { length (encode_utf8_all characters.now) < 2 ^ 64 }
    ensures ok { IfOk result (λ found. AreMissing typist.now characters.now found.items) }
    ensures err { (bytes : List ℕ) → IfErr result (IsMissingError typist.now bytes) }
{
    let mut seen = HashSet::new(alloc);
    let mut found = Vec::new(alloc);
    let mut offset = 0;
    for c in characters {
        let one = Missing {
            offset,
            character: *c,
        };
        if !add_untyped(&mut seen, &mut found, typist, one)? {
            return Err(TypeError::TooManyStates);
        }
        offset += c.len_utf8();
    }
    Ok(found)
}

/// The characters of a sentence, if all of it is text.
pub(crate) fn characters_of(alloc: Global, sentence: &[u8]) -> Result<Vec<char>, TypeError>
    ensures ok { IfOk result (λ cs. IsUtf8 sentence.now × (encode_utf8_all cs.items ≡ sentence.now)) }
    ensures err { (m : MapValue) → IfErr result (IsMissingError m sentence.now) }
{
    match from_utf8(sentence) {
        Ok(text) => Ok(text.chars().collect(alloc)?),
        Err(error) => Err(TypeError::NotText {
            offset: error.valid_up_to() as u64,
        }),
    }
}

/// The characters of the sentence that keys can't type. The whole of it is read as text first, so a byte that isn't
/// text comes before a character of which it isn't known.
pub(crate) fn missing_in(
    alloc: Global,
    map: &KeyMap,
    sentence: &[u8],
) -> Result<Vec<Missing>, TypeError>
    ensures ok { IfOk result (λ found. AreMissingIn map.now sentence.now found.items) }
    ensures err { IfErr result (IsMissingError map.now sentence.now) }
{
    let characters = characters_of(alloc, sentence)?;
    let typist = Typist::new(alloc, map)?;
    missing_among(alloc, &typist, characters.as_slice())
}

/// The number of a character, and behind it the character, where a terminal shows it.
#[tactic(auto, unfolding(crate::specs::Missing::character_told, messages::specs::Filled::filled))]
pub(crate) fn character_told(alloc: Global, c: char) -> Result<Vec<u8>, AllocError>
    ensures { IfOk result (λ text. text.items ≡ spec.character_told c) }
{
    let number = code_text(c);
    if is_unseen(c) {
        Vec::from_slice(alloc, number.as_slice())
    } else {
        let mut bytes = [0; 4];
        filled(
            alloc,
            SHOWN,
            &[number.as_slice(), c.encode_utf8(&mut bytes).as_bytes()],
        )
    }
}

/// Adds the line of a character.
fn push_line(
    text: &mut Vec<u8>,
    alloc: Global,
    name: &[u8],
    lines: &TextLines,
    one: Missing,
) -> Result<(), AllocError>
    requires { one.offset ≤ length lines.now }
    ensures { OnOk result (text.new.items ≡ text.old.items ++ spec.missing_line name.now lines.now one) }
{
    let line = lines.at(one.offset);
    let column = line.before.len() as u64 + 1;
    fill(
        text,
        AT_PLACE,
        &[
            name,
            number(line.number).as_slice(),
            number(column).as_slice(),
            character_told(alloc, one.character)?.as_slice(),
        ],
    )
}

/// The lines of the characters, under the name of the sentence as it is shown.
pub(crate) fn missing_text(
    alloc: Global,
    name: &[u8],
    sentence: &[u8],
    found: &[Missing],
) -> Result<Vec<u8>, AllocError>
    requires { All (λ (x : MissingValue). x.offset ≤ length sentence.now) found.now }
    ensures { IfOk result (λ text. text.items
        ≡ spec.missing_text (shown_name_of name.now) sentence.now found.now) }
{
    let shown = shown_name(alloc, name)?;
    let lines = TextLines::new(alloc, sentence)?;
    let mut text = Vec::new(alloc);
    for one in found {
        push_line(&mut text, alloc, shown.as_slice(), &lines, *one)?;
    }
    Ok(text)
}
