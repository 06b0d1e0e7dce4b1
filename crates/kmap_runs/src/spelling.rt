//! How characters are typed, each by itself.
ghost use Rattle.std.specs.HashSet.{contains};
ghost use Rattle.std.specs.List.Sorted.{IsStrictlySortedBy};
ghost use Rattle.std.specs.Ordering.{nat_cmp};
ghost use Rattle.std.specs.Prelude.{◌≡◌, ◌^◌, ◌<◌, ◌∷◌, ◌++◌, [], ℕ, None, Ok, true, false, length, nat_eq};
ghost use Rattle.std.specs.Prelude.{if◌then◌else◌, IfOk, IfErr, IfSome, OnOk};
ghost use Rattle.std.specs.Str.{encode_utf8_all};
ghost use Rattle.kmap_runs.specs.Missing.{IsMissingError};
ghost use Rattle.kmap_runs.specs.Spelling.{Adds, AddsOnBoard, AreSpelled, AreSpelledIn, IsSheet, IsSheetError};
ghost use Rattle.kmap_runs.specs.Spelling.{PressesOff, StopsAt};

use crate::missing::characters_of;
use crate::type_error::TypeError;
use console_core::Event;
use console_scripts::{Typing, TypingError, type_characters, yield_of};
use keyboard::{Board, is_on};
use keymap_core::KeyMap;
use std::alloc::{AllocError, Global};
use std::collections::{BTreeSet, HashSet};

/// A character, and the events that type it by itself.
#[derive(Debug, Drop)]
pub(crate) struct Spelled {
    pub(crate) character: char,
    pub(crate) typing: Typing,
}

/// Characters that are typed each by itself, up to the first one that isn't, and why that one isn't.
#[derive(Debug, Drop)]
pub(crate) struct Spelling {
    pub(crate) each: Vec<Spelled>,
    pub(crate) stopped: Option<TypeError>,
}

fn push_spelled(each: &mut Vec<Spelled>, one: Spelled) -> Result<(), AllocError>
    ensures { OnOk result (each.new.items ≡ each.old.items ++ one ∷ []) }
{
    each.push(one)?;
    Ok(())
}

/// Adds the character at the offset with the events that type it by itself, or answers why there are none.
fn add_spelled(
    each: &mut Vec<Spelled>,
    alloc: Global,
    map: &KeyMap,
    board: Board,
    character: char,
    offset: u64,
) -> Result<Option<TypeError>, AllocError>
    ensures added { result ≡ Ok None → Adds board map.now character each.old.items each.new.items }
    ensures stopped { IfOk result (λ r. IfSome r (StopsAt map.now character offset)) }
    ensures kept { IfOk result (λ r. IfSome r (λ e. each.new.items ≡ each.old.items)) }
{
    match type_characters(alloc, map, board, &[character]) {
        Ok(typing) => {
            push_spelled(each, Spelled { character, typing })?;
            Ok(None)
        }
        Err(TypingError::Memory) => Err(AllocError),
        Err(TypingError::NoWay(_)) => Ok(Some(TypeError::NoWay {
            offset,
            c: character,
        })),
        Err(TypingError::TooManyStates) => Ok(Some(TypeError::TooManyStates)),
    }
}

/// The same of a character that wasn't seen before.
fn add_new(
    seen: &mut HashSet<char>,
    each: &mut Vec<Spelled>,
    alloc: Global,
    map: &KeyMap,
    board: Board,
    character: char,
    offset: u64,
) -> Result<Option<TypeError>, AllocError>
    ensures seen { OnOk result ((q : ℕ) → contains nat_eq seen.new q
        ≡ (if nat_eq character q then true else contains nat_eq seen.old q)) }
    ensures again { result ≡ Ok None → contains nat_eq seen.old character ≡ true → each.new.items ≡ each.old.items }
    ensures new { result ≡ Ok None → contains nat_eq seen.old character ≡ false
        → Adds board map.now character each.old.items each.new.items }
    ensures stopped { IfOk result (λ r. IfSome r (StopsAt map.now character offset)) }
    ensures kept { IfOk result (λ r. IfSome r (λ e. each.new.items ≡ each.old.items)) }
{
    if seen.insert(character)? {
        add_spelled(each, alloc, map, board, character, offset)
    } else {
        Ok(None)
    }
}

/// The different characters in the order in which they stand first, each with the events that type it by itself.
fn spelled_among(
    alloc: Global,
    map: &KeyMap,
    board: Board,
    characters: &[char],
) -> Result<Spelling, AllocError>
    requires { length (encode_utf8_all characters.now) < 2 ^ 64 }
    ensures { IfOk result (AreSpelled board map.now characters.now) }
{
    let mut seen = HashSet::new(alloc);
    let mut each = Vec::new(alloc);
    let mut offset = 0;
    for c in characters {
        if let Some(error) = add_new(&mut seen, &mut each, alloc, map, board, *c, offset)? {
            return Ok(Spelling {
                each,
                stopped: Some(error),
            });
        }
        offset += c.len_utf8() as u64;
    }
    Ok(Spelling {
        each,
        stopped: None,
    })
}

/// The different characters of the sentence. The whole of it is read as text first.
pub(crate) fn spelled_in(
    alloc: Global,
    map: &KeyMap,
    board: Board,
    sentence: &[u8],
) -> Result<Spelling, TypeError>
    ensures ok { IfOk result (AreSpelledIn board map.now sentence.now) }
    ensures err { IfErr result (IsMissingError map.now sentence.now) }
{
    let characters = characters_of(alloc, sentence)?;
    Ok(spelled_among(alloc, map, board, characters.as_slice())?)
}

/// Whether the events press keys of the board alone.
pub(crate) fn are_on(board: Board, events: &[Event]) -> bool
    ensures { result ≡ false → PressesOff board events.now }
{
    for event in events {
        if let Event::Press(key) = event {
            if !is_on(board, *key) {
                return false;
            }
        }
    }
    true
}

/// Adds the character with the events that type it by itself, if there are any and they press keys of the board alone.
fn add_on_board(
    each: &mut Vec<Spelled>,
    alloc: Global,
    map: &KeyMap,
    board: Board,
    character: char,
) -> Result<(), TypeError>
    ensures ok { OnOk result (AddsOnBoard board map.now character each.old.items each.new.items) }
    ensures err { IfErr result (IsSheetError map.now) }
{
    match type_characters(alloc, map, board, &[character]) {
        Ok(typing) => {
            if are_on(board, typing.events.as_slice()) {
                push_spelled(each, Spelled { character, typing })?;
            }
            Ok(())
        }
        Err(TypingError::Memory) => Err(TypeError::Memory),
        Err(TypingError::NoWay(_)) => Ok(()),
        Err(TypingError::TooManyStates) => Err(TypeError::TooManyStates),
    }
}

/// The characters of a set, by their numbers.
fn listed(alloc: Global, set: &BTreeSet<char>) -> Result<Vec<char>, AllocError>
    ensures all { IfOk result (λ cs. cs.items ≡ set.now.keys) }
    ensures order { IfOk result (λ cs. IsStrictlySortedBy nat_cmp cs.items) }
{
    set.iter().copied().collect(alloc)
}

/// The characters that keys of the board type, by their numbers, each with the events that type it by itself.
pub(crate) fn spelled_all(
    alloc: Global,
    map: &KeyMap,
    board: Board,
) -> Result<Vec<Spelled>, TypeError>
    ensures ok { IfOk result (λ each. IsSheet board map.now each.items) }
    ensures err { IfErr result (IsSheetError map.now) }
{
    let Some(given) = yield_of(alloc, map)? else {
        return Err(TypeError::TooManyStates);
    };
    let characters = listed(alloc, &given.typed)?;
    let mut each = Vec::new(alloc);
    for c in characters.as_slice() {
        add_on_board(&mut each, alloc, map, board, *c)?;
    }
    Ok(each)
}
