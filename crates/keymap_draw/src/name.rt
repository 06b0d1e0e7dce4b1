//! The name by which a picture is headed.
ghost use Rattle.std.specs.Prelude.{◌≡◌, true, IfOk, OnOk, codes};
ghost use Rattle.std.specs.List.{list_all};
ghost use Rattle.keymap_draw.specs.Drawings as spec;
ghost use Rattle.keymap_draw.specs.Sheets.{is_seen as is_seen_of};

use crate::markup::Added;
use bstr::ByteSlice;
use keymap_core::is_unseen;
use std::alloc::Global;

/// How many characters of a name are shown: as many as have room before the verdict, if each is as wide as high.
const MOST: usize = 48;

/// Whether XML takes the character and a terminal shows it.
fn is_seen(c: char) -> bool
    ensures { result ≡ is_seen_of c }
{
    !is_unseen(c) && c != '\u{fffe}' && c != '\u{ffff}'
}

/// The character, or U+FFFD in its place.
fn shown_character(c: char) -> char
    ensures { result ≡ spec.shown_character c }
{
    if is_seen(c) { c } else { '\u{fffd}' }
}

/// Makes a name as short as it has room.
fn shorten(name: &mut Vec<char>) -> Added
    ensures { OnOk result (name.new.items ≡ spec.shortened name.old.items) }
{
    if name.len() > MOST {
        name.truncate(MOST - 1);
        name.push('\u{2026}')?;
    }
    Ok(())
}

/// The words that are given, in UTF-8.
pub(crate) fn shown_words(alloc: Global, given: &[u8]) -> Added<Vec<char>>
    ensures { IfOk result (λ words. words.items ≡ spec.shown_words given.now) }
{
    given.chars().map(|c| shown_character(c)).collect(alloc)
}

/// The name that is given, in UTF-8.
#[tactic(auto, unfolding(crate::specs::Drawings::shown_name))]
fn shown_name(alloc: Global, given: &[u8]) -> Added<Vec<char>>
    ensures { IfOk result (λ name. name.items ≡ spec.shown_name given.now) }
{
    let mut name = shown_words(alloc, given)?;
    shorten(&mut name)?;
    Ok(name)
}

/// The name of a keymap that has none.
fn unnamed(alloc: Global) -> Added<Vec<char>>
    ensures { IfOk result (λ name. name.items ≡ codes "Console keymap") }
{
    b"Console keymap"
        .iter()
        .map(|byte| char::from(*byte))
        .collect(alloc)
}

/// The name by which a picture is headed, also where an empty one is given.
#[tactic(auto, using(crate::proofs::Names::shown_name_seen))]
pub(crate) fn name_of(alloc: Global, given: &[u8]) -> Added<Vec<char>>
    ensures value { IfOk result (λ name. name.items ≡ spec.name_of given.now) }
    ensures seen { IfOk result (λ name. list_all is_seen_of name.items ≡ true) }
{
    if given.is_empty() {
        unnamed(alloc)
    } else {
        shown_name(alloc, given)
    }
}
