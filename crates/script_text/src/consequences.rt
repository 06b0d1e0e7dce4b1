//! The lines of the consequences of a change of a keymap, one for each thing. What there is to tell is proved, the words
//! are tested, by transcripts; of a line that is printed it is proved that it is one.
ghost use Rattle.std.specs.Prelude.{IsTrue, [], ◌∷◌};
ghost use Rattle.messages.specs.Filled.{has_places};

use crate::words::{
    BLANK, BORNE_BY_NOBODY, BORNE_OTHERWISE, CHECK, CHECK_ACCEPTS, CHECK_REFUSES, COMMA,
    FEWER_PRESSES, GIVES_NO_LONGER, GIVES_NOW, MORE_PRESSES, REFUSED_KEY, REFUSED_NO_LONGER,
    REFUSED_NOW, TYPES_NO_LONGER, TYPES_NOW, TYPES_UNDECIDED,
};
use keymap_consequences::{Bearing, Consequences, Refused, TapChanges};
use keymap_core::{Action, KeyCode};
use keymap_names::readable;
use messages::{either, filled, small};
use std::alloc::{AllocError, Global};

type Added = Result<(), AllocError>;

/// Lines without line feeds.
type Lines = Vec<Vec<u8>>;

/// Adds a piece behind others.
pub(crate) fn push_piece(text: &mut Vec<u8>, between: &[u8], piece: &[u8]) -> Added {
    if !text.is_empty() {
        text.extend_from_slice(between)?;
    }
    text.extend_from_slice(piece)
}

/// What stands in quotes, without them.
fn unquoted(shown: &[u8]) -> &[u8] {
    if shown.len() > 2 && shown[0] == b'\'' {
        &shown[1..shown.len() - 1]
    } else {
        shown
    }
}

/// Adds a character of a list: as a reader knows it, the blank alone in quotes.
fn push_character(text: &mut Vec<u8>, c: char) -> Added {
    let shown = readable(c);
    if c == ' ' {
        push_piece(text, BLANK, shown.as_slice())
    } else {
        push_piece(text, BLANK, unquoted(shown.as_slice()))
    }
}

fn characters_text(alloc: Global, characters: &[char]) -> Result<Vec<u8>, AllocError> {
    let mut text = Vec::new(alloc);
    for c in characters {
        push_character(&mut text, *c)?;
    }
    Ok(text)
}

fn actions_text(alloc: Global, actions: &[Action]) -> Result<Vec<u8>, AllocError> {
    let mut text = Vec::new(alloc);
    for action in actions {
        push_piece(&mut text, BLANK, action.name().as_slice())?;
    }
    Ok(text)
}

/// The numbers of keys.
fn keys_text(alloc: Global, keys: &[KeyCode]) -> Result<Vec<u8>, AllocError> {
    if keys.is_empty() {
        return Vec::from_slice(alloc, BORNE_BY_NOBODY);
    }
    let mut text = Vec::new(alloc);
    for key in keys {
        push_piece(&mut text, COMMA, small(key.get()).as_slice())?;
    }
    Ok(text)
}

/// A key that the check names, with its first modifier or lock and its first character.
fn refused_text(alloc: Global, refused: &Refused) -> Result<Vec<u8>, AllocError> {
    let key = small(refused.key.get());
    let action = refused.holding.action().name();
    let character = readable(refused.character);
    filled(
        alloc,
        REFUSED_KEY,
        &[key.as_slice(), action.as_slice(), character.as_slice()],
    )
}

fn refused_keys_text(alloc: Global, keys: &[Refused]) -> Result<Vec<u8>, AllocError> {
    let mut text = Vec::new(alloc);
    for refused in keys {
        let told = refused_text(alloc, refused)?;
        push_piece(&mut text, COMMA, told.as_slice())?;
    }
    Ok(text)
}

/// Adds a line of what is listed, if something is.
fn push_listed(lines: &mut Lines, alloc: Global, words: &[u8], listed: &[u8]) -> Added
    requires places { IsTrue (has_places words.now (listed.now ∷ [])) }
{
    if listed.is_empty() {
        return Ok(());
    }
    lines.push(filled(alloc, words, &[listed])?)?;
    Ok(())
}

/// Adds the lines of what the check says: of its verdict, if it differs, and of the keys that it names.
fn push_check(lines: &mut Lines, alloc: Global, of: &Consequences) -> Added {
    if of.was_accepted != of.is_accepted {
        let old = either(of.was_accepted, CHECK_ACCEPTS, CHECK_REFUSES);
        let new = either(of.is_accepted, CHECK_ACCEPTS, CHECK_REFUSES);
        lines.push(filled(alloc, CHECK, &[old, new])?)?;
    }
    let no_longer = refused_keys_text(alloc, of.refused_no_longer.as_slice())?;
    push_listed(lines, alloc, REFUSED_NO_LONGER, no_longer.as_slice())?;
    let now = refused_keys_text(alloc, of.refused_now.as_slice())?;
    push_listed(lines, alloc, REFUSED_NOW, now.as_slice())
}

/// The line of a modifier or lock that not the same keys bear.
fn bearing_text(alloc: Global, bearing: &Bearing) -> Result<Vec<u8>, AllocError> {
    let action = bearing.holding.action().name();
    let old = keys_text(alloc, bearing.old.as_slice())?;
    let new = keys_text(alloc, bearing.new.as_slice())?;
    filled(
        alloc,
        BORNE_OTHERWISE,
        &[action.as_slice(), old.as_slice(), new.as_slice()],
    )
}

fn push_bearings(lines: &mut Lines, alloc: Global, bearings: &[Bearing]) -> Added {
    for bearing in bearings {
        lines.push(bearing_text(alloc, bearing)?)?;
    }
    Ok(())
}

fn push_characters(lines: &mut Lines, alloc: Global, words: &[u8], characters: &[char]) -> Added
    requires places { (text : _) → IsTrue (has_places words.now (text ∷ [])) }
{
    let listed = characters_text(alloc, characters)?;
    push_listed(lines, alloc, words, listed.as_slice())
}

fn push_actions(lines: &mut Lines, alloc: Global, words: &[u8], actions: &[Action]) -> Added
    requires places { (text : _) → IsTrue (has_places words.now (text ∷ [])) }
{
    let listed = actions_text(alloc, actions)?;
    push_listed(lines, alloc, words, listed.as_slice())
}

/// Adds the lines of what comes of taps.
fn push_taps(lines: &mut Lines, alloc: Global, taps: &TapChanges) -> Added {
    push_characters(
        lines,
        alloc,
        TYPES_NO_LONGER,
        taps.types_no_longer.as_slice(),
    )?;
    push_characters(lines, alloc, TYPES_NOW, taps.types_now.as_slice())?;
    push_characters(lines, alloc, MORE_PRESSES, taps.more_presses.as_slice())?;
    push_characters(lines, alloc, FEWER_PRESSES, taps.fewer_presses.as_slice())?;
    push_actions(
        lines,
        alloc,
        GIVES_NO_LONGER,
        taps.gives_no_longer.as_slice(),
    )?;
    push_actions(lines, alloc, GIVES_NOW, taps.gives_now.as_slice())
}

/// The lines of the consequences of a change, without line feeds.
pub fn consequence_lines(alloc: Global, of: &Consequences) -> Result<Vec<Vec<u8>>, AllocError> {
    let mut lines = Vec::new(alloc);
    push_check(&mut lines, alloc, of)?;
    push_bearings(&mut lines, alloc, of.bearings.as_slice())?;
    match &of.taps {
        Some(taps) => push_taps(&mut lines, alloc, taps)?,
        None => lines.push(Vec::from_slice(alloc, TYPES_UNDECIDED)?)?,
    }
    Ok(lines)
}
