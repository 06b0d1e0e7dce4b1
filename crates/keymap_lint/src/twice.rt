//! Columns of the main block in which a letter stands twice, and another one not at all.
ghost use Rattle.std.specs.Prelude.{◌≡◌, ◌++◌, ◌<◌, OnOk};
ghost use Rattle.std.specs.Option.{option_to_list};
ghost use Rattle.keymap_lint.specs.Alphabets as spec;
ghost use Rattle.keymap_lint.specs.Alphabets.{letter_count};

use crate::alphabet::{Alphabet, holders, letters, standing};
use crate::diagnostic::{Added, Diagnostic, Found, Kind, add};
use crate::gap::is_whole;
use crate::spelled::SpelledText;
use keymap_places::Placed;

/// The first token of the later one of two definitions.
fn later(one: &Placed, other: &Placed) -> usize
    ensures { result ≡ spec.later one.now other.now }
{
    if one.first < other.first {
        other.first
    } else {
        one.first
    }
}

/// What is said of a letter that stands in two slots, and of one that stands in none.
fn twice_in(text: &SpelledText, alphabet: Alphabet, letter: u8, missing: u8) -> Option<Diagnostic>
    requires letter { letter < letter_count }
    requires missing { missing < letter_count }
    ensures { result ≡ spec.twice_in text.now alphabet letter missing (spec.holders text.now alphabet letter) }
{
    let slots = holders(text, alphabet, letter);
    let [one, other] = slots.as_slice() else {
        return None;
    };
    let definition = later(&text.slot(*one)?, &text.slot(*other)?);
    let column = alphabet.column();
    Some(Diagnostic {
        place: Some(text.offset_behind(definition, 1 + usize::from(column))),
        kind: Kind::Twice {
            one: *one,
            other: *other,
            column,
            character: char::from(letter + alphabet.first()),
            missing: char::from(missing + alphabet.first()),
        },
    })
}

/// What is said where all other letters of these stand once.
fn twice_by(text: &SpelledText, alphabet: Alphabet, letters: &[u8]) -> Option<Diagnostic>
    ensures { result ≡ spec.twice_by text.now alphabet letters.now }
{
    if standing(letters, 1).len() != 24 {
        return None;
    }
    match (
        standing(letters, 2).as_slice(),
        standing(letters, 0).as_slice(),
    ) {
        ([letter], [missing]) => twice_in(text, alphabet, *letter, *missing),
        _ => None,
    }
}

/// What is said of the column in which an alphabet stands.
fn twice(text: &SpelledText, alphabet: Alphabet) -> Option<Diagnostic>
    ensures { option_to_list result ≡ spec.twice text.now alphabet }
{
    if is_whole(text) {
        twice_by(text, alphabet, letters(text, alphabet).as_slice())
    } else {
        None
    }
}

/// Adds what is said of columns 0 and 1.
pub(crate) fn add_twice(found: &mut Found, text: &SpelledText) -> Added
    ensures { OnOk result (found.new.items ≡ found.old.items ++ spec.all_twice text.now) }
{
    add(found, twice(text, Alphabet::Small))?;
    add(found, twice(text, Alphabet::Capital))
}
