//! The name that is meant by a word without a meaning.
ghost use Rattle.std.specs.Prelude.{◌≡◌, ◌<◌, ◌≤◌, length, take, drop, slice_index_or, [], IfOk};
ghost use Rattle.std.specs.Option.{option_map_or};
ghost use Rattle.keymap_core.specs.Actions.{action_of, name_of};
ghost use Rattle.keymap_text.specs.Words.{same_name};
ghost use Rattle.keymap_lint_text.specs.Near as spec;

use crate::other_names::{OTHER_COUNT, other_name, other_word};
use arrayvec::ArrayVec;
use keymap_core::Action;
use keymap_places::Wanted;
use keymap_text::{Meaning, control_name, word_meaning};
use std::alloc::{AllocError, Global};

/// A name; each has at most seven bytes.
type Name = ArrayVec<u8, 8>;

/// The names of keymap(5) that no control character up to 31 has, and no action first.
const MORE_NAMES: [&[u8]; 8] = [
    b"del", b"lf", b"np", b"us", b"alt", b"ctrl", b"backtab", b"ddia",
];

/// The name of the action with a code; none where there is no such.
fn action_name(code: u8) -> Name
    ensures { result.items ≡ option_map_or name_of (action_of code) [] }
{
    let mut name = ArrayVec::new();
    if let Some(action) = Action::from_code(code) {
        name.try_extend_from_slice(action.name().as_slice())
            .unwrap();
    }
    name
}

fn more_name(place: usize) -> &'static [u8]
    ensures name { result.now ≡ slice_index_or spec.more_names place [] }
    ensures short { length result.now ≤ 8 }
{
    if place < 8 { MORE_NAMES[place] } else { b"" }
}

/// The name with a number, in lower case: of an action by its code, of a control character behind 256, or one more.
#[tactic(auto, unfolding(crate::specs::Near::known_name))]
fn known_name(number: u16) -> Name
    ensures { result.items ≡ spec.known_name number }
{
    if number < 256 {
        return action_name(number as u8);
    }
    let mut name = ArrayVec::new();
    if number < 288 {
        name.try_extend_from_slice(control_name((number - 256) as u8))
            .unwrap();
    } else {
        name.try_extend_from_slice(more_name(usize::from(number - 288)))
            .unwrap();
    }
    name
}

pub(crate) fn is_same(a: &[u8], b: &[u8]) -> bool
    ensures { result ≡ same_name a.now b.now }
{
    a.eq_ignore_ascii_case(b)
}

/// The bytes before a place.
pub(crate) fn before(bytes: &[u8], place: usize) -> &[u8]
    ensures { result.now ≡ take place bytes.now }
{
    if place < bytes.len() {
        &bytes[..place]
    } else {
        bytes
    }
}

/// The bytes from a place on; none where they end before it.
pub(crate) fn behind(bytes: &[u8], place: usize) -> &[u8]
    ensures { result.now ≡ drop place bytes.now }
{
    if place < bytes.len() {
        &bytes[place..]
    } else {
        &[]
    }
}

/// The letter at a place, if one stands there.
fn letter_at(word: &[u8], place: usize) -> &[u8]
    ensures { result.now ≡ spec.letter_at place word.now }
{
    before(behind(word, place), 1)
}

/// Whether the letter at a place and the next one stand in the name the other way round, and the same behind them.
fn is_exchanged_at(word: &[u8], name: &[u8], place: usize) -> bool
    requires { place ≤ length word.now }
    ensures { result ≡ spec.is_exchanged_at word.now name.now place }
{
    is_same(letter_at(word, place), letter_at(name, place + 1))
        && is_same(letter_at(word, place + 1), letter_at(name, place))
        && is_same(behind(word, place + 2), behind(name, place + 2))
}

/// Whether the word is the name up to a place, and behind it where one letter there is taken out of one of them or of
/// both, or where two are exchanged.
fn is_near_at(word: &[u8], name: &[u8], place: usize) -> bool
    requires { place ≤ length word.now }
    ensures { result ≡ spec.is_near_at word.now name.now place }
{
    let more = behind(word, place + 1);
    let others = behind(name, place + 1);
    is_same(before(word, place), before(name, place))
        && (is_same(more, behind(name, place))
            || is_same(behind(word, place), others)
            || is_same(more, others)
            || is_exchanged_at(word, name, place))
}

/// Whether one letter is added to the name, left out of it or another one, or two are exchanged.
fn is_one_slip_from(word: &[u8], name: &[u8]) -> bool
    ensures { result ≡ spec.is_one_slip_from word.now name.now }
{
    (0..word.len() + 1).any(|place| is_near_at(word, name, place))
}

/// Whether a word that means this may stand where this is wanted.
fn may_stand(wanted: Wanted, meaning: &Meaning) -> bool
    ensures { result ≡ spec.may_stand wanted meaning.now }
{
    match wanted {
        Wanted::Cell { .. } => matches!(meaning, Meaning::Char(_) | Meaning::Act(_)),
        Wanted::AccentCharacter | Wanted::Base { .. } | Wanted::Composed { .. } => {
            matches!(meaning, Meaning::Char(_))
        }
        Wanted::Definition | Wanted::Pair { .. } => {
            matches!(meaning, Meaning::Act(Action::DeadKey(_)))
        }
        Wanted::Lock | Wanted::PairEnd { .. } => false,
    }
}

fn is_near(word: &[u8], wanted: Wanted, number: u16) -> bool
    ensures { result ≡ spec.is_near word.now wanted number }
{
    let name = known_name(number);
    is_one_slip_from(word, name.as_slice()) && may_stand(wanted, &word_meaning(name.as_slice()))
}

/// The numbers of the names that may stand here and are one slip from the word.
#[tactic(auto, unfolding(crate::specs::Near::near_names))]
fn near_names(alloc: Global, word: &[u8], wanted: Wanted) -> Result<Vec<u16>, AllocError>
    ensures { IfOk result (λ near. near.items ≡ spec.near_names word.now wanted) }
{
    (0..296)
        .filter(|number| is_near(word, wanted, *number))
        .collect(alloc)
}

/// The word without `dead_` in front of it, as X has it in front of the name of an accent.
fn without_dead(word: &[u8]) -> &[u8]
    ensures { result.now ≡ spec.without_dead word.now }
{
    if is_same(before(word, 5), b"dead_") {
        behind(word, 5)
    } else {
        word
    }
}

/// The numbers of the words of others that are this one.
#[tactic(auto, unfolding(crate::specs::Near::other_places))]
fn other_places(alloc: Global, word: &[u8]) -> Result<Vec<u16>, AllocError>
    ensures { IfOk result (λ places. places.items ≡ spec.other_places word.now) }
{
    (0..OTHER_COUNT)
        .filter(|place| is_same(word, other_word(*place)))
        .collect(alloc)
}

/// The name of what is numbered by one or two digits behind these words: here that of a front and two digits.
fn numbered(word: &[u8], words: &[u8], front: &[u8]) -> Name
    requires { length front.now ≤ 5 }
    ensures { result.items ≡ spec.numbered word.now words.now front.now }
{
    let mut name = ArrayVec::new();
    let digits = behind(word, words.len());
    if is_same(before(word, words.len()), words) && (digits.len() == 1 || digits.len() == 2) {
        name.try_extend_from_slice(front).unwrap();
        if digits.len() == 1 {
            name.try_extend_from_slice(b"0").unwrap();
        }
        name.try_extend_from_slice(digits).unwrap();
    }
    name
}

/// What others mean by a word: a key or an accent, a function key or a screen.
#[tactic(auto, unfolding(crate::specs::Near::usual_name))]
fn usual_name(alloc: Global, word: &[u8]) -> Result<Name, AllocError>
    ensures { IfOk result (λ name. name.items ≡ spec.usual_name word.now) }
{
    let places = other_places(alloc, without_dead(word))?;
    if let [place] = places.as_slice() {
        let mut name = ArrayVec::new();
        name.try_extend_from_slice(other_name(*place)).unwrap();
        return Ok(name);
    }
    let function = numbered(word, b"f", b"fkey");
    if function.is_empty() {
        Ok(numbered(word, b"console_", b"scr"))
    } else {
        Ok(function)
    }
}

/// What a name means, or a quoted blank.
fn name_meaning(name: &[u8]) -> Meaning
    requires { length name.now ≤ 32 }
    ensures { result ≡ spec.name_meaning name.now }
{
    if !name.is_empty() && name[0] == b'\'' {
        Meaning::Char(' ')
    } else {
        word_meaning(name)
    }
}

/// The name that is meant by a word where this is wanted, or by it and what is joined to it by low lines; it is empty
/// where there is none.
#[tactic(auto, unfolding(crate::specs::Near::meant_name))]
pub(crate) fn meant_name(
    alloc: Global,
    word: &[u8],
    joined: &[u8],
    wanted: Wanted,
) -> Result<Name, AllocError>
    ensures { IfOk result (λ name. name.items ≡ spec.meant_name word.now joined.now wanted) }
{
    let usual = usual_name(alloc, joined)?;
    if may_stand(wanted, &name_meaning(usual.as_slice())) {
        return Ok(usual);
    }
    let near = near_names(alloc, word, wanted)?;
    match near.as_slice() {
        [number] => Ok(known_name(*number)),
        _ => Ok(ArrayVec::new()),
    }
}
