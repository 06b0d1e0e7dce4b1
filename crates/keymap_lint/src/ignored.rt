//! What directives keep back, and what is said of them.
ghost use Rattle.std.specs.Prelude.{◌≡◌, ◌==◌, ◌++◌, ◌<◌, IfOk, OnOk, length, map, not};
ghost use Rattle.std.specs.List.{filter, flat_map, list_any, position};
ghost use Rattle.std.specs.Option.{option_to_list};
ghost use Rattle.keymap_lint.specs.Directives as spec;
ghost use Rattle.keymap_lint.specs.KindNames as names;
ghost use Rattle.keymap_lint.specs.Kinds.{at as at_place, is_the as is_the_of};
ghost use Rattle.keymap_lint.specs.declared.diagnostic.Kind.TheVariants as kinds;

use crate::diagnostic::{Added, BadIgnore, Diagnostic, Found, Kind, add};
use crate::directives::{
    Directive, Ignored, Scope, definition_at, directives, is, is_between, words,
};
use crate::spelled::{SpelledText, bytes_at};
use keymap_text::Span;
use std::alloc::{AllocError, Global};

/// A kind of what is said of letters, digits and punctuation.
#[tactic(auto, unfolding(crate::specs::KindNames::is_of_letters))]
fn is_of_letters(word: &[u8]) -> bool
    ensures { result ≡ names.is_of_letters word.now }
{
    is(word, b"cannot-type")
        || is(word, b"gap")
        || is(word, b"exchanged")
        || is(word, b"twice")
        || is(word, b"no-control")
        || is(word, b"no-caps")
        || is(word, b"octal-like")
}

/// A kind of what is said of definitions.
#[tactic(auto, unfolding(crate::specs::KindNames::is_of_definitions))]
fn is_of_definitions(word: &[u8]) -> bool
    ensures { result ≡ names.is_of_definitions word.now }
{
    is(word, b"no-shift")
        || is(word, b"mixed-key")
        || is(word, b"half-defined")
        || is(word, b"defined-again")
        || is(word, b"dead-key")
        || is(word, b"zero-accent")
        || is(word, b"pair-again")
        || is(word, b"unused-half")
        || is(word, b"bare-digit")
}

/// A kind of which some diagnostics are warnings.
fn may_be_ignored(word: &[u8]) -> bool
    ensures { result ≡ names.may_be_ignored word.now }
{
    is_of_letters(word) || is_of_definitions(word)
}

/// A kind of the others.
#[tactic(auto, unfolding(crate::specs::KindNames::is_never_ignored))]
fn is_never_ignored(word: &[u8]) -> bool
    ensures { result ≡ names.is_never_ignored word.now }
{
    is(word, b"BadByte")
        || is(word, b"BadLiteral")
        || is(word, b"BadWord")
        || is(word, b"Unexpected")
        || is(word, b"KeyTooLarge")
        || is(word, b"BadChar")
        || is(word, b"BadFunction")
        || is(word, b"TooManyPairs")
        || is(word, b"ZeroBase")
        || is(word, b"Combined")
        || is(word, b"EndInside")
        || is(word, b"no-key")
        || is(word, b"unused-ignore")
        || is(word, b"bad-ignore")
}

fn is_the(number: usize, one: Option<usize>) -> bool
    ensures { result ≡ is_the_of number one }
{
    match one {
        Some(n) => n == number,
        None => false,
    }
}

/// Whether a directive is for the definition that a diagnostic is in.
fn is_within(scope: Scope, definition: Option<usize>) -> bool
    ensures { result ≡ spec.is_within scope definition }
{
    match scope {
        Scope::Text => true,
        Scope::Definition(number) => is_the(number, definition),
    }
}

/// Whether a word keeps a diagnostic of this kind back.
#[tactic(auto, unfolding(crate::specs::Directives::keeps))]
fn keeps(
    bytes: &[u8],
    never: bool,
    definition: Option<usize>,
    kind: &Kind,
    ignored: &Ignored,
) -> bool
    ensures { result ≡ spec.keeps bytes.now never definition kind.now ignored.now }
{
    !kind.severity(never).is_error()
        && is_within(ignored.scope, definition)
        && is(bytes_at(bytes, ignored.word), kind.name())
}

/// The number of the first word that keeps a diagnostic of this kind back.
fn first_keeper(
    bytes: &[u8],
    never: bool,
    definition: Option<usize>,
    kind: &Kind,
    words: &[Ignored],
) -> Option<usize>
    ensures { result ≡ position (spec.keeps bytes.now never definition kind.now) words.now }
{
    words
        .iter()
        .position(|ignored| keeps(bytes, never, definition, kind, ignored))
}

/// The definition that a diagnostic is in.
fn definition_of(text: &SpelledText, diagnostic: &Diagnostic) -> Option<usize>
    ensures { result ≡ spec.definition_of text.now diagnostic.now }
{
    match diagnostic.place {
        Some(place) => Some(definition_at(text, place)),
        None => None,
    }
}

fn keeper(
    bytes: &[u8],
    text: &SpelledText,
    never: bool,
    words: &[Ignored],
    diagnostic: &Diagnostic,
) -> Option<usize>
    ensures { result ≡ spec.keeper bytes.now text.now never words.now diagnostic.now }
{
    if words.is_empty() {
        return None;
    }
    let definition = definition_of(text, diagnostic);
    first_keeper(bytes, never, definition, &diagnostic.kind, words)
}

/// What no directive keeps back.
fn told_of(
    alloc: Global,
    bytes: &[u8],
    text: &SpelledText,
    never: bool,
    words: &[Ignored],
    said: &[Diagnostic],
) -> Result<Found, AllocError>
    ensures { IfOk result (λ told. told.items
        ≡ filter (spec.is_told bytes.now text.now never words.now) said.now) }
{
    said.iter()
        .copied()
        .filter(|diagnostic| keeper(bytes, text, never, words, diagnostic).is_none())
        .collect(alloc)
}

/// The words that keep back what is said, by their numbers.
fn keepers(
    alloc: Global,
    bytes: &[u8],
    text: &SpelledText,
    never: bool,
    words: &[Ignored],
    said: &[Diagnostic],
) -> Result<Vec<Option<usize>>, AllocError>
    ensures { IfOk result (λ keepers. keepers.items
        ≡ map (spec.keeper bytes.now text.now never words.now) said.now) }
{
    said.iter()
        .map(|diagnostic| keeper(bytes, text, never, words, diagnostic))
        .collect(alloc)
}

/// Whether a word stands among these bytes.
fn has_word(bytes: &[u8]) -> bool
    ensures { result ≡ list_any (λ c. not (spec.is_between c)) bytes.now }
{
    bytes.iter().any(|c| !is_between(*c))
}

fn at(place: usize, wrong: BadIgnore) -> Diagnostic
    ensures { result ≡ at_place place (kinds.BadIgnore wrong) }
{
    Diagnostic {
        place: Some(place),
        kind: Kind::BadIgnore { wrong },
    }
}

/// What is said of a directive that is wrong, where its kinds are these bytes.
fn wrong_by(kinds: &[u8], place: usize, scope: Option<Scope>) -> Option<Diagnostic>
    ensures { result ≡ spec.wrong_by kinds.now place scope }
{
    match scope {
        None => Some(at(place, BadIgnore::NoWord)),
        Some(_) => {
            if has_word(kinds) {
                None
            } else {
                Some(at(place, BadIgnore::NoKinds))
            }
        }
    }
}

fn wrong(text: &[u8], directive: &Directive) -> Option<Diagnostic>
    ensures { option_to_list result ≡ spec.wrong text.now directive.now }
{
    let kinds = bytes_at(text, directive.kinds);
    wrong_by(kinds, directive.place, directive.scope)
}

fn add_wrong(found: &mut Found, text: &[u8], directives: &[Directive]) -> Added
    ensures { OnOk result (found.new.items ≡ found.old.items ++ flat_map (spec.wrong text.now) directives.now) }
{
    for directive in directives {
        add(found, wrong(text, directive))?;
    }
    Ok(())
}

/// What is said of a word with these bytes.
fn of_word(word: Span, bytes: &[u8], is_used: bool) -> Option<Diagnostic>
    ensures { result ≡ spec.of_word word bytes.now is_used }
{
    if may_be_ignored(bytes) {
        if is_used {
            None
        } else {
            Some(Diagnostic {
                place: Some(word.start),
                kind: Kind::UnusedIgnore { word },
            })
        }
    } else if is_never_ignored(bytes) {
        Some(at(word.start, BadIgnore::NotIgnored(word)))
    } else {
        Some(at(word.start, BadIgnore::NoKind(word)))
    }
}

/// Whether the word with this number keeps something back.
fn is_used(keepers: &[Option<usize>], number: usize) -> bool
    ensures { result ≡ list_any (is_the_of number) keepers.now }
{
    keepers.iter().any(|one| is_the(number, *one))
}

/// What is said of the word with this number.
fn of_number(
    text: &[u8],
    words: &[Ignored],
    keepers: &[Option<usize>],
    number: usize,
) -> Option<Diagnostic>
    requires { number < length words.now }
    ensures { option_to_list result ≡ spec.of_number text.now words.now keepers.now number }
{
    let word = words[number].word;
    of_word(word, bytes_at(text, word), is_used(keepers, number))
}

#[tactic(auto, using(crate::proofs::Lists::gathered_rules))]
fn add_of_words(
    found: &mut Found,
    text: &[u8],
    words: &[Ignored],
    keepers: &[Option<usize>],
) -> Added
    ensures { OnOk result (found.new.items ≡ found.old.items ++ spec.of_words text.now words.now keepers.now) }
{
    for number in 0..words.len() {
        add(found, of_number(text, words, keepers, number))?;
    }
    Ok(())
}

/// What is told of a text of which this would be said without directives.
pub(crate) fn directed(
    alloc: Global,
    text: &SpelledText,
    never: bool,
    said: &[Diagnostic],
) -> Result<Found, AllocError>
    ensures { IfOk result (λ told. told.items ≡ spec.told text.now.text text.now never said.now) }
{
    let bytes = text.text();
    let directives = directives(alloc, bytes, text)?;
    let words = words(alloc, bytes, &directives)?;
    let keepers = keepers(alloc, bytes, text, never, &words, said)?;
    let mut told = told_of(alloc, bytes, text, never, &words, said)?;
    add_wrong(&mut told, bytes, &directives)?;
    add_of_words(&mut told, bytes, &words, &keepers)?;
    Ok(told)
}
