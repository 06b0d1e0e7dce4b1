//! Directives: comments that keep warnings back, `# kmap: ignore KIND ..` those of a definition and
//! `# kmap: ignore-text KIND ..` those of the text. Here is where they stand and what they say.
ghost use Rattle.std.specs.Prelude.{◌≡◌, ◌+◌, ◌^◌, ◌-◌, ◌≤◌, ◌<◌, ◌++◌, IfOk, IfSome, OnOk, count_by, drop, find};
ghost use Rattle.std.specs.Prelude.{length};
ghost use Rattle.std.specs.Prelude.{false, nat_lt, not, option_copied, reverse, take};
ghost use Rattle.std.specs.List.{flat_map, position};
ghost use Rattle.std.specs.Option.{option_to_list};
ghost use Rattle.std.specs.Str.{bytes_eq};
ghost use Rattle.keymap_core.specs.Below.{first_below, gathered};
ghost use Rattle.keymap_lint.specs.Directives as spec;

use crate::diagnostic::{Added, add};
use crate::spelled::{SpelledText, bytes_at};
use bstr::ByteSlice;
use keymap_text::{Span, is_space_byte, line_end, space_len};
use std::alloc::{AllocError, Global};

/// What a directive is for: the text, or the definition with this number, counted from 1.
#[derive(Clone, Copy, PartialEq, Eq)]
pub(crate) enum Scope {
    Text,
    Definition(usize),
}

/// Where a `#` stands: behind a token of its line, with spaces alone before it in its line, or within a token or a
/// comment.
#[derive(Clone, Copy)]
pub(crate) enum Standing {
    Beside,
    Alone,
    Within,
}

/// A directive: the place of its `#`, what it is for, if one of the two words says so, and where its kinds stand.
#[derive(Clone, Copy)]
pub(crate) struct Directive {
    pub(crate) place: usize,
    pub(crate) scope: Option<Scope>,
    pub(crate) kinds: Span,
}

/// A word of a directive that is to be a kind.
#[derive(Clone, Copy)]
pub(crate) struct Ignored {
    pub(crate) scope: Scope,
    pub(crate) word: Span,
}

pub(crate) fn is_between(c: u8) -> bool
    ensures { result ≡ spec.is_between c }
{
    is_space_byte(c) || c == b','
}

fn first_between(bytes: &[u8]) -> Option<usize>
    ensures place { result ≡ position spec.is_between bytes.now }
    ensures bound { IfSome result (λ n. n < length bytes.now) }
{
    bytes.iter().position(|c| is_between(*c))
}

/// How many bytes the word has that stands first.
fn word_length(bytes: &[u8]) -> usize
    ensures value { result ≡ spec.word_length bytes.now }
    ensures bound { result ≤ length bytes.now }
{
    first_between(bytes).unwrap_or(bytes.len())
}

/// The bytes without the spaces at their end.
fn trim(bytes: &[u8]) -> &[u8]
    ensures value { result.now ≡ spec.trimmed bytes.now }
    ensures bound { length result.now ≤ length bytes.now }
{
    let mut end = bytes.len();
    while end > 0 && is_space_byte(bytes[end - 1]) {
        end -= 1;
    }
    &bytes[..end]
}

/// How many bytes a comment has up to what it says behind `kmap:`, if it begins so.
fn said_from(comment: &[u8]) -> Option<usize>
    ensures value { result ≡ spec.said_from comment.now }
    ensures bound { IfSome result (λ n. n ≤ length comment.now) }
{
    if comment.is_empty() || comment[0] != b'#' {
        return None;
    }
    let lead = 1 + space_len(&comment[1..]);
    if comment[lead..].starts_with(b"kmap:") {
        Some(lead + 5)
    } else {
        None
    }
}

fn is_dashes(bytes: &[u8], k: usize) -> bool
    requires { k < length bytes.now }
    ensures { result ≡ spec.is_dashes bytes.now k }
{
    bytes[k] == b'-' && k + 1 < bytes.len() && bytes[k + 1] == b'-'
}

fn first_dashes(bytes: &[u8]) -> Option<usize>
    ensures value { result ≡ first_below (spec.is_dashes bytes.now) (length bytes.now) }
    ensures bound { IfSome result (λ k. k < length bytes.now) }
{
    (0..bytes.len()).find(|k| is_dashes(bytes, *k))
}

/// The bytes before two hyphens.
#[tactic(auto, unfolding(crate::specs::Directives::before_dashes))]
fn before_dashes(bytes: &[u8]) -> &[u8]
    ensures { result.now ≡ spec.before_dashes bytes.now }
{
    match first_dashes(bytes) {
        Some(k) => &bytes[..k],
        None => bytes,
    }
}

/// Whether a word is this one.
pub(crate) fn is(word: &[u8], name: &[u8]) -> bool
    ensures { result ≡ bytes_eq word.now name.now }
{
    word == name
}

/// Whether the word is for the whole text, if it is one of the two.
fn is_for_text(word: &[u8]) -> Option<bool>
    ensures { result ≡ spec.is_for_text word.now }
{
    if is(word, b"ignore") {
        Some(false)
    } else if is(word, b"ignore-text") {
        Some(true)
    } else {
        None
    }
}

/// How many tokens begin before a place.
fn tokens_before(spans: &[Span], place: usize) -> usize
    ensures value { result ≡ spec.tokens_before spans.now place }
    ensures bound { result ≤ length spans.now }
{
    spans.iter().filter(|span| span.start < place).count()
}

/// Where the last of so many tokens ends.
fn end_before(spans: &[Span], n: usize) -> usize
    requires { n ≤ length spans.now }
    ensures { result ≡ spec.end_before spans.now n }
{
    if n == 0 { 0 } else { spans[n - 1].end }
}

/// The last byte that is no space.
fn last_other(bytes: &[u8]) -> Option<&u8>
    ensures { option_copied result ≡ spec.last_other bytes.now }
{
    bytes.iter().rev().find(|c| !is_space_byte(**c))
}

/// Where the `#` at a place stands.
#[tactic(auto, unfolding(crate::specs::Directives::stands_at))]
fn stands_at(bytes: &[u8], text: &SpelledText, place: usize) -> Standing
    requires { place ≤ length bytes.now }
    ensures { result ≡ spec.stands_at bytes.now text.now place }
{
    let n = tokens_before(text.spans(), place);
    let from = end_before(text.spans(), n);
    if place < from {
        return Standing::Within;
    }
    match last_other(&bytes[from..place]) {
        None => {
            if n == 0 {
                Standing::Alone
            } else {
                Standing::Beside
            }
        }
        Some(c) => {
            if *c == b'\n' {
                Standing::Alone
            } else {
                Standing::Within
            }
        }
    }
}

/// The number of the definition that a place is in, counted from 1.
pub(crate) fn definition_at(text: &SpelledText, place: usize) -> usize
    ensures { result ≡ spec.definition_at text.now place }
{
    text.definitions()
        .iter()
        .filter(|definition| text.offset(definition.first) <= place)
        .count()
}

/// The number of the definition that a directive is for.
fn target(text: &SpelledText, place: usize, stands: Standing) -> usize
    ensures { result ≡ spec.target text.now place stands }
{
    match stands {
        Standing::Beside => definition_at(text, place),
        _ => {
            let n = tokens_before(text.spans(), place);
            if n < text.spans().len() {
                definition_at(text, text.offset(n))
            } else {
                0
            }
        }
    }
}

fn scope_by(text: &SpelledText, place: usize, stands: Standing, word: &[u8]) -> Option<Scope>
    ensures { result ≡ spec.scope_by text.now place stands (spec.is_for_text word.now) }
{
    match is_for_text(word) {
        None => None,
        Some(true) => Some(Scope::Text),
        Some(false) => Some(Scope::Definition(target(text, place, stands))),
    }
}

/// The directive with its `#` at a place, where this is said from another place on.
fn directive_by(
    text: &SpelledText,
    place: usize,
    stands: Standing,
    from: usize,
    said: &[u8],
) -> Option<Directive>
    requires { from + length said.now < 2 ^ 64 }
    ensures { result ≡ spec.directive_by text.now place stands from said.now }
{
    if let Standing::Within = stands {
        return None;
    }
    let start = space_len(said);
    let verb = word_length(&said[start..]);
    Some(Directive {
        place,
        scope: scope_by(text, place, stands, &said[start..start + verb]),
        kinds: Span {
            start: from + (start + verb),
            end: from + said.len(),
        },
    })
}

/// The directive with its `#` at a place, if one stands there.
#[tactic(auto, unfolding(crate::specs::Directives::directive_at))]
fn directive_at(bytes: &[u8], text: &SpelledText, place: usize) -> Option<Directive>
    requires { place < length bytes.now }
    ensures { option_to_list result ≡ spec.directive_at bytes.now text.now place }
{
    if bytes[place] != b'#' {
        return None;
    }
    let comment = trim(&bytes[place..line_end(bytes, place)]);
    let from = said_from(comment)?;
    let said = before_dashes(&comment[from..]);
    directive_by(
        text,
        place,
        stands_at(bytes, text, place),
        place + from,
        said,
    )
}

/// Whether `kmap:` stands in the text.
fn has_mark(bytes: &[u8]) -> bool
    ensures { result ≡ false → spec.HasNoMark bytes.now }
{
    match bytes.find(b"kmap:") {
        Some(_) => true,
        None => false,
    }
}

/// The directives of a text in their order.
#[tactic(auto, using(crate::proofs::Lists::gathered_rules, crate::proofs::Told::no_directives))]
pub(crate) fn directives(
    alloc: Global,
    bytes: &[u8],
    text: &SpelledText,
) -> Result<Vec<Directive>, AllocError>
    ensures { IfOk result (λ found. found.items ≡ spec.directives bytes.now text.now) }
{
    let mut found = Vec::new(alloc);
    if !has_mark(bytes) {
        return Ok(found);
    }
    for place in 0..bytes.len() {
        add(&mut found, directive_at(bytes, text, place))?;
    }
    Ok(found)
}

/// The word that begins so far behind a place, if one does: the bytes stand from the place on.
fn word_at(bytes: &[u8], scope: Scope, start: usize, k: usize) -> Option<Ignored>
    requires inside { k < length bytes.now }
    requires fits { start + length bytes.now < 2 ^ 64 }
    ensures { option_to_list result ≡ spec.word_at bytes.now scope start k }
{
    if is_between(bytes[k]) || !is_between(bytes[k.saturating_sub(1)]) {
        return None;
    }
    Some(Ignored {
        scope,
        word: Span {
            start: start + k,
            end: start + k + word_length(&bytes[k..]),
        },
    })
}

/// Adds the words of some bytes that stand from a place on.
#[tactic(auto, using(crate::proofs::Lists::gathered_rules))]
fn add_words_in(words: &mut Vec<Ignored>, bytes: &[u8], scope: Scope, start: usize) -> Added
    requires { start + length bytes.now < 2 ^ 64 }
    ensures { OnOk result (words.new.items ≡ words.old.items ++ spec.words_in bytes.now scope start) }
{
    for k in 0..bytes.len() {
        add(words, word_at(bytes, scope, start, k))?;
    }
    Ok(())
}

/// Adds the words of a directive.
#[tactic(auto, unfolding(crate::specs::Directives::words_of))]
fn add_words(words: &mut Vec<Ignored>, text: &[u8], directive: &Directive) -> Added
    ensures { OnOk result (words.new.items ≡ words.old.items ++ spec.words_of text.now directive.now) }
{
    match directive.scope {
        None => Ok(()),
        Some(scope) => {
            let kinds = bytes_at(text, directive.kinds);
            add_words_in(words, kinds, scope, directive.kinds.start)
        }
    }
}

/// The words of directives in their order.
pub(crate) fn words(
    alloc: Global,
    text: &[u8],
    directives: &[Directive],
) -> Result<Vec<Ignored>, AllocError>
    ensures { IfOk result (λ words. words.items ≡ flat_map (spec.words_of text.now) directives.now) }
{
    let mut words = Vec::new(alloc);
    for directive in directives {
        add_words(&mut words, text, directive)?;
    }
    Ok(words)
}
