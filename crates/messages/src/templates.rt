//! Words with places for what is told, and the texts that are put there.
ghost use Rattle.std.specs.Prelude.{◌≡◌, ◌+◌, ◌<◌, ◌≤◌, ◌++◌, IsTrue, decimal, length, map, position, OnOk, IfOk};
ghost use Rattle.std.specs.Prelude.{IfSome, if◌then◌else◌};
ghost use Rattle.arrayvec.specs.ArrayVec.{array_vec_len};
ghost use Rattle.messages.specs.Filled as spec;

use arrayvec::ArrayVec;
use itoa::Buffer;
use std::alloc::{AllocError, Global};

/// Where a place begins, which is written `{}`.
fn hole(words: &[u8]) -> Option<usize>
    ensures place { result ≡ position spec.is_hole words.now }
    ensures bound { IfSome result (λ i. i < length words.now) }
{
    words.iter().position(|c| *c == b'{')
}

/// The words before the first place, and those behind it.
pub fn parted(words: &[u8]) -> (&[u8], &[u8])
    ensures before { result.0.now ≡ spec.words_before words.now }
    ensures behind { result.1.now ≡ spec.words_behind words.now }
{
    match hole(words) {
        Some(place) if place + 2 <= words.len() => (&words[..place], &words[place + 2..]),
        Some(place) => (&words[..place], &[]),
        None => (words, &[]),
    }
}

/// Adds words with a text at each of their places, which are as many.
#[tactic(auto, unfolding(crate::specs::Filled::filled))]
pub fn fill(text: &mut Vec<u8>, words: &[u8], told: &[&[u8]]) -> Result<(), AllocError>
    requires { IsTrue (spec.has_places words.now (map (λ t. t.now) told.now)) }
    ensures { OnOk result (text.new.items
        ≡ text.old.items ++ spec.filled words.now (map (λ t. t.now) told.now)) }
{
    match told {
        [] => text.extend_from_slice(words),
        [first, rest @ ..] => {
            let (before, behind) = parted(words);
            text.extend_from_slice(before)?;
            text.extend_from_slice(first)?;
            fill(text, behind, rest)
        }
    }
}

/// Words with a text at each of their places. Mostly they are no longer than a line.
pub fn filled(alloc: Global, words: &[u8], told: &[&[u8]]) -> Result<Vec<u8>, AllocError>
    requires { IsTrue (spec.has_places words.now (map (λ t. t.now) told.now)) }
    ensures { IfOk result (λ text. text.items ≡ spec.filled words.now (map (λ t. t.now) told.now)) }
{
    let mut text = Vec::with_capacity(alloc, LINE)?;
    fill(&mut text, words, told)?;
    Ok(text)
}

/// A line of a fixed capacity, which takes no memory.
pub type Line = ArrayVec<u8, LINE>;

/// How many bytes such a line has at most, its end included.
pub const LINE: usize = 96;

fn put(line: &mut Line, text: &[u8])
    requires { array_vec_len line.old + length text.now ≤ LINE }
    ensures { line.new.items ≡ line.old.items ++ text.now }
{
    let _ = line.try_extend_from_slice(text);
}

/// Adds the words before the first place and a text to a line that has room for them, and tells the words behind it.
pub fn fill_next<'a>(line: &mut Line, words: &'a [u8], text: &[u8]) -> &'a [u8]
    requires { array_vec_len line.old + length (spec.words_before words.now) + length text.now ≤ LINE }
    ensures line { line.new.items ≡ (line.old.items ++ spec.words_before words.now) ++ text.now }
    ensures behind { result.now ≡ spec.words_behind words.now }
{
    let (before, behind) = parted(words);
    put(line, before);
    put(line, text);
    behind
}

/// Adds words with a text at each of their places to a line that has room for them.
fn fill_line(line: &mut Line, words: &[u8], told: &[&[u8]])
    requires places { IsTrue (spec.has_places words.now (map (λ t. t.now) told.now)) }
    requires room { spec.HasRoom (array_vec_len line.old) words.now (map (λ t. t.now) told.now) }
    ensures { line.new.items ≡ line.old.items ++ spec.filled words.now (map (λ t. t.now) told.now) }
{
    let mut rest = words;
    for text in told {
        rest = fill_next(line, rest, text);
    }
    put(line, rest);
}

/// A line of words with a text at each of their places.
pub fn line(words: &[u8], told: &[&[u8]]) -> Line
    requires places { IsTrue (spec.has_places words.now (map (λ t. t.now) told.now)) }
    requires room { spec.HasRoom 0 words.now (map (λ t. t.now) told.now) }
    ensures { result.items ≡ spec.filled words.now (map (λ t. t.now) told.now) }
{
    let mut line = ArrayVec::new();
    fill_line(&mut line, words, told);
    line
}

/// The first or the second of two texts.
pub fn either<'a>(is_first: bool, first: &'a [u8], second: &'a [u8]) -> &'a [u8]
    ensures { result.now ≡ (if is_first then first.now else second.now) }
{
    if is_first { first } else { second }
}

/// A number in decimal digits.
pub fn number(n: u64) -> ArrayVec<u8, 20>
    ensures { result.items ≡ decimal n }
{
    let mut digits = Buffer::new();
    let mut text = ArrayVec::new();
    let _ = text.try_extend_from_slice(digits.format(n).as_bytes());
    text
}

/// A number below 256 in decimal digits.
pub fn small(byte: u8) -> ArrayVec<u8, 3>
    ensures { result.items ≡ decimal byte }
{
    let mut digits = Buffer::new();
    let mut text = ArrayVec::new();
    let _ = text.try_extend_from_slice(digits.format(byte).as_bytes());
    text
}
