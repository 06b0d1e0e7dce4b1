//! The line of a place in a text, and the caret below it, as a diagnostic shows them.
ghost use Rattle.std.specs.Prelude.{◌≡◌, ◌++◌, ◌-◌, [], drop, length, map, nat_lt, take, if◌then◌else◌, IfOk, OnOk};
ghost use Rattle.keymap_lint_text.specs.Excerpt as spec;
ghost use Rattle.keymap_names.specs.Shown.{ended, lines_text, shown_chars, shown_name as shown_name_of};

use crate::near::behind;
use keymap_names::{all_chars, push_characters, shown_name};
use std::alloc::{AllocError, Global};

/// How many bytes of a line are shown at most before the place, and as many from it on.
const SIDE: usize = 120;

/// The bytes without the CR that they may end with.
fn without_cr(bytes: &[u8]) -> &[u8]
    ensures { result.now ≡ spec.without_cr bytes.now }
{
    if bytes.is_empty() || bytes[bytes.len() - 1] != b'\r' {
        return bytes;
    }
    &bytes[..bytes.len() - 1]
}

/// The bytes of a line before a place that are shown: those that don't end the line.
fn shown_before<'a>(before: &'a [u8], rest: &[u8]) -> &'a [u8]
    ensures { result.now ≡ spec.shown_before before.now rest.now }
{
    if rest.is_empty() {
        without_cr(before)
    } else {
        before
    }
}

/// Adds what stands for so many bytes that are left out, if some are.
fn push_skipped(text: &mut Vec<u8>, skipped: usize, mark: &[u8]) -> Result<(), AllocError>
    ensures { OnOk result (text.new.items ≡ text.old.items ++ (if nat_lt 0 skipped then mark.now else [])) }
{
    if 0 < skipped {
        text.extend_from_slice(mark)
    } else {
        Ok(())
    }
}

/// What stands below a character: a tab below a tab, and else a blank.
fn below(c: char) -> u8
    ensures { result ≡ spec.below c }
{
    if c == '\t' { b'\t' } else { b' ' }
}

fn push_below(text: &mut Vec<u8>, characters: &[char]) -> Result<(), AllocError>
    ensures { OnOk result (text.new.items ≡ text.old.items ++ map spec.below characters.now) }
{
    for c in characters {
        text.push(below(*c))?;
    }
    Ok(())
}

/// How many of the bytes are more than are shown.
fn left_out(bytes: &[u8]) -> usize
    ensures { result ≡ length bytes.now - spec.side }
{
    bytes.len().saturating_sub(SIDE)
}

/// The first bytes that are shown.
fn near(rest: &[u8]) -> &[u8]
    ensures { result.now ≡ take spec.side rest.now }
{
    if rest.len() < SIDE {
        rest
    } else {
        &rest[..SIDE]
    }
}

/// What is shown of the bytes from the place on.
fn shown_behind(alloc: Global, rest: &[u8]) -> Result<Vec<u8>, AllocError>
    ensures { IfOk result (λ text. text.items ≡ shown_name_of (take spec.side rest.now)) }
{
    shown_name(alloc, near(rest))
}

/// The characters that are shown of the bytes before the place.
fn chars_before(alloc: Global, bytes: &[u8]) -> Result<Vec<char>, AllocError>
    ensures { IfOk result (λ cs. cs.items ≡ shown_chars (drop (length bytes.now - spec.side) bytes.now)) }
{
    all_chars(alloc, behind(bytes, left_out(bytes)))
}

/// Adds the line of these characters and the bytes behind them, where so many bytes before them are left out.
fn push_line(
    alloc: Global,
    text: &mut Vec<u8>,
    left: usize,
    characters: &[char],
    rest: &[u8],
) -> Result<(), AllocError>
    ensures { OnOk result (text.new.items
        ≡ text.old.items ++ ended (spec.shown_line left characters.now rest.now)) }
{
    let shown = shown_behind(alloc, rest)?;
    text.extend_from_slice(b"  ")?;
    push_skipped(text, left, b"..")?;
    push_characters(text, characters)?;
    text.extend_from_slice(shown.as_slice())?;
    push_skipped(text, left_out(rest), b"..")?;
    text.extend_from_slice(b"\n")
}

/// Adds the caret below the place, where these characters stand before it.
fn push_caret(text: &mut Vec<u8>, left: usize, characters: &[char]) -> Result<(), AllocError>
    ensures { OnOk result (text.new.items ≡ text.old.items ++ ended (spec.caret_line left characters.now)) }
{
    text.extend_from_slice(b"  ")?;
    push_skipped(text, left, b"  ")?;
    push_below(text, characters)?;
    text.extend_from_slice(b"^\n")
}

/// Adds both lines.
fn push_lines(
    alloc: Global,
    text: &mut Vec<u8>,
    left: usize,
    characters: &[char],
    rest: &[u8],
) -> Result<(), AllocError>
    ensures { OnOk result (text.new.items
        ≡ text.old.items ++ lines_text (spec.lines_of left characters.now rest.now)) }
{
    push_line(alloc, text, left, characters, rest)?;
    push_caret(text, left, characters)
}

/// Adds both lines, by the bytes before the place and those from it on that don't end the line.
fn push_shown(
    alloc: Global,
    text: &mut Vec<u8>,
    bytes: &[u8],
    rest: &[u8],
) -> Result<(), AllocError>
    ensures { OnOk result (text.new.items ≡ text.old.items ++ lines_text (spec.excerpt_of bytes.now rest.now)) }
{
    let characters = chars_before(alloc, bytes)?;
    push_lines(alloc, text, left_out(bytes), characters.as_slice(), rest)
}

/// Adds the line of a place as it is shown, by its bytes before the place and those from it on, and below it a caret
/// that points at the place. It costs as much as it adds, however long the line is.
#[tactic(auto, unfolding(crate::specs::Excerpt::excerpt))]
pub(crate) fn push_excerpt(
    alloc: Global,
    text: &mut Vec<u8>,
    before: &[u8],
    rest: &[u8],
) -> Result<(), AllocError>
    ensures { OnOk result (text.new.items ≡ text.old.items ++ lines_text (spec.excerpt before.now rest.now)) }
{
    push_shown(alloc, text, shown_before(before, rest), without_cr(rest))
}
