//! The lines of the text with the colours of a terminal: without them the bytes are those of the plain lines.
ghost use Rattle.std.specs.Prelude.{◌≤◌, length};

use keymap_lint::Severity;
use keymap_lint_text::{Remark, Said, push_remark};
use keymap_names::shown_name;
use keymap_places::TextLines;
use std::alloc::{AllocError, Global};

/// What begins the colour of the place, of each word behind it and of the caret, and what ends each.
const PLACE: &[u8] = b"\x1b[1m";

const ERROR: &[u8] = b"\x1b[1;31m";

const WARNING: &[u8] = b"\x1b[1;35m";

const NOTE: &[u8] = b"\x1b[1;36m";

const CARET: &[u8] = b"\x1b[1;32m";

const PLAIN: &[u8] = b"\x1b[0m";

/// The colour of what is said, up to its colon.
fn colour_of(said: &Said) -> &'static [u8] {
    match said {
        Said::Judged {
            severity: Severity::Error,
            ..
        } => ERROR,
        Said::Judged { .. } => WARNING,
        Said::Noted { .. } => NOTE,
    }
}

/// Where a byte stands at this place or behind it; the end where none does.
fn place_from(bytes: &[u8], from: usize, byte: u8) -> usize
    ensures { result ≤ length bytes.now }
{
    let rest = bytes.get(from..).unwrap_or(b"");
    match rest.iter().position(|c| *c == byte) {
        Some(place) => bytes.len().min(from.saturating_add(place)),
        None => bytes.len(),
    }
}

/// Adds bytes in a colour.
fn push_in(text: &mut Vec<u8>, colour: &[u8], bytes: &[u8]) -> Result<(), AllocError> {
    text.extend_from_slice(colour)?;
    text.extend_from_slice(bytes)?;
    text.extend_from_slice(PLAIN)
}

/// Adds the lines of a remark, which have a name of so many bytes in front: up to the blank behind the place, up to the
/// colon behind the severity, up to the caret, if there is one, and the rest.
fn push_coloured(
    text: &mut Vec<u8>,
    lines: &[u8],
    name: usize,
    remark: &Remark,
) -> Result<(), AllocError> {
    let blank = place_from(lines, name, b' ');
    let (place, rest) = lines.split_at(blank);
    push_in(text, PLACE, place)?;
    let colon = place_from(rest, 0, b':');
    let behind = rest.len().min(colon.saturating_add(1));
    let (word, rest) = rest.split_at(behind);
    let (blank, word) = word.split_at(word.len().min(1));
    text.extend_from_slice(blank)?;
    push_in(text, colour_of(&remark.said), word)?;
    match rest.strip_suffix(b"^\n") {
        Some(front) if remark.place.is_some() => {
            text.extend_from_slice(front)?;
            push_in(text, CARET, b"^")?;
            text.push(b'\n')?;
            Ok(())
        }
        _ => text.extend_from_slice(rest),
    }
}

/// The lines of the remarks on a text.
pub(crate) fn coloured_rows(
    alloc: Global,
    file: &[u8],
    source: &[u8],
    remarks: &[Remark],
) -> Result<Vec<u8>, AllocError> {
    let name = shown_name(alloc, file)?;
    let lines = TextLines::new(alloc, source)?;
    let mut text = Vec::new(alloc);
    for remark in remarks {
        let mut plain = Vec::new(alloc);
        push_remark(alloc, &mut plain, name.as_slice(), &lines, remark)?;
        push_coloured(&mut text, plain.as_slice(), name.len(), remark)?;
    }
    Ok(text)
}
