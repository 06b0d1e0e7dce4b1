//! What is printed at a place: its line with the file, the place, the severity, the message and the kind, the line of
//! the text, and the caret.
ghost use Rattle.std.specs.Prelude.{◌≡◌, ◌∷◌, ◌++◌, IfOk, OnOk};
ghost use Rattle.keymap_lint_text.specs.Heads as spec;
ghost use Rattle.keymap_lint_text.specs.Told.{place_or_beginning, remark_of, remarks_of, said_of};
ghost use Rattle.keymap_names.specs.Shown.{lines_text};
ghost use Rattle.keymap_places.specs.LineOf.{before_in_line, rest_of_line};
ghost use Rattle.keymap_text.specs.Meaning.{line};

use crate::excerpt::push_excerpt;
use crate::remark::{Remark, Said};
use crate::said::severity_text;
use crate::words::{AT_NO_PLACE, AT_PLACE, DIAGNOSTIC, NOTE};
use keymap_places::{TextLine, TextLines};
use messages::{fill, filled, number};
use std::alloc::{AllocError, Global};

/// The line of a place, behind the end of the text that of the end; the first line where there is none.
pub fn line_of<'a>(source: &'a TextLines, place: Option<usize>) -> TextLine<'a>
    ensures number { result.number ≡ line source.now (place_or_beginning place) }
    ensures before { result.before.now ≡ before_in_line source.now (place_or_beginning place) }
    ensures rest { result.rest.now ≡ rest_of_line source.now (place_or_beginning place) }
{
    source.at(place.unwrap_or(0).min(source.text().len()))
}

/// What a diagnostic says: `SEVERITY: MESSAGE [KIND]`.
#[tactic(auto, unfolding(messages::specs::Filled::filled))]
fn judged_text(
    alloc: Global,
    severity: &[u8],
    kind: &[u8],
    message: &[u8],
) -> Result<Vec<u8>, AllocError>
    ensures { IfOk result (λ text. text.items ≡ spec.judged_text severity.now kind.now message.now) }
{
    filled(alloc, DIAGNOSTIC, &[severity, message, kind])
}

/// What a remark says: that of a diagnostic, or `note: MESSAGE`.
#[tactic(auto, unfolding(messages::specs::Filled::filled))]
fn said_text(alloc: Global, said: &Said) -> Result<Vec<u8>, AllocError>
    ensures { IfOk result (λ text. text.items ≡ spec.said_text (said_of said.now)) }
{
    match said {
        Said::Judged {
            severity,
            kind,
            message,
        } => { judged_text(alloc, severity_text(*severity), kind, message.as_slice()) }
        Said::Noted { message } => filled(alloc, NOTE, &[message.as_slice()]),
    }
}

/// Adds what is said at a place, if it has one: `FILE:LINE:COLUMN: SAID`, the line of the text and the caret, or
/// `FILE:1:1: SAID` alone, under these bytes in place of the file's name.
#[tactic(auto, unfolding(messages::specs::Filled::filled))]
pub fn push_remark(
    alloc: Global,
    text: &mut Vec<u8>,
    file: &[u8],
    source: &TextLines,
    remark: &Remark,
) -> Result<(), AllocError>
    ensures { OnOk result (text.new.items ≡ text.old.items
        ++ spec.printed_of file.now source.now (remark_of remark.now)) }
{
    let said = said_text(alloc, &remark.said)?;
    let line = line_of(source, remark.place);
    if remark.place.is_none() {
        return fill(text, AT_NO_PLACE, &[file, said.as_slice()]);
    }
    let column = line.before.len() as u64 + 1;
    fill(
        text,
        AT_PLACE,
        &[
            file,
            number(line.number).as_slice(),
            number(column).as_slice(),
            said.as_slice(),
        ],
    )?;
    push_excerpt(alloc, text, line.before, line.rest)
}

/// What is printed of remarks on a text, under these bytes in place of the file's name.
pub(crate) fn printed(
    alloc: Global,
    file: &[u8],
    source: &TextLines,
    remarks: &[Remark],
) -> Result<Vec<u8>, AllocError>
    ensures { IfOk result (λ text. text.items ≡ spec.printed file.now source.now (remarks_of remarks.now)) }
{
    let mut text = Vec::new(alloc);
    for remark in remarks {
        push_remark(alloc, &mut text, file, source, remark)?;
    }
    Ok(text)
}
