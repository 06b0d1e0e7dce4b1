//! The commands of GitHub's workflows: `::SEVERITY file=FILE,line=LINE,col=COLUMN,title=KIND::MESSAGE`.
use crate::row::{Row, message_of, row_at};
use keymap_lint_text::{Remark, line_of};
use keymap_names::shown_name;
use keymap_places::TextLines;
use messages::number;
use std::alloc::{AllocError, Global};

/// The bytes that end a command, and those that end a part of its front besides.
const ENDS: &[u8] = b"%\r\n";

const PART_ENDS: &[u8] = b"%\r\n:,";

/// Adds bytes, of which some are escaped by `%` and their number.
fn push_escaped(text: &mut Vec<u8>, bytes: &[u8], escaped: &[u8]) -> Result<(), AllocError> {
    for byte in bytes {
        if escaped.contains(byte) {
            let escape: &[u8] = match *byte {
                b'%' => b"%25",
                b'\r' => b"%0D",
                b'\n' => b"%0A",
                b':' => b"%3A",
                _ => b"%2C",
            };
            text.extend_from_slice(escape)?;
        } else {
            text.push(*byte)?;
        }
    }
    Ok(())
}

/// Adds a note behind the message, with its line where it has a place.
fn push_note(text: &mut Vec<u8>, lines: &TextLines, note: &Remark) -> Result<(), AllocError> {
    text.extend_from_slice(b"%0Anote: ")?;
    if note.place.is_some() {
        text.extend_from_slice(b"line ")?;
        text.extend_from_slice(number(line_of(lines, note.place).number).as_slice())?;
        text.extend_from_slice(b": ")?;
    }
    push_escaped(text, message_of(note).as_bytes(), ENDS)
}

/// Adds the front of a command: what it tells of the place and the kind.
fn push_front(
    text: &mut Vec<u8>,
    file: &[u8],
    lines: &TextLines,
    row: &Row<'_>,
) -> Result<(), AllocError> {
    let line = line_of(lines, row.place);
    text.extend_from_slice(b"::")?;
    text.extend_from_slice(row.severity.as_bytes())?;
    text.extend_from_slice(b" file=")?;
    push_escaped(text, file, PART_ENDS)?;
    text.extend_from_slice(b",line=")?;
    text.extend_from_slice(number(line.number).as_slice())?;
    text.extend_from_slice(b",col=")?;
    text.extend_from_slice(number(line.before.len() as u64 + 1).as_slice())?;
    text.extend_from_slice(b",title=")?;
    push_escaped(text, row.kind.as_bytes(), PART_ENDS)?;
    text.extend_from_slice(b"::")
}

fn push_row(
    text: &mut Vec<u8>,
    file: &[u8],
    lines: &TextLines,
    row: &Row<'_>,
) -> Result<(), AllocError> {
    push_front(text, file, lines, row)?;
    push_escaped(text, row.message.as_bytes(), ENDS)?;
    for note in row.notes {
        push_note(text, lines, note)?;
    }
    text.push(b'\n')?;
    Ok(())
}

/// A line for each fault or diagnostic of a text, with its notes.
pub(crate) fn github_rows(
    alloc: Global,
    file: &[u8],
    source: &[u8],
    remarks: &[Remark],
) -> Result<Vec<u8>, AllocError> {
    let name = shown_name(alloc, file)?;
    let lines = TextLines::new(alloc, source)?;
    let mut text = Vec::new(alloc);
    for number in 0..remarks.len() {
        if let Some(row) = row_at(remarks, number) {
            push_row(&mut text, name.as_slice(), &lines, &row)?;
        }
    }
    Ok(text)
}
