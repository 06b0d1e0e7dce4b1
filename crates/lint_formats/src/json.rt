//! The objects of the format `json`.
use crate::row::{Row, as_text, message_of, push_separated, row_at};
use keymap_lint_text::{Remark, line_of};
use keymap_names::shown_name;
use keymap_places::TextLines;
use serde_json::{Value, json};
use std::alloc::{AllocError, Global};

fn note_value(alloc: Global, lines: &TextLines, note: &Remark) -> Result<Value, AllocError> {
    let line = line_of(lines, note.place);
    let column = line.before.len() as u64 + 1;
    json!(in alloc; {"line": line.number, "column": column, "message": message_of(note)})
}

fn notes_value(alloc: Global, lines: &TextLines, notes: &[Remark]) -> Result<Value, AllocError> {
    let mut values = Vec::new(alloc);
    for note in notes {
        values.push(note_value(alloc, lines, note)?)?;
    }
    Ok(Value::Array(values))
}

fn row_value(
    alloc: Global,
    file: &str,
    lines: &TextLines,
    row: &Row<'_>,
) -> Result<Value, AllocError> {
    let line = line_of(lines, row.place);
    let column = line.before.len() as u64 + 1;
    let notes = notes_value(alloc, lines, row.notes)?;
    json!(in alloc; {
        "file": file, "line": line.number, "column": column, "severity": row.severity,
        "kind": row.kind, "message": row.message, "notes": notes
    })
}

/// An object for each fault or diagnostic of a text, with its notes.
pub(crate) fn json_rows(
    alloc: Global,
    follows: bool,
    file: &[u8],
    source: &[u8],
    remarks: &[Remark],
) -> Result<Vec<u8>, AllocError> {
    let name = shown_name(alloc, file)?;
    let lines = TextLines::new(alloc, source)?;
    let mut text = Vec::new(alloc);
    for number in 0..remarks.len() {
        if let Some(row) = row_at(remarks, number) {
            let value = row_value(alloc, as_text(name.as_slice()), &lines, &row)?;
            let object = value.to_string(alloc)?;
            push_separated(&mut text, follows || number > 0, object.as_str())?;
        }
    }
    Ok(text)
}
