//! The results of the format `sarif`, and the log that they stand in.
use crate::row::{Row, message_of, push_separated, row_at};
use bstr::ByteSlice;
use keymap_lint_text::{Remark, line_of};
use keymap_places::TextLines;
use percent_encoding::{AsciiSet, NON_ALPHANUMERIC, percent_encode};
use serde_json::{Value, json};
use std::alloc::{AllocError, Global};

/// What stands before the results.
pub(crate) const SARIF_FRONT: &[u8] =
    b"{\"$schema\":\"https://json.schemastore.org/sarif-2.1.0.json\",\
    \"runs\":[{\"columnKind\":\"unicodeCodePoints\",\"results\":[";

/// The names of all kinds of faults and diagnostics, in the order of the table of docs/FORMATS.md.
const RULES: [&str; 30] = [
    "BadByte",
    "BadLiteral",
    "BadWord",
    "Unexpected",
    "KeyTooLarge",
    "BadChar",
    "BadFunction",
    "TooManyPairs",
    "ZeroBase",
    "Combined",
    "EndInside",
    "no-key",
    "cannot-type",
    "no-shift",
    "mixed-key",
    "half-defined",
    "defined-again",
    "gap",
    "exchanged",
    "twice",
    "no-control",
    "no-caps",
    "octal-like",
    "dead-key",
    "zero-accent",
    "pair-again",
    "unused-half",
    "bare-digit",
    "unused-ignore",
    "bad-ignore",
];

/// The bytes that are escaped in the reference of a file: all but letters, digits and five more.
fn escaped() -> AsciiSet {
    NON_ALPHANUMERIC
        .remove(b'-')
        .remove(b'.')
        .remove(b'_')
        .remove(b'~')
        .remove(b'/')
}

/// The rules, each as an object.
fn rules_value(alloc: Global) -> Result<Value, AllocError> {
    let mut rules = Vec::new(alloc);
    for rule in RULES {
        rules.push(json!(in alloc; {"id": rule})?)?;
    }
    Ok(Value::Array(rules))
}

/// What stands behind the results.
pub(crate) fn sarif_end(alloc: Global, version: &str) -> Result<Vec<u8>, AllocError> {
    let rules = rules_value(alloc)?;
    let driver = json!(in alloc; {"name": "kmap", "rules": rules, "version": version})?;
    let driver = driver.to_string(alloc)?;
    let end = format!(in alloc;
        "\n],\"tool\":{{\"driver\":{driver}}}}}],\"version\":\"2.1.0\"}}\n"
    )?;
    Ok(end.into_bytes())
}

/// Where something is told: the file, the line, and the column in characters, of which each maximal piece of the line
/// that isn't UTF-8 is one.
fn physical(
    alloc: Global,
    uri: &str,
    lines: &TextLines,
    place: Option<usize>,
) -> Result<Value, AllocError> {
    let line = line_of(lines, place);
    let column = (line.before.chars().count() as u64).saturating_add(1);
    json!(in alloc; {
        "artifactLocation": {"uri": uri}, "region": {"startLine": line.number, "startColumn": column}
    })
}

fn note_value(
    alloc: Global,
    uri: &str,
    lines: &TextLines,
    note: &Remark,
) -> Result<Value, AllocError> {
    let place = physical(alloc, uri, lines, note.place)?;
    json!(in alloc; {"message": {"text": message_of(note)}, "physicalLocation": place})
}

fn row_value(
    alloc: Global,
    uri: &str,
    lines: &TextLines,
    row: &Row<'_>,
) -> Result<Value, AllocError> {
    let place = physical(alloc, uri, lines, row.place)?;
    if row.notes.is_empty() {
        return json!(in alloc; {
            "level": row.severity, "locations": [{"physicalLocation": place}],
            "message": {"text": row.message}, "ruleId": row.kind
        });
    }
    let mut notes = Vec::new(alloc);
    for note in row.notes {
        notes.push(note_value(alloc, uri, lines, note)?)?;
    }
    let notes = Value::Array(notes);
    json!(in alloc; {
        "level": row.severity, "locations": [{"physicalLocation": place}],
        "message": {"text": row.message}, "relatedLocations": notes, "ruleId": row.kind
    })
}

/// A result for each fault or diagnostic of a text, with its notes.
pub(crate) fn sarif_rows(
    alloc: Global,
    follows: bool,
    file: &[u8],
    source: &[u8],
    remarks: &[Remark],
) -> Result<Vec<u8>, AllocError> {
    let mut uri = String::new(alloc);
    percent_encode(file, escaped()).append_to(&mut uri)?;
    let lines = TextLines::new(alloc, source)?;
    let mut text = Vec::new(alloc);
    for number in 0..remarks.len() {
        if let Some(row) = row_at(remarks, number) {
            let result = row_value(alloc, uri.as_str(), &lines, &row)?.to_string(alloc)?;
            push_separated(&mut text, follows || number > 0, result.as_str())?;
        }
    }
    Ok(text)
}
