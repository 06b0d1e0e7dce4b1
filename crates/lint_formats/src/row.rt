//! A fault or a diagnostic with its notes, as all formats but the text tell it in one row.
use keymap_lint::Severity;
use keymap_lint_text::{Remark, Said};
use std::alloc::AllocError;
use std::str::from_utf8;

/// What is told in a row.
#[derive(Clone, Copy)]
pub(crate) struct Row<'a> {
    pub(crate) place: Option<usize>,
    pub(crate) severity: &'static str,
    pub(crate) kind: &'static str,
    pub(crate) message: &'a str,
    pub(crate) notes: &'a [Remark],
}

/// Bytes of what is told, which are UTF-8.
pub(crate) fn as_text(bytes: &[u8]) -> &str {
    from_utf8(bytes).unwrap_or("")
}

fn severity_name(severity: Severity) -> &'static str {
    match severity {
        Severity::Error => "error",
        Severity::Warning => "warning",
    }
}

/// The message of a remark.
pub(crate) fn message_of(remark: &Remark) -> &str {
    match &remark.said {
        Said::Judged { message, .. } | Said::Noted { message } => as_text(message.as_slice()),
    }
}

fn is_note(remark: &Remark) -> bool {
    matches!(&remark.said, Said::Noted { .. })
}

/// The notes in front of remarks.
fn notes_in_front(remarks: &[Remark]) -> &[Remark] {
    let count = remarks
        .iter()
        .position(|remark| !is_note(remark))
        .unwrap_or(remarks.len());
    &remarks[..count.min(remarks.len())]
}

/// The row of the remark with this number, if it is none that stands in the row of another one.
pub(crate) fn row_at(remarks: &[Remark], number: usize) -> Option<Row<'_>> {
    let (remark, behind) = remarks.get(number..)?.split_first()?;
    match &remark.said {
        Said::Judged { severity, kind, .. } => Some(Row {
            place: remark.place,
            severity: severity_name(*severity),
            kind: as_text(kind),
            message: message_of(remark),
            notes: notes_in_front(behind),
        }),
        Said::Noted { .. } => None,
    }
}

/// Adds a row in a line of its own, behind a comma where it follows another one.
pub(crate) fn push_separated(
    text: &mut Vec<u8>,
    follows: bool,
    row: &str,
) -> Result<(), AllocError> {
    text.extend_from_slice(if follows { b",\n" } else { b"\n" })?;
    text.extend_from_slice(row.as_bytes())
}
