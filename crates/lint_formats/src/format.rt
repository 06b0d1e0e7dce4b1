//! The formats, and what stands before and behind the rows of all texts.
ghost use Rattle.std.specs.Prelude.{◌≡◌, IfOk};
ghost use Rattle.lint_formats.specs.Printed.{IsEnd, IsPrinted, front_of};
ghost use Rattle.keymap_lint_text.specs.Told.{remarks_of};

use crate::coloured::coloured_rows;
use crate::github::github_rows;
use crate::json::json_rows;
use crate::sarif::{SARIF_FRONT, sarif_end, sarif_rows};
use keymap_lint_text::{Remark, remarks_text};
use std::alloc::{AllocError, Global};

/// How remarks are printed.
#[derive(Clone, Copy, Debug, PartialEq, Eq)]
pub enum Format {
    /// Lines for people, each with the line of the text and a caret.
    Text,
    /// The same lines with the colours of a terminal.
    Coloured,
    /// The commands by which a step of GitHub's workflows tells of a place.
    Github,
    /// An array of objects.
    Json,
    /// SARIF 2.1.0, for what shows findings of many programs.
    Sarif,
}

/// What stands before all rows.
pub fn front(format: Format) -> &'static [u8]
    ensures { result.now ≡ front_of format }
{
    match format {
        Format::Text | Format::Coloured | Format::Github => b"",
        Format::Json => b"[",
        Format::Sarif => SARIF_FRONT,
    }
}

/// The rows of the remarks on a text under the name of its file, where rows of other texts stand before them or none.
/// `Err` means that memory was refused.
pub fn rows(
    alloc: Global,
    format: Format,
    follows: bool,
    file: &[u8],
    source: &[u8],
    remarks: &[Remark],
) -> Result<Vec<u8>, AllocError>
    ensures { IfOk result (λ text. IsPrinted format file.now source.now (remarks_of remarks.now) text.items) }
{
    if remarks.is_empty() {
        return Ok(Vec::new(alloc));
    }
    match format {
        Format::Text => remarks_text(alloc, file, source, remarks),
        Format::Coloured => coloured_rows(alloc, file, source, remarks),
        Format::Github => github_rows(alloc, file, source, remarks),
        Format::Json => json_rows(alloc, follows, file, source, remarks),
        Format::Sarif => sarif_rows(alloc, follows, file, source, remarks),
    }
}

/// What stands behind all rows, of a program of this version. `Err` means that memory was refused.
pub fn end(alloc: Global, format: Format, version: &str) -> Result<Vec<u8>, AllocError>
    ensures { IfOk result (λ text. IsEnd format text.items) }
{
    match format {
        Format::Text | Format::Coloured | Format::Github => Ok(Vec::new(alloc)),
        Format::Json => Vec::from_slice(alloc, b"\n]\n"),
        Format::Sarif => sarif_end(alloc, version),
    }
}
