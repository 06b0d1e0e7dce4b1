//! `kmap lint`: what is found in texts, in one of the formats, and how much it is.
use crate::command_line::{Colour, LintMode, VERSION};
use crate::inputs::{given, is_standard_input};
use crate::output::{Faults, Output, tell};
use crate::program::{Failure, Outcomes};
use arrayvec::ArrayVec;
use keymap_core::write_text;
use kmap_runs::{Linted, lint_run};
use lint_formats::{Format, end, front};
use messages::number;
use std::env;
use std::env::VarError;
use std::io::IsTerminal;

/// A line with four numbers.
type CountLine = ArrayVec<u8, 128>;

/// What was found in the texts so far.
#[derive(Drop)]
struct Found {
    errors: usize,
    warnings: usize,
    /// The texts of which something was told.
    texts: usize,
}

impl Found {
    fn new() -> Found {
        Found {
            errors: 0,
            warnings: 0,
            texts: 0,
        }
    }

    /// Whether nothing is told of any text.
    fn is_empty(&self) -> bool {
        self.texts == 0
    }

    fn add(&mut self, linted: &Linted) {
        self.errors = self.errors.saturating_add(linted.errors);
        self.warnings = self.warnings.saturating_add(linted.warnings);
        if 0 < linted.errors || 0 < linted.warnings {
            self.texts = self.texts.saturating_add(1);
        }
    }
}

/// Whether no text has an error, or where warnings count as errors, nothing is said of any. It is a failure where one
/// can't be read, whatever is said of the others.
pub(crate) fn lint<'a>(
    rt: &HostRuntime,
    texts: &[&'a str],
    mode: LintMode<'a>,
    faults: &mut Faults,
) -> Result<bool, Failure<'a>> {
    let format = printed_format(rt, &mode);
    let behind = end(rt.alloc(), format, VERSION)?;
    tell(rt, front(format))?;
    let (mut found, mut outcomes) = (Found::new(), Outcomes::new());
    for text in texts {
        let outcome = match lint_one(rt, text, format, &mode, !found.is_empty()) {
            Ok(linted) => {
                found.add(&linted);
                Ok(linted.is_well)
            }
            Err(failure) => Err(failure),
        };
        outcomes.add(rt.alloc(), outcome, faults)?;
    }
    tell(rt, behind.as_slice())?;
    if !mode.is_quiet && !found.is_empty() {
        let _ = write_text(faults, count_line(&found, texts.len()).as_slice());
    }
    let is_well = outcomes.outcome()?;
    Ok(is_well && (!mode.is_strict || found.is_empty()))
}

fn lint_one<'a>(
    rt: &HostRuntime,
    text: &'a str,
    format: Format,
    mode: &LintMode<'a>,
    follows: bool,
) -> Result<Linted, Failure<'a>> {
    let place = match mode.name {
        Some(name) if is_standard_input(text) => name,
        _ => text,
    };
    let mut source = given(rt, text)?;
    let mut out = Output::new(rt);
    let name = place.as_bytes();
    let outcome = lint_run(rt.alloc(), format, follows, name, &mut source, &mut out);
    out.file_outcome(place, outcome)
}

/// How many errors and warnings there are, in how many of so many texts. It takes no memory, since what was found has
/// been printed.
fn count_line(found: &Found, names: usize) -> CountLine {
    let mut line = ArrayVec::new();
    push_counted(&mut line, found.errors, b" error");
    if 0 < found.errors && 0 < found.warnings {
        push(&mut line, b", ");
    }
    push_counted(&mut line, found.warnings, b" warning");
    if 1 < names {
        push(&mut line, b" in ");
        push(&mut line, number(found.texts as u64).as_slice());
        push(&mut line, b" of ");
        push(&mut line, number(names as u64).as_slice());
        push(&mut line, b" texts");
    }
    push(&mut line, b"\n");
    line
}

/// Adds so many of what the word names, if there are any.
fn push_counted(line: &mut CountLine, count: usize, word: &[u8]) {
    if count == 0 {
        return;
    }
    push(line, number(count as u64).as_slice());
    push(line, word);
    if count != 1 {
        push(line, b"s");
    }
}

fn push(line: &mut CountLine, bytes: &[u8]) {
    let _ = line.try_extend_from_slice(bytes);
}

/// The format, with the colours of a terminal where they are wanted.
fn printed_format(rt: &HostRuntime, mode: &LintMode<'_>) -> Format {
    let is_coloured = match mode.colour {
        Colour::Auto => is_for_colours(rt),
        Colour::Always => true,
        Colour::Never => false,
    };
    match mode.format {
        Format::Text if is_coloured => Format::Coloured,
        format => format,
    }
}

/// Whether the standard output is a terminal for colours: NO_COLOR has no value, and TERM doesn't say that it is dumb.
fn is_for_colours(rt: &HostRuntime) -> bool {
    rt.stdout().is_terminal()
        && match env::var(rt, "NO_COLOR") {
            Ok(value) => value.is_empty(),
            Err(error) => error == VarError::NotPresent,
        }
        && match env::var(rt, "TERM") {
            Ok(value) => value.as_str() != "dumb",
            Err(_) => true,
        }
}
