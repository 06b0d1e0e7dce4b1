//! The commands on one keymap after the other but for `kmap lint`: `kmap check`, `kmap search` and `kmap draw`.
use crate::command_line::CheckMode;
use crate::inputs::{Text, opened, text_given, text_if_named, text_in_file};
use crate::output::{Faults, Output, tell};
use crate::program::{Failure, Outcomes, explained, of_many, well};
use keymap_core::ToStd;
use keymap_draw::Board;
use keymap_names::shown_name;
use kmap_runs::{RunError, check_brief_run, check_run, draw_change_run, draw_run, search_run};
use std::alloc::{AllocError, Global};

/// Whether each text is accepted. Where there are many, each report stands behind the name of its text, and a line on a
/// fault has the name too.
pub(crate) fn check<'a>(
    rt: &HostRuntime,
    texts: &[&'a str],
    mode: CheckMode,
    faults: &mut Faults,
) -> Result<bool, Failure<'a>> {
    if texts.len() == 1 {
        return check_alone(rt, texts[0], mode, faults);
    }
    let mut well = true;
    for text in texts {
        let outcome = check_named(rt, text, mode, faults);
        well = of_many(rt.alloc(), outcome, faults)? && well;
    }
    Ok(well)
}

fn check_alone<'a>(
    rt: &HostRuntime,
    text: &'a str,
    mode: CheckMode,
    faults: &mut Faults,
) -> Result<bool, Failure<'a>> {
    match mode {
        CheckMode::Report => report_alone(rt, text, false),
        CheckMode::Show => report_alone(rt, text, true),
        CheckMode::Brief => verdict(rt, text, faults),
    }
}

fn check_named<'a>(
    rt: &HostRuntime,
    text: &'a str,
    mode: CheckMode,
    faults: &mut Faults,
) -> Result<bool, Failure<'a>> {
    match mode {
        CheckMode::Report => report_named(rt, text, false),
        CheckMode::Show => report_named(rt, text, true),
        CheckMode::Brief => verdict(rt, text, faults),
    }
}

fn report_alone<'a>(rt: &HostRuntime, text: &'a str, show: bool) -> Result<bool, Failure<'a>> {
    let mut source = opened(rt, text)?;
    let mut out = Output::new(rt);
    let outcome = check_run(rt.alloc(), &mut source, show, &mut out);
    out.outcome(outcome)
}

fn verdict<'a>(rt: &HostRuntime, name: &'a str, faults: &mut Faults) -> Result<bool, Failure<'a>> {
    let text = text_in_file(rt, name)?;
    let mut out = Output::new(rt);
    let outcome = check_brief_run(rt.alloc(), name.as_bytes(), &mut text.reader(), &mut out);
    explained(rt, out.outcome(outcome), &text, None, faults)
}

fn report_named<'a>(rt: &HostRuntime, text: &'a str, show: bool) -> Result<bool, Failure<'a>> {
    let mut report = Vec::new(rt.alloc());
    let accepted = reported(rt, text, show, &mut report)?;
    let told = behind_name(rt.alloc(), text, report.as_slice())?;
    tell(rt, told.as_slice())?;
    Ok(accepted)
}

/// Whether a text is accepted, with its report in memory.
fn reported<'a>(
    rt: &HostRuntime,
    text: &'a str,
    show: bool,
    report: &mut Vec<u8>,
) -> Result<bool, Failure<'a>> {
    let mut source = opened(rt, text)?;
    let outcome = check_run(rt.alloc(), &mut source, show, &mut ToStd::new(report));
    outcome.map_err(|error| failure_in_memory(text, error))
}

/// The report is kept in memory, so where it can't be written there is none left.
fn failure_in_memory<'a>(text: &'a str, error: RunError) -> Failure<'a> {
    match error {
        RunError::Write(_) => Failure::of_run(RunError::Memory),
        error => Failure::Command(Some(text), error.into()),
    }
}

/// A line with the name of a file, as it is shown, and the report behind it.
fn behind_name(alloc: Global, name: &str, report: &[u8]) -> Result<Vec<u8>, AllocError> {
    let mut told = shown_name(alloc, name.as_bytes())?;
    told.push(b'\n')?;
    told.extend_from_slice(report)?;
    Ok(told)
}

/// Whether no modifier ever sticks under any of the keymaps. Where there are many, what is found of each stands behind
/// the name of its text.
pub(crate) fn search<'a>(
    rt: &HostRuntime,
    texts: &[&'a str],
    next: Option<&'a str>,
    faults: &mut Faults,
) -> Result<bool, Failure<'a>> {
    if texts.len() == 1 {
        let text = text_given(rt, texts[0])?;
        let next = text_if_named(rt, next)?;
        return search_given(rt, &text, next.as_ref(), false, faults);
    }
    let next = text_if_named(rt, next)?;
    let mut outcomes = Outcomes::new();
    for name in texts {
        let outcome = match text_given(rt, name) {
            Ok(text) => search_given(rt, &text, next.as_ref(), true, faults),
            Err(failure) => Err(failure),
        };
        outcomes.add(rt.alloc(), outcome, faults)?;
    }
    outcomes.outcome()
}

fn search_given<'a>(
    rt: &HostRuntime,
    text: &Text<'a>,
    next: Option<&Text<'_>>,
    is_named: bool,
    faults: &mut Faults,
) -> Result<bool, Failure<'a>> {
    let outcome = search_in(rt, text, next, is_named);
    explained(rt, outcome, text, next, faults)
}

fn search_in<'a>(
    rt: &HostRuntime,
    text: &Text<'a>,
    next: Option<&Text<'_>>,
    is_named: bool,
) -> Result<bool, Failure<'a>> {
    let mut next = next.map(|next| next.reader());
    let mut reader = text.reader();
    if is_named {
        let mut found = Vec::new(rt.alloc());
        let mut sheet = ToStd::new(&mut found);
        let outcome = search_run(rt.alloc(), &mut reader, &mut next, &mut sheet);
        let never = outcome.map_err(|error| failure_in_memory(text.name, error))?;
        let told = behind_name(rt.alloc(), text.name, found.as_slice())?;
        tell(rt, told.as_slice())?;
        Ok(never)
    } else {
        let mut out = Output::new(rt);
        let outcome = search_run(rt.alloc(), &mut reader, &mut next, &mut out);
        out.outcome(outcome)
    }
}

/// Draws the keymaps, one picture behind the other, with what changed of an old one where it is named. Where there are
/// many, each has the name of its text in the headline unless another one is given.
pub(crate) fn draw<'a>(
    rt: &HostRuntime,
    texts: &[&'a str],
    ansi: bool,
    title: Option<&'a str>,
    old: Option<&'a str>,
    faults: &mut Faults,
) -> Result<bool, Failure<'a>> {
    let board = if ansi { Board::Ansi } else { Board::Iso };
    let old = text_if_named(rt, old)?;
    if texts.len() == 1 {
        return draw_one(
            rt,
            texts[0],
            board,
            title.unwrap_or(""),
            old.as_ref(),
            faults,
        );
    }
    let mut outcomes = Outcomes::new();
    for text in texts {
        let outcome = draw_one(rt, text, board, title.unwrap_or(text), old.as_ref(), faults);
        outcomes.add(rt.alloc(), outcome, faults)?;
    }
    outcomes.outcome()
}

fn draw_one<'a>(
    rt: &HostRuntime,
    text: &'a str,
    board: Board,
    title: &str,
    old: Option<&Text<'a>>,
    faults: &mut Faults,
) -> Result<bool, Failure<'a>> {
    let text = text_given(rt, text)?;
    let mut reader = text.reader();
    let mut out = Output::new(rt);
    let title = title.as_bytes();
    match old {
        Some(old) => {
            let mut before = old.reader();
            let name = old.name.as_bytes();
            let outcome = draw_change_run(
                rt.alloc(),
                &mut before,
                &mut reader,
                board,
                title,
                name,
                &mut out,
            );
            explained(rt, well(out.outcome(outcome)), old, Some(&text), faults)
        }
        None => {
            let outcome = draw_run(rt.alloc(), &mut reader, board, title, &mut out);
            explained(rt, well(out.outcome(outcome)), &text, None, faults)
        }
    }
}
