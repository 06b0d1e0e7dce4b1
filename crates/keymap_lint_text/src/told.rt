//! The remarks on a text: its faults or its diagnostics in their order, each with its notes behind it.
ghost use Rattle.std.specs.Prelude.{◌≡◌, ◌≤◌, ◌++◌, ◌∷◌, [], All, length, IfOk, OnOk, IfSome};
ghost use Rattle.std.specs.List.{flat_map};
ghost use Rattle.keymap_lint.specs.Positions.{FaultLiesWithin, IsWithin, LiesWithin};
ghost use Rattle.keymap_lint_text.specs.Told.{remark_of, remarks_of};
ghost use Rattle.keymap_lint_text.specs.Whole as spec;

use crate::faults::fault_message;
use crate::hints::hint;
use crate::notes::{begins_message, sticks_message, undecided_message};
use crate::remark::{Remark, Said, note};
use crate::said::{is_noted, kind_message};
use crate::words::MORE_FAULTS;
use console_states::Sticking;
use keymap_lint::{Diagnostic, Diagnostics, Lint, PlacedFault, Severity};
use keymap_places::{DefinitionStart, TextLines};
use keymap_text::TextFaultKind;
use std::alloc::{AllocError, Global};

/// How many faults are told at most.
const TOLD_FAULTS: usize = 20;

/// Faults that stand in a definition and may come from its beginning.
fn tells_beginning(kind: TextFaultKind) -> bool
    ensures { result ≡ spec.tells_beginning kind }
{
    matches!(
        kind,
        TextFaultKind::BadWord | TextFaultKind::Unexpected | TextFaultKind::EndInside
    )
}

/// Adds a note where a definition begins, if that is in an earlier line and the fault may come from there.
fn push_beginning(
    alloc: Global,
    source: &TextLines,
    list: &mut Vec<Remark>,
    place: usize,
    kind: TextFaultKind,
    definition: Option<DefinitionStart>,
) -> Result<(), AllocError>
    requires place { place ≤ length source.now }
    requires start { IfSome definition (λ d. d.offset ≤ length source.now) }
    ensures { OnOk result (remarks_of list.new.items
        ≡ remarks_of list.old.items ++ spec.beginning source.now place kind definition) }
{
    let Some(start) = definition else {
        return Ok(());
    };
    if tells_beginning(kind) && source.number_at(start.offset) < source.number_at(place) {
        let message = begins_message(alloc, start.what)?;
        list.push(note(Some(start.offset), message))?;
    }
    Ok(())
}

/// A fault, with what is told behind its message.
fn fault_remark(
    alloc: Global,
    source: &TextLines,
    found: &PlacedFault,
    hint: &[u8],
) -> Result<Remark, AllocError>
    requires { FaultLiesWithin source.now found.now }
    ensures { IfOk result (λ told. remark_of told ≡ spec.hinted_remark source.now hint.now found.now) }
{
    let kind = found.fault.kind;
    let place = found.fault.offset as usize;
    let mut message = fault_message(alloc, source.text(), place, kind, &found.place)?;
    message.extend_from_slice(hint)?;
    Ok(Remark {
        place: Some(place),
        said: Said::Judged {
            severity: Severity::Error,
            kind: kind.name(),
            message,
        },
    })
}

/// Adds a fault, with what is told behind its message, and where its definition begins.
fn push_fault(
    alloc: Global,
    source: &TextLines,
    list: &mut Vec<Remark>,
    found: &PlacedFault,
    hint: &[u8],
) -> Result<(), AllocError>
    requires { FaultLiesWithin source.now found.now }
    ensures { OnOk result (remarks_of list.new.items
        ≡ remarks_of list.old.items ++ spec.hinted source.now hint.now found.now) }
{
    list.push(fault_remark(alloc, source, found, hint)?)?;
    let place = found.fault.offset as usize;
    push_beginning(
        alloc,
        source,
        list,
        place,
        found.fault.kind,
        found.place.definition,
    )
}

/// Adds faults, one behind the other.
fn push_faults(
    alloc: Global,
    source: &TextLines,
    list: &mut Vec<Remark>,
    faults: &[PlacedFault],
) -> Result<(), AllocError>
    requires { All (FaultLiesWithin source.now) faults.now }
    ensures { OnOk result (remarks_of list.new.items
        ≡ remarks_of list.old.items ++ flat_map (spec.of_fault source.now) faults.now) }
{
    for found in faults {
        push_fault(alloc, source, list, found, b"")?;
    }
    Ok(())
}

/// Adds a note if there are more faults than are told.
fn push_more(
    alloc: Global,
    list: &mut Vec<Remark>,
    faults: &[PlacedFault],
) -> Result<(), AllocError>
    ensures { OnOk result (remarks_of list.new.items ≡ remarks_of list.old.items ++ spec.more_faults faults.now) }
{
    if TOLD_FAULTS < faults.len() {
        list.push(note(None, Vec::from_slice(alloc, MORE_FAULTS)?))?;
    }
    Ok(())
}

/// Adds the first faults, and whether there are more.
fn push_first_faults(
    alloc: Global,
    source: &TextLines,
    list: &mut Vec<Remark>,
    faults: &[PlacedFault],
) -> Result<(), AllocError>
    requires { All (FaultLiesWithin source.now) faults.now }
    ensures { OnOk result (remarks_of list.new.items
        ≡ remarks_of list.old.items ++ spec.of_faults source.now faults.now) }
{
    let told = &faults[..faults.len().min(TOLD_FAULTS)];
    push_faults(alloc, source, list, told)?;
    push_more(alloc, list, faults)
}

/// Adds the faults of a text; of one that is taken for another one the first fault alone.
fn push_faulty(
    alloc: Global,
    source: &TextLines,
    list: &mut Vec<Remark>,
    faults: &[PlacedFault],
) -> Result<(), AllocError>
    requires { All (FaultLiesWithin source.now) faults.now }
    ensures { OnOk result (remarks_of list.new.items ≡ remarks_of list.old.items
        ++ spec.of_first source.now faults.now (spec.first_hint source.now faults.now)) }
{
    let [first, ..] = faults else {
        return Ok(());
    };
    match hint(source, first) {
        Some(told) => push_fault(alloc, source, list, first, told),
        None => push_first_faults(alloc, source, list, faults),
    }
}

/// Adds what the search answered, if some modifier stays on or may stay on.
fn push_answer(
    alloc: Global,
    list: &mut Vec<Remark>,
    sticking: &Option<Sticking>,
) -> Result<(), AllocError>
    ensures { OnOk result (remarks_of list.new.items ≡ remarks_of list.old.items ++ spec.answer sticking.now) }
{
    let message = match sticking {
        None | Some(Sticking::Never) => return Ok(()),
        Some(Sticking::Undecided(_)) => Vec::from_slice(alloc, undecided_message())?,
        Some(Sticking::Sticks { events, modifiers }) => {
            sticks_message(alloc, modifiers.as_slice(), events.as_slice())?
        }
    };
    list.push(note(None, message))?;
    Ok(())
}

/// A diagnostic.
fn judged(
    alloc: Global,
    source: &TextLines,
    lint: &Diagnostics,
    diagnostic: &Diagnostic,
) -> Result<Remark, AllocError>
    requires { IsWithin source.now diagnostic.now }
    ensures { IfOk result (λ told. remark_of told ≡ spec.judged source.now lint.now diagnostic.now) }
{
    let kind = &diagnostic.kind;
    let message = kind_message(alloc, source, lint, kind)?;
    Ok(Remark {
        place: diagnostic.place,
        said: Said::Judged {
            severity: kind.severity(lint.never_sticks()),
            kind: kind.name(),
            message,
        },
    })
}

/// Adds a diagnostic, and behind some kinds what the search answered.
fn push_diagnostic(
    alloc: Global,
    source: &TextLines,
    list: &mut Vec<Remark>,
    lint: &Diagnostics,
    diagnostic: &Diagnostic,
) -> Result<(), AllocError>
    requires { IsWithin source.now diagnostic.now }
    ensures { OnOk result (remarks_of list.new.items
        ≡ remarks_of list.old.items ++ spec.of_diagnostic source.now lint.now diagnostic.now) }
{
    list.push(judged(alloc, source, lint, diagnostic)?)?;
    if is_noted(lint.list.as_slice(), &diagnostic.kind) {
        push_answer(alloc, list, &lint.sticking)
    } else {
        Ok(())
    }
}

/// Adds diagnostics, one behind the other.
fn push_diagnostics(
    alloc: Global,
    source: &TextLines,
    list: &mut Vec<Remark>,
    lint: &Diagnostics,
) -> Result<(), AllocError>
    requires { All (IsWithin source.now) lint.now.list.items }
    ensures { OnOk result (remarks_of list.new.items
        ≡ remarks_of list.old.items ++ flat_map (spec.of_diagnostic source.now lint.now) lint.now.list.items) }
{
    for diagnostic in lint.list.as_slice() {
        push_diagnostic(alloc, source, list, lint, diagnostic)?;
    }
    Ok(())
}

/// The remarks on a text. `Err` means that memory was refused.
pub fn remarks(alloc: Global, source: &[u8], lint: &Lint) -> Result<Vec<Remark>, AllocError>
    requires { LiesWithin source.now lint.now }
    ensures { IfOk result (λ list. remarks_of list.items ≡ spec.remarks source.now lint.now) }
{
    let mut list = Vec::new(alloc);
    match lint {
        Lint::Faulty(faults) => {
            let lines = TextLines::new(alloc, source)?;
            push_faulty(alloc, &lines, &mut list, faults.as_slice())?;
        }
        Lint::Spelled(diagnostics) => {
            if diagnostics.list.is_empty() {
                return Ok(list);
            }
            let lines = TextLines::new(alloc, source)?;
            push_diagnostics(alloc, &lines, &mut list, diagnostics)?;
        }
    }
    Ok(list)
}
