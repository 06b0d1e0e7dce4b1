//! The faults of a text: behind the line of a fault it is read on, as a text of its own.
ghost use Rattle.std.specs.Prelude.{◌≡◌, ◌+◌, ◌≤◌, ◌==◌, count_by, drop, take, length, IfOk, MatchOption};
ghost use Rattle.keymap_core.specs.Maps.{MapValue};
ghost use Rattle.keymap_places.specs.LineOf.{line_end as end_of_line};
ghost use Rattle.keymap_text.specs.Meaning.{Fault, Spells};
ghost use Rattle.keymap_lint.specs.Faults.{AreFaults, IsFaultBehind, IsWanted, fault_limit, place_behind};

use crate::diagnostic::PlacedFault;
use keymap_places::{DefinitionStart, FaultPlace, wanted_at_fault};
use keymap_text::{TextError, TextFault, line_end, read_map};
use std::alloc::{AllocError, Global};

/// How many faults of a text are found: one more than are told, so that it can be said that more follow.
const FAULT_LIMIT: usize = 21;

/// What is wanted at the fault of what stands behind so many bytes of a text.
fn wanted_behind(text: &[u8], start: usize) -> FaultPlace
    requires { start ≤ length text.now }
    ensures { (own : FaultPlace) × IsWanted (drop start text.now) own × (result ≡ place_behind start own) }
{
    let own = wanted_at_fault(&text[start..]);
    let definition = match own.definition {
        Some(begun) => Some(DefinitionStart {
            what: begun.what,
            offset: start + begun.offset,
        }),
        None => None,
    };
    FaultPlace {
        wanted: own.wanted,
        definition,
        behind: start + own.behind,
    }
}

/// The fault of what stands behind so many bytes of a text, as it is told there, in the whole text. So many lines end
/// in these bytes.
fn in_whole(text: &[u8], start: usize, lines: u64, own: TextFault) -> PlacedFault
    requires inside { start ≤ length text.now }
    requires lines { lines ≡ count_by (λ c. c == 10) (take start text.now) }
    requires fault { Fault (drop start text.now) own }
    ensures { IsFaultBehind text.now start result }
{
    PlacedFault {
        fault: TextFault {
            offset: start as u64 + own.offset,
            line: lines + own.line,
            kind: own.kind,
        },
        place: wanted_behind(text, start),
    }
}

/// The fault of what stands behind so many bytes of a text, in which so many lines end; none where it spells a map.
fn fault_behind(
    alloc: Global,
    text: &[u8],
    start: usize,
    lines: u64,
) -> Result<Option<PlacedFault>, AllocError>
    requires { start ≤ length text.now → lines ≡ count_by (λ c. c == 10) (take start text.now) }
    ensures { IfOk result (λ fault. MatchOption fault
        ((m : MapValue) × Spells (drop start text.now) m) (IsFaultBehind text.now start)) }
{
    if start > text.len() {
        return Ok(None);
    }
    match read_map(alloc, &text[start..]) {
        Ok(_) => Ok(None),
        Err(TextError::Fault(own)) => Ok(Some(in_whole(text, start, lines, own))),
        Err(_) => Err(AllocError),
    }
}

/// Where reading goes on behind a fault: behind its line.
fn behind_line(text: &[u8], fault: &TextFault) -> usize
    requires { fault.now.offset ≤ length text.now }
    ensures { result ≡ end_of_line text.now fault.now.offset + 1 }
{
    line_end(text, fault.offset as usize) + 1
}

/// The faults of a text in their order.
pub(crate) fn faults(alloc: Global, text: &[u8]) -> Result<Vec<PlacedFault>, AllocError>
    ensures { IfOk result (λ faults. AreFaults fault_limit text.now 0 faults.items) }
{
    let mut faults = Vec::new(alloc);
    let mut start = 0;
    let mut lines = 0;
    while faults.len() < FAULT_LIMIT {
        let Some(found) = fault_behind(alloc, text, start, lines)? else {
            return Ok(faults);
        };
        faults.push(found)?;
        start = behind_line(text, &found.fault);
        lines = found.fault.line;
    }
    Ok(faults)
}
