//! The diagnostics of a text.
ghost use Rattle.std.specs.Prelude.{◌≡◌, ◌≤◌, IfOk, All, length};
ghost use Rattle.std.specs.Option.{option_to_list};
ghost use Rattle.keymap_core.specs.Numbers.{key_count};
ghost use Rattle.keymap_text.specs.Meaning.{Spells};
ghost use Rattle.keymap_lint.specs.Spelled.{AreDefined};
ghost use Rattle.keymap_places.specs.Placed.{StandsAmong};
ghost use Rattle.keymap_lint.specs.Kinds.{half_defined as half_defined_of};
ghost use Rattle.keymap_lint.specs.Directives.{told};
ghost use Rattle.keymap_lint.specs.Severities.{never_sticks as never_sticks_of};
ghost use Rattle.keymap_lint.specs.Lists.{IsSearched, AreOrdered, all_of, spelled_with, AreOf, AreOfSpelled};
ghost use Rattle.keymap_lint.specs.Lists.{AreOfMap, IsLint};
ghost use Rattle.keymap_lint.specs.Positions.{LiesWithin};

use crate::cells::{CellInForce, cells_in_force};
use crate::collect::collect;
use crate::dead_key::missing_accents;
use crate::diagnostic::{Diagnostic, Diagnostics, Lint, never_sticks};
use crate::faults::faults;
use crate::gap::gaps;
use crate::half_defined::{half_defined, missing_slots};
use crate::ignored::directed;
use crate::mixed_key::nul_keys;
use crate::no_caps::small_slots;
use crate::no_control::lost_letters;
use crate::order::put_in_order;
use crate::spelled::SpelledText;
use crate::typed::untyped_of;
use crate::unused_half::unused_slots;
use console_states::{Sticking, sticking};
use keymap_check::{Finding, check};
use keymap_core::KeyMap;
use keymap_places::{Placed, definitions, last_definitions};
use keymap_text::{Span, TextError, read_map};
use std::alloc::{AllocError, Global};

/// What the search for sticking modifiers answers, where the check has findings.
fn search(alloc: Global, map: &KeyMap, findings: &[Finding]) -> Result<Option<Sticking>, AllocError>
    ensures { IfOk result (λ answer. IsSearched map.now findings.now answer) }
{
    if findings.is_empty() {
        return Ok(None);
    }
    Ok(Some(sticking(alloc, map)?))
}

/// All that is told of the text, in its order.
fn ordered(
    alloc: Global,
    text: &SpelledText,
    cells: &[CellInForce],
    findings: &[Finding],
    half: Option<Diagnostic>,
    untyped: &[u8],
    sticking: &Option<Sticking>,
) -> Result<Vec<Diagnostic>, AllocError>
    requires half { option_to_list half ≡ half_defined_of text.now cells.now findings.now }
    requires defined { AreDefined text.now }
    ensures { IfOk result (λ list. AreOrdered (told text.now.text text.now (never_sticks_of sticking.now)
        (all_of text.now cells.now findings.now untyped.now)) list.items) }
{
    let found = collect(alloc, text, cells, findings, half, untyped)?;
    let mut told = directed(alloc, text, never_sticks(sticking), &found)?;
    put_in_order(&mut told)?;
    Ok(told)
}

/// The diagnostics of a text with these cells in force and these findings.
fn lint_with(
    alloc: Global,
    text: &SpelledText,
    cells: &[CellInForce],
    findings: &[Finding],
) -> Result<Diagnostics, AllocError>
    requires few { length findings.now ≤ key_count }
    requires defined { AreDefined text.now }
    ensures { IfOk result (λ l. AreOf text.now cells.now findings.now l) }
{
    let missing_slots = missing_slots(text);
    let nul_keys = nul_keys(text, findings);
    let half = half_defined(text, cells, missing_slots.len() > 0, nul_keys.len() > 0);
    let untyped = untyped_of(alloc, text.map())?;
    let sticking = search(alloc, text.map(), findings)?;
    let list = ordered(
        alloc,
        text,
        cells,
        findings,
        half,
        untyped.as_slice(),
        &sticking,
    )?;
    Ok(Diagnostics {
        list,
        untyped,
        missing_slots,
        nul_keys,
        gaps: gaps(text),
        lost_letters: lost_letters(text),
        small_slots: small_slots(text),
        missing_accents: missing_accents(text, cells),
        unused_slots: unused_slots(text),
        sticking,
    })
}

/// The diagnostics of a text that spells a map.
fn lint_spelled(alloc: Global, text: &SpelledText) -> Result<Diagnostics, AllocError>
    requires { AreDefined text.now }
    ensures { IfOk result (λ l. AreOfSpelled text.now l) }
{
    let report = check(text.map());
    let findings = report.findings().as_slice();
    let cells = cells_in_force(alloc, text)?;
    let lint = lint_with(alloc, text, &cells, findings)?;
    Ok(lint)
}

/// The diagnostics of a text that spells a map with these definitions and tokens.
fn lint_rows(
    alloc: Global,
    text: &[u8],
    definitions: &[Placed],
    spans: &[Span],
    map: &KeyMap,
) -> Result<Diagnostics, AllocError>
    requires { All (StandsAmong (length spans.now)) definitions.now }
    ensures { IfOk result (λ l. AreOfSpelled (spelled_with text.now definitions.now spans.now map.now) l) }
{
    let last = last_definitions(definitions);
    let text = SpelledText::new(text, definitions, &last, spans, map);
    lint_spelled(alloc, &text)
}

/// The diagnostics of a text that spells this map.
fn lint_map(alloc: Global, text: &[u8], map: &KeyMap) -> Result<Diagnostics, AllocError>
    requires { Spells text.now map.now }
    ensures { IfOk result (λ l. AreOfMap text.now map.now l) }
{
    let placed = definitions(alloc, text)?;
    let lint = lint_rows(alloc, text, &placed.definitions, &placed.spans, map)?;
    Ok(lint)
}

/// What is said of a text: its faults, or its diagnostics in their order, first those without a place, then by their
/// place, those of one place in the order of the kinds, and several of a kind by key. The search for sticking modifiers
/// runs only where the check has findings. `Err` means that memory was refused.
pub fn diagnostics(alloc: Global, text: &[u8]) -> Result<Lint, AllocError>
    ensures said { IfOk result (λ l. IsLint text.now l) }
    ensures places { IfOk result (λ l. LiesWithin text.now l) }
{
    match read_map(alloc, text) {
        Ok(map) => Ok(Lint::Spelled(lint_map(alloc, text, &map)?)),
        Err(TextError::Fault(_)) => Ok(Lint::Faulty(faults(alloc, text)?)),
        Err(_) => Err(AllocError),
    }
}
