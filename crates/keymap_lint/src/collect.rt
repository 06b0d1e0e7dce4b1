//! All that is said of a text, kind by kind.
ghost use Rattle.std.specs.Prelude.{◌≡◌, ◌++◌, IfOk, OnOk};
ghost use Rattle.std.specs.Option.{option_to_list};
ghost use Rattle.keymap_lint.specs.Spelled.{AreDefined};
ghost use Rattle.keymap_lint.specs.Kinds.{half_defined};
ghost use Rattle.keymap_lint.specs.Lists.{of_keys, of_letters, all_of};

use crate::bare_digit::add_bare_digits;
use crate::cells::CellInForce;
use crate::dead_key::dead_key;
use crate::defined_again::add_defined_again;
use crate::diagnostic::{Added, Diagnostic, Found, add};
use crate::exchanged::add_exchanged;
use crate::gap::{gap, gaps};
use crate::mixed_key::mixed_keys;
use crate::no_caps::no_caps;
use crate::no_control::no_control;
use crate::no_key::no_key;
use crate::no_shift::no_shift;
use crate::octal_like::add_octal_like;
use crate::pair_again::add_pairs_again;
use crate::spelled::SpelledText;
use crate::twice::add_twice;
use crate::typed::cannot_type;
use crate::unused_half::unused_half;
use crate::zero_accent::add_zero_accents;
use keymap_check::Finding;
use std::alloc::{AllocError, Global};

/// What is said of the keys, and of a text that doesn't define both slots of each key.
fn said_of_keys(
    alloc: Global,
    text: &SpelledText,
    cells: &[CellInForce],
    findings: &[Finding],
    half: Option<Diagnostic>,
    untyped: &[u8],
) -> Result<Found, AllocError>
    requires { option_to_list half ≡ half_defined text.now cells.now findings.now }
    ensures { IfOk result (λ found. found.items ≡ of_keys text.now cells.now findings.now untyped.now) }
{
    let mixed = mixed_keys(alloc, text, findings)?;
    let mut found = Vec::new(alloc);
    add(&mut found, no_key(text.map()))?;
    add(&mut found, cannot_type(untyped))?;
    add(&mut found, no_shift(text.map()))?;
    found.extend_from_slice(mixed.as_slice())?;
    add(&mut found, half)?;
    Ok(found)
}

/// Adds what is said of the keys of letters, digits and punctuation.
fn add_of_letters(found: &mut Found, text: &SpelledText, cells: &[CellInForce]) -> Added
    requires { AreDefined text.now }
    ensures { OnOk result (found.new.items ≡ found.old.items ++ of_letters text.now cells.now) }
{
    add(found, gap(text, gaps(text).as_slice()))?;
    add_exchanged(found, text)?;
    add_twice(found, text)?;
    add(found, no_control(text, cells))?;
    add(found, no_caps(text))?;
    add_octal_like(found, text, cells)
}

/// All that is said of a text, kind by kind in the order of the kinds: of its keys, of definitions without effect and
/// dead keys, of pairs, of slots that are never looked at, and of digits.
pub(crate) fn collect(
    alloc: Global,
    text: &SpelledText,
    cells: &[CellInForce],
    findings: &[Finding],
    half: Option<Diagnostic>,
    untyped: &[u8],
) -> Result<Found, AllocError>
    requires half { option_to_list half ≡ half_defined text.now cells.now findings.now }
    requires defined { AreDefined text.now }
    ensures { IfOk result (λ found. found.items ≡ all_of text.now cells.now findings.now untyped.now) }
{
    let mut found = said_of_keys(alloc, text, cells, findings, half, untyped)?;
    add_defined_again(&mut found, text)?;
    add_of_letters(&mut found, text, cells)?;
    add(&mut found, dead_key(text, cells))?;
    add_zero_accents(&mut found, text, cells)?;
    add_pairs_again(&mut found, text)?;
    add(&mut found, unused_half(text))?;
    add_bare_digits(&mut found, text, cells)?;
    Ok(found)
}
