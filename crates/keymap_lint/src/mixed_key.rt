//! Keys that have a modifier or lock and a character.
ghost use Rattle.std.specs.Prelude.{◌≡◌, ◌≤◌, ◌<◌, ◌+◌, ◌++◌, IfOk, length};
ghost use Rattle.std.specs.Option.{option_to_list};
ghost use Rattle.arrayvec.specs.ArrayVec.{array_vec_len};
ghost use Rattle.keymap_core.specs.Maps.{cell_at};
ghost use Rattle.keymap_core.specs.Numbers.{key_count};
ghost use Rattle.keymap_lint.specs.Kinds.{is_mixed as is_mixed_in, character_of, mixed_key as mixed_key_of};
ghost use Rattle.keymap_lint.specs.Kinds.{mixed_keys as mixed_keys_of, nul_key, nul_keys as nul_keys_of};

use crate::diagnostic::{Diagnostic, Found, Kind, add};
use crate::exchanged::character_in;
use crate::spelled::SpelledText;
use arrayvec::ArrayVec;
use keymap_check::{Finding, Place};
use keymap_core::{KEY_COUNT, push_if};
use std::alloc::{AllocError, Global};

/// Whether the text defines both slots of the finding.
fn is_mixed(text: &SpelledText, finding: &Finding) -> bool
    ensures { result ≡ is_mixed_in text.now finding.now }
{
    text.defines(finding.holding_at.slot) && text.defines(finding.character_at.slot)
}

/// The character that stands at the place.
fn character(text: &SpelledText, at: Place) -> char
    ensures { result ≡ character_of (cell_at text.now.map at.slot at.column) }
{
    character_in(text.cell(at.slot, at.column))
}

/// What is said of a finding whose slots the text defines.
fn mixed_key(text: &SpelledText, finding: &Finding) -> Option<Diagnostic>
    ensures { option_to_list result ≡ mixed_key_of text.now finding.now }
{
    let column = finding.holding_at.column as usize;
    match text.slot(finding.holding_at.slot) {
        Some(definition) if is_mixed(text, finding) => Some(Diagnostic {
            place: Some(text.offset_behind(definition.first, 1 + column)),
            kind: Kind::MixedKey {
                finding: *finding,
                character: character(text, finding.character_at),
            },
        }),
        _ => None,
    }
}

/// The keys that have a modifier or lock and a character, both in slots that the text defines, by key.
pub(crate) fn mixed_keys(
    alloc: Global,
    text: &SpelledText,
    findings: &[Finding],
) -> Result<Found, AllocError>
    ensures { IfOk result (λ found. found.items ≡ mixed_keys_of text.now findings.now) }
{
    let mut found = Vec::new(alloc);
    for finding in findings {
        add(&mut found, mixed_key(text, finding))?;
    }
    Ok(found)
}

/// Adds the key of a finding, unless the text defines both of its slots.
fn add_nul(keys: &mut ArrayVec<u8, KEY_COUNT>, text: &SpelledText, finding: &Finding)
    requires { array_vec_len keys.old < key_count }
    ensures items { keys.new.items ≡ keys.old.items ++ nul_key text.now finding.now }
    ensures room { array_vec_len keys.new ≤ array_vec_len keys.old + 1 }
{
    push_if(keys, finding.key.get(), !is_mixed(text, finding));
}

/// The keys of the findings of whose slots the text doesn't define both, in ascending order.
pub(crate) fn nul_keys(text: &SpelledText, findings: &[Finding]) -> ArrayVec<u8, KEY_COUNT>
    requires { length findings.now ≤ key_count }
    ensures { result.items ≡ nul_keys_of text.now findings.now }
{
    let mut keys = ArrayVec::new();
    for finding in findings {
        add_nul(&mut keys, text, finding);
    }
    keys
}
