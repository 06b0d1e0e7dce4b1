//! The keys that the check names under one keymap and not under another.
ghost use Rattle.std.specs.Prelude.{◌≡◌, IfOk, MatchOption};
ghost use Rattle.std.specs.List.{Contains};
ghost use Rattle.keymap_core.specs.Maps.{MapValue};
ghost use Rattle.keymap_check.specs.Findings.{AreFindings, IsFinding};
ghost use Rattle.keymap_check.specs.declared.finding.Finding.{Finding as FindingValue};
ghost use Rattle.keymap_consequences.specs.Consequences.{AreRefusedAlone, IsRefused};

use keymap_check::Finding;
use keymap_core::{Cell, Holding, KEY_COUNT, KeyCode, KeyMap, Keymap};
use std::alloc::{AllocError, Global};

/// A key that the check names, with its first modifier or lock and its first character.
#[derive(Clone, Copy, Debug, PartialEq, Eq)]
pub struct Refused {
    pub key: KeyCode,
    pub holding: Holding,
    pub character: char,
}

/// The finding of the key, if there is one.
fn finding_of(findings: &[Finding], key: u8) -> Option<Finding>
    ensures { MatchOption result ((f : FindingValue) → Contains findings.now f → f.key ≡ key → ⊥)
        (λ f. Contains findings.now f × (f.key ≡ key)) }
{
    for finding in findings {
        if finding.key.get() == key {
            return Some(*finding);
        }
    }
    None
}

/// The key of the finding, as the check names it.
fn named(map: &KeyMap, finding: &Finding) -> Refused
    requires { IsFinding map.now finding.now }
    ensures named { IsRefused map.now result }
    ensures key { result.key ≡ finding.now.key }
{
    let at = finding.character_at;
    match map.cell(at.slot, usize::from(at.column)) {
        Cell::Char(character) => Refused {
            key: finding.key,
            holding: finding.holding,
            character,
        },
        Cell::Act(_) => unreachable!(),
    }
}

/// The finding of the key, if it has one and the others have none.
fn finding_alone(findings: &[Finding], others: &[Finding], key: u8) -> Option<Finding>
    ensures { MatchOption result
        ((f : FindingValue) → Contains findings.now f → f.key ≡ key
        → (g : FindingValue) × Contains others.now g × (g.key ≡ key))
        (λ f. Contains findings.now f × (f.key ≡ key)
        × ((g : FindingValue) → Contains others.now g → g.key ≡ key → ⊥)) }
{
    match finding_of(others, key) {
        Some(_) => None,
        None => finding_of(findings, key),
    }
}

/// The keys of these findings of the keymap that the others, those of another keymap, don't have.
pub(crate) fn refused_alone(
    alloc: Global,
    map: &KeyMap,
    findings: &[Finding],
    others: &[Finding],
) -> Result<Vec<Refused>, AllocError>
    requires { AreFindings map.now findings.now }
    ensures { (m : MapValue) → AreFindings m others.now
        → IfOk result (λ rs. AreRefusedAlone m map.now rs.items) }
{
    let mut refused = Vec::new(alloc);
    for key in 0..KEY_COUNT as u8 {
        if let Some(finding) = finding_alone(findings, others, key) {
            refused.push(named(map, &finding))?;
        }
    }
    Ok(refused)
}
