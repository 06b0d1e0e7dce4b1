//! What differs between two keymaps, and what of it no press meets.
//!
//! Mostly presses meet all of it in the states that a few of them lead to, so these are looked at first.
ghost use Rattle.std.specs.Prelude.{◌≡◌, false, true, IfOk};
ghost use Rattle.console_states.specs.Sights.{AreSomeSights};
ghost use Rattle.keymap_diff.specs.Changes.{AreChanges, AreDifferences, MeetsChange};
ghost use Rattle.keymap_diff.specs.Inner.Versions.{AreVersions, HasAccent, IsMet, IsSeenOfBoth};

use crate::change::Change;
use crate::compared::changes;
use crate::unseen::{Letters, sees_dead_key};
use crate::versions::{Seen, Versions};
use console_states::{Sight, Sights, sights_of, some_sights};
use keymap_core::KeyMap;
use std::alloc::{AllocError, Global};

/// Whether some sights of the keymap show that a press meets what the change tells.
fn meets(map: &KeyMap, some: &Sights, change: &Change) -> bool
    requires some { AreSomeSights map.now some.now }
    requires accent { HasAccent change.now }
    ensures { result ≡ true → MeetsChange change.now map.now }
{
    match *change {
        Change::Cell { slot, column, .. } => {
            let column = column as usize;
            some.can_see(map, Sight::Cell { slot, column })
        }
        Change::Letter { slot, old, new, .. } => Letters { slot, old, new }.are_seen(map, some),
        Change::Accent { accent, .. } => sees_dead_key(map, some, accent),
        Change::Pair { accent, base, .. } => {
            let character = base;
            some.can_see(map, Sight::Pair { accent, character })
        }
        _ => true,
    }
}

/// Whether some sights of one keymap or the other show that a press meets what the change tells.
fn is_met(old: &KeyMap, new: &KeyMap, some_old: &Sights, some_new: &Sights, change: &Change) -> bool
    requires old { AreSomeSights old.now some_old.now }
    requires new { AreSomeSights new.now some_new.now }
    requires accent { HasAccent change.now }
    ensures { result ≡ true → IsMet old.now new.now change.now }
{
    meets(old, some_old, change) || meets(new, some_new, change)
}

/// Whether a few presses show that each of the changes is met, under one keymap or the other.
fn are_met(alloc: Global, old: &KeyMap, new: &KeyMap, found: &[Change]) -> Result<bool, AllocError>
    requires { AreChanges false old.now new.now found.now }
    ensures { IfOk result (λ met. met ≡ true → AreChanges true old.now new.now found.now) }
{
    if found.is_empty() {
        return Ok(true);
    }
    let some_old = some_sights(alloc, old)?;
    let some_new = some_sights(alloc, new)?;
    for change in found {
        if !is_met(old, new, &some_old, &some_new, change) {
            return Ok(false);
        }
    }
    Ok(true)
}

/// What presses can see under each of two keymaps, unless the search gave up.
type BothSights = Option<(Sights, Sights)>;

/// What presses can see under each of the keymaps.
fn both_sights(alloc: Global, old: &KeyMap, new: &KeyMap) -> Result<BothSights, AllocError>
    ensures { IfOk result (IsSeenOfBoth old.now new.now) }
{
    let Some(old_sights) = sights_of(alloc, old)? else {
        return Ok(None);
    };
    let Some(new_sights) = sights_of(alloc, new)? else {
        return Ok(None);
    };
    Ok(Some((old_sights, new_sights)))
}

/// Two keymaps with what presses can see under each, unless a search gave up.
fn versions_of<'a>(old: &'a KeyMap, new: &'a KeyMap, sights: &'a BothSights) -> Versions<'a>
    requires { IsSeenOfBoth old.now new.now sights.now }
    ensures { AreVersions old.now new.now result }
{
    let seen = match sights {
        Some((old, new)) => Some(Seen { old, new }),
        None => None,
    };
    Versions { old, new, seen }
}

/// What differs, marked by all that presses can see.
fn marked(alloc: Global, old: &KeyMap, new: &KeyMap) -> Result<Vec<Change>, AllocError>
    ensures { IfOk result (λ found. AreDifferences old.now new.now found.items) }
{
    let sights = both_sights(alloc, old, new)?;
    changes(alloc, &versions_of(old, new, &sights))
}

/// What differs between the keymaps, each cell, lock letter, accent and pair by itself, and whether it is unseen. Where
/// a search gives up, nothing is.
pub fn differences<'a>(
    alloc: Global,
    old: &'a KeyMap,
    new: &'a KeyMap,
) -> Result<Vec<Change>, AllocError>
    ensures { IfOk result (λ found. AreDifferences old.now new.now found.items) }
{
    let seen = None;
    let found = changes(alloc, &Versions { old, new, seen })?;
    if are_met(alloc, old, new, &found)? {
        return Ok(found);
    }
    marked(alloc, old, new)
}
