//! Finding what differs between two keymaps.
ghost use Rattle.std.specs.Prelude.{◌≡◌, ◌<◌, ◌+◌, ◌*◌, ◌%◌, ◌++◌, ℕ, OnOk, IfOk, None, false, true, is_some};
ghost use Rattle.std.specs.Option.{option_to_list};
ghost use Rattle.keymap_core.specs.Numbers.{accent_limit, column_count};
ghost use Rattle.keymap_core.specs.Accents.{first_result};
ghost use Rattle.keymap_diff.specs.Changes.{HaveSameResults, AreChanges};
ghost use Rattle.keymap_diff.specs.Inner.Pushing.{HasBase, IsOne, IsAt, IsOfBaseIn, PushesAt, PushesPlaces};
ghost use Rattle.keymap_diff.specs.Inner.Pushing.{PushesBases};
ghost use Rattle.keymap_diff.specs.Inner.Versions.{HaveSights};

use crate::change::Change;
use crate::unseen::{Letters, is_dead_key_unseen, is_unseen};
use crate::versions::Versions;
use console_states::Sight;
use keymap_core::{ACCENT_LIMIT, COLUMN_COUNT, SLOT_LIMIT};
use std::alloc::{AllocError, Global};

type Added = Result<(), AllocError>;

/// How many places a slot has: those of its cells and of its lock letter.
const PLACES: usize = COLUMN_COUNT + 1;

/// Adds what is told, if something is.
fn add<T: Copy>(found: &mut Vec<T>, told: Option<T>) -> Added
    ensures { OnOk result (found.new.items ≡ found.old.items ++ option_to_list told) }
{
    if let Some(change) = told {
        found.push(change)?;
    }
    Ok(())
}

fn slot_counts(versions: &Versions) -> Option<Change>
    ensures { IsOne (IsAt versions.now 0) result }
{
    let old = versions.old.n_keys();
    let new = versions.new.n_keys();
    if old != new {
        Some(Change::Slots { old, new })
    } else {
        None
    }
}

/// What differs of the cell at the place of its slot, of which each slot has nine.
fn cell(versions: &Versions, place: usize) -> Option<Change>
    requires sights { HaveSights versions.now }
    requires place { place < 2_304 }
    requires column { place % 9 < column_count }
    ensures { IsOne (IsAt versions.now (2 + place)) result }
{
    let slot = (place / PLACES) as u8;
    let column = place % PLACES;
    let old = versions.old.entry(slot).cells[column];
    let new = versions.new.entry(slot).cells[column];
    if old != new {
        Some(Change::Cell {
            slot,
            column: column as u8,
            old,
            new,
            is_unseen: is_unseen(versions, Sight::Cell { slot, column }),
        })
    } else {
        None
    }
}

fn letter(versions: &Versions, slot: u8) -> Option<Change>
    requires { HaveSights versions.now }
    ensures { IsOne (IsAt versions.now (2 + (slot * 9 + 8))) result }
{
    let old = versions.old.entry(slot).flag;
    let new = versions.new.entry(slot).flag;
    if old != new {
        Some(Change::Letter {
            slot,
            old,
            new,
            is_unseen: Letters { slot, old, new }.are_unseen(versions),
        })
    } else {
        None
    }
}

fn accent_counts(versions: &Versions) -> Option<Change>
    ensures { IsOne (IsAt versions.now 1) result }
{
    let old = versions.old.n_accs();
    let new = versions.new.n_accs();
    if old != new {
        Some(Change::Accents { old, new })
    } else {
        None
    }
}

fn accent_character(versions: &Versions, accent: u8) -> Option<Change>
    requires sights { HaveSights versions.now }
    requires accent { accent < accent_limit }
    ensures { IsOne (IsAt versions.now (2_306 + accent * 3)) result }
{
    let old = versions.old.accent_or_blank(accent).own();
    let new = versions.new.accent_or_blank(accent).own();
    if old != new {
        Some(Change::Accent {
            accent,
            old,
            new,
            is_unseen: is_dead_key_unseen(versions, accent),
        })
    } else {
        None
    }
}

/// The result of the first pair with this base.
fn result_of(pairs: &[(char, char)], base: char) -> Option<char>
    ensures { result ≡ first_result pairs.now base }
{
    for (from, to) in pairs {
        if *from == base {
            return Some(*to);
        }
    }
    None
}

fn pair(versions: &Versions, accent: u8, base: char) -> Option<Change>
    requires sights { HaveSights versions.now }
    requires accent { accent < accent_limit }
    ensures { IsOne (IsOfBaseIn versions.now accent (λ c. c ≡ base)) result }
{
    let old = result_of(versions.old.accent_or_blank(accent).pairs(), base);
    let new = result_of(versions.new.accent_or_blank(accent).pairs(), base);
    if old != new {
        let character = base;
        Some(Change::Pair {
            accent,
            base,
            old,
            new,
            is_unseen: is_unseen(versions, Sight::Pair { accent, character }),
        })
    } else {
        None
    }
}

/// Whether the bases of the pairs have the same results in both.
fn agree(pairs: &[(char, char)], old: &[(char, char)], new: &[(char, char)]) -> bool
    ensures same { result ≡ true → (base : ℕ) → HasBase pairs.now base
        → first_result old.now base ≡ first_result new.now base }
    ensures other { result ≡ false → HaveSameResults old.now new.now → ⊥ }
{
    for pair in pairs {
        if result_of(old, pair.0) != result_of(new, pair.0) {
            return false;
        }
    }
    true
}

/// Whether both make the same of each base.
pub(crate) fn have_same_results(old: &[(char, char)], new: &[(char, char)]) -> bool
    ensures same { result ≡ true → HaveSameResults old.now new.now }
    ensures other { result ≡ false → HaveSameResults old.now new.now → ⊥ }
{
    if agree(old, old, new) {
        agree(new, old, new)
    } else {
        false
    }
}

/// Whether the pairs of the accent are others, though they make the same of each base.
fn listed_otherwise(versions: &Versions, accent: u8) -> Option<Change>
    requires { accent < accent_limit }
    ensures { IsOne (IsAt versions.now (2_306 + (accent * 3 + 2))) result }
{
    let old = versions.old.accent_or_blank(accent).pairs();
    let new = versions.new.accent_or_blank(accent).pairs();
    if old == new {
        return None;
    }
    if have_same_results(old, new) {
        Some(Change::ListedOtherwise { accent })
    } else {
        None
    }
}

/// What differs at the place of a slot: of a cell, or behind them of the lock letter.
fn part(versions: &Versions, place: usize) -> Option<Change>
    requires sights { HaveSights versions.now }
    requires place { place < 2_304 }
    ensures { IsOne (IsAt versions.now (2 + place)) result }
{
    if place % PLACES < COLUMN_COUNT {
        cell(versions, place)
    } else {
        letter(versions, (place / PLACES) as u8)
    }
}

fn push_slots(found: &mut Vec<Change>, versions: &Versions) -> Added
    requires { HaveSights versions.now }
    ensures { OnOk result (PushesPlaces versions.now 2 2_306 found.old.items found.new.items) }
{
    for place in 0..SLOT_LIMIT * PLACES {
        add(found, part(versions, place))?;
    }
    Ok(())
}

/// Whether the base is neither one of these pairs nor of those.
fn is_new(before: &[(char, char)], earlier: &[(char, char)], base: char) -> bool
    ensures new { result ≡ true → (first_result before.now base ≡ None) × (first_result earlier.now base ≡ None) }
    ensures known { result ≡ false → first_result before.now base ≡ None → first_result earlier.now base ≡ None
        → ⊥ }
{
    match result_of(before, base) {
        Some(_) => false,
        None => result_of(earlier, base).is_none(),
    }
}

/// Adds what differs of the bases of these pairs that aren't among those before them.
fn push_bases(
    found: &mut Vec<Change>,
    versions: &Versions,
    accent: u8,
    before: &[(char, char)],
    pairs: &[(char, char)],
) -> Added
    requires sights { HaveSights versions.now }
    requires accent { accent < accent_limit }
    ensures { OnOk result (PushesBases versions.now accent before.now pairs.now found.old.items found.new.items) }
{
    for index in 0..pairs.len() {
        let base = pairs[index].0;
        if is_new(before, &pairs[..index], base) {
            add(found, pair(versions, accent, base))?;
        }
    }
    Ok(())
}

fn push_pairs_of(found: &mut Vec<Change>, versions: &Versions, accent: u8) -> Added
    requires sights { HaveSights versions.now }
    requires accent { accent < accent_limit }
    ensures { OnOk result (PushesAt versions.now (2_306 + (accent * 3 + 1)) found.old.items found.new.items) }
{
    let old = versions.old.accent_or_blank(accent).pairs();
    let new = versions.new.accent_or_blank(accent).pairs();
    push_bases(found, versions, accent, &[], old)?;
    push_bases(found, versions, accent, old, new)?;
    Ok(())
}

fn push_accent(found: &mut Vec<Change>, versions: &Versions, accent: u8) -> Added
    requires sights { HaveSights versions.now }
    requires accent { accent < accent_limit }
    ensures { OnOk result (PushesPlaces versions.now (2_306 + accent * 3) (2_306 + (accent + 1) * 3) found.old.items
        found.new.items) }
{
    add(found, accent_character(versions, accent))?;
    push_pairs_of(found, versions, accent)?;
    add(found, listed_otherwise(versions, accent))?;
    Ok(())
}

fn push_accents(found: &mut Vec<Change>, versions: &Versions) -> Added
    requires { HaveSights versions.now }
    ensures { OnOk result (PushesPlaces versions.now 2_306 2_351 found.old.items found.new.items) }
{
    for accent in 0..ACCENT_LIMIT as u8 {
        push_accent(found, versions, accent)?;
    }
    Ok(())
}

/// What differs between the keymaps, each cell, lock letter, accent and pair by itself.
pub(crate) fn changes(alloc: Global, versions: &Versions) -> Result<Vec<Change>, AllocError>
    requires { HaveSights versions.now }
    ensures { IfOk result (λ found. AreChanges (is_some versions.now.seen) versions.now.old.now versions.now.new.now
        found.items) }
{
    let mut found = Vec::new(alloc);
    add(&mut found, slot_counts(versions))?;
    add(&mut found, accent_counts(versions))?;
    push_slots(&mut found, versions)?;
    push_accents(&mut found, versions)?;
    Ok(found)
}
