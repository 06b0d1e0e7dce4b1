//! What comes of taps under one keymap alone, and what takes more presses under one of two.
ghost use Rattle.std.specs.Prelude.{◌≡◌, ◌↔◌, true, IfOk, MatchOption};
ghost use Rattle.std.specs.List.Sorted.{IsStrictlySortedBy};
ghost use Rattle.std.specs.Ordering.{nat_cmp};
ghost use Rattle.keymap_core.specs.Actions.{code_of};
ghost use Rattle.console_scripts.specs.Typing.{AreGiven, CanType};
ghost use Rattle.keymap_core.specs.Maps.{MapValue};
ghost use Rattle.keymap_core.specs.declared.action.Action.{Action as ActionValue};
ghost use Rattle.keymap_consequences.specs.Consequences.{AreCharacters, AreTapChanges, IsFarther, IsGivenAlone};
ghost use Rattle.keymap_consequences.specs.Consequences.{IsTypedAlone, TakesMore};
ghost use Rattle.keymap_consequences.specs.Lists.{ListsInOrder};
ghost use Rattle.keymap_consequences.specs.Inner.Near.{AreTapsOf};

use crate::presses::Near;
use console_scripts::Yield;
use keymap_core::Action;
use std::alloc::{AllocError, Global};
use std::collections::BTreeSet;

/// What comes of taps of keys under one keymap and not under the other: characters in the order of their code points,
/// actions in that of their codes.
#[derive(Debug, Drop)]
pub struct TapChanges {
    /// Characters that keys can type before the change and not behind it.
    pub types_no_longer: Vec<char>,
    pub types_now: Vec<char>,
    /// Characters that keys can type under both, and one press types before the change and not behind it, or one or two
    /// presses do.
    pub more_presses: Vec<char>,
    pub fewer_presses: Vec<char>,
    /// Actions that a tap gives before the change and not behind it: no `nop`, modifiers or locks, and dead keys only of
    /// accents that have a character.
    pub gives_no_longer: Vec<Action>,
    pub gives_now: Vec<Action>,
}

/// What comes of taps under a keymap, and which characters take few presses.
#[derive(Drop)]
pub(crate) struct Taps {
    pub(crate) given: Yield,
    pub(crate) near: Near,
}

/// The characters in their order.
fn listed(alloc: Global, set: &BTreeSet<char>) -> Result<Vec<char>, AllocError>
    ensures items { IfOk result (λ cs. cs.items ≡ set.now.keys) }
    ensures in_order { IfOk result (λ cs. IsStrictlySortedBy nat_cmp cs.items) }
{
    set.iter().copied().collect(alloc)
}

/// Those that the others don't have.
fn alone(alloc: Global, these: &Taps, others: &Taps) -> Result<Vec<char>, AllocError>
    ensures { (m n : MapValue) → AreTapsOf m these.now → AreTapsOf n others.now
        → IfOk result (λ cs. AreCharacters (IsTypedAlone m n) cs.items) }
{
    let typed = listed(alloc, &these.given.typed)?;
    let mut characters = Vec::new(alloc);
    for c in typed.as_slice() {
        if !others.given.typed.contains(c) {
            characters.push(*c)?;
        }
    }
    Ok(characters)
}

/// Whether the others have it too, and it takes more presses there.
fn is_farther(these: &Taps, others: &Taps, c: char) -> bool
    ensures { (m n : MapValue) → AreTapsOf m these.now → AreTapsOf n others.now
        → (result ≡ true) ↔ (CanType n c × TakesMore m n c) }
{
    others.given.typed.contains(&c) && others.near.takes_more(&these.near, c)
}

/// Those that the others have too, and that take more presses there.
fn farther(alloc: Global, these: &Taps, others: &Taps) -> Result<Vec<char>, AllocError>
    ensures { (m n : MapValue) → AreTapsOf m these.now → AreTapsOf n others.now
        → IfOk result (λ cs. AreCharacters (IsFarther m n) cs.items) }
{
    let typed = listed(alloc, &these.given.typed)?;
    let mut characters = Vec::new(alloc);
    for c in typed.as_slice() {
        if is_farther(these, others, *c) {
            characters.push(*c)?;
        }
    }
    Ok(characters)
}

/// The action with the code, if it is given here and not there.
fn given_at(these: &[bool; 256], others: &[bool; 256], code: u8) -> Option<Action>
    ensures { (m n : MapValue) → AreGiven m these.now → AreGiven n others.now → MatchOption result
        ((a : ActionValue) → code_of a ≡ code → IsGivenAlone m n a → ⊥)
        (λ a. (code_of a ≡ code) × IsGivenAlone m n a) }
{
    if !these[usize::from(code)] {
        return None;
    }
    if others[usize::from(code)] {
        return None;
    }
    Action::from_code(code)
}

/// The actions that are given here and not there, by their codes.
fn given_alone(
    alloc: Global,
    these: &[bool; 256],
    others: &[bool; 256],
) -> Result<Vec<Action>, AllocError>
    ensures { (m n : MapValue) → AreGiven m these.now → AreGiven n others.now
        → IfOk result (λ actions. ListsInOrder code_of (IsGivenAlone m n) actions.items) }
{
    let mut actions = Vec::new(alloc);
    for code in 0..256_u16 {
        if let Some(action) = given_at(these, others, code as u8) {
            actions.push(action)?;
        }
    }
    Ok(actions)
}

/// What comes of taps under one of the two alone.
pub(crate) fn changes(alloc: Global, old: &Taps, new: &Taps) -> Result<TapChanges, AllocError>
    ensures { (m n : MapValue) → AreTapsOf m old.now → AreTapsOf n new.now
        → IfOk result (AreTapChanges m n) }
{
    Ok(TapChanges {
        types_no_longer: alone(alloc, old, new)?,
        types_now: alone(alloc, new, old)?,
        more_presses: farther(alloc, old, new)?,
        fewer_presses: farther(alloc, new, old)?,
        gives_no_longer: given_alone(alloc, &old.given.given, &new.given.given)?,
        gives_now: given_alone(alloc, &new.given.given, &old.given.given)?,
    })
}
