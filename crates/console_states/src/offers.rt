//! Which accents can be pending, and in which states: those of a search that minds the accent.
ghost use Rattle.std.specs.Prelude.{◌≡◌, ◌++◌, ◌∷◌, [], ℕ, List, true, false, OnOk, IfOk};
ghost use Rattle.std.specs.List.{Contains};
ghost use Rattle.keymap_core.specs.Numbers.{key_count};
ghost use Rattle.console_core.specs.Answers.{usable};
ghost use Rattle.console_states.specs.Moves.{alone};
ghost use Rattle.console_states.specs.Sights.{AreComposed, CanCompose, Lists};
ghost use Rattle.console_states.specs.Searching.{state_of, under_of, AreLedTo, HasMetAll};
ghost use Rattle.console_states.specs.Inner.Adding.{IsWith, AddsOffer, AddsOffers, AreAccentsOf, AreSelectionsOf};
ghost use Rattle.console_states.specs.Inner.Adding.{IsOfferedUnlocked, AreUnlocked, AreMinded};
ghost use Rattle.console_states.specs.Inner.Adding.{AreOffersOf, CanSelectEach};
ghost use Rattle.console_states.specs.Inner.KeyLists.{AreKeysOf};
ghost use Rattle.console_states.specs.declared.key_lists.CellKind.TheVariants.{DeadKey};

use crate::held::{Held, Keymaps};
use crate::key_lists::dead_keys;
use crate::search::{End, Met, entry, meet_all};
use crate::selection::Selection;
use crate::sights::{Offer, selections_of};
use console_core::is_usable;
use keymap_core::KeyCode;
use std::alloc::{AllocError, Global};

/// Adds the accent, if it isn't there.
fn add_accent(accents: &mut Vec<u8>, accent: u8) -> Result<(), AllocError>
    ensures { OnOk result (IsWith accent accents.old.items accents.new.items) }
{
    if !accents.contains(&accent) {
        accents.push(accent)?;
    }
    Ok(())
}

/// Adds the accent whose dead key the key looks up, if the key holds nothing and the accent is usable.
fn add_offer(
    accents: &mut Vec<u8>,
    maps: &Keymaps,
    held: &Held,
    key: KeyCode,
) -> Result<(), AllocError>
    ensures { OnOk result (AddsOffer (under_of maps.now) (state_of held.now) key accents.old.items
        accents.new.items) }
{
    if let Some(accent) = held.offered(maps, key) {
        if is_usable(maps.first, accent) {
            add_accent(accents, accent)?;
        }
    }
    Ok(())
}

/// Adds the accents that are offered in the state, of which the keys are given that can offer one.
fn add_offers(
    accents: &mut Vec<u8>,
    maps: &Keymaps,
    held: &Held,
    keys: &[KeyCode],
) -> Result<(), AllocError>
    requires { AreKeysOf DeadKey (under_of maps.now) keys.now key_count }
    ensures { OnOk result (AddsOffers (under_of maps.now) (state_of held.now) key_count accents.old.items
        accents.new.items) }
{
    for key in keys {
        add_offer(accents, maps, held, *key)?;
    }
    Ok(())
}

/// The accents that are offered in the states that were met.
fn accents_of(alloc: Global, met: &Met, maps: &Keymaps) -> Result<Vec<u8>, AllocError>
    ensures { IfOk result (λ accents. AreAccentsOf (under_of maps.now) met.now.entries accents.items) }
{
    let keys = dead_keys(alloc, maps)?;
    let mut accents = Vec::new(alloc);
    for place in 0..met.len() {
        let (held, _) = entry(met, place);
        add_offers(&mut accents, maps, &held, keys.as_slice())?;
    }
    Ok(accents)
}

/// Whether the accent is offered in a state that was met and where no lock is on.
fn is_offered_unlocked(met: &Met, maps: &Keymaps, accent: u8) -> bool
    ensures { result ≡ true → IsOfferedUnlocked (under_of maps.now) met.now.entries accent }
{
    for place in 0..met.len() {
        let (held, _) = entry(met, place);
        if !held.is_any_locked() {
            match held.key_offering(maps, accent) {
                Some(_) => return true,
                None => {}
            }
        }
    }
    false
}

/// The states that moves lead to where the accent is minded. They are at most twice as many as were met, which are all
/// where it isn't: so the search doesn't give up.
fn minded(alloc: Global, met: &Met, maps: &Keymaps, accent: u8) -> Result<Met, AllocError>
    requires { HasMetAll maps.now met.now.entries }
    ensures { IfOk result (λ states. AreMinded maps.now.first.now accent states.entries) }
{
    let (states, end) = meet_all(alloc, &Keymaps::minding(maps.first, accent), &Held::start())?;
    match end {
        End::Complete => Ok(states),
        End::TooMany(_) => unreachable!(),
    }
}

fn copied(alloc: Global, selections: &[Selection]) -> Result<Vec<Selection>, AllocError>
    ensures { IfOk result (λ v. v.items ≡ selections.now) }
{
    let mut copies = Vec::new(alloc);
    copies.extend_from_slice(selections)?;
    Ok(copies)
}

/// What can be looked up while the accent is pending. Where it is offered with no lock on, letting go leads to the
/// start, and so everywhere.
fn selections_behind(
    alloc: Global,
    met: &Met,
    maps: &Keymaps,
    all: &[Selection],
    accent: u8,
) -> Result<Vec<Selection>, AllocError>
    requires met { HasMetAll maps.now met.now.entries }
    requires usable { usable maps.now.first.now accent ≡ true }
    requires all { AreSelectionsOf false met.now.entries all.now }
    ensures { IfOk result (λ v. Lists (CanCompose maps.now.first.now accent) v.items) }
{
    if is_offered_unlocked(met, maps, accent) {
        copied(alloc, all)
    } else {
        let states = minded(alloc, met, maps, accent)?;
        selections_of(alloc, &states, true)
    }
}

/// Adds the offer.
fn push_offer(offers: &mut Vec<Offer>, offer: Offer) -> Result<(), AllocError>
    ensures { OnOk result (offers.new.items ≡ offers.old.items ++ offer ∷ []) }
{
    offers.push(offer)?;
    Ok(())
}

/// What can be looked up while each of the accents is pending.
fn offers_by(
    alloc: Global,
    met: &Met,
    maps: &Keymaps,
    all: &[Selection],
    accents: &[u8],
) -> Result<Vec<Offer>, AllocError>
    requires met { HasMetAll maps.now met.now.entries }
    requires all { AreSelectionsOf false met.now.entries all.now }
    requires usable { (a : ℕ) → Contains accents.now a → usable maps.now.first.now a ≡ true }
    ensures { IfOk result (λ offers. AreOffersOf maps.now.first.now accents.now offers.items) }
{
    let mut offers = Vec::new(alloc);
    for accent in accents {
        let selections = selections_behind(alloc, met, maps, all, *accent)?;
        push_offer(
            &mut offers,
            Offer {
                accent: *accent,
                selections,
            },
        )?;
    }
    Ok(offers)
}

/// The accents that are offered in those of the states where no lock is on.
fn unlocked_accents(alloc: Global, states: &[Held], maps: &Keymaps) -> Result<Vec<u8>, AllocError>
    ensures { IfOk result (λ accents. AreUnlocked (under_of maps.now) states.now accents.items) }
{
    let keys = dead_keys(alloc, maps)?;
    let mut accents = Vec::new(alloc);
    for held in states {
        if held.is_any_locked() {
            continue;
        }
        add_offers(&mut accents, maps, held, keys.as_slice())?;
    }
    Ok(accents)
}

/// Of the accents, those that are offered in one of the states where no lock is on, and some of what can be looked up
/// while they are pending.
pub fn some_offers(
    alloc: Global,
    states: &[Held],
    maps: &Keymaps,
    some: &[Selection],
) -> Result<Vec<Offer>, AllocError>
    requires alone { under_of maps.now ≡ alone maps.now.first.now }
    requires led { AreLedTo (under_of maps.now) states.now }
    requires some { CanSelectEach maps.now.first.now some.now }
    ensures { IfOk result (λ offers. AreComposed maps.now.first.now offers.items) }
{
    let mut offers = Vec::new(alloc);
    let accents = unlocked_accents(alloc, states, maps)?;
    for accent in &accents {
        let selections = copied(alloc, some)?;
        push_offer(
            &mut offers,
            Offer {
                accent: *accent,
                selections,
            },
        )?;
    }
    Ok(offers)
}

/// The accents that are offered in the states that were met, which are all, and what can be looked up while they are
/// pending.
pub fn offers_of(
    alloc: Global,
    met: &Met,
    maps: &Keymaps,
    all: &[Selection],
) -> Result<Vec<Offer>, AllocError>
    requires met { HasMetAll maps.now met.now.entries }
    requires all { AreSelectionsOf false met.now.entries all.now }
    ensures { IfOk result (λ offers. (accents : List ℕ)
        × AreAccentsOf (alone maps.now.first.now) met.now.entries accents
        × AreOffersOf maps.now.first.now accents offers.items) }
{
    let accents = accents_of(alloc, met, maps)?;
    offers_by(alloc, met, maps, all, &accents)
}
