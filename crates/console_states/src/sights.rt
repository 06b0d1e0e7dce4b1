//! What presses of keys can see: what the states that the search meets tell of that.
ghost use Rattle.std.specs.Prelude.{◌≡◌, ℕ, false, true, OnOk, IfOk, MatchOption};
ghost use Rattle.std.specs.List.{Contains};
ghost use Rattle.keymap_core.specs.Maps.{MapValue};
ghost use Rattle.console_states.specs.Moves.{alone};
ghost use Rattle.console_states.specs.Sticking.{ReachesMoreThan, state_limit};
ghost use Rattle.console_states.specs.Sights.{AreSightsOf, AreSomeSights, IsReachable, can_see, is_selected};
ghost use Rattle.console_states.specs.Sights.{is_composed};
ghost use Rattle.console_states.specs.Searching.{AreLedTo, HasMetAll};
ghost use Rattle.console_states.specs.Inner.Adding.{AreSelectionsOf, CanSelectEach, IsWith};

use crate::few::few_states;
use crate::held::{Held, Keymaps};
use crate::offers::{offers_of, some_offers};
use crate::search::{End, Met, entry, first_stuck, meet_all};
use crate::selection::{Selection, Sight};
use keymap_core::KeyMap;
use std::alloc::{AllocError, Global};

/// What presses of keys can see under a keymap.
#[derive(Debug, Drop)]
pub struct Sights {
    /// The selections of the states, in the order in which they were met.
    pub selections: Vec<Selection>,
    /// The usable accents whose dead keys are looked up by keys that hold nothing.
    pub offers: Vec<Offer>,
    /// Whether a key that holds a modifier looks up a character, so that the modifier can be forgotten. Where these are
    /// some sights alone, that isn't asked.
    pub forgets: bool,
}

/// An accent that can be pending.
#[derive(Debug, Drop)]
pub struct Offer {
    pub accent: u8,
    /// The selections of the states that moves lead to from where its dead key is looked up.
    pub selections: Vec<Selection>,
}

fn has_selection(selections: &[Selection], selection: Selection) -> bool
    ensures { result ≡ true → Contains selections.now selection }
{
    for other in selections {
        if *other == selection {
            return true;
        }
    }
    false
}

/// Adds the selection, if it isn't there.
fn add_selection(selections: &mut Vec<Selection>, selection: Selection) -> Result<(), AllocError>
    ensures { OnOk result (IsWith selection selections.old.items selections.new.items) }
{
    if !has_selection(selections, selection) {
        selections.push(selection)?;
    }
    Ok(())
}

/// The selections of the states that were met where the minded accent is pending, or where it isn't.
pub fn selections_of(
    alloc: Global,
    met: &Met,
    is_pending: bool,
) -> Result<Vec<Selection>, AllocError>
    ensures { IfOk result (λ v. AreSelectionsOf is_pending met.now.entries v.items) }
{
    let mut selections = Vec::new(alloc);
    for place in 0..met.len() {
        let (held, _) = entry(met, place);
        if held.is_accent_pending() == is_pending {
            add_selection(&mut selections, held.selection())?;
        }
    }
    Ok(selections)
}

/// As `is_selected`, of which there is one for each kind of sight, so that no selection asks which it is.
#[inline(always)]
fn is_selected_of_kind(map: &KeyMap, selections: &[Selection], sight: Sight) -> bool
    ensures { result ≡ is_selected map.now selections.now sight }
{
    for selection in selections {
        if selection.is_seeing(map, sight) {
            return true;
        }
    }
    false
}

/// Whether a press under one of the selections sees it, where a pair's accent is pending.
fn is_selected(map: &KeyMap, selections: &[Selection], sight: Sight) -> bool
    ensures { result ≡ is_selected map.now selections.now sight }
{
    match sight {
        Sight::Cell { slot, column } => {
            is_selected_of_kind(map, selections, Sight::Cell { slot, column })
        }
        Sight::Locks { slot, caps, num } => {
            is_selected_of_kind(map, selections, Sight::Locks { slot, caps, num })
        }
        Sight::Pair { accent, character } => {
            is_selected_of_kind(map, selections, Sight::Pair { accent, character })
        }
    }
}

/// Whether a press sees it under one of the selections where the accent can be pending.
fn is_composed(map: &KeyMap, offers: &[Offer], accent: u8, sight: Sight) -> bool
    ensures { result ≡ is_composed map.now offers.now accent sight }
{
    for offer in offers {
        if offer.accent == accent && is_selected(map, &offer.selections, sight) {
            return true;
        }
    }
    false
}

impl Sights {
    /// Whether a press can see it, under the keymap that these are of; where they are some alone, whether they show it.
    pub fn can_see(&self, map: &KeyMap, sight: Sight) -> bool
        ensures some { AreSomeSights map.now self.now → result ≡ true → IsReachable map.now sight }
        ensures reachable { AreSightsOf map.now self.now → result ≡ true → IsReachable map.now sight }
        ensures unreachable { AreSightsOf map.now self.now → result ≡ false → IsReachable map.now sight → ⊥ }
        ensures value { result ≡ can_see map.now self.now sight }
    {
        match sight {
            Sight::Pair { accent, .. } => is_composed(map, &self.offers, accent, sight),
            _ => is_selected(map, &self.selections, sight),
        }
    }
}

/// What the states that were met, which are all, tell of that.
pub fn sights_in(alloc: Global, met: &Met, maps: &Keymaps) -> Result<Sights, AllocError>
    requires { HasMetAll maps.now met.now.entries }
    ensures { IfOk result (λ x. AreSightsOf maps.now.first.now x) }
{
    let selections = selections_of(alloc, met, false)?;
    let offers = offers_of(alloc, met, maps, &selections)?;
    Ok(Sights {
        selections,
        offers,
        forgets: first_stuck(met, maps).is_some(),
    })
}

/// What presses of keys can see under the keymap, or nothing where the search gives up.
pub fn sights_of(alloc: Global, map: &KeyMap) -> Result<Option<Sights>, AllocError>
    ensures { IfOk result (λ x. MatchOption x ((p : ℕ) × ReachesMoreThan (alone map.now) state_limit p)
        (λ s. AreSightsOf map.now s)) }
{
    let maps = Keymaps::alone(map);
    let (met, end) = meet_all(alloc, &maps, &Held::start())?;
    match end {
        End::Complete => Ok(Some(sights_in(alloc, &met, &maps)?)),
        End::TooMany(_) => Ok(None),
    }
}

/// The selections of the states.
fn some_selections(alloc: Global, states: &[Held]) -> Result<Vec<Selection>, AllocError>
    ensures { IfOk result (λ v. (m : MapValue) → AreLedTo (alone m) states.now → CanSelectEach m v.items) }
{
    let mut selections = Vec::new(alloc);
    for held in states {
        selections.push(held.selection())?;
    }
    Ok(selections)
}

/// Some of what presses of keys can see under the keymap: what those can that a few presses lead to.
pub fn some_sights(alloc: Global, map: &KeyMap) -> Result<Sights, AllocError>
    ensures { IfOk result (λ x. AreSomeSights map.now x) }
{
    let maps = Keymaps::alone(map);
    let states = few_states(alloc, &maps)?;
    let selections = some_selections(alloc, &states)?;
    let offers = some_offers(alloc, &states, &maps, &selections)?;
    Ok(Sights {
        selections,
        offers,
        forgets: false,
    })
}
