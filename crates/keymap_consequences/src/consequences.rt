//! All consequences of a change of a keymap.
ghost use Rattle.std.specs.Prelude.{◌⊎◌, IfOk, MatchOption};
ghost use Rattle.keymap_consequences.specs.Consequences.{AreConsequences, AreTapChanges, GivesUp};
ghost use Rattle.keymap_consequences.specs.Inner.Near.{AreTapsOf};

use crate::bearing::{Bearing, bearings};
use crate::presses::Near;
use crate::refused::{Refused, refused_alone};
use crate::taps::{TapChanges, Taps, changes};
use console_scripts::yield_of;
use keymap_check::check;
use keymap_core::KeyMap;
use std::alloc::{AllocError, Global};

/// The consequences of a change of a keymap: what is so under it before the change and not behind it, and the other way
/// round.
#[derive(Debug, Drop)]
pub struct Consequences {
    /// Whether the check accepts the keymap before the change.
    pub was_accepted: bool,
    /// Whether it does behind it.
    pub is_accepted: bool,
    /// The keys that the check names before the change and not behind it, in their order.
    pub refused_no_longer: Vec<Refused>,
    pub refused_now: Vec<Refused>,
    /// The modifiers and locks that not the same keys bear, in their order.
    pub bearings: Vec<Bearing>,
    /// What comes of taps; nothing where more than 65,536 states can be reached under one of the keymaps.
    pub taps: Option<TapChanges>,
}

/// What comes of taps under the keymap, or nothing where there are more than 65,536 states.
fn taps_under(alloc: Global, map: &KeyMap) -> Result<Option<Taps>, AllocError>
    ensures { IfOk result (λ taps. MatchOption taps (GivesUp map.now) (AreTapsOf map.now)) }
{
    let Some(given) = yield_of(alloc, map)? else {
        return Ok(None);
    };
    let near = Near::of(alloc, map)?;
    Ok(Some(Taps { given, near }))
}

/// What comes of taps under one of the keymaps alone.
fn tap_changes(alloc: Global, old: &KeyMap, new: &KeyMap) -> Result<Option<TapChanges>, AllocError>
    ensures { IfOk result (λ taps. MatchOption taps (GivesUp old.now ⊎ GivesUp new.now)
        (AreTapChanges old.now new.now)) }
{
    let Some(old) = taps_under(alloc, old)? else {
        return Ok(None);
    };
    let Some(new) = taps_under(alloc, new)? else {
        return Ok(None);
    };
    Ok(Some(changes(alloc, &old, &new)?))
}

/// The consequences of a change of the keymap from the old one to the new one.
pub fn consequences_of(
    alloc: Global,
    old: &KeyMap,
    new: &KeyMap,
) -> Result<Consequences, AllocError>
    ensures { IfOk result (AreConsequences old.now new.now) }
{
    let before = check(old);
    let behind = check(new);
    let were = before.findings().as_slice();
    let are = behind.findings().as_slice();
    Ok(Consequences {
        was_accepted: before.accepted(),
        is_accepted: behind.accepted(),
        refused_no_longer: refused_alone(alloc, old, were, are)?,
        refused_now: refused_alone(alloc, new, are, were)?,
        bearings: bearings(alloc, old, new)?,
        taps: tap_changes(alloc, old, new)?,
    })
}
