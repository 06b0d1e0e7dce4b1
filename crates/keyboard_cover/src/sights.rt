//! What allowed presses can see: in each state to which they lead, and, while an accent is pending, in each to which
//! they lead where it is minded and pending.
ghost use Rattle.std.specs.Prelude.{◌≡◌, ℕ, length, OnOk, IfOk, MatchOption};
ghost use Rattle.keymap_core.specs.Maps.{n_accs_of};
ghost use Rattle.keymap_core.specs.Numbers.{key_count};
ghost use Rattle.console_states.specs.Searching.{state_of, under_of};
ghost use Rattle.console_states.specs.Sticking.{ReachesMoreThan, state_limit};
ghost use Rattle.keymap_cover.specs.SeenSights.{Gains, has_seen};
ghost use Rattle.keyboard_cover.specs.Sights.{AreAllowedSights, under};
ghost use Rattle.keyboard_cover.specs.Inner.Sights.{HasMetAllBy, AreMindedBy, under_minding};
ghost use Rattle.keyboard_cover.specs.Inner.Sights.{SeesBehind, SeesBehindSome, SeesIn, SeesInMet, SeesMade, SeesUnder};

use console_core::is_usable;
use console_states::{End, Held, Keymaps, Met, Presses, Selection, entry, first_stuck, meet_all};
use keymap_core::{KEY_COUNT, KeyCode, KeyMap, key_with};
use keymap_cover::Seen;
use std::alloc::{AllocError, Global};

/// What allowed presses can see, and whether one of them can make a console forget a modifier.
#[derive(Drop)]
pub struct AllowedSights {
    pub can: Seen,
    pub forgets: bool,
}

/// The keymap alone, by these presses, where this accent is minded, or none.
fn keymaps_of<'m>(map: &'m KeyMap, presses: &'m Presses, minded: Option<u8>) -> Keymaps<'m>
    ensures under { under_of result ≡ under_minding presses.now map.now minded }
    ensures first { result.first.now ≡ map.now }
{
    Keymaps {
        first: map,
        second: map,
        has_loads: false,
        presses: Some(presses),
        minded,
    }
}

/// Adds what a press of the key sees under the selection, if it is made.
fn add_key(
    can: &mut Seen,
    map: &KeyMap,
    presses: &Presses,
    selection: Selection,
    key: KeyCode,
    pending: Option<u8>,
) -> Result<(), AllocError>
    ensures { OnOk result (Gains (SeesMade presses.now map.now pending selection key) (has_seen can.old)
        (has_seen can.new)) }
{
    if presses.has(selection, key, selection.look(map, key)) {
        can.add_press(map, selection, key, pending)?;
    }
    Ok(())
}

/// Adds what presses of keys see under the selection.
fn add_keys(
    can: &mut Seen,
    map: &KeyMap,
    presses: &Presses,
    selection: Selection,
    pending: Option<u8>,
) -> Result<(), AllocError>
    ensures { OnOk result (Gains (SeesUnder presses.now map.now pending key_count selection) (has_seen can.old)
        (has_seen can.new)) }
{
    for code in 0..KEY_COUNT as u8 {
        add_key(can, map, presses, selection, key_with(code), pending)?;
    }
    Ok(())
}

/// Adds what they see in the state, if the accent is pending there, or, where none is given, if none is.
fn add_state(
    can: &mut Seen,
    map: &KeyMap,
    presses: &Presses,
    held: &Held,
    pending: Option<u8>,
) -> Result<(), AllocError>
    ensures { OnOk result (Gains (SeesIn presses.now map.now pending (state_of held.now)) (has_seen can.old)
        (has_seen can.new)) }
{
    if held.is_accent_pending() == pending.is_some() {
        add_keys(can, map, presses, held.selection(), pending)?;
    }
    Ok(())
}

/// Adds what they see in those of the states that were met.
fn add_met(
    can: &mut Seen,
    map: &KeyMap,
    presses: &Presses,
    met: &Met,
    pending: Option<u8>,
) -> Result<(), AllocError>
    ensures { OnOk result (Gains (SeesInMet presses.now map.now pending met.now.entries (length met.now.entries))
        (has_seen can.old) (has_seen can.new)) }
{
    for place in 0..met.len() {
        let (held, _) = entry(met, place);
        add_state(can, map, presses, &held, pending)?;
    }
    Ok(())
}

/// The states that moves lead to where the accent is minded. They are at most twice as many as were met, which are all
/// where it isn't: so the search doesn't give up.
fn minded(
    alloc: Global,
    map: &KeyMap,
    presses: &Presses,
    met: &Met,
    accent: u8,
) -> Result<Met, AllocError>
    requires { HasMetAllBy presses.now map.now met.now.entries }
    ensures { IfOk result (λ states. AreMindedBy presses.now map.now accent states.entries) }
{
    let maps = keymaps_of(map, presses, Some(accent));
    let (states, end) = meet_all(alloc, &maps, &Held::start())?;
    match end {
        End::Complete => Ok(states),
        End::TooMany(_) => unreachable!(),
    }
}

/// Adds what presses see while the accent is pending.
fn add_accent(
    alloc: Global,
    can: &mut Seen,
    map: &KeyMap,
    presses: &Presses,
    met: &Met,
    accent: u8,
) -> Result<(), AllocError>
    requires { HasMetAllBy presses.now map.now met.now.entries }
    ensures { OnOk result (Gains (SeesBehind presses.now map.now accent) (has_seen can.old) (has_seen can.new)) }
{
    if is_usable(map, accent) {
        let states = minded(alloc, map, presses, met, accent)?;
        add_met(can, map, presses, &states, Some(accent))?;
    }
    Ok(())
}

/// Adds what presses see while an accent is pending.
fn add_accents(
    alloc: Global,
    can: &mut Seen,
    map: &KeyMap,
    presses: &Presses,
    met: &Met,
) -> Result<(), AllocError>
    requires { HasMetAllBy presses.now map.now met.now.entries }
    ensures { OnOk result (Gains (SeesBehindSome presses.now map.now (n_accs_of map.now)) (has_seen can.old)
        (has_seen can.new)) }
{
    for accent in 0..map.n_accs() {
        add_accent(alloc, can, map, presses, met, accent)?;
    }
    Ok(())
}

/// What the states that were met, which are all, tell of that.
fn sights_in(
    alloc: Global,
    map: &KeyMap,
    presses: &Presses,
    met: &Met,
) -> Result<AllowedSights, AllocError>
    requires { HasMetAllBy presses.now map.now met.now.entries }
    ensures { IfOk result (λ x. AreAllowedSights presses.now map.now x) }
{
    let mut can = Seen::new(alloc)?;
    add_met(&mut can, map, presses, met, None)?;
    add_accents(alloc, &mut can, map, presses, met)?;
    let maps = keymaps_of(map, presses, None);
    Ok(AllowedSights {
        can,
        forgets: first_stuck(met, &maps).is_some(),
    })
}

/// What allowed presses can see, or nothing where the search gives up.
pub fn allowed_sights(
    alloc: Global,
    map: &KeyMap,
    presses: &Presses,
) -> Result<Option<AllowedSights>, AllocError>
    ensures { IfOk result (λ o. MatchOption o ((p : ℕ) × ReachesMoreThan (under presses.now map.now) state_limit p)
        (λ x. AreAllowedSights presses.now map.now x)) }
{
    let maps = keymaps_of(map, presses, None);
    let (met, end) = meet_all(alloc, &maps, &Held::start())?;
    match end {
        End::Complete => Ok(Some(sights_in(alloc, map, presses, &met)?)),
        End::TooMany(_) => Ok(None),
    }
}
