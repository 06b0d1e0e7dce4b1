//! The keys that bear a modifier or lock under two keymaps.
ghost use Rattle.std.specs.Prelude.{◌≡◌, ◌<◌, ◌↔◌, true, false, IfOk};
ghost use Rattle.keymap_core.specs.Actions.{holding_index};
ghost use Rattle.keymap_core.specs.Bearers.{Bears};
ghost use Rattle.keymap_core.specs.Numbers.{key_count};
ghost use Rattle.keymap_consequences.specs.Consequences.{AreBearers, AreBearings, IsBearing, IsBorneOtherwise};
ghost use Rattle.keymap_consequences.specs.Inner.Keys.{BearsNothing, HasNoHolding, IsKeys, SlotBearsNothing};

use keymap_core::{Action, Cell, Holding, KEY_COUNT, KeyCode, KeyMap, Lock, Modifier, key_with};
use std::alloc::{AllocError, Global};

/// The keys that bear a modifier or lock before a change and behind it, in their order.
#[derive(Debug, Drop)]
pub struct Bearing {
    pub holding: Holding,
    pub old: Vec<KeyCode>,
    pub new: Vec<KeyCode>,
}

/// A keymap, whether its upper half is live, and which keys may bear a modifier or lock: most bear none, and need not be
/// asked for each.
#[derive(Drop)]
pub(crate) struct Keys<'m> {
    map: &'m KeyMap,
    is_upper_live: bool,
    may_bear: [bool; KEY_COUNT],
}

fn is_holding(cell: &Cell) -> bool
    ensures { result ≡ false → HasNoHolding cell.now }
{
    matches!(cell, Cell::Act(Action::Mod(_)) | Cell::Act(Action::Lock(_)))
}

/// Whether some cell of the slot is a modifier or lock.
fn has_holding(map: &KeyMap, slot: u8) -> bool
    ensures { result ≡ false → SlotBearsNothing map.now slot }
{
    for cell in map.entry(slot).cells() {
        if is_holding(cell) {
            return true;
        }
    }
    false
}

/// Whether some cell of the key is, in either half.
fn may_bear(map: &KeyMap, key: KeyCode) -> bool
    requires { key < key_count }
    ensures { result ≡ false → BearsNothing map.now key }
{
    if has_holding(map, key.get()) {
        return true;
    }
    has_holding(map, key.get() + KEY_COUNT as u8)
}

impl<'m> Keys<'m> {
    pub(crate) fn of(map: &'m KeyMap) -> Keys<'m>
        ensures { IsKeys map.now result }
    {
        let mut keys = [false; KEY_COUNT];
        for code in 0..KEY_COUNT as u8 {
            keys[usize::from(code)] = may_bear(map, key_with(code));
        }
        Keys {
            map,
            is_upper_live: map.is_upper_live(),
            may_bear: keys,
        }
    }

    /// Whether the key bears it.
    fn bears(&self, key: KeyCode, holding: Holding) -> bool
        requires keys { IsKeys self.now.map.now self.now }
        requires key { key < key_count }
        ensures bears { result ≡ true → Bears self.now.map.now key holding }
        ensures none { result ≡ false → Bears self.now.map.now key holding → ⊥ }
    {
        if !self.may_bear[usize::from(key.get())] {
            return false;
        }
        if self.map.has_in_slot(holding, key.get()) {
            return true;
        }
        if !self.is_upper_live {
            return false;
        }
        self.map.has_in_slot(holding, key.get() + KEY_COUNT as u8)
    }

    /// The keys that bear it, in their order.
    fn bearers(&self, alloc: Global, holding: Holding) -> Result<Vec<KeyCode>, AllocError>
        requires { IsKeys self.now.map.now self.now }
        ensures { IfOk result (λ keys. AreBearers self.now.map.now holding keys.items) }
    {
        let mut keys = Vec::new(alloc);
        for code in 0..KEY_COUNT as u8 {
            let key = key_with(code);
            if self.bears(key, holding) {
                keys.push(key)?;
            }
        }
        Ok(keys)
    }
}

/// Whether the key bears it under both or under neither.
fn bear_alike(old: &Keys, new: &Keys, key: KeyCode, holding: Holding) -> bool
    requires old { IsKeys old.now.map.now old.now }
    requires new { IsKeys new.now.map.now new.now }
    requires key { key < key_count }
    ensures alike { result ≡ true → Bears old.now.map.now key holding ↔ Bears new.now.map.now key holding }
    ensures otherwise { result ≡ false
        → (Bears old.now.map.now key holding ↔ Bears new.now.map.now key holding) → ⊥ }
{
    if old.bears(key, holding) {
        return new.bears(key, holding);
    }
    !new.bears(key, holding)
}

/// Whether not the same keys bear it.
fn is_borne_otherwise(old: &Keys, new: &Keys, holding: Holding) -> bool
    requires old { IsKeys old.now.map.now old.now }
    requires new { IsKeys new.now.map.now new.now }
    ensures otherwise { result ≡ true → IsBorneOtherwise old.now.map.now new.now.map.now holding }
    ensures alike { result ≡ false → IsBorneOtherwise old.now.map.now new.now.map.now holding → ⊥ }
{
    for code in 0..KEY_COUNT as u8 {
        let key = key_with(code);
        if !bear_alike(old, new, key, holding) {
            return true;
        }
    }
    false
}

/// The modifier or lock at its place in their order.
fn holding_at(index: u8) -> Holding
    requires { index < 12 }
    ensures { holding_index result ≡ index }
{
    match index {
        0 => Holding::Mod(Modifier::LeftShift),
        1 => Holding::Mod(Modifier::RightShift),
        2 => Holding::Mod(Modifier::LeftControl),
        3 => Holding::Mod(Modifier::RightControl),
        4 => Holding::Mod(Modifier::LeftAlt),
        5 => Holding::Mod(Modifier::RightAlt),
        6 => Holding::Mod(Modifier::AltShift),
        7 => Holding::Mod(Modifier::Meta),
        8 => Holding::Lock(Lock::Caps),
        9 => Holding::Lock(Lock::Num),
        10 => Holding::Lock(Lock::Scroll),
        _ => Holding::Lock(Lock::Alt),
    }
}

/// The bearers of it under both, which not the same keys are.
fn bearing_of(
    alloc: Global,
    old: &Keys,
    new: &Keys,
    holding: Holding,
) -> Result<Bearing, AllocError>
    requires old { IsKeys old.now.map.now old.now }
    requires new { IsKeys new.now.map.now new.now }
    requires otherwise { IsBorneOtherwise old.now.map.now new.now.map.now holding }
    ensures bearing { IfOk result (IsBearing old.now.map.now new.now.map.now) }
    ensures holding { IfOk result (λ b. b.holding ≡ holding) }
{
    Ok(Bearing {
        holding,
        old: old.bearers(alloc, holding)?,
        new: new.bearers(alloc, holding)?,
    })
}

/// The bearers of each modifier and lock that not the same keys bear.
pub(crate) fn bearings(
    alloc: Global,
    old: &KeyMap,
    new: &KeyMap,
) -> Result<Vec<Bearing>, AllocError>
    ensures { IfOk result (λ bs. AreBearings old.now new.now bs.items) }
{
    let old = Keys::of(old);
    let new = Keys::of(new);
    let mut bearings = Vec::new(alloc);
    for index in 0..12_u8 {
        let holding = holding_at(index);
        if is_borne_otherwise(&old, &new, holding) {
            bearings.push(bearing_of(alloc, &old, &new, holding)?)?;
        }
    }
    Ok(bearings)
}
