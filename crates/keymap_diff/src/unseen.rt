//! Whether any press meets what differs, under either keymap, before a key forgets that it holds a modifier.
ghost use Rattle.std.specs.Prelude.{◌≡◌, ◌<◌, true, false, is_some};
ghost use Rattle.keymap_core.specs.Numbers.{accent_limit, column_count};
ghost use Rattle.console_states.specs.Sights.{AreSightsOf, AreSomeSights, IsReachable};
ghost use Rattle.keymap_diff.specs.Changes.{IsMark, MeetsSetting, MeetsLetters, MeetsDeadKeyAt, MeetsDeadKey};
ghost use Rattle.keymap_diff.specs.Inner.Versions.{HaveSights};

use crate::versions::Versions;
use console_core::flips;
use console_states::{Sight, Sights};
use keymap_core::{AccentIndex, Action, COLUMN_COUNT, Cell, KeyMap, LockFlag, SLOT_LIMIT};

/// The letters of a slot that differ.
#[derive(Clone, Copy)]
pub(crate) struct Letters {
    pub(crate) slot: u8,
    pub(crate) old: LockFlag,
    pub(crate) new: LockFlag,
}

/// Whether no press sees it, if it is known what presses see.
pub(crate) fn is_unseen(versions: &Versions, sight: Sight) -> bool
    requires { HaveSights versions.now }
    ensures { IsMark (is_some versions.now.seen) versions.now.old.now versions.now.new.now
        (λ m. IsReachable m sight) result }
{
    match &versions.seen {
        Some(seen) => {
            let is_old = seen.old.can_see(versions.old, sight);
            let is_new = seen.new.can_see(versions.new, sight);
            !is_old && !is_new
        }
        None => false,
    }
}

impl Letters {
    /// Whether a press can look up the slot under this setting of clock and nlock, and one of the letters alone flips
    /// shift there.
    fn are_seen_under(self, map: &KeyMap, sights: &Sights, caps: bool, num: bool) -> bool
        requires { AreSomeSights map.now sights.now }
        ensures seen { result ≡ true → MeetsSetting self.slot self.old self.new caps num map.now }
        ensures unseen { AreSightsOf map.now sights.now → result ≡ false
            → MeetsSetting self.slot self.old self.new caps num map.now → ⊥ }
    {
        let old = flips(self.old, caps, num);
        let new = flips(self.new, caps, num);
        let slot = self.slot;
        old != new && sights.can_see(map, Sight::Locks { slot, caps, num })
    }

    /// Whether a press can look up the slot under a setting where one of the letters alone flips shift.
    pub(crate) fn are_seen(self, map: &KeyMap, sights: &Sights) -> bool
        requires { AreSomeSights map.now sights.now }
        ensures seen { result ≡ true → MeetsLetters self.slot self.old self.new map.now }
        ensures unseen { AreSightsOf map.now sights.now → result ≡ false
            → MeetsLetters self.slot self.old self.new map.now → ⊥ }
    {
        self.are_seen_under(map, sights, false, false)
            || self.are_seen_under(map, sights, false, true)
            || self.are_seen_under(map, sights, true, false)
            || self.are_seen_under(map, sights, true, true)
    }

    /// Whether no press tells them apart, if it is known what presses see.
    pub(crate) fn are_unseen(self, versions: &Versions) -> bool
        requires { HaveSights versions.now }
        ensures { IsMark (is_some versions.now.seen) versions.now.old.now versions.now.new.now
            (MeetsLetters self.slot self.old self.new) result }
    {
        match &versions.seen {
            Some(seen) => {
                let are_old = self.are_seen(versions.old, seen.old);
                let are_new = self.are_seen(versions.new, seen.new);
                !are_old && !are_new
            }
            None => false,
        }
    }
}

/// Whether the cell is the dead key of the accent, and a press can look it up.
fn sees_dead_key_at(map: &KeyMap, sights: &Sights, accent: u8, slot: u8, column: usize) -> bool
    requires sights { AreSomeSights map.now sights.now }
    requires accent { accent < accent_limit }
    requires column { column < column_count }
    ensures seen { result ≡ true → MeetsDeadKeyAt accent map.now slot column }
    ensures unseen { AreSightsOf map.now sights.now → result ≡ false → MeetsDeadKeyAt accent map.now slot column → ⊥ }
{
    let cell = map.entry(slot).cells[column];
    let dead_key = Cell::Act(Action::DeadKey(AccentIndex::new(accent)));
    cell == dead_key && sights.can_see(map, Sight::Cell { slot, column })
}

/// Whether a press can look up the dead key of the accent.
pub(crate) fn sees_dead_key(map: &KeyMap, sights: &Sights, accent: u8) -> bool
    requires sights { AreSomeSights map.now sights.now }
    requires accent { accent < accent_limit }
    ensures seen { result ≡ true → MeetsDeadKey accent map.now }
    ensures unseen { AreSightsOf map.now sights.now → result ≡ false → MeetsDeadKey accent map.now → ⊥ }
{
    for place in 0..SLOT_LIMIT * COLUMN_COUNT {
        let slot = (place / COLUMN_COUNT) as u8;
        if sees_dead_key_at(map, sights, accent, slot, place % COLUMN_COUNT) {
            return true;
        }
    }
    false
}

/// Whether no press looks up the dead key of the accent, if it is known what presses see.
pub(crate) fn is_dead_key_unseen(versions: &Versions, accent: u8) -> bool
    requires sights { HaveSights versions.now }
    requires accent { accent < accent_limit }
    ensures { IsMark (is_some versions.now.seen) versions.now.old.now versions.now.new.now
        (MeetsDeadKey accent) result }
{
    match &versions.seen {
        Some(seen) => {
            let is_old = sees_dead_key(versions.old, seen.old, accent);
            let is_new = sees_dead_key(versions.new, seen.new, accent);
            !is_old && !is_new
        }
        None => false,
    }
}
