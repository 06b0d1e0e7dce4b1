//! The cells that taps of keys look up, by their places: those of which something comes, by one exploration of a
//! keymap.
//!
//! What a key looks up depends on the selection of a state alone. So keys are asked in each selection once, where those
//! that hold a modifier there look up nothing of which something comes.
ghost use Rattle.std.specs.Prelude.{◌≡◌, ◌+◌, ◌<◌, true, false, length, ℕ, OnOk, IfOk};
ghost use Rattle.std.specs.List.{Contains};
ghost use Rattle.keymap_core.specs.Numbers.{key_count};
ghost use Rattle.console_states.specs.Moves.{is_held, start};
ghost use Rattle.console_states.specs.Searching.{state_of};
ghost use Rattle.console_states.specs.Sights.{selection_of};
ghost use Rattle.console_scripts.specs.Types.{Meta};
ghost use Rattle.console_scripts.specs.Inner.Exploring.{IsExploredFrom, map_of_explored};
ghost use Rattle.console_scripts.specs.Inner.Places.{ArePlaces, IsGathered, IsMarked, IsWithKey, IsWithKeys};
ghost use Rattle.console_scripts.specs.Inner.Places.{gives_cell, place_in, place_count};
ghost use Rattle.console_scripts.specs.Inner.Routes.{HasRoute};

use crate::explored::Explored;
use crate::routes::has_route;
use console_states::{Held, Selection, entry};
use keymap_core::{Action, COLUMN_COUNT, Cell, KEY_COUNT, KeyCode, KeyMap, SLOT_LIMIT, key_with};
use std::alloc::{AllocError, Global};

/// Which cells are looked up: 8 times the slot and the column is the place of a cell.
pub(crate) type Marks = [bool; SLOT_LIMIT * COLUMN_COUNT];

/// No marks.
pub(crate) fn no_marks() -> Marks
    ensures { (p : ℕ) → IsMarked result p → ⊥ }
{
    [false; SLOT_LIMIT * COLUMN_COUNT]
}

/// Whether something comes of a tap that looks up the cell: a character, or an action that is no modifier or lock.
pub(crate) fn gives(cell: &Cell) -> bool
    ensures { result ≡ gives_cell cell.now }
{
    !matches!(
        cell,
        Cell::Act(Action::Nop) | Cell::Act(Action::Mod(_)) | Cell::Act(Action::Lock(_))
    )
}

/// Whether the selection is among these.
fn is_among(selections: &[Selection], selection: Selection) -> bool
    ensures { result ≡ true → Contains selections.now selection }
{
    for other in selections {
        if *other == selection {
            return true;
        }
    }
    false
}

/// The place of the cell that a press of the key looks up.
fn place(map: &KeyMap, selection: Selection, key: KeyCode) -> usize
    requires { key < key_count }
    ensures value { result ≡ place_in map.now selection key }
    ensures in_range { result < place_count }
{
    usize::from(selection.slot(key)) * COLUMN_COUNT + selection.column(map, key)
}

/// Marks the place that the key looks up, if something comes of it, unless the key holds a modifier. Answers whether
/// all are marked that were looked up, if all were before. Most are already.
fn mark_of_key(
    marks: &mut Marks,
    map: &KeyMap,
    held: &Held,
    selection: Selection,
    key: KeyCode,
    are_all: bool,
) -> bool
    requires { selection ≡ selection_of (state_of held.now) }
    ensures { IsWithKey map.now (state_of held.now) key are_all marks.old marks.new result }
{
    let at = place(map, selection, key);
    if marks[at] {
        return are_all;
    }
    if !gives(&selection.look(map, key)) {
        return are_all;
    }
    if held.holds(key) {
        return false;
    }
    marks[at] = true;
    are_all
}

/// Marks the places that keys look up which hold no modifier in the state. Answers whether these are all that are
/// looked up where the same is selected.
pub(crate) fn mark_in(marks: &mut Marks, map: &KeyMap, held: &Held) -> bool
    ensures { IsWithKeys map.now (state_of held.now) key_count marks.old marks.new result }
{
    let selection = held.selection();
    let mut are_all = true;
    for code in 0..KEY_COUNT as u8 {
        are_all = mark_of_key(marks, map, held, selection, key_with(code), are_all);
    }
    are_all
}

impl<'m> Explored<'m> {
    /// Whether taps in the state count: a route leads home, and meta is off where they are to be plain.
    fn has_taps(&self, held: &Held, is_plain: bool) -> bool
        ensures route { result ≡ true → HasRoute self.now.routes.entries (state_of held.now) }
        ensures plain { result ≡ true → is_plain ≡ true → is_held (state_of held.now) Meta ≡ false }
        ensures none { result ≡ false → HasRoute self.now.routes.entries (state_of held.now)
            → (is_plain ≡ true → is_held (state_of held.now) Meta ≡ false) → ⊥ }
    {
        if is_plain && held.is_meta_held() {
            return false;
        }
        has_route(&self.routes, held)
    }

    /// Marks the places that are looked up by taps at the place, unless its selection is one of which all are marked.
    fn mark_at(
        &self,
        marks: &mut Marks,
        known: &mut Vec<Selection>,
        place: usize,
        is_plain: bool,
    ) -> Result<(), AllocError>
        requires place { place < length self.now.met.entries }
        requires gathered { IsGathered self.now is_plain place marks.old known.old.items }
        ensures { OnOk result (IsGathered self.now is_plain (place + 1) marks.new known.new.items) }
    {
        let (held, _) = entry(&self.met, place);
        let selection = held.selection();
        if is_among(known.as_slice(), selection) {
            return Ok(());
        }
        if !self.has_taps(&held, is_plain) {
            return Ok(());
        }
        let are_all = mark_in(marks, self.maps.first, &held);
        if are_all {
            known.push(selection)?;
            return Ok(());
        }
        Ok(())
    }

    /// The places that taps look up in the states that were met; where the taps are to be plain, those that they do
    /// while meta is off.
    pub(crate) fn places(&self, alloc: Global, is_plain: bool) -> Result<Marks, AllocError>
        requires { IsExploredFrom (map_of_explored self.now) start self.now }
        ensures { IfOk result (λ marks. ArePlaces (map_of_explored self.now) is_plain self.now.is_complete marks) }
    {
        let mut marks = no_marks();
        let mut known = Vec::new(alloc);
        for place in 0..self.met.len() {
            self.mark_at(&mut marks, &mut known, place, is_plain)?;
        }
        Ok(marks)
    }
}
