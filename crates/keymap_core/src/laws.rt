//! Laws over the definitions: each function does nothing, and its contract is the law.
ghost use Rattle.std.specs.Prelude.{◌≡◌, ◌≢◌, ◌↔◌, ◌<◌, ◌≤◌, ◌+◌, max, ℕ, List, All, map, Some, None, IsTrue};
ghost use Rattle.std.specs.Char.{to_ascii_lowercase};
ghost use Rattle.keymap_core.specs.Accents.{AccentValue, blank};
ghost use Rattle.keymap_core.specs.Actions.{IsAction, IsCodeOfNoAction, code_of, name_of, action_of};
ghost use Rattle.keymap_core.specs.Bearers.{Bears, IsUpperLive};
ghost use Rattle.keymap_core.specs.Bounds.{IsEntry, IsAccent, IsMap};
ghost use Rattle.keymap_core.specs.Borne.{is_borne, is_upper_live};
ghost use Rattle.keymap_core.specs.Maps.{MapValue, undefined, n_keys_of, n_accs_of, entry_at, accent_or_blank};
ghost use Rattle.keymap_core.specs.Maps.{with_entry, with_accent};
ghost use Rattle.keymap_core.specs.Names.{named_of, combined_names};
ghost use Rattle.keymap_core.specs.Numbers.{key_count};
ghost use Rattle.keymap_core.specs.declared.action.Action.{Action};
ghost use Rattle.keymap_core.specs.declared.action.Holding.{Holding};
ghost use Rattle.keymap_core.specs.declared.entry.Cell.{Cell};
ghost use Rattle.keymap_core.specs.declared.entry.Entry.{Entry};

use crate::accent::Accent;
use crate::action::Action;
use crate::bounds::Bounded;
use crate::entry::{Cell, Entry};
use crate::map::KeyMap;
use crate::named::Named;

/// The name of an action, read again, gives the action.
pub fn every_name_is_read()
    ensures { (action : Action) → IsAction action → named_of (name_of action) ≡ Named.Action action }
{}

/// The code of an action has that action.
pub fn every_code_is_read()
    ensures { (action : Action) → IsAction action → action_of (code_of action) ≡ Some action }
{}

/// A code that has an action is the code of that action.
pub fn every_action_has_its_code()
    ensures { (code : ℕ) (action : Action) → action_of code ≡ Some action → (code_of action ≡ code) × IsAction action }
{}

/// No action has the codes of the combined actions and the unused codes, and each other code has one.
pub fn unused_codes_have_no_action()
    ensures { (code : ℕ) → (action_of code ≡ None) ↔ IsCodeOfNoAction code }
{}

/// The names of the combined actions are refused as such.
pub fn combined_names_are_refused()
    ensures { All (λ word. named_of word ≡ Named.Combined) combined_names }
{}

/// Words that differ in ASCII case alone have one meaning.
pub fn case_does_not_matter()
    ensures { (a b : List ℕ) → map to_ascii_lowercase a ≡ map to_ascii_lowercase b → named_of a ≡ named_of b }
{}

/// `==` tells whether two actions are the same.
pub fn equal_actions_are_the_same()
    ensures { (a b : Action) → IsTrue (⟦<Action as PartialEq>⟧.eq a b) ↔ (a ≡ b) }
{}

/// `==` tells whether two cells are the same.
pub fn equal_cells_are_the_same()
    ensures { (a b : Cell) → IsTrue (⟦<Cell as PartialEq>⟧.eq a b) ↔ (a ≡ b) }
{}

/// `==` tells whether two entries are the same.
pub fn equal_entries_are_the_same()
    ensures { (a b : Entry) → IsTrue (⟦<Entry as PartialEq>⟧.eq a b) ↔ (a ≡ b) }
{}

/// `==` tells whether two accents are the same.
pub fn equal_accents_are_the_same()
    ensures { (a b : AccentValue) → IsTrue (⟦<Accent as PartialEq>⟧.eq a b) ↔ (a ≡ b) }
{}

/// `==` tells whether two maps are the same.
pub fn equal_maps_are_the_same()
    ensures { (a b : MapValue) → IsTrue (⟦<KeyMap as PartialEq>⟧.eq a b) ↔ (a ≡ b) }
{}

/// The test tells whether the slots 128 to 255 are live.
pub fn the_upper_half_is_live_by_test()
    ensures { (map : MapValue) → IsTrue (is_upper_live map) ↔ IsUpperLive map }
{}

/// The test tells whether some key bears a holding action.
pub fn holding_actions_are_borne_by_test()
    ensures { (map : MapValue) (action : Holding)
        → IsTrue (is_borne map action) ↔ ((key : ℕ) × (key < key_count) × Bears map key action) }
{}

/// Slots at or past the number of keys are undefined.
pub fn slots_past_the_last_are_undefined()
    ensures { (map : MapValue) (slot : ℕ) → n_keys_of map ≤ slot → entry_at map slot ≡ undefined }
{}

/// Accents at or past the number of accents have character 0 and no pairs.
pub fn accents_past_the_last_are_blank()
    ensures { (map : MapValue) (index : ℕ) → n_accs_of map ≤ index → accent_or_blank map index ≡ blank }
{}

/// An entry that is set stands in its slot, the others stay, and the number of keys is the greater of itself and the
/// slot plus one.
pub fn an_entry_is_set_in_its_slot()
    ensures here { (map : MapValue) (slot : ℕ) (entry : Entry) → entry_at (with_entry map slot entry) slot ≡ entry }
    ensures others { (map : MapValue) (slot other : ℕ) (entry : Entry) → other ≢ slot
        → entry_at (with_entry map slot entry) other ≡ entry_at map other }
    ensures count { (map : MapValue) (slot : ℕ) (entry : Entry)
        → n_keys_of (with_entry map slot entry) ≡ max (n_keys_of map) (slot + 1) }
{}

/// An accent that is set stands at its index, and the others stay.
pub fn an_accent_is_set_at_its_index()
    ensures here { (map : MapValue) (index : ℕ) (accent : AccentValue)
        → accent_or_blank (with_accent map index accent) index ≡ accent }
    ensures others { (map : MapValue) (index other : ℕ) (accent : AccentValue) → other ≢ index
        → accent_or_blank (with_accent map index accent) other ≡ accent_or_blank map other }
    ensures count { (map : MapValue) (index : ℕ) (accent : AccentValue)
        → n_accs_of (with_accent map index accent) ≡ max (n_accs_of map) (index + 1) }
{}

/// Each map holds at most 256 entries of eight cells and 15 accents of 52 pairs, each cell a scalar value or an action
/// of the table, and no base 0.
#[inline(always)]
pub fn every_keymap_is_within_the_bounds(map: &KeyMap)
    ensures { IsMap map.now }
{
    map.has_bounds();
}

/// Each entry has eight cells, each a scalar value or an action of the table.
pub fn every_entry_is_within_the_bounds(entry: &Entry)
    ensures { IsEntry entry.now }
{
    entry.has_bounds();
}

/// Each accent has a scalar value of its own and at most 52 pairs of them, and no base 0.
pub fn every_accent_is_within_the_bounds(accent: &Accent)
    ensures { IsAccent accent.now }
{
    accent.has_bounds();
}
