//! The places of cells that taps look up in a few states: mostly these are all of which something comes, and no search
//! is needed.
ghost use Rattle.std.specs.Prelude.{◌≡◌, ◌<◌, ◌⊎◌, true, ℕ, IfOk};
ghost use Rattle.console_states.specs.Moves.{alone};
ghost use Rattle.console_states.specs.Searching.{IsLedTo, state_of};
ghost use Rattle.console_scripts.specs.Inner.Places.{CanLookUp, IsMarked, cell_of_place, gives_cell};
ghost use Rattle.console_scripts.specs.Inner.Places.{live_count, place_count};

use crate::places::{Marks, gives, mark_in, no_marks};
use console_states::{Held, Keymaps, few_states};
use keymap_core::{COLUMN_COUNT, Cell, KEY_COUNT, KeyMap, SLOT_LIMIT};
use std::alloc::{AllocError, Global};

/// The cell at the place.
pub(crate) fn cell_at(map: &KeyMap, place: usize) -> Cell
    requires { place < place_count }
    ensures { result ≡ cell_of_place map.now place }
{
    map.entry((place / COLUMN_COUNT) as u8).cells[place % COLUMN_COUNT]
}

/// Marks the places that keys look up in the state, if no lock is on and meta isn't held.
fn mark_plainly(marks: &mut Marks, map: &KeyMap, held: &Held)
    requires { IsLedTo (alone map.now) (state_of held.now) }
    ensures { (p : ℕ) → IsMarked marks.new p → IsMarked marks.old p ⊎ CanLookUp map.now true p }
{
    if held.is_any_locked() || held.is_meta_held() {
        return;
    }
    let _ = mark_in(marks, map, held);
}

/// Some places that plain taps look up.
pub(crate) fn few_places(alloc: Global, map: &KeyMap) -> Result<Marks, AllocError>
    ensures { IfOk result (λ marks. (p : ℕ) → IsMarked marks p → CanLookUp map.now true p) }
{
    let states = few_states(alloc, &Keymaps::alone(map))?;
    let mut marks = no_marks();
    for held in &states {
        mark_plainly(&mut marks, map, held);
    }
    Ok(marks)
}

/// Whether all places are marked at which there is something that presses may look up.
pub(crate) fn are_all_marked(map: &KeyMap, marks: &Marks) -> bool
    ensures { result ≡ true → (p : ℕ) → p < live_count map.now → gives_cell (cell_of_place map.now p) ≡ true
        → IsMarked marks.now p }
{
    let live = if map.is_upper_live() {
        SLOT_LIMIT * COLUMN_COUNT
    } else {
        KEY_COUNT * COLUMN_COUNT
    };
    for place in 0..live {
        if !marks[place] && gives(&cell_at(map, place)) {
            return false;
        }
    }
    true
}
