//! What keys that hold nothing look up in the states that were explored.
use console_scripts::Explorer;
use console_states::{Held, KeyAt, Selection};
use keymap_core::{Cell, KEY_COUNT, KeyMap, key_with};
use std::alloc::{AllocError, Global};

/// A key that holds nothing in the state at a place, and what it looks up there.
#[derive(Clone, Copy)]
pub(crate) struct IdleKey {
    pub(crate) at: KeyAt,
    pub(crate) cell: Cell,
}

/// The selections of states from which a route leads home, and the idle keys in the first state of each.
#[derive(Drop)]
pub(crate) struct IdleKeys {
    pub(crate) selections: Vec<Selection>,
    pub(crate) keys: Vec<IdleKey>,
}

impl IdleKeys {
    fn add(&mut self, map: &KeyMap, state: &Held, place: usize) -> Result<(), AllocError> {
        let selection = state.selection();
        self.selections.push(selection)?;
        for code in 0..KEY_COUNT as u8 {
            let key = key_with(code);
            if !state.holds(key) {
                self.keys.push(IdleKey {
                    at: KeyAt { place, key },
                    cell: selection.look(map, key),
                })?;
            }
        }
        Ok(())
    }

    pub(crate) fn of(
        alloc: Global,
        map: &KeyMap,
        explorer: &Explorer,
    ) -> Result<IdleKeys, AllocError> {
        let mut idle = IdleKeys {
            selections: Vec::new(alloc),
            keys: Vec::new(alloc),
        };
        for place in 0..explorer.len() {
            if let Some(state) = explorer.state(place) {
                let is_new = !idle.selections.contains(&state.selection());
                if is_new && explorer.leads_home(&state) {
                    idle.add(map, &state, place)?;
                }
            }
        }
        Ok(idle)
    }

    /// The first that looks up the cell.
    pub(crate) fn first(&self, cell: &Cell) -> Option<KeyAt> {
        for key in &self.keys {
            if key.cell == *cell {
                return Some(key.at);
            }
        }
        None
    }
}
