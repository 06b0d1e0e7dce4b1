//! A store with a truth value for each modifier, lock and down mark, and an optional action for each key.
ghost use Rattle.std.specs.Prelude.{◌≡◌, ◌<◌, length, IfSome};
ghost use Rattle.std.proofs.Props.{props};
ghost use Rattle.keymap_core.specs.Numbers.{key_count, accent_limit};
ghost use Rattle.console_core.specs.Agrees.{nothing_kept};
ghost use Rattle.console_core.specs.Inner.Tables.{kept_in_tables};

use crate::store::Store;
use keymap_core::{Action, Holding, KEY_COUNT, KeyCode, Lock};

/// The marks are those of the modifiers and the down marks of the locks, in the order of the holding actions.
#[derive(Clone, Copy, Drop)]
pub struct PlainStore {
    marks: [bool; 12],
    locks: [bool; 4],
    actions: [Option<Action>; KEY_COUNT],
    pending: Option<u8>,
    is_second: bool,
    ghost marks_len: { length marks ≡ 12 },
    ghost locks_len: { length locks ≡ 4 },
    ghost actions_len: { length actions ≡ key_count },
    ghost pending_in_range: { IfSome pending (λ i. i < accent_limit) } by { Prim.hlevel props },
}

#[tactic(auto, using(crate::proofs::Places::places))]
impl PlainStore {
    pub fn new() -> PlainStore
        ensures { kept_in_tables result.marks result.locks result.actions result.pending result.is_second
            ≡ nothing_kept }
    {
        PlainStore {
            marks: [false; 12],
            locks: [false; 4],
            actions: [None; KEY_COUNT],
            pending: None,
            is_second: false,
        }
    }
}

#[tactic(auto, using(crate::proofs::Places::places))]
impl Store for PlainStore {
    ghost kept = { λ s. kept_in_tables s.marks s.locks s.actions s.pending s.is_second };

    fn is_marked(&self, holding: Holding) -> bool {
        self.marks[holding.index()]
    }

    fn is_locked(&self, which: Lock) -> bool {
        self.locks[which.index()]
    }

    fn remembered(&self, key: KeyCode) -> Option<Action> {
        self.actions[key.get() as usize]
    }

    fn remembers(&self, key: KeyCode, action: Action) -> Option<bool> {
        match self.actions[key.get() as usize] {
            Some(held) => Some(held == action),
            None => None,
        }
    }

    fn pending(&self) -> Option<u8> {
        self.pending
    }

    fn is_second(&self) -> bool {
        self.is_second
    }

    fn set_mark(&mut self, holding: Holding, on: bool) {
        self.marks[holding.index()] = on;
    }

    fn turn(&mut self, which: Lock) {
        let place = which.index();
        self.locks[place] = !self.locks[place];
    }

    fn remember(&mut self, key: KeyCode, action: Option<Action>) {
        self.actions[key.get() as usize] = action;
    }

    fn set_pending(&mut self, index: Option<u8>) {
        self.pending = index;
    }

    fn reset(&mut self) {
        self.marks = [false; 12];
        let nothing = [None; KEY_COUNT];
        self.actions = nothing;
        self.pending = None;
    }

    fn exchange(&mut self) {
        self.is_second = !self.is_second;
    }
}
