//! What a press of a key shows of the difference of two keymaps.
ghost use Rattle.std.specs.Prelude.{◌≡◌, ◌<◌, ℕ, None, Some, true, false, IfOk, MatchOption};
ghost use Rattle.keymap_core.specs.Maps.{accent_at};
ghost use Rattle.keymap_core.specs.Numbers.{key_count};
ghost use Rattle.console_core.specs.Answers.{composed_by};
ghost use Rattle.console_states.specs.Moves.{Holds, IsIdle, State};
ghost use Rattle.console_states.specs.Searching.{state_of, under_of};
ghost use Rattle.keymap_diff.specs.Inner.Showing.{AreCellsAlike, IsFirstShown, IsUnnoticed, MakesSame, NoneShows};
ghost use Rattle.keymap_diff.specs.Inner.Showing.{AreShowing, IsClear, IsSlotClear, Shows};
ghost use Rattle.keymap_diff.specs.Inner.Showing.{ShowsNothing, alone_minding};

use crate::compared::have_same_results;
use console_core::is_usable;
use console_states::{Held, KeyAt, Keymaps, Met, first_where};
use keymap_core::{
    Action, COLUMN_COUNT, Cell, KEY_COUNT, KeyCode, KeyMap, Keymap, MODIFIERS, Modifier, key_with,
};
use std::alloc::{AllocError, Global};

/// Two keymaps that are told apart.
#[derive(Clone, Copy)]
pub(crate) struct Both<'a> {
    pub(crate) old: &'a KeyMap,
    pub(crate) new: &'a KeyMap,
}

/// Whether a key that holds the modifier takes nothing by the cell.
fn is_unnoticed(cell: &Cell, modifier: Modifier) -> bool
    ensures unnoticed { result ≡ true → IsUnnoticed modifier cell.now }
    ensures noticed { result ≡ false → IsUnnoticed modifier cell.now → ⊥ }
{
    match cell {
        Cell::Char(_) => false,
        Cell::Act(action) => *action != Action::Mod(modifier),
    }
}

/// Whether the cell is neither `nop` nor the character 0.
fn is_plain(cell: &Cell) -> bool {
    match cell {
        Cell::Char(c) => *c != '\0',
        Cell::Act(action) => *action != Action::Nop,
    }
}

/// The modifier that the key holds, if it holds one.
fn held_by(held: &Held, key: KeyCode) -> Option<Modifier>
    ensures { MatchOption result (IsIdle (state_of held.now) key) (λ i. Holds (state_of held.now) key i) }
{
    for modifier in MODIFIERS {
        if let Some(holder) = held.holder(modifier) {
            if holder.get() == key.get() {
                return Some(modifier);
            }
        }
    }
    None
}

/// What the accent makes of the character.
fn made(map: &KeyMap, accent: u8, c: char) -> Option<char>
    ensures { result ≡ composed_by (accent_at map.now accent) c }
{
    if c == ' ' {
        map.own(accent)
    } else {
        map.composed(accent, c)
    }
}

impl<'a> Both<'a> {
    /// The keymaps of a search that minds the accent or none: states and moves are those of the old keymap alone.
    pub(crate) fn maps(&self, minded: Option<u8>) -> Keymaps<'a>
        ensures { under_of result ≡ alone_minding self.now.old.now minded }
    {
        Keymaps {
            first: self.old,
            second: self.old,
            has_loads: false,
            presses: None,
            minded,
        }
    }

    /// Whether the cells are the same, and a dead key can be used under both keymaps or under neither.
    fn are_alike(&self, old: &Cell, new: &Cell) -> bool
        ensures alike { result ≡ true → AreCellsAlike self.now.old.now self.now.new.now old.now new.now }
        ensures differ { result ≡ false → AreCellsAlike self.now.old.now self.now.new.now old.now new.now → ⊥ }
    {
        if *old != *new {
            return false;
        }
        match old {
            Cell::Act(Action::DeadKey(accent)) => {
                is_usable(self.old, accent.get()) == is_usable(self.new, accent.get())
            }
            _ => true,
        }
    }

    /// Whether the accent makes the same of the character.
    fn makes_alike(&self, accent: u8, c: char) -> bool
        ensures same { result ≡ true → MakesSame self.now.old.now self.now.new.now accent c }
        ensures other { result ≡ false → MakesSame self.now.old.now self.now.new.now accent c → ⊥ }
    {
        let old = made(self.old, accent, c);
        let new = made(self.new, accent, c);
        old == new
    }

    /// Whether the accent makes the same of each character.
    pub(crate) fn makes_all_alike(&self, accent: u8) -> bool
        ensures { result ≡ true → (c : ℕ) → MakesSame self.now.old.now self.now.new.now accent c }
    {
        let old = self.old.accent_or_blank(accent);
        let new = self.new.accent_or_blank(accent);
        self.makes_alike(accent, ' ') && have_same_results(old.pairs(), new.pairs())
    }

    /// Whether the cells that the key looks up show the difference, where no accent is minded.
    fn shows_cells(&self, held: &Held, key: KeyCode) -> bool
        ensures shown { result ≡ true → Shows self.now.old.now self.now.new.now None (state_of held.now) key }
        ensures nothing { result ≡ false → ShowsNothing self.now.old.now self.now.new.now None (state_of held.now) key }
    {
        let selection = held.selection();
        let old = selection.look(self.old, key);
        let new = selection.look(self.new, key);
        if self.are_alike(&old, &new) {
            return false;
        }
        match held_by(held, key) {
            None => true,
            Some(modifier) => !(is_unnoticed(&old, modifier) && is_unnoticed(&new, modifier)),
        }
    }

    /// Whether what the accent makes shows it, if that is pending, which is minded.
    fn shows_accent(&self, held: &Held, accent: u8, key: KeyCode) -> bool
        ensures shown { result ≡ true → Shows self.now.old.now self.now.new.now (Some accent) (state_of held.now) key }
        ensures nothing { result ≡ false
            → ShowsNothing self.now.old.now self.now.new.now (Some accent) (state_of held.now) key }
    {
        if !held.is_accent_pending() {
            return false;
        }
        match &held.selection().look(self.old, key) {
            Cell::Char(c) => !self.makes_alike(accent, *c),
            Cell::Act(Action::DeadKey(other)) => {
                other.get() == accent && !held.holds(key) && !self.makes_alike(accent, ' ')
            }
            Cell::Act(_) => false,
        }
    }

    /// Whether a press of the key or its release shows it.
    fn shows(&self, held: &Held, minded: Option<u8>, key: KeyCode) -> bool
        ensures shown { result ≡ true → Shows self.now.old.now self.now.new.now minded (state_of held.now) key }
        ensures nothing { result ≡ false
            → ShowsNothing self.now.old.now self.now.new.now minded (state_of held.now) key }
    {
        match minded {
            None => self.shows_cells(held, key),
            Some(accent) => self.shows_accent(held, accent, key),
        }
    }

    /// Whether a press that looks up the cells can show it in some state.
    fn can_show(&self, minded: Option<u8>, old: &Cell, new: &Cell) -> bool
        ensures { result ≡ false → IsClear self.now.old.now self.now.new.now minded old.now new.now }
    {
        match minded {
            None => !self.are_alike(old, new),
            Some(accent) => match old {
                Cell::Char(c) => !self.makes_alike(accent, *c),
                Cell::Act(Action::DeadKey(other)) => {
                    other.get() == accent && !self.makes_alike(accent, ' ')
                }
                Cell::Act(_) => false,
            },
        }
    }

    /// Whether a press that looks up the slot can.
    fn can_show_in_slot(&self, minded: Option<u8>, slot: u8) -> bool
        ensures { result ≡ false → IsSlotClear self.now.old.now self.now.new.now minded slot }
    {
        let old = self.old.entry(slot);
        let new = self.new.entry(slot);
        if old.flag != new.flag {
            return true;
        }
        for column in 0..COLUMN_COUNT {
            if self.can_show(minded, &old.cells[column], &new.cells[column]) {
                return true;
            }
        }
        false
    }

    /// Whether a press of the key can.
    fn can_key_show(&self, minded: Option<u8>, key: KeyCode) -> bool
        ensures { result ≡ false
            → (s : State) → ShowsNothing self.now.old.now self.now.new.now minded s key }
    {
        self.can_show_in_slot(minded, key.get())
            || self.can_show_in_slot(minded, key.get() + KEY_COUNT as u8)
    }

    /// The keys whose presses can show it in some state, in their order.
    pub(crate) fn keys_showing(
        &self,
        alloc: Global,
        minded: Option<u8>,
    ) -> Result<Vec<KeyCode>, AllocError>
        ensures { IfOk result (λ keys. AreShowing self.now.old.now self.now.new.now minded keys.items key_count) }
    {
        let mut keys = Vec::new(alloc);
        for code in 0..KEY_COUNT as u8 {
            let key = key_with(code);
            if self.can_key_show(minded, key) {
                keys.push(key)?;
            }
        }
        Ok(keys)
    }

    /// Whether the key looks up plain cells, which somebody at the keyboard notices best.
    fn looks_plain(&self, held: &Held, key: KeyCode) -> bool {
        let selection = held.selection();
        is_plain(&selection.look(self.old, key)) && is_plain(&selection.look(self.new, key))
    }

    /// One of these keys that does, the first that looks up plain cells if there is one.
    pub(crate) fn key_showing(
        &self,
        held: &Held,
        minded: Option<u8>,
        keys: &[KeyCode],
    ) -> Option<KeyCode>
        requires { AreShowing self.now.old.now self.now.new.now minded keys.now key_count }
        ensures { MatchOption result (NoneShows self.now.old.now self.now.new.now minded (state_of held.now))
            (λ k. (k < key_count) × Shows self.now.old.now self.now.new.now minded (state_of held.now) k) }
    {
        let mut found = None;
        for key in keys {
            if self.shows(held, minded, *key) {
                if self.looks_plain(held, *key) {
                    return Some(*key);
                }
                found = found.or(Some(*key));
            }
        }
        found
    }

    /// The first place where one of these keys does.
    #[tactic(auto, using(console_states::proofs::Shared::look_tells))]
    pub(crate) fn first_showing(
        &self,
        met: &Met,
        minded: Option<u8>,
        keys: &[KeyCode],
    ) -> Option<KeyAt>
        requires { AreShowing self.now.old.now self.now.new.now minded keys.now key_count }
        ensures { IsFirstShown self.now.old.now self.now.new.now minded met.now.entries result }
    {
        first_where(met, |held| self.key_showing(&held, minded, keys))
    }
}
