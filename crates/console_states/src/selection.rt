//! What of a state picks the cell that a key looks up.
ghost use Rattle.std.specs.Prelude.{◌≡◌, ◌<◌, ◌%◌, ℕ, false, true, MatchOption};
ghost use Rattle.keymap_core.specs.Numbers.{key_count, column_count};
ghost use Rattle.console_states.specs.Sights.{slot_in, column_in, look_selected, SeesBy};

use console_core::{column, flips};
use keymap_core::{Cell, KEY_COUNT, KeyCode, KeyMap, key_with};

/// The upper half, shift, control and alt, and the locks that flip shift. Left and right count alike.
#[derive(Clone, Copy, Debug, PartialEq, Eq)]
pub struct Selection {
    pub upper: bool,
    pub shift: bool,
    pub control: bool,
    pub alt: bool,
    pub caps: bool,
    pub num: bool,
}

/// What a press of a key sees.
#[derive(Clone, Copy, Debug, PartialEq, Eq)]
pub enum Sight {
    /// The press looks up this slot and column.
    Cell { slot: u8, column: usize },
    /// The press looks up this slot while clock and nlock are so.
    Locks { slot: u8, caps: bool, num: bool },
    /// The press looks up this character while the accent is pending.
    Pair { accent: u8, character: char },
}

/// The key of the slot.
fn key_of(slot: u8) -> KeyCode
    ensures in_range { result < key_count }
    ensures value { result ≡ slot % key_count }
{
    key_with(slot % KEY_COUNT as u8)
}

impl Selection {
    /// The slot that a press of the key looks up.
    pub fn slot(self, key: KeyCode) -> u8
        ensures in_range { key < key_count }
        ensures value { result ≡ slot_in self key }
    {
        if self.upper {
            key.get() + KEY_COUNT as u8
        } else {
            key.get()
        }
    }

    /// The column that a press of the key looks up.
    pub fn column(self, map: &KeyMap, key: KeyCode) -> usize
        ensures in_range { result < column_count }
        ensures value { result ≡ column_in map.now self key }
    {
        let flipped = flips(map.entry(self.slot(key)).flag, self.caps, self.num);
        column(self.shift != flipped, self.control, self.alt)
    }

    /// What a press of the key looks up.
    pub fn look(self, map: &KeyMap, key: KeyCode) -> Cell
        ensures { result ≡ look_selected map.now self key }
    {
        map.entry(self.slot(key)).cells[self.column(map, key)]
    }

    /// Whether a press of the key sees it, where a pair's accent is pending.
    #[inline(always)]
    pub fn sees(self, map: &KeyMap, key: KeyCode, sight: Sight) -> bool
        ensures seen { result ≡ true → SeesBy map.now self key sight }
        ensures unseen { result ≡ false → SeesBy map.now self key sight → ⊥ }
    {
        match sight {
            Sight::Cell { slot, column } => {
                self.slot(key) == slot && self.column(map, key) == column
            }
            Sight::Locks { slot, caps, num } => {
                self.slot(key) == slot && self.caps == caps && self.num == num
            }
            Sight::Pair { character, .. } => match self.look(map, key) {
                Cell::Char(c) => c == character,
                Cell::Act(_) => false,
            },
        }
    }

    /// The first key whose press sees it, where a pair's accent is pending.
    fn first_seeing(self, map: &KeyMap, sight: Sight) -> Option<KeyCode>
        ensures { MatchOption result ((k : ℕ) → k < key_count → SeesBy map.now self k sight → ⊥)
            (λ k. (k < key_count) × SeesBy map.now self k sight) }
    {
        for code in 0..KEY_COUNT as u8 {
            let key = key_with(code);
            if self.sees(map, key, sight) {
                return Some(key);
            }
        }
        None
    }

    /// The key of the slot, if its press sees it, where a pair's accent is pending.
    #[inline(always)]
    fn slot_seeing(self, map: &KeyMap, slot: u8, sight: Sight) -> Option<KeyCode>
        ensures { MatchOption result
            ((k : ℕ) → k < key_count → slot_in self k ≡ slot → SeesBy map.now self k sight → ⊥)
            (λ k. (k < key_count) × SeesBy map.now self k sight) }
    {
        let key = key_of(slot);
        if self.sees(map, key, sight) {
            Some(key)
        } else {
            None
        }
    }

    /// A key whose press sees it, where a pair's accent is pending. Of a cell or a lock setting only the key of the
    /// slot can.
    #[inline(always)]
    pub fn key_seeing(self, map: &KeyMap, sight: Sight) -> Option<KeyCode>
        ensures { MatchOption result ((k : ℕ) → k < key_count → SeesBy map.now self k sight → ⊥)
            (λ k. (k < key_count) × SeesBy map.now self k sight) }
    {
        match sight {
            Sight::Cell { slot, .. } => self.slot_seeing(map, slot, sight),
            Sight::Locks { slot, .. } => self.slot_seeing(map, slot, sight),
            Sight::Pair { .. } => self.first_seeing(map, sight),
        }
    }

    /// Whether a press of some key sees it, where a pair's accent is pending.
    #[inline(always)]
    pub fn is_seeing(self, map: &KeyMap, sight: Sight) -> bool
        ensures seen { result ≡ true → (k : ℕ) × (k < key_count) × SeesBy map.now self k sight }
        ensures unseen { result ≡ false → (k : ℕ) → k < key_count → SeesBy map.now self k sight → ⊥ }
    {
        match self.key_seeing(map, sight) {
            Some(_) => true,
            None => false,
        }
    }
}
