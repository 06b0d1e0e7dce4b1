//! The keymap: `struct keymap` and `struct accentmap` of sys/kbio.h.
ghost use Rattle.std.specs.Prelude.{◌≡◌, ◌<◌, ◌≤◌, ◌↔◌, [], IfOk, IfSome, OnOk, OnErr, IsErr, option_copied, slice_get};
ghost use Rattle.keymap_core.specs.Numbers.{slot_limit, accent_limit};

use crate::accent::Accent;
use crate::bounds::{Bounded, have_bounds};
use crate::entry::{Entry, UNDEFINED};
use crate::limits::{ACCENT_LIMIT, SLOT_LIMIT};
use std::alloc::{AllocError, Global};
use std::marker::Model;

/// No accent has this index: it is above 14.
#[derive(Clone, Copy, Debug, PartialEq, Eq)]
pub struct BadAccent;

/// A keymap: its defined entries and accents.
#[derive(Debug, Drop)]
pub struct KeyMap {
    entries: Vec<Entry>,
    accents: Vec<Accent>,
    /// The undefined entry, lent for each slot past the last.
    past: Entry,
    /// The blank accent, lent for each index past the last.
    blank: Accent,
}

impl Model for KeyMap {
    ghost use Rattle.keymap_core.specs.Maps.{MapValue};

    ghost Value = { MapValue };

    ghost use Rattle.keymap_core.specs.Inner.Inside.{IsSound};

    ghost view = { λ m. record { entries = m.entries.items; accents = m.accents.items } };

    ghost invariant = { IsSound };
}

impl KeyMap {
    ghost use Rattle.keymap_core.specs.Maps.{entry_at, accent_or_blank, with_entry, with_accent, n_keys_of, n_accs_of};

    /// The map of no keys, with room for all that a map ever holds.
    pub fn new(alloc: Global) -> Result<KeyMap, AllocError>
        ensures entries { IfOk result (λ m. m.entries ≡ []) }
        ensures accents { IfOk result (λ m. m.accents ≡ []) }
    {
        let entries = Vec::with_capacity(alloc, SLOT_LIMIT)?;
        let accents = Vec::with_capacity(alloc, ACCENT_LIMIT)?;
        Ok(KeyMap {
            entries,
            accents,
            past: UNDEFINED,
            blank: Accent::new('\0'),
        })
    }

    /// How many slots there are up to the last defined one, 0 to 256.
    pub fn n_keys(&self) -> u16
        ensures value { result ≡ n_keys_of self.now }
        ensures bounded { result ≤ slot_limit }
    {
        self.entries.len() as u16
    }

    /// The entry of the slot, undefined past the last defined one.
    pub fn entry(&self, slot: u8) -> &Entry
        ensures { result.now ≡ entry_at self.now slot }
    {
        self.entries.get(slot as usize).unwrap_or(&self.past)
    }

    /// Defines the slot. Slots below it that weren't defined stay undefined.
    pub fn set(&mut self, slot: u8, entry: Entry)
        ensures { self.new ≡ with_entry self.old slot entry }
    {
        let index = slot as usize;
        while self.entries.len() <= index {
            self.entries.push_reserved(UNDEFINED);
        }
        self.entries[index] = entry;
    }

    /// How many accents there are up to the last defined one, 0 to 15.
    pub fn n_accs(&self) -> u8
        ensures value { result ≡ n_accs_of self.now }
        ensures bounded { result ≤ accent_limit }
    {
        self.accents.len() as u8
    }

    /// The accent, if its index is below the number of accents.
    pub fn accent(&self, index: u8) -> Option<&Accent>
        ensures value { option_copied result ≡ slice_get self.now.accents index }
        ensures in_range { IfSome result (λ _. index < accent_limit) }
    {
        self.accents.get(index as usize)
    }

    /// The accent of the index, blank past the last defined one.
    pub fn accent_or_blank(&self, index: u8) -> &Accent
        ensures { result.now ≡ accent_or_blank self.now index }
    {
        self.accents.get(index as usize).unwrap_or(&self.blank)
    }

    /// Defines the accent. Where the index is above 14 the accent is dropped.
    pub fn set_accent(&mut self, index: u8, accent: Accent) -> Result<(), BadAccent>
        ensures ok { OnOk result (self.new ≡ with_accent self.old index accent) }
        ensures refused { IsErr result ↔ (accent_limit ≤ index) }
        ensures err { OnErr result (self.new ≡ self.old) }
    {
        let index = index as usize;
        if index >= ACCENT_LIMIT {
            return Err(BadAccent);
        }
        while self.accents.len() <= index {
            self.accents.push_reserved(Accent::new('\0'));
        }
        self.accents[index] = accent;
        Ok(())
    }

    /// A copy of the map.
    pub fn try_clone(&self, alloc: Global) -> Result<KeyMap, AllocError>
        ensures { IfOk result (λ m. m ≡ self.now) }
    {
        let mut entries = Vec::with_capacity(alloc, SLOT_LIMIT)?;
        let mut accents = Vec::with_capacity(alloc, ACCENT_LIMIT)?;
        entries.extend_from_slice(&self.entries)?;
        for accent in &self.accents {
            accents.push_reserved(accent.copied());
        }
        Ok(KeyMap {
            entries,
            accents,
            past: UNDEFINED,
            blank: Accent::new('\0'),
        })
    }
}

impl Bounded for KeyMap {
    ghost use Rattle.keymap_core.specs.Bounds.{IsMap};

    ghost Is = { IsMap };

    fn has_bounds(&self) {
        have_bounds(&self.entries);
        have_bounds(&self.accents);
    }
}

impl PartialEq for KeyMap {
    ghost use Rattle.std.specs.Cmp.Lexicographic.{pointwise, lists_per};
    ghost use Rattle.std.specs.Cmp.{and_per, on_per};
    ghost use Rattle.std.specs.Ordering.{on, eq_of_both};
    ghost use Rattle.keymap_core.specs.contracts.entry.EntryPartialEq.TheImpl.Laws.{laws-law as entry-laws};
    ghost use Rattle.keymap_core.specs.contracts.accent.AccentPartialEq.TheImpl.Laws.{laws-law as accent-laws};

    ghost eq = { eq_of_both (on (λ m. m.entries) (pointwise ⟦<Entry as PartialEq>⟧.eq))
        (on (λ m. m.accents) (pointwise ⟦<Accent as PartialEq>⟧.eq)) };

    ghost laws = { and_per (on_per (λ m. m.entries) (lists_per entry-laws))
        (on_per (λ m. m.accents) (lists_per accent-laws)) };

    fn eq(&self, other: &KeyMap) -> bool {
        self.entries == other.entries && self.accents == other.accents
    }
}

impl Eq for KeyMap {
    ghost use Rattle.std.specs.Cmp.Lexicographic.{lists_equiv};
    ghost use Rattle.std.specs.Cmp.{and_equiv, on_equiv};
    ghost use Rattle.keymap_core.specs.contracts.entry.EntryEq.TheImpl.Laws.{laws-law as entry-laws};
    ghost use Rattle.keymap_core.specs.contracts.accent.AccentEq.TheImpl.Laws.{laws-law as accent-laws};

    ghost laws = { and_equiv (on_equiv (λ m. m.entries) (lists_equiv entry-laws))
        (on_equiv (λ m. m.accents) (lists_equiv accent-laws)) };
}
