//! A row of a table: a slot or an accent.
ghost use Rattle.std.specs.Prelude.{◌≡◌, ℕ, ◌+◌, ◌^◌, ◌<◌, ◌≤◌, ◌||◌, List, [], ◌∷◌, ◌++◌, length, slice_index_or};
ghost use Rattle.std.specs.Prelude.{IfOk, IfErr, MatchOption, OnOk, is_err};
ghost use Rattle.keymap_core.specs.Maps.{MapValue};
ghost use Rattle.keymap_core.specs.Streams.{Pushes, size_of};
ghost use Rattle.keymap_tables.specs.Faults.{FaultOf, IsFirstFault};
ghost use Rattle.keymap_tables.specs.Inner.Firsts.{IsFirstWideNumber};
ghost use Rattle.keymap_tables.specs.Layouts.{narrow};
ghost use Rattle.keymap_tables.specs.Types.{Layout as LayoutValue};

use crate::accent::{push_accent, wide_number};
use crate::fault::TableFault;
use crate::layout::Layout;
use crate::read_accent::read_accent;
use crate::read_slot::read_slot;
use crate::slot::{slot_image, wide_column};
use arrayvec::ArrayVec;
use keymap_core::{
    ACCENT_LIMIT, Accent, Definitions, Entry, KeyMap, SLOT_LIMIT, Stream, Write, WriteFault,
};

/// A row of a table: a slot or an accent.
pub(crate) trait Row: Sized + Drop {
    /// The bytes of a row, how many they are, and the faults in them.
    ghost image: { LayoutValue → Self → List ℕ };

    ghost size: { LayoutValue → ℕ };

    ghost faults: { LayoutValue → List ℕ → FaultOf };

    /// The numbers of the row fit in a file of the layout.
    ghost Fits: { LayoutValue → Self → Type 0 };

    /// A file of the layout can have the row.
    ghost Is: { LayoutValue → Self → Type 0 };

    /// The numbers of a row by their index, 0 for one that is the code of an action.
    ghost number: { Self → ℕ → ℕ };

    /// What stands past the last row.
    ghost blank: { Self };

    /// The rows of a map, and the map with other rows.
    ghost rows: { MapValue → List Self };

    ghost put: { MapValue → List Self → MapValue };

    ghost MOST: { ℕ };

    /// How many rows there are at most.
    const MOST: u16;

    /// How many bytes a row has.
    fn size(layout: Layout) -> usize
        ensures { result ≡ size layout };

    /// How many rows a map has.
    fn count(map: &KeyMap) -> u16
        ensures value { result ≡ length (rows map.now) }
        ensures few { result ≤ MOST };

    /// The row of a map with this index, also past the last.
    fn of(map: &KeyMap, index: u16) -> &Self
        requires { index < MOST }
        ensures { result.now ≡ slice_index_or (rows map.now) index blank };

    /// The first of the row's numbers that is above 255.
    fn wide_number(&self) -> Option<u8>
        ensures { MatchOption result (Fits narrow self.now)
            (IsFirstWideNumber (number self.now) (size narrow)) };

    /// The row whose image the bytes are, or their first fault.
    fn read(layout: Layout, bytes: &[u8]) -> Result<Self, TableFault>
        requires { length bytes.now ≡ size layout }
        ensures image { IfOk result (λ row. bytes.now ≡ image layout row) }
        ensures known { IfOk result (Is layout) }
        ensures fault { IfErr result (λ f. IsFirstFault (faults layout bytes.now) f × (f.offset < size layout)) };

    /// Defines the row behind those that were defined.
    fn define<D: Definitions>(self, into: &mut D, index: u16)
        requires { index < MOST }
        ensures { (m : MapValue) (xs : List Self) → length xs ≡ index → D.shows into.old (put m xs)
            → D.shows into.new (put m (xs ++ self ∷ [])) };

    /// Pushes the bytes of the row.
    fn push<W: Write>(
        &self,
        stream: &mut Stream,
        writer: &mut W,
        layout: Layout,
    ) -> Result<(), WriteFault>
        requires { size_of stream.old + size layout < 2 ^ 64 }
        ensures bytes { Pushes (W.contents writer.old) (W.contents writer.new) stream.old stream.new
            (image layout self.now) result }
        ensures count { OnOk result (size_of stream.new ≡ size_of stream.old + size layout) }
        ensures failed { W.has_failed writer.new ≡ (is_err result || W.has_failed writer.old) };
}

impl Row for Entry {
    ghost use Rattle.keymap_core.specs.Maps.{undefined};
    ghost use Rattle.keymap_tables.specs.Faults.{slot_fault};
    ghost use Rattle.keymap_tables.specs.Fits.{EntryFits, character_in};
    ghost use Rattle.keymap_tables.specs.Image.{slot_bytes};
    ghost use Rattle.keymap_tables.specs.Inner.Taken.{IsEntryIn};
    ghost use Rattle.keymap_tables.specs.Layouts.{slot_size};

    ghost image = { slot_bytes };

    ghost size = { slot_size };

    ghost faults = { slot_fault };

    ghost Fits = { EntryFits };

    ghost Is = { IsEntryIn };

    ghost number = { character_in };

    ghost blank = { undefined };

    ghost rows = { λ m. m.entries };

    ghost put = { λ m xs. record m { entries = xs } };

    ghost MOST = { 256 };

    const MOST: u16 = SLOT_LIMIT as u16;

    fn size(layout: Layout) -> usize {
        layout.slot()
    }

    fn count(map: &KeyMap) -> u16 {
        map.n_keys()
    }

    fn of(map: &KeyMap, index: u16) -> &Entry {
        map.entry(index as u8)
    }

    fn wide_number(&self) -> Option<u8> {
        wide_column(self)
    }

    fn read(layout: Layout, bytes: &[u8]) -> Result<Entry, TableFault> {
        read_slot(layout, bytes)
    }

    fn define<D: Definitions>(self, into: &mut D, index: u16) {
        into.define(index as u8, self);
    }

    fn push<W: Write>(
        &self,
        stream: &mut Stream,
        writer: &mut W,
        layout: Layout,
    ) -> Result<(), WriteFault> {
        stream.push(writer, slot_image(layout, self).as_slice())
    }
}

impl Row for Accent {
    ghost use Rattle.keymap_core.specs.Accents.{blank as no_accent};
    ghost use Rattle.keymap_tables.specs.Faults.{accent_fault};
    ghost use Rattle.keymap_tables.specs.Fits.{AccentFits, number_in};
    ghost use Rattle.keymap_tables.specs.Image.{accent_bytes};
    ghost use Rattle.keymap_tables.specs.Inner.Taken.{IsAccentIn};
    ghost use Rattle.keymap_tables.specs.Layouts.{accent_size};

    ghost image = { accent_bytes };

    ghost size = { accent_size };

    ghost faults = { accent_fault };

    ghost Fits = { AccentFits };

    ghost Is = { IsAccentIn };

    ghost number = { number_in };

    ghost blank = { no_accent };

    ghost rows = { λ m. m.accents };

    ghost put = { λ m xs. record m { accents = xs } };

    ghost MOST = { 15 };

    const MOST: u16 = ACCENT_LIMIT as u16;

    fn size(layout: Layout) -> usize {
        layout.accent()
    }

    fn count(map: &KeyMap) -> u16 {
        u16::from(map.n_accs())
    }

    fn of(map: &KeyMap, index: u16) -> &Accent {
        map.accent_or_blank(index as u8)
    }

    fn wide_number(&self) -> Option<u8> {
        wide_number(self)
    }

    fn read(layout: Layout, bytes: &[u8]) -> Result<Accent, TableFault> {
        read_accent(layout, bytes)
    }

    fn define<D: Definitions>(self, into: &mut D, index: u16) {
        into.define_accent(index as u8, self);
    }

    fn push<W: Write>(
        &self,
        stream: &mut Stream,
        writer: &mut W,
        layout: Layout,
    ) -> Result<(), WriteFault> {
        let mut image = ArrayVec::new();
        push_accent(&mut image, layout, self);
        stream.push(writer, image.as_slice())
    }
}
