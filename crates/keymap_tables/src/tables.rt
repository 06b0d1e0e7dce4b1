//! A keymap that is read in place, from the bytes of a table file or a narrow file.
ghost use Rattle.std.specs.Prelude.{◌≡◌, ◌+◌, ◌*◌, ◌<◌, ◌≤◌, ◌↔◌, [], length, IfSome, IsSome, slice_index_or};
ghost use Rattle.keymap_core.specs.Accents.{AccentValue, first_result};
ghost use Rattle.keymap_core.specs.Maps.{MapValue, n_keys_of, n_accs_of, entry_at, accent_or_blank};
ghost use Rattle.keymap_core.specs.Bounds.{IsMap};
ghost use Rattle.keymap_core.specs.Numbers.{column_count, slot_limit, accent_limit};
ghost use Rattle.keymap_tables.specs.Fits.{AreTablesOf};
ghost use Rattle.keymap_tables.specs.Types.{Entry as EntryValue};
ghost use Rattle.keymap_tables.specs.Image.{slot_bytes, accent_bytes};
ghost use Rattle.keymap_tables.specs.Inner.Taken.{IsAccentIn, IsEntryIn};
ghost use Rattle.keymap_tables.specs.Layouts.{layout_of, slot_size, accent_size, file_size};

use crate::content::read_content;
use crate::layout::Layout;
use crate::number::{cell_of, read_char, read_half, read_number};
use crate::read_accent::read_accent;
use crate::read_slot::{flag_of, read_slot};
use keymap_core::{
    ACCENT_LIMIT, Accent, Cell, Definitions, Entry, Keymap, LockFlag, PAIR_LIMIT, SLOT_LIMIT,
};

/// The cell of a slot's bytes in the column, the character 0 where none stands there.
#[inline(always)]
fn cell_in(layout: Layout, bytes: &[u8], column: usize) -> Cell
    requires whole { length bytes.now ≡ slot_size layout }
    requires inside { column < column_count }
    ensures { (e : EntryValue) → IsEntryIn layout e → bytes.now ≡ slot_bytes layout e
        → result ≡ slice_index_or e.cells column (Cell.Char 0) }
{
    let is_marked = (bytes[layout.cells()] >> (7 - column)) % 2 == 1;
    match cell_of(read_number(layout, bytes, column), is_marked) {
        Ok(cell) => cell,
        Err(_) => Cell::Char('\0'),
    }
}

/// The flag of a slot's bytes, O where none stands there.
fn flag_in(layout: Layout, bytes: &[u8]) -> LockFlag
    requires { length bytes.now ≡ slot_size layout }
    ensures { (e : EntryValue) → IsEntryIn layout e → bytes.now ≡ slot_bytes layout e → result ≡ e.flag }
{
    match flag_of(bytes[layout.cells() + 1]) {
        Some(flag) => flag,
        None => LockFlag::O,
    }
}

/// The own character of an accent's bytes.
fn own_in(layout: Layout, bytes: &[u8]) -> Option<char>
    requires { length bytes.now ≡ accent_size layout }
    ensures { (a : AccentValue) → IsAccentIn layout a → bytes.now ≡ accent_bytes layout a → result ≡ Some a.own }
{
    match read_char(layout, bytes, 0) {
        Ok(c) => Some(c),
        Err(_) => None,
    }
}

/// The result of the first pair with this base in an accent's bytes.
fn composed_in(layout: Layout, bytes: &[u8], base: char) -> Option<char>
    requires { length bytes.now ≡ accent_size layout }
    ensures { (a : AccentValue) → IsAccentIn layout a → bytes.now ≡ accent_bytes layout a
        → result ≡ first_result a.pairs base }
{
    for pair in 0..PAIR_LIMIT {
        let from = read_number(layout, bytes, 1 + 2 * pair);
        if from == 0 {
            return None;
        }
        if from == base as u32 {
            return match read_char(layout, bytes, 2 + 2 * pair) {
                Ok(c) => Some(c),
                Err(_) => None,
            };
        }
    }
    None
}

/// The bytes of a table file or a narrow file, with so many bytes a number. They show the map whose image they are. Of
/// other bytes each answer is some cell, flag or character.
#[derive(Clone, Copy, Drop)]
pub struct TablesIn<'a, const NUMBER: usize> {
    bytes: &'a [u8],
    ghost whole: { length bytes.now ≡ file_size (layout_of NUMBER) },
}

/// The bytes of a table file.
pub type Tables<'a> = TablesIn<'a, 4>;

/// The bytes of a narrow file.
pub type NarrowTables<'a> = TablesIn<'a, 1>;

impl<'a, const NUMBER: usize> TablesIn<'a, NUMBER> {
    /// The tables of 15,524 bytes, or of 4,139. Nothing is read.
    pub fn new(bytes: &'a [u8]) -> Option<TablesIn<'a, NUMBER>>
        ensures whole { IsSome result ↔ (length bytes.now ≡ file_size (layout_of NUMBER)) }
        ensures of_image { (m : MapValue) → IsMap m → AreTablesOf (layout_of NUMBER) bytes.now m → IsSome result }
        ensures shows { IfSome result (λ t. (m : MapValue) → IsMap m → AreTablesOf (layout_of NUMBER) bytes.now m
            → ⟦<TablesIn<'a, NUMBER> as Keymap>⟧.shows t m) }
    {
        if bytes.len() == Layout::of(NUMBER).file() {
            Some(TablesIn { bytes })
        } else {
            None
        }
    }

    /// The bytes of the slot.
    fn slot(&self, slot: u8) -> &[u8]
        ensures whole { length result.now ≡ slot_size (layout_of NUMBER) }
        ensures bytes { (m : MapValue) → IsMap m → AreTablesOf (layout_of NUMBER) self.now.bytes.now m
            → result.now ≡ slot_bytes (layout_of NUMBER) (entry_at m slot) }
    {
        let layout = Layout::of(NUMBER);
        let at = layout.slot_at(slot);
        &self.bytes[at..at + layout.slot()]
    }

    /// The bytes of the accent, if it is below their count.
    fn accent(&self, index: u8) -> Option<&[u8]>
        ensures whole { IfSome result (λ bytes. length bytes.now ≡ accent_size (layout_of NUMBER)) }
        ensures defined { (m : MapValue) → IsMap m → AreTablesOf (layout_of NUMBER) self.now.bytes.now m
            → IsSome result ↔ (index < n_accs_of m) }
        ensures bytes { (m : MapValue) → IsMap m → AreTablesOf (layout_of NUMBER) self.now.bytes.now m
            → IfSome result (λ bytes. bytes.now ≡ accent_bytes (layout_of NUMBER) (accent_or_blank m index)) }
    {
        if index < self.n_accs() {
            let layout = Layout::of(NUMBER);
            let at = layout.accent_at(index);
            Some(&self.bytes[at..at + layout.accent()])
        } else {
            None
        }
    }

    /// How many slots are in use, no more than there are.
    pub fn n_keys(&self) -> u16
        ensures count { (m : MapValue) → ⟦<TablesIn<'a, NUMBER> as Keymap>⟧.shows self.now m → result ≡ n_keys_of m }
        ensures few { result ≤ slot_limit }
    {
        let layout = Layout::of(NUMBER);
        read_half(&self.bytes[..layout.count()]).min(SLOT_LIMIT as u16)
    }

    /// How many accents are in use, no more than there are.
    pub fn n_accs(&self) -> u8
        ensures count { (m : MapValue) → ⟦<TablesIn<'a, NUMBER> as Keymap>⟧.shows self.now m → result ≡ n_accs_of m }
        ensures few { result ≤ accent_limit }
    {
        let at = Layout::of(NUMBER).n_accs_at();
        let n_accs = read_half(&self.bytes[at..]);
        n_accs.min(ACCENT_LIMIT as u16) as u8
    }

    /// Defines the map in what takes definitions, of which none was made before.
    pub fn define_all<D: Definitions>(&self, into: &mut D)
        ensures { (m : MapValue) → ⟦<TablesIn<'a, NUMBER> as Keymap>⟧.shows self.now m
            → D.shows into.old (record { entries = []; accents = [] }) → D.shows into.new m }
    {
        match read_content(Layout::of(NUMBER), self.bytes, into) {
            Ok(()) => {}
            Err(_) => {}
        }
    }

    /// The entry of the slot.
    pub fn entry_at(&self, slot: u8) -> Entry
        ensures { (m : MapValue) → ⟦<TablesIn<'a, NUMBER> as Keymap>⟧.shows self.now m → result ≡ entry_at m slot }
    {
        match read_slot(Layout::of(NUMBER), self.slot(slot)) {
            Ok(entry) => entry,
            Err(_) => Entry::undefined(),
        }
    }

    /// The accent of the index, a blank one past those that are in use.
    pub fn accent_at(&self, index: u8) -> Accent
        ensures { (m : MapValue) → ⟦<TablesIn<'a, NUMBER> as Keymap>⟧.shows self.now m → result ≡ accent_or_blank m index }
    {
        let Some(bytes) = self.accent(index) else {
            return Accent::new('\0');
        };
        match read_accent(Layout::of(NUMBER), bytes) {
            Ok(accent) => accent,
            Err(_) => Accent::new('\0'),
        }
    }
}

impl<'a, const NUMBER: usize> Keymap for TablesIn<'a, NUMBER> {
    ghost use Rattle.std.specs.Prelude.{◌≡◌};
    ghost use Rattle.keymap_core.specs.Bounds.{IsMap};
    ghost use Rattle.keymap_tables.specs.Fits.{AreTablesOf};
    ghost use Rattle.keymap_tables.specs.Layouts.{layout_of};

    ghost shows = { λ t m. IsMap m × AreTablesOf (layout_of NUMBER) t.bytes.now m };

    #[inline(always)]
    fn cell(&self, slot: u8, column: usize) -> Cell {
        cell_in(Layout::of(NUMBER), self.slot(slot), column)
    }

    fn flag(&self, slot: u8) -> LockFlag {
        flag_in(Layout::of(NUMBER), self.slot(slot))
    }

    fn own(&self, index: u8) -> Option<char> {
        match self.accent(index) {
            Some(bytes) => own_in(Layout::of(NUMBER), bytes),
            None => None,
        }
    }

    fn composed(&self, index: u8, base: char) -> Option<char> {
        match self.accent(index) {
            Some(bytes) => composed_in(Layout::of(NUMBER), bytes, base),
            None => None,
        }
    }
}
