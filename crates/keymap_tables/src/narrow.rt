//! The narrow file: which maps fit in it, and the writing of one.
ghost use Rattle.std.specs.Prelude.{◌≡◌, ◌<◌, ◌||◌, All, MatchOption};
ghost use Rattle.keymap_core.specs.Accents.{blank};
ghost use Rattle.keymap_core.specs.Bounds.{IsMap};
ghost use Rattle.keymap_core.specs.Maps.{MapValue, undefined};
ghost use Rattle.keymap_tables.specs.Fits.{AccentFits, EntryFits, Fits, IsFirstWide, character_in, number_in};
ghost use Rattle.keymap_tables.specs.Inner.Firsts.{IsFirstWideRow};
ghost use Rattle.keymap_tables.specs.Layouts.{accent_size, narrow, slot_size};
ghost use Rattle.keymap_tables.specs.Writing.{WritesNarrow, blames_writer};

use crate::accent::wide_number;
use crate::layout::Layout;
use crate::row::Row;
use crate::slot::wide_column;
use crate::tables::Tables;
use crate::write::write_image;
use keymap_core::laws::every_keymap_is_within_the_bounds;
use keymap_core::{Accent, Entry, KeyMap, Keymap, Write, WriteFault};
use thiserror::Error;

/// The place of a character that doesn't fit in one byte.
#[derive(Clone, Copy, Debug, PartialEq, Eq)]
pub enum Wide {
    /// A cell of a slot.
    Cell { slot: u8, column: u8 },
    /// A character of an accent: number 0 is its own, 1 + 2j the base of pair j, and 2 + 2j its result.
    Accent { accent: u8, number: u8 },
}

/// Why a narrow file was not written.
#[derive(Clone, Copy, Debug, PartialEq, Eq, Error)]
pub enum NarrowError {
    #[error("a character above 255 at {0:?}")]
    TooWide(Wide),
    #[error("the writer failed after {} bytes", .0.written)]
    Write(WriteFault),
}

/// The first row of a map that doesn't fit, and the first of its numbers that is above 255.
fn first_wide<R: Row>(map: &KeyMap) -> Option<(u16, u8)>
    ensures { MatchOption result (All (R.Fits narrow) (R.rows map.now)) (λ found. (found.0 < R.MOST)
        × IsFirstWideRow (R.Fits narrow) R.number (R.size narrow) (R.rows map.now) R.blank found.0 found.1) }
{
    for index in 0..R::count(map) {
        if let Some(number) = R::of(map, index).wide_number() {
            return Some((index, number));
        }
    }
    None
}

/// The first character of a map, in the order of the file, that doesn't fit.
fn too_wide(map: &KeyMap) -> Option<Wide>
    ensures { MatchOption result (Fits map.now) (IsFirstWide map.now) }
{
    if let Some((slot, column)) = first_wide::<Entry>(map) {
        return Some(Wide::Cell {
            slot: slot as u8,
            column,
        });
    }
    if let Some((accent, number)) = first_wide::<Accent>(map) {
        return Some(Wide::Accent {
            accent: accent as u8,
            number,
        });
    }
    None
}

/// The first slot of tables that doesn't fit, and the column of its first character above 255.
fn wide_slot<'a>(tables: &Tables<'a>) -> Option<(u8, u8)>
    ensures { (m : MapValue) → ⟦<Tables<'a> as Keymap>⟧.shows tables.now m
        → MatchOption result (All (EntryFits narrow) m.entries) (λ found. IsFirstWideRow (EntryFits narrow) character_in
        (slot_size narrow) m.entries undefined found.0 found.1) }
{
    for slot in 0..tables.n_keys() {
        if let Some(column) = wide_column(&tables.entry_at(slot as u8)) {
            return Some((slot as u8, column));
        }
    }
    None
}

/// The first accent of tables that doesn't fit, and its first number above 255.
fn wide_accent<'a>(tables: &Tables<'a>) -> Option<(u8, u8)>
    ensures { (m : MapValue) → ⟦<Tables<'a> as Keymap>⟧.shows tables.now m
        → MatchOption result (All (AccentFits narrow) m.accents) (λ found. IsFirstWideRow (AccentFits narrow) number_in
        (accent_size narrow) m.accents blank found.0 found.1) }
{
    for index in 0..tables.n_accs() {
        if let Some(number) = wide_number(&tables.accent_at(index)) {
            return Some((index, number));
        }
    }
    None
}

/// The first character of tables, in the order of the file, that doesn't fit in a narrow file.
pub fn wide_in<'a>(tables: &Tables<'a>) -> Option<Wide>
    ensures { (m : MapValue) → ⟦<Tables<'a> as Keymap>⟧.shows tables.now m
        → MatchOption result (Fits m) (IsFirstWide m) }
{
    if let Some((slot, column)) = wide_slot(tables) {
        return Some(Wide::Cell { slot, column });
    }
    if let Some((accent, number)) = wide_accent(tables) {
        return Some(Wide::Accent { accent, number });
    }
    None
}

/// Writes the narrow file of a map: 4,139 bytes, gathered into few writes. It takes no memory.
///
/// A map with a character above 255 is refused: the answer names the first in the order of the file, and nothing is
/// written.
pub fn write_narrow<W: Write>(map: &KeyMap, writer: &mut W) -> Result<(), NarrowError>
    ensures bytes { WritesNarrow (W.contents writer.old) (W.contents writer.new) map.now result }
    ensures failed { W.has_failed writer.new ≡ (blames_writer result || W.has_failed writer.old) }
    ensures known { IsMap map.now }
{
    every_keymap_is_within_the_bounds(map);
    if let Some(wide) = too_wide(map) {
        return Err(NarrowError::TooWide(wide));
    }
    write_image(Layout::Narrow, map, writer).map_err(NarrowError::Write)
}
