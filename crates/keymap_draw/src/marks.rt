//! Which keys and accents of a change are marked, what a key was, and which line tells of it.
ghost use Rattle.std.specs.Prelude.{◌≡◌, ◌<◌, true, IfSome};
ghost use Rattle.std.specs.List.{list_all};
ghost use Rattle.keymap_core.specs.Numbers.{column_count};
ghost use Rattle.keymap_draw.specs.Drawings.{line_about};
ghost use Rattle.keymap_draw.specs.Marks as spec;
ghost use Rattle.keymap_draw.specs.Places.{is_class};
ghost use Rattle.keymap_draw.specs.Sheets.{is_seen};

use crate::change::{About, ChangeLine};
use crate::drawing::Drawing;
use keymap_core::{Cell, Entry};

/// The classes of a key of which base or shift differ, and of one of which only other columns or the lock letter do.
const STRONG: u8 = b'n';

const PALE: u8 = b'q';

/// Whether the cell of a column is another one.
fn has_changed(old: &Entry, new: &Entry, column: usize) -> bool
    requires { column < column_count }
    ensures { result ≡ spec.has_changed old.now new.now column }
{
    old.cells()[column] != new.cells()[column]
}

/// The class of a key that differs.
#[tactic(auto, unfolding(crate::specs::Marks::mark))]
fn mark(old: &Entry, new: &Entry) -> Option<u8>
    ensures value { result ≡ spec.mark old.now new.now }
    ensures class { IfSome result (λ mark. is_class mark ≡ true) }
{
    if has_changed(old, new, 0) || has_changed(old, new, 1) {
        Some(STRONG)
    } else if *old == *new {
        None
    } else {
        Some(PALE)
    }
}

/// What the first of base, shift, alt and alt shift was that has changed.
#[tactic(auto, unfolding(crate::specs::Marks::was))]
fn was(old: &Entry, new: &Entry) -> Option<Cell>
    ensures { result ≡ spec.was old.now new.now }
{
    if has_changed(old, new, 0) {
        Some(old.cells()[0])
    } else if has_changed(old, new, 1) {
        Some(old.cells()[1])
    } else if has_changed(old, new, 4) {
        Some(old.cells()[4])
    } else if has_changed(old, new, 5) {
        Some(old.cells()[5])
    } else {
        None
    }
}

/// The class of the key of a slot that differs.
pub(crate) fn mark_of(drawing: &Drawing, slot: u8) -> Option<u8>
    ensures value { result ≡ spec.mark_of drawing.now slot }
    ensures class { IfSome result (λ mark. is_class mark ≡ true) }
{
    mark(drawing.old().entry(slot), drawing.map().entry(slot))
}

/// What the first cell of a slot was that has changed, of those that are drawn.
pub(crate) fn was_of(drawing: &Drawing, slot: u8) -> Option<Cell>
    ensures { result ≡ spec.was_of drawing.now slot }
{
    was(drawing.old().entry(slot), drawing.map().entry(slot))
}

/// Whether the accent of an index differs.
pub(crate) fn has_other_accent(drawing: &Drawing, index: u8) -> bool
    ensures { result ≡ spec.has_other_accent drawing.now index }
{
    *drawing.old().accent_or_blank(index) != *drawing.map().accent_or_blank(index)
}

/// The first of the lines that tells of something.
pub(crate) fn first_about<'a>(lines: &'a [ChangeLine], about: About) -> &'a [char]
    ensures words { result.now ≡ line_about lines.now about }
    ensures seen { list_all is_seen result.now ≡ true }
{
    for line in lines {
        if line.about.is(about) {
            return line.words.as_slice();
        }
    }
    &[]
}
