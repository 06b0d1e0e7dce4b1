//! A key of the picture: its cap, its code and its legends. Its title is its line of the printed form.
ghost use Rattle.std.specs.Prelude.{◌≡◌, ◌≤◌, ◌++◌, ◌∷◌, [], true, length, IfOk, Some, codes, decimal, option_copied, option_to_list};
ghost use Rattle.std.specs.List.{list_all};
ghost use Rattle.keymap_core.specs.Maps.{entry_at};
ghost use Rattle.keymap_check.specs.Said.{finding_words as finding_words_of};
ghost use Rattle.keymap_text.specs.Printed.{slot_words as slot_words_of};
ghost use Rattle.keymap_draw.specs.Facts.{text_within};
ghost use Rattle.keymap_draw.specs.Keys as spec;
ghost use Rattle.keymap_draw.specs.Places.{is_class};
ghost use Rattle.keymap_draw.specs.Sheets.{is_inner, is_seen};

use crate::board::Shape;
use crate::change::About;
use crate::drawing::Drawing;
use crate::drawn::{DrawnCells, drawn, is_blank, stands_alone};
use crate::legend::{Legend, cell_legend, is_word, sign};
use crate::marks::{mark_of, was_of};
use crate::markup::Added;
use crate::place::{
    Column, Spot, code_x, legend_classes, legend_x, legend_y, marked_class, shrunk_length,
};
use crate::sheet::Content::{Bytes, Characters, Number, Plain};
use crate::sheet::{InKey, InPicture, Sheet, tell};
use crate::words::{
    BOTH, CAPS, CHANGED_KEY, CODE, GROUP_END, KEY, KEY_OF, NUM, SHRUNK_TEXT, TEXT, TEXT_OF, WAS,
};
use arrayvec::ArrayVec;
use keymap_check::{Finding, finding_words};
use keymap_core::{Action, Cell, Entry, KEY_COUNT, KeyMap, LockFlag};
use keymap_text::slot_words;
use messages::Line;

// The classes for the colour of a key: one that the check names, a blank one, a modifier or lock, and another action.
const NAMED: &[u8] = b"f";

const BLANK: &[u8] = b"p";

const HOLDING: &[u8] = b"m";

const DOING: &[u8] = b"g";

/// The finding of a key, if the check names it.
fn finding_of(findings: &[Finding], key: u8) -> Option<&Finding>
    ensures { option_copied result ≡ spec.finding_of findings.now key }
{
    findings.iter().find(|finding| finding.key.get() == key)
}

/// Whether the cell is an action that the key's colour tells: another one than nop and the dead keys.
fn is_doing(cell: &Cell) -> bool
    ensures { result ≡ spec.is_doing cell.now }
{
    match cell {
        Cell::Char(c) => (1 <= u32::from(*c) && u32::from(*c) <= 31) || *c == '\x7f',
        Cell::Act(Action::Nop) => false,
        Cell::Act(Action::DeadKey(_)) => false,
        Cell::Act(_) => true,
    }
}

fn is_holding(cell: &Cell) -> bool
    ensures { result ≡ spec.is_holding cell.now }
{
    match cell {
        Cell::Act(Action::Mod(_)) => true,
        Cell::Act(Action::Lock(_)) => true,
        _ => false,
    }
}

#[tactic(auto, unfolding(crate::specs::Keys::is_blank_entry))]
pub(crate) fn is_blank_entry(entry: &Entry) -> bool
    ensures { result ≡ spec.is_blank_entry entry.now }
{
    entry.cells().iter().all(|cell| is_blank(cell))
}

/// The class for the colour of a key.
#[tactic(auto, unfolding(crate::specs::Keys::key_class))]
fn key_class(findings: &[Finding], slot: u8, entry: &Entry) -> &'static [u8]
    ensures value { result.now ≡ option_to_list (spec.key_class findings.now slot entry.now) }
    ensures few { length result.now ≤ 1 }
    ensures class { list_all is_class result.now ≡ true }
    ensures inner { list_all is_inner result.now ≡ true }
{
    let base = &entry.cells()[0];
    if finding_of(findings, slot % KEY_COUNT as u8).is_some() {
        NAMED
    } else if is_blank_entry(entry) {
        BLANK
    } else if is_holding(base) {
        HOLDING
    } else if is_doing(base) {
        DOING
    } else {
        b""
    }
}

/// What the check says of a key.
#[tactic(auto, using(crate::proofs::Parts::said_inner))]
pub(crate) fn said(finding: &Finding) -> Line
    ensures words { result.items ≡ finding_words_of finding.now }
    ensures inner { list_all is_inner result.items ≡ true }
{
    finding_words(finding)
}

/// What the title of a key tells: what the check says of it with a line feed behind, if it names it, and its line of
/// the printed form.
#[derive(Drop)]
struct KeyTitle {
    finding: Line,
    feed: &'static [u8],
    words: ArrayVec<u8, 80>,
}

/// The line of the printed form of a slot, with one blank between its parts.
fn printed(drawing: &Drawing, slot: u8) -> ArrayVec<u8, 80>
    ensures words { result.items ≡ slot_words_of slot (entry_at drawing.now.map slot) }
    ensures seen { list_all is_seen result.items ≡ true }
{
    slot_words(slot, drawing.map().entry(slot))
}

/// The title of the key of a slot.
fn title(drawing: &Drawing, slot: u8) -> KeyTitle
    ensures words { (result.finding.items ++ result.feed.now) ++ result.words.items
        ≡ spec.title drawing.now.findings slot (entry_at drawing.now.map slot) }
    ensures finding { list_all is_inner result.finding.items ≡ true }
    ensures feed { list_all is_inner result.feed.now ≡ true }
    ensures seen { list_all is_seen result.words.items ≡ true }
{
    let words = printed(drawing, slot);
    match finding_of(drawing.findings(), slot % KEY_COUNT as u8) {
        Some(finding) => KeyTitle {
            finding: said(finding),
            feed: b"\n",
            words,
        },
        None => KeyTitle {
            finding: Line::new(),
            feed: b"",
            words,
        },
    }
}

/// A blank and the letter of the locks, where one flips the key.
fn flag_words(flag: LockFlag) -> &'static [u8]
    ensures words { result.now ≡ spec.flag_words flag }
    ensures inner { list_all is_inner result.now ≡ true }
{
    match flag {
        LockFlag::O => b"",
        LockFlag::C => CAPS,
        LockFlag::N => NUM,
        LockFlag::B => BOTH,
    }
}

/// Where the cap of a key has its top left corner, and its shape.
#[derive(Clone, Copy)]
pub(crate) struct Cap {
    pub(crate) x: u32,
    pub(crate) y: u32,
    pub(crate) shape: Shape,
}

/// Adds the group of a key with its title, and its cap.
fn push_group(
    sheet: Sheet<InPicture>,
    class: &[u8],
    title: &KeyTitle,
    cap: Cap,
) -> Added<Sheet<InKey>>
    requires class { list_all is_inner class.now ≡ true }
    requires finding { list_all is_inner title.now.finding.items ≡ true }
    requires feed { list_all is_inner title.now.feed.now ≡ true }
    requires seen { list_all is_seen title.now.words.items ≡ true }
    ensures { IfOk result (λ s. s
        ≡ sheet ++ spec.titled_cap ((title.now.finding.items ++ title.now.feed.now) ++ title.now.words.items)
        class.now cap.x cap.y cap.shape) }
{
    let (x, y) = (Number(cap.x), Number(cap.y));
    let (finding, feed) = (Plain(title.finding.as_slice()), Plain(title.feed));
    let (words, shape) = (Bytes(title.words.as_slice()), Plain(cap.shape.letter()));
    match class {
        [] => tell(sheet, KEY, &[x, y, finding, feed, words, shape]),
        class => tell(
            sheet,
            KEY_OF,
            &[Plain(class), x, y, finding, feed, words, shape],
        ),
    }
}

/// Adds the group of a key that differs, with its title and below that a line, and its cap.
fn push_changed_group<'a>(
    sheet: Sheet<InPicture>,
    classes: &'a [u8],
    title: &'a KeyTitle,
    line: &'a [char],
    cap: Cap,
) -> Added<Sheet<InKey>>
    requires classes { list_all is_inner classes.now ≡ true }
    requires finding { list_all is_inner title.now.finding.items ≡ true }
    requires feed { list_all is_inner title.now.feed.now ≡ true }
    requires seen { list_all is_seen title.now.words.items ≡ true }
    requires line { list_all is_seen line.now ≡ true }
    ensures { IfOk result (λ s. s
        ≡ sheet ++ spec.titled_cap
        ((((title.now.finding.items ++ title.now.feed.now) ++ title.now.words.items) ++ codes "\n") ++ line.now)
        classes.now cap.x cap.y cap.shape) }
{
    let (x, y) = (Number(cap.x), Number(cap.y));
    let (finding, feed) = (Plain(title.finding.as_slice()), Plain(title.feed));
    let (words, shape) = (Bytes(title.words.as_slice()), Plain(cap.shape.letter()));
    let (classes, line) = (Plain(classes), Characters(line));
    tell(
        sheet,
        CHANGED_KEY,
        &[classes, x, y, finding, feed, words, line, shape],
    )
}

/// Adds the group of a key of a slot, its title and its cap.
fn begin_key(sheet: Sheet<InPicture>, drawing: &Drawing, slot: u8, cap: Cap) -> Added<Sheet<InKey>>
    ensures { IfOk result (λ s. s ≡ sheet
        ++ spec.cap drawing.now slot cap.x cap.y cap.shape (entry_at drawing.now.map slot)) }
{
    let title = title(drawing, slot);
    let class = key_class(drawing.findings(), slot, drawing.map().entry(slot));
    match mark_of(drawing, slot) {
        Some(mark) => {
            let classes = marked_class(class, mark);
            let line = drawing.line(About::Slot(slot));
            push_changed_group(sheet, classes.as_slice(), &title, line, cap)
        }
        None => push_group(sheet, class, &title, cap),
    }
}

/// Adds the code of the key on its cap.
fn push_code(sheet: Sheet<InKey>, slot: u8, flag: LockFlag, shape: Shape) -> Added<Sheet<InKey>>
    ensures { IfOk result (λ s. s ≡ sheet ++ spec.code slot flag shape ∷ []) }
{
    let (x, y) = (Number(code_x(shape)), Number(shape.height() - 7));
    let (code, locks) = (Number(u32::from(slot)), Plain(flag_words(flag)));
    tell(sheet, CODE, &[x, y, code, locks])
}

/// What is drawn on the face of a cap of a shape: the legends of cells, of which one may stand alone.
#[derive(Clone, Copy)]
struct Face {
    shape: Shape,
    cells: DrawnCells,
    alone: bool,
}

impl Face {
    ghost use Rattle.keymap_draw.specs.Keys.{is_tight};

    /// Where the legend of a column stands. It is tight where another one stands beside it on a small cap.
    fn spot(&self, column: Column) -> Spot
        ensures { result ≡ record {
          shape = self.now.shape;
          column = column;
          alone = self.now.alone;
          tight = is_tight self.now.shape self.now.cells column;
        } }
    {
        Spot {
            shape: self.shape,
            column,
            alone: self.alone,
            tight: self.cells.cell(column.beside()).is_some() && self.shape.width() < 112,
        }
    }
}

/// Adds a legend at a place, shrunk to a length.
fn push_shrunk<'a>(
    sheet: Sheet<InKey>,
    place: (u32, u32),
    classes: &'a [u8],
    length: u32,
    legend: &'a [char],
) -> Added<Sheet<InKey>>
    requires inner { list_all is_inner classes.now ≡ true }
    requires seen { list_all is_seen legend.now ≡ true }
    ensures { IfOk result (λ s. s ≡ sheet
        ++ text_within (decimal place.0) (decimal place.1) classes.now (Some length) legend.now ∷ []) }
{
    let (x, y) = (Number(place.0), Number(place.1));
    let (classes, length) = (Plain(classes), Number(length));
    tell(
        sheet,
        SHRUNK_TEXT,
        &[x, y, classes, length, Characters(legend)],
    )
}

/// Adds the legend of a cell.
fn push_legend(sheet: Sheet<InKey>, map: &KeyMap, cell: &Cell, spot: Spot) -> Added<Sheet<InKey>>
    ensures { IfOk result (λ s. s
        ≡ sheet ++ spec.legend map.now spot.shape spot.column spot.alone spot.tight cell.now ∷ []) }
{
    let legend = cell_legend(cell);
    let legend = legend.as_slice();
    let classes = legend_classes(map, cell, legend, spot);
    let (left, base) = (legend_x(spot), legend_y(spot, is_word(legend)));
    let (x, y) = (Number(left), Number(base));
    match shrunk_length(legend, spot) {
        Some(length) => push_shrunk(sheet, (left, base), classes.as_slice(), length, legend),
        None => match classes.as_slice() {
            [] => tell(sheet, TEXT, &[x, y, Characters(legend)]),
            classes => tell(sheet, TEXT_OF, &[x, y, Plain(classes), Characters(legend)]),
        },
    }
}

/// Adds the legend of a column, if its cell is drawn.
fn push_drawn(sheet: Sheet<InKey>, map: &KeyMap, face: &Face, column: Column) -> Added<Sheet<InKey>>
    ensures { IfOk result (λ s. s
        ≡ sheet ++ spec.drawn_legend map.now face.now.shape face.now.alone face.now.cells column) }
{
    match face.cells.cell(column) {
        Some(cell) => push_legend(sheet, map, &cell, face.spot(column)),
        None => Ok(sheet),
    }
}

/// Adds the legends of a slot.
#[tactic(auto, unfolding(crate::specs::Keys::legends))]
fn push_legends(
    sheet: Sheet<InKey>,
    map: &KeyMap,
    shape: Shape,
    entry: &Entry,
) -> Added<Sheet<InKey>>
    ensures { IfOk result (λ s. s ≡ sheet ++ spec.legends map.now shape entry.now) }
{
    let face = Face {
        shape,
        cells: drawn(entry),
        alone: stands_alone(entry),
    };
    let sheet = push_drawn(sheet, map, &face, Column::Base)?;
    let sheet = push_drawn(sheet, map, &face, Column::Shift)?;
    let sheet = push_drawn(sheet, map, &face, Column::Alt)?;
    push_drawn(sheet, map, &face, Column::AltShift)
}

/// What is written for what a cell was.
fn was_legend(cell: &Cell) -> Legend
    ensures words { result.items ≡ spec.was_legend cell.now }
    ensures seen { list_all is_seen result.items ≡ true }
{
    let legend = cell_legend(cell);
    if legend.is_empty() {
        sign('\u{2205}')
    } else {
        legend
    }
}

/// Adds what a cell was below right on the edge of the cap, if there is one.
fn push_was(sheet: Sheet<InKey>, shape: Shape, cell: Option<Cell>) -> Added<Sheet<InKey>>
    ensures { IfOk result (λ s. s ≡ sheet ++ spec.was_text shape cell) }
{
    match cell {
        Some(cell) => {
            let legend = was_legend(&cell);
            let (x, y) = (Number(shape.width() - 12), Number(shape.height() - 7));
            tell(sheet, WAS, &[x, y, Characters(legend.as_slice())])
        }
        None => Ok(sheet),
    }
}

/// Adds the key of a slot at a place.
#[tactic(auto, unfolding(crate::specs::Keys::key))]
pub(crate) fn push_key(
    sheet: Sheet<InPicture>,
    drawing: &Drawing,
    slot: u8,
    cap: Cap,
) -> Added<Sheet<InPicture>>
    ensures { IfOk result (λ s. s ≡ sheet ++ spec.key drawing.now slot cap.x cap.y cap.shape) }
{
    let map = drawing.map();
    let entry = map.entry(slot);
    let sheet = begin_key(sheet, drawing, slot, cap)?;
    let sheet = push_code(sheet, slot, entry.flag, cap.shape)?;
    let sheet = push_legends(sheet, map, cap.shape, entry)?;
    let sheet = push_was(sheet, cap.shape, was_of(drawing, slot))?;
    tell(sheet, GROUP_END, &[])
}
