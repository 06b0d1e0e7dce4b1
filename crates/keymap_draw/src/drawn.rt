//! Which cells of a slot are drawn on its cap. The columns with control stand in its title alone.
ghost use Rattle.std.specs.Prelude.{◌≡◌};
ghost use Rattle.keymap_draw.specs.Drawn as spec;

use crate::place::Column;
use crate::tables::{CASES, CaseRow};
use keymap_core::{Action, Cell, Entry};

/// The cells of the columns that are drawn, where they are drawn.
#[derive(Clone, Copy)]
pub(crate) struct DrawnCells {
    pub(crate) base: Option<Cell>,
    pub(crate) shift: Option<Cell>,
    pub(crate) alt: Option<Cell>,
    pub(crate) alt_shift: Option<Cell>,
}

impl DrawnCells {
    ghost use Rattle.keymap_draw.specs.Drawn.{cell_in};

    /// The cell of a column, if it is drawn.
    pub(crate) fn cell(&self, column: Column) -> Option<Cell>
        ensures { result ≡ cell_in self.now column }
    {
        match column {
            Column::Base => self.base,
            Column::Shift => self.shift,
            Column::Alt => self.alt,
            Column::AltShift => self.alt_shift,
        }
    }
}

/// Whether nothing is drawn for the cell: it is nop or the character 0.
pub(crate) fn is_blank(cell: &Cell) -> bool
    ensures { result ≡ spec.is_blank cell.now }
{
    match cell {
        Cell::Char(c) => *c == '\0',
        Cell::Act(Action::Nop) => true,
        Cell::Act(_) => false,
    }
}

/// Whether the cells are the same, of which actions are told by their codes.
fn is_same(cell: &Cell, other: &Cell) -> bool
    ensures { result ≡ spec.is_same cell.now other.now }
{
    match (cell, other) {
        (Cell::Char(c), Cell::Char(d)) => *c == *d,
        (Cell::Act(action), Cell::Act(another)) => action.code() == another.code(),
        _ => false,
    }
}

fn is_among(cell: &Cell, before: &[Cell]) -> bool
    ensures { result ≡ spec.is_among cell.now before.now }
{
    before.iter().any(|other| is_same(cell, other))
}

/// The cell, unless it is blank or the same as one before it.
#[tactic(auto, unfolding(crate::specs::Drawn::remaining))]
fn remaining(cell: &Cell, before: &[Cell]) -> Option<Cell>
    ensures { result ≡ spec.remaining cell.now before.now }
{
    if is_blank(cell) || is_among(cell, before) {
        None
    } else {
        Some(*cell)
    }
}

/// The cells that differ from those before them.
#[tactic(auto, unfolding(crate::specs::Drawn::different))]
fn different(entry: &Entry) -> DrawnCells
    ensures { result ≡ spec.different entry.now }
{
    let cells = entry.cells();
    let before = [cells[0], cells[1], cells[4]];
    DrawnCells {
        base: remaining(&cells[0], &[]),
        shift: remaining(&cells[1], &before[..1]),
        alt: remaining(&cells[4], &before[..2]),
        alt_shift: remaining(&cells[5], &before),
    }
}

fn is_pair_by(row: &CaseRow, small: char, capital: char) -> bool
    ensures { result ≡ spec.is_pair_by row.now small capital }
{
    let number = u32::from(small);
    row.0 <= number
        && number <= row.1
        && (!row.2 || (number - row.0) % 2 == 0)
        && u32::from(capital) + u32::from(row.3) == number
}

#[tactic(auto, unfolding(crate::specs::Drawn::is_case_pair))]
fn is_case_pair(small: char, capital: char) -> bool
    ensures { result ≡ spec.is_case_pair small capital }
{
    CASES.iter().any(|row| is_pair_by(row, small, capital))
}

/// Whether both cells remain, are characters, and are a small letter and its capital.
fn is_pair(first: &Option<Cell>, second: &Option<Cell>) -> bool
    ensures { result ≡ spec.is_pair first.now second.now }
{
    match (first, second) {
        (Some(Cell::Char(small)), Some(Cell::Char(capital))) => is_case_pair(*small, *capital),
        _ => false,
    }
}

/// The cells that are drawn: a capital stands for its small letter too, on the right in the place of alt.
#[tactic(auto, unfolding(crate::specs::Drawn::drawn))]
pub(crate) fn drawn(entry: &Entry) -> DrawnCells
    ensures { result ≡ spec.drawn entry.now }
{
    let all = different(entry);
    let base_is_left_out = is_pair(&all.base, &all.shift);
    let alt_is_left_out = is_pair(&all.alt, &all.alt_shift);
    DrawnCells {
        base: if base_is_left_out { None } else { all.base },
        shift: all.shift,
        alt: if alt_is_left_out {
            all.alt_shift
        } else {
            all.alt
        },
        alt_shift: if alt_is_left_out { None } else { all.alt_shift },
    }
}

fn count(cell: &Option<Cell>) -> u8
    ensures { result ≡ spec.count cell.now }
{
    if cell.is_some() { 1 } else { 0 }
}

/// Whether one cell alone is drawn, and stands for no small letter on the left: then it stands in the middle.
#[tactic(auto, unfolding(crate::specs::Drawn::stands_alone))]
pub(crate) fn stands_alone(entry: &Entry) -> bool
    ensures { result ≡ spec.stands_alone entry.now }
{
    let all = different(entry);
    let drawn = drawn(entry);
    let drawn_count = count(&drawn.base) as u32
        + count(&drawn.shift) as u32
        + count(&drawn.alt) as u32
        + count(&drawn.alt_shift) as u32;
    drawn_count == 1 && !is_pair(&all.base, &all.shift)
}
