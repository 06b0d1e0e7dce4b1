//! The cells of a slot and its lock flag: `struct keyent_t` of sys/kbio.h.
ghost use Rattle.std.specs.Prelude.{◌≡◌, length};
ghost use Rattle.keymap_core.specs.Numbers.{column_count};

use crate::action::Action;
use crate::bounds::{Bounded, have_bounds};
use crate::limits::COLUMN_COUNT;

/// What a key gives in one column. The character 0 isn't the action `nop`.
#[derive(Clone, Copy, Debug, PartialEq, Eq)]
pub enum Cell {
    Char(char),
    Act(Action),
}

/// Which locks flip the shift bit of an entry's column: none, caps, num or both.
#[derive(Clone, Copy, Debug, PartialEq, Eq)]
pub enum LockFlag {
    O,
    C,
    N,
    B,
}

/// The cells of a slot. The column is shift + 2 times control + 4 times alt.
#[derive(Clone, Copy, Debug, PartialEq, Eq)]
pub struct Entry {
    pub cells: [Cell; COLUMN_COUNT],
    pub flag: LockFlag,
}

pub(crate) const UNDEFINED: Entry = Entry {
    cells: [Cell::Char('\0'); COLUMN_COUNT],
    flag: LockFlag::O,
};

impl Entry {
    ghost use Rattle.keymap_core.specs.Maps.{undefined};

    /// The entry of a slot that no definition names: eight characters 0 and flag O.
    pub fn undefined() -> Entry
        ensures { result ≡ undefined }
    {
        UNDEFINED
    }

    /// The eight cells, as a slice.
    pub fn cells(&self) -> &[Cell]
        ensures cells { result.now ≡ self.now.cells }
        ensures eight { length result.now ≡ column_count }
    {
        &self.cells
    }
}

impl Bounded for Cell {
    ghost use Rattle.keymap_core.specs.Bounds.{IsCell};

    ghost Is = { IsCell };

    fn has_bounds(&self) {
        match self {
            Cell::Char(c) => c.has_bounds(),
            Cell::Act(action) => {
                let _ = action.code();
            }
        }
    }
}

impl Bounded for Entry {
    ghost use Rattle.keymap_core.specs.Bounds.{IsEntry};

    ghost Is = { IsEntry };

    fn has_bounds(&self) {
        have_bounds(self.cells());
    }
}
