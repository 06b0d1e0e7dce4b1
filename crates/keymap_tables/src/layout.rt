//! Where the parts of a table file stand, in bytes from its start, and how long they are: one format at two widths.
ghost use Rattle.std.specs.Prelude.{◌≡◌, ◌+◌, ◌<◌, ◌≤◌};
ghost use Rattle.keymap_core.specs.Numbers.{accent_limit};
ghost use Rattle.keymap_tables.specs.Layouts.{cells_size, number_size, count_size, slot_size, accent_size};
ghost use Rattle.keymap_tables.specs.Layouts.{n_accs_place, accent_place, file_size, layout_of, slot_place};

/// How wide the numbers of a table file are.
#[derive(Clone, Copy, Debug, PartialEq, Eq)]
pub(crate) enum Layout {
    /// Four bytes a number, and two pads after each count and each flag: `struct keymap` and `struct accentmap`.
    Wide,
    /// A byte a number, and no pads.
    Narrow,
}

/// Where the pads of a count stand in it.
pub(crate) const COUNT_PADS_AT: usize = 2;

/// How many bytes a count, a slot and an accent have at most.
pub(crate) const COUNT: usize = 4;

pub(crate) const SLOT: usize = 36;

pub(crate) const ACCENT: usize = 420;

/// Where slot 0, the number of accents and accent 0 stand in a table file.
pub(crate) const WIDE_SLOTS_AT: usize = 4;

pub(crate) const WIDE_N_ACCS_AT: usize = 9220;

pub(crate) const WIDE_ACCENTS_AT: usize = 9224;

/// How many bytes a table file has: `struct keymap` and `struct accentmap` of sys/kbio.h.
pub const WIDE_FILE: usize = 15524;

/// How many bytes a count, a slot and an accent have in a narrow file.
pub(crate) const NARROW_COUNT: usize = 2;

pub(crate) const NARROW_SLOT: usize = 10;

pub(crate) const NARROW_ACCENT: usize = 105;

/// Where slot 0, the number of accents and accent 0 stand in a narrow file.
pub(crate) const NARROW_SLOTS_AT: usize = 2;

pub(crate) const NARROW_N_ACCS_AT: usize = 2562;

pub(crate) const NARROW_ACCENTS_AT: usize = 2564;

/// How many bytes a narrow file has.
pub const NARROW_FILE: usize = 4139;

/// The greatest number that fits in a narrow file.
pub(crate) const NARROW_MOST: u32 = 255;

impl Layout {
    /// The layout of numbers of a byte each, or of four bytes.
    pub(crate) fn of(number: usize) -> Layout
        ensures { result ≡ layout_of number }
    {
        if number == 1 {
            Layout::Narrow
        } else {
            Layout::Wide
        }
    }

    /// A cell, or an accent's character.
    pub(crate) fn number(self) -> usize
        ensures { result ≡ number_size self }
    {
        match self {
            Layout::Wide => 4,
            Layout::Narrow => 1,
        }
    }

    /// A count and its pads.
    pub(crate) fn count(self) -> usize
        ensures { result ≡ count_size self }
    {
        match self {
            Layout::Wide => COUNT,
            Layout::Narrow => NARROW_COUNT,
        }
    }

    /// The eight cells of a slot. The marks, the flag and the pads follow them.
    pub(crate) fn cells(self) -> usize
        ensures { result ≡ cells_size self }
    {
        8 * self.number()
    }

    /// Eight cells, the marks, the flag and the pads.
    pub(crate) fn slot(self) -> usize
        ensures { result ≡ slot_size self }
    {
        self.cells() + self.count()
    }

    /// The own character and 52 pairs.
    pub(crate) fn accent(self) -> usize
        ensures { result ≡ accent_size self }
    {
        105 * self.number()
    }

    /// Where the number of accents stands.
    pub(crate) fn n_accs_at(self) -> usize
        ensures { result ≡ n_accs_place self }
    {
        match self {
            Layout::Wide => WIDE_N_ACCS_AT,
            Layout::Narrow => NARROW_N_ACCS_AT,
        }
    }

    /// Where a slot stands.
    pub(crate) fn slot_at(self, slot: u8) -> usize
        ensures place { result ≡ slot_place self slot }
        ensures inside { result + slot_size self ≤ file_size self }
    {
        match self {
            Layout::Wide => WIDE_SLOTS_AT + SLOT * slot as usize,
            Layout::Narrow => NARROW_SLOTS_AT + NARROW_SLOT * slot as usize,
        }
    }

    /// Where an accent stands.
    pub(crate) fn accent_at(self, index: u8) -> usize
        requires { index < accent_limit }
        ensures place { result ≡ accent_place self index }
        ensures inside { result + accent_size self ≤ file_size self }
    {
        match self {
            Layout::Wide => WIDE_ACCENTS_AT + ACCENT * index as usize,
            Layout::Narrow => NARROW_ACCENTS_AT + NARROW_ACCENT * index as usize,
        }
    }

    /// How long a file is.
    pub(crate) fn file(self) -> usize
        ensures { result ≡ file_size self }
    {
        match self {
            Layout::Wide => WIDE_FILE,
            Layout::Narrow => NARROW_FILE,
        }
    }
}
