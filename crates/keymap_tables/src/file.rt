//! The parts of a table file and of a narrow file, which take definitions: so the tables of a text are made where its
//! caller wants them.
ghost use Rattle.std.specs.Prelude.{◌≡◌, ℕ, ◌+◌, ◌<◌, [], length, max};
ghost use Rattle.keymap_tables.specs.Image.{count_bytes};
ghost use Rattle.keymap_tables.specs.Layouts.{count_size};

use crate::accent::push_accent;
use crate::count::count_image;
use crate::layout::{ACCENT, COUNT, Layout, NARROW_ACCENT, NARROW_COUNT, NARROW_SLOT, SLOT};
use crate::number::read_half;
use crate::slot::slot_image;
use arrayvec::ArrayVec;
use keymap_core::laws::{every_accent_is_within_the_bounds, every_entry_is_within_the_bounds};
use keymap_core::{ACCENT_LIMIT, Accent, Definitions, Entry, SLOT_LIMIT};

/// The four parts of a table file, in their order: 15,524 bytes without a pad between them.
#[repr(C)]
#[derive(Clone, Copy, Drop)]
pub struct TableFile {
    pub n_keys: [u8; COUNT],
    pub slots: [[u8; SLOT]; SLOT_LIMIT],
    pub n_accs: [u8; COUNT],
    pub accents: [[u8; ACCENT]; ACCENT_LIMIT],
}

/// The four parts of a narrow file, in their order: 4,139 bytes without a pad between them.
#[repr(C)]
#[derive(Clone, Copy, Drop)]
pub struct NarrowFile {
    pub n_keys: [u8; NARROW_COUNT],
    pub slots: [[u8; NARROW_SLOT]; SLOT_LIMIT],
    pub n_accs: [u8; NARROW_COUNT],
    pub accents: [[u8; NARROW_ACCENT]; ACCENT_LIMIT],
}

/// Puts bytes in place of those of a part.
fn put<const N: usize>(part: &mut [u8; N], bytes: &[u8])
    requires { length bytes.now ≡ N }
    ensures { part.new ≡ bytes.now }
{
    part.copy_from_slice(bytes);
}

/// The bytes of a count that reaches past the index.
fn raised<const N: usize>(layout: Layout, count: &[u8; N], index: u8) -> [u8; N]
    requires { N ≡ count_size layout }
    ensures { (n : ℕ) → n < 257 → count.now ≡ count_bytes layout n → result ≡ count_bytes layout (max n (index + 1)) }
{
    let most = read_half(count).max(u16::from(index) + 1);
    let mut row = [0; N];
    put(&mut row, count_image(layout, most).as_slice());
    row
}

impl TableFile {
    /// Puts the tables of no keys in place.
    pub fn clear(&mut self)
        ensures { ⟦<TableFile as Definitions>⟧.shows self.new (record { entries = []; accents = [] }) }
    {
        self.n_keys = [0; COUNT];
        self.slots = [[0; SLOT]; SLOT_LIMIT];
        self.n_accs = [0; COUNT];
        self.accents = [[0; ACCENT]; ACCENT_LIMIT];
    }
}

impl NarrowFile {
    /// Puts the narrow file of no keys in place.
    pub fn clear(&mut self)
        ensures { ⟦<NarrowFile as Definitions>⟧.shows self.new (record { entries = []; accents = [] }) }
    {
        self.n_keys = [0; NARROW_COUNT];
        self.slots = [[0; NARROW_SLOT]; SLOT_LIMIT];
        self.n_accs = [0; NARROW_COUNT];
        self.accents = [[0; NARROW_ACCENT]; ACCENT_LIMIT];
    }
}

impl Definitions for TableFile {
    ghost use Rattle.keymap_tables.specs.Filled.{Filled};
    ghost use Rattle.keymap_tables.specs.Layouts.{wide};

    ghost shows = { λ t m. Filled wide t.n_keys t.slots t.n_accs t.accents m };

    fn define(&mut self, slot: u8, entry: Entry) {
        every_entry_is_within_the_bounds(&entry);
        put(
            &mut self.slots[slot as usize],
            slot_image(Layout::Wide, &entry).as_slice(),
        );
        self.n_keys = raised(Layout::Wide, &self.n_keys, slot);
    }

    fn define_accent(&mut self, index: u8, accent: Accent) {
        every_accent_is_within_the_bounds(&accent);
        let mut image = ArrayVec::new();
        push_accent(&mut image, Layout::Wide, &accent);
        put(&mut self.accents[index as usize], image.as_slice());
        self.n_accs = raised(Layout::Wide, &self.n_accs, index);
    }
}

impl Definitions for NarrowFile {
    ghost use Rattle.keymap_tables.specs.Filled.{Filled};
    ghost use Rattle.keymap_tables.specs.Layouts.{narrow};

    ghost shows = { λ t m. Filled narrow t.n_keys t.slots t.n_accs t.accents m };

    fn define(&mut self, slot: u8, entry: Entry) {
        every_entry_is_within_the_bounds(&entry);
        put(
            &mut self.slots[slot as usize],
            slot_image(Layout::Narrow, &entry).as_slice(),
        );
        self.n_keys = raised(Layout::Narrow, &self.n_keys, slot);
    }

    fn define_accent(&mut self, index: u8, accent: Accent) {
        every_accent_is_within_the_bounds(&accent);
        let mut image = ArrayVec::new();
        push_accent(&mut image, Layout::Narrow, &accent);
        put(&mut self.accents[index as usize], image.as_slice());
        self.n_accs = raised(Layout::Narrow, &self.n_accs, index);
    }
}
