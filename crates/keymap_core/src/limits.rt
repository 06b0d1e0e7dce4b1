//! The numbers of the format, each named once. specs/Numbers.antt has the same as definitions.

/// How many key codes there are: 0 to 127. A map has two slots for each.
pub const KEY_COUNT: usize = 128;

/// How many slots a map has room for: `NUM_KEYS` of sys/kbio.h.
pub const SLOT_LIMIT: usize = 256;

/// How many cells a slot has: `NUM_STATES` of sys/kbio.h.
pub const COLUMN_COUNT: usize = 8;

/// How many accents a map has room for: `NUM_DEADKEYS` of sys/kbio.h.
pub const ACCENT_LIMIT: usize = 15;

/// How many pairs an accent has room for: `NUM_ACCENTCHARS` of sys/kbio.h.
pub const PAIR_LIMIT: usize = 52;
