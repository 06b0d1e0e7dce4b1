//! The sentences of the C library for the kinds of faults, in the order of their numbers. docs/FORMATS.md has them in
//! "Sentences of the C library".

// Of a table file, from 1 on.
pub(crate) const TOO_SHORT: &[u8] = b"the file is too short";

pub(crate) const TOO_LONG: &[u8] = b"the file is too long";

pub(crate) const BAD_COUNT: &[u8] = b"more than 256 slots, or more than 15 accents";

pub(crate) const BAD_PAD: &[u8] = b"a pad that is not 0";

pub(crate) const BAD_FLAG: &[u8] = b"a lock flag above 3";

pub(crate) const BAD_ACTION: &[u8] = b"a number that is no action, in a cell that is marked as one";

pub(crate) const COMBINED: &[u8] = b"a modifier joined with alock, which is not supported";

pub(crate) const BAD_NUMBER: &[u8] = b"a number that is no character";

pub(crate) const NOT_EMPTY: &[u8] =
    b"a byte that is not 0 in a slot, an accent or a pair that is not in use";

// Of a text, from 1 on. The tenth is that of a table file.
pub(crate) const BAD_BYTE: &[u8] = b"a byte that begins no token";

pub(crate) const BAD_LITERAL: &[u8] =
    b"no quoted character stands here: an apostrophe, one character other than a line feed, an apostrophe";

pub(crate) const BAD_WORD: &[u8] = b"a word without a meaning, or of more than 32 bytes";

pub(crate) const UNEXPECTED: &[u8] = b"a token that is not wanted here";

pub(crate) const KEY_TOO_LARGE: &[u8] = b"a slot above 255";

pub(crate) const BAD_CHARACTER: &[u8] =
    b"a number that is no character: characters are 0 to 0xd7ff and 0xe000 to 0x10ffff";

pub(crate) const BAD_FUNCTION: &[u8] =
    b"a screen or function key that does not exist: there are scr01 to scr16 and fkey01 to fkey96";

pub(crate) const TOO_MANY_PAIRS: &[u8] = b"an accent has 52 pairs already, and room for no more";

pub(crate) const ZERO_BASE: &[u8] = b"the base of a pair is a character other than 0";

pub(crate) const END_INSIDE: &[u8] = b"the text ends inside a token or a definition";
