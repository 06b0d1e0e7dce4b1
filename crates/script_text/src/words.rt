//! The words of the scripts that `cover` and `diff` print, line by line. What is told stands at the places `{}`, in the
//! order in which the contracts list it. The forms are those of docs/FORMATS.md, "The script that tests a console" and
//! "What differs between two keymaps". A comment stands here without the number sign before it and the line feed behind
//! it. The definitions have these bytes of their own (specs/Cover.antt and Diff.antt), which are proved to be the same.

// What the script that tests a console is for.
pub(crate) const PURPOSE: &[u8] =
    b" for a console in a program: on a machine it restarts, stops or sleeps";

// How many sights of a kind the script that tests a console sees, leaves out and never sees, and these kinds.
pub(crate) const COUNTS: &[u8] = b" {}: {}, left out {}, {} {}";

pub(crate) const CELLS: &[u8] = b"cells";

pub(crate) const LOCK_SETTINGS: &[u8] = b"lock settings";

pub(crate) const ALL_PAIRS: &[u8] = b"pairs";

// What the script doesn't see: of slots, and of an accent with characters.
pub(crate) const ONE_SLOT: &[u8] = b" {}: slot {}{}";

pub(crate) const SLOTS: &[u8] = b" {}: slots {} to {}{}";

pub(crate) const PAIRS: &[u8] = b" {}: {} with{}";

pub(crate) const LEFT_OUT: &[u8] = b"left out";

pub(crate) const NEVER: &[u8] = b"never";

pub(crate) const UNSTUCK: &[u8] = b"not before a modifier sticks";

// What is listed of a slot: columns, and settings of clock and nlock. A number in a list.
pub(crate) const COLUMNS: &[u8] = b"; columns";

pub(crate) const LOCKS: &[u8] = b"; locks";

pub(crate) const NO_LOCK: &[u8] = b" none";

pub(crate) const NLOCK: &[u8] = b" nlock";

pub(crate) const CLOCK: &[u8] = b" clock";

pub(crate) const BOTH_LOCKS: &[u8] = b" clock+nlock";

pub(crate) const LISTED: &[u8] = b" {}";

// Where the parts of the script begin.
pub(crate) const CELLS_PART: &[u8] = b" cells";

pub(crate) const PAIRS_PART: &[u8] = b" pairs";

pub(crate) const TRIALS_PART: &[u8] = b" trials";

pub(crate) const ONE_WAY_PART: &[u8] = b" one-way";

// A repeat, which no other printed script has.
pub(crate) const REPEAT: &[u8] = b"repeat {}\n";

// What tells two keymaps apart: nothing, since they are the same; the last of the events, with the answer under each;
// no list of events, or none before a modifier sticks; or up to how many presses none does.
pub(crate) const SAME: &[u8] = b" same";

// One of these lines as a comment.
pub(crate) const SAID: &[u8] = b" {}";

pub(crate) const TOLD: &[u8] = b"told apart: {} -> {}";

pub(crate) const NEVER_TOLD: &[u8] = b"never told apart";

pub(crate) const NOT_TOLD: &[u8] = b"not told apart before a modifier sticks";

pub(crate) const UNTOLD: &[u8] = b"undecided: no list of up to {} presses tells them apart";

// An answer, its character as a reader knows it.
pub(crate) const ERROR: &[u8] = b"error";

pub(crate) const META_CHARACTER: &[u8] = b"meta {}";

pub(crate) const BACK_TAB: &[u8] = b"btab";

pub(crate) const RELEASED: &[u8] = b"released {}";

// What stands for no character, no result, no slot or no accent.
pub(crate) const NONE: &[u8] = b"none";

// What differs: from what to what, and that no press meets it.
pub(crate) const CHANGED: &[u8] = b"{} -> {}";

pub(crate) const UNSEEN: &[u8] = b" (unseen)";

// A line: what begins it, and its items.
pub(crate) const LINE: &[u8] = b"{}{}{}";

pub(crate) const LAST_SLOT: &[u8] = b"last slot: {}";

pub(crate) const LAST_ACCENT: &[u8] = b"last accent: {}";

pub(crate) const SLOT: &[u8] = b"slot {}";

pub(crate) const ITEM: &[u8] = b"; {}: {}{}";

pub(crate) const LISTED_OTHERWISE: &[u8] = b"; listed otherwise";

// What of its slot or accent an item tells: columns, the lock letter, or the accent's own character.
pub(crate) const COMMA: &[u8] = b", ";

pub(crate) const ALL_COLUMNS: &[u8] = b"all columns";

pub(crate) const LOCK: &[u8] = b"lock";

pub(crate) const OWN: &[u8] = b"own";

// How many slots and accents differ.
pub(crate) const DIFFER: &[u8] = b" differ: {}{}{}";

pub(crate) const SLOT_DIFFERS: &[u8] = b"1 slot";

pub(crate) const SLOTS_DIFFER: &[u8] = b"{} slots";

pub(crate) const ACCENT_DIFFERS: &[u8] = b"1 accent";

pub(crate) const ACCENTS_DIFFER: &[u8] = b"{} accents";

// The consequences of a change: of the check, with a key that it names; who bears a modifier or lock; and what comes of
// taps.
pub(crate) const CHECK: &[u8] = b"check: {} -> {}";

pub(crate) const CHECK_ACCEPTS: &[u8] = b"accepted";

pub(crate) const CHECK_REFUSES: &[u8] = b"refused";

pub(crate) const REFUSED_NO_LONGER: &[u8] = b"refused no longer: {}";

pub(crate) const REFUSED_NOW: &[u8] = b"refused now: {}";

pub(crate) const REFUSED_KEY: &[u8] = b"{} ({}, {})";

pub(crate) const BORNE_OTHERWISE: &[u8] = b"{}: {} -> {}";

pub(crate) const BORNE_BY_NOBODY: &[u8] = b"nobody";

pub(crate) const TYPES_NO_LONGER: &[u8] = b"types no longer: {}";

pub(crate) const TYPES_NOW: &[u8] = b"types now: {}";

pub(crate) const MORE_PRESSES: &[u8] = b"more presses: {}";

pub(crate) const FEWER_PRESSES: &[u8] = b"fewer presses: {}";

pub(crate) const GIVES_NO_LONGER: &[u8] = b"gives no longer: {}";

pub(crate) const GIVES_NOW: &[u8] = b"gives now: {}";

pub(crate) const TYPES_UNDECIDED: &[u8] = b"types: undecided";

// What stands between characters and between actions in a list.
pub(crate) const BLANK: &[u8] = b" ";

// The head of the script that tests a console by its keyboard: the board, and what isn't pressed, by slots and columns.
pub(crate) const KEYBOARD: &[u8] = b"keyboard: {} keys";

pub(crate) const NOT_PRESSED: &[u8] = b"not pressed: {}: {}";

pub(crate) const SLOT_COLUMNS: &[u8] = b"slot {} columns{}";

pub(crate) const SLOTS_COLUMNS: &[u8] = b"slots {} to {} columns{}";

pub(crate) const SEMICOLON: &[u8] = b"; ";

// What no admitted list sees.
pub(crate) const ELSE: &[u8] = b"else";

// Where a case begins, and what it is about.
pub(crate) const CASE: &[u8] = b"case {}: {}{}";

pub(crate) const NOT_SENT: &[u8] = b": not sent: repeat";

pub(crate) const TOGETHER: &[u8] = b"together {} {}";

pub(crate) const ALONE: &[u8] = b"alone {}";

pub(crate) const ACROSS: &[u8] = b"across {} {} {}";

pub(crate) const BETWEEN: &[u8] = b"between {} and {}";

pub(crate) const PAIRS_CASE: &[u8] = b"pairs {}";

pub(crate) const CELLS_CASE: &[u8] = b"cells {}";

pub(crate) const RISKY_CELLS: &[u8] = b"risky cells {}";

pub(crate) const RISKY_BETWEEN: &[u8] = b"risky between {} and nop of {}";
