//! The words of the report of the check and of the scripts of `search` and `type`, line by line. What is told stands
//! at the places `{}`, in the order in which the contracts list it. The forms are those of docs/FORMATS.md, "The
//! report of check", "What the search found" and "The script that types a sentence". The words of `cover` and `diff`
//! are those of script_text. A comment stands here without the number sign before it and the line feed behind it. The
//! definitions have these bytes of their own (specs/Report.antt, Search.antt and Typing.antt), which are proved to be
//! the same.

// The report: the verdict, and who bears a holding action. The line on a key that makes the keymap refused is
// keymap_check's, which pictures and the C library show too.
pub(crate) const ACCEPTED: &[u8] = b"accepted\n";

pub(crate) const REFUSED: &[u8] = b"refused\n";

pub(crate) const NOBODY: &[u8] = b"{} nobody{}\n";

pub(crate) const THROUGHOUT: &[u8] = b"{} throughout {}{}\n";

pub(crate) const SOLE: &[u8] = b"{} sole {}{}\n";

pub(crate) const SEVERAL: &[u8] = b"{} several{}\n";

pub(crate) const STEADY: &[u8] = b" steady";

pub(crate) const DEMONSTRATION: &[u8] = b"demonstration:\n";

pub(crate) const NO_DEMONSTRATION: &[u8] = b"demonstration: none\n";

// The name of a text and the verdict, in one line.
pub(crate) const BRIEF: &[u8] = b"{}: {}";

// What the search found: the names of the modifiers that are on at the end, or up to how many presses none is.
pub(crate) const STICKS: &[u8] = b" sticks:{}";

pub(crate) const NEVER_STICKS: &[u8] = b" never sticks";

pub(crate) const UNDECIDED: &[u8] = b" undecided: no list of up to {} presses sticks";

// A line of the sentence, before what types it.
pub(crate) const SENTENCE: &[u8] = b" {}";

// A character of a sentence that keys can't type: the name of the sentence, the line, the column, and the character,
// its number and where a terminal shows it itself.
pub(crate) const AT_PLACE: &[u8] = b"{}:{}:{}: {}\n";

pub(crate) const SHOWN: &[u8] = b"{} '{}'";
