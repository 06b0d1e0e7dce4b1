//! The scripts that `cover` and `diff` print, and what all printed scripts are made of: the lines of events, and
//! comments.
//!
//! `cover_text` prints a cover of keymap_cover: in comments how much its script sees, what it leaves out and what it
//! never sees, and its events, a line each. `keyboard_text` prints one of keyboard_cover, with a comment before each of
//! its cases. `diff_text` prints what keymap_diff and keymap_consequences found between two keymaps: the verdict, the
//! consequences and each change in comments, and the events that tell them apart; `same_text` what is told of keymaps
//! that are the same, and `verdict_words`, `consequence_lines` and `change_lines` the same lines for who shows them
//! elsewhere. The lines are those that `play_core` reads; `kmap_runs` above writes these texts, and makes others of the
//! same lines.
//!
//! Contracts say that each text is the one that is defined for its value (`specs/Cover.antt`, `specs/Keyboard.antt`,
//! `specs/Diff.antt`). The module `laws` says that it is a script, of exactly these events and of nothing else, whatever
//! its comments tell, and of that of `diff` what two consoles answer that play it.
#![tactic(auto)]

mod changes;
mod consequences;
mod cover;
mod diff;
mod event_lines;
mod keyboard_script;
mod keyboard_words;
pub mod laws;
mod words;

pub use changes::{ChangeLine, Subject, change_lines};
pub use consequences::consequence_lines;
pub use cover::cover_text;
pub use diff::{brief_text, diff_text, same_text, verdict_words};
pub use event_lines::{append, append_event, event_line, push_comment, push_events};
pub use keyboard_script::{Title, keyboard_text};
