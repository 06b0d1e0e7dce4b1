//! Consoles that translate presses and releases of keys into characters and actions under a keymap, as genkbd_keyaction
//! of sys/dev/kbd/kbd.c does, with a reset and a load of a second keymap besides.
//!
//! The crate stands on keymap_core. A console promises, of the whole list of events that it was delivered since it was
//! made, the answer to each event, which modifiers and locks are on and which accent is pending: `specs/History.antt`
//! and `specs/Resolved.antt` define these by positions in that list. `PlainConsole` and `WordConsole` keep that promise
//! in two layouts, `replay` and `deliver_all` deliver a list of events, and `laws` has what follows for all lists: in a
//! keymap where no key bears a modifier or lock beside a character, a modifier is on only while a key that bears it is
//! pressed, and once every key is released, with no accent pending, the console goes on as after a reset.
//!
//! `step_kept` is the step of `WordConsole` over a `WordStore` that the caller keeps, for who calls from C. Each of
//! them runs over a keymap however it is kept (`keymap_core::Keymap`).
//!
//! `column`, `flips` and `is_usable` are the rules of the translation for who follows a console without one.
//!
//! No call takes memory but `replay`, which fails where it is refused. No other call fails.
#![tactic(auto)]

mod event;
mod kept;
pub mod laws;
mod machine;
mod plain_console;
mod plain_store;
mod replays;
mod rules;
mod store;
mod translator;
mod word_console;
mod word_store;

pub use event::{Answer, Event};
pub use kept::{locks_kept, modifiers_kept, pending_kept, start_kept, step_kept};
pub use plain_console::PlainConsole;
pub use replays::{deliver_all, replay};
pub use rules::{column, flips, is_usable};
pub use translator::{Translator, is_any_on};
pub use word_console::WordConsole;
pub use word_store::WordStore;
