//! Scripts of events for a console: visits that show what presses can see, and presses that type characters.
//!
//! The crate stands on `console_states`, whose search it explores a keymap by; `laws` has what ties visits and what is
//! typed to lists of events.
//!
//! An `Explorer` makes the events of visits to what presses can see, where moves lead back; `find_onward` those to what
//! lies behind a turn of a lock that none takes back, and `scroll_off` those that turn the scroll lock off.
//! `type_characters` makes the events that type characters, in whatever layout a lock selects them, or names the first
//! character that no keys can type; `ways_of` makes those that type one character, by each key that can. A `Typist`
//! tells of each character whether keys can type it, and `yield_of` makes the set of all that they can, with the
//! actions that taps give.
//!
//! No call takes memory but `find_onward`, `scroll_off`, those of an `Explorer`, `Typist::new`, `yield_of`, `ways_of`
//! and `type_characters`. These fail for want of memory, the last two besides where more than 65,536 states can be
//! reached, `type_characters` also where a character can't be typed, and no other call fails.
#![tactic(auto)]

mod by_key;
mod classes;
mod courses;
mod explored;
mod explorer;
mod few;
pub mod laws;
mod making;
mod onward;
mod places;
mod routes;
mod seeking;
mod showing;
mod symbols;
mod typed;
mod typing;
mod typist;

pub use by_key::{WayBy, ways_of};
pub use classes::Class;
pub use explorer::Explorer;
pub use onward::{find_onward, scroll_off};
pub use typed::{Yield, yield_of};
pub use typing::{Keyed, Typing, TypingError, type_characters};
pub use typist::Typist;
