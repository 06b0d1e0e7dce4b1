//! The states to which presses, releases and loads lead a console, and what is found among them: whether a modifier can
//! stick, and what presses can see.
//!
//! The crate stands on `console_core`, whose lists of events and their answers its promises speak of, and on indexmap
//! for the states that a search meets. A state is which key holds each modifier, which locks are on, which keymap is
//! in force and whether the accent that is minded is pending (`specs/Moves.antt`); `laws` has what ties states and
//! moves to lists of events.
//!
//! `meet_all` is the search: it meets the states that moves lead to from the one it is given, by the fewest presses,
//! and `go_out` tells the events to one of them. `sticking` decides by it whether a keymap can leave a modifier on
//! while no key is pressed, `sticking_between` whether two that loads exchange can. `sights_of` finds by the same
//! search what presses can look up, and behind which accents. All of them may give up where more than 65,536 states can
//! be reached. `some_sights` looks at a few states alone, those of `few_states`, and so never does.
//!
//! No call takes memory but these, `sights_in`, and those that push events, and none fails but for want of memory.
#![tactic(auto)]

mod allowed;
mod few;
mod held;
mod key_lists;
pub mod laws;
mod left_on;
mod look;
mod offers;
mod outcome;
mod search;
mod selection;
mod showing;
mod sights;

pub use allowed::{KeyPresses, Presses};
pub use few::few_states;
pub use held::{Held, Keymaps, Move, Step};
pub use look::{KeyAt, first_where};
pub use outcome::Sticking;
pub use search::{
    End, Met, Origin, entry, first_allowed, first_stuck, has_few_states, meet_all, state_at,
    sticking, sticking_between,
};
pub use selection::{Selection, Sight};
pub use showing::{go_out, push_moves};
pub use sights::{Offer, Sights, sights_in, sights_of, some_sights};
