//! A script that tests a console by its keyboard, in cases from rest to rest, and what it sees.
//!
//! `presses_of` tells which presses a keyboard makes: those of a board's keys that look up no action which ends or
//! leaves the console. `keyboard_cover_of` makes the script. A plan (`plan`, `spots`, `probes`) says how to come to what
//! is on, and what to tap there that tells it; of these trials, pairs and cells are thought of, each a `Run` from rest.
//! Of all this nothing is promised: `checked` makes each case once more, press by press, and keeps it if all its events
//! may come and it ends at rest. `allowed_sights` finds what allowed presses can see, by the search of console_states.
//!
//! Contracts (`IsCover`) say that each event may come, that there is rest at each case and at the end, and what the
//! script sees and allowed presses can see; so each sight of an admitted list is seen or left out (`laws`).
#![tactic(auto)]

mod across;
mod allowed;
mod between;
mod cases;
mod checked;
mod cover;
mod drafts;
mod group;
mod keyboards;
mod kind;
pub mod laws;
mod making;
mod plan;
mod probes;
mod run;
mod sights;
mod spots;
mod sweeps;
mod trials;

pub use allowed::presses_of;
pub use cases::{Case, What};
pub use checked::KeyboardScript;
pub use cover::{KeyboardCover, keyboard_cover_of};
pub use group::{GROUP_COUNT, GROUPS, Group};
pub use keyboards::Keyboard;
pub use kind::Kind;
pub use sights::{AllowedSights, allowed_sights};
pub use spots::Holdings;
