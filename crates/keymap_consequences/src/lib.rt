//! The consequences of a change of a keymap, for who checks keymaps and who types with them: what is so under the keymap
//! before the change and not under the one behind it, and the other way round.
//!
//! The crate stands on `keymap_core`, whose keymaps it compares, on `keymap_check` for the keys that the check names, on
//! `console_scripts` for what comes of taps, and on `console_core`, whose console it asks how few presses type a
//! character. `specs/Consequences.antt` says what each list has; `laws` what follows for sentences.
//!
//! No call fails but for want of memory.
#![tactic(auto)]

mod bearing;
mod consequences;
pub mod laws;
mod presses;
mod refused;
mod taps;

pub use bearing::Bearing;
pub use consequences::{Consequences, consequences_of};
pub use refused::Refused;
pub use taps::TapChanges;
