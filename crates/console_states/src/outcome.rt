//! What the search for sticking modifiers answers.
use console_core::Event;
use keymap_core::Modifier;

/// Whether a keymap, or two that loads exchange, can leave a modifier on while no key is pressed.
#[derive(Debug, Drop)]
pub enum Sticking {
    /// After these presses, releases and, between two keymaps, loads no key is pressed and these modifiers are on, one
    /// at least, in their order. No list of presses, releases, resets and such loads that leaves a modifier on so has
    /// fewer presses.
    Sticks {
        events: Vec<Event>,
        modifiers: Vec<Modifier>,
    },
    /// After each list of presses, releases, resets and, between two keymaps, loads a modifier is on only while a key
    /// is pressed that bears it in the keymap in force.
    Never,
    /// More than 65,536 states can be reached by as many presses as are told here, so the search gave up. No list of
    /// presses, releases, resets and such loads with at most that many presses leaves a modifier on.
    Undecided(usize),
}
