//! The events of a script.
ghost use Rattle.std.specs.Prelude.{◌≡◌};

use keymap_core::KeyCode;

/// A line of a script: a press of a key that isn't pressed, a press of one that is, a release, or a reset.
#[derive(Clone, Copy, Debug, PartialEq, Eq)]
pub enum ScriptEvent {
    Down(KeyCode),
    Repeat(KeyCode),
    Up(KeyCode),
    Reset,
}
