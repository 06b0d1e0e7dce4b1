//! The events that a console is delivered, and what it answers to each.
ghost use Rattle.std.specs.Prelude.{◌≡◌};
ghost use Rattle.console_core.specs.Raw.{raw_of, function_mark_of};

use keymap_core::{Action, KeyCode};

/// What is delivered to a console. A press of a key that is pressed already is a repeat.
#[derive(Clone, Copy, Debug, Default, PartialEq, Eq)]
pub enum Event {
    Press(KeyCode),
    Release(KeyCode),
    /// Modifiers, down marks, remembered actions and a pending accent are forgotten; locks stay.
    #[default]
    Reset,
    /// The other of the console's two maps is put in force, after what a reset forgets is forgotten. Each lock that no
    /// key of that map bears is turned off.
    Load,
}

/// What a console answers to an event.
#[derive(Clone, Copy, Debug, PartialEq, Eq)]
pub enum Answer {
    /// Nothing.
    None,
    /// An accent that can't be used, or not with this character or action.
    Error,
    /// A character, with a mark where the meta modifier is on.
    Char { c: char, meta: bool },
    /// An action that was taken.
    Special(Action),
    /// The back tab.
    BackTab,
    /// The remembered action of a key that was released.
    Released(Action),
}

/// No key: NOKEY of sys/dev/kbd/kbdreg.h.
const NOKEY: u32 = 0x0100_0000;

/// The mark of a function key: FKEY.
const FKEY: u32 = 0x0200_0000;

/// The mark of a character under meta: MKEY.
const MKEY: u32 = 0x0400_0000;

/// The mark of the back tab: BKEY.
const BKEY: u32 = 0x0800_0000;

/// An error: ERRKEY.
const ERRKEY: u32 = 0x2000_0000;

/// The mark of a release: RELKEY.
const RELKEY: u32 = 0x4000_0000;

/// The mark of an action: SPCLKEY.
const SPCLKEY: u32 = 0x8000_0000;

impl Answer {
    /// The answer as the number that genkbd_keyaction returns for it.
    #[inline(always)]
    pub fn raw(self) -> u32
        ensures { result ≡ raw_of self }
    {
        match &self {
            Answer::None => NOKEY,
            Answer::Error => ERRKEY,
            Answer::Char { c, meta: false } => u32::from(*c),
            Answer::Char { c, meta: true } => MKEY + u32::from(*c),
            Answer::Special(action) => SPCLKEY + function_mark(action) + u32::from(action.code()),
            Answer::BackTab => SPCLKEY + BKEY + u32::from(Action::BackTab.code()),
            Answer::Released(action) => SPCLKEY + RELKEY + u32::from(action.code()),
        }
    }
}

/// The mark of a function key, 0 for every other action.
fn function_mark(action: &Action) -> u32
    ensures { result ≡ function_mark_of action.now }
{
    match action {
        Action::Function(_) => FKEY,
        _ => 0,
    }
}
