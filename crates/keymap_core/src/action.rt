//! Actions and their codes: `u_char` values with a bit of `spcl` set in sys/kbio.h. The table of codes and names stands
//! in specs/Actions.
ghost use Rattle.std.specs.Prelude.{◌≡◌, ◌<◌, ◌≤◌, ◌==◌, find};
ghost use Rattle.keymap_core.specs.Numbers.{accent_limit};

use crate::limits::ACCENT_LIMIT;
use arrayvec::ArrayVec;
use std::marker::Model;

/// The name of an action: at most six bytes.
pub type Name = ArrayVec<u8, 6>;

/// A modifier: it is on while its key is pressed.
#[derive(Clone, Copy, Debug, PartialEq, Eq)]
pub enum Modifier {
    LeftShift,
    RightShift,
    LeftControl,
    RightControl,
    LeftAlt,
    RightAlt,
    /// Ashift, which selects the upper half of the slots.
    AltShift,
    Meta,
}

/// A lock: each press of its key turns it.
#[derive(Clone, Copy, Debug, PartialEq, Eq)]
pub enum Lock {
    Caps,
    Num,
    Scroll,
    /// Alock, which selects the upper half of the slots.
    Alt,
}

/// An action that stays in force while its key is pressed: a modifier or a lock.
#[derive(Clone, Copy, Debug, PartialEq, Eq)]
pub enum Holding {
    Mod(Modifier),
    Lock(Lock),
}

/// The modifiers in their order.
pub static MODIFIERS: [Modifier; 8] = [
    Modifier::LeftShift,
    Modifier::RightShift,
    Modifier::LeftControl,
    Modifier::RightControl,
    Modifier::LeftAlt,
    Modifier::RightAlt,
    Modifier::AltShift,
    Modifier::Meta,
];

/// The locks in their order.
pub static LOCKS: [Lock; 4] = [Lock::Caps, Lock::Num, Lock::Scroll, Lock::Alt];

/// The modifiers, then the locks.
pub static HOLDINGS: [Holding; 12] = [
    Holding::Mod(Modifier::LeftShift),
    Holding::Mod(Modifier::RightShift),
    Holding::Mod(Modifier::LeftControl),
    Holding::Mod(Modifier::RightControl),
    Holding::Mod(Modifier::LeftAlt),
    Holding::Mod(Modifier::RightAlt),
    Holding::Mod(Modifier::AltShift),
    Holding::Mod(Modifier::Meta),
    Holding::Lock(Lock::Caps),
    Holding::Lock(Lock::Num),
    Holding::Lock(Lock::Scroll),
    Holding::Lock(Lock::Alt),
];

impl Modifier {
    ghost use Rattle.keymap_core.specs.Actions.{modifier_index};

    /// The modifier's place in the list of the modifiers, from 0.
    pub fn index(self) -> usize
        ensures value { result ≡ modifier_index self }
        ensures in_range { result < 8 }
    {
        match self {
            Modifier::LeftShift => 0,
            Modifier::RightShift => 1,
            Modifier::LeftControl => 2,
            Modifier::RightControl => 3,
            Modifier::LeftAlt => 4,
            Modifier::RightAlt => 5,
            Modifier::AltShift => 6,
            Modifier::Meta => 7,
        }
    }
}

impl Lock {
    ghost use Rattle.keymap_core.specs.Actions.{lock_index};

    /// The lock's place in the list of the locks, from 0.
    pub fn index(self) -> usize
        ensures value { result ≡ lock_index self }
        ensures in_range { result < 4 }
    {
        match self {
            Lock::Caps => 0,
            Lock::Num => 1,
            Lock::Scroll => 2,
            Lock::Alt => 3,
        }
    }
}

impl Holding {
    ghost use Rattle.keymap_core.specs.Actions.{holding_index, holding_action};

    /// The action's place in the list of the holding actions: the modifiers, then the locks.
    pub fn index(self) -> usize
        ensures value { result ≡ holding_index self }
        ensures in_range { result < 12 }
    {
        match self {
            Holding::Mod(modifier) => modifier.index(),
            Holding::Lock(lock) => 8 + lock.index(),
        }
    }

    /// The action that it is.
    pub fn action(self) -> Action
        ensures { result ≡ holding_action self }
    {
        match self {
            Holding::Mod(modifier) => Action::Mod(modifier),
            Holding::Lock(lock) => Action::Lock(lock),
        }
    }
}

/// The number of a screen, 1 to 16: `F_SCR` is the code of screen 1.
#[derive(Clone, Copy, Debug, PartialEq, Eq)]
pub struct ScreenNumber {
    number: u8,
}

impl Model for ScreenNumber {
    ghost use Rattle.std.specs.Prelude.{ℕ, ◌<◌, ◌≤◌};

    ghost Value = { ℕ };

    ghost view = { λ screen. screen.number };

    ghost invariant = { λ screen. (0 < screen.number) × (screen.number ≤ 16) };

    ghost inverse = { λ n. record { number = n } };
}

impl ScreenNumber {
    /// The screen with this number.
    pub fn new(number: u8) -> Self
        requires low { 0 < number }
        requires high { number ≤ 16 }
        ensures { result ≡ number }
    {
        ScreenNumber { number }
    }

    /// The number.
    pub fn get(self) -> u8
        ensures value { result ≡ self }
        ensures low { 0 < result }
        ensures high { result ≤ 16 }
    {
        self.number
    }
}

/// The number of a function key, 1 to 96: `F_FN` is the code of function key 1.
#[derive(Clone, Copy, Debug, PartialEq, Eq)]
pub struct FunctionNumber {
    key: u8,
}

impl Model for FunctionNumber {
    ghost use Rattle.std.specs.Prelude.{ℕ, ◌<◌, ◌≤◌};

    ghost Value = { ℕ };

    ghost view = { λ function. function.key };

    ghost invariant = { λ function. (0 < function.key) × (function.key ≤ 96) };

    ghost inverse = { λ n. record { key = n } };
}

impl FunctionNumber {
    /// The function key with this number.
    pub fn new(number: u8) -> Self
        requires low { 0 < number }
        requires high { number ≤ 96 }
        ensures { result ≡ number }
    {
        FunctionNumber { key: number }
    }

    /// The number.
    pub fn get(self) -> u8
        ensures value { result ≡ self }
        ensures low { 0 < result }
        ensures high { result ≤ 96 }
    {
        self.key
    }
}

/// The index of an accent, 0 to 14: `F_ACC` is the code of the dead key of accent 0.
#[derive(Clone, Copy, Debug, PartialEq, Eq)]
pub struct AccentIndex {
    index: u8,
}

impl Model for AccentIndex {
    ghost use Rattle.std.specs.Prelude.{ℕ, ◌<◌};
    ghost use Rattle.keymap_core.specs.Numbers.{accent_limit};

    ghost Value = { ℕ };

    ghost view = { λ accent. accent.index };

    ghost invariant = { λ accent. accent.index < accent_limit };

    ghost inverse = { λ n. record { index = n } };
}

impl AccentIndex {
    /// The accent with this index.
    pub fn new(index: u8) -> Self
        requires { index < accent_limit }
        ensures { result ≡ index }
    {
        AccentIndex { index }
    }

    /// The index.
    pub fn get(self) -> u8
        ensures value { result ≡ self }
        ensures high { result < accent_limit }
    {
        self.index
    }
}

/// What a key does other than to give a character. The actions that join a modifier with the alt lock aren't among
/// them.
#[derive(Clone, Copy, Debug, PartialEq, Eq)]
pub enum Action {
    Nop,
    Mod(Modifier),
    Lock(Lock),
    BackTab,
    NextScreen,
    PreviousScreen,
    Screen(ScreenNumber),
    Function(FunctionNumber),
    DeadKey(AccentIndex),
    Boot,
    Debug,
    Suspend,
    Saver,
    Standby,
    Panic,
    Halt,
    PowerDown,
    Paste,
}

impl Action {
    ghost use Rattle.keymap_core.specs.Actions.{IsAction, code_of, action_of, plain_actions, holding_of};

    /// The code, as in sys/kbio.h.
    pub fn code(self) -> u8
        ensures known { IsAction self }
        ensures code { result ≡ code_of self }
    {
        match &self {
            Action::Nop => 0x00,
            Action::Mod(Modifier::LeftShift) => 0x02,
            Action::Mod(Modifier::RightShift) => 0x03,
            Action::Mod(Modifier::LeftControl) => 0x09,
            Action::Mod(Modifier::RightControl) => 0x80,
            Action::Mod(Modifier::LeftAlt) => 0x07,
            Action::Mod(Modifier::RightAlt) => 0x81,
            Action::Mod(Modifier::AltShift) => 0x83,
            Action::Mod(Modifier::Meta) => 0x84,
            Action::Lock(Lock::Caps) => 0x04,
            Action::Lock(Lock::Num) => 0x05,
            Action::Lock(Lock::Scroll) => 0x06,
            Action::Lock(Lock::Alt) => 0x82,
            Action::BackTab => 0x08,
            Action::NextScreen => 0x0a,
            Action::PreviousScreen => 0x99,
            Action::Screen(screen) => 0x0a + screen.get(),
            Action::Function(function) => 0x1a + function.get(),
            Action::DeadKey(accent) => 0x89 + accent.get(),
            Action::Boot => 0x85,
            Action::Debug => 0x86,
            Action::Suspend => 0x87,
            Action::Saver => 0x88,
            Action::Standby => 0x98,
            Action::Panic => 0x9a,
            Action::Halt => 0xa1,
            Action::PowerDown => 0xa2,
            Action::Paste => 0xa3,
        }
    }

    /// The holding action that it is, if it is one.
    pub fn holding(self) -> Option<Holding>
        ensures { result ≡ holding_of self }
    {
        match &self {
            Action::Mod(modifier) => Some(Holding::Mod(*modifier)),
            Action::Lock(lock) => Some(Holding::Lock(*lock)),
            _ => None,
        }
    }

    /// The action that has the code. The codes of the actions that join a modifier with the alt lock have none.
    #[inline(always)]
    pub fn from_code(code: u8) -> Option<Action>
        ensures { result ≡ action_of code }
    {
        match code {
            0x0b..=0x1a => Some(Action::Screen(ScreenNumber::new(code - 0x0a))),
            0x1b..=0x7a => Some(Action::Function(FunctionNumber::new(code - 0x1a))),
            0x89..=0x97 => Some(Action::DeadKey(AccentIndex::new(code - 0x89))),
            _ => Action::plain(code),
        }
    }

    /// The action without a number that has the code.
    fn plain(code: u8) -> Option<Action>
        ensures { result ≡ find (λ a. code_of a == code) plain_actions }
    {
        match code {
            0x00 => Some(Action::Nop),
            0x02 => Some(Action::Mod(Modifier::LeftShift)),
            0x03 => Some(Action::Mod(Modifier::RightShift)),
            0x04 => Some(Action::Lock(Lock::Caps)),
            0x05 => Some(Action::Lock(Lock::Num)),
            0x06 => Some(Action::Lock(Lock::Scroll)),
            0x07 => Some(Action::Mod(Modifier::LeftAlt)),
            0x08 => Some(Action::BackTab),
            0x09 => Some(Action::Mod(Modifier::LeftControl)),
            0x0a => Some(Action::NextScreen),
            0x80 => Some(Action::Mod(Modifier::RightControl)),
            0x81 => Some(Action::Mod(Modifier::RightAlt)),
            0x82 => Some(Action::Lock(Lock::Alt)),
            0x83 => Some(Action::Mod(Modifier::AltShift)),
            0x84 => Some(Action::Mod(Modifier::Meta)),
            0x85 => Some(Action::Boot),
            0x86 => Some(Action::Debug),
            0x87 => Some(Action::Suspend),
            0x88 => Some(Action::Saver),
            0x98 => Some(Action::Standby),
            0x99 => Some(Action::PreviousScreen),
            0x9a => Some(Action::Panic),
            0xa1 => Some(Action::Halt),
            0xa2 => Some(Action::PowerDown),
            0xa3 => Some(Action::Paste),
            _ => None,
        }
    }
}

/// The codes of the actions without a number, in rising order.
pub(crate) static PLAIN_CODES: [u8; 25] = [
    0x00, 0x02, 0x03, 0x04, 0x05, 0x06, 0x07, 0x08, 0x09, 0x0a, 0x80, 0x81, 0x82, 0x83, 0x84, 0x85,
    0x86, 0x87, 0x88, 0x98, 0x99, 0x9a, 0xa1, 0xa2, 0xa3,
];

/// The codes of the dead keys, in the order of their accents.
pub(crate) static DEAD_KEY_CODES: [u8; ACCENT_LIMIT] = [
    0x89, 0x8a, 0x8b, 0x8c, 0x8d, 0x8e, 0x8f, 0x90, 0x91, 0x92, 0x93, 0x94, 0x95, 0x96, 0x97,
];
