//! The names of the actions, as keymap(5) writes them.
ghost use Rattle.std.specs.Prelude.{◌≡◌, ◌≤◌, ◌<◌, ◌++◌, [], length, map, slice_index_or};
ghost use Rattle.std.specs.Char.{to_ascii_lowercase};
ghost use Rattle.keymap_core.specs.Actions.{name_of, letters_of, two_digits, accent_names};

use crate::action::{AccentIndex, Action, Lock, Modifier, Name};

/// The name of an accent, which its dead key has and its definition begins with.
fn accent_name(accent: AccentIndex) -> &'static [u8]
    ensures name { result.now ≡ slice_index_or accent_names accent [] }
    ensures lower { map to_ascii_lowercase result.now ≡ result.now }
    ensures short { length result.now ≤ 6 }
{
    match accent.get() {
        0 => b"dgra",
        1 => b"dacu",
        2 => b"dcir",
        3 => b"dtil",
        4 => b"dmac",
        5 => b"dbre",
        6 => b"ddot",
        7 => b"duml",
        8 => b"dsla",
        9 => b"drin",
        10 => b"dced",
        11 => b"dapo",
        12 => b"ddac",
        13 => b"dogo",
        _ => b"dcar",
    }
}

/// The name that is letters and a number of two digits.
fn numbered_name(letters: &[u8], number: u8) -> Name
    requires short { length letters.now ≤ 4 }
    requires two_digits { number < 100 }
    ensures { result.items ≡ letters.now ++ two_digits number }
{
    let mut name = plain_name(letters);
    name.push(b'0' + number / 10);
    name.push(b'0' + number % 10);
    name
}

fn plain_name(letters: &[u8]) -> Name
    requires { length letters.now ≤ 6 }
    ensures { result.items ≡ letters.now }
{
    let mut name = Name::new();
    for letter in letters {
        name.push(*letter);
    }
    name
}

impl Action {
    /// The name, in lower case, of one to six letters and digits.
    pub fn name(self) -> Name
        ensures { result.items ≡ name_of self }
    {
        match &self {
            Action::Screen(screen) => numbered_name(b"scr", screen.get()),
            Action::Function(function) => numbered_name(b"fkey", function.get()),
            _ => plain_name(self.letters()),
        }
    }

    /// The letters of the name, in lower case: all of it, but for the two digits of screens and function keys.
    pub fn letters(self) -> &'static [u8]
        ensures name { result.now ≡ letters_of self }
        ensures lower { map to_ascii_lowercase result.now ≡ result.now }
        ensures short { length result.now ≤ 6 }
    {
        match &self {
            Action::Nop => b"nop",
            Action::Mod(modifier) => modifier.letters(),
            Action::Lock(Lock::Caps) => b"clock",
            Action::Lock(Lock::Num) => b"nlock",
            Action::Lock(Lock::Scroll) => b"slock",
            Action::Lock(Lock::Alt) => b"alock",
            Action::BackTab => b"btab",
            Action::NextScreen => b"nscr",
            Action::PreviousScreen => b"pscr",
            Action::Screen(_) => b"scr",
            Action::Function(_) => b"fkey",
            Action::DeadKey(accent) => accent_name(*accent),
            Action::Boot => b"boot",
            Action::Debug => b"debug",
            Action::Suspend => b"susp",
            Action::Saver => b"saver",
            Action::Standby => b"stby",
            Action::Panic => b"panic",
            Action::Halt => b"halt",
            Action::PowerDown => b"pdwn",
            Action::Paste => b"paste",
        }
    }
}

impl Modifier {
    ghost use Rattle.keymap_core.specs.declared.action.Action.TheVariants.{Mod};

    fn letters(self) -> &'static [u8]
        ensures name { result.now ≡ name_of (Mod self) }
        ensures lower { map to_ascii_lowercase result.now ≡ result.now }
        ensures short { length result.now ≤ 6 }
    {
        match self {
            Modifier::LeftShift => b"lshift",
            Modifier::RightShift => b"rshift",
            Modifier::LeftControl => b"lctrl",
            Modifier::RightControl => b"rctrl",
            Modifier::LeftAlt => b"lalt",
            Modifier::RightAlt => b"ralt",
            Modifier::AltShift => b"ashift",
            Modifier::Meta => b"meta",
        }
    }
}
