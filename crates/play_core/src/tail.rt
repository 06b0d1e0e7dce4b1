//! The tail of a line, which tells of the modifiers and locks that are on.
ghost use Rattle.std.specs.Prelude.{◌≡◌, ◌+◌, ◌≤◌, ◌++◌, [], codes, length, if◌then◌else◌};
ghost use Rattle.keymap_core.specs.Actions.{modifiers, locks};
ghost use Rattle.play_core.specs.Written.{names_of_modifiers, names_of_locks, or_none};
ghost use Rattle.play_core.specs.Inner.Tails.{tail_of};

use crate::output::Output;
use console_core::Translator;
use keymap_core::{Lock, Modifier};

/// Adds the tail of the line of a console in this state.
pub(crate) fn push_tail<T: Translator>(text: &mut Output, console: &T)
    requires { length text.old.waiting + 96 ≤ 65536 }
    ensures written { text.new.written ≡ text.old.written }
    ensures text { text.new.waiting
        ≡ text.old.waiting ++ tail_of (T.shows_on console.now) (T.shows_locked console.now) }
    ensures size { length text.new.waiting ≤ length text.old.waiting + 96 }
{
    text.append(b"; mods");
    push_mods(text, console);
    text.append(b"; locks");
    push_locked(text, console);
}

/// Adds the names of the modifiers that are on, or none.
fn push_mods<T: Translator>(text: &mut Output, console: &T)
    requires { length text.old.waiting + 53 ≤ 65536 }
    ensures written { text.new.written ≡ text.old.written }
    ensures text { text.new.waiting ≡ text.old.waiting ++ or_none (names_of_modifiers (T.shows_on console.now) modifiers) }
    ensures size { length text.new.waiting ≤ length text.old.waiting + 48 }
{
    let before = text.room();
    push_modifiers(text, console);
    if text.room() == before {
        text.append(b" none");
    }
}

/// Adds the names of the locks that are on, or none, and the line feed.
fn push_locked<T: Translator>(text: &mut Output, console: &T)
    requires { length text.old.waiting + 30 ≤ 65536 }
    ensures written { text.new.written ≡ text.old.written }
    ensures text { text.new.waiting
        ≡ text.old.waiting ++ (or_none (names_of_locks (T.shows_locked console.now) locks) ++ codes "\n") }
    ensures size { length text.new.waiting ≤ length text.old.waiting + 25 }
{
    let before = text.room();
    push_locks(text, console);
    if text.room() == before {
        text.append(b" none\n");
    } else {
        text.append(b"\n");
    }
}

/// Adds a name where it is on.
#[inline(always)]
fn push_if(text: &mut Output, is_on: bool, name: &[u8])
    requires { length text.old.waiting + length name.now ≤ 65536 }
    ensures written { text.new.written ≡ text.old.written }
    ensures text { text.new.waiting ≡ text.old.waiting ++ (if is_on then name.now else []) }
    ensures size { length text.new.waiting ≤ length text.old.waiting + length name.now }
{
    if is_on {
        text.append(name);
    }
}

fn push_modifiers<T: Translator>(text: &mut Output, console: &T)
    requires { length text.old.waiting + 48 ≤ 65536 }
    ensures written { text.new.written ≡ text.old.written }
    ensures text { text.new.waiting ≡ text.old.waiting ++ names_of_modifiers (T.shows_on console.now) modifiers }
    ensures size { length text.new.waiting ≤ length text.old.waiting + 48 }
{
    push_if(text, console.on(Modifier::LeftShift), b" lshift");
    push_if(text, console.on(Modifier::RightShift), b" rshift");
    push_if(text, console.on(Modifier::LeftControl), b" lctrl");
    push_if(text, console.on(Modifier::RightControl), b" rctrl");
    push_if(text, console.on(Modifier::LeftAlt), b" lalt");
    push_if(text, console.on(Modifier::RightAlt), b" ralt");
    push_if(text, console.on(Modifier::AltShift), b" ashift");
    push_if(text, console.on(Modifier::Meta), b" meta");
}

fn push_locks<T: Translator>(text: &mut Output, console: &T)
    requires { length text.old.waiting + 24 ≤ 65536 }
    ensures written { text.new.written ≡ text.old.written }
    ensures text { text.new.waiting ≡ text.old.waiting ++ names_of_locks (T.shows_locked console.now) locks }
    ensures size { length text.new.waiting ≤ length text.old.waiting + 24 }
{
    push_if(text, console.locked(Lock::Caps), b" clock");
    push_if(text, console.locked(Lock::Num), b" nlock");
    push_if(text, console.locked(Lock::Scroll), b" slock");
    push_if(text, console.locked(Lock::Alt), b" alock");
}
