//! The line of an event: what was delivered, the answer to it, and the modifiers and locks that are on after it.
ghost use Rattle.std.specs.Prelude.{◌≡◌, ◌+◌, ◌<◌, ◌≤◌, ◌++◌, decimal, length, codes};
ghost use Rattle.keymap_core.specs.Actions.{name_of, two_digits};
ghost use Rattle.play_core.specs.Written as spec;

use crate::number::push_number;
use crate::output::Output;
use crate::tail::push_tail;
use console_core::{Answer, Event, Translator};
use keymap_core::Action;

/// Adds the line of an event to which the console gave the answer.
pub(crate) fn push_line<T: Translator>(
    text: &mut Output,
    event: &Event,
    answer: &Answer,
    console: &T,
)
    requires { length text.old.waiting + 140 ≤ 65536 }
    ensures written { text.new.written ≡ text.old.written }
    ensures text { text.new.waiting
        ≡ text.old.waiting ++ spec.line_of event.now answer.now (T.shows_on console.now) (T.shows_locked console.now) }
    ensures size { length text.new.waiting ≤ length text.old.waiting + 140 }
{
    push_head(text, event);
    push_answer(text, answer);
    push_tail(text, console);
}

/// Adds the head of a line: what was delivered, a colon and a blank.
#[inline(always)]
#[tactic(auto, unfolding(crate::specs::Written::event_text))]
fn push_head(text: &mut Output, event: &Event)
    requires { length text.old.waiting + 22 ≤ 65536 }
    ensures written { text.new.written ≡ text.old.written }
    ensures text { text.new.waiting ≡ text.old.waiting ++ (spec.event_text event.now ++ codes ": ") }
    ensures size { length text.new.waiting ≤ length text.old.waiting + 20 }
{
    match event {
        Event::Press(key) => push_with_number(text, b"press ", u32::from(key.get())),
        Event::Release(key) => push_with_number(text, b"release ", u32::from(key.get())),
        Event::Reset => text.append(b"reset"),
        Event::Load => text.append(b"load"),
    }
    text.append(b": ");
}

#[tactic(auto, unfolding(crate::specs::Written::answer_text))]
fn push_answer(text: &mut Output, answer: &Answer)
    requires { length text.old.waiting + 24 ≤ 65536 }
    ensures written { text.new.written ≡ text.old.written }
    ensures text { text.new.waiting ≡ text.old.waiting ++ spec.answer_text answer.now }
    ensures size { length text.new.waiting ≤ length text.old.waiting + 20 }
{
    match answer {
        Answer::None => text.append(b"none"),
        Answer::Error => text.append(b"error"),
        Answer::Char { c, meta: false } => push_with_number(text, b"char ", u32::from(*c)),
        Answer::Char { c, meta: true } => push_with_number(text, b"meta char ", u32::from(*c)),
        Answer::Special(action) => push_name(text, *action),
        Answer::BackTab => text.append(b"btab"),
        Answer::Released(action) => {
            text.append(b"released ");
            push_name(text, *action);
        }
    }
}

/// Adds a number behind a word.
#[inline(always)]
fn push_with_number(text: &mut Output, word: &[u8], number: u32)
    requires { length text.old.waiting + length word.now + 10 ≤ 65536 }
    ensures written { text.new.written ≡ text.old.written }
    ensures text { text.new.waiting ≡ text.old.waiting ++ word.now ++ decimal number }
    ensures size { length text.new.waiting ≤ length text.old.waiting + length word.now + 10 }
{
    text.append(word);
    push_number(text, number);
}

/// Adds the name of an action.
fn push_name(text: &mut Output, action: Action)
    requires { length text.old.waiting + 6 ≤ 65536 }
    ensures written { text.new.written ≡ text.old.written }
    ensures text { text.new.waiting ≡ text.old.waiting ++ name_of action }
    ensures size { length text.new.waiting ≤ length text.old.waiting + 6 }
{
    match &action {
        Action::Screen(screen) => push_numbered(text, b"scr", screen.get()),
        Action::Function(function) => push_numbered(text, b"fkey", function.get()),
        _ => text.append(action.letters()),
    }
}

/// Adds the name that is letters and a number of two digits.
fn push_numbered(text: &mut Output, letters: &[u8], number: u8)
    requires room { length text.old.waiting + 6 ≤ 65536 }
    requires short { length letters.now ≤ 4 }
    requires digits { number < 100 }
    ensures written { text.new.written ≡ text.old.written }
    ensures text { text.new.waiting ≡ text.old.waiting ++ letters.now ++ two_digits number }
    ensures size { length text.new.waiting ≤ length text.old.waiting + 6 }
{
    text.append(letters);
    text.append(&[b'0' + number / 10, b'0' + number % 10]);
}
