//! console_core: events, answers, and both consoles as one translator.

use crate::asserts::map_of;
use crate::support::keymaps::{LETTER_AND_SHIFT, SHIFT_AND_CAPS};
use console_core::{Answer, Event, PlainConsole, Translator, WordConsole, replay};
use keymap_core::{Action, KeyCode, KeyMap, Lock, Modifier};
use std::alloc::{AllocError, Global};
use std::process::Abort;

#[test]
fn events() {
    let _: fn(KeyCode) -> Event = Event::Press;
    let _: fn(KeyCode) -> Event = Event::Release;
    let (Event::Press(_) | Event::Release(_) | Event::Reset | Event::Load) = Event::Reset;
}

#[test]
fn answers() {
    let _: fn(Answer) -> u32 = Answer::raw;
    let _: fn(Action) -> Answer = Answer::Special;
    let _: fn(Action) -> Answer = Answer::Released;
    let (c, meta): (char, bool) = ('a', true);
    match (Answer::Char { c, meta }) {
        Answer::None | Answer::Error | Answer::BackTab => {}
        Answer::Char { c: _, meta: _ } | Answer::Special(_) | Answer::Released(_) => {}
    }
}

/// What any console answers and shows.
fn expect_console<T: Translator>(rt: &impl Abort, alloc: Global, console: &mut T) {
    let _: Answer = console.step(Event::Reset);
    let _: bool = console.on(Modifier::LeftShift);
    let _: bool = console.locked(Lock::Caps);
    let _: Option<u8> = console.pending();
    let events: &[Event] = &[Event::Load];
    let answers: Result<Vec<Answer>, AllocError> = replay(alloc, console, events);
    let _: Vec<Answer> = answers.expect(rt, "answers");
}

#[test]
fn consoles(rt: HostRuntime) {
    let first: &KeyMap = &map_of(&rt, SHIFT_AND_CAPS);
    let second: &KeyMap = &map_of(&rt, LETTER_AND_SHIFT);
    let mut plain: PlainConsole<'_> = PlainConsole::new(first);
    expect_console(&rt, rt.alloc(), &mut plain);
    let mut plain: PlainConsole<'_> = PlainConsole::between(first, second);
    expect_console(&rt, rt.alloc(), &mut plain);
    let mut word: WordConsole<'_> = WordConsole::new(first);
    expect_console(&rt, rt.alloc(), &mut word);
    let mut word: WordConsole<'_> = WordConsole::between(first, second);
    expect_console(&rt, rt.alloc(), &mut word);
}
