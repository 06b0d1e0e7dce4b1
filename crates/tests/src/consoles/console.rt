//! Events by the codes of their keys, and what a console shows.

use crate::asserts::{expect_equal, expect_equal_at};
use console_core::{Event, Translator};
use keymap_core::{KeyCode, LOCKS, Lock, MODIFIERS, Modifier};
use std::process::Abort;

/// An event, by the code of its key.
#[derive(Clone, Copy, Debug)]
pub(crate) enum Input {
    Down(u8),
    Up(u8),
    Reset,
    Load,
}

pub(crate) fn key(rt: &impl Abort, code: u8) -> KeyCode {
    KeyCode::new(code).expect(rt, "a key")
}

pub(crate) fn event(rt: &impl Abort, input: Input) -> Event {
    match input {
        Input::Down(code) => Event::Press(key(rt, code)),
        Input::Up(code) => Event::Release(key(rt, code)),
        Input::Reset => Event::Reset,
        Input::Load => Event::Load,
    }
}

/// Asserts that just these modifiers and locks are on, and which accent is pending.
pub(crate) fn expect_shown<T: Translator>(
    rt: &impl Abort,
    console: &T,
    on: &[Modifier],
    locked: &[Lock],
    pending: Option<u8>,
) {
    for modifier in MODIFIERS {
        let is_on = console.on(modifier);
        expect_equal_at(rt, modifier, is_on, on.contains(&modifier));
    }
    for lock in LOCKS {
        let is_locked = console.locked(lock);
        expect_equal_at(rt, lock, is_locked, locked.contains(&lock));
    }
    expect_equal(rt, console.pending(), pending);
}
