//! Keymaps that can be told apart, with the events and the two answers that were worked out by hand, and keymaps that
//! can't.

use crate::asserts::{expect_equal, expect_equal_at};
use crate::consoles::console::{Input, event};
use console_core::{Answer, Event};
use keymap_core::{AccentIndex, Action, KeyMap};
use keymap_diff::{Telling, telling_apart};
use keymap_text::read_map;
use std::alloc::Global;
use std::process::Abort;

/// Key 2 gives a character with shift, and in the other keymap another one.
const LETTER: &[u8] = b"001 lshift lshift lshift lshift lshift lshift lshift lshift O
002 nop 'a' nop 'a' nop 'a' nop 'a' O
";

const OTHER_LETTER: &[u8] = b"001 lshift lshift lshift lshift lshift lshift lshift lshift O
002 nop 'b' nop 'b' nop 'b' nop 'b' O
";

/// Key 2 is `nop`, and in the other keymap a dead key.
const NOTHING: &[u8] = b"002 nop nop nop nop nop nop nop nop O
dtil '~' ( 'n' 'm' )
";

const DEAD_KEY: &[u8] = b"002 dtil nop dtil nop dtil nop dtil nop O
dtil '~' ( 'n' 'm' )
";

/// With shift key 2 is a dead key, behind which the two keymaps make another character of that of key 3.
const ACCENT: &[u8] = b"001 lshift lshift lshift lshift lshift lshift lshift lshift O
002 nop dtil nop dtil nop dtil nop dtil O
003 'n' 'n' 'n' 'n' 'n' 'n' 'n' 'n' O
dtil '~' ( 'n' 'm' )
";

const OTHER_ACCENT: &[u8] = b"001 lshift lshift lshift lshift lshift lshift lshift lshift O
002 nop dtil nop dtil nop dtil nop dtil O
003 'n' 'n' 'n' 'n' 'n' 'n' 'n' 'n' O
dtil '~' ( 'n' 'o' )
";

/// A key that holds shift looks up another action in each of the two, which does nothing there.
const HOLDER: &[u8] = b"001 lshift nop lshift nop lshift nop lshift nop O
";

const OTHER_HOLDER: &[u8] = b"001 lshift clock lshift clock lshift clock lshift clock O
";

fn character(c: char) -> Answer {
    Answer::Char { c, meta: false }
}

fn map_of(rt: &impl Abort, alloc: Global, text: &[u8]) -> KeyMap {
    read_map(alloc, text).expect(rt, "a keymap")
}

fn expect_told(
    rt: &impl Abort,
    alloc: Global,
    (old, new): (&[u8], &[u8]),
    wanted: &[Event],
    answers: (Answer, Answer),
) {
    let (first, second) = (map_of(rt, alloc, old), map_of(rt, alloc, new));
    match telling_apart(alloc, &first, &second).expect(rt, "an answer") {
        Telling::Told { events, old, new } => {
            expect_equal(rt, events.as_slice(), wanted);
            expect_equal(rt, (old, new), answers);
        }
        _ => expect_equal_at(rt, answers, false, true),
    }
}

#[test]
fn cells_are_told_by_a_press(rt: HostRuntime) {
    let events = [event(&rt, Input::Down(1)), event(&rt, Input::Down(2))];
    let answers = (character('a'), character('b'));
    expect_told(&rt, rt.alloc(), (LETTER, OTHER_LETTER), &events, answers);
}

#[test]
fn nop_is_told_from_a_dead_key_by_the_release(rt: HostRuntime) {
    let events = [event(&rt, Input::Down(2)), event(&rt, Input::Up(2))];
    let tilde = Action::DeadKey(AccentIndex::new(3));
    let answers = (Answer::None, Answer::Released(tilde));
    expect_told(&rt, rt.alloc(), (NOTHING, DEAD_KEY), &events, answers);
}

#[test]
fn accents_are_told_behind_their_dead_key(rt: HostRuntime) {
    let events = [
        event(&rt, Input::Down(1)),
        event(&rt, Input::Down(2)),
        event(&rt, Input::Up(2)),
        event(&rt, Input::Down(3)),
    ];
    let answers = (character('m'), character('o'));
    expect_told(&rt, rt.alloc(), (ACCENT, OTHER_ACCENT), &events, answers);
}

#[test]
fn a_holder_that_looks_up_another_action_is_never_told(rt: HostRuntime) {
    let old = map_of(&rt, rt.alloc(), HOLDER);
    let new = map_of(&rt, rt.alloc(), OTHER_HOLDER);
    match telling_apart(rt.alloc(), &old, &new).expect(&rt, "an answer") {
        Telling::Never { forgets } => expect_equal(&rt, forgets, false),
        _ => expect_equal(&rt, false, true),
    }
}
