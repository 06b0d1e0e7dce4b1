//! Histories that were worked out by hand, on both consoles: the answer to each event, and what is on, locked and
//! pending after it.

use crate::asserts::{expect_equal, expect_equal_at};
use crate::consoles::console::Input::{Down, Load, Reset, Up};
use crate::consoles::console::{Input, event, expect_shown};
use crate::support::keymaps::{
    ACCENTS, BLANK_MACRON, CAPS_AND_NUM, CAPS_WITH_NOPS, LETTER_AND_SHIFT, SHIFT_AND_CAPS,
    SHIFT_WITH_TRAP, TWO_CONTROLS, TWO_SCROLL_LOCKS, TWO_SHIFTS, UPPER_HALF,
};
use console_core::{Answer, Event, PlainConsole, Translator, WordConsole, replay};
use keymap_core::Lock::{Alt, Caps, Num, Scroll};
use keymap_core::Modifier::{AltShift, LeftControl, LeftShift, Meta};
use keymap_core::{Action, KeyMap, Lock, Modifier};
use keymap_text::read_map;
use std::alloc::Global;
use std::process::Abort;

// The codes of the actions.
const LSHIFT: u8 = 0x02;

const CLOCK: u8 = 0x04;

const NLOCK: u8 = 0x05;

const SLOCK: u8 = 0x06;

const LCTRL: u8 = 0x09;

const NSCR: u8 = 0x0a;

const FKEY01: u8 = 0x1b;

const ALOCK: u8 = 0x82;

const ASHIFT: u8 = 0x83;

const META: u8 = 0x84;

const DGRA: u8 = 0x89;

const DACU: u8 = 0x8a;

const DMAC: u8 = 0x8d;

/// An answer, by the code of its action.
#[derive(Clone, Copy)]
enum Output {
    Nothing,
    Error,
    Char(char),
    MetaChar(char),
    Special(u8),
    Released(u8),
}

use Output::{Char, Error, MetaChar, Nothing, Released, Special};

/// An event, the answer to it, and then the modifiers and locks that are on and the pending accent.
type Step = (
    Input,
    Output,
    &'static [Modifier],
    &'static [Lock],
    Option<u8>,
);

const SHIFTED_LETTER: &[Step] = &[
    (Down(42), Special(LSHIFT), &[LeftShift], &[], None),
    (Down(30), Char('A'), &[LeftShift], &[], None),
    (Up(42), Released(LSHIFT), &[], &[], None),
    (Down(30), Char('a'), &[], &[], None),
];

const SCROLL_LOCK_ON_TWO_KEYS: &[Step] = &[
    (Down(70), Special(SLOCK), &[], &[Scroll], None),
    (Down(104), Special(SLOCK), &[], &[Scroll], None),
    (Up(70), Released(SLOCK), &[], &[Scroll], None),
    (Down(104), Special(SLOCK), &[], &[], None),
];

const CAPS_AND_NUM_FLIP_ONCE: &[Step] = &[
    (Down(58), Special(CLOCK), &[], &[Caps], None),
    (Up(58), Released(CLOCK), &[], &[Caps], None),
    (Down(30), Char('A'), &[], &[Caps], None),
    (Up(30), Nothing, &[], &[Caps], None),
    (Down(69), Special(NLOCK), &[], &[Caps, Num], None),
    (Up(69), Released(NLOCK), &[], &[Caps, Num], None),
    (Down(30), Char('A'), &[], &[Caps, Num], None),
];

const ACCENT_AND_OTHER_KEYS: &[Step] = &[
    (Down(26), Nothing, &[], &[], Some(1)),
    (Up(26), Released(DACU), &[], &[], Some(1)),
    (Down(59), Error, &[], &[], None),
    (Up(59), Released(FKEY01), &[], &[], None),
    (Down(26), Nothing, &[], &[], Some(1)),
    (Up(26), Released(DACU), &[], &[], Some(1)),
    (Down(92), Special(NSCR), &[], &[], None),
    (Up(92), Released(NSCR), &[], &[], None),
    (Down(26), Nothing, &[], &[], Some(1)),
    (Up(26), Released(DACU), &[], &[], Some(1)),
    (Down(42), Special(LSHIFT), &[LeftShift], &[], Some(1)),
    (Down(18), Char('\u{c9}'), &[LeftShift], &[], None),
];

const RESET_KEEPS_LOCKS: &[Step] = &[
    (Down(58), Special(CLOCK), &[], &[Caps], None),
    (Up(58), Released(CLOCK), &[], &[Caps], None),
    (Down(42), Special(LSHIFT), &[LeftShift], &[Caps], None),
    (Reset, Nothing, &[], &[Caps], None),
];

const RELEASE_BY_REMEMBERED_ACTION: &[Step] = &[
    (Down(29), Special(LCTRL), &[LeftControl], &[], None),
    (
        Down(42),
        Special(LSHIFT),
        &[LeftShift, LeftControl],
        &[],
        None,
    ),
    (Down(29), Nothing, &[LeftShift, LeftControl], &[], None),
    (Up(29), Released(LCTRL), &[LeftShift], &[], None),
];

const UPPER_HALF_BY_ONE: &[Step] = &[
    (Down(93), Special(ASHIFT), &[AltShift], &[], None),
    (Down(30), Char('b'), &[AltShift], &[], None),
    (Down(58), Special(ALOCK), &[AltShift], &[Alt], None),
    (Down(30), Char('a'), &[AltShift], &[Alt], None),
    (Up(93), Released(ASHIFT), &[], &[Alt], None),
    (Down(30), Char('b'), &[], &[Alt], None),
];

const COMPOSITION: &[Step] = &[
    (Down(26), Nothing, &[], &[], Some(1)),
    (Up(26), Released(DACU), &[], &[], Some(1)),
    (Down(18), Char('\u{e9}'), &[], &[], None),
    (Down(26), Nothing, &[], &[], Some(1)),
    (Up(26), Released(DACU), &[], &[], Some(1)),
    (Down(57), Char('\u{b4}'), &[], &[], None),
    (Down(26), Nothing, &[], &[], Some(1)),
    (Up(26), Released(DACU), &[], &[], Some(1)),
    (Down(30), Error, &[], &[], None),
    (Down(41), Error, &[], &[], None),
    (Up(41), Released(DGRA), &[], &[], None),
    (Down(56), Special(META), &[Meta], &[], None),
    (Down(26), Nothing, &[Meta], &[], Some(1)),
    (Down(26), MetaChar('\u{b4}'), &[Meta], &[], None),
];

const LOCK_BEHIND_NOP: &[Step] = &[
    (Down(58), Nothing, &[], &[], None),
    (Down(42), Special(LSHIFT), &[LeftShift], &[], None),
    (Down(58), Special(CLOCK), &[LeftShift], &[Caps], None),
];

const SHIFT_ON_TWO_KEYS: &[Step] = &[
    (Down(42), Special(LSHIFT), &[LeftShift], &[], None),
    (Down(54), Special(LSHIFT), &[LeftShift], &[], None),
    (Up(42), Released(LSHIFT), &[], &[], None),
];

const UNUSABLE_DEAD_KEY: &[Step] = &[
    (Down(26), Nothing, &[], &[], Some(1)),
    (Down(40), Error, &[], &[], None),
    (Up(40), Released(DMAC), &[], &[], None),
];

const LOAD_DROPS_A_LOCK: &[Step] = &[
    (Down(58), Special(CLOCK), &[], &[Caps], None),
    (Up(58), Released(CLOCK), &[], &[Caps], None),
    (Down(42), Special(LSHIFT), &[LeftShift], &[Caps], None),
    (Load, Nothing, &[], &[], None),
    (Down(30), Char('a'), &[], &[], None),
];

const LOAD_KEEPS_A_LOCK: &[Step] = &[
    (Down(58), Special(CLOCK), &[], &[Caps], None),
    (Up(58), Released(CLOCK), &[], &[Caps], None),
    (Load, Nothing, &[], &[Caps], None),
    (Down(30), Char('A'), &[], &[Caps], None),
];

const LOAD_FORGETS_A_MODIFIER: &[Step] = &[
    (Down(42), Special(LSHIFT), &[LeftShift], &[], None),
    (Load, Nothing, &[], &[], None),
    (Up(42), Nothing, &[], &[], None),
];

const TWO_LOADS: &[Step] = &[
    (Down(58), Special(CLOCK), &[], &[Caps], None),
    (Load, Nothing, &[], &[], None),
    (Load, Nothing, &[], &[], None),
    (Up(58), Nothing, &[], &[], None),
];

const CHARACTER_UNDER_CONTROL: &[Step] = &[
    (Down(42), Special(LSHIFT), &[LeftShift], &[], None),
    (
        Down(29),
        Special(LCTRL),
        &[LeftShift, LeftControl],
        &[],
        None,
    ),
    (Down(42), Char('x'), &[LeftShift, LeftControl], &[], None),
    (Up(42), Nothing, &[LeftShift, LeftControl], &[], None),
    (Up(29), Released(LCTRL), &[LeftShift], &[], None),
];

fn action(rt: &impl Abort, code: u8) -> Action {
    Action::from_code(code).expect(rt, "an action")
}

fn answer(rt: &impl Abort, output: Output) -> Answer {
    match output {
        Nothing => Answer::None,
        Error => Answer::Error,
        Char(c) => Answer::Char { c, meta: false },
        MetaChar(c) => Answer::Char { c, meta: true },
        Special(code) => Answer::Special(action(rt, code)),
        Released(code) => Answer::Released(action(rt, code)),
    }
}

fn deliver<T: Translator>(rt: &impl Abort, console: &mut T, steps: &[Step]) {
    expect_shown(rt, console, &[], &[], None);
    for (input, output, on, locked, pending) in steps {
        let given = console.step(event(rt, *input));
        expect_equal_at(rt, input, given, answer(rt, *output));
        expect_shown(rt, console, on, locked, *pending);
    }
}

/// The keymap that is in force first, the one that a load exchanges for it, and what is delivered. The histories stand
/// in three tables, each with its own test, since one large table takes longer to prove than several small ones.
type History = (&'static [u8], &'static [u8], &'static [Step]);

static MODIFIERS_AND_LOCKS: [History; 9] = [
    (LETTER_AND_SHIFT, b"", SHIFTED_LETTER),
    (TWO_SCROLL_LOCKS, b"", SCROLL_LOCK_ON_TWO_KEYS),
    (SHIFT_WITH_TRAP, b"", CHARACTER_UNDER_CONTROL),
    (CAPS_AND_NUM, b"", CAPS_AND_NUM_FLIP_ONCE),
    (SHIFT_AND_CAPS, b"", RESET_KEEPS_LOCKS),
    (TWO_CONTROLS, b"", RELEASE_BY_REMEMBERED_ACTION),
    (UPPER_HALF, b"", UPPER_HALF_BY_ONE),
    (CAPS_WITH_NOPS, b"", LOCK_BEHIND_NOP),
    (TWO_SHIFTS, b"", SHIFT_ON_TWO_KEYS),
];

static ACCENTS_AND_DEAD_KEYS: [History; 3] = [
    (ACCENTS, b"", ACCENT_AND_OTHER_KEYS),
    (ACCENTS, b"", COMPOSITION),
    (BLANK_MACRON, b"", UNUSABLE_DEAD_KEY),
];

static LOADS: [History; 4] = [
    (SHIFT_AND_CAPS, LETTER_AND_SHIFT, LOAD_DROPS_A_LOCK),
    (SHIFT_AND_CAPS, CAPS_AND_NUM, LOAD_KEEPS_A_LOCK),
    (LETTER_AND_SHIFT, LETTER_AND_SHIFT, LOAD_FORGETS_A_MODIFIER),
    (SHIFT_AND_CAPS, LETTER_AND_SHIFT, TWO_LOADS),
];

fn deliver_to_both(rt: &impl Abort, first: &KeyMap, next: &KeyMap, steps: &[Step]) {
    deliver(rt, &mut PlainConsole::between(first, next), steps);
    deliver(rt, &mut WordConsole::between(first, next), steps);
}

/// Asserts that both consoles, between the keymaps of these texts, answer so.
fn expect_history(rt: &impl Abort, alloc: Global, first: &[u8], next: &[u8], steps: &[Step]) {
    let first = read_map(alloc, first).expect(rt, "a map");
    let next = read_map(alloc, next).expect(rt, "a map");
    deliver_to_both(rt, &first, &next, steps);
}

fn expect_histories(rt: &impl Abort, alloc: Global, histories: &[History]) {
    for &(first, next, steps) in histories {
        expect_history(rt, alloc, first, next, steps);
    }
}

#[test]
fn both_consoles_answer_as_worked_out(rt: HostRuntime) {
    expect_histories(&rt, rt.alloc(), &MODIFIERS_AND_LOCKS);
}

#[test]
fn both_consoles_compose_as_worked_out(rt: HostRuntime) {
    expect_histories(&rt, rt.alloc(), &ACCENTS_AND_DEAD_KEYS);
}

#[test]
fn both_consoles_load_as_worked_out(rt: HostRuntime) {
    expect_histories(&rt, rt.alloc(), &LOADS);
}

/// Events that are replayed, their answers, and then the modifiers that are on and the pending accent.
struct Replayed {
    inputs: &'static [Input],
    outputs: &'static [Output],
    on: &'static [Modifier],
    pending: Option<u8>,
}

fn events_of(rt: &impl Abort, alloc: Global, inputs: &[Input]) -> Vec<Event> {
    let mut events = Vec::new(alloc);
    for input in inputs {
        events.push(event(rt, *input)).expect(rt, "memory");
    }
    events
}

fn answers_of(rt: &impl Abort, alloc: Global, outputs: &[Output]) -> Vec<Answer> {
    let mut answers = Vec::new(alloc);
    for output in outputs {
        answers.push(answer(rt, *output)).expect(rt, "memory");
    }
    answers
}

/// Asserts that the events are answered so, and what is on and pending then; no lock is on.
fn expect_replay<T: Translator>(
    rt: &impl Abort,
    alloc: Global,
    console: &mut T,
    replayed: &Replayed,
) {
    let events = events_of(rt, alloc, replayed.inputs);
    let given = replay(alloc, console, events.as_slice()).expect(rt, "answers");
    let wanted = answers_of(rt, alloc, replayed.outputs);
    expect_equal(rt, given.as_slice(), wanted.as_slice());
    expect_shown(rt, console, replayed.on, &[], replayed.pending);
}

/// Shift and caps lock, pressed and released.
static QUIET: [Input; 4] = [Down(42), Down(58), Up(42), Up(58)];

/// Shift and caps lock, pressed once more after their release, leave shift alone on.
static PRESSED_ONCE_MORE: Replayed = Replayed {
    inputs: &[Down(42), Down(58)],
    outputs: &[Special(LSHIFT), Special(CLOCK)],
    on: &[LeftShift],
    pending: None,
};

fn expect_same_after_reset<T: Translator>(
    rt: &impl Abort,
    alloc: Global,
    first: &mut T,
    second: &mut T,
) {
    let quiet = events_of(rt, alloc, &QUIET);
    let _answers = replay(alloc, first, quiet.as_slice()).expect(rt, "answers");
    let _answers = replay(alloc, second, quiet.as_slice()).expect(rt, "answers");
    expect_equal(rt, second.step(Event::Reset), Answer::None);
    expect_replay(rt, alloc, first, &PRESSED_ONCE_MORE);
    expect_replay(rt, alloc, second, &PRESSED_ONCE_MORE);
}

/// A console on which no key is pressed and no accent is pending goes on as after a reset.
#[test]
fn a_quiet_console_goes_on_as_after_a_reset(rt: HostRuntime) {
    let map = read_map(rt.alloc(), SHIFT_AND_CAPS).expect(&rt, "a map");
    expect_same_after_reset(
        &rt,
        rt.alloc(),
        &mut PlainConsole::new(&map),
        &mut PlainConsole::new(&map),
    );
    expect_same_after_reset(
        &rt,
        rt.alloc(),
        &mut WordConsole::new(&map),
        &mut WordConsole::new(&map),
    );
}

/// Events, their answers as numbers, and the modifiers that are on after them.
static RAW: [(Input, u32, &[Modifier]); 7] = [
    (Down(42), 0x8000_0002, &[LeftShift]),
    (Down(15), 0x8800_0008, &[LeftShift]),
    (Up(15), 0xc000_0008, &[LeftShift]),
    (Up(42), 0xc000_0002, &[]),
    (Down(56), 0x8000_0084, &[Meta]),
    (Down(18), 0x0400_0065, &[Meta]),
    (Up(56), 0xc000_0084, &[]),
];

fn expect_raw<T: Translator>(rt: &impl Abort, console: &mut T) {
    for &(input, raw, on) in &RAW {
        let answer = console.step(event(rt, input));
        expect_equal_at(rt, input, answer.raw(), raw);
        expect_shown(rt, console, on, &[], None);
    }
}

/// Answers, and their numbers.
static NUMBERS: [(Output, u32); 4] = [
    (Special(FKEY01), 0x8200_001b),
    (Nothing, 0x0100_0000),
    (Error, 0x2000_0000),
    (MetaChar('a'), 0x0400_0061),
];

#[test]
fn answers_have_their_numbers(rt: HostRuntime) {
    let map = read_map(rt.alloc(), ACCENTS).expect(&rt, "a map");
    expect_raw(&rt, &mut PlainConsole::new(&map));
    expect_raw(&rt, &mut WordConsole::new(&map));
    for &(output, number) in &NUMBERS {
        let answer = answer(&rt, output);
        expect_equal(&rt, answer.raw(), number);
    }
}

/// The text of a keymap, and what is replayed on it. A key of the keymap of no keys gives the character 0. A dead key
/// that is pressed again gives its own character, and pressed a third time is pending.
static REPLAYS: [(&[u8], Replayed); 2] = [
    (
        b"",
        Replayed {
            inputs: &[Down(30)],
            outputs: &[Char('\0')],
            on: &[],
            pending: None,
        },
    ),
    (
        ACCENTS,
        Replayed {
            inputs: &[Down(26), Down(26), Down(26)],
            outputs: &[Nothing, Char('´'), Nothing],
            on: &[],
            pending: Some(1),
        },
    ),
];

#[test]
fn replays(rt: HostRuntime) {
    for (text, replayed) in &REPLAYS {
        let map = read_map(rt.alloc(), text).expect(&rt, "a map");
        expect_replay(&rt, rt.alloc(), &mut PlainConsole::new(&map), replayed);
        expect_replay(&rt, rt.alloc(), &mut WordConsole::new(&map), replayed);
    }
}
