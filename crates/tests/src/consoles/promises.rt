//! What the report says of modifiers and locks, over long lists of events.

use crate::asserts::{expect_at, expect_equal};
use crate::consoles::console::{Input, event};
use crate::support::keymaps::{
    ACCENTS, CAPS_AND_NUM, LETTER_AND_SHIFT, SHIFT_AND_CAPS, SHIFT_WITHOUT_TRAP, UPPER_HALF,
};
use console_core::{Event, PlainConsole, Translator, WordConsole};
use keymap_check::{Bearer, Report, check};
use keymap_core::{Holding, KeyCode, KeyMap, LOCKS, MODIFIERS, Modifier};
use keymap_text::read_map;
use std::process::Abort;

/// What the events so far leave of a key.
#[derive(Clone, Copy)]
struct KeyState {
    code: u8,
    is_pressed: bool,
    /// Whether the number of its fresh presses is odd.
    is_odd: bool,
}

fn state_of(code: u8) -> KeyState {
    KeyState {
        code,
        is_pressed: false,
        is_odd: false,
    }
}

fn follow(keys: &mut [KeyState], event: &Event) {
    for state in keys {
        match event {
            Event::Press(key) if key.get() == state.code => {
                if !state.is_pressed {
                    state.is_odd = !state.is_odd;
                }
                state.is_pressed = true;
            }
            Event::Release(key) if key.get() == state.code => state.is_pressed = false,
            Event::Reset => state.is_pressed = false,
            _ => {}
        }
    }
}

/// The next event of a linear congruential generator: half are presses, and one of sixteen is a reset.
fn next_event(rt: &impl Abort, number: &mut u64, keys: &[KeyState]) -> Event {
    *number = number.wrapping_mul(1_103_515_245).wrapping_add(12_345) % 2_147_483_648;
    let high = *number / 65_536;
    let index = (high as usize).checked_rem(keys.len()).expect(rt, "keys");
    let state = keys.get(index).expect(rt, "a key");
    match high / 256 % 16 {
        0..=7 => event(rt, Input::Down(state.code)),
        8..=14 => event(rt, Input::Up(state.code)),
        _ => Event::Reset,
    }
}

/// Delivers the event to both consoles, and asserts that they show the same.
fn step_both<P: Translator, W: Translator>(
    rt: &impl Abort,
    plain: &mut P,
    word: &mut W,
    event: &Event,
) {
    let answer = plain.step(*event);
    expect_equal(rt, word.step(*event), answer);
    for modifier in MODIFIERS {
        expect_equal(rt, plain.on(modifier), word.on(modifier));
    }
    for lock in LOCKS {
        expect_equal(rt, plain.locked(lock), word.locked(lock));
    }
    expect_equal(rt, plain.pending(), word.pending());
}

/// Asserts what the report promises of the modifiers and locks that one of the keys bears throughout.
fn expect_promises<T: Translator>(
    rt: &impl Abort,
    console: &T,
    report: &Report,
    keys: &[KeyState],
) {
    for state in keys {
        for modifier in MODIFIERS {
            if report.bearer(Holding::Mod(modifier)) == bearer_throughout(state.code) {
                expect_equal(rt, console.on(modifier), state.is_pressed);
            }
        }
        for lock in LOCKS {
            if report.bearer(Holding::Lock(lock)) == bearer_throughout(state.code) {
                expect_equal(rt, console.locked(lock), state.is_odd);
            }
        }
    }
}

fn bearer_throughout(code: u8) -> Bearer {
    KeyCode::new(code).map_or(Bearer::Nobody, Bearer::Throughout)
}

fn run(rt: &impl Abort, map: &KeyMap, keys: &mut [KeyState]) {
    let report = check(map);
    assert!(rt; report.accepted());
    let mut plain = PlainConsole::new(map);
    let mut word = WordConsole::new(map);
    let mut number = 1;
    for _ in 0..20_000 {
        let event = next_event(rt, &mut number, keys);
        follow(keys, &event);
        step_both(rt, &mut plain, &mut word, &event);
        expect_promises(rt, &word, &report, keys);
    }
}

/// The text of a keymap, and the keys that it defines.
static MAPS: [(&[u8], &[u8]); 5] = [
    (LETTER_AND_SHIFT, &[30, 42]),
    (CAPS_AND_NUM, &[30, 58, 69]),
    (ACCENTS, &[15, 18, 26, 30, 41, 42, 56, 57, 59, 92]),
    (UPPER_HALF, &[30, 58, 93]),
    (SHIFT_AND_CAPS, &[42, 58]),
];

#[test]
fn both_consoles_keep_the_promises(rt: HostRuntime) {
    for &(text, codes) in &MAPS {
        let map = read_map(rt.alloc(), text).expect(&rt, "a map");
        let mut keys = Vec::new(rt.alloc());
        for &code in codes {
            keys.push(state_of(code)).expect(&rt, "memory");
        }
        run(&rt, &map, keys.as_mut_slice());
    }
}

fn is_pressed(keys: &[KeyState], code: u8) -> bool {
    keys.iter()
        .any(|state| state.code == code && state.is_pressed)
}

/// No key of the keymap has a trap and it has no locks: a modifier is on only while the key that bears it is pressed,
/// though the keymap is refused.
#[test]
fn without_traps_modifiers_are_on_only_while_pressed(rt: HostRuntime) {
    let map = read_map(rt.alloc(), SHIFT_WITHOUT_TRAP).expect(&rt, "a map");
    assert!(rt; !check(&map).accepted());
    let mut console = WordConsole::new(&map);
    let mut keys = [29, 42].map(state_of);
    let mut number = 1;
    let mut was_on = [false; 8];
    for _ in 0..20_000 {
        let event = next_event(&rt, &mut number, &keys);
        follow(&mut keys, &event);
        console.step(event);
        for modifier in MODIFIERS {
            let may_be_on = match modifier {
                Modifier::LeftShift => is_pressed(&keys, 42),
                Modifier::LeftControl => is_pressed(&keys, 29),
                _ => false,
            };
            expect_at(&rt, modifier, may_be_on || !console.on(modifier));
            was_on[modifier.index()] |= console.on(modifier);
        }
    }
    expect_equal(
        &rt,
        was_on,
        [true, false, true, false, false, false, false, false],
    );
}
