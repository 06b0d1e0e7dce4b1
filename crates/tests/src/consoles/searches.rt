//! Keymaps that can leave a modifier on while no key is pressed, and keymaps that can't, alone and between loads.

use crate::asserts::{expect_at, expect_equal, expect_equal_at};
use crate::consoles::console::expect_shown;
use crate::support::keymaps::{
    ACCENTS, ALT_LOCK_TO_NOTHING, ALT_SHIFT_WITH_TRAP, CAPS_ALONE, CAPS_LOCK_TO_NOTHING,
    REMEMBERED_BUT_HELD_BY_ANOTHER, SHIFT_WITH_TRAP, STICKS_UNDER_CAPS, WOULD_STICK_UNDER_CAPS,
};
use console_core::{Event, PlainConsole, replay};
use console_states::{Held, Keymaps, Sticking, entry, meet_all, sticking, sticking_between};
use keymap_core::{KeyMap, Lock, Modifier};
use keymap_text::read_map;
use std::alloc::Global;
use std::process::Abort;

/// How many presses and events a shortest list has that leaves a modifier on, and what is on after it; none where none
/// sticks.
type Found = Option<(usize, usize, Modifier, &'static [Lock])>;

/// How many of the events are presses.
fn presses_among(events: &[Event]) -> usize {
    let mut count = 0usize;
    for event in events {
        if let Event::Press(_) = event {
            count = count.saturating_add(1);
        }
    }
    count
}

/// The search between both keymaps found what is wanted, and the events lead there.
fn expect_found(
    rt: &impl Abort,
    alloc: Global,
    maps: (&KeyMap, &KeyMap),
    found: Sticking,
    wanted: Found,
) {
    match (found, wanted) {
        (Sticking::Never, None) => {}
        (Sticking::Sticks { events, modifiers }, Some((presses, count, modifier, locks))) => {
            expect_equal_at(rt, modifier, modifiers.as_slice(), [modifier].as_slice());
            let counts = (presses_among(events.as_slice()), events.len());
            expect_equal_at(rt, modifier, counts, (presses, count));
            let mut console = PlainConsole::between(maps.0, maps.1);
            let _answers = replay(alloc, &mut console, events.as_slice()).expect(rt, "answers");
            expect_shown(rt, &console, &[modifier], locks, None);
        }
        (_, wanted) => expect_at(rt, wanted, false),
    }
}

static ALONE: [(&[u8], Found); 7] = [
    (SHIFT_WITH_TRAP, Some((3, 5, Modifier::LeftShift, &[]))),
    (ALT_SHIFT_WITH_TRAP, Some((2, 3, Modifier::AltShift, &[]))),
    (
        ALT_LOCK_TO_NOTHING,
        Some((3, 5, Modifier::LeftShift, &[Lock::Alt])),
    ),
    (CAPS_LOCK_TO_NOTHING, None),
    (REMEMBERED_BUT_HELD_BY_ANOTHER, None),
    (CAPS_ALONE, None),
    (STICKS_UNDER_CAPS, None),
];

#[test]
fn a_modifier_sticks_where_its_key_can_look_up_a_character(rt: HostRuntime) {
    for &(text, wanted) in &ALONE {
        let map = read_map(rt.alloc(), text).expect(&rt, "a map");
        let found = sticking(rt.alloc(), &map).expect(&rt, "memory");
        expect_found(&rt, rt.alloc(), (&map, &map), found, wanted);
    }
}

/// A lock that one keymap bears lets a modifier of the other stick, where that bears it too. Between a keymap and
/// itself sticks what sticks alone.
static BETWEEN: [(&[u8], &[u8], Found); 7] = [
    (
        CAPS_ALONE,
        STICKS_UNDER_CAPS,
        Some((3, 6, Modifier::LeftShift, &[Lock::Caps])),
    ),
    (
        STICKS_UNDER_CAPS,
        CAPS_ALONE,
        Some((3, 7, Modifier::LeftShift, &[Lock::Caps])),
    ),
    (CAPS_ALONE, WOULD_STICK_UNDER_CAPS, None),
    (WOULD_STICK_UNDER_CAPS, CAPS_ALONE, None),
    (STICKS_UNDER_CAPS, STICKS_UNDER_CAPS, None),
    (CAPS_LOCK_TO_NOTHING, CAPS_LOCK_TO_NOTHING, None),
    (
        ALT_LOCK_TO_NOTHING,
        ALT_LOCK_TO_NOTHING,
        Some((3, 5, Modifier::LeftShift, &[Lock::Alt])),
    ),
];

#[test]
fn a_lock_of_another_map_lets_a_modifier_stick(rt: HostRuntime) {
    for &(first, second, wanted) in &BETWEEN {
        let first = read_map(rt.alloc(), first).expect(&rt, "a map");
        let second = read_map(rt.alloc(), second).expect(&rt, "a map");
        let found = sticking_between(rt.alloc(), &first, &second).expect(&rt, "memory");
        expect_found(&rt, rt.alloc(), (&first, &second), found, wanted);
    }
}

/// Two keys hold a modifier each, so there are four states, and four more while the acute accent is pending.
#[test]
fn an_accent_that_is_minded_is_pending_behind_its_dead_key(rt: HostRuntime) {
    let map = read_map(rt.alloc(), ACCENTS).expect(&rt, "a map");
    let maps = Keymaps::minding(&map, 1);
    let (met, _) = meet_all(rt.alloc(), &maps, &Held::start()).expect(&rt, "memory");
    let mut pending = 0usize;
    for place in 0..met.len() {
        let (held, _) = entry(&met, place);
        if held.is_accent_pending() {
            pending = pending.saturating_add(1);
        }
    }
    expect_equal(&rt, (met.len(), pending), (8, 4));
}
