//! Keymaps whose report and demonstration were worked out by hand.

use crate::asserts::{expect_at, expect_equal, expect_equal_at, map_of};
use crate::consoles::console::Input::{Down, Up};
use crate::consoles::console::{Input, event, key};
use crate::support::keymaps::{
    ALT_SHIFT_WITH_TRAP, CAPS_WITH_NOPS, DUMPED_LINE, SHIFT_ALONE, SHIFT_WITH_TRAP,
    SHIFT_WITHOUT_TRAP, TWO_SCROLL_LOCKS, UPPER_HALF,
};
use console_core::Event;
use keymap_check::{Bearer, Finding, Place, Report, check, demonstrate};
use keymap_core::{Holding, LOCKS, Lock, MODIFIERS, Modifier};
use std::process::Abort;

/// Which key bears something, by its code.
#[derive(Clone, Copy)]
enum Borne {
    Throughout(u8),
    Sole(u8),
    Several,
}

use Borne::{Several, Sole, Throughout};

/// A finding: its key and modifier, which is in column 0 of the key's slot, and the slot and column of the character.
type Trap = (u8, Modifier, u8, u8);

/// A text, what its report finds, and the demonstration.
type Checked = (&'static [u8], &'static [Trap], &'static [Input]);

static CHECKED: [Checked; 9] = [
    (b"", &[], &[]),
    (TWO_SCROLL_LOCKS, &[], &[]),
    (DUMPED_LINE, &[], &[]),
    (CAPS_WITH_NOPS, &[], &[]),
    (UPPER_HALF, &[], &[]),
    (SHIFT_ALONE, &[], &[]),
    (
        SHIFT_WITH_TRAP,
        &[(42, Modifier::LeftShift, 42, 2)],
        &[Down(42), Down(29), Down(42), Up(42), Up(29)],
    ),
    (SHIFT_WITHOUT_TRAP, &[(42, Modifier::LeftShift, 42, 2)], &[]),
    (
        ALT_SHIFT_WITH_TRAP,
        &[
            (42, Modifier::LeftShift, 170, 0),
            (93, Modifier::AltShift, 221, 0),
        ],
        &[Down(42), Down(93), Down(42), Up(42), Up(93)],
    ),
];

/// Who bears the modifiers and locks of a text; nobody bears the others.
static BORNE_MODIFIERS: [(&[u8], Modifier, Borne); 9] = [
    (CAPS_WITH_NOPS, Modifier::LeftShift, Throughout(42)),
    (UPPER_HALF, Modifier::AltShift, Throughout(93)),
    (SHIFT_ALONE, Modifier::LeftShift, Throughout(42)),
    (SHIFT_WITH_TRAP, Modifier::LeftShift, Sole(42)),
    (SHIFT_WITH_TRAP, Modifier::LeftControl, Throughout(29)),
    (SHIFT_WITHOUT_TRAP, Modifier::LeftShift, Sole(42)),
    (SHIFT_WITHOUT_TRAP, Modifier::LeftControl, Throughout(29)),
    (ALT_SHIFT_WITH_TRAP, Modifier::LeftShift, Sole(42)),
    (ALT_SHIFT_WITH_TRAP, Modifier::AltShift, Sole(93)),
];

static BORNE_LOCKS: [(&[u8], Lock, Borne); 4] = [
    (TWO_SCROLL_LOCKS, Lock::Scroll, Several),
    (DUMPED_LINE, Lock::Scroll, Sole(104)),
    (CAPS_WITH_NOPS, Lock::Caps, Sole(58)),
    (UPPER_HALF, Lock::Alt, Throughout(58)),
];

/// The bearer that a row names, or else nobody.
fn bearer_in<T: Copy + PartialEq>(
    rt: &impl Abort,
    rows: &[(&[u8], T, Borne)],
    text: &[u8],
    wanted: T,
) -> Bearer {
    for &(own, borne, by) in rows {
        if own == text && borne == wanted {
            return match by {
                Throughout(code) => Bearer::Throughout(key(rt, code)),
                Sole(code) => Bearer::Sole(key(rt, code)),
                Several => Bearer::Several,
            };
        }
    }
    Bearer::Nobody
}

/// Asserts who bears each modifier and lock, and that the alt lock of the upper half is the only one that is steady.
fn expect_bearers(rt: &impl Abort, report: &Report, text: &[u8]) {
    for modifier in MODIFIERS {
        let given = report.bearer(Holding::Mod(modifier));
        let wanted = bearer_in(rt, &BORNE_MODIFIERS, text, modifier);
        expect_equal_at(rt, modifier, given, wanted);
    }
    for lock in LOCKS {
        let given = report.bearer(Holding::Lock(lock));
        expect_equal_at(rt, lock, given, bearer_in(rt, &BORNE_LOCKS, text, lock));
        let is_steady = text == UPPER_HALF && lock == Lock::Alt;
        expect_equal_at(rt, lock, report.steady(lock), is_steady);
    }
}

fn finding(rt: &impl Abort, trap: Trap) -> Finding {
    let (code, modifier, slot, column) = trap;
    Finding {
        key: key(rt, code),
        holding: Holding::Mod(modifier),
        holding_at: Place {
            slot: code,
            column: 0,
        },
        character_at: Place { slot, column },
    }
}

/// Asserts that the events are those of the script; there are none where it is empty.
fn expect_script(rt: &impl Abort, events: &[Event], script: &[Input]) {
    expect_equal(rt, events.len(), script.len());
    for (given, input) in events.iter().zip(script) {
        expect_equal_at(rt, input, given, &event(rt, *input));
    }
}

#[test]
fn reports_are_as_worked_out(rt: HostRuntime) {
    for &(text, traps, script) in &CHECKED {
        let map = map_of(&rt, text);
        let report = check(&map);
        expect_at(&rt, text, report.accepted() == traps.is_empty());
        let findings = report.findings();
        expect_equal_at(&rt, text, findings.len(), traps.len());
        for (given, trap) in findings.iter().zip(traps) {
            expect_equal_at(&rt, text, given, &finding(&rt, *trap));
        }
        expect_bearers(&rt, &report, text);
        match demonstrate(&map) {
            Some(events) => expect_script(&rt, events.as_slice(), script),
            None => expect_script(&rt, &[], script),
        }
    }
}
