//! keymap_check: the check of a keymap, and the demonstration that a modifier sticks.

use crate::asserts::map_of;
use crate::support::keymaps::SHIFT_WITH_TRAP;
use arrayvec::ArrayVec;
use console_core::Event;
use keymap_check::{Bearer, Finding, Place, Report, check, demonstrate};
use keymap_core::{Holding, KeyCode, KeyMap, Lock};

#[test]
fn reports(rt: HostRuntime) {
    let _: fn(&KeyMap) -> Report = check;
    let _: fn(&Report) -> bool = Report::accepted;
    let _: fn(&Report, Holding) -> Bearer = Report::bearer;
    let _: fn(&Report, Lock) -> bool = Report::steady;
    let _: fn(&KeyMap) -> Option<ArrayVec<Event, 11>> = demonstrate;
    let report = check(&map_of(&rt, SHIFT_WITH_TRAP));
    let findings: &ArrayVec<Finding, 128> = Report::findings(&report);
    let first: Finding = *findings.first().expect(&rt, "a finding");
    let Finding {
        key,
        holding,
        holding_at,
        character_at,
    } = first;
    let _: (KeyCode, Holding, Place, Place) = (key, holding, holding_at, character_at);
    let Place { slot, column } = holding_at;
    let _: (u8, u8) = (slot, column);
}

#[test]
fn bearers() {
    let _: fn(KeyCode) -> Bearer = Bearer::Throughout;
    let _: fn(KeyCode) -> Bearer = Bearer::Sole;
    match Bearer::Nobody {
        Bearer::Nobody | Bearer::Throughout(_) | Bearer::Sole(_) | Bearer::Several => {}
    }
}
