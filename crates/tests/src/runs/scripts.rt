//! Scripts by themselves.

use crate::asserts::{expect_equal, expect_equal_at};
use keymap_core::KeyCode;
use play_core::{ScriptError, ScriptFault, Sent, What, read_script};

#[test]
fn scripts_are_read(rt: HostRuntime) {
    let nothing = read_script(rt.alloc(), b"").expect(&rt, "a script");
    assert!(rt; nothing.is_empty());
    let key = KeyCode::new(42).expect(&rt, "a key");
    let events = read_script(rt.alloc(), b" lost  up 042 # x").expect(&rt, "a script");
    let wanted = [Sent {
        lost: true,
        what: What::Up(key),
    }];
    expect_equal(&rt, events.as_slice(), wanted.as_slice());
    expect_equal(&rt, wanted[0].event(), None);
    let events = read_script(rt.alloc(), b"# down\n\t\r\ndown 30#x\nlost load\n").expect(
        &rt, "a script",
    );
    expect_equal(&rt, events.len(), 2);
}

static FAULTS: [(&str, ScriptFault); 10] = [
    ("down 128", ScriptFault::BadKey(1)),
    ("down 0128", ScriptFault::BadKey(1)),
    ("reset\ndown", ScriptFault::BadLine(2)),
    ("down#30", ScriptFault::BadLine(1)),
    ("lost", ScriptFault::BadLine(1)),
    ("reset 1", ScriptFault::BadLine(1)),
    ("lost down 300", ScriptFault::BadKey(1)),
    ("Down 30", ScriptFault::BadLine(1)),
    ("\n\nkey 300\ndown 128", ScriptFault::BadLine(3)),
    (
        "up 4294967296000000000000000000000000000000000000000000000000000000000000001",
        ScriptFault::BadKey(1),
    ),
];

#[test]
fn faults_name_their_line(rt: HostRuntime) {
    for &(script, fault) in &FAULTS {
        let answer = read_script(rt.alloc(), script.as_bytes()).err();
        expect_equal_at(&rt, script, answer, Some(ScriptError::Fault(fault)));
    }
}

/// How many events a script gives, or its fault, each where the script is cut to so many bytes.
#[test]
fn a_script_that_is_cut_has_the_fault_of_its_last_line(rt: HostRuntime) {
    let script = b"down 70\ndown 104\nup 70\nrepeat 104\n";
    for end in 0..=script.len() {
        let cut = &script[..end];
        let before = cut.iter().filter(|byte| **byte == b'\n').count();
        let is_last_there = !cut.is_empty() && !cut.ends_with(b"\n");
        let events = before.saturating_add(usize::from(is_last_there));
        let fault = ScriptFault::BadLine((before as u64).saturating_add(1));
        match read_script(rt.alloc(), cut) {
            Ok(given) => expect_equal_at(&rt, end, given.len(), events),
            Err(error) => expect_equal_at(&rt, end, error, ScriptError::Fault(fault)),
        }
    }
}
