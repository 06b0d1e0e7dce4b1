//! The limits of keymaps and their accents.

use crate::asserts::expect_equal;
use keymap_core::{Accent, Action, BadAccent, Cell, Entry, KeyMap, LockFlag, PairFault};

#[test]
fn an_accent_takes_52_pairs(rt: HostRuntime) {
    let mut accent = Accent::new('`');
    for _ in 0..52 {
        accent.push_pair('a', '\u{e0}').expect(&rt, "a pair");
    }
    let refused = [accent.push_pair('\0', 'a'), accent.push_pair('a', 'b')];
    let faults = [Err(PairFault::ZeroBase), Err(PairFault::TooManyPairs)];
    expect_equal(&rt, refused, faults);
    expect_equal(&rt, (accent.pairs().len(), accent.own()), (52, '`'));
}

#[test]
fn accents_end_at_14(rt: HostRuntime) {
    let mut map = KeyMap::new(rt.alloc()).expect(&rt, "memory");
    let set = map.set_accent(14, Accent::new('x'));
    expect_equal(&rt, (set, map.n_accs()), (Ok(()), 15));
    let before = map.try_clone(rt.alloc()).expect(&rt, "memory");
    expect_equal(&rt, map.set_accent(15, Accent::new('y')), Err(BadAccent));
    assert!(rt; map == before);
}

#[test]
fn slots_end_at_255(rt: HostRuntime) {
    let mut map = KeyMap::new(rt.alloc()).expect(&rt, "memory");
    let nops = Entry {
        cells: [Cell::Act(Action::Nop); 8],
        flag: LockFlag::O,
    };
    map.set(255, nops);
    expect_equal(&rt, map.n_keys(), 256);
    expect_equal(&rt, map.entry(255), &nops);
    map.set(3, nops);
    expect_equal(&rt, map.n_keys(), 256);
    expect_equal(&rt, map.entry(3), &nops);
    expect_equal(&rt, map.entry(4), &Entry::undefined());
}
