//! Two keymaps whose differences were worked out by hand: a key that gives characters in one column more, and with alt
//! a dead key in place of its character, where no key holds control or alt, so that no press meets any of it.

use crate::asserts::expect_equal;
use keymap_core::{Accent, AccentIndex, Action, Cell, Entry, KeyMap, LockFlag};
use keymap_diff::{Change, differences};
use std::alloc::Global;
use std::process::Abort;

const TILDE: u8 = 3;

const GROUP: Cell = Cell::Char('\x1d');

fn dead_tilde() -> Cell {
    Cell::Act(Action::DeadKey(AccentIndex::new(TILDE)))
}

fn cell(column: u8, old: Cell, new: Cell) -> Change {
    Change::Cell {
        slot: 27,
        column,
        old,
        new,
        is_unseen: true,
    }
}

fn pair(base: char, composed: char) -> Change {
    Change::Pair {
        accent: TILDE,
        base,
        old: None,
        new: Some(composed),
        is_unseen: true,
    }
}

fn entry(control: Cell, alt: Cell, alt_control: Cell) -> Entry {
    Entry {
        cells: [
            Cell::Char('+'),
            Cell::Char('*'),
            control,
            GROUP,
            alt,
            Cell::Char('~'),
            alt_control,
            GROUP,
        ],
        flag: LockFlag::O,
    }
}

/// A keymap with this key 27 and the accents tilde and cedilla.
fn keymap(rt: &impl Abort, alloc: Global, plus: Entry, tilde: Accent) -> KeyMap {
    let mut map = KeyMap::new(alloc).expect(rt, "a keymap");
    map.set(27, plus);
    map.set_accent(TILDE, tilde).expect(rt, "the tilde");
    map.set_accent(5, Accent::new('\u{b8}'))
        .expect(rt, "an accent");
    map
}

#[test]
fn differences_are_as_worked_out(rt: HostRuntime) {
    let gap = entry(GROUP, Cell::Char('~'), GROUP);
    let old = keymap(&rt, rt.alloc(), gap, Accent::new('\0'));
    let mut tilde = Accent::new('~');
    for (base, composed) in [('a', '\u{e3}'), ('n', '\u{f1}'), ('o', '\u{f5}')] {
        tilde.push_pair(base, composed).expect(&rt, "a pair");
    }
    let filled = entry(Cell::Char('+'), dead_tilde(), dead_tilde());
    let new = keymap(&rt, rt.alloc(), filled, tilde);
    let found = differences(rt.alloc(), &old, &new).expect(&rt, "the differences");
    let expected = [
        cell(2, GROUP, Cell::Char('+')),
        cell(4, Cell::Char('~'), dead_tilde()),
        cell(6, GROUP, dead_tilde()),
        Change::Accent {
            accent: TILDE,
            old: '\0',
            new: '~',
            is_unseen: true,
        },
        pair('a', '\u{e3}'),
        pair('n', '\u{f1}'),
        pair('o', '\u{f5}'),
    ];
    expect_equal(&rt, found.as_slice(), expected.as_slice());
}
