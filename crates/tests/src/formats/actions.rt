//! Actions, their codes and names.

use crate::asserts::{expect_at, expect_equal_at};
use keymap_core::{Action, Named};
use std::process::Abort;

/// The codes of the keymap's actions and their names, but for the screens and function keys between the first and last.
static TABLE: [(u8, &[u8]); 44] = [
    (0x00, b"nop"),
    (0x02, b"lshift"),
    (0x03, b"rshift"),
    (0x04, b"clock"),
    (0x05, b"nlock"),
    (0x06, b"slock"),
    (0x07, b"lalt"),
    (0x08, b"btab"),
    (0x09, b"lctrl"),
    (0x0a, b"nscr"),
    (0x0b, b"scr01"),
    (0x1a, b"scr16"),
    (0x1b, b"fkey01"),
    (0x7a, b"fkey96"),
    (0x80, b"rctrl"),
    (0x81, b"ralt"),
    (0x82, b"alock"),
    (0x83, b"ashift"),
    (0x84, b"meta"),
    (0x85, b"boot"),
    (0x86, b"debug"),
    (0x87, b"susp"),
    (0x88, b"saver"),
    (0x89, b"dgra"),
    (0x8a, b"dacu"),
    (0x8b, b"dcir"),
    (0x8c, b"dtil"),
    (0x8d, b"dmac"),
    (0x8e, b"dbre"),
    (0x8f, b"ddot"),
    (0x90, b"duml"),
    (0x91, b"dsla"),
    (0x92, b"drin"),
    (0x93, b"dced"),
    (0x94, b"dapo"),
    (0x95, b"ddac"),
    (0x96, b"dogo"),
    (0x97, b"dcar"),
    (0x98, b"stby"),
    (0x99, b"pscr"),
    (0x9a, b"panic"),
    (0xa1, b"halt"),
    (0xa2, b"pdwn"),
    (0xa3, b"paste"),
];

/// Codes of no action: one between the first two, the first behind the function keys, the combined actions, the others.
static UNUSED: [u8; 7] = [0x01, 0x7b, 0x7f, 0x9b, 0xa0, 0xa4, 0xff];

fn is_named(action: &Action, name: &[u8]) -> bool {
    let written = action.name();
    written.as_slice() == name
}

#[test]
fn actions_have_the_codes_and_names_of_the_table(rt: HostRuntime) {
    for &(code, name) in &TABLE {
        let action = Action::from_code(code).expect(&rt, "an action");
        expect_at(&rt, code, is_named(&action, name));
        let named = (action.code(), Action::named(name));
        expect_equal_at(&rt, code, named, (code, Named::Action(action)));
    }
    for &code in &UNUSED {
        expect_equal_at(&rt, code, Action::from_code(code), None);
    }
}

/// What a word names, by the code of an action.
#[derive(Clone, Copy)]
enum Naming {
    Code(u8),
    Combined,
    OutOfRange,
    Unknown,
}

use Naming::{Code, Combined, OutOfRange, Unknown};

/// Words that are no names of the table, and what they name: upper case, zeros and aliases; then the refused ones.
static WORDS: [(&[u8], Naming); 25] = [
    (b"FKEY0096", Code(0x7a)),
    (b"scr1", Code(0x0b)),
    (b"ddia", Code(0x90)),
    (b"alt", Code(0x07)),
    (b"Ctrl", Code(0x09)),
    (b"backTAB", Code(0x08)),
    (b"PASTE", Code(0xa3)),
    (b"Nop", Code(0x00)),
    (b"lshifta", Combined),
    (b"rshifta", Combined),
    (b"LCTRLA", Combined),
    (b"rctrla", Combined),
    (b"lalta", Combined),
    (b"ralta", Combined),
    (b"scr17", OutOfRange),
    (b"scr0", OutOfRange),
    (b"fkey0", OutOfRange),
    (b"fkey97", OutOfRange),
    (b"fkey257", OutOfRange),
    (b"fkey4294967297", OutOfRange),
    (b"fkey18446744073709551617", OutOfRange),
    (b"fkey", Unknown),
    (b"fkey1x", Unknown),
    (b"alta", Unknown),
    (b"", Unknown),
];

fn named(rt: &impl Abort, wanted: Naming) -> Named {
    match wanted {
        Code(code) => Named::Action(Action::from_code(code).expect(rt, "an action")),
        Combined => Named::Combined,
        OutOfRange => Named::OutOfRange,
        Unknown => Named::Unknown,
    }
}

#[test]
fn words_name_actions_or_none(rt: HostRuntime) {
    for &(word, wanted) in &WORDS {
        expect_equal_at(&rt, word, Action::named(word), named(&rt, wanted));
    }
}
