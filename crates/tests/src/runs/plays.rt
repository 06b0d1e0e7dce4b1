//! The published lines and bytes.

use crate::asserts::{expect_equal, expect_equal_at};
use crate::support::devices::{Sheet, sheet_of};
use crate::support::keymaps::{
    ACCENTS, CAPS_AND_NUM, LETTER_AND_SHIFT, NOP_UNDER_CONTROL, SHIFT_AND_CAPS, SHIFT_WITH_TRAP,
    TWO_CONTROLS, TWO_SCROLL_LOCKS,
};
use console_core::Answer;
use keymap_core::FromStd;
use play_core::{PlayError, Show, play, play_next, typed};
use std::alloc::Global;

/// What is played: the text of a keymap, a next one where there is one, and a script.
pub(crate) type Played = (Show, &'static [u8], Option<&'static [u8]>, &'static str);

/// What the play of texts from memory answers.
pub(crate) fn play_texts(alloc: Global, played: Played, out: &mut Sheet) -> Result<(), PlayError> {
    let (show, text, next, script) = played;
    let mut text = FromStd::new(text);
    let mut script = FromStd::new(script.as_bytes());
    match next {
        Some(next) => {
            let mut next = FromStd::new(next);
            play_next(alloc, show, &mut text, &mut next, &mut script, out)
        }
        None => play(alloc, show, &mut text, &mut script, out),
    }
}

/// What is played, and what is written of it.
static PLAYS: [(Played, &str); 20] = [
    (
        (
            Show::Lines,
            ACCENTS,
            None,
            "down 26\nup 26\ndown 59\nup 59\ndown 42\ndown 15\n",
        ),
        "press 26: none; mods none; locks none
release 26: released dacu; mods none; locks none
press 59: error; mods none; locks none
release 59: released fkey01; mods none; locks none
press 42: lshift; mods lshift; locks none
press 15: btab; mods lshift; locks none
",
    ),
    (
        (
            Show::Lines,
            LETTER_AND_SHIFT,
            None,
            "down 42\ndown 30\nup 42\nrepeat 30",
        ),
        "press 42: lshift; mods lshift; locks none
press 30: char 65; mods lshift; locks none
release 42: released lshift; mods none; locks none
press 30: char 97; mods none; locks none
",
    ),
    (
        (
            Show::Lines,
            TWO_SCROLL_LOCKS,
            None,
            "down 70\ndown 104\nup 70\nrepeat 104\n",
        ),
        "press 70: slock; mods none; locks slock
press 104: slock; mods none; locks slock
release 70: released slock; mods none; locks slock
press 104: slock; mods none; locks none
",
    ),
    (
        (
            Show::Lines,
            SHIFT_WITH_TRAP,
            None,
            "down 42\ndown 29\ndown 42\nup 42\nup 29\n",
        ),
        "press 42: lshift; mods lshift; locks none
press 29: lctrl; mods lshift lctrl; locks none
press 42: char 120; mods lshift lctrl; locks none
release 42: none; mods lshift lctrl; locks none
release 29: released lctrl; mods lshift; locks none
",
    ),
    (
        (
            Show::Lines,
            CAPS_AND_NUM,
            None,
            "down 58\nup 58\ndown 30\nup 30\ndown 69\nup 69\ndown 30\n",
        ),
        "press 58: clock; mods none; locks clock
release 58: released clock; mods none; locks clock
press 30: char 65; mods none; locks clock
release 30: none; mods none; locks clock
press 69: nlock; mods none; locks clock nlock
release 69: released nlock; mods none; locks clock nlock
press 30: char 65; mods none; locks clock nlock
",
    ),
    (
        (
            Show::Lines,
            SHIFT_AND_CAPS,
            None,
            "down 58\nup 58\ndown 42\nlost up 42\nreset\n",
        ),
        "press 58: clock; mods none; locks clock
release 58: released clock; mods none; locks clock
press 42: lshift; mods lshift; locks clock
reset: none; mods none; locks clock
",
    ),
    (
        (
            Show::Lines,
            TWO_CONTROLS,
            None,
            "down 29\ndown 42\nrepeat 29\nup 29\n",
        ),
        "press 29: lctrl; mods lctrl; locks none
press 42: lshift; mods lshift lctrl; locks none
press 29: none; mods lshift lctrl; locks none
release 29: released lctrl; mods lshift; locks none
",
    ),
    (
        (Show::Lines, NOP_UNDER_CONTROL, None, "down 30\nup 30\n"),
        "press 30: char 97; mods none; locks none
release 30: none; mods none; locks none
",
    ),
    (
        (
            Show::Lines,
            LETTER_AND_SHIFT,
            None,
            "down 42\nlost up 42\ndown 30\n",
        ),
        "press 42: lshift; mods lshift; locks none
press 30: char 65; mods lshift; locks none
",
    ),
    (
        (Show::Lines, ACCENTS, None, "down 56\ndown 30\n"),
        "press 56: meta; mods meta; locks none
press 30: meta char 97; mods meta; locks none
",
    ),
    (
        (Show::Lines, SHIFT_AND_CAPS, None, "down 42\nload\n"),
        "press 42: lshift; mods lshift; locks none
load: none; mods none; locks none
",
    ),
    (
        (Show::Lines, b"", None, "down 30"),
        "press 30: char 0; mods none; locks none
",
    ),
    ((Show::Lines, b"", None, ""), ""),
    (
        (
            Show::Lines,
            SHIFT_AND_CAPS,
            Some(LETTER_AND_SHIFT),
            "down 58\nup 58\ndown 42\nload\ndown 30\n",
        ),
        "press 58: clock; mods none; locks clock
release 58: released clock; mods none; locks clock
press 42: lshift; mods lshift; locks clock
load: none; mods none; locks none
press 30: char 97; mods none; locks none
",
    ),
    (
        (
            Show::Lines,
            SHIFT_AND_CAPS,
            Some(CAPS_AND_NUM),
            "down 58\nup 58\nload\ndown 30\n",
        ),
        "press 58: clock; mods none; locks clock
release 58: released clock; mods none; locks clock
load: none; mods none; locks clock
press 30: char 65; mods none; locks clock
",
    ),
    (
        (
            Show::Lines,
            LETTER_AND_SHIFT,
            Some(LETTER_AND_SHIFT),
            "down 42\nload\nup 42\n",
        ),
        "press 42: lshift; mods lshift; locks none
load: none; mods none; locks none
release 42: none; mods none; locks none
",
    ),
    (
        (
            Show::Lines,
            SHIFT_AND_CAPS,
            Some(LETTER_AND_SHIFT),
            "down 58\nload\nload\nup 58\n",
        ),
        "press 58: clock; mods none; locks clock
load: none; mods none; locks none
load: none; mods none; locks none
release 58: none; mods none; locks none
",
    ),
    (
        (
            Show::Typed,
            ACCENTS,
            None,
            "down 42\ndown 15\nup 15\nup 42\ndown 56\ndown 18\nup 56\n",
        ),
        "\x1b[Z\x1be",
    ),
    ((Show::Typed, LETTER_AND_SHIFT, None, "down 30\n"), "a"),
    (
        (
            Show::Typed,
            NOP_UNDER_CONTROL,
            None,
            "reset\nup 30\nlost down 30\n",
        ),
        "",
    ),
];

#[test]
fn plays_write_their_lines_and_bytes(rt: HostRuntime) {
    for &(played, wanted) in &PLAYS {
        let mut out = sheet_of(usize::MAX);
        play_texts(rt.alloc(), played, &mut out).expect(&rt, "a play");
        expect_equal_at(&rt, played.3, out.bytes.as_slice(), wanted.as_bytes());
    }
}

#[test]
fn answers_type_their_bytes(rt: HostRuntime) {
    let mut out = sheet_of(usize::MAX);
    let answers = [
        Answer::Char { c: 'é', meta: true },
        Answer::None,
        Answer::BackTab,
    ];
    typed(&answers, &mut out).expect(&rt, "bytes");
    expect_equal(&rt, out.bytes.as_slice(), b"\x1b\xc3\xa9\x1b[Z".as_slice());
    typed(&[], &mut sheet_of(0)).expect(&rt, "no bytes");
}
