//! The lines of each form.
use crate::form::Form;
use crate::lines::has_event;
use crate::numbers::{push_hex, push_time, push_two};
use keyboard::{evdev_of, on_release, qcode_of, set1_of, x11_of};
use keymap_core::KeyCode;
use play_core::{Sent, What};
use std::alloc::{AllocError, Global};

type Added = Result<(), AllocError>;

/// What becomes of a key, by evdev's numbers.
#[derive(Clone, Copy)]
enum Motion {
    Up = 0,
    Down = 1,
    Repeat = 2,
}

fn motion_of(what: What) -> Option<(KeyCode, Motion)> {
    match what {
        What::Down(key) => Some((key, Motion::Down)),
        What::Repeat(key) => Some((key, Motion::Repeat)),
        What::Up(key) => Some((key, Motion::Up)),
        What::Reset | What::Load => None,
    }
}

/// Adds the line of an event of evdev, and the one that ends what came at this time.
fn push_evdev(text: &mut Vec<u8>, key: KeyCode, motion: Motion, time: u64) -> Added {
    text.extend_from_slice(b"E: ")?;
    push_time(text, time)?;
    text.extend_from_slice(b" 0001 00")?;
    push_hex(text, evdev_of(key))?;
    text.push(b' ')?;
    text.push(b'0' + motion as u8)?;
    text.extend_from_slice(b"\nE: ")?;
    push_time(text, time)?;
    text.extend_from_slice(b" 0000 0000 0\n")
}

/// Adds the bytes of set 1, a line each.
fn push_set1(text: &mut Vec<u8>, key: KeyCode, motion: Motion) -> Added {
    for byte in set1_of(key) {
        let byte = match motion {
            Motion::Up => on_release(*byte),
            Motion::Down | Motion::Repeat => *byte,
        };
        push_hex(text, byte)?;
        text.push(b'\n')?;
    }
    Ok(())
}

/// Adds the command of xdotool. A number of one digit would be the name of a key there.
fn push_x11(text: &mut Vec<u8>, key: KeyCode, motion: Motion) -> Added {
    let command: &[u8] = match motion {
        Motion::Up => b"keyup ",
        Motion::Down | Motion::Repeat => b"keydown ",
    };
    text.extend_from_slice(command)?;
    push_two(text, x11_of(key))?;
    text.push(b'\n')?;
    Ok(())
}

/// Adds the words of a comment as a string of JSON has them.
fn push_id(text: &mut Vec<u8>, comment: &[u8]) -> Added {
    let words = match comment {
        [b'#', b' ', words @ ..] => words,
        [_, words @ ..] => words,
        [] => comment,
    };
    text.extend_from_slice(b", \"id\": \"")?;
    for byte in words {
        if matches!(*byte, b'\\' | b'"') {
            text.push(b'\\')?;
        }
        text.push(*byte)?;
    }
    text.push(b'"')?;
    Ok(())
}

/// Adds the command of QEMU, with the words of a comment before it.
fn push_qmp(text: &mut Vec<u8>, key: KeyCode, motion: Motion, comment: &[u8]) -> Added {
    text.extend_from_slice(b"{\"execute\": \"input-send-event\"")?;
    if !comment.is_empty() {
        push_id(text, comment)?;
    }
    let is_down: &[u8] = match motion {
        Motion::Up => b"false",
        Motion::Down | Motion::Repeat => b"true",
    };
    text.extend_from_slice(
        b", \"arguments\": {\"events\": [{\"type\": \"key\", \"data\": {\"down\": ",
    )?;
    text.extend_from_slice(is_down)?;
    text.extend_from_slice(b", \"key\": {\"type\": \"qcode\", \"data\": \"")?;
    text.extend_from_slice(qcode_of(key))?;
    text.extend_from_slice(b"\"}}}]}}\n")
}

/// Adds what a form has for an event, before which a comment stands, and which is so many hundredths of a second behind
/// the start.
fn push_event(text: &mut Vec<u8>, form: Form, sent: &Sent, comment: &[u8], time: u64) -> Added {
    let Some((key, motion)) = motion_of(sent.what) else {
        return Ok(());
    };
    match form {
        Form::Evdev => push_evdev(text, key, motion, time),
        Form::Set1 => push_set1(text, key, motion),
        Form::Qmp => push_qmp(text, key, motion, comment),
        Form::X11 => push_x11(text, key, motion),
    }
}

/// Adds a comment as it stands, where the form has comments.
fn push_comment(text: &mut Vec<u8>, form: Form, line: &[u8]) -> Added {
    match form {
        Form::Qmp => Ok(()),
        _ => {
            text.extend_from_slice(line)?;
            text.push(b'\n')?;
            Ok(())
        }
    }
}

/// The script in the form, of these events.
pub(crate) fn printed(
    alloc: Global,
    form: Form,
    script: &[u8],
    events: &[Sent],
) -> Result<Vec<u8>, AllocError> {
    let mut text = Vec::new(alloc);
    let mut place = 0_usize;
    let mut comment: &[u8] = b"";
    for line in script.split(|byte| *byte == b'\n') {
        if has_event(line) && place < events.len() {
            push_event(&mut text, form, &events[place], comment, place as u64 + 1)?;
            place += 1;
            comment = b"";
        } else if !line.is_empty() {
            push_comment(&mut text, form, line)?;
            comment = line;
        }
    }
    Ok(text)
}
