//! Scripts in the forms of other tools: which one is asked for, and what is printed in it.
use crate::command_line::Request;
use crate::output::tell;
use crate::program::Failure;
use kmap_runs::{CommandError, RunError};
use messages::number;
use play_core::{Sent, What};
use script_forms::{Form, FormError, in_form, sends};
use std::alloc::{AllocError, Global};

/// The form of a word, of which there is none for the script itself.
pub(crate) fn form_of(word: Option<&str>) -> Option<Form> {
    match word {
        Some("evdev") => Some(Form::Evdev),
        Some("set1") => Some(Form::Set1),
        Some("qmp") => Some(Form::Qmp),
        Some("x11") => Some(Form::X11),
        _ => None,
    }
}

fn name_of(form: Form) -> &'static [u8] {
    match form {
        Form::Evdev => b"evdev",
        Form::Set1 => b"set1",
        Form::Qmp => b"qmp",
        Form::X11 => b"x11",
    }
}

/// The word for a form that a request has, if there is no such form.
pub(crate) fn unknown_form<'a>(request: &Request<'_, 'a>) -> Option<&'a str> {
    let word = match request {
        Request::Type { form, .. } | Request::Cover { form, .. } => (*form)?,
        _ => return None,
    };
    if word == "script" || form_of(Some(word)).is_some() {
        None
    } else {
        Some(word)
    }
}

/// Prints a script that a run wrote into memory, in the form. There a write fails where memory is refused.
pub(crate) fn tell_script<'a>(
    rt: &HostRuntime,
    form: Form,
    script: &[u8],
    outcome: Result<(), CommandError>,
) -> Result<(), Failure<'a>> {
    match outcome {
        Ok(()) => {}
        Err(CommandError::Run(RunError::Write(_))) => return Err(Failure::of_run(RunError::Memory)),
        Err(error) => return Err(Failure::Command(None, error)),
    }
    match in_form(rt.alloc(), form, script) {
        Ok(text) => tell(rt, text.as_slice()),
        Err(FormError::Memory) => Err(Failure::of_run(RunError::Memory)),
        Err(FormError::Fault(fault)) => Err(Failure::of_run(RunError::Script(fault))),
        Err(FormError::Unsent { line, sent }) => {
            let line = unsent_line(rt.alloc(), form, script, line, sent.what)?;
            Err(Failure::Unsent(line))
        }
    }
}

/// The line that tells which event of a script a form doesn't have, by the number of its line.
fn unsent_line(
    alloc: Global,
    form: Form,
    script: &[u8],
    line: u64,
    what: What,
) -> Result<Vec<u8>, AllocError> {
    let event = line_at(script, line);
    let (lacking, of_what) = lacking(form, event, what);
    let mut text = Vec::from_slice(alloc, b"kmap: ")?;
    text.extend_from_slice(name_of(form))?;
    text.extend_from_slice(b" has no ")?;
    text.extend_from_slice(lacking)?;
    text.extend_from_slice(of_what)?;
    text.extend_from_slice(b": line ")?;
    text.extend_from_slice(number(line).as_slice())?;
    text.extend_from_slice(b": ")?;
    text.extend_from_slice(event)?;
    text.push(b'\n')?;
    Ok(text)
}

/// The line with the number, counted from 1.
fn line_at(script: &[u8], line: u64) -> &[u8] {
    let mut number = 1_u64;
    for text in script.split(|byte| *byte == b'\n') {
        if number == line {
            return text;
        }
        number = number.saturating_add(1);
    }
    b""
}

/// What of an event the form doesn't have: a key, whose number is the last word of the line, repeats of keys that it
/// has, or the event itself.
fn lacking(form: Form, event: &[u8], what: What) -> (&'static [u8], &[u8]) {
    match what {
        What::Repeat(key)
            if sends(
                form,
                &Sent {
                    lost: false,
                    what: What::Down(key),
                },
            ) => { (b"repeat", b"") }
        What::Down(_) | What::Repeat(_) | What::Up(_) => {
            let number = event.split(|byte| *byte == b' ').last();
            (b"key ", number.unwrap_or(b""))
        }
        What::Reset | What::Load => (b"", event),
    }
}
