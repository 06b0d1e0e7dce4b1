//! The forms, and a script in one of them.
ghost use Rattle.std.specs.Prelude.{IfOk, IfErr};
ghost use Rattle.script_forms.specs.Sending.{IsFormError, IsSent};

use crate::lines::line_number;
use crate::printing::printed;
use crate::sending::first_unsent;
use play_core::{ScriptError, ScriptFault, Sent, read_script};
use std::alloc::{AllocError, Global};
use thiserror::Error;

/// A form of scripts that another tool takes.
#[derive(Clone, Copy, Debug, PartialEq, Eq)]
pub enum Form {
    /// The events of an input device, as evemu plays them.
    Evdev,
    /// The bytes that a keyboard sends.
    Set1,
    /// The commands of QEMU's monitor.
    Qmp,
    /// The commands of xdotool.
    X11,
}

/// Why a script isn't in a form.
#[derive(Clone, Copy, Debug, PartialEq, Eq, Error)]
pub enum FormError {
    #[error("out of memory")]
    Memory,
    #[error("fault in the script: {0:?}")]
    Fault(ScriptFault),
    /// The form doesn't have the event, which stands in this line, counted from 1.
    #[error("the form has no such event")]
    Unsent { line: u64, sent: Sent },
}

/// A script in a form: its comments, and what the form has for each event.
pub fn in_form(alloc: Global, form: Form, script: &[u8]) -> Result<Vec<u8>, FormError>
    ensures ok { IfOk result (λ _. IsSent form script.now) }
    ensures err { IfErr result (IsFormError form script.now) }
{
    let events = match read_script(alloc, script) {
        Ok(events) => events,
        Err(ScriptError::Memory) => return Err(FormError::Memory),
        Err(ScriptError::Fault(fault)) => return Err(FormError::Fault(fault)),
    };
    let events = events.as_slice();
    if let Some(place) = first_unsent(form, events) {
        let line = line_number(script, place);
        let sent = events[place];
        return Err(FormError::Unsent { line, sent });
    }
    match printed(alloc, form, script, events) {
        Ok(text) => Ok(text),
        Err(AllocError) => Err(FormError::Memory),
    }
}
