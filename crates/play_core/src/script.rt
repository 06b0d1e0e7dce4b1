//! Scripts: what is sent to a console, one event a line.
ghost use Rattle.std.specs.Prelude.{◌≡◌, ℕ, ◌+◌, ◌-◌, ◌≤◌, List, length, IfOk, IfErr, OnErr};
ghost use Rattle.play_core.specs.Scripts.{IsScript, IsScriptError, RunsOut};
ghost use Rattle.play_core.specs.Inner.Readings.{IsReadTo};

use crate::plain_line::plain_line;
use crate::script_line::{LineFault, read_line};
use crate::sent::Sent;
use crate::words::split_line;
use std::alloc::{AllocFailed, Global};
use thiserror::Error;

/// The first line of a script that is no event, counted from 1.
#[derive(Clone, Copy, Debug, PartialEq, Eq)]
pub enum ScriptFault {
    /// The line has another form.
    BadLine(u64),
    /// The number of the key is above 127.
    BadKey(u64),
}

#[derive(Clone, Copy, Debug, PartialEq, Eq, Error)]
pub enum ScriptError {
    #[error("out of memory")]
    Memory,
    #[error("fault in the script: {0:?}")]
    Fault(ScriptFault),
}

impl<T: Drop> From<AllocFailed<T>> for ScriptError {
    ghost use Rattle.play_core.specs.declared.script.ScriptError.TheVariants.{Memory};

    ghost from_gives = { λ _ e. e ≡ Memory };

    fn from(_e: AllocFailed<T>) -> ScriptError {
        ScriptError::Memory
    }
}

/// Reads the lines at the front of a text that are spelled most plainly, and answers what follows them. Each is one
/// event.
fn read_plain_lines<'t>(
    events: &mut Vec<Sent>,
    text: &'t [u8],
) -> Result<&'t [u8], AllocFailed<Sent>>
    ensures ok { IfOk result (λ rest. (script : List ℕ) (number : ℕ) → IsReadTo script number events.old.items text.now
        → IsReadTo script (number + (length events.new.items - length events.old.items)) events.new.items rest.now) }
    ensures err { OnErr result ((script : List ℕ) (number : ℕ) → IsReadTo script number events.old.items text.now
        → RunsOut script) }
    ensures more { length events.old.items ≤ length events.new.items }
    ensures shorter { IfOk result (λ rest. length rest.now ≤ length text.now) }
{
    let mut rest = text;
    while let Some(told) = plain_line(rest) {
        events.push(Sent {
            lost: false,
            what: told.0,
        })?;
        rest = told.1;
    }
    Ok(rest)
}

/// Reads a script: each line that has a word is one event. Unless memory is refused, it answers the events exactly if
/// all of these lines are events, and else the fault of the first one that is none. Each script has one list of events
/// or one fault, by `laws::one_reading`.
pub fn read_script(alloc: Global, script: &[u8]) -> Result<Vec<Sent>, ScriptError>
    ensures ok { IfOk result (λ events. IsScript script.now events.items) }
    ensures err { IfErr result (IsScriptError script.now) }
{
    let mut events = Vec::new(alloc);
    let mut number = 0;
    let mut rest = Some(script);
    while let Some(text) = rest {
        let before = events.len();
        let text = read_plain_lines(&mut events, text)?;
        number += (events.len() - before) as u64;
        let (line, following) = split_line(text);
        number += 1;
        match read_line(line) {
            Ok(None) => {}
            Ok(Some(Sent { lost, what })) => events.push(Sent { lost, what })?,
            Err(LineFault::Form) => return Err(ScriptError::Fault(ScriptFault::BadLine(number))),
            Err(LineFault::Key) => return Err(ScriptError::Fault(ScriptFault::BadKey(number))),
        }
        rest = following;
    }
    Ok(events)
}
