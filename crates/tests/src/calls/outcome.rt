//! What came of a call.
use console_scripts::TypingError;
use keymap_core::ReadError;
use keymap_fmt::FormatError;
use keymap_tables::TableError;
use keymap_text::TextError;
use kmap_runs::{CommandError, RunError, TypeError};
use play_core::{PlayError, ScriptError};
use script_forms::FormError;
use std::alloc::AllocError;
use std::fmt;

/// What a call answered.
#[derive(Clone, Copy, PartialEq, Eq)]
pub enum Answer {
    Done,
    /// Memory was refused.
    Memory,
    /// What the call was given has a fault.
    Fault,
}

/// What a call answered, and whether it left alone what it must.
#[derive(Clone, Copy)]
pub struct Outcome {
    pub answer: Answer,
    pub kept: bool,
}

/// An error of a call that takes memory.
pub(crate) trait Refusal {
    /// Whether the error tells that memory was refused.
    fn is_memory(&self) -> bool;
}

impl Refusal for AllocError {
    fn is_memory(&self) -> bool {
        true
    }
}

impl Refusal for ReadError {
    fn is_memory(&self) -> bool {
        matches!(self, ReadError::Memory)
    }
}

impl Refusal for TextError {
    fn is_memory(&self) -> bool {
        matches!(self, TextError::Memory)
    }
}

impl Refusal for TableError {
    fn is_memory(&self) -> bool {
        matches!(self, TableError::Memory)
    }
}

impl Refusal for FormatError {
    fn is_memory(&self) -> bool {
        matches!(self, FormatError::Memory)
    }
}

impl Refusal for ScriptError {
    fn is_memory(&self) -> bool {
        matches!(self, ScriptError::Memory)
    }
}

impl Refusal for PlayError {
    fn is_memory(&self) -> bool {
        matches!(self, PlayError::Memory)
    }
}

impl Refusal for FormError {
    fn is_memory(&self) -> bool {
        matches!(self, FormError::Memory)
    }
}

impl Refusal for TypeError {
    fn is_memory(&self) -> bool {
        matches!(self, TypeError::Memory)
    }
}

impl Refusal for TypingError {
    fn is_memory(&self) -> bool {
        matches!(self, TypingError::Memory)
    }
}

impl Refusal for RunError {
    fn is_memory(&self) -> bool {
        matches!(self, RunError::Memory)
    }
}

impl Refusal for CommandError {
    fn is_memory(&self) -> bool {
        matches!(self, CommandError::Run(RunError::Memory))
    }
}

/// The answer of a call, and whether what it gave is the right thing.
fn answer_of<T, E: Refusal>(given: &Result<T, E>, is_right: bool) -> Answer {
    match given {
        Ok(_) if is_right => Answer::Done,
        Err(error) if error.is_memory() => Answer::Memory,
        _ => Answer::Fault,
    }
}

/// Whether a call gave this text.
pub(crate) fn is_text<E>(given: &Result<Vec<u8>, E>, text: &[u8]) -> bool {
    matches!(given, Ok(bytes) if bytes.as_slice() == text)
}

/// Of a call that was lent nothing which it has to leave alone.
pub(crate) fn ended<T, E: Refusal>(given: &Result<T, E>, is_right: bool) -> Outcome {
    ended_keeping(given, is_right, true)
}

/// Of a call that left what it was lent so.
pub(crate) fn ended_keeping<T, E: Refusal>(
    given: &Result<T, E>,
    is_right: bool,
    kept: bool,
) -> Outcome {
    Outcome {
        answer: answer_of(given, is_right),
        kept,
    }
}

/// Of a call that has to leave its device alone where memory is refused, and used it so often.
pub(crate) fn ended_untouched<T, E: Refusal>(
    given: &Result<T, E>,
    is_right: bool,
    uses: u32,
) -> Outcome {
    let answer = answer_of(given, is_right);
    Outcome {
        answer,
        kept: answer != Answer::Memory || uses == 0,
    }
}

impl fmt::Display for Outcome {
    fn fmt<W: fmt::Write>(&self, f: &mut fmt::Formatter<W>) -> fmt::Result {
        let answer = match self.answer {
            Answer::Done => "ok",
            Answer::Memory => "memory",
            Answer::Fault => "fault",
        };
        let change = if self.kept { "" } else { " changed" };
        write!(f, "{answer}{change}")
    }
}
