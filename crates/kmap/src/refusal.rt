//! What is told of a command line that isn't taken: that its words are wrong, or the help or version that they ask for.
use crate::command_line::{matches_of, refusal};
use crate::output::{Faults, tell};
use crate::program::{is_well, status, well};
use clap::error::{Error, ErrorKind};
use keymap_names::shown_name;
use std::alloc::{AllocError, Global};
use std::convert::AsStr;
use std::env::FillError;
use std::process::ExitCode;
use std::rt::Env;

/// The status where the words are wrong.
pub(crate) const WRONG_WORDS: u8 = 2;

/// Tells what `clap` says of the words. What it repeats of them is shown as the name of a file is.
pub(crate) fn refused<S>(
    rt: &HostRuntime,
    error: &Error,
    words: &[S],
    faults: &mut Faults,
) -> Result<ExitCode, AllocError>
where
    S: AsStr,
{
    if error.kind() == ErrorKind::OutOfMemory {
        return Err(AllocError);
    }
    let text = format!(in rt.alloc(); "{error}")?;
    if !error.use_stderr() {
        return Ok(helped(rt, text.as_str(), faults));
    }
    let words = shown_words(rt.alloc(), words)?;
    if let Err(error) = matches_of(rt.alloc(), words.as_slice()) {
        return wrong(rt, &error, words.as_slice());
    }
    let _ = rt.eprint(&text);
    Ok(ExitCode::from(WRONG_WORDS))
}

/// Writes the help or the version. If that can't be done, it is a fault like that of any other output.
fn helped(rt: &HostRuntime, text: &str, faults: &mut Faults) -> ExitCode {
    let outcome = well(tell(rt, text.as_bytes()));
    status(is_well(rt.alloc(), outcome, faults))
}

/// Tells that the words are wrong.
fn wrong(rt: &HostRuntime, error: &Error, words: &[String]) -> Result<ExitCode, AllocError> {
    if error.kind() == ErrorKind::OutOfMemory {
        return Err(AllocError);
    }
    let text = format!(in rt.alloc(); "{error}")?;
    let _ = match tip_on_whole_word(rt.alloc(), text.as_str(), words)? {
        Some(text) => rt.eprint(&text),
        None => rt.eprint(&text),
    };
    Ok(ExitCode::from(WRONG_WORDS))
}

/// The words as a message shows them.
fn shown_words<S: AsStr>(alloc: Global, words: &[S]) -> Result<Vec<String>, AllocError> {
    let mut shown = Vec::new(alloc);
    for word in words {
        shown.push(shown_text(alloc, word.as_str().as_bytes())?)?;
    }
    Ok(shown)
}

/// Bytes as a message shows them, as text.
fn shown_text(alloc: Global, bytes: &[u8]) -> Result<String, AllocError> {
    match String::from_utf8(shown_name(alloc, bytes)?) {
        Ok(text) => Ok(text),
        Err(_) => Ok(String::new(alloc)),
    }
}

const TIP: &str = "  tip: to pass '";

const USE: &str = "' as a value, use '-- ";

/// The text, where `clap` tells how to pass a part of a word, as `-x` of `-x.kbd`, with the whole word in the place of
/// the part.
fn tip_on_whole_word(
    alloc: Global,
    text: &str,
    words: &[String],
) -> Result<Option<String>, AllocError> {
    let Some((front, part, rest)) = around_part(text) else {
        return Ok(None);
    };
    match words.iter().find(|word| word.as_str().starts_with(part)) {
        Some(word) => {
            let told = format!(in alloc; "{front}{TIP}{word}{USE}{word}'\n{rest}")?;
            Ok(Some(told))
        }
        None => Ok(None),
    }
}

/// What stands before the tip on a part of a word, that part, and what stands in the lines behind the tip.
fn around_part(text: &str) -> Option<(&str, &str, &str)> {
    let (front, tip) = text.split_once(TIP)?;
    let (part, behind) = tip.split_once(USE)?;
    let (_, rest) = behind.split_once('\n')?;
    Some((front, part, rest))
}

/// Tells which of the words is no text.
pub(crate) fn not_text(rt: &HostRuntime) -> Result<ExitCode, AllocError> {
    let message = match first_no_text(rt)? {
        Some((number, shown)) => {
            format!(in rt.alloc(); "argument {number} is not valid UTF-8: {shown}")?
        }
        None => String::from_str(rt.alloc(), "an argument is not valid UTF-8")?,
    };
    told(rt, ErrorKind::InvalidValue, message.as_str())
}

/// Tells that words that are taken one by one can't stand together.
pub(crate) fn contradicted(rt: &HostRuntime, message: &str) -> Result<ExitCode, AllocError> {
    told(rt, ErrorKind::ArgumentConflict, message)
}

fn told(rt: &HostRuntime, kind: ErrorKind, message: &str) -> Result<ExitCode, AllocError> {
    let refusal = refusal(rt.alloc(), kind, message)?;
    let _ = rt.eprint(&refusal);
    Ok(ExitCode::from(WRONG_WORDS))
}

/// Which word is the first that is no text, counted from the one behind the name of the program, and how it is shown.
fn first_no_text(rt: &HostRuntime) -> Result<Option<(usize, String)>, AllocError> {
    for number in 0..usize::MAX {
        let Some(bytes) = word_bytes(rt, number)? else {
            return Ok(None);
        };
        if std::str::from_utf8(bytes.as_slice()).is_err() {
            let shown = shown_text(rt.alloc(), bytes.as_slice())?;
            return Ok(Some((number, shown)));
        }
    }
    Ok(None)
}

/// The bytes of a word, if there are so many words.
fn word_bytes(rt: &HostRuntime, number: usize) -> Result<Option<Vec<u8>>, AllocError> {
    let mut room = 256_usize;
    for _ in 0..usize::BITS {
        let mut bytes = vec![in rt.alloc(); 0_u8; room]?;
        match rt.arg(number, bytes.as_mut_slice()) {
            Ok(length) => {
                bytes.truncate(length);
                return Ok(Some(bytes));
            }
            Err(FillError::NotPresent) => return Ok(None),
            Err(FillError::TooLong) => room = room.saturating_add(room),
        }
    }
    Err(AllocError)
}
