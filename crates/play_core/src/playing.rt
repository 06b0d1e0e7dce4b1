//! Playing a script on the keymap of a text, or between those of two texts.
ghost use Rattle.std.specs.Prelude.{◌≡◌, ◌||◌, ◌≤◌, ◌+◌, false, length, IfOk, IfErr, MatchResult, Ok, Err};
ghost use Rattle.console_core.specs.History.{between};
ghost use Rattle.play_core.specs.Playing as spec;
ghost use Rattle.play_core.specs.Playing.{LacksEvents, Plays, PlaysNext, ReadsNext, ReadsScript, ShowsEvents};
ghost use Rattle.play_core.specs.Playing.{ReadsText, blames, blames_writer};
ghost use Rattle.play_core.specs.Runs.{Runs, moves};
ghost use Rattle.play_core.specs.Scripts.{IsScript};

use crate::player::play_events;
use crate::script::{ScriptError, ScriptFault, read_script};
use crate::sent::Sent;
use crate::show::Show;
use crate::whole::read_whole;
use keymap_core::{KeyMap, Read, ReadError, ReadFault, Write, WriteFault};
use keymap_text::{TextError, TextFault, read_from};
use std::alloc::Global;
use thiserror::Error;

/// What is read.
#[derive(Clone, Copy, Debug, PartialEq, Eq)]
pub enum Source {
    Text,
    /// The text of the second keymap.
    Next,
    Script,
}

/// Why a script was not played, or not to its end.
#[derive(Clone, Copy, Debug, PartialEq, Eq, Error)]
pub enum PlayError {
    #[error("out of memory")]
    Memory,
    #[error("fault in the text: {0:?}")]
    Text(TextFault),
    #[error("fault in the next text: {0:?}")]
    Next(TextFault),
    #[error("fault in the script: {0:?}")]
    Script(ScriptFault),
    #[error("fault in reading {0:?}: {1:?}")]
    Read(Source, ReadFault),
    #[error("fault in writing: {0:?}")]
    Write(WriteFault),
}

fn text_error(error: TextError) -> PlayError
    ensures { result ≡ spec.of_text error }
{
    match error {
        TextError::Memory => PlayError::Memory,
        TextError::Read(fault) => PlayError::Read(Source::Text, fault),
        TextError::Fault(fault) => PlayError::Text(fault),
    }
}

fn next_error(error: TextError) -> PlayError
    ensures { result ≡ spec.of_next error }
{
    match error {
        TextError::Memory => PlayError::Memory,
        TextError::Read(fault) => PlayError::Read(Source::Next, fault),
        TextError::Fault(fault) => PlayError::Next(fault),
    }
}

fn script_error(error: ReadError) -> PlayError
    ensures { result ≡ spec.of_script error }
{
    match error {
        ReadError::Memory => PlayError::Memory,
        ReadError::Read(fault) => PlayError::Read(Source::Script, fault),
    }
}

/// The keymap of the text.
fn read_text<R: Read>(alloc: Global, text: &mut R) -> Result<KeyMap, PlayError>
    ensures reads { ReadsText (moves (R.remaining text.old) (R.remaining text.new)) result }
    ensures failed { R.has_failed text.new ≡ (blames Source.Text result || R.has_failed text.old) }
    ensures next_kept { blames Source.Next result ≡ false }
    ensures script_kept { blames Source.Script result ≡ false }
    ensures writer_kept { blames_writer result ≡ false }
{
    read_from(alloc, text).map_err(text_error)
}

/// The keymap of the next text.
fn read_next<N: Read>(alloc: Global, next: &mut N) -> Result<KeyMap, PlayError>
    ensures reads { ReadsNext (moves (N.remaining next.old) (N.remaining next.new)) result }
    ensures failed { N.has_failed next.new ≡ (blames Source.Next result || N.has_failed next.old) }
    ensures text_kept { blames Source.Text result ≡ false }
    ensures script_kept { blames Source.Script result ≡ false }
    ensures writer_kept { blames_writer result ≡ false }
{
    read_from(alloc, next).map_err(next_error)
}

/// The bytes of the script.
fn read_script_bytes<S: Read>(alloc: Global, script: &mut S) -> Result<Vec<u8>, PlayError>
    ensures reads { MatchResult result
        (λ bytes. ReadsScript (moves (S.remaining script.old) (S.remaining script.new)) (Ok bytes.items))
        (λ e. ReadsScript (moves (S.remaining script.old) (S.remaining script.new)) (Err e)) }
    ensures failed { S.has_failed script.new ≡ (blames Source.Script result || S.has_failed script.old) }
    ensures text_kept { blames Source.Text result ≡ false }
    ensures next_kept { blames Source.Next result ≡ false }
    ensures writer_kept { blames_writer result ≡ false }
{
    read_whole(alloc, script).map_err(script_error)
}

/// What a script sends.
fn events_of(alloc: Global, script: &[u8]) -> Result<Vec<Sent>, PlayError>
    ensures ok { IfOk result (λ sent. IsScript script.now sent.items) }
    ensures err { IfErr result (LacksEvents script.now) }
    ensures few { IfOk result (λ sent. length sent.items ≤ length script.now + 1) }
{
    match read_script(alloc, script) {
        Ok(sent) => Ok(sent),
        Err(ScriptError::Memory) => Err(PlayError::Memory),
        Err(ScriptError::Fault(fault)) => Err(PlayError::Script(fault)),
    }
}

/// The keymap in force at first, and that which a load exchanges it for.
#[derive(Clone, Copy)]
struct Loaded<'a> {
    first: &'a KeyMap,
    second: &'a KeyMap,
}

/// Reads a script and plays it on two keymaps.
fn play_script<S: Read, W: Write>(
    alloc: Global,
    show: Show,
    maps: &Loaded,
    script: &mut S,
    out: &mut W,
) -> Result<(), PlayError>
    ensures run { Runs spec.of_writer (ReadsScript (moves (S.remaining script.old) (S.remaining script.new)))
        LacksEvents
        (λ bytes _ told. ShowsEvents show (between maps.now.first.now maps.now.second.now) bytes told)
        (moves (W.contents out.old) (W.contents out.new)) result }
    ensures script_failed { S.has_failed script.new ≡ (blames Source.Script result || S.has_failed script.old) }
    ensures text_kept { blames Source.Text result ≡ false }
    ensures next_kept { blames Source.Next result ≡ false }
    ensures writer_failed { W.has_failed out.new ≡ (blames_writer result || W.has_failed out.old) }
{
    let bytes = read_script_bytes(alloc, script)?;
    let sent = events_of(alloc, bytes.as_slice())?;
    play_events(show, maps.first, maps.second, sent.as_slice(), out).map_err(PlayError::Write)
}

/// Reads the text of a keymap and then a script, at most `LIMIT` bytes each, and plays the script on the keymap. A load
/// in the script is a reset. Nothing is written before the whole script was read.
pub fn play<R: Read, S: Read, W: Write>(
    alloc: Global,
    show: Show,
    text: &mut R,
    script: &mut S,
    out: &mut W,
) -> Result<(), PlayError>
    ensures run { Plays show (moves (R.remaining text.old) (R.remaining text.new))
        (moves (S.remaining script.old) (S.remaining script.new))
        (moves (W.contents out.old) (W.contents out.new)) result }
    ensures text_failed { R.has_failed text.new ≡ (blames Source.Text result || R.has_failed text.old) }
    ensures script_failed { S.has_failed script.new ≡ (blames Source.Script result || S.has_failed script.old) }
    ensures writer_failed { W.has_failed out.new ≡ (blames_writer result || W.has_failed out.old) }
{
    let map = read_text(alloc, text)?;
    let alone = Loaded {
        first: &map,
        second: &map,
    };
    play_script(alloc, show, &alone, script, out)
}

/// Reads the texts of two keymaps and then a script, and plays the script on them: the first is in force, and each load
/// puts the other in force. Nothing is written before the whole script was read.
pub fn play_next<R: Read, N: Read, S: Read, W: Write>(
    alloc: Global,
    show: Show,
    text: &mut R,
    next: &mut N,
    script: &mut S,
    out: &mut W,
) -> Result<(), PlayError>
    ensures run { PlaysNext show (moves (R.remaining text.old) (R.remaining text.new))
        (moves (N.remaining next.old) (N.remaining next.new))
        (moves (S.remaining script.old) (S.remaining script.new))
        (moves (W.contents out.old) (W.contents out.new)) result }
    ensures text_failed { R.has_failed text.new ≡ (blames Source.Text result || R.has_failed text.old) }
    ensures next_failed { N.has_failed next.new ≡ (blames Source.Next result || N.has_failed next.old) }
    ensures script_failed { S.has_failed script.new ≡ (blames Source.Script result || S.has_failed script.old) }
    ensures writer_failed { W.has_failed out.new ≡ (blames_writer result || W.has_failed out.old) }
{
    let first = read_text(alloc, text)?;
    let second = read_next(alloc, next)?;
    let maps = Loaded {
        first: &first,
        second: &second,
    };
    play_script(alloc, show, &maps, script, out)
}
