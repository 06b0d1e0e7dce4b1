//! play_core: scripts, and what is played of them.

use crate::support::devices::{reader_of, sheet_of};
use console_core::{Answer, Event};
use keymap_core::{KeyCode, ReadFault, WriteFault};
use keymap_text::TextFault;
use play_core::{
    PlayError, ScriptError, ScriptFault, Sent, Show, Source, What, play, play_next, read_script,
    typed,
};
use std::alloc::Global;

#[test]
fn scripts() {
    let _: fn(Global, &[u8]) -> Result<Vec<Sent>, ScriptError> = read_script;
    let _: fn(&Sent) -> Option<Event> = Sent::event;
    let (lost, what): (bool, What) = (true, What::Load);
    let _ = Sent { lost, what };
    let _: fn(KeyCode) -> What = What::Down;
    let _: fn(KeyCode) -> What = What::Repeat;
    let _: fn(KeyCode) -> What = What::Up;
    let (What::Down(_) | What::Repeat(_) | What::Up(_) | What::Reset | What::Load) = What::Load;
    let _: fn(u64) -> ScriptFault = ScriptFault::BadLine;
    let _: fn(u64) -> ScriptFault = ScriptFault::BadKey;
    let (ScriptFault::BadLine(_) | ScriptFault::BadKey(_)) = ScriptFault::BadKey(2);
    let _: fn(ScriptFault) -> ScriptError = ScriptError::Fault;
    let (ScriptError::Memory | ScriptError::Fault(_)) = ScriptError::Memory;
}

#[test]
fn errors_of_a_play() {
    let (Source::Text | Source::Next | Source::Script) = Source::Text;
    let _: fn(TextFault) -> PlayError = PlayError::Text;
    let _: fn(TextFault) -> PlayError = PlayError::Next;
    let _: fn(ScriptFault) -> PlayError = PlayError::Script;
    let _: fn(Source, ReadFault) -> PlayError = PlayError::Read;
    let _: fn(WriteFault) -> PlayError = PlayError::Write;
    match PlayError::Memory {
        PlayError::Memory | PlayError::Text(_) | PlayError::Next(_) | PlayError::Script(_) => {}
        PlayError::Read(_, _) | PlayError::Write(_) => {}
    }
}

#[test]
fn plays(rt: HostRuntime) {
    let (show, alloc) = (Show::Lines, rt.alloc());
    let (Show::Lines | Show::Typed) = show;
    let mut text = reader_of(b"", 1, usize::MAX);
    let mut next = reader_of(b"", 1, usize::MAX);
    let mut script = reader_of(b"", 1, usize::MAX);
    let mut out = sheet_of(0);
    let _: Result<(), PlayError> = play(alloc, show, &mut text, &mut script, &mut out);
    let _: Result<(), PlayError> = play_next(
        alloc,
        show,
        &mut text,
        &mut next,
        &mut script,
        &mut out,
    );
    let answers: &[Answer] = &[Answer::BackTab];
    let _: Result<(), WriteFault> = typed(answers, &mut out);
}
