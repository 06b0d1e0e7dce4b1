//! The script that types a sentence.
ghost use Rattle.std.specs.Prelude.{◌≡◌, ◌++◌, true, length, OnOk, IfOk};
ghost use Rattle.console_scripts.specs.Typing.{AreEnds, characters_of};
ghost use Rattle.kmap_runs.specs.Typing as spec;

use crate::words::SENTENCE;
use console_core::Event;
use console_scripts::{Keyed, Typing};
use keymap_core::{code_text, is_unseen};
use messages::parted;
use script_text::push_events;
use std::alloc::{AllocError, Global};

/// Adds a character as it is, or its number where a terminal wouldn't show it.
#[tactic(auto, unfolding(crate::specs::Typing::shown))]
fn push_shown(text: &mut Vec<u8>, c: char) -> Result<(), AllocError>
    ensures { OnOk result (text.new.items ≡ text.old.items ++ spec.shown c) }
{
    if is_unseen(c) {
        text.extend_from_slice(code_text(c).as_slice())
    } else {
        let mut bytes = [0; 4];
        text.extend_from_slice(c.encode_utf8(&mut bytes).as_bytes())
    }
}

/// Adds what is shown of the first line of the characters.
fn push_line(text: &mut Vec<u8>, keyed: &[Keyed]) -> Result<(), AllocError>
    ensures { OnOk result (text.new.items ≡ text.old.items ++ spec.line_shown (characters_of keyed.now)) }
{
    for one in keyed {
        if one.character == '\n' {
            return Ok(());
        }
        push_shown(text, one.character)?;
    }
    Ok(())
}

/// Adds a comment that shows the first line of the characters.
#[tactic(auto, using(std::proofs::Common::append_assoc), unfolding(messages::specs::Filled::filled))]
fn push_sentence_line(text: &mut Vec<u8>, keyed: &[Keyed]) -> Result<(), AllocError>
    ensures { OnOk result (text.new.items ≡ text.old.items ++ spec.sentence_line keyed.now) }
{
    let (before, behind) = parted(SENTENCE);
    text.push(b'#')?;
    text.extend_from_slice(before)?;
    push_line(text, keyed)?;
    text.extend_from_slice(behind)?;
    text.push(b'\n')?;
    Ok(())
}

/// Adds a comment that shows the first line of the characters, where it is asked for.
fn push_comment_if(text: &mut Vec<u8>, starts: bool, keyed: &[Keyed]) -> Result<(), AllocError>
    ensures { OnOk result (text.new.items ≡ text.old.items ++ spec.comment_if starts keyed.now) }
{
    if starts {
        push_sentence_line(text, keyed)
    } else {
        Ok(())
    }
}

/// Adds the lines of the events of the characters, and before those of each line of the sentence a comment that shows
/// it; then those of the events behind the last character.
fn push_keyed(text: &mut Vec<u8>, keyed: &[Keyed], events: &[Event]) -> Result<(), AllocError>
    requires { AreEnds 0 keyed.now (length events.now) }
    ensures { OnOk result (text.new.items ≡ text.old.items ++ spec.lines_from true 0 events.now keyed.now) }
{
    let mut starts = true;
    let mut from = 0;
    let mut i = 0;
    while i < keyed.len() {
        push_comment_if(text, starts, &keyed[i..])?;
        let one = keyed[i];
        push_events(text, &events[from..one.end])?;
        starts = one.character == '\n';
        from = one.end;
        i += 1;
    }
    push_events(text, &events[from..])?;
    Ok(())
}

/// The script that types the characters.
pub(crate) fn typing_script(alloc: Global, typing: &Typing) -> Result<Vec<u8>, AllocError>
    requires { AreEnds 0 typing.now.keyed.items (length typing.now.events.items) }
    ensures { IfOk result (λ text. text.items ≡ spec.typing_script typing.now) }
{
    let mut text = Vec::new(alloc);
    push_keyed(&mut text, &typing.keyed, &typing.events)?;
    Ok(text)
}
