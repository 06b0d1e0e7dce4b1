//! The lines of a script: one for each event, and comments.
ghost use Rattle.std.specs.Prelude.{◌≡◌, ◌+◌, ◌≤◌, ◌++◌, IsTrue, decimal, length, map, OnOk};
ghost use Rattle.std.specs.List.{flat_map};
ghost use Rattle.arrayvec.specs.ArrayVec.{array_vec_len};
ghost use Rattle.script_text.specs.Comments.{comment};
ghost use Rattle.messages.specs.Filled.{has_places};
ghost use Rattle.play_core.specs.Spelling.{event_line as event_line_of};

use arrayvec::ArrayVec;
use console_core::Event;
use itoa::Buffer;
use keymap_core::KeyCode;
use messages::fill;
use std::alloc::AllocError;

pub fn append<const N: usize>(text: &mut ArrayVec<u8, N>, piece: &[u8])
    requires { array_vec_len text.old + length piece.now ≤ N }
    ensures { text.new.items ≡ text.old.items ++ piece.now }
{
    let _ = text.try_extend_from_slice(piece);
}

/// Adds the number of a key, of at most 3 digits. They are written here, since `type` prints some lines a character.
fn append_key<const N: usize>(text: &mut ArrayVec<u8, N>, key: KeyCode)
    requires { array_vec_len text.old + 3 ≤ N }
    ensures text { text.new.items ≡ text.old.items ++ decimal key }
    ensures bound { array_vec_len text.new ≤ array_vec_len text.old + 3 }
{
    let mut buffer = Buffer::new();
    append(text, buffer.format(key.get()).as_bytes());
}

/// Adds the line that delivers the event.
pub fn append_event<const N: usize>(text: &mut ArrayVec<u8, N>, event: Event)
    requires { array_vec_len text.old + 9 ≤ N }
    ensures text { text.new.items ≡ text.old.items ++ event_line_of event }
    ensures bound { array_vec_len text.new ≤ array_vec_len text.old + 9 }
{
    match &event {
        Event::Press(key) => {
            append(text, b"down ");
            append_key(text, *key);
            append(text, b"\n");
        }
        Event::Release(key) => {
            append(text, b"up ");
            append_key(text, *key);
            append(text, b"\n");
        }
        Event::Reset => append(text, b"reset\n"),
        Event::Load => append(text, b"load\n"),
    }
}

/// How many bytes the line of an event has at most.
const LINE: usize = 16;

/// The line of a script that delivers the event.
pub fn event_line(event: Event) -> ArrayVec<u8, LINE>
    ensures { result.items ≡ event_line_of event }
{
    let mut line = ArrayVec::new();
    append_event(&mut line, event);
    line
}

/// Adds the lines of events.
pub fn push_events(text: &mut Vec<u8>, events: &[Event]) -> Result<(), AllocError>
    ensures { OnOk result (text.new.items ≡ text.old.items ++ flat_map event_line_of events.now) }
{
    for event in events {
        text.extend_from_slice(event_line(*event).as_slice())?;
    }
    Ok(())
}

/// Adds a comment: words with a text at each of their places.
pub fn push_comment(text: &mut Vec<u8>, words: &[u8], told: &[&[u8]]) -> Result<(), AllocError>
    requires { IsTrue (has_places words.now (map (λ t. t.now) told.now)) }
    ensures { OnOk result (text.new.items ≡ text.old.items ++ comment words.now (map (λ t. t.now) told.now)) }
{
    text.push(b'#')?;
    fill(text, words, told)?;
    text.push(b'\n')?;
    Ok(())
}
