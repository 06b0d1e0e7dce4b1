//! What is printed of a script that tests a console by its keyboard: how much it sees, what it leaves out, and its
//! cases.
ghost use Rattle.std.specs.Prelude.{◌≡◌, ◌++◌, true, OnOk, IfOk};
ghost use Rattle.std.specs.List.{flat_map};
ghost use Rattle.script_text.specs.Keyboard as spec;

use crate::cover::{Listing, push_accents, push_all_counts, push_script_event, slots};
use crate::diff::{first_line, push_said};
use crate::event_lines::push_comment;
use crate::keyboard_words::{case_line, head_lines};
use crate::words::{ELSE, LEFT_OUT, SAID};
use keyboard_cover::{Case, Keyboard, KeyboardCover, KeyboardScript};
use keymap_core::KeyMap;
use keymap_cover::{ScriptEvent, Verdict};
use std::alloc::{AllocError, Global};

type Added = Result<(), AllocError>;

/// A comment, and behind how many events it stands.
#[derive(Drop)]
pub struct Title {
    pub at: usize,
    pub line: Vec<u8>,
}

/// Adds the comment if it stands at the place.
fn push_title(text: &mut Vec<u8>, place: usize, title: &Title) -> Added
    ensures { OnOk result (text.new.items ≡ text.old.items ++ spec.title_line place title.now) }
{
    if title.at == place {
        push_comment(text, SAID, &[first_line(title.line.as_slice())])
    } else {
        Ok(())
    }
}

/// Adds the comments that stand at the place.
fn push_titles(text: &mut Vec<u8>, place: usize, titles: &[Title]) -> Added
    ensures { OnOk result (text.new.items ≡ text.old.items ++ flat_map (spec.title_line place) titles.now) }
{
    for title in titles {
        push_title(text, place, title)?;
    }
    Ok(())
}

/// Adds the events, each behind the comments that stand there, and those that stand at the end.
fn push_titled(text: &mut Vec<u8>, titles: &[Title], events: &[ScriptEvent]) -> Added
    ensures { OnOk result (text.new.items ≡ text.old.items ++ spec.titled_lines titles.now events.now) }
{
    for place in 0..events.len() {
        push_titles(text, place, titles)?;
        push_script_event(text, &events[place])?;
    }
    push_titles(text, events.len(), titles)
}

/// Before which event the case at the place ends.
fn end_of(script: &KeyboardScript, place: usize) -> usize {
    match script.cases.get(place.wrapping_add(1)) {
        Some(next) => next.at,
        None => script.events.len(),
    }
}

/// Whether a key is repeated by the events from one place on to before another.
fn has_repeat(events: &[ScriptEvent], first: usize, end: usize) -> bool {
    for place in first..end {
        if let Some(ScriptEvent::Repeat(_)) = events.get(place) {
            return true;
        }
    }
    false
}

/// Adds the events from one place on to before another.
fn push_between(
    kept: &mut Vec<ScriptEvent>,
    events: &[ScriptEvent],
    first: usize,
    end: usize,
) -> Added {
    for place in first..end {
        if let Some(event) = events.get(place) {
            kept.push(*event)?;
        }
    }
    Ok(())
}

/// The comments of the cases that are sent, or aren't, and the events of those that are.
#[derive(Drop)]
struct Sending {
    titles: Vec<Title>,
    events: Vec<ScriptEvent>,
}

/// Adds the case at the place, whose events are sent unless they repeat a key and no repeat is sent.
fn push_case(
    sending: &mut Sending,
    alloc: Global,
    script: &KeyboardScript,
    place: usize,
    case: &Case,
    sends_repeats: bool,
) -> Added {
    let end = end_of(script, place);
    let is_sent = sends_repeats || !has_repeat(script.events.as_slice(), case.at, end);
    let number = (place as u64).wrapping_add(1);
    sending.titles.push(Title {
        at: sending.events.len(),
        line: case_line(alloc, number, &case.what, is_sent)?,
    })?;
    if is_sent {
        push_between(&mut sending.events, script.events.as_slice(), case.at, end)?;
    }
    Ok(())
}

/// What is sent of the script.
fn sending_of(
    alloc: Global,
    script: &KeyboardScript,
    sends_repeats: bool,
) -> Result<Sending, AllocError> {
    let mut sending = Sending {
        titles: Vec::new(alloc),
        events: Vec::new(alloc),
    };
    let mut place: usize = 0;
    for case in &script.cases {
        push_case(&mut sending, alloc, script, place, case, sends_repeats)?;
        place = place.wrapping_add(1);
    }
    Ok(sending)
}

/// The events that are sent: all of the script, or, where no repeats are sent, those of some of its cases.
fn sent_events<'a>(
    script: &'a KeyboardScript,
    sending: &'a Sending,
    sends_repeats: bool,
) -> &'a [ScriptEvent]
    ensures { sends_repeats ≡ true → result.now ≡ script.now.events.items }
{
    if sends_repeats {
        script.events.as_slice()
    } else {
        sending.events.as_slice()
    }
}

/// Adds how much the script sees, and what it leaves out.
fn push_seen<'a>(
    text: &mut Vec<u8>,
    alloc: Global,
    map: &'a KeyMap,
    cover: &'a KeyboardCover,
) -> Added
    ensures { OnOk result (spec.AddsSeen map.now cover.now text.old.items text.new.items) }
{
    let verdicts = cover.verdicts();
    push_all_counts(text, alloc, map, &verdicts, ELSE)?;
    let left_out = Listing {
        verdicts,
        map,
        listed: Verdict::LeftOut,
        word: LEFT_OUT,
    };
    let slots_left_out = slots(alloc, &left_out)?;
    text.extend_from_slice(slots_left_out.as_slice())?;
    push_accents(text, alloc, &left_out)?;
    Ok(())
}

/// What is printed of the script of a keymap by a keyboard. Where no repeats are sent, cases with one are left out.
pub fn keyboard_text(
    alloc: Global,
    map: &KeyMap,
    keyboard: &Keyboard,
    cover: &KeyboardCover,
    sends_repeats: bool,
) -> Result<Vec<u8>, AllocError>
    ensures { IfOk result (λ text. spec.IsKeyboardText map.now cover.now sends_repeats text.items) }
{
    let mut text = Vec::new(alloc);
    let told = head_lines(alloc, map, keyboard)?;
    push_said(&mut text, told.as_slice())?;
    push_seen(&mut text, alloc, map, cover)?;
    let sending = sending_of(alloc, &cover.script, sends_repeats)?;
    let events = sent_events(&cover.script, &sending, sends_repeats);
    push_titled(&mut text, sending.titles.as_slice(), events)?;
    Ok(text)
}
