//! The lines of what differs one by one, as words: without the number sign before a comment and the line feed behind it.
ghost use Rattle.std.specs.Prelude.{◌<◌, length};

use crate::diff::{begins_line, line_in, line_of, line_words};
use keymap_diff::Change;
use std::alloc::{AllocError, Global};

/// What the line of a change is of.
#[derive(Clone, Copy, Debug, PartialEq, Eq)]
pub enum Subject {
    LastSlot,
    LastAccent,
    Slot(u8),
    Accent(u8),
}

/// A line of what differs, without its line feed.
#[derive(Debug, Drop)]
pub struct ChangeLine {
    pub subject: Subject,
    pub words: Vec<u8>,
}

fn subject_of(change: &Change) -> Subject {
    match *change {
        Change::Slots { .. } => Subject::LastSlot,
        Change::Accents { .. } => Subject::LastAccent,
        Change::Cell { slot, .. } | Change::Letter { slot, .. } => Subject::Slot(slot),
        Change::Accent { accent, .. }
        | Change::Pair { accent, .. }
        | Change::ListedOtherwise { accent } => Subject::Accent(accent),
    }
}

/// The line that begins with the change at the place.
fn change_line(alloc: Global, changes: &[Change], place: usize) -> Result<ChangeLine, AllocError>
    requires { place < length changes.now }
{
    let first = &changes[place];
    let words = line_words(alloc, first, line_in(&changes[place..], line_of(first)))?;
    Ok(ChangeLine {
        subject: subject_of(first),
        words,
    })
}

/// The lines of what differs: of the last slot and the last accent, of slots, and of accents, in their order.
pub fn change_lines(alloc: Global, changes: &[Change]) -> Result<Vec<ChangeLine>, AllocError> {
    let mut lines = Vec::new(alloc);
    for place in 0..changes.len() {
        if begins_line(changes, place) {
            lines.push(change_line(alloc, changes, place)?)?;
        }
    }
    Ok(lines)
}
