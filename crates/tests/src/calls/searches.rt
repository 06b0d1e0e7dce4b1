//! The calls on what a search of console_states met.

use crate::calls::devices::mark;
use crate::calls::inputs::{Call, Lent};
use crate::calls::outcome::{Outcome, ended, ended_keeping};
use console_states::{End, Held, Keymaps, go_out, meet_all, sights_in};
use keymap_core::Write;
use std::alloc::{AllocError, Global};

fn meets_all<W: Write>(alloc: Global, lent: &Lent, marks: &mut W) -> Outcome {
    let maps = Keymaps::alone(&lent.map);
    mark(marks);
    let given = meet_all(alloc, &maps, &Held::start());
    mark(marks);
    ended_keeping(
        &given,
        matches!(&given, Ok((met, End::Complete)) if met.len() > 1),
        lent.is_kept(),
    )
}

/// What is seen in the states that were met, if these are all.
fn tells_what_is_seen<W: Write>(
    alloc: Global,
    lent: &Lent,
    marks: &mut W,
) -> Result<Option<Outcome>, AllocError> {
    let maps = Keymaps::alone(&lent.map);
    let (met, end) = meet_all(alloc, &maps, &Held::start())?;
    let End::Complete = end else {
        return Ok(None);
    };
    mark(marks);
    let given = sights_in(alloc, &met, &maps);
    mark(marks);
    Ok(Some(ended(
        &given,
        matches!(&given, Ok(sights) if !sights.offers.is_empty()),
    )))
}

/// The events to the second state that was met.
fn tells_the_way<W: Write>(
    alloc: Global,
    lent: &Lent,
    marks: &mut W,
) -> Result<Option<Outcome>, AllocError> {
    let maps = Keymaps::alone(&lent.map);
    let (met, _) = meet_all(alloc, &maps, &Held::start())?;
    if met.len() < 2 {
        return Ok(None);
    }
    let mut events = Vec::new(alloc);
    mark(marks);
    let given = go_out(&mut events, alloc, &met, 1);
    mark(marks);
    Ok(Some(ended(&given, given.is_err() || !events.is_empty())))
}

/// Makes a call on what a search met. There is none where no such call has the name.
pub(crate) fn of_searches<W: Write>(
    call: &Call<'_>,
    marks: &mut W,
) -> Result<Option<Outcome>, AllocError> {
    let Call { alloc, sample, .. } = *call;
    match call.name {
        "meet_all" => Ok(Some(meets_all(alloc, sample, marks))),
        "sights_in" => tells_what_is_seen(alloc, sample, marks),
        "go_out" => tells_the_way(alloc, sample, marks),
        _ => Ok(None),
    }
}
