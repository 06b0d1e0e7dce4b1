//! The calls of console_core, console_states and console_scripts, and of keymap_cover, keyboard_cover, keymap_diff and
//! keymap_consequences, which stand on them.
use crate::calls::devices::mark;
use crate::calls::inputs::{Call, Lent};
use crate::calls::outcome::{Outcome, ended, ended_keeping};
use console_core::{Event, PlainConsole, Translator, WordConsole, replay};
use console_scripts::{
    Explorer, Typist, find_onward, scroll_off, type_characters, ways_of, yield_of,
};
use console_states::{
    Keymaps, Presses, Sight, Sticking, few_states, has_few_states, sights_of, some_sights,
    sticking, sticking_between,
};
use keyboard::Board;
use keyboard_cover::{GROUP_COUNT, Keyboard, allowed_sights, keyboard_cover_of, presses_of};
use keymap_consequences::consequences_of;
use keymap_core::{KeyCode, Lock, Modifier, Write};
use keymap_cover::{Seen, cells, cover_of, lock_settings};
use keymap_diff::{Telling, differences, telling_apart};
use std::alloc::{AllocError, Global};

/// Makes a call on a keymap and its consoles. There is none where no such call has the name.
pub(crate) fn of_keymaps<W: Write>(call: &Call<'_>, marks: &mut W) -> Option<Outcome> {
    let Call {
        alloc,
        sample,
        trap,
        ..
    } = *call;
    let outcome = match call.name {
        "replay-plain" => replays_plainly(alloc, sample, marks),
        "replay-word" => replays_in_a_word(alloc, sample, marks),
        "sticking" => searches(alloc, trap, marks),
        "sticking_between" => searches_between(alloc, trap, sample, marks),
        "has_few_states" => asks_for_states(alloc, sample, marks),
        "few_states" => finds_few_states(alloc, sample, marks),
        "sights_of" => finds_sights(alloc, sample, marks),
        "some_sights" => finds_some_sights(alloc, sample, marks),
        "Explorer::new" => explores(alloc, sample, marks),
        "find_onward" => goes_onward(alloc, sample, marks),
        "scroll_off" => turns_scroll_off(alloc, sample, marks),
        "type_characters" => types_characters(alloc, sample, marks),
        "ways_of" => tells_ways(alloc, sample, marks),
        "Typist::new" => tells_typing(alloc, sample, marks),
        "yield_of" => tells_yield(alloc, sample, marks),
        "cover_of" => covers(alloc, sample, marks),
        "Seen::new" => sees_nothing(alloc, marks),
        "cells" => lists_cells(alloc, marks),
        "lock_settings" => lists_lock_settings(alloc, marks),
        "allowed_sights" => finds_allowed_sights(alloc, sample, marks),
        "keyboard_cover_of" => covers_by_keyboard(alloc, sample, marks),
        "differences" => compares(alloc, trap, sample, marks),
        "consequences_of" => tells_consequences(alloc, trap, sample, marks),
        "telling_apart" => tells_apart(alloc, trap, sample, marks),
        _ => return None,
    };
    Some(outcome)
}

/// Makes a call on the explorer of a keymap. There is none where no such call has the name.
pub(crate) fn of_explorer<W: Write>(
    call: &Call<'_>,
    marks: &mut W,
) -> Result<Option<Outcome>, AllocError> {
    match Explorer::new(call.alloc, &call.sample.map)? {
        Some(explorer) => Ok(explored(call, &explorer, marks)),
        None => Ok(None),
    }
}

fn explored<W: Write>(call: &Call<'_>, explorer: &Explorer<'_>, marks: &mut W) -> Option<Outcome> {
    let alloc = call.alloc;
    match call.name {
        "Explorer::sights" => Some(tells_sights(alloc, explorer, marks)),
        "Explorer::visit" => Some(visits(alloc, call.sample, explorer, marks)),
        "Explorer::events_to" => Some(goes_out(alloc, explorer, marks)),
        "Explorer::events_home" => Some(comes_home(alloc, call.sample, explorer, marks)),
        _ => None,
    }
}

/// The key with this code is pressed.
fn press(code: u8) -> Event {
    match KeyCode::new(code) {
        Some(key) => Event::Press(key),
        None => Event::Reset,
    }
}

/// Whether two consoles show the same, and answer the same to each of the events.
fn agree<T: Translator>(one: &mut T, other: &mut T, events: &[Event]) -> bool {
    for event in events {
        let shown = one.on(Modifier::LeftShift) == other.on(Modifier::LeftShift)
            && one.locked(Lock::Caps) == other.locked(Lock::Caps)
            && one.pending() == other.pending();
        if !shown || one.step(*event) != other.step(*event) {
            return false;
        }
    }
    true
}

/// Replays events on the first of two new consoles, after a few on both. Where memory is refused, the first one goes on
/// as the other does, which was lent to nobody.
fn replays<T: Translator, W: Write>(
    alloc: Global,
    console: &mut T,
    twin: &mut T,
    marks: &mut W,
) -> Outcome {
    for code in [42, 58, 26] {
        console.step(press(code));
        twin.step(press(code));
    }
    let events = [press(58), press(30), press(26)];
    mark(marks);
    let given = replay(alloc, console, &events);
    mark(marks);
    let kept = given.is_ok() || agree(console, twin, &events);
    let is_right = matches!(&given, Ok(answers) if answers.len() == 3);
    ended_keeping(&given, is_right, kept)
}

fn replays_plainly<W: Write>(alloc: Global, lent: &Lent, marks: &mut W) -> Outcome {
    let mut console = PlainConsole::new(&lent.map);
    let mut twin = PlainConsole::new(&lent.map);
    replays(alloc, &mut console, &mut twin, marks)
}

fn replays_in_a_word<W: Write>(alloc: Global, lent: &Lent, marks: &mut W) -> Outcome {
    let mut console = WordConsole::new(&lent.map);
    let mut twin = WordConsole::new(&lent.map);
    replays(alloc, &mut console, &mut twin, marks)
}

fn sticks(given: &Result<Sticking, AllocError>) -> bool {
    matches!(given, Ok(Sticking::Sticks { events, .. }) if !events.is_empty())
}

fn asks_for_states<W: Write>(alloc: Global, lent: &Lent, marks: &mut W) -> Outcome {
    mark(marks);
    let given = has_few_states(alloc, &lent.map);
    mark(marks);
    ended_keeping(&given, given == Ok(true), lent.is_kept())
}

fn finds_few_states<W: Write>(alloc: Global, lent: &Lent, marks: &mut W) -> Outcome {
    mark(marks);
    let given = few_states(alloc, &Keymaps::alone(&lent.map));
    mark(marks);
    let is_right = matches!(&given, Ok(states) if states.len() > 1);
    ended_keeping(&given, is_right, lent.is_kept())
}

fn searches<W: Write>(alloc: Global, lent: &Lent, marks: &mut W) -> Outcome {
    mark(marks);
    let given = sticking(alloc, &lent.map);
    mark(marks);
    ended_keeping(&given, sticks(&given), lent.is_kept())
}

fn searches_between<W: Write>(alloc: Global, lent: &Lent, next: &Lent, marks: &mut W) -> Outcome {
    mark(marks);
    let given = sticking_between(alloc, &lent.map, &next.map);
    mark(marks);
    ended_keeping(&given, sticks(&given), lent.is_kept())
}

fn finds_sights<W: Write>(alloc: Global, lent: &Lent, marks: &mut W) -> Outcome {
    mark(marks);
    let given = sights_of(alloc, &lent.map);
    mark(marks);
    ended_keeping(&given, matches!(&given, Ok(Some(_))), lent.is_kept())
}

fn finds_some_sights<W: Write>(alloc: Global, lent: &Lent, marks: &mut W) -> Outcome {
    mark(marks);
    let given = some_sights(alloc, &lent.map);
    mark(marks);
    let is_right = matches!(&given, Ok(sights) if !sights.selections.is_empty());
    ended_keeping(&given, is_right, lent.is_kept())
}

fn types_characters<W: Write>(alloc: Global, lent: &Lent, marks: &mut W) -> Outcome {
    mark(marks);
    let given = type_characters(alloc, &lent.map, Board::Iso, &['a', 'é', 'a', 'A', 'é']);
    mark(marks);
    let is_right = matches!(&given, Ok(typing) if typing.keyed.len() == 5);
    ended_keeping(&given, is_right, lent.is_kept())
}

fn tells_ways<W: Write>(alloc: Global, lent: &Lent, marks: &mut W) -> Outcome {
    mark(marks);
    let given = ways_of(alloc, &lent.map, Board::Iso, 'é');
    mark(marks);
    let is_right = matches!(&given, Ok(ways) if !ways.is_empty());
    ended_keeping(&given, is_right, lent.is_kept())
}

fn tells_typing<W: Write>(alloc: Global, lent: &Lent, marks: &mut W) -> Outcome {
    mark(marks);
    let given = Typist::new(alloc, &lent.map);
    mark(marks);
    let is_right = match &given {
        Ok(typist) => { typist.can_type('é') == Some(true) && typist.can_type('ß') == Some(false) }
        Err(_) => false,
    };
    ended_keeping(&given, is_right, lent.is_kept())
}

fn tells_yield<W: Write>(alloc: Global, lent: &Lent, marks: &mut W) -> Outcome {
    mark(marks);
    let given = yield_of(alloc, &lent.map);
    mark(marks);
    let is_right =
        matches!(&given, Ok(Some(of)) if of.typed.contains(&'é') && !of.typed.contains(&'ß'));
    ended_keeping(&given, is_right, lent.is_kept())
}

fn explores<W: Write>(alloc: Global, lent: &Lent, marks: &mut W) -> Outcome {
    mark(marks);
    let given = Explorer::new(alloc, &lent.map);
    mark(marks);
    ended_keeping(&given, matches!(&given, Ok(Some(_))), lent.is_kept())
}

fn tells_sights<W: Write>(alloc: Global, explorer: &Explorer<'_>, marks: &mut W) -> Outcome {
    mark(marks);
    let given = explorer.sights(alloc);
    mark(marks);
    ended(
        &given,
        matches!(&given, Ok(sights) if !sights.offers.is_empty()),
    )
}

/// Whether a call gave a list with events.
fn has_events(given: &Result<Vec<Event>, AllocError>) -> bool {
    matches!(given, Ok(events) if !events.is_empty())
}

/// A visit that composes an accent with a letter.
fn visits<W: Write>(alloc: Global, lent: &Lent, explorer: &Explorer<'_>, marks: &mut W) -> Outcome {
    let pair = Sight::Pair {
        accent: 1,
        character: 'e',
    };
    let console = PlainConsole::new(&lent.map);
    mark(marks);
    let given = explorer.visit(alloc, &console, pair, |_, _| true);
    mark(marks);
    ended(
        &given,
        matches!(&given, Ok(Some(events)) if !events.is_empty()),
    )
}

fn goes_out<W: Write>(alloc: Global, explorer: &Explorer<'_>, marks: &mut W) -> Outcome {
    mark(marks);
    let given = explorer.events_to(alloc, 1);
    mark(marks);
    ended(&given, has_events(&given))
}

/// The events home from where a console stands with one lock on.
fn comes_home<W: Write>(
    alloc: Global,
    lent: &Lent,
    explorer: &Explorer<'_>,
    marks: &mut W,
) -> Outcome {
    let mut console = PlainConsole::new(&lent.map);
    let _ = console.step(press(58));
    let _ = console.step(Event::Reset);
    mark(marks);
    let given = explorer.events_home(alloc, &console);
    mark(marks);
    ended(&given, has_events(&given))
}

fn goes_onward<W: Write>(alloc: Global, lent: &Lent, marks: &mut W) -> Outcome {
    let cell = Sight::Cell {
        slot: 18,
        column: 1,
    };
    let console = PlainConsole::new(&lent.map);
    mark(marks);
    let given = find_onward(alloc, &lent.map, &console, &[cell], |_, _| true);
    mark(marks);
    ended(&given, matches!(&given, Ok(Some(_))))
}

fn turns_scroll_off<W: Write>(alloc: Global, lent: &Lent, marks: &mut W) -> Outcome {
    let console = PlainConsole::new(&lent.map);
    mark(marks);
    let given = scroll_off(alloc, &lent.map, &console);
    mark(marks);
    ended(&given, matches!(&given, Ok(Some(_))))
}

fn covers<W: Write>(alloc: Global, lent: &Lent, marks: &mut W) -> Outcome {
    mark(marks);
    let given = cover_of(alloc, &lent.map);
    mark(marks);
    ended_keeping(&given, matches!(&given, Ok(Some(_))), lent.is_kept())
}

/// All presses of a board but those of actions that end or leave the console, or type what no keymap says.
fn presses() -> Presses {
    presses_of(&Keyboard {
        board: Board::Iso,
        groups: [false; GROUP_COUNT],
    })
}

fn finds_allowed_sights<W: Write>(alloc: Global, lent: &Lent, marks: &mut W) -> Outcome {
    let presses = presses();
    mark(marks);
    let given = allowed_sights(alloc, &lent.map, &presses);
    mark(marks);
    ended_keeping(&given, matches!(&given, Ok(Some(_))), lent.is_kept())
}

fn covers_by_keyboard<W: Write>(alloc: Global, lent: &Lent, marks: &mut W) -> Outcome {
    let presses = presses();
    mark(marks);
    let given = keyboard_cover_of(alloc, &lent.map, &presses);
    mark(marks);
    ended_keeping(&given, matches!(&given, Ok(Some(_))), lent.is_kept())
}

fn sees_nothing<W: Write>(alloc: Global, marks: &mut W) -> Outcome {
    mark(marks);
    let given = Seen::new(alloc);
    mark(marks);
    ended(&given, matches!(&given, Ok(seen) if seen.pairs.is_empty()))
}

fn lists_cells<W: Write>(alloc: Global, marks: &mut W) -> Outcome {
    mark(marks);
    let given = cells(alloc);
    mark(marks);
    ended(&given, matches!(&given, Ok(sights) if sights.len() == 2048))
}

fn lists_lock_settings<W: Write>(alloc: Global, marks: &mut W) -> Outcome {
    mark(marks);
    let given = lock_settings(alloc);
    mark(marks);
    ended(&given, matches!(&given, Ok(sights) if sights.len() == 1024))
}

fn compares<W: Write>(alloc: Global, lent: &Lent, next: &Lent, marks: &mut W) -> Outcome {
    mark(marks);
    let given = differences(alloc, &lent.map, &next.map);
    mark(marks);
    ended_keeping(
        &given,
        matches!(&given, Ok(found) if !found.is_empty()),
        lent.is_kept(),
    )
}

fn tells_consequences<W: Write>(alloc: Global, lent: &Lent, next: &Lent, marks: &mut W) -> Outcome {
    mark(marks);
    let given = consequences_of(alloc, &lent.map, &next.map);
    mark(marks);
    let is_right = matches!(&given, Ok(of) if of.refused_no_longer.len() == 1 && of.taps.is_some());
    ended_keeping(&given, is_right, lent.is_kept())
}

fn tells_apart<W: Write>(alloc: Global, lent: &Lent, next: &Lent, marks: &mut W) -> Outcome {
    mark(marks);
    let given = telling_apart(alloc, &lent.map, &next.map);
    mark(marks);
    ended_keeping(
        &given,
        matches!(&given, Ok(Telling::Told { .. })),
        lent.is_kept(),
    )
}
