//! What differs between two keymaps, and what tells them apart, as a script that `kmap play` reads with either.
ghost use Rattle.std.specs.Prelude.{◌≡◌, ◌==◌, ◌&&◌, ◌<◌, ◌≤◌, ◌∷◌, ◌++◌, [], length, reverse, position, decimal};
ghost use Rattle.std.specs.Prelude.{IfOk, IfSome, IsTrue, OnOk, if◌then◌else◌};
ghost use Rattle.std.specs.List.{before_first, flat_map, list_all, list_any};
ghost use Rattle.console_core.specs.History.{pressed};
ghost use Rattle.messages.specs.Filled.{has_places};
ghost use Rattle.play_core.specs.Spelling.{sent_line};
ghost use Rattle.script_text.specs.Comments.{first_line as first_line_of, said_lines};
ghost use Rattle.script_text.specs.Diff as spec;

use crate::consequences::consequence_lines;
use crate::event_lines::{event_line, push_comment};
use crate::words::{
    ACCENT_DIFFERS, ACCENTS_DIFFER, ALL_COLUMNS, BACK_TAB, CHANGED, COMMA, DIFFER, ERROR, ITEM,
    LAST_ACCENT, LAST_SLOT, LINE, LISTED_OTHERWISE, LOCK, META_CHARACTER, NEVER_TOLD, NONE,
    NOT_TOLD, OWN, RELEASED, REPEAT, SAID, SAME, SLOT, SLOT_DIFFERS, SLOTS_DIFFER, TOLD, UNSEEN,
    UNTOLD,
};
use arrayvec::ArrayVec;
use console_core::{Answer, Event};
use keymap_consequences::Consequences;
use keymap_core::{COLUMN_COUNT, Cell, KeyCode};
use keymap_diff::{Change, Telling};
use keymap_names::{accent_name, column_name, readable};
use keymap_text::flag_letter;
use messages::{either, fill, filled, number, small};
use std::alloc::{AllocError, Global};

type Added = Result<(), AllocError>;

/// What something is in one of the keymaps.
type Value = ArrayVec<u8, 20>;

fn value(text: &[u8]) -> Value
    requires { length text.now ≤ 20 }
    ensures { result.items ≡ text.now }
{
    let mut value = Value::new();
    let _ = value.try_extend_from_slice(text);
    value
}

fn cell_value(cell: Cell) -> Value
    ensures { result.items ≡ spec.cell_told cell }
{
    match cell {
        Cell::Char(c) => value(readable(c).as_slice()),
        Cell::Act(action) => value(action.name().as_slice()),
    }
}

/// What an accent makes of a base, if it takes it.
fn made_value(made: Option<char>) -> Value
    ensures { result.items ≡ spec.made_text made }
{
    match made {
        Some(c) => value(readable(c).as_slice()),
        None => value(NONE),
    }
}

/// An accent's own character, if it has one.
fn own_value(own: char) -> Value
    ensures { result.items ≡ spec.own_text own }
{
    if own == '\0' {
        value(NONE)
    } else {
        value(readable(own).as_slice())
    }
}

/// The last of so many slots.
fn last_slot(count: u16) -> Value
    ensures { result.items ≡ spec.last_slot count }
{
    if count == 0 {
        value(NONE)
    } else {
        number(u64::from(count - 1))
    }
}

/// The last of so many accents.
fn last_accent(count: u8) -> Value
    ensures { result.items ≡ spec.last_accent count }
{
    if count == 0 {
        value(NONE)
    } else {
        value(accent_name(count - 1).as_slice())
    }
}

/// What it is in the old keymap, and what in the new one.
fn values(change: &Change) -> (Value, Value)
    ensures { (result.0.items, result.1.items) ≡ spec.values_of change.now }
{
    match *change {
        Change::Slots { old, new } => (last_slot(old), last_slot(new)),
        Change::Cell { old, new, .. } => (cell_value(old), cell_value(new)),
        Change::Letter { old, new, .. } => (value(&[flag_letter(old)]), value(&[flag_letter(new)])),
        Change::Accents { old, new } => (last_accent(old), last_accent(new)),
        Change::Accent { old, new, .. } => (own_value(old), own_value(new)),
        Change::Pair { old, new, .. } => (made_value(old), made_value(new)),
        Change::ListedOtherwise { .. } => (Value::new(), Value::new()),
    }
}

fn changed(alloc: Global, change: &Change) -> Result<Vec<u8>, AllocError>
    ensures { IfOk result (λ text. text.items ≡ spec.changed_text change.now) }
{
    let (old, new) = values(change);
    filled(alloc, CHANGED, &[old.as_slice(), new.as_slice()])
}

/// Whether no press meets what changes.
fn is_unseen(change: &Change) -> bool
    ensures { result ≡ spec.is_unseen change.now }
{
    match *change {
        Change::Cell { is_unseen, .. }
        | Change::Letter { is_unseen, .. }
        | Change::Accent { is_unseen, .. }
        | Change::Pair { is_unseen, .. } => is_unseen,
        _ => false,
    }
}

/// The number of a change's line: of those of the last slot and the last accent, and of the 256 slots and 15 accents.
pub(crate) fn line_of(change: &Change) -> u16
    ensures { result ≡ spec.line_of change.now }
{
    match *change {
        Change::Slots { .. } => 0,
        Change::Accents { .. } => 1,
        Change::Cell { slot, .. } | Change::Letter { slot, .. } => 2 + u16::from(slot),
        Change::Accent { accent, .. }
        | Change::Pair { accent, .. }
        | Change::ListedOtherwise { accent } => 258 + u16::from(accent),
    }
}

/// What begins the line of a change.
fn title(alloc: Global, change: &Change) -> Result<Vec<u8>, AllocError>
    ensures { IfOk result (λ text. text.items ≡ spec.title_of change.now) }
{
    match *change {
        Change::Slots { .. } => filled(alloc, LAST_SLOT, &[changed(alloc, change)?.as_slice()]),
        Change::Accents { .. } => filled(alloc, LAST_ACCENT, &[changed(alloc, change)?.as_slice()]),
        Change::Cell { slot, .. } | Change::Letter { slot, .. } => {
            filled(alloc, SLOT, &[number(u64::from(slot)).as_slice()])
        }
        Change::Accent { accent, .. }
        | Change::Pair { accent, .. }
        | Change::ListedOtherwise { accent } => {
            Vec::from_slice(alloc, accent_name(accent).as_slice())
        }
    }
}

/// Whether two cells change alike, and are both met or both not.
fn are_alike(change: &Change, other: &Change) -> bool
    ensures { result ≡ spec.are_alike change.now other.now }
{
    match (*change, *other) {
        (
            Change::Cell {
                old,
                new,
                is_unseen,
                ..
            },
            Change::Cell {
                old: other_old,
                new: other_new,
                is_unseen: is_other_unseen,
                ..
            },
        ) => old == other_old && new == other_new && is_unseen == is_other_unseen,
        _ => false,
    }
}

/// The columns of a line's cells that change like this one.
fn columns_like(alloc: Global, line: &[Change], change: &Change) -> Result<Vec<u8>, AllocError>
    ensures { IfOk result (λ columns. columns.items ≡ spec.columns_like line.now change.now) }
{
    let mut columns = Vec::new(alloc);
    for other in line {
        match *other {
            Change::Cell { column, .. } if are_alike(change, other) => columns.push(column)?,
            _ => {}
        }
    }
    Ok(columns)
}

fn push_column(text: &mut Vec<u8>, columns: &[u8], place: usize) -> Added
    requires { place < length columns.now }
    ensures { OnOk result (text.new.items ≡ text.old.items ++ spec.listed_column columns.now place) }
{
    text.extend_from_slice(either(place == 0, b"", COMMA))?;
    text.extend_from_slice(column_name(usize::from(columns[place])))
}

fn columns_text(alloc: Global, columns: &[u8]) -> Result<Vec<u8>, AllocError>
    ensures { IfOk result (λ text. text.items ≡ spec.columns_text columns.now) }
{
    if columns.len() == COLUMN_COUNT {
        return Vec::from_slice(alloc, ALL_COLUMNS);
    }
    let mut text = Vec::new(alloc);
    for place in 0..columns.len() {
        push_column(&mut text, columns, place)?;
    }
    Ok(text)
}

/// What of its slot or accent changes.
fn part(alloc: Global, line: &[Change], change: &Change) -> Result<Vec<u8>, AllocError>
    ensures { IfOk result (λ text. text.items ≡ spec.part_of line.now change.now) }
{
    match *change {
        Change::Cell { .. } => columns_text(alloc, &columns_like(alloc, line, change)?),
        Change::Letter { .. } => Vec::from_slice(alloc, LOCK),
        Change::Accent { .. } => Vec::from_slice(alloc, OWN),
        Change::Pair { base, .. } => Vec::from_slice(alloc, readable(base).as_slice()),
        _ => Ok(Vec::new(alloc)),
    }
}

/// Adds what is told of a change, marked as unseen or not.
fn push_told(
    text: &mut Vec<u8>,
    alloc: Global,
    line: &[Change],
    change: &Change,
    is_marked: bool,
) -> Added
    ensures { OnOk result (text.new.items ≡ text.old.items ++ spec.told_text is_marked line.now change.now) }
{
    let part = part(alloc, line, change)?;
    let changed = changed(alloc, change)?;
    let unseen = either(is_marked, UNSEEN, b"");
    fill(text, ITEM, &[part.as_slice(), changed.as_slice(), unseen])
}

/// Adds an item of a line, in which all is unseen or not.
fn push_item(
    text: &mut Vec<u8>,
    alloc: Global,
    line: &[Change],
    change: &Change,
    are_unseen: bool,
) -> Added
    ensures { OnOk result (text.new.items ≡ text.old.items ++ spec.item_text are_unseen line.now change.now) }
{
    match change {
        Change::Slots { .. } | Change::Accents { .. } => Ok(()),
        Change::ListedOtherwise { .. } => text.extend_from_slice(LISTED_OTHERWISE),
        Change::Cell { is_unseen, .. }
        | Change::Letter { is_unseen, .. }
        | Change::Accent { is_unseen, .. }
        | Change::Pair { is_unseen, .. } => {
            let is_marked = *is_unseen & !are_unseen;
            push_told(text, alloc, line, change, is_marked)
        }
    }
}

/// Whether one of these changes alike.
fn is_told_in(changes: &[Change], change: &Change) -> bool
    ensures { result ≡ list_any (spec.are_alike change.now) changes.now }
{
    changes.iter().any(|other| are_alike(change, other))
}

/// Adds the item of the change at a place, unless it stands with one before it.
fn push_item_at(
    text: &mut Vec<u8>,
    alloc: Global,
    line: &[Change],
    place: usize,
    are_unseen: bool,
) -> Added
    requires { place < length line.now }
    ensures { OnOk result (text.new.items ≡ text.old.items ++ spec.item_at are_unseen line.now place) }
{
    let change = &line[place];
    if is_told_in(&line[..place], change) {
        Ok(())
    } else {
        push_item(text, alloc, line, change, are_unseen)
    }
}

fn items(alloc: Global, line: &[Change], are_unseen: bool) -> Result<Vec<u8>, AllocError>
    ensures { IfOk result (λ text. text.items ≡ spec.items_text are_unseen line.now) }
{
    let mut text = Vec::new(alloc);
    for place in 0..line.len() {
        push_item_at(&mut text, alloc, line, place, are_unseen)?;
    }
    Ok(text)
}

/// Whether no press meets any of it.
fn are_unseen(line: &[Change]) -> bool
    ensures { result ≡ list_all spec.is_unseen line.now }
{
    line.iter().all(|change| is_unseen(change))
}

/// The line of such changes, the first of which is this one.
pub(crate) fn line_words(
    alloc: Global,
    first: &Change,
    line: &[Change],
) -> Result<Vec<u8>, AllocError>
    ensures { IfOk result (λ text. text.items ≡ spec.line_words first.now line.now) }
{
    let are_unseen = are_unseen(line);
    let title = title(alloc, first)?;
    let items = items(alloc, line, are_unseen)?;
    let unseen = either(are_unseen, UNSEEN, b"");
    filled(alloc, LINE, &[title.as_slice(), unseen, items.as_slice()])
}

/// Adds it as a comment.
fn push_line(text: &mut Vec<u8>, alloc: Global, first: &Change, line: &[Change]) -> Added
    ensures { OnOk result (text.new.items ≡ text.old.items ++ spec.line_text first.now line.now) }
{
    let words = line_words(alloc, first, line)?;
    push_comment(text, SAID, &[words.as_slice()])
}

/// Whether the change at the place isn't of the line of the one before it.
pub(crate) fn begins_line(changes: &[Change], place: usize) -> bool
    requires { place < length changes.now }
    ensures { result ≡ spec.begins_line changes.now place }
{
    place == 0 || line_of(&changes[place - 1]) != line_of(&changes[place])
}

/// Where the first change stands that isn't of the line.
fn line_end(changes: &[Change], line: u16) -> Option<usize>
    ensures place { result ≡ position (spec.is_elsewhere line) changes.now }
    ensures bound { IfSome result (λ i. i < length changes.now) }
{
    changes.iter().position(|change| line_of(change) != line)
}

/// The changes in front that are of the line.
pub(crate) fn line_in(changes: &[Change], line: u16) -> &[Change]
    ensures { result.now ≡ before_first (spec.is_elsewhere line) changes.now }
{
    match line_end(changes, line) {
        Some(end) => &changes[..end],
        None => changes,
    }
}

/// Adds the line that begins with the change at the place, if one does.
fn push_line_at(text: &mut Vec<u8>, alloc: Global, changes: &[Change], place: usize) -> Added
    requires { place < length changes.now }
    ensures { OnOk result (text.new.items ≡ text.old.items ++ spec.line_at changes.now place) }
{
    if !begins_line(changes, place) {
        return Ok(());
    }
    let first = &changes[place];
    push_line(
        text,
        alloc,
        first,
        line_in(&changes[place..], line_of(first)),
    )
}

fn push_lines(text: &mut Vec<u8>, alloc: Global, changes: &[Change]) -> Added
    ensures { OnOk result (text.new.items ≡ text.old.items ++ spec.lines_text changes.now) }
{
    for place in 0..changes.len() {
        push_line_at(text, alloc, changes, place)?;
    }
    Ok(())
}

/// An answer, its character as a reader knows it.
#[tactic(auto, unfolding(crate::specs::Diff::answer_told, messages::specs::Filled::filled))]
fn answer_text(alloc: Global, answer: Answer) -> Result<Vec<u8>, AllocError>
    ensures { IfOk result (λ text. text.items ≡ spec.answer_told answer) }
{
    match answer {
        Answer::None => Vec::from_slice(alloc, NONE),
        Answer::Error => Vec::from_slice(alloc, ERROR),
        Answer::Char { c, meta: false } => Vec::from_slice(alloc, readable(c).as_slice()),
        Answer::Char { c, meta: true } => filled(alloc, META_CHARACTER, &[readable(c).as_slice()]),
        Answer::Special(action) => Vec::from_slice(alloc, action.name().as_slice()),
        Answer::BackTab => Vec::from_slice(alloc, BACK_TAB),
        Answer::Released(action) => filled(alloc, RELEASED, &[action.name().as_slice()]),
    }
}

/// The verdict, without a line feed.
#[tactic(auto, unfolding(crate::specs::Diff::verdict_words))]
pub fn verdict_words(alloc: Global, telling: &Telling) -> Result<Vec<u8>, AllocError>
    ensures { IfOk result (λ text. text.items ≡ spec.verdict_words telling.now) }
{
    match telling {
        Telling::Told { old, new, .. } => {
            let old = answer_text(alloc, *old)?;
            let new = answer_text(alloc, *new)?;
            filled(alloc, TOLD, &[old.as_slice(), new.as_slice()])
        }
        Telling::Never { forgets: false } => Vec::from_slice(alloc, NEVER_TOLD),
        Telling::Never { forgets: true } => Vec::from_slice(alloc, NOT_TOLD),
        Telling::Undecided(presses) => {
            filled(alloc, UNTOLD, &[number(*presses as u64).as_slice()])
        }
    }
}

/// Adds it as a comment.
fn push_verdict(text: &mut Vec<u8>, alloc: Global, telling: &Telling) -> Added
    ensures { OnOk result (text.new.items ≡ text.old.items ++ spec.verdict_line telling.now) }
{
    let words = verdict_words(alloc, telling)?;
    push_comment(text, SAID, &[words.as_slice()])
}

/// Where a text has its first line feed.
fn line_feed(text: &[u8]) -> Option<usize>
    ensures place { result ≡ position (λ b. b == 10) text.now }
    ensures bound { IfSome result (λ i. i < length text.now) }
{
    text.iter().position(|b| *b == b'\n')
}

/// What of a text stands in its first line.
pub(crate) fn first_line(text: &[u8]) -> &[u8]
    ensures { result.now ≡ first_line_of text.now }
{
    let end = line_feed(text).unwrap_or(text.len());
    &text[..end]
}

/// Adds lines as comments.
pub(crate) fn push_said(text: &mut Vec<u8>, lines: &[Vec<u8>]) -> Added
    ensures { OnOk result (text.new.items ≡ text.old.items ++ said_lines lines.now) }
{
    for line in lines {
        push_comment(text, SAID, &[first_line(line.as_slice())])?;
    }
    Ok(())
}

/// Whether the key is pressed once the event came, where this says whether it was before.
fn is_pressed_by(event: &Event, key: KeyCode, was_pressed: bool) -> bool
    ensures { result ≡ spec.is_pressed_by event.now key was_pressed }
{
    match event {
        Event::Press(other) => was_pressed || *other == key,
        Event::Release(other) => was_pressed && *other != key,
        Event::Reset | Event::Load => false,
    }
}

/// Whether the key is pressed after these events.
fn is_pressed(events: &[Event], key: KeyCode) -> bool
    ensures { result ≡ pressed key (reverse events.now) }
{
    let mut is_pressed = false;
    for event in events {
        is_pressed = is_pressed_by(event, key, is_pressed);
    }
    is_pressed
}

/// Adds the line of an event behind others: a press of a key that is pressed is a repeat.
#[tactic(auto, unfolding(messages::specs::Filled::filled))]
fn push_event(text: &mut Vec<u8>, before: &[Event], event: Event) -> Added
    ensures { OnOk result (text.new.items
        ≡ text.old.items ++ sent_line (spec.sent_behind (reverse before.now) event)) }
{
    match &event {
        Event::Press(key) if is_pressed(before, *key) => {
            fill(text, REPEAT, &[small(key.get()).as_slice()])
        }
        _ => text.extend_from_slice(event_line(event).as_slice()),
    }
}

fn push_script(text: &mut Vec<u8>, events: &[Event]) -> Added
    ensures { OnOk result (text.new.items ≡ text.old.items ++ flat_map sent_line (spec.sent_along [] events.now)) }
{
    for place in 0..events.len() {
        push_event(text, &events[..place], events[place])?;
    }
    Ok(())
}

/// Adds the events that tell the keymaps apart, if some do.
fn push_events(text: &mut Vec<u8>, telling: &Telling) -> Added
    ensures { OnOk result (text.new.items
        ≡ text.old.items ++ flat_map sent_line (spec.sent_along [] (spec.events_of telling.now))) }
{
    match telling {
        Telling::Told { events, .. } => push_script(text, events),
        _ => Ok(()),
    }
}

/// What is told of keymaps that are the same.
pub fn same_text(alloc: Global) -> Result<Vec<u8>, AllocError>
    ensures { IfOk result (λ text. text.items ≡ spec.same_text) }
{
    let mut text = Vec::new(alloc);
    push_comment(&mut text, SAME, &[])?;
    Ok(text)
}

/// What is told of keymaps that differ: the verdict, the consequences, what differs, and the events that tell them apart.
pub fn diff_text(
    alloc: Global,
    telling: &Telling,
    consequences: &Consequences,
    changes: &[Change],
) -> Result<Vec<u8>, AllocError>
    ensures { IfOk result (λ text. spec.IsDiffText telling.now changes.now text.items) }
{
    let lines = consequence_lines(alloc, consequences)?;
    let mut text = Vec::new(alloc);
    push_verdict(&mut text, alloc, telling)?;
    push_said(&mut text, lines.as_slice())?;
    push_lines(&mut text, alloc, changes)?;
    push_events(&mut text, telling)?;
    Ok(text)
}

/// Whether one of these lines begins at the place.
fn is_line_at(changes: &[Change], place: usize, from: u16, to: u16) -> bool
    requires { place < length changes.now }
    ensures { result ≡ spec.is_line_at from to changes.now place }
{
    let line = line_of(&changes[place]);
    begins_line(changes, place) && from <= line && line < to
}

fn push_place_if(places: &mut Vec<usize>, is_line: bool, place: usize) -> Added
    ensures { OnOk result (places.new.items ≡ places.old.items ++ (if is_line then place ∷ [] else [])) }
{
    if is_line {
        places.push(place)?;
    }
    Ok(())
}

/// Where lines begin, of those from one to before another.
fn line_places(
    alloc: Global,
    changes: &[Change],
    from: u16,
    to: u16,
) -> Result<Vec<usize>, AllocError>
    ensures { IfOk result (λ places. places.items ≡ spec.line_places from to changes.now) }
{
    let mut places = Vec::new(alloc);
    for place in 0..changes.len() {
        push_place_if(&mut places, is_line_at(changes, place, from, to), place)?;
    }
    Ok(places)
}

/// So many, or nothing.
fn counted(alloc: Global, one: &[u8], more: &[u8], count: usize) -> Result<Vec<u8>, AllocError>
    requires { IsTrue (has_places more.now (decimal count ∷ [])) }
    ensures { IfOk result (λ text. text.items ≡ spec.counted one.now more.now count) }
{
    match count {
        0 => Ok(Vec::new(alloc)),
        1 => Vec::from_slice(alloc, one),
        _ => filled(alloc, more, &[number(count as u64).as_slice()]),
    }
}

/// What stands between two counts.
fn between_counts(slots: usize, accents: usize) -> &'static [u8]
    ensures { result.now ≡ spec.between_counts slots accents }
{
    if slots == 0 || accents == 0 {
        b""
    } else {
        COMMA
    }
}

/// Whether neither a slot nor an accent differs.
fn are_none(slots: usize, accents: usize) -> bool
    ensures { result ≡ (slots == 0 && accents == 0) }
{
    slots == 0 && accents == 0
}

/// Adds how many slots and accents differ, if some do.
fn push_counts(text: &mut Vec<u8>, alloc: Global, slots: usize, accents: usize) -> Added
    ensures { OnOk result (text.new.items ≡ text.old.items ++ spec.differ_line slots accents) }
{
    if are_none(slots, accents) {
        return Ok(());
    }
    let slots_told = counted(alloc, SLOT_DIFFERS, SLOTS_DIFFER, slots)?;
    let accents_told = counted(alloc, ACCENT_DIFFERS, ACCENTS_DIFFER, accents)?;
    let between = between_counts(slots, accents);
    push_comment(
        text,
        DIFFER,
        &[slots_told.as_slice(), between, accents_told.as_slice()],
    )
}

/// Adds the lines of the last slot and the last accent, where they differ.
fn push_last_lines(text: &mut Vec<u8>, alloc: Global, changes: &[Change]) -> Added
    ensures { OnOk result (text.new.items ≡ text.old.items ++ flat_map spec.last_line changes.now) }
{
    for change in changes {
        if line_of(change) < 2 {
            push_line(text, alloc, change, &[*change])?;
        }
    }
    Ok(())
}

/// What is told in brief of keymaps that differ: the verdict, the consequences, the last slot and the last accent, and how
/// many slots and accents differ.
pub fn brief_text(
    alloc: Global,
    telling: &Telling,
    consequences: &Consequences,
    changes: &[Change],
) -> Result<Vec<u8>, AllocError>
    ensures { IfOk result (λ text. spec.IsBriefText telling.now changes.now text.items) }
{
    let lines = consequence_lines(alloc, consequences)?;
    let mut text = Vec::new(alloc);
    push_verdict(&mut text, alloc, telling)?;
    push_said(&mut text, lines.as_slice())?;
    push_last_lines(&mut text, alloc, changes)?;
    let slots = line_places(alloc, changes, 2, 258)?;
    let accents = line_places(alloc, changes, 258, 273)?;
    push_counts(&mut text, alloc, slots.len(), accents.len())?;
    Ok(text)
}
