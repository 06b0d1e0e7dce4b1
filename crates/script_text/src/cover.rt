//! What is printed of a script that shows a console what a keymap can do: how much it sees, what it doesn't see, and
//! its events.
ghost use Rattle.std.specs.Prelude.{◌≡◌, ◌<◌, ◌≤◌, ◌+◌, ◌++◌, [], IsTrue, false, map, OnOk, IfOk};
ghost use Rattle.std.specs.List.{flat_map};
ghost use Rattle.keymap_core.specs.Numbers.{slot_limit, accent_limit};
ghost use Rattle.console_states.specs.declared.selection.Sight.TheVariants as SightValue;
ghost use Rattle.keymap_cover.specs.Covering.{verdict_of, counts_of};
ghost use Rattle.keymap_cover.specs.Verdicts.{verdict_in};
ghost use Rattle.messages.specs.Filled.{has_places};
ghost use Rattle.script_text.specs.Cover as spec;
ghost use Rattle.script_text.specs.Inner.Listed.{is_in};

use crate::event_lines::{event_line, push_comment};
use crate::words::{
    ALL_PAIRS, BOTH_LOCKS, CELLS, CELLS_PART, CLOCK, COLUMNS, COUNTS, LEFT_OUT, LISTED,
    LOCK_SETTINGS, LOCKS, NEVER, NLOCK, NO_LOCK, ONE_SLOT, ONE_WAY_PART, PAIRS, PAIRS_PART,
    PURPOSE, REPEAT, SLOTS, TRIALS_PART, UNSTUCK,
};
use console_core::Event;
use console_states::Sight;
use keymap_core::{ACCENT_LIMIT, Accent, AccentIndex, Action, COLUMN_COUNT, KeyMap, SLOT_LIMIT};
use keymap_cover::laws::counts_are_of_verdicts;
use keymap_cover::{Cover, Part, ScriptEvent, Start, Verdict, Verdicts, cells, lock_settings};
use keymap_names::readable;
use messages::{either, fill, number, small};
use std::alloc::{AllocError, Global};

/// The verdicts on sights of a keymap, and which sights are listed, under which word.
#[derive(Clone, Copy)]
pub(crate) struct Listing<'a> {
    pub verdicts: Verdicts<'a>,
    pub map: &'a KeyMap,
    pub listed: Verdict,
    pub word: &'a [u8],
}

impl<'a> Listing<'a> {
    /// Whether the sight is listed.
    fn has(&self, sight: Sight) -> bool
        ensures { result ≡ is_in self.now sight }
    {
        self.verdicts.verdict(self.map, sight) == self.listed
    }
}

fn push_number(text: &mut Vec<u8>, n: u64) -> Result<(), AllocError>
    ensures { OnOk result (text.new.items ≡ text.old.items ++ spec.number_text n) }
{
    fill(text, LISTED, &[number(n).as_slice()])
}

/// Adds the column of the slot, if its cell is listed.
fn push_column(
    text: &mut Vec<u8>,
    listing: &Listing,
    slot: u8,
    column: usize,
) -> Result<(), AllocError>
    ensures { OnOk result (text.new.items
        ≡ text.old.items ++ spec.column_text (is_in listing.now) slot column) }
{
    if listing.has(Sight::Cell { slot, column }) {
        push_number(text, column as u64)
    } else {
        Ok(())
    }
}

/// Adds the columns of the slot whose cells are listed.
fn push_columns(text: &mut Vec<u8>, listing: &Listing, slot: u8) -> Result<(), AllocError>
    ensures { OnOk result (text.new.items
        ≡ text.old.items ++ spec.columns_text (is_in listing.now) slot) }
{
    for column in 0..COLUMN_COUNT {
        push_column(text, listing, slot, column)?;
    }
    Ok(())
}

/// The name of a setting of clock and nlock, if the slot is listed under it.
fn setting<'a>(listing: &Listing, slot: u8, caps: bool, num: bool, name: &'a [u8]) -> &'a [u8]
    ensures { result.now ≡ spec.setting_text (is_in listing.now) slot caps num name.now }
{
    either(listing.has(Sight::Locks { slot, caps, num }), name, b"")
}

/// The settings of clock and nlock under which the slot is listed.
fn settings(alloc: Global, listing: &Listing, slot: u8) -> Result<Vec<u8>, AllocError>
    ensures { IfOk result (λ text. text.items ≡ spec.settings_text (is_in listing.now) slot) }
{
    let mut text = Vec::new(alloc);
    text.extend_from_slice(setting(listing, slot, false, false, NO_LOCK))?;
    text.extend_from_slice(setting(listing, slot, false, true, NLOCK))?;
    text.extend_from_slice(setting(listing, slot, true, false, CLOCK))?;
    text.extend_from_slice(setting(listing, slot, true, true, BOTH_LOCKS))?;
    Ok(text)
}

/// Adds a list behind its head, if there is something in it.
fn push_headed(text: &mut Vec<u8>, head: &[u8], list: &[u8]) -> Result<(), AllocError>
    ensures { OnOk result (text.new.items ≡ text.old.items ++ spec.headed head.now list.now) }
{
    match list {
        [] => Ok(()),
        _ => {
            text.extend_from_slice(head)?;
            text.extend_from_slice(list)
        }
    }
}

/// What is listed of the slot.
fn row_of(alloc: Global, listing: &Listing, slot: u8) -> Result<Vec<u8>, AllocError>
    ensures { IfOk result (λ text. text.items ≡ spec.row_text (is_in listing.now) slot) }
{
    let mut columns = Vec::new(alloc);
    push_columns(&mut columns, listing, slot)?;
    let settings = settings(alloc, listing, slot)?;
    let mut text = Vec::new(alloc);
    push_headed(&mut text, COLUMNS, columns.as_slice())?;
    push_headed(&mut text, LOCKS, settings.as_slice())?;
    Ok(text)
}

/// Whether the row is what is listed of the slot.
fn has_row(alloc: Global, listing: &Listing, slot: u8, row: &[u8]) -> Result<bool, AllocError>
    ensures same { IfOk result (λ same. IsTrue same → spec.row_text (is_in listing.now) slot ≡ row.now) }
    ensures other { IfOk result (λ same. same ≡ false → spec.row_text (is_in listing.now) slot ≡ row.now → ⊥) }
{
    let other = row_of(alloc, listing, slot)?;
    Ok(other.as_slice() == row)
}

/// Before which slot those end of which the same is listed as of this one.
fn run_end(alloc: Global, listing: &Listing, first: usize, row: &[u8]) -> Result<usize, AllocError>
    requires place { first < slot_limit }
    requires row { row.now ≡ spec.row_text (is_in listing.now) first }
    ensures within { IfOk result (λ end. (first < end) × (end ≤ slot_limit)) }
    ensures alike { IfOk result (λ end. spec.AreAlike (is_in listing.now) first end) }
    ensures ends { IfOk result (λ end. spec.EndsAlike (is_in listing.now) first end) }
{
    for slot in first + 1..SLOT_LIMIT {
        if !has_row(alloc, listing, slot as u8, row)? {
            return Ok(slot);
        }
    }
    Ok(SLOT_LIMIT)
}

/// Adds the line of the slots from one on to before another, if something is listed of them.
fn push_row(
    text: &mut Vec<u8>,
    word: &[u8],
    first: usize,
    end: usize,
    row: &[u8],
) -> Result<(), AllocError>
    requires within { first < end }
    requires limit { end ≤ slot_limit }
    ensures { OnOk result (text.new.items ≡ text.old.items ++ spec.row_line word.now first end row.now) }
{
    let begin = number(first as u64);
    let last = number((end - 1) as u64);
    match row {
        [] => Ok(()),
        _ if end == first + 1 => push_comment(text, ONE_SLOT, &[word, begin.as_slice(), row]),
        _ => push_comment(text, SLOTS, &[word, begin.as_slice(), last.as_slice(), row]),
    }
}

/// Adds the line of this slot and those behind it of which the same is listed, and tells before which slot they end.
fn push_run(
    text: &mut Vec<u8>,
    alloc: Global,
    listing: &Listing,
    first: usize,
) -> Result<usize, AllocError>
    requires place { first < slot_limit }
    requires before { spec.ListsSlots (is_in listing.now) listing.now.word.now first text.old.items }
    ensures within { IfOk result (λ end. (first < end) × (end ≤ slot_limit)) }
    ensures lists { IfOk result (λ end.
        spec.ListsSlots (is_in listing.now) listing.now.word.now end text.new.items) }
{
    let row = row_of(alloc, listing, first as u8)?;
    let end = run_end(alloc, listing, first, row.as_slice())?;
    push_row(text, listing.word, first, end, row.as_slice())?;
    Ok(end)
}

/// The lines of the slots of which something is listed.
pub(crate) fn slots(alloc: Global, listing: &Listing) -> Result<Vec<u8>, AllocError>
    ensures { IfOk result (λ text.
        spec.ListsSlots (is_in listing.now) listing.now.word.now slot_limit text.items) }
{
    let mut text = Vec::new(alloc);
    let mut first = 0;
    while first < SLOT_LIMIT {
        first = push_run(&mut text, alloc, listing, first)?;
    }
    Ok(text)
}

/// Adds a character, if it isn't there.
fn add(characters: &mut Vec<char>, character: char) -> Result<(), AllocError>
    ensures { OnOk result (characters.new.items ≡ spec.with_number characters.old.items character) }
{
    if !characters.contains(&character) {
        characters.push(character)?;
    }
    Ok(())
}

/// Adds the bases of the pairs, each if it isn't there.
fn add_bases(bases: &mut Vec<char>, pairs: &[(char, char)]) -> Result<(), AllocError>
    ensures { OnOk result (bases.new.items ≡ spec.with_bases bases.old.items pairs.now) }
{
    for pair in pairs {
        add(bases, pair.0)?;
    }
    Ok(())
}

/// The blank and the bases of the accent, once each. There are none where it has the character 0.
fn bases_of(alloc: Global, accent: &Accent) -> Result<Vec<char>, AllocError>
    ensures { IfOk result (λ bases. bases.items ≡ spec.bases_of accent.now) }
{
    let mut bases = Vec::new(alloc);
    if accent.own() == '\0' {
        return Ok(bases);
    }
    bases.push(' ')?;
    add_bases(&mut bases, accent.pairs())?;
    Ok(bases)
}

/// The blank and the bases of the accent that the keymap has at the index; none where it has no accent.
fn bases(alloc: Global, map: &KeyMap, accent: u8) -> Result<Vec<char>, AllocError>
    ensures { IfOk result (λ bases. bases.items ≡ spec.bases_at map.now accent) }
{
    match map.accent(accent) {
        Some(accent) => bases_of(alloc, accent),
        None => Ok(Vec::new(alloc)),
    }
}

/// Adds the character, if its pair with the accent is listed.
fn push_character(
    text: &mut Vec<u8>,
    listing: &Listing,
    accent: u8,
    character: char,
) -> Result<(), AllocError>
    ensures { OnOk result (text.new.items
        ≡ text.old.items ++ spec.character_text (is_in listing.now) accent character) }
{
    if listing.has(Sight::Pair { accent, character }) {
        fill(text, LISTED, &[readable(character).as_slice()])
    } else {
        Ok(())
    }
}

/// Adds the characters whose pairs with the accent are listed.
fn push_characters(
    text: &mut Vec<u8>,
    listing: &Listing,
    accent: u8,
    bases: &[char],
) -> Result<(), AllocError>
    ensures { OnOk result (text.new.items
        ≡ text.old.items ++ flat_map (spec.character_text (is_in listing.now) accent) bases.now) }
{
    for base in bases {
        push_character(text, listing, accent, *base)?;
    }
    Ok(())
}

/// Adds a line for the pairs of the accent that are listed, if there are any.
fn push_accent(
    text: &mut Vec<u8>,
    alloc: Global,
    listing: &Listing,
    accent: u8,
) -> Result<(), AllocError>
    requires { accent < accent_limit }
    ensures { OnOk result (text.new.items ≡ text.old.items
        ++ spec.accent_line (is_in listing.now) listing.now.word.now listing.now.map.now accent) }
{
    let bases = bases(alloc, listing.map, accent)?;
    let mut characters = Vec::new(alloc);
    push_characters(&mut characters, listing, accent, bases.as_slice())?;
    match characters.as_slice() {
        [] => Ok(()),
        characters => {
            let name = Action::DeadKey(AccentIndex::new(accent)).name();
            push_comment(text, PAIRS, &[listing.word, name.as_slice(), characters])
        }
    }
}

/// Adds a line for each accent with pairs that are listed.
pub(crate) fn push_accents(
    text: &mut Vec<u8>,
    alloc: Global,
    listing: &Listing,
) -> Result<(), AllocError>
    ensures { OnOk result (text.new.items ≡ text.old.items
        ++ spec.accent_lines (is_in listing.now) listing.now.word.now listing.now.map.now) }
{
    for accent in 0..ACCENT_LIMIT as u8 {
        push_accent(text, alloc, listing, accent)?;
    }
    Ok(())
}

/// Adds the pairs of the accent with these characters.
fn add_pairs(pairs: &mut Vec<Sight>, accent: u8, characters: &[char]) -> Result<(), AllocError>
    ensures { OnOk result (pairs.new.items ≡ pairs.old.items ++ map (SightValue.Pair accent) characters.now) }
{
    for character in characters {
        pairs.push(Sight::Pair {
            accent,
            character: *character,
        })?;
    }
    Ok(())
}

/// All pairs of an accent with the blank or a base.
fn pairs(alloc: Global, map: &KeyMap) -> Result<Vec<Sight>, AllocError>
    ensures { IfOk result (λ pairs. pairs.items ≡ spec.all_pairs map.now) }
{
    let mut pairs = Vec::new(alloc);
    for accent in 0..ACCENT_LIMIT as u8 {
        let bases = bases(alloc, map, accent)?;
        add_pairs(&mut pairs, accent, bases.as_slice())?;
    }
    Ok(pairs)
}

/// Adds how many of the sights are seen, left out, and neither.
fn push_counts(
    text: &mut Vec<u8>,
    map: &KeyMap,
    verdicts: &Verdicts,
    rest: &[u8],
    name: &[u8],
    sights: &[Sight],
) -> Result<(), AllocError>
    ensures { OnOk result (text.new.items ≡ text.old.items
        ++ spec.counts_line rest.now name.now (counts_of (verdict_in map.now verdicts.now) sights.now)) }
{
    let counts = verdicts.count(map, sights);
    push_comment(
        text,
        COUNTS,
        &[
            name,
            number(counts.seen as u64).as_slice(),
            number(counts.left_out as u64).as_slice(),
            rest,
            number(counts.rest as u64).as_slice(),
        ],
    )
}

/// Adds how many of the cells, lock settings and pairs are seen, left out, and neither.
pub(crate) fn push_all_counts(
    text: &mut Vec<u8>,
    alloc: Global,
    map: &KeyMap,
    verdicts: &Verdicts,
    rest: &[u8],
) -> Result<(), AllocError>
    ensures { OnOk result (text.new.items
        ≡ text.old.items ++ spec.all_counts rest.now (verdict_in map.now verdicts.now) map.now) }
{
    let cells = cells(alloc)?;
    let settings = lock_settings(alloc)?;
    let pairs = pairs(alloc, map)?;
    push_counts(text, map, verdicts, rest, CELLS, cells.as_slice())?;
    push_counts(
        text,
        map,
        verdicts,
        rest,
        LOCK_SETTINGS,
        settings.as_slice(),
    )?;
    push_counts(text, map, verdicts, rest, ALL_PAIRS, pairs.as_slice())?;
    Ok(())
}

/// What the script is for, and how much it sees.
fn counts(alloc: Global, map: &KeyMap, cover: &Cover) -> Result<Vec<u8>, AllocError>
    ensures { IfOk result (λ text. text.items ≡ spec.counts_text (verdict_of map.now cover.now) map.now cover.now) }
{
    let mut text = Vec::new(alloc);
    push_comment(&mut text, PURPOSE, &[])?;
    let verdicts = cover.verdicts();
    push_all_counts(&mut text, alloc, map, &verdicts, rest_word(cover))?;
    Ok(text)
}

/// What is told of the sights that are neither seen nor left out.
fn rest_word(cover: &Cover) -> &'static [u8]
    ensures { result.now ≡ spec.rest_word cover.now }
{
    either(cover.sights.forgets, UNSTUCK, NEVER)
}

/// Adds what the script doesn't see.
fn push_lists<'a>(
    text: &mut Vec<u8>,
    alloc: Global,
    map: &'a KeyMap,
    cover: &'a Cover,
) -> Result<(), AllocError>
    ensures { OnOk result
        (spec.AddsLists (verdict_of map.now cover.now) map.now cover.now text.old.items text.new.items) }
{
    let verdicts = cover.verdicts();
    let left_out = Listing {
        verdicts,
        map,
        listed: Verdict::LeftOut,
        word: LEFT_OUT,
    };
    let rest = Listing {
        verdicts,
        map,
        listed: Verdict::Never,
        word: rest_word(cover),
    };
    let slots_left_out = slots(alloc, &left_out)?;
    let other_slots = slots(alloc, &rest)?;
    text.extend_from_slice(slots_left_out.as_slice())?;
    text.extend_from_slice(other_slots.as_slice())?;
    push_accents(text, alloc, &left_out)?;
    push_accents(text, alloc, &rest)?;
    Ok(())
}

/// The comment that begins the part.
fn part_words(part: Part) -> &'static [u8]
    ensures words { result.now ≡ spec.part_words part }
    ensures places { IsTrue (has_places result.now []) }
{
    match part {
        Part::Cells => CELLS_PART,
        Part::Pairs => PAIRS_PART,
        Part::Trials => TRIALS_PART,
        Part::OneWay => ONE_WAY_PART,
    }
}

/// Adds a comment if the part begins at the place.
fn push_start(text: &mut Vec<u8>, place: usize, start: &Start) -> Result<(), AllocError>
    ensures { OnOk result (text.new.items ≡ text.old.items ++ spec.start_line place start.now) }
{
    if start.at == place {
        push_comment(text, part_words(start.part), &[])
    } else {
        Ok(())
    }
}

/// Adds a comment for each part that begins at the place.
fn push_starts(text: &mut Vec<u8>, place: usize, starts: &[Start]) -> Result<(), AllocError>
    ensures { OnOk result (text.new.items ≡ text.old.items ++ flat_map (spec.start_line place) starts.now) }
{
    for start in starts {
        push_start(text, place, start)?;
    }
    Ok(())
}

/// Adds the line of an event.
#[tactic(auto, unfolding(messages::specs::Filled::filled))]
pub(crate) fn push_script_event(
    text: &mut Vec<u8>,
    script_event: &ScriptEvent,
) -> Result<(), AllocError>
    ensures { OnOk result (text.new.items ≡ text.old.items ++ spec.script_event_line script_event.now) }
{
    let event = match script_event {
        ScriptEvent::Down(key) => Event::Press(*key),
        ScriptEvent::Repeat(key) => return fill(text, REPEAT, &[small(key.get()).as_slice()]),
        ScriptEvent::Up(key) => Event::Release(*key),
        ScriptEvent::Reset => Event::Reset,
    };
    text.extend_from_slice(event_line(event).as_slice())
}

/// Adds the events, each behind comments for the parts that begin there.
fn push_script(
    text: &mut Vec<u8>,
    starts: &[Start],
    events: &[ScriptEvent],
) -> Result<(), AllocError>
    ensures { OnOk result (text.new.items ≡ text.old.items ++ spec.script_lines starts.now events.now) }
{
    for place in 0..events.len() {
        push_starts(text, place, starts)?;
        push_script_event(text, &events[place])?;
    }
    Ok(())
}

/// What is printed of the script of a keymap.
pub fn cover_text(alloc: Global, map: &KeyMap, cover: &Cover) -> Result<Vec<u8>, AllocError>
    ensures { IfOk result (λ text. spec.IsCoverText map.now cover.now text.items) }
{
    counts_are_of_verdicts();
    let mut text = counts(alloc, map, cover)?;
    push_lists(&mut text, alloc, map, cover)?;
    push_script(&mut text, cover.starts.as_slice(), cover.events.as_slice())?;
    Ok(text)
}
