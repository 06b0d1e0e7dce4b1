//! What stands below the keys: the findings of the check, the accents, and the dead keys without one.
ghost use Rattle.std.specs.Prelude.{◌≡◌, ◌++◌, ◌≤◌, ◌<◌, ◌^◌, IfOk, All, length, true};
ghost use Rattle.std.specs.List.{list_all};
ghost use Rattle.keymap_core.specs.Actions.{name_of};
ghost use Rattle.keymap_core.specs.Numbers.{accent_limit};
ghost use Rattle.keymap_core.specs.declared.action.Action.TheVariants as action;
ghost use Rattle.keymap_text.specs.Printed.{accent_words as accent_words_of};
ghost use Rattle.keymap_draw.specs.Facts.{numbered};
ghost use Rattle.keymap_draw.specs.Lists as spec;
ghost use Rattle.keymap_draw.specs.Lists.{accent_sign as accent_sign_of};
ghost use Rattle.keymap_draw.specs.Sheets.{is_inner, is_seen};

use crate::change::About;
use crate::drawing::Drawing;
use crate::half::Half;
use crate::key::said;
use crate::legend::{Legend, character_legend, marked};
use crate::marks::has_other_accent;
use crate::markup::Added;
use crate::place::{DEAD_KEY, NO_ACCENT, size_class};
use crate::sheet::Content::{Bytes, Characters, Number, Plain};
use crate::sheet::{InPicture, InRow, InTable, Sheet, tell};
use crate::tables::ACCENT_MARKS;
use crate::words::{
    ACCENT, ACCENTS, BASES, CHANGED_ACCENT, COMPOSED, COMPOSED_OF, FINDINGS, GROUP_END,
    LISTED_FINDING, RESULTS, SIGN, SILENT, TABLE_END,
};
use arrayvec::ArrayVec;
use keymap_check::Finding;
use keymap_core::{
    ACCENT_LIMIT, Accent, AccentIndex, Action, Cell, Entry, KEY_COUNT, KeyMap, Name, push_if,
};
use keymap_text::accent_words;

/// The accents by their indexes.
pub(crate) type Accents = ArrayVec<u8, ACCENT_LIMIT>;

/// Adds what the check says of a key, at its place of the rows.
fn push_finding(
    sheet: Sheet<InPicture>,
    y: u32,
    place: u32,
    finding: &Finding,
) -> Added<Sheet<InPicture>>
    requires few { place ≤ 128 }
    requires low { y < 2 ^ 26 }
    ensures { IfOk result (λ s. s ≡ sheet ++ spec.listed_finding y place finding.now) }
{
    let x = Number(28 + place % 2 * 720);
    let y = Number(y + 52 + place / 2 * 20);
    let words = said(finding);
    tell(sheet, LISTED_FINDING, &[x, y, Plain(words.as_slice())])
}

/// Adds what the check says of each key that it names, two in a row.
fn push_each_finding(
    sheet: Sheet<InPicture>,
    findings: &[Finding],
    y: u32,
) -> Added<Sheet<InPicture>>
    requires few { length findings.now ≤ 128 }
    requires low { y < 2 ^ 26 }
    ensures { IfOk result (λ s. s ≡ sheet ++ numbered (spec.listed_finding y) 0 findings.now) }
{
    let mut sheet = sheet;
    for i in 0..findings.len() {
        let finding = findings[i];
        sheet = push_finding(sheet, y, i as u32, &finding)?;
    }
    Ok(sheet)
}

/// Adds what the check says of each key that it names below a headline, if there are any.
#[tactic(auto, unfolding(crate::specs::Lists::findings_list))]
pub(crate) fn push_findings(
    sheet: Sheet<InPicture>,
    findings: &[Finding],
    y: u32,
) -> Added<Sheet<InPicture>>
    requires few { length findings.now ≤ 128 }
    requires low { y < 2 ^ 26 }
    ensures { IfOk result (λ s. s ≡ sheet ++ spec.findings_list findings.now y) }
{
    if findings.len() == 0 {
        Ok(sheet)
    } else {
        let sheet = tell(sheet, FINDINGS, &[Number(y + 26)])?;
        push_each_finding(sheet, findings, y)
    }
}

pub(crate) fn findings_height(count: usize) -> u32
    requires { count ≤ 128 }
    ensures value { result ≡ spec.findings_height count }
    ensures low { result ≤ 1328 }
{
    if count == 0 {
        0
    } else {
        48 + (count as u32 + 1) / 2 * 20
    }
}

pub(crate) fn has_character(map: &KeyMap, index: u8) -> bool
    ensures { result ≡ spec.has_character map.now index }
{
    map.accent_or_blank(index).own() != '\0'
}

/// The accents that have a character.
#[tactic(auto, using(crate::proofs::Loops::passing_rules), unfolding(crate::specs::Lists::named_accents))]
pub(crate) fn named_accents(map: &KeyMap) -> Accents
    ensures accents { result.items ≡ spec.named_accents map.now }
    ensures few { length result.items ≤ 15 }
    ensures known { All (λ i. i < accent_limit) result.items }
{
    let mut accents = Accents::new();
    for index in 0..ACCENT_LIMIT as u8 {
        push_if(&mut accents, index, has_character(map, index));
    }
    accents
}

/// Adds a character of an accent, at its place of a line of its table.
fn push_composed(sheet: Sheet<InTable>, place: u32, c: char) -> Added<Sheet<InTable>>
    requires { place ≤ 52 }
    ensures { IfOk result (λ s. s ≡ sheet ++ spec.composed place c) }
{
    let legend = character_legend(c);
    let (x, said) = (Number(12 + 25 * place), Characters(legend.as_slice()));
    let (alone, tight) = (false, true);
    match size_class(legend.as_slice(), alone, tight) {
        None => tell(sheet, COMPOSED, &[x, said]),
        Some(class) => tell(sheet, COMPOSED_OF, &[x, Plain(&[class]), said]),
    }
}

/// The base of a pair, or its result.
fn part_of(pair: (char, char), results: bool) -> char
    ensures { result ≡ spec.part_of results pair }
{
    if results { pair.1 } else { pair.0 }
}

/// Adds the bases or the results of pairs, behind a character.
fn push_each_part(
    sheet: Sheet<InTable>,
    results: bool,
    pairs: &[(char, char)],
) -> Added<Sheet<InTable>>
    requires { length pairs.now ≤ 52 }
    ensures { IfOk result (λ s. s ≡ sheet ++ numbered (spec.part results) 0 pairs.now) }
{
    let mut sheet = sheet;
    for i in 0..pairs.len() {
        let pair = pairs[i];
        sheet = push_composed(sheet, i as u32 + 1, part_of(pair, results))?;
    }
    Ok(sheet)
}

/// Adds a line of a table: the bases or the results of pairs, behind a character that stands first.
fn push_parts(
    sheet: Sheet<InTable>,
    first: char,
    results: bool,
    pairs: &[(char, char)],
) -> Added<Sheet<InTable>>
    requires { length pairs.now ≤ 52 }
    ensures { IfOk result (λ s. s ≡ sheet ++ spec.line results first pairs.now) }
{
    let sheet = push_composed(sheet, 0, first)?;
    push_each_part(sheet, results, pairs)
}

/// Adds the bases above the results, first the blank and the accent's own character; and ends the row.
#[tactic(auto, unfolding(crate::specs::Lists::table))]
fn push_table(sheet: Sheet<InRow>, own: char, pairs: &[(char, char)]) -> Added<Sheet<InPicture>>
    requires { length pairs.now ≤ 52 }
    ensures { IfOk result (λ s. s ≡ sheet ++ spec.table own pairs.now) }
{
    let sheet = tell(sheet, BASES, &[])?;
    let sheet = push_parts(sheet, ' ', false, pairs)?;
    let sheet = tell(sheet, RESULTS, &[])?;
    let sheet = push_parts(sheet, own, true, pairs)?;
    tell(sheet, TABLE_END, &[])
}

/// The sign of an accent.
fn accent_sign(index: u8) -> Legend
    requires { index < accent_limit }
    ensures value { result.items ≡ accent_sign_of index }
    ensures seen { list_all is_seen result.items ≡ true }
{
    marked(ACCENT_MARKS[index as usize])
}

/// The name of the dead key of an accent.
fn accent_name(index: u8) -> Name
    requires { index < accent_limit }
    ensures value { result.items ≡ name_of (action.DeadKey index) }
    ensures inner { list_all is_inner result.items ≡ true }
{
    Action::DeadKey(AccentIndex::new(index)).name()
}

/// The line of the printed form of an accent.
fn title(index: u8, accent: &Accent) -> ArrayVec<u8, 1160>
    requires { index < accent_limit }
    ensures words { result.items ≡ accent_words_of index accent.now }
    ensures seen { list_all is_seen result.items ≡ true }
{
    accent_words(index, accent)
}

/// Adds the sign and the name of an accent, the sign in a class for its colour.
fn push_heading(sheet: Sheet<InRow>, index: u8, x: u32, class: u8) -> Added<Sheet<InRow>>
    requires known { index < accent_limit }
    requires near { x < 2 ^ 16 }
    requires class { is_inner class ≡ true }
    ensures { IfOk result (λ s. s ≡ sheet ++ spec.heading index x class) }
{
    let (sign, name) = (accent_sign(index), accent_name(index));
    let (sign, name) = (Characters(sign.as_slice()), Plain(name.as_slice()));
    let (x, behind) = (Number(x), Number(x + 28));
    tell(sheet, SIGN, &[x, Plain(&[class]), sign, behind, name])
}

/// Begins the row of an accent with its title, which is its line of the printed form, and with a line below that where
/// the accent differs.
fn begin_accent(
    sheet: Sheet<InPicture>,
    drawing: &Drawing,
    index: u8,
    accent: &Accent,
    y: u32,
) -> Added<Sheet<InRow>>
    requires { index < accent_limit }
    ensures { IfOk result (λ s. s ≡ sheet ++ spec.titled_row drawing.now index accent.now y) }
{
    let title = title(index, accent);
    let (y, title) = (Number(y), Bytes(title.as_slice()));
    if has_other_accent(drawing, index) {
        let line = Characters(drawing.line(About::Accent(index)));
        tell(sheet, CHANGED_ACCENT, &[y, title, line])
    } else {
        tell(sheet, ACCENT, &[y, title])
    }
}

/// Adds the row of an accent of the map, at its place of the list.
fn push_accent(
    sheet: Sheet<InPicture>,
    drawing: &Drawing,
    y: u32,
    place: u32,
    index: u8,
) -> Added<Sheet<InPicture>>
    requires known { index < accent_limit }
    requires low { y < 2 ^ 27 }
    requires few { place ≤ 15 }
    ensures { IfOk result (λ s. s ≡ sheet ++ spec.listed_accent drawing.now y place index) }
{
    match drawing.map().accent(index) {
        Some(accent) => {
            let sheet = begin_accent(sheet, drawing, index, accent, y + 52 * place)?;
            let sheet = push_heading(sheet, index, 36, DEAD_KEY)?;
            push_table(sheet, accent.own(), accent.pairs())
        }
        None => Ok(sheet),
    }
}

/// Adds the row of each accent, one below the other.
fn push_each_accent(
    sheet: Sheet<InPicture>,
    drawing: &Drawing,
    accents: &[u8],
    y: u32,
) -> Added<Sheet<InPicture>>
    requires low { y < 2 ^ 27 }
    requires few { length accents.now ≤ 15 }
    requires known { All (λ i. i < accent_limit) accents.now }
    ensures { IfOk result (λ s. s ≡ sheet ++ numbered (spec.listed_accent drawing.now y) 0 accents.now) }
{
    let mut sheet = sheet;
    for i in 0..accents.len() {
        let index = accents[i];
        sheet = push_accent(sheet, drawing, y, i as u32, index)?;
    }
    Ok(sheet)
}

/// Adds the accents that have a character below a headline, if there are any.
#[tactic(auto, unfolding(crate::specs::Lists::accents_list))]
pub(crate) fn push_accents(
    sheet: Sheet<InPicture>,
    drawing: &Drawing,
    accents: &[u8],
    y: u32,
) -> Added<Sheet<InPicture>>
    requires low { y < 2 ^ 26 }
    requires few { length accents.now ≤ 15 }
    requires known { All (λ i. i < accent_limit) accents.now }
    ensures { IfOk result (λ s. s ≡ sheet ++ spec.accents_list drawing.now accents.now y) }
{
    if accents.len() == 0 {
        Ok(sheet)
    } else {
        let sheet = tell(sheet, ACCENTS, &[Number(y + 26)])?;
        push_each_accent(sheet, drawing, accents, y + 40)
    }
}

pub(crate) fn accents_height(count: usize) -> u32
    requires { count ≤ 15 }
    ensures value { result ≡ spec.accents_height count }
    ensures low { result ≤ 820 }
{
    if count == 0 {
        0
    } else {
        40 + count as u32 * 52
    }
}

fn is_dead_key(cell: &Cell, index: u8) -> bool
    ensures { result ≡ spec.is_dead_key index cell.now }
{
    match cell {
        Cell::Act(Action::DeadKey(accent)) => accent.get() == index,
        _ => false,
    }
}

fn has_dead_key(entry: &Entry, index: u8) -> bool
    ensures { result ≡ spec.has_dead_key index entry.now }
{
    entry.cells().iter().any(|cell| is_dead_key(cell, index))
}

fn slot_bears_dead_key(map: &KeyMap, half: Half, index: u8, key: u8) -> bool
    ensures { result ≡ spec.slot_bears_dead_key map.now half index key }
{
    has_dead_key(map.entry(half.slot(key)), index)
}

/// Whether a slot of the half bears the dead key of an accent.
#[tactic(auto, unfolding(crate::specs::Lists::bears_dead_key))]
fn bears_dead_key(map: &KeyMap, half: Half, index: u8) -> bool
    ensures { result ≡ spec.bears_dead_key map.now half index }
{
    for key in 0..KEY_COUNT as u8 {
        if slot_bears_dead_key(map, half, index, key) {
            return true;
        }
    }
    false
}

/// Whether the accent has no character and a drawn half bears its dead key.
#[tactic(auto, unfolding(crate::specs::Lists::is_silent))]
fn is_silent(drawing: &Drawing, index: u8) -> bool
    ensures { result ≡ spec.is_silent drawing.now.map index }
{
    let map = drawing.map();
    map.accent_or_blank(index).own() == '\0'
        && (bears_dead_key(map, Half::Lower, index)
            || (drawing.is_upper_live() && bears_dead_key(map, Half::Upper, index)))
}

/// The accents without a character whose dead keys are drawn.
#[tactic(auto, using(crate::proofs::Loops::passing_rules), unfolding(crate::specs::Lists::silent_accents))]
pub(crate) fn silent_accents(drawing: &Drawing) -> Accents
    ensures accents { result.items ≡ spec.silent_accents drawing.now.map }
    ensures few { length result.items ≤ 15 }
    ensures known { All (λ i. i < accent_limit) result.items }
{
    let mut accents = Accents::new();
    for index in 0..ACCENT_LIMIT as u8 {
        push_if(&mut accents, index, is_silent(drawing, index));
    }
    accents
}

/// Begins the row of the dead keys without an accent, below a line.
fn begin_silent(sheet: Sheet<InPicture>, y: u32) -> Added<Sheet<InRow>>
    requires { y < 2 ^ 26 }
    ensures { IfOk result (λ s. s ≡ sheet ++ spec.silent_line y) }
{
    tell(sheet, SILENT, &[Number(y + 16), Number(y + 26)])
}

/// Adds the sign and the name of each dead key without an accent, side by side.
fn push_each_silent(sheet: Sheet<InRow>, accents: &[u8]) -> Added<Sheet<InRow>>
    requires few { length accents.now ≤ 15 }
    requires known { All (λ i. i < accent_limit) accents.now }
    ensures { IfOk result (λ s. s ≡ sheet ++ numbered spec.silent_name 0 accents.now) }
{
    let mut sheet = sheet;
    for i in 0..accents.len() {
        let index = accents[i];
        sheet = push_heading(sheet, index, 36 + 94 * i as u32, NO_ACCENT)?;
    }
    Ok(sheet)
}

/// Adds the dead keys without an accent below a line, if there are any.
#[tactic(auto, unfolding(crate::specs::Lists::silent_list))]
pub(crate) fn push_silent(
    sheet: Sheet<InPicture>,
    accents: &[u8],
    y: u32,
) -> Added<Sheet<InPicture>>
    requires low { y < 2 ^ 26 }
    requires few { length accents.now ≤ 15 }
    requires known { All (λ i. i < accent_limit) accents.now }
    ensures { IfOk result (λ s. s ≡ sheet ++ spec.silent_list accents.now y) }
{
    if accents.len() == 0 {
        Ok(sheet)
    } else {
        let sheet = begin_silent(sheet, y)?;
        let sheet = push_each_silent(sheet, accents)?;
        tell(sheet, GROUP_END, &[])
    }
}

pub(crate) fn silent_height(count: usize) -> u32
    ensures value { result ≡ spec.silent_height count }
    ensures low { result ≤ 82 }
{
    if count == 0 { 0 } else { 82 }
}
