//! The lines of a printed map.
ghost use Rattle.std.specs.Prelude.{◌≡◌, ◌+◌, ◌<◌, ◌≤◌, ◌++◌, length, codes, IfSome};
ghost use Rattle.keymap_text.specs.Printed as spec;
ghost use Rattle.keymap_core.specs.CodePoints as code_points;
ghost use Rattle.keymap_core.specs.Numbers.{accent_limit};

use crate::names::{control_name, control_places};
use arrayvec::ArrayVec;
use keymap_core::{Accent, AccentIndex, Action, Cell, Entry, LockFlag, code_digits};

/// The text of a cell, at most `0x10ffff`.
type Text = ArrayVec<u8, 8>;

/// How long a line can be: that of an accent with 52 pairs.
const LINE: usize = 1160;

/// How long the words of a key can be, and its line.
const WORDS: usize = 80;

type Words = ArrayVec<u8, WORDS>;

type Line = ArrayVec<u8, LINE>;

fn text_of(bytes: &[u8]) -> Text
    requires { length bytes.now ≤ 8 }
    ensures { result.items ≡ bytes.now }
{
    let mut text = Text::new();
    text.try_extend_from_slice(bytes).unwrap();
    text
}

/// The number of a character in hexadecimal, with four to six digits.
fn hex_text(c: char) -> Text
    ensures { result.items ≡ codes "0x" ++ code_points.code_digits c }
{
    let mut text = text_of(b"0x");
    text.try_extend_from_slice(code_digits(c).as_slice())
        .unwrap();
    text
}

/// A character as it is printed in a keymap: a control by its name, another one of ASCII quoted, any other one by its
/// number.
#[tactic(auto, unfolding(crate::specs::Printed::character_text))]
pub fn character_text(c: char) -> Text
    ensures { result.items ≡ spec.character_text c }
{
    match c {
        '\0'..='\x1f' | '\x7f' => text_of(control_name(c as u8)),
        ' '..='~' => text_of(&[b'\'', c as u8, b'\'']),
        _ => hex_text(c),
    }
}

fn cell_text(cell: &Cell) -> Text
    ensures { result.items ≡ spec.cell_text cell.now }
{
    match cell {
        Cell::Char(c) => character_text(*c),
        Cell::Act(action) => text_of(action.name().as_slice()),
    }
}

/// The text of a cell filled on the right with blanks to six places, where it is one of those that most cells have.
#[inline(always)]
fn six_places(cell: &Cell) -> Option<[u8; 6]>
    ensures { IfSome result (λ places. places ≡ spec.filled (spec.cell_text cell.now)) }
{
    match cell {
        Cell::Char(c) => character_places(*c),
        Cell::Act(Action::Nop) => Some(*b"nop   "),
        Cell::Act(_) => None,
    }
}

/// The text of a character, filled in this way, where it is one of ASCII.
#[inline(always)]
#[tactic(auto, unfolding(crate::specs::Printed::character_text))]
fn character_places(c: char) -> Option<[u8; 6]>
    ensures { IfSome result (λ places. places ≡ spec.filled (spec.character_text c)) }
{
    match c {
        '\0'..='\x1f' | '\x7f' => Some(control_places(c as u8)),
        ' '..='~' => Some([b'\'', c as u8, b'\'', b' ', b' ', b' ']),
        _ => None,
    }
}

#[inline(always)]
fn push_text<const N: usize>(line: &mut ArrayVec<u8, N>, text: &[u8])
    requires { length line.old.items + length text.now ≤ N }
    ensures text { line.new.items ≡ line.old.items ++ text.now }
    ensures size { length line.new.items ≡ length line.old.items + length text.now }
{
    line.try_extend_from_slice(text).unwrap();
}

/// A text, filled on the right with blanks to six places.
fn push_filled(line: &mut Words, text: &[u8])
    requires room { length line.old.items + 8 ≤ WORDS }
    requires short { length text.now ≤ 8 }
    ensures { line.new.items ≡ line.old.items ++ spec.filled text.now }
{
    let blanks = [b' '; 6];
    push_text(line, text);
    if text.len() < 6 {
        push_text(line, &blanks[text.len()..]);
    }
}

/// A blank, and the text of a cell, filled on the right with blanks to six places.
fn push_column(line: &mut Words, cell: &Cell)
    requires { length line.old.items + 9 ≤ WORDS }
    ensures text { line.new.items ≡ line.old.items ++ spec.column (spec.cell_text cell.now) }
    ensures size { length line.new.items ≤ length line.old.items + 9 }
{
    line.push(b' ');
    match six_places(cell) {
        Some(places) => push_text(line, &places),
        None => push_filled(line, cell_text(cell).as_slice()),
    }
}

/// The letter of a lock flag: `O`, `C`, `N` or `B`.
pub fn flag_letter(flag: LockFlag) -> u8
    ensures { result ≡ spec.flag_letter flag }
{
    match flag {
        LockFlag::O => b'O',
        LockFlag::C => b'C',
        LockFlag::N => b'N',
        LockFlag::B => b'B',
    }
}

/// The line of a key.
#[tactic(auto, unfolding(crate::specs::Printed::key_line))]
pub fn key_line(slot: u8, entry: &Entry) -> ArrayVec<u8, WORDS>
    ensures { result.items ≡ spec.key_line slot entry.now }
{
    let mut line = Words::new();
    push_text(
        &mut line,
        &[b'0' + slot / 100, b'0' + slot / 10 % 10, b'0' + slot % 10],
    );
    for cell in entry.cells() {
        push_column(&mut line, cell);
    }
    push_text(&mut line, &[b' ', flag_letter(entry.flag), b'\n']);
    line
}

/// A blank, and the text of a cell.
fn push_word(words: &mut Words, cell: &Cell)
    requires { length words.old.items + 9 ≤ WORDS }
    ensures text { words.new.items ≡ words.old.items ++ spec.word (spec.cell_text cell.now) }
    ensures size { length words.new.items ≤ length words.old.items + 9 }
{
    words.push(b' ');
    words
        .try_extend_from_slice(cell_text(cell).as_slice())
        .unwrap();
}

/// The words of a key: those of its line, with one blank between them and no line feed.
#[tactic(auto, unfolding(crate::specs::Printed::slot_words))]
pub fn slot_words(slot: u8, entry: &Entry) -> ArrayVec<u8, WORDS>
    ensures { result.items ≡ spec.slot_words slot entry.now }
{
    let mut words = Words::new();
    words
        .try_extend_from_slice(&[b'0' + slot / 100, b'0' + slot / 10 % 10, b'0' + slot % 10])
        .unwrap();
    for cell in entry.cells() {
        push_word(&mut words, cell);
    }
    words.push(b' ');
    words.push(flag_letter(entry.flag));
    words
}

/// A pair of an accent: ` ( base composed )`.
#[tactic(auto, unfolding(crate::specs::Printed::pair_text))]
fn push_pair(line: &mut Line, base: char, composed: char)
    requires { length line.old.items + 22 ≤ 1160 }
    ensures text { line.new.items ≡ line.old.items ++ spec.pair_text (base, composed) }
    ensures size { length line.new.items ≤ length line.old.items + 22 }
{
    push_text(line, b" ( ");
    push_text(line, character_text(base).as_slice());
    line.push(b' ');
    push_text(line, character_text(composed).as_slice());
    push_text(line, b" )");
}

/// The words of an accent: its line without the line feed.
#[tactic(auto, unfolding(crate::specs::Printed::accent_words))]
pub fn accent_words(index: u8, accent: &Accent) -> ArrayVec<u8, LINE>
    requires { index < accent_limit }
    ensures words { result.items ≡ spec.accent_words index accent.now }
    ensures short { length result.items < 1160 }
{
    let mut line = Line::new();
    let name = Action::DeadKey(AccentIndex::new(index)).name();
    push_text(&mut line, name.as_slice());
    line.push(b' ');
    push_text(&mut line, character_text(accent.own()).as_slice());
    for (base, composed) in accent.pairs() {
        push_pair(&mut line, *base, *composed);
    }
    line
}

/// The line of an accent.
pub fn accent_line(index: u8, accent: &Accent) -> ArrayVec<u8, LINE>
    requires { index < accent_limit }
    ensures { result.items ≡ spec.accent_line index accent.now }
{
    let mut line = accent_words(index, accent);
    line.push(b'\n');
    line
}
