//! What is written on a cap for a cell: nothing, a sign (one character, or a mark on a dotted circle), or a word of
//! letters and digits.
ghost use Rattle.std.specs.Prelude.{◌≡◌, ◌<◌, ◌≤◌, ◌+◌, ◌++◌, ◌∷◌, [], true, length, decimal};
ghost use Rattle.std.specs.List.{list_all, list_any};
ghost use Rattle.keymap_core.specs.Bounds.{IsCell};
ghost use Rattle.keymap_draw.specs.Characters.{is_large as is_large_sign};
ghost use Rattle.keymap_draw.specs.Legends as spec;
ghost use Rattle.keymap_draw.specs.Sheets.{is_seen};

use crate::characters::is_large;
use crate::tables::{ACCENT_MARKS, UNSEEN_NAMES, UnseenName};
use arrayvec::ArrayVec;
use keymap_core::{Action, Cell, code_text};
use keymap_names::{is_coded, is_mark};
use keymap_text::control_name;
use messages::small;

/// The characters of a legend.
pub(crate) type Legend = ArrayVec<char, 8>;

/// The mark that stands for the letter below an accent.
const DOTTED_CIRCLE: char = '\u{25cc}';

fn push_letters(legend: &mut Legend, letters: &[u8])
    requires { length legend.old.items + length letters.now ≤ 8 }
    ensures { legend.new.items ≡ legend.old.items ++ letters.now }
{
    for letter in letters {
        legend.push(*letter as char);
    }
}

fn word(letters: &[u8]) -> Legend
    requires { length letters.now ≤ 8 }
    ensures { result.items ≡ letters.now }
{
    let mut legend = Legend::new();
    push_letters(&mut legend, letters);
    legend
}

/// Letters, and a number without leading zeros.
fn numbered_word(letters: &[u8], number: u8) -> Legend
    requires { length letters.now ≤ 4 }
    ensures { result.items ≡ letters.now ++ decimal number }
{
    let mut legend = word(letters);
    push_letters(&mut legend, small(number).as_slice());
    legend
}

pub(crate) fn sign(c: char) -> Legend
    ensures { result.items ≡ c ∷ [] }
{
    let mut legend = Legend::new();
    legend.push(c);
    legend
}

/// A mark on a dotted circle.
pub(crate) fn marked(mark: char) -> Legend
    ensures { result.items ≡ 0x25cc ∷ mark ∷ [] }
{
    let mut legend = Legend::new();
    legend.push(DOTTED_CIRCLE);
    legend.push(mark);
    legend
}

/// The name that the rows have for the character, filled with blanks to five bytes.
fn name_in(rows: &[UnseenName], c: char) -> Option<[u8; 5]>
    ensures { result ≡ spec.name_in rows.now c }
{
    match rows.iter().find(|row| row.0 == u32::from(c)) {
        Some(row) => Some(row.1),
        None => None,
    }
}

/// The word of the letters before the blanks that fill a name.
#[tactic(auto, unfolding(crate::specs::Legends::unfilled))]
fn unfilled(name: &[u8; 5]) -> Legend
    ensures { result.items ≡ spec.unfilled name.now }
{
    let mut legend = Legend::new();
    for letter in name {
        if *letter != b' ' {
            legend.push(*letter as char);
        }
    }
    legend
}

/// The legend of a character that has no name.
#[tactic(auto, unfolding(crate::specs::Legends::shown_legend))]
fn shown_legend(c: char) -> Legend
    ensures { result.items ≡ spec.shown_legend c }
{
    if is_coded(c) {
        word(code_text(c).as_slice())
    } else if is_mark(c) {
        marked(c)
    } else {
        sign(c)
    }
}

/// The legend of a character that is neither a control character nor the blank.
#[tactic(auto, unfolding(crate::specs::Legends::other_legend, crate::specs::Legends::unseen_name))]
fn other_legend(c: char) -> Legend
    ensures { result.items ≡ spec.other_legend c }
{
    match name_in(&UNSEEN_NAMES, c) {
        Some(name) => unfilled(&name),
        None => shown_legend(c),
    }
}

#[tactic(auto, unfolding(crate::specs::Legends::character_legend))]
fn legend_of(c: char) -> Legend
    ensures { result.items ≡ spec.character_legend c }
{
    match c {
        '\0' => Legend::new(),
        '\t' => word(b"tab"),
        '\r' => word(b"ret"),
        '\x01'..='\x1f' | '\x7f' => word(control_name(c as u8)),
        ' ' => sign('\u{2423}'),
        _ => other_legend(c),
    }
}

/// The legend of a character.
pub(crate) fn character_legend(c: char) -> Legend
    ensures value { result.items ≡ spec.character_legend c }
    ensures seen { list_all is_seen result.items ≡ true }
{
    legend_of(c)
}

/// The legend of an action.
#[tactic(auto, unfolding(crate::specs::Legends::action_legend))]
fn action_legend(action: Action) -> Legend
    ensures { result.items ≡ spec.action_legend action }
{
    match &action {
        Action::Nop => Legend::new(),
        Action::Screen(screen) => numbered_word(b"scr", screen.get()),
        Action::Function(function) => numbered_word(b"F", function.get()),
        Action::DeadKey(accent) => marked(ACCENT_MARKS[accent.get() as usize]),
        _ => word(action.name().as_slice()),
    }
}

/// For the prover alone: to read a cell tells the bounds of what stands in it.
fn read_cell(cell: &Cell)
    ensures { IsCell cell.now }
{
    match cell {
        Cell::Char(c) => {
            let _ = *c as u32;
        }
        Cell::Act(action) => {
            let _ = action.code();
        }
    }
}

/// The legend of a cell.
pub(crate) fn cell_legend(cell: &Cell) -> Legend
    ensures value { result.items ≡ spec.cell_legend cell.now }
    ensures seen { list_all is_seen result.items ≡ true }
    ensures short { length result.items ≤ 8 }
{
    read_cell(cell);
    match cell {
        Cell::Char(c) => character_legend(*c),
        Cell::Act(action) => action_legend(*action),
    }
}

/// Whether the legend is a word, and not a sign.
pub(crate) fn is_word(legend: &[char]) -> bool
    ensures { result ≡ spec.is_word legend.now }
{
    legend.len() >= 2 && legend[0] != DOTTED_CIRCLE
}

/// Whether a character of the legend is of a script with large signs.
pub(crate) fn has_large(legend: &[char]) -> bool
    ensures { result ≡ list_any is_large_sign legend.now }
{
    legend.iter().any(|c| is_large(*c))
}
