//! Where texts stand on a cap, and the classes by which the style gives them size, side and colour.
ghost use Rattle.std.specs.Prelude.{◌≡◌, ◌≤◌, ◌+◌, true, length, option_to_list, Some};
ghost use Rattle.std.specs.List.{list_all};
ghost use Rattle.arrayvec.specs.ArrayVec.{array_vec_len};
ghost use Rattle.keymap_draw.specs.Places as spec;
ghost use Rattle.keymap_draw.specs.Places.{is_class};
ghost use Rattle.keymap_draw.specs.Sheets.{is_inner};

use crate::board::Shape;
use crate::legend::{has_large, is_word};
use arrayvec::ArrayVec;
use keymap_core::{Action, Cell, KeyMap};

// The classes of the style, each a letter. For the size of a text, by its pixels:
const PX_21: u8 = b'z';

const PX_16: u8 = b'w';

const PX_13: u8 = b'x';

const PX_12: u8 = b'v';

const PX_11: u8 = b'o';

const PX_10: u8 = b'u';

const PX_9: u8 = b't';

const PX_8: u8 = b'y';

const PX_5: u8 = b'b';

// For the side of a legend: on both sides of its place, or on the left of it.
const ON_BOTH_SIDES: u8 = b'c';

const ON_THE_LEFT: u8 = b'r';

// For the colour of a legend: in a column with alt, a dead key, one whose accent has no character, and a modifier or
// lock.
const ALT: u8 = b'a';

pub(crate) const DEAD_KEY: u8 = b'd';

pub(crate) const NO_ACCENT: u8 = b'e';

const HOLDING: u8 = b'm';

/// The classes for the size of a word that stands alone, by its length: for 2 characters to 8, of which the last is for
/// longer ones too.
pub(crate) static ALONE_SIZES: [u8; 7] = [PX_16, PX_16, PX_13, PX_13, PX_13, PX_10, PX_10];

/// The classes of a word in a corner that another legend stands beside on a small cap.
pub(crate) static TIGHT_SIZES: [u8; 7] = [PX_11, PX_9, PX_8, PX_8, PX_5, PX_5, PX_5];

/// The classes of any other word in a corner.
pub(crate) static CORNER_SIZES: [u8; 7] = [PX_12, PX_12, PX_12, PX_11, PX_11, PX_9, PX_9];

/// A column that is drawn.
#[derive(Clone, Copy)]
pub(crate) enum Column {
    Base,
    Shift,
    Alt,
    AltShift,
}

impl Column {
    ghost use Rattle.keymap_draw.specs.Places.{is_right as is_right_of, is_above as is_above_of};
    ghost use Rattle.keymap_draw.specs.Places.{beside_of};

    /// The column beside it.
    pub(crate) fn beside(self) -> Column
        ensures { result ≡ beside_of self }
    {
        match self {
            Column::Base => Column::Alt,
            Column::Shift => Column::AltShift,
            Column::Alt => Column::Base,
            Column::AltShift => Column::Shift,
        }
    }

    /// Whether the column stands on the right.
    fn is_right(self) -> bool
        ensures { result ≡ is_right_of self }
    {
        match self {
            Column::Base | Column::Shift => false,
            Column::Alt | Column::AltShift => true,
        }
    }

    /// Whether the column stands above.
    fn is_above(self) -> bool
        ensures { result ≡ is_above_of self }
    {
        match self {
            Column::Base | Column::Alt => false,
            Column::Shift | Column::AltShift => true,
        }
    }
}

/// Where a legend stands on a cap: in the corner of its column, or alone in the middle. In a corner it is tight where
/// another one stands beside it on a small cap.
#[derive(Clone, Copy)]
pub(crate) struct Spot {
    pub(crate) shape: Shape,
    pub(crate) column: Column,
    pub(crate) alone: bool,
    pub(crate) tight: bool,
}

/// Where the code of a key begins.
pub(crate) fn code_x(shape: Shape) -> u32
    ensures { result ≡ spec.code_x shape }
{
    match shape {
        Shape::Enter => 24,
        _ => 8,
    }
}

/// The base line of the legends below.
fn low_y(shape: Shape) -> u32
    ensures { result ≡ spec.low_y shape }
{
    match shape {
        Shape::Enter => 41,
        _ => shape.height() - 23,
    }
}

fn middle_x(shape: Shape) -> u32
    ensures { result ≡ spec.middle_x shape }
{
    match shape {
        Shape::Enter => (shape.width() + 12) / 2,
        _ => (shape.width() - 4) / 2,
    }
}

/// Where the legend of a column stands, or one that stands alone.
pub(crate) fn legend_x(spot: Spot) -> u32
    ensures { result ≡ spec.legend_x spot.shape spot.column spot.alone }
{
    if spot.alone {
        middle_x(spot.shape)
    } else if spot.column.is_right() {
        spot.shape.width() - 14
    } else {
        10
    }
}

/// The base line of the legend of a column, or of one that stands alone.
pub(crate) fn legend_y(spot: Spot, word: bool) -> u32
    ensures { result ≡ spec.legend_y spot.shape spot.column spot.alone word }
{
    if spot.alone {
        if word {
            spot.shape.height() / 2 - 2
        } else {
            spot.shape.height() / 2 + 1
        }
    } else if spot.column.is_above() {
        20
    } else {
        low_y(spot.shape)
    }
}

/// The letter for a word of so many characters, of which words of more than eight have the last.
fn size_by(sizes: &[u8; 7], count: usize) -> u8
    requires many { 2 ≤ count }
    requires classes { list_all is_class sizes.now ≡ true }
    ensures value { result ≡ spec.size_by sizes.now count }
    ensures class { is_class result ≡ true }
{
    sizes[count.min(8) - 2]
}

/// The class for the size of a legend. One in a corner is tight where another one stands beside it on a small cap.
pub(crate) fn size_class(legend: &[char], alone: bool, tight: bool) -> Option<u8>
    ensures value { result ≡ spec.size_class legend.now alone tight }
    ensures class { list_all is_class (option_to_list result) ≡ true }
    ensures inner { list_all is_inner (option_to_list result) ≡ true }
{
    if is_word(legend) {
        Some(if alone {
            size_by(&ALONE_SIZES, legend.len())
        } else if tight {
            size_by(&TIGHT_SIZES, legend.len())
        } else {
            size_by(&CORNER_SIZES, legend.len())
        })
    } else if has_large(legend) {
        Some(if alone { PX_16 } else { PX_11 })
    } else if alone {
        Some(PX_21)
    } else {
        None
    }
}

/// How high the letters of a word or a large sign are, by the class for its size.
fn pixels(class: u8) -> u32
    ensures value { result ≡ spec.pixels class }
    ensures most { result ≤ 16 }
{
    match class {
        PX_16 => 16,
        PX_13 => 13,
        PX_12 => 12,
        PX_11 => 11,
        PX_10 => 10,
        PX_9 => 9,
        PX_8 => 8,
        _ => 5,
    }
}

/// Whether a word is the code of a character.
fn is_code(legend: &[char]) -> bool
    ensures { result ≡ spec.is_code legend.now }
{
    is_word(legend) && legend[1] == '+'
}

/// How wide a word is taken to be, in tenths.
fn tenths(legend: &[char], high: u32) -> u32
    requires short { length legend.now ≤ 8 }
    requires low { high ≤ 16 }
    ensures { result ≡ spec.tenths legend.now high }
{
    legend.len() as u32 * high * if is_code(legend) { 7 } else { 6 }
}

/// How wide the place of a legend is.
fn room(spot: Spot) -> u32
    ensures value { result ≡ spec.room spot.shape spot.alone spot.tight }
    ensures some { 2 ≤ result }
    ensures most { result ≤ 384 }
{
    let wide = spot.shape.width();
    if spot.alone {
        wide - 16
    } else if wide < 112 && !spot.tight {
        wide - 24
    } else {
        (wide - 24) / 2
    }
}

/// The length to which a legend is shrunk, if it is a word that is wider than its place.
#[tactic(auto, unfolding(crate::specs::Places::shrunk_length))]
pub(crate) fn shrunk_length(legend: &[char], spot: Spot) -> Option<u32>
    requires { length legend.now ≤ 8 }
    ensures { result ≡ spec.shrunk_length spot.shape legend.now spot.alone spot.tight }
{
    let class = size_class(legend, spot.alone, spot.tight)?;
    let place = room(spot);
    if is_word(legend) && place * 10 < tenths(legend, pixels(class)) {
        Some(place - 2)
    } else {
        None
    }
}

/// The class for the side of a legend.
fn side_class(column: Column, alone: bool) -> Option<u8>
    ensures value { result ≡ spec.side_class column alone }
    ensures class { list_all is_class (option_to_list result) ≡ true }
{
    if alone {
        Some(ON_BOTH_SIDES)
    } else if column.is_right() {
        Some(ON_THE_LEFT)
    } else {
        None
    }
}

/// The class for the kind of a cell.
fn kind_class(map: &KeyMap, column: Column, cell: &Cell) -> Option<u8>
    ensures value { result ≡ spec.kind_class map.now column cell.now }
    ensures class { list_all is_class (option_to_list result) ≡ true }
{
    let plain = if column.is_right() { Some(ALT) } else { None };
    match cell {
        Cell::Char(_) => plain,
        Cell::Act(Action::DeadKey(accent)) => {
            let own = map.accent_or_blank(accent.get()).own();
            Some(if own == '\0' { NO_ACCENT } else { DEAD_KEY })
        }
        Cell::Act(Action::Mod(_)) => Some(HOLDING),
        Cell::Act(Action::Lock(_)) => Some(HOLDING),
        Cell::Act(_) => plain,
    }
}

/// Adds a class, behind a blank where there is one already.
fn push_class(classes: &mut ArrayVec<u8, 6>, class: Option<u8>)
    requires room { array_vec_len classes.old + 2 ≤ 6 }
    requires class { list_all is_class (option_to_list class) ≡ true }
    requires classes { list_all is_class classes.old.items ≡ true }
    ensures value { classes.new.items ≡ spec.and_class classes.old.items class }
    ensures classes { list_all is_class classes.new.items ≡ true }
    ensures len { array_vec_len classes.new ≤ array_vec_len classes.old + 2 }
{
    match class {
        Some(class) => {
            if !classes.is_empty() {
                classes.push(b' ');
            }
            classes.push(class);
        }
        None => {}
    }
}

/// The classes of a legend: for its size, its side and its kind.
#[tactic(auto, unfolding(crate::specs::Places::legend_classes))]
pub(crate) fn legend_classes(
    map: &KeyMap,
    cell: &Cell,
    legend: &[char],
    spot: Spot,
) -> ArrayVec<u8, 6>
    ensures value { result.items
        ≡ spec.legend_classes map.now spot.column cell.now legend.now spot.alone spot.tight }
    ensures classes { list_all is_class result.items ≡ true }
    ensures inner { list_all is_inner result.items ≡ true }
{
    let mut classes = ArrayVec::new();
    push_class(&mut classes, size_class(legend, spot.alone, spot.tight));
    push_class(&mut classes, side_class(spot.column, spot.alone));
    push_class(&mut classes, kind_class(map, spot.column, cell));
    classes
}

/// The class for the colour of a key, if it has one, and behind it that of a key that differs.
#[tactic(auto, using(crate::proofs::Parts::classes_inner))]
pub(crate) fn marked_class(class: &[u8], mark: u8) -> ArrayVec<u8, 6>
    requires few { length class.now ≤ 1 }
    requires class { list_all is_class class.now ≡ true }
    requires mark { is_class mark ≡ true }
    ensures value { result.items ≡ spec.and_class class.now (Some mark) }
    ensures inner { list_all is_inner result.items ≡ true }
{
    let mut classes = ArrayVec::new();
    let _ = classes.try_extend_from_slice(class);
    push_class(&mut classes, Some(mark));
    classes
}
