//! Where the keys of the boards stand, and their shapes. All lengths are naturals, of which 64 are one key.

ghost use Rattle.std.specs.Prelude.{◌≡◌, ◌≤◌, ◌∷◌, [], true};
ghost use Rattle.std.specs.List.{list_all};
ghost use Rattle.keymap_draw.specs.Boards as spec;
ghost use Rattle.keymap_draw.specs.Sheets.{is_inner};

use crate::board::On::{Ansi, Both, Iso};
use crate::board::Shape::{A, B, C, D, E, Enter, F, G, H, Tall};
use keyboard::Board;

/// The shape of a key, named by its letter.
#[derive(Clone, Copy)]
pub(crate) enum Shape {
    A,
    B,
    C,
    D,
    E,
    F,
    G,
    H,
    Tall,
    Enter,
}

/// The boards that some keys stand on.
#[derive(Clone, Copy)]
pub(crate) enum On {
    Both,
    Iso,
    Ansi,
}

/// Keys of one shape, side by side: where the first one has its top left corner, and their codes, behind which zeros
/// stand.
#[derive(Clone, Copy)]
pub(crate) struct Run {
    pub(crate) on: On,
    pub(crate) x: u16,
    pub(crate) y: u16,
    pub(crate) shape: Shape,
    pub(crate) codes: [u8; 7],
}

impl Shape {
    ghost use Rattle.keymap_draw.specs.Boards.{letter as letter_of, width as width_of, height as height_of};

    /// The letter that names it in the picture.
    pub(crate) fn letter(self) -> &'static [u8]
        ensures value { result.now ≡ letter_of self ∷ [] }
        ensures inner { list_all is_inner result.now ≡ true }
    {
        match self {
            Shape::A => b"a",
            Shape::B => b"b",
            Shape::C => b"c",
            Shape::D => b"d",
            Shape::E => b"e",
            Shape::F => b"f",
            Shape::G => b"g",
            Shape::H => b"h",
            Shape::Tall => b"t",
            Shape::Enter => b"E",
        }
    }

    pub(crate) fn width(self) -> u32
        ensures value { result ≡ width_of self }
        ensures least { 64 ≤ result }
        ensures most { result ≤ 400 }
    {
        match self {
            Shape::A => 64,
            Shape::B => 80,
            Shape::C => 96,
            Shape::D => 112,
            Shape::E => 128,
            Shape::F => 144,
            Shape::G => 176,
            Shape::H => 400,
            Shape::Tall => 64,
            Shape::Enter => 96,
        }
    }

    pub(crate) fn height(self) -> u32
        ensures value { result ≡ height_of self }
        ensures least { 64 ≤ result }
        ensures most { result ≤ 128 }
    {
        match self {
            Shape::Tall => 128,
            Shape::Enter => 128,
            _ => 64,
        }
    }
}

/// Whether keys stand on the board.
pub(crate) fn has_run(board: Board, run: &Run) -> bool
    ensures { result ≡ spec.has_run board run.now }
{
    match (run.on, board) {
        (Iso, Board::Ansi) => false,
        (Ansi, Board::Iso) => false,
        _ => true,
    }
}

/// A row of the table below.
macro_rules! run {
    ($on:expr, $x:expr, $y:expr, $shape:expr, $codes:expr) => {
        Run {
            on: $on,
            x: $x,
            y: $y,
            shape: $shape,
            codes: $codes,
        }
    };
}

/// The keys of the boards, in the order in which they are drawn. The ANSI board has no 102nd key, a flat Enter below a
/// long key, and a longer left Shift.
pub(crate) static RUNS: [Run; 39] = [
    // Esc; F1 to F4, F5 to F8, F9 to F12; Print Screen, Scroll Lock, Pause.
    run!(Both, 0, 0, A, [1, 0, 0, 0, 0, 0, 0]),
    run!(Both, 128, 0, A, [59, 60, 61, 62, 0, 0, 0]),
    run!(Both, 416, 0, A, [63, 64, 65, 66, 0, 0, 0]),
    run!(Both, 704, 0, A, [67, 68, 87, 88, 0, 0, 0]),
    run!(Both, 976, 0, A, [92, 70, 104, 0, 0, 0, 0]),
    // The row of the digits, with Backspace; Insert, Home, Page Up; Num Lock and the operators.
    run!(Both, 0, 80, A, [41, 2, 3, 4, 5, 6, 0]),
    run!(Both, 384, 80, A, [7, 8, 9, 10, 11, 12, 13]),
    run!(Both, 832, 80, E, [14, 0, 0, 0, 0, 0, 0]),
    run!(Both, 976, 80, A, [102, 94, 96, 0, 0, 0, 0]),
    run!(Both, 1184, 80, A, [69, 91, 55, 74, 0, 0, 0]),
    // Tab, the row of Q to P and two more, Enter; Delete, End, Page Down; 7, 8, 9 and plus.
    run!(Both, 0, 144, C, [15, 0, 0, 0, 0, 0, 0]),
    run!(Both, 96, 144, A, [16, 17, 18, 19, 20, 0, 0]),
    run!(Both, 416, 144, A, [21, 22, 23, 24, 25, 26, 27]),
    run!(Iso, 864, 144, Enter, [28, 0, 0, 0, 0, 0, 0]),
    run!(Ansi, 816, 208, F, [28, 0, 0, 0, 0, 0, 0]),
    run!(Both, 976, 144, A, [103, 99, 101, 0, 0, 0, 0]),
    run!(Both, 1184, 144, A, [71, 72, 73, 0, 0, 0, 0]),
    run!(Both, 1376, 144, Tall, [78, 0, 0, 0, 0, 0, 0]),
    // Caps Lock, the row of A to L and two more, and one more; 4, 5, 6.
    run!(Both, 0, 208, D, [58, 0, 0, 0, 0, 0, 0]),
    run!(Both, 112, 208, A, [30, 31, 32, 33, 34, 0, 0]),
    run!(Both, 432, 208, A, [35, 36, 37, 38, 39, 40, 0]),
    run!(Iso, 816, 208, A, [43, 0, 0, 0, 0, 0, 0]),
    run!(Ansi, 864, 144, C, [43, 0, 0, 0, 0, 0, 0]),
    run!(Both, 1184, 208, A, [75, 76, 77, 0, 0, 0, 0]),
    // Left Shift, the 102nd key, the row of Z to M and three more, right Shift; up; 1, 2, 3 and Enter.
    run!(Iso, 0, 272, B, [42, 0, 0, 0, 0, 0, 0]),
    run!(Iso, 80, 272, A, [86, 0, 0, 0, 0, 0, 0]),
    run!(Ansi, 0, 272, F, [42, 0, 0, 0, 0, 0, 0]),
    run!(Both, 144, 272, A, [44, 45, 46, 47, 48, 0, 0]),
    run!(Both, 464, 272, A, [49, 50, 51, 52, 53, 0, 0]),
    run!(Both, 784, 272, G, [54, 0, 0, 0, 0, 0, 0]),
    run!(Both, 1040, 272, A, [95, 0, 0, 0, 0, 0, 0]),
    run!(Both, 1184, 272, A, [79, 80, 81, 0, 0, 0, 0]),
    run!(Both, 1376, 272, Tall, [89, 0, 0, 0, 0, 0, 0]),
    // Control, Super, Alt, the blank, Alt, Super, Menu, Control; left, down, right; 0 and the period.
    run!(Both, 0, 336, B, [29, 105, 56, 0, 0, 0, 0]),
    run!(Both, 240, 336, H, [57, 0, 0, 0, 0, 0, 0]),
    run!(Both, 640, 336, B, [93, 106, 107, 90, 0, 0, 0]),
    run!(Both, 976, 336, A, [97, 100, 98, 0, 0, 0, 0]),
    run!(Both, 1184, 336, E, [82, 0, 0, 0, 0, 0, 0]),
    run!(Both, 1312, 336, A, [83, 0, 0, 0, 0, 0, 0]),
];
