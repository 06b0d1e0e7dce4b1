//! What there is to know of a key.
ghost use Rattle.std.specs.Prelude.{◌≡◌, ℕ, ◌<◌, ◌==◌, IfSome, Some, position, take};
ghost use Rattle.keyboard.specs.Boards as boards;
ghost use Rattle.keyboard.specs.Codes as codes_of;
ghost use Rattle.keyboard.specs.Filled.{unfilled as unfilled_of};
ghost use Rattle.keyboard.specs.Rows.{IsRowOf};
ghost use Rattle.keyboard.specs.declared.table.TheConstants.{EVDEV as EVDEV_TABLE};
ghost use Rattle.keyboard.specs.declared.board.Board.TheVariants.{Iso, Ansi};

use crate::board::Board;
use crate::table::{Block, EVDEV, KEYS, Row};
use keymap_core::{KeyCode, key_with};

/// The text without what fills it.
fn unfilled(text: &[u8], filler: u8) -> &[u8]
    ensures { result.now ≡ unfilled_of filler text.now }
{
    let mut end = text.len();
    while end > 0 && text[end - 1] == filler {
        end -= 1;
    }
    &text[..end]
}

fn row_of(key: KeyCode) -> &'static Row
    ensures { IsRowOf result.now key }
{
    &KEYS[key.get() as usize]
}

fn is_on_iso(key: KeyCode) -> bool
    ensures { result ≡ boards.is_on Iso key }
{
    match row_of(key).0 {
        Block::Off => false,
        _ => true,
    }
}

/// Whether the key stands on the board.
#[tactic(auto, using(crate::proofs::Told::ansi_on))]
pub fn is_on(board: Board, key: KeyCode) -> bool
    ensures { result ≡ boards.is_on board key }
{
    match board {
        Board::Iso => is_on_iso(key),
        Board::Ansi => key.get() != 86 && is_on_iso(key),
    }
}

/// Whether the key is one of the pad.
pub fn is_on_pad(key: KeyCode) -> bool
    ensures { result ≡ boards.is_on_pad key }
{
    match row_of(key).0 {
        Block::Pad => true,
        _ => false,
    }
}

fn iso_name(key: KeyCode) -> &'static [u8]
    ensures { result.now ≡ boards.name_of Iso key }
{
    unfilled(&row_of(key).1, b' ')
}

fn ansi_name(key: KeyCode) -> &'static [u8]
    ensures { result.now ≡ boards.name_of Ansi key }
{
    match key.get() {
        86 => b"",
        93 => b"right Alt",
        _ => iso_name(key),
    }
}

/// The name of the key on the board, empty where it doesn't stand there.
pub fn name_of(board: Board, key: KeyCode) -> &'static [u8]
    ensures { result.now ≡ boards.name_of board key }
{
    match board {
        Board::Iso => iso_name(key),
        Board::Ansi => ansi_name(key),
    }
}

/// The number of the key in evdev, 0 for none.
pub fn evdev_of(key: KeyCode) -> u8
    ensures value { result ≡ codes_of.evdev_of key }
    ensures most { result < 128 }
{
    EVDEV[key.get() as usize]
}

/// The code of X for the key, 0 for none.
pub fn x11_of(key: KeyCode) -> u8
    ensures { result ≡ codes_of.x11_of key }
{
    match evdev_of(key) {
        0 => 0,
        number => number + 8,
    }
}

/// The name of the key in QEMU, empty for none.
pub fn qcode_of(key: KeyCode) -> &'static [u8]
    ensures { result.now ≡ codes_of.qcode_of key }
{
    unfilled(&row_of(key).2, b' ')
}

/// The bytes of a press of the key in set 1, none where no keyboard sends any.
pub fn set1_of(key: KeyCode) -> &'static [u8]
    ensures { result.now ≡ codes_of.set1_of key }
{
    unfilled(&row_of(key).3, 0)
}

/// The byte of a release for one of a press.
pub fn on_release(byte: u8) -> u8
    ensures { result ≡ codes_of.on_release byte }
{
    if byte < 128 { byte + 128 } else { byte }
}

/// Where the table of evdev has the number first, before keys of other boards.
fn place_of(number: u32) -> Option<usize>
    ensures place { result ≡ position (λ n. n == number) (take 108 EVDEV_TABLE) }
    ensures bound { IfSome result (λ i. i < 108) }
{
    EVDEV[..108]
        .iter()
        .position(|one| u32::from(*one) == number)
}

/// The key of the board of 105 keys that has the number in evdev, if there is one.
pub fn key_of_evdev(number: u32) -> Option<KeyCode>
    ensures has { IfSome result (λ key. codes_of.IsEvdevOf key number) }
    ensures key { (k : ℕ) → codes_of.IsEvdevOf k number → result ≡ Some k }
{
    match place_of(number) {
        Some(code) if number != 0 => Some(key_with(code as u8)),
        _ => None,
    }
}
