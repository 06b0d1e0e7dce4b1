//! Lines in their plainest spelling, which are read at sight: a command, a blank, the number of a key in at most three
//! digits, and a line feed.
ghost use Rattle.std.specs.Prelude.{◌≡◌, ◌<◌, ◌≤◌, ◌++◌, [], ◌∷◌, length, codes, drop, IfSome, IsTrue};
ghost use Rattle.std.specs.Char.{digit_value};
ghost use Rattle.play_core.specs.Inner.Readings.{BeginsWithKey, BeginsWithEvent};

use crate::sent::What;
use keymap_core::KeyCode;

/// The bytes of the longest such line.
const LONGEST: usize = 11;

/// What the first line of a text tells and what follows that line, where it is spelled most plainly.
pub fn plain_line(text: &[u8]) -> Option<(What, &[u8])>
    ensures event { IfSome result (λ r. BeginsWithEvent text.now r.0 r.1.now) }
    ensures shorter { IfSome result (λ r. length r.1.now < length text.now) }
{
    if text.len() < LONGEST {
        return None;
    }
    if begins_with_down(text) {
        match plain_key(&text[5..]) {
            Some(found) => Some((What::Down(found.0), found.1)),
            None => None,
        }
    } else if begins_with_up(text) {
        match plain_key(&text[3..]) {
            Some(found) => Some((What::Up(found.0), found.1)),
            None => None,
        }
    } else if begins_with_repeat(text) {
        match plain_key(&text[7..]) {
            Some(found) => Some((What::Repeat(found.0), found.1)),
            None => None,
        }
    } else {
        None
    }
}

/// Whether the letters are those of `down`. Four letters are compared at once, as a number, the first the least.
fn is_down(letters: [u8; 4]) -> bool
    ensures { IsTrue result → letters ≡ codes "down" }
{
    u32::from_le_bytes(letters) == 0x6e77_6f64
}

/// Whether the letters are those of `up`, a blank and 0.
fn is_up(letters: [u8; 4]) -> bool
    ensures { IsTrue result → letters ≡ codes "up " ++ 0 ∷ [] }
{
    u32::from_le_bytes(letters) == 0x0020_7075
}

/// Whether the letters are the first ones of `repeat`.
fn is_repe(letters: [u8; 4]) -> bool
    ensures { IsTrue result → letters ≡ codes "repe" }
{
    u32::from_le_bytes(letters) == 0x6570_6572
}

fn begins_with_down(text: &[u8]) -> bool
    requires { 11 ≤ length text.now }
    ensures { IsTrue result → text.now ≡ codes "down " ++ drop 5 text.now }
{
    is_down([text[0], text[1], text[2], text[3]]) && text[4] == b' '
}

fn begins_with_up(text: &[u8]) -> bool
    requires { 11 ≤ length text.now }
    ensures { IsTrue result → text.now ≡ codes "up " ++ drop 3 text.now }
{
    is_up([text[0], text[1], text[2], 0])
}

fn begins_with_repeat(text: &[u8]) -> bool
    requires { 11 ≤ length text.now }
    ensures { IsTrue result → text.now ≡ codes "repeat " ++ drop 7 text.now }
{
    is_repe([text[0], text[1], text[2], text[3]])
        && text[4] == b'a'
        && text[5] == b't'
        && text[6] == b' '
}

/// The key whose number begins a text, and what follows the line feed behind the number.
fn plain_key(text: &[u8]) -> Option<(KeyCode, &[u8])>
    requires { 4 ≤ length text.now }
    ensures { IfSome result (λ r. BeginsWithKey text.now r.0 r.1.now) }
{
    if text[2] == b'\n' {
        let key = KeyCode::new(digit(text[0])? * 10 + digit(text[1])?)?;
        Some((key, &text[3..]))
    } else if text[1] == b'\n' {
        let key = KeyCode::new(digit(text[0])?)?;
        Some((key, &text[2..]))
    } else if text[3] == b'\n' && text[0] == b'1' {
        let key = KeyCode::new(100 + digit(text[1])? * 10 + digit(text[2])?)?;
        Some((key, &text[4..]))
    } else {
        None
    }
}

fn digit(byte: u8) -> Option<u8>
    ensures value { IfSome result (λ n. digit_value byte ≡ n) }
    ensures small { IfSome result (λ n. n < 10) }
{
    if byte.is_ascii_digit() {
        Some(byte - b'0')
    } else {
        None
    }
}
