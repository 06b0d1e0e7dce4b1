//! The number of a character as people write it.
ghost use Rattle.std.specs.Prelude.{◌≡◌, ◌<◌, ◌∷◌, []};
ghost use Rattle.std.specs.Char.{digit_char};
ghost use Rattle.keymap_core.specs.CodePoints as spec;

use arrayvec::ArrayVec;

/// The lower case hexadecimal digit of a number below 16.
pub fn hex_digit(digit: u32) -> u8
    requires { digit < 16 }
    ensures { result ≡ digit_char digit }
{
    if digit < 10 {
        b'0' + digit as u8
    } else {
        b'a' + (digit - 10) as u8
    }
}

/// The number of a character in hexadecimal digits, six of them.
fn six_digits(number: u32) -> [u8; 6]
    ensures { result ≡ spec.digit_at number 0x100000 ∷ spec.digit_at number 0x10000 ∷ spec.digit_at number 0x1000
        ∷ spec.digit_at number 0x100 ∷ spec.digit_at number 0x10 ∷ spec.digit_at number 1 ∷ [] }
{
    [
        hex_digit(number / 0x10_0000 % 16),
        hex_digit(number / 0x1_0000 % 16),
        hex_digit(number / 0x1000 % 16),
        hex_digit(number / 0x100 % 16),
        hex_digit(number / 0x10 % 16),
        hex_digit(number % 16),
    ]
}

/// The number of a character in lower case hexadecimal digits, four to six of them.
#[tactic(auto, unfolding(crate::specs::CodePoints::code_digits))]
pub fn code_digits(c: char) -> ArrayVec<u8, 6>
    ensures { result.items ≡ spec.code_digits c }
{
    let number = u32::from(c);
    let digits = six_digits(number);
    let mut text = ArrayVec::new();
    if number < 0x1_0000 {
        text.try_extend_from_slice(&digits[2..]).unwrap();
    } else if number < 0x10_0000 {
        text.try_extend_from_slice(&digits[1..]).unwrap();
    } else {
        text.try_extend_from_slice(&digits).unwrap();
    }
    text
}

/// The number of a character behind `U+`, in four hexadecimal digits or more.
#[tactic(auto, unfolding(crate::specs::CodePoints::code_text))]
pub fn code_text(c: char) -> ArrayVec<u8, 8>
    ensures { result.items ≡ spec.code_text c }
{
    let mut text = ArrayVec::new();
    text.try_extend_from_slice(b"U+").unwrap();
    text.try_extend_from_slice(code_digits(c).as_slice())
        .unwrap();
    text
}
