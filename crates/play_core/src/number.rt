//! Numbers in decimal.
ghost use Rattle.std.specs.Prelude.{◌≡◌, ◌+◌, ◌≤◌, ◌++◌, length, decimal};

use crate::output::Output;

/// Adds a number. Most have at most three digits.
#[inline(always)]
pub(crate) fn push_number(text: &mut Output, number: u32)
    requires { length text.old.waiting + length (decimal number) ≤ 65536 }
    ensures written { text.new.written ≡ text.old.written }
    ensures text { text.new.waiting ≡ text.old.waiting ++ decimal number }
{
    let last = b'0' + (number % 10) as u8;
    if number < 10 {
        text.append(&[last]);
    } else if number < 100 {
        text.append(&[b'0' + (number / 10) as u8, last]);
    } else if number < 1000 {
        text.append(&[
            b'0' + (number / 10 / 10) as u8,
            b'0' + (number / 10 % 10) as u8,
            last,
        ]);
    } else {
        push_large_number(text, number);
    }
}

/// Adds a number digit by digit.
fn push_large_number(text: &mut Output, number: u32)
    requires { length text.old.waiting + length (decimal number) ≤ 65536 }
    ensures written { text.new.written ≡ text.old.written }
    ensures text { text.new.waiting ≡ text.old.waiting ++ decimal number }
{
    if number > 9 {
        push_large_number(text, number / 10);
    }
    text.append(&[b'0' + (number % 10) as u8]);
}
