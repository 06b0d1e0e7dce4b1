//! Numbers as the forms write them.
use keymap_core::hex_digit;
use messages::{number, small};
use std::alloc::AllocError;

type Added = Result<(), AllocError>;

/// Adds two hexadecimal digits.
pub(crate) fn push_hex(text: &mut Vec<u8>, byte: u8) -> Added {
    text.push(hex_digit(u32::from(byte / 16)))?;
    text.push(hex_digit(u32::from(byte % 16)))?;
    Ok(())
}

/// Adds at least two decimal digits.
pub(crate) fn push_two(text: &mut Vec<u8>, byte: u8) -> Added {
    if byte < 10 {
        text.push(b'0')?;
    }
    text.extend_from_slice(small(byte).as_slice())
}

/// Adds a count of hundredths of a second, as seconds with six digits behind the point.
pub(crate) fn push_time(text: &mut Vec<u8>, hundredths: u64) -> Added {
    text.extend_from_slice(number(hundredths / 100).as_slice())?;
    text.push(b'.')?;
    push_two(text, (hundredths % 100) as u8)?;
    text.extend_from_slice(b"0000")
}
