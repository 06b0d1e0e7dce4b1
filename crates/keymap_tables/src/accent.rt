//! An accent as its numbers: number 0 is its own character, 1 + 2j the base of pair j, and 2 + 2j its result. Its image
//! is these, and zeros.
ghost use Rattle.std.specs.Prelude.{◌≡◌, ◌+◌, ◌*◌, ◌<◌, ◌≤◌, length, MatchOption};
ghost use Rattle.arrayvec.specs.ArrayVec.{array_vec_len};
ghost use Rattle.keymap_core.specs.Numbers.{pair_limit};
ghost use Rattle.keymap_tables.specs.Fits.{AccentFits, number_in};
ghost use Rattle.keymap_tables.specs.Image.{accent_bytes};
ghost use Rattle.keymap_tables.specs.Inner.Firsts.{IsFirstWideNumber};
ghost use Rattle.keymap_tables.specs.Layouts.{narrow, accent_size};

use crate::layout::{ACCENT, Layout, NARROW_MOST};
use crate::slot::{push_number, push_zeros};
use arrayvec::ArrayVec;
use keymap_core::Accent;

/// How many numbers an accent has: its own character, and two for each pair.
fn number_count(accent: &Accent) -> usize
    ensures count { result ≡ 1 + 2 * length accent.now.pairs }
    ensures few { length accent.now.pairs ≤ pair_limit }
{
    1 + 2 * accent.pairs().len()
}

/// A number of an accent.
fn number_at(accent: &Accent, index: usize) -> char
    requires { index < 1 + 2 * length accent.now.pairs }
    ensures { result ≡ number_in accent.now index }
{
    if index == 0 {
        return accent.own();
    }
    let (base, composed) = accent.pairs()[(index - 1) / 2];
    if index % 2 == 1 { base } else { composed }
}

/// Puts the bytes of an accent where none are: its caller has the one copy of them on the stack.
pub(crate) fn push_accent(image: &mut ArrayVec<u8, ACCENT>, layout: Layout, accent: &Accent)
    requires { array_vec_len image.old ≡ 0 }
    ensures bytes { image.new.items ≡ accent_bytes layout accent.now }
    ensures whole { length image.new.items ≡ accent_size layout }
{
    for index in 0..number_count(accent) {
        push_number(image, layout, number_at(accent, index) as u32);
    }
    push_zeros(image, layout.accent());
}

/// The first number of an accent that is above 255.
pub(crate) fn wide_number(accent: &Accent) -> Option<u8>
    ensures { MatchOption result (AccentFits narrow accent.now)
        (IsFirstWideNumber (number_in accent.now) (accent_size narrow)) }
{
    for index in 0..number_count(accent) {
        if number_at(accent, index) as u32 > NARROW_MOST {
            return Some(index as u8);
        }
    }
    None
}
