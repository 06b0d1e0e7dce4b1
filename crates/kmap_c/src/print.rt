//! The printed form of the keymap that tables show, in a buffer of the caller.
ghost use Rattle.std.specs.Prelude.{ℕ, ◌^◌, ◌≤◌, List, ◌++◌};
ghost use Rattle.keymap_core.specs.Maps.{MapValue};
ghost use Rattle.keymap_text.specs.Printed.{printed, key_lines, accent_lines};
ghost use Rattle.kmap_c.specs.Buffers.{HasPut};

use crate::buffer::put;
use keymap_core::Keymap;
use keymap_tables::Tables;
use keymap_text::{accent_line, key_line};

/// Puts a line for each slot in use in front.
fn print_keys<'a>(tables: &Tables<'a>, text: &mut [u8]) -> usize
    ensures text { (m : MapValue) → ⟦<Tables<'a> as Keymap>⟧.shows tables.now m
        → HasPut (key_lines m) text.old result text.new }
    ensures few { result ≤ 2 ^ 20 }
{
    let mut end = 0;
    for slot in 0..tables.n_keys() {
        let line = key_line(slot as u8, &tables.entry_at(slot as u8));
        end = put(text, end, line.as_slice());
    }
    end
}

/// Puts a line for each accent in use behind so many bytes.
fn print_accents<'a>(tables: &Tables<'a>, text: &mut [u8], at: usize) -> usize
    requires { at ≤ 2 ^ 20 }
    ensures { (m : MapValue) (bytes old : List ℕ) → ⟦<Tables<'a> as Keymap>⟧.shows tables.now m
        → HasPut bytes old at text.old → HasPut (bytes ++ accent_lines m) old result text.new }
{
    let mut end = at;
    for index in 0..tables.n_accs() {
        let line = accent_line(index, &tables.accent_at(index));
        end = put(text, end, line.as_slice());
    }
    end
}

/// Puts the printed form of the keymap in front, where there is room for it, and answers how many bytes it has.
pub(crate) fn print_tables<'a>(tables: &Tables<'a>, text: &mut [u8]) -> usize
    ensures { (m : MapValue) → ⟦<Tables<'a> as Keymap>⟧.shows tables.now m
        → HasPut (printed m) text.old result text.new }
{
    let keys = print_keys(tables, text);
    print_accents(tables, text, keys)
}
