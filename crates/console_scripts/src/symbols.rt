//! The keys that have a symbol in some cell: no other key can be tapped for it, in whatever state.
ghost use Rattle.std.specs.Prelude.{◌≡◌, ◌<◌, ℕ, false};
ghost use Rattle.keymap_core.specs.Maps.{cell_at};
ghost use Rattle.keymap_core.specs.Numbers.{column_count};
ghost use Rattle.console_scripts.specs.Inner.Symbols.{AreKeysWith, LacksSymbol};
ghost use Rattle.console_scripts.specs.Typing.{cell_of};

use crate::explored::{Symbol, is_symbol};
use keymap_core::{KEY_COUNT, KeyCode, KeyMap, key_with};

/// Whether some cell of the slot is the symbol.
fn is_in_slot(map: &KeyMap, slot: u8, symbol: Symbol) -> bool
    ensures { result ≡ false → (column : ℕ) → column < column_count
        → cell_at map.now slot column ≡ cell_of symbol → ⊥ }
{
    for cell in map.entry(slot).cells() {
        if is_symbol(cell, symbol) {
            return true;
        }
    }
    false
}

/// Whether some cell of the key is the symbol, in either half.
fn has_symbol(map: &KeyMap, key: KeyCode, symbol: Symbol) -> bool
    ensures { result ≡ false → LacksSymbol map.now symbol key }
{
    is_in_slot(map, key.get(), symbol) || is_in_slot(map, key.get() + KEY_COUNT as u8, symbol)
}

/// Whether each key has the symbol in some cell.
pub fn keys_with(map: &KeyMap, symbol: Symbol) -> [bool; KEY_COUNT]
    ensures { AreKeysWith map.now symbol result }
{
    let mut have = [false; KEY_COUNT];
    for code in 0..KEY_COUNT as u8 {
        if has_symbol(map, key_with(code), symbol) {
            have[code as usize] = true;
        }
    }
    have
}
