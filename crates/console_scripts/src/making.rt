//! Which cells type a character where they are tapped: by themselves, or behind the dead key of an accent.
ghost use Rattle.std.specs.Prelude.{◌≡◌, ◌<◌, ℕ, true, false, Some};
ghost use Rattle.keymap_core.specs.Maps.{MapValue, accent_at, cell_at};
ghost use Rattle.keymap_core.specs.Numbers.{column_count};
ghost use Rattle.console_scripts.specs.declared.explored.Symbol.{Symbol as SymbolValue};
ghost use Rattle.console_scripts.specs.Typing.{composed_of};
ghost use Rattle.console_scripts.specs.Inner.Courses.{IsMade, Lacks, MakesBy};

use crate::explored::{Symbol, is_symbol};
use crate::typed::{composed, symbol_of};
use console_core::is_usable;
use keymap_core::{Accent, Cell, KEY_COUNT, KeyCode, KeyMap};

/// Whether a tap of the symbol types the character while the accent is pending.
fn is_made_of(map: &KeyMap, index: u8, character: char, then: Symbol) -> bool
    ensures made { result ≡ true → composed_of map.now index then ≡ Some character }
    ensures other { result ≡ false → composed_of map.now index then ≡ Some character → ⊥ }
{
    match composed(map, index, then) {
        Some(made) => made == character,
        None => false,
    }
}

/// Whether a tap of the cell types the character while the accent is pending.
fn is_composed(map: &KeyMap, index: u8, character: char, cell: &Cell) -> bool
    ensures made { result ≡ true → IsMade map.now (Some index) character cell.now }
    ensures other { result ≡ false → IsMade map.now (Some index) character cell.now → ⊥ }
{
    match symbol_of(cell) {
        Some(then) => is_usable(map, index) && is_made_of(map, index, character, then),
        None => false,
    }
}

/// Whether a tap of the cell types the character, while the accent is pending, if one is told.
pub fn is_made(map: &KeyMap, accent: Option<u8>, character: char, cell: &Cell) -> bool
    ensures made { result ≡ true → IsMade map.now accent character cell.now }
    ensures other { result ≡ false → IsMade map.now accent character cell.now → ⊥ }
{
    match accent {
        Some(index) => is_composed(map, index, character, cell),
        None => is_symbol(cell, Symbol::Character(character)),
    }
}

/// Whether some pair of the accent, or its own character, gives the character.
fn gives(accent: &Accent, character: char) -> bool
    ensures { (i : ℕ) (x : SymbolValue) (m : MapValue) → accent_at m i ≡ Some accent.now → result ≡ false
        → composed_of m i x ≡ Some character → ⊥ }
{
    for pair in accent.pairs() {
        if pair.1 == character {
            return true;
        }
    }
    accent.own() == character
}

/// Whether some tap may type the character while the accent is pending, if one is told.
pub fn can_make(map: &KeyMap, accent: Option<u8>, character: char) -> bool
    ensures { result ≡ false → (x : SymbolValue) → MakesBy map.now accent character x → ⊥ }
{
    match accent {
        Some(index) => match map.accent(index) {
            Some(accent) => gives(accent, character),
            None => false,
        },
        None => true,
    }
}

/// Whether a tap of some cell of the slot types the character.
fn is_in_slot(map: &KeyMap, accent: Option<u8>, character: char, slot: u8) -> bool
    ensures { result ≡ false → (column : ℕ) → column < column_count
        → IsMade map.now accent character (cell_at map.now slot column) → ⊥ }
{
    for cell in map.entry(slot).cells() {
        if is_made(map, accent, character, cell) {
            return true;
        }
    }
    false
}

/// Whether a tap of some cell of the key types the character, in either half.
pub fn has_made(map: &KeyMap, accent: Option<u8>, character: char, key: KeyCode) -> bool
    ensures { result ≡ false → Lacks map.now accent character key }
{
    is_in_slot(map, accent, character, key.get())
        || is_in_slot(map, accent, character, key.get() + KEY_COUNT as u8)
}
