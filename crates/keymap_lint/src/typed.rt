//! Characters of ASCII that no keys type.
//!
//! Most keymaps show all of them in columns 0, 1 and 4, where one key held by another one looks: these are typed for
//! sure, and only where one isn't found so a keymap is explored.
ghost use Rattle.std.specs.Prelude.{◌≡◌, ◌<◌, ◌≤◌, ◌&&◌, ℕ, true, false, not, Some, IfOk, IfSome};
ghost use Rattle.std.specs.Prelude.{slice_index_or};
ghost use Rattle.std.specs.BTreeSet.{contains};
ghost use Rattle.std.specs.Ordering.{nat_cmp};
ghost use Rattle.std.specs.Option.{option_to_list};
ghost use Rattle.keymap_core.specs.Below.{gathered};
ghost use Rattle.keymap_core.specs.Maps.{MapValue, cell_at};
ghost use Rattle.keymap_core.specs.Numbers.{key_count};
ghost use Rattle.keymap_core.specs.declared.action.Action.TheVariants as act;
ghost use Rattle.keymap_core.specs.declared.entry.Cell.TheVariants.{Act};
ghost use Rattle.console_scripts.specs.Typing.{CanType};
ghost use Rattle.console_states.specs.Sights.{Lists};
ghost use Rattle.keymap_lint.specs.Typed as spec;
ghost use Rattle.keymap_lint.specs.Typed.{AreTold, AreToldOfFew};
ghost use Rattle.keymap_lint.specs.Ways.{AreSure, IsWay, Selects, IsTypedBy, untyped_character};

use crate::diagnostic::{Diagnostic, Kind};
use crate::spelled::cell_in;
use arrayvec::ArrayVec;
use console_scripts::yield_of;
use console_states::has_few_states;
use keymap_core::{Action, Cell, KEY_COUNT, KeyMap, Modifier, push_if};
use std::alloc::{AllocError, Global};
use std::collections::BTreeSet;

/// Which characters below 128 keys type for sure.
type Sure = [bool; 128];

/// A key that is held while others are tapped, if one is, and the column in which they are looked up.
#[derive(Clone, Copy)]
pub(crate) struct Way {
    holder: Option<u8>,
    column: u8,
}

/// The own character of an accent, if that isn't 0.
fn usable_own(map: &KeyMap, index: u8) -> Option<char>
    ensures { IfSome result (λ c. IsTypedBy map.now (Act (act.DeadKey index)) c) }
{
    let own = map.accent(index)?.own();
    if own == '\0' { None } else { Some(own) }
}

/// What keys type that give this cell: the character, or by a dead key twice the accent's own one.
fn typed_by(map: &KeyMap, cell: &Cell) -> Option<char>
    ensures { IfSome result (λ c. IsTypedBy map.now cell.now c) }
{
    match cell {
        Cell::Char(c) => Some(*c),
        Cell::Act(Action::DeadKey(accent)) => usable_own(map, accent.get()),
        Cell::Act(_) => None,
    }
}

/// Marks a character that keys type.
fn mark_typed(sure: &mut Sure, _map: &KeyMap, c: char)
    requires typed { CanType _map.now c }
    requires sure { AreSure _map.now sure.old }
    ensures { AreSure _map.now sure.new }
{
    let number = u32::from(c);
    if number < 128 {
        sure[number as usize] = true;
    }
}

fn is_held(way: Way, code: u8) -> bool
    ensures { result ≡ false → way.holder ≡ Some code → ⊥ }
{
    match way.holder {
        Some(holder) => holder == code,
        None => false,
    }
}

/// What a key types beside the one that is held.
fn typed_beside(map: &KeyMap, way: Way, code: u8) -> Option<char>
    requires code { code < key_count }
    requires way { IsWay map.now way }
    ensures { IfSome result (λ c. CanType map.now c) }
{
    if is_held(way, code) {
        None
    } else {
        typed_by(map, &cell_in(map, code, way.column))
    }
}

/// Marks it.
fn mark(sure: &mut Sure, map: &KeyMap, way: Way, code: u8)
    requires code { code < key_count }
    requires way { IsWay map.now way }
    requires sure { AreSure map.now sure.old }
    ensures { AreSure map.now sure.new }
{
    if let Some(c) = typed_beside(map, way, code) {
        mark_typed(sure, map, c);
    }
}

/// Marks what all keys type beside it.
fn mark_all(sure: &mut Sure, map: &KeyMap, way: Way)
    requires way { IsWay map.now way }
    requires sure { AreSure map.now sure.old }
    ensures { AreSure map.now sure.new }
{
    for code in 0..KEY_COUNT as u8 {
        mark(sure, map, way, code);
    }
}

fn is_modifier(map: &KeyMap, code: u8, modifier: Modifier) -> bool
    ensures { result ≡ true → cell_at map.now code 0 ≡ Act (act.Mod modifier) }
{
    cell_in(map, code, 0) == Cell::Act(Action::Mod(modifier))
}

/// The first key whose column 0 is the modifier.
fn holder(map: &KeyMap, modifier: Modifier) -> Option<u8>
    ensures { IfSome result (λ k. (k < key_count) × (cell_at map.now k 0 ≡ Act (act.Mod modifier))) }
{
    for code in 0..KEY_COUNT as u8 {
        if is_modifier(map, code, modifier) {
            return Some(code);
        }
    }
    None
}

/// Marks what keys type while one holds this modifier alone, by which they are looked up in this column.
fn mark_held(sure: &mut Sure, map: &KeyMap, modifier: Modifier, column: u8)
    requires selects { Selects modifier column }
    requires sure { AreSure map.now sure.old }
    ensures { AreSure map.now sure.new }
{
    if let Some(code) = holder(map, modifier) {
        let way = Way {
            holder: Some(code),
            column,
        };
        mark_all(sure, map, way);
    }
}

fn none() -> Sure
    ensures { (m : MapValue) → AreSure m result }
{
    [false; 128]
}

/// What keys type for sure: in columns 0, 1 and 4.
fn sure_of(map: &KeyMap) -> Sure
    ensures { AreSure map.now result }
{
    let mut sure = none();
    let base = Way {
        holder: None,
        column: 0,
    };
    mark_all(&mut sure, map, base);
    mark_held(&mut sure, map, Modifier::LeftShift, 1);
    mark_held(&mut sure, map, Modifier::RightShift, 1);
    mark_held(&mut sure, map, Modifier::LeftAlt, 4);
    mark_held(&mut sure, map, Modifier::RightAlt, 4);
    sure
}

/// Whether these are all that are seen, and the blank.
fn are_all(sure: &Sure) -> bool
    ensures { result ≡ true → (c : ℕ) → 0x20 ≤ c → c ≤ 0x7e → slice_index_or sure.now c false ≡ true }
{
    for c in 0x20..0x7f_usize {
        if !sure[c] {
            return false;
        }
    }
    true
}

fn is_seen(c: u8) -> bool
    ensures { result ≡ spec.is_seen c }
{
    0x20 <= c && c <= 0x7e
}

fn is_letter(c: u8) -> bool
    ensures { result ≡ spec.is_letter c }
{
    65 <= c && c <= 90 || 97 <= c && c <= 122
}

/// Whether it is one of them that isn't in the set.
fn is_untyped(typed: &BTreeSet<char>, c: u8) -> bool
    ensures { result ≡ (spec.is_seen c && not (contains nat_cmp typed.now c)) }
{
    is_seen(c) && !typed.contains(&char::from(c))
}

/// Those that aren't in the set.
#[tactic(auto, using(crate::proofs::Lists::gathered_rules))]
fn untyped(typed: &BTreeSet<char>) -> ArrayVec<u8, KEY_COUNT>
    ensures { result.items ≡ gathered (untyped_character typed.now) 127 }
{
    let mut characters = ArrayVec::new();
    for c in 0..0x7f {
        push_if(&mut characters, c, is_untyped(typed, c));
    }
    characters
}

/// Whether of the 52 letters at least 40 have keys, where these have none.
fn has_most_letters(characters: &[u8]) -> bool
    ensures { result ≡ spec.has_most_letters characters.now }
{
    characters.iter().filter(|c| is_letter(**c)).count() <= 12
}

/// What is told where keys type these characters and the search doesn't give up.
fn told(typed: &BTreeSet<char>) -> ArrayVec<u8, KEY_COUNT>
    ensures { (m : MapValue) → Lists (λ c. CanType m c) typed.now.keys → AreToldOfFew m result.items }
{
    let characters = untyped(typed);
    if has_most_letters(characters.as_slice()) {
        characters
    } else {
        ArrayVec::new()
    }
}

/// What is said of a text where there are such characters.
pub(crate) fn cannot_type(untyped: &[u8]) -> Option<Diagnostic>
    ensures { option_to_list result ≡ spec.cannot_type untyped.now }
{
    if untyped.is_empty() {
        None
    } else {
        Some(Diagnostic {
            place: None,
            kind: Kind::CannotType,
        })
    }
}

/// The characters from 0x20 to 0x7e that no keys type, in ascending order; none where so do more than 12 letters, or
/// where more states can be reached than a search goes over: that is asked again where there are such characters, since
/// a few states can tell what all of more do.
pub(crate) fn untyped_of(alloc: Global, map: &KeyMap) -> Result<ArrayVec<u8, KEY_COUNT>, AllocError>
    ensures { IfOk result (λ cs. AreTold map.now cs.items) }
{
    if are_all(&sure_of(map)) {
        return Ok(ArrayVec::new());
    }
    let Some(found) = yield_of(alloc, map)? else {
        return Ok(ArrayVec::new());
    };
    let characters = told(&found.typed);
    if characters.is_empty() {
        return Ok(characters);
    }
    if has_few_states(alloc, map)? {
        Ok(characters)
    } else {
        Ok(ArrayVec::new())
    }
}
