//! What comes of taps: the characters that keys can type, and the actions, by the places that taps look up.
ghost use Rattle.std.specs.Prelude.{◌≡◌, ◌+◌, ◌<◌, ◌↔◌, ℕ, true, false, Some, Ok, IfOk, OnOk, MatchOption};
ghost use Rattle.std.specs.List.{Contains};
ghost use Rattle.console_core.specs.Answers.{usable};
ghost use Rattle.keymap_core.specs.Maps.{MapValue, accent_at};
ghost use Rattle.console_states.specs.Moves.{alone};
ghost use Rattle.console_states.specs.Sticking.{ReachesMoreThan, state_limit};
ghost use Rattle.keymap_core.specs.Actions.{IsAction, code_of};
ghost use Rattle.console_scripts.specs.Types.{Act, Action as ActionValue};
ghost use Rattle.console_scripts.specs.declared.explored.Symbol.{Symbol as SymbolValue};
ghost use Rattle.console_scripts.specs.declared.explored.Symbol.TheVariants as symbol;
ghost use Rattle.console_scripts.specs.Typing.{AreGiven, IsYield, composed_of, is_giving as is_giving_in};
ghost use Rattle.console_scripts.specs.Inner.Places.{ArePlaces, Gains, place_count};
ghost use Rattle.console_scripts.specs.Inner.Tapped.{ArePlacesOf, AreMarkedSymbols, GivesAt, HasCode, HasSymbol};
ghost use Rattle.console_scripts.specs.Inner.Tapped.{HasCharacter, IsSymbolAt, has_symbol, symbol_in};
ghost use Rattle.console_scripts.specs.Inner.Tapped.{Composes, IsComposed, TellsTyped};

use crate::explored::{Symbol, explore};
use crate::few::{are_all_marked, cell_at, few_places};
use crate::places::Marks;
use console_core::is_usable;
use console_states::Held;
use keymap_core::{Accent, Action, COLUMN_COUNT, Cell, KeyMap, Keymap, SLOT_LIMIT};
use std::alloc::{AllocError, Global};
use std::collections::BTreeSet;

/// What comes of taps of keys.
#[derive(Drop)]
pub struct Yield {
    /// The characters that keys can type.
    pub typed: BTreeSet<char>,
    /// Which actions a tap gives, by their codes.
    pub given: [bool; 256],
}

/// Symbols that can be tapped.
#[derive(Drop)]
struct Tapped {
    characters: BTreeSet<char>,
    /// The accents whose dead keys can be.
    dead_keys: BTreeSet<u8>,
}

/// Places that taps look up, those that they do while meta is off, and whether it is known that these are the same.
#[derive(Drop)]
pub(crate) struct Places {
    all: Marks,
    plain: Marks,
    are_alike: bool,
    /// Whether they are all that taps look up. Else there are more than 65,536 states.
    pub(crate) is_complete: bool,
}

/// The symbol that the cell is.
pub(crate) fn symbol_of(cell: &Cell) -> Option<Symbol>
    ensures { result ≡ symbol_in cell.now }
{
    match cell {
        Cell::Char(c) => Some(Symbol::Character(*c)),
        Cell::Act(Action::DeadKey(accent)) => Some(Symbol::DeadKey(accent.get())),
        Cell::Act(_) => None,
    }
}

/// What a tap of the symbol types while the accent is pending.
pub(crate) fn composed(map: &KeyMap, index: u8, then: Symbol) -> Option<char>
    ensures { result ≡ composed_of map.now index then }
{
    match then {
        Symbol::Character(c) => {
            if c == ' ' {
                map.own(index)
            } else {
                map.composed(index, c)
            }
        }
        Symbol::DeadKey(dead) => { if dead == index { map.own(index) } else { None } }
    }
}

/// The base of the pair.
fn base_of(pair: &(char, char)) -> Symbol
    ensures { result ≡ symbol.Character pair.now.0 }
{
    Symbol::Character(pair.0)
}

impl Tapped {
    fn new(alloc: Global) -> Tapped
        ensures { (x : SymbolValue) → HasSymbol result x → ⊥ }
    {
        Tapped {
            characters: BTreeSet::new(alloc),
            dead_keys: BTreeSet::new(alloc),
        }
    }

    fn has(&self, symbol: Symbol) -> bool
        ensures { result ≡ has_symbol self.now symbol }
    {
        match symbol {
            Symbol::Character(c) => self.characters.contains(&c),
            Symbol::DeadKey(index) => self.dead_keys.contains(&index),
        }
    }

    fn add(&mut self, symbol: Symbol) -> Result<(), AllocError>
        ensures { OnOk result (Gains (HasSymbol self.old) (HasSymbol self.new) (λ x. x ≡ symbol)) }
    {
        match symbol {
            Symbol::Character(c) => {
                self.characters.insert(c)?;
                Ok(())
            }
            Symbol::DeadKey(index) => {
                self.dead_keys.insert(index)?;
                Ok(())
            }
        }
    }

    /// Adds the symbol at the place, if one is there and the place is marked.
    fn add_at(&mut self, map: &KeyMap, marks: &Marks, place: usize) -> Result<(), AllocError>
        requires { place < place_count }
        ensures { OnOk result (Gains (HasSymbol self.old) (HasSymbol self.new)
            (λ x. IsSymbolAt map.now marks.now place x)) }
    {
        if !marks[place] {
            return Ok(());
        }
        let Some(symbol) = symbol_of(&cell_at(map, place)) else {
            return Ok(());
        };
        self.add(symbol)
    }

    /// The symbols at marked places.
    fn of(alloc: Global, map: &KeyMap, marks: &Marks) -> Result<Tapped, AllocError>
        ensures { IfOk result (λ tapped. AreMarkedSymbols map.now marks.now tapped) }
    {
        let mut tapped = Tapped::new(alloc);
        for place in 0..SLOT_LIMIT * COLUMN_COUNT {
            tapped.add_at(map, marks, place)?;
        }
        Ok(tapped)
    }
}

/// Adds what a tap of the symbol types while the accent is pending, if it is one of these.
fn add_made(
    typed: &mut BTreeSet<char>,
    map: &KeyMap,
    plain: &Tapped,
    index: u8,
    then: Symbol,
) -> Result<(), AllocError>
    ensures { OnOk result (Gains (HasCharacter typed.old) (HasCharacter typed.new)
        (λ c. Composes map.now plain.now index c then)) }
{
    if !plain.has(then) {
        return Ok(());
    }
    let Some(made) = composed(map, index, then) else {
        return Ok(());
    };
    typed.insert(made)?;
    Ok(())
}

/// Adds what the bases of the accent's pairs type while it is pending.
fn add_pairs(
    typed: &mut BTreeSet<char>,
    map: &KeyMap,
    plain: &Tapped,
    accent: &Accent,
    index: u8,
) -> Result<(), AllocError>
    ensures { OnOk result (Gains (HasCharacter typed.old) (HasCharacter typed.new) (λ c. (p : ℕ × ℕ)
        × Contains accent.now.pairs p × Composes map.now plain.now index c (symbol.Character p.0))) }
{
    for pair in accent.pairs() {
        add_made(typed, map, plain, index, base_of(pair))?;
    }
    Ok(())
}

/// Whether the accent is usable and its dead key is one of these.
fn is_offered(tapped: &Tapped, accent: &Accent, index: u8) -> bool
    ensures offered { result ≡ true → (m : MapValue) → accent_at m index ≡ Some accent.now
        → (usable m index ≡ true) × HasSymbol tapped.now (symbol.DeadKey index) }
    ensures none { result ≡ false → (m : MapValue) → accent_at m index ≡ Some accent.now → usable m index ≡ true
        → HasSymbol tapped.now (symbol.DeadKey index) → ⊥ }
{
    if accent.own() == '\0' {
        return false;
    }
    tapped.has(Symbol::DeadKey(index))
}

/// Adds what is typed while the accent is pending, if its dead key can be tapped.
fn add_accent(
    typed: &mut BTreeSet<char>,
    map: &KeyMap,
    tapped: &Tapped,
    plain: &Tapped,
    accent: &Accent,
    index: u8,
) -> Result<(), AllocError>
    requires { accent_at map.now index ≡ Some accent.now }
    ensures { OnOk result (Gains (HasCharacter typed.old) (HasCharacter typed.new) (λ c. (x : SymbolValue)
        × IsComposed map.now tapped.now plain.now index c x)) }
{
    if !is_offered(tapped, accent, index) {
        return Ok(());
    }
    add_pairs(typed, map, plain, accent, index)?;
    add_made(typed, map, plain, index, Symbol::Character(' '))?;
    add_made(typed, map, plain, index, Symbol::DeadKey(index))?;
    Ok(())
}

/// Adds what is typed while an accent is pending whose dead key can be tapped.
fn add_composed(
    typed: &mut BTreeSet<char>,
    map: &KeyMap,
    tapped: &Tapped,
    plain: &Tapped,
) -> Result<(), AllocError>
    ensures { OnOk result (Gains (HasCharacter typed.old) (HasCharacter typed.new) (λ c. (i : ℕ) × (x : SymbolValue)
        × IsComposed map.now tapped.now plain.now i c x)) }
{
    let mut index = 0;
    while let Some(accent) = map.accent(index) {
        add_accent(typed, map, tapped, plain, accent, index)?;
        index += 1;
    }
    Ok(())
}

/// Characters that keys can type, by what stands at the places: all of them, if the places are complete.
pub(crate) fn typed_by(
    alloc: Global,
    map: &KeyMap,
    places: &Places,
) -> Result<BTreeSet<char>, AllocError>
    requires { ArePlacesOf map.now places.now }
    ensures { IfOk result (λ set. TellsTyped map.now places.now.is_complete set) }
{
    let plain = Tapped::of(alloc, map, &places.plain)?;
    let mut typed = plain.characters.clone()?;
    if places.are_alike {
        add_composed(&mut typed, map, &plain, &plain)?;
        return Ok(typed);
    }
    let tapped = Tapped::of(alloc, map, &places.all)?;
    add_composed(&mut typed, map, &tapped, &plain)?;
    Ok(typed)
}

/// Whether a tap that looks up the action gives it.
fn is_giving(map: &KeyMap, action: &Action) -> bool
    ensures { result ≡ is_giving_in map.now action.now }
{
    match action {
        Action::Nop | Action::Mod(_) | Action::Lock(_) => false,
        Action::DeadKey(accent) => is_usable(map, accent.get()),
        _ => true,
    }
}

/// The code of the action that the cell is, if a tap that looks it up gives one.
fn given_code(map: &KeyMap, cell: &Cell) -> Option<u8>
    ensures { MatchOption result ((a : ActionValue) → cell.now ≡ Act a → is_giving_in map.now a ≡ true → ⊥)
        (λ c. (a : ActionValue) × (cell.now ≡ Act a) × IsAction a × (is_giving_in map.now a ≡ true)
        × (code_of a ≡ c)) }
{
    match cell {
        Cell::Act(action) => {
            if is_giving(map, action) {
                Some(action.code())
            } else {
                None
            }
        }
        Cell::Char(_) => None,
    }
}

/// Marks the code of the action at the place, if a tap gives it.
fn give_at(given: &mut [bool; 256], map: &KeyMap, marks: &Marks, place: usize)
    requires { place < place_count }
    ensures { Gains (HasCode given.old) (HasCode given.new) (λ c. GivesAt map.now marks.now place c) }
{
    if !marks[place] {
        return;
    }
    if let Some(code) = given_code(map, &cell_at(map, place)) {
        given[usize::from(code)] = true;
    }
}

/// No codes.
fn no_codes() -> [bool; 256]
    ensures { (c : ℕ) → HasCode result c → ⊥ }
{
    [false; 256]
}

/// Which actions a tap gives.
fn given_by(map: &KeyMap, marks: &Marks) -> [bool; 256]
    requires { ArePlaces map.now false true marks.now }
    ensures { AreGiven map.now result }
{
    let mut given = no_codes();
    for place in 0..SLOT_LIMIT * COLUMN_COUNT {
        give_at(&mut given, map, marks, place);
    }
    given
}

/// The places that taps look up in the states that presses lead to, of which 65,536 are met at most.
fn places_met(alloc: Global, map: &KeyMap) -> Result<Places, AllocError>
    ensures { IfOk result (ArePlacesOf map.now) }
{
    let explored = explore(alloc, map, &Held::start())?;
    let all = explored.places(alloc, false)?;
    let plain = explored.places(alloc, true)?;
    Ok(Places {
        all,
        plain,
        are_alike: false,
        is_complete: explored.is_complete,
    })
}

/// The places that taps look up, without a search where those of a few states are all.
pub(crate) fn places_of(alloc: Global, map: &KeyMap) -> Result<Places, AllocError>
    ensures { IfOk result (ArePlacesOf map.now) }
{
    let few = few_places(alloc, map)?;
    if !are_all_marked(map, &few) {
        return places_met(alloc, map);
    }
    Ok(Places {
        all: few,
        plain: few,
        are_alike: true,
        is_complete: true,
    })
}

/// What comes of taps, or nothing where there are more than 65,536 states.
pub fn yield_of(alloc: Global, map: &KeyMap) -> Result<Option<Yield>, AllocError>
    ensures { IfOk result (λ r. MatchOption r ((p : ℕ) × ReachesMoreThan (alone map.now) state_limit p)
        (IsYield map.now)) }
{
    let places = places_of(alloc, map)?;
    if !places.is_complete {
        return Ok(None);
    }
    let typed = typed_by(alloc, map, &places)?;
    let given = given_by(map, &places.all);
    Ok(Some(Yield { typed, given }))
}
