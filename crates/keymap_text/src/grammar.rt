//! Definitions, token by token: which token may stand at a place, and when a definition is complete, which it puts into
//! what takes definitions. It sees what tokens mean, and neither bytes nor offsets, and never a map.
ghost use Rattle.std.specs.Prelude.{◌≡◌, ◌<◌, Ok, Err, Result, OnOk, length, if◌then◌else◌, IfSome, ◌≢◌};
ghost use lib.Utf8.{scalar};
ghost use Rattle.keymap_core.specs.Maps.{MapValue, with_accent, with_entry};
ghost use Rattle.keymap_core.specs.Numbers.{column_count, accent_limit, pair_limit};
ghost use Rattle.keymap_text.specs.Inner.Views.{Steps, StepsInto, EndsInto, Leads, grammar_view, IsPlace};
ghost use Rattle.keymap_text.specs.Items as items;
ghost use Rattle.keymap_text.specs.Inner.Grammar as spec;

use crate::fault::TextFaultKind;
use crate::words::{Item, Meaning};
use keymap_core::{Accent, Action, Cell, Definitions, Entry, LockFlag, PAIR_LIMIT, SLOT_LIMIT};
use std::mem::replace;

/// Where a text stands in its row of definitions.
#[derive(Clone, Copy)]
pub(crate) enum Place {
    Definition,
    Cell { slot: u8, index: u8 },
    Lock { slot: u8 },
    AccentCharacter { index: u8 },
    AfterAccent { index: u8 },
    PairBase { index: u8 },
    PairResult { index: u8, base: char },
    PairEnd { index: u8, base: char, result: char },
}

/// The definition that a text is in.
#[derive(Drop)]
pub(crate) struct Grammar {
    pub(crate) place: Place,
    pub(crate) entry: Entry,
    pub(crate) accent: Accent,
}

/// The fault of a token where it is not wanted.
fn refusal(item: &Item) -> TextFaultKind
    ensures { result ≡ items.refusal item.now }
{
    match item {
        Item::Value(Meaning::Unknown) => TextFaultKind::BadWord,
        Item::Value(Meaning::OutOfRange) => TextFaultKind::BadFunction,
        Item::Value(Meaning::Combined) => TextFaultKind::Combined,
        Item::Value(Meaning::Number(_)) => TextFaultKind::Unexpected,
        Item::Value(Meaning::Char(_)) => TextFaultKind::Unexpected,
        Item::Value(Meaning::Act(_)) => TextFaultKind::Unexpected,
        Item::Value(Meaning::Letter(_)) => TextFaultKind::Unexpected,
        Item::Open | Item::Close => TextFaultKind::Unexpected,
    }
}

#[inline(always)]
fn scalar_of(n: u128) -> Result<char, TextFaultKind>
    ensures { result ≡ if scalar n then Ok n else Err TextFaultKind.BadChar }
{
    if n >= 0x110000 {
        return Err(TextFaultKind::BadChar);
    }
    match char::from_u32(n as u32) {
        Some(c) => Ok(c),
        None => Err(TextFaultKind::BadChar),
    }
}

/// The character that a token stands for, where one is wanted.
#[inline(always)]
pub fn character_of(item: &Item) -> Result<char, TextFaultKind>
    ensures { result ≡ items.character item.now }
{
    match item {
        Item::Value(Meaning::Number(n)) => scalar_of(*n),
        Item::Value(Meaning::Char(c)) => Ok(*c),
        other => Err(refusal(other)),
    }
}

#[inline(always)]
pub(crate) fn cell_of(item: &Item) -> Result<Cell, TextFaultKind>
    ensures { result ≡ items.cell item.now }
{
    match item {
        Item::Value(Meaning::Act(a)) => Ok(Cell::Act(*a)),
        other => match character_of(other) {
            Ok(c) => Ok(Cell::Char(c)),
            Err(f) => Err(f),
        },
    }
}

#[inline(always)]
fn lock_of(item: &Item) -> Result<LockFlag, TextFaultKind>
    ensures { result ≡ items.lock item.now }
{
    match item {
        Item::Value(Meaning::Letter(f)) => Ok(*f),
        other => Err(refusal(other)),
    }
}

/// The index of the accent that an action names.
fn accent_index(action: &Action) -> Option<u8>
    ensures value { result ≡ items.accent_index action.now }
    ensures bound { IfSome result (λ index. index < accent_limit) }
{
    match action {
        Action::DeadKey(accent) => Some(accent.get()),
        _ => None,
    }
}

/// Where the first token of a definition leads.
fn first_place(item: &Item) -> Result<Place, TextFaultKind>
    ensures { Leads result (spec.first_of item.now) }
{
    match item {
        Item::Value(Meaning::Number(n)) => {
            if *n < SLOT_LIMIT as u128 {
                Ok(Place::Cell {
                    slot: *n as u8,
                    index: 0,
                })
            } else {
                Err(TextFaultKind::KeyTooLarge)
            }
        }
        Item::Value(Meaning::Act(a)) => match accent_index(a) {
            Some(index) => Ok(Place::AccentCharacter { index }),
            None => Err(TextFaultKind::Unexpected),
        },
        other => Err(refusal(other)),
    }
}

/// Adds a pair, for which there is room, to the accent.
#[inline(always)]
fn push_pair(accent: &mut Accent, base: char, composed: char)
    requires room { length accent.old.pairs < pair_limit }
    requires base { base ≢ 0 }
    ensures { accent.new ≡ spec.with_pair accent.old base composed }
{
    accent.push_pair(base, composed).unwrap();
}

impl Grammar {
    pub(crate) fn new() -> Self
        ensures { result.place ≡ Place.Definition }
    {
        Grammar {
            place: Place::Definition,
            entry: Entry::undefined(),
            accent: Accent::new('\0'),
        }
    }

    /// Takes the next token, and puts the definition that it completes. After an `Err` the value is of no use.
    #[inline(always)]
    pub(crate) fn accept<D: Definitions>(
        &mut self,
        into: &mut D,
        item: &Item,
    ) -> Result<(), TextFaultKind>
        requires { IsPlace self.old.place self.old.accent }
        ensures steps { (m : MapValue) → D.shows into.old m → StepsInto D.shows into.new result
            (spec.step m (grammar_view self.old) item.now) (grammar_view self.new) }
        ensures place { OnOk result (IsPlace self.new.place self.new.accent) }
    {
        match self.place {
            Place::Definition => self.begin(item),
            Place::Cell { slot, index } => self.cell(slot, index, item),
            Place::Lock { slot } => self.lock(into, slot, item),
            Place::AccentCharacter { index } => self.accent_character(index, item),
            Place::AfterAccent { index } => self.after_accent(into, index, item),
            Place::PairBase { index } => self.pair_base(index, item),
            Place::PairResult { index, base } => self.pair_result(index, base, item),
            Place::PairEnd {
                index,
                base,
                result,
            } => self.pair_end(index, base, result, item),
        }
    }

    #[inline(always)]
    fn begin(&mut self, item: &Item) -> Result<(), TextFaultKind>
        ensures steps { (m : MapValue) → Steps result (spec.step m spec.Definition item.now)
            (spec.at m (grammar_view self.new)) }
        ensures place { OnOk result (IsPlace self.new.place self.new.accent) }
    {
        let place = first_place(item)?;
        self.entry = Entry::undefined();
        self.place = place;
        Ok(())
    }

    /// Takes the next token, where a cell is wanted. After an `Err` the value is of no use.
    #[inline(always)]
    fn cell(&mut self, slot: u8, index: u8, item: &Item) -> Result<(), TextFaultKind>
        requires { index < column_count }
        ensures steps { (m : MapValue) → Steps result (spec.step m (spec.CellAt slot index self.old.entry) item.now)
            (spec.at m (grammar_view self.new)) }
        ensures place { OnOk result (IsPlace self.new.place self.new.accent) }
    {
        let cell = cell_of(item)?;
        self.entry.cells[index as usize] = cell;
        self.place = if index == 7 {
            Place::Lock { slot }
        } else {
            Place::Cell {
                slot,
                index: index + 1,
            }
        };
        Ok(())
    }

    #[inline(always)]
    fn lock<D: Definitions>(
        &mut self,
        into: &mut D,
        slot: u8,
        item: &Item,
    ) -> Result<(), TextFaultKind>
        ensures steps { (m : MapValue) → D.shows into.old m → StepsInto D.shows into.new result
            (spec.step m (spec.LockAt slot self.old.entry) item.now) (grammar_view self.new) }
        ensures place { OnOk result (IsPlace self.new.place self.new.accent) }
    {
        let flag = lock_of(item)?;
        self.close_entry(into, slot, flag);
        Ok(())
    }

    /// Puts the entry that is complete.
    #[inline(always)]
    fn close_entry<D: Definitions>(&mut self, into: &mut D, slot: u8, flag: LockFlag)
        ensures shows { (m : MapValue) → D.shows into.old m
            → D.shows into.new (with_entry m slot (record { cells = self.old.entry.cells; flag = flag })) }
        ensures place { self.new.place ≡ Place.Definition }
    {
        self.entry.flag = flag;
        into.define(slot, self.entry);
        self.place = Place::Definition;
    }

    #[inline(always)]
    fn accent_character(&mut self, index: u8, item: &Item) -> Result<(), TextFaultKind>
        requires { index < accent_limit }
        ensures steps { (m : MapValue) → Steps result (spec.step m (spec.AccentCharacter index) item.now)
            (spec.at m (grammar_view self.new)) }
        ensures place { OnOk result (IsPlace self.new.place self.new.accent) }
    {
        let own = character_of(item)?;
        self.accent = Accent::new(own);
        self.place = Place::AfterAccent { index };
        Ok(())
    }

    #[inline(always)]
    fn after_accent<D: Definitions>(
        &mut self,
        into: &mut D,
        index: u8,
        item: &Item,
    ) -> Result<(), TextFaultKind>
        requires { index < accent_limit }
        ensures steps { (m : MapValue) → D.shows into.old m → StepsInto D.shows into.new result
            (spec.step m (spec.AfterAccent index self.old.accent) item.now) (grammar_view self.new) }
        ensures place { OnOk result (IsPlace self.new.place self.new.accent) }
    {
        if let Item::Open = item {
            if self.accent.pairs().len() == PAIR_LIMIT {
                return Err(TextFaultKind::TooManyPairs);
            }
            self.place = Place::PairBase { index };
            return Ok(());
        }
        let place = first_place(item)?;
        self.close_accent(into, index);
        self.entry = Entry::undefined();
        self.place = place;
        Ok(())
    }

    /// Puts the accent that is complete.
    #[inline(never)]
    fn close_accent<D: Definitions>(&mut self, into: &mut D, index: u8)
        requires { index < accent_limit }
        ensures { (m : MapValue) → D.shows into.old m → D.shows into.new (with_accent m index self.old.accent) }
    {
        let accent = replace(&mut self.accent, Accent::new('\0'));
        into.define_accent(index, accent);
    }

    #[inline(always)]
    fn pair_base(&mut self, index: u8, item: &Item) -> Result<(), TextFaultKind>
        requires index { index < accent_limit }
        requires room { length self.old.accent.pairs < pair_limit }
        ensures steps { (m : MapValue) → Steps result (spec.step m (spec.PairBase index self.old.accent) item.now)
            (spec.at m (grammar_view self.new)) }
        ensures place { OnOk result (IsPlace self.new.place self.new.accent) }
    {
        let base = character_of(item)?;
        if base == '\0' {
            return Err(TextFaultKind::ZeroBase);
        }
        self.place = Place::PairResult { index, base };
        Ok(())
    }

    #[inline(always)]
    fn pair_result(&mut self, index: u8, base: char, item: &Item) -> Result<(), TextFaultKind>
        requires index { index < accent_limit }
        requires room { length self.old.accent.pairs < pair_limit }
        requires base { base ≢ 0 }
        ensures steps { (m : MapValue) → Steps result (spec.step m (spec.PairResult index self.old.accent base)
            item.now) (spec.at m (grammar_view self.new)) }
        ensures place { OnOk result (IsPlace self.new.place self.new.accent) }
    {
        let result = character_of(item)?;
        self.place = Place::PairEnd {
            index,
            base,
            result,
        };
        Ok(())
    }

    #[inline(always)]
    fn pair_end(
        &mut self,
        index: u8,
        base: char,
        composed: char,
        item: &Item,
    ) -> Result<(), TextFaultKind>
        requires index { index < accent_limit }
        requires room { length self.old.accent.pairs < pair_limit }
        requires base { base ≢ 0 }
        ensures steps { (m : MapValue) → Steps result (spec.step m (spec.PairEnd index self.old.accent base composed)
            item.now) (spec.at m (grammar_view self.new)) }
        ensures place { OnOk result (IsPlace self.new.place self.new.accent) }
    {
        let Item::Close = item else {
            return Err(refusal(item));
        };
        push_pair(&mut self.accent, base, composed);
        self.place = Place::AfterAccent { index };
        Ok(())
    }

    /// The text ends here: puts the accent that is complete, where a text may end here.
    #[tactic(auto, unfolding(crate::specs::Inner::Grammar::at_end))]
    pub(crate) fn finish<D: Definitions>(&mut self, into: &mut D) -> Result<(), TextFaultKind>
        requires { IsPlace self.old.place self.old.accent }
        ensures { (m : MapValue) → D.shows into.old m → EndsInto D.shows into.new result
            (spec.at_end (spec.at m (grammar_view self.old))) }
    {
        match self.place {
            Place::Definition => {}
            Place::AfterAccent { index } => self.close_accent(into, index),
            _ => return Err(TextFaultKind::EndInside),
        }
        Ok(())
    }
}
