//! The events that type characters, one after another: each by a way near the state where the character before it has
//! left the locks, if there is one there.
ghost use Rattle.std.specs.Prelude.{◌≡◌, ◌++◌, ◌∷◌, [], None, Some, reverse, OnOk, IfOk, IfErr, MatchOption};
ghost use Rattle.keymap_core.specs.Maps.{MapValue};
ghost use Rattle.console_scripts.specs.Typing.{AreTyped, IsSearchError, IsTypingError};
ghost use Rattle.console_scripts.specs.Inner.Exploring.{AreKnown, AreExplorations, IsExplored, IsOrigin, CanReturn};
ghost use Rattle.console_scripts.specs.Inner.Exploring.{IsExplored, IsExploredFrom, Leads, Leaves, TypesOne};
ghost use Rattle.console_scripts.specs.Inner.Exploring.{GoesHome, map_of_explored};
ghost use Rattle.console_scripts.specs.Inner.Routes.{HasEntry};
ghost use Rattle.console_states.specs.Moves.{alone, start};
ghost use Rattle.console_states.specs.Searching.{state_of};
ghost use Rattle.console_scripts.specs.Ways.{GoWaysFrom, HasNoWayFrom, IsTypedAlone, ending_with};
ghost use Rattle.console_scripts.specs.Inner.Seeking.{AreReached};
ghost use Rattle.console_core.specs.declared.event.Event.TheVariants as event;
ghost use Rattle.keymap_core.specs.Bounds.{IsMap};
ghost use Rattle.keyboard.specs.declared.board.Board.{Board as BoardValue};

use crate::classes::Class;
use crate::courses::{Found, Target};
use crate::explored::{Explored, explore};
use crate::seeking::Seeker;
use crate::showing::tap;
use console_core::Event;
use console_states::Held;
use indexmap::IndexMap;
use keyboard::Board;
use keymap_core::KeyMap;
use keymap_core::laws::every_keymap_is_within_the_bounds;
use std::alloc::{AllocError, Global};
use std::mem::replace;

/// A character, and how many events there are up to the last of those that type it, behind which no key is pressed.
#[derive(Clone, Copy, Debug, PartialEq, Eq)]
pub struct Keyed {
    pub character: char,
    pub end: usize,
}

/// Characters, and the events that type them one after another: presses of released keys and releases of pressed ones.
/// The events behind the end of the last character leave a console as a new one.
#[derive(Debug, Drop)]
pub struct Typing {
    pub keyed: Vec<Keyed>,
    pub events: Vec<Event>,
}

/// Why characters aren't typed.
#[derive(Clone, Copy, Debug, PartialEq, Eq)]
pub enum TypingError {
    Memory,
    /// No keys can type the character at this place, the first such.
    NoWay(usize),
    /// Moves lead to more than 65,536 states, and none of those that were met serves.
    TooManyStates,
}

impl From<AllocError> for TypingError {
    ghost use Rattle.std.specs.Prelude.{◌≡◌};
    ghost use Rattle.console_scripts.specs.declared.typing.TypingError.TheVariants.{Memory};

    ghost from_gives = { λ _ e. e ≡ Memory };

    fn from(_e: AllocError) -> TypingError {
        TypingError::Memory
    }
}

/// The state behind events that type a character, the class of the way that they go, and how many presses it has before
/// the last.
#[derive(Clone, Copy, Debug)]
pub struct Step {
    pub next: Held,
    pub class: Class,
    pub before: usize,
}

/// How something is typed.
#[derive(Clone, Copy)]
pub enum Typed {
    /// By events that lead there.
    To(Step),
    NoWay,
    TooManyStates,
}

/// What was explored from each state where characters began.
type Explorations<'m> = IndexMap<Held, Explored<'m>>;

/// Explores the states from this one, unless that was done.
fn see<'m>(
    explorations: &mut Explorations<'m>,
    alloc: Global,
    map: &'m KeyMap,
    from: &Held,
) -> Result<(), AllocError>
    requires explorations { AreExplorations map.now explorations.old.entries }
    requires origin { IsOrigin (state_of from.now) }
    ensures explorations { OnOk result (AreExplorations map.now explorations.new.entries) }
    ensures seen { OnOk result (HasEntry explorations.new.entries (state_of from.now)) }
{
    if !explorations.contains_key(from) {
        let explored = explore(alloc, map, from)?;
        explorations.insert(*from, explored)?;
    }
    Ok(())
}

/// What was explored from the state.
fn explored_from<'t, 'm>(explorations: &'t Explorations<'m>, from: &Held) -> &'t Explored<'m>
    requires { HasEntry explorations.now.entries (state_of from.now) }
    ensures { (m : MapValue) → AreExplorations m explorations.now.entries
        → IsExploredFrom m (state_of from.now) result.now }
{
    match explorations.get(from) {
        Some(explored) => explored,
        None => unreachable!(),
    }
}

/// A character, and the state from which it is to be typed.
#[derive(Clone, Copy, Debug, PartialEq, Eq, Hash)]
struct Sought {
    from: Held,
    character: char,
}

/// The events that type it, and what they come to.
#[derive(Debug, Drop)]
struct Kept {
    events: Vec<Event>,
    step: Step,
}

/// What was typed before.
type Known = IndexMap<Sought, Kept>;

/// Adds the events that typed the character from the state before, and answers what they come to, if it was.
fn recall(
    known: &Known,
    events: &mut Vec<Event>,
    sought: &Sought,
) -> Result<Option<Step>, AllocError>
    ensures { IfOk result (λ r. MatchOption r (events.new.items ≡ events.old.items)
        (λ step. (b : BoardValue) (m : MapValue) → AreKnown b m known.now.entries
        → TypesOne b m (ending_with None sought.now.character) (state_of sought.now.from) (reverse events.old.items)
        (reverse events.new.items) step)) }
{
    match known.get(sought) {
        Some(found) => {
            events.extend_from_slice(&found.events)?;
            Ok(Some(found.step))
        }
        None => Ok(None),
    }
}

/// Keeps the events, which type the character from the state.
fn keep(
    known: &mut Known,
    alloc: Global,
    sought: &Sought,
    events: &[Event],
    step: Step,
) -> Result<(), AllocError>
    ensures { OnOk result ((b : BoardValue) (m : MapValue) → AreKnown b m known.old.entries
        → TypesOne b m (ending_with None sought.now.character) (state_of sought.now.from) [] (reverse events.now) step
        → AreKnown b m known.new.entries) }
{
    let mut kept = Vec::new(alloc);
    kept.extend_from_slice(events)?;
    let found = Kept { events: kept, step };
    known.insert(*sought, found)?;
    Ok(())
}

fn push_keyed(keyed: &mut Vec<Keyed>, one: Keyed) -> Result<(), AllocError>
    ensures { OnOk result (keyed.new.items ≡ keyed.old.items ++ one ∷ []) }
{
    keyed.push(one)?;
    Ok(())
}

/// Adds the events of the way, and those behind it to where no key holds a modifier.
fn go(explored: &Explored, events: &mut Vec<Event>, found: &Found) -> Result<Held, AllocError>
    requires explored { IsExplored explored.now }
    requires route { HasEntry explored.now.routes.entries (state_of found.now.held) }
    ensures { IfOk result (λ next. IsOrigin (state_of found.now.held)
        → Leaves (alone (map_of_explored explored.now)) (state_of found.now.held)
        (event.Release found.now.key ∷ event.Press found.now.key
        ∷ (reverse found.now.events.items ++ reverse events.old.items)) (reverse events.new.items) (state_of next)) }
{
    events.extend_from_slice(&found.events)?;
    tap(events, found.key)?;
    let next = explored.leave(events, &found.held)?;
    Ok(next)
}

/// What was explored and typed before, and the events so far.
#[derive(Drop)]
pub struct Scribe<'m> {
    alloc: Global,
    explorations: Explorations<'m>,
    seeker: Seeker,
    known: Known,
    events: Vec<Event>,
}

impl<'m> Scribe<'m> {
    /// Nothing was explored or typed.
    pub fn new(alloc: Global, board: Board) -> Scribe<'m>
        ensures explorations { (m : MapValue) → AreExplorations m result.explorations.entries }
        ensures board { result.seeker.board ≡ board }
        ensures reached { (m : MapValue) → AreReached board m result.seeker.courses.entries }
        ensures known { (m : MapValue) → AreKnown board m result.known.entries }
        ensures events { result.events.items ≡ [] }
    {
        let seeker = Seeker::new(alloc, board);
        Scribe {
            alloc,
            explorations: IndexMap::new(alloc),
            seeker,
            known: IndexMap::new(alloc),
            events: Vec::new(alloc),
        }
    }

    /// Adds the events that type the character from the state, by a way of the first class that has one.
    fn type_from(
        &mut self,
        map: &'m KeyMap,
        from: &Held,
        target: Target,
    ) -> Result<Typed, AllocError>
        requires bounds { IsMap map.now }
        requires explorations { AreExplorations map.now self.old.explorations.entries }
        requires reached { AreReached self.old.seeker.board map.now self.old.seeker.courses.entries }
        requires can_return { CanReturn map.now (state_of from.now) }
        ensures explorations { OnOk result (AreExplorations map.now self.new.explorations.entries) }
        ensures board { OnOk result (self.new.seeker.board ≡ self.old.seeker.board) }
        ensures reached { OnOk result (AreReached self.new.seeker.board map.now self.new.seeker.courses.entries) }
        ensures known { OnOk result (self.new.known ≡ self.old.known) }
        ensures leads { IfOk result (λ r. Leads self.old.seeker.board map.now target (state_of from.now)
            (reverse self.old.events.items) (reverse self.new.events.items) r) }
    {
        see(&mut self.explorations, self.alloc, map, from)?;
        let explored = explored_from(&self.explorations, from);
        let choice = self.seeker.choose(explored, target)?;
        match &choice.chosen {
            Some(chosen) => {
                let next = go(explored, &mut self.events, &chosen.found)?;
                Ok(Typed::To(Step {
                    next,
                    class: chosen.class,
                    before: chosen.found.presses,
                }))
            }
            None => {
                if choice.has_met_all {
                    Ok(Typed::NoWay)
                } else {
                    Ok(Typed::TooManyStates)
                }
            }
        }
    }

    /// Adds the events that type the character from the state, and keeps them for the next time.
    fn type_next(&mut self, map: &'m KeyMap, sought: &Sought) -> Result<Typed, AllocError>
        requires bounds { IsMap map.now }
        requires explorations { AreExplorations map.now self.old.explorations.entries }
        requires reached { AreReached self.old.seeker.board map.now self.old.seeker.courses.entries }
        requires known { AreKnown self.old.seeker.board map.now self.old.known.entries }
        requires can_return { CanReturn map.now (state_of sought.now.from) }
        ensures explorations { OnOk result (AreExplorations map.now self.new.explorations.entries) }
        ensures board { OnOk result (self.new.seeker.board ≡ self.old.seeker.board) }
        ensures reached { OnOk result (AreReached self.new.seeker.board map.now self.new.seeker.courses.entries) }
        ensures known { OnOk result (AreKnown self.new.seeker.board map.now self.new.known.entries) }
        ensures leads { IfOk result (λ r. Leads self.old.seeker.board map.now (ending_with None sought.now.character)
            (state_of sought.now.from) (reverse self.old.events.items) (reverse self.new.events.items) r) }
    {
        if let Some(step) = recall(&self.known, &mut self.events, sought)? {
            return Ok(Typed::To(step));
        }
        let start = self.events.len();
        let target = Target {
            character: sought.character,
            last: None,
        };
        let typed = self.type_from(map, &sought.from, target)?;
        if let Typed::To(step) = &typed {
            keep(
                &mut self.known,
                self.alloc,
                sought,
                &self.events[start..],
                *step,
            )?;
        }
        Ok(typed)
    }

    /// Adds the events home from the state.
    fn go_home(&mut self, map: &'m KeyMap, from: &Held) -> Result<(), TypingError>
        requires explorations { AreExplorations map.now self.old.explorations.entries }
        requires can_return { CanReturn map.now (state_of from.now) }
        ensures explorations { OnOk result (AreExplorations map.now self.new.explorations.entries) }
        ensures seeker { OnOk result (self.new.seeker ≡ self.old.seeker) }
        ensures home { OnOk result (GoesHome (alone map.now) (state_of from.now) (reverse self.old.events.items)
            (reverse self.new.events.items)) }
        ensures error { IfErr result (λ error. IsSearchError map.now error) }
    {
        see(&mut self.explorations, self.alloc, map, from)?;
        if !explored_from(&self.explorations, from).go_home(&mut self.events)? {
            return Err(TypingError::TooManyStates);
        }
        Ok(())
    }

    /// Adds the characters and the events that type them, one after another from no key pressed, and those home.
    fn type_all(
        &mut self,
        map: &'m KeyMap,
        characters: &[char],
        keyed: &mut Vec<Keyed>,
    ) -> Result<(), TypingError>
        requires explorations { AreExplorations map.now self.old.explorations.entries }
        requires reached { AreReached self.old.seeker.board map.now self.old.seeker.courses.entries }
        requires known { AreKnown self.old.seeker.board map.now self.old.known.entries }
        requires keyed { keyed.old.items ≡ [] }
        requires events { self.old.events.items ≡ [] }
        ensures typed { OnOk result
            (AreTyped map.now characters.now (record { keyed = keyed.new; events = self.new.events })) }
        ensures ways { OnOk result
            (GoWaysFrom self.old.seeker.board map.now self.new.events.items 0 keyed.new.items) }
        ensures error { IfErr result (λ error. IsTypingError map.now characters.now error) }
    {
        if characters.is_empty() {
            return Ok(());
        }
        every_keymap_is_within_the_bounds(map);
        let mut from = Held::start();
        let mut place = 0;
        while place < characters.len() {
            let character = characters[place];
            let sought = Sought { from, character };
            match self.type_next(map, &sought)? {
                Typed::To(step) => from = step.next,
                Typed::NoWay => return Err(TypingError::NoWay(place)),
                Typed::TooManyStates => return Err(TypingError::TooManyStates),
            }
            let end = self.events.len();
            push_keyed(keyed, Keyed { character, end })?;
            place += 1;
        }
        self.go_home(map, &from)
    }

    /// Types the character by itself from no key pressed, by a way that is looked for, if there is one, and goes home.
    pub fn type_alone(
        &mut self,
        map: &'m KeyMap,
        target: Target,
    ) -> Result<Option<(Step, Typing)>, TypingError>
        requires explorations { AreExplorations map.now self.old.explorations.entries }
        requires reached { AreReached self.old.seeker.board map.now self.old.seeker.courses.entries }
        ensures explorations { OnOk result (AreExplorations map.now self.new.explorations.entries) }
        ensures board { OnOk result (self.new.seeker.board ≡ self.old.seeker.board) }
        ensures reached { OnOk result (AreReached self.new.seeker.board map.now self.new.seeker.courses.entries) }
        ensures typed { IfOk result (λ r. MatchOption r (HasNoWayFrom self.old.seeker.board map.now start target)
            (λ r. IsTypedAlone r.0.class r.0.before self.old.seeker.board map.now target r.1)) }
        ensures error { IfErr result (λ error. IsSearchError map.now error) }
    {
        every_keymap_is_within_the_bounds(map);
        self.events = Vec::new(self.alloc);
        let step = match self.type_from(map, &Held::start(), target)? {
            Typed::To(step) => step,
            Typed::NoWay => return Ok(None),
            Typed::TooManyStates => return Err(TypingError::TooManyStates),
        };
        let character = target.character;
        let end = self.events.len();
        let mut keyed = Vec::new(self.alloc);
        push_keyed(&mut keyed, Keyed { character, end })?;
        self.go_home(map, &step.next)?;
        let events = replace(&mut self.events, Vec::new(self.alloc));
        Ok(Some((step, Typing { keyed, events })))
    }
}

/// Types characters one after another from no key pressed, and goes home.
pub fn type_characters(
    alloc: Global,
    map: &KeyMap,
    board: Board,
    characters: &[char],
) -> Result<Typing, TypingError>
    ensures typed { IfOk result (λ typing. AreTyped map.now characters.now typing) }
    ensures ways { IfOk result (λ typing. GoWaysFrom board map.now typing.events.items 0 typing.keyed.items) }
    ensures error { IfErr result (λ error. IsTypingError map.now characters.now error) }
{
    let mut scribe = Scribe::new(alloc, board);
    let mut keyed = Vec::new(alloc);
    scribe.type_all(map, characters, &mut keyed)?;
    Ok(Typing {
        keyed,
        events: scribe.events,
    })
}
