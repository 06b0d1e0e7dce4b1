//! Trials of what keys do to each other, in five families.
use crate::idle_keys::IdleKeys;
use crate::kind::Kind;
use crate::probes::probes;
use crate::tried::{are_tried, cell_with, is_between, rest_cell};
use Step::{Ask, DownFirst, DownSecond, Reset, UpFirst, UpSecond};
use console_core::{Event, is_usable};
use console_scripts::Explorer;
use console_states::{Held, KeyAt};
use keymap_core::{
    ACCENT_LIMIT, AccentIndex, Action, Cell, HOLDINGS, Holding, KEY_COUNT, KeyCode, KeyMap, Lock,
    MODIFIERS, Modifier, key_with,
};
use std::alloc::{AllocError, Global};

/// How many keys are pressed at once.
const MANY: usize = 16;

/// A step of a trial with two keys.
#[derive(Clone, Copy)]
enum Step {
    DownFirst,
    UpFirst,
    DownSecond,
    UpSecond,
    Reset,
    /// Taps the probes.
    Ask,
}

/// A tap of the first key.
const TAPPED: [Step; 2] = [DownFirst, UpFirst];

/// A tap of the first key, and a reset.
const TAPPED_AND_RESET: [Step; 3] = [DownFirst, UpFirst, Reset];

/// The first key is pressed, repeated, and reset while it is pressed.
const REPEATED_AND_RESET: [Step; 5] = [DownFirst, DownFirst, Ask, Reset, UpFirst];

/// The first key is released while the second one is pressed, and the second one is pressed once more.
const OVERLAPPING: [Step; 6] = [DownFirst, DownSecond, Ask, UpFirst, DownSecond, UpSecond];

/// The first key is pressed before the second one, repeated and released while that is pressed, and then pressed while
/// it is pressed, and repeated and released behind it.
const ACROSS: [Step; 10] = [
    DownFirst, DownSecond, DownFirst, UpFirst, UpSecond, DownSecond, DownFirst, UpSecond,
    DownFirst, UpFirst,
];

/// The events of the trials so far. Each is made at home, as far as moves lead back there.
#[derive(Drop)]
struct Trials<'t, 'm> {
    alloc: Global,
    map: &'m KeyMap,
    explorer: &'t Explorer<'m>,
    idle: &'t IdleKeys,
    probes: &'t [KeyCode],
    trials: Vec<Vec<Event>>,
}

/// The events of each trial, for a console that is as a new one but for the scroll lock.
pub(crate) fn trials_of<'m>(
    alloc: Global,
    map: &'m KeyMap,
    explorer: &Explorer<'m>,
) -> Result<Vec<Vec<Event>>, AllocError> {
    let idle = IdleKeys::of(alloc, map, explorer)?;
    let probes = probes(alloc, map, &idle.selections)?;
    let mut trials = Trials {
        alloc,
        map,
        explorer,
        idle: &idle,
        probes: &probes,
        trials: Vec::new(alloc),
    };
    trials.together()?;
    trials.alone()?;
    trials.across()?;
    trials.between()?;
    trials.many()?;
    Ok(trials.trials)
}

impl<'t, 'm> Trials<'t, 'm> {
    /// Adds taps of the probes.
    fn ask(&self, events: &mut Vec<Event>) -> Result<(), AllocError> {
        for key in self.probes {
            events.push(Event::Press(*key))?;
            events.push(Event::Release(*key))?;
        }
        Ok(())
    }

    /// Adds the steps with two keys.
    fn play(
        &self,
        events: &mut Vec<Event>,
        steps: &[Step],
        first: KeyCode,
        second: KeyCode,
    ) -> Result<(), AllocError> {
        for step in steps {
            match *step {
                DownFirst => events.push(Event::Press(first))?,
                UpFirst => events.push(Event::Release(first))?,
                DownSecond => events.push(Event::Press(second))?,
                UpSecond => events.push(Event::Release(second))?,
                Reset => events.push(Event::Reset)?,
                Ask => self.ask(events)?,
            }
        }
        Ok(())
    }

    /// Adds the moves to the place of the key, the steps with it, and the releases of what is held there.
    fn play_at(
        &self,
        events: &mut Vec<Event>,
        steps: &[Step],
        at: KeyAt,
    ) -> Result<(), AllocError> {
        let path = self.explorer.events_to(self.alloc, at.place)?;
        events.extend_from_slice(&path)?;
        self.play(events, steps, at.key, at.key)?;
        if let Some(state) = self.explorer.state(at.place) {
            state.push_releases(events)?;
        }
        Ok(())
    }

    /// A trial of steps with two keys.
    fn try_steps(
        &mut self,
        steps: &[Step],
        first: KeyCode,
        second: KeyCode,
    ) -> Result<(), AllocError> {
        let mut events = Vec::new(self.alloc);
        self.play(&mut events, steps, first, second)?;
        self.trials.push(events)?;
        Ok(())
    }

    /// The least key that is the action where nothing is on, but for this key.
    fn bearer(&self, holding: Holding, other: Option<KeyCode>) -> Option<KeyCode> {
        for code in 0..KEY_COUNT as u8 {
            let key = key_with(code);
            if rest_cell(self.map, key) == Cell::Act(holding.action()) && Some(key) != other {
                return Some(key);
            }
        }
        None
    }

    /// Whether the cell can be taken back: it is no lock that picks cells, or moves turn it off again.
    fn is_taken_back(&self, cell: &Cell) -> bool {
        match cell {
            Cell::Act(Action::Lock(Lock::Scroll)) => true,
            Cell::Act(Action::Lock(lock)) => {
                self.explorer.leads_home(&Held::start().with_turned(*lock))
            }
            _ => true,
        }
    }

    /// A key of the one and another key of the other: the first is released while the second is pressed, and the second
    /// is pressed once more.
    fn try_two(&mut self, one: Holding, other: Holding) -> Result<(), AllocError> {
        if let Some(first) = self.bearer(one, None) {
            if let Some(second) = self.bearer(other, Some(first)) {
                self.try_steps(&OVERLAPPING, first, second)?;
            }
        }
        Ok(())
    }

    /// The action with itself and each that stands behind it.
    fn try_from(&mut self, one: Holding) -> Result<(), AllocError> {
        for other in HOLDINGS {
            let is_back = self.is_taken_back(&Cell::Act(other.action()));
            if one.index() <= other.index() && are_tried(one, other) && is_back {
                self.try_two(one, other)?;
            }
        }
        Ok(())
    }

    /// Two modifiers or locks.
    fn together(&mut self) -> Result<(), AllocError> {
        for one in HOLDINGS {
            if self.is_taken_back(&Cell::Act(one.action())) {
                self.try_from(one)?;
            }
        }
        Ok(())
    }

    /// Each modifier and lock: pressed, repeated, and reset while it is pressed.
    fn alone(&mut self) -> Result<(), AllocError> {
        for holding in HOLDINGS {
            let cell = Cell::Act(holding.action());
            if let Some(at) = self.idle.first(&cell) {
                if self.is_taken_back(&cell) {
                    let mut events = Vec::new(self.alloc);
                    self.play_at(&mut events, &REPEATED_AND_RESET, at)?;
                    self.trials.push(events)?;
                }
            }
        }
        Ok(())
    }

    /// Keys that look up two kinds of cells with and without the modifier that this key holds, kinds that weren't
    /// tried.
    fn try_columns(
        &mut self,
        done: &mut Vec<(Kind, Kind)>,
        modifier: Modifier,
        holder: KeyCode,
    ) -> Result<(), AllocError> {
        for code in 0..KEY_COUNT as u8 {
            let key = key_with(code);
            let one = rest_cell(self.map, key);
            let other = cell_with(self.map, key, modifier, holder);
            let kinds = (Kind::roughly(&one), Kind::roughly(&other));
            let is_holding = kinds.0 == Kind::Modifier || kinds.1 == Kind::Modifier;
            if one != other && !is_holding && key != holder && !done.contains(&kinds) {
                done.push(kinds)?;
                self.try_steps(&ACROSS, key, holder)?;
            }
        }
        Ok(())
    }

    /// Keys that are pressed in one column and released in another.
    fn across(&mut self) -> Result<(), AllocError> {
        let mut done = Vec::new(self.alloc);
        for modifier in MODIFIERS {
            if let Some(holder) = self.bearer(Holding::Mod(modifier), None) {
                self.try_columns(&mut done, modifier, holder)?;
            }
        }
        Ok(())
    }

    /// The first usable accent whose dead key can be tapped, and where.
    fn dead_key(&self) -> Option<(AccentIndex, KeyAt)> {
        for index in 0..ACCENT_LIMIT as u8 {
            let accent = AccentIndex::new(index);
            if is_usable(self.map, index) {
                if let Some(at) = self.idle.first(&Cell::Act(Action::DeadKey(accent))) {
                    return Some((accent, at));
                }
            }
        }
        None
    }

    /// The first key of each kind of cells that can stand between a dead key of the accent and a blank.
    fn keys_between(&self, accent: AccentIndex) -> Result<Vec<KeyAt>, AllocError> {
        let mut kinds = Vec::new(self.alloc);
        let mut keys = Vec::new(self.alloc);
        for idle in &self.idle.keys {
            let kind = Kind::of(self.map, &idle.cell);
            let is_new = is_between(self.map, accent, &idle.cell) && !kinds.contains(&kind);
            if is_new && self.is_taken_back(&idle.cell) {
                kinds.push(kind)?;
                keys.push(idle.at)?;
            }
        }
        Ok(keys)
    }

    /// Each kind of cells, and a reset, between a dead key and a blank.
    fn between(&mut self) -> Result<(), AllocError> {
        let Some((accent, dead)) = self.dead_key() else {
            return Ok(());
        };
        let Some(blank) = self.idle.first(&Cell::Char(' ')) else {
            return Ok(());
        };
        for key in &self.keys_between(accent)? {
            let mut events = Vec::new(self.alloc);
            self.play_at(&mut events, &TAPPED, dead)?;
            self.play_at(&mut events, &TAPPED, *key)?;
            self.play_at(&mut events, &TAPPED, blank)?;
            self.trials.push(events)?;
        }
        let mut events = Vec::new(self.alloc);
        self.play_at(&mut events, &TAPPED_AND_RESET, dead)?;
        self.play_at(&mut events, &TAPPED, blank)?;
        self.trials.push(events)?;
        Ok(())
    }

    /// The first keys that are another action than a modifier, a lock or a dead key where nothing is on.
    fn other_keys(&self) -> Result<Vec<KeyCode>, AllocError> {
        let mut keys = Vec::new(self.alloc);
        for code in 0..KEY_COUNT as u8 {
            let key = key_with(code);
            if keys.len() < MANY && Kind::of(self.map, &rest_cell(self.map, key)).is_other() {
                keys.push(key)?;
            }
        }
        Ok(keys)
    }

    /// Many keys at once.
    fn many(&mut self) -> Result<(), AllocError> {
        let mut events = Vec::new(self.alloc);
        for key in &self.other_keys()? {
            events.push(Event::Press(*key))?;
        }
        self.trials.push(events)?;
        Ok(())
    }
}
