//! Taps of keys whose characters tell which modifiers and locks are on.
use crate::kind::KeyTable;
use crate::plan::attempt;
use crate::run::{Run, Stop};
use crate::spots::{Spot, go};
use console_core::{Answer, Translator};
use console_states::Selection;
use keymap_core::{Action, Cell, KEY_COUNT, KeyCode, Modifier, key_with};
use keymap_cover::selection;
use std::alloc::AllocError;

/// How many probes there are at most, and how many are thought of.
const PROBE_LIMIT: usize = 6;

const CANDIDATE_LIMIT: usize = 400;

/// A key that is tapped, behind a dead key if there is one.
#[derive(Clone, Copy, Debug, PartialEq, Eq)]
pub(crate) struct Probe {
    pub dead: Option<KeyCode>,
    pub key: KeyCode,
}

/// What a probe types: by the dead key, and by the key. Nothing is told where it can't be tapped.
type Typed = Option<(Answer, Answer)>;

/// Taps a key that isn't pressed, and answers what that types.
fn tap_typing(run: &mut Run, key: KeyCode) -> Result<Answer, Stop> {
    if run.is_down(key) {
        return Err(Stop::Refused);
    }
    let answer = run.press_answered(key)?;
    run.up(key)?;
    match answer {
        Answer::Char { .. } | Answer::BackTab => Ok(answer),
        _ => Ok(Answer::None),
    }
}

/// Taps the probe.
pub(crate) fn tap_probe(run: &mut Run, probe: &Probe) -> Result<(Answer, Answer), Stop> {
    let first = match probe.dead {
        Some(dead) => tap_typing(run, dead)?,
        None => Answer::None,
    };
    let second = tap_typing(run, probe.key)?;
    if run.console().pending().is_some() {
        return Err(Stop::Refused);
    }
    Ok((first, second))
}

/// What picks cells, and whether meta is on.
fn view(run: &Run) -> (Selection, bool) {
    (selection(run.console()), run.console().on(Modifier::Meta))
}

/// Whether some run has the view.
fn has_view(runs: &[Run], view_of: &(Selection, bool)) -> bool {
    for run in runs {
        if view(run) == *view_of {
            return true;
        }
    }
    false
}

/// A run for each view that a spot has.
fn views<'m>(start: &Run<'m>, spots: &[Spot]) -> Result<Vec<Run<'m>>, Stop> {
    let mut runs = Vec::new(start.alloc());
    for spot in spots {
        let mut run = start.copied()?;
        if attempt(go(&mut run, &spot.steps))? && !has_view(&runs, &view(&run)) {
            runs.push(run)?;
        }
    }
    Ok(runs)
}

/// Whether some cell of the key's lower slot is the dead key of an accent that has a character, or else whether some is
/// a character.
fn has_dead_key(run: &Run, key: KeyCode) -> bool {
    for cell in run.map().entry(key.get()).cells() {
        if let Cell::Act(Action::DeadKey(_)) = cell {
            return true;
        }
    }
    false
}

fn has_character(run: &Run, key: KeyCode) -> bool {
    for cell in run.map().entry(key.get()).cells() {
        if let Cell::Char(_) = cell {
            return true;
        }
    }
    false
}

/// The keys that hold and turn nothing, of which no cell isn't pressed, and which the board has.
fn still_keys(run: &Run, keys: &KeyTable) -> Result<Vec<KeyCode>, AllocError> {
    let mut still = Vec::new(run.alloc());
    for code in 0..KEY_COUNT as u8 {
        let key = key_with(code);
        if keys.is_still(key) && run.may_press(key) {
            still.push(key)?;
        }
    }
    Ok(still)
}

/// Adds a probe behind the dead key for each key.
fn add_behind(
    probes: &mut Vec<Probe>,
    run: &Run,
    dead: KeyCode,
    keys: &[KeyCode],
) -> Result<(), AllocError> {
    for key in keys {
        if *key != dead && has_character(run, *key) && probes.len() < CANDIDATE_LIMIT {
            probes.push(Probe {
                dead: Some(dead),
                key: *key,
            })?;
        }
    }
    Ok(())
}

/// The probes that are thought of.
fn candidates(run: &Run, keys: &KeyTable) -> Result<Vec<Probe>, AllocError> {
    let still = still_keys(run, keys)?;
    let mut probes = Vec::new(run.alloc());
    for key in &still {
        if has_character(run, *key) && !has_dead_key(run, *key) {
            probes.push(Probe {
                dead: None,
                key: *key,
            })?;
        }
    }
    for key in &still {
        if has_dead_key(run, *key) {
            add_behind(&mut probes, run, *key, &still)?;
        }
    }
    Ok(probes)
}

/// What the probe types in each run.
fn typed_in(runs: &[Run], probe: &Probe) -> Result<Vec<Typed>, Stop> {
    let mut typed = match runs.first() {
        Some(run) => Vec::new(run.alloc()),
        None => return Err(Stop::Refused),
    };
    for run in runs {
        let mut copy = run.copied()?;
        match tap_probe(&mut copy, probe) {
            Ok(answers) => typed.push(Some(answers))?,
            Err(Stop::Refused) => typed.push(None)?,
            Err(Stop::Memory) => return Err(Stop::Memory),
        }
    }
    Ok(typed)
}

/// The first place of the same class at which the same is typed.
fn first_same(classes: &[usize], typed: &[Typed], at: usize) -> usize {
    for place in 0..at {
        if classes.get(place) == classes.get(at) && typed.get(place) == typed.get(at) {
            return place;
        }
    }
    at
}

/// The classes into which what is typed splits these: each by the first place in it.
fn split(run: &Run, classes: &[usize], typed: &[Typed]) -> Result<Vec<usize>, AllocError> {
    let mut split = Vec::new(run.alloc());
    for place in 0..classes.len() {
        split.push(first_same(classes, typed, place))?;
    }
    Ok(split)
}

/// How many classes there are.
fn count_classes(classes: &[usize]) -> usize {
    let mut count: usize = 0;
    for place in 0..classes.len() {
        if classes.get(place) == Some(&place) {
            count = count.wrapping_add(1);
        }
    }
    count
}

/// A probe, and what it types.
#[derive(Drop)]
struct Candidate {
    probe: Probe,
    typed: Vec<Typed>,
}

/// The classes that the best of the candidates makes, and its probe, if these are more than so many.
fn best(
    run: &Run,
    candidates: &[Candidate],
    classes: &[usize],
    count: usize,
) -> Result<Option<(Probe, Vec<usize>)>, AllocError> {
    let mut most = count;
    let mut best = None;
    for candidate in candidates {
        let made = split(run, classes, &candidate.typed)?;
        let number = count_classes(&made);
        if number > most {
            most = number;
            best = Some((candidate.probe, made));
        }
    }
    Ok(best)
}

/// What each of the probes types.
fn typed_by_all<'m>(
    start: &Run<'m>,
    runs: &[Run<'m>],
    probes: &[Probe],
) -> Result<Vec<Candidate>, Stop> {
    let mut all = Vec::new(start.alloc());
    for probe in probes {
        let typed = typed_in(runs, probe)?;
        all.push(Candidate {
            probe: *probe,
            typed,
        })?;
    }
    Ok(all)
}

/// The probe that tells most of the views apart, then the one that tells most besides, and so on.
pub(crate) fn probes_of<'m>(
    start: &Run<'m>,
    spots: &[Spot],
    keys: &KeyTable,
) -> Result<Vec<Probe>, Stop> {
    let runs = views(start, spots)?;
    let all = typed_by_all(start, &runs, &candidates(start, keys)?)?;
    let mut probes = Vec::new(start.alloc());
    let mut classes = vec![in start.alloc(); 0; runs.len()]?;
    let mut count = 1;
    for _ in 0..PROBE_LIMIT {
        let Some((probe, made)) = best(start, &all, &classes, count)? else {
            break;
        };
        probes.push(probe)?;
        count = count_classes(&made);
        classes = made;
    }
    Ok(probes)
}
