//! Keys whose answers tell which modifiers and locks are on.
use console_states::Selection;
use keymap_core::{Action, Cell, KEY_COUNT, KeyCode, KeyMap, key_with};
use std::alloc::{AllocError, Global};

/// How many probes there are at most.
const PROBE_LIMIT: usize = 6;

/// What is answered under a selection: by the probes so far, as a number, and by one more key.
#[derive(Clone, Copy, PartialEq, Eq)]
struct Answer {
    class: usize,
    cell: Cell,
}

/// What is answered under each selection. Selections of one class are those that the probes so far don't tell apart.
fn answers(
    alloc: Global,
    map: &KeyMap,
    selections: &[Selection],
    classes: &[usize],
    key: KeyCode,
) -> Result<Vec<Answer>, AllocError> {
    let mut answers = Vec::new(alloc);
    for (selection, class) in selections.iter().zip(classes) {
        answers.push(Answer {
            class: *class,
            cell: selection.look(map, key),
        })?;
    }
    Ok(answers)
}

/// The place of the first that is the same.
fn first_same(answers: &[Answer], these: &Answer) -> usize {
    for place in 0..answers.len() {
        if answers[place] == *these {
            return place;
        }
    }
    answers.len()
}

/// The classes into which the answers split the selections: each by the first place in it.
fn classes(alloc: Global, answers: &[Answer]) -> Result<Vec<usize>, AllocError> {
    let mut classes = Vec::new(alloc);
    for these in answers {
        classes.push(first_same(answers, these))?;
    }
    Ok(classes)
}

/// Whether a tap of the key leaves a modifier, a lock or an accent alone, where it looks up the cell.
fn changes_nothing(cell: &Cell) -> bool {
    !matches!(
        cell,
        Cell::Act(Action::Mod(_)) | Cell::Act(Action::Lock(_)) | Cell::Act(Action::DeadKey(_))
    )
}

/// How many classes there are; none if a tap may change something.
fn count_classes(answers: &[Answer]) -> usize {
    let mut count: usize = 0;
    for place in 0..answers.len() {
        if !changes_nothing(&answers[place].cell) {
            return 0;
        }
        if first_same(answers, &answers[place]) == place {
            count = count.wrapping_add(1);
        }
    }
    count
}

/// The least of the keys that make most classes, if these are more than so many.
fn best_probe(
    alloc: Global,
    map: &KeyMap,
    selections: &[Selection],
    classes: &[usize],
    count: usize,
) -> Result<Option<KeyCode>, AllocError> {
    let mut most = count;
    let mut best = None;
    for code in 0..KEY_COUNT as u8 {
        let key = key_with(code);
        let made = count_classes(&answers(alloc, map, selections, classes, key)?);
        if made > most {
            most = made;
            best = Some(key);
        }
    }
    Ok(best)
}

/// The key that tells most of the selections apart, then the one that tells most besides, and so on.
pub(crate) fn probes(
    alloc: Global,
    map: &KeyMap,
    selections: &[Selection],
) -> Result<Vec<KeyCode>, AllocError> {
    let mut probes = Vec::new(alloc);
    let mut told = vec![in alloc; 0; selections.len()]?;
    let mut count = 1;
    for _ in 0..PROBE_LIMIT {
        let Some(key) = best_probe(alloc, map, selections, &told, count)? else {
            break;
        };
        probes.push(key)?;
        let answers = answers(alloc, map, selections, &told, key)?;
        count = count_classes(&answers);
        told = classes(alloc, &answers)?;
    }
    Ok(probes)
}
