//! Types on a console over a keymap in memory or over its tables. `make bench` counts what an event costs.

use console_core::{Event, Translator, WordConsole};
use keymap_core::{KeyCode, KeyMap, Keymap, ToStd};
use keymap_tables::{Tables, WIDE_FILE, write_tables};
use keymap_text::read_map;
use std::alloc::{AllocError, Global};

/// A letter, a shift, a lock and a dead key with its accent.
const TEXT: &[u8] = b"026 dacu dacu dacu dacu dacu dacu dacu dacu O
030 'a' 'A' nop nop 'a' 'A' nop nop C
042 lshift lshift lshift lshift lshift lshift lshift lshift O
058 clock clock clock clock clock clock clock clock O
dacu 180 ( 'a' 0xe1 )
";

/// Presses (1) and releases (0) of keys: a letter, and a letter under shift and after a dead key.
const ROUND: [(u8, bool); 8] = [
    (30, true),
    (30, false),
    (42, true),
    (30, true),
    (30, false),
    (42, false),
    (26, true),
    (26, false),
];

/// The event of a press or a release, a reset where there is no such key.
fn event_of(code: u8, is_press: bool) -> Event {
    match KeyCode::new(code) {
        Some(key) if is_press => Event::Press(key),
        Some(key) => Event::Release(key),
        None => Event::Reset,
    }
}

fn events() -> [Event; 8] {
    let mut events = [Event::Reset; 8];
    for (index, event) in events.iter_mut().enumerate() {
        let (code, is_press) = ROUND[index % 8];
        *event = event_of(code, is_press);
    }
    events
}

/// The sum of the answers to so many rounds.
fn sum_of<K: Keymap>(map: &K, rounds: u32) -> u64 {
    let events = events();
    let mut console = WordConsole::over(map, map);
    let mut sum = 0u64;
    for _ in 0..rounds {
        for event in &events {
            sum = sum.wrapping_add(u64::from(console.step(*event).raw()));
        }
    }
    sum
}

/// The sum over the tables of a map.
fn sum_of_tables(alloc: Global, map: &KeyMap, rounds: u32) -> Result<u64, AllocError> {
    let mut bytes = Vec::from_array(alloc, [0; WIDE_FILE])?;
    let _ = write_tables(map, &mut ToStd::new(bytes.as_mut_slice()));
    Ok(match Tables::new(bytes.as_slice()) {
        Some(tables) => sum_of(&tables, rounds),
        None => 0,
    })
}

/// How many rounds a word asks for.
fn rounds_of(word: &str) -> u32 {
    if word == "10000" { 10_000 } else { 1 }
}

/// The sum of the answers to the rounds that the second word asks for, over the tables of the map where the first one
/// is `tables`, or else over the map.
pub(crate) fn sum(alloc: Global, words: &[String]) -> Result<u64, AllocError> {
    let Ok(map) = read_map(alloc, TEXT) else {
        return Ok(0);
    };
    match words {
        [kind, count] if kind.as_str() == "tables" => {
            sum_of_tables(alloc, &map, rounds_of(count.as_str()))
        }
        [_, count] => Ok(sum_of(&map, rounds_of(count.as_str()))),
        _ => Ok(0),
    }
}
