//! How a key that makes a keymap refused can leave a modifier on.
ghost use Rattle.std.specs.Prelude.{◌≡◌, ℕ, ◌<◌, ◌++◌, List, IfSome, IsNone, IsSome, reverse, find, option_map};
ghost use Rattle.keymap_check.specs.Types.{Modifier as ModifierValue, Event as EventValue};
ghost use Rattle.keymap_core.specs.Maps.{MapValue};
ghost use Rattle.keymap_core.specs.Numbers.{key_count};
ghost use Rattle.console_core.specs.History.{Maps, between};
ghost use Rattle.console_core.specs.Traps.{NobodyBearsCellPickingLocks, HasNoTrap};
ghost use Rattle.keymap_check.specs.Scripts.{leaves_modifier_on as leaves_modifier_on_in, events_of};
ghost use Rattle.keymap_check.specs.Scripts.{start_of, script as script_of, scripts_of, scripts_from};
ghost use Rattle.keymap_check.specs.Scripts.{scripts_with, scripts_for};
ghost use Rattle.keymap_check.specs.Scripts.{tried_at, demonstration_of};
ghost use Rattle.keymap_check.specs.Inner.Surveyed.{IsSurvey};
ghost use Rattle.keymap_check.specs.Shown.{HasShownTrap, LeavesModifierOn};

use crate::finding::is_found;
use crate::script::{BitKeys, GroupSet, Script, bit_keys, event_at, lacks_key, make_script};
use crate::survey::Survey;
use console_core::{Event, Translator, WordConsole, is_any_on};
use keymap_core::{KEY_COUNT, KeyCode, KeyMap, key_with};

/// Delivers presses or releases of the keys of the bits that are in the set and not in the other one.
#[inline(always)]
fn deliver<T: Translator>(
    console: &mut T,
    keys: &BitKeys,
    set: GroupSet,
    except: GroupSet,
    is_press: bool,
)
    ensures { (ms : Maps) (h : List EventValue) → T.stands console.old ms h
        → T.stands console.new ms (reverse (events_of is_press keys.now set.bits except.bits) ++ h) }
{
    for bit in 0..4 {
        match event_at(keys, set, except, bit, is_press) {
            Some(event) => {
                let _ = console.step(event);
            }
            None => {}
        }
    }
}

/// Whether the script of the key and the two sets leaves a modifier on. The console is one that was delivered its
/// start.
fn leaves_modifier_on<'m>(
    start: &WordConsole<'m>,
    keys: &BitKeys,
    key: KeyCode,
    a: GroupSet,
    b: GroupSet,
) -> bool
    ensures { (m : MapValue)
        → ⟦<WordConsole<'m> as Translator>⟧.stands start.now (between m m) (reverse (start_of keys.now key a.bits))
        → result ≡ leaves_modifier_on_in m (script_of keys.now key a.bits b.bits) }
{
    let mut console = start.copied();
    deliver(&mut console, keys, a, b, false);
    deliver(&mut console, keys, b, a, true);
    let _ = console.step(Event::Press(key));
    let _ = console.step(Event::Release(key));
    if is_any_on(&console) {
        deliver(&mut console, keys, b, GroupSet::EMPTY, false);
        is_any_on(&console)
    } else {
        // The releases that are left turn no modifier on.
        false
    }
}

/// The script of the key and the two sets, if it leaves a modifier on. The console is one that was delivered its start.
fn try_sets<'m>(
    start: &WordConsole<'m>,
    keys: &BitKeys,
    key: KeyCode,
    a: GroupSet,
    b: GroupSet,
) -> Option<Script>
    ensures { (m : MapValue)
        → ⟦<WordConsole<'m> as Translator>⟧.stands start.now (between m m) (reverse (start_of keys.now key a.bits))
        → option_map (λ s. s.items) result
        ≡ find (leaves_modifier_on_in m) (scripts_of keys.now key a.bits b.bits) }
{
    if lacks_key(keys, b) || !leaves_modifier_on(start, keys, key, a, b) {
        return None;
    }
    Some(make_script(keys, key, a, b))
}

/// A console that was delivered what the scripts of the key and the first set begin with.
#[tactic(auto, using(crate::proofs::Played::start_played))]
fn start<'m>(map: &'m KeyMap, keys: &BitKeys, key: KeyCode, a: GroupSet) -> WordConsole<'m>
    ensures { ⟦<WordConsole<'m> as Translator>⟧.stands result (between map.now map.now)
        (reverse (start_of keys.now key a.bits)) }
{
    let mut console = WordConsole::new(map);
    deliver(&mut console, keys, a, GroupSet::EMPTY, true);
    let _ = console.step(Event::Press(key));
    console
}

/// The first script of the key and the first set that leaves a modifier on. All begin alike: that is delivered once.
#[tactic(auto, using(crate::proofs::Firsts::tries))]
fn try_from(map: &KeyMap, keys: &BitKeys, key: KeyCode, a: GroupSet) -> Option<Script>
    ensures { option_map (λ s. s.items) result
        ≡ find (leaves_modifier_on_in map.now) (scripts_from keys.now key a.bits) }
{
    let start = start(map, keys, key, a);
    for b in 0..16 {
        match try_sets(&start, keys, key, a, GroupSet { bits: b }) {
            Some(script) => return Some(script),
            None => {}
        }
    }
    None
}

/// The first script that begins with the set a and leaves a modifier on, where a key is held for each bit of a.
fn try_first_set(map: &KeyMap, keys: &BitKeys, key: KeyCode, a: GroupSet) -> Option<Script>
    ensures { option_map (λ s. s.items) result
        ≡ find (leaves_modifier_on_in map.now) (scripts_with keys.now key a.bits) }
{
    if lacks_key(keys, a) {
        None
    } else {
        try_from(map, keys, key, a)
    }
}

/// The first script of the key that leaves a modifier on.
#[tactic(auto, using(crate::proofs::Firsts::tries))]
fn try_key(map: &KeyMap, keys: &BitKeys, key: KeyCode) -> Option<Script>
    ensures { option_map (λ s. s.items) result ≡ find (leaves_modifier_on_in map.now) (scripts_for keys.now key) }
{
    for a in 0..16 {
        match try_first_set(map, keys, key, GroupSet { bits: a }) {
            Some(script) => return Some(script),
            None => {}
        }
    }
    None
}

/// The first script of the key that leaves a modifier on, where the key has a finding.
fn try_if_found(map: &KeyMap, survey: &Survey, key: u8) -> Option<Script>
    requires is_key { key < key_count }
    requires is_survey { IsSurvey map.now survey.now }
    ensures { option_map (λ s. s.items) result ≡ find (leaves_modifier_on_in map.now) (tried_at map.now key) }
{
    if is_found(map, survey, key) {
        try_key(map, &bit_keys(map, survey, key), key_with(key))
    } else {
        None
    }
}

/// The first script, in the order in which they are tried, that leaves a modifier on.
#[tactic(auto, using(crate::proofs::Firsts::tries))]
fn first_script(map: &KeyMap, survey: &Survey) -> Option<Script>
    requires { IsSurvey map.now survey.now }
    ensures { option_map (λ s. s.items) result ≡ demonstration_of map.now }
{
    for key in 0..KEY_COUNT as u8 {
        match try_if_found(map, survey, key) {
            Some(script) => return Some(script),
            None => {}
        }
    }
    None
}

/// Shows how the keymap can leave a modifier on: gives the first script, in the order in which they are tried, after
/// which a new console has some modifier on though no key is pressed. It is presses and releases of keys.
///
/// The keys with findings are tried in their order, each with the 256 pairs of sets of modifiers, all sets B for each
/// set A. A script presses the keys of A, presses the tried key, goes on from A to B, presses the tried key again and
/// releases it, and releases the keys of B.
///
/// Where no script is given, a refused keymap can still stick, since no other scripts are tried.
pub fn demonstrate(map: &KeyMap) -> Option<Script>
    ensures first { option_map (λ s. s.items) result ≡ demonstration_of map.now }
    ensures leaves_on { IfSome result (λ s. LeavesModifierOn map.now (reverse s.items)) }
    ensures shown { (i : ModifierValue) (k : ℕ) → HasShownTrap map.now i k → IsSome result }
    ensures without_traps { NobodyBearsCellPickingLocks map.now → ((i : ModifierValue) → HasNoTrap map.now i)
        → IsNone result }
{
    first_script(map, &Survey::of(map))
}
