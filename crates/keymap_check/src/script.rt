//! The script that tries one key.
ghost use Rattle.std.specs.Prelude.{◌≡◌, ◌<◌, ◌≤◌, ◌+◌, ◌++◌, MatchOption, length, true, false, [], ◌∷◌};
ghost use Rattle.arrayvec.specs.ArrayVec.{array_vec_len};
ghost use Rattle.keymap_check.specs.Scripts as spec;
ghost use Rattle.keymap_check.specs.Inner.Surveyed.{IsSurvey};
ghost use Rattle.keymap_core.specs.Maps.{MapValue};
ghost use Rattle.keymap_core.specs.Numbers.{key_count};

use crate::kind::{Group, Kind};
use crate::survey::Survey;
use arrayvec::ArrayVec;
use console_core::Event;
use keymap_core::{KEY_COUNT, KeyCode, Keymap, key_with};

/// The events that a demonstration delivers, in their order.
pub type Script = ArrayVec<Event, 11>;

/// For each of the four bits of a set the key that is held, where there is one.
pub(crate) type BitKeys = [Option<KeyCode>; 4];

/// A set of shift, control, alt and ashift, with a bit for each of them in this order.
#[derive(Clone, Copy, Drop)]
pub(crate) struct GroupSet {
    pub(crate) bits: u8,
}

impl GroupSet {
    pub(crate) const EMPTY: GroupSet = GroupSet { bits: 0 };

    fn has(self, bit: u8) -> bool
        requires { bit < 4 }
        ensures { result ≡ spec.has_bit self.bits bit }
    {
        (self.bits >> bit) % 2 == 1
    }

    /// Whether the bit is in the set and not in the other one.
    fn has_beyond(self, other: GroupSet, bit: u8) -> bool
        requires { bit < 4 }
        ensures { result ≡ spec.is_chosen self.bits other.bits bit }
    {
        self.has(bit) && !other.has(bit)
    }
}

/// The modifiers that the bit of a set stands for.
fn group_at(bit: u8) -> Group
    ensures { result ≡ spec.group_at bit }
{
    match bit {
        0 => Group::Shift,
        1 => Group::Control,
        2 => Group::Alt,
        _ => Group::AltShift,
    }
}

/// Whether the key bears a modifier of the bit, and isn't the tried one.
fn is_other<K: Keymap>(map: &K, survey: &Survey, tried: u8, bit: u8, key: u8) -> bool
    requires { key < key_count }
    ensures { (m : MapValue) → K.shows map.now m → IsSurvey m survey.now
        → result ≡ spec.is_other (spec.bears_group m bit) tried key }
{
    key != tried && survey.has(map, key, Kind::Of(group_at(bit)))
}

/// The least key, other than the tried one, that bears a modifier of the bit.
fn bit_key<K: Keymap>(map: &K, survey: &Survey, tried: u8, bit: u8) -> Option<KeyCode>
    ensures { (m : MapValue) → K.shows map.now m → IsSurvey m survey.now → result ≡ spec.bit_key m tried bit }
{
    for key in 0..KEY_COUNT as u8 {
        if is_other(map, survey, tried, bit, key) {
            return Some(key_with(key));
        }
    }
    None
}

/// The keys of the bits, while the key is tried.
pub(crate) fn bit_keys<K: Keymap>(map: &K, survey: &Survey, tried: u8) -> BitKeys
    ensures { (m : MapValue) → K.shows map.now m → IsSurvey m survey.now → result ≡ spec.bit_keys m tried }
{
    [
        bit_key(map, survey, tried, 0),
        bit_key(map, survey, tried, 1),
        bit_key(map, survey, tried, 2),
        bit_key(map, survey, tried, 3),
    ]
}

/// Whether the set has the bit and no key is held for it.
fn is_lacking(keys: &BitKeys, set: GroupSet, bit: u8) -> bool
    requires { bit < 4 }
    ensures { result ≡ spec.is_lacking keys.now set.bits bit }
{
    set.has(bit) && keys[bit as usize].is_none()
}

/// Whether the set has a bit for which no key is held.
#[tactic(auto, unfolding(crate::specs::Scripts::lacks_key))]
pub(crate) fn lacks_key(keys: &BitKeys, set: GroupSet) -> bool
    ensures { result ≡ spec.lacks_key keys.now set.bits }
{
    is_lacking(keys, set, 0)
        || is_lacking(keys, set, 1)
        || is_lacking(keys, set, 2)
        || is_lacking(keys, set, 3)
}

fn event_of(key: KeyCode, is_press: bool) -> Event
    ensures { result ≡ spec.event_of is_press key }
{
    if is_press {
        Event::Press(key)
    } else {
        Event::Release(key)
    }
}

/// The press or release of the bit's key, if the bit is in the set and not in the other one.
pub(crate) fn event_at(
    keys: &BitKeys,
    set: GroupSet,
    except: GroupSet,
    bit: u8,
    is_press: bool,
) -> Option<Event>
    requires { bit < 4 }
    ensures { MatchOption result (spec.event_at is_press keys.now set.bits except.bits bit ≡ [])
        (λ e. spec.event_at is_press keys.now set.bits except.bits bit ≡ e ∷ []) }
{
    if !set.has_beyond(except, bit) {
        return None;
    }
    match keys[bit as usize] {
        Some(key) => Some(event_of(key, is_press)),
        None => None,
    }
}

/// Appends presses or releases of the keys of the bits that are in the set and not in the other one.
fn push_events(script: &mut Script, keys: &BitKeys, set: GroupSet, except: GroupSet, is_press: bool)
    requires { array_vec_len script.old + length (spec.events_of is_press keys.now set.bits except.bits) ≤ 11 }
    ensures items { script.new.items ≡ script.old.items ++ spec.events_of is_press keys.now set.bits except.bits }
    ensures len { array_vec_len script.new
        ≡ array_vec_len script.old + length (spec.events_of is_press keys.now set.bits except.bits) }
{
    for bit in 0..4 {
        match event_at(keys, set, except, bit, is_press) {
            Some(event) => script.push(event),
            None => {}
        }
    }
}

/// The script that tries the key with the sets of bits.
#[tactic(auto, using(crate::proofs::Lengths::room))]
pub(crate) fn make_script(keys: &BitKeys, key: KeyCode, a: GroupSet, b: GroupSet) -> Script
    ensures { result.items ≡ spec.script keys.now key a.bits b.bits }
{
    let mut script = ArrayVec::new();
    push_events(&mut script, keys, a, GroupSet::EMPTY, true);
    script.push(Event::Press(key));
    push_events(&mut script, keys, a, b, false);
    push_events(&mut script, keys, b, a, true);
    script.push(Event::Press(key));
    script.push(Event::Release(key));
    push_events(&mut script, keys, b, GroupSet::EMPTY, false);
    script
}
