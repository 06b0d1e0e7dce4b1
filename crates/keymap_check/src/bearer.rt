//! Which key bears a modifier or a lock.
ghost use Rattle.std.specs.Prelude.{◌≡◌, ◌<◌};
ghost use Rattle.keymap_check.specs.Computed.{bearer_with, next_bearer, bearer_of as bearer_in, is_steady_by};
ghost use Rattle.keymap_check.specs.Computed.{steady_by};
ghost use Rattle.keymap_check.specs.Inner.Surveyed.{IsSurvey};
ghost use Rattle.keymap_core.specs.Maps.{MapValue};
ghost use Rattle.keymap_core.specs.Numbers.{key_count};

use crate::kind::Kind;
use crate::survey::Survey;
use keymap_core::{Holding, KEY_COUNT, KeyCode, Keymap, key_with};

/// Which key bears a holding action.
#[derive(Clone, Copy, Debug, PartialEq, Eq)]
pub enum Bearer {
    /// No key bears the action.
    Nobody,
    /// The key alone bears the action, in all its cells.
    Throughout(KeyCode),
    /// The key alone bears the action, not in all its cells.
    Sole(KeyCode),
    /// More than one key bears the action.
    Several,
}

/// The key that bears the action, if no other key does.
fn bearer_if_alone<K: Keymap>(map: &K, survey: &Survey, key: u8, holding: Holding) -> Bearer
    requires { key < key_count }
    ensures { (m : MapValue) → K.shows map.now m → IsSurvey m survey.now → result ≡ bearer_with m holding key }
{
    if survey.has(map, key, Kind::OtherThan(holding)) {
        Bearer::Sole(key_with(key))
    } else {
        Bearer::Throughout(key_with(key))
    }
}

/// The bearer once one more key is known to bear the action.
fn with_one_more(bearer: Bearer, alone: Bearer) -> Bearer
    ensures { result ≡ next_bearer bearer alone }
{
    match bearer {
        Bearer::Nobody => alone,
        _ => Bearer::Several,
    }
}

/// Which key bears the action.
pub(crate) fn bearer_of<K: Keymap>(map: &K, survey: &Survey, holding: Holding) -> Bearer
    ensures { (m : MapValue) → K.shows map.now m → IsSurvey m survey.now → result ≡ bearer_in m holding }
{
    let mut bearer = Bearer::Nobody;
    for key in 0..KEY_COUNT as u8 {
        if survey.has(map, key, Kind::Holding(holding)) {
            bearer = with_one_more(bearer, bearer_if_alone(map, survey, key, holding));
        }
    }
    bearer
}

/// Whether all cells of the key are actions other than `nop`.
fn is_acting<K: Keymap>(map: &K, survey: &Survey, key: u8) -> bool
    requires { key < key_count }
    ensures { (m : MapValue) → K.shows map.now m → IsSurvey m survey.now → result ≡ steady_by m key }
{
    !survey.has(map, key, Kind::CharacterOrNop)
}

/// Whether one key alone bears the lock that has this bearer, and all its cells are actions other than `nop`.
pub(crate) fn is_steady<K: Keymap>(map: &K, survey: &Survey, bearer: &Bearer) -> bool
    ensures { (m : MapValue) → K.shows map.now m → IsSurvey m survey.now → result ≡ is_steady_by m bearer.now }
{
    match bearer {
        Bearer::Throughout(key) => is_acting(map, survey, key.get()),
        Bearer::Sole(key) => is_acting(map, survey, key.get()),
        _ => false,
    }
}
