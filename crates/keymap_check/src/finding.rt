//! The keys that make a keymap refused.
ghost use Rattle.std.specs.Prelude.{◌≡◌, ◌<◌, MatchOption, [], ◌∷◌};
ghost use Rattle.keymap_check.specs.Cells.{place_at as place_of};
ghost use Rattle.keymap_check.specs.Computed.{findings_at, findings_of};
ghost use Rattle.keymap_check.specs.Scripts.{has_some};
ghost use Rattle.keymap_check.specs.Inner.Surveyed.{IsSurvey};
ghost use Rattle.keymap_core.specs.Maps.{MapValue};
ghost use Rattle.keymap_core.specs.Numbers.{key_count};

use crate::cells::{cell_of, column, slot};
use crate::kind::Kind;
use crate::survey::Survey;
use arrayvec::ArrayVec;
use keymap_core::{Cell, Holding, KEY_COUNT, KeyCode, Keymap, Modifier, key_with};
use std::default::MadeWith;

/// Where a cell stands: its slot, 0 to 255, and its column, 0 to 7.
#[derive(Clone, Copy, Debug, PartialEq, Eq)]
pub struct Place {
    pub slot: u8,
    pub column: u8,
}

/// A key that has both a modifier or lock and a character among its cells. First is what stands in the lower slot,
/// then in the lesser column.
#[derive(Clone, Copy, Debug, PartialEq, Eq)]
pub struct Finding {
    pub key: KeyCode,
    /// The key's first modifier or lock, and where it stands.
    pub holding: Holding,
    pub holding_at: Place,
    /// Where the key's first character stands.
    pub character_at: Place,
}

/// What stands in the unused places of a list of findings, which the list never shows. It is no finding of any
/// keymap: so a finding has no default.
impl MadeWith<()> for Finding {
    fn made_with(_alloc: ()) -> Finding {
        let nowhere = Place { slot: 0, column: 0 };
        Finding {
            key: key_with(0),
            holding: Holding::Mod(Modifier::LeftShift),
            holding_at: nowhere,
            character_at: nowhere,
        }
    }
}

fn place_at(key: u8, place: u8) -> Place
    requires is_key { key < key_count }
    requires is_place { place < 16 }
    ensures { result ≡ place_of key place }
{
    Place {
        slot: slot(key, place),
        column: column(place),
    }
}

/// Whether the key has a finding.
#[tactic(auto, using(crate::proofs::Findings::found))]
pub(crate) fn is_found<K: Keymap>(map: &K, survey: &Survey, key: u8) -> bool
    requires { key < key_count }
    ensures { (m : MapValue) → K.shows map.now m → IsSurvey m survey.now → result ≡ has_some (findings_at m key) }
{
    survey.has(map, key, Kind::AnyHolding) && survey.has(map, key, Kind::Character)
}

/// The finding of the key, if it has one.
fn find_at<K: Keymap>(map: &K, survey: &Survey, key: u8) -> Option<Finding>
    requires { key < key_count }
    ensures { (m : MapValue) → K.shows map.now m → IsSurvey m survey.now
        → MatchOption result (findings_at m key ≡ []) (λ f. findings_at m key ≡ f ∷ []) }
{
    let holding_place = survey.first_place(map, key, Kind::AnyHolding)?;
    let character_place = survey.first_place(map, key, Kind::Character)?;
    let action = match cell_of(map, key, holding_place) {
        Cell::Act(action) => action,
        Cell::Char(_) => return None,
    };
    let holding = action.holding()?;
    Some(Finding {
        key: key_with(key),
        holding,
        holding_at: place_at(key, holding_place),
        character_at: place_at(key, character_place),
    })
}

/// The findings in the order of their keys.
pub(crate) fn findings<K: Keymap>(map: &K, survey: &Survey) -> ArrayVec<Finding, KEY_COUNT>
    ensures { (m : MapValue) → K.shows map.now m → IsSurvey m survey.now → result.items ≡ findings_of m }
{
    let mut findings = ArrayVec::new_in(());
    for key in 0..KEY_COUNT as u8 {
        match find_at(map, survey, key) {
            Some(finding) => findings.push(finding),
            None => {}
        }
    }
    findings
}
