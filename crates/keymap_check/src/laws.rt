//! What is computed of a keymap is what is said of it, and a safe keymap keeps the whole promise.
ghost use Rattle.keymap_check.specs.Report.{FindingsAreComputed, BearersAreComputed, SteadyLocksAreComputed};
ghost use Rattle.keymap_check.specs.Report.{NoFindingsExactlyIfSafe};
ghost use Rattle.keymap_check.specs.Promises.{SafeMapsKeepTheirPromise};
ghost use Rattle.keymap_check.specs.Tried.{BitKeysAreLeast, TriedKeysAreUnsafe};

use console_core::laws::headline_holds;

/// The findings, bearers and steady locks that are computed of a map are those that the map has.
pub fn reports_are_computed()
    ensures findings { FindingsAreComputed }
    ensures safe { NoFindingsExactlyIfSafe }
    ensures bearers { BearersAreComputed }
    ensures steady { SteadyLocksAreComputed }
{}

/// A safe map keeps the whole promise.
pub fn safe_maps_keep_their_promise()
    ensures { SafeMapsKeepTheirPromise }
{
    headline_holds();
}

/// A demonstration tries the keys that make a map refused, and a bit's key is the least other one that bears a
/// modifier of its group.
#[tactic(auto, using(crate::proofs::Tried::bit_keys_are_least, crate::proofs::Tried::tried_keys_are_unsafe,),)]
pub fn scripts_press_the_keys_of_the_map()
    ensures bit_keys { BitKeysAreLeast }
    ensures tried { TriedKeysAreUnsafe }
{}
