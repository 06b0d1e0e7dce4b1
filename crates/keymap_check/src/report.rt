//! The check and its report.
ghost use Rattle.std.specs.Prelude.{◌≡◌, ◌↔◌, ℕ, IsTrue, true, IsNone, IfSome, slice_get};
ghost use Rattle.keymap_check.specs.Types.{Lock as LockValue, Holding as HoldingValue};
ghost use Rattle.console_core.specs.Headline.{IsSafe, IsSteady};
ghost use Rattle.keymap_check.specs.Findings.{AreFindings, IsFirstFinding};
ghost use Rattle.keymap_check.specs.Inner.Surveyed.{IsSurvey};
ghost use Rattle.keymap_core.specs.Maps.{MapValue};
ghost use Rattle.keymap_check.specs.Promises.{KeepsPromise, IsOnAfterOddFreshPresses, LooksPlainlyIn};
ghost use Rattle.keymap_check.specs.Report.{IsAccepted, IsBearer, HasPlainBearers, bearer_in, is_steady_in, report_of};

use crate::bearer::{Bearer, bearer_of, is_steady};
use crate::finding::{Finding, findings};
use crate::laws::reports_are_computed;
use crate::survey::Survey;
use arrayvec::ArrayVec;
use console_core::laws::{headline_holds, locks_count_fresh_presses, looks_plainly};
use keymap_core::{Holding, KEY_COUNT, KeyMap, Keymap, Lock, Modifier};
use std::marker::Model;

/// What the check says of a keymap.
#[derive(Drop)]
pub struct Report {
    findings: ArrayVec<Finding, KEY_COUNT>,
    bearers: [Bearer; 12],
    steady: [bool; 4],
}

impl Model for Report {
    ghost use Rattle.std.specs.Prelude.{◌≡◌, length};
    ghost use Rattle.keymap_check.specs.Report.{ReportValue};

    ghost Value = { ReportValue };

    ghost view = { λ r. record {
      findings = r.findings.items;
      bearers = r.bearers;
      steady = r.steady;
    } };

    ghost invariant = { λ r. (length r.bearers ≡ 12) × (length r.steady ≡ 4) };
}

impl Report {
    /// Whether the keymap is accepted.
    pub fn accepted(&self) -> bool
        ensures { IsTrue result ↔ IsAccepted self.now }
    {
        self.findings.is_empty()
    }

    /// The keys that make the keymap refused, in their order.
    pub fn findings(&self) -> &ArrayVec<Finding, KEY_COUNT>
        ensures { result.now.items ≡ self.now.findings }
    {
        &self.findings
    }

    /// The first finding.
    fn first(&self) -> Option<Finding>
        ensures { result ≡ slice_get self.now.findings 0 }
    {
        self.findings.as_slice().first().copied()
    }

    /// Which key bears the holding action.
    pub fn bearer(&self, holding: Holding) -> Bearer
        ensures { result ≡ bearer_in self.now holding }
    {
        self.bearers[holding.index()]
    }

    /// Whether the lock is steady.
    pub fn steady(&self, lock: Lock) -> bool
        ensures { result ≡ is_steady_in self.now lock }
    {
        self.steady[lock.index()]
    }
}

/// The report on the keymap that was gone over.
fn report_on<K: Keymap>(map: &K, survey: &Survey) -> Report
    ensures { (m : MapValue) → K.shows map.now m → IsSurvey m survey.now → result ≡ report_of m }
{
    let caps = bearer_of(map, survey, Holding::Lock(Lock::Caps));
    let num = bearer_of(map, survey, Holding::Lock(Lock::Num));
    let scroll = bearer_of(map, survey, Holding::Lock(Lock::Scroll));
    let alt = bearer_of(map, survey, Holding::Lock(Lock::Alt));
    Report {
        findings: findings(map, survey),
        bearers: [
            bearer_of(map, survey, Holding::Mod(Modifier::LeftShift)),
            bearer_of(map, survey, Holding::Mod(Modifier::RightShift)),
            bearer_of(map, survey, Holding::Mod(Modifier::LeftControl)),
            bearer_of(map, survey, Holding::Mod(Modifier::RightControl)),
            bearer_of(map, survey, Holding::Mod(Modifier::LeftAlt)),
            bearer_of(map, survey, Holding::Mod(Modifier::RightAlt)),
            bearer_of(map, survey, Holding::Mod(Modifier::AltShift)),
            bearer_of(map, survey, Holding::Mod(Modifier::Meta)),
            caps,
            num,
            scroll,
            alt,
        ],
        steady: [
            is_steady(map, survey, &caps),
            is_steady(map, survey, &num),
            is_steady(map, survey, &scroll),
            is_steady(map, survey, &alt),
        ],
    }
}

/// The report on a keymap.
fn make_report<K: Keymap>(map: &K) -> Report
    ensures { (m : MapValue) → K.shows map.now m → result ≡ report_of m }
{
    report_on(map, &Survey::of(map))
}

/// Checks a keymap, however it is kept: what [`check`] says of the keymap that it shows.
pub fn check_shown<K: Keymap>(map: &K) -> Report
    ensures value { (m : MapValue) → K.shows map.now m → result ≡ report_of m }
    ensures accepted { (m : MapValue) → K.shows map.now m → IsAccepted result ↔ IsSafe m }
    ensures findings { (m : MapValue) → K.shows map.now m → AreFindings m result.findings }
    ensures bearers { (m : MapValue) → K.shows map.now m
        → (a : HoldingValue) → IsBearer m a (bearer_in result a) }
    ensures steady { (m : MapValue) → K.shows map.now m
        → (l : LockValue) → (is_steady_in result l ≡ true) ↔ IsSteady m l }
    ensures promise { (m : MapValue) → K.shows map.now m → KeepsPromise m (IsAccepted result) }
{
    reports_are_computed();
    headline_holds();
    make_report(map)
}

/// The finding of the least key, of a keymap however it is kept; none exactly where the keymap is accepted. It takes no
/// memory.
pub fn first_finding<K: Keymap>(map: &K) -> Option<Finding>
    ensures safe { (m : MapValue) → K.shows map.now m → IsNone result ↔ IsSafe m }
    ensures first { (m : MapValue) → K.shows map.now m → IfSome result (IsFirstFinding m) }
    ensures promise { (m : MapValue) → K.shows map.now m → KeepsPromise m (IsNone result) }
{
    headline_holds();
    let report = check_shown(map);
    report.first()
}

/// Checks the keymap: whether it is safe, which keys bear what, and which locks are steady.
///
/// The promise holds after every list of delivered events that leaves the keymap in force, loads of another
/// keymap among them. Where it is accepted, a modifier is on only while a key that bears it is pressed, and once no
/// key is pressed no modifier is on, and with no accent pending the console goes on as after a reset. For every
/// keymap, a modifier that one key alone bears throughout is on exactly while that key is pressed, and no repeat turns
/// a steady lock.
///
/// Where no other keymap is loaded, a lock that one key alone bears throughout is on exactly after an odd number of
/// fresh presses of that key. Without loads, and where each modifier and lock that picks a cell is borne so or by
/// nobody, what a key looks up follows from which keys are pressed and from those fresh presses.
pub fn check(map: &KeyMap) -> Report
    ensures value { result ≡ report_of map.now }
    ensures accepted { IsAccepted result ↔ IsSafe map.now }
    ensures findings { AreFindings map.now result.findings }
    ensures bearers { (a : HoldingValue) → IsBearer map.now a (bearer_in result a) }
    ensures steady { (l : LockValue) → (is_steady_in result l ≡ true) ↔ IsSteady map.now l }
    ensures promise { KeepsPromise map.now (IsAccepted result) }
    ensures looks_plainly { HasPlainBearers result → LooksPlainlyIn map.now }
    ensures fresh_presses { (l : LockValue) (k : ℕ) → bearer_in result (Holding.Lock l) ≡ Bearer.Throughout k
        → IsOnAfterOddFreshPresses map.now l k }
{
    locks_count_fresh_presses();
    looks_plainly();
    check_shown(map)
}
