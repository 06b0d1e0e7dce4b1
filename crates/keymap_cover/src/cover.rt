//! A script that looks up what can be visited, and what it sees.
ghost use Rattle.std.specs.Prelude.{◌≡◌, ◌++◌, ℕ, [], true, false, Some, OnOk, IfOk};
ghost use Rattle.console_states.specs.declared.selection.Sight.{Sight as SightValue};
ghost use Rattle.console_core.specs.History.{between};
ghost use Rattle.console_states.specs.Sights.{AreSightsOf, IsReachable};
ghost use Rattle.console_scripts.specs.Visiting.{CanVisit};
ghost use Rattle.keymap_cover.specs.Covering.{HoldParts, IsCover};
ghost use Rattle.keymap_cover.specs.Inner.OneWay.{is_left};
ghost use Rattle.keymap_cover.specs.Inner.Scripts.{EndsAtRest, GoesResting, GoesScrollOff, GoesUnderWay};
ghost use Rattle.keymap_cover.specs.Inner.Scripts.{SeesAll, ShowsNew, ShowsTold};
ghost use Rattle.keymap_cover.specs.SeenSights.{has_seen};
ghost use Rattle.std.specs.List.{Contains};
ghost use Rattle.keymap_cover.specs.Parts.{part_between, starts_at};

use crate::one_way::go_onward;
use crate::parts::{Cover, Part, Start};
use crate::script::Script;
use crate::scroll::turn_scroll_off;
use crate::seen::Seen;
use crate::told::{told_of_keys, told_pairs};
use crate::trials::trials_of;
use console_core::{PlainConsole, Translator};
use console_scripts::Explorer;
use console_states::{Selection, Sight, Sights};
use keymap_core::{KeyCode, KeyMap};
use std::alloc::{AllocError, Global};

/// Whether the sight is left out: it can be seen, and wasn't.
pub(crate) fn is_left_out(seen: &Seen, sights: &Sights, map: &KeyMap, sight: Sight) -> bool
    ensures none { AreSightsOf map.now sights.now → result ≡ false → IsReachable map.now sight
        → has_seen seen.now sight ≡ true }
    ensures some { AreSightsOf map.now sights.now → result ≡ true → IsReachable map.now sight
        × (has_seen seen.now sight ≡ false) }
    ensures value { result ≡ is_left map.now seen.now sights.now sight }
{
    !seen.has(sight) && sights.can_see(map, sight)
}

/// Whether a press of the key under the selection sees a cell or a lock setting that wasn't seen.
pub(crate) fn sees_new(seen: &Seen, map: &KeyMap, selection: Selection, key: KeyCode) -> bool {
    let slot = selection.slot(key);
    let column = selection.column(map, key);
    let Selection { caps, num, .. } = selection;
    !seen.has(Sight::Cell { slot, column }) || !seen.has(Sight::Locks { slot, caps, num })
}

/// Goes where a press sees it, if it is left out and can be visited.
fn show_left_out<T: Translator + Drop>(
    explorer: &Explorer,
    script: &mut Script<T>,
    map: &KeyMap,
    sights: &Sights,
    sight: Sight,
) -> Result<(), AllocError>
    requires explorer { explorer.now.map ≡ map.now }
    requires sights { AreSightsOf map.now sights.now }
    ensures { OnOk result (GoesUnderWay map.now T.stands script.old script.new
        ((CanVisit map.now sight → has_seen script.new.seen sight ≡ true)
        × ShowsNew (λ x. sight ≡ x) script.old script.new)) }
{
    if !is_left_out(&script.seen, sights, map, sight) {
        return Ok(());
    }
    let seen = &script.seen;
    let wants = |selection, key| sees_new(seen, map, selection, key);
    let Some(events) = explorer.visit(script.alloc, &script.console, sight, wants)? else {
        return Ok(());
    };
    script.walk(map, &events)?;
    Ok(())
}

/// Goes where presses see what is left out of these.
fn show_all<T: Translator + Drop>(
    explorer: &Explorer,
    script: &mut Script<T>,
    map: &KeyMap,
    sights: &Sights,
    told: &[Sight],
) -> Result<(), AllocError>
    requires explorer { explorer.now.map ≡ map.now }
    requires sights { AreSightsOf map.now sights.now }
    ensures { OnOk result (GoesUnderWay map.now T.stands script.old script.new
        (SeesAll map.now told.now script.new × ShowsNew (Contains told.now) script.old script.new)) }
{
    for sight in told {
        show_left_out(explorer, script, map, sights, *sight)?;
    }
    Ok(())
}

/// Adds that the part begins there, unless it ends there.
fn begin(starts: &mut Vec<Start>, part: Part, at: usize, end: usize) -> Result<(), AllocError>
    ensures { OnOk result (starts.new.items ≡ starts.old.items ++ part_between part at end) }
{
    if at < end {
        starts.push(Start { part, at })?;
    }
    Ok(())
}

/// Where the parts begin of a script whose parts end behind so many events.
fn starts_of(
    alloc: Global,
    first: usize,
    second: usize,
    third: usize,
    last: usize,
) -> Result<Vec<Start>, AllocError>
    ensures { IfOk result (λ starts. starts.items ≡ starts_at first second third last) }
{
    let mut starts = Vec::new(alloc);
    begin(&mut starts, Part::Cells, 0, first)?;
    begin(&mut starts, Part::Pairs, first, second)?;
    begin(&mut starts, Part::Trials, second, third)?;
    begin(&mut starts, Part::OneWay, third, last)?;
    Ok(starts)
}

/// Goes where presses see cells and lock settings, and then pairs. Answers how many events there were between.
fn show_told<T: Translator + Drop>(
    explorer: &Explorer,
    script: &mut Script<T>,
    map: &KeyMap,
    sights: &Sights,
) -> Result<usize, AllocError>
    requires explorer { explorer.now.map ≡ map.now }
    requires sights { AreSightsOf map.now sights.now }
    ensures { IfOk result (λ first. GoesUnderWay map.now T.stands script.old script.new
        (ShowsTold map.now first script.new)) }
{
    let keys = told_of_keys(script.alloc)?;
    show_all(explorer, script, map, sights, &keys)?;
    let first = script.events.len();
    let pairs = told_pairs(script.alloc, map)?;
    show_all(explorer, script, map, sights, &pairs)?;
    Ok(first)
}

/// Goes home, as far as moves lead there.
fn go_home<T: Translator + Drop>(
    explorer: &Explorer,
    script: &mut Script<T>,
    map: &KeyMap,
) -> Result<(), AllocError>
    ensures { OnOk result (GoesResting map.now T.stands script.old script.new) }
{
    let home = explorer.events_home(script.alloc, &script.console)?;
    if home.is_empty() {
        return Ok(());
    }
    script.walk(map, &home)?;
    Ok(())
}

/// Makes the trials, each from home, and turns the scroll lock off.
fn try_keys<T: Translator + Drop>(
    explorer: &Explorer,
    script: &mut Script<T>,
    map: &KeyMap,
) -> Result<(), AllocError>
    ensures { OnOk result (GoesScrollOff map.now T.stands script.old script.new) }
{
    go_home(explorer, script, map)?;
    for trial in &trials_of(script.alloc, map, explorer)? {
        script.walk(map, trial)?;
        go_home(explorer, script, map)?;
    }
    turn_scroll_off(script, map)
}

/// The script, and where its parts begin.
fn script_of<T: Translator + Drop>(
    alloc: Global,
    explorer: &Explorer,
    console: T,
    map: &KeyMap,
    sights: &Sights,
) -> Result<(Script<T>, Vec<Start>), AllocError>
    requires new { T.stands console (between map.now map.now) [] }
    requires explorer { explorer.now.map ≡ map.now }
    requires sights { AreSightsOf map.now sights.now }
    ensures { IfOk result (λ t. EndsAtRest map.now t.0
        × ((first second third : ℕ) × HoldParts map.now t.0.events.items t.1.items first second third)) }
{
    let mut script = Script::new(alloc, console)?;
    let first = show_told(explorer, &mut script, map, sights)?;
    let second = script.events.len();
    try_keys(explorer, &mut script, map)?;
    let third = script.events.len();
    go_onward(&mut script, map, sights)?;
    let starts = starts_of(alloc, first, second, third, script.events.len())?;
    Ok((script, starts))
}

/// A script for the keymap, or nothing where the search gives up.
pub fn cover_of(alloc: Global, map: &KeyMap) -> Result<Option<Cover>, AllocError>
    ensures { IfOk result (λ x. IsCover map.now x) }
{
    let Some(explorer) = Explorer::new(alloc, map)? else {
        return Ok(None);
    };
    let sights = explorer.sights(alloc)?;
    let console = PlainConsole::new(map);
    let (script, starts) = script_of(alloc, &explorer, console, map, &sights)?;
    Ok(Some(Cover {
        events: script.events,
        starts,
        seen: script.seen,
        sights,
    }))
}
