//! What only turns of locks lead to that can't be taken back.
ghost use Rattle.std.specs.Prelude.{◌≡◌, ◌++◌, filter, not, IfOk, OnOk};
ghost use Rattle.console_states.specs.Sights.{AreSightsOf};
ghost use Rattle.keymap_cover.specs.SeenSights.{has_seen};
ghost use Rattle.keymap_cover.specs.SightLists.{all_cells, all_lock_settings};
ghost use Rattle.keymap_cover.specs.Inner.OneWay.{is_left, AreKeys, GoesToNext, SeesRest};
ghost use Rattle.keymap_cover.specs.Inner.Scripts.{GoesToEnd};

use crate::cover::{is_left_out, sees_new};
use crate::script::Script;
use crate::scroll::turn_scroll_off;
use crate::seen::Seen;
use crate::told::told_of_keys;
use console_core::Translator;
use console_scripts::find_onward;
use console_states::{Sight, Sights};
use keymap_core::KeyMap;
use std::alloc::{AllocError, Global};

/// The cells and lock settings that are left out.
fn left_out(
    alloc: Global,
    seen: &Seen,
    sights: &Sights,
    map: &KeyMap,
) -> Result<Vec<Sight>, AllocError>
    ensures { IfOk result (λ left. left.items
        ≡ filter (is_left map.now seen.now sights.now) (all_cells ++ all_lock_settings)) }
{
    let keys = told_of_keys(alloc)?;
    let mut left = Vec::new(alloc);
    for sight in &keys {
        if is_left_out(seen, sights, map, *sight) {
            left.push(*sight)?;
        }
    }
    Ok(left)
}

/// The sights of a list that weren't seen.
fn unseen(alloc: Global, seen: &Seen, sights: &[Sight]) -> Result<Vec<Sight>, AllocError>
    ensures { IfOk result (λ left. left.items ≡ filter (λ x. not (has_seen seen.now x)) sights.now) }
{
    let mut left = Vec::new(alloc);
    for sight in sights {
        if !seen.has(*sight) {
            left.push(*sight)?;
        }
    }
    Ok(left)
}

/// Goes where a press sees one of these, and turns the scroll lock off. Tells whether there is such a press.
fn show_next<T: Translator + Drop>(
    script: &mut Script<T>,
    map: &KeyMap,
    left: &[Sight],
) -> Result<bool, AllocError>
    ensures { IfOk result (λ more. AreKeys left.now
        → GoesToNext map.now T.stands left.now script.old script.new more) }
{
    let seen = &script.seen;
    let wants = |selection, key| sees_new(seen, map, selection, key);
    let Some(events) = find_onward(script.alloc, map, &script.console, left, wants)? else {
        return Ok(false);
    };
    script.walk(map, &events)?;
    turn_scroll_off(script, map)?;
    Ok(true)
}

/// Goes on where presses see these, by turns that can't be taken back, until none of them can be seen from where the
/// console stands. A reset comes before each, since a lock that a press made the console forget is turned no more before
/// one; behind it events lead where their moves do, so each time something more is seen.
fn show_rest<T: Translator + Drop>(
    script: &mut Script<T>,
    map: &KeyMap,
    sights: Vec<Sight>,
) -> Result<(), AllocError>
    ensures { OnOk result (AreKeys sights.items → SeesRest map.now T.stands sights.items script.old script.new) }
{
    let mut left = sights;
    for _ in 0..left.len() {
        if !show_next(script, map, &left)? {
            return Ok(());
        }
        left = unseen(script.alloc, &script.seen, &left)?;
    }
    Ok(())
}

/// Goes onward if cells or lock settings are left out, until none of them can be seen from where the console stands.
pub(crate) fn go_onward<T: Translator + Drop>(
    script: &mut Script<T>,
    map: &KeyMap,
    sights: &Sights,
) -> Result<(), AllocError>
    ensures { OnOk result (AreSightsOf map.now sights.now → GoesToEnd map.now T.stands script.old script.new) }
{
    let left = left_out(script.alloc, &script.seen, sights, map)?;
    if left.is_empty() {
        return Ok(());
    }
    show_rest(script, map, left)
}
