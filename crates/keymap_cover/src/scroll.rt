//! The scroll lock, which is left off: a real console stands still while it is on.
ghost use Rattle.std.specs.Prelude.{OnOk};
ghost use Rattle.keymap_cover.specs.Inner.Scripts.{GoesScrollOff};

use crate::script::Script;
use console_core::Translator;
use console_scripts::scroll_off;
use keymap_core::{KeyMap, Lock};
use std::alloc::AllocError;

/// Turns the scroll lock off, if it is on and presses can do that.
pub(crate) fn turn_scroll_off<T: Translator + Drop>(
    script: &mut Script<T>,
    map: &KeyMap,
) -> Result<(), AllocError>
    ensures { OnOk result (GoesScrollOff map.now T.stands script.old script.new) }
{
    if !script.console.locked(Lock::Scroll) {
        return Ok(());
    }
    if let Some(events) = scroll_off(script.alloc, map, &script.console)? {
        script.walk(map, &events)?;
    }
    Ok(())
}
