//! Whether two keymaps can be told apart at a console, and by how few presses.
ghost use Rattle.std.specs.Prelude.{IfOk};
ghost use Rattle.keymap_diff.specs.Telling.{IsTelling};

use crate::nearest::{tell, told};
use crate::searched::Searched;
use crate::showing::Both;
use console_core::{Answer, Event};
use console_states::Held;
use keymap_core::KeyMap;
use std::alloc::{AllocError, Global};

/// Whether two keymaps can be told apart at a console.
#[derive(Debug, Drop)]
pub enum Telling {
    /// The last of these presses and releases is answered differently: so under the old keymap, so under the new one.
    Told {
        events: Vec<Event>,
        old: Answer,
        new: Answer,
    },
    /// No event is ever answered differently, and after each the same modifiers and locks are on. Where `forgets` is
    /// set, that is so before a key forgets that it holds a modifier, and some key can.
    Never {
        forgets: bool,
    },
    /// More than 65,536 states can be reached, so the search gave up: no list of as many presses as are told here, or
    /// fewer, is answered differently. So many lead to these states, or to where a key can forget that it holds a
    /// modifier.
    Undecided(usize),
}

/// Decides whether any list of presses, releases and resets tells two keymaps apart, and by how few presses. Where one
/// press at the start does, nothing is nearer, and no search is made.
pub fn telling_apart(alloc: Global, old: &KeyMap, new: &KeyMap) -> Result<Telling, AllocError>
    ensures { IfOk result (λ answer. IsTelling old.now new.now answer) }
{
    let both = Both { old, new };
    let start = Held::start();
    let keys = both.keys_showing(alloc, None)?;
    if let Some(key) = both.key_showing(&start, None, keys.as_slice()) {
        return tell(&both, Vec::new(alloc), key);
    }
    let nearest = Searched::nearest(alloc, &both)?;
    told(alloc, &both, &nearest)
}
