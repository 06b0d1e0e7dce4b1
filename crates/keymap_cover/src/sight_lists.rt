//! All cells, and all slots under each setting of clock and nlock.
ghost use Rattle.std.specs.Prelude.{◌≡◌, IfOk};
ghost use Rattle.keymap_cover.specs.SightLists.{all_cells, all_lock_settings};

use console_states::Sight;
use std::alloc::{AllocError, Global};

/// How many cells a keymap has: eight in each slot.
pub const CELL_COUNT: usize = 2_048;

/// How many settings of clock and nlock its slots have: four each.
pub const LOCK_SETTING_COUNT: usize = 1_024;

/// All cells, slot by slot and column by column.
pub fn cells(alloc: Global) -> Result<Vec<Sight>, AllocError>
    ensures { IfOk result (λ v. v.items ≡ all_cells) }
{
    let mut sights = Vec::new(alloc);
    for place in 0..CELL_COUNT {
        sights.push(Sight::Cell {
            slot: (place / 8) as u8,
            column: place % 8,
        })?;
    }
    Ok(sights)
}

/// All lock settings, slot by slot: none on, nlock, clock, and both.
pub fn lock_settings(alloc: Global) -> Result<Vec<Sight>, AllocError>
    ensures { IfOk result (λ v. v.items ≡ all_lock_settings) }
{
    let mut sights = Vec::new(alloc);
    for place in 0..LOCK_SETTING_COUNT {
        sights.push(Sight::Locks {
            slot: (place / 4) as u8,
            caps: place / 2 % 2 == 1,
            num: place % 2 == 1,
        })?;
    }
    Ok(sights)
}
