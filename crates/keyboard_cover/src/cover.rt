//! The script that tests a console by its keyboard.
ghost use Rattle.std.specs.Prelude.{◌≡◌, ◌<◌, ℕ, false, true, IfOk};
ghost use Rattle.keymap_core.specs.Maps.{MapValue};
ghost use Rattle.keymap_core.specs.Numbers.{column_count};
ghost use Rattle.console_states.specs.declared.allowed.Presses.{Presses as PressesValue};
ghost use Rattle.keymap_cover.specs.Verdicts.{verdict_in};
ghost use Rattle.keyboard_cover.specs.Covering.{CanType, Covers, IsCover, IsScript, IsVerdict, TypesAt, is_typing};
ghost use Rattle.keyboard_cover.specs.Covering.{verdict_of};

use crate::across::add_across;
use crate::between::{add_between, add_risky_between};
use crate::checked::{KeyboardScript, script_of};
use crate::drafts::Drafts;
use crate::laws::verdicts_are_so;
use crate::plan::plan_for;
use crate::sights::{AllowedSights, allowed_sights};
use crate::sweeps::{add_cells, add_pairs};
use crate::trials::{add_more, add_trials};
use console_core::PlainConsole;
use console_states::{Presses, Sight};
use keymap_core::{Action, COLUMN_COUNT, Cell, KeyMap, SLOT_LIMIT};
use keymap_cover::{Can, Verdict, Verdicts};
use std::alloc::{AllocError, Global};

/// A script by a keyboard, and what allowed presses can see.
#[derive(Drop)]
pub struct KeyboardCover {
    pub script: KeyboardScript,
    pub sights: AllowedSights,
}

impl KeyboardCover {
    /// The verdicts on sights.
    pub fn verdicts<'a>(&'a self) -> Verdicts<'a>
        ensures { (m : MapValue) → verdict_in m result ≡ verdict_of self.now }
    {
        Verdicts {
            seen: &self.script.seen,
            can: Can::Listed(&self.sights.can),
        }
    }

    /// What is told of a sight: seen, left out, or seen by no admitted list.
    pub fn verdict(&self, map: &KeyMap, sight: Sight) -> Verdict
        ensures told { (p : PressesValue) → Covers p map.now self.now → IsVerdict p map.now self.now sight result }
        ensures value { result ≡ verdict_of self.now sight }
    {
        verdicts_are_so();
        self.verdicts().verdict(map, sight)
    }

    /// Whether allowed presses can look up a cell of the slot that types.
    fn slot_types(&self, map: &KeyMap, slot: u8) -> bool
        ensures typing { result ≡ true → (c : ℕ) × (c < column_count) × TypesAt map.now self.now slot c }
        ensures silent { result ≡ false → (c : ℕ) → c < column_count → TypesAt map.now self.now slot c → ⊥ }
    {
        for column in 0..COLUMN_COUNT {
            let sight = Sight::Cell { slot, column };
            if types(&map.entry(slot).cells[column]) && self.sights.can.has(sight) {
                return true;
            }
        }
        false
    }

    /// Whether allowed presses can type anything.
    pub fn types(&self, map: &KeyMap) -> bool
        ensures typing { result ≡ true → CanType map.now self.now }
        ensures silent { result ≡ false → CanType map.now self.now → ⊥ }
    {
        for slot in 0..SLOT_LIMIT {
            if self.slot_types(map, slot as u8) {
                return true;
            }
        }
        false
    }
}

/// Whether a press that looks up the cell types something.
fn types(cell: &Cell) -> bool
    ensures { result ≡ is_typing cell.now }
{
    match cell {
        Cell::Char(_) | Cell::Act(Action::BackTab) => true,
        Cell::Act(_) => false,
    }
}

/// The cases that are thought of for a keymap.
fn drafts_for(alloc: Global, map: &KeyMap, presses: Presses) -> Result<Drafts, AllocError> {
    let mut drafts = Drafts::new(alloc)?;
    let Ok(plan) = plan_for(alloc, map, presses) else {
        return Err(AllocError);
    };
    add_trials(&mut drafts, &plan)?;
    add_across(&mut drafts, &plan)?;
    add_between(&mut drafts, &plan)?;
    add_more(&mut drafts, &plan)?;
    add_pairs(&mut drafts, &plan)?;
    add_cells(&mut drafts, &plan, false)?;
    add_cells(&mut drafts, &plan, true)?;
    add_risky_between(&mut drafts, &plan)?;
    Ok(drafts)
}

/// The script for a keymap by a keyboard that makes these presses.
fn script_for(alloc: Global, map: &KeyMap, presses: Presses) -> Result<KeyboardScript, AllocError>
    ensures { IfOk result (λ script. IsScript map.now presses script) }
{
    let drafts = drafts_for(alloc, map, presses)?;
    let mut console = PlainConsole::new(map);
    script_of(alloc, &mut console, map, presses, &drafts.cases)
}

/// The script and what can be seen, or nothing where the search for that gives up.
pub fn keyboard_cover_of(
    alloc: Global,
    map: &KeyMap,
    presses: &Presses,
) -> Result<Option<KeyboardCover>, AllocError>
    ensures { IfOk result (λ cover. IsCover presses.now map.now cover) }
{
    let Some(sights) = allowed_sights(alloc, map, presses)? else {
        return Ok(None);
    };
    let script = script_for(alloc, map, *presses)?;
    Ok(Some(KeyboardCover { script, sights }))
}
