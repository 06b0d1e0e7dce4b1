//! The sights that are told of, in a list.
ghost use Rattle.std.specs.Prelude.{◌≡◌, ◌++◌, map, OnOk, IfOk};
ghost use Rattle.keymap_core.specs.Maps.{accent_at};
ghost use Rattle.keymap_cover.specs.Inner.Pairs.{base_pair, pairs_of, pairs_in};
ghost use Rattle.keymap_cover.specs.SightLists.{all_cells, all_lock_settings};

use crate::sight_lists::{cells, lock_settings};
use console_states::Sight;
use keymap_core::KeyMap;
use std::alloc::{AllocError, Global};

/// Adds the accent's pairs with the bases.
fn add_bases(sights: &mut Vec<Sight>, accent: u8, pairs: &[(char, char)]) -> Result<(), AllocError>
    ensures { OnOk result (sights.new.items ≡ sights.old.items ++ map (base_pair accent) pairs.now) }
{
    for pair in pairs {
        sights.push(Sight::Pair {
            accent,
            character: pair.0,
        })?;
    }
    Ok(())
}

/// Adds the pairs of the accent at the index, if it is usable.
fn add_pairs(sights: &mut Vec<Sight>, map: &KeyMap, index: u8) -> Result<(), AllocError>
    ensures { OnOk result (sights.new.items ≡ sights.old.items ++ pairs_of index (accent_at map.now index)) }
{
    if let Some(accent) = map.accent(index) {
        if accent.own() != '\0' {
            sights.push(Sight::Pair {
                accent: index,
                character: ' ',
            })?;
            add_bases(sights, index, accent.pairs())?;
        }
    }
    Ok(())
}

/// Adds the pairs of all accents.
fn add_all_pairs(sights: &mut Vec<Sight>, map: &KeyMap) -> Result<(), AllocError>
    ensures { OnOk result (sights.new.items ≡ sights.old.items ++ pairs_in map.now) }
{
    for index in 0..map.n_accs() {
        add_pairs(sights, map, index)?;
    }
    Ok(())
}

/// All cells and lock settings.
pub(crate) fn told_of_keys(alloc: Global) -> Result<Vec<Sight>, AllocError>
    ensures { IfOk result (λ sights. sights.items ≡ all_cells ++ all_lock_settings) }
{
    let mut sights = cells(alloc)?;
    let settings = lock_settings(alloc)?;
    sights.extend_from_slice(settings.as_slice())?;
    Ok(sights)
}

/// The pairs of the accents that are usable.
pub(crate) fn told_pairs(alloc: Global, map: &KeyMap) -> Result<Vec<Sight>, AllocError>
    ensures { IfOk result (λ sights. sights.items ≡ pairs_in map.now) }
{
    let mut sights = Vec::new(alloc);
    add_all_pairs(&mut sights, map)?;
    Ok(sights)
}
