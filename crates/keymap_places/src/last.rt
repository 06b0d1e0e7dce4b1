//! The last definitions of a text, which are those in force.
ghost use Rattle.std.specs.Prelude.{◌≡◌, ◌++◌, ◌∷◌, [], List, map};
ghost use Rattle.std.specs.List.{range_with_len};
ghost use Rattle.keymap_core.specs.Numbers.{slot_limit, accent_limit};
ghost use Rattle.keymap_places.specs.Types.{Placed as PlacedValue, Slot, Accent};
ghost use Rattle.keymap_places.specs.Placed.{last_of};
ghost use Rattle.keymap_places.specs.Inner.LastOf.{HasLast};

use crate::placed::{Defined, Placed};
use keymap_core::{ACCENT_LIMIT, SLOT_LIMIT};

/// The last definition of each slot and of each accent, where there is one.
#[derive(Clone, Copy, Debug)]
pub struct LastDefinitions {
    pub slots: [Option<Placed>; SLOT_LIMIT],
    pub accents: [Option<Placed>; ACCENT_LIMIT],
}

fn put_slot(last: &mut LastDefinitions, slot: u8, definition: Placed)
    requires { definition.what ≡ Slot slot }
    ensures { (ds : List PlacedValue) → HasLast last.old ds → HasLast last.new (ds ++ definition ∷ []) }
{
    last.slots[slot as usize] = Some(definition);
}

fn put_accent(last: &mut LastDefinitions, index: u8, definition: Placed)
    requires { definition.what ≡ Accent index }
    ensures { (ds : List PlacedValue) → HasLast last.old ds → HasLast last.new (ds ++ definition ∷ []) }
{
    if (index as usize) < ACCENT_LIMIT {
        last.accents[index as usize] = Some(definition);
    }
}

/// Puts one more definition in, behind all others.
fn put(last: &mut LastDefinitions, definition: Placed)
    ensures { (ds : List PlacedValue) → HasLast last.old ds → HasLast last.new (ds ++ definition ∷ []) }
{
    match definition.what {
        Defined::Slot(slot) => put_slot(last, slot, definition),
        Defined::Accent(index) => put_accent(last, index, definition),
    }
}

/// The last one of these definitions of each slot, and of each accent.
pub fn last_definitions(definitions: &[Placed]) -> LastDefinitions
    ensures slots { result.slots ≡ map (λ slot. last_of (Slot slot) definitions.now) (range_with_len 0 slot_limit) }
    ensures accents { result.accents ≡ map (λ i. last_of (Accent i) definitions.now) (range_with_len 0 accent_limit) }
{
    let mut last = LastDefinitions {
        slots: [None; SLOT_LIMIT],
        accents: [None; ACCENT_LIMIT],
    };
    for definition in definitions {
        put(&mut last, *definition);
    }
    last
}
