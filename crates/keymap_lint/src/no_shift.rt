//! Texts without a shift key.
ghost use Rattle.std.specs.Prelude.{◌≡◌};
ghost use Rattle.std.specs.Option.{option_to_list};
ghost use Rattle.keymap_lint.specs.Kinds.{no_shift as no_shift_of, has_shift as has_shift_of};

use crate::diagnostic::{Diagnostic, Kind};
use crate::no_key::has_keys;
use keymap_core::{Holding, KeyMap, Modifier};

/// Whether some live cell is lshift or rshift.
fn has_shift(map: &KeyMap) -> bool
    ensures { result ≡ has_shift_of map.now }
{
    map.is_borne(Holding::Mod(Modifier::LeftShift))
        || map.is_borne(Holding::Mod(Modifier::RightShift))
}

/// What is said of a text that defines a slot, and of whose live cells none is lshift or rshift.
pub(crate) fn no_shift(map: &KeyMap) -> Option<Diagnostic>
    ensures { option_to_list result ≡ no_shift_of map.now }
{
    if has_keys(map) && !has_shift(map) {
        Some(Diagnostic {
            place: None,
            kind: Kind::NoShift,
        })
    } else {
        None
    }
}
