//! Texts that define no key.
ghost use Rattle.std.specs.Prelude.{◌≡◌};
ghost use Rattle.std.specs.Option.{option_to_list};
ghost use Rattle.keymap_lint.specs.Kinds.{no_key as no_key_of, has_keys as has_keys_of};

use crate::diagnostic::{Diagnostic, Kind};
use keymap_core::KeyMap;

pub(crate) fn has_keys(map: &KeyMap) -> bool
    ensures { result ≡ has_keys_of map.now }
{
    map.n_keys() > 0
}

/// What is said of a text that defines no slot.
pub(crate) fn no_key(map: &KeyMap) -> Option<Diagnostic>
    ensures { option_to_list result ≡ no_key_of map.now }
{
    if has_keys(map) {
        None
    } else {
        Some(Diagnostic {
            place: None,
            kind: Kind::NoKey,
        })
    }
}
