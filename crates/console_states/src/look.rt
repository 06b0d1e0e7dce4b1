//! The first place among those that a search met where a key does what is asked for.
ghost use Rattle.std.specs.Prelude.{◌<◌, ◌^◌, None, Some, IfSome};
ghost use Rattle.console_states.specs.Looks.{IsLook};

use crate::held::Held;
use crate::search::{Met, entry};
use keymap_core::KeyCode;

/// A place where a state was met, and a key to press there.
#[derive(Clone, Copy, Debug, PartialEq, Eq)]
pub struct KeyAt {
    pub place: usize,
    pub key: KeyCode,
}

/// The first place for whose state a key is answered, and that key.
#[inline(always)]
pub fn first_where<F: Fn(Held) -> Option<KeyCode>>(met: &Met, key_in: F) -> Option<KeyAt>
    requires { F.IsAlwaysCallable key_in }
    ensures look { IsLook (λ h. F.post key_in h None) (λ h k. F.post key_in h (Some k)) met.now.entries result }
    ensures small { IfSome result (λ at. at.place < 2 ^ 63) }
{
    for place in 0..met.len() {
        let (held, _) = entry(met, place);
        if let Some(key) = key_in(held) {
            return Some(KeyAt { place, key });
        }
    }
    None
}
