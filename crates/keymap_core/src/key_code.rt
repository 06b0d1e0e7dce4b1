//! The code of a key: what the keyboard driver makes of scan codes.
ghost use Rattle.std.specs.Prelude.{◌≡◌, ◌<◌, ◌↔◌, IfSome, IsSome};
ghost use Rattle.keymap_core.specs.Numbers.{key_count};

use crate::limits::KEY_COUNT;
use std::marker::Model;

/// The code of a key, 0 to 127.
#[derive(Clone, Copy, Debug, PartialEq, Eq)]
pub struct KeyCode {
    code: u8,
}

impl Model for KeyCode {
    ghost use Rattle.std.specs.Prelude.{ℕ, ◌<◌};
    ghost use Rattle.keymap_core.specs.Numbers.{key_count};

    ghost Value = { ℕ };

    ghost view = { λ k. k.code };

    ghost invariant = { λ k. k.code < key_count };

    ghost inverse = { λ n. record { code = n } };
}

impl KeyCode {
    /// The key with this code, if there is one: none above 127.
    pub fn new(code: u8) -> Option<KeyCode>
        ensures some { IsSome result ↔ (code < key_count) }
        ensures same { IfSome result (λ key. key ≡ code) }
    {
        if code < KEY_COUNT as u8 {
            Some(KeyCode { code })
        } else {
            None
        }
    }

    /// The key's code.
    pub fn get(self) -> u8
        ensures same { result ≡ self }
        ensures in_range { result < key_count }
    {
        self.code
    }
}

/// The key with this code.
pub fn key_with(code: u8) -> KeyCode
    requires { code < key_count }
    ensures { result ≡ code }
{
    KeyCode { code }
}
