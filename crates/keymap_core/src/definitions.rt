//! What definitions of keys and accents are put into, however it keeps a keymap.
ghost use Rattle.std.specs.Prelude.{◌<◌};
ghost use Rattle.keymap_core.specs.Maps.{MapValue, with_entry, with_accent};
ghost use Rattle.keymap_core.specs.Numbers.{accent_limit};

use crate::accent::Accent;
use crate::entry::Entry;
use crate::map::KeyMap;

/// Takes definitions of keys and accents.
pub trait Definitions {
    /// The value shows this map. Where it shows none, nothing is said of what a definition leaves.
    ghost shows: { Self → MapValue → Type 0 };

    /// Defines the slot. Slots below it that weren't defined stay undefined.
    fn define(&mut self, slot: u8, entry: Entry)
        ensures { (m : MapValue) → shows self.old m → shows self.new (with_entry m slot entry) };

    /// Defines the accent.
    fn define_accent(&mut self, index: u8, accent: Accent)
        requires { index < accent_limit }
        ensures { (m : MapValue) → shows self.old m → shows self.new (with_accent m index accent) };
}

impl Definitions for KeyMap {
    ghost use Rattle.std.specs.Prelude.{◌≡◌};

    ghost shows = { λ k m. k ≡ m };

    fn define(&mut self, slot: u8, entry: Entry) {
        self.set(slot, entry);
    }

    fn define_accent(&mut self, index: u8, accent: Accent) {
        self.set_accent(index, accent).unwrap();
    }
}
