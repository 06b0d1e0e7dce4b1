//! What a console keeps between two events.
ghost use Rattle.std.specs.Prelude.{◌≡◌, ◌<◌, false, option_map, IfSome};
ghost use Rattle.keymap_core.specs.Actions.{same_action};
ghost use Rattle.keymap_core.specs.Numbers.{key_count, accent_limit};
ghost use Rattle.console_core.specs.Agrees.{Kept};
ghost use Rattle.console_core.specs.Inner.Kept.{with_mark, with_turned, with_memory, with_pending, after_reset};
ghost use Rattle.console_core.specs.Inner.Kept.{exchanged};

use keymap_core::{Action, Holding, KeyCode, Lock};

/// What a console keeps between two events, however it is laid out.
pub trait Store {
    ghost kept: { Self → Kept };

    fn is_marked(&self, holding: Holding) -> bool
        ensures { result ≡ (kept self.now).mark holding };

    fn is_locked(&self, which: Lock) -> bool
        ensures { result ≡ (kept self.now).lock which };

    fn remembered(&self, key: KeyCode) -> Option<Action>
        ensures value { result ≡ (kept self.now).memory key }
        ensures in_range { key < key_count };

    /// Whether the action that is remembered for the key is this one, if one is remembered.
    fn remembers(&self, key: KeyCode, action: Action) -> Option<bool>
        ensures value { result ≡ option_map (λ held. same_action held action) ((kept self.now).memory key) }
        ensures in_range { key < key_count };

    fn pending(&self) -> Option<u8>
        ensures value { result ≡ (kept self.now).pending }
        ensures in_range { IfSome result (λ i. i < accent_limit) };

    /// Whether the second map is in force.
    fn is_second(&self) -> bool
        ensures { result ≡ (kept self.now).is_second };

    fn set_mark(&mut self, holding: Holding, on: bool)
        ensures { kept self.new ≡ with_mark holding on (kept self.old) };

    fn turn(&mut self, which: Lock)
        ensures { kept self.new ≡ with_turned which (kept self.old) };

    fn remember(&mut self, key: KeyCode, action: Option<Action>)
        requires { IfSome action (λ a. same_action a Action.Nop ≡ false) }
        ensures { kept self.new ≡ with_memory key action (kept self.old) };

    fn set_pending(&mut self, index: Option<u8>)
        requires { IfSome index (λ i. i < accent_limit) }
        ensures { kept self.new ≡ with_pending index (kept self.old) };

    /// Leaves the locks and the map in force.
    fn reset(&mut self)
        ensures { kept self.new ≡ after_reset (kept self.old) };

    /// Puts the other map in force.
    fn exchange(&mut self)
        ensures { kept self.new ≡ exchanged (kept self.old) };
}
