//! The packed console over what its caller keeps, for who has no place for a console or calls from C.
ghost use Rattle.std.specs.Prelude.{◌≡◌, ◌<◌, List, [], ◌∷◌, IfSome};
ghost use Rattle.keymap_core.specs.Actions.{modifier_index, lock_index};
ghost use Rattle.keymap_core.specs.Numbers.{accent_limit};
ghost use Rattle.console_core.specs.Types.{Modifier as ModifierValue, Lock as LockValue, Event as EventValue};
ghost use Rattle.console_core.specs.History.{Maps, answer_to, is_on_after, is_locked_after, accent_pending_after};
ghost use Rattle.console_core.specs.Packed.{KeptAt};
ghost use Rattle.console_core.specs.PackedWord.{bit_is_set};

use crate::event::{Answer, Event};
use crate::machine::deliver;
use crate::store::Store;
use crate::word_store::WordStore;
use keymap_core::Keymap;

/// What a packed console keeps at first: nothing on, nothing pending, and the first keymap in force.
pub fn start_kept() -> WordStore
    ensures { (ms : Maps) → KeptAt ms [] result }
{
    WordStore::new()
}

/// Delivers an event to what a packed console of the two keymaps keeps. Where that is what a list of events leaves, it
/// is afterwards what the list with the event leaves, and the answer is the one that a console gives.
#[inline(always)]
pub fn step_kept<K: Keymap>(kept: &mut WordStore, first: &K, second: &K, event: Event) -> Answer
    ensures answer { (ms : Maps) (h : List EventValue) → K.shows first.now ms.first → K.shows second.now ms.second
        → KeptAt ms h kept.old → result ≡ answer_to ms h event }
    ensures next { (ms : Maps) (h : List EventValue) → K.shows first.now ms.first → K.shows second.now ms.second
        → KeptAt ms h kept.old → KeptAt ms (event ∷ h) kept.new }
{
    deliver(kept, first, second, event)
}

/// Which modifiers are on: bit `Modifier::index()` of each is set.
pub fn modifiers_kept(kept: &WordStore) -> u8
    ensures { (ms : Maps) (h : List EventValue) → KeptAt ms h kept.now
        → (i : ModifierValue) → bit_is_set result (modifier_index i) ≡ is_on_after ms i h }
{
    (kept.word % 256) as u8
}

/// Which locks are on: bit `Lock::index()` of each is set.
pub fn locks_kept(kept: &WordStore) -> u8
    ensures bits { (ms : Maps) (h : List EventValue) → KeptAt ms h kept.now
        → (l : LockValue) → bit_is_set result (lock_index l) ≡ is_locked_after ms l h }
    // no other bit is set
    ensures in_range { result < 16 }
{
    ((kept.word >> 8) % 16) as u8
}

/// The index of the pending accent, if there is one.
pub fn pending_kept(kept: &WordStore) -> Option<u8>
    ensures value { (ms : Maps) (h : List EventValue) → KeptAt ms h kept.now → result ≡ accent_pending_after ms h }
    ensures in_range { IfSome result (λ i. i < accent_limit) }
{
    kept.pending()
}
