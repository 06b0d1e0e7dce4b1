//! A store with one word of 32 bits and a byte for each key.
ghost use Rattle.std.specs.Prelude.{◌≡◌, ◌≢◌, ◌<◌, ◌≤◌, false, None, option_map, length, IfSome};
ghost use Rattle.keymap_core.specs.Actions.{same_action};
ghost use Rattle.keymap_core.specs.Numbers.{key_count, accent_limit};
ghost use Rattle.console_core.specs.Agrees.{nothing_kept};
ghost use Rattle.console_core.specs.PackedWord.{kept_in_word, mark_bit as mark_bit_of, lock_bit as lock_bit_of};
ghost use Rattle.console_core.specs.PackedWord.{pending_from, pending_code as pending_code_of, action_of_byte};

use crate::store::Store;
use keymap_core::laws::{every_action_has_its_code, every_code_is_read};
use keymap_core::{Action, Holding, KEY_COUNT, KeyCode, Lock};

/// The bits that a reset leaves: the locks and the map in force.
const KEPT: u32 = 0x0010_0f00;

/// The bit of the map in force.
const SECOND: u32 = 20;

/// The bit of a modifier, or of a lock's down mark.
fn mark_bit(holding: Holding) -> usize
    ensures value { result ≡ mark_bit_of holding }
    ensures in_range { result < 16 }
{
    match holding {
        Holding::Mod(modifier) => modifier.index(),
        Holding::Lock(lock) => 12 + lock.index(),
    }
}

/// The bit of a lock.
fn lock_bit(lock: Lock) -> usize
    ensures value { result ≡ lock_bit_of lock }
    ensures in_range { result < 12 }
{
    8 + lock.index()
}

/// The number by which the pending accent is kept.
fn pending_code(index: Option<u8>) -> u32
    requires { IfSome index (λ i. i < accent_limit) }
    ensures code { result ≡ pending_code_of index }
    ensures in_range { result ≤ accent_limit }
    ensures back { pending_from result ≡ index }
{
    match index {
        Some(index) => u32::from(index) + 1,
        None => 0,
    }
}

/// The byte by which a remembered action is kept: its code, 0 for nothing.
#[inline(always)]
fn memory_code(action: &Option<Action>) -> u8
    requires { IfSome action.now (λ a. same_action a Action.Nop ≡ false) }
    ensures { action_of_byte result ≡ action.now }
{
    match action {
        Some(action) => {
            every_code_is_read();
            action.code()
        }
        None => 0,
    }
}

/// Whether the byte keeps this action, if it keeps one. Only the code of another action is decoded.
#[inline(never)]
fn is_code_of(code: u8, expected: Action) -> Option<bool>
    requires { code ≢ 0 }
    ensures { result ≡ option_map (λ held. same_action held expected) (action_of_byte code) }
{
    every_code_is_read();
    every_action_has_its_code();
    if code == expected.code() {
        Some(true)
    } else {
        match Action::from_code(code) {
            Some(_) => Some(false),
            None => None,
        }
    }
}

/// What a packed console keeps between two events: one word and a byte for each key. Any value of it is safe to step.
///
/// The modifiers in bits 0 to 7 of the word, the locks in bits 8 to 11, the down marks in bits 12 to 15, the index of
/// the pending accent plus 1, or 0, in bits 16 to 19, and bit 20 set where the second map is in force. The bytes are
/// the codes of the remembered actions, 0 for nothing.
#[repr(C)]
#[derive(Clone, Copy, Drop)]
pub struct WordStore {
    pub word: u32,
    pub codes: [u8; KEY_COUNT],
    ghost keys: { length codes ≡ key_count },
}

impl WordStore {
    pub fn new() -> WordStore
        ensures { kept_in_word result.word result.codes ≡ nothing_kept }
    {
        WordStore {
            word: 0,
            codes: [0; KEY_COUNT],
        }
    }

    pub fn copied(&self) -> WordStore
        ensures word { result.word ≡ self.now.word }
        ensures codes { result.codes ≡ self.now.codes }
    {
        WordStore {
            word: self.word,
            codes: self.codes,
        }
    }
}

#[tactic(auto, using(crate::proofs::WordBits::word_bits))]
impl Store for WordStore {
    ghost kept = { λ s. kept_in_word s.word s.codes };

    fn is_marked(&self, holding: Holding) -> bool {
        self.word & (1 << mark_bit(holding)) != 0
    }

    fn is_locked(&self, which: Lock) -> bool {
        self.word & (1 << lock_bit(which)) != 0
    }

    #[inline(always)]
    fn remembered(&self, key: KeyCode) -> Option<Action> {
        let code = self.codes[key.get() as usize];
        if code == 0 {
            None
        } else {
            Action::from_code(code)
        }
    }

    #[inline(always)]
    fn remembers(&self, key: KeyCode, action: Action) -> Option<bool> {
        match self.codes[key.get() as usize] {
            0 => None,
            code => is_code_of(code, action),
        }
    }

    fn pending(&self) -> Option<u8> {
        let field = (self.word >> 16) & 15;
        if field == 0 {
            None
        } else {
            Some((field - 1) as u8)
        }
    }

    fn is_second(&self) -> bool {
        self.word & (1 << SECOND) != 0
    }

    fn set_mark(&mut self, holding: Holding, on: bool) {
        let bit = 1 << mark_bit(holding);
        if on {
            self.word |= bit;
        } else {
            self.word &= !bit;
        }
    }

    fn turn(&mut self, which: Lock) {
        let word = self.word;
        let bit = 1 << lock_bit(which);
        self.word = word ^ bit;
    }

    #[inline(always)]
    fn remember(&mut self, key: KeyCode, action: Option<Action>) {
        self.codes[key.get() as usize] = memory_code(&action);
    }

    fn set_pending(&mut self, index: Option<u8>) {
        let word = self.word;
        self.word = (word & 0xfff0_ffff) | (pending_code(index) << 16);
    }

    fn reset(&mut self) {
        self.word &= KEPT;
        self.codes = [0; KEY_COUNT];
    }

    fn exchange(&mut self) {
        let word = self.word;
        self.word = word ^ (1 << SECOND);
    }
}
