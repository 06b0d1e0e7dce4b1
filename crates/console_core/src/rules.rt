//! The rules of genkbd_keyaction of sys/dev/kbd/kbd.c that depend on the map, the pending accent and the action that a
//! press takes.
ghost use Rattle.std.specs.Prelude.{◌≡◌, ◌<◌, IfSome, if◌then◌else◌};
ghost use Rattle.console_core.specs.Columns.{flips_shift, column_of};
ghost use Rattle.keymap_core.specs.Maps.{MapValue};
ghost use Rattle.keymap_core.specs.Numbers.{accent_limit};
ghost use Rattle.console_core.specs.Answers.{answer_char, usable, answer_dead_key as answer_dead_key_of};
ghost use Rattle.console_core.specs.Answers.{answer_action as answer_action_of};
ghost use Rattle.console_core.specs.Inner.Kept.{next_pending as next_pending_of, pending_after_dead_key};

use crate::event::Answer;
use keymap_core::{Action, Keymap, LockFlag};

/// What a character becomes under the pending accent, if one is pending.
#[inline(always)]
pub fn compose<K: Keymap>(map: &K, pending: Option<u8>, c: char, meta: bool) -> Answer
    ensures { (m : MapValue) → K.shows map.now m → result ≡ answer_char m pending meta c }
{
    let Some(index) = pending else {
        return Answer::Char { c, meta };
    };
    let found = if c == ' ' {
        map.own(index)
    } else {
        map.composed(index, c)
    };
    match found {
        Some(c) => Answer::Char { c, meta },
        None => Answer::Error,
    }
}

/// Whether the locks flip the shift of an entry with this flag.
pub fn flips(flag: LockFlag, caps: bool, num: bool) -> bool
    ensures { result ≡ flips_shift flag caps num }
{
    // caps in bit 0, num in bit 1
    let locks = u8::from(caps) + 2 * u8::from(num);
    let flipping = match flag {
        LockFlag::O => 0,
        LockFlag::C => 1,
        LockFlag::N => 2,
        LockFlag::B => 3,
    };
    locks & flipping != 0
}

/// The column for the modifiers and the flipped shift.
pub fn column(shift: bool, control: bool, alt: bool) -> usize
    ensures { result ≡ column_of shift control alt }
{
    usize::from(shift) + 2 * usize::from(control) + 4 * usize::from(alt)
}

/// Whether the dead key is in the accent map.
pub fn is_usable<K: Keymap>(map: &K, index: u8) -> bool
    ensures { (m : MapValue) → K.shows map.now m → result ≡ usable m index }
{
    match map.own(index) {
        Some(own) => own != '\0',
        None => false,
    }
}

/// What is pending after a press that takes the action.
pub fn next_pending<K: Keymap>(map: &K, pending: Option<u8>, taken: &Action) -> Option<u8>
    ensures value { (m : MapValue) → K.shows map.now m → result ≡ next_pending_of m pending taken.now }
    ensures in_range { IfSome pending (λ i. i < accent_limit) → IfSome result (λ i. i < accent_limit) }
{
    match taken {
        Action::Nop | Action::Mod(_) | Action::Lock(_) => pending,
        Action::DeadKey(accent) => toggled(map, pending, accent.get()),
        _ => None,
    }
}

/// What is pending after a press that takes the dead key.
fn toggled<K: Keymap>(map: &K, pending: Option<u8>, index: u8) -> Option<u8>
    requires { index < accent_limit }
    ensures value { (m : MapValue) → K.shows map.now m
        → result ≡ pending_after_dead_key (if usable m index then Some index else None) pending }
    ensures in_range { IfSome result (λ i. i < accent_limit) }
{
    if is_usable(map, index) && pending != Some(index) {
        Some(index)
    } else {
        None
    }
}

/// The answer to a dead key.
#[inline(always)]
fn answer_dead_key<K: Keymap>(map: &K, pending: Option<u8>, meta: bool, index: u8) -> Answer
    ensures { (m : MapValue) → K.shows map.now m → result ≡ answer_dead_key_of m pending meta index }
{
    match map.own(index) {
        Some(own) if own != '\0' => {
            if pending == Some(index) {
                Answer::Char { c: own, meta }
            } else {
                Answer::None
            }
        }
        _ => Answer::Error,
    }
}

/// The answer to a press that takes the action.
#[inline(always)]
pub fn answer_action<K: Keymap>(map: &K, pending: Option<u8>, meta: bool, taken: Action) -> Answer
    ensures { (m : MapValue) → K.shows map.now m → result ≡ answer_action_of m pending meta taken }
{
    match &taken {
        Action::Nop => Answer::None,
        Action::BackTab => Answer::BackTab,
        Action::DeadKey(accent) => answer_dead_key(map, pending, meta, accent.get()),
        Action::Function(_) | Action::Screen(_) | Action::Paste => match pending {
            Some(_) => Answer::Error,
            None => Answer::Special(taken),
        },
        _ => Answer::Special(taken),
    }
}
