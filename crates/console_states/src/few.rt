//! A few of the states that presses lead to, for who can do with some of what presses see.
ghost use Rattle.std.specs.Prelude.{◌≡◌, ◌<◌, ℕ, true, OnOk, IfOk};
ghost use Rattle.std.specs.List.{Contains};
ghost use Rattle.keymap_core.specs.Numbers.{key_count};
ghost use Rattle.console_states.specs.Moves.{start as start_state};
ghost use Rattle.console_states.specs.Searching.{AreLedTo, HasLike, IsAmong, PressesLead, state_of, under_of};

use crate::held::{Held, Keymaps};
use keymap_core::{KEY_COUNT, KeyCode, key_with};
use std::alloc::{AllocError, Global};

/// Whether one of the states has the selection of this one, and like it some lock on or none.
fn has_like(states: &[Held], held: &Held) -> bool
    ensures { result ≡ true → HasLike states.now (state_of held.now) }
{
    let selection = held.selection();
    let is_locked = held.is_any_locked();
    for state in states {
        if state.selection() == selection && state.is_any_locked() == is_locked {
            return true;
        }
    }
    false
}

/// Adds where a press of the key leads from each of the states.
fn push_pressed(states: &mut Vec<Held>, maps: &Keymaps, key: KeyCode) -> Result<(), AllocError>
    requires { AreLedTo (under_of maps.now) states.old.items }
    ensures led { OnOk result (AreLedTo (under_of maps.now) states.new.items) }
    ensures kept { OnOk result ((h : Held) → Contains states.old.items h → Contains states.new.items h) }
    ensures pressed { OnOk result ((h : Held) → Contains states.old.items h
        → PressesLead (under_of maps.now) (state_of h) key (HasLike states.new.items)) }
{
    for place in 0..states.len() {
        if let Some(step) = states[place].pressed(maps, key) {
            states.push(step.to)?;
        }
    }
    Ok(())
}

/// Some states that presses lead to, the start among them: for each of shift, control, alt, the upper half and the
/// locks that flip shift that one press at the start turns on, a key that does, and these keys together. The upper half
/// counts twice, as what a key holds and as what a lock turns on. So they are at most 128.
pub fn few_states(alloc: Global, maps: &Keymaps) -> Result<Vec<Held>, AllocError>
    ensures led { IfOk result (λ states. AreLedTo (under_of maps.now) states.items) }
    ensures start { IfOk result (λ states. IsAmong states.items start_state) }
    ensures pressed { IfOk result (λ states. (k : ℕ) → k < key_count
        → PressesLead (under_of maps.now) start_state k (HasLike states.items)) }
{
    let mut states = Vec::new(alloc);
    states.push(Held::start())?;
    for code in 0..KEY_COUNT as u8 {
        let key = key_with(code);
        if let Some(step) = Held::start().pressed(maps, key) {
            if !has_like(&states, &step.to) {
                push_pressed(&mut states, maps, key)?;
            }
        }
    }
    Ok(states)
}
