//! Where presses, releases and loads lead from a state of the search, and what they are as events.
ghost use Rattle.std.specs.Prelude.{◌≡◌, ◌<◌, ◌≤◌, ℕ, false, true, None, ◌||◌, ◌&&◌, ◌++◌, reverse, OnOk};
ghost use Rattle.std.specs.Prelude.{MatchOption, IfSome};
ghost use Rattle.keymap_core.specs.Borne.{is_borne};
ghost use Rattle.keymap_core.specs.Actions.{modifiers};
ghost use Rattle.keymap_core.specs.Numbers.{key_count};
ghost use Rattle.keymap_core.specs.declared.action.Modifier.{Modifier as ModifierValue};
ghost use Rattle.keymap_core.specs.declared.action.Modifier.TheVariants.{Meta};
ghost use Rattle.keymap_core.specs.declared.action.Lock.TheVariants.{Caps, Num, Scroll, Alt};
ghost use Rattle.keymap_core.specs.declared.action.Lock.{Lock as LockValue};
ghost use Rattle.keymap_core.specs.declared.action.Action.TheVariants.{DeadKey, Lock as LockAction};
ghost use Rattle.keymap_core.specs.declared.entry.Cell.TheVariants.{Act};
ghost use Rattle.console_states.specs.Moves.{Under, alone, minding, start as start_state, is_held as is_held_in};
ghost use Rattle.console_states.specs.Moves.{look_in, IsIdle, Takes, key_of as key_of_number};
ghost use Rattle.console_states.specs.Moves.{number_of as number_of_key};
ghost use Rattle.console_states.specs.Moves.{map_in, next_map, exchanged as exchanged_in, IsFree, free_with};
ghost use Rattle.console_states.specs.Moves.{with_holder as with_holder_in, with_lock_turned, HolderForgets};
ghost use Rattle.console_states.specs.Minding.{without_accent};
ghost use Rattle.console_states.specs.Moves.{with_accent as with_accent_in};
ghost use Rattle.console_core.specs.Answers.{usable};
ghost use Rattle.console_states.specs.Moves.{IsForgetful, IsRepeated, IsSteady};
ghost use Rattle.console_states.specs.Moves.{events_of_move, releases, Holds, IsMove, IsPressOf, moved};
ghost use Rattle.console_states.specs.declared.held.Move.TheVariants.{Exchange as ExchangeMove};
ghost use Rattle.console_states.specs.Sights.{selection_of, Offers};
ghost use Rattle.console_states.specs.AllowedSights.{SeesAllowed};
ghost use Rattle.console_states.specs.Returning.{IsHome, IsUnlocked, but_scroll, freed};
ghost use Rattle.console_states.specs.Searching.{state_of, under_of, StepsTo, PressesLead, IsStep};
ghost use Rattle.console_states.specs.Allowed.{is_pressed};
ghost use Rattle.console_states.specs.Inner.HeldBytes.{bytes_of, same-bytes};

use super::{Held, Keymaps, Move, Step};
use crate::allowed::Presses;
use crate::selection::{Selection, Sight};
use console_core::{Event, Translator, is_usable};
use keymap_core::{
    Action, Cell, Holding, KEY_COUNT, KeyCode, KeyMap, Lock, MODIFIERS, Modifier, key_with,
};
use std::alloc::AllocError;
use std::hash::{Hash, Hasher};

impl<'m> Keymaps<'m> {
    /// A keymap alone, without loads.
    pub fn alone(map: &'m KeyMap) -> Keymaps<'m>
        ensures alone { under_of result ≡ alone map.now }
        ensures first { result.first.now ≡ map.now }
    {
        Keymaps {
            first: map,
            second: map,
            has_loads: false,
            presses: None,
            minded: None,
        }
    }

    /// A keymap alone, without loads, of which the accent is minded.
    pub fn minding(map: &'m KeyMap, accent: u8) -> Keymaps<'m>
        ensures minding { under_of result ≡ minding (alone map.now) accent }
        ensures first { result.first.now ≡ map.now }
    {
        Keymaps {
            first: map,
            second: map,
            has_loads: false,
            presses: None,
            minded: Some(accent),
        }
    }
}

impl Move {
    /// Adds the events of the move, in their order.
    pub fn push_events(self, events: &mut Vec<Event>) -> Result<(), AllocError>
        ensures { OnOk result (reverse events.new.items ≡ events_of_move self ++ reverse events.old.items) }
    {
        match self {
            Move::Hold(key, _) => events.push(Event::Press(key))?,
            Move::Turn(key, _) => {
                events.push(Event::Press(key))?;
                events.push(Event::Release(key))?;
            }
            Move::Tap(key) => {
                events.push(Event::Press(key))?;
                events.push(Event::Release(key))?;
            }
            Move::LetGo(key, _) => events.push(Event::Release(key))?,
            Move::Exchange => events.push(Event::Load)?,
        }
        Ok(())
    }
}

#[tactic(auto, using(console_core::proofs::Places::places))]
impl Held {
    pub fn start() -> Held
        ensures { state_of result ≡ start_state }
    {
        Held {
            holders: [0; 8],
            locks: [false; 4],
            is_second: false,
            is_pending: false,
        }
    }

    /// The state in which no key holds a modifier and the locks of the console are on, but for the scroll lock.
    pub fn free<T: Translator>(console: &T) -> Held
        ensures first { (state_of result).is_second ≡ false }
        ensures value { state_of result ≡ free_with (but_scroll (T.shows_locked console.now)) }
    {
        Held {
            holders: [0; 8],
            locks: [
                console.locked(Lock::Caps),
                console.locked(Lock::Num),
                false,
                console.locked(Lock::Alt),
            ],
            is_second: false,
            is_pending: false,
        }
    }

    /// The keymap in force.
    fn in_force<'m>(&self, maps: &Keymaps<'m>) -> &'m KeyMap
        ensures { result.now ≡ map_in (under_of maps.now) (state_of self.now) }
    {
        if self.is_second {
            maps.second
        } else {
            maps.first
        }
    }

    /// The keymap that a load puts in force.
    fn next_in_force<'m>(&self, maps: &Keymaps<'m>) -> &'m KeyMap
        ensures { result.now ≡ next_map (under_of maps.now) (state_of self.now) }
    {
        if self.is_second {
            maps.first
        } else {
            maps.second
        }
    }

    pub fn holder(&self, modifier: Modifier) -> Option<KeyCode>
        ensures { result ≡ (state_of self.now).holder modifier }
    {
        key_of(self.holders[modifier.index()])
    }

    fn is_held(&self, modifier: Modifier) -> bool
        ensures { result ≡ is_held_in (state_of self.now) modifier }
    {
        self.holder(modifier).is_some()
    }

    fn is_locked(&self, lock: Lock) -> bool
        ensures { result ≡ (state_of self.now).is_locked lock }
    {
        self.locks[lock.index()]
    }

    pub fn with_holder(&self, modifier: Modifier, holder: Option<KeyCode>) -> Held
        ensures { state_of result ≡ with_holder_in (state_of self.now) modifier holder }
    {
        let mut next = *self;
        next.holders[modifier.index()] = number_of(holder);
        next
    }

    pub fn with_turned(&self, lock: Lock) -> Held
        ensures { state_of result ≡ with_lock_turned (state_of self.now) lock }
    {
        let mut next = *self;
        let place = lock.index();
        next.locks[place] = !next.locks[place];
        next
    }

    /// Whether the lock is on and some key of the keymap bears it.
    fn keeps(&self, lock: Lock, next: &KeyMap) -> bool
        ensures { result ≡ (is_borne next.now (Holding.Lock lock) && (state_of self.now).is_locked lock) }
    {
        next.is_borne(Holding::Lock(lock)) && self.is_locked(lock)
    }

    /// The accent that is minded is pending.
    fn with_accent(&self) -> Held
        ensures { state_of result ≡ with_accent_in (state_of self.now) }
    {
        let mut next = *self;
        next.is_pending = true;
        next
    }

    /// The same, but that the accent that is minded isn't pending.
    pub fn without_accent(&self) -> Held
        ensures { state_of result ≡ without_accent (state_of self.now) }
    {
        let mut next = *self;
        next.is_pending = false;
        next
    }

    /// Whether the accent that is minded is pending.
    pub fn is_accent_pending(&self) -> bool
        ensures { result ≡ (state_of self.now).is_pending }
    {
        self.is_pending
    }

    /// The keymap is in force, each lock that it doesn't bear is off, and no accent is pending.
    fn exchanged(&self, next: &KeyMap) -> Held
        ensures { state_of result ≡ exchanged_in next.now (state_of self.now) }
    {
        let locks = [
            self.keeps(Lock::Caps, next),
            self.keeps(Lock::Num, next),
            self.keeps(Lock::Scroll, next),
            self.keeps(Lock::Alt, next),
        ];
        let mut held = *self;
        held.locks = locks;
        held.is_second = !self.is_second;
        held.is_pending = false;
        held
    }

    fn is_either_held(&self, left: Modifier, right: Modifier) -> bool
        ensures { result ≡ (is_held_in (state_of self.now) left || is_held_in (state_of self.now) right) }
    {
        self.is_held(left) || self.is_held(right)
    }

    /// Whether some key holds meta.
    pub fn is_meta_held(&self) -> bool
        ensures { result ≡ is_held_in (state_of self.now) Meta }
    {
        self.is_held(Modifier::Meta)
    }

    /// What of the state picks the cell that a key looks up.
    pub fn selection(&self) -> Selection
        ensures { result ≡ selection_of (state_of self.now) }
    {
        Selection {
            upper: self.is_held(Modifier::AltShift) != self.is_locked(Lock::Alt),
            shift: self.is_either_held(Modifier::LeftShift, Modifier::RightShift),
            control: self.is_either_held(Modifier::LeftControl, Modifier::RightControl),
            alt: self.is_either_held(Modifier::LeftAlt, Modifier::RightAlt),
            caps: self.is_locked(Lock::Caps),
            num: self.is_locked(Lock::Num),
        }
    }

    /// What a press of the key looks up. `look` of console_core's `machine` goes the same way over the marks of a
    /// store. A state is no store: a holder stands in it for a mark and for what is remembered.
    fn look(&self, maps: &Keymaps, key: KeyCode) -> Cell
        ensures in_range { key < key_count }
        ensures value { result ≡ look_in (under_of maps.now) (state_of self.now) key }
    {
        self.selection().look(self.in_force(maps), key)
    }

    /// Whether a press of the key is allowed that looks up the cell.
    #[inline(always)]
    fn allows(&self, maps: &Keymaps, key: KeyCode, cell: Cell) -> bool
        ensures { result ≡ (under_of maps.now).allows (selection_of (state_of self.now)) key cell }
    {
        match maps.presses {
            Some(presses) => self.is_among(presses, key, cell),
            None => true,
        }
    }

    /// Whether the press is one of these. Out of line, so that where none are told it costs nothing.
    #[inline(never)]
    fn is_among(&self, presses: &Presses, key: KeyCode, cell: Cell) -> bool
        ensures { result ≡ is_pressed presses.now (selection_of (state_of self.now)) key cell }
    {
        presses.has(self.selection(), key, cell)
    }

    /// Whether the key holds a modifier.
    pub fn holds(&self, key: KeyCode) -> bool
        ensures idle { result ≡ false → IsIdle (state_of self.now) key }
        ensures busy { result ≡ true → IsIdle (state_of self.now) key → ⊥ }
    {
        for modifier in MODIFIERS {
            if let Some(holder) = self.holder(modifier) {
                if holder.get() == key.get() {
                    return true;
                }
            }
        }
        false
    }

    /// As `holds`, out of line: for where it is asked of few of the keys that are looked at.
    #[inline(never)]
    fn is_busy(&self, key: KeyCode) -> bool
        ensures idle { result ≡ false → IsIdle (state_of self.now) key }
        ensures busy { result ≡ true → IsIdle (state_of self.now) key → ⊥ }
    {
        self.holds(key)
    }

    /// Whether no key holds a modifier.
    fn is_free(&self) -> bool
        ensures free { result ≡ true → IsFree (state_of self.now) }
        ensures busy { result ≡ false → IsFree (state_of self.now) → ⊥ }
    {
        for modifier in MODIFIERS {
            match self.holder(modifier) {
                Some(_) => return false,
                None => {}
            }
        }
        true
    }

    /// Whether any lock is on.
    pub fn is_any_locked(&self) -> bool
        ensures unlocked { result ≡ false → IsUnlocked (state_of self.now) }
        ensures locked { result ≡ true → (state_of self.now).is_locked Caps ≡ false
            → (state_of self.now).is_locked Num ≡ false → (state_of self.now).is_locked Scroll ≡ false
            → (state_of self.now).is_locked Alt ≡ false → ⊥ }
    {
        self.is_locked(Lock::Caps)
            || self.is_locked(Lock::Num)
            || self.is_locked(Lock::Scroll)
            || self.is_locked(Lock::Alt)
    }

    /// Whether no key holds a modifier and no lock is on.
    pub fn is_home(&self) -> bool
        ensures home { result ≡ true → IsHome (state_of self.now) }
        ensures away { result ≡ false → IsHome (state_of self.now) → ⊥ }
    {
        self.is_free() && !self.is_any_locked()
    }

    /// The holder of the modifier, if it looks up a character and a press of it is allowed.
    fn forgets(&self, maps: &Keymaps, modifier: Modifier) -> Option<KeyCode>
        ensures { MatchOption result ((k : ℕ) → HolderForgets (under_of maps.now) (state_of self.now) modifier k
            → ⊥) (λ k. HolderForgets (under_of maps.now) (state_of self.now) modifier k) }
    {
        match self.holder(modifier) {
            Some(key) => match self.look(maps, key) {
                Cell::Char(c) => if self.allows(maps, key, Cell::Char(c)) {
                    Some(key)
                } else {
                    None
                },
                Cell::Act(_) => None,
            },
            None => None,
        }
    }

    /// A key that holds a modifier and looks up a character, so that a press of it, which is allowed, forgets that.
    pub fn forgetful(&self, maps: &Keymaps) -> Option<KeyCode>
        ensures { MatchOption result (IsForgetful (under_of maps.now) (state_of self.now) → ⊥) (λ k. (i : ModifierValue)
            × HolderForgets (under_of maps.now) (state_of self.now) i k) }
    {
        for modifier in MODIFIERS {
            match self.forgets(maps, modifier) {
                Some(key) => return Some(key),
                None => {}
            }
        }
        None
    }

    /// The accent whose dead key a press of the key looks up, where the key holds nothing and the press is allowed.
    /// Inlined, so that the selection is made once for all keys that are asked for in one state.
    #[inline(always)]
    pub fn offered(&self, maps: &Keymaps, key: KeyCode) -> Option<u8>
        ensures { MatchOption result
            ((accent : ℕ) → Offers (under_of maps.now) (state_of self.now) key accent → ⊥)
            (λ accent. Offers (under_of maps.now) (state_of self.now) key accent) }
    {
        match &self.look(maps, key) {
            Cell::Act(Action::DeadKey(accent)) => {
                if self.is_busy(key) {
                    None
                } else if self.allows(maps, key, Cell::Act(Action::DeadKey(*accent))) {
                    Some(accent.get())
                } else {
                    None
                }
            }
            _ => None,
        }
    }

    /// A key that holds nothing and looks up the dead key of the accent.
    pub fn key_offering(&self, maps: &Keymaps, accent: u8) -> Option<KeyCode>
        ensures { MatchOption result ((k : ℕ) → k < key_count
            → Offers (under_of maps.now) (state_of self.now) k accent → ⊥)
            (λ k. (k < key_count) × Offers (under_of maps.now) (state_of self.now) k accent) }
    {
        for code in 0..KEY_COUNT as u8 {
            let key = key_with(code);
            if let Some(offered) = self.offered(maps, key) {
                if offered == accent {
                    return Some(key);
                }
            }
        }
        None
    }

    /// Whether a press of the key is allowed and sees it, where a pair's accent is pending. The first keymap is asked.
    fn is_seen_by(&self, maps: &Keymaps, key: KeyCode, sight: Sight) -> bool
        ensures seen { result ≡ true → SeesAllowed (under_of maps.now) (state_of self.now) key sight }
        ensures unseen { result ≡ false → SeesAllowed (under_of maps.now) (state_of self.now) key sight → ⊥ }
    {
        let selection = self.selection();
        selection.sees(maps.first, key, sight)
            && self.allows(maps, key, selection.look(maps.first, key))
    }

    /// A key whose press is allowed and sees it, where a pair's accent is pending. The first keymap is asked.
    pub fn key_seeing(&self, maps: &Keymaps, sight: Sight) -> Option<KeyCode>
        ensures { MatchOption result
            ((k : ℕ) → (k < key_count) × SeesAllowed (under_of maps.now) (state_of self.now) k sight → ⊥)
            (λ k. (k < key_count) × SeesAllowed (under_of maps.now) (state_of self.now) k sight) }
    {
        for code in 0..KEY_COUNT as u8 {
            let key = key_with(code);
            if self.is_seen_by(maps, key, sight) {
                return Some(key);
            }
        }
        None
    }

    /// The lock that a press of the key turns, if it turns one and is allowed.
    pub fn turned_by(&self, maps: &Keymaps, key: KeyCode) -> Option<Lock>
        ensures { MatchOption result
            ((l : LockValue) → Takes (under_of maps.now) (state_of self.now) key (Act (LockAction l)) → ⊥)
            (λ l. Takes (under_of maps.now) (state_of self.now) key (Act (LockAction l))) }
    {
        match &self.look(maps, key) {
            Cell::Act(Action::Lock(lock)) => {
                if self.holds(key) {
                    None
                } else if self.allows(maps, key, Cell::Act(Action::Lock(*lock))) {
                    Some(*lock)
                } else {
                    None
                }
            }
            _ => None,
        }
    }

    /// Whether the key holds a modifier and looks up an action, so that one more press of it keeps the state.
    pub fn is_repeated(&self, maps: &Keymaps, key: KeyCode) -> bool
        ensures repeated { result ≡ true → IsRepeated (under_of maps.now) (state_of self.now) key }
        ensures other { result ≡ false → IsRepeated (under_of maps.now) (state_of self.now) key → ⊥ }
    {
        match self.look(maps, key) {
            Cell::Act(_) => self.holds(key),
            Cell::Char(_) => false,
        }
    }

    /// Whether a press of the key and its release keep the state.
    pub fn is_steady(&self, maps: &Keymaps, key: KeyCode) -> bool
        ensures steady { result ≡ true → IsSteady (under_of maps.now) (state_of self.now) key }
        ensures other { result ≡ false → IsSteady (under_of maps.now) (state_of self.now) key → ⊥ }
    {
        if self.holds(key) {
            return false;
        }
        match self.look(maps, key) {
            Cell::Act(Action::Mod(modifier)) => !self.is_held(modifier),
            Cell::Act(Action::Lock(lock)) => lock == Lock::Scroll,
            _ => true,
        }
    }

    /// No key holds a modifier any more.
    pub fn freed(&self) -> Held
        ensures { state_of result ≡ freed (state_of self.now) }
    {
        Held {
            holders: [0; 8],
            locks: self.locks,
            is_second: self.is_second,
            is_pending: self.is_pending,
        }
    }

    /// Where letting go of the modifier leads.
    pub fn let_go(&self, modifier: Modifier) -> Option<Step>
        ensures leads { (k : ℕ) → Holds (state_of self.now) k modifier
            → StepsTo result (with_holder_in (state_of self.now) modifier None) }
        ensures step { (u : Under) → IfSome result (IsStep u (state_of self.now) 0) }
        ensures none { (state_of self.now).holder modifier ≡ None → result ≡ None }
    {
        match self.holder(modifier) {
            Some(key) => Some(Step {
                by: Move::LetGo(key, modifier),
                to: self.with_holder(modifier, None),
            }),
            None => None,
        }
    }

    /// Where a load of the other keymap leads, while no key holds a modifier. A load at other times leads where it does
    /// once the holders let go.
    pub fn exchange(&self, maps: &Keymaps) -> Option<Step>
        ensures leads { IsMove (under_of maps.now) (state_of self.now) ExchangeMove
            → StepsTo result (moved (under_of maps.now) (state_of self.now) ExchangeMove) }
        ensures step { IfSome result (IsStep (under_of maps.now) (state_of self.now) 0) }
        ensures none { (IsMove (under_of maps.now) (state_of self.now) ExchangeMove → ⊥) → result ≡ None }
    {
        if maps.has_loads && self.is_free() {
            Some(Step {
                by: Move::Exchange,
                to: self.exchanged(self.next_in_force(maps)),
            })
        } else {
            None
        }
    }

    /// Where a tap of a dead key leads, if it is a move. Out of line, since few of the keys that are asked have one.
    #[inline(never)]
    fn tapped(&self, maps: &Keymaps, key: KeyCode) -> Option<Step>
        ensures leads { (accent : ℕ) → (under_of maps.now).minded ≡ Some accent
            → usable maps.now.first.now accent ≡ true → (state_of self.now).is_pending ≡ false
            → Offers (under_of maps.now) (state_of self.now) key accent
            → StepsTo result (with_accent_in (state_of self.now)) }
        ensures step { IfSome result (IsStep (under_of maps.now) (state_of self.now) 1) }
        ensures key { IfSome result (λ x. IsPressOf key x.by) }
    {
        let Some(accent) = self.offered(maps, key) else {
            return None;
        };
        if maps.minded == Some(accent) && !self.is_pending && is_usable(maps.first, accent) {
            Some(Step {
                by: Move::Tap(key),
                to: self.with_accent(),
            })
        } else {
            None
        }
    }

    /// Where a press of the key leads, with its release if it turns a lock or is a dead key's, where the press is
    /// allowed.
    pub fn pressed(&self, maps: &Keymaps, key: KeyCode) -> Option<Step>
        ensures leads { PressesLead (under_of maps.now) (state_of self.now) key (StepsTo result) }
        ensures step { IfSome result (IsStep (under_of maps.now) (state_of self.now) 1) }
        ensures key { IfSome result (λ x. IsPressOf key x.by) }
    {
        match self.look(maps, key) {
            Cell::Act(Action::Mod(modifier)) => {
                if self.is_held(modifier) {
                    None
                } else if self.holds(key) {
                    None
                } else if self.allows(maps, key, Cell::Act(Action::Mod(modifier))) {
                    Some(Step {
                        by: Move::Hold(key, modifier),
                        to: self.with_holder(modifier, Some(key)),
                    })
                } else {
                    None
                }
            }
            Cell::Act(Action::Lock(lock)) => {
                if lock == Lock::Scroll {
                    None
                } else if self.holds(key) {
                    None
                } else if self.allows(maps, key, Cell::Act(Action::Lock(lock))) {
                    Some(Step {
                        by: Move::Turn(key, lock),
                        to: self.with_turned(lock),
                    })
                } else {
                    None
                }
            }
            Cell::Act(Action::DeadKey(_)) => self.tapped(maps, key),
            _ => None,
        }
    }

    /// Adds the releases of the keys that hold modifiers, in the order of the modifiers.
    pub fn push_releases(&self, events: &mut Vec<Event>) -> Result<(), AllocError>
        ensures { OnOk result (events.new.items ≡ events.old.items ++ releases (state_of self.now) modifiers) }
    {
        for modifier in MODIFIERS {
            if let Some(key) = self.holder(modifier) {
                events.push(Event::Release(key))?;
            }
        }
        Ok(())
    }
}

/// The number of the key, 0 for none.
fn number_of(holder: Option<KeyCode>) -> u8
    ensures value { result ≡ number_of_key holder }
    ensures in_range { result ≤ key_count }
{
    match holder {
        Some(key) => key.get() + 1,
        None => 0,
    }
}

/// The key with the number, none for 0.
fn key_of(number: u8) -> Option<KeyCode>
    requires { number ≤ key_count }
    ensures { result ≡ key_of_number number }
{
    if number == 0 {
        None
    } else {
        Some(key_with(number - 1))
    }
}

impl Hash for Held {
    ghost use Rattle.std.specs.Prelude.{◌∷◌, []};

    ghost hash_input = { λ h. bytes_of h ∷ [] };

    ghost respects_eq = { same-bytes };

    fn hash<H: Hasher>(&self, state: &mut H) {
        let holders = &self.holders;
        let locks = &self.locks;
        state.write(&[
            holders[0],
            holders[1],
            holders[2],
            holders[3],
            holders[4],
            holders[5],
            holders[6],
            holders[7],
            u8::from(locks[0]),
            u8::from(locks[1]),
            u8::from(locks[2]),
            u8::from(locks[3]),
            u8::from(self.is_second),
            u8::from(self.is_pending),
        ]);
    }
}
