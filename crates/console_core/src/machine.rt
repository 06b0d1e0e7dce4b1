//! The machine that both consoles run: how an event changes what a store keeps, and the answer to it. It follows
//! genkbd_keyaction of sys/dev/kbd/kbd.c.
ghost use Rattle.std.specs.Prelude.{◌≡◌, ◌<◌, List, ◌∷◌, [], ◌||◌};
ghost use Rattle.keymap_core.specs.Maps.{MapValue};
ghost use Rattle.keymap_core.specs.Numbers.{key_count};
ghost use Rattle.console_core.specs.Types.{Event as EventValue};
ghost use Rattle.console_core.specs.Columns.{look_with, slot_of, is_upper};
ghost use Rattle.console_core.specs.Answers.{answer_char, answer_action as answer_action_of, answer_release};
ghost use Rattle.console_core.specs.Resolved.{taken_over};
ghost use Rattle.console_core.specs.History.{Maps, in_force, loaded, answer_to};
ghost use Rattle.console_core.specs.Agrees.{nothing_kept, StandsAt};
ghost use Rattle.console_core.specs.Inner.Kept.{with_offered, with_lock_taken, with_taken, with_released};
ghost use Rattle.console_core.specs.Inner.Kept.{with_lock_borne};
ghost use Rattle.console_core.specs.Inner.Kept.{after_character, after_action, after_release, after_load};

use crate::event::{Answer, Event};
use crate::rules::{answer_action, column, compose, flips, next_pending};
use crate::store::Store;
use crate::translator::Translator;
use keymap_core::{Action, Cell, Holding, KEY_COUNT, KeyCode, Keymap, Lock, Modifier, is_borne_in};

fn is_on<S: Store>(store: &S, modifier: Modifier) -> bool
    ensures { result ≡ (S.kept store.now).mark (Holding.Mod modifier) }
{
    store.is_marked(Holding::Mod(modifier))
}

fn is_either_on<S: Store>(store: &S, left: Modifier, right: Modifier) -> bool
    ensures { result ≡ ((S.kept store.now).mark (Holding.Mod left) || (S.kept store.now).mark (Holding.Mod right)) }
{
    is_on(store, left) || is_on(store, right)
}

fn slot<S: Store>(store: &S, key: KeyCode) -> u8
    ensures { result ≡ slot_of key (is_upper (λ i. (S.kept store.now).mark (Holding.Mod i)) (S.kept store.now).lock) }
{
    let upper = is_on(store, Modifier::AltShift) != store.is_locked(Lock::Alt);
    if upper {
        key.get() + KEY_COUNT as u8
    } else {
        key.get()
    }
}

/// What a press of the key looks up. `Held::look` of console_states says the same of a state, which is no store.
#[inline(always)]
fn look<K: Keymap, S: Store>(store: &S, map: &K, key: KeyCode) -> Cell
    ensures { (m : MapValue) → K.shows map.now m
        → result ≡ look_with m (λ i. (S.kept store.now).mark (Holding.Mod i)) (S.kept store.now).lock key }
{
    let slot = slot(store, key);
    let flipped = flips(
        map.flag(slot),
        store.is_locked(Lock::Caps),
        store.is_locked(Lock::Num),
    );
    let shift = is_either_on(store, Modifier::LeftShift, Modifier::RightShift) != flipped;
    let control = is_either_on(store, Modifier::LeftControl, Modifier::RightControl);
    let alt = is_either_on(store, Modifier::LeftAlt, Modifier::RightAlt);
    map.cell(slot, column(shift, control, alt))
}

/// The action that a press takes, and what it leaves remembered.
#[inline(always)]
fn take_over<S: Store>(store: &mut S, key: KeyCode, action: Action) -> Action
    ensures in_range { key < key_count }
    ensures taken { result ≡ taken_over ((S.kept store.old).memory key) action }
    ensures kept { S.kept store.new ≡ with_offered key action (S.kept store.old) }
{
    match store.remembers(key, action) {
        Some(true) => action,
        Some(false) => Action::Nop,
        None => {
            let is_nop = matches!(&action, Action::Nop);
            if !is_nop {
                store.remember(key, Some(action));
            }
            action
        }
    }
}

/// Turns the lock that is taken if it isn't down.
fn turn_lock<S: Store>(store: &mut S, taken: &Action)
    ensures { S.kept store.new ≡ with_lock_taken taken.now (S.kept store.old) }
{
    if let Action::Lock(lock) = taken {
        if !store.is_marked(Holding::Lock(*lock)) {
            store.turn(*lock);
        }
    }
}

/// Sets the mark of the action that is taken, if it has one.
#[tactic(auto, using(crate::proofs::Places::places))]
fn hold<S: Store>(store: &mut S, taken: &Action)
    ensures { S.kept store.new ≡ with_taken taken.now (S.kept store.old) }
{
    if let Some(holding) = taken.holding() {
        store.set_mark(holding, true);
    }
}

/// Clears the mark of the action that is released, if it has one.
fn let_go<S: Store>(store: &mut S, released: &Action)
    ensures { S.kept store.new ≡ with_released released.now (S.kept store.old) }
{
    if let Some(holding) = released.holding() {
        store.set_mark(holding, false);
    }
}

#[inline(always)]
#[tactic(auto, using(crate::proofs::Keeping::keeping))]
fn press_character<K: Keymap, S: Store>(store: &mut S, map: &K, key: KeyCode, c: char) -> Answer
    ensures answer { let old = S.kept store.old in (m : MapValue) → K.shows map.now m
        → result ≡ answer_char m old.pending (old.mark (Holding.Mod Modifier.Meta)) c }
    ensures kept { S.kept store.new ≡ after_character key (S.kept store.old) }
{
    let pending = store.pending();
    let meta = is_on(store, Modifier::Meta);
    store.remember(key, None);
    store.set_pending(None);
    compose(map, pending, c, meta)
}

#[inline(always)]
fn press_action<K: Keymap, S: Store>(store: &mut S, map: &K, key: KeyCode, action: Action) -> Answer
    ensures answer { let old = S.kept store.old in (m : MapValue) → K.shows map.now m
        → result ≡ answer_action_of m old.pending (old.mark (Holding.Mod Modifier.Meta))
        (taken_over (old.memory key) action) }
    ensures in_range { key < key_count }
    ensures kept { (m : MapValue) → K.shows map.now m
        → S.kept store.new ≡ after_action m key action (S.kept store.old) }
{
    let pending = store.pending();
    let meta = is_on(store, Modifier::Meta);
    let taken = take_over(store, key, action);
    store.set_pending(next_pending(map, pending, &taken));
    turn_lock(store, &taken);
    hold(store, &taken);
    answer_action(map, pending, meta, taken)
}

#[inline(always)]
#[tactic(auto, using(crate::proofs::Keeping::keeping))]
fn release<S: Store>(store: &mut S, key: KeyCode) -> Answer
    ensures answer { result ≡ answer_release ((S.kept store.old).memory key) }
    ensures in_range { key < key_count }
    ensures kept { S.kept store.new ≡ after_release key (S.kept store.old) }
{
    match store.remembered(key) {
        Some(action) => {
            store.remember(key, None);
            let_go(store, &action);
            Answer::Released(action)
        }
        None => Answer::None,
    }
}

/// Turns the lock off if no key of the map bears it. A load does so for each lock: one body of code serves the four.
#[inline(never)]
fn keep_if_borne<K: Keymap, S: Store>(store: &mut S, map: &K, lock: Lock)
    ensures { (m : MapValue) → K.shows map.now m → S.kept store.new ≡ with_lock_borne m lock (S.kept store.old) }
{
    if store.is_locked(lock) {
        if !is_borne_in(map, Holding::Lock(lock)) {
            store.turn(lock);
        }
    }
}

/// Forgets what a reset forgets, puts the other map in force and turns off each lock that no key of it bears.
#[inline(never)]
#[tactic(auto, using(crate::proofs::Keeping::keeping))]
fn load<K: Keymap, S: Store>(store: &mut S, next: &K)
    ensures { (m : MapValue) → K.shows next.now m → S.kept store.new ≡ after_load m (S.kept store.old) }
{
    store.reset();
    store.exchange();
    keep_if_borne(store, next, Lock::Caps);
    keep_if_borne(store, next, Lock::Num);
    keep_if_borne(store, next, Lock::Scroll);
    keep_if_borne(store, next, Lock::Alt);
}

/// The answer to an event, and the store after it, under a map in force and the one that a load puts in force.
#[inline(always)]
fn step_under<K: Keymap, S: Store>(store: &mut S, map: &K, next: &K, event: Event) -> Answer
    ensures answer { (ms : Maps) (h : List EventValue) → K.shows map.now (in_force ms h)
        → K.shows next.now (loaded ms h)
        → StandsAt ms h (S.kept store.old)
        → result ≡ answer_to ms h event }
    ensures next { (ms : Maps) (h : List EventValue) → K.shows map.now (in_force ms h) → K.shows next.now (loaded ms h)
        → StandsAt ms h (S.kept store.old)
        → StandsAt ms (event ∷ h) (S.kept store.new) }
{
    match event {
        Event::Press(key) => match look(store, map, key) {
            Cell::Char(c) => press_character(store, map, key, c),
            Cell::Act(action) => press_action(store, map, key, action),
        },
        Event::Release(key) => release(store, key),
        Event::Reset => {
            store.reset();
            Answer::None
        }
        Event::Load => {
            load(store, next);
            Answer::None
        }
    }
}

/// The answer to an event, and the store after it, between two maps.
#[inline(always)]
pub fn deliver<K: Keymap, S: Store>(store: &mut S, first: &K, second: &K, event: Event) -> Answer
    ensures answer { (ms : Maps) (h : List EventValue) → K.shows first.now ms.first → K.shows second.now ms.second
        → StandsAt ms h (S.kept store.old)
        → result ≡ answer_to ms h event }
    ensures next { (ms : Maps) (h : List EventValue) → K.shows first.now ms.first → K.shows second.now ms.second
        → StandsAt ms h (S.kept store.old)
        → StandsAt ms (event ∷ h) (S.kept store.new) }
{
    let is_second = store.is_second();
    let map = if is_second { second } else { first };
    let next = if is_second { first } else { second };
    step_under(store, map, next, event)
}

/// A console between two maps, which keeps its state in the store.
#[derive(Drop)]
pub struct Console<'m, K, S: Drop> {
    first: &'m K,
    second: &'m K,
    store: S,
}

impl<'m, K: Keymap, S: Store + Drop> Console<'m, K, S> {
    /// A console that keeps its state in a store of nothing, the first map in force.
    pub fn over(first: &'m K, second: &'m K, store: S) -> Console<'m, K, S>
        requires { S.kept store ≡ nothing_kept }
        ensures { (ms : Maps) → K.shows first.now ms.first → K.shows second.now ms.second
            → ⟦<Console<'m, K, S> as Translator>⟧.stands result ms [] }
    {
        Console {
            first,
            second,
            store,
        }
    }
}

impl<'m, K, S: Drop> Console<'m, K, S> {
    /// What the state is kept in.
    pub fn store(&self) -> &S
        ensures { result.now ≡ self.now.store }
    {
        &self.store
    }

    /// A console between the same maps, which keeps its state in this store.
    pub fn with_store(&self, store: S) -> Console<'m, K, S>
        ensures first { result.first ≡ self.now.first }
        ensures second { result.second ≡ self.now.second }
        ensures store { result.store ≡ store }
    {
        Console {
            first: self.first,
            second: self.second,
            store,
        }
    }
}

impl<'m, K: Keymap, S: Store + Drop> Translator for Console<'m, K, S> {
    ghost use Rattle.std.specs.Prelude.{◌≡◌};
    ghost use Rattle.console_core.specs.Types.{Mod};
    ghost use Rattle.console_core.specs.Agrees.{StandsAt};
    ghost use Rattle.console_core.specs.History.{HasKeys};

    ghost stands = { λ c ms h. K.shows c.first.now ms.first × K.shows c.second.now ms.second × HasKeys h
        × StandsAt ms h (S.kept c.store) };

    ghost shows_on = { λ c i. (S.kept c.store).mark (Mod i) };

    ghost shows_locked = { λ c. (S.kept c.store).lock };

    ghost shows_pending = { λ c. (S.kept c.store).pending };

    ghost on_where_it_stands = { λ c ms h stands i. stands.3.agrees.marks (Mod i) };

    ghost locked_where_it_stands = { λ c ms h stands l. stands.3.agrees.locks l };

    ghost keys_where_it_stands = { λ c ms h stands. stands.2 };

    ghost pending_where_it_stands = { λ c ms h stands. stands.3.agrees.pending };

    #[inline(always)]
    fn step(&mut self, event: Event) -> Answer {
        deliver(&mut self.store, self.first, self.second, event)
    }

    fn on(&self, modifier: Modifier) -> bool {
        is_on(&self.store, modifier)
    }

    fn locked(&self, lock: Lock) -> bool {
        self.store.is_locked(lock)
    }

    fn pending(&self) -> Option<u8> {
        self.store.pending()
    }
}
