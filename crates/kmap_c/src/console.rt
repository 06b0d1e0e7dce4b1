//! A console in the memory of its caller, who passes the tables at each call.
ghost use Rattle.std.specs.Prelude.{◌≡◌, ◌≢◌, ℕ, true, ◌<◌, ◌≤◌, List, [], ◌∷◌, ◌++◌, length, take, drop, map, reverse};
ghost use Rattle.keymap_core.specs.Actions.{modifier_index, lock_index};
ghost use Rattle.keymap_core.specs.Bounds.{IsMap};
ghost use Rattle.keymap_core.specs.Maps.{MapValue};
ghost use Rattle.keymap_core.specs.declared.action.Modifier.{Modifier as ModifierValue};
ghost use Rattle.keymap_core.specs.declared.action.Lock.{Lock as LockValue};
ghost use Rattle.keymap_core.specs.declared.action.Holding.TheVariants as holding;
ghost use Rattle.keymap_tables.specs.Image.{image};
ghost use Rattle.keymap_tables.specs.Layouts.{wide, file_size};
ghost use Rattle.console_core.specs.History.{Maps, between, answer_to, answers_to, is_on_after, is_locked_after};
ghost use Rattle.console_core.specs.History.{accent_pending_after};
ghost use Rattle.console_core.specs.Packed.{KeptAt};
ghost use Rattle.console_core.specs.Raw.{raw_of};
ghost use Rattle.console_core.specs.PackedWord.{bit_is_set};
ghost use Rattle.console_core.specs.declared.event.Event.{Event as EventValue};
ghost use Rattle.console_core.specs.Positions.{is_odd};
ghost use Rattle.kmap_c.specs.Calls.{AreTables, AreAccepted, WasDelivered, IsHeldDown, IsBorneThroughout, AreUp};
ghost use Rattle.kmap_c.specs.Calls.{LoadsNoOther, in_force_after, is_down, fresh_presses};
ghost use Rattle.kmap_c.specs.Numbers.{event_of as event_of_number, are_events as are_events_of, status_of};
ghost use Rattle.kmap_c.specs.Numbers.{accent_number};
ghost use Rattle.kmap_c.specs.Statuses as status;

use crate::status::{BAD_EVENT, BAD_LENGTH, DONE, NO_ROOM};
use console_core::laws::{headline_holds, locks_count_fresh_presses};
use console_core::{
    Event, WordStore, locks_kept, modifiers_kept, pending_kept, start_kept, step_kept,
};
use keymap_core::{KeyCode, Keymap};
use keymap_tables::Tables;

/// What a console keeps between two events.
#[repr(C)]
#[derive(Clone, Copy, Drop)]
pub struct KmapConsole {
    pub store: WordStore,
}

/// The number behind those of presses and releases.
const KEYS_END: u16 = 256;

/// The greatest number of an event.
pub(crate) const LAST_EVENT: u16 = 257;

/// The event of a number that names one.
pub(crate) fn event_of(number: u16) -> Event
    ensures { result ≡ event_of_number number }
{
    let key = KeyCode::new((number % 128) as u8).unwrap();
    if number < 128 {
        Event::Press(key)
    } else if number < 256 {
        Event::Release(key)
    } else if number == 256 {
        Event::Reset
    } else {
        Event::Load
    }
}

/// Whether each of the numbers names an event.
fn are_events(numbers: &[u16]) -> bool
    ensures { result ≡ are_events_of numbers.now }
{
    for number in numbers {
        if *number > LAST_EVENT {
            return false;
        }
    }
    true
}

/// A console at its start: nothing on, nothing pending, and the first keymap in force.
#[unsafe(no_mangle)]
pub extern "C" fn kmap_start(console: &mut KmapConsole)
    ensures kept { (ms : Maps) → KeptAt ms [] console.new.store }
    ensures begins { (first second : List ℕ) → WasDelivered first second [] console.new.store }
{
    console.store = start_kept();
}

/// Delivers an event to a console between two keymaps. The status tells whether it was, or why not.
#[unsafe(no_mangle)]
pub extern "C" fn kmap_step_between(
    first: &[u8],
    second: &[u8],
    console: &mut KmapConsole,
    event: u16,
    answer: &mut u32,
) -> i32
    ensures status { result ≡ status_of first.now second.now (event ∷ []) 1 }
    ensures unchanged { result ≢ status.done → (console.new ≡ console.old) × (answer.new ≡ answer.old) }
    ensures stands { (m n : MapValue) (h : List EventValue) → IsMap m → IsMap n → first.now ≡ image m
        → second.now ≡ image n → KeptAt (between m n) h console.old.store → result ≡ status.done
        → KeptAt (between m n) (event_of_number event ∷ h) console.new.store }
    ensures answer { (m n : MapValue) (h : List EventValue) → IsMap m → IsMap n → first.now ≡ image m
        → second.now ≡ image n → KeptAt (between m n) h console.old.store → result ≡ status.done
        → answer.new ≡ raw_of (answer_to (between m n) h (event_of_number event)) }
    ensures delivers { (numbers : List ℕ) → WasDelivered first.now second.now numbers console.old.store
        → result ≡ status.done → WasDelivered first.now second.now (event ∷ numbers) console.new.store }
{
    let Some(first) = Tables::new(first) else {
        return BAD_LENGTH;
    };
    let Some(second) = Tables::new(second) else {
        return BAD_LENGTH;
    };
    if event > LAST_EVENT {
        return BAD_EVENT;
    }
    *answer = step_kept(&mut console.store, &first, &second, event_of(event)).raw();
    DONE
}

/// Delivers an event to what a console of one keymap keeps, and answers its number. Resets and loads are delivered so: a
/// call for a load in the step of a key would want the tables of each event in memory.
#[inline(never)]
fn step_apart(store: &mut WordStore, tables: &[u8], event: Event) -> u32
    requires { length tables.now ≡ file_size wide }
    ensures next { (m n : MapValue) (h : List EventValue) → IsMap m → IsMap n → tables.now ≡ image m
        → tables.now ≡ image n → KeptAt (between m n) h store.old → KeptAt (between m n) (event ∷ h) store.new }
    ensures answer { (m : MapValue) (h : List EventValue) → IsMap m → tables.now ≡ image m
        → KeptAt (between m m) h store.old → result ≡ raw_of (answer_to (between m m) h event) }
{
    match Tables::new(tables) {
        Some(shown) => step_kept(store, &shown, &shown, event).raw(),
        None => unreachable!(),
    }
}

/// Delivers an event to a console of one keymap, where a load acts as a reset.
#[unsafe(no_mangle)]
pub extern "C" fn kmap_step(
    tables: &[u8],
    console: &mut KmapConsole,
    event: u16,
    answer: &mut u32,
) -> i32
    ensures status { result ≡ status_of tables.now tables.now (event ∷ []) 1 }
    ensures unchanged { result ≢ status.done → (console.new ≡ console.old) × (answer.new ≡ answer.old) }
    ensures stands { (m : MapValue) (h : List EventValue) → IsMap m → tables.now ≡ image m
        → KeptAt (between m m) h console.old.store → result ≡ status.done
        → KeptAt (between m m) (event_of_number event ∷ h) console.new.store }
    ensures answer { (m : MapValue) (h : List EventValue) → IsMap m → tables.now ≡ image m
        → KeptAt (between m m) h console.old.store → result ≡ status.done
        → answer.new ≡ raw_of (answer_to (between m m) h (event_of_number event)) }
    ensures delivers { (numbers : List ℕ) → WasDelivered tables.now tables.now numbers console.old.store
        → result ≡ status.done → WasDelivered tables.now tables.now (event ∷ numbers) console.new.store }
{
    let Some(shown) = Tables::new(tables) else {
        return BAD_LENGTH;
    };
    *answer = if event < KEYS_END {
        step_kept(&mut console.store, &shown, &shown, event_of(event)).raw()
    } else if event <= LAST_EVENT {
        step_apart(&mut console.store, tables, event_of(event))
    } else {
        return BAD_EVENT;
    };
    DONE
}

/// Delivers the events of these numbers, and puts the answer to each in its place.
fn deliver_all<K: Keymap>(
    store: &mut WordStore,
    first: &K,
    second: &K,
    events: &[u16],
    answers: &mut [u32],
)
    requires { length events.now ≤ length answers.old }
    ensures stands { (ms : Maps) (h : List EventValue) → K.shows first.now ms.first → K.shows second.now ms.second
        → KeptAt ms h store.old → KeptAt ms (reverse (map event_of_number events.now) ++ h) store.new }
    ensures answers { (ms : Maps) (h : List EventValue) → K.shows first.now ms.first → K.shows second.now ms.second
        → KeptAt ms h store.old
        → take (length events.now) answers.new ≡ map raw_of (answers_to ms h (map event_of_number events.now)) }
    ensures rest { drop (length events.now) answers.new ≡ drop (length events.now) answers.old }
{
    for index in 0..events.len() {
        answers[index] = step_kept(store, first, second, event_of(events[index])).raw();
    }
}

/// Delivers events in their order to a console between two keymaps. The status tells whether all were, or why none.
#[unsafe(no_mangle)]
pub extern "C" fn kmap_deliver(
    first: &[u8],
    second: &[u8],
    console: &mut KmapConsole,
    events: &[u16],
    answers: &mut [u32],
) -> i32
    ensures status { result ≡ status_of first.now second.now events.now (length answers.old) }
    ensures unchanged { result ≢ status.done → (console.new ≡ console.old) × (answers.new ≡ answers.old) }
    ensures stands { (m n : MapValue) (h : List EventValue) → IsMap m → IsMap n → first.now ≡ image m
        → second.now ≡ image n → KeptAt (between m n) h console.old.store → result ≡ status.done
        → KeptAt (between m n) (reverse (map event_of_number events.now) ++ h) console.new.store }
    ensures answers { (m n : MapValue) (h : List EventValue) → IsMap m → IsMap n → first.now ≡ image m
        → second.now ≡ image n → KeptAt (between m n) h console.old.store → result ≡ status.done
        → take (length events.now) answers.new
        ≡ map raw_of (answers_to (between m n) h (map event_of_number events.now)) }
    ensures rest { drop (length events.now) answers.new ≡ drop (length events.now) answers.old }
    ensures delivers { (numbers : List ℕ) → WasDelivered first.now second.now numbers console.old.store
        → result ≡ status.done → WasDelivered first.now second.now (reverse events.now ++ numbers) console.new.store }
{
    let Some(first) = Tables::new(first) else {
        return BAD_LENGTH;
    };
    let Some(second) = Tables::new(second) else {
        return BAD_LENGTH;
    };
    if !are_events(events) {
        return BAD_EVENT;
    }
    if answers.len() < events.len() {
        return NO_ROOM;
    }
    deliver_all(&mut console.store, &first, &second, events, answers);
    DONE
}

/// Which modifiers are on: bit 0 lshift, 1 rshift, 2 lctrl, 3 rctrl, 4 lalt, 5 ralt, 6 ashift, 7 meta.
#[unsafe(no_mangle)]
pub extern "C" fn kmap_modifiers(console: &KmapConsole) -> u8
    ensures bits { (ms : Maps) (h : List EventValue) → KeptAt ms h console.now.store
        → (i : ModifierValue) → bit_is_set result (modifier_index i) ≡ is_on_after ms i h }
    // between tables that kmap_accepts accepts no modifier sticks
    ensures never_sticks { (first second numbers : List ℕ) → AreAccepted first → AreAccepted second
        → WasDelivered first second numbers console.now.store
        → (i : ModifierValue) → bit_is_set result (modifier_index i) ≡ true
        → IsHeldDown (in_force_after first second numbers) i numbers }
    // between any tables, a modifier that a key bears throughout in those in force is on exactly while this key is down
    ensures exactly_while { (first second numbers : List ℕ) → AreTables first → AreTables second
        → WasDelivered first second numbers console.now.store
        → (i : ModifierValue) (k : ℕ) → IsBorneThroughout (in_force_after first second numbers) k (holding.Mod i)
        → bit_is_set result (modifier_index i) ≡ is_down k numbers }
    // no modifier stays on once every key's release was delivered
    ensures all_up { (first second numbers : List ℕ) → AreAccepted first → AreAccepted second
        → WasDelivered first second numbers console.now.store → AreUp numbers → result ≡ 0 }
{
    headline_holds();
    modifiers_kept(&console.store)
}

/// Which locks are on: bit 0 clock, 1 nlock, 2 slock, 3 alock.
#[unsafe(no_mangle)]
pub extern "C" fn kmap_locks(console: &KmapConsole) -> u8
    ensures bits { (ms : Maps) (h : List EventValue) → KeptAt ms h console.now.store
        → (l : LockValue) → bit_is_set result (lock_index l) ≡ is_locked_after ms l h }
    // no other bit is set
    ensures in_range { result < 16 }
    // where no other tables are loaded, a lock that a key bears throughout is on exactly after an odd number of presses
    // of this key that are no repeats
    ensures fresh_presses { (first second numbers : List ℕ) → AreTables first → AreTables second
        → WasDelivered first second numbers console.now.store → LoadsNoOther first second numbers
        → (l : LockValue) (k : ℕ) → IsBorneThroughout first k (holding.Lock l)
        → bit_is_set result (lock_index l) ≡ is_odd (fresh_presses k numbers) }
{
    locks_count_fresh_presses();
    locks_kept(&console.store)
}

/// The index of the pending accent, -1 for none.
#[unsafe(no_mangle)]
pub extern "C" fn kmap_pending(console: &KmapConsole) -> i32
    ensures { (ms : Maps) (h : List EventValue) → KeptAt ms h console.now.store
        → result ≡ accent_number (accent_pending_after ms h) }
{
    match pending_kept(&console.store) {
        Some(index) => i32::from(index),
        None => -1,
    }
}
