//! The characters that one press types on a new console, and those that the second of two does.
ghost use Rattle.std.specs.Prelude.{◌≡◌, ◌<◌, ◌↔◌, ◌∷◌, [], ℕ, true, false, IfOk, OnOk, MatchOption};
ghost use Rattle.keymap_core.specs.Numbers.{key_count};
ghost use Rattle.keymap_core.specs.Maps.{MapValue};
ghost use Rattle.console_core.specs.History.{answer_to, between};
ghost use Rattle.console_core.specs.declared.event.Event.TheVariants.{Press, Release};
ghost use Rattle.console_scripts.specs.Typing.{plainly};
ghost use Rattle.keymap_consequences.specs.Consequences.{IsTypedByOne, IsTypedByTwo, TakesMore, before_second};
ghost use Rattle.keymap_consequences.specs.Inner.Near.{AreNear, AreTypedSecond, Changes, Gains, HasCharacter};
ghost use Rattle.keymap_consequences.specs.Inner.Near.{IsTypedBehind};

use console_core::{Answer, Event, Translator, WordConsole, is_usable};
use keymap_core::{Action, Cell, KEY_COUNT, KeyCode, KeyMap, Keymap, key_with};
use std::alloc::{AllocError, Global};
use std::collections::BTreeSet;

/// The characters that one press types, and that the second of two types.
#[derive(Drop)]
pub(crate) struct Near {
    by_one: BTreeSet<char>,
    by_second: BTreeSet<char>,
}

/// The character that the answer types without meta.
fn typed(answer: Answer) -> Option<char>
    ensures { MatchOption result ((c : ℕ) → answer ≡ plainly c → ⊥) (λ c. answer ≡ plainly c) }
{
    match answer {
        Answer::Char { c, meta: false } => Some(c),
        _ => None,
    }
}

/// Adds the character that the answer types, if it types one without meta.
fn add_typed(characters: &mut BTreeSet<char>, answer: Answer) -> Result<(), AllocError>
    ensures { OnOk result (Gains (HasCharacter characters.old) (HasCharacter characters.new)
        (λ c. answer ≡ plainly c)) }
{
    let Some(c) = typed(answer) else {
        return Ok(());
    };
    characters.insert(c)?;
    Ok(())
}

fn no_characters(alloc: Global) -> BTreeSet<char>
    ensures { (c : ℕ) → HasCharacter result c → ⊥ }
{
    BTreeSet::new(alloc)
}

/// The answer of a new console to a press of the key.
fn first_answer(map: &KeyMap, key: KeyCode) -> Answer
    ensures { result ≡ answer_to (between map.now map.now) [] (Press key) }
{
    let mut console = WordConsole::new(map);
    console.step(Event::Press(key))
}

/// The characters that one press types.
fn typed_by_one(alloc: Global, map: &KeyMap) -> Result<BTreeSet<char>, AllocError>
    ensures { IfOk result (λ set. (c : ℕ) → HasCharacter set c ↔ IsTypedByOne map.now c) }
{
    let mut characters = no_characters(alloc);
    for code in 0..KEY_COUNT as u8 {
        add_typed(&mut characters, first_answer(map, key_with(code)))?;
    }
    Ok(characters)
}

/// Whether a press of the key on a new console changes what a press behind it is answered.
fn changes(map: &KeyMap, key: KeyCode) -> bool
    requires { key < key_count }
    ensures changes { result ≡ true → Changes map.now key }
    ensures nothing { result ≡ false → Changes map.now key → ⊥ }
{
    match &map.cell(key.get(), 0) {
        Cell::Act(Action::Mod(_)) | Cell::Act(Action::Lock(_)) => true,
        Cell::Act(Action::DeadKey(accent)) => is_usable(map, accent.get()),
        _ => false,
    }
}

/// The answer to a press of the key by the console that was delivered one, once the key is released.
fn again<'m>(console: &WordConsole<'m>, key: KeyCode) -> Answer
    ensures { (m : MapValue) → ⟦<WordConsole<'m> as Translator>⟧.stands console.now (between m m) (Press key ∷ [])
        → result ≡ answer_to (between m m) (Release key ∷ Press key ∷ []) (Press key) }
{
    let mut console = console.copied();
    let _ = console.step(Event::Release(key));
    console.step(Event::Press(key))
}

/// The answer to a press behind that of the first key, by the console that was delivered this.
fn second_answer<'m>(console: &WordConsole<'m>, first: KeyCode, key: KeyCode) -> Answer
    ensures { (m : MapValue) → ⟦<WordConsole<'m> as Translator>⟧.stands console.now (between m m) (Press first ∷ [])
        → result ≡ answer_to (between m m) (before_second first key) (Press key) }
{
    if first.get() == key.get() {
        return again(console, first);
    }
    let mut console = console.copied();
    console.step(Event::Press(key))
}

/// Adds the characters that a press behind that of the key types.
fn add_behind(
    characters: &mut BTreeSet<char>,
    map: &KeyMap,
    first: KeyCode,
) -> Result<(), AllocError>
    ensures { OnOk result (Gains (HasCharacter characters.old) (HasCharacter characters.new)
        (IsTypedBehind map.now first)) }
{
    let mut console = WordConsole::new(map);
    let _ = console.step(Event::Press(first));
    for code in 0..KEY_COUNT as u8 {
        add_typed(characters, second_answer(&console, first, key_with(code)))?;
    }
    Ok(())
}

/// The characters that the second of two presses types, where the first changes something.
fn typed_by_second(alloc: Global, map: &KeyMap) -> Result<BTreeSet<char>, AllocError>
    ensures { IfOk result (AreTypedSecond map.now) }
{
    let mut characters = no_characters(alloc);
    for code in 0..KEY_COUNT as u8 {
        let first = key_with(code);
        if changes(map, first) {
            add_behind(&mut characters, map, first)?;
        }
    }
    Ok(characters)
}

impl Near {
    pub(crate) fn of(alloc: Global, map: &KeyMap) -> Result<Near, AllocError>
        ensures { IfOk result (AreNear map.now) }
    {
        Ok(Near {
            by_one: typed_by_one(alloc, map)?,
            by_second: typed_by_second(alloc, map)?,
        })
    }

    /// Whether one press types it.
    fn has_one(&self, c: char) -> bool
        ensures { (m : MapValue) → AreNear m self.now → (result ≡ true) ↔ IsTypedByOne m c }
    {
        self.by_one.contains(&c)
    }

    /// Whether one press types it, or the second of two.
    fn has_two(&self, c: char) -> bool
        ensures { (m : MapValue) → AreNear m self.now → (result ≡ true) ↔ IsTypedByTwo m c }
    {
        self.by_one.contains(&c) || self.by_second.contains(&c)
    }

    /// Whether it takes more presses, of at most two, than by the others.
    pub(crate) fn takes_more(&self, other: &Near, c: char) -> bool
        ensures { (m n : MapValue) → AreNear m other.now → AreNear n self.now → (result ≡ true) ↔ TakesMore m n c }
    {
        self.lacks_one(other, c) || self.lacks_two(other, c)
    }

    /// Whether one press types it by the others alone.
    fn lacks_one(&self, other: &Near, c: char) -> bool
        ensures { (m n : MapValue) → AreNear m other.now → AreNear n self.now
            → (result ≡ true) ↔ (IsTypedByOne m c × (IsTypedByOne n c → ⊥)) }
    {
        other.has_one(c) && !self.has_one(c)
    }

    /// Whether one or two presses do.
    fn lacks_two(&self, other: &Near, c: char) -> bool
        ensures { (m n : MapValue) → AreNear m other.now → AreNear n self.now
            → (result ≡ true) ↔ (IsTypedByTwo m c × (IsTypedByTwo n c → ⊥)) }
    {
        other.has_two(c) && !self.has_two(c)
    }
}
