//! The ways to type a character by each key.
ghost use Rattle.std.specs.Prelude.{◌≡◌, ◌∷◌, ◌++◌, [], ℕ, false, Option, Some, IfErr, IfOk, OnOk, MatchOption};
ghost use Rattle.console_states.specs.Moves.{start};
ghost use Rattle.console_scripts.specs.Inner.Courses.{Lacks};
ghost use Rattle.console_scripts.specs.Inner.Exploring.{AreExplorations};
ghost use Rattle.console_scripts.specs.Inner.Seeking.{AreReached};
ghost use Rattle.console_scripts.specs.Typing.{IsSearchError};
ghost use Rattle.console_scripts.specs.Ways.{AreWaysByKey, HasNoWayFrom, IsTypedAlone, ending_with};

use crate::classes::Class;
use crate::courses::Target;
use crate::making::has_made;
use crate::typing::{Scribe, Step, Typing, TypingError};
use keyboard::Board;
use keymap_core::{KEY_COUNT, KeyCode, KeyMap, key_with};
use std::alloc::{AllocError, Global};

/// A way to type a character that ends with a press of the key, its class, and how many presses it has before this one.
#[derive(Debug, Drop)]
pub struct WayBy {
    pub key: KeyCode,
    pub class: Class,
    pub before: usize,
    pub typing: Typing,
}

fn push_way(ways: &mut Vec<WayBy>, way: WayBy) -> Result<(), AllocError>
    ensures { OnOk result (ways.new.items ≡ ways.old.items ++ way ∷ []) }
{
    ways.push(way)?;
    Ok(())
}

/// Whether a cell of the key may make the character, by itself or behind a dead key.
fn may_type(map: &KeyMap, character: char, key: KeyCode) -> bool
    ensures { result ≡ false → (accent : Option ℕ) → Lacks map.now accent character key }
{
    let mut index = 0;
    while let Some(_) = map.accent(index) {
        if has_made(map, Some(index), character, key) {
            return true;
        }
        index += 1;
    }
    has_made(map, None, character, key)
}

/// Types the character by itself by the way that is taken of those that end with a press of the key, if there is one,
/// and goes home.
fn type_by<'m>(
    scribe: &mut Scribe<'m>,
    map: &'m KeyMap,
    character: char,
    key: KeyCode,
) -> Result<Option<(Step, Typing)>, TypingError>
    requires explorations { AreExplorations map.now scribe.old.explorations.entries }
    requires reached { AreReached scribe.old.seeker.board map.now scribe.old.seeker.courses.entries }
    ensures explorations { OnOk result (AreExplorations map.now scribe.new.explorations.entries) }
    ensures board { OnOk result (scribe.new.seeker.board ≡ scribe.old.seeker.board) }
    ensures reached { OnOk result (AreReached scribe.new.seeker.board map.now scribe.new.seeker.courses.entries) }
    ensures typed { IfOk result (λ r. MatchOption r
        (HasNoWayFrom scribe.old.seeker.board map.now start (ending_with (Some key) character))
        (λ r. IsTypedAlone r.0.class r.0.before scribe.old.seeker.board map.now (ending_with (Some key) character)
        r.1)) }
    ensures error { IfErr result (λ error. IsSearchError map.now error) }
{
    if !may_type(map, character, key) {
        return Ok(None);
    }
    let target = Target {
        character,
        last: Some(key.get()),
    };
    scribe.type_alone(map, target)
}

/// For each key with whose press some way to type the character ends, the way that is taken of these, in the order of
/// keys.
pub fn ways_of(
    alloc: Global,
    map: &KeyMap,
    board: Board,
    character: char,
) -> Result<Vec<WayBy>, TypingError>
    ensures ways { IfOk result (λ ways. AreWaysByKey board map.now character ways.items) }
    ensures error { IfErr result (λ error. IsSearchError map.now error) }
{
    let mut scribe = Scribe::new(alloc, board);
    let mut ways = Vec::new(alloc);
    for code in 0..KEY_COUNT as u8 {
        let key = key_with(code);
        if let Some((step, typing)) = type_by(&mut scribe, map, character, key)? {
            let way = WayBy {
                key,
                class: step.class,
                before: step.before,
                typing,
            };
            push_way(&mut ways, way)?;
        }
    }
    Ok(ways)
}
