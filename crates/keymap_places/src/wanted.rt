//! What is wanted at the place where a text goes wrong.
ghost use Rattle.std.specs.Prelude.{◌≡◌, None as Nothing, IfSome, is_ok};
ghost use Rattle.keymap_text.specs.Items as items;
ghost use Rattle.keymap_text.specs.Places as places;
ghost use Rattle.keymap_text.specs.Meaning.{tokens};
ghost use Rattle.keymap_places.specs.Wanted.{row_place, fault_place_view, definition_behind, first_refused};
ghost use Rattle.keymap_places.specs.Inner.Leading.{IsPlace, LeadsTo};

use crate::placed::{Defined, defined_by, token_from};
use keymap_core::PAIR_LIMIT;
use keymap_text::{Item, Meaning, character_of, item_of};

/// What is wanted at a place of a text.
#[derive(Clone, Copy, Debug, PartialEq, Eq)]
pub enum Wanted {
    Definition,
    Cell { column: usize },
    Lock,
    AccentCharacter,
    /// The next pair, or the next definition.
    Pair { before: usize },
    Base { before: usize },
    Composed { before: usize },
    PairEnd { before: usize },
}

/// A definition that has begun: what it defines, and the offset of its first token.
#[derive(Clone, Copy, Debug, PartialEq, Eq)]
pub struct DefinitionStart {
    pub what: Defined,
    pub offset: usize,
}

/// What is wanted at a place, and the definition that has begun before it, unless that has ended. The definition of an
/// accent ends where the next one begins. The place is behind the last token that is accepted.
#[derive(Clone, Copy, Debug, PartialEq, Eq)]
pub struct FaultPlace {
    pub wanted: Wanted,
    pub definition: Option<DefinitionStart>,
    /// The offset behind the last token that is accepted; 0 where there is none.
    pub behind: usize,
}

/// What is wanted behind the first token of a definition; none where no definition begins with it.
#[tactic(auto, using(crate::proofs::WantedPlace::slot_begun, crate::proofs::WantedPlace::accent_begun, crate::proofs::WantedPlace::none_begun))]
fn first_wanted(item: &Item) -> Option<Wanted>
    ensures leads { LeadsTo result (places.next_at_definition item.now) }
    ensures place { IfSome result IsPlace }
{
    match defined_by(item)? {
        Defined::Slot(_) => Some(Wanted::Cell { column: 0 }),
        Defined::Accent(_) => Some(Wanted::AccentCharacter),
    }
}

/// Whether a token is a cell.
fn is_cell(item: &Item) -> bool
    ensures { result ≡ is_ok (items.cell item.now) }
{
    match item {
        Item::Value(Meaning::Act(_)) => true,
        other => character_of(other).is_ok(),
    }
}

/// Whether a token is a lock letter.
fn is_lock(item: &Item) -> bool
    ensures { result ≡ is_ok (items.lock item.now) }
{
    match item {
        Item::Value(Meaning::Letter(_)) => true,
        _ => false,
    }
}

/// What is wanted behind a token; none where it may not stand at the place.
fn wanted_behind(place: Wanted, item: &Item) -> Option<Wanted>
    requires { IsPlace place }
    ensures leads { LeadsTo result (places.next (row_place place) item.now) }
    ensures place { IfSome result IsPlace }
{
    match place {
        Wanted::Definition => first_wanted(item),
        Wanted::Cell { column: 7 } => is_cell(item).then_some(Wanted::Lock),
        Wanted::Cell { column } => is_cell(item).then_some(Wanted::Cell { column: column + 1 }),
        Wanted::Lock => is_lock(item).then_some(Wanted::Definition),
        Wanted::AccentCharacter => character_of(item)
            .is_ok()
            .then_some(Wanted::Pair { before: 0 }),
        Wanted::Pair { before } => match item {
            Item::Open if before < PAIR_LIMIT => Some(Wanted::Base { before }),
            other => first_wanted(other),
        },
        Wanted::Base { before } => match character_of(item) {
            Ok(c) if c != '\0' => Some(Wanted::Composed { before }),
            _ => None,
        },
        Wanted::Composed { before } => character_of(item)
            .is_ok()
            .then_some(Wanted::PairEnd { before }),
        Wanted::PairEnd { before } => match item {
            Item::Close => Some(Wanted::Pair { before: before + 1 }),
            _ => None,
        },
    }
}

/// The definition that has begun, and hasn't ended, behind a token that is accepted at a place.
fn definition_after(
    place: Wanted,
    started: Option<DefinitionStart>,
    item: &Item,
    offset: usize,
) -> Option<DefinitionStart>
    ensures { result ≡ definition_behind (row_place place) started item.now offset }
{
    match place {
        Wanted::Definition | Wanted::Pair { .. } => match defined_by(item) {
            Some(what) => Some(DefinitionStart { what, offset }),
            None => started,
        },
        Wanted::Lock => None,
        _ => started,
    }
}

/// What is wanted where a text has its first token that is refused, or behind its last one where none is, and the
/// definition that this place is in.
pub fn wanted_at_fault(text: &[u8]) -> FaultPlace
    ensures { fault_place_view result ≡ first_refused places.AtDefinition Nothing 0 (tokens text.now) }
{
    let mut wanted = Wanted::Definition;
    let mut definition = None;
    let mut behind = 0;
    while let Some(token) = token_from(text, behind) {
        let item = item_of(token.kind, token.slice);
        let Some(next) = wanted_behind(wanted, &item) else {
            break;
        };
        definition = definition_after(wanted, definition, &item, token.span.start);
        wanted = next;
        behind = token.span.end;
    }
    FaultPlace {
        wanted,
        definition,
        behind,
    }
}
