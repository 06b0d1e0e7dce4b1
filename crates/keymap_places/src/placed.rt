//! Where the definitions of a text stand. It sees the whole text, token by token, and knows no grammar: each definition
//! has as many tokens as its first ones tell.
ghost use Rattle.std.specs.Prelude.{◌≡◌, ◌+◌, ◌≤◌, ◌++◌, ◌∷◌, List, All, length, vec_len, map, IfOk, IfSome, OnOk};
ghost use Rattle.keymap_places.specs.Types.{Word};
ghost use Rattle.keymap_text.specs.Lexical.{TokenValue};
ghost use Rattle.keymap_text.specs.Meaning.{tokens, Spells};
ghost use Rattle.keymap_core.specs.Maps.{MapValue};
ghost use Rattle.keymap_places.specs.Placed.{begins, span_of, places_of, Row, IsSpelledBy, HasIndex, StandsAmong};
ghost use Rattle.keymap_places.specs.Inner.Placed.{behind, begun, ComesNext};

use keymap_core::{Action, SLOT_LIMIT};
use keymap_text::{Item, Meaning, Span, Token, TokenKind, item_of, next_token};
use std::alloc::{AllocError, Global};

/// How many tokens there is room for at once; the blanks before it counted, a token mostly has six bytes or more.
const ROOM: usize = 2048;

/// What a definition defines: a slot, or the accent with this index.
#[derive(Clone, Copy, Debug, PartialEq, Eq)]
pub enum Defined {
    Slot(u8),
    Accent(u8),
}

/// A definition: what it defines, and how many tokens of the text stand before it.
#[derive(Clone, Copy, Debug, PartialEq, Eq)]
pub struct Placed {
    pub what: Defined,
    pub first: usize,
}

/// The definitions of a text in order, and where each of its tokens stands. The tokens of a slot's definition are its
/// number, eight cells and the lock letter; those of an accent's are its name, its character, and four for each pair.
#[derive(Drop)]
pub struct PlacedText {
    pub spans: Vec<Span>,
    pub definitions: Vec<Placed>,
}

/// What the definition defines that begins with this token, if one does.
pub(crate) fn defined_by(item: &Item) -> Option<Defined>
    ensures value { result ≡ begins item.now }
    ensures index { IfSome result HasIndex }
{
    match item {
        Item::Value(Meaning::Number(n)) => {
            if *n < SLOT_LIMIT as u128 {
                Some(Defined::Slot(*n as u8))
            } else {
                None
            }
        }
        Item::Value(Meaning::Act(Action::DeadKey(accent))) => Some(Defined::Accent(accent.get())),
        _ => None,
    }
}

/// How many tokens stand behind the first one of a definition, until a pair or the next definition may begin.
fn tokens_behind(what: Defined) -> usize
    ensures { result ≡ behind what }
{
    match what {
        Defined::Slot(_) => 9,
        Defined::Accent(_) => 1,
    }
}

/// Takes the next token, where `left` tokens belong to what has begun and `first` stand before it. Answers how many are
/// left then.
#[tactic(auto, unfolding(crate::specs::Inner::Placed::begun))]
fn take(
    definitions: &mut Vec<Placed>,
    left: usize,
    first: usize,
    token: &Token<'_>,
) -> Result<usize, AllocError>
    requires { token.now.kind ≡ Word → length token.now.slice.now ≤ 32 }
    ensures begun { IfOk result (λ rest. (t : TokenValue) (ts : List TokenValue) → t.kind ≡ token.now.kind
        → t.bytes ≡ token.now.slice.now → definitions.old.items ++ begun left first (t ∷ ts)
        ≡ definitions.new.items ++ begun rest (first + 1) ts) }
    ensures among { OnOk result (All (StandsAmong first) definitions.old.items
        → All (StandsAmong (first + 1)) definitions.new.items) }
{
    if left > 0 {
        return Ok(left - 1);
    }
    if let TokenKind::ParenL = token.kind {
        return Ok(3);
    }
    match defined_by(&item_of(token.kind, token.slice)) {
        Some(what) => {
            definitions.push(Placed { what, first })?;
            Ok(tokens_behind(what))
        }
        None => Ok(0),
    }
}

/// The first token from `at` on; none where no token stands.
#[inline(always)]
pub(crate) fn token_from(text: &[u8], at: usize) -> Option<Token<'_>>
    requires { at ≤ length text.now }
    ensures { ComesNext text.now at result }
{
    match next_token(text, at) {
        Ok(token) => token,
        Err(_) => None,
    }
}

/// Where the definitions and the tokens of a text stand, up to a byte where no token stands. Of a text that spells a
/// map, these are the rows that spell it. `Err` means that memory was refused.
pub fn definitions(alloc: Global, text: &[u8]) -> Result<PlacedText, AllocError>
    ensures spans { IfOk result (λ placed. placed.spans.items ≡ map span_of (tokens text.now)) }
    ensures definitions { IfOk result (λ placed. (m : MapValue) → Spells text.now m → (rows : List Row)
        × IsSpelledBy text.now m rows × (placed.definitions.items ≡ places_of rows)) }
    ensures among { IfOk result (λ placed. All (StandsAmong (vec_len placed.spans)) placed.definitions.items) }
{
    let mut spans = Vec::with_capacity(alloc, ROOM.min(text.len() / 6))?;
    let mut definitions = Vec::new(alloc);
    let mut at = 0;
    let mut left = 0;
    while let Some(token) = token_from(text, at) {
        left = take(&mut definitions, left, spans.len(), &token)?;
        spans.push(token.span)?;
        at = token.span.end;
    }
    Ok(PlacedText { spans, definitions })
}
