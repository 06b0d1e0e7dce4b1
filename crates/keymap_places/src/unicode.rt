//! Whether the characters of a text are Unicode for sure.
ghost use Rattle.std.specs.Prelude.{◌≡◌, ◌≤◌, length};
ghost use Rattle.keymap_places.specs.Types.{Word};
ghost use Rattle.keymap_places.specs.Unicode as spec;
ghost use Rattle.keymap_text.specs.Meaning.{tokens};

use crate::placed::token_from;
use keymap_text::{Item, Meaning, TokenKind, item_of};

/// Whether a token is a quoted byte from 0x80 on, which stands alone.
pub fn is_lone(kind: TokenKind, bytes: &[u8]) -> bool
    ensures { result ≡ spec.is_lone kind bytes.now }
{
    match kind {
        TokenKind::Literal(c) => '\u{7f}' < c && bytes.len() == 3,
        _ => false,
    }
}

/// Whether a token is a character that no set of 256 has, or one that is UTF-8 of two bytes or more.
fn is_wide(kind: TokenKind, bytes: &[u8]) -> bool
    requires { kind ≡ Word → length bytes.now ≤ 32 }
    ensures { result ≡ spec.is_wide kind bytes.now }
{
    match kind {
        TokenKind::Literal(_) => 3 < bytes.len(),
        _ => match item_of(kind, bytes) {
            Item::Value(Meaning::Number(n)) => 255 < n,
            _ => false,
        },
    }
}

/// Whether the characters of a text are Unicode for sure: no byte stands alone between apostrophes, and some character
/// is above 0xff or UTF-8 of two bytes or more. In another text a number or a byte from 0x80 to 0xff may be a character
/// of an 8-bit set.
pub fn is_unicode(text: &[u8]) -> bool
    ensures { result ≡ spec.is_unicode (tokens text.now) }
{
    let mut has_wide = false;
    let mut at = 0;
    while let Some(token) = token_from(text, at) {
        if is_lone(token.kind, token.slice) {
            return false;
        }
        has_wide = has_wide || is_wide(token.kind, token.slice);
        at = token.span.end;
    }
    has_wide
}
