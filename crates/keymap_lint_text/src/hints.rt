//! What a text with a fault may be in place of a keymap text, which is told behind its first fault.
ghost use Rattle.std.specs.Prelude.{◌≡◌, ◌<◌, ◌≤◌, length, option_map, position, IfSome};
ghost use Rattle.keymap_lint_text.specs.Hints as spec;
ghost use Rattle.keymap_lint_text.specs.Joined.{ends_joined, joined_word as joined_word_of};

use crate::near::{before, behind, is_same};
use crate::words::{COMPRESSED, LOADKEYS, NO_TEXT, OTHER_COMMENT, TABLES, XKB, XMODMAP};
use keymap_lint::PlacedFault;
use keymap_places::{TextLines, Wanted};
use keymap_text::is_space_byte;

fn joined_end(bytes: &[u8]) -> Option<usize>
    ensures place { result ≡ position ends_joined bytes.now }
    ensures bound { IfSome result (λ i. i < length bytes.now) }
{
    bytes
        .iter()
        .position(|c| !(c.is_ascii_alphanumeric() || *c == b'_'))
}

/// The word in front of bytes and what is joined to it by low lines.
pub(crate) fn joined_word(bytes: &[u8]) -> &[u8]
    ensures { result.now ≡ joined_word_of bytes.now }
{
    let end = joined_end(bytes).unwrap_or(bytes.len());
    &bytes[..end]
}

/// Whether the bytes are as many as those of a table file, in either width, and begin with a count of keys.
fn is_table_file(text: &[u8]) -> bool
    ensures { result ≡ spec.is_table_file text.now }
{
    (text.len() == 15_524 || text.len() == 4_139) && (text[1] == 0 || text[0] == 0 && text[1] == 1)
}

fn is_gzip(text: &[u8]) -> bool
    ensures { result ≡ spec.is_gzip text.now }
{
    text.len() > 1 && text[0] == 0x1f && text[1] == 0x8b
}

fn is_zip(text: &[u8]) -> bool
    ensures { result ≡ spec.is_zip text.now }
{
    text.len() > 3 && text[0] == b'P' && text[1] == b'K' && text[2] == 3 && text[3] == 4
}

fn is_zstd(text: &[u8]) -> bool
    ensures { result ≡ spec.is_zstd text.now }
{
    text.len() > 3 && text[0] == 0x28 && text[1] == 0xb5 && text[2] == 0x2f && text[3] == 0xfd
}

fn is_compressed(text: &[u8]) -> bool
    ensures { result ≡ spec.is_compressed text.now }
{
    is_gzip(text) || is_zip(text) || is_zstd(text)
}

/// Whether the byte order mark of UTF-16 begins a text, in either order of bytes.
pub(crate) fn is_utf16(text: &[u8]) -> bool
    ensures { result ≡ spec.is_utf16 text.now }
{
    text.len() > 1 && (text[0] == 0xff && text[1] == 0xfe || text[0] == 0xfe && text[1] == 0xff)
}

/// Whether a byte 0 is among the first bytes of a text.
fn is_binary(text: &[u8]) -> bool
    ensures { result ≡ spec.is_binary text.now }
{
    before(text, 512).iter().any(|c| *c == 0)
}

fn is_loadkeys(word: &[u8]) -> bool
    ensures { result ≡ spec.is_among spec.loadkeys_words word.now }
{
    is_same(word, b"keymaps")
        || is_same(word, b"keycode")
        || is_same(word, b"charset")
        || is_same(word, b"include")
        || is_same(word, b"strings")
        || is_same(word, b"string")
        || is_same(word, b"compose")
        || is_same(word, b"plain")
        || is_same(word, b"altgr")
        || is_same(word, b"alt_is_meta")
}

fn is_xkb(word: &[u8]) -> bool
    ensures { result ≡ spec.is_among spec.xkb_words word.now }
{
    is_same(word, b"default")
        || is_same(word, b"partial")
        || is_same(word, b"hidden")
        || is_same(word, b"xkb_keymap")
        || is_same(word, b"xkb_symbols")
        || is_same(word, b"xkb_keycodes")
}

fn is_xmodmap(word: &[u8]) -> bool
    ensures { result ≡ spec.is_among spec.xmodmap_words word.now }
{
    is_same(word, b"clear")
        || is_same(word, b"keysym")
        || is_same(word, b"add")
        || is_same(word, b"remove")
        || is_same(word, b"pointer")
}

/// Whether bytes begin with a sign of comments elsewhere.
fn begins_other_comment(bytes: &[u8]) -> bool
    ensures { result ≡ spec.begins_other_comment bytes.now }
{
    match bytes {
        [b'!' | b';', ..] => true,
        [b'/', b'/' | b'*', ..] => true,
        _ => false,
    }
}

/// What a text is taken for by these bytes of it, where a definition is wanted.
fn foreign(bytes: &[u8]) -> Option<&'static [u8]>
    ensures { option_map (λ s. s.now) result ≡ spec.foreign bytes.now }
{
    let word = joined_word(bytes);
    if is_loadkeys(word) {
        Some(LOADKEYS)
    } else if is_xkb(word) {
        Some(XKB)
    } else if is_xmodmap(word) {
        Some(XMODMAP)
    } else if begins_other_comment(bytes) {
        Some(OTHER_COMMENT)
    } else {
        None
    }
}

/// Whether only blanks stand before a place in its line.
fn is_first_in_line(source: &TextLines, place: usize) -> bool
    requires { place ≤ length source.now }
    ensures { result ≡ spec.is_first_in_line source.now place }
{
    source.at(place).before.iter().all(|c| is_space_byte(*c))
}

fn wants_definition(wanted: Wanted) -> bool
    ensures { result ≡ spec.wants_definition wanted }
{
    matches!(wanted, Wanted::Definition)
}

/// What is told behind the first fault of a text that is taken for another one.
#[tactic(auto, unfolding(crate::specs::Hints::hint))]
pub(crate) fn hint(source: &TextLines, found: &PlacedFault) -> Option<&'static [u8]>
    requires { found.now.fault.offset ≤ length source.now }
    ensures { option_map (λ s. s.now) result ≡ spec.hint source.now found.now }
{
    let text = source.text();
    let place = found.fault.offset as usize;
    if is_table_file(text) {
        Some(TABLES)
    } else if is_compressed(text) {
        Some(COMPRESSED)
    } else if is_utf16(text) {
        Some(b"")
    } else if is_binary(text) {
        Some(NO_TEXT)
    } else if wants_definition(found.place.wanted) && is_first_in_line(source, place) {
        foreign(behind(text, place))
    } else {
        None
    }
}
