//! The pieces of a text: its tokens and its comments, and where each stands.
ghost use Rattle.std.specs.Prelude.{◌≡◌, ◌≤◌, ◌<◌, length, drop, slice_index, IsFalse};
ghost use Rattle.keymap_text.specs.Lexical.{is_space, leading, separates};
ghost use Rattle.keymap_fmt.specs.Pieces.{lower as lower_of, pieces_after, trimmed};
ghost use Rattle.keymap_fmt.specs.Pieces.{behind as standing_behind};
ghost use Rattle.keymap_fmt.specs.Inner.Reading.{ComesNext, MayCome};
ghost use Rattle.keymap_fmt.specs.Types.{Standing as StandingValue};

use keymap_text::{TokenKind, is_space_byte, line_end, next_token, space_len};

/// Where a piece stands in the text.
#[derive(Clone, Copy)]
pub(crate) enum Standing {
    /// The piece is the first one.
    AtTop,
    /// The piece stands in the line of the piece before it.
    Beside,
    /// The piece stands in the next line.
    Below,
    /// An empty line stands before the piece, or several.
    Apart,
}

/// What a piece is.
#[derive(Clone, Copy)]
pub(crate) enum Part {
    Comment,
    Code(TokenKind),
}

/// A piece of a text, and the place behind it: behind a comment the next line.
#[derive(Clone, Copy)]
pub(crate) struct Piece<'a> {
    pub part: Part,
    pub bytes: &'a [u8],
    pub standing: Standing,
    pub end: usize,
}

fn lower(standing: Standing) -> Standing
    ensures { result ≡ lower_of standing }
{
    match standing {
        Standing::AtTop => Standing::AtTop,
        Standing::Beside => Standing::Below,
        Standing::Below | Standing::Apart => Standing::Apart,
    }
}

/// Where a piece stands that comes right behind one.
pub(crate) fn behind(part: Part) -> Standing
    ensures { result ≡ standing_behind part }
{
    match part {
        Part::Comment => Standing::Below,
        Part::Code(_) => Standing::Beside,
    }
}

/// The bytes without the blanks, tabs and CRs at their end.
fn trim(bytes: &[u8]) -> &[u8]
    ensures { result.now ≡ trimmed bytes.now }
{
    let mut end = bytes.len();
    while end > 0 && is_space_byte(bytes[end - 1]) {
        end -= 1;
    }
    &bytes[..end]
}

/// The comment that begins at a place.
fn comment(text: &[u8], at: usize, standing: Standing) -> Piece<'_>
    requires inside { at < length text.now }
    requires hash { slice_index text.now at ≡ 35 }
    ensures { ComesNext text.now at standing result }
{
    let end = line_end(text, at + 1);
    Piece {
        part: Part::Comment,
        bytes: trim(&text[at..end]),
        standing,
        end: if end < text.len() { end + 1 } else { end },
    }
}

/// The token that begins at a place, if one does.
fn token(text: &[u8], at: usize, standing: Standing) -> Option<Piece<'_>>
    requires inside { at < length text.now }
    requires stands { IsFalse (separates (slice_index text.now at)) }
    ensures { MayCome text.now at standing result }
{
    match next_token(text, at) {
        Ok(Some(token)) => Some(Piece {
            part: Part::Code(token.kind),
            bytes: token.slice,
            standing,
            end: token.span.end,
        }),
        Ok(None) => None,
        Err(_) => None,
    }
}

/// The place behind the spaces at a place. They end no line, so what follows stands where it would without them.
fn spaces_end(text: &[u8], at: usize) -> usize
    requires { at ≤ length text.now }
    ensures length { result ≤ length text.now }
    ensures from { at ≤ result }
    ensures same { (s : StandingValue)
        → pieces_after 0 s (drop at text.now) ≡ pieces_after 0 s (drop result text.now) }
    ensures behind { leading is_space (drop result text.now) ≡ 0 }
{
    at + space_len(&text[at..])
}

/// The first piece from a place on, which would stand there.
pub(crate) fn next_piece(text: &[u8], at: usize, first: Standing) -> Option<Piece<'_>>
    requires { at ≤ length text.now }
    ensures { MayCome text.now at first result }
{
    let mut i = spaces_end(text, at);
    let mut standing = first;
    while i < text.len() {
        match text[i] {
            b'\n' => {
                standing = lower(standing);
                i = spaces_end(text, i + 1);
            }
            b'#' => return Some(comment(text, i, standing)),
            _ => return token(text, i, standing),
        }
    }
    None
}
