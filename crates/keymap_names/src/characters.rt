//! How a character is read in what is told: which have their number, beside those that a terminal doesn't show, and
//! which are marks, by Unicode's properties.
ghost use Rattle.std.specs.Prelude.{◌≡◌, ◌+◌, ◌≤◌, ◌++◌, encode_utf8, length};
ghost use Rattle.keymap_names.specs.Characters as spec;

use arrayvec::ArrayVec;
use keymap_core::is_unseen;
use keymap_text::character_text;

/// Code points from the first to the last, both among them.
#[derive(Clone, Copy)]
struct Span(u32, u32);

/// Blanks, private characters and what is no character, but for the last two of each plane.
static NUMBERED: [Span; 14] = [
    // Zs, and the empty pattern of Braille.
    Span(0x20, 0x20),
    Span(0xa0, 0xa0),
    Span(0x1680, 0x1680),
    Span(0x2000, 0x200a),
    Span(0x202f, 0x202f),
    Span(0x205f, 0x205f),
    Span(0x2800, 0x2800),
    Span(0x3000, 0x3000),
    // Co.
    Span(0xe000, 0xf8ff),
    Span(0xf0000, 0xffffd),
    Span(0x100000, 0x10fffd),
    // Noncharacters among the Arabic forms.
    Span(0xfdd0, 0xfdef),
    // Cn: planes 4 to 13, and plane 14 behind its tags and selectors.
    Span(0x40000, 0xdffff),
    Span(0xe1000, 0xeffff),
];

/// Marks (Mn and Me) that would stand alone, by the script of the letters that they stand on. Those of complex scripts
/// get their circle from whoever sets the text.
static MARKS: [Span; 39] = [
    // Of Latin and Greek letters, and of any others.
    Span(0x300, 0x36f),
    Span(0x1ab0, 0x1aff),
    Span(0x1dc0, 0x1dff),
    Span(0xfe20, 0xfe2f),
    // Cyrillic.
    Span(0x483, 0x489),
    Span(0x2de0, 0x2dff),
    Span(0xa66f, 0xa672),
    Span(0xa674, 0xa67d),
    Span(0xa69e, 0xa69f),
    // Hebrew.
    Span(0x591, 0x5bd),
    Span(0x5bf, 0x5bf),
    Span(0x5c1, 0x5c2),
    Span(0x5c4, 0x5c5),
    Span(0x5c7, 0x5c7),
    Span(0xfb1e, 0xfb1e),
    // Arabic.
    Span(0x610, 0x61a),
    Span(0x64b, 0x65f),
    Span(0x670, 0x670),
    Span(0x6d6, 0x6dc),
    Span(0x6df, 0x6e4),
    Span(0x6e7, 0x6e8),
    Span(0x6ea, 0x6ed),
    Span(0x898, 0x89f),
    Span(0x8ca, 0x8e1),
    Span(0x8e3, 0x8ff),
    // Syriac, Thaana and N'Ko.
    Span(0x711, 0x711),
    Span(0x730, 0x74a),
    Span(0x7a6, 0x7b0),
    Span(0x7eb, 0x7f3),
    Span(0x7fd, 0x7fd),
    // Thai and Lao.
    Span(0xe31, 0xe31),
    Span(0xe34, 0xe3a),
    Span(0xe47, 0xe4e),
    Span(0xeb1, 0xeb1),
    Span(0xeb4, 0xebc),
    Span(0xec8, 0xece),
    // Of symbols, and of ideographs and kana.
    Span(0x20d0, 0x20f0),
    Span(0x302a, 0x302d),
    Span(0x3099, 0x309a),
];

fn is_in(spans: &[Span], c: u32) -> bool
    ensures { result ≡ spec.is_in spans.now c }
{
    spans.iter().any(|span| span.0 <= c && c <= span.1)
}

/// Whether the character has its number, beside those that a terminal doesn't show.
#[tactic(auto, unfolding(crate::specs::Characters::is_numbered))]
pub fn is_numbered(c: char) -> bool
    ensures { result ≡ spec.is_numbered c }
{
    let number = u32::from(c);
    is_in(&NUMBERED, number) || 0xfffe <= number % 0x1_0000
}

/// Whether the character is a mark that would stand alone.
#[tactic(auto, unfolding(crate::specs::Characters::is_mark))]
pub fn is_mark(c: char) -> bool
    ensures { result ≡ spec.is_mark c }
{
    is_in(&MARKS, u32::from(c))
}

/// Whether nobody sees the character: what a terminal doesn't show, blanks, private characters and what is none.
#[tactic(auto, unfolding(crate::specs::Characters::is_coded))]
pub fn is_coded(c: char) -> bool
    ensures { result ≡ spec.is_coded c }
{
    is_unseen(c) || is_numbered(c)
}

/// A character in quotes as it is read, or its name or number.
pub type Readable = ArrayVec<u8, 16>;

/// The mark that stands for the letter below an accent.
const DOTTED_CIRCLE: char = '\u{25cc}';

/// Adds a character as UTF-8.
fn push_encoded(text: &mut Readable, c: char)
    requires { length text.old.items + 4 ≤ 16 }
    ensures text { text.new.items ≡ text.old.items ++ encode_utf8 c }
    ensures few { length text.new.items ≤ length text.old.items + 4 }
{
    let mut bytes = [0; 4];
    let _ = text.try_extend_from_slice(c.encode_utf8(&mut bytes).as_bytes());
}

/// A character in quotes, a mark on a dotted circle.
#[tactic(auto, unfolding(crate::specs::Characters::quoted))]
fn quoted(c: char) -> Readable
    ensures { result.items ≡ spec.quoted c }
{
    let mut text = Readable::new();
    text.push(b'\'');
    if is_mark(c) {
        push_encoded(&mut text, DOTTED_CIRCLE);
    }
    push_encoded(&mut text, c);
    text.push(b'\'');
    text
}

/// A character as a reader knows it: in quotes, a mark on a dotted circle; or, where nobody sees it, as a text spells
/// it, by the name of a control character or by its number.
#[tactic(auto, unfolding(crate::specs::Characters::readable))]
pub fn readable(c: char) -> Readable
    ensures { result.items ≡ spec.readable c }
{
    if c != ' ' && is_coded(c) {
        let mut text = Readable::new();
        let _ = text.try_extend_from_slice(character_text(c).as_slice());
        text
    } else {
        quoted(c)
    }
}
