//! The words of a line of a script.
ghost use Rattle.std.specs.Prelude.{◌≡◌, ◌<◌, ◌==◌, not, position, [], ◌∷◌, length, min, IfSome, IfNone, MatchOption};
ghost use Rattle.std.specs.Str.Parse.{AllDigits, digits_value};
ghost use Rattle.play_core.specs.Scripts.{separates_words, words_in, parts_of, without_comment as without_comment_of};
ghost use Rattle.keymap_core.specs.Numbers.{key_count};

use keymap_core::KEY_COUNT;

/// The first line of a text, and what follows its line feed, if it has one.
pub fn split_line(text: &[u8]) -> (&[u8], Option<&[u8]>)
    ensures parts { MatchOption result.1 (parts_of text.now ≡ result.0.now ∷ [])
        (λ rest. parts_of text.now ≡ result.0.now ∷ parts_of rest.now) }
    ensures shorter { IfSome result.1 (λ rest. length rest.now < length text.now) }
{
    match first_line_feed(text) {
        Some(end) => {
            let (line, rest) = text.split_at(end);
            let (_, rest) = rest.split_at(1);
            (line, Some(rest))
        }
        None => (text, None),
    }
}

fn first_line_feed(text: &[u8]) -> Option<usize>
    ensures place { result ≡ position (λ b. b == 10) text.now }
    ensures bound { IfSome result (λ i. i < length text.now) }
{
    text.iter().position(|b| *b == b'\n')
}

/// The line up to its comment, which a number sign begins.
pub fn without_comment(line: &[u8]) -> &[u8]
    ensures { result.now ≡ without_comment_of line.now }
{
    let end = first_number_sign(line).unwrap_or(line.len());
    &line[..end]
}

/// The first word of a line, and what follows it.
pub fn next_word(line: &[u8]) -> Option<(&[u8], &[u8])>
    ensures { MatchOption result (words_in line.now ≡ []) (λ r. words_in line.now ≡ r.0.now ∷ words_in r.1.now) }
{
    let (_, rest) = line.split_at(first_word_byte(line)?);
    let end = first_blank(rest).unwrap_or(rest.len());
    Some(rest.split_at(end))
}

fn first_number_sign(line: &[u8]) -> Option<usize>
    ensures place { result ≡ position (λ b. b == 35) line.now }
    ensures bound { IfSome result (λ i. i < length line.now) }
{
    line.iter().position(|b| *b == b'#')
}

fn first_blank(line: &[u8]) -> Option<usize>
    ensures place { result ≡ position separates_words line.now }
    ensures bound { IfSome result (λ i. i < length line.now) }
{
    line.iter().position(|b| is_blank_byte(*b))
}

fn first_word_byte(line: &[u8]) -> Option<usize>
    ensures place { result ≡ position (λ b. not (separates_words b)) line.now }
    ensures bound { IfSome result (λ i. i < length line.now) }
{
    line.iter().position(|b| !is_blank_byte(*b))
}

fn is_blank_byte(b: u8) -> bool
    ensures { result ≡ separates_words b }
{
    b == b' ' || b == b'\t' || b == b'\r'
}

/// The number that decimal digits spell, the count of keys for each that is greater.
pub fn number_of(word: &[u8]) -> Option<u8>
    ensures some { IfSome result (λ n. AllDigits 10 word.now × (n ≡ min key_count (digits_value 10 word.now))) }
    ensures none { IfNone result (AllDigits 10 word.now → ⊥) }
{
    let mut value: u16 = 0;
    for digit in word {
        if !digit.is_ascii_digit() {
            return None;
        }
        value = (value * 10 + u16::from(*digit - b'0')).min(KEY_COUNT as u16);
    }
    Some(value as u8)
}
