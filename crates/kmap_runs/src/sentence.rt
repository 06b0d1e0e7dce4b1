//! The sentences that the keys of a keymap type.
ghost use Rattle.std.specs.Prelude.{◌≡◌, ◌^◌, ◌<◌, take, length, IfOk, IfErr};
ghost use Rattle.std.specs.Str.{encode_utf8_all};
ghost use Rattle.console_scripts.specs.Ways.{GoWaysFrom};
ghost use Rattle.kmap_runs.specs.Sentences.{IsTyped, IsTypeError};

use crate::type_error::TypeError;
use console_scripts::{Typing, TypingError, type_characters};
use keyboard::Board;
use keymap_core::KeyMap;
use std::alloc::Global;
use std::str::from_utf8;

/// The offset of the character at the place in their text.
fn offset_of(characters: &[char], place: usize) -> u64
    requires place { place < length characters.now }
    requires small { length (encode_utf8_all characters.now) < 2 ^ 64 }
    ensures { result ≡ length (encode_utf8_all (take place characters.now)) }
{
    let mut offset = 0;
    for c in &characters[..place] {
        offset += c.len_utf8() as u64;
    }
    offset
}

/// The events that type the sentence, of each character by a way of the first class of ways to it on the board, one
/// with the fewest presses. The whole of it is read as text first, so a byte that isn't text comes before a
/// character that can't be typed.
pub fn type_sentence(
    alloc: Global,
    map: &KeyMap,
    board: Board,
    sentence: &[u8],
) -> Result<Typing, TypeError>
    ensures ok { IfOk result (λ typing. IsTyped map.now sentence.now typing) }
    ensures ways { IfOk result (λ typing. GoWaysFrom board map.now typing.events.items 0 typing.keyed.items) }
    ensures err { IfErr result (IsTypeError map.now sentence.now) }
{
    let text = match from_utf8(sentence) {
        Ok(text) => text,
        Err(error) => {
            return Err(TypeError::NotText {
                offset: error.valid_up_to() as u64,
            });
        }
    };
    let characters: Vec<char> = text.chars().collect(alloc)?;
    match type_characters(alloc, map, board, characters.as_slice()) {
        Ok(typing) => Ok(typing),
        Err(TypingError::Memory) => Err(TypeError::Memory),
        Err(TypingError::NoWay(place)) => Err(TypeError::NoWay {
            offset: offset_of(&characters, place),
            c: characters[place],
        }),
        Err(TypingError::TooManyStates) => Err(TypeError::TooManyStates),
    }
}
