//! A line of a script.
ghost use Rattle.std.specs.Prelude.{◌≡◌};
ghost use Rattle.play_core.specs.Scripts.{words_of, words_in};
ghost use Rattle.play_core.specs.Inner.Readings.{reading, sent_by, what_of, what_alone, what_with_key, key_in};

use crate::sent::{Sent, What};
use crate::words::{next_word, number_of, without_comment};
use keymap_core::KeyCode;

/// Why a line of a script is no event.
#[derive(Clone, Copy)]
pub enum LineFault {
    Form,
    /// The line has the form of an event, with a number above 127.
    Key,
}

const LOST: &[u8] = b"lost";

const DOWN: &[u8] = b"down";

const REPEAT: &[u8] = b"repeat";

const UP: &[u8] = b"up";

const RESET: &[u8] = b"reset";

const LOAD: &[u8] = b"load";

/// The event of a line, of which there is none without a word.
#[tactic(auto, unfolding(crate::specs::Inner::Readings::reading))]
pub fn read_line(line: &[u8]) -> Result<Option<Sent>, LineFault>
    ensures { result ≡ reading (words_of line.now) }
{
    let Some((word, rest)) = next_word(without_comment(line)) else {
        return Ok(None);
    };
    if word != LOST {
        return read_sent(false, word, rest);
    }
    match next_word(rest) {
        Some((word, rest)) => read_sent(true, word, rest),
        None => Err(LineFault::Form),
    }
}

/// The event of a line, by the word of its command and what follows that.
#[tactic(auto, unfolding(crate::specs::Inner::Readings::sent_by))]
fn read_sent(lost: bool, word: &[u8], rest: &[u8]) -> Result<Option<Sent>, LineFault>
    ensures { result ≡ sent_by lost (what_of word.now (words_in rest.now)) }
{
    let what = read_what(word, rest)?;
    Ok(Some(Sent { lost, what }))
}

#[tactic(auto, unfolding(crate::specs::Inner::Readings::what_of))]
fn read_what(word: &[u8], rest: &[u8]) -> Result<What, LineFault>
    ensures { result ≡ what_of word.now (words_in rest.now) }
{
    match next_word(rest) {
        None => read_alone(word),
        Some((number, rest)) => match next_word(rest) {
            None => read_with_key(word, number),
            Some(_) => Err(LineFault::Form),
        },
    }
}

/// A command of one word.
#[tactic(auto, unfolding(crate::specs::Inner::Readings::what_alone))]
fn read_alone(word: &[u8]) -> Result<What, LineFault>
    ensures { result ≡ what_alone word.now }
{
    if word == RESET {
        Ok(What::Reset)
    } else if word == LOAD {
        Ok(What::Load)
    } else {
        Err(LineFault::Form)
    }
}

/// A command with the number of a key.
#[tactic(auto, unfolding(crate::specs::Inner::Readings::what_with_key))]
fn read_with_key(word: &[u8], number: &[u8]) -> Result<What, LineFault>
    ensures { result ≡ what_with_key word.now number.now }
{
    if word == DOWN {
        Ok(What::Down(read_key(number)?))
    } else if word == REPEAT {
        Ok(What::Repeat(read_key(number)?))
    } else if word == UP {
        Ok(What::Up(read_key(number)?))
    } else {
        Err(LineFault::Form)
    }
}

fn read_key(number: &[u8]) -> Result<KeyCode, LineFault>
    ensures { result ≡ key_in number.now }
{
    match number_of(number) {
        Some(number) => KeyCode::new(number).ok_or(LineFault::Key),
        None => Err(LineFault::Form),
    }
}
