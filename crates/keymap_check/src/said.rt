//! What the check says of a key, as docs/FORMATS.md has it in "The report of check".
ghost use Rattle.std.specs.Prelude.{◌≡◌, ◌+◌, ◌≤◌, ◌++◌, decimal, length};
ghost use Rattle.arrayvec.specs.ArrayVec.{array_vec_len};
ghost use Rattle.messages.specs.Filled.{words_before, words_behind};
ghost use Rattle.keymap_check.specs.Said as spec;

use crate::finding::{Finding, Place};
use crate::words::FINDING;
use arrayvec::ArrayVec;
use keymap_core::Holding;
use messages::{Line, fill_next, small};

/// Adds the words before the first place and the number, and tells the words behind it. It is a call, so that the room
/// for the digits is given back at once.
#[inline(never)]
fn fill_number<'a>(line: &mut Line, words: &'a [u8], n: u8) -> &'a [u8]
    requires { array_vec_len line.old + length (words_before words.now) + 3 ≤ 96 }
    ensures line { line.new.items ≡ (line.old.items ++ words_before words.now) ++ decimal n }
    ensures bound { array_vec_len line.new ≤ array_vec_len line.old + length (words_before words.now) + 3 }
    ensures behind { result.now ≡ words_behind words.now }
{
    fill_next(line, words, small(n).as_slice())
}

/// Adds to an empty line what is said of a key that has this modifier or lock and a character at these places, without
/// a line feed.
pub fn say_of_key(
    line: &mut Line,
    key: u8,
    holding: Holding,
    holding_at: Place,
    character_at: Place,
)
    requires { array_vec_len line.old ≡ 0 }
    ensures { line.new.items ≡ line.old.items ++ spec.said_of_key key holding holding_at character_at }
{
    let rest = fill_number(line, FINDING, key);
    let rest = fill_next(line, rest, holding.action().name().as_slice());
    let rest = fill_number(line, rest, holding_at.slot);
    let rest = fill_number(line, rest, holding_at.column);
    let rest = fill_number(line, rest, character_at.slot);
    let _ = fill_number(line, rest, character_at.column);
}

/// What is said of a finding, without a line feed.
pub fn finding_words(finding: &Finding) -> Line
    ensures { result.items ≡ spec.finding_words finding.now }
{
    let mut line = ArrayVec::new();
    say_of_key(
        &mut line,
        finding.key.get(),
        finding.holding,
        finding.holding_at,
        finding.character_at,
    );
    line
}
