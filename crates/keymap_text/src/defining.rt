//! The definitions of a whole text, one by one, into whatever takes them: it reads a text with no memory but its
//! caller's. It never sees a map.
ghost use Rattle.std.specs.Prelude.{◌≤◌, length, IfErr};
ghost use Rattle.keymap_text.specs.ReadInto.{ReadsInto, no_keys};
ghost use Rattle.keymap_text.specs.Inner.Scanning.{Answers};

use crate::fault::TextFault;
use crate::grammar::Grammar;
use crate::scanner::{Stop, behind, scan, take_end};
use crate::token::fault_at;
use keymap_core::Definitions;

/// Takes all tokens of a text, and its end.
fn take_all<D: Definitions>(text: &[u8], into: &mut D) -> Result<(), Stop>
    ensures takes { D.shows into.old no_keys → Answers D.shows into.new result text.now }
    ensures inside { IfErr result (λ e. e.at ≤ length text.now) }
{
    let mut grammar = Grammar::new();
    let n = match scan(&mut grammar, into, text) {
        Ok(n) => n,
        Err(stop) => return Err(stop),
    };
    match take_end(&mut grammar, into, &text[n..]) {
        Ok(()) => Ok(()),
        Err(stop) => Err(behind(n, stop)),
    }
}

/// Reads a text into what takes its definitions, which showed the map of no keys: then it shows the map that the text
/// spells, or the text has this fault. It takes no memory.
pub fn read_into<D: Definitions>(text: &[u8], into: &mut D) -> Result<(), TextFault>
    ensures { D.shows into.old no_keys → ReadsInto D.shows into.new result text.now }
{
    match take_all(text, into) {
        Ok(()) => Ok(()),
        Err(stop) => Err(fault_at(text, stop.at, stop.kind)),
    }
}
