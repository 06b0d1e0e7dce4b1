//! Reading a text that comes in pieces: the bytes of a token that isn't whole yet are kept, and read again in front of
//! the bytes that follow them. It keeps the offset and the line.
ghost use Rattle.std.specs.Prelude.{◌≡◌, ◌==◌, ℕ, ◌+◌, ◌<◌, ◌≤◌, ◌^◌, ◌++◌, [], List, length, IfErr, count_by};
ghost use Rattle.keymap_text.specs.Inner.Judging.{verdict};
ghost use Rattle.keymap_text.specs.Inner.Scanning.{IsOpen};
ghost use Rattle.keymap_text.specs.Inner.Resuming.{resume, IsReader, Feeds, Keeps, Says, IsFaultOfPending};
ghost use Rattle.keymap_text.specs.Inner.Grammar as spec;

use crate::fault::{TextFault, TextFaultKind};
use crate::grammar::Grammar;
use crate::scanner::{scan, take_end};
use crate::token::line_feeds;
use arrayvec::ArrayVec;
use keymap_core::KeyMap;

/// Takes a text piece by piece. After a fault the value is of no use.
#[derive(Drop)]
pub(crate) struct Reading {
    /// The map so far.
    pub(crate) map: KeyMap,
    pub(crate) grammar: Grammar,
    /// The bytes of the token that is not whole yet, at most 32; of a comment that goes on, a `#`.
    pub(crate) pending: ArrayVec<u8, 32>,
    /// The place of the first pending byte.
    pub(crate) offset: u64,
    /// The line of the first pending byte.
    pub(crate) line: u64,
}

/// How many bytes of a piece are looked at together.
const FEW: usize = 512;

/// Adds bytes, for which there is room.
fn extend<const N: usize>(items: &mut ArrayVec<u8, N>, bytes: &[u8])
    requires { length items.old.items + length bytes.now ≤ N }
    ensures { items.new.items ≡ items.old.items ++ bytes.now }
{
    items.try_extend_from_slice(bytes).unwrap();
}

/// The bytes that are pending, and those behind them.
fn window(pending: &[u8], bytes: &[u8]) -> ArrayVec<u8, 544>
    requires pending { length pending.now ≤ 32 }
    requires few { length bytes.now ≤ 512 }
    ensures { result.items ≡ pending.now ++ bytes.now }
{
    let mut window = ArrayVec::new();
    extend(&mut window, pending);
    extend(&mut window, bytes);
    window
}

impl Reading {
    /// A reader that stands at the beginning of a text. The map is one without definitions.
    pub(crate) fn new(map: KeyMap) -> Self
        requires { map ≡ spec.empty_map }
        ensures start { (x : List ℕ) → resume result x ≡ verdict x }
        ensures reader { IsReader result }
        ensures fed { result.offset + length result.pending.items ≡ 0 }
        ensures line { result.line ≡ 1 }
    {
        Reading {
            map,
            grammar: Grammar::new(),
            pending: ArrayVec::new(),
            offset: 0,
            line: 1,
        }
    }

    /// Takes the next piece of the text.
    pub(crate) fn feed(&mut self, piece: &[u8]) -> Result<(), TextFault>
        requires reader { IsReader self.old }
        requires room { self.old.offset + length self.old.pending.items + length piece.now < 2 ^ 63 }
        ensures { Feeds result self.old self.new piece.now }
    {
        let mut at = 0;
        while at < piece.len() {
            let end = piece.len().min(at + FEW);
            match self.take(&piece[at..end]) {
                Ok(()) => at = end,
                Err(fault) => return Err(fault),
            }
        }
        Ok(())
    }

    /// The text ends here.
    pub(crate) fn finish(mut self) -> Result<KeyMap, TextFault>
        requires reader { IsReader self }
        requires room { self.offset + length self.pending.items < 2 ^ 63 }
        ensures says { Says result (resume self []) }
        ensures place { IfErr result (λ e. IsFaultOfPending e self) }
    {
        match take_end(&mut self.grammar, &mut self.map, self.pending.as_slice()) {
            Ok(()) => Ok(self.map),
            Err(stop) => Err(TextFault {
                kind: stop.kind,
                offset: self.offset + stop.at as u64,
                line: self.line,
            }),
        }
    }

    /// Takes few bytes: the tokens of what is pending and of them, but for what they break off, which is kept.
    #[inline(always)]
    fn take(&mut self, bytes: &[u8]) -> Result<(), TextFault>
        requires reader { IsReader self.old }
        requires few { length bytes.now ≤ 512 }
        requires room { self.old.offset + length self.old.pending.items + length bytes.now < 2 ^ 63 }
        ensures { Feeds result self.old self.new bytes.now }
    {
        let window = window(self.pending.as_slice(), bytes);
        let window = window.as_slice();
        match scan(&mut self.grammar, &mut self.map, window) {
            Ok(n) => {
                self.pass(&window[..n]);
                self.keep(&window[n..]);
                Ok(())
            }
            Err(stop) => Err(self.fault(&window[..stop.at], stop.kind)),
        }
    }

    /// Keeps the last bytes, which show no whole token, as what is pending; of a comment only its last byte, as a `#`.
    #[inline(always)]
    fn keep(&mut self, tail: &[u8])
        requires tail { IsOpen tail.now }
        requires room { self.old.offset + length tail.now < 2 ^ 63 }
        ensures { Keeps self.old self.new tail.now }
    {
        self.pending.clear();
        if tail.is_empty() {
            return;
        }
        if tail[0] == b'#' {
            self.offset += tail.len() as u64 - 1;
            self.pending.push(b'#');
            return;
        }
        extend(&mut self.pending, tail);
    }

    /// Goes on behind these bytes.
    fn pass(&mut self, bytes: &[u8])
        requires low { self.old.line ≤ self.old.offset + 1 }
        requires room { self.old.offset + length bytes.now < 2 ^ 63 }
        ensures { self.new ≡ record self.old {
          offset = self.old.offset + length bytes.now;
          line = self.old.line + count_by (λ c. c == 10) bytes.now;
        } }
    {
        self.offset += bytes.len() as u64;
        self.line += line_feeds(bytes);
    }

    /// A fault behind these bytes.
    fn fault(&self, bytes: &[u8], kind: TextFaultKind) -> TextFault
        requires low { self.now.line ≤ self.now.offset + 1 }
        requires room { self.now.offset + length bytes.now < 2 ^ 63 }
        ensures kind { result.kind ≡ kind }
        ensures offset { result.offset ≡ self.now.offset + length bytes.now }
        ensures line { result.line ≡ self.now.line + count_by (λ c. c == 10) bytes.now }
    {
        TextFault {
            kind,
            offset: self.offset + bytes.len() as u64,
            line: self.line + line_feeds(bytes),
        }
    }
}
