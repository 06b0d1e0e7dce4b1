//! What is told of a keymap.
ghost use Rattle.std.specs.Prelude.{◌≡◌};
ghost use Rattle.keymap_core.specs.Maps.{MapValue};
ghost use Rattle.keymap_cover.specs.Covering.{Covers, IsVerdict, verdict_of};
ghost use Rattle.keymap_cover.specs.Verdicts.{verdict_in};

use crate::script_event::ScriptEvent;
use crate::seen::Seen;
use crate::verdicts::{Can, Verdicts};
use console_states::{Sight, Sights};
use keymap_core::KeyMap;

/// A script, what it sees and what can be seen.
#[derive(Drop)]
pub struct Cover {
    pub events: Vec<ScriptEvent>,
    /// Where the parts of the script begin.
    pub starts: Vec<Start>,
    pub seen: Seen,
    pub sights: Sights,
}

/// What is told of a sight.
#[derive(Clone, Copy, Debug, PartialEq, Eq)]
pub enum Verdict {
    /// The script sees the sight.
    Seen,
    /// A press can see the sight, and the script doesn't.
    LeftOut,
    /// No press after a list that is spoken of sees the sight.
    Never,
}

/// How many sights are told so.
#[derive(Clone, Copy, Debug, PartialEq, Eq)]
pub struct Counts {
    pub seen: usize,
    pub left_out: usize,
    /// Sights that are never seen.
    pub rest: usize,
}

/// A part of a script.
#[derive(Clone, Copy, Debug, PartialEq, Eq)]
pub enum Part {
    /// Cells, and slots under each setting of clock and nlock, are looked up.
    Cells,
    /// Accents are composed with their bases.
    Pairs,
    /// Trials of what keys do to each other.
    Trials,
    /// What only turns of locks lead to that can't be taken back.
    OneWay,
}

/// Where a part begins: behind so many events.
#[derive(Clone, Copy, Debug, PartialEq, Eq)]
pub struct Start {
    pub part: Part,
    pub at: usize,
}

impl Cover {
    /// The verdicts on sights.
    pub fn verdicts<'a>(&'a self) -> Verdicts<'a>
        ensures { (m : MapValue) → verdict_in m result ≡ verdict_of m self.now }
    {
        Verdicts {
            seen: &self.seen,
            can: Can::Searched(&self.sights),
        }
    }

    /// What is told of a sight: seen, left out, or never seen.
    pub fn verdict(&self, map: &KeyMap, sight: Sight) -> Verdict
        ensures told { Covers map.now self.now → IsVerdict map.now self.now sight result }
        ensures value { result ≡ verdict_of map.now self.now sight }
    {
        self.verdicts().verdict(map, sight)
    }
}
