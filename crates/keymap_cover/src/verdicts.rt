//! Verdicts on sights, by what a script saw and what can be seen.
ghost use Rattle.std.specs.Prelude.{◌≡◌};
ghost use Rattle.keymap_cover.specs.Covering.{counts_of};
ghost use Rattle.keymap_cover.specs.Verdicts.{can_be_seen, verdict_in};

use crate::parts::{Counts, Verdict};
use crate::seen::Seen;
use console_states::{Sight, Sights};
use keymap_core::KeyMap;

/// What can be seen.
#[derive(Clone, Copy)]
pub enum Can<'a> {
    /// What a search over all presses tells.
    Searched(&'a Sights),
    /// These sights.
    Listed(&'a Seen),
}

/// What a script saw, and what can be seen.
#[derive(Clone, Copy)]
pub struct Verdicts<'a> {
    pub seen: &'a Seen,
    pub can: Can<'a>,
}

impl<'a> Can<'a> {
    /// Whether the sight can be seen.
    fn has(&self, map: &KeyMap, sight: Sight) -> bool
        ensures { result ≡ can_be_seen map.now self.now sight }
    {
        match self {
            Can::Searched(sights) => sights.can_see(map, sight),
            Can::Listed(listed) => listed.has(sight),
        }
    }
}

impl<'a> Verdicts<'a> {
    /// What is told of a sight: seen, left out, or never seen.
    pub fn verdict(&self, map: &KeyMap, sight: Sight) -> Verdict
        ensures { result ≡ verdict_in map.now self.now sight }
    {
        if self.seen.has(sight) {
            Verdict::Seen
        } else if self.can.has(map, sight) {
            Verdict::LeftOut
        } else {
            Verdict::Never
        }
    }

    /// How many of the sights are seen, left out, and never seen.
    pub fn count(&self, map: &KeyMap, sights: &[Sight]) -> Counts
        ensures { result ≡ counts_of (verdict_in map.now self.now) sights.now }
    {
        let mut counts = Counts {
            seen: 0,
            left_out: 0,
            rest: 0,
        };
        for sight in sights {
            match self.verdict(map, *sight) {
                Verdict::Seen => counts.seen += 1,
                Verdict::LeftOut => counts.left_out += 1,
                Verdict::Never => counts.rest += 1,
            }
        }
        counts
    }
}
