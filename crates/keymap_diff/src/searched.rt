//! Searches for a state where a press shows the difference of two keymaps, and the nearest of what they find.
ghost use Rattle.std.specs.Prelude.{◌≡◌, ◌⊎◌, ◌+◌, ◌<◌, ◌≤◌, ℕ, length, Some, true, false, IfOk};
ghost use Rattle.console_states.specs.declared.look.KeyAt.{KeyAt as KeyAtValue};
ghost use Rattle.keymap_diff.specs.Inner.Searches.{IsMetAt, IsNearest, IsNearestBelow, IsReach, IsSearched};
ghost use Rattle.keymap_diff.specs.Inner.Searches.{IsWithin};
ghost use Rattle.keymap_diff.specs.Inner.Showing.{AreClear};

use crate::showing::Both;
use console_core::is_usable;
use console_states::{End, Held, KeyAt, Met, entry, meet_all};
use std::alloc::{AllocError, Global};

/// What a search met that minds an accent or none, and the first place where a press shows the difference.
#[derive(Drop)]
pub(crate) struct Searched {
    pub(crate) minded: Option<u8>,
    pub(crate) met: Met,
    pub(crate) shown: Option<KeyAt>,
    /// By how many presses something shows, or else the search gave up, if it did.
    pub(crate) reach: Option<usize>,
}

/// By how many presses the place was met.
pub(crate) fn presses_to(met: &Met, place: usize) -> usize
    requires { place < length met.now.entries }
    ensures { IsMetAt met.now.entries place result }
{
    entry(met, place).1.presses
}

/// By how many presses something shows or the search gave up.
fn reach(met: &Met, end: End, shown: &Option<KeyAt>) -> Option<usize>
    requires { (at : KeyAtValue) → shown.now ≡ Some at → at.place < length met.now.entries }
    ensures { IsReach met.now.entries end shown.now result }
{
    match shown {
        Some(at) => Some(presses_to(met, at.place)),
        None => match end {
            End::Complete => None,
            End::TooMany(presses) => Some(presses),
        },
    }
}

impl Searched {
    /// The search from the start that minds the accent or none.
    fn from(alloc: Global, both: &Both, minded: Option<u8>) -> Result<Searched, AllocError>
        ensures searched { IfOk result (λ x. IsSearched both.now.old.now both.now.new.now x) }
        ensures minded { IfOk result (λ x. x.minded ≡ minded) }
    {
        let (met, end) = meet_all(alloc, &both.maps(minded), &Held::start())?;
        let keys = both.keys_showing(alloc, minded)?;
        let shown = both.first_showing(&met, minded, keys.as_slice());
        let reach = reach(&met, end, &shown);
        Ok(Searched {
            minded,
            met,
            shown,
            reach,
        })
    }

    /// Whether it reaches beyond so many presses.
    fn is_beyond(&self, presses: usize) -> bool
        ensures beyond { result ≡ true → IsWithin (presses + 1) self.now.reach }
        ensures within { result ≡ false → (b : ℕ) → IsWithin b self.now.reach → b ≤ presses }
    {
        match self.reach {
            Some(reach) => presses < reach,
            None => true,
        }
    }

    /// The nearer of the two, and of as near ones the first.
    fn or_nearer(self, other: Searched) -> Searched
        ensures either { (result ≡ self) ⊎ (result ≡ other) }
        ensures nearer { (b : ℕ) → IsWithin b result.reach → IsWithin b self.reach × IsWithin b other.reach }
    {
        match other.reach {
            Some(presses) => if self.is_beyond(presses) { other } else { self },
            None => self,
        }
    }

    /// Whether a search that minds the accent may find something nearer. What it finds is behind a press at least, the
    /// tap of a dead key.
    fn may_be_nearer(&self, both: &Both, accent: u8) -> bool
        ensures { result ≡ false → (b : ℕ) → IsWithin b self.now.reach
            → AreClear both.now.old.now both.now.new.now (Some accent) b }
    {
        self.is_beyond(1) && is_usable(both.old, accent) && !both.makes_all_alike(accent)
    }

    /// The nearest, with a search counted in that minds the accent.
    fn with_accent(self, alloc: Global, both: &Both, accent: u8) -> Result<Searched, AllocError>
        requires { IsNearestBelow both.now.old.now both.now.new.now accent self }
        ensures { IfOk result (λ x. IsNearestBelow both.now.old.now both.now.new.now (accent + 1) x) }
    {
        if !self.may_be_nearer(both, accent) {
            return Ok(self);
        }
        let other = Searched::from(alloc, both, Some(accent))?;
        Ok(self.or_nearer(other))
    }

    /// The nearest of all searches: of the one that minds no accent, and of those that mind one.
    pub(crate) fn nearest(alloc: Global, both: &Both) -> Result<Searched, AllocError>
        ensures { IfOk result (λ x. IsNearest both.now.old.now both.now.new.now x) }
    {
        let mut nearest = Searched::from(alloc, both, None)?;
        for accent in 0..both.old.n_accs() {
            nearest = nearest.with_accent(alloc, both, accent)?;
        }
        Ok(nearest)
    }
}
