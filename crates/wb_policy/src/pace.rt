//! How often a name has its turn.

ghost use Rattle.std.specs.Prelude.{◌≡◌, ◌≤◌, ◌<◌, ◌+◌, nat_le};
ghost use Rattle.wb_names.specs.Moments.{IsMoment};
ghost use Rattle.wb_policy.specs.Pace.{begun_pace, gap_within, hurried, next_pace};
ghost use Rattle.wb_policy.specs.declared.limits.TheConstants.{LONGEST_GAP, SHORTEST_GAP};

use crate::limits::{LONGEST_GAP, SHORTEST_GAP, STEADINESS};

/// When the next turn is. Turns become rarer while they bring nothing.
#[derive(Clone, Copy, Debug, PartialEq, Eq)]
pub struct Pace {
    /// When the next turn is due.
    pub due: u64,
    /// The time from that one to the one after it, in microseconds. A shorter one than a second
    /// counts as a second, a longer one than 16 seconds as 16.
    pub gap: u64,
}

impl Pace {
    /// The first turn is due a second after a moment.
    pub fn new(now: u64) -> Pace
        requires { IsMoment now }
        ensures { result ≡ begun_pace now }
    {
        Pace {
            due: now + SHORTEST_GAP,
            gap: SHORTEST_GAP,
        }
    }

    /// Whether a turn is due.
    pub fn is_due(&self, now: u64) -> bool
        ensures { result ≡ nat_le self.now.due now }
    {
        self.due <= now
    }

    /// It is a turn: the next one is due 1 to 16 seconds later, and the one after that another 128th
    /// part later.
    pub fn turned(&mut self, now: u64)
        requires { IsMoment now }
        ensures next { self.new ≡ next_pace now self.old }
        ensures rare { now + SHORTEST_GAP ≤ self.new.due }
        ensures soon { self.new.due ≤ now + LONGEST_GAP }
    {
        let gap = gap_within(self.gap);
        self.due = now + gap;
        self.gap = gap + gap / STEADINESS;
    }

    /// A name that was asked for came: after the next turn, turns are a second apart again.
    pub fn hurry(&mut self)
        ensures { self.new ≡ hurried self.old }
    {
        self.gap = SHORTEST_GAP;
    }
}

/// A time from one turn to the next, kept within 1 and 16 seconds.
fn gap_within(gap: u64) -> u64
    ensures gap { result ≡ gap_within gap }
    ensures least { SHORTEST_GAP ≤ result }
    ensures most { result ≤ LONGEST_GAP }
{
    gap.max(SHORTEST_GAP).min(LONGEST_GAP)
}
