//! Which delays a host believes, and which it takes for one that it does not know.

ghost use Rattle.std.specs.Prelude.{◌≡◌, ◌≤◌};
ghost use Rattle.wb_policy.specs.declared.limits.TheConstants.{FIRST_DELAY, MOST_DELAY};
ghost use Rattle.wb_policy.specs.Delays.{bounded, known, usual_with};

use crate::limits::{FIRST_DELAY, LEAST_DELAY, MOST_DELAY};
use std::marker::Model;
use wb_recovery::UNKNOWN_DELAY;

/// What is kept of the delays that echoes gave, in microseconds: the usual one, which is lent to
/// a source whose delay is not known.
#[derive(Debug, Drop)]
pub struct Delays {
    usual: u64,
}

impl Model for Delays {
    ghost use Rattle.std.specs.Prelude.{ℕ, ◌≤◌};
    ghost use Rattle.wb_policy.specs.declared.limits.TheConstants.{MOST_DELAY};

    ghost Value = { ℕ };

    ghost view = { λ d. d.usual };

    ghost invariant = { λ d. d.usual ≤ MOST_DELAY };
}

impl Delays {
    /// No echo gave a delay yet.
    pub fn new() -> Delays
        ensures { result ≡ FIRST_DELAY }
    {
        Delays { usual: FIRST_DELAY }
    }

    /// An echo gave this delay. Answers the one that is to be set.
    pub fn told(&mut self, micros: u64) -> u64
        ensures bounded { result ≡ bounded micros }
        ensures usual { self.new ≡ usual_with self.old (bounded micros) }
    {
        let near = known(micros.max(LEAST_DELAY).min(MOST_DELAY));
        self.usual = (7 * self.usual + near) / 8;
        near
    }

    /// The usual delay: at most a second.
    pub fn usual(&self) -> u64
        ensures usual { result ≡ self.now }
        ensures near { result ≤ MOST_DELAY }
    {
        self.usual
    }
}

/// The delay that an echo gave, one microsecond longer if it is `UNKNOWN_DELAY`.
fn known(micros: u64) -> u64
    requires near { micros ≤ MOST_DELAY }
    ensures known { result ≡ known micros }
    ensures within { result ≤ MOST_DELAY }
{
    if micros == UNKNOWN_DELAY {
        UNKNOWN_DELAY + 1
    } else {
        micros
    }
}
