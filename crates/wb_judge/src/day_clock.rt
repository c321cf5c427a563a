//! The time of day.

ghost use Rattle.std.specs.Prelude.{◌≡◌, ◌<◌, ◌^◌};
ghost use Rattle.wb_names.specs.Moments.{IsMoment};
ghost use Rattle.wb_judge.specs.Days.{time_of_day};
ghost use Rattle.wb_judge.specs.declared.limits.TheConstants.{TIME_LIMIT};

use std::marker::Model;

/// The time of day that the driver named last, and the moment at which it did. Both are in
/// microseconds, the time of day since 1970.
#[derive(Drop)]
pub struct DayClock {
    wall: u64,
    at: u64,
}

impl Model for DayClock {
    ghost use Rattle.std.specs.Prelude.{◌<◌};
    ghost use Rattle.wb_judge.specs.Days.{DayClock as DayClockValue};
    ghost use Rattle.wb_judge.specs.declared.limits.TheConstants.{TIME_LIMIT};

    ghost Value = { DayClockValue };

    ghost view = { λ c. record { wall = c.wall; at = c.at } };

    ghost invariant = { λ c. c.wall < TIME_LIMIT };
}

impl DayClock {
    /// The driver names the time of day at a moment.
    pub(crate) fn told(now: u64, wall: u64) -> DayClock
        requires { wall < TIME_LIMIT }
        ensures { result ≡ record { wall = wall; at = now } }
    {
        DayClock { wall, at: now }
    }

    /// The time of day at a moment.
    pub fn time_of_day(&self, now: u64) -> u64
        requires { IsMoment now }
        ensures time { result ≡ time_of_day self.now now }
        ensures within { result < 2 ^ 63 }
    {
        self.wall + now.saturating_sub(self.at)
    }
}
