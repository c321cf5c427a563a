//! The constants of the timers.
ghost use Rattle.std.specs.Prelude.{◌≡◌};
ghost use Rattle.wb_recovery.specs.Timing.{are_constants};

/// The greatest constant of the timers. The least is 1.
pub const MAX_CONSTANT: u32 = 16;

/// The constants of the timers, each 1 to 16. With the delay d to the other member, a request waits
/// from `c1 * d` to `(c1 + c2) * d` at first, and an answer from `d1 * d` to `(d1 + d2) * d`.
#[derive(Clone, Copy, Debug, PartialEq, Eq)]
pub struct Tuning {
    pub c1: u32,
    pub c2: u32,
    pub d1: u32,
    pub d2: u32,
}

impl Default for Tuning {
    ghost use Rattle.std.specs.Prelude.{◌≡◌};

    ghost is_default = { λ t. t ≡ record { c1 = 2; c2 = 2; d1 = 1; d2 = 1 } };

    /// Requests wait from 2 to 4 delays at first, answers from 1 to 2.
    fn default() -> Tuning {
        Tuning {
            c1: 2,
            c2: 2,
            d1: 1,
            d2: 1,
        }
    }
}

impl Tuning {
    /// Whether each constant is 1 to 16.
    pub fn is_in_range(&self) -> bool
        ensures { result ≡ are_constants self.now }
    {
        let constants = 1..=MAX_CONSTANT;
        constants.contains(&self.c1)
            && constants.contains(&self.c2)
            && constants.contains(&self.d1)
            && constants.contains(&self.d2)
    }
}
