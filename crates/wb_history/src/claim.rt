//! The answers to a claim.
ghost use Rattle.std.specs.Prelude.{◌≡◌};

use thiserror::Error;

/// The answer to a claim, with the place of the drawop that has the name.
#[derive(Clone, Copy, Debug, PartialEq, Eq)]
pub enum Claim {
    /// The drawop was new, and stands at this place now.
    Added(u32),
    /// The same drawop stands at this place already.
    Present(u32),
    /// Another drawop of that name stands at this place, and stays.
    Clash(u32),
}

/// Why a drawop was not claimed.
#[derive(Clone, Copy, Debug, PartialEq, Eq, Error)]
pub enum ClaimFault {
    /// The pass has no free row, and the name stands nowhere in the history.
    #[error("no free row")]
    NoRow,
    /// An allocation failed.
    #[error("out of memory")]
    Memory,
}

impl ClaimFault {
    ghost use Rattle.wb_history.specs.Faults.{claim_code};

    /// The number of the fault, from 1.
    pub fn code(&self) -> u32
        ensures { result ≡ claim_code self.now }
    {
        match self {
            ClaimFault::NoRow => 1,
            ClaimFault::Memory => 2,
        }
    }
}
