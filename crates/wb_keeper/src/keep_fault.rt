//! Why a keeper refuses a call.
ghost use Rattle.std.specs.Prelude.{◌≡◌};

use std::alloc::AllocError;
use thiserror::Error;

/// Why a keeper refuses a call: the first fault in the order of the variants. A refused call leaves
/// the keeper as it was.
#[derive(Clone, Copy, Debug, PartialEq, Eq, Error)]
pub enum KeepFault {
    /// The moment is below that of the last accepted call.
    #[error("moment before the last one")]
    BackInTime,
    /// The moment is not below 2^48 microseconds, or the delay not below 2^24.
    #[error("moment or delay out of range")]
    Range,
    /// The marks of a page would have over 65,535 sources.
    #[error("too many sources")]
    TooMany,
    /// Memory was refused.
    #[error("out of memory")]
    Memory,
}

impl KeepFault {
    ghost use Rattle.wb_keeper.specs.KeepFaults.{keep_code};

    /// The number of the fault, from 1.
    pub fn code(&self) -> u32
        ensures { result ≡ keep_code self.now }
    {
        match self {
            KeepFault::BackInTime => 1,
            KeepFault::Range => 2,
            KeepFault::TooMany => 3,
            KeepFault::Memory => 4,
        }
    }
}

impl From<AllocError> for KeepFault {
    ghost use Rattle.std.specs.Prelude.{◌≡◌};
    ghost use Rattle.wb_keeper.specs.declared.keep_fault.KeepFault.TheVariants.{Memory};

    ghost from_gives = { λ error fault. fault ≡ Memory };

    fn from(error: AllocError) -> KeepFault {
        let AllocError = error;
        KeepFault::Memory
    }
}
