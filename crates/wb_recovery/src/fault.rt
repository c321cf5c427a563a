//! Why a call of the timers, or a constant of theirs, is refused, and the limit of delays.
ghost use Rattle.std.specs.Prelude.{◌≡◌};

use std::alloc::AllocError;
use thiserror::Error;

/// Each delay is below this many microseconds.
pub const DELAY_LIMIT: u64 = 1 << 24;

/// The greatest delay, in microseconds.
pub const MAX_DELAY: u64 = DELAY_LIMIT - 1;

/// Why a tuning is refused.
#[derive(Clone, Copy, Debug, PartialEq, Eq, Error)]
pub enum TuningFault {
    /// A constant is not 1 to 16.
    #[error("constant outside 1 to 16")]
    Constant,
}

impl TuningFault {
    ghost use Rattle.wb_recovery.specs.Faults.{tuning_code};

    /// The number of the fault, from 1.
    pub fn code(&self) -> u32
        ensures { result ≡ tuning_code self.now }
    {
        match self {
            TuningFault::Constant => 1,
        }
    }
}

/// Why a call is refused: the first fault in the order of the variants. A refused call changes
/// nothing.
#[derive(Clone, Copy, Debug, PartialEq, Eq, Error)]
pub enum RecoveryFault {
    /// The moment is below that of the last accepted call.
    #[error("moment before the last one")]
    BackInTime,
    /// The moment is not below 2^48 microseconds, or the delay not below 2^24.
    #[error("moment or delay out of range")]
    Range,
    /// Memory was refused.
    #[error("out of memory")]
    Memory,
}

impl RecoveryFault {
    ghost use Rattle.wb_recovery.specs.Faults.{recovery_code};

    /// The number of the fault, from 1.
    pub fn code(&self) -> u32
        ensures { result ≡ recovery_code self.now }
    {
        match self {
            RecoveryFault::BackInTime => 1,
            RecoveryFault::Range => 2,
            RecoveryFault::Memory => 3,
        }
    }
}

impl From<AllocError> for RecoveryFault {
    ghost use Rattle.std.specs.Prelude.{◌≡◌};
    ghost use Rattle.wb_recovery.specs.declared.fault.RecoveryFault.TheVariants.{Memory};

    ghost from_gives = { λ error fault. fault ≡ Memory };

    fn from(error: AllocError) -> RecoveryFault {
        let AllocError = error;
        RecoveryFault::Memory
    }
}
