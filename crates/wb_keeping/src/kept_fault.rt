//! Why a self-managing member refuses a call.

use std::alloc::AllocError;
use thiserror::Error;
use wb_keeper::KeepFault;
use wb_names::FieldFault;

/// Why a self-managing member refuses a call.
#[derive(Clone, Copy, Debug, PartialEq, Eq, Error)]
pub enum KeptFault {
    /// The moment is before the present one, a constant is not 1 to 16, or an allocation failed.
    #[error("{0}")]
    Host(KeepFault),
    /// The member still listens, and draws nothing.
    #[error("listening")]
    Listening,
    /// A drawop under our own source number, with a sequence number from 2^31 on, that is not held:
    /// it is forged.
    #[error("a drawop of ours that is not held")]
    Ours,
    /// No number is left on the page.
    #[error("no number is left")]
    Numbers,
    /// The operation can't be one of a drawop: the first fault of its fields.
    #[error("{0}")]
    Operation(FieldFault),
}

impl From<KeepFault> for KeptFault {
    ghost use Rattle.std.specs.Prelude.{◌≡◌};
    ghost use Rattle.wb_keeping.specs.declared.kept_fault.KeptFault.TheVariants as kept_faults;

    ghost from_gives = { λ fault kept. kept ≡ kept_faults.Host fault };

    fn from(fault: KeepFault) -> KeptFault {
        KeptFault::Host(fault)
    }
}

impl From<AllocError> for KeptFault {
    ghost use Rattle.std.specs.Prelude.{◌≡◌};
    ghost use Rattle.wb_keeper.specs.declared.keep_fault.KeepFault.TheVariants as keep_faults;
    ghost use Rattle.wb_keeping.specs.declared.kept_fault.KeptFault.TheVariants as kept_faults;

    ghost from_gives = { λ _ kept. kept ≡ kept_faults.Host keep_faults.Memory };

    fn from(_error: AllocError) -> KeptFault {
        KeptFault::Host(KeepFault::Memory)
    }
}

impl From<FieldFault> for KeptFault {
    ghost use Rattle.std.specs.Prelude.{◌≡◌};
    ghost use Rattle.wb_keeping.specs.declared.kept_fault.KeptFault.TheVariants as kept_faults;

    ghost from_gives = { λ fault kept. kept ≡ kept_faults.Operation fault };

    fn from(fault: FieldFault) -> KeptFault {
        KeptFault::Operation(fault)
    }
}
