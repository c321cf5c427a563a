//! Why a call is refused.

use std::alloc::AllocError;
use thiserror::Error;
use wb_judge::AddFault;
use wb_keeper::KeepFault;
use wb_keeping::KeptFault;

/// Why a judged member refuses a call.
#[derive(Clone, Copy, Debug, PartialEq, Eq, Error)]
pub enum JudgedFault {
    /// Its judge refuses.
    #[error("{0:?}")]
    Judge(AddFault),
    /// Its kept member refuses.
    #[error("{0}")]
    Kept(KeptFault),
}

impl From<KeptFault> for JudgedFault {
    ghost use Rattle.std.specs.Prelude.{◌≡◌};
    ghost use Rattle.wb_judging.specs.declared.judged_fault.JudgedFault.TheVariants as judged_faults;

    ghost from_gives = { λ fault judged. judged ≡ judged_faults.Kept fault };

    fn from(fault: KeptFault) -> JudgedFault {
        JudgedFault::Kept(fault)
    }
}

impl From<AllocError> for JudgedFault {
    ghost use Rattle.std.specs.Prelude.{◌≡◌};
    ghost use Rattle.wb_keeper.specs.declared.keep_fault.KeepFault.TheVariants as keep_faults;
    ghost use Rattle.wb_keeping.specs.declared.kept_fault.KeptFault.TheVariants as kept_faults;
    ghost use Rattle.wb_judging.specs.declared.judged_fault.JudgedFault.TheVariants as judged_faults;

    ghost from_gives = { λ _ judged. judged ≡ judged_faults.Kept (kept_faults.Host keep_faults.Memory) };

    fn from(_error: AllocError) -> JudgedFault {
        JudgedFault::Kept(KeptFault::Host(KeepFault::Memory))
    }
}
