//! Why a script is not run to its end.
ghost use Rattle.std.specs.Prelude.{◌≡◌};
ghost use Rattle.wb_script.specs.declared.fault.RunFault.TheVariants as run_faults;

use std::alloc::{AllocError, AllocFailed};
use std::{error, fmt};
use wb_commands::LineFault;

/// Why a script was not run to its end.
#[derive(Clone, Copy, Debug, PartialEq, Eq)]
pub enum RunFault {
    /// The line of this number, from 1 and counting every line, is refused.
    Line(u32, LineFault),
    /// The source has failed.
    Read,
    /// The sink has failed.
    Write,
    /// A thread was refused.
    Start,
    /// Memory ran out.
    Memory,
    /// There are over 1,048,576 lines, or one has over 65,536 bytes before its line feed.
    Endless,
}

impl RunFault {
    ghost use Rattle.wb_script.specs.Faults.{run_code};

    /// The number of the fault, from 1.
    pub fn code(&self) -> u32
        ensures { result ≡ run_code self.now }
    {
        match self {
            RunFault::Line(_, _) => 1,
            RunFault::Read => 2,
            RunFault::Write => 3,
            RunFault::Start => 4,
            RunFault::Memory => 5,
            RunFault::Endless => 6,
        }
    }
}

impl fmt::Display for RunFault {
    ghost use Rattle.std.specs.Prelude.{Some};
    ghost use Rattle.wb_script.specs.Faults.{run_text};

    ghost output = { λ e. Some (run_text e) };

    fn fmt<W: fmt::Write>(&self, f: &mut fmt::Formatter<W>) -> fmt::Result {
        match self {
            RunFault::Line(number, fault) => write!(f, "line {number}: {fault}"),
            RunFault::Read => f.write_str("read"),
            RunFault::Write => f.write_str("write"),
            RunFault::Start => f.write_str("start"),
            RunFault::Memory => f.write_str("memory"),
            RunFault::Endless => f.write_str("endless"),
        }
    }
}

impl error::Error for RunFault {}

impl From<AllocError> for RunFault {
    ghost from_gives = { λ _ f. f ≡ run_faults.Memory };

    fn from(_error: AllocError) -> RunFault {
        RunFault::Memory
    }
}

impl<T: Drop> From<AllocFailed<T>> for RunFault {
    ghost from_gives = { λ _ f. f ≡ run_faults.Memory };

    fn from(_error: AllocFailed<T>) -> RunFault {
        RunFault::Memory
    }
}
