//! Why a driver did not come to the end of its input.
ghost use Rattle.std.specs.Prelude.{◌≡◌};
ghost use Rattle.wb_lines.specs.declared.fault.DriveFault.TheVariants as faults;

use crate::output::Unwritten;
use std::alloc::{AllocError, AllocFailed};
use std::error::Error;
use std::fmt;
use std::fmt::{Display, Formatter, Write};

/// Why a driver did not come to the end of its input.
#[derive(Clone, Copy, Debug, PartialEq, Eq)]
pub enum DriveFault<F> {
    /// The handler stopped at the line of this number, from 1 and counting every line.
    Line(u64, F),
    /// The source has failed.
    Read,
    /// The sink has failed.
    Write,
    /// Memory ran out.
    Memory,
    /// A line has no end that is waited for, or there are more lines than are taken.
    Endless,
}

impl<F: Display> Display for DriveFault<F> {
    ghost use Rattle.wb_lines.specs.Faults.{drive_text};

    ghost output = { drive_text F.output };

    fn fmt<W: Write>(&self, f: &mut Formatter<W>) -> fmt::Result {
        match self {
            DriveFault::Line(number, fault) => write!(f, "line {}: {}", number, fault),
            DriveFault::Read => f.write_str("read"),
            DriveFault::Write => f.write_str("write"),
            DriveFault::Memory => f.write_str("memory"),
            DriveFault::Endless => f.write_str("endless"),
        }
    }
}

impl<F: Error> Error for DriveFault<F> {}

impl<F> From<AllocError> for DriveFault<F> {
    ghost from_gives = { λ _ f. f ≡ faults.Memory };

    fn from(_error: AllocError) -> DriveFault<F> {
        DriveFault::Memory
    }
}

impl<F, T: Drop> From<AllocFailed<T>> for DriveFault<F> {
    ghost from_gives = { λ _ f. f ≡ faults.Memory };

    fn from(_error: AllocFailed<T>) -> DriveFault<F> {
        DriveFault::Memory
    }
}

impl<F> From<Unwritten> for DriveFault<F> {
    ghost from_gives = { λ _ f. f ≡ faults.Write };

    fn from(_error: Unwritten) -> DriveFault<F> {
        DriveFault::Write
    }
}
