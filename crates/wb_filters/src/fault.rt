//! Why a line can't be turned, and why a filter ends.

ghost use Rattle.std.specs.Prelude.{◌≡◌};
ghost use Rattle.wb_filters.specs.declared.fault.TurnFault.TheVariants as turn_faults;

use std::alloc::{AllocError, AllocFailed};
use std::{error, fmt};
use thiserror::Error;
use wb_lines::DriveFault;
use wb_words::{DigitsFault, WrongWord};

/// Why a line can't be turned.
#[derive(Clone, Copy, Debug, PartialEq, Eq)]
pub enum LineFault {
    /// A word of a datagram in words is wrong, by its place among them.
    Word(WrongWord),
    /// The digits after `arrive`, `hear` or `send` are wrong.
    Digits(DigitsFault),
}

impl fmt::Display for LineFault {
    ghost use Rattle.std.specs.Prelude.{Some};
    ghost use Rattle.wb_filters.specs.Comments.{fault_text};

    ghost output = { λ e. Some (fault_text e) };

    fn fmt<W: fmt::Write>(&self, f: &mut fmt::Formatter<W>) -> fmt::Result {
        match self {
            LineFault::Word(wrong) => write!(f, "{wrong}"),
            LineFault::Digits(fault) => write!(f, "word 2: {fault}"),
        }
    }
}

impl error::Error for LineFault {}

/// Why a line was not turned.
#[derive(Clone, Copy, Debug, PartialEq, Eq, Error)]
pub enum TurnFault {
    /// It can't be.
    #[error("{0}")]
    Line(LineFault),
    /// Memory ran out. This says nothing of the line.
    #[error("memory")]
    Memory,
}

impl From<LineFault> for TurnFault {
    ghost from_gives = { λ e f. f ≡ turn_faults.Line e };

    fn from(fault: LineFault) -> TurnFault {
        TurnFault::Line(fault)
    }
}

impl From<AllocError> for TurnFault {
    ghost from_gives = { λ _ f. f ≡ turn_faults.Memory };

    fn from(_error: AllocError) -> TurnFault {
        TurnFault::Memory
    }
}

impl<T: Drop> From<AllocFailed<T>> for TurnFault {
    ghost from_gives = { λ _ f. f ≡ turn_faults.Memory };

    fn from(_error: AllocFailed<T>) -> TurnFault {
        TurnFault::Memory
    }
}

/// Why a filter did not come to the end of its input: at the line of a number, from 1 and counting
/// every line, which can't be turned; or `Endless` if a line has over 65,536 bytes before its line
/// feed, or lines can't be counted any more; or the source or the sink has failed, or memory ran
/// out.
pub type FilterFault = DriveFault<LineFault>;
