//! Why a line is refused, and why it was not taken.
ghost use Rattle.std.specs.Prelude.{◌≡◌};
ghost use Rattle.wb_commands.specs.declared.fault.Untaken.TheVariants as untaken;

use std::alloc::{AllocError, AllocFailed};
use std::{error, fmt};
use thiserror::Error;
use wb_words::{DigitsFault, WrongWord};

/// Why a line is refused: the first fault in the order of the variants. A datagram in words has a
/// fault of its own, its first word that is wrong.
#[derive(Clone, Copy, Debug, PartialEq, Eq)]
pub enum LineFault {
    /// The first word is not a word of a script.
    Unknown,
    /// There are too few words, or too many.
    Words,
    /// A number has another byte than digits, or is out of its range.
    Number,
    /// The digits of a datagram are wrong.
    Digits(DigitsFault),
    /// There is no board yet.
    NoBoard,
    /// There is a board already.
    SecondBoard,
    /// The moment is before the present one.
    BackInTime,
    /// A page would have marks of too many sources.
    TooMany,
    /// A word of a datagram in words is wrong, by its place among them.
    Word(WrongWord),
}

impl LineFault {
    ghost use Rattle.wb_commands.specs.Faults.{line_code};

    /// The number of the fault, from 1.
    pub fn code(&self) -> u32
        ensures { result ≡ line_code self.now }
    {
        match self {
            LineFault::Unknown => 1,
            LineFault::Words => 2,
            LineFault::Number => 3,
            LineFault::Digits(DigitsFault::Hex) => 4,
            LineFault::Digits(DigitsFault::Datagram(_)) => 5,
            LineFault::Digits(DigitsFault::Kind) => 6,
            LineFault::NoBoard => 7,
            LineFault::SecondBoard => 8,
            LineFault::BackInTime => 9,
            LineFault::TooMany => 10,
            LineFault::Word(_) => 11,
        }
    }
}

impl fmt::Display for LineFault {
    ghost use Rattle.std.specs.Prelude.{Some};
    ghost use Rattle.wb_commands.specs.Faults.{line_text};

    ghost output = { λ e. Some (line_text e) };

    fn fmt<W: fmt::Write>(&self, f: &mut fmt::Formatter<W>) -> fmt::Result {
        match self {
            LineFault::Unknown => f.write_str("unknown"),
            LineFault::Words => f.write_str("words"),
            LineFault::Number => f.write_str("number"),
            LineFault::Digits(fault) => write!(f, "{fault}"),
            LineFault::NoBoard => f.write_str("no board"),
            LineFault::SecondBoard => f.write_str("second board"),
            LineFault::BackInTime => f.write_str("back in time"),
            LineFault::TooMany => f.write_str("too many"),
            LineFault::Word(wrong) => write!(f, "{wrong}"),
        }
    }
}

impl error::Error for LineFault {}

/// Why a line was not taken: not parsed, or not done.
#[derive(Clone, Copy, Debug, PartialEq, Eq, Error)]
pub enum Untaken {
    /// The line is refused.
    #[error("{0}")]
    Line(LineFault),
    /// Memory ran out. This says nothing of the line.
    #[error("memory")]
    Memory,
}

impl From<LineFault> for Untaken {
    ghost from_gives = { λ e f. f ≡ untaken.Line e };

    fn from(fault: LineFault) -> Untaken {
        Untaken::Line(fault)
    }
}

impl From<AllocError> for Untaken {
    ghost from_gives = { λ _ f. f ≡ untaken.Memory };

    fn from(_error: AllocError) -> Untaken {
        Untaken::Memory
    }
}

impl<T: Drop> From<AllocFailed<T>> for Untaken {
    ghost from_gives = { λ _ f. f ≡ untaken.Memory };

    fn from(_error: AllocFailed<T>) -> Untaken {
        Untaken::Memory
    }
}
