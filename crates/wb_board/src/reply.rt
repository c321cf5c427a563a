//! The answers to an arrival.
ghost use Rattle.std.specs.Prelude.{◌≡◌};

use thiserror::Error;

/// What became of a drawop that was accepted, with the place of that which has its name.
#[derive(Clone, Copy, Debug, PartialEq, Eq)]
pub enum Reply {
    /// It was new, and stands at this place now.
    New(u32),
    /// The same drawop stands at this place already.
    Again(u32),
    /// Another drawop of that name stands at this place, and stays.
    Clash(u32),
}

/// Why a drawop was not accepted.
#[derive(Clone, Copy, Debug, PartialEq, Eq, Error)]
pub enum BoardFault {
    /// The desk has no free row, and the name stands nowhere in the history.
    #[error("no free row")]
    NoRow,
    /// An allocation failed.
    #[error("out of memory")]
    Memory,
}

impl BoardFault {
    ghost use Rattle.wb_board.specs.Faults.{board_code};

    /// The number of the fault, from 1.
    pub fn code(&self) -> u32
        ensures { result ≡ board_code self.now }
    {
        match self {
            BoardFault::NoRow => 1,
            BoardFault::Memory => 2,
        }
    }
}
