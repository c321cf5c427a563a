//! Why a batch was not taken.
ghost use Rattle.std.specs.Prelude.{◌≡◌};

use thiserror::Error;

/// Why a batch was not taken, in the order of the checks.
#[derive(Clone, Copy, Debug, PartialEq, Eq, Error)]
pub enum FeedFault {
    /// The number of workers is not from 1 to 8. Nothing was taken.
    #[error("workers not from 1 to 8")]
    Workers,
    /// A thread was refused. Nothing was taken.
    #[error("no thread")]
    Start,
    /// An allocation failed. Any part of the arrivals may have been taken. The desk has lost this
    /// number of its rows: those of workers whose desks could not be joined.
    #[error("out of memory")]
    Memory { lost: u32 },
}

impl FeedFault {
    ghost use Rattle.wb_feed.specs.Faults.{feed_code};

    /// The number of the fault, from 1.
    pub fn code(&self) -> u32
        ensures { result ≡ feed_code self.now }
    {
        match self {
            FeedFault::Workers => 1,
            FeedFault::Start => 2,
            FeedFault::Memory { .. } => 3,
        }
    }
}
