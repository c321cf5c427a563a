//! What takes lines one by one, and prints what it makes of them.
ghost use Rattle.std.specs.Prelude.{◌≡◌, ◌++◌, ℕ, List};
ghost use Rattle.wb_lines.specs.declared.handler.Stop.TheVariants as stops;
ghost use Rattle.wb_lines.specs.Handling.{Met, whole, too_long, Step, Does};

use crate::output::Output;
use std::alloc::{AllocError, AllocFailed, Global};

/// Why a handler takes no more lines.
#[derive(Clone, Copy, Debug, PartialEq, Eq)]
pub enum Stop<F> {
    /// A fault of the line.
    Fault(F),
    /// The line has no end that it waits for, or it is one too many.
    Endless,
    /// Memory ran out. This says nothing of the line.
    Memory,
}

/// What takes the lines of a source, one after the other, and prints what it makes of them.
pub trait Handler {
    /// What can be wrong with a line.
    type Fault: Drop;

    /// What it knows of the lines before.
    ghost State: { Type 0 };

    /// The states at which it may be.
    ghost is_at: { Self → Self.State → Type 0 };

    /// What it does in a state with what is met as the line of a number, counted from 1.
    ghost step: { Self.State → ℕ → Met → Step Self.State Self.Fault };

    /// Takes a line without its line feed, of which one may be the end, and prints what it makes of
    /// it.
    fn take(
        &mut self,
        alloc: Global,
        number: u64,
        line: &[u8],
        ended: bool,
        output: &mut Output,
    ) -> Result<(), Stop<Self::Fault>>
        ensures { (printed : List ℕ) × (output.new ≡ output.old ++ printed) ×
            ((s : Self.State) → is_at self.old s → Does (is_at self.new) printed result
            (step s number (whole (record { bytes = line.now; ended = ended })))) };

    /// Takes a line that is too long, before its end is read. If it goes on, the rest of the line
    /// is passed over.
    fn take_too_long(
        &mut self,
        alloc: Global,
        number: u64,
        output: &mut Output,
    ) -> Result<(), Stop<Self::Fault>>
        ensures { (printed : List ℕ) × (output.new ≡ output.old ++ printed) × ((s : Self.State) →
            is_at self.old s → Does (is_at self.new) printed result (step s number too_long)) };
}

impl<F> From<AllocError> for Stop<F> {
    ghost from_gives = { λ _ f. f ≡ stops.Memory };

    fn from(_error: AllocError) -> Stop<F> {
        Stop::Memory
    }
}

impl<F, T: Drop> From<AllocFailed<T>> for Stop<F> {
    ghost from_gives = { λ _ f. f ≡ stops.Memory };

    fn from(_error: AllocFailed<T>) -> Stop<F> {
        Stop::Memory
    }
}
