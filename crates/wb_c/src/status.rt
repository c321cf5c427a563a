//! What a call answers, as `include/wb.h` has it.
ghost use Rattle.std.specs.Prelude.{◌≡◌, MatchResult, false, true};
ghost use Rattle.wb_c.specs.Judging.{Says};
ghost use Rattle.wb_c.specs.Statuses.{is_memory, kept_status};

use std::alloc::AllocError;
use wb_judge::AddFault;
use wb_judging::JudgedFault;
use wb_keeper::KeepFault;
use wb_keeping::KeptFault;

/// The call did what it says.
pub(crate) const DONE: u32 = 0;
/// The block or the event waits, since there is no room for it.
pub(crate) const WAITS: u32 = 1;
/// The line was not taken, since the block of an earlier one waits.
pub(crate) const NOT_DONE: u32 = 2;
/// The host is closed.
pub(crate) const CLOSED: u32 = 3;
/// An allocation failed, and the host is closed.
pub(crate) const MEMORY: u32 = 4;
/// The host is open already.
pub(crate) const OPEN: u32 = 5;
/// No event waits.
pub(crate) const NOTHING: u32 = 6;
/// The host is not self-managing.
pub(crate) const NOT_KEPT: u32 = 7;
/// The moment is not below 2^48.
pub(crate) const NO_MOMENT: u32 = 8;
/// The moment is before the present one.
pub(crate) const BACK_IN_TIME: u32 = 9;
/// Nothing is added yet.
pub(crate) const LISTENING: u32 = 10;
/// A drawop of our own number of 2^31 or more that is not held.
pub(crate) const OURS: u32 = 11;
/// No number is left on the page.
pub(crate) const NUMBERS: u32 = 12;
/// The datagram is not that of a drawop.
pub(crate) const NO_DRAWOP: u32 = 13;
/// There is no such question.
pub(crate) const NO_QUESTION: u32 = 14;
/// The host is judged, and takes datagrams with their origins alone.
pub(crate) const JUDGED: u32 = 15;
/// The host is not judged, and takes datagrams without origins.
pub(crate) const NOT_JUDGED: u32 = 16;
/// Nothing is drawn, since somebody has our number too.
pub(crate) const TWIN: u32 = 17;
/// Nothing is drawn, since the board has no cell for a drawing.
pub(crate) const FULL: u32 = 18;
/// The time of day is not below 2^62.
pub(crate) const NO_TIME: u32 = 19;
/// With the number of the fault: the bytes are not a datagram.
pub(crate) const NO_DATAGRAM: u32 = 100;
/// With the number of the fault: no drawop has that operation under its next number.
pub(crate) const NO_OPERATION: u32 = 200;

/// The status of a call that a member refuses. Without memory there is none.
pub(crate) fn kept_status(fault: KeptFault) -> Result<u32, AllocError>
    ensures { MatchResult result (λ status. (is_memory fault ≡ false) × (status ≡ kept_status fault))
        (λ _. is_memory fault ≡ true) }
{
    match fault {
        KeptFault::Host(KeepFault::Memory) => Err(AllocError),
        KeptFault::Host(_) => Ok(BACK_IN_TIME),
        KeptFault::Listening => Ok(LISTENING),
        KeptFault::Ours => Ok(OURS),
        KeptFault::Numbers => Ok(NUMBERS),
        KeptFault::Operation(fault) => Ok(NO_OPERATION + fault.code()),
    }
}

/// The status of a call that a judged member refuses. Without memory there is none.
pub(crate) fn judged_status(fault: JudgedFault) -> Result<u32, AllocError>
    ensures { Says fault result }
{
    match fault {
        JudgedFault::Judge(AddFault::Twin) => Ok(TWIN),
        JudgedFault::Judge(AddFault::Full) => Ok(FULL),
        JudgedFault::Kept(fault) => kept_status(fault),
    }
}
