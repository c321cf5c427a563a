//! A cursor: the part of a pass that reads on and adds.
use crate::cells::HistorySeat;
use crate::ranges::Rows;
use crate::seen::Seen;

/// A seat at the table of a history, with lists of what the seat knows. It reads on after the last
/// drawop that it has seen, and adds there. No clause outside this crate speaks of a cursor.
#[derive(Drop)]
pub(crate) struct Cursor {
    /// The token that steps on words.
    pub(crate) seat: HistorySeat,
    /// The drawops that it has seen.
    pub(crate) seen: Seen,
    /// The places that it added, as they were gained.
    pub(crate) mine: Vec<u32>,
    /// The rows that it owns and has not published. The last one is used next.
    pub(crate) free: Rows,
    /// The steps on words of the last claim or refresh.
    pub(crate) steps: u32,
}
