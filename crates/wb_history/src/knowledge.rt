//! What a pass knows. No value of it is made.
use std::collections::LinkedList;
use wb_names::Drawop;

/// The view of a seat at the table of a history.
pub struct Knowledge {
    /// The number of cells of the table, or 0 once the pass was joined to another.
    pub cells: u64,
    /// The drawops of the history that were seen.
    pub seen: LinkedList<Drawop>,
    /// The shorter of the two lists at the last join, until the next step.
    pub joined: LinkedList<Drawop>,
    /// The places of the drawops that this pass added.
    pub mine: LinkedList<u64>,
    /// The rows that it owns and has not published. The last one is used next.
    pub free: LinkedList<u64>,
    /// What the cell after the last drawop that was seen was found to hold.
    pub looking: u64,
    /// The words read so far of the row that this cell names.
    pub read: LinkedList<u64>,
    /// The words stored so far in the last free row.
    pub stored: LinkedList<u64>,
    /// The number of steps on words.
    pub made: u64,
    /// The word of the last step, and what was found there.
    pub last_word: u64,
    pub last_found: u64,
}
