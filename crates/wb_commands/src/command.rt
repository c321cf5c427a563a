//! The lines of a script, with their words as fields.
use wb_member::{Call, Query};
use wb_names::Drawop;

/// A line of a script, with its words as fields.
#[derive(Debug, Drop)]
pub enum Command {
    /// No words, or a comment.
    Skip,
    /// `board SELF CELLS WORKERS SEED` opens the board.
    Board {
        member: u32,
        cells: u32,
        workers: u32,
        seed: u64,
    },
    /// `arrive HEX` hands a drawop to the present batch. So do `datagram HEX` and the drawop in
    /// words.
    Arrive(Drawop),
    /// Something happens to the member. A script says so by `hear HEX`, and by `datagram HEX` or in
    /// words if that is no drawop; `distance S MICROS`, `tuning C1 C2 D1 D2`, `tick MICROS`, `look C
    /// N` and `session C N`. The other calls are for the crates above to read.
    Call(Call),
    /// A question: the answer is printed. A script asks by `show C N W H`, `gaps C N`, `report C N`
    /// and `pages`; the other questions are for the crates above to read.
    Question(Query),
}
