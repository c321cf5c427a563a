//! One thread tells another of a drawop.
ghost use Rattle.std.specs.Prelude.{◌≡◌, MatchResult, IfOk};
ghost use Rattle.std.specs.Thread.{IsSync};
ghost use Rattle.wb_names.specs.Values.{DrawopValue};
ghost use Rattle.wb_board.specs.Desks.{IsPassOf, IsSound};
ghost use Rattle.wb_feed.specs.Accepts.{Keeps};
ghost use Rattle.wb_feed.specs.Relays.{Relayed, NotRelayed, TellsOf, NotTold, Hears};

use std::alloc::Global;
use std::thread::{Threads, join_mut};
use thiserror::Error;
use wb_board::{Board, BoardFault, Desk, Reply};
use wb_names::Drawop;

/// Why a drawop was not relayed, in the order of the checks.
#[derive(Clone, Copy, Debug, PartialEq, Eq, Error)]
pub enum RelayFault {
    /// The teller has no free row, and the name stands nowhere in the history.
    #[error("no free row")]
    NoRow,
    /// An allocation failed.
    #[error("out of memory")]
    Memory,
}

impl RelayFault {
    ghost use Rattle.wb_feed.specs.Faults.{relay_code};

    /// The number of the fault, from 1.
    pub fn code(&self) -> u32
        ensures { result ≡ relay_code self.now }
    {
        match self {
            RelayFault::NoRow => 1,
            RelayFault::Memory => 2,
        }
    }
}

/// The teller accepts the drawop, on a thread of its own if one can be made, and the hearer has
/// then seen all that the teller has, the drawop with it. No row or place of either is lost,
/// whatever is answered. After `Memory` the drawop may stand in the history.
pub fn relay<R: Threads + Sync>(
    rt: &R,
    alloc: Global,
    board: &Board,
    teller: &mut Desk,
    hearer: &mut Desk,
    drawop: &Drawop,
) -> Result<Reply, RelayFault>
    requires teller { IsPassOf board.now teller.old }
    requires hearer { IsPassOf board.now hearer.old }
    ensures kept { Keeps teller.old teller.new × Keeps hearer.old hearer.new }
    ensures sound { IsSound teller.new × IsSound hearer.new }
    ensures relayed { MatchResult result
        (Relayed teller.old hearer.old drawop.now teller.new hearer.new)
        (NotRelayed teller.old hearer.old drawop.now teller.new hearer.new) }
{
    let (told, ()) = join_mut(rt, &mut || tell(alloc, board, teller, drawop), &mut || ());
    let reply = hear(board, hearer, told);
    // The numbers of their rows say, for the proof alone, that both desks are sound.
    let (_teller, _hearer) = (teller.rows_left(), hearer.rows_left());
    reply
}

/// Lets the hearer take in the desk that the teller sent.
fn hear(
    board: &Board,
    hearer: &mut Desk,
    told: Result<(Reply, Desk), RelayFault>,
) -> Result<Reply, RelayFault>
    requires hearer { IsPassOf board.now hearer.old }
    requires told { IfOk told (λ t. IsPassOf board.now t.1) }
    ensures { Hears told hearer.old hearer.new result }
{
    let (reply, message) = told?;
    match board.join(hearer, message) {
        Ok(()) => Ok(reply),
        Err(_) => Err(RelayFault::Memory),
    }
}

/// Accepts the drawop, and splits a desk of no rows, which has seen the same.
fn tell(
    alloc: Global,
    board: &Board,
    teller: &mut Desk,
    drawop: &Drawop,
) -> Result<(Reply, Desk), RelayFault>
    requires teller { IsPassOf board.now teller.old }
    ensures kept { Keeps teller.old teller.new }
    ensures told { MatchResult result (λ t. TellsOf teller.old drawop.now teller.new t.0 t.1)
        (NotTold teller.old drawop.now teller.new) }
{
    let reply = match board.accept(teller, drawop) {
        Ok(reply) => reply,
        Err(BoardFault::NoRow) => return Err(RelayFault::NoRow),
        Err(BoardFault::Memory) => return Err(RelayFault::Memory),
    };
    match board.split(alloc, teller, 0) {
        Ok(message) => Ok((reply, message)),
        Err(_) => Err(RelayFault::Memory),
    }
}
