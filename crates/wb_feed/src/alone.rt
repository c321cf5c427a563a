//! A single worker: the caller's own thread, so nothing is split off, sent or joined.
ghost use Rattle.std.specs.Prelude.{◌≡◌, ◌<◌, ◌^◌, true, [], IfOk, OnOk};
ghost use Rattle.wb_board.specs.Desks.{IsPassOf, IsSound};
ghost use Rattle.wb_feed.specs.Accepts.{Loses};
ghost use Rattle.wb_feed.specs.Batches.{IsSettled};
ghost use Rattle.wb_feed.specs.Inside.Arriving.{HasArrived};

use crate::arrivals::{Arrivals, note_next};
use crate::batch::{Batch, take_one};
use crate::gate::Gate;
use std::alloc::AllocError;
use wb_board::{Board, Desk};
use wb_names::Drawop;

/// Takes what the source gives as it comes, and notes it. The gate is called round each accept.
pub(crate) fn take_alone<S: Arrivals, G: Gate>(
    board: &Board,
    desk: &mut Desk,
    arrivals: &mut S,
    gate: &G,
    arrived: &mut Vec<Drawop>,
) -> Result<Batch, AllocError>
    requires desk { IsPassOf board.now desk.old }
    requires sound { IsSound desk.old }
    requires first { arrived.old.items ≡ [] }
    requires few { S.most_to_come arrivals.old < 2 ^ 32 }
    ensures kept { Loses 0 arrived.new.items desk.old desk.new }
    ensures arrived { HasArrived S.gives S.most_to_come arrivals.old [] arrivals.new
        arrived.new.items }
    ensures ended { OnOk result (S.has_ended arrivals.new ≡ true) }
    ensures settled { IfOk result (IsSettled 1 desk.old arrived.new.items desk.new) }
{
    let mut batch = Batch::new();
    while let Some((nth, drawop)) = note_next(arrivals, arrived)? {
        gate.before(0, nth);
        let taken = take_one(board, desk, &mut batch, &drawop);
        gate.after(0, nth);
        taken?;
    }
    Ok(batch)
}
