//! What a worker does: it accepts what the channel gives, until its end message.
ghost use Rattle.std.specs.Prelude.{◌≡◌, ◌<◌, ◌⊎◌, ◌++◌, ◌∷◌, false, [], OnOk, IfSome, IfNone};
ghost use Rattle.crossbeam_channel.specs.Claims.{view, IsSeatAt};
ghost use Rattle.crossbeam_channel.specs.Ends.{receives_on};
ghost use Rattle.wb_board.specs.Desks.{IsPassOf};
ghost use Rattle.wb_feed.specs.declared.channel.Message.TheVariants.{Take, End};
ghost use Rattle.wb_feed.specs.Accepts.{Loses};
ghost use Rattle.wb_feed.specs.Inside.Channel.{channel_view, receives, Follows};
ghost use Rattle.wb_feed.specs.Inside.Serving.{NotesOne, Served};

use crate::channel::{ChannelPass, ChannelReceiver, Message, Receives};
use crate::gate::Gate;
use crate::shared::Shared;
use std::alloc::{AllocError, Global};
use std::sync::Wait;
use wb_board::{Board, BoardFault, Desk, Reply};
use wb_names::Drawop;

/// The replies to what a worker accepted, each with the position of the arrival.
#[derive(Drop)]
pub(crate) struct Told {
    pub(crate) replies: Vec<(u32, Reply)>,
}

impl Told {
    ghost use Rattle.std.specs.Prelude.{◌++◌, IfOk};

    /// Nothing. It takes no memory.
    pub(crate) fn new(alloc: Global) -> Told
        ensures { result.replies.items ≡ [] }
    {
        Told {
            replies: Vec::new(alloc),
        }
    }

    /// The replies of both.
    pub(crate) fn and(self, other: Told) -> Result<Told, AllocError>
        ensures { IfOk result
            (λ both. both.replies.items ≡ self.replies.items ++ other.replies.items) }
    {
        let mut other = other;
        let mut replies = self.replies;
        replies.append(&mut other.replies)?;
        Ok(Told { replies })
    }
}

/// What a worker's thread gives back.
#[derive(Drop)]
pub(crate) struct GivenBack {
    pub(crate) desk: Desk,
    pub(crate) pass: ChannelPass,
    pub(crate) told: Told,
    /// Whether an allocation failed. From then on nothing was accepted.
    pub(crate) failed: bool,
}

/// Accepts the arrival and notes the reply, for which it makes room first.
#[tactic(auto, using(crate::proofs::Serving::noted_is))]
fn accept_one(
    board: &Board,
    desk: &mut Desk,
    told: &mut Told,
    position: u32,
    drawop: &Drawop,
) -> Result<(), AllocError>
    requires desk { IsPassOf board.now desk.old }
    ensures ok { OnOk result (NotesOne desk.old position drawop.now desk.new
        told.old.replies.items told.new.replies.items) }
    ensures kept { Loses 0 (drawop.now ∷ []) desk.old desk.new }
{
    told.replies.reserve(1)?;
    match board.accept(desk, drawop) {
        Ok(reply) => {
            told.replies.push_reserved((position, reply));
            Ok(())
        }
        Err(BoardFault::NoRow) => Ok(()),
        Err(BoardFault::Memory) => Err(AllocError),
    }
}

/// The next arrival. None at the end message, and if the channel gives no more.
fn next_arrival<R: Wait>(
    rt: &R,
    channel: &ChannelReceiver,
    pass: &mut ChannelPass,
) -> Option<(u32, Drawop)>
    requires seat { IsSeatAt (receives_on channel.now) pass.old }
    requires part { 0 < (view pass.old).parts }
    ensures seat { IsSeatAt (receives_on channel.now) pass.new }
    ensures some { IfSome result (λ r. (view pass.new ≡ receives (view pass.old) (Take r.0 r.1))
        × Follows (view pass.old).got (Take r.0 r.1)) }
    ensures none { IfNone result ((view pass.new ≡ view pass.old)
        ⊎ (view pass.new ≡ receives (view pass.old) End)) }
{
    let Ok(message) = channel.recv_as::<Receives, R>(rt, pass) else {
        return None;
    };
    match message {
        Message::Take(position, drawop) => Some((position, drawop)),
        Message::End => None,
    }
}

/// Accepts the arrival, unless an allocation failed before. Answers whether one failed.
fn take_turn<R, G: Gate>(
    shared: Shared<R, G>,
    desk: &mut Desk,
    told: &mut Told,
    failed: bool,
    arrival: (u32, Drawop),
    worker: u32,
    nth: u32,
) -> bool
    requires desk { IsPassOf shared.board.now desk.old }
    ensures kept { Loses 0 (arrival.1 ∷ []) desk.old desk.new }
    ensures took { result ≡ false → (failed ≡ false) × NotesOne desk.old arrival.0 arrival.1
        desk.new told.old.replies.items told.new.replies.items }
{
    if failed {
        return true;
    }
    shared.gate.before(worker, nth);
    let taken = accept_one(shared.board, desk, told, arrival.0, &arrival.1);
    shared.gate.after(worker, nth);
    match taken {
        Ok(()) => false,
        Err(_) => true,
    }
}

/// Takes what the channel gives, until the end message. A worker that was refused memory goes on
/// receiving, so that the sender never waits for one that is gone.
pub(crate) fn serve<R: Wait, G: Gate>(
    shared: Shared<R, G>,
    desk: Desk,
    pass: ChannelPass,
    worker: u32,
) -> GivenBack
    requires desk { IsPassOf shared.board.now desk }
    requires seat { IsSeatAt (receives_on shared.end.now) pass
        × (view pass ≡ channel_view 1 false [] []) }
    ensures seat { IsSeatAt (receives_on shared.entry.end.now) result.pass }
    ensures served { Served desk result.desk (view result.pass) result.told.replies.items
        result.failed }
{
    let mut desk = desk;
    let mut pass = pass;
    let mut told = Told::new(shared.alloc);
    let mut failed = false;
    let mut nth = 0u32;
    for _ in shared.rt.forever() {
        let Some(arrival) = next_arrival(shared.rt, shared.end, &mut pass) else {
            break;
        };
        failed = take_turn(shared, &mut desk, &mut told, failed, arrival, worker, nth);
        nth = nth.wrapping_add(1);
    }
    GivenBack {
        desk,
        pass,
        told,
        failed,
    }
}
