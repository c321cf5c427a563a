//! A batch: one worker takes what comes with the desk itself; of more, the desk takes again what none
//! of them accepted.
ghost use Rattle.std.specs.Prelude.{◌≡◌, ◌+◌, ◌<◌, ◌≤◌, ◌^◌, ◌⊎◌, ◌↔◌, true, List, [], ◌∷◌, Err, length, IfOk, OnOk};
ghost use Rattle.crossbeam_channel.specs.Claims.{view};
ghost use Rattle.crossbeam_channel.specs.Ends.{sends_on, receives_on};
ghost use Rattle.wb_names.specs.Values.{DrawopValue};
ghost use Rattle.wb_names.specs.Arrivals.{Outcome};
ghost use Rattle.wb_board.specs.declared.board.TheConstants.{MAX_WORKERS};
ghost use Rattle.wb_board.specs.Desks.{IsPassOf, IsSound, AddsNothing};
ghost use Rattle.wb_feed.specs.Accepts.{Keeps, Loses, Accepts};
ghost use Rattle.wb_feed.specs.Inside.Channel.{channel_view};
ghost use Rattle.wb_feed.specs.Inside.Filing.{CountsOne, Files, IsPut, Settles};
ghost use Rattle.wb_feed.specs.Inside.Feeding.{HasFed};
ghost use Rattle.wb_feed.specs.Workers.{handed_out};
ghost use Rattle.wb_feed.specs.Inside.Working.{MayLose};
ghost use Rattle.wb_feed.specs.Batches.{Takes, IsSettled, SharesAndCounts, lost_by};

use crate::alone::take_alone;
use crate::arrivals::Arrivals;
use crate::channel::{ChannelView, EachOnce, Message};
use crate::fault::FeedFault;
use crate::gate::Gate;
use crate::sender::Feeding;
use crate::shared::Shared;
use crate::workers::{WorkFault, run_all};
use crossbeam_channel::bounded_with;
use std::alloc::{AllocError, Global};
use std::sync::Wait;
use std::thread::Threads;
use wb_board::{Board, BoardFault, Desk, MAX_WORKERS, Reply};
use wb_names::Drawop;

/// How many arrivals were new, were held already, had the name of another drawop, and were left for
/// want of a row.
#[derive(Clone, Copy, PartialEq, Eq, Debug)]
pub struct Batch {
    pub fresh: u32,
    pub again: u32,
    pub clash: u32,
    pub left: u32,
}

impl Batch {
    ghost use Rattle.wb_board.specs.Replies.{outcome};

    /// Nothing is counted.
    pub(crate) fn new() -> Batch
        ensures { result ≡ record { fresh = 0; again = 0; clash = 0; left = 0 } }
    {
        Batch {
            fresh: 0,
            again: 0,
            clash: 0,
            left: 0,
        }
    }

    /// Counts a reply.
    fn count(&mut self, reply: Reply)
        requires room { self.old.fresh + self.old.again + self.old.clash + self.old.left + 1
            < 2 ^ 32 }
        ensures { CountsOne self.old (outcome reply) self.new }
    {
        match reply {
            Reply::New(_) => self.fresh += 1,
            Reply::Again(_) => self.again += 1,
            Reply::Clash(_) => self.clash += 1,
        }
    }
}

/// How many messages the channel has room for, at most.
const CAPACITY: usize = 64;

/// Takes all that the source gives, each drawop once, by `workers` workers, from 1 to 8. One is this
/// thread, with the desk itself; of more each has a thread of its own, and gets an equal part of
/// the desk's free rows. A drawop that one of these had no row for is taken again with the desk
/// once all are joined, in order of arrival. `left` counts those that find no row in the desk. The
/// gate is called round each accept of a worker. Answers the counts, and the drawops in the order
/// in which they came.
///
/// Whatever is answered, the desk gains places of drawops alone that the source gave. With a number
/// of workers out of range nothing is taken. After `Start` nothing was taken, and each row and place
/// is kept. After `Memory` any part of the arrivals may have been taken; one worker then loses no
/// row. Of more, a worker's desk whose join was refused is dropped with its rows, and all others are
/// joined back; the fault tells how many rows are lost.
pub fn run_batch<R: Threads + Wait + Sync, S: Arrivals, G: Gate + Sync>(
    rt: &R,
    alloc: Global,
    board: &Board,
    desk: &mut Desk,
    workers: u32,
    arrivals: &mut S,
    gate: &G,
) -> Result<(Batch, Vec<Drawop>), FeedFault>
    requires desk { IsPassOf board.now desk.old }
    ensures kept { Keeps desk.old desk.new }
    ensures sound { IsSound desk.new }
    ensures gained { (given : List DrawopValue) × S.gives arrivals.old given arrivals.new
        × Loses (lost_by result) given desk.old desk.new }
    ensures few_rows { lost_by result ≤ handed_out workers desk.old.free }
    ensures workers { (result ≡ Err FeedFault.Workers) ↔ ((workers ≡ 0) ⊎ (MAX_WORKERS < workers)) }
    ensures untouched { (workers ≡ 0) ⊎ (MAX_WORKERS < workers)
        → (desk.new ≡ desk.old) × (arrivals.new ≡ arrivals.old) }
    ensures started { result ≡ Err FeedFault.Start
        → (arrivals.new ≡ arrivals.old) × AddsNothing desk.old desk.new }
    ensures arrived { (given : List DrawopValue) × S.gives arrivals.old given arrivals.new }
    ensures given { IfOk result (λ r. S.gives arrivals.old r.1.items arrivals.new) }
    ensures few { IfOk result
        (λ r. length r.1.items + S.most_to_come arrivals.new ≤ S.most_to_come arrivals.old) }
    ensures taken { IfOk result (λ r. Takes desk.old r.1.items workers desk.new r.0) }
    ensures shared { IfOk result (λ r. SharesAndCounts workers desk.old r.1.items desk.new r.0) }
    ensures ended { OnOk result (S.has_ended arrivals.new ≡ true) }
{
    // The number of its rows says, for the proof alone, that the desk is sound.
    let _sound = desk.rows_left();
    if workers == 0 || workers > MAX_WORKERS {
        return Err(FeedFault::Workers);
    }
    let most = arrivals.most();
    if workers == 1 {
        let mut arrived = Vec::new(alloc);
        let taken = take_alone(board, desk, arrivals, gate, &mut arrived);
        let _sound = desk.rows_left();
        return match taken {
            Ok(batch) => Ok((batch, arrived)),
            Err(_) => Err(FeedFault::Memory { lost: 0 }),
        };
    }
    // No more room than for what may come.
    let capacity = (most as usize).clamp(1, CAPACITY);
    let Ok((channel, end, pass)) = bounded_with::<Message, ChannelView, EachOnce, Global>(
        alloc, capacity,
    ) else {
        return Err(FeedFault::Memory { lost: 0 });
    };
    let shared = Shared {
        rt,
        alloc,
        board,
        end: &end,
        gate,
        workers,
    };
    let mut feeding = Feeding::new(alloc, channel, pass);
    let taken = take_batch(shared, desk, &mut feeding, arrivals);
    let _sound = desk.rows_left();
    match taken {
        Ok(batch) => Ok((batch, feeding.into_arrived())),
        Err(WorkFault::Start) => Err(FeedFault::Start),
        Err(WorkFault::Memory { lost }) => Err(FeedFault::Memory { lost }),
    }
}

/// Has the workers take what the source gives, and takes again what none of them accepted.
fn take_batch<R: Threads + Wait + Sync, S: Arrivals, G: Gate + Sync>(
    shared: Shared<R, G>,
    desk: &mut Desk,
    feeding: &mut Feeding,
    arrivals: &mut S,
) -> Result<Batch, WorkFault>
    requires desk { IsPassOf shared.board.now desk.old }
    requires workers { (1 < shared.workers) × (shared.workers ≤ MAX_WORKERS) }
    requires channel { receives_on shared.end.now ≡ sends_on feeding.old.channel }
    requires first { (view feeding.old.pass ≡ channel_view 16 true [] [])
        × (feeding.old.arrived.items ≡ []) × (feeding.old.going ≡ true) }
    requires few { S.most_to_come arrivals.old < 2 ^ 32 }
    ensures kept { MayLose (handed_out shared.entry.workers desk.old.free)
        feeding.new.arrived.items desk.old result desk.new }
    ensures fed { HasFed S.gives S.most_to_come S.has_ended feeding.old arrivals.old
        feeding.new arrivals.new result }
    ensures settled { IfOk result
        (IsSettled shared.entry.workers desk.old feeding.new.arrived.items desk.new) }
{
    let rows = desk.rows_left() / shared.workers;
    let told = run_all(shared, desk, rows, feeding, arrivals);
    feeding.learn_all();
    let told = told?;
    let count = feeding.arrived.len();
    let Ok(filed) = file(shared.alloc, told.replies.as_slice(), count) else {
        return Err(WorkFault::Memory { lost: 0 });
    };
    let arrived = feeding.arrived.as_slice();
    match settle(shared.board, desk, filed.as_slice(), arrived) {
        Ok(batch) => Ok(batch),
        Err(_) => Err(WorkFault::Memory { lost: 0 }),
    }
}

/// Files each reply by the place of its arrival, of `count` places.
fn file(
    alloc: Global,
    told: &[(u32, Reply)],
    count: usize,
) -> Result<Vec<Option<Reply>>, AllocError>
    ensures { IfOk result (λ filed. Files told.now count filed.items) }
{
    let mut filed = Vec::from_elem(alloc, None, count)?;
    for i in 0..told.len() {
        put(&mut filed, &told[i]);
    }
    Ok(filed)
}

/// Files one reply, unless its place is past the end.
fn put(filed: &mut Vec<Option<Reply>>, told: &(u32, Reply))
    ensures { IsPut filed.old.items told.now.0 told.now.1 filed.new.items }
{
    let at = told.0 as usize;
    if at < filed.len() {
        filed[at] = Some(told.1);
    }
}

/// Counts the replies that are filed, and takes, in order, the drawops for which none is.
fn settle(
    board: &Board,
    desk: &mut Desk,
    filed: &[Option<Reply>],
    arrived: &[Drawop],
) -> Result<Batch, AllocError>
    requires desk { IsPassOf board.now desk.old }
    requires few { length arrived.now < 2 ^ 32 }
    requires filed { length filed.now ≡ length arrived.now }
    ensures ok { IfOk result (λ b. Settles desk.old filed.now arrived.now desk.new b) }
    ensures kept { Loses 0 arrived.now desk.old desk.new }
{
    let mut batch = Batch::new();
    for i in 0..arrived.len() {
        if let Some(reply) = filed[i] {
            batch.count(reply);
            continue;
        }
        take_one(board, desk, &mut batch, &arrived[i])?;
    }
    Ok(batch)
}

/// Takes one drawop, and counts what became of it.
pub(crate) fn take_one(
    board: &Board,
    desk: &mut Desk,
    batch: &mut Batch,
    drawop: &Drawop,
) -> Result<(), AllocError>
    requires desk { IsPassOf board.now desk.old }
    requires room { batch.old.fresh + batch.old.again + batch.old.clash + batch.old.left + 1
        < 2 ^ 32 }
    ensures ok { OnOk result
        ((o : Outcome) × Accepts desk.old drawop.now o desk.new × CountsOne batch.old o batch.new) }
    ensures kept { Loses 0 (drawop.now ∷ []) desk.old desk.new }
{
    match board.accept(desk, drawop) {
        Ok(reply) => batch.count(reply),
        Err(BoardFault::NoRow) => batch.left += 1,
        Err(BoardFault::Memory) => return Err(AllocError),
    }
    Ok(())
}
