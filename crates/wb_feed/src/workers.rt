//! The workers of a batch: they are started, fed, and joined, one level of a recursion for each.
ghost use Rattle.std.specs.Prelude.{◌≡◌, ◌+◌, ◌*◌, ◌/◌, ◌<◌, ◌≤◌, ◌^◌, [], IfOk};
ghost use Rattle.std.specs.Thread.{IsSync};
ghost use Rattle.crossbeam_channel.specs.Claims.{view, IsSeatAt};
ghost use Rattle.crossbeam_channel.specs.Ends.{sends_on, receives_on};
ghost use Rattle.wb_board.specs.declared.board.TheConstants.{MAX_WORKERS};
ghost use Rattle.wb_board.specs.Desks.{IsPassOf};
ghost use Rattle.wb_feed.specs.Inside.Feeding.{IsReady, IsMerged, HasFed};
ghost use Rattle.wb_feed.specs.Inside.Sent.{Stays};
ghost use Rattle.wb_feed.specs.Inside.Serving.{received};
ghost use Rattle.wb_feed.specs.Workers.{Workers, Work, handed_out};
ghost use Rattle.wb_feed.specs.Inside.Working.{HasWorked, MayLose, lost_in, TakesBack};

use crate::arrivals::Arrivals;
use crate::channel::ChannelReceiver;
use crate::gate::Gate;
use crate::sender::Feeding;
use crate::shared::Shared;
use crate::worker::{GivenBack, Told, serve};
use std::snapshot::Snapshot;
use std::sync::Wait;
use std::thread;
use std::thread::{Promise, Scope, Threads};
use wb_board::{Board, Desk, SplitFault};

/// Why the workers did not take a batch.
#[derive(Clone, Copy, Debug)]
pub(crate) enum WorkFault {
    /// A thread was refused.
    Start,
    /// An allocation failed, and this number of rows is lost: those of desks that could not be
    /// joined.
    Memory { lost: u32 },
}

/// The number of rows that are lost, by the replies to the workers.
fn lost_in(told: &Result<Told, WorkFault>) -> u32
    ensures { result ≡ lost_in told.now }
{
    match told {
        Ok(_) | Err(WorkFault::Start) => 0,
        Err(WorkFault::Memory { lost }) => *lost,
    }
}

/// The desk that a worker begins with, and the channel that it serves.
#[derive(Drop)]
pub(crate) struct WorkerServes<'a> {
    pub(crate) desk: Snapshot<Desk>,
    pub(crate) end: &'a ChannelReceiver,
}

impl<'a> Promise<GivenBack> for WorkerServes<'a> {
    ghost use Rattle.crossbeam_channel.specs.Claims.{view, IsSeatAt};
    ghost use Rattle.crossbeam_channel.specs.Ends.{receives_on};
    ghost use Rattle.wb_feed.specs.Inside.Serving.{Served};

    ghost kept_by = { λ p r. IsSeatAt (receives_on p.end.now) r.pass ×
        Served p.desk.value r.desk (view r.pass) r.told.replies.items r.failed };
}

/// Feeds the workers, who are all started, and ends their work.
pub(crate) fn feed_all<R: Wait, S: Arrivals, G>(
    shared: Shared<R, G>,
    feeding: &mut Feeding,
    arrivals: &mut S,
) -> Result<Told, WorkFault>
    requires ready { IsReady 0 feeding.old }
    requires few { S.most_to_come arrivals.old < 2 ^ 32 }
    ensures fed { HasFed S.gives S.most_to_come S.has_ended feeding.old arrivals.old
        feeding.new arrivals.new result }
    ensures same { Stays (view feeding.old.pass) (view feeding.new.pass) }
    ensures none { IfOk result (λ told. told.replies.items ≡ []) }
    ensures every_row { lost_in result ≡ 0 }
{
    let fed = feeding.feed(shared.rt, arrivals);
    feeding.end_all(shared.rt, shared.workers);
    match fed {
        Ok(()) => Ok(Told::new(shared.alloc)),
        Err(_) => Err(WorkFault::Memory { lost: 0 }),
    }
}

/// Takes back what a worker's thread has, and puts its replies before those of the others. The
/// worker's rows are lost if its desk can't be joined.
fn take_back(
    board: &Board,
    root: &mut Desk,
    rows: u32,
    feeding: &mut Feeding,
    done: GivenBack,
    others: Result<Told, WorkFault>,
) -> Result<Told, WorkFault>
    requires desks { IsPassOf board.now root.old × IsPassOf board.now done.desk }
    requires few { rows + lost_in others < 2 ^ 32 }
    requires seat { IsSeatAt (sends_on feeding.old.channel) done.pass }
    ensures pass { IsMerged feeding.old (view done.pass) feeding.new }
    ensures back { TakesBack root.old rows done others root.new result }
{
    let GivenBack {
        desk,
        pass,
        told,
        failed,
    } = done;
    feeding.absorb(pass);
    let Ok(()) = board.join(root, desk) else {
        let lost = rows + lost_in(&others);
        return Err(WorkFault::Memory { lost });
    };
    let others = others?;
    if failed {
        return Err(WorkFault::Memory { lost: 0 });
    }
    match told.and(others) {
        Ok(both) => Ok(both),
        Err(_) => Err(WorkFault::Memory { lost: 0 }),
    }
}

/// Starts the workers that are still to start, feeds them all, and takes them back. If a thread is
/// refused, its work is called here after an end message, which is all that it then receives: so
/// its desk comes back too.
fn run_several<'s, 'e: 's, R: Threads + Wait + Sync, S: Arrivals, G: Gate + Sync>(
    scope: &'s Scope<'s, &'e ()>,
    shared: Shared<'e, R, G>,
    root: &mut Desk,
    rows: u32,
    left: u32,
    feeding: &mut Feeding,
    arrivals: &mut S,
) -> Result<Told, WorkFault>
    requires root { IsPassOf shared.board.now root.old }
    requires rows { rows * left ≤ root.old.free }
    requires workers { (left ≤ shared.workers) × (shared.workers ≤ MAX_WORKERS) }
    requires channel { receives_on shared.end.now ≡ sends_on feeding.old.channel }
    requires ready { IsReady left feeding.old }
    requires few { S.most_to_come arrivals.old < 2 ^ 32 }
    ensures kept { MayLose (rows * left) (received (view feeding.new.pass).got) root.old result
        root.new }
    ensures parts { (view feeding.new.pass).parts ≡ (view feeding.old.pass).parts }
    ensures fed { HasFed S.gives S.most_to_come S.has_ended feeding.old arrivals.old
        feeding.new arrivals.new result }
    ensures ok { HasWorked (Workers rows left root.old) feeding.old feeding.new root.new result }
{
    if left == 0 {
        return feed_all(shared, feeding, arrivals);
    }
    let worker = shared.workers - left;
    let desk = match shared.board.split(shared.alloc, root, rows) {
        Ok(desk) => desk,
        Err(SplitFault::TooMany(_)) => unreachable!(),
        Err(SplitFault::Memory) => {
            feeding.end_all(shared.rt, worker);
            return Err(WorkFault::Memory { lost: 0 });
        }
    };
    let theirs = feeding.cut();
    let promise = WorkerServes {
        desk: Snapshot::of(&desk),
        end: shared.end,
    };
    // Taken apart, since the proof sees what a closure captures only if it is not a struct of type
    // parameters.
    let Shared {
        rt,
        alloc,
        board,
        end,
        gate,
        workers,
    } = shared;
    let work = move || {
        let shared = Shared {
            rt,
            alloc,
            board,
            end,
            gate,
            workers,
        };
        serve(shared, desk, theirs, worker)
    };
    match scope.spawn_with(promise, work) {
        Ok(child) => {
            let others = run_several(scope, shared, root, rows, left - 1, feeding, arrivals);
            take_back(
                shared.board,
                root,
                rows,
                feeding,
                child.join(shared.rt),
                others,
            )
        }
        Err(refused) => {
            feeding.end_all(shared.rt, worker + 1);
            let work = refused.value;
            take_back(
                shared.board,
                root,
                rows,
                feeding,
                work(),
                Err(WorkFault::Start),
            )
        }
    }
}

/// The workers, of which there are two at least: each is on a thread of its own, fed from this one,
/// and gets `rows` rows, an equal part of those that are free.
pub(crate) fn run_all<R: Threads + Wait + Sync, S: Arrivals, G: Gate + Sync>(
    shared: Shared<R, G>,
    root: &mut Desk,
    rows: u32,
    feeding: &mut Feeding,
    arrivals: &mut S,
) -> Result<Told, WorkFault>
    requires root { IsPassOf shared.board.now root.old }
    requires workers { (1 < shared.workers) × (shared.workers ≤ MAX_WORKERS) }
    requires rows { rows ≡ root.old.free / shared.workers }
    requires channel { receives_on shared.end.now ≡ sends_on feeding.old.channel }
    requires ready { IsReady shared.workers feeding.old }
    requires few { S.most_to_come arrivals.old < 2 ^ 32 }
    ensures kept { MayLose (handed_out shared.entry.workers root.old.free)
        (received (view feeding.new.pass).got) root.old result root.new }
    ensures parts { (view feeding.new.pass).parts ≡ (view feeding.old.pass).parts }
    ensures fed { HasFed S.gives S.most_to_come S.has_ended feeding.old arrivals.old
        feeding.new arrivals.new result }
    ensures ok { HasWorked
        (Work shared.entry.workers root.old) feeding.old feeding.new root.new result }
{
    let (root, feeding, arrivals, told) = thread::scope(
        thread::scope_env(),
        shared.rt,
        move |scope| -> (&mut Desk, &mut Feeding, &mut S, Result<Told, WorkFault>)
            requires { IsSync R.row × IsSync G.row × IsPassOf shared.board.now root.now
                × (1 < shared.workers) × (shared.workers ≤ MAX_WORKERS) × (rows ≡ root.now.free / shared.workers)
                × (receives_on shared.end.now ≡ sends_on feeding.now.channel)
                × IsReady shared.workers feeding.now × (S.most_to_come arrivals.now < 2 ^ 32) }
            ensures names { (result.0.ghost_name ≡ root.entry.ghost_name)
                × (result.1.ghost_name ≡ feeding.entry.ghost_name)
                × (result.2.ghost_name ≡ arrivals.entry.ghost_name) }
            ensures kept { MayLose (handed_out shared.entry.workers root.entry.now.free)
                (received (view result.1.now.pass).got) root.entry.now result.3 result.0.now }
            ensures parts { (view result.1.now.pass).parts ≡ (view feeding.entry.now.pass).parts }
            ensures fed { HasFed S.gives S.most_to_come S.has_ended feeding.entry.now
                arrivals.entry.now result.1.now result.2.now result.3 }
            ensures ok { HasWorked (Work shared.entry.workers root.entry.now) feeding.entry.now
                result.1.now result.0.now result.3 }
        {
            let workers = shared.workers;
            let told = run_several(scope, shared, root, rows, workers, feeding, arrivals);
            (root, feeding, arrivals, told)
        },
    );
    ends_here(root);
    ends_here(feeding);
    ends_here(arrivals);
    told
}

/// Does nothing. It ends a borrow that the closure gave back, so that the proof knows what was
/// written through it.
fn ends_here<T>(x: &mut T)
    ensures { x.new ≡ x.old }
{}
