//! A batch that is read from its script as workers take it.
ghost use Rattle.std.specs.Prelude.{◌≡◌, ◌≤◌, ◌<◌, ◌++◌, ℕ, [], List, true, false, IfOk, OnOk};
ghost use Rattle.wb_names.specs.Values.{DrawopValue};
ghost use Rattle.wb_board.specs.Counts.{IsWorkerCount};
ghost use Rattle.wb_lines.specs.Input.{InputLine};
ghost use Rattle.wb_lines.specs.Moments.{is_broken, Reads};
ghost use Rattle.wb_lines.specs.Progress.{reached};
ghost use Rattle.wb_feed.specs.Batches.{counts_in};
ghost use Rattle.wb_script.specs.declared.taking.BatchFault.TheVariants as faults;
ghost use Rattle.wb_script.specs.Inside.Parts.{by_batches};
ghost use Rattle.wb_script.specs.Inside.Arriving.{reading_of};
ghost use Rattle.wb_script.specs.Inside.Reading.{ReadsOn};
ghost use Rattle.wb_script.specs.Inside.Taking.{PrintsTaken, TakesAll, TakesFrom, TakesArrivals, TakesBatch};

use crate::arriving::BatchSource;
use crate::said::Said;
use crate::workplace::Workplace;
use std::alloc::{AllocError, AllocFailed, Global};
use std::sync::Wait;
use std::thread::Threads;
use wb_commands::batch_line;
use wb_feed::{Arrivals, Batch, FeedFault, Gate, run_batch};
use wb_lines::Progress;
use wb_member::Member;
use wb_names::{Drawop, Sink, Source};

/// Why a batch was not taken, or not printed.
#[derive(Clone, Copy, Debug, PartialEq, Eq)]
pub enum BatchFault {
    /// A thread was refused.
    Start,
    /// Memory ran out.
    Memory,
}

impl From<AllocError> for BatchFault {
    ghost from_gives = { λ _ f. f ≡ faults.Memory };

    fn from(_error: AllocError) -> BatchFault {
        BatchFault::Memory
    }
}

impl<T: Drop> From<AllocFailed<T>> for BatchFault {
    ghost from_gives = { λ _ f. f ≡ faults.Memory };

    fn from(_error: AllocFailed<T>) -> BatchFault {
        BatchFault::Memory
    }
}

/// Has `workers` workers take the arrivals of a source at the board of a member, and tells its
/// keeper what arrived. Answers the member, the counts, and the drawops as they came. If that is
/// refused, the member is gone: rows of its board may be lost.
fn take_all<T: Threads + Wait + Sync, S: Arrivals, G: Gate + Sync>(
    workplace: &Workplace<'_, T, G>,
    member: Member,
    workers: u32,
    arrivals: &mut S,
) -> Result<(Member, Batch, Vec<Drawop>), BatchFault>
    requires workers { IsWorkerCount workers }
    ensures arrived { (given : List DrawopValue) × S.gives arrivals.old given arrivals.new }
    ensures given { IfOk result (λ r. S.gives arrivals.old r.2.items arrivals.new) }
    ensures taken { IfOk result (λ r. TakesAll member workers r.2.items (counts_in r.1) r.0) }
    ensures ended { OnOk result (S.has_ended arrivals.new ≡ true) }
{
    let (board, mut desk, awaits) = member.await_batch();
    let taken = run_batch(
        workplace.rt,
        workplace.alloc,
        &board,
        &mut desk,
        workers,
        arrivals,
        workplace.gate,
    );
    match taken {
        Ok((batch, drawops)) => {
            let member = awaits.take_back(workplace.alloc, board, desk, &drawops)?;
            Ok((member, batch, drawops))
        }
        Err(FeedFault::Start) => Err(BatchFault::Start),
        Err(FeedFault::Memory { .. }) => Err(BatchFault::Memory),
        Err(FeedFault::Workers) => unreachable!(),
    }
}

/// Takes the arrivals of a batch from its script, to its end. Answers the member and the counts.
fn take_from<T: Threads + Wait + Sync, R: Source, W: Sink, G: Gate + Sync>(
    workplace: &Workplace<'_, T, G>,
    member: Member,
    workers: u32,
    arriving: &mut BatchSource<'_, R, W>,
) -> Result<(Member, Batch), BatchFault>
    requires workers { IsWorkerCount workers }
    requires start { arriving.old.over ≡ false }
    ensures names { (arriving.new.progress.ghost_name ≡ arriving.old.progress.ghost_name) ×
        (arriving.new.source.ghost_name ≡ arriving.old.source.ghost_name) ×
        (arriving.new.sink.ghost_name ≡ arriving.old.sink.ghost_name) }
    ensures reads { (arrived : List DrawopValue) × ReadsOn
        (reading_of R.Source W.Sink arriving.old) arrived
        (reading_of R.Source W.Sink arriving.new) ×
        TakesFrom member workers arrived arriving.new.over result }
{
    let (member, batch, _drawops) = take_all(workplace, member, workers, arriving)?;
    Ok((member, batch))
}

/// Takes a batch, whose first arrival was read before, and reads on to its end. Answers the member
/// and the counts.
fn take_arrivals<T: Threads + Wait + Sync, R: Source, W: Sink, G: Gate + Sync>(
    workplace: &Workplace<'_, T, G>,
    member: Member,
    workers: u32,
    first: Drawop,
    progress: &mut Progress<Said>,
    source: &mut R,
    sink: &mut W,
) -> Result<(Member, Batch), BatchFault>
    requires workers { IsWorkerCount workers }
    ensures { (joined : List InputLine) ×
        Reads by_batches (reached R.Source W.Sink progress.old source.old sink.old)
        (reached R.Source W.Sink progress.new source.new sink.new) [] joined ×
        TakesArrivals member workers first joined progress.new.lines result }
{
    let mut arriving = BatchSource {
        alloc: workplace.alloc,
        progress,
        source,
        sink,
        first: Some(first),
        over: false,
    };
    take_from(workplace, member, workers, &mut arriving)
}

/// Takes a batch, whose first arrival was read before, reads on to its end, and prints its counts,
/// unless no more lines can be read.
pub fn take_batch<T: Threads + Wait + Sync, R: Source, W: Sink, G: Gate + Sync>(
    workplace: &Workplace<'_, T, G>,
    member: Member,
    workers: u32,
    first: Drawop,
    progress: &mut Progress<Said>,
    source: &mut R,
    sink: &mut W,
) -> Result<Member, BatchFault>
    requires workers { IsWorkerCount workers }
    ensures { (printed : List ℕ) × (joined : List InputLine) ×
        Reads by_batches (reached R.Source W.Sink progress.old source.old sink.old)
        (reached R.Source W.Sink progress.new source.new sink.new) printed joined ×
        TakesBatch member workers first joined printed progress.new.lines result }
{
    let taken = take_arrivals(workplace, member, workers, first, progress, source, sink);
    print_taken(workplace.alloc, progress, taken)
}

/// Prints the counts of a batch that was taken, unless no more lines can be read. Answers the
/// member.
fn print_taken(
    alloc: Global,
    progress: &mut Progress<Said>,
    taken: Result<(Member, Batch), BatchFault>,
) -> Result<Member, BatchFault>
    ensures lines { progress.new.lines ≡ progress.old.lines }
    ensures printed { (printed : List ℕ) × (progress.new.output ≡ progress.old.output ++ printed)
        × PrintsTaken (is_broken progress.old.lines.seen) printed result taken }
{
    let (member, batch) = taken?;
    if progress.lines.is_broken() {
        return Ok(member);
    }
    let text = batch_line(alloc, batch.fresh, batch.again, batch.clash, batch.left)?;
    progress.output.add(text.as_bytes())?;
    Ok(member)
}
