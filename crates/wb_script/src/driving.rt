//! The loop of a run.
ghost use Rattle.std.specs.Prelude.{◌≡◌, ◌≤◌, List, ℕ, true, Err, IfOk};
ghost use Rattle.std.specs.Io.KnownBytes.{Appends};
ghost use Rattle.wb_lines.specs.declared.lines.Seen.TheVariants as seens;
ghost use Rattle.wb_lines.specs.Groups.{IsOutcome, group_rules};
ghost use Rattle.wb_lines.specs.Driving.{Gave};
ghost use Rattle.wb_lines.specs.Progress.{reached};
ghost use Rattle.wb_lines.specs.Steps.{DrivesAll, MeetsOne};
ghost use Rattle.wb_script.specs.Script.{RunState, most_lines};
ghost use Rattle.wb_script.specs.Inside.Parts.{by_batches};
ghost use Rattle.wb_script.specs.Inside.Steps.{IsRunAt, may_take};

use crate::host::Host;
use crate::said::Said;
use std::alloc::Global;
use std::sync::Wait;
use std::thread::Threads;
use wb_commands::LineFault;
use wb_feed::Gate;
use wb_lines::{DriveFault, First, Lines, Output, Progress, close, fault_of};
use wb_names::{Sink, Source};

/// Has the host take line after line, with each those that join it. Answers how many lines there
/// were.
fn take_groups<T: Threads + Wait + Sync, R: Source, W: Sink, G: Gate + Sync>(
    alloc: Global,
    host: &mut Host<'_, T, G>,
    progress: &mut Progress<Said>,
    source: &mut R,
    sink: &mut W,
) -> Result<u64, DriveFault<LineFault>>
    requires start { progress.old.lines.seen ≡ seens.Nothing }
    ensures all { DrivesAll by_batches may_take (IsRunAt host.old) (IsRunAt host.new)
        (reached R.Source W.Sink progress.old source.old sink.old)
        (reached R.Source W.Sink progress.new source.new sink.new) result }
    ensures few { IfOk result (λ lines. lines ≤ progress.old.lines.most) }
    ensures faults { (result ≡ Err DriveFault.Read → progress.new.lines.seen ≡ seens.Failed) ×
        (result ≡ Err DriveFault.Write → progress.new.lines.seen ≡ seens.Unwritten) }
{
    while let Some(first) = progress.next_first(alloc, source, sink)? {
        let First::Line(said) = first else {
            return Err(DriveFault::Endless);
        };
        let number = progress.lines.done();
        if let Err(stop) = host.take(alloc, said, progress, source, sink) {
            return Err(fault_of(number, stop));
        }
    }
    Ok(progress.lines.done())
}

/// Hands the lines that a source has left to a host, at most `most`, batch by batch, and writes
/// what it prints to a sink. Answers how many lines there were, or why no more were taken.
pub fn take_lines<T: Threads + Wait + Sync, R: Source, W: Sink, G: Gate + Sync>(
    alloc: Global,
    most: u64,
    host: &mut Host<'_, T, G>,
    source: &mut R,
    sink: &mut W,
) -> Result<u64, DriveFault<LineFault>>
    requires { most ≤ most_lines }
    ensures lines { (input : List ℕ) × (written : List ℕ) ×
        Gave (R.left source.old) (R.left source.new) (R.has_failed source.new) input × Appends
        (W.taken sink.old) (W.taken sink.new) written × ((s : RunState) → IsRunAt host.old s → MeetsOne
        (IsOutcome (group_rules by_batches may_take most) (R.has_failed source.new) s input)
        (IsRunAt host.new) written result) }
    ensures few { IfOk result (λ lines. lines ≤ most) }
    ensures read { result ≡ Err DriveFault.Read → R.has_failed source.new ≡ true }
    ensures write { result ≡ Err DriveFault.Write → W.has_failed sink.new ≡ true }
{
    let mut progress = Progress {
        lines: Lines::new(alloc, most)?,
        output: Output::new(alloc),
    };
    let ending = take_groups(alloc, host, &mut progress, source, sink);
    close(ending, &mut progress.output, sink)
}
