//! The loop from the lines of a source, over a handler, to a sink.
ghost use Rattle.std.specs.Prelude.{◌≡◌, ◌≢◌, ◌≤◌, List, ℕ, true, Err, IfOk};
ghost use Rattle.std.specs.Io.KnownBytes.{Appends};
ghost use Rattle.wb_lines.specs.declared.lines.Seen.TheVariants as seens;
ghost use Rattle.wb_lines.specs.Output.{SendsOut};
ghost use Rattle.wb_lines.specs.Items.{alone};
ghost use Rattle.wb_lines.specs.Groups.{only_step};
ghost use Rattle.wb_lines.specs.Driving.{rules_of, outcome, Gave, Meets, is_stop};
ghost use Rattle.wb_lines.specs.Progress.{reached};
ghost use Rattle.wb_lines.specs.Steps.{driver_fault, Handles, DrivesAll, Closes};

use crate::fault::DriveFault;
use crate::handler::{Handler, Stop};
use crate::lines::{First, Lines};
use crate::output::Output;
use crate::progress::Progress;
use crate::saying::Saying;
use std::alloc::{AllocError, Global};
use wb_names::{Sink, Source};

/// Why the driver stops when its handler does, at the line of this number.
pub fn fault_of<F>(number: u64, stop: Stop<F>) -> DriveFault<F>
    ensures fault { result ≡ driver_fault number stop }
    ensures other { (result ≢ DriveFault.Read) × (result ≢ DriveFault.Write) }
{
    match stop {
        Stop::Fault(fault) => DriveFault::Line(number, fault),
        Stop::Endless => DriveFault::Endless,
        Stop::Memory => DriveFault::Memory,
    }
}

/// A line that its handler reads itself.
#[derive(Drop)]
struct Unread;

impl Saying for Unread {
    ghost use Rattle.std.specs.Prelude.{◌^◌};
    ghost use Rattle.wb_lines.specs.Items.{alone};

    ghost says = { λ line said. Unit {0} };

    ghost by = { alone };

    ghost at_most = { 2 ^ 64 };

    fn read(_alloc: Global, _line: &[u8], _ended: bool) -> Result<Self, AllocError> {
        Ok(Unread)
    }

    fn joins(&self) -> bool {
        false
    }
}

/// Hands what was taken to the handler. If that goes on after a line that is too long, the rest of
/// the line is passed over.
fn hand_over<H: Handler, R: Source, W: Sink>(
    alloc: Global,
    first: First<Unread>,
    handler: &mut H,
    progress: &mut Progress<Unread>,
    source: &mut R,
    sink: &mut W,
) -> Result<(), Stop<H::Fault>>
    requires taken { progress.old.lines.seen ≡ seens.Nothing }
    ensures { Handles alone (only_step H.step) (H.is_at handler.old) (H.is_at handler.new) first
        (reached R.Source W.Sink progress.old source.old sink.old)
        (reached R.Source W.Sink progress.new source.new sink.new) result }
{
    let number = progress.lines.done();
    match first {
        First::Line(_) => {
            let lines = &progress.lines;
            let output = &mut progress.output;
            handler.take(alloc, number, lines.line(), lines.is_ended(), output)
        }
        First::TooLong => {
            handler.take_too_long(alloc, number, &mut progress.output)?;
            progress.lines.pass_over(source, &mut progress.output, sink);
            Ok(())
        }
    }
}

/// Takes line after line. Answers how many there were.
fn drive_all<H: Handler, R: Source, W: Sink>(
    alloc: Global,
    handler: &mut H,
    progress: &mut Progress<Unread>,
    source: &mut R,
    sink: &mut W,
) -> Result<u64, DriveFault<H::Fault>>
    requires start { progress.old.lines.seen ≡ seens.Nothing }
    ensures all { DrivesAll alone (only_step H.step) (H.is_at handler.old) (H.is_at handler.new)
        (reached R.Source W.Sink progress.old source.old sink.old)
        (reached R.Source W.Sink progress.new source.new sink.new) result }
    ensures few { IfOk result (λ lines. lines ≤ progress.old.lines.most) }
    ensures faults { (result ≡ Err DriveFault.Read → progress.new.lines.seen ≡ seens.Failed) ×
        (result ≡ Err DriveFault.Write → progress.new.lines.seen ≡ seens.Unwritten) }
{
    while let Some(first) = progress.next_first(alloc, source, sink)? {
        let number = progress.lines.done();
        if let Err(stop) = hand_over(alloc, first, handler, progress, source, sink) {
            return Err(fault_of(number, stop));
        }
    }
    Ok(progress.lines.done())
}

/// Whether what waits can't be written any more.
fn is_stop<F>(fault: &DriveFault<F>) -> bool
    ensures { result ≡ is_stop fault.now }
{
    matches!(fault, DriveFault::Memory | DriveFault::Write)
}

/// Writes what waits, and ends.
pub fn close<F: Drop, W: Sink>(
    ending: Result<u64, DriveFault<F>>,
    output: &mut Output,
    sink: &mut W,
) -> Result<u64, DriveFault<F>>
    ensures text { (written : List ℕ) × SendsOut (W.taken sink.old) output.old
        (W.taken sink.new) output.new written × Closes ending written output.new result }
    ensures read { result ≡ Err DriveFault.Read → ending ≡ Err DriveFault.Read }
    ensures failed { (ending ≡ Err DriveFault.Write → W.has_failed sink.old ≡ true) →
        result ≡ Err DriveFault.Write → W.has_failed sink.new ≡ true }
{
    if let Err(fault) = &ending {
        if is_stop(fault) {
            return ending;
        }
    }
    output.flush(sink)?;
    ending
}

/// Hands the lines that a source has left to a handler one by one, and writes what it prints to a
/// sink. Before it waits for more it has written what it has. Answers how many lines there were; or
/// the first fault in their order, and then all is written that was printed before.
///
/// The lines are taken up to the first at which the handler stops, and `most_lines` of them at
/// most. A line that is too long is handed over as such; if the handler goes on, the rest of it is
/// passed over.
///
/// If memory runs out or the sink fails, a front of the text is written.
pub fn drive<H: Handler, R: Source, W: Sink>(
    alloc: Global,
    most_lines: u64,
    handler: &mut H,
    source: &mut R,
    sink: &mut W,
) -> Result<u64, DriveFault<H::Fault>>
    ensures lines { (input : List ℕ) × (written : List ℕ) ×
        Gave (R.left source.old) (R.left source.new) (R.has_failed source.new) input ×
        Appends (W.taken sink.old) (W.taken sink.new) written ×
        ((s : H.State) → H.is_at handler.old s → Meets
        (outcome (rules_of H.step most_lines) (R.has_failed source.new) s input) written result) }
    ensures few { IfOk result (λ lines. lines ≤ most_lines) }
    ensures read { result ≡ Err DriveFault.Read → R.has_failed source.new ≡ true }
    ensures write { result ≡ Err DriveFault.Write → W.has_failed sink.new ≡ true }
{
    let mut progress = Progress {
        lines: Lines::new(alloc, most_lines)?,
        output: Output::new(alloc),
    };
    let ending = drive_all(alloc, handler, &mut progress, source, sink);
    close(ending, &mut progress.output, sink)
}
