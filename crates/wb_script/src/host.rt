//! The host of a script, and what its lines do to it.
ghost use Rattle.std.specs.Prelude.{◌≡◌, ◌≢◌, ◌<◌, List, [], ℕ, ◌≤◌, ◌++◌, Ok, Err, None, false};
ghost use Rattle.wb_lines.specs.declared.handler.Stop.TheVariants as stops;
ghost use Rattle.wb_lines.specs.declared.lines.Seen.TheVariants as seens;
ghost use Rattle.wb_lines.specs.Input.{InputLine};
ghost use Rattle.wb_lines.specs.Handling.{whole};
ghost use Rattle.wb_lines.specs.Moments.{Reads};
ghost use Rattle.wb_lines.specs.Progress.{reached};
ghost use Rattle.wb_lines.specs.Steps.{DoesGroup};
ghost use Rattle.wb_board.specs.Counts.{IsCellCount, IsWorkerCount};
ghost use Rattle.wb_commands.specs.Parsing.{IsScriptWithin};
ghost use Rattle.wb_script.specs.Script.{RunState, IsAlone, Acts, Arrival, End, part_in, part_of, held_count, part_step, said_step};
ghost use Rattle.wb_script.specs.Inside.Parts.{by_batches, EndsBatchAt, LineSays};
ghost use Rattle.wb_script.specs.Inside.Steps.{IsRunAt, MayDoStep, may_take, faulted};

use crate::part::Part;
use crate::said::Said;
use crate::taking::{BatchFault, take_batch};
use crate::workplace::Workplace;
use std::alloc::Global;
use std::marker::Model;
use std::sync::Wait;
use std::thread::Threads;
use wb_commands::{Command, LineFault, MAX_WORKERS, Untaken, act};
use wb_feed::Gate;
use wb_lines::{Output, Progress, Stop};
use wb_member::Member;
use wb_names::{Drawop, Sink, Source};
use wb_recovery::Tuning;

/// The host of a script, once it is open, and how many workers take its batches, once that is
/// known. A batch is taken by the call that hands in its first arrival, so none waits.
///
/// What its keeper holds stands for the calls that it accepted. So the contracts speak of each
/// state of a script at which the host may be, and say at which it is afterwards.
#[derive(Drop)]
pub struct Host<'a, T, G> {
    workplace: Workplace<'a, T, G>,
    member: Option<Member>,
    workers: Option<u32>,
    /// Whether a thread was refused.
    refused: bool,
}

impl<'a, T, G> Model for Host<'a, T, G> {
    ghost use Rattle.wb_script.specs.Inside.Steps.{HostValue};

    ghost Value = { HostValue };

    ghost view = { λ h. record { member = h.member; workers = h.workers; refused = h.refused } };
}

/// What became of a line, for whoever hands it in.
fn faulted(taken: Result<(), Untaken>) -> Result<(), Stop<LineFault>>
    ensures { result ≡ faulted taken }
{
    match taken {
        Ok(()) => Ok(()),
        Err(Untaken::Line(fault)) => Err(Stop::Fault(fault)),
        Err(Untaken::Memory) => Err(Stop::Memory),
    }
}

impl<'a, T, G> Host<'a, T, G> {
    /// No board is open. The number of workers, if there is one, goes before that of the board.
    pub fn new(workplace: Workplace<'a, T, G>, workers: Option<u32>) -> Self
        ensures { result ≡ record { member = None; workers = workers; refused = false } }
    {
        Host {
            workplace,
            member: None,
            workers,
            refused: false,
        }
    }

    /// How many drawops are held.
    pub fn held(&self) -> u32
        ensures { (s : RunState) → IsRunAt self.now s → result ≡ held_count s }
    {
        match &self.member {
            None => 0,
            Some(member) => member.held(),
        }
    }

    /// Whether a thread was refused.
    pub fn is_refused(&self) -> bool
        ensures { result ≡ self.now.refused }
    {
        self.refused
    }

    fn open_board(
        &mut self,
        alloc: Global,
        member: u32,
        cells: u32,
        workers: u32,
        seed: u64,
    ) -> Result<(), Stop<LineFault>>
        requires { IsCellCount cells }
        ensures refused { self.new.refused ≡ self.old.refused }
        ensures text { (s : RunState) → IsRunAt self.old s → MayDoStep s self.new [] result
            (λ order. said_step s order (Ok (Command.Board member cells workers seed))) }
    {
        if self.member.is_some() {
            return Err(Stop::Fault(LineFault::SecondBoard));
        }
        self.member = Some(Member::open(alloc, member, cells, seed, Tuning::default())?);
        self.workers = Some(self.workers.unwrap_or(workers));
        Ok(())
    }

    /// Does what a line says at a board.
    fn act(
        &mut self,
        alloc: Global,
        command: &Command,
        output: &mut Output,
    ) -> Result<(), Stop<LineFault>>
        requires { IsScriptWithin command.now }
        ensures refused { self.new.refused ≡ self.old.refused }
        ensures text { (written : List ℕ) × (output.new ≡ output.old ++ written) ×
            ((s : RunState) → IsRunAt self.old s → MayDoStep s self.new written result
            (λ order. part_step s order (End (Acts command.now)))) }
    {
        match &mut self.member {
            None => Err(Stop::Fault(LineFault::NoBoard)),
            Some(member) => faulted(act(alloc, member, command, output)),
        }
    }

    /// Does what a line says, which is neither skipped nor an arrival.
    fn take_line(
        &mut self,
        alloc: Global,
        command: &Command,
        output: &mut Output,
    ) -> Result<(), Stop<LineFault>>
        requires command { IsScriptWithin command.now }
        requires other { EndsBatchAt (part_of (Ok command.now)) }
        ensures refused { self.new.refused ≡ self.old.refused }
        ensures text { (written : List ℕ) × (output.new ≡ output.old ++ written) ×
            ((s : RunState) → IsRunAt self.old s →
            MayDoStep s self.new written result (λ order. said_step s order (Ok command.now))) }
    {
        match command {
            Command::Board {
                member,
                cells,
                workers,
                seed,
            } => self.open_board(alloc, *member, *cells, *workers, *seed),
            _ => self.act(alloc, command, output),
        }
    }
}

impl<T: Threads + Wait + Sync, G: Gate + Sync> Host<'_, T, G> {
    /// Takes a line, which was counted, and the lines that join it. After `Stop::Memory` nothing is
    /// promised of the host: give it up.
    pub fn take<R: Source, W: Sink>(
        &mut self,
        alloc: Global,
        said: Said,
        progress: &mut Progress<Said>,
        source: &mut R,
        sink: &mut W,
    ) -> Result<(), Stop<LineFault>>
        requires said { LineSays progress.old.lines.line said }
        requires taken { progress.old.lines.seen ≡ seens.Nothing }
        ensures refused { result ≢ Err stops.Memory → self.new.refused ≡ self.old.refused }
        ensures text { (printed : List ℕ) × (joined : List InputLine) ×
            Reads by_batches (reached R.Source W.Sink progress.old source.old sink.old)
            (reached R.Source W.Sink progress.new source.new sink.new) printed joined ×
            ((s : RunState) → IsRunAt self.old s → DoesGroup by_batches (IsRunAt self.new) printed
            (may_take s progress.old.lines.done (whole progress.old.lines.line))
            progress.old.lines.line joined progress.new.lines result) }
    {
        match said.part() {
            Part::Arrival(drawop) => self.arrive(drawop, progress, source, sink),
            Part::Skipped => Ok(()),
            Part::Other => match &said.said {
                Ok(command) => self.take_line(alloc, command, &mut progress.output),
                Err(fault) => Err(Stop::Fault(*fault)),
            },
        }
    }

    /// Takes the batch that begins with the line that was taken last and hands in this drawop: the
    /// script is read on to its end.
    fn arrive<R: Source, W: Sink>(
        &mut self,
        drawop: Drawop,
        progress: &mut Progress<Said>,
        source: &mut R,
        sink: &mut W,
    ) -> Result<(), Stop<LineFault>>
        requires part { part_in progress.old.lines.line ≡ Arrival drawop }
        ensures refused { result ≢ Err stops.Memory → self.new.refused ≡ self.old.refused }
        ensures text { (printed : List ℕ) × (joined : List InputLine) ×
            Reads by_batches (reached R.Source W.Sink progress.old source.old sink.old)
            (reached R.Source W.Sink progress.new source.new sink.new) printed joined ×
            ((s : RunState) → IsRunAt self.old s → DoesGroup by_batches (IsRunAt self.new) printed
            (may_take s progress.old.lines.done (whole progress.old.lines.line))
            progress.old.lines.line joined progress.new.lines result) }
    {
        let Some(member) = self.member.take() else {
            return Err(Stop::Fault(LineFault::NoBoard));
        };
        let workers = worker_count(self.workers);
        match take_batch(
            &self.workplace,
            member,
            workers,
            drawop,
            progress,
            source,
            sink,
        ) {
            Ok(member) => {
                self.member = Some(member);
                Ok(())
            }
            Err(fault) => {
                self.refused = matches!(&fault, BatchFault::Start);
                Err(Stop::Memory)
            }
        }
    }
}

/// How many workers take a batch: one, until a number is known, and from 1 to 8 in any case.
fn worker_count(workers: Option<u32>) -> u32
    ensures range { IsWorkerCount result }
    ensures alone { IsAlone workers → result ≤ 1 }
{
    let Some(count) = workers else {
        return 1;
    };
    if count == 0 {
        1
    } else if count > MAX_WORKERS {
        MAX_WORKERS
    } else {
        count
    }
}
