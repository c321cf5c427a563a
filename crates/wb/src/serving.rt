//! What the program does for each of its commands, and the exit status that tells how it ended.
ghost use Rattle.std.specs.Prelude.{◌≡◌, ◌≢◌, ◌⊎◌, ℕ, List, true, map, IfOk, Err};
ghost use Rattle.std.specs.String.{string_bytes};
ghost use Rattle.std.specs.Io.KnownBytes.{Appends};
ghost use Rattle.std.specs.declared.io.ErrorKind.TheVariants.{InvalidData};
ghost use Rattle.clap.specs.Words.{kind_of};
ghost use Rattle.wb_recovery.specs.Timing.{are_constants};
ghost use Rattle.wb.specs.Serving.{Explains, IsTextWritten, PerformedTask, TookText, Served, ServesWords, approval, as_task, complaint, failure_status, no_memory, not_text, reading_between, writing_between};

use crate::command::{Task, task_of};
use clap::Error;
use clap::error::ErrorKind;
use std::alloc::{AllocError, Global};
use std::io;
use std::sync::Wait;
use std::thread::Threads;
use wb_dialog::{HostFault, host};
use wb_filters::{Filter, FilterFault, run_filter};
use wb_lines::Output;
use wb_names::{Sink, Source};
use wb_recovery::Tuning;
use wb_script::{NoGate, RunFault, check, run};

const DONE: u8 = 0;

/// A line is refused, or a limit is passed.
const REFUSED: u8 = 1;

/// The words of the command line are not understood.
const MISUSED: u8 = 2;

/// Reading or writing failed.
const DISCONNECTED: u8 = 3;

/// An allocation failed, or a thread was refused.
const NO_MEMORY: u8 = 4;

/// Why a task was not done.
#[derive(Clone, Copy, Drop)]
enum Failure {
    Run(RunFault),
    Filter(FilterFault),
    Host(HostFault),
}

fn status_of(failure: Failure) -> u8
    ensures { result ≡ failure_status failure }
{
    match failure {
        Failure::Run(RunFault::Line(_, _) | RunFault::Endless) => REFUSED,
        Failure::Run(RunFault::Read | RunFault::Write) => DISCONNECTED,
        Failure::Run(RunFault::Memory | RunFault::Start) => NO_MEMORY,
        Failure::Filter(FilterFault::Line(_, _) | FilterFault::Endless) => REFUSED,
        Failure::Filter(FilterFault::Read | FilterFault::Write) => DISCONNECTED,
        Failure::Filter(FilterFault::Memory) => NO_MEMORY,
        Failure::Host(HostFault::Endless) => REFUSED,
        Failure::Host(HostFault::Read | HostFault::Write) => DISCONNECTED,
        Failure::Host(HostFault::Memory) => NO_MEMORY,
    }
}

/// The line about a failure.
fn text_of(alloc: Global, failure: Failure) -> Result<String, AllocError>
    ensures { IfOk result (λ text. string_bytes text ≡ complaint failure) }
{
    match failure {
        Failure::Run(fault) => format!(in alloc; "wb: {fault}\n"),
        Failure::Filter(fault) => format!(in alloc; "wb: {fault}\n"),
        Failure::Host(fault) => format!(in alloc; "wb: {fault}\n"),
    }
}

/// Writes all of the bytes, or a front of them if the sink fails.
fn push_all<S: Sink>(sink: &mut S, bytes: &[u8])
    ensures { TookText (writing_between S.Sink sink.old sink.new) bytes.now }
{
    let mut sent = 0;
    while sent < bytes.len() {
        match sink.push(&bytes[sent..]) {
            Some(count) => sent += count,
            None => return,
        }
    }
}

/// Writes that an allocation failed, and answers the status for it. That allocates nothing.
pub fn report_no_memory<E: Sink>(errors: &mut E) -> u8
    ensures status { result ≡ 4 }
    ensures text { TookText (writing_between E.Sink errors.old errors.new) no_memory }
{
    push_all(errors, b"wb: memory\n");
    NO_MEMORY
}

/// Writes a line about a fault, and answers the status for it. A failure to write it changes
/// nothing.
fn report<E: Sink>(alloc: Global, errors: &mut E, failure: Failure) -> u8
    ensures status { result ≡ failure_status failure }
    ensures text { Explains (Err failure) (writing_between E.Sink errors.old errors.new) }
{
    match text_of(alloc, failure) {
        Ok(text) => push_all(errors, text.as_bytes()),
        Err(AllocError) => push_all(errors, b"wb: memory\n"),
    };
    status_of(failure)
}

/// Writes the parser's text about the words, and answers the status for it.
fn misuse<E: Sink>(alloc: Global, errors: &mut E, error: Error) -> u8
    ensures status { (result ≡ 4) ⊎ ((result ≡ 2) × (kind_of error ≢ ErrorKind.OutOfMemory)) }
    ensures text { result ≡ 4 → TookText (writing_between E.Sink errors.old errors.new) no_memory }
{
    if error.kind() == ErrorKind::OutOfMemory {
        return report_no_memory(errors);
    }
    match error.to_string(alloc) {
        Ok(text) => {
            push_all(errors, text.as_bytes());
            MISUSED
        }
        Err(_) => report_no_memory(errors),
    }
}

/// Writes why the words of the command line can't be had, and answers the status for it: one of
/// them is not UTF-8, or an allocation failed.
pub fn refuse_words<E: Sink>(errors: &mut E, kind: io::ErrorKind) -> u8
    ensures not_text { kind ≡ InvalidData → (result ≡ 2)
        × TookText (writing_between E.Sink errors.old errors.new) not_text }
    ensures no_memory { kind ≢ InvalidData → (result ≡ 4)
        × TookText (writing_between E.Sink errors.old errors.new) no_memory }
{
    if kind == io::ErrorKind::InvalidData {
        push_all(errors, b"wb: a word of the command line is not UTF-8\n");
        MISUSED
    } else {
        report_no_memory(errors)
    }
}

/// What is written if each line parses.
fn approval(alloc: Global, lines: u32) -> Result<String, AllocError>
    ensures { IfOk result (λ text. string_bytes text ≡ approval lines) }
{
    format!(in alloc; "ok {lines}\n")
}

/// Writes that each line parses.
fn approve<W: Sink>(alloc: Global, sink: &mut W, lines: u32) -> Result<(), RunFault>
    ensures text { (written : List ℕ) × Appends (W.taken sink.old) (W.taken sink.new) written
        × IsTextWritten (approval lines) written result }
    ensures read { result ≢ Err RunFault.Read }
    ensures write { result ≡ Err RunFault.Write → W.has_failed sink.new ≡ true }
{
    let text = approval(alloc, lines)?;
    let mut output = Output::new(alloc);
    output.add(text.as_bytes())?;
    match output.flush(sink) {
        Ok(_) => Ok(()),
        Err(_) => Err(RunFault::Write),
    }
}

/// Checks a script, and writes how many lines it has if each of them parses.
fn check_lines<R: Source, W: Sink>(
    alloc: Global,
    source: &mut R,
    sink: &mut W,
) -> Result<(), RunFault>
    ensures { PerformedTask Task.Check (reading_between R.Source source.old source.new)
        (writing_between W.Sink sink.old sink.new) (as_task Failure.Run result) }
{
    let lines = check(alloc, source)?;
    approve(alloc, sink, lines)
}

/// Runs a script.
fn perform_run<T: Threads + Wait + Sync, R: Source, W: Sink>(
    rt: &T,
    alloc: Global,
    workers: Option<u32>,
    source: &mut R,
    sink: &mut W,
) -> Result<(), Failure>
    ensures { PerformedTask (Task.Run workers) (reading_between R.Source source.old source.new)
        (writing_between W.Sink sink.old sink.new) result }
{
    match run(rt, alloc, source, sink, workers, &NoGate) {
        Ok(_) => Ok(()),
        Err(fault) => Err(Failure::Run(fault)),
    }
}

/// Checks a script.
fn perform_check<R: Source, W: Sink>(
    alloc: Global,
    source: &mut R,
    sink: &mut W,
) -> Result<(), Failure>
    ensures { PerformedTask Task.Check (reading_between R.Source source.old source.new)
        (writing_between W.Sink sink.old sink.new) result }
{
    match check_lines(alloc, source, sink) {
        Ok(_) => Ok(()),
        Err(fault) => Err(Failure::Run(fault)),
    }
}

/// Turns the lines of a script.
fn perform_turn<R: Source, W: Sink>(
    alloc: Global,
    filter: Filter,
    source: &mut R,
    sink: &mut W,
) -> Result<(), Failure>
    ensures { PerformedTask (Task.Turn filter) (reading_between R.Source source.old source.new)
        (writing_between W.Sink sink.old sink.new) result }
{
    match run_filter(alloc, filter, source, sink) {
        Ok(_) => Ok(()),
        Err(fault) => Err(Failure::Filter(fault)),
    }
}

/// Answers the lines of a driver.
fn perform_host<R: Source, W: Sink>(
    alloc: Global,
    tuning: Tuning,
    source: &mut R,
    sink: &mut W,
) -> Result<(), Failure>
    requires { are_constants tuning ≡ true }
    ensures { PerformedTask (Task.Host tuning) (reading_between R.Source source.old source.new)
        (writing_between W.Sink sink.old sink.new) result }
{
    match host(alloc, tuning, source, sink) {
        Ok(_) => Ok(()),
        Err(fault) => Err(Failure::Host(fault)),
    }
}

/// Does a task.
fn perform<T: Threads + Wait + Sync, R: Source, W: Sink>(
    rt: &T,
    alloc: Global,
    task: Task,
    source: &mut R,
    sink: &mut W,
) -> Result<(), Failure>
    ensures { PerformedTask task (reading_between R.Source source.old source.new)
        (writing_between W.Sink sink.old sink.new) result }
{
    match task {
        Task::Run { workers } => perform_run(rt, alloc, workers, source, sink),
        Task::Check => perform_check(alloc, source, sink),
        Task::Turn(filter) => perform_turn(alloc, filter, source, sink),
        Task::Host(constants) => perform_host(alloc, constants.tuning(), source, sink),
    }
}

/// Performs a task, writes a line about its failure, and answers the status.
fn finish<T: Threads + Wait + Sync, R: Source, W: Sink, E: Sink>(
    rt: &T,
    alloc: Global,
    task: Task,
    source: &mut R,
    sink: &mut W,
    errors: &mut E,
) -> u8
    ensures served { Served task (reading_between R.Source source.old source.new)
        (writing_between W.Sink sink.old sink.new) (writing_between E.Sink errors.old errors.new) result }
    ensures quiet { result ≡ 0 → E.taken errors.new ≡ E.taken errors.old }
{
    match perform(rt, alloc, task, source, sink) {
        Ok(_) => DONE,
        Err(failure) => report(alloc, errors, failure),
    }
}

/// Does what the words after the program's name ask for, and answers the status of the program: 0;
/// 1 if a line is refused or a limit is passed; 2 if the words are not understood, or ask for help
/// or the version, and then nothing is read; 3 if reading or writing fails; 4 if an allocation or
/// the start of a thread fails. Only a script may wait for other threads: those of its own workers.
pub fn serve<T: AllocGlobal + Threads + Wait + Sync, R: Source, W: Sink, E: Sink>(
    rt: &T,
    words: &[&str],
    source: &mut R,
    sink: &mut W,
    errors: &mut E,
) -> u8
    ensures served { ServesWords (map (λ word. word.now) words.now)
        (reading_between R.Source source.old source.new)
        (writing_between W.Sink sink.old sink.new) (writing_between E.Sink errors.old errors.new) result }
    ensures failed { result ≡ 3
        → (R.has_failed source.new ≡ true) ⊎ (W.has_failed sink.new ≡ true) }
    ensures quiet { result ≡ 0 → E.taken errors.new ≡ E.taken errors.old }
{
    let alloc = rt.alloc();
    match task_of(alloc, words) {
        Ok(task) => finish(rt, alloc, task, source, sink, errors),
        Err(error) => misuse(alloc, errors, error),
    }
}
