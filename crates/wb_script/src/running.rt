//! A script is run, line by line and batch by batch.
ghost use Rattle.std.specs.Prelude.{◌≡◌, ◌≤◌, List, ℕ, true, Err};
ghost use Rattle.std.specs.Result.{ForOk, ForErr};
ghost use Rattle.std.specs.Io.KnownBytes.{Appends};
ghost use Rattle.wb_lines.specs.Driving.{Gave};
ghost use Rattle.wb_script.specs.Checking.{IsCounted};
ghost use Rattle.wb_script.specs.Inside.Ending.{ended_by, ended_with};
ghost use Rattle.wb_script.specs.Runs.{RunsScript};
ghost use Rattle.wb_script.specs.Script.{most_lines};

use crate::driving::take_lines;
use crate::fault::RunFault;
use crate::host::Host;
use crate::said::MAX_LINES;
use crate::workplace::Workplace;
use std::alloc::Global;
use std::sync::Wait;
use std::thread::Threads;
use wb_commands::LineFault;
use wb_feed::Gate;
use wb_lines::DriveFault;
use wb_names::{Sink, Source};

/// How far a script went.
#[derive(Clone, Copy, Debug, PartialEq, Eq)]
pub struct Summary {
    /// The lines, of each kind.
    pub lines: u32,
    /// The drawops that are held.
    pub held: u32,
}

/// Why a run stops, by why its driver does, and whether a thread was refused.
fn ended_by(refused: bool, fault: DriveFault<LineFault>) -> RunFault
    requires { IsCounted most_lines fault }
    ensures { result ≡ ended_by refused fault }
{
    match fault {
        DriveFault::Line(number, fault) => RunFault::Line(number as u32, fault),
        DriveFault::Read => RunFault::Read,
        DriveFault::Write => RunFault::Write,
        DriveFault::Memory if refused => RunFault::Start,
        DriveFault::Memory => RunFault::Memory,
        DriveFault::Endless => RunFault::Endless,
    }
}

/// How a run ends, by how its driver does, and by how many drawops are held then.
fn ended_with(
    held: u32,
    refused: bool,
    ending: Result<u64, DriveFault<LineFault>>,
) -> Result<Summary, RunFault>
    requires few { ForOk ending (λ lines. lines ≤ most_lines) }
    requires counted { ForErr ending (IsCounted most_lines) }
    ensures { result ≡ ended_with held refused ending }
{
    match ending {
        Ok(lines) => Ok(Summary {
            lines: lines as u32,
            held,
        }),
        Err(fault) => Err(ended_by(refused, fault)),
    }
}

/// Runs the script that a source has left, and writes what it prints to a sink. The number of
/// workers that take each batch is the one that is handed in, or else that of the board; 0 counts
/// as 1, and more than 8 as 8. They call the gate round each accept.
///
/// What is written, and the answer, are those of the script, each of whose batches may be taken in
/// any order: what one thread prints for its lines with the arrivals of each batch in some order.
/// One worker takes a batch as it came, and then they are those of one thread for the script. If
/// memory runs out, a thread is refused or the sink fails, a front of it is written, and the answer
/// is `Memory`, `Start` or `Write`.
pub fn run<T: Threads + Wait + Sync, R: Source, W: Sink, G: Gate + Sync>(
    rt: &T,
    alloc: Global,
    source: &mut R,
    sink: &mut W,
    workers: Option<u32>,
    gate: &G,
) -> Result<Summary, RunFault>
    ensures script { (input : List ℕ) × (written : List ℕ)
        × Gave (R.left source.old) (R.left source.new) (R.has_failed source.new) input
        × Appends (W.taken sink.old) (W.taken sink.new) written
        × RunsScript workers (R.has_failed source.new) input written result }
    ensures read { result ≡ Err RunFault.Read → R.has_failed source.new ≡ true }
    ensures write { result ≡ Err RunFault.Write → W.has_failed sink.new ≡ true }
{
    let mut host = Host::new(Workplace { rt, alloc, gate }, workers);
    let most_lines = u64::from(MAX_LINES);
    let ending = take_lines(alloc, most_lines, &mut host, source, sink);
    ended_with(host.held(), host.is_refused(), ending)
}
