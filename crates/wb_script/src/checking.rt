//! Whether each line of a script parses, and nothing is run.
ghost use Rattle.std.specs.Prelude.{◌≡◌, ◌≢◌, ◌≤◌, List, ℕ, true, length, IfOk, Err, Some};
ghost use Rattle.wb_lines.specs.Driving.{Gave};
ghost use Rattle.wb_script.specs.Checking.{Checks, CountsLines, IsCounted, check_fault};
ghost use Rattle.wb_script.specs.Script.{most_lines};

use crate::fault::RunFault;
use crate::said::MAX_LINES;
use std::alloc::Global;
use wb_commands::{LineFault, Untaken, parse_line};
use wb_lines::{DriveFault, Handler, Output, Stop, drive, without_end};
use wb_names::{Sink, Source};

/// Takes all that it is handed, and keeps nothing.
#[derive(Drop)]
struct Nowhere;

impl Sink for Nowhere {
    ghost use Rattle.std.specs.Prelude.{None, false};

    ghost taken = { λ _. None };

    ghost has_failed = { λ _. false };

    fn push(&mut self, bytes: &[u8]) -> Option<usize>
        ensures { result ≡ Some (length bytes.now) }
    {
        Some(bytes.len())
    }
}

/// Parses lines, and prints nothing.
#[derive(Drop)]
struct Checker;

impl Handler for Checker {
    type Fault = LineFault;

    ghost use Rattle.wb_script.specs.Checking.{check_step};

    ghost State = { Unit {0} };

    ghost is_at = { λ checker state. Unit {0} };

    ghost step = { check_step };

    fn take(
        &mut self,
        alloc: Global,
        _number: u64,
        line: &[u8],
        ended: bool,
        _output: &mut Output,
    ) -> Result<(), Stop<LineFault>> {
        match parse_line(alloc, without_end(line, ended)) {
            Ok(_) => Ok(()),
            Err(Untaken::Line(fault)) => Err(Stop::Fault(fault)),
            Err(Untaken::Memory) => Err(Stop::Memory),
        }
    }

    fn take_too_long(
        &mut self,
        _alloc: Global,
        _number: u64,
        _output: &mut Output,
    ) -> Result<(), Stop<LineFault>> {
        Err(Stop::Endless)
    }
}

/// Why a check stops, by why its driver does.
fn fault_of(fault: DriveFault<LineFault>) -> RunFault
    requires { IsCounted most_lines fault }
    ensures { result ≡ check_fault fault }
{
    match fault {
        DriveFault::Line(number, fault) => RunFault::Line(number as u32, fault),
        DriveFault::Read => RunFault::Read,
        DriveFault::Write => RunFault::Write,
        DriveFault::Memory => RunFault::Memory,
        DriveFault::Endless => RunFault::Endless,
    }
}

/// How many lines the script has that a source has left, skipped ones too, if each of them parses
/// and the limits hold; else the first fault in the order of the lines, or that an allocation
/// failed. Nothing is run.
pub fn check<R: Source>(alloc: Global, source: &mut R) -> Result<u32, RunFault>
    ensures script { (input : List ℕ)
        × Gave (R.left source.old) (R.left source.new) (R.has_failed source.new) input
        × Checks (R.has_failed source.new) input result }
    ensures counts { CountsLines }
    ensures few { IfOk result (λ lines. lines ≤ most_lines) }
    ensures read { result ≡ Err RunFault.Read → R.has_failed source.new ≡ true }
    ensures write { result ≢ Err RunFault.Write }
{
    let most_lines = u64::from(MAX_LINES);
    match drive(alloc, most_lines, &mut Checker, source, &mut Nowhere) {
        Ok(lines) => Ok(lines as u32),
        Err(fault) => Err(fault_of(fault)),
    }
}
