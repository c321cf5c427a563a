//! A filter: a source of lines, turned line by line into a sink.

ghost use Rattle.std.specs.Prelude.{◌≡◌, ◌≢◌, List, ℕ, true, Err};
ghost use Rattle.std.specs.Io.KnownBytes.{Appends};
ghost use Rattle.wb_lines.specs.declared.fault.DriveFault.TheVariants as faults;
ghost use Rattle.wb_lines.specs.Driving.{Gave, Meets};
ghost use Rattle.wb_filters.specs.Filtering.{turned, told_on, line_end, filter_outcome, MayAnswer};
ghost use Rattle.wb_filters.specs.Turning.{MayTurn};

use crate::comment::comment;
use crate::fault::{FilterFault, LineFault, TurnFault};
use crate::hexing::hex_line;
use crate::wording::words_line;
use std::alloc::Global;
use wb_lines::{Handler, Output, Stop, drive, without_end};
use wb_names::{Sink, Source};

/// Which way lines are turned.
#[derive(Clone, Copy, Debug, PartialEq, Eq)]
pub enum Direction {
    /// Datagrams in words become lines that carry their bytes.
    Hex,
    /// Lines that carry bytes become the words of the datagrams.
    Words,
}

/// What is done with lines.
#[derive(Clone, Copy, Debug, PartialEq, Eq)]
pub struct Filter {
    pub direction: Direction,
    /// Whether a comment stands in the place of a line that can't be turned. Else such a line ends
    /// the filter.
    pub keeps_going: bool,
}

fn turn(alloc: Global, direction: Direction, content: &[u8]) -> Result<Vec<u8>, TurnFault>
    ensures { MayTurn (λ text. text.items) result (turned direction content.now) }
{
    match direction {
        Direction::Hex => hex_line(alloc, content),
        Direction::Words => words_line(alloc, content),
    }
}

/// What the line of this number becomes, without its end.
fn answer(
    alloc: Global,
    filter: Filter,
    number: u64,
    content: &[u8],
) -> Result<Vec<u8>, Stop<LineFault>>
    ensures { MayAnswer (λ text. text.items) result
        (told_on filter.keeps_going number (turned filter.direction content.now)) }
{
    match turn(alloc, filter.direction, content) {
        Ok(text) => Ok(text),
        Err(TurnFault::Line(fault)) => {
            if filter.keeps_going {
                return Ok(comment(alloc, number, fault)?);
            }
            Err(Stop::Fault(fault))
        }
        Err(TurnFault::Memory) => Err(Stop::Memory),
    }
}

/// What follows the content of a line.
fn ending(line: &[u8], content: &[u8], ended: bool) -> &'static [u8]
    ensures { result.now ≡ line_end ended content.now line.now }
{
    if !ended {
        b""
    } else if content.len() == line.len() {
        b"\n"
    } else {
        b"\r\n"
    }
}

impl Handler for Filter {
    type Fault = LineFault;

    ghost use Rattle.std.specs.Prelude.{◌≡◌};
    ghost use Rattle.wb_filters.specs.declared.filtering.Filter.{Filter};
    ghost use Rattle.wb_filters.specs.Filtering.{filter_step};

    ghost State = { Filter };

    ghost is_at = { λ filter state. state ≡ filter };

    ghost step = { filter_step };

    fn take(
        &mut self,
        alloc: Global,
        number: u64,
        line: &[u8],
        ended: bool,
        output: &mut Output,
    ) -> Result<(), Stop<LineFault>> {
        let content = without_end(line, ended);
        let mut text = answer(alloc, *self, number, content)?;
        text.extend_from_slice(ending(line, content, ended))?;
        output.add(text.as_slice())?;
        Ok(())
    }

    fn take_too_long(
        &mut self,
        _alloc: Global,
        _number: u64,
        _output: &mut Output,
    ) -> Result<(), Stop<LineFault>> {
        Err(Stop::Endless)
    }
}

/// Turns the lines that a source has left, and writes what they become to a sink, with their ends
/// as they were. Before it waits for more it has written what it has. Answers how many lines there
/// were, or the first fault in their order; each line before it is written. One that keeps going
/// never answers that a line can't be turned.
///
/// If memory runs out or the sink fails, a front of the text is written.
pub fn run_filter<R: Source, W: Sink>(
    alloc: Global,
    filter: Filter,
    source: &mut R,
    sink: &mut W,
) -> Result<u64, FilterFault>
    ensures lines { (input : List ℕ) × (written : List ℕ)
        × Gave (R.left source.old) (R.left source.new) (R.has_failed source.new) input
        × Appends (W.taken sink.old) (W.taken sink.new) written
        × Meets (filter_outcome filter (R.has_failed source.new) input) written result }
    ensures keeps { filter.keeps_going ≡ true → (number : ℕ) (fault : LineFault) →
        result ≢ Err (faults.Line number fault) }
    ensures read { result ≡ Err faults.Read → R.has_failed source.new ≡ true }
    ensures write { result ≡ Err faults.Write → W.has_failed sink.new ≡ true }
{
    let mut handler = filter;
    drive(alloc, u64::MAX, &mut handler, source, sink)
}
