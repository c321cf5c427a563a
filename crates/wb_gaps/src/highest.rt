//! The greatest number of each source.

ghost use Rattle.std.specs.Prelude.{◌≡◌, IfOk};
ghost use Rattle.wb_gaps.specs.LastNumbers.{continues, AreGreatest};
ghost use Rattle.wb_gaps.specs.Runs.{AreRuns, runs_left};
ghost use Rattle.wb_gaps.specs.Walk.{ahead};

use crate::run::{Run, Runs};
use std::alloc::{AllocError, Global};
use wb_names::Mark;

/// Whether the next run is of the source.
fn goes_on(source: u32, next: Option<Run>) -> bool
    ensures { result ≡ continues source next }
{
    match next {
        Some(run) => run.source == source,
        None => false,
    }
}

/// One mark for each source of ascending runs, with its greatest number: the end of its last run.
pub(crate) fn highs(alloc: Global, runs: Runs<'_>) -> Result<Vec<Mark>, AllocError>
    requires { AreRuns (runs_left runs) }
    ensures { IfOk result (λ marks. AreGreatest (runs_left runs.entry) marks.items) }
{
    let mut runs = runs;
    let mut marks = Vec::new(alloc);
    let mut next = runs.next();
    while let Some(run) = next {
        next = runs.next();
        if !goes_on(run.source, next) {
            marks.push(Mark::new(run.source, run.last).unwrap())?;
        }
    }
    Ok(marks)
}
