//! Runs of numbers, and what is left of those of a page.

ghost use Rattle.std.specs.Prelude.{◌≡◌, [], ◌∷◌, MatchOption};
ghost use Rattle.wb_gaps.specs.Runs.{runs_left};

use crate::holdings::Start;
use std::collections::btree_map::Range;

/// Numbers of a source that are held on some page, from the first to the last.
#[derive(Clone, Copy, Debug, PartialEq, Eq)]
pub(crate) struct Run {
    pub(crate) source: u32,
    pub(crate) first: u32,
    pub(crate) last: u32,
}

/// What a walk has left of the runs of a page: each is a range that is held.
#[derive(Drop)]
pub(crate) struct Runs<'a> {
    pub(crate) ranges: Range<'a, Start, u32>,
}

impl Runs<'_> {
    /// Takes the next run.
    pub(crate) fn next(&mut self) -> Option<Run>
        ensures { MatchOption result (runs_left self.old ≡ [])
            (λ run. runs_left self.old ≡ run ∷ runs_left self.new) }
    {
        let (start, last) = self.ranges.next()?;
        Some(Run {
            source: start.source,
            first: start.first,
            last: *last,
        })
    }
}
