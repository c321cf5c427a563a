//! The walk over the runs of a page and marks of it together, which finds the numbers that are
//! missing.

ghost use Rattle.std.specs.Prelude.{◌≡◌, [], ◌∷◌, MatchOption};
ghost use Rattle.wb_gaps.specs.Walk.{gaps_left, mark_below, spans_left, done_of, up_to_mark, walk_of};
ghost use Rattle.wb_names.specs.Values.{MarkValue};
ghost use Rattle.wb_gaps.specs.Runs.{runs_left};

use crate::run::{Run, Runs};
use wb_names::{Gap, Mark};

/// Numbers of a source: those after `done` up to `last`, if there are any.
#[derive(Clone, Copy)]
pub(crate) struct Span {
    source: u32,
    done: u32,
    last: u32,
}

/// What is left of a walk over ascending runs and marks. By each run it finds the numbers before
/// it, and by each mark those up to it. Of one source the runs come first.
#[derive(Drop)]
pub(crate) struct Walk<'a> {
    /// The next run, and those after it.
    run: Option<Run>,
    runs: Runs<'a>,
    marks: &'a [Mark],
    /// The source of the run that was passed last, and its last number.
    source: u32,
    done: u32,
}

impl<'a> Walk<'a> {
    /// The whole walk.
    pub(crate) fn new(runs: Runs<'a>, marks: &'a [Mark]) -> Walk<'a>
        ensures { gaps_left result ≡ walk_of (runs_left runs.entry) marks.now }
    {
        let mut runs = runs;
        let run = runs.next();
        Walk {
            run,
            runs,
            marks,
            source: 0,
            done: 0,
        }
    }

    /// Finds the next gap.
    pub(crate) fn next_gap(&mut self) -> Option<Gap>
        ensures { MatchOption result ((gaps_left self.old ≡ []) × (gaps_left self.new ≡ []))
            (λ gap. gaps_left self.old ≡ gap ∷ gaps_left self.new) }
    {
        while let Some(span) = self.next_span() {
            if span.done < span.last {
                return Some(Gap {
                    source: span.source,
                    first: span.done + 1,
                    last: span.last,
                });
            }
        }
        None
    }

    /// Passes the next run or mark.
    fn next_span(&mut self) -> Option<Span>
        ensures { MatchOption result ((spans_left self.old ≡ []) × (spans_left self.new ≡ []))
            (λ span. spans_left self.old ≡ span ∷ spans_left self.new) }
    {
        let Some(run) = self.run else {
            return self.next_mark();
        };
        if self.has_mark_below(run.source) {
            return self.next_mark();
        }
        // numbers begin at 1, so the one before a run is at least 0
        let span = Span {
            source: run.source,
            done: self.done_of(run.source),
            last: run.first.saturating_sub(1),
        };
        self.run = self.runs.next();
        self.source = run.source;
        self.done = run.last;
        Some(span)
    }

    /// Whether the next mark is of a smaller source.
    fn has_mark_below(&self, source: u32) -> bool
        ensures { result ≡ mark_below source self.now.marks.now }
    {
        match self.marks {
            [] => false,
            [mark, ..] => mark.source() < source,
        }
    }

    /// Up to which number the walk has done a source.
    fn done_of(&self, source: u32) -> u32
        ensures { result ≡ done_of self.now.source self.now.done source }
    {
        if source == self.source { self.done } else { 0 }
    }

    /// Passes the next mark.
    fn next_mark(&mut self) -> Option<Span>
        ensures rest { self.new ≡ record self.old { marks = self.new.marks } }
        ensures span { MatchOption result ((self.old.marks.now ≡ []) × (self.new ≡ self.old))
            (λ span. (mark : MarkValue) × (self.old.marks.now ≡ mark ∷ self.new.marks.now) ×
            (span ≡ up_to_mark self.old.source self.old.done mark)) }
    {
        let Some((mark, later)) = self.marks.split_first() else {
            return None;
        };
        self.marks = later;
        Some(Span {
            source: mark.source(),
            done: self.done_of(mark.source()),
            last: mark.high(),
        })
    }
}
