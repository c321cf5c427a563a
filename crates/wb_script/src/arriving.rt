//! The arrivals of a batch, as workers take them: the script is read on as they do.
ghost use Rattle.wb_lines.specs.Progress.{reached};
ghost use Rattle.wb_script.specs.Inside.Reading.{ReadsTo, ArrivesTo};

use crate::part::Part;
use crate::said::{MAX_LINES, Said};
use std::alloc::Global;
use wb_feed::Arrivals;
use wb_lines::Progress;
use wb_names::{Drawop, Sink, Source};

/// Reads a script up to its next arrival, and takes that line and those that are skipped before it.
/// A line that is neither is looked at alone: the batch ends there.
fn read_on<R: Source, W: Sink>(
    alloc: Global,
    progress: &mut Progress<Said>,
    source: &mut R,
    sink: &mut W,
) -> Option<Drawop>
    ensures { ReadsTo (reached R.Source W.Sink progress.old source.old sink.old)
        (reached R.Source W.Sink progress.new source.new sink.new) result }
{
    while let Some(said) = progress.next_joined(alloc, source, sink) {
        if let Part::Arrival(drawop) = said.part() {
            return Some(drawop);
        }
    }
    None
}

/// The first arrival of a batch, if it was not taken yet, or else that of a line that follows.
fn next_arrival<R: Source, W: Sink>(
    alloc: Global,
    progress: &mut Progress<Said>,
    source: &mut R,
    sink: &mut W,
    first: &mut Option<Drawop>,
) -> Option<Drawop>
    ensures { ArrivesTo (reached R.Source W.Sink progress.old source.old sink.old) first.old
        (reached R.Source W.Sink progress.new source.new sink.new) first.new result }
{
    match first.take() {
        Some(drawop) => Some(drawop),
        None => read_on(alloc, progress, source, sink),
    }
}

/// The arrivals of a batch, read from a script: one whose line was taken before, and those of the
/// lines that follow, up to one that is neither skipped nor an arrival.
#[derive(Drop)]
pub struct BatchSource<'a, R: Source, W: Sink> {
    pub alloc: Global,
    pub progress: &'a mut Progress<Said>,
    pub source: &'a mut R,
    pub sink: &'a mut W,
    /// The first, while it was not taken.
    pub first: Option<Drawop>,
    /// Whether no more come.
    pub over: bool,
}

impl<R: Source, W: Sink> Arrivals for BatchSource<'_, R, W> {
    ghost use Rattle.std.specs.Prelude.{◌≡◌, refl};
    ghost use Rattle.wb_script.specs.Inside.Arriving.{reading_of};
    ghost use Rattle.wb_script.specs.Inside.Reading.{Gives, ReadsOn, most_of};
    ghost use Rattle.std.proofs.Common.{◌++◌, ◌∙◌, sym, subst, append_assoc};
    ghost use Rattle.std.proofs.lemmas.List.{append-nil};

    ghost gives = { λ a ds b. (a.progress.ghost_name ≡ b.progress.ghost_name) ×
        (a.source.ghost_name ≡ b.source.ghost_name) × (a.sink.ghost_name ≡ b.sink.ghost_name) ×
        Gives (reading_of R.Source W.Sink a) ds (reading_of R.Source W.Sink b) };

    ghost has_ended = { λ s. s.over };

    ghost most_to_come = { λ s. most_of s.progress.now.lines.done s.first };

    fn next(&mut self) -> Option<Drawop> {
        if self.over {
            return None;
        }
        match next_arrival(
            self.alloc,
            self.progress,
            self.source,
            self.sink,
            &mut self.first,
        ) {
            Some(drawop) => Some(drawop),
            None => {
                self.over = true;
                None
            }
        }
    }

    fn most(&self) -> u32 {
        MAX_LINES - self.progress.lines.done() as u32 + u32::from(self.first.is_some())
    }

    ghost gives_none = { λ s. (
      refl,
      refl,
      refl,
      λ start arrived p. subst (λ l. ReadsOn start l (reading_of R.Source W.Sink s))
          (sym (append-nil arrived)) p,
    ) };

    ghost gives_on = { λ a b c ds es p q. (
      p.0 ∙ q.0,
      p.1 ∙ q.1,
      p.2 ∙ q.2,
      λ start arrived r.
          subst (λ l. ReadsOn start l (reading_of R.Source W.Sink c)) (append_assoc arrived ds es)
          (q.3 start (arrived ++ ds) (p.3 start arrived r)),
    ) };
}
