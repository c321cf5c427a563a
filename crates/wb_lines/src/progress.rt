//! How far a driver has come.
ghost use Rattle.std.specs.Prelude.{◌≡◌, ◌≤◌, ◌<◌, [], List, ℕ, Err, IfSome};
ghost use Rattle.wb_lines.specs.declared.lines.Seen.TheVariants as seens;
ghost use Rattle.wb_lines.specs.Moments.{KnowsLines, TakesNext, TakesJoined};
ghost use Rattle.wb_lines.specs.Progress.{reached};

use crate::fault::DriveFault;
use crate::lines::{First, Lines};
use crate::output::Output;
use crate::saying::Saying;
use std::alloc::Global;
use wb_names::{Sink, Source};

/// How far a driver has come: the lines of its source, and the text that waits to be written.
#[derive(Drop)]
pub struct Progress<S: Saying> {
    pub lines: Lines<S>,
    pub output: Output,
}

impl<S: Saying> Progress<S> {
    /// Takes the next line, as the first of those that join it. Answers none at the end of the
    /// input, and a fault if no more lines can be read.
    pub fn next_first<F, R: Source, W: Sink>(
        &mut self,
        alloc: Global,
        source: &mut R,
        sink: &mut W,
    ) -> Result<Option<First<S>>, DriveFault<F>>
        ensures sound { KnowsLines S.says self.old.lines }
        ensures next { TakesNext S.says S.by
            (reached R.Source W.Sink self.old source.old sink.old)
            (reached R.Source W.Sink self.new source.new sink.new) result }
        ensures faults { (result ≡ Err DriveFault.Read → self.new.lines.seen ≡ seens.Failed) ×
            (result ≡ Err DriveFault.Write → self.new.lines.seen ≡ seens.Unwritten) }
    {
        self.lines.look(alloc, source, &mut self.output, sink);
        self.lines.take_first()
    }

    /// Takes the next line, if it joins those before it. Answers what it says.
    pub fn next_joined<R: Source, W: Sink>(
        &mut self,
        alloc: Global,
        source: &mut R,
        sink: &mut W,
    ) -> Option<S>
        ensures joined { TakesJoined S.says S.by
            (reached R.Source W.Sink self.old source.old sink.old)
            (reached R.Source W.Sink self.new source.new sink.new) result }
        ensures few { IfSome result (λ said. self.new.lines.done ≤ S.at_most) }
    {
        self.lines.look(alloc, source, &mut self.output, sink);
        if self.lines.joins() {
            self.lines.take_line()
        } else {
            None
        }
    }
}
