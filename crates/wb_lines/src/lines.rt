//! The lines of a source, of which the next is looked at before it is taken.
ghost use Rattle.std.specs.Prelude.{◌≡◌, ◌≢◌, ◌<◌, ◌≤◌, [], List, ℕ, Err, IfOk, IfSome};
ghost use Rattle.wb_lines.specs.declared.lines.Seen.TheVariants as seens;
ghost use Rattle.wb_lines.specs.Moments.{driver_moment, is_broken, with_seen, Reads, KnowsLines, IsLineOrMemory, TakesSeenLine, TakesSeen, IsJoining, Moves, PassesLine, at_start, found_over};

use crate::fault::DriveFault;
use crate::line_reader::{Found, LineReader, Pulled};
use crate::output::Output;
use crate::saying::Saying;
use std::alloc::{AllocError, Global};
use std::marker::Model;
use std::mem::replace;
use wb_names::{Sink, Source};

/// What was found after the lines that were taken.
#[derive(Drop)]
pub enum Seen<S> {
    /// Nobody has looked.
    Nothing,
    /// A line, and what it says.
    Line(S),
    /// A line that is too long.
    TooLong,
    /// The end of the input.
    End,
    /// The source failed.
    Failed,
    /// There are more lines than are taken.
    TooMany,
    /// What waited could not be written, so the source was not asked.
    Unwritten,
    /// Memory ran out.
    Memory,
}

/// What a driver takes next.
#[derive(Drop)]
pub enum First<S> {
    /// A line, and what it says.
    Line(S),
    /// One that is too long. The rest of it was not read.
    TooLong,
}

/// What passing over a line came to.
fn found_over<S>(found: Found) -> Seen<S>
    ensures { result ≡ found_over found }
{
    match found {
        Found::Whole | Found::Last | Found::End => Seen::Nothing,
        Found::Failed => Seen::Failed,
        Found::TooLong => Seen::TooMany,
        Found::Unwritten => Seen::Unwritten,
    }
}

/// Reads a source line by line, and counts the lines. The next line can be looked at before it is
/// taken, so that a caller who takes lines together leaves the one after them. Each line is read
/// once, when it is looked at.
#[derive(Drop)]
pub struct Lines<S: Saying> {
    reader: LineReader,
    most: u64,
    done: u64,
    line: Vec<u8>,
    ended: bool,
    seen: Seen<S>,
}

impl<S: Saying> Model for Lines<S> {
    ghost use Rattle.std.specs.Prelude.{◌≤◌};
    ghost use Rattle.wb_lines.specs.Moments.{LinesValue, KnowsLines};

    ghost Value = { LinesValue S };

    ghost view = { λ l. record {
      done = l.done;
      most = l.most;
      reader = l.reader;
      line = record { bytes = l.line.items; ended = l.ended };
      seen = l.seen;
    } };

    ghost invariant = { λ l. (l.most ≤ S.at_most) ×
        KnowsLines S.says (record {
          done = l.done;
          most = l.most;
          reader = l.reader;
          line = record { bytes = l.line.items; ended = l.ended };
          seen = l.seen;
        }) };
}

impl<S: Saying> Lines<S> {
    pub fn new(alloc: Global, most: u64) -> Result<Self, AllocError>
        requires { most ≤ S.at_most }
        ensures { IfOk result (λ l. l ≡ at_start most) }
    {
        Ok(Lines {
            reader: LineReader::new(alloc)?,
            most,
            done: 0,
            line: Vec::new(alloc),
            ended: false,
            seen: Seen::Nothing,
        })
    }

    /// How many lines were taken.
    pub fn done(&self) -> u64
        ensures count { result ≡ self.now.done }
        ensures few { result ≤ self.now.most }
        ensures most { self.now.most ≤ S.at_most }
    {
        self.done
    }

    /// The line that was read last, without its line feed.
    pub(crate) fn line(&self) -> &[u8]
        ensures { result.now ≡ self.now.line.bytes }
    {
        &self.line
    }

    /// Whether a line feed ends it.
    pub(crate) fn is_ended(&self) -> bool
        ensures { result ≡ self.now.line.ended }
    {
        self.ended
    }

    /// Whether no more lines can be read, though there may be some: what waited could not be
    /// written, or memory ran out.
    pub fn is_broken(&self) -> bool
        ensures { result ≡ is_broken self.now.seen }
    {
        matches!(&self.seen, Seen::Unwritten | Seen::Memory)
    }

    /// Reads the next line.
    fn read_line(&mut self, alloc: Global, ended: bool) -> Seen<S>
        requires { self.old.seen ≡ seens.Nothing }
        ensures line { self.new ≡
            record self.old { line = record { bytes = self.old.line.bytes; ended = ended } } }
        ensures said { IsLineOrMemory S.says self.new.line result }
    {
        self.ended = ended;
        match S::read(alloc, &self.line, ended) {
            Ok(said) => Seen::Line(said),
            Err(AllocError) => Seen::Memory,
        }
    }

    /// What is found if more lines may be taken.
    fn find_line<R: Source, W: Sink>(
        &mut self,
        alloc: Global,
        source: &mut R,
        output: &mut Output,
        sink: &mut W,
    ) -> Seen<S>
        requires next { (self.old.seen ≡ seens.Nothing) × (self.old.done < self.old.most) }
        ensures reads { Reads S.by
            (driver_moment R.Source W.Sink self.old output.old source.old sink.old) (driver_moment R.Source
            W.Sink (with_seen self.new result) output.new source.new sink.new) [] [] }
        ensures sound { KnowsLines S.says (with_seen self.new result) }
        ensures found { result ≢ seens.Nothing }
        ensures count { (self.new.done ≡ self.old.done) × (self.new.most ≡ self.old.most) }
    {
        match self.reader.next_line(source, &mut self.line, output, sink) {
            Ok(Found::Whole) => self.read_line(alloc, true),
            Ok(Found::Last) => self.read_line(alloc, false),
            Ok(Found::TooLong) => Seen::TooLong,
            Ok(Found::End) => Seen::End,
            Ok(Found::Failed) => Seen::Failed,
            Ok(Found::Unwritten) => Seen::Unwritten,
            Err(AllocError) => Seen::Memory,
        }
    }

    /// What is found after the most lines that are taken.
    fn find_past_the_last<R: Source, W: Sink>(
        &mut self,
        source: &mut R,
        output: &mut Output,
        sink: &mut W,
    ) -> Seen<S>
        requires last { (self.old.seen ≡ seens.Nothing) × (self.old.done ≡ self.old.most) }
        ensures reads { Reads S.by
            (driver_moment R.Source W.Sink self.old output.old source.old sink.old) (driver_moment R.Source
            W.Sink (with_seen self.new result) output.new source.new sink.new) [] [] }
        ensures sound { KnowsLines S.says (with_seen self.new result) }
        ensures found { result ≢ seens.Nothing }
        ensures count { (self.new.done ≡ self.old.done) × (self.new.most ≡ self.old.most) }
    {
        match self.reader.next_byte(source, output, sink) {
            Pulled::End => Seen::End,
            Pulled::Failed => Seen::Failed,
            Pulled::Unwritten => Seen::Unwritten,
            Pulled::Byte(_) => Seen::TooMany,
        }
    }

    /// What is found after the lines that were taken.
    fn find<R: Source, W: Sink>(
        &mut self,
        alloc: Global,
        source: &mut R,
        output: &mut Output,
        sink: &mut W,
    ) -> Seen<S>
        requires next { self.old.seen ≡ seens.Nothing }
        ensures reads { Reads S.by
            (driver_moment R.Source W.Sink self.old output.old source.old sink.old) (driver_moment R.Source
            W.Sink (with_seen self.new result) output.new source.new sink.new) [] [] }
        ensures sound { KnowsLines S.says (with_seen self.new result) }
        ensures found { result ≢ seens.Nothing }
        ensures count { (self.new.done ≡ self.old.done) × (self.new.most ≡ self.old.most) }
    {
        if self.done < self.most {
            self.find_line(alloc, source, output, sink)
        } else {
            self.find_past_the_last(source, output, sink)
        }
    }

    /// Looks at what stands after the lines that were taken, unless it was looked at.
    pub fn look<R: Source, W: Sink>(
        &mut self,
        alloc: Global,
        source: &mut R,
        output: &mut Output,
        sink: &mut W,
    )
        ensures reads { Reads S.by
            (driver_moment R.Source W.Sink self.old output.old source.old sink.old)
            (driver_moment R.Source W.Sink self.new output.new source.new sink.new) [] [] }
        ensures looked { self.new.seen ≢ seens.Nothing }
        ensures count { (self.new.done ≡ self.old.done) × (self.new.most ≡ self.old.most) }
        ensures sound { KnowsLines S.says self.old }
    {
        if !matches!(&self.seen, Seen::Nothing) {
            return;
        }
        let seen = self.find(alloc, source, output, sink);
        self.seen = seen;
    }

    /// Takes the line that was looked at, if it is one that is not too long. Answers what it says.
    pub fn take_line(&mut self) -> Option<S>
        ensures taken { TakesSeenLine S.says self.old self.new result }
        ensures few { IfSome result (λ said. self.new.done ≤ S.at_most) }
    {
        match replace(&mut self.seen, Seen::Nothing) {
            Seen::Line(said) => {
                self.done += 1;
                Some(said)
            }
            other => {
                self.seen = other;
                None
            }
        }
    }

    /// Takes what was looked at, if it is a line. Else answers how a driver ends by it: at the end
    /// of the input, or with a fault.
    pub(crate) fn take_first<F>(&mut self) -> Result<Option<First<S>>, DriveFault<F>>
        requires { self.old.seen ≢ seens.Nothing }
        ensures taken { TakesSeen S.says self.old self.new result }
        ensures faults { (result ≡ Err DriveFault.Read → self.new.seen ≡ seens.Failed) ×
            (result ≡ Err DriveFault.Write → self.new.seen ≡ seens.Unwritten) }
    {
        if let Some(said) = self.take_line() {
            return Ok(Some(First::Line(said)));
        }
        match &self.seen {
            Seen::TooLong => {
                self.seen = Seen::Nothing;
                self.done += 1;
                Ok(Some(First::TooLong))
            }
            Seen::Failed => Err(DriveFault::Read),
            Seen::TooMany => Err(DriveFault::Endless),
            Seen::Unwritten => Err(DriveFault::Write),
            Seen::Memory => Err(DriveFault::Memory),
            Seen::End | Seen::Nothing | Seen::Line(_) => Ok(None),
        }
    }

    /// Whether the line that was looked at joins those before it.
    pub(crate) fn joins(&self) -> bool
        ensures { IsJoining S.by self.now.line self.now.seen result }
    {
        match &self.seen {
            Seen::Line(said) => said.joins(),
            _ => false,
        }
    }

    /// Passes over the rest of a line that is too long, and was taken.
    pub(crate) fn pass_over<R: Source, W: Sink>(
        &mut self,
        source: &mut R,
        output: &mut Output,
        sink: &mut W,
    )
        requires taken { (self.old.seen ≡ seens.Nothing) × (self.old.done ≤ self.old.most) }
        ensures passes { (moves : Moves
            (driver_moment R.Source W.Sink self.old output.old source.old sink.old)
            (driver_moment R.Source W.Sink self.new output.new source.new sink.new) []) ×
            PassesLine S.by self.old self.new moves.given }
        ensures count { (self.new.done ≡ self.old.done) × (self.new.most ≡ self.old.most) }
    {
        let found = self.reader.pass_over(source, output, sink);
        self.seen = found_over(found);
    }
}
