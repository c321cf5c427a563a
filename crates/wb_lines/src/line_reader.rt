//! Reads a source line by line, in blocks.
ghost use Rattle.std.specs.Prelude.{◌≡◌, ◌≢◌, ◌≤◌, ◌<◌, ◌+◌, ◌↔◌, [], ◌∷◌, ◌++◌, List, ℕ, length, take, slice_index, true, false, IfOk, OnOk, IsTrue, Ok};
ghost use Rattle.wb_lines.specs.Output.{SendsOut};
ghost use Rattle.wb_lines.specs.Input.{most_bytes};
ghost use Rattle.wb_lines.specs.Ahead.{ReadsAhead, GivesByte, NoLineFeed, TakesRun, PassesRun, MayGiveLine, PassesOver};

use crate::output::Output;
use memchr::memchr;
use std::alloc::{AllocError, Global};
use std::marker::Model;
use wb_names::{Sink, Source};

/// How many bytes are asked of a source at once.
const BLOCK_LEN: usize = 65_536;

/// The most bytes that a line has before its line feed.
pub const MAX_LINE_LEN: usize = 65_536;

/// The next byte of a source, or why there is none.
#[derive(Clone, Copy, Debug, PartialEq, Eq)]
pub enum Pulled {
    Byte(u8),
    End,
    /// The source failed.
    Failed,
    /// What waited could not be written, so the source was not asked.
    Unwritten,
}

/// The next line of a source, or why there is none.
#[derive(Clone, Copy, Debug, PartialEq, Eq)]
pub enum Found {
    /// A line that a line feed ends.
    Whole,
    /// What follows the last line feed.
    Last,
    /// Nothing: the source is at its end.
    End,
    /// The source failed.
    Failed,
    /// The line is too long.
    TooLong,
    /// What waited could not be written, so the source was not asked.
    Unwritten,
}

/// How many bytes stand before the first line feed, or in all if there is none.
fn len_before_line_feed(bytes: &[u8]) -> usize
    ensures within { result ≤ length bytes.now }
    ensures before { NoLineFeed (take result bytes.now) }
    ensures first { result < length bytes.now → slice_index bytes.now result ≡ 10 }
{
    memchr(b'\n', bytes).unwrap_or(bytes.len())
}

fn append(line: &mut Vec<u8>, bytes: &[u8]) -> Result<(), AllocError>
    ensures { OnOk result (line.new.items ≡ line.old.items ++ bytes.now) }
{
    line.extend_from_slice(bytes)
}

/// Reads a source line by line. Before each further read it writes what waits, so that whoever
/// feeds the source sees the answers to what he has sent. It also writes once much waits.
#[derive(Drop)]
pub struct LineReader {
    block: Vec<u8>,
    start: usize,
    end: usize,
    ended: bool,
}

impl Model for LineReader {
    ghost use Rattle.std.specs.Prelude.{◌<◌, ◌≤◌, ◌-◌, take, drop, length};
    ghost use Rattle.wb_lines.specs.Ahead.{Ahead};

    ghost Value = { Ahead };

    ghost view = { λ r. record {
      bytes = take (r.end - r.start) (drop r.start r.block.items);
      ended = r.ended;
    } };

    ghost invariant = { λ r. (r.start ≤ r.end) × (r.end ≤ length r.block.items) ×
        (0 < length r.block.items) };
}

impl LineReader {
    pub fn new(alloc: Global) -> Result<Self, AllocError>
        ensures { IfOk result (λ r. r ≡ record { bytes = []; ended = false }) }
    {
        Ok(LineReader {
            block: vec![in alloc; 0; BLOCK_LEN]?,
            start: 0,
            end: 0,
            ended: false,
        })
    }

    fn is_used_up(&self) -> bool
        ensures { IsTrue result ↔ (self.now.bytes ≡ []) }
    {
        self.start == self.end
    }

    fn take_byte(&mut self) -> u8
        requires { self.old.bytes ≢ [] }
        ensures byte { self.old.bytes ≡ result ∷ self.new.bytes }
        ensures ended { self.new.ended ≡ self.old.ended }
    {
        let byte = self.block[self.start];
        self.start += 1;
        byte
    }

    /// Pulls the next block, and takes its first byte.
    fn pull_byte<R: Source>(&mut self, source: &mut R) -> Pulled
        requires { self.old.bytes ≡ [] }
        ensures asked { result ≢ Pulled.Unwritten }
        ensures read { (given : List ℕ) × ReadsAhead self.old self.new (R.left source.old)
            (R.left source.new) (R.has_failed source.old) (R.has_failed source.new) given ×
            GivesByte self.old self.new given (R.has_failed source.new) result }
    {
        if self.ended {
            return Pulled::End;
        }
        match source.pull(&mut self.block) {
            None => Pulled::Failed,
            Some(0) => {
                self.ended = true;
                Pulled::End
            }
            Some(count) => {
                self.start = 0;
                self.end = count;
                Pulled::Byte(self.take_byte())
            }
        }
    }

    /// Takes the next byte.
    pub fn next_byte<R: Source, W: Sink>(
        &mut self,
        source: &mut R,
        output: &mut Output,
        sink: &mut W,
    ) -> Pulled
        ensures read { (given : List ℕ) × ReadsAhead self.old self.new (R.left source.old)
            (R.left source.new) (R.has_failed source.old) (R.has_failed source.new) given ×
            GivesByte self.old self.new given (R.has_failed source.new) result }
        ensures sends { SendsOut (W.taken sink.old) output.old (W.taken sink.new) output.new [] }
        ensures unwritten { result ≡ Pulled.Unwritten →
            (W.has_failed sink.new ≡ true) × (output.old ≢ []) }
        ensures nothing { output.old ≡ [] → output.new ≡ [] }
    {
        if !self.is_used_up() && !output.is_long() {
            return Pulled::Byte(self.take_byte());
        }
        if output.flush(sink).is_err() {
            return Pulled::Unwritten;
        }
        if self.is_used_up() {
            self.pull_byte(source)
        } else {
            Pulled::Byte(self.take_byte())
        }
    }

    /// Moves what stands in the block before the next line feed to the end of a line, as far as the
    /// line has room for it.
    fn take_run(&mut self, line: &mut Vec<u8>) -> Result<(), AllocError>
        requires { length line.old.items ≤ most_bytes + 1 }
        ensures ok { OnOk result (TakesRun self.old self.new line.old.items line.new.items) }
        ensures ended { self.new.ended ≡ self.old.ended }
    {
        let ahead = &self.block[self.start..self.end];
        let room = ahead.len().min(MAX_LINE_LEN + 1 - line.len());
        let count = len_before_line_feed(&ahead[..room]);
        append(line, &ahead[..count])?;
        self.start += count;
        Ok(())
    }

    /// Reads the next line into `line`, without its line feed.
    pub fn next_line<R: Source, W: Sink>(
        &mut self,
        source: &mut R,
        line: &mut Vec<u8>,
        output: &mut Output,
        sink: &mut W,
    ) -> Result<Found, AllocError>
        ensures read { (given : List ℕ) × ReadsAhead self.old self.new (R.left source.old)
            (R.left source.new) (R.has_failed source.old) (R.has_failed source.new) given ×
            MayGiveLine self.old self.new given (R.has_failed source.new) line.new.items result }
        ensures sends { SendsOut (W.taken sink.old) output.old (W.taken sink.new) output.new [] }
        ensures unwritten { result ≡ Ok Found.Unwritten →
            (W.has_failed sink.new ≡ true) × (output.old ≢ []) }
        ensures nothing { output.old ≡ [] → output.new ≡ [] }
        ensures failed { result ≡ Ok Found.Failed → R.has_failed source.new ≡ true }
    {
        line.clear();
        loop {
            match self.next_byte(source, output, sink) {
                Pulled::Unwritten => return Ok(Found::Unwritten),
                Pulled::Failed => return Ok(Found::Failed),
                Pulled::End => {
                    return Ok(if line.is_empty() {
                        Found::End
                    } else {
                        Found::Last
                    });
                }
                Pulled::Byte(byte) => {
                    if byte == b'\n' {
                        return Ok(Found::Whole);
                    }
                    line.push(byte)?;
                    self.take_run(line)?;
                    if line.len() > MAX_LINE_LEN {
                        return Ok(Found::TooLong);
                    }
                }
            }
        }
    }

    /// Passes over what stands in the block before the next line feed, but for no more bytes than
    /// these. Answers how many there were.
    fn pass_run(&mut self, most: usize) -> usize
        ensures run { PassesRun self.old self.new result }
        ensures few { result ≤ most }
        ensures ended { self.new.ended ≡ self.old.ended }
    {
        let ahead = &self.block[self.start..self.end];
        let room = ahead.len().min(most);
        let count = len_before_line_feed(&ahead[..room]);
        self.start += count;
        count
    }

    /// Passes over the rest of a line, with its line feed if there is one. Answers how it ended:
    /// too long if it had more bytes than are counted.
    pub(crate) fn pass_over<R: Source, W: Sink>(
        &mut self,
        source: &mut R,
        output: &mut Output,
        sink: &mut W,
    ) -> Found
        ensures read { (given : List ℕ) ×
            (rest : List ℕ) × ReadsAhead self.old self.new (R.left source.old)
            (R.left source.new) (R.has_failed source.old) (R.has_failed source.new) given ×
            PassesOver self.old self.new given (R.has_failed source.new) rest result }
        ensures sends { SendsOut (W.taken sink.old) output.old (W.taken sink.new) output.new [] }
        ensures unwritten { result ≡ Found.Unwritten → W.has_failed sink.new ≡ true }
        ensures failed { result ≡ Found.Failed → R.has_failed source.new ≡ true }
    {
        let mut passed = 0usize;
        while passed < usize::MAX {
            match self.next_byte(source, output, sink) {
                Pulled::Byte(b'\n') => return Found::Whole,
                Pulled::Byte(_) => {
                    passed += 1;
                    passed += self.pass_run(usize::MAX - passed);
                }
                Pulled::End => return Found::Last,
                Pulled::Failed => return Found::Failed,
                Pulled::Unwritten => return Found::Unwritten,
            }
        }
        Found::TooLong
    }
}
