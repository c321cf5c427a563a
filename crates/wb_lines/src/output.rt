//! Text that waits to be written.
ghost use Rattle.std.specs.Prelude.{◌≡◌, ◌<◌, ◌↔◌, [], ◌++◌, true, length, IsTrue, IsOk, OnOk, OnErr};
ghost use Rattle.wb_lines.specs.Output.{SendsOut, most_waiting};

use std::alloc::{AllocError, Global};
use std::marker::Model;
use wb_names::Sink;

/// More waiting bytes than these are written before the next line is read.
const MOST_WAITING: usize = 65_536;

/// The sink failed. What it did not take still waits.
#[derive(Clone, Copy, Debug, PartialEq, Eq)]
pub struct Unwritten;

/// Text that waits to be written, so that a sink is handed much at once.
#[derive(Drop)]
pub struct Output {
    bytes: Vec<u8>,
    start: usize,
}

impl Model for Output {
    ghost use Rattle.std.specs.Prelude.{List, ℕ, ◌≤◌, length, drop};

    ghost Value = { List ℕ };

    ghost view = { λ o. drop o.start o.bytes.items };

    ghost invariant = { λ o. o.start ≤ length o.bytes.items };
}

impl Output {
    pub fn new(alloc: Global) -> Self
        ensures { result ≡ [] }
    {
        Output {
            bytes: Vec::new(alloc),
            start: 0,
        }
    }

    /// How many bytes wait.
    pub fn len(&self) -> usize
        ensures { result ≡ length self.now }
    {
        self.bytes.len() - self.start
    }

    /// Whether so much waits that it is to be written.
    pub fn is_long(&self) -> bool
        ensures { IsTrue result ↔ (most_waiting < length self.now) }
    {
        self.len() > MOST_WAITING
    }

    /// Adds text after what waits.
    pub fn add(&mut self, text: &[u8]) -> Result<(), AllocError>
        ensures ok { OnOk result (self.new ≡ self.old ++ text.now) }
        ensures err { OnErr result (self.new ≡ self.old) }
    {
        self.bytes.extend_from_slice(text)
    }

    /// Writes what waits.
    pub fn flush<W: Sink>(&mut self, sink: &mut W) -> Result<(), Unwritten>
        ensures sends { SendsOut (W.taken sink.old) self.old (W.taken sink.new) self.new [] }
        ensures ok { OnOk result (self.new ≡ []) }
        ensures nothing { self.old ≡ [] → IsOk result }
        ensures failed { OnErr result (W.has_failed sink.new ≡ true) }
    {
        while self.start < self.bytes.len() {
            match sink.push(&self.bytes[self.start..]) {
                Some(count) => self.start += count,
                None => return Err(Unwritten),
            }
        }
        self.bytes.clear();
        self.start = 0;
        Ok(())
    }
}
