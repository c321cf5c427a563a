//! The ends that bytes come from and go to.

ghost use Rattle.std.specs.Prelude.{◌≡◌, ◌<◌, ℕ, Bool, List, Option, true, false, length, IsNone, ◌↔◌};
ghost use Rattle.wb_names.specs.Stream.{Pulls, Pushes};

use std::io::{Read, Write};

/// Where bytes come from. After it has failed it gives no more.
pub trait Source {
    /// The bytes that are left, if they are known.
    ghost left: { Self → Option (List ℕ) };

    /// Whether it has failed.
    ghost has_failed: { Self → Bool };

    /// Moves bytes that are left to the front of the buffer, and says how many: 0 only at the end.
    /// `None` if it failed, and then nothing was moved.
    fn pull(&mut self, buffer: &mut [u8]) -> Option<usize>
        requires { 0 < length buffer.old }
        ensures bytes { Pulls (left self.old) (left self.new) result buffer.new }
        ensures failed { IsNone result ↔ (has_failed self.new ≡ true) }
        ensures stays { has_failed self.old ≡ true → IsNone result };
}

/// Where bytes go to. After it has failed it takes no more.
pub trait Sink {
    /// The bytes that it has taken, if they are known.
    ghost taken: { Self → Option (List ℕ) };

    /// Whether it has failed.
    ghost has_failed: { Self → Bool };

    /// Takes bytes from the front, and says how many: at least one. `None` if it failed, and then
    /// nothing was taken.
    fn push(&mut self, bytes: &[u8]) -> Option<usize>
        requires { 0 < length bytes.now }
        ensures bytes { Pushes (taken self.old) (taken self.new) result bytes.now }
        ensures failed { IsNone result ↔ (has_failed self.new ≡ true) }
        ensures stays { has_failed self.old ≡ true → IsNone result };
}

/// A reader of std as a source. A read that fails or is interrupted ends it.
#[derive(Drop)]
pub struct FromRead<R: Read> {
    reader: R,
    failed: bool,
}

impl<R: Read> FromRead<R> {
    /// A source that gives what the reader has left.
    pub fn new(reader: R) -> Self
        ensures bytes { ⟦<FromRead<R> as Source>⟧.left result ≡ R.remaining reader }
        ensures working { ⟦<FromRead<R> as Source>⟧.has_failed result ≡ false }
    {
        FromRead {
            reader,
            failed: false,
        }
    }
}

impl<R: Read> Source for FromRead<R> {
    ghost left = { λ s. R.remaining s.reader };

    ghost has_failed = { λ s. s.failed };

    fn pull(&mut self, buffer: &mut [u8]) -> Option<usize> {
        if self.failed {
            return None;
        }
        match self.reader.read(buffer) {
            Ok(count) => Some(count),
            Err(_) => {
                self.failed = true;
                None
            }
        }
    }
}

/// A writer of std as a sink. A write that fails, is interrupted or takes nothing ends it.
#[derive(Drop)]
pub struct ToWrite<W: Write> {
    writer: W,
    failed: bool,
}

impl<W: Write> ToWrite<W> {
    /// A sink that has taken what the writer holds.
    pub fn new(writer: W) -> Self
        ensures bytes { ⟦<ToWrite<W> as Sink>⟧.taken result ≡ W.contents writer }
        ensures working { ⟦<ToWrite<W> as Sink>⟧.has_failed result ≡ false }
    {
        ToWrite {
            writer,
            failed: false,
        }
    }

    /// The writer, with what it was given.
    pub fn into_inner(self) -> W
        ensures { W.contents result ≡ ⟦<ToWrite<W> as Sink>⟧.taken self }
    {
        self.writer
    }
}

impl<W: Write> Sink for ToWrite<W> {
    ghost taken = { λ s. W.contents s.writer };

    ghost has_failed = { λ s. s.failed };

    fn push(&mut self, bytes: &[u8]) -> Option<usize> {
        if self.failed {
            return None;
        }
        match self.writer.write(bytes) {
            Ok(count) if count > 0 => Some(count),
            _ => {
                self.failed = true;
                None
            }
        }
    }
}
