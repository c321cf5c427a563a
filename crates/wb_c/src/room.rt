//! A host, and the block and the events that wait until they are fetched.
ghost use Rattle.std.specs.Prelude.{◌≡◌, [], true, length, OnOk, IfOk};
ghost use Rattle.wb_c.specs.Blocks.{HandsOver, Took, Writes, fresh};

use crate::event::Event;
use crate::taken::bytes_of;
use std::alloc::{AllocError, Global};
use std::collections::VecDeque;
use std::convert::Infallible;
use wb_dialog::Dialog;
use wb_lines::{Handler, MAX_LINE_LEN, Output, Stop};
use wb_recovery::Tuning;

/// A host, the block of its last line and the events of its calls by bytes, until these are fetched.
#[derive(Drop)]
pub struct Room {
    pub(crate) dialog: Dialog,
    pub(crate) block: Vec<u8>,
    pub(crate) events: VecDeque<Event>,
}

/// Writes bytes at the front of a buffer, if there is room for them, and says whether there is.
pub(crate) fn write_out(bytes: &[u8], buffer: &mut [u8]) -> bool
    ensures { Writes bytes.now buffer.old buffer.new result }
{
    let size = bytes.len();
    if buffer.len() < size {
        return false;
    }
    buffer[..size].copy_from_slice(bytes);
    true
}

impl Room {
    /// No board is open, and nothing waits.
    pub(crate) fn new(alloc: Global) -> Self
        ensures dialog { result.dialog ≡ fresh }
        ensures block { result.block.items ≡ [] }
        ensures events { result.events.items ≡ [] }
    {
        Room {
            dialog: Dialog::new(Tuning::default()),
            block: Vec::new(alloc),
            events: VecDeque::new(alloc),
        }
    }

    /// Hands a line to the dialog. One that is too long is refused, and not read.
    fn hand_in(
        &mut self,
        alloc: Global,
        line: &[u8],
        output: &mut Output,
    ) -> Result<(), Stop<Infallible>>
        requires { output.old ≡ [] }
        ensures took { OnOk result (Took self.old.dialog self.new.dialog line.now output.new) }
        ensures events { self.new.events ≡ self.old.events }
    {
        if line.len() > MAX_LINE_LEN {
            self.dialog.take_too_long(alloc, 0, output)
        } else {
            Handler::take(&mut self.dialog, alloc, 0, line, true, output)
        }
    }

    /// Takes a line, which stands without its line feed. Its block waits then. If memory runs out,
    /// the host is to be given up.
    pub(crate) fn answer(&mut self, alloc: Global, line: &[u8]) -> Result<(), AllocError>
        ensures took { OnOk result
            (Took self.old.dialog self.new.dialog line.now self.new.block.items) }
        ensures events { self.new.events ≡ self.old.events }
    {
        let mut output = Output::new(alloc);
        match self.hand_in(alloc, line, &mut output) {
            Ok(()) => {
                self.block = bytes_of(alloc, output)?;
                Ok(())
            }
            Err(_) => Err(AllocError),
        }
    }

    /// Hands over the block that waits, if there is room for it, and says whether there is.
    pub(crate) fn hand_over(&mut self, buffer: &mut [u8]) -> bool
        ensures same { self.new.dialog ≡ self.old.dialog }
        ensures events { self.new.events ≡ self.old.events }
        ensures block { HandsOver self.old.block.items self.new.block.items
            buffer.old buffer.new result }
    {
        if !write_out(self.block.as_slice(), buffer) {
            return false;
        }
        self.block.clear();
        true
    }
}
