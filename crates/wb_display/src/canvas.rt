//! The canvas of a list of drawops: rows of glyphs, each ended by a line feed. A later drawop of
//! the list covers an earlier one.

ghost use Rattle.std.specs.Prelude.{◌≡◌, ◌+◌, ◌*◌, ◌<◌, ◌↔◌, IfOk, OnOk, IfErr, OnErr, true, false, length, take, []};
ghost use Rattle.std.specs.Io.KnownBytes.{Appends};
ghost use Rattle.wb_display.specs.Canvas.{canvas_text, is_canvas_size as is_canvas_size_of};
ghost use Rattle.wb_display.specs.Cells.{Shows};

use crate::strokes::{Size, paint_op};
use std::alloc::{AllocError, Global};
use std::marker::Model;
use thiserror::Error;
use wb_names::{Drawop, Sink};

/// Why no canvas was painted: the first fault in the order of the variants.
#[derive(Clone, Copy, Debug, PartialEq, Eq, Error)]
pub enum CanvasFault {
    /// The width is not from 1 to 200, or the height not from 1 to 100.
    #[error("canvas size")]
    Size,
    /// Memory was refused.
    #[error("memory")]
    Memory,
}

impl CanvasFault {
    ghost use Rattle.wb_display.specs.Faults.{canvas_code};

    /// The number of the fault, from 1.
    pub fn code(&self) -> u32
        ensures { result ≡ canvas_code self.now }
    {
        match self {
            CanvasFault::Size => 1,
            CanvasFault::Memory => 2,
        }
    }
}

impl From<AllocError> for CanvasFault {
    ghost use Rattle.std.specs.Prelude.{◌≡◌};
    ghost use Rattle.wb_display.specs.declared.canvas.CanvasFault.TheVariants.{Memory};

    ghost from_gives = { λ _ fault. fault ≡ Memory };

    fn from(_: AllocError) -> CanvasFault {
        CanvasFault::Memory
    }
}

/// A sink failed: it had taken this many bytes, from the front, and no more.
#[derive(Clone, Copy, Debug, PartialEq, Eq, Error)]
#[error("stopped after {sent} bytes")]
pub struct Stopped {
    pub sent: usize,
}

/// A painted canvas.
#[derive(Debug, Drop)]
pub struct Canvas {
    bytes: Vec<u8>,
}

impl Model for Canvas {
    ghost use Rattle.std.specs.Prelude.{List, ℕ};

    ghost Value = { List ℕ };

    ghost view = { λ c. c.bytes.items };
}

impl Canvas {
    /// The most columns of a canvas. The fewest is 1.
    pub const MAX_WIDTH: u32 = 200;

    /// The most rows of a canvas. The fewest is 1.
    pub const MAX_HEIGHT: u32 = 100;

    fn is_size(width: u32, height: u32) -> bool
        ensures { result ≡ is_canvas_size_of width height }
    {
        (1..=Self::MAX_WIDTH).contains(&width) && (1..=Self::MAX_HEIGHT).contains(&height)
    }

    /// The canvas of the list, `width` columns by `height` rows. `Size` if there is no such canvas,
    /// which is decided before memory is asked for.
    pub fn paint(
        alloc: Global,
        list: &[Drawop],
        width: u32,
        height: u32,
    ) -> Result<Canvas, CanvasFault>
        ensures canvas { IfOk result (λ c. c ≡ canvas_text list.now width height) }
        ensures size { (result ≡ Err CanvasFault.Size) ↔ (is_canvas_size_of width height ≡ false) }
    {
        if !Self::is_size(width, height) {
            return Err(CanvasFault::Size);
        }
        let size = Size {
            width: width as usize,
            height: height as usize,
        };
        let mut bytes = vec![in alloc; b' '; size.height * (size.width + 1)]?;
        paint_over(&mut bytes, size, list);
        Ok(Canvas { bytes })
    }

    /// The rows, from the top, each ended by a line feed.
    #[inline(always)]
    pub fn bytes(&self) -> &[u8]
        ensures { result.now ≡ self.now }
    {
        &self.bytes
    }

    /// Writes the rows into the sink: all of them, or, if the sink has failed, those bytes of which
    /// `Stopped` tells.
    #[tactic(auto, using(crate::proofs::Sent::sent_more))]
    pub fn write_to<W: Sink>(&self, sink: &mut W) -> Result<(), Stopped>
        ensures ok { OnOk result (Appends (W.taken sink.old) (W.taken sink.new) self.now) }
        ensures part { IfErr result
            (λ s. Appends (W.taken sink.old) (W.taken sink.new) (take s.sent self.now)) }
        ensures short { IfErr result (λ s. s.sent < length self.now) }
        ensures failed { OnErr result (W.has_failed sink.new ≡ true) }
    {
        let bytes = self.bytes();
        let mut sent = 0;
        while sent < bytes.len() {
            match sink.push(&bytes[sent..]) {
                Some(count) => sent += count,
                None => return Err(Stopped { sent }),
            }
        }
        Ok(())
    }
}

/// Makes the cells an empty canvas: spaces, and a line feed at the end of each row.
#[tactic(auto, using(crate::proofs::Overlaying::fed))]
fn clear(cells: &mut [u8], size: Size)
    requires { length cells.old ≡ size.height * (size.width + 1) }
    ensures { Shows size.width size.height [] cells.new }
{
    cells.fill(b' ');
    for y in 0..size.height {
        cells[y * (size.width + 1) + size.width] = b'\n';
    }
}

/// Paints the list over cells that hold anything, in its order.
fn paint_over(cells: &mut [u8], size: Size, list: &[Drawop])
    requires { length cells.old ≡ size.height * (size.width + 1) }
    ensures { cells.new ≡ canvas_text list.now size.width size.height }
{
    clear(cells, size);
    for drawop in list {
        paint_op(cells, size, drawop.op());
    }
}
