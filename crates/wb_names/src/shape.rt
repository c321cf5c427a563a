//! Operations as callers hand them in, and their checks.

ghost use Rattle.std.specs.Prelude.{◌≡◌, None, Some, OnOk, nat_le};
ghost use Rattle.std.specs.List.{list_all};
ghost use Rattle.wb_names.specs.Faults.{value_unless};
ghost use Rattle.wb_names.specs.Drawing.{IsLawful, op_fault, stroke_fault, text_fault, target_fault, is_coordinate as is_coordinate_number, is_glyph as is_glyph_code, is_printable as is_printable_code};
ghost use Rattle.wb_names.specs.Shapes.{op_of, TextFits};

use crate::drawop::Drawop;
use crate::fault::FieldFault;
use crate::name::Name;
use crate::parts::{Change, Figure, Op, Stroke, Target};
use crate::text::Text;

/// An operation as a caller hands it in, its fields not yet checked. Coordinates are cells, x to
/// the right and y down; glyphs and bytes are of ASCII.
#[derive(Clone, Copy, Debug)]
pub enum Shape<'a> {
    /// Draws between two ends.
    Drawn(Figure, Stroke),
    /// Draws a row of characters that begins at a point.
    Text { x: u16, y: u16, bytes: &'a [u8] },
    /// Hides or shows another drawop of its page.
    Aimed(Change, Target),
}

/// An operation as it is handed in.
pub fn shape_of(op: &Op) -> Shape<'_>
    ensures { op_of result ≡ op.now }
{
    match op {
        Op::Drawn(figure, stroke) => Shape::Drawn(*figure, *stroke),
        Op::Text { x, y, text } => Shape::Text {
            x: *x,
            y: *y,
            bytes: text.as_slice(),
        },
        Op::Aimed(change, target) => Shape::Aimed(*change, *target),
    }
}

/// The greatest coordinate, in cells.
pub const MAX_COORDINATE: u16 = 4095;

#[inline(always)]
fn is_coordinate(number: u16) -> bool
    ensures { result ≡ is_coordinate_number number }
{
    number <= MAX_COORDINATE
}

#[inline(always)]
fn check_stroke(stroke: Stroke) -> Option<FieldFault>
    ensures { result ≡ stroke_fault stroke }
{
    let from = is_coordinate(stroke.x0) && is_coordinate(stroke.y0);
    let to = is_coordinate(stroke.x1) && is_coordinate(stroke.y1);
    if !(from && to) {
        return Some(FieldFault::Coordinate);
    }
    if !(b'!'..=b'~').contains(&stroke.glyph) {
        return Some(FieldFault::Glyph);
    }
    None
}

#[inline(always)]
fn is_all_printable(bytes: &[u8]) -> bool
    ensures { result ≡ list_all is_printable_code bytes.now }
{
    bytes.iter().all(|byte| b' ' <= *byte && *byte <= b'~')
}

#[inline(always)]
fn check_text(x: u16, y: u16, bytes: &[u8]) -> Option<FieldFault>
    ensures { result ≡ text_fault x y bytes.now }
{
    if !(is_coordinate(x) && is_coordinate(y)) {
        return Some(FieldFault::Coordinate);
    }
    if bytes.is_empty() || bytes.len() > Text::MAX_LEN {
        return Some(FieldFault::TextLength);
    }
    if !is_all_printable(bytes) {
        return Some(FieldFault::TextByte);
    }
    None
}

#[inline(always)]
fn check_target(name: Name, target: Target) -> Option<FieldFault>
    ensures { result ≡ target_fault name target }
{
    if target.seq == 0 {
        return Some(FieldFault::TargetZero);
    }
    if target.source == name.source() && target.seq == name.seq() {
        return Some(FieldFault::TargetSelf);
    }
    None
}

/// The first fault of an operation of this shape under a name.
#[inline(always)]
fn fault_of(name: Name, shape: &Shape<'_>) -> Option<FieldFault>
    ensures { result ≡ op_fault name (op_of shape.now) }
{
    match *shape {
        Shape::Drawn(_, stroke) => check_stroke(stroke),
        Shape::Text { x, y, bytes } => check_text(x, y, bytes),
        Shape::Aimed(_, target) => check_target(name, target),
    }
}

/// The operation of this shape, whose text fits.
#[inline(always)]
fn op_from(shape: Shape<'_>) -> Op
    requires { TextFits shape }
    ensures { result ≡ op_of shape.entry }
{
    match shape {
        Shape::Drawn(figure, stroke) => Op::Drawn(figure, stroke),
        Shape::Text { x, y, bytes } => Op::Text {
            x,
            y,
            text: Text::new(bytes),
        },
        Shape::Aimed(change, target) => Op::Aimed(change, target),
    }
}

impl Drawop {
    /// The drawop of this name, time and shape, or the first fault of the shape: `Coordinate`,
    /// `Glyph`, `TextLength`, `TextByte`, `TargetZero` or `TargetSelf`, in this order.
    #[inline(always)]
    pub fn new(name: Name, time: u64, shape: Shape<'_>) -> Result<Drawop, FieldFault>
        ensures drawop { let op = op_of shape.entry in result ≡
            value_unless (op_fault name op) (record { name = name; time = time; op = op }) }
        ensures lawful { OnOk result (IsLawful name (op_of shape.entry)) }
    {
        if let Some(fault) = fault_of(name, &shape) {
            return Err(fault);
        }
        Ok(Drawop::from_parts(name, time, op_from(shape)))
    }
}
