//! Drawops from bytes.

ghost use Rattle.std.specs.Prelude.{◌≡◌};
ghost use Rattle.std.specs.Result.{result_err};
ghost use Rattle.wb_names.specs.Shapes.{op_of};
ghost use Rattle.wb_codec.specs.Kinds.{op_kind_of as op_kind_of_number};
ghost use Rattle.wb_codec.specs.Reading.{Gives, stroke_at, text_at, target_at, fields_at, kind_in_version, op_at, drawop_at};
ghost use Rattle.wb_codec.specs.TextLengths.{has_length, fault_at_length, drawop_in_version};

use crate::fault::ReadFault;
use crate::fields::{NameFields, name_of, u8_of, u16_of, u32_of, u64_of};
use crate::version::{Version, has_kind, op_kind_of};
use wb_names::{Change, Drawop, FieldFault, Figure, Name, OpKind, Shape, Stroke, Target, Text};

// Each reader takes an operation from the front, not yet checked, and gives the bytes
// after it.

#[inline(always)]
#[tactic(auto, unfolding(crate::specs::Reading::stroke_at))]
fn stroke_of(figure: Figure, bytes: &[u8]) -> Result<(Shape<'_>, &[u8]), ReadFault>
    ensures { Gives (λ x. (op_of x.0, x.1.now)) result (stroke_at figure bytes.now) }
{
    let (x0, rest) = u16_of(bytes)?;
    let (y0, rest) = u16_of(rest)?;
    let (x1, rest) = u16_of(rest)?;
    let (y1, rest) = u16_of(rest)?;
    let (glyph, rest) = u8_of(rest)?;
    let stroke = Stroke {
        x0,
        y0,
        x1,
        y1,
        glyph,
    };
    Ok((Shape::Drawn(figure, stroke), rest))
}

#[inline(always)]
#[tactic(auto, unfolding(crate::specs::Reading::text_at))]
fn text_of(bytes: &[u8]) -> Result<(Shape<'_>, &[u8]), ReadFault>
    ensures { Gives (λ x. (op_of x.0, x.1.now)) result (text_at bytes.now) }
{
    let (x, rest) = u16_of(bytes)?;
    let (y, rest) = u16_of(rest)?;
    let (n, rest) = u8_of(rest)?;
    if rest.len() < n as usize {
        return Err(ReadFault::Length);
    }
    let (bytes, rest) = rest.split_at(n as usize);
    Ok((Shape::Text { x, y, bytes }, rest))
}

#[inline(always)]
#[tactic(auto, unfolding(crate::specs::Reading::target_at))]
fn target_of(change: Change, bytes: &[u8]) -> Result<(Shape<'_>, &[u8]), ReadFault>
    ensures { Gives (λ x. (op_of x.0, x.1.now)) result (target_at change bytes.now) }
{
    let (source, rest) = u32_of(bytes)?;
    let (seq, rest) = u32_of(rest)?;
    Ok((Shape::Aimed(change, Target { source, seq }), rest))
}

/// The fields of an operation of this kind.
#[inline(always)]
#[tactic(auto, unfolding(crate::specs::Reading::fields_at))]
fn fields_of(kind: OpKind, bytes: &[u8]) -> Result<(Shape<'_>, &[u8]), ReadFault>
    ensures { Gives (λ x. (op_of x.0, x.1.now)) result (fields_at kind bytes.now) }
{
    match kind {
        OpKind::Drawn(figure) => stroke_of(figure, bytes),
        OpKind::Text => text_of(bytes),
        OpKind::Aimed(change) => target_of(change, bytes),
    }
}

/// The kind of operation with this number, if the version has it.
#[inline(always)]
fn kind_of_number(version: Version, number: u8) -> Result<OpKind, ReadFault>
    ensures { result ≡ kind_in_version version (op_kind_of_number number) }
{
    let kind = op_kind_of(number).ok_or(ReadFault::OpKind)?;
    if !has_kind(version, kind) {
        return Err(ReadFault::OpKind);
    }
    Ok(kind)
}

#[inline(always)]
#[tactic(auto, unfolding(crate::specs::Reading::op_at))]
fn shape_of(version: Version, bytes: &[u8]) -> Result<(Shape<'_>, &[u8]), ReadFault>
    ensures { Gives (λ x. (op_of x.0, x.1.now)) result (op_at version bytes.now) }
{
    let (number, rest) = u8_of(bytes)?;
    let kind = kind_of_number(version, number)?;
    fields_of(kind, rest)
}

/// Whether the version says texts of this length. Other operations have no length.
#[inline(always)]
fn is_length_said(version: Version, shape: &Shape<'_>) -> bool
    ensures { result ≡ has_length version (op_of shape.now) }
{
    let Shape::Text { bytes, .. } = *shape else {
        return true;
    };
    match version {
        Version::One => 1 <= bytes.len() && bytes.len() <= 40,
        Version::Two => 41 <= bytes.len() && bytes.len() <= Text::MAX_LEN,
    }
}

/// The fault of a text whose length the version does not say: it stands where lengths are checked,
/// after the coordinates and before the bytes.
#[inline(always)]
fn length_fault(made: &Result<Drawop, FieldFault>) -> FieldFault
    ensures { result ≡ fault_at_length (result_err made.now) }
{
    match made {
        Err(FieldFault::Coordinate) => FieldFault::Coordinate,
        _ => FieldFault::TextLength,
    }
}

/// The drawop of these fields, which are checked in their order.
#[inline(always)]
fn drawop_from(
    version: Version,
    fields: NameFields,
    time: u64,
    shape: Shape<'_>,
) -> Result<Drawop, ReadFault>
    ensures { result ≡ drawop_in_version version (record {
      source = fields.source;
      page = fields.page;
      seq = fields.seq;
    }) time (op_of shape.entry) }
{
    let name = Name::new(fields.source, fields.page, fields.seq)?;
    let made = Drawop::new(name, time, shape);
    if !is_length_said(version, &shape) {
        return Err(ReadFault::Field(length_fault(&made)));
    }
    let drawop = made?;
    Ok(drawop)
}

/// A drawop that takes all of the bytes.
#[inline(always)]
#[tactic(auto, unfolding(crate::specs::Reading::drawop_at))]
pub(crate) fn drawop_of(version: Version, bytes: &[u8]) -> Result<Drawop, ReadFault>
    ensures { result ≡ drawop_at version bytes.now }
{
    let (fields, rest) = name_of(bytes)?;
    let (time, rest) = u64_of(rest)?;
    let (shape, rest) = shape_of(version, rest)?;
    if !rest.is_empty() {
        return Err(ReadFault::Length);
    }
    drawop_from(version, fields, time, shape)
}
