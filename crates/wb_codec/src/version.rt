//! The versions of the format, and the numbers of operations in it.

ghost use Rattle.std.specs.Prelude.{◌≡◌};
ghost use Rattle.wb_codec.specs.Kinds;

use wb_names::{Change, Figure, OpKind};

/// The versions of the format. The second tells what the first cannot: restores, and texts of over
/// 40 bytes.
#[derive(Clone, Copy)]
pub(crate) enum Version {
    One,
    Two,
}

/// The number of a kind of operation.
#[inline(always)]
pub(crate) fn op_code(kind: OpKind) -> u8
    ensures { result ≡ Kinds.op_code kind }
{
    match kind {
        OpKind::Drawn(Figure::Line) => 1,
        OpKind::Drawn(Figure::Frame) => 2,
        OpKind::Text => 3,
        OpKind::Aimed(Change::Delete) => 4,
        OpKind::Aimed(Change::Restore) => 5,
    }
}

/// The kind of operation with this number.
#[inline(always)]
#[tactic(auto, unfolding(crate::specs::Kinds::op_kind_of))]
pub(crate) fn op_kind_of(number: u8) -> Option<OpKind>
    ensures { result ≡ Kinds.op_kind_of number }
{
    match number {
        1 => Some(OpKind::Drawn(Figure::Line)),
        2 => Some(OpKind::Drawn(Figure::Frame)),
        3 => Some(OpKind::Text),
        4 => Some(OpKind::Aimed(Change::Delete)),
        5 => Some(OpKind::Aimed(Change::Restore)),
        _ => None,
    }
}

/// The first version that has operations of this kind.
#[inline(always)]
pub(crate) fn first_version(kind: OpKind) -> Version
    ensures { result ≡ Kinds.first_version kind }
{
    match kind {
        OpKind::Aimed(Change::Restore) => Version::Two,
        _ => Version::One,
    }
}

/// Whether the version has operations of this kind: both have texts, of different lengths.
#[inline(always)]
pub(crate) fn has_kind(version: Version, kind: OpKind) -> bool
    ensures { result ≡ Kinds.has_kind version kind }
{
    match (kind, version, first_version(kind)) {
        (OpKind::Text, _, _) => true,
        (_, Version::One, Version::One) => true,
        (_, Version::Two, Version::Two) => true,
        _ => false,
    }
}
