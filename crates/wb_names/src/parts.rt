//! What operations are made of: what is drawn between two ends, a text at a place, and a change of
//! a target.

ghost use Rattle.std.specs.Prelude.{◌≡◌};
ghost use Rattle.wb_names.specs.Kinds.{op_kind};
ghost use Rattle.wb_names.specs.Drawing.{text_of};

use crate::text::Text;

/// What is drawn between two ends.
#[derive(Clone, Copy, Debug, PartialEq, Eq)]
pub enum Figure {
    /// A line between the ends, both of them drawn.
    Line,
    /// The four sides of the rectangle of which the ends are opposite corners.
    Frame,
}

/// Two ends in cells, x to the right and y down, and the character that is drawn.
#[derive(Clone, Copy, Debug, PartialEq, Eq)]
pub struct Stroke {
    pub x0: u16,
    pub y0: u16,
    pub x1: u16,
    pub y1: u16,
    pub glyph: u8,
}

/// What becomes of a target.
#[derive(Clone, Copy, Debug, PartialEq, Eq)]
pub enum Change {
    /// It is hidden, unless a later restore of it is held.
    Delete,
    /// It is shown again, unless a later delete of it is held.
    Restore,
}

/// A source and a sequence number, which tell a drawop from the others of its page.
#[derive(Clone, Copy, Debug, PartialEq, Eq, Hash)]
pub struct Target {
    pub source: u32,
    pub seq: u32,
}

/// What an operation does, without its fields. Each kind has a number in the format and a word of
/// its own.
#[derive(Clone, Copy, Debug)]
pub enum OpKind {
    /// Draws between two ends.
    Drawn(Figure),
    /// Draws a row of characters.
    Text,
    /// Hides or shows another drawop.
    Aimed(Change),
}

/// What a drawop does. Coordinates are cells from 0 to 4095; a glyph is a visible character of
/// ASCII.
#[derive(Clone, Copy, Debug)]
pub enum Op {
    /// Draws between two ends.
    Drawn(Figure, Stroke),
    /// Draws a row of 1 to 64 characters that begins at a point.
    Text { x: u16, y: u16, text: Text },
    /// Hides or shows another drawop of its page.
    Aimed(Change, Target),
}

impl Op {
    /// What it does, without its fields.
    #[inline(always)]
    pub fn kind(&self) -> OpKind
        ensures { result ≡ op_kind self.now }
    {
        match self {
            Op::Drawn(figure, _) => OpKind::Drawn(*figure),
            Op::Text { .. } => OpKind::Text,
            Op::Aimed(change, _) => OpKind::Aimed(*change),
        }
    }

    /// The bytes of a text, and none if the operation is not a text.
    #[inline(always)]
    pub fn text(&self) -> &[u8]
        ensures { result.now ≡ text_of self.now }
    {
        match self {
            Op::Text { text, .. } => text.as_slice(),
            _ => &[],
        }
    }
}
