//! Why a value or a list is refused.

ghost use Rattle.std.specs.Prelude.{◌≡◌};

use std::{error, fmt};
use thiserror::Error;

/// Why a name, a drawop or a mark is refused: the first fault in the order of the variants.
#[derive(Clone, Copy, Debug, PartialEq, Eq)]
pub enum FieldFault {
    /// A sequence number or a mark's number is 0: they begin at 1.
    SeqZero,
    /// A coordinate is over 4095 cells.
    Coordinate,
    /// The glyph is not a visible character of ASCII, `!` to `~`.
    Glyph,
    /// A text has no bytes, or over 64.
    TextLength,
    /// A byte of a text is not a printable character of ASCII, space to `~`.
    TextByte,
    /// A delete or a restore names the sequence number 0.
    TargetZero,
    /// A delete or a restore names itself.
    TargetSelf,
}

impl FieldFault {
    ghost use Rattle.wb_names.specs.Faults.{field_code};
    ghost use Rattle.wb_names.specs.FaultTexts.{field_text};

    /// The number of the fault, from 1.
    pub fn code(&self) -> u32
        ensures { result ≡ field_code self.now }
    {
        match self {
            FieldFault::SeqZero => 1,
            FieldFault::Coordinate => 2,
            FieldFault::Glyph => 3,
            FieldFault::TextLength => 4,
            FieldFault::TextByte => 5,
            FieldFault::TargetZero => 6,
            FieldFault::TargetSelf => 7,
        }
    }

    /// The text of the fault.
    pub fn text(&self) -> &'static str
        ensures { result.now ≡ field_text self.now }
    {
        match self {
            FieldFault::SeqZero => "sequence number 0",
            FieldFault::Coordinate => "coordinate over 4095",
            FieldFault::Glyph => "glyph outside ! to ~",
            FieldFault::TextLength => "text of 0 or over 64 bytes",
            FieldFault::TextByte => "text byte outside space to ~",
            FieldFault::TargetZero => "target sequence number 0",
            FieldFault::TargetSelf => "target is the drawop itself",
        }
    }
}

impl fmt::Display for FieldFault {
    ghost use Rattle.std.specs.Prelude.{Some};
    ghost use Rattle.wb_names.specs.FaultTexts.{field_text};

    ghost output = { λ e. Some (field_text e) };

    fn fmt<W: fmt::Write>(&self, f: &mut fmt::Formatter<W>) -> fmt::Result {
        f.write_str(self.text())
    }
}

impl error::Error for FieldFault {}

/// Why a list of marks or echoes is refused: the first fault in the order of the variants.
#[derive(Clone, Copy, Debug, PartialEq, Eq, Error)]
pub enum ListFault {
    /// The list has over 65,535 members, more than a count of two bytes can tell.
    #[error("over 65535 members")]
    TooMany,
    /// The sources do not ascend, or one stands twice.
    #[error("sources out of order")]
    Order,
}

impl ListFault {
    ghost use Rattle.wb_names.specs.Faults.{list_code};

    /// The number of the fault, from 1.
    pub fn code(&self) -> u32
        ensures { result ≡ list_code self.now }
    {
        match self {
            ListFault::TooMany => 1,
            ListFault::Order => 2,
        }
    }
}
