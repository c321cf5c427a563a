//! What is wrong with the digits of a line that carries a datagram as bytes.

use std::{error, fmt};
use wb_codec::ReadFault;

/// Why a word of hexadecimal digits is not a datagram for its line: the first fault in the order of
/// the variants.
#[derive(Clone, Copy, Debug, PartialEq, Eq)]
pub enum DigitsFault {
    /// The word is not an even number of hexadecimal digits.
    Hex,
    /// The bytes are not a datagram.
    Datagram(ReadFault),
    /// The datagram is of a kind that the line does not take.
    Kind,
}

impl fmt::Display for DigitsFault {
    ghost use Rattle.std.specs.Prelude.{Some};
    ghost use Rattle.wb_words.specs.FaultText.{digits_text};

    ghost output = { λ e. Some (digits_text e) };

    fn fmt<W: fmt::Write>(&self, f: &mut fmt::Formatter<W>) -> fmt::Result {
        match self {
            DigitsFault::Hex => f.write_str("hex"),
            DigitsFault::Datagram(fault) => {
                let code = fault.code();
                write!(f, "datagram {code}")
            }
            DigitsFault::Kind => f.write_str("kind"),
        }
    }
}

impl error::Error for DigitsFault {}
