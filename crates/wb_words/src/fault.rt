//! What is wrong with a word, and with a line.

ghost use Rattle.std.specs.Prelude.{◌≡◌};
ghost use Rattle.wb_words.specs.declared.fault.WordsFault.TheVariants as words_faults;

use crate::fault_text::word_text;
use std::alloc::{AllocError, AllocFailed};
use std::{error, fmt};
use thiserror::Error;
use wb_names::FieldFault;

/// What is wrong with a word.
#[derive(Clone, Copy, Debug, PartialEq, Eq)]
pub enum WordFault {
    /// The line ends before it.
    Missing,
    /// The line should end before it.
    Extra,
    /// The first word of the line is not a kind of datagram.
    Unknown,
    /// The word is not an operation.
    Operation,
    /// The word is not a number in its range, in decimal digits without a zero in front.
    Number,
    /// The word is not `CREATOR/NUMBER`.
    Page,
    /// The word is not one byte.
    Glyph,
    /// The rest of the line is not a text in quotes, with a backslash before each quote and each
    /// backslash in it.
    Text,
    /// The word is not `SOURCE=HIGH`.
    Mark,
    /// The word is not `SOURCE@SENT+HELD`.
    Echo,
    /// The source is not above the one before it in its list.
    Order,
    /// The list has over 65,535 members.
    TooMany,
    /// The field is out of its range.
    Field(FieldFault),
}

/// The first word of a line that is wrong, by its place from 1. A text in quotes is one word.
#[derive(Clone, Copy, Debug, PartialEq, Eq)]
pub struct WrongWord {
    pub place: u32,
    pub fault: WordFault,
}

/// Why a line was not read.
#[derive(Clone, Copy, Debug, PartialEq, Eq, Error)]
pub enum WordsFault {
    /// A word is wrong.
    #[error("{0}")]
    Word(WrongWord),
    /// Memory ran out. This says nothing of the line.
    #[error("memory")]
    Memory,
}

impl WordFault {
    /// This fault, of the word at a place.
    #[inline(always)]
    pub(crate) fn at(self, place: u32) -> WrongWord
        ensures { result ≡ record { place = place; fault = self } }
    {
        WrongWord { place, fault: self }
    }
}

impl fmt::Display for WordFault {
    ghost use Rattle.std.specs.Prelude.{Some};
    ghost use Rattle.wb_words.specs.FaultText.{word_text};

    ghost output = { λ e. Some (word_text e) };

    fn fmt<W: fmt::Write>(&self, f: &mut fmt::Formatter<W>) -> fmt::Result {
        f.write_str(word_text(*self))
    }
}

impl error::Error for WordFault {}

impl fmt::Display for WrongWord {
    ghost use Rattle.std.specs.Prelude.{Some};
    ghost use Rattle.wb_words.specs.FaultText.{wrong_text};

    ghost output = { λ e. Some (wrong_text e) };

    fn fmt<W: fmt::Write>(&self, f: &mut fmt::Formatter<W>) -> fmt::Result {
        let place = self.place;
        let text = word_text(self.fault);
        write!(f, "word {place}: {text}")
    }
}

impl error::Error for WrongWord {}

impl From<WrongWord> for WordsFault {
    ghost from_gives = { λ e f. f ≡ words_faults.Word e };

    fn from(wrong: WrongWord) -> WordsFault {
        WordsFault::Word(wrong)
    }
}

impl From<AllocError> for WordsFault {
    ghost from_gives = { λ _ f. f ≡ words_faults.Memory };

    fn from(_error: AllocError) -> WordsFault {
        WordsFault::Memory
    }
}

impl<T: Drop> From<AllocFailed<T>> for WordsFault {
    ghost from_gives = { λ _ f. f ≡ words_faults.Memory };

    fn from(_error: AllocFailed<T>) -> WordsFault {
        WordsFault::Memory
    }
}
