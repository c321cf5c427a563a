//! The texts of faults of words.
ghost use Rattle.std.specs.Prelude.{◌≡◌};
ghost use Rattle.wb_words.specs.FaultText.{word_text};

use crate::fault::WordFault;

/// The text of a fault of a word.
pub(crate) fn word_text(fault: WordFault) -> &'static str
    ensures { result.now ≡ word_text fault }
{
    match fault {
        WordFault::Missing => "missing",
        WordFault::Extra => "one too many",
        WordFault::Unknown => "unknown",
        WordFault::Operation => "operation",
        WordFault::Number => "number",
        WordFault::Page => "page",
        WordFault::Glyph => "glyph",
        WordFault::Text => "text",
        WordFault::Mark => "mark",
        WordFault::Echo => "echo",
        WordFault::Order => "order",
        WordFault::TooMany => "too many",
        WordFault::Field(fault) => fault.text(),
    }
}
