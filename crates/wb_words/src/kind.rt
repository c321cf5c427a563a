//! The words of the kinds of operations.

ghost use Rattle.std.specs.Prelude.{◌≡◌};
ghost use Rattle.wb_words.specs.Spelling;
ghost use Rattle.wb_words.specs.Reading;

use wb_names::{Change, Figure, OpKind};

/// The word of a kind.
pub(crate) fn kind_word(kind: OpKind) -> &'static str
    ensures { result.now ≡ Spelling.kind_word kind }
{
    match kind {
        OpKind::Drawn(Figure::Line) => "line",
        OpKind::Drawn(Figure::Frame) => "frame",
        OpKind::Text => "text",
        OpKind::Aimed(Change::Delete) => "delete",
        OpKind::Aimed(Change::Restore) => "restore",
    }
}

/// The kind with this word.
#[tactic(auto, unfolding(crate::specs::Reading::kind_in))]
pub(crate) fn kind_in(word: &[u8]) -> Option<OpKind>
    ensures { result ≡ Reading.kind_in word.now }
{
    if word == b"line".as_slice() {
        Some(OpKind::Drawn(Figure::Line))
    } else if word == b"frame".as_slice() {
        Some(OpKind::Drawn(Figure::Frame))
    } else if word == b"text".as_slice() {
        Some(OpKind::Text)
    } else if word == b"delete".as_slice() {
        Some(OpKind::Aimed(Change::Delete))
    } else if word == b"restore".as_slice() {
        Some(OpKind::Aimed(Change::Restore))
    } else {
        None
    }
}
