//! Texts that have a line for each of a list.
ghost use Rattle.std.specs.Prelude.{◌≡◌, List, ℕ, IfOk, flat_map};
ghost use Rattle.std.specs.String.{string_bytes};
ghost use Rattle.wb_commands.specs.Answers.{counted_list, pair_line};

use std::alloc::{AllocError, Global};
use wb_codec::Datagram;
use wb_names::{Drawop, Gap, Mark, PageId};
use wb_words::write_words;

/// What has a line of its own in a text.
pub(crate) trait Lined {
    /// The characters of its line.
    ghost spelled: { Self → List ℕ };

    /// Its line, with a line feed.
    fn line(&self, alloc: Global) -> Result<Vec<u8>, AllocError>
        ensures { IfOk result (λ text. text.items ≡ spelled self.now) };
}

/// Two numbers on a line.
fn pair_line(alloc: Global, a: u32, b: u32) -> Result<String, AllocError>
    ensures { IfOk result (λ text. string_bytes text ≡ pair_line a b) }
{
    format!(in alloc; "{a} {b}\n")
}

/// Its source, its first number and its last.
impl Lined for Gap {
    ghost use Rattle.wb_commands.specs.Answers.{gap_line};

    ghost spelled = { gap_line };

    fn line(&self, alloc: Global) -> Result<Vec<u8>, AllocError> {
        let Gap {
            source,
            first,
            last,
        } = *self;
        Ok(format!(in alloc; "{source} {first} {last}\n")?.into_bytes())
    }
}

/// Its source and its number.
impl Lined for Mark {
    ghost use Rattle.wb_commands.specs.Answers.{mark_line};

    ghost spelled = { mark_line };

    fn line(&self, alloc: Global) -> Result<Vec<u8>, AllocError> {
        Ok(pair_line(alloc, self.source(), self.high())?.into_bytes())
    }
}

/// Its creator and its number.
impl Lined for PageId {
    ghost use Rattle.wb_commands.specs.Answers.{page_line};

    ghost spelled = { page_line };

    fn line(&self, alloc: Global) -> Result<Vec<u8>, AllocError> {
        Ok(pair_line(alloc, self.creator, self.number)?.into_bytes())
    }
}

/// It is said in words.
impl Lined for Drawop {
    ghost use Rattle.wb_commands.specs.Answers.{drawop_line};

    ghost spelled = { drawop_line };

    fn line(&self, alloc: Global) -> Result<Vec<u8>, AllocError> {
        let mut line = write_words(alloc, &Datagram::Draw(*self))?;
        line.push(b'\n')?;
        Ok(line)
    }
}

/// A line for each, in their order.
fn lines_text<T: Lined>(alloc: Global, items: &[T]) -> Result<Vec<u8>, AllocError>
    ensures { IfOk result (λ text. text.items ≡ flat_map T.spelled items.now) }
{
    let mut text = Vec::new(alloc);
    for item in items {
        text.extend_from_slice(item.line(alloc)?.as_slice())?;
    }
    Ok(text)
}

/// A word with a space after it and how many there are, on a line; and a line for each, in their
/// order.
pub(crate) fn counted_text<T: Lined>(
    alloc: Global,
    word: &str,
    items: &[T],
) -> Result<Vec<u8>, AllocError>
    ensures { IfOk result (λ text. text.items ≡ counted_list word.now T.spelled items.now) }
{
    let count = items.len();
    let mut text = format!(in alloc; "{word}{count}\n")?.into_bytes();
    text.extend_from_slice(lines_text(alloc, items)?.as_slice())?;
    Ok(text)
}
