//! The words of a line.
ghost use Rattle.std.specs.Prelude.{◌≡◌, ◌≢◌, ◌<◌, [], ◌∷◌, length, slice_index, MatchOption};
ghost use Rattle.wb_lines.specs.Words.{words};

use memchr::memchr;

fn skip_spaces(line: &[u8]) -> &[u8]
    ensures same_words { words result.now ≡ words line.now }
    ensures begins { 0 < length result.now → slice_index result.now 0 ≢ 32 }
{
    for (start, byte) in line.iter().enumerate() {
        if *byte != b' ' {
            return &line[start..];
        }
    }
    &[]
}

fn split_word(text: &[u8]) -> (&[u8], &[u8])
    requires some { 0 < length text.now }
    requires begins { slice_index text.now 0 ≢ 32 }
    ensures { words text.now ≡ result.0.now ∷ words result.1.now }
{
    let end = memchr(b' ', text).unwrap_or(text.len());
    text.split_at(end)
}

/// The first word, and what follows it.
pub fn next_word(line: &[u8]) -> Option<(&[u8], &[u8])>
    ensures { MatchOption result (words line.now ≡ [])
        (λ x. words line.now ≡ x.0.now ∷ words x.1.now) }
{
    let text = skip_spaces(line);
    if text.is_empty() {
        return None;
    }
    Some(split_word(text))
}
