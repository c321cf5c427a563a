//! The words of a line, one after another.

ghost use Rattle.std.specs.Prelude.{◌≡◌, ◌∷◌};
ghost use Rattle.std.specs.Option.{option_map};
ghost use Rattle.wb_words.specs.Words.{words, split_once};
ghost use Rattle.wb_words.specs.Rests.{words_left};
ghost use Rattle.wb_words.specs.Reading.{Gives, word_at, end_at};

use crate::fault::{WordFault, WrongWord};

/// What follows a word of a line.
#[derive(Clone, Copy)]
pub(crate) enum Rest<'a> {
    /// The line ends.
    End,
    /// A space, and words of which these are the bytes.
    Words(&'a [u8]),
}

/// What stands before and after the first byte that is the mark.
pub fn split_once(bytes: &[u8], mark: u8) -> Option<(&[u8], &[u8])>
    ensures { option_map (λ x. (x.0.now, x.1.now)) result ≡ split_once mark bytes.now }
{
    for (place, byte) in bytes.iter().enumerate() {
        if *byte == mark {
            return Some((&bytes[..place], &bytes[place + 1..]));
        }
    }
    None
}

/// The first word of some bytes, and what follows it.
#[tactic(auto, using(crate::proofs::Splitting::words_split_once, crate::proofs::Splitting::words_whole))]
pub(crate) fn first_word(bytes: &[u8]) -> (&[u8], Rest<'_>)
    ensures { words bytes.now ≡ result.0.now ∷ words_left result.1 }
{
    match split_once(bytes, b' ') {
        Some((word, after)) => (word, Rest::Words(after)),
        None => (bytes, Rest::End),
    }
}

/// The word at a place, and what follows it.
pub(crate) fn next_word<'a>(place: u32, rest: Rest<'a>) -> Result<(&'a [u8], Rest<'a>), WrongWord>
    ensures { Gives (λ x. (x.0.now, words_left x.1)) result
        (word_at place (words_left rest.entry)) }
{
    match rest {
        Rest::Words(bytes) => Ok(first_word(bytes)),
        Rest::End => Err(WordFault::Missing.at(place)),
    }
}

/// That the line ends before a place.
pub(crate) fn no_word(place: u32, rest: Rest<'_>) -> Result<(), WrongWord>
    ensures { Gives (λ x. x) result (end_at place (words_left rest.entry) tt) }
{
    match rest {
        Rest::End => Ok(()),
        Rest::Words(_) => Err(WordFault::Extra.at(place)),
    }
}
