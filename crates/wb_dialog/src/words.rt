//! The words of a line.
ghost use Rattle.std.specs.Prelude.{◌≡◌, ◌≤◌, IfOk, IfSome};
ghost use Rattle.std.specs.Option.{option_map};
ghost use Rattle.std.specs.Str.{bytes_eq};
ghost use Rattle.wb_lines.specs.Words.{words};
ghost use Rattle.wb_dialog.specs.Words.{behind, number_or_none, origin, six_of, three_of};

use wb_commands::{LineFault, four_words, number_word, one_word};
use wb_judge::Origin;
use wb_lines::next_word;
use wb_words::split_once;

/// Whether a word is this one. Most words are told apart by their lengths.
#[inline(always)]
pub(crate) fn is_word(word: &[u8], other: &[u8]) -> bool
    ensures { result ≡ bytes_eq word.now other.now }
{
    word.len() == other.len() && word == other
}

/// What follows `opener` and a space, if a line begins with these.
pub(crate) fn behind<'a>(line: &'a [u8], opener: &[u8]) -> Option<&'a [u8]>
    ensures { option_map (λ x. x.now) result ≡ behind opener.now line.now }
{
    match split_once(line, b' ') {
        Some((word, rest)) => {
            if is_word(word, opener) {
                Some(rest)
            } else {
                None
            }
        }
        None => None,
    }
}

/// The only three words. Of the last one, what stands before and after it too.
pub(crate) fn three_words(rest: &[u8]) -> Option<(&[u8], &[u8], &[u8])>
    ensures { option_map (λ x. (x.0.now, x.1.now, words x.2.now)) result ≡ three_of (words rest.now) }
{
    let (first, rest) = next_word(rest)?;
    let (second, rest) = next_word(rest)?;
    let _third = one_word(rest)?;
    Some((first, second, rest))
}

/// The only six words.
pub(crate) fn six_words(rest: &[u8]) -> Option<(&[u8], &[u8], &[u8], &[u8], &[u8], &[u8])>
    ensures { option_map (λ x. (x.0.now, x.1.now, x.2.now, x.3.now, x.4.now, x.5.now)) result
        ≡ six_of (words rest.now) }
{
    let (first, rest) = next_word(rest)?;
    let (second, rest) = next_word(rest)?;
    let (third, fourth, fifth, sixth) = four_words(rest)?;
    Some((first, second, third, fourth, fifth, sixth))
}

/// A number from 0, or none for `-`.
pub(crate) fn number_or_none(word: &[u8], high: u64) -> Result<Option<u64>, LineFault>
    ensures value { result ≡ number_or_none high word.now }
    ensures bound { IfOk result (λ n. IfSome n (λ m. m ≤ high)) }
{
    if is_word(word, b"-") {
        return Ok(None);
    }
    Ok(Some(number_word(word, 0, high)?))
}

/// `PLACE`, or `PLACE@OWNER`.
#[tactic(auto, unfolding(crate::specs::Words::origin_by))]
pub(crate) fn origin(word: &[u8]) -> Result<Origin, LineFault>
    ensures { result ≡ origin word.now }
{
    match split_once(word, b'@') {
        None => {
            let place = number_word(word, 0, u64::MAX)?;
            Ok(Origin { place, owner: None })
        }
        Some((place, owner)) => {
            let place = number_word(place, 0, u64::MAX)?;
            let owner = number_word(owner, 0, u64::MAX)?;
            Ok(Origin {
                place,
                owner: Some(owner),
            })
        }
    }
}
