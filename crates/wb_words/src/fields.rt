//! The fields of a datagram from words.

ghost use Rattle.std.specs.Prelude.{◌≡◌, ◌≤◌, IfOk};
ghost use Rattle.wb_words.specs.Words.{number_in, pair_in, most32, most64};
ghost use Rattle.wb_words.specs.Rests.{words_left};
ghost use Rattle.wb_words.specs.Reading.{Gives, number_at, page_at, glyph_at, name_at, named};

use crate::fault::{WordFault, WrongWord};
use crate::number::number_in;
use crate::rest::{Rest, next_word, split_once};
use wb_names::{MAX_COORDINATE, MAX_MOMENT, Name, PageId};

// Each of these reads a field from the word at a place, and gives what follows it.

/// A number up to `most`.
#[tactic(auto, unfolding(crate::specs::Reading::number_at))]
fn number_of(place: u32, most: u64, rest: Rest<'_>) -> Result<(u64, Rest<'_>), WrongWord>
    ensures number { Gives (λ x. (x.0, words_left x.1)) result
        (number_at place most (words_left rest.entry)) }
    ensures bound { IfOk result (λ x. x.0 ≤ most) }
{
    let (word, rest) = next_word(place, rest)?;
    match number_in(word, most) {
        Some(number) => Ok((number, rest)),
        None => Err(WordFault::Number.at(place)),
    }
}

/// A moment in microseconds, below 2^48.
pub(crate) fn moment_of(place: u32, rest: Rest<'_>) -> Result<(u64, Rest<'_>), WrongWord>
    ensures number { Gives (λ x. (x.0, words_left x.1)) result
        (number_at place MAX_MOMENT (words_left rest.entry)) }
    ensures bound { IfOk result (λ x. x.0 ≤ MAX_MOMENT) }
{
    number_of(place, MAX_MOMENT, rest)
}

/// A number of 64 bits.
pub(crate) fn u64_of(place: u32, rest: Rest<'_>) -> Result<(u64, Rest<'_>), WrongWord>
    ensures { Gives (λ x. (x.0, words_left x.1)) result
        (number_at place most64 (words_left rest.entry)) }
{
    number_of(place, u64::MAX, rest)
}

/// A number of 32 bits.
pub(crate) fn u32_of(place: u32, rest: Rest<'_>) -> Result<(u32, Rest<'_>), WrongWord>
    ensures { Gives (λ x. (x.0, words_left x.1)) result
        (number_at place most32 (words_left rest.entry)) }
{
    let (number, rest) = number_of(place, u64::from(u32::MAX), rest)?;
    Ok((number as u32, rest))
}

/// A coordinate, in cells.
pub(crate) fn coordinate_of(place: u32, rest: Rest<'_>) -> Result<(u16, Rest<'_>), WrongWord>
    ensures { Gives (λ x. (x.0, words_left x.1)) result
        (number_at place MAX_COORDINATE (words_left rest.entry)) }
{
    let (number, rest) = number_of(place, u64::from(MAX_COORDINATE), rest)?;
    Ok((number as u16, rest))
}

/// The number of 32 bits that a word is.
pub(crate) fn u32_in(word: &[u8]) -> Option<u32>
    ensures { result ≡ number_in most32 word.now }
{
    let number = number_in(word, u64::from(u32::MAX))?;
    Some(number as u32)
}

/// The two numbers of 32 bits that a word is, with the mark between them.
#[tactic(auto, unfolding(crate::specs::Words::pair_in))]
pub(crate) fn pair_in(word: &[u8], mark: u8) -> Option<(u32, u32)>
    ensures { result ≡ pair_in mark word.now }
{
    let (first, second) = split_once(word, mark)?;
    Some((u32_in(first)?, u32_in(second)?))
}

/// A page.
#[tactic(auto, unfolding(crate::specs::Reading::page_at, crate::specs::Words::page_in))]
pub(crate) fn page_of(place: u32, rest: Rest<'_>) -> Result<(PageId, Rest<'_>), WrongWord>
    ensures { Gives (λ x. (x.0, words_left x.1)) result (page_at place (words_left rest.entry)) }
{
    let (word, rest) = next_word(place, rest)?;
    match pair_in(word, b'/') {
        Some((creator, number)) => Ok((PageId { creator, number }, rest)),
        None => Err(WordFault::Page.at(place)),
    }
}

/// A glyph.
#[tactic(auto, unfolding(crate::specs::Reading::glyph_at))]
pub(crate) fn glyph_of(place: u32, rest: Rest<'_>) -> Result<(u8, Rest<'_>), WrongWord>
    ensures { Gives (λ x. (x.0, words_left x.1)) result (glyph_at place (words_left rest.entry)) }
{
    let (word, rest) = next_word(place, rest)?;
    match word {
        [glyph] => Ok((*glyph, rest)),
        _ => Err(WordFault::Glyph.at(place)),
    }
}

/// The fields of a name, whose number may be 0.
#[derive(Clone, Copy)]
pub(crate) struct NameFields {
    source: u32,
    page: PageId,
    seq: u32,
}

/// The fields of a name, whose source stands at the place.
#[tactic(auto, unfolding(crate::specs::Reading::name_at))]
pub(crate) fn name_of(place: u32, rest: Rest<'_>) -> Result<(NameFields, Rest<'_>), WrongWord>
    requires { place ≤ 3 }
    ensures { Gives (λ x.
        (record { source = x.0.source; page = x.0.page; seq = x.0.seq }, words_left x.1)) result
        (name_at place (words_left rest.entry)) }
{
    let (source, rest) = u32_of(place, rest)?;
    let (page, rest) = page_of(place + 1, rest)?;
    let (seq, rest) = u32_of(place + 2, rest)?;
    Ok((NameFields { source, page, seq }, rest))
}

/// The name of these fields, the last of which stands at the place.
pub(crate) fn named(place: u32, fields: NameFields) -> Result<Name, WrongWord>
    ensures { result ≡
        named place (record { source = fields.source; page = fields.page; seq = fields.seq }) }
{
    match Name::new(fields.source, fields.page, fields.seq) {
        Ok(name) => Ok(name),
        Err(fault) => Err(WordFault::Field(fault).at(place)),
    }
}
