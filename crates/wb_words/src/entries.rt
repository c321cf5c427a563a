//! Lists of entries, as marks and echoes are, from words and to words.

ghost use Rattle.std.specs.Prelude.{◌≡◌, ◌+◌, ◌≤◌, ◌∷◌, ◌++◌, ℕ, Bool, true, false, List, Option, Result, None, IfOk, OnOk, option_map, map};
ghost use Rattle.wb_names.specs.Ascending.{is_above as above};
ghost use Rattle.wb_names.specs.declared.entries.TheConstants.{MAX_ENTRIES};
ghost use Rattle.wb_words.specs.declared.fault.WrongWord.{WrongWord as WrongWordValue};
ghost use Rattle.wb_words.specs.Words.{echo_in as echo_in_word};
ghost use Rattle.wb_words.specs.Rests.{words_left};
ghost use Rattle.wb_words.specs.Spelling.{mark_word, echo_word, tailed};
ghost use Rattle.wb_words.specs.Reading.{MayGive, mark_at, echo_at, is_echo, left_at, entries_at};

use crate::fault::{WordFault, WordsFault, WrongWord};
use crate::fields::{pair_in, u32_in};
use crate::number::number_in;
use crate::rest::{Rest, first_word, split_once};
use std::alloc::{AllocError, Global};
use wb_names::{Echo, Entries, Entry, MAX_ENTRIES, Mark};

/// An entry that a word says.
pub(crate) trait Worded: Entry {
    /// What the word at a place says. The source of the entry before is given, if there is one.
    ghost entry_at: { ℕ → Option ℕ → List ℕ → Result Self WrongWordValue };

    /// Whether a list of such entries ends before this word.
    ghost stops: { List ℕ → Bool };

    /// The word of an entry.
    ghost entry_word: { Self → List ℕ };

    /// The entry that the word at a place is, if its source is above the one before it.
    fn read(place: u32, before: Option<u32>, word: &[u8]) -> Result<Self, WrongWord>
        ensures entry { result ≡ entry_at place before word.now }
        ensures above { IfOk result (λ x. above before (Self.source x) ≡ true) }
        ensures positive { IfOk result Self.IsPositive };

    /// Whether a list of such entries ends before this word.
    fn ends(word: &[u8]) -> bool
        ensures { result ≡ stops word.now };

    /// Adds a space and the word of the entry.
    fn put(&self, alloc: Global, out: &mut Vec<u8>) -> Result<(), AllocError>
        ensures { OnOk result (out.new.items ≡ out.old.items ++ 32 ∷ entry_word self.now) };
}

#[tactic(auto, unfolding(crate::specs::Words::echo_in))]
fn echo_in(word: &[u8]) -> Option<Echo>
    ensures { result ≡ echo_in_word word.now }
{
    let (source, moments) = split_once(word, b'@')?;
    let (sent, held) = split_once(moments, b'+')?;
    let source = u32_in(source)?;
    let sent = number_in(sent, u64::MAX)?;
    let held = number_in(held, u64::MAX)?;
    Some(Echo { source, sent, held })
}

impl Worded for Mark {
    ghost entry_at = { mark_at };

    ghost stops = { is_echo };

    ghost entry_word = { mark_word };

    #[tactic(auto, unfolding(crate::specs::Reading::mark_at, crate::specs::Words::mark_in))]
    fn read(place: u32, before: Option<u32>, word: &[u8]) -> Result<Mark, WrongWord> {
        let Some((source, high)) = pair_in(word, b'=') else {
            return Err(WordFault::Mark.at(place));
        };
        match Mark::new(source, high) {
            Ok(mark) => {
                if mark.is_above(before) {
                    Ok(mark)
                } else {
                    Err(WordFault::Order.at(place))
                }
            }
            Err(fault) => Err(WordFault::Field(fault).at(place)),
        }
    }

    /// An echo ends a list of marks, by its `@`.
    fn ends(word: &[u8]) -> bool {
        split_once(word, b'@').is_some()
    }

    fn put(&self, alloc: Global, out: &mut Vec<u8>) -> Result<(), AllocError> {
        let source = self.source();
        let high = self.high();
        let text = format!(in alloc; " {source}={high}")?;
        out.extend_from_slice(text.as_bytes())
    }
}

impl Worded for Echo {
    ghost entry_at = { echo_at };

    ghost stops = { λ word. false };

    ghost entry_word = { echo_word };

    #[tactic(auto, unfolding(crate::specs::Reading::echo_at))]
    fn read(place: u32, before: Option<u32>, word: &[u8]) -> Result<Echo, WrongWord> {
        let Some(echo) = echo_in(word) else {
            return Err(WordFault::Echo.at(place));
        };
        if echo.is_above(before) {
            Ok(echo)
        } else {
            Err(WordFault::Order.at(place))
        }
    }

    /// Nothing follows echoes.
    fn ends(_word: &[u8]) -> bool {
        false
    }

    fn put(&self, alloc: Global, out: &mut Vec<u8>) -> Result<(), AllocError> {
        let Echo { source, sent, held } = *self;
        let text = format!(in alloc; " {source}@{sent}+{held}")?;
        out.extend_from_slice(text.as_bytes())
    }
}

/// The entries from a place on, up to a word at which they end.
pub(crate) fn entries_of<E: Worded>(
    alloc: Global,
    place: u32,
    rest: Rest<'_>,
) -> Result<Entries<E>, WordsFault>
    requires { place ≤ MAX_ENTRIES + 5 }
    ensures { MayGive (λ entries. entries) result
        (entries_at E.entry_at E.source E.stops place 0 None (words_left rest.entry)) }
{
    let mut entries = Vec::new(alloc);
    let mut left = rest;
    let mut before = None;
    while let Rest::Words(bytes) = left {
        let (word, after) = first_word(bytes);
        if E::ends(word) {
            break;
        }
        let here = place + entries.len() as u32;
        if entries.len() == MAX_ENTRIES {
            return Err(WordsFault::Word(WordFault::TooMany.at(here)));
        }
        let entry = E::read(here, before, word)?;
        before = Some(entry.source());
        entries.push(entry)?;
        left = after;
    }
    Ok(Entries::from_ascending(entries))
}

/// What follows the marks: the words from the first echo on.
pub(crate) fn after_marks(rest: Rest<'_>) -> Rest<'_>
    ensures { words_left result ≡ left_at is_echo (words_left rest.entry) }
{
    let mut left = rest;
    while let Rest::Words(bytes) = left {
        let (word, after) = first_word(bytes);
        if Mark::ends(word) {
            break;
        }
        left = after;
    }
    left
}

/// Adds entries, a space before each.
pub(crate) fn put_entries<E: Worded>(
    alloc: Global,
    out: &mut Vec<u8>,
    entries: &[E],
) -> Result<(), AllocError>
    ensures { OnOk result (out.new.items ≡ out.old.items ++ tailed (map E.entry_word entries.now)) }
{
    for entry in entries {
        entry.put(alloc, out)?;
    }
    Ok(())
}
