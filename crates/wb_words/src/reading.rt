//! Datagrams from words.

ghost use Rattle.std.specs.Prelude.{◌≡◌, ◌⊎◌, IfOk};
ghost use Rattle.wb_codec.specs.declared.datagram.Datagram.{Datagram as DatagramValue};
ghost use Rattle.wb_words.specs.Rests.{words_left};
ghost use Rattle.wb_words.specs.Grammar.{Says};
ghost use Rattle.wb_words.specs.Reading.{MayGive, draw_at, session_at, request_at, ask_pages_at, page_state_at, is_kind, begins_datagram, datagram_at, reading};

use crate::drawing::drawop_of;
use crate::entries::{after_marks, entries_of};
use crate::fault::{WordFault, WordsFault, WrongWord};
use crate::fields::{name_of, named, page_of, u32_of, u64_of};
use crate::rest::{Rest, first_word, next_word, no_word};
use std::alloc::Global;
use wb_codec::Datagram;
use wb_names::Marks;

// Each of these reads the words after the first, of one kind of datagram.

#[tactic(auto, unfolding(crate::specs::Reading::draw_at))]
fn draw_of(alloc: Global, rest: Rest<'_>) -> Result<Datagram, WordsFault>
    ensures { MayGive (λ v. v) result (draw_at (words_left rest.entry)) }
{
    Ok(Datagram::Draw(drawop_of(alloc, rest)?))
}

#[tactic(auto, unfolding(crate::specs::Reading::session_at))]
fn session_of(alloc: Global, rest: Rest<'_>) -> Result<Datagram, WordsFault>
    ensures { MayGive (λ v. v) result (session_at (words_left rest.entry)) }
{
    let (sender, rest) = u32_of(2, rest)?;
    let (sent, rest) = u64_of(3, rest)?;
    let (page, rest) = page_of(4, rest)?;
    let marks: Marks = entries_of(alloc, 5, rest)?;
    let place = 5 + marks.as_slice().len() as u32;
    let echoes = entries_of(alloc, place, after_marks(rest))?;
    Ok(Datagram::Session {
        sender,
        sent,
        page,
        marks,
        echoes,
    })
}

#[tactic(auto, unfolding(crate::specs::Reading::request_at))]
fn request_of(rest: Rest<'_>) -> Result<Datagram, WrongWord>
    ensures { result ≡ request_at (words_left rest.entry) }
{
    let (asker, rest) = u32_of(2, rest)?;
    let (fields, rest) = name_of(3, rest)?;
    let name = named(5, fields)?;
    no_word(6, rest)?;
    Ok(Datagram::Request { asker, name })
}

#[tactic(auto, unfolding(crate::specs::Reading::ask_pages_at))]
fn ask_pages_of(rest: Rest<'_>) -> Result<Datagram, WrongWord>
    ensures { result ≡ ask_pages_at (words_left rest.entry) }
{
    let (asker, rest) = u32_of(2, rest)?;
    no_word(3, rest)?;
    Ok(Datagram::AskPages { asker })
}

#[tactic(auto, unfolding(crate::specs::Reading::page_state_at))]
fn page_state_of(alloc: Global, rest: Rest<'_>) -> Result<Datagram, WordsFault>
    ensures { MayGive (λ v. v) result (page_state_at (words_left rest.entry)) }
{
    let (sender, rest) = u32_of(2, rest)?;
    let (page, rest) = page_of(3, rest)?;
    let marks: Marks = entries_of(alloc, 4, rest)?;
    let place = 4 + marks.as_slice().len() as u32;
    no_word(place, after_marks(rest))?;
    Ok(Datagram::PageState {
        sender,
        page,
        marks,
    })
}

/// Whether a word tells the kind of a datagram.
#[tactic(auto, unfolding(crate::specs::Reading::is_kind))]
fn is_kind(word: &[u8]) -> bool
    ensures { result ≡ is_kind word.now }
{
    word == b"draw".as_slice()
        || word == b"session-message".as_slice()
        || word == b"request".as_slice()
        || word == b"ask-pages".as_slice()
        || word == b"page-state".as_slice()
}

/// Whether the first word of a line tells the kind of a datagram and others follow: the line is
/// meant as one in words.
pub fn begins_datagram(line: &[u8]) -> bool
    ensures { result ≡ begins_datagram line.now }
{
    let (word, rest) = first_word(line);
    is_kind(word) && next_word(2, rest).is_ok()
}

/// The datagram of the kind that the first word tells.
#[tactic(auto, unfolding(crate::specs::Reading::datagram_at))]
fn datagram_of(alloc: Global, word: &[u8], rest: Rest<'_>) -> Result<Datagram, WordsFault>
    ensures { MayGive (λ v. v) result (datagram_at word.now (words_left rest.entry)) }
{
    if word == b"draw".as_slice() {
        draw_of(alloc, rest)
    } else if word == b"session-message".as_slice() {
        session_of(alloc, rest)
    } else if word == b"request".as_slice() {
        Ok(request_of(rest)?)
    } else if word == b"ask-pages".as_slice() {
        Ok(ask_pages_of(rest)?)
    } else if word == b"page-state".as_slice() {
        page_state_of(alloc, rest)
    } else {
        Err(WordsFault::Word(WordFault::Unknown.at(1)))
    }
}

/// The datagram that a line of words says, which stands without its end; or the first word from the
/// left that is wrong, or `Memory` if a text or a list finds none.
#[tactic(auto, using(crate::proofs::SpellingLaws::first_read, crate::proofs::SpellingLaws::answer_found))]
pub fn read_words(alloc: Global, line: &[u8]) -> Result<Datagram, WordsFault>
    ensures found { IfOk result (Says line.now) }
    ensures only { (v : DatagramValue) → Says line.now v →
        (result ≡ Ok v) ⊎ (result ≡ Err WordsFault.Memory) }
    ensures fault { MayGive (λ v. v) result (reading line.now) }
{
    let (word, rest) = first_word(line);
    datagram_of(alloc, word, rest)
}
