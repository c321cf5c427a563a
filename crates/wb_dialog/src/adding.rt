//! What the lines say that add a drawing.
ghost use Rattle.std.specs.Prelude.{◌≡◌, IfOk, codes};
ghost use Rattle.wb_names.specs.Moments.{IsMoment};
ghost use Rattle.wb_words.specs.Adding.{adding_reading};
ghost use Rattle.wb_dialog.specs.Adding.{add_line, added, begins_with_page, second_wrong, timed, untimed, unwritten, without_time};
ghost use Rattle.wb_dialog.specs.Lines.{IsSaidWithin};
ghost use Rattle.wb_dialog.specs.Words.{behind as words_behind};

use crate::judged_line::JudgedLine;
use crate::line::DriverLine;
use crate::said::Said;
use crate::words::behind;
use std::alloc::{AllocError, Global};
use wb_commands::LineFault;
use wb_judging::Call;
use wb_words::{Adding, WordFault, WordsFault, WrongWord, read_adding, split_once};

/// The drawing that words say, or the first that is wrong.
fn drawing(alloc: Global, words: &[u8]) -> Result<Result<Adding, WrongWord>, AllocError>
    ensures reading { IfOk result (λ read. read ≡ adding_reading words.now) }
    ensures moment { IfOk result (λ read. IfOk read (λ a. IsMoment a.moment)) }
{
    match read_adding(alloc, words) {
        Ok(adding) => Ok(Ok(adding)),
        Err(WordsFault::Word(wrong)) => Ok(Err(wrong)),
        Err(WordsFault::Memory) => Err(AllocError),
    }
}

/// Why a host refuses a line whose second word it does not have: the first word, if that is wrong
/// too.
fn second_wrong(other: WordFault, read: &Result<Adding, WrongWord>) -> LineFault
    ensures { result ≡ second_wrong other read.now }
{
    let second = WrongWord {
        place: 2,
        fault: other,
    };
    match read {
        Ok(_) => LineFault::Word(second),
        Err(wrong) => LineFault::Word(if wrong.place <= 1 { *wrong } else { second }),
    }
}

/// A drawing with its time.
fn timed(alloc: Global, other: WordFault, words: &[u8]) -> Result<Said, AllocError>
    ensures line { IfOk result (λ said. said ≡ timed other words.now) }
    ensures within { IfOk result IsSaidWithin }
{
    let read = drawing(alloc, words)?;
    let other = second_wrong(other, &read);
    match read {
        Ok(adding) => Ok(Said::Unjudged(Ok(DriverLine::Add(adding)), other)),
        Err(wrong) => Ok(Said::Unjudged(Err(LineFault::Word(wrong)), other)),
    }
}

/// A wrong word of a drawing at a time, by its place where the time is not written.
fn unwritten(wrong: WrongWord) -> WrongWord
    ensures { result ≡ unwritten wrong }
{
    WrongWord {
        place: wrong.place.saturating_sub(1).max(1),
        fault: wrong.fault,
    }
}

/// What a drawing without a time says, by one at the time 0.
fn without_time(read: Result<Adding, WrongWord>) -> Result<JudgedLine, LineFault>
    ensures { result ≡ without_time read }
{
    match read {
        Ok(
            Adding {
                moment,
                page,
                op,
                ..
            },
        ) => Ok(JudgedLine::Call(Call::UserDrew {
            now: moment,
            page,
            op,
        })),
        Err(wrong) => Err(LineFault::Word(unwritten(wrong))),
    }
}

/// A drawing without a time: its host has the time of day.
fn untimed(alloc: Global, now: &[u8], words: &[u8]) -> Result<Said, AllocError>
    ensures line { IfOk result (λ said. said ≡ untimed now.now words.now) }
    ensures within { IfOk result IsSaidWithin }
{
    let mut timed = Vec::new(alloc);
    timed.extend_from_slice(now)?;
    timed.extend_from_slice(b" 0 ")?;
    timed.extend_from_slice(words)?;
    let read = drawing(alloc, timed.as_slice())?;
    let other = second_wrong(WordFault::Number, &read);
    Ok(Said::Own(without_time(read), other))
}

/// Whether the first of these words has the mark of a page.
fn begins_with_page(words: &[u8]) -> bool
    ensures { result ≡ begins_with_page words.now }
{
    match split_once(words, b' ') {
        None => split_once(words, b'/').is_some(),
        Some((word, _)) => split_once(word, b'/').is_some(),
    }
}

/// A drawing, with a time or without one.
fn added(alloc: Global, words: &[u8]) -> Result<Said, AllocError>
    ensures line { IfOk result (λ said. said ≡ added words.now) }
    ensures within { IfOk result IsSaidWithin }
{
    match split_once(words, b' ') {
        None => timed(alloc, WordFault::Missing, words),
        Some((now, rest)) => {
            if begins_with_page(rest) {
                untimed(alloc, now, rest)
            } else {
                timed(alloc, WordFault::Page, words)
            }
        }
    }
}

/// The user draws.
pub(crate) fn add_line(alloc: Global, line: &[u8]) -> Result<Said, AllocError>
    ensures line { IfOk result (λ said.
        said ≡ add_line (words_behind (codes "add") line.now)) }
    ensures within { IfOk result IsSaidWithin }
{
    match behind(line, b"add") {
        None => Ok(Said::Common(Err(LineFault::Words))),
        Some(words) => added(alloc, words),
    }
}
