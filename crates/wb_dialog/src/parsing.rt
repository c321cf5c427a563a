//! What a line of a driver says: the table of first words.
ghost use Rattle.std.specs.Prelude.{◌≡◌, IfOk};
ghost use Rattle.wb_names.specs.Moments.{IsMoment};
ghost use Rattle.wb_words.specs.Reading.{reading as reading_words};
ghost use Rattle.wb_lines.specs.Words.{words};
ghost use Rattle.wb_commands.specs.declared.fault.LineFault.TheVariants as faults;
ghost use Rattle.wb_dialog.specs.JudgedLines.{IsJudgeLine, own_row};
ghost use Rattle.wb_dialog.specs.Lines.{IsSaidWithin, IsWithin, came, came_by, common_row, judged_by, keep_line, moment_of, name, row, row_of, said_line, said_of, unanswered_by, unless_own};
ghost use Rattle.wb_dialog.specs.Records.{Reads};
ghost use Rattle.wb_dialog.specs.Words.{three_of};
ghost use Rattle.wb_dialog.specs.declared.said.Said.TheVariants as saids;

use crate::adding::add_line;
use crate::fault::{Refusal, Unanswered};
use crate::judged_line::JudgeLine;
use crate::judged_parsing::{came_from, judge_line, own_row};
use crate::line::DriverLine;
use crate::said::Said;
use crate::words::{behind, is_word, three_words};
use std::alloc::{AllocError, Global};
use wb_commands::{
    Command, LineFault, Untaken, datagram, four_words, no_words, number_word, page, parse_line,
    two_words, u32_word,
};
use wb_lines::next_word;
use wb_member::{Call, Query};
use wb_names::{MAX_MOMENT, Name, PageId};
use wb_policy::limits::MAX_RATE;
use wb_words::{WordsFault, read_words};

/// The name of the only four words: creator and number of its page, its source and its number
/// there.
#[tactic(auto, unfolding(crate::specs::Lines::name))]
fn name(rest: &[u8]) -> Result<Name, LineFault>
    ensures { result ≡ name (words rest.now) }
{
    let (creator, number, source, seq) = four_words(rest).ok_or(LineFault::Words)?;
    let creator = u32_word(creator, 0, u32::MAX)?;
    let number = u32_word(number, 0, u32::MAX)?;
    let source = u32_word(source, 0, u32::MAX)?;
    let seq = u32_word(seq, 1, u32::MAX)?;
    let page = PageId { creator, number };
    match Name::new(source, page, seq) {
        Ok(name) => Ok(name),
        Err(_) => unreachable!(),
    }
}

/// Why a line is not answered, by why it is not taken.
pub(crate) fn refused(fault: Untaken) -> Unanswered
    ensures { result ≡ unanswered_by fault }
{
    match fault {
        Untaken::Line(fault) => Unanswered::Refused(Refusal::Line(fault)),
        Untaken::Memory => Unanswered::Memory,
    }
}

/// The rate of reports and how long nothing is added, the only two words.
#[tactic(auto, unfolding(crate::specs::Lines::keep_line))]
fn keep_line(rest: &[u8]) -> Result<DriverLine, LineFault>
    ensures line { result ≡ keep_line (words rest.now) }
    ensures within { IfOk result IsWithin }
{
    let (rate, listen) = two_words(rest).ok_or(LineFault::Words)?;
    let rate = u32_word(rate, 1, MAX_RATE)?;
    let listen = u32_word(listen, 0, u32::MAX)?;
    Ok(DriverLine::Keep { rate, listen })
}

/// The moment of the first of two words.
#[tactic(auto, unfolding(crate::specs::Lines::moment_of))]
fn moment(rest: &[u8]) -> Result<u64, LineFault>
    ensures moment { result ≡ moment_of (words rest.now) }
    ensures bound { IfOk result IsMoment }
{
    let (now, _digits) = two_words(rest).ok_or(LineFault::Words)?;
    number_word(now, 0, MAX_MOMENT)
}

/// A datagram came in at a moment, without its origin.
#[tactic(auto, unfolding(crate::specs::Lines::came, crate::specs::Lines::moment_of))]
fn came(alloc: Global, rest: &[u8]) -> Result<DriverLine, Untaken>
    ensures line { Reads result (came (words rest.now)) }
    ensures within { IfOk result IsWithin }
{
    let now = moment(rest)?;
    let (_now, digits) = next_word(rest).ok_or(LineFault::Words)?;
    let datagram = datagram(alloc, digits)?;
    Ok(DriverLine::Came { now, datagram })
}

/// What is to be said.
fn said(alloc: Global, words: &[u8]) -> Result<DriverLine, Untaken>
    ensures line { Reads result (said_line (reading_words words.now)) }
    ensures within { IfOk result IsWithin }
{
    match read_words(alloc, words) {
        Ok(datagram) => Ok(DriverLine::Say(datagram)),
        Err(WordsFault::Word(wrong)) => Err(Untaken::Line(LineFault::Word(wrong))),
        Err(WordsFault::Memory) => Err(Untaken::Memory),
    }
}

/// The line of any host with this first word and these further ones.
#[tactic(auto, unfolding(crate::specs::Lines::common_row))]
fn common_row(alloc: Global, line: &[u8], word: &[u8], rest: &[u8]) -> Result<DriverLine, Untaken>
    ensures line { Reads result (common_row line.now word.now (words rest.now)) }
    ensures within { IfOk result IsWithin }
{
    if is_word(word, b"say") {
        let words = behind(line, b"say").ok_or(LineFault::Words)?;
        said(alloc, words)
    } else if is_word(word, b"keep") {
        Ok(keep_line(rest)?)
    } else if is_word(word, b"ask") {
        Ok(DriverLine::Script(Command::Call(Call::Ask(name(rest)?))))
    } else if is_word(word, b"stop") {
        Ok(DriverLine::Script(Command::Call(Call::Stop(name(rest)?))))
    } else if is_word(word, b"next") {
        Ok(DriverLine::Script(Command::Question(Query::Next(page(rest)?))))
    } else if is_word(word, b"view") {
        Ok(DriverLine::Script(Command::Question(Query::View(page(rest)?))))
    } else if is_word(word, b"known") {
        no_words(rest).ok_or(LineFault::Words)?;
        Ok(DriverLine::Script(Command::Question(Query::Known)))
    } else if is_word(word, b"version") {
        no_words(rest).ok_or(LineFault::Words)?;
        Ok(DriverLine::Version)
    } else {
        Err(Untaken::Line(LineFault::Unknown))
    }
}

/// Bytes came in, from an origin or without one.
fn came_line(alloc: Global, rest: &[u8]) -> Result<Said, AllocError>
    ensures line { IfOk result (λ said.
        said ≡ came_by (words rest.now) (three_of (words rest.now))) }
    ensures within { IfOk result IsSaidWithin }
{
    let Some((now, place, digits)) = three_words(rest) else {
        return match came(alloc, rest) {
            Ok(line) => Ok(Said::Unjudged(Ok(line), LineFault::Words)),
            Err(Untaken::Line(fault)) => Ok(Said::Unjudged(Err(fault), LineFault::Words)),
            Err(Untaken::Memory) => Err(AllocError),
        };
    };
    match came_from(alloc, now, place, digits) {
        Ok(line) => Ok(Said::Own(Ok(line), LineFault::Words)),
        Err(Untaken::Line(fault)) => Ok(Said::Own(Err(fault), LineFault::Words)),
        Err(Untaken::Memory) => Err(AllocError),
    }
}

/// How a host begins to be judged.
fn judged_by(read: Result<JudgeLine, LineFault>) -> Said
    requires { IfOk read IsJudgeLine }
    ensures line { result ≡ judged_by read }
    ensures within { IsSaidWithin result }
{
    match read {
        Ok(line) => Said::Judge(line),
        Err(fault) => Said::Common(Err(fault)),
    }
}

/// A line that a judged host alone has.
fn own_line(alloc: Global, line: &[u8], word: &[u8], rest: &[u8]) -> Result<Said, AllocError>
    ensures line { IfOk result (λ said.
        said ≡ saids.Own (own_row line.now word.now (words rest.now)) faults.Unknown) }
    ensures within { IfOk result IsSaidWithin }
{
    match own_row(alloc, line, word, rest) {
        Ok(line) => Ok(Said::Own(Ok(line), LineFault::Unknown)),
        Err(Untaken::Line(fault)) => Ok(Said::Own(Err(fault), LineFault::Unknown)),
        Err(Untaken::Memory) => Err(AllocError),
    }
}

/// A line of any host, or, if none has this word, one that a judged host has.
fn common_or_own(alloc: Global, line: &[u8], word: &[u8], rest: &[u8]) -> Result<Said, AllocError>
    ensures line { IfOk result (λ said. said ≡ unless_own
        (own_row line.now word.now (words rest.now))
        (common_row line.now word.now (words rest.now))) }
    ensures within { IfOk result IsSaidWithin }
{
    match common_row(alloc, line, word, rest) {
        Ok(line) => Ok(Said::Common(Ok(line))),
        Err(Untaken::Line(LineFault::Unknown)) => own_line(alloc, line, word, rest),
        Err(Untaken::Line(fault)) => Ok(Said::Common(Err(fault))),
        Err(Untaken::Memory) => Err(AllocError),
    }
}

/// The line with this first word and these further ones.
#[tactic(auto, unfolding(crate::specs::Lines::row))]
fn row(alloc: Global, line: &[u8], word: &[u8], rest: &[u8]) -> Result<Said, AllocError>
    ensures line { IfOk result (λ said. said ≡ row line.now word.now (words rest.now)) }
    ensures within { IfOk result IsSaidWithin }
{
    if is_word(word, b"came") {
        came_line(alloc, rest)
    } else if is_word(word, b"add") {
        add_line(alloc, line)
    } else if is_word(word, b"judge") {
        Ok(judged_by(judge_line(rest)))
    } else {
        common_or_own(alloc, line, word, rest)
    }
}

/// A line that no script has.
fn row_of(alloc: Global, line: &[u8]) -> Result<Said, AllocError>
    ensures line { IfOk result (λ said. said ≡ row_of line.now (words line.now)) }
    ensures within { IfOk result IsSaidWithin }
{
    match next_word(line) {
        None => Ok(Said::Common(Err(LineFault::Unknown))),
        Some((word, rest)) => row(alloc, line, word, rest),
    }
}

/// What the line says, which stands without its end, or its first fault: of what is to be said or
/// added, the first word that is wrong; else that of a script's line.
pub(crate) fn read_line(alloc: Global, line: &[u8]) -> Result<Said, AllocError>
    ensures line { IfOk result (λ said. said ≡ said_of line.now) }
    ensures within { IfOk result IsSaidWithin }
{
    match parse_line(alloc, line) {
        Ok(read) => Ok(Said::Common(Ok(DriverLine::Script(read)))),
        Err(Untaken::Line(LineFault::Unknown)) => row_of(alloc, line),
        Err(Untaken::Line(fault)) => Ok(Said::Common(Err(fault))),
        Err(Untaken::Memory) => Err(AllocError),
    }
}
