//! What the words of a line mean.
ghost use Rattle.std.specs.Prelude.{◌≡◌, ◌≤◌, IfOk, Result, Ok, Err, option_map};
ghost use Rattle.wb_lines.specs.Words.{words};
ghost use Rattle.wb_member.specs.Questions.{IsAnswerable};
ghost use Rattle.wb_commands.specs.Parsing.{Parses, ParsesLine, IsScriptWithin, number, none_of, one_of, two_of, four_of, board, show, distance_set, tuning, tick, page, pages, script_question, line_of_page, datagram, arrive, hear, handed_in, bytes_line, script_command, begins_comment, script_line_of_words, script_in_words, script_line_of, CarriesDatagram};
ghost use Rattle.wb_words.specs.Reading.{reading as reading_words};

use crate::command::Command;
use crate::fault::{LineFault, Untaken};
use std::alloc::Global;
use wb_board::{MAX_CELLS, MAX_WORKERS};
use wb_codec::{Datagram, ReadFault, read};
use wb_display::Canvas;
use wb_lines::{next_word, number, unhex};
use wb_member::{Call, Query};
use wb_names::{MAX_MOMENT, PageId};
use wb_recovery::{MAX_CONSTANT, MAX_DELAY, Tuning};
use wb_words::{DigitsFault, WordsFault, begins_datagram, read_words};

/// That there are no words.
pub fn no_words(rest: &[u8]) -> Option<()>
    ensures { result ≡ none_of (words rest.now) }
{
    match next_word(rest) {
        Some(_) => None,
        None => Some(()),
    }
}

/// The only word.
pub fn one_word(rest: &[u8]) -> Option<&[u8]>
    ensures { option_map (λ x. x.now) result ≡ one_of (words rest.now) }
{
    let (word, rest) = next_word(rest)?;
    match next_word(rest) {
        Some(_) => None,
        None => Some(word),
    }
}

/// The only two words.
pub fn two_words(rest: &[u8]) -> Option<(&[u8], &[u8])>
    ensures { option_map (λ x. (x.0.now, x.1.now)) result ≡ two_of (words rest.now) }
{
    let (first, rest) = next_word(rest)?;
    let (second, rest) = next_word(rest)?;
    match next_word(rest) {
        Some(_) => None,
        None => Some((first, second)),
    }
}

/// The only four words.
pub fn four_words(rest: &[u8]) -> Option<(&[u8], &[u8], &[u8], &[u8])>
    ensures { option_map (λ x. (x.0.now, x.1.now, x.2.now, x.3.now)) result
        ≡ four_of (words rest.now) }
{
    let (first, rest) = next_word(rest)?;
    let (second, rest) = next_word(rest)?;
    let (third, fourth) = two_words(rest)?;
    Some((first, second, third, fourth))
}

/// The number that a word of decimal digits stands for, if it is from `low` to `high`; else
/// `Number`.
pub fn number_word(word: &[u8], low: u64, high: u64) -> Result<u64, LineFault>
    ensures value { result ≡ number low high word.now }
    ensures bound { IfOk result (λ n. (low ≤ n) × (n ≤ high)) }
{
    number(word, low, high).ok_or(LineFault::Number)
}

/// The same of a number of 32 bits.
pub fn u32_word(word: &[u8], low: u32, high: u32) -> Result<u32, LineFault>
    ensures value { result ≡ number low high word.now }
    ensures bound { IfOk result (λ n. (low ≤ n) × (n ≤ high)) }
{
    let value = number_word(word, u64::from(low), u64::from(high))?;
    Ok(value as u32)
}

#[tactic(auto, unfolding(crate::specs::Parsing::board))]
fn board(rest: &[u8]) -> Result<Command, LineFault>
    ensures line { result ≡ board (words rest.now) }
    ensures within { IfOk result IsScriptWithin }
{
    let (member, cells, workers, seed) = four_words(rest).ok_or(LineFault::Words)?;
    let member = u32_word(member, 0, u32::MAX)?;
    let cells = u32_word(cells, 1, MAX_CELLS)?;
    let workers = u32_word(workers, 1, MAX_WORKERS)?;
    let seed = number_word(seed, 0, u64::MAX)?;
    Ok(Command::Board {
        member,
        cells,
        workers,
        seed,
    })
}

#[tactic(auto, unfolding(crate::specs::Parsing::show))]
fn show(rest: &[u8]) -> Result<Query, LineFault>
    ensures query { result ≡ show (words rest.now) }
    ensures within { IfOk result IsAnswerable }
{
    let (creator, number, width, height) = four_words(rest).ok_or(LineFault::Words)?;
    let creator = u32_word(creator, 0, u32::MAX)?;
    let number = u32_word(number, 0, u32::MAX)?;
    let width = u32_word(width, 1, Canvas::MAX_WIDTH)?;
    let height = u32_word(height, 1, Canvas::MAX_HEIGHT)?;
    let page = PageId { creator, number };
    Ok(Query::Canvas {
        page,
        width,
        height,
    })
}

#[tactic(auto, unfolding(crate::specs::Parsing::distance_set))]
fn distance(rest: &[u8]) -> Result<Command, LineFault>
    ensures line { result ≡ distance_set (words rest.now) }
    ensures within { IfOk result IsScriptWithin }
{
    let (source, micros) = two_words(rest).ok_or(LineFault::Words)?;
    let source = u32_word(source, 0, u32::MAX)?;
    let micros = number_word(micros, 0, MAX_DELAY)?;
    Ok(Command::Call(Call::SetDelay { source, micros }))
}

#[tactic(auto, unfolding(crate::specs::Parsing::tuning))]
fn tuning(rest: &[u8]) -> Result<Command, LineFault>
    ensures line { result ≡ tuning (words rest.now) }
    ensures within { IfOk result IsScriptWithin }
{
    let (c1, c2, d1, d2) = four_words(rest).ok_or(LineFault::Words)?;
    let c1 = u32_word(c1, 1, MAX_CONSTANT)?;
    let c2 = u32_word(c2, 1, MAX_CONSTANT)?;
    let d1 = u32_word(d1, 1, MAX_CONSTANT)?;
    let d2 = u32_word(d2, 1, MAX_CONSTANT)?;
    Ok(Command::Call(Call::Tune(Tuning { c1, c2, d1, d2 })))
}

#[tactic(auto, unfolding(crate::specs::Parsing::tick))]
fn tick(rest: &[u8]) -> Result<Command, LineFault>
    ensures line { result ≡ tick (words rest.now) }
    ensures within { IfOk result IsScriptWithin }
{
    let word = one_word(rest).ok_or(LineFault::Words)?;
    let now = number_word(word, 0, MAX_MOMENT)?;
    Ok(Command::Call(Call::Tick { now }))
}

/// The page of the only two words, its creator and its number. The first fault is `Words` or
/// `Number`.
#[tactic(auto, unfolding(crate::specs::Parsing::page))]
pub fn page(rest: &[u8]) -> Result<PageId, LineFault>
    ensures { result ≡ page (words rest.now) }
{
    let (creator, number) = two_words(rest).ok_or(LineFault::Words)?;
    let creator = u32_word(creator, 0, u32::MAX)?;
    let number = u32_word(number, 0, u32::MAX)?;
    Ok(PageId { creator, number })
}

fn pages(rest: &[u8]) -> Result<Query, LineFault>
    ensures { result ≡ pages (words rest.now) }
{
    no_words(rest).ok_or(LineFault::Words)?;
    Ok(Query::Pages)
}

/// The question with this first word.
#[tactic(auto, unfolding(crate::specs::Parsing::script_question))]
fn question(word: &[u8], rest: &[u8]) -> Result<Query, LineFault>
    ensures query { result ≡ script_question word.now (words rest.now) }
    ensures within { IfOk result IsAnswerable }
{
    if word == b"show".as_slice() {
        show(rest)
    } else if word == b"gaps".as_slice() {
        Ok(Query::Gaps(page(rest)?))
    } else if word == b"report".as_slice() {
        Ok(Query::Report(page(rest)?))
    } else if word == b"pages".as_slice() {
        pages(rest)
    } else if word == b"digest".as_slice() {
        Ok(Query::Digest(page(rest)?))
    } else {
        Err(LineFault::Unknown)
    }
}

/// The datagram whose bytes the only word spells in hexadecimal. The first fault is `Words`, `Hex`
/// or `Datagram`.
#[tactic(auto, unfolding(crate::specs::Parsing::datagram))]
pub fn datagram(alloc: Global, rest: &[u8]) -> Result<Datagram, Untaken>
    ensures { Parses result (datagram (words rest.now)) }
{
    let digits = one_word(rest).ok_or(LineFault::Words)?;
    let Some(bytes) = unhex(alloc, digits)? else {
        return Err(Untaken::Line(LineFault::Digits(DigitsFault::Hex)));
    };
    match read(alloc, &bytes) {
        Ok(datagram) => Ok(datagram),
        Err(ReadFault::Memory) => Err(Untaken::Memory),
        Err(fault) => Err(Untaken::Line(LineFault::Digits(DigitsFault::Datagram(fault)))),
    }
}

/// The line that hands in a datagram.
fn handed_in(datagram: Datagram) -> Command
    ensures line { result ≡ handed_in datagram }
    ensures within { IsScriptWithin result }
    ensures carries { CarriesDatagram result }
{
    match datagram {
        Datagram::Draw(drawop) => Command::Arrive(drawop),
        heard => Command::Call(Call::Hear(heard)),
    }
}

fn arrive(alloc: Global, rest: &[u8]) -> Result<Command, Untaken>
    ensures line { ParsesLine result (arrive (words rest.now)) }
    ensures within { IfOk result IsScriptWithin }
{
    match datagram(alloc, rest)? {
        Datagram::Draw(drawop) => Ok(Command::Arrive(drawop)),
        _ => Err(Untaken::Line(LineFault::Digits(DigitsFault::Kind))),
    }
}

fn hear(alloc: Global, rest: &[u8]) -> Result<Command, Untaken>
    ensures line { ParsesLine result (hear (words rest.now)) }
    ensures within { IfOk result IsScriptWithin }
{
    match datagram(alloc, rest)? {
        Datagram::Draw(_) => Err(Untaken::Line(LineFault::Digits(DigitsFault::Kind))),
        heard => Ok(Command::Call(Call::Hear(heard))),
    }
}

fn bytes_line(alloc: Global, rest: &[u8]) -> Result<Command, Untaken>
    ensures line { ParsesLine result (bytes_line (words rest.now)) }
    ensures within { IfOk result IsScriptWithin }
{
    Ok(handed_in(datagram(alloc, rest)?))
}

#[tactic(auto, unfolding(crate::specs::Parsing::line_of_page))]
fn page_line(word: &[u8], rest: &[u8]) -> Result<Command, LineFault>
    ensures line { result ≡ line_of_page word.now (words rest.now) }
    ensures within { IfOk result IsScriptWithin }
{
    if word == b"look".as_slice() {
        Ok(Command::Call(Call::Look(page(rest)?)))
    } else if word == b"session".as_slice() {
        Ok(Command::Call(Call::Session(page(rest)?)))
    } else {
        Ok(Command::Question(question(word, rest)?))
    }
}

#[tactic(auto, unfolding(crate::specs::Parsing::script_command))]
fn command(alloc: Global, word: &[u8], rest: &[u8]) -> Result<Command, Untaken>
    ensures line { ParsesLine result (script_command word.now (words rest.now)) }
    ensures within { IfOk result IsScriptWithin }
{
    if word == b"board".as_slice() {
        Ok(board(rest)?)
    } else if word == b"arrive".as_slice() {
        arrive(alloc, rest)
    } else if word == b"hear".as_slice() {
        hear(alloc, rest)
    } else if word == b"datagram".as_slice() {
        bytes_line(alloc, rest)
    } else if word == b"distance".as_slice() {
        Ok(distance(rest)?)
    } else if word == b"tuning".as_slice() {
        Ok(tuning(rest)?)
    } else if word == b"tick".as_slice() {
        Ok(tick(rest)?)
    } else {
        Ok(page_line(word, rest)?)
    }
}

fn begins_comment(word: &[u8]) -> bool
    ensures { result ≡ begins_comment word.now }
{
    match word {
        [] => false,
        [first, ..] => *first == b'#',
    }
}

/// The line that a datagram in words is, or its first word that is wrong.
fn in_words(alloc: Global, line: &[u8]) -> Result<Command, Untaken>
    ensures line { ParsesLine result (script_in_words (reading_words line.now)) }
    ensures within { IfOk result IsScriptWithin }
{
    match read_words(alloc, line) {
        Ok(datagram) => Ok(handed_in(datagram)),
        Err(WordsFault::Word(wrong)) => Err(Untaken::Line(LineFault::Word(wrong))),
        Err(WordsFault::Memory) => Err(Untaken::Memory),
    }
}

/// The line that the bytes say, which stand without their end; or its first fault: `Unknown`,
/// `Words`, `Number`, `Hex`, `Datagram` or `Kind`, in this order; or `Word`, of a datagram in
/// words. Memory can run out only in a line that carries a datagram: if that is in hexadecimal,
/// after its digits are checked.
pub fn parse_line(alloc: Global, bytes: &[u8]) -> Result<Command, Untaken>
    ensures line { ParsesLine result (script_line_of bytes.now) }
    ensures within { IfOk result IsScriptWithin }
{
    if begins_datagram(bytes) {
        return in_words(alloc, bytes);
    }
    line_of_words(alloc, bytes)
}

/// The line of these words, by the first of them.
fn line_of_words(alloc: Global, bytes: &[u8]) -> Result<Command, Untaken>
    ensures line { ParsesLine result (script_line_of_words (words bytes.now)) }
    ensures within { IfOk result IsScriptWithin }
{
    match next_word(bytes) {
        None => Ok(Command::Skip),
        Some((word, rest)) => {
            if begins_comment(word) {
                return Ok(Command::Skip);
            }
            command(alloc, word, rest)
        }
    }
}
