//! What the lines that a judged host alone has say.
ghost use Rattle.std.specs.Prelude.{◌≡◌, IfOk};
ghost use Rattle.wb_lines.specs.Words.{words};
ghost use Rattle.wb_dialog.specs.JudgedLines.{IsJudgeLine, IsWithin, arrival, came_from, came_of, gone_line, held_by, held_line, judge_line, list_line, own_row, paint_line, since_line, strangers, wall_line};
ghost use Rattle.wb_dialog.specs.Records.{Reads};

use crate::judged_line::{JudgeLine, JudgedLine};
use crate::recorded::read_record;
use crate::words::{behind, is_word, number_or_none, origin, six_words, three_words};
use std::alloc::Global;
use wb_codec::Datagram;
use wb_commands::{
    LineFault, Untaken, datagram, four_words, no_words, number_word, one_word, page, two_words,
    u32_word,
};
use wb_display::Canvas;
use wb_judge::{Origin, TIME_LIMIT};
use wb_judging::{Call, News, RecordLine};
use wb_names::{MAX_MOMENT, PageId};
use wb_policy::limits::MAX_RATE;
use wb_words::DigitsFault;

/// How many drawops of strangers are taken, or none for `-`.
fn strangers(word: &[u8]) -> Result<Option<u16>, LineFault>
    ensures { result ≡ strangers word.now }
{
    match number_or_none(word, u64::from(u16::MAX))? {
        None => Ok(None),
        Some(most) => Ok(Some(most as u16)),
    }
}

/// How a host begins to be judged.
#[tactic(auto, unfolding(crate::specs::JudgedLines::judge_line))]
pub(crate) fn judge_line(rest: &[u8]) -> Result<JudgeLine, LineFault>
    ensures line { result ≡ judge_line (words rest.now) }
    ensures within { IfOk result IsJudgeLine }
{
    let (now, rate, listen, wall, here, most) = six_words(rest).ok_or(LineFault::Words)?;
    let now = number_word(now, 0, MAX_MOMENT)?;
    let rate = u32_word(rate, 1, MAX_RATE)?;
    let listen = u32_word(listen, 0, u32::MAX)?;
    let wall = number_word(wall, 0, TIME_LIMIT - 1)?;
    let here = number_or_none(here, u64::MAX)?;
    let strangers = strangers(most)?;
    Ok(JudgeLine {
        now,
        rate,
        listen,
        wall,
        here,
        strangers,
    })
}

/// The datagram that the only word spells. None if its bytes are not one.
fn arrival(alloc: Global, rest: &[u8]) -> Result<Option<Datagram>, Untaken>
    ensures { Reads result (arrival (words rest.now)) }
{
    match datagram(alloc, rest) {
        Ok(datagram) => Ok(Some(datagram)),
        Err(Untaken::Line(LineFault::Digits(DigitsFault::Datagram(_)))) => Ok(None),
        Err(fault) => Err(fault),
    }
}

/// Bytes came in at a moment from an origin.
fn came_of(now: u64, origin: Origin, datagram: Option<Datagram>) -> Call
    ensures { result ≡ came_of now origin datagram }
{
    match datagram {
        None => Call::Passed {
            now,
            news: News::Garbled,
        },
        Some(datagram) => Call::CameFrom {
            now,
            origin,
            datagram,
        },
    }
}

/// Bytes came in at a moment, from an origin.
#[tactic(auto, unfolding(crate::specs::JudgedLines::came_from))]
pub(crate) fn came_from(
    alloc: Global,
    now: &[u8],
    place: &[u8],
    digits: &[u8],
) -> Result<JudgedLine, Untaken>
    ensures line { Reads result (came_from now.now place.now (words digits.now)) }
    ensures within { IfOk result IsWithin }
{
    let now = number_word(now, 0, MAX_MOMENT)?;
    let origin = origin(place)?;
    let datagram = arrival(alloc, digits)?;
    Ok(JudgedLine::Call(came_of(now, origin, datagram)))
}

/// The time of day.
#[tactic(auto, unfolding(crate::specs::JudgedLines::wall_line))]
fn wall_line(rest: &[u8]) -> Result<JudgedLine, LineFault>
    ensures line { result ≡ wall_line (words rest.now) }
    ensures within { IfOk result IsWithin }
{
    let (now, wall) = two_words(rest).ok_or(LineFault::Words)?;
    let now = number_word(now, 0, MAX_MOMENT)?;
    let wall = number_word(wall, 0, TIME_LIMIT - 1)?;
    let news = News::Day { wall };
    Ok(JudgedLine::Call(Call::Passed { now, news }))
}

/// Whoever spoke from an origin is gone.
#[tactic(auto, unfolding(crate::specs::JudgedLines::gone_line))]
fn gone_line(rest: &[u8]) -> Result<JudgedLine, LineFault>
    ensures line { result ≡ gone_line (words rest.now) }
    ensures within { IfOk result IsWithin }
{
    let (now, place) = two_words(rest).ok_or(LineFault::Words)?;
    let now = number_word(now, 0, MAX_MOMENT)?;
    let origin = origin(place)?;
    let news = News::Gone(origin);
    Ok(JudgedLine::Call(Call::Passed { now, news }))
}

/// The first pages that are drawn on.
#[tactic(auto, unfolding(crate::specs::JudgedLines::list_line))]
fn list_line(rest: &[u8]) -> Result<JudgedLine, LineFault>
    ensures line { result ≡ list_line (words rest.now) }
    ensures within { IfOk result IsWithin }
{
    let word = one_word(rest).ok_or(LineFault::Words)?;
    let most = u32_word(word, 0, u32::MAX)?;
    Ok(JudgedLine::List { most })
}

/// The canvas of a page.
#[tactic(auto, unfolding(crate::specs::JudgedLines::paint_line))]
fn paint_line(rest: &[u8]) -> Result<JudgedLine, LineFault>
    ensures line { result ≡ paint_line (words rest.now) }
    ensures within { IfOk result IsWithin }
{
    let (creator, number, width, height) = four_words(rest).ok_or(LineFault::Words)?;
    let creator = u32_word(creator, 0, u32::MAX)?;
    let number = u32_word(number, 0, u32::MAX)?;
    let width = u32_word(width, 1, Canvas::MAX_WIDTH)?;
    let height = u32_word(height, 1, Canvas::MAX_HEIGHT)?;
    let page = PageId { creator, number };
    Ok(JudgedLine::Paint {
        page,
        width,
        height,
    })
}

/// What a page shows otherwise than it did.
#[tactic(auto, unfolding(crate::specs::JudgedLines::since_line))]
fn since_line(rest: &[u8]) -> Result<JudgedLine, LineFault>
    ensures line { result ≡ since_line (words rest.now) }
    ensures within { IfOk result IsWithin }
{
    let (creator, number, rest) = three_words(rest).ok_or(LineFault::Words)?;
    let count = one_word(rest).ok_or(LineFault::Words)?;
    let creator = u32_word(creator, 0, u32::MAX)?;
    let number = u32_word(number, 0, u32::MAX)?;
    let count = u32_word(count, 0, u32::MAX)?;
    let page = PageId { creator, number };
    Ok(JudgedLine::Since { page, count })
}

/// A line of the record, if it says something to a member.
fn held_by(line: Option<RecordLine>) -> JudgedLine
    ensures line { result ≡ held_by line }
    ensures within { IsWithin result }
{
    match line {
        None => JudgedLine::Skip,
        Some(line) => JudgedLine::Call(Call::Held(line)),
    }
}

/// A line of the record.
fn held_line(alloc: Global, line: &[u8]) -> Result<JudgedLine, Untaken>
    ensures line { Reads result (held_line line.now) }
    ensures within { IfOk result IsWithin }
{
    Ok(held_by(read_record(alloc, line)?))
}

/// The line with this first word and these further ones.
#[tactic(auto, unfolding(crate::specs::JudgedLines::own_row))]
pub(crate) fn own_row(
    alloc: Global,
    line: &[u8],
    word: &[u8],
    rest: &[u8],
) -> Result<JudgedLine, Untaken>
    ensures line { Reads result (own_row line.now word.now (words rest.now)) }
    ensures within { IfOk result IsWithin }
{
    if is_word(word, b"held") {
        let told = behind(line, b"held").ok_or(LineFault::Words)?;
        held_line(alloc, told)
    } else if is_word(word, b"wall") {
        Ok(wall_line(rest)?)
    } else if is_word(word, b"gone") {
        Ok(gone_line(rest)?)
    } else if is_word(word, b"members") {
        no_words(rest).ok_or(LineFault::Words)?;
        Ok(JudgedLine::Members)
    } else if is_word(word, b"list") {
        Ok(list_line(rest)?)
    } else if is_word(word, b"paint") {
        Ok(paint_line(rest)?)
    } else if is_word(word, b"since") {
        Ok(since_line(rest)?)
    } else if is_word(word, b"lacks") {
        let page = page(rest)?;
        Ok(JudgedLine::Lacks { page })
    } else if is_word(word, b"words") {
        let datagram = datagram(alloc, rest)?;
        Ok(JudgedLine::Words { datagram })
    } else {
        Err(Untaken::Line(LineFault::Unknown))
    }
}
