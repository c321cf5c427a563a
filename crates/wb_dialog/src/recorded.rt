//! What a line of the record says.
ghost use Rattle.std.specs.Prelude.{◌≡◌};
ghost use Rattle.wb_words.specs.Reading.{reading as reading_words};
ghost use Rattle.wb_lines.specs.Words.{words};
ghost use Rattle.wb_dialog.specs.Records.{Reads, drawn, given, mark_of, owned, owner_line, record_of, recorded, said};

use crate::words::{behind, origin};
use std::alloc::Global;
use wb_codec::Datagram;
use wb_commands::{Command, LineFault, Untaken, parse_line, two_words, u32_word};
use wb_judge::Origin;
use wb_judging::RecordLine;
use wb_member::Call;
use wb_names::Drawop;
use wb_words::{DigitsFault, WordsFault, begins_datagram, read_words};

/// The fault of a datagram of a kind that the record has not.
const OTHER: LineFault = LineFault::Digits(DigitsFault::Kind);

/// A drawop that others gave: in words if no known origin did.
fn given(drawop: Drawop, in_words: bool) -> RecordLine
    ensures { result ≡ given in_words drawop }
{
    if in_words {
        RecordLine::Strange(drawop)
    } else {
        RecordLine::Known(drawop)
    }
}

/// The mark of a report that has no other.
fn mark_of(datagram: &Datagram) -> Result<RecordLine, LineFault>
    ensures { result ≡ mark_of datagram.now }
{
    let Datagram::PageState {
        sender,
        page,
        marks,
    } = datagram
    else {
        return Err(OTHER);
    };
    match marks.as_slice() {
        [mark] => Ok(RecordLine::Mark {
            speaker: *sender,
            page: *page,
            mark: *mark,
        }),
        _ => Err(OTHER),
    }
}

/// What a line of a script says as one of the record. None if it changes nothing there.
fn recorded(command: &Command, in_words: bool) -> Result<Option<RecordLine>, LineFault>
    ensures { result ≡ recorded in_words command.now }
{
    match command {
        Command::Skip => Ok(None),
        Command::Board { .. } => Ok(None),
        Command::Question(_) => Ok(None),
        Command::Arrive(drawop) => Ok(Some(given(*drawop, in_words))),
        Command::Call(Call::Tick { now }) => Ok(Some(RecordLine::Tick(*now))),
        Command::Call(Call::Hear(datagram)) => Ok(Some(mark_of(datagram)?)),
        Command::Call(_) => Err(LineFault::Unknown),
    }
}

/// The drawop that the user drew.
fn drawn(datagram: Datagram) -> Result<RecordLine, LineFault>
    ensures { result ≡ drawn datagram }
{
    match datagram {
        Datagram::Draw(drawop) => Ok(RecordLine::Said(drawop)),
        _ => Err(OTHER),
    }
}

/// What the user drew.
fn said(alloc: Global, words: &[u8]) -> Result<Option<RecordLine>, Untaken>
    ensures { Reads result (said (reading_words words.now)) }
{
    match read_words(alloc, words) {
        Ok(datagram) => Ok(Some(drawn(datagram)?)),
        Err(WordsFault::Word(wrong)) => Err(Untaken::Line(LineFault::Word(wrong))),
        Err(WordsFault::Memory) => Err(Untaken::Memory),
    }
}

/// The owner of a number. An origin that has no owner says none.
fn owned(number: u32, origin: Origin) -> Result<RecordLine, LineFault>
    ensures { result ≡ owned number origin.place origin.owner }
{
    match origin.owner {
        None => Err(LineFault::Words),
        Some(owner) => Ok(RecordLine::Owner {
            number,
            place: origin.place,
            owner,
        }),
    }
}

/// Who owns a number, by the number and an origin.
#[tactic(auto, unfolding(crate::specs::Records::owner_line))]
fn owner_line(rest: &[u8]) -> Result<RecordLine, LineFault>
    ensures { result ≡ owner_line (words rest.now) }
{
    let (number, place) = two_words(rest).ok_or(LineFault::Words)?;
    let number = u32_word(number, 0, u32::MAX)?;
    let origin = origin(place)?;
    owned(number, origin)
}

/// What a line of the record says, which stands without its end. None if it changes nothing: a
/// comment, the line of the board, and a question of an older record.
pub(crate) fn read_record(alloc: Global, line: &[u8]) -> Result<Option<RecordLine>, Untaken>
    ensures { Reads result (record_of line.now) }
{
    if let Some(words) = behind(line, b"say") {
        return said(alloc, words);
    }
    if let Some(words) = behind(line, b"owner") {
        return Ok(Some(owner_line(words)?));
    }
    let command = parse_line(alloc, line)?;
    Ok(recorded(&command, begins_datagram(line))?)
}
