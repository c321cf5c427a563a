//! The lines of the record as they stand in its file, without their ends.
ghost use Rattle.std.specs.Prelude.{◌≡◌, IfOk};
ghost use Rattle.std.specs.String.{string_bytes};
ghost use Rattle.wb_words.specs.Spelling.{mark_word, page_word};
ghost use Rattle.wb_dialog.specs.Texts.{known_text, mark_text, owner_text, record_text, said_text, strange_text, tick_text};

use std::alloc::{AllocError, Global};
use wb_codec::{Datagram, write};
use wb_judging::RecordLine;
use wb_names::{Drawop, Mark, PageId};
use wb_words::write_words;

/// A moment.
fn tick_text(alloc: Global, now: u64) -> Result<String, AllocError>
    ensures { IfOk result (λ text. string_bytes text ≡ tick_text now) }
{
    format!(in alloc; "tick {now}")
}

/// What the user drew, in words.
fn said_text(alloc: Global, drawop: &Drawop) -> Result<Vec<u8>, AllocError>
    ensures { IfOk result (λ text. text.items ≡ said_text drawop.now) }
{
    let mut text = Vec::new(alloc);
    text.extend_from_slice(b"say ")?;
    text.extend_from_slice(strange_text(alloc, drawop)?.as_slice())?;
    Ok(text)
}

/// What a member gave, in hexadecimal.
fn known_text(alloc: Global, drawop: &Drawop) -> Result<String, AllocError>
    ensures { IfOk result (λ text. string_bytes text ≡ known_text drawop.now) }
{
    let bytes = write(alloc, &Datagram::Draw(*drawop))?;
    let digits = hex::encode(alloc, bytes)?;
    format!(in alloc; "datagram {digits}")
}

/// What no known origin gave, in words.
fn strange_text(alloc: Global, drawop: &Drawop) -> Result<Vec<u8>, AllocError>
    ensures { IfOk result (λ text. text.items ≡ strange_text drawop.now) }
{
    write_words(alloc, &Datagram::Draw(*drawop))
}

/// `CREATOR/NUMBER`.
fn page_word(alloc: Global, page: PageId) -> Result<String, AllocError>
    ensures { IfOk result (λ text. string_bytes text ≡ page_word page) }
{
    let PageId { creator, number } = page;
    format!(in alloc; "{creator}/{number}")
}

/// `SOURCE=HIGH`.
fn mark_word(alloc: Global, mark: Mark) -> Result<String, AllocError>
    ensures { IfOk result (λ text. string_bytes text ≡ mark_word mark) }
{
    let source = mark.source();
    let high = mark.high();
    format!(in alloc; "{source}={high}")
}

/// The report of a speaker that has this mark alone, in words.
fn mark_text(alloc: Global, speaker: u32, page: PageId, mark: Mark) -> Result<String, AllocError>
    ensures { IfOk result (λ text. string_bytes text ≡ mark_text speaker page mark) }
{
    let page = page_word(alloc, page)?;
    let mark = mark_word(alloc, mark)?;
    format!(in alloc; "page-state {speaker} {page} {mark}")
}

/// Who owns a number: `owner NUMBER PLACE@OWNER`.
fn owner_text(alloc: Global, number: u32, place: u64, owner: u64) -> Result<String, AllocError>
    ensures { IfOk result (λ text. string_bytes text ≡ owner_text number place owner) }
{
    format!(in alloc; "owner {number} {place}@{owner}")
}

/// A line of the record, as `record` prints it and `held` reads it.
pub fn write_record(alloc: Global, line: &RecordLine) -> Result<Vec<u8>, AllocError>
    ensures { IfOk result (λ text. text.items ≡ record_text line.now) }
{
    match line {
        RecordLine::Tick(now) => Ok(tick_text(alloc, *now)?.into_bytes()),
        RecordLine::Said(drawop) => said_text(alloc, drawop),
        RecordLine::Known(drawop) => Ok(known_text(alloc, drawop)?.into_bytes()),
        RecordLine::Strange(drawop) => strange_text(alloc, drawop),
        RecordLine::Mark {
            speaker,
            page,
            mark,
        } => Ok(mark_text(alloc, *speaker, *page, *mark)?.into_bytes()),
        RecordLine::Owner {
            number,
            place,
            owner,
        } => Ok(owner_text(alloc, *number, *place, *owner)?.into_bytes()),
    }
}
