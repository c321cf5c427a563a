//! The text of what a line comes to.
ghost use Rattle.std.specs.Prelude.{◌≡◌, ◌+◌, ◌++◌, ℕ, IfOk, OnOk, List, codes, drop, flat_map, length, min, take};
ghost use Rattle.std.specs.List.{range_with_len};
ghost use Rattle.std.specs.String.{string_bytes};
ghost use Rattle.wb_member.specs.Holding.{outcome_in};
ghost use Rattle.wb_commands.specs.SentLines.{sends_text};
ghost use Rattle.wb_dialog.specs.Dialog.{batch_of, version_line};
ghost use Rattle.wb_dialog.specs.Inside.Told.{Says, batch_text};
ghost use Rattle.wb_dialog.specs.Texts.{drew_line, dropped_line, became_line, event_line, events_text, fate_word, fetch_line, lacks_line, list_text, listed_line, member_line, members_text, moment_word, origin_word, paint_text, painted_row, hidden_line, record_line, shown_line, since_text, warning_line, why_word, worded_line};
ghost use Rattle.wb_names.specs.Values.{DrawopValue};
ghost use Rattle.wb_display.specs.Canvas.{canvas_text};

use crate::line::LINES_VERSION;
use crate::record_text::write_record;
use crate::told::{Batch, Told};
use std::alloc::{AllocError, Global};
use wb_board::Reply;
use wb_codec::Datagram;
use wb_commands::{arrival_line, send_line, sends_text, told_text as member_text};
use wb_judge::{Listed, Origin, Other, Warning, Why};
use wb_judging::{Event, Fate, RecordLine, ShownAt, Since};
use wb_names::{Name, PageId, Target};
use wb_words::write_words;

/// Why a datagram is dropped.
fn why_word(why: Why) -> &'static str
    ensures { result.now ≡ why_word why }
{
    match why {
        Why::Own => "own",
        Why::Speaks => "speaks",
        Why::Crowd => "crowd",
        Why::Mark => "mark",
        Why::Stranger => "stranger",
        Why::Flood => "flood",
        Why::Again => "again",
        Why::Ahead => "ahead",
        Why::Full => "full",
        Why::Share => "share",
        Why::Pages => "pages",
        Why::Holes => "holes",
    }
}

/// What became of a drawop.
fn fate_word(fate: Fate) -> &'static str
    ensures { result.now ≡ fate_word fate }
{
    match fate {
        Fate::New => "new",
        Fate::Again => "again",
        Fate::Clash => "clash",
        Fate::Left => "left",
    }
}

/// `PLACE`, or `PLACE@OWNER` if it has one.
fn origin_word(alloc: Global, origin: Origin) -> Result<String, AllocError>
    ensures { IfOk result (λ text. string_bytes text ≡ origin_word origin) }
{
    let Origin { place, owner } = origin;
    match owner {
        None => format!(in alloc; "{place}"),
        Some(owner) => format!(in alloc; "{place}@{owner}"),
    }
}

fn dropped_line(alloc: Global, why: Why) -> Result<String, AllocError>
    ensures { IfOk result (λ text. string_bytes text ≡ dropped_line why) }
{
    let word = why_word(why);
    format!(in alloc; "dropped {word}\n")
}

fn record_line(alloc: Global, line: &RecordLine) -> Result<Vec<u8>, AllocError>
    ensures { IfOk result (λ text. text.items ≡ record_line line.now) }
{
    let mut text = Vec::new(alloc);
    text.extend_from_slice(b"record ")?;
    text.extend_from_slice(write_record(alloc, line)?.as_slice())?;
    text.push(b'\n')?;
    Ok(text)
}

fn drew_line(alloc: Global, name: Name) -> Result<String, AllocError>
    ensures { IfOk result (λ text. string_bytes text ≡ drew_line name) }
{
    let PageId { creator, number } = name.page();
    let source = name.source();
    let seq = name.seq();
    format!(in alloc; "drew {creator} {number} {source} {seq}\n")
}

fn became_line(alloc: Global, fate: Fate) -> Result<String, AllocError>
    ensures { IfOk result (λ text. string_bytes text ≡ became_line fate) }
{
    let word = fate_word(fate);
    format!(in alloc; "became {word}\n")
}

fn fetch_line(alloc: Global, origin: Origin, lacking: u64) -> Result<String, AllocError>
    ensures { IfOk result (λ text. string_bytes text ≡ fetch_line origin lacking) }
{
    let word = origin_word(alloc, origin)?;
    format!(in alloc; "fetch {word} {lacking}\n")
}

fn warning_line(alloc: Global, warning: Warning) -> Result<String, AllocError>
    ensures { IfOk result (λ text. string_bytes text ≡ warning_line warning) }
{
    match warning {
        Warning::Impostor(number) => format!(in alloc; "warn speaks {number}\n"),
        Warning::ForgedMark => format!(in alloc; "warn mark\n"),
        Warning::Twin => format!(in alloc; "warn twin\n"),
        Warning::NoCell => format!(in alloc; "warn full\n"),
        Warning::NoShare => format!(in alloc; "warn share\n"),
    }
}

/// The line of an event, with its line feed.
fn event_line(alloc: Global, event: &Event) -> Result<Vec<u8>, AllocError>
    ensures { IfOk result (λ text. text.items ≡ event_line event.now) }
{
    let line = match event {
        Event::NoDatagram => format!(in alloc; "dropped datagram\n")?,
        Event::Dropped(why) => dropped_line(alloc, *why)?,
        Event::Record(line) => return record_line(alloc, line),
        Event::Drew(name) => drew_line(alloc, *name)?,
        Event::Send(datagram) => send_line(alloc, datagram)?,
        Event::Became(fate) => became_line(alloc, *fate)?,
        Event::Fetch { origin, lacking } => fetch_line(alloc, *origin, *lacking)?,
        Event::Warn(warning) => warning_line(alloc, *warning)?,
    };
    Ok(line.into_bytes())
}

/// A line for each event, in their order.
fn events_text(alloc: Global, events: &[Event]) -> Result<Vec<u8>, AllocError>
    ensures { IfOk result (λ text. text.items ≡ events_text events.now) }
{
    let mut text = Vec::new(alloc);
    for event in events {
        text.extend_from_slice(event_line(alloc, event)?.as_slice())?;
    }
    Ok(text)
}

/// A moment, or `-` if there is none.
fn moment_word(alloc: Global, moment: Option<u64>) -> Result<String, AllocError>
    ensures { IfOk result (λ text. string_bytes text ≡ moment_word moment) }
{
    match moment {
        None => format!(in alloc; "-"),
        Some(moment) => format!(in alloc; "{moment}"),
    }
}

/// A number that was heard: from where, when it last answered us, and when it was heard last.
fn member_line(alloc: Global, member: &Other) -> Result<String, AllocError>
    ensures { IfOk result (λ text. string_bytes text ≡ member_line member.now) }
{
    let number = member.number;
    let origin = origin_word(alloc, member.origin)?;
    let answered = moment_word(alloc, member.answered)?;
    let heard = member.at;
    format!(in alloc; "member {number} {origin} {answered} {heard}\n")
}

/// How many numbers were heard lately, and a line for each.
fn members_text(alloc: Global, members: &[Other]) -> Result<String, AllocError>
    ensures { IfOk result (λ text. string_bytes text ≡ members_text members.now) }
{
    let count = members.len();
    let mut text = format!(in alloc; "members {count}\n")?;
    for member in members {
        text.push_str(member_line(alloc, member)?.as_str())?;
    }
    Ok(text)
}

/// A page that is drawn on, and how many of its drawops are held.
fn listed_line(alloc: Global, listed: &Listed) -> Result<String, AllocError>
    ensures { IfOk result (λ text. string_bytes text ≡ listed_line listed.now) }
{
    let PageId { creator, number } = listed.page;
    let count = listed.count;
    format!(in alloc; "{creator} {number} {count}\n")
}

/// How many pages are listed, and a line for each, in their order.
fn list_text(alloc: Global, pages: &[Listed]) -> Result<String, AllocError>
    ensures { IfOk result (λ text. string_bytes text ≡ list_text pages.now) }
{
    let count = pages.len();
    let mut text = format!(in alloc; "list {count}\n")?;
    for listed in pages {
        text.push_str(listed_line(alloc, listed)?.as_str())?;
    }
    Ok(text)
}

/// Adds a mark and the first row of a canvas. Answers the other rows.
fn add_row<'a>(text: &mut Vec<u8>, canvas: &'a [u8], width: u32) -> Result<&'a [u8], AllocError>
    ensures others { IfOk result (λ others. others.now ≡
        drop (min (length canvas.now) (width + 1)) canvas.now) }
    ensures text { OnOk result (text.new.items ≡
        text.old.items ++ codes "|" ++ take (min (length canvas.now) (width + 1)) canvas.now) }
{
    let (row, others) = canvas.split_at(canvas.len().min(width as usize + 1));
    text.push(b'|')?;
    text.extend_from_slice(row)?;
    Ok(others)
}

/// The rows of a canvas, each after a mark.
fn painted_rows(
    alloc: Global,
    canvas: &[u8],
    width: u32,
    height: u32,
) -> Result<Vec<u8>, AllocError>
    ensures { IfOk result (λ text. (shown : List DrawopValue) →
        canvas.now ≡ canvas_text shown width height →
        text.items ≡ flat_map (painted_row shown width) (range_with_len 0 height)) }
{
    let mut text = Vec::new(alloc);
    let mut rest = canvas;
    for _ in 0..height {
        rest = add_row(&mut text, rest, width)?;
    }
    Ok(text)
}

/// How many rows a canvas has, and each after a mark.
fn paint_text(alloc: Global, canvas: &[u8], width: u32, height: u32) -> Result<Vec<u8>, AllocError>
    ensures { IfOk result (λ text. (shown : List DrawopValue) →
        canvas.now ≡ canvas_text shown width height →
        text.items ≡ paint_text shown width height) }
{
    let rows = painted_rows(alloc, canvas, width, height)?;
    let mut text = format!(in alloc; "paint {height}\n")?.into_bytes();
    text.extend_from_slice(rows.as_slice())?;
    Ok(text)
}

/// What may be shown no more.
fn hidden_line(alloc: Global, target: Target) -> Result<String, AllocError>
    ensures { IfOk result (λ text. string_bytes text ≡ hidden_line target) }
{
    let Target { source, seq } = target;
    format!(in alloc; "hidden {source} {seq}\n")
}

/// What is shown, and its place.
fn shown_line(alloc: Global, placed: &ShownAt) -> Result<Vec<u8>, AllocError>
    ensures { IfOk result (λ text. text.items ≡ shown_line placed.now) }
{
    let place = placed.place;
    let mut text = format!(in alloc; "shown {place} ")?.into_bytes();
    let words = write_words(alloc, &Datagram::Draw(placed.drawop))?;
    text.extend_from_slice(words.as_slice())?;
    text.push(b'\n')?;
    Ok(text)
}

/// A line for each that may be shown no more.
fn hidden_lines(alloc: Global, hidden: &[Target]) -> Result<Vec<u8>, AllocError>
    ensures { IfOk result (λ text. text.items ≡ flat_map hidden_line hidden.now) }
{
    let mut text = Vec::new(alloc);
    for target in hidden {
        text.extend_from_slice(hidden_line(alloc, *target)?.as_bytes())?;
    }
    Ok(text)
}

/// A line for each that is shown.
fn shown_lines(alloc: Global, shown: &[ShownAt]) -> Result<Vec<u8>, AllocError>
    ensures { IfOk result (λ text. text.items ≡ flat_map shown_line shown.now) }
{
    let mut text = Vec::new(alloc);
    for placed in shown {
        text.extend_from_slice(shown_line(alloc, placed)?.as_slice())?;
    }
    Ok(text)
}

/// How many drawops are held, how many lines follow, and these.
fn since_text(alloc: Global, since: &Since) -> Result<Vec<u8>, AllocError>
    ensures { IfOk result (λ text. text.items ≡
        since_text since.now.held since.now.hidden.items since.now.shown.items) }
{
    let held = since.held;
    let count = since.hidden.len() + since.shown.len();
    let mut text = format!(in alloc; "since {held} {count}\n")?.into_bytes();
    text.extend_from_slice(hidden_lines(alloc, &since.hidden)?.as_slice())?;
    text.extend_from_slice(shown_lines(alloc, &since.shown)?.as_slice())?;
    Ok(text)
}

/// How many drawops of a page are missing.
fn lacks_line(alloc: Global, count: u64) -> Result<String, AllocError>
    ensures { IfOk result (λ text. string_bytes text ≡ lacks_line count) }
{
    format!(in alloc; "lacks {count}\n")
}

/// A datagram in words.
fn worded_line(alloc: Global, datagram: &Datagram) -> Result<Vec<u8>, AllocError>
    ensures { IfOk result (λ text. text.items ≡ worded_line datagram.now) }
{
    let mut text = Vec::new(alloc);
    text.extend_from_slice(b"words ")?;
    text.extend_from_slice(write_words(alloc, datagram)?.as_slice())?;
    text.push(b'\n')?;
    Ok(text)
}

/// The number of the lines.
fn version_line(alloc: Global) -> Result<String, AllocError>
    ensures { IfOk result (λ text. string_bytes text ≡ version_line) }
{
    let version = LINES_VERSION;
    format!(in alloc; "version {version}\n")
}

/// The line of a batch.
fn batch_line(alloc: Global, became: Option<Reply>) -> Result<Vec<u8>, AllocError>
    ensures { IfOk result (λ text. text.items ≡ batch_of (outcome_in became)) }
{
    let mut text = Vec::new(alloc);
    text.extend_from_slice(arrival_line(became))?;
    Ok(text)
}

/// The line of a batch, if there is one.
fn batch_text(batch: Batch) -> &'static [u8]
    ensures { result.now ≡ batch_text batch }
{
    match batch {
        Batch::Untold => b"",
        Batch::Told(became) => arrival_line(became),
    }
}

/// What is sent, and then a batch.
fn sent_text(alloc: Global, sent: &[Datagram], batch: Batch) -> Result<Vec<u8>, AllocError>
    ensures { IfOk result (λ text. text.items ≡ sends_text sent.now ++ batch_text batch) }
{
    let mut text = sends_text(alloc, sent)?.into_bytes();
    text.extend_from_slice(batch_text(batch))?;
    Ok(text)
}

/// The text of what a line comes to.
pub(crate) fn told_text(alloc: Global, told: &Told) -> Result<Vec<u8>, AllocError>
    ensures { IfOk result (λ written. (text : List ℕ) → Says told.now text →
        written.items ≡ text) }
{
    match told {
        Told::Nothing => Ok(Vec::new(alloc)),
        Told::Version => Ok(version_line(alloc)?.into_bytes()),
        Told::Member(told) => member_text(alloc, told),
        Told::Send(datagram) => Ok(send_line(alloc, datagram)?.into_bytes()),
        Told::Batch(became) => batch_line(alloc, *became),
        Told::Sent { sent, batch } => sent_text(alloc, sent, *batch),
        Told::Events(events) => events_text(alloc, events),
        Told::Members(members) => Ok(members_text(alloc, members)?.into_bytes()),
        Told::Pages(pages) => Ok(list_text(alloc, pages)?.into_bytes()),
        Told::Canvas {
            canvas,
            width,
            height,
        } => paint_text(alloc, canvas.bytes(), *width, *height),
        Told::Since(since) => since_text(alloc, since),
        Told::Lacks(count) => Ok(lacks_line(alloc, *count)?.into_bytes()),
        Told::Words(datagram) => worded_line(alloc, datagram),
    }
}
