//! Datagrams to words.

ghost use Rattle.std.specs.Prelude.{◌≡◌, ◌∷◌, ◌++◌, IfOk, OnOk};
ghost use Rattle.wb_codec.specs.declared.datagram.Datagram.{Datagram as DatagramValue};
ghost use Rattle.wb_words.specs.Spelling;
ghost use Rattle.wb_words.specs.Spelling.{quoted, op_words, spelled, tailed};

use crate::entries::put_entries;
use crate::kind::kind_word;
use crate::text::is_special;
use std::alloc::{AllocError, Global};
use wb_codec::Datagram;
use wb_names::{Drawop, Echo, Mark, Name, Op, PageId, Stroke, Target};

/// Adds a space and a text in quotes.
fn put_text(out: &mut Vec<u8>, text: &[u8]) -> Result<(), AllocError>
    ensures { OnOk result (out.new.items ≡ out.old.items ++ 32 ∷ quoted text.now) }
{
    out.extend_from_slice(b" \"")?;
    for byte in text {
        if is_special(*byte) {
            out.push(b'\\')?;
        }
        out.push(*byte)?;
    }
    out.push(b'"')?;
    Ok(())
}

/// Adds the words of an operation, a space before each.
fn put_op(alloc: Global, out: &mut Vec<u8>, op: &Op) -> Result<(), AllocError>
    ensures { OnOk result (out.new.items ≡ out.old.items ++ tailed (op_words op.now)) }
{
    let word = kind_word(op.kind());
    match op {
        Op::Drawn(_, stroke) => {
            let Stroke {
                x0,
                y0,
                x1,
                y1,
                glyph,
            } = *stroke;
            let text = format!(in alloc; " {word} {x0} {y0} {x1} {y1} ")?;
            out.extend_from_slice(text.as_bytes())?;
            out.push(glyph)?;
            Ok(())
        }
        Op::Text { x, y, text } => {
            let front = format!(in alloc; " {word} {x} {y}")?;
            out.extend_from_slice(front.as_bytes())?;
            put_text(out, text.as_slice())
        }
        Op::Aimed(_, target) => {
            let Target { source, seq } = *target;
            let text = format!(in alloc; " {word} {source} {seq}")?;
            out.extend_from_slice(text.as_bytes())
        }
    }
}

fn write_draw(alloc: Global, drawop: &Drawop) -> Result<Vec<u8>, AllocError>
    ensures { IfOk result (λ line. line.items ≡ spelled (DatagramValue.Draw drawop.now)) }
{
    let name = drawop.name();
    let source = name.source();
    let PageId { creator, number } = name.page();
    let seq = name.seq();
    let time = drawop.time();
    let front = format!(in alloc; "draw {source} {creator}/{number} {seq} {time}")?;
    let mut line = front.into_bytes();
    put_op(alloc, &mut line, drawop.op())?;
    Ok(line)
}

fn write_request(alloc: Global, asker: u32, name: Name) -> Result<Vec<u8>, AllocError>
    ensures { IfOk result (λ line. line.items ≡ spelled (DatagramValue.Request asker name)) }
{
    let source = name.source();
    let PageId { creator, number } = name.page();
    let seq = name.seq();
    let line = format!(in alloc; "request {asker} {source} {creator}/{number} {seq}")?;
    Ok(line.into_bytes())
}

fn write_ask_pages(alloc: Global, asker: u32) -> Result<Vec<u8>, AllocError>
    ensures { IfOk result (λ line. line.items ≡ spelled (DatagramValue.AskPages asker)) }
{
    Ok(format!(in alloc; "ask-pages {asker}")?.into_bytes())
}

fn write_session(
    alloc: Global,
    sender: u32,
    sent: u64,
    page: PageId,
    marks: &[Mark],
    echoes: &[Echo],
) -> Result<Vec<u8>, AllocError>
    ensures { IfOk result (λ line. line.items ≡
        spelled (DatagramValue.Session sender sent page marks.now echoes.now)) }
{
    let PageId { creator, number } = page;
    let front = format!(in alloc; "session-message {sender} {sent} {creator}/{number}")?;
    let mut line = front.into_bytes();
    put_entries(alloc, &mut line, marks)?;
    put_entries(alloc, &mut line, echoes)?;
    Ok(line)
}

fn write_page_state(
    alloc: Global,
    sender: u32,
    page: PageId,
    marks: &[Mark],
) -> Result<Vec<u8>, AllocError>
    ensures { IfOk result
        (λ line. line.items ≡ spelled (DatagramValue.PageState sender page marks.now)) }
{
    let PageId { creator, number } = page;
    let front = format!(in alloc; "page-state {sender} {creator}/{number}")?;
    let mut line = front.into_bytes();
    put_entries(alloc, &mut line, marks)?;
    Ok(line)
}

/// The line of words of a datagram, without its end.
pub fn write_words(alloc: Global, datagram: &Datagram) -> Result<Vec<u8>, AllocError>
    ensures { IfOk result (λ line. line.items ≡ spelled datagram.now) }
{
    match datagram {
        Datagram::Draw(drawop) => write_draw(alloc, drawop),
        Datagram::Session {
            sender,
            sent,
            page,
            marks,
            echoes,
        } => write_session(
            alloc,
            *sender,
            *sent,
            *page,
            marks.as_slice(),
            echoes.as_slice(),
        ),
        Datagram::Request { asker, name } => write_request(alloc, *asker, *name),
        Datagram::AskPages { asker } => write_ask_pages(alloc, *asker),
        Datagram::PageState {
            sender,
            page,
            marks,
        } => write_page_state(alloc, *sender, *page, marks.as_slice()),
    }
}
