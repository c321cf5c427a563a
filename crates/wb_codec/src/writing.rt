//! Datagrams to bytes.

ghost use Rattle.std.specs.Prelude.{◌≡◌, ◌<◌, ◌≤◌, ◌^◌, ◌∷◌, ◌++◌, length, IfOk, OnOk};
ghost use Rattle.wb_names.specs.Drawing.{text_of};
ghost use Rattle.wb_names.specs.declared.text.TheConstants.Text.{MAX_LEN};
ghost use Rattle.wb_codec.specs.declared.datagram.Datagram.{Datagram as DatagramValue};
ghost use Rattle.wb_codec.specs.Spelling.{text_bytes, op_bytes, drawop_bytes, body, kind_code, op_version, version_code, version_of as version_of_datagram, spelling};

use crate::datagram::Datagram;
use crate::entries::put_entries;
use crate::parts::{
    drawop_front, header, page_state_front, request_part, session_front, stroke_part, target_part,
    text_front,
};
use crate::version::{Version, first_version};
use std::alloc::{AllocError, Global};
use wb_names::{Drawop, Echoes, Marks, Name, Op, PageId};

// Each of these adds the bytes of a value at the end.

#[inline(always)]
fn put_text(out: &mut Vec<u8>, x: u16, y: u16, text: &[u8]) -> Result<(), AllocError>
    requires { length text.now ≤ MAX_LEN }
    ensures { OnOk result (out.new.items ≡ out.old.items ++ 3 ∷ text_bytes x y text.now) }
{
    out.extend_from_slice(&text_front(x, y, text.len() as u8))?;
    out.extend_from_slice(text)?;
    Ok(())
}

#[inline(always)]
fn put_op(out: &mut Vec<u8>, op: &Op) -> Result<(), AllocError>
    requires { length (text_of op.now) ≤ MAX_LEN }
    ensures { OnOk result (out.new.items ≡ out.old.items ++ op_bytes op.now) }
{
    match op {
        Op::Drawn(figure, stroke) => out.extend_from_slice(&stroke_part(*figure, *stroke)),
        Op::Text { x, y, text } => put_text(out, *x, *y, text.as_slice()),
        Op::Aimed(change, target) => out.extend_from_slice(&target_part(*change, *target)),
    }
}

#[inline(always)]
#[tactic(auto, using(crate::proofs::Lawful::text_fits))]
fn put_drawop(out: &mut Vec<u8>, drawop: &Drawop) -> Result<(), AllocError>
    ensures { OnOk result (out.new.items ≡ out.old.items ++ drawop_bytes drawop.now) }
{
    out.extend_from_slice(drawop_front(drawop).as_flattened())?;
    put_op(out, drawop.op())?;
    Ok(())
}

fn put_session(
    out: &mut Vec<u8>,
    sender: u32,
    sent: u64,
    page: PageId,
    marks: &Marks,
    echoes: &Echoes,
) -> Result<(), AllocError>
    ensures { OnOk result (out.new.items ≡
        out.old.items ++ body (DatagramValue.Session sender sent page marks.now echoes.now)) }
{
    out.extend_from_slice(&session_front(sender, sent, page))?;
    put_entries(out, marks)?;
    put_entries(out, echoes)?;
    Ok(())
}

#[inline(always)]
fn put_request(out: &mut Vec<u8>, asker: u32, name: Name) -> Result<(), AllocError>
    ensures { OnOk result (out.new.items ≡
        out.old.items ++ body (DatagramValue.Request asker name)) }
{
    out.extend_from_slice(request_part(asker, name).as_flattened())
}

fn put_page_state(
    out: &mut Vec<u8>,
    sender: u32,
    page: PageId,
    marks: &Marks,
) -> Result<(), AllocError>
    ensures { OnOk result (out.new.items ≡
        out.old.items ++ body (DatagramValue.PageState sender page marks.now)) }
{
    out.extend_from_slice(page_state_front(sender, page).as_flattened())?;
    put_entries(out, marks)?;
    Ok(())
}

#[inline(always)]
fn put_body(out: &mut Vec<u8>, datagram: &Datagram) -> Result<(), AllocError>
    ensures { OnOk result (out.new.items ≡ out.old.items ++ body datagram.now) }
{
    match datagram {
        Datagram::Draw(drawop) => put_drawop(out, drawop),
        Datagram::Session {
            sender,
            sent,
            page,
            marks,
            echoes,
        } => put_session(out, *sender, *sent, *page, marks, echoes),
        Datagram::Request { asker, name } => put_request(out, *asker, *name),
        Datagram::AskPages { asker } => out.extend_from_slice(&asker.to_be_bytes()),
        Datagram::PageState {
            sender,
            page,
            marks,
        } => put_page_state(out, *sender, *page, marks),
    }
}

/// How many bytes an operation has.
#[inline(always)]
fn op_len(op: &Op) -> usize
    requires { length (text_of op.now) ≤ MAX_LEN }
    ensures len { result ≡ length (op_bytes op.now) }
    ensures short { result < 256 }
{
    match op {
        Op::Drawn(..) => 10,
        Op::Text { text, .. } => 6 + text.as_slice().len(),
        Op::Aimed(..) => 9,
    }
}

/// How many bytes the body of a datagram has.
#[inline(always)]
#[tactic(auto, using(crate::proofs::Lawful::text_fits))]
fn body_len(datagram: &Datagram) -> usize
    ensures len { result ≡ length (body datagram.now) }
    ensures short { result < 2 ^ 32 }
{
    match datagram {
        Datagram::Draw(drawop) => 24 + op_len(drawop.op()),
        Datagram::Session { marks, echoes, .. } => {
            24 + 8 * marks.as_slice().len() + 20 * echoes.as_slice().len()
        }
        Datagram::Request { .. } => 20,
        Datagram::AskPages { .. } => 4,
        Datagram::PageState { marks, .. } => 14 + 8 * marks.as_slice().len(),
    }
}

/// The version that says an operation.
#[inline(always)]
fn version_of(op: &Op) -> Version
    ensures { result ≡ op_version op.now }
{
    match op {
        Op::Text { text, .. } => {
            if text.as_slice().len() <= 40 {
                Version::One
            } else {
                Version::Two
            }
        }
        _ => first_version(op.kind()),
    }
}

/// The number of the version that says a datagram, and that of its kind.
#[inline(always)]
fn numbers_of(datagram: &Datagram) -> (u8, u8)
    ensures version { result.0 ≡ version_code (version_of_datagram datagram.now) }
    ensures kind { result.1 ≡ kind_code datagram.now }
{
    match datagram {
        Datagram::Draw(drawop) => match version_of(drawop.op()) {
            Version::One => (1, 1),
            Version::Two => (2, 1),
        },
        Datagram::Session { .. } => (1, 2),
        Datagram::Request { .. } => (1, 3),
        Datagram::AskPages { .. } => (1, 4),
        Datagram::PageState { .. } => (1, 5),
    }
}

/// The bytes that spell a datagram, all numbers big-endian, in one allocation. `read` gives the
/// datagram back.
pub fn write(alloc: Global, datagram: &Datagram) -> Result<Vec<u8>, AllocError>
    ensures { IfOk result (λ bytes. bytes.items ≡ spelling datagram.now) }
{
    let len = body_len(datagram);
    let (version, kind) = numbers_of(datagram);
    let mut bytes = Vec::with_capacity(alloc, 8 + len)?;
    bytes.extend_from_slice(&header(version, kind, len as u32))?;
    put_body(&mut bytes, datagram)?;
    Ok(bytes)
}
