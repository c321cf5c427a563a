//! The checks of each kind of body.

ghost use Rattle.std.specs.Prelude.{IfOk};
ghost use Rattle.wb_codec.specs.Reading.{Gives, session_at, request_at, ask_pages_at, page_state_at, draw_at, body_at};
ghost use Rattle.wb_codec.specs.Checked.{datagram_of, IsChecked};

use crate::body::{Body, Unread};
use crate::drawing::drawop_of;
use crate::entries::after_entries;
use crate::fault::ReadFault;
use crate::fields::{name_of, page_of, u16_of, u32_of, u64_of};
use crate::header::Kind;
use crate::version::Version;
use wb_names::{Echo, Mark, Name};

// Each of these checks all of a body, and takes no memory.

#[tactic(auto, unfolding(crate::specs::Reading::session_at))]
fn session_of(bytes: &[u8]) -> Result<Body<'_>, ReadFault>
    ensures body { Gives datagram_of result (session_at bytes.now) }
    ensures checked { IfOk result IsChecked }
{
    let (sender, rest) = u32_of(bytes)?;
    let (sent, rest) = u64_of(rest)?;
    let (page, rest) = page_of(rest)?;
    let (count, rest) = u16_of(rest)?;
    let marks = Unread { count, bytes: rest };
    let rest = after_entries::<Mark>(count, rest)?;
    let (count, rest) = u16_of(rest)?;
    let echoes = Unread { count, bytes: rest };
    let rest = after_entries::<Echo>(count, rest)?;
    if !rest.is_empty() {
        return Err(ReadFault::Length);
    }
    Ok(Body::Session {
        sender,
        sent,
        page,
        marks,
        echoes,
    })
}

#[tactic(auto, unfolding(crate::specs::Reading::request_at))]
fn request_of(bytes: &[u8]) -> Result<Body<'_>, ReadFault>
    ensures body { Gives datagram_of result (request_at bytes.now) }
    ensures checked { IfOk result IsChecked }
{
    let (asker, rest) = u32_of(bytes)?;
    let (fields, rest) = name_of(rest)?;
    if !rest.is_empty() {
        return Err(ReadFault::Length);
    }
    let name = Name::new(fields.source, fields.page, fields.seq)?;
    Ok(Body::Request { asker, name })
}

#[tactic(auto, unfolding(crate::specs::Reading::ask_pages_at))]
fn ask_pages_of(bytes: &[u8]) -> Result<Body<'_>, ReadFault>
    ensures body { Gives datagram_of result (ask_pages_at bytes.now) }
    ensures checked { IfOk result IsChecked }
{
    let (asker, rest) = u32_of(bytes)?;
    if !rest.is_empty() {
        return Err(ReadFault::Length);
    }
    Ok(Body::AskPages { asker })
}

#[tactic(auto, unfolding(crate::specs::Reading::page_state_at))]
fn page_state_of(bytes: &[u8]) -> Result<Body<'_>, ReadFault>
    ensures body { Gives datagram_of result (page_state_at bytes.now) }
    ensures checked { IfOk result IsChecked }
{
    let (sender, rest) = u32_of(bytes)?;
    let (page, rest) = page_of(rest)?;
    let (count, rest) = u16_of(rest)?;
    let marks = Unread { count, bytes: rest };
    let rest = after_entries::<Mark>(count, rest)?;
    if !rest.is_empty() {
        return Err(ReadFault::Length);
    }
    Ok(Body::PageState {
        sender,
        page,
        marks,
    })
}

#[inline(always)]
#[tactic(auto, unfolding(crate::specs::Reading::draw_at))]
fn draw_of(version: Version, bytes: &[u8]) -> Result<Body<'_>, ReadFault>
    ensures body { Gives datagram_of result (draw_at version bytes.now) }
    ensures checked { IfOk result IsChecked }
{
    let drawop = drawop_of(version, bytes)?;
    Ok(Body::Draw(drawop))
}

/// The body of a datagram of this version and kind, every check passed.
#[inline(always)]
#[tactic(auto, unfolding(crate::specs::Reading::body_at))]
pub(crate) fn body_of(version: Version, kind: Kind, bytes: &[u8]) -> Result<Body<'_>, ReadFault>
    ensures body { Gives datagram_of result (body_at version kind bytes.now) }
    ensures checked { IfOk result IsChecked }
{
    match kind {
        Kind::Draw => draw_of(version, bytes),
        Kind::Session => session_of(bytes),
        Kind::Request => request_of(bytes),
        Kind::AskPages => ask_pages_of(bytes),
        Kind::PageState => page_state_of(bytes),
    }
}
