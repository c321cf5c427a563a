//! Datagrams from bytes.

ghost use Rattle.std.specs.Prelude.{◌≡◌, ◌⊎◌, IfOk, IfErr, OnErr};
ghost use Rattle.wb_codec.specs.declared.datagram.Datagram.{Datagram as DatagramValue};
ghost use Rattle.wb_codec.specs.Ranges.{IsDatagram};
ghost use Rattle.wb_codec.specs.Spelling.{spelling};
ghost use Rattle.wb_codec.specs.Grammar.{Spells, IsFaultOf, HasLists};
ghost use Rattle.wb_codec.specs.Reading.{Gives, reading};
ghost use Rattle.wb_codec.specs.Checked.{datagram_of, IsChecked};

use crate::body::Body;
use crate::checking::body_of;
use crate::datagram::Datagram;
use crate::entries::entries_of;
use crate::fault::ReadFault;
use crate::header::frame_of;
use std::alloc::{AllocError, Global};

/// The body of the datagram that the bytes are, all of the bytes. Every check is here.
#[inline(always)]
#[tactic(auto, unfolding(crate::specs::Reading::reading))]
fn checked(bytes: &[u8]) -> Result<Body<'_>, ReadFault>
    ensures body { Gives datagram_of result (reading bytes.now) }
    ensures checked { IfOk result IsChecked }
{
    let frame = frame_of(bytes)?;
    body_of(frame.version, frame.kind, frame.body)
}

/// The datagram of a checked body. Memory is taken here and nowhere else.
#[inline(always)]
fn datagram_from(alloc: Global, body: &Body<'_>) -> Result<Datagram, AllocError>
    requires { IsChecked body.now }
    ensures datagram { IfOk result (λ v. v ≡ datagram_of body.now) }
    ensures lists { OnErr result (HasLists (datagram_of body.now)) }
{
    match *body {
        Body::Draw(drawop) => Ok(Datagram::Draw(drawop)),
        Body::Session {
            sender,
            sent,
            page,
            marks,
            echoes,
        } => {
            let marks = entries_of(alloc, marks)?;
            let echoes = entries_of(alloc, echoes)?;
            Ok(Datagram::Session {
                sender,
                sent,
                page,
                marks,
                echoes,
            })
        }
        Body::Request { asker, name } => Ok(Datagram::Request { asker, name }),
        Body::AskPages { asker } => Ok(Datagram::AskPages { asker }),
        Body::PageState {
            sender,
            page,
            marks,
        } => {
            let marks = entries_of(alloc, marks)?;
            Ok(Datagram::PageState {
                sender,
                page,
                marks,
            })
        }
    }
}

/// The datagram that the bytes spell, all of the bytes, or the first check that fails: the header,
/// then the sizes, then the fields. Memory for the lists of marks and echoes is taken last, one
/// allocation for each. Datagrams without lists take none, and are never refused for want of it.
pub fn read(alloc: Global, bytes: &[u8]) -> Result<Datagram, ReadFault>
    ensures found { IfOk result (Spells bytes.now) }
    ensures only { (v : DatagramValue) → Spells bytes.now v →
        (result ≡ Ok v) ⊎ ((result ≡ Err ReadFault.Memory) × HasLists v) }
    ensures fault { IfErr result (IsFaultOf bytes.now) }
{
    match checked(bytes) {
        Ok(body) => match datagram_from(alloc, &body) {
            Ok(datagram) => Ok(datagram),
            Err(_) => Err(ReadFault::Memory),
        },
        Err(fault) => Err(fault),
    }
}
