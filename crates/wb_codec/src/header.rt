//! The header of a datagram from bytes.

ghost use Rattle.std.specs.Prelude.{◌≡◌};
ghost use Rattle.wb_codec.specs.Reading.{Gives, version_at, kind_at, frame_at};

use crate::fault::ReadFault;
use crate::version::Version;

/// The kinds of datagrams.
#[derive(Clone, Copy)]
pub(crate) enum Kind {
    Draw,
    Session,
    Request,
    AskPages,
    PageState,
}

/// What a header tells, and the bytes after it.
#[derive(Clone, Copy)]
pub(crate) struct Frame<'a> {
    pub(crate) version: Version,
    pub(crate) kind: Kind,
    pub(crate) body: &'a [u8],
}

#[inline(always)]
#[tactic(auto, unfolding(crate::specs::Reading::version_at))]
fn version_of(number: u8) -> Result<Version, ReadFault>
    ensures { result ≡ version_at number }
{
    match number {
        1 => Ok(Version::One),
        2 => Ok(Version::Two),
        _ => Err(ReadFault::Version),
    }
}

#[inline(always)]
#[tactic(auto, unfolding(crate::specs::Reading::kind_at))]
fn kind_of(version: Version, number: u8) -> Result<Kind, ReadFault>
    ensures { result ≡ kind_at version number }
{
    match (version, number) {
        (_, 1) => Ok(Kind::Draw),
        (Version::One, 2) => Ok(Kind::Session),
        (Version::One, 3) => Ok(Kind::Request),
        (Version::One, 4) => Ok(Kind::AskPages),
        (Version::One, 5) => Ok(Kind::PageState),
        _ => Err(ReadFault::Kind),
    }
}

/// The header of a datagram, which tells as many bytes as follow it.
#[inline(always)]
#[tactic(auto, unfolding(crate::specs::Reading::frame_at))]
pub(crate) fn frame_of(bytes: &[u8]) -> Result<Frame<'_>, ReadFault>
    ensures { Gives (λ frame. record {
      version = frame.version;
      kind = frame.kind;
      body = frame.body.now;
    }) result (frame_at bytes.now) }
{
    let [m0, m1, version, kind, l0, l1, l2, l3, body @ ..] = bytes else {
        return Err(ReadFault::Short);
    };
    if !(*m0 == b'W' && *m1 == b'B') {
        return Err(ReadFault::Magic);
    }
    let size = u32::from_be_bytes([*l0, *l1, *l2, *l3]) as usize;
    let version = version_of(*version)?;
    let kind = kind_of(version, *kind)?;
    if body.len() < size {
        return Err(ReadFault::Short);
    }
    if body.len() > size {
        return Err(ReadFault::Trailing);
    }
    Ok(Frame {
        version,
        kind,
        body,
    })
}
