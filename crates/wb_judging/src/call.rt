//! What happens to a judged member.
use crate::news::News;
use crate::record::RecordLine;
use wb_codec::Datagram;
use wb_judge::Origin;
use wb_names::{Op, PageId};

/// What happens to a judged member, at a moment in microseconds, below 2^48.
#[derive(Debug, Drop)]
pub enum Call {
    /// A datagram came in from an origin.
    CameFrom {
        now: u64,
        origin: Origin,
        datagram: Datagram,
    },
    /// Time goes on, and the judge hears some news first.
    Passed {
        now: u64,
        news: News,
    },
    /// The user draws on a page, at the time of day. The operation has no number yet, so nothing is
    /// its own target.
    UserDrew {
        now: u64,
        page: PageId,
        op: Op,
    },
    /// A line of its record, at the present moment. It is not judged, and not recorded again. A
    /// drawop that no known origin gave counts as a stranger's again, unless the user or a member
    /// gave it too. A number has the owner again that it had first. A moment changes nothing but what
    /// a tick at the present moment does.
    Held(RecordLine),
}
