//! What happens to a self-managing member.
use wb_codec::Datagram;
use wb_names::{PageId, Shape};
use wb_recovery::Tuning;

/// What happens to a self-managing member. A moment is in microseconds, below 2^48.
#[derive(Clone, Copy, Debug)]
pub enum KeptCall<'a> {
    /// A datagram came in.
    Came {
        now: u64,
        datagram: &'a Datagram,
    },
    /// Time goes on.
    Ticked {
        now: u64,
    },
    /// Its user draws on a page, at a time of the user's clock.
    Added {
        now: u64,
        page: PageId,
        time: u64,
        shape: Shape<'a>,
    },
    /// Its timers are given other constants, each 1 to 16, for what is set or backed off from now
    /// on. A timer that stands keeps its moment.
    Tuned(Tuning),
}
