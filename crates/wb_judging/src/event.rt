//! What follows from a call: events.
ghost use Rattle.std.specs.Prelude.{◌≡◌};
ghost use Rattle.wb_member.specs.Holding.{outcome_in};
ghost use Rattle.wb_judging.specs.Events.{fate_of};

use crate::record::RecordLine;
use wb_board::Reply;
use wb_codec::Datagram;
use wb_judge::{Origin, Warning, Why};
use wb_names::Name;

/// What became of a drawop that was handed in, or drawn.
#[derive(Clone, Copy, Debug, PartialEq, Eq)]
pub enum Fate {
    /// It is new, and held now.
    New,
    /// It was held already.
    Again,
    /// Another drawop of its name is held, and stays.
    Clash,
    /// It is new, and the board is full.
    Left,
}

/// What follows from a call. A call gives its events in the order in which they stand here.
#[derive(Debug, Drop)]
pub enum Event {
    /// What came is not a datagram.
    NoDatagram,
    /// The datagram that came is dropped.
    Dropped(Why),
    /// This is to be recorded before anything is sent.
    Record(RecordLine),
    /// The board holds a drawop of this name, which it did not hold before.
    Drew(Name),
    /// A datagram is to be sent.
    Send(Datagram),
    /// This became of the drawop that was handed in or drawn.
    Became(Fate),
    /// A stream is to be taken from there: this many numbers are missing.
    Fetch { origin: Origin, lacking: u64 },
    /// People are to be warned of this.
    Warn(Warning),
}

/// What became of a drawop, by the reply of its board.
pub(crate) fn fate_of(became: Option<Reply>) -> Fate
    ensures { result ≡ fate_of (outcome_in became) }
{
    match became {
        Some(Reply::New(_)) => Fate::New,
        Some(Reply::Again(_)) => Fate::Again,
        Some(Reply::Clash(_)) => Fate::Clash,
        None => Fate::Left,
    }
}
