//! What follows from a call by bytes: events, each of which has a kind and bytes.
ghost use Rattle.std.specs.Prelude.{◌≡◌, ◌++◌, IfOk};
ghost use Rattle.std.specs.Int.{w32, to_be_bytes};
ghost use Rattle.wb_member.specs.Holding.{outcome_in};
ghost use Rattle.wb_c.specs.Events.{bytes_of, gap_bytes, kind_of, outcome_event};

use crate::judged_event;
use std::alloc::{AllocError, Global};
use wb_board::Reply;
use wb_codec::{Datagram, write};
use wb_display::Canvas;
use wb_judging::Event as JudgedEvent;
use wb_names::{Drawop, Gap, Mark, PageId};

/// What follows from a call by bytes.
#[derive(Drop)]
pub(crate) enum Event {
    /// A datagram is to be sent.
    Sent(Datagram),
    /// The drawop that came or was drawn is new, and held now.
    New,
    /// It was held already.
    Again,
    /// Another drawop of its name is held, and stays.
    Clash,
    /// It is new, and the board is full.
    Left,
    /// A drawop that a page shows.
    Shown(Drawop),
    /// A range of numbers that is missing.
    Missing(Gap),
    /// The greatest number of a source.
    Greatest(Mark),
    /// A page.
    Page(PageId),
    /// The number of its next drawop on a page.
    Next(u32),
    /// A canvas.
    Painted(Canvas),
    /// The digest of a page.
    Digest([u8; 32]),
    /// What a judged member gives.
    Judged(JudgedEvent),
}

/// The event that says what became of a drawop.
pub(crate) fn outcome_event(became: Option<Reply>) -> Event
    ensures { result ≡ outcome_event (outcome_in became) }
{
    match became {
        Some(Reply::New(_)) => Event::New,
        Some(Reply::Again(_)) => Event::Again,
        Some(Reply::Clash(_)) => Event::Clash,
        None => Event::Left,
    }
}

/// Two numbers, one after the other.
fn pair(first: u32, second: u32) -> [u8; 8]
    ensures { result ≡ to_be_bytes w32 first ++ to_be_bytes w32 second }
{
    let [a0, a1, a2, a3] = first.to_be_bytes();
    let [b0, b1, b2, b3] = second.to_be_bytes();
    [a0, a1, a2, a3, b0, b1, b2, b3]
}

/// The source of a range, its first number and its last.
fn range(gap: &Gap) -> [u8; 12]
    ensures { result ≡ gap_bytes gap.now }
{
    let [a0, a1, a2, a3] = gap.source.to_be_bytes();
    let [b0, b1, b2, b3] = gap.first.to_be_bytes();
    let [c0, c1, c2, c3] = gap.last.to_be_bytes();
    [a0, a1, a2, a3, b0, b1, b2, b3, c0, c1, c2, c3]
}

impl Event {
    /// The number of its kind, from 1.
    pub(crate) fn kind(&self) -> u32
        ensures { result ≡ kind_of self.now }
    {
        match self {
            Event::Sent(_) => 1,
            Event::New => 2,
            Event::Again => 3,
            Event::Clash => 4,
            Event::Left => 5,
            Event::Shown(_) => 6,
            Event::Missing(_) => 7,
            Event::Greatest(_) => 8,
            Event::Page(_) => 9,
            Event::Next(_) => 10,
            Event::Painted(_) => 11,
            Event::Digest(_) => 17,
            Event::Judged(event) => judged_event::kind_of(event),
        }
    }

    /// Its bytes.
    pub(crate) fn bytes(&self, alloc: Global) -> Result<Vec<u8>, AllocError>
        ensures { IfOk result (λ bytes. bytes.items ≡ bytes_of self.now) }
    {
        match self {
            Event::Sent(datagram) => write(alloc, datagram),
            Event::Shown(drawop) => write(alloc, &Datagram::Draw(*drawop)),
            Event::Missing(gap) => Vec::from_slice(alloc, &range(gap)),
            Event::Greatest(mark) => Vec::from_slice(alloc, &pair(mark.source(), mark.high())),
            Event::Page(page) => Vec::from_slice(alloc, &pair(page.creator, page.number)),
            Event::Next(number) => Vec::from_slice(alloc, &number.to_be_bytes()),
            Event::Painted(canvas) => Vec::from_slice(alloc, canvas.bytes()),
            Event::Digest(digest) => Vec::from_slice(alloc, digest),
            Event::Judged(event) => judged_event::bytes_of(alloc, event),
            Event::New => Ok(Vec::new(alloc)),
            Event::Again => Ok(Vec::new(alloc)),
            Event::Clash => Ok(Vec::new(alloc)),
            Event::Left => Ok(Vec::new(alloc)),
        }
    }
}
