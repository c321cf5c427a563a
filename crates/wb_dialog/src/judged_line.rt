//! The lines that a judged host has besides those of any host.
use wb_codec::Datagram;
use wb_judging::Call;
use wb_names::PageId;

/// `judge NOW RATE LISTEN WALL HERE STRANGERS`: from the moment NOW on the host is judged.
#[derive(Clone, Copy, Debug)]
pub struct JudgeLine {
    /// The present moment, in microseconds, below 2^48.
    pub now: u64,
    /// How many bytes a second the reports of all members together may take, from 1 to 1,000,000.
    pub rate: u32,
    /// For how many microseconds nothing is drawn.
    pub listen: u32,
    /// The time of day at that moment, in microseconds since 1970, below 2^62.
    pub wall: u64,
    /// The owner of our own origin, if the network keeps origins: a number, or `-`.
    pub here: Option<u64>,
    /// How many drawops of strangers are taken: a number, or `-` for as many as the board has for
    /// them.
    pub strangers: Option<u16>,
}

/// A line that a judged host alone has, with its words as fields.
#[derive(Debug, Drop)]
pub enum JudgedLine {
    /// Something happens to the member: `came NOW ORIGIN HEX`, where an origin is `PLACE` or
    /// `PLACE@OWNER`, `add NOW C/N OPERATION`, `wall NOW WALL`, `gone NOW ORIGIN`, or `held LINE`
    /// with a line of the record.
    Call(Call),
    /// `held LINE`, if the line of the record says nothing to a member: no words, a comment, or the
    /// line of its board.
    Skip,
    /// `members`: which numbers were heard lately, and from where.
    Members,
    /// `list MOST`: the first pages that are drawn on, at most MOST.
    List {
        most: u32,
    },
    /// `paint C N W H`: the canvas of a page, W cells wide and H high.
    Paint {
        page: PageId,
        width: u32,
        height: u32,
    },
    /// `since C N K`: what a page shows otherwise than when K drawops were held.
    Since {
        page: PageId,
        count: u32,
    },
    /// `lacks C N`: how many drawops of a page are missing.
    Lacks {
        page: PageId,
    },
    /// `words HEX`: a datagram in words.
    Words {
        datagram: Datagram,
    },
}
