//! What becomes of a datagram.

ghost use Rattle.std.specs.Prelude.{◌≡◌};
ghost use Rattle.wb_judge.specs.Verdicts.{dropped, warned};

use crate::origin::Origin;

/// Why a datagram is dropped.
#[derive(Clone, Copy, Debug, PartialEq, Eq)]
pub enum Why {
    /// It is under our own number, and not ours.
    Own,
    /// It is under a number that speaks from another origin.
    Speaks,
    /// Too many new numbers speak.
    Crowd,
    /// It has a mark of ours that nobody draws up to.
    Mark,
    /// An origin that is not known asks for what is not held.
    Stranger,
    /// Members, or origins that are not known, ask for too much.
    Flood,
    /// It would hush us: the drawop is held, and no known origin gave it again, or its name is firm;
    /// or a member requests what we lack, and its name is firm.
    Again,
    /// The time of the drawop is too far ahead.
    Ahead,
    /// The board has no cell for it.
    Full,
    /// Its origin, or all that are not known, gave as much as is taken.
    Share,
    /// No known origin gave it, and it would add a page, or a source on a page, beyond what
    /// strangers may have.
    Pages,
    /// No known origin gave it, and it would leave numbers of its source missing below it, of which
    /// no member told.
    Holes,
}

/// What people are to be warned of.
#[derive(Clone, Copy, Debug, PartialEq, Eq)]
pub enum Warning {
    /// Another owner speaks under this number.
    Impostor(u32),
    /// Somebody reports a mark of ours that we did not draw up to.
    ForgedMark,
    /// Somebody has our number too.
    Twin,
    /// The board is full.
    NoCell,
    /// Strangers gave as much as is taken.
    NoShare,
}

/// What becomes of a datagram: why it is dropped, if it is; what people are to be warned of; and
/// from where a stream is to be taken.
#[derive(Clone, Copy, Debug)]
pub struct Verdict {
    pub why: Option<Why>,
    pub warning: Option<Warning>,
    pub fetch: Option<Origin>,
}

impl Verdict {
    /// It is handed in.
    pub const TAKEN: Verdict = Verdict {
        why: None,
        warning: None,
        fetch: None,
    };

    /// It is dropped.
    pub(crate) fn dropped(why: Why) -> Verdict
        ensures { result ≡ dropped why }
    {
        Verdict {
            why: Some(why),
            warning: None,
            fetch: None,
        }
    }

    /// It is dropped, and people are warned.
    pub(crate) fn warned(why: Why, warning: Warning) -> Verdict
        ensures { result ≡ warned why warning }
    {
        Verdict {
            why: Some(why),
            warning: Some(warning),
            fetch: None,
        }
    }
}
