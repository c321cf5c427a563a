//! Why a line of a driver is refused, and why a host stops.
ghost use Rattle.std.specs.Prelude.{◌≡◌};
ghost use Rattle.wb_dialog.specs.Doing.{unanswered_of};
ghost use Rattle.wb_dialog.specs.Hosting.{wrong_target};
ghost use Rattle.wb_dialog.specs.declared.fault.Unanswered.TheVariants as unanswered;
ghost use Rattle.wb_dialog.specs.declared.fault.Refusal.TheVariants as refusals;

use std::alloc::{AllocError, AllocFailed};
use std::{error, fmt};
use wb_commands::LineFault;
use wb_keeper::KeepFault;
use wb_keeping::KeptFault;
use wb_names::FieldFault;
use wb_words::{WordFault, WrongWord};

/// Why a line of a driver is refused.
#[derive(Clone, Copy, Debug, PartialEq, Eq)]
pub enum Refusal {
    /// As a script's line is: `unknown`, `words`, `number`, `hex`, `datagram N`, `kind`,
    /// `no board`, `second board`, `back in time`, `too many` or `word N: ..`. The last of what is
    /// to be said or added, too.
    Line(LineFault),
    /// What is to be said names another member as its source, sender or asker.
    Member,
    /// The line has over 65,536 bytes before its line feed.
    Endless,
    /// The line is for a self-managing host, and this one is not.
    NotKept,
    /// The line is for its driver to judge, and the host is self-managing.
    Kept,
    /// A line that acts was taken, so the host can't become self-managing.
    TooLate,
    /// Nothing is added yet.
    Listening,
    /// A drawop of ours that is not held, with a number of 2^31 or more.
    Ours,
    /// Nothing is drawn, since somebody has our number too.
    Twin,
    /// Nothing is drawn, since the board has no cell for a drawing.
    Full,
}

impl fmt::Display for Refusal {
    ghost use Rattle.std.specs.Prelude.{Some};
    ghost use Rattle.wb_dialog.specs.Refusals.{refusal_text};

    ghost output = { λ e. Some (refusal_text e) };

    fn fmt<W: fmt::Write>(&self, f: &mut fmt::Formatter<W>) -> fmt::Result {
        match self {
            Refusal::Line(fault) => write!(f, "{fault}"),
            Refusal::Member => f.write_str("member"),
            Refusal::Endless => f.write_str("endless"),
            Refusal::NotKept => f.write_str("not kept"),
            Refusal::Kept => f.write_str("kept"),
            Refusal::TooLate => f.write_str("too late"),
            Refusal::Listening => f.write_str("listening"),
            Refusal::Ours => f.write_str("ours"),
            Refusal::Twin => f.write_str("twin"),
            Refusal::Full => f.write_str("full"),
        }
    }
}

impl error::Error for Refusal {}

/// Why a line was not answered with what it does.
#[derive(Clone, Copy, Debug, PartialEq, Eq)]
pub(crate) enum Unanswered {
    /// It is refused.
    Refused(Refusal),
    /// Memory ran out. This says nothing about the line.
    Memory,
}

impl From<Refusal> for Unanswered {
    ghost from_gives = { λ e f. f ≡ unanswered.Refused e };

    fn from(refusal: Refusal) -> Unanswered {
        Unanswered::Refused(refusal)
    }
}

impl From<LineFault> for Unanswered {
    ghost from_gives = { λ e f. f ≡ unanswered.Refused (refusals.Line e) };

    fn from(fault: LineFault) -> Unanswered {
        Unanswered::Refused(Refusal::Line(fault))
    }
}

impl From<AllocError> for Unanswered {
    ghost from_gives = { λ _ f. f ≡ unanswered.Memory };

    fn from(_error: AllocError) -> Unanswered {
        Unanswered::Memory
    }
}

impl<T: Drop> From<AllocFailed<T>> for Unanswered {
    ghost from_gives = { λ _ f. f ≡ unanswered.Memory };

    fn from(_error: AllocFailed<T>) -> Unanswered {
        Unanswered::Memory
    }
}

/// A fault of a drawing that has its number now: its target, at this place among its words, is
/// itself.
fn wrong_target(place: u32, fault: FieldFault) -> Refusal
    ensures { result ≡ wrong_target place fault }
{
    let fault = WordFault::Field(fault);
    Refusal::Line(LineFault::Word(WrongWord { place, fault }))
}

/// Why a self-managing host does not do a line. `place` is that of the target of a drawing.
pub(crate) fn refused_by_kept(place: u32, fault: KeptFault) -> Unanswered
    ensures { result ≡ unanswered_of place fault }
{
    match fault {
        KeptFault::Host(KeepFault::Memory) => Unanswered::Memory,
        KeptFault::Host(_) => Unanswered::Refused(Refusal::Line(LineFault::BackInTime)),
        KeptFault::Listening => Unanswered::Refused(Refusal::Listening),
        KeptFault::Ours => Unanswered::Refused(Refusal::Ours),
        KeptFault::Numbers => Unanswered::Refused(Refusal::Line(LineFault::TooMany)),
        KeptFault::Operation(fault) => Unanswered::Refused(wrong_target(place, fault)),
    }
}

/// Why a host did not come to the end of its input.
#[derive(Clone, Copy, Debug, PartialEq, Eq)]
pub enum HostFault {
    /// The source has failed.
    Read,
    /// The sink has failed.
    Write,
    /// Memory ran out.
    Memory,
    /// The input has 2^64 - 1 lines or more, or a line that has as many bytes.
    Endless,
}

impl fmt::Display for HostFault {
    ghost use Rattle.std.specs.Prelude.{Some};
    ghost use Rattle.wb_dialog.specs.Refusals.{host_text};

    ghost output = { λ e. Some (host_text e) };

    fn fmt<W: fmt::Write>(&self, f: &mut fmt::Formatter<W>) -> fmt::Result {
        match self {
            HostFault::Read => f.write_str("read"),
            HostFault::Write => f.write_str("write"),
            HostFault::Memory => f.write_str("memory"),
            HostFault::Endless => f.write_str("endless"),
        }
    }
}

impl error::Error for HostFault {}
