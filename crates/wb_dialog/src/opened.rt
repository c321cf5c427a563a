//! A host once its board is open.
ghost use Rattle.std.specs.Prelude.{◌≡◌, Option, Some, true, IfOk};
ghost use Rattle.wb_recovery.specs.Timing.{are_constants};
ghost use Rattle.wb_member.specs.Opened.{opened_with};
ghost use Rattle.wb_dialog.specs.Doing.{IsHostAt, IsKindAt, LeadsFrom};
ghost use Rattle.wb_dialog.specs.Hosting.{Driven, in_time};
ghost use Rattle.wb_dialog.specs.Kinds.{Kind, due_of, response_by};
ghost use Rattle.wb_dialog.specs.Lines.{IsSaidWithin};

use crate::board::Board;
use crate::driving::take_driven;
use crate::fault::Unanswered;
use crate::judged::take_judged;
use crate::keeping::take_kept;
use crate::said::Said;
use crate::told::Told;
use std::alloc::{AllocError, Global};
use wb_judging::JudgedMember;
use wb_keeping::KeptMember;
use wb_member::Member;
use wb_names::MOMENT_LIMIT;
use wb_recovery::Tuning;

/// A host, once its board is open.
#[derive(Drop)]
pub(crate) enum Host {
    /// Its driver judges. It may become self-managing or judged, with the board that it opened,
    /// until a line that acts was taken.
    Driven {
        member: Member,
        board: Option<Board>,
    },
    /// It is self-managing.
    Kept(KeptMember),
    /// It is judged.
    Judged(JudgedMember),
}

/// The moment, if a line can name it.
fn in_time(moment: u64) -> Option<u64>
    ensures { result ≡ in_time moment }
{
    if moment < MOMENT_LIMIT {
        Some(moment)
    } else {
        None
    }
}

impl Host {
    /// A host whose board has just been opened.
    pub fn open(alloc: Global, board: Board, tuning: Tuning) -> Result<Host, AllocError>
        requires { are_constants tuning ≡ true }
        ensures { IfOk result (λ h. IsHostAt h
            (Driven (opened_with tuning board.member board.cells board.seed) (Some board))) }
    {
        let member = board.open(alloc, tuning)?;
        Ok(Host::Driven {
            member,
            board: Some(board),
        })
    }

    /// The next moment at which it has something to do, in microseconds. None if there is none, or
    /// if no line could name it.
    #[tactic(auto, using(crate::proofs::EachKind::due_driven, crate::proofs::EachKind::due_kept, crate::proofs::EachKind::due_judged))]
    pub fn next_due(&self) -> Option<u64>
        ensures { (s : Kind) → IsKindAt (Some self.now) s → result ≡ due_of s }
    {
        match self {
            Host::Driven { member, .. } => member.next_due(),
            Host::Kept(kept) => in_time(kept.next_due()),
            Host::Judged(member) => in_time(member.next_due()),
        }
    }

    /// What a line does, and what it comes to; or it is refused, and then the host stays as it is.
    /// If an allocation fails, nothing is promised of what is left: the host is given up.
    #[tactic(auto, using(crate::proofs::EachKind::leads_judged))]
    pub fn take(self, alloc: Global, tuning: Tuning, said: Said) -> (Host, Result<Told, Unanswered>)
        requires constants { are_constants tuning ≡ true }
        requires line { IsSaidWithin said }
        ensures { LeadsFrom (Some self) (Some result.0) result.1
            (λ s. response_by tuning s said) }
    {
        match self {
            Host::Driven { member, board } => take_driven(alloc, tuning, member, board, said),
            Host::Kept(kept) => take_kept(alloc, kept, said),
            Host::Judged(member) => take_judged(alloc, member, said),
        }
    }
}
