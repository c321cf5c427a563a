//! What a kept member does for the line that it is handed.
ghost use Rattle.std.specs.Prelude.{◌≡◌, ◌∷◌, [], IfOk, IsTrue, is_some, nat_le, true};
ghost use Rattle.wb_names.specs.Moments.{IsMoment};
ghost use Rattle.wb_member.specs.Holding.{outcome_in};
ghost use Rattle.wb_member.specs.Opened.{present};
ghost use Rattle.wb_keeping.specs.Calls.{IsWithin, became_of, fault_of, line_of};
ghost use Rattle.wb_keeping.specs.Performing.{IsKeptAt, Keeping};
ghost use Rattle.wb_keeping.specs.Refusing.{IsRefusedBy};
ghost use Rattle.wb_judging.specs.Handing.{handed_for, recalled};
ghost use Rattle.wb_judging.specs.Performing.{KeptDoes, fate_by};

use crate::event::{Fate, fate_of};
use crate::record::RecordLine;
use std::alloc::{AllocError, Global};
use wb_board::Reply;
use wb_codec::Datagram;
use wb_judge::Why;
use wb_keeping::{KeptCall, KeptFault, KeptMember};
use wb_names::{Mark, Marks};

/// What a kept member did for a line: how many drawops it held before, what is to be sent, in this
/// order, and what became of the drawop that was handed in or drawn, if there is one.
#[derive(Drop)]
pub(crate) struct Did {
    pub(crate) held: u32,
    pub(crate) sent: Vec<Datagram>,
    pub(crate) fate: Option<Fate>,
}

/// What became of the drawop that came or was drawn, if there is one.
fn fate_after(call: KeptCall<'_>, became: Option<Reply>) -> Option<Fate>
    ensures { (k : Keeping) → outcome_in became ≡ became_of (line_of call.entry) k.host →
        result ≡ fate_by (line_of call.entry) k }
{
    match call {
        KeptCall::Came {
            datagram: Datagram::Draw(_),
            ..
        }
        | KeptCall::Added { .. } => Some(fate_of(became)),
        KeptCall::Came { .. } | KeptCall::Ticked { .. } | KeptCall::Tuned(_) => None,
    }
}

/// Something happens to it.
#[tactic(auto, unfolding(crate::specs::Performing::after_kept_line, crate::specs::Performing::sent_by_kept_line))]
pub(crate) fn perform(
    kept: &mut KeptMember,
    alloc: Global,
    call: KeptCall<'_>,
) -> Result<Did, KeptFault>
    requires { IsWithin (line_of call) }
    ensures fault { (k : Keeping) → IsKeptAt kept.old k →
        IsRefusedBy (fault_of (line_of call.entry) k) result }
    ensures refused { (k : Keeping) → IsKeptAt kept.old k →
        IsTrue (is_some (fault_of (line_of call.entry) k)) → kept.new ≡ kept.old }
    ensures does { IfOk result (λ did. KeptDoes (line_of call.entry)
        kept.old kept.new did.held did.sent.items did.fate) }
{
    let held = kept.member().held();
    match kept.call(alloc, call) {
        Ok(done) => Ok(Did {
            held,
            sent: done.sent,
            fate: fate_after(call, done.became),
        }),
        Err(fault) => Err(fault),
    }
}

/// It is handed a datagram, or a tick of that moment if the datagram is dropped.
pub(crate) fn hand(
    kept: &mut KeptMember,
    alloc: Global,
    now: u64,
    datagram: &Datagram,
    why: Option<Why>,
) -> Result<Did, KeptFault>
    requires { IsMoment now }
    ensures fault { (k : Keeping) → IsKeptAt kept.old k →
        IsRefusedBy (fault_of (handed_for now datagram.now why) k) result }
    ensures does { IfOk result (λ did. KeptDoes (handed_for now datagram.now why)
        kept.old kept.new did.held did.sent.items did.fate) }
{
    match why {
        None => perform(kept, alloc, KeptCall::Came { now, datagram }),
        Some(_) => perform(kept, alloc, KeptCall::Ticked { now }),
    }
}

/// It is handed a line of the record.
pub(crate) fn recall(
    kept: &mut KeptMember,
    alloc: Global,
    now: u64,
    line: &RecordLine,
) -> Result<Did, KeptFault>
    requires { IsMoment now }
    ensures fault { (k : Keeping) → IsKeptAt kept.old k → nat_le (present k.host) now ≡ true →
        IsRefusedBy (fault_of (recalled now line.now) k) result }
    ensures refused { (k : Keeping) → IsKeptAt kept.old k →
        IsTrue (is_some (fault_of (recalled now line.now) k)) → kept.new ≡ kept.old }
    ensures does { IfOk result (λ did. KeptDoes (recalled now line.now)
        kept.old kept.new did.held did.sent.items did.fate) }
{
    match line {
        RecordLine::Tick(_) | RecordLine::Owner { .. } => {
            perform(kept, alloc, KeptCall::Ticked { now })
        }
        RecordLine::Said(drawop) | RecordLine::Known(drawop) | RecordLine::Strange(drawop) => {
            let datagram = &Datagram::Draw(*drawop);
            perform(kept, alloc, KeptCall::Came { now, datagram })
        }
        RecordLine::Mark {
            speaker,
            page,
            mark,
        } => {
            let datagram = &Datagram::PageState {
                sender: *speaker,
                page: *page,
                marks: only(alloc, *mark)?,
            };
            perform(kept, alloc, KeptCall::Came { now, datagram })
        }
    }
}

/// The list of one mark.
fn only(alloc: Global, mark: Mark) -> Result<Marks, AllocError>
    ensures { IfOk result (λ marks. marks ≡ mark ∷ []) }
{
    let mut marks = Vec::new(alloc);
    marks.push(mark)?;
    Ok(Marks::from_ascending(marks))
}
