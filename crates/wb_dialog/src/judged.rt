//! What a line does at a judged host, and how a driven one becomes judged.
ghost use Rattle.std.specs.Prelude.{◌≡◌, IfSome, Some, true};
ghost use Rattle.wb_names.specs.Moments.{IsMoment};
ghost use Rattle.wb_recovery.specs.Timing.{are_constants};
ghost use Rattle.wb_dialog.specs.Doing.{LeadsFrom, LeadsJudged};
ghost use Rattle.wb_dialog.specs.JudgedLines.{IsJudgeLine};
ghost use Rattle.wb_dialog.specs.Kinds.{common_response, judged_response, response_by, tick_of};
ghost use Rattle.wb_dialog.specs.Lines.{IsSaidWithin, IsWithin};
ghost use Rattle.wb_dialog.specs.declared.opened.Host.TheVariants as values;
ghost use Rattle.wb_dialog.specs.declared.said.Said.TheVariants as saids;

use crate::beginning::begin;
use crate::board::Board;
use crate::fault::{Refusal, Unanswered};
use crate::judged_answering::answer;
use crate::judged_line::{JudgeLine, JudgedLine};
use crate::keeping::answer_kept;
use crate::line::DriverLine;
use crate::opened::Host;
use crate::said::Said;
use crate::told::Told;
use std::alloc::Global;
use wb_commands::Command;
use wb_judging::{Call, JudgedMember, News};
use wb_member::{Call as MemberCall, Member};
use wb_recovery::Tuning;

/// From now on a driven host is judged, if it still has its board, which is opened anew.
#[tactic(auto, using(crate::proofs::EachKind::begins_judged, crate::proofs::EachKind::begins_late, crate::proofs::EachKind::forgets))]
pub(crate) fn begin_to_judge(
    alloc: Global,
    tuning: Tuning,
    line: JudgeLine,
    member: Member,
    board: Option<Board>,
) -> (Host, Result<Told, Unanswered>)
    requires constants { are_constants tuning ≡ true }
    requires line { IsJudgeLine line }
    ensures { LeadsFrom (Some (values.Driven member board)) (Some result.0) result.1
        (λ s. response_by tuning s (saids.Judge line)) }
{
    let Some(board) = board else {
        let late = Host::Driven {
            member,
            board: None,
        };
        return (late, Err(Unanswered::Refused(Refusal::TooLate)));
    };
    match begin(alloc, tuning, line, &board) {
        Ok(judged) => (Host::Judged(judged), Ok(Told::Nothing)),
        Err(_) => {
            let board = Some(board);
            (Host::Driven { member, board }, Err(Unanswered::Memory))
        }
    }
}

/// The moment of a tick.
fn tick_of(line: &DriverLine) -> Option<u64>
    requires { IsWithin line.now }
    ensures tick { result ≡ tick_of line.now }
    ensures moment { IfSome result IsMoment }
{
    match line {
        DriverLine::Script(Command::Call(MemberCall::Tick { now })) => Some(*now),
        _ => None,
    }
}

/// A line that any host has is answered as by its self-managing member, but for a tick, of which
/// its judge hears too.
#[tactic(auto, using(crate::proofs::EachKind::leads_tick, crate::proofs::EachKind::leads_common))]
fn take_common(
    alloc: Global,
    mut member: JudgedMember,
    line: &DriverLine,
) -> (Host, Result<Told, Unanswered>)
    requires { IsWithin line.now }
    ensures { LeadsJudged member result.0 result.1 (common_response line.now) }
{
    match tick_of(line) {
        Some(now) => {
            let news = News::Nothing;
            let told = answer(
                alloc,
                &mut member,
                JudgedLine::Call(Call::Passed { now, news }),
            );
            (Host::Judged(member), told)
        }
        None => {
            let (mut kept, judge) = member.into_parts();
            let told = answer_kept(alloc, &mut kept, line);
            (Host::Judged(JudgedMember::of_parts(kept, judge)), told)
        }
    }
}

/// What a line does at a judged host, and what it comes to; or it is refused, and then the host
/// stays as it is.
#[tactic(auto, using(crate::proofs::EachKind::leads_own, crate::proofs::EachKind::leads_not))]
pub(crate) fn take_judged(
    alloc: Global,
    mut member: JudgedMember,
    said: Said,
) -> (Host, Result<Told, Unanswered>)
    requires { IsSaidWithin said }
    ensures { LeadsJudged member result.0 result.1 (judged_response said) }
{
    match said {
        Said::Common(Ok(line)) => take_common(alloc, member, &line),
        Said::Own(Ok(line), _) => {
            let told = answer(alloc, &mut member, line);
            (Host::Judged(member), told)
        }
        Said::Common(Err(fault)) | Said::Own(Err(fault), _) | Said::Unjudged(_, fault) => (
            Host::Judged(member),
            Err(Unanswered::Refused(Refusal::Line(fault))),
        ),
        Said::Judge(_) => (
            Host::Judged(member),
            Err(Unanswered::Refused(Refusal::Kept)),
        ),
    }
}
