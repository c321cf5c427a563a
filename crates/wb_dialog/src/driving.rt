//! What a line does at a host that its driver drives.
ghost use Rattle.std.specs.Prelude.{◌≡◌, ◌≤◌, None, Some, true, if◌then◌else◌};
ghost use Rattle.wb_recovery.specs.Timing.{are_constants};
ghost use Rattle.wb_recovery.specs.declared.tuning.Tuning.{Tuning as Constants};
ghost use Rattle.wb_dialog.specs.Doing.{DoesOpen, LeadsFrom};
ghost use Rattle.wb_dialog.specs.Hosting.{acts_in_script, is_acting, keep_reply, reply_to, taken_by};
ghost use Rattle.wb_dialog.specs.Kinds.{response_by};
ghost use Rattle.wb_dialog.specs.Lines.{IsSaidWithin, IsWithin};
ghost use Rattle.wb_dialog.specs.declared.opened.Host.TheVariants as values;

use crate::answering::answer;
use crate::board::Board;
use crate::fault::{Refusal, Unanswered};
use crate::judged::begin_to_judge;
use crate::line::DriverLine;
use crate::opened::Host;
use crate::said::Said;
use crate::told::Told;
use std::alloc::Global;
use wb_commands::Command;
use wb_keeping::KeptMember;
use wb_member::{Call, Member};
use wb_recovery::Tuning;

/// Whether a line of a script acts on its host.
fn acts_in_script(line: &Command) -> bool
    ensures { result ≡ acts_in_script line.now }
{
    match line {
        Command::Arrive(_) => true,
        Command::Call(Call::Tick { .. }) => false,
        Command::Call(_) => true,
        _ => false,
    }
}

/// Whether a line that is taken acts on its host: after it a host can't become self-managing.
fn is_acting(line: &DriverLine) -> bool
    ensures { result ≡ is_acting line.now }
{
    match line {
        DriverLine::Script(line) => acts_in_script(line),
        DriverLine::Say(_) => true,
        DriverLine::Keep { .. } => true,
        _ => false,
    }
}

/// The board with which a driven host may become self-managing after a line.
fn board_after(is_acting: bool, board: Option<Board>) -> Option<Board>
    ensures { result ≡ (if is_acting then None else board) }
{
    if is_acting { None } else { board }
}

/// From now on it is self-managing, if it still has its board.
#[tactic(auto, using(crate::proofs::KeptReplies::begins_kept, crate::proofs::KeptReplies::begins_late))]
fn begin_to_keep(
    member: Member,
    board: Option<Board>,
    rate: u32,
    listen: u32,
) -> (Host, Result<Told, Unanswered>)
    requires rate { 1 ≤ rate }
    ensures { DoesOpen (values.Driven member board) result.0 result.1
        (λ h. keep_reply rate listen (Some h)) }
{
    match board {
        Some(board) => {
            let seed = board.seed();
            let kept = KeptMember::keep(member, u64::from(rate), u64::from(listen), seed);
            (Host::Kept(kept), Ok(Told::Nothing))
        }
        None => (
            Host::Driven {
                member,
                board: None,
            },
            Err(Unanswered::Refused(Refusal::TooLate)),
        ),
    }
}

/// It does what a line says that does not begin to keep it. One that acts takes its board.
#[tactic(auto, using(crate::proofs::KeptReplies::taken_driven))]
fn drive(
    alloc: Global,
    mut member: Member,
    board: Option<Board>,
    line: DriverLine,
) -> (Host, Result<Told, Unanswered>)
    requires { IsWithin line }
    ensures { DoesOpen (values.Driven member board) result.0 result.1 (taken_by line) }
{
    let is_acting = is_acting(&line);
    match answer(alloc, &mut member, line) {
        Ok(told) => {
            let board = board_after(is_acting, board);
            (Host::Driven { member, board }, Ok(told))
        }
        Err(fault) => (Host::Driven { member, board }, Err(fault)),
    }
}

/// What it does for a line that does not begin to judge.
#[tactic(auto, using(crate::proofs::EachKind::drives_line))]
fn take(
    alloc: Global,
    member: Member,
    board: Option<Board>,
    line: DriverLine,
) -> (Host, Result<Told, Unanswered>)
    requires { IsWithin line }
    ensures { (tuning : Constants) → DoesOpen (values.Driven member board) result.0 result.1
        (λ h. reply_to tuning (Some h) line) }
{
    match line {
        DriverLine::Keep { rate, listen } => begin_to_keep(member, board, rate, listen),
        line => drive(alloc, member, board, line),
    }
}

/// What it does for a line; or it is refused, and then it stays as it is.
pub(crate) fn take_driven(
    alloc: Global,
    tuning: Tuning,
    member: Member,
    board: Option<Board>,
    said: Said,
) -> (Host, Result<Told, Unanswered>)
    requires constants { are_constants tuning ≡ true }
    requires line { IsSaidWithin said }
    ensures { LeadsFrom (Some (values.Driven member board)) (Some result.0) result.1
        (λ s. response_by tuning s said) }
{
    match said {
        Said::Judge(line) => begin_to_judge(alloc, tuning, line, member, board),
        said => match said.unjudged() {
            Ok(line) => take(alloc, member, board, line),
            Err(fault) => (
                Host::Driven { member, board },
                Err(Unanswered::Refused(Refusal::Line(fault))),
            ),
        },
    }
}
