//! What the lines of a driver do at a self-managing host, and what they come to.
ghost use Rattle.std.specs.Prelude.{◌≡◌, ◌<◌, true};
ghost use Rattle.wb_names.specs.Moments.{IsMoment};
ghost use Rattle.wb_member.specs.Holding.{outcome_in};
ghost use Rattle.wb_member.specs.Questions.{IsAnswerable};
ghost use Rattle.wb_dialog.specs.Doing.{DoesKept, LeadsOpen, kept_response};
ghost use Rattle.wb_dialog.specs.Inside.Told.{batch_text};
ghost use Rattle.wb_recovery.specs.Timing.{are_constants};
ghost use Rattle.wb_keeping.specs.Calls.{IsWithin as IsWithinKept, line_of};
ghost use Rattle.wb_dialog.specs.Hosting.{kept_adds, kept_batch, kept_performs, kept_reply, kept_tunes, unsent_text};
ghost use Rattle.wb_dialog.specs.Kinds.{response_by};
ghost use Rattle.wb_dialog.specs.Lines.{IsSaidWithin, IsWithin};
ghost use Rattle.wb_dialog.specs.declared.opened.Host.TheVariants as values;

use crate::fault::{Refusal, Unanswered, refused_by_kept};
use crate::line::DriverLine;
use crate::opened::Host;
use crate::parsing::refused;
use crate::said::Said;
use crate::told::{Batch, Told};
use std::alloc::Global;
use wb_board::Reply;
use wb_codec::Datagram;
use wb_commands::{Command, LineFault, answered};
use wb_keeping::{KeptCall, KeptDone, KeptMember};
use wb_member::{Call, Query};
use wb_names::shape_of;
use wb_recovery::Tuning;
use wb_words::Adding;

/// Where the number of its target stands among the words of a drawing.
const TARGET: u32 = 6;

/// The batch of a drawing that is not sent: its board is full.
fn unsent(became: Option<Reply>) -> Batch
    ensures { batch_text result ≡ unsent_text (outcome_in became) }
{
    match became {
        Some(Reply::New(_)) => Batch::Untold,
        Some(Reply::Again(_)) => Batch::Untold,
        Some(Reply::Clash(_)) => Batch::Told(became),
        None => Batch::Told(became),
    }
}

/// The batch that stands last: that of a drawop which came in, or of a drawing that is not sent.
fn batch(call: KeptCall<'_>, became: Option<Reply>) -> Batch
    ensures { batch_text result ≡ kept_batch (line_of call.entry) (outcome_in became) }
{
    match call {
        KeptCall::Came {
            datagram: Datagram::Draw(_),
            ..
        } => Batch::Told(became),
        KeptCall::Added { .. } => unsent(became),
        KeptCall::Came { .. } | KeptCall::Ticked { .. } | KeptCall::Tuned(_) => Batch::Untold,
    }
}

/// Something happens to its member.
#[tactic(auto, using(crate::proofs::KeptReplies::does_line))]
fn perform(alloc: Global, kept: &mut KeptMember, call: KeptCall<'_>) -> Result<Told, Unanswered>
    requires { IsWithinKept (line_of call) }
    ensures { DoesKept kept.old kept.new result (kept_performs (line_of call.entry)) }
{
    match kept.call(alloc, call) {
        Ok(KeptDone { sent, became }) => {
            let batch = batch(call, became);
            Ok(Told::Sent { sent, batch })
        }
        Err(fault) => Err(refused_by_kept(TARGET, fault)),
    }
}

/// Its timers are given other constants.
fn tune(alloc: Global, kept: &mut KeptMember, constants: Tuning) -> Result<Told, Unanswered>
    requires { are_constants constants ≡ true }
    ensures { DoesKept kept.old kept.new result (kept_tunes constants) }
{
    perform(alloc, kept, KeptCall::Tuned(constants))
}

/// The user draws.
fn add(alloc: Global, kept: &mut KeptMember, adding: &Adding) -> Result<Told, Unanswered>
    requires { IsMoment adding.now.moment }
    ensures { DoesKept kept.old kept.new result (kept_adds adding.now) }
{
    let call = KeptCall::Added {
        now: adding.moment,
        page: adding.page,
        time: adding.time,
        shape: shape_of(&adding.op),
    };
    perform(alloc, kept, call)
}

/// Its member is asked a question.
#[tactic(auto, using(crate::proofs::KeptReplies::asks_line))]
fn ask(alloc: Global, kept: &mut KeptMember, query: Query) -> Result<Told, Unanswered>
    requires { IsAnswerable query }
    ensures { DoesKept kept.old kept.new result
        (kept_reply (DriverLine.Script (Command.Question query))) }
{
    let answer = kept.answer(alloc, query)?;
    match answered(answer) {
        Ok(told) => Ok(Told::Member(told)),
        Err(fault) => Err(refused(fault)),
    }
}

/// What a line does at a self-managing host, and what it comes to; or it is refused, and then the
/// host stays as it is. Some lines are no longer its driver's to judge.
pub(crate) fn answer_kept(
    alloc: Global,
    kept: &mut KeptMember,
    line: &DriverLine,
) -> Result<Told, Unanswered>
    requires { IsWithin line.now }
    ensures { DoesKept kept.old kept.new result (kept_reply line.now) }
{
    match line {
        DriverLine::Script(Command::Skip) => Ok(Told::Nothing),
        DriverLine::Script(Command::Board { .. }) => {
            Err(Unanswered::Refused(Refusal::Line(LineFault::SecondBoard)))
        }
        DriverLine::Script(Command::Call(Call::Tick { now })) => {
            perform(alloc, kept, KeptCall::Ticked { now: *now })
        }
        DriverLine::Script(Command::Call(Call::Tune(constants))) => tune(alloc, kept, *constants),
        DriverLine::Script(Command::Question(query)) => ask(alloc, kept, *query),
        DriverLine::Came { now, datagram } => {
            let now = *now;
            perform(alloc, kept, KeptCall::Came { now, datagram })
        }
        DriverLine::Add(adding) => add(alloc, kept, adding),
        DriverLine::Version => Ok(Told::Version),
        _ => Err(Unanswered::Refused(Refusal::Kept)),
    }
}

/// The same, by what it says.
fn answer_said(alloc: Global, kept: &mut KeptMember, said: Said) -> Result<Told, Unanswered>
    requires { IsSaidWithin said }
    ensures { DoesKept kept.old kept.new result (kept_response said) }
{
    match said {
        Said::Judge(_) => Err(Unanswered::Refused(Refusal::Kept)),
        said => {
            let line = said.unjudged()?;
            answer_kept(alloc, kept, &line)
        }
    }
}

/// What a line does at a host that is self-managing and not judged.
#[tactic(auto, using(crate::proofs::EachKind::leads_kept))]
pub(crate) fn take_kept(
    alloc: Global,
    mut kept: KeptMember,
    said: Said,
) -> (Host, Result<Told, Unanswered>)
    requires { IsSaidWithin said }
    ensures { LeadsOpen (values.Kept kept) result.0 result.1 (λ tuning s. response_by tuning s said) }
{
    let result = answer_said(alloc, &mut kept, said);
    (Host::Kept(kept), result)
}
