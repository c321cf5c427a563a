//! What the lines of a driver do at an open member, and what they come to.
ghost use Rattle.std.specs.Prelude.{◌≡◌};
ghost use Rattle.wb_commands.specs.Acts.{act};
ghost use Rattle.wb_commands.specs.Parsing.{IsScriptWithin};
ghost use Rattle.wb_dialog.specs.Lines.{IsWithin};
ghost use Rattle.wb_dialog.specs.Dialog.{answer_at, answered, arrives, goes_out, says, script_answer, speaker};
ghost use Rattle.wb_dialog.specs.Doing.{DoesAt};

use crate::fault::{Refusal, Unanswered};
use crate::line::DriverLine;
use crate::parsing::refused;
use crate::told::Told;
use std::alloc::Global;
use wb_board::Reply;
use wb_codec::Datagram;
use wb_commands::{Command, LineFault, take};
use wb_member::Member;
use wb_names::Drawop;

/// A call or a question.
fn act(alloc: Global, member: &mut Member, command: &Command) -> Result<Told, Unanswered>
    requires { IsScriptWithin command.now }
    ensures { DoesAt member.old member.new result (λ host. answered (act command.now host)) }
{
    match take(alloc, member, command) {
        Ok(told) => Ok(Told::Member(told)),
        Err(fault) => Err(refused(fault)),
    }
}

/// The member that a datagram names as its source, sender or asker.
fn speaker(datagram: &Datagram) -> u32
    ensures { result ≡ speaker datagram.now }
{
    match datagram {
        Datagram::Draw(drawop) => drawop.name().source(),
        Datagram::Session { sender, .. } => *sender,
        Datagram::Request { asker, .. } => *asker,
        Datagram::AskPages { asker } => *asker,
        Datagram::PageState { sender, .. } => *sender,
    }
}

/// A drawop that came in is accepted.
fn arrive(member: &mut Member, drawop: &Drawop) -> Result<Told, Unanswered>
    ensures { DoesAt member.old member.new result (arrives drawop.now) }
{
    Ok(Told::Batch(member.accept(drawop)?))
}

/// A drawop of ours is accepted, and goes out if it is new or was held already.
fn publish(member: &mut Member, drawop: &Drawop) -> Result<Told, Unanswered>
    ensures { DoesAt member.old member.new result (goes_out (Datagram.Draw drawop.now)) }
{
    let became = member.accept(drawop)?;
    match became {
        Some(Reply::New(_)) => Ok(Told::Send(Datagram::Draw(*drawop))),
        Some(Reply::Again(_)) => Ok(Told::Send(Datagram::Draw(*drawop))),
        Some(Reply::Clash(_)) => Ok(Told::Batch(became)),
        None => Ok(Told::Batch(became)),
    }
}

/// A datagram of ours goes out. A drawop is accepted first.
fn go_out(member: &mut Member, datagram: Datagram) -> Result<Told, Unanswered>
    ensures { DoesAt member.old member.new result (goes_out datagram) }
{
    match datagram {
        Datagram::Draw(drawop) => publish(member, &drawop),
        datagram => Ok(Told::Send(datagram)),
    }
}

/// A datagram is to be said.
fn say(member: &mut Member, datagram: Datagram) -> Result<Told, Unanswered>
    ensures { DoesAt member.old member.new result (says datagram) }
{
    if speaker(&datagram) != member.me() {
        return Err(Unanswered::Refused(Refusal::Member));
    }
    go_out(member, datagram)
}

/// What a line of a script does here, or a call or a question that no script has.
fn script(alloc: Global, member: &mut Member, command: &Command) -> Result<Told, Unanswered>
    requires { IsScriptWithin command.now }
    ensures { DoesAt member.old member.new result (script_answer command.now) }
{
    match command {
        Command::Skip => Ok(Told::Nothing),
        Command::Arrive(drawop) => arrive(member, drawop),
        Command::Board { .. } => Err(Unanswered::Refused(Refusal::Line(LineFault::SecondBoard))),
        command => act(alloc, member, command),
    }
}

/// What a line does at an open member, and what it comes to; or it is refused, and then the member
/// stays as it is.
pub(crate) fn answer(
    alloc: Global,
    member: &mut Member,
    line: DriverLine,
) -> Result<Told, Unanswered>
    requires { IsWithin line }
    ensures { DoesAt member.old member.new result (answer_at line) }
{
    match line {
        DriverLine::Script(command) => script(alloc, member, &command),
        DriverLine::Say(datagram) => say(member, datagram),
        DriverLine::Version => Ok(Told::Version),
        DriverLine::Keep { .. } => Err(Unanswered::Refused(Refusal::TooLate)),
        DriverLine::Came { .. } => Err(Unanswered::Refused(Refusal::NotKept)),
        DriverLine::Add(_) => Err(Unanswered::Refused(Refusal::NotKept)),
    }
}
