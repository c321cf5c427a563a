//! What lines do to a member, and what they come to. `act` prints that too.
ghost use Rattle.std.specs.Prelude.{◌≡◌};
ghost use Rattle.wb_member.specs.Calls.{IsWithin as IsCallWithin};
ghost use Rattle.wb_member.specs.Questions.{IsAnswerable, told};
ghost use Rattle.wb_commands.specs.Answers.{answer_text, next_text};
ghost use Rattle.wb_commands.specs.Doing.{ComesFrom, DoesAt, TellsAnswer, untaken_by};
ghost use Rattle.wb_commands.specs.Acts.{act, question_act, called};
ghost use Rattle.wb_commands.specs.Parsing.{IsScriptWithin};

use crate::answers::told_text;
use crate::command::Command;
use crate::fault::{LineFault, Untaken};
use crate::told::Told;
use std::alloc::Global;
use wb_keeper::KeepFault;
use wb_lines::Output;
use wb_member::{Answer, Call, Member, Query};

/// Why a line is not taken, if the member refuses what it says.
fn refused(fault: KeepFault) -> Untaken
    ensures { result ≡ untaken_by fault }
{
    match fault {
        KeepFault::BackInTime => Untaken::Line(LineFault::BackInTime),
        KeepFault::Range => Untaken::Line(LineFault::Number),
        KeepFault::TooMany => Untaken::Line(LineFault::TooMany),
        KeepFault::Memory => Untaken::Memory,
    }
}

/// The next number, unless none is left.
fn next(number: Option<u32>) -> Result<Told, Untaken>
    ensures { TellsAnswer result (next_text number) }
{
    let Some(number) = number else {
        return Err(Untaken::Line(LineFault::TooMany));
    };
    Ok(Told::Answer(Answer::Next(Some(number))))
}

/// What a question comes to that is answered so. Refused with `TooMany`, if no number is left.
#[tactic(auto, using(crate::proofs::Acts::told_answer))]
pub fn answered(answer: Answer) -> Result<Told, Untaken>
    ensures { TellsAnswer result (answer_text (told answer)) }
{
    match answer {
        Answer::Next(number) => next(number),
        answer => Ok(Told::Answer(answer)),
    }
}

/// Asks the member a question.
#[tactic(auto, using(crate::proofs::Acts::asked))]
fn ask(alloc: Global, member: &mut Member, query: Query) -> Result<Told, Untaken>
    requires { IsAnswerable query }
    ensures { ComesFrom member.old member.new result (question_act query) }
{
    answered(member.answer(alloc, query)?)
}

/// Something happens to the member.
fn perform(alloc: Global, member: &mut Member, call: &Call) -> Result<Told, Untaken>
    requires { IsCallWithin call.now }
    ensures { ComesFrom member.old member.new result (called call.now) }
{
    match member.call(alloc, call) {
        Ok(done) => Ok(Told::Done(done)),
        Err(fault) => Err(refused(fault)),
    }
}

/// Does what a line says, once its batch has ended, and answers what it comes to. A refused line
/// changes nothing. One that is skipped, that opens a board or that hands in a drawop does nothing
/// here. After `Untaken::Memory` nothing is promised of the member: give it up.
pub fn take(alloc: Global, member: &mut Member, command: &Command) -> Result<Told, Untaken>
    requires { IsScriptWithin command.now }
    ensures { ComesFrom member.old member.new result (act command.now) }
{
    match command {
        Command::Question(query) => ask(alloc, member, *query),
        Command::Call(call) => perform(alloc, member, call),
        Command::Skip | Command::Board { .. } | Command::Arrive(_) => Ok(Told::Nothing),
    }
}

/// The same, and prints what it comes to. A refused line prints nothing.
#[tactic(auto, using(crate::proofs::Acts::unprinted, crate::proofs::Acts::prints, crate::proofs::Acts::forgets))]
pub fn act(
    alloc: Global,
    member: &mut Member,
    command: &Command,
    output: &mut Output,
) -> Result<(), Untaken>
    requires { IsScriptWithin command.now }
    ensures text { DoesAt member.old member.new output.old output.new result (act command.now) }
{
    match take(alloc, member, command) {
        Ok(told) => {
            output.add(told_text(alloc, &told)?.as_slice())?;
            Ok(())
        }
        Err(fault) => Err(fault),
    }
}
