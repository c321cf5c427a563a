//! What a self-managing member is handed by bytes, and the events that follow.
ghost use Rattle.std.specs.Prelude.{◌≡◌, ◌++◌, IfOk, OnOk};
ghost use Rattle.wb_member.specs.Holding.{outcome_in};
ghost use Rattle.wb_member.specs.Questions.{IsAnswerable};
ghost use Rattle.wb_keeping.specs.Calls.{IsWithin, line_of};
ghost use Rattle.wb_c.specs.Performing.{Answers, Performs, became_events};

use crate::event::{Event, outcome_event};
use crate::status::{DONE, kept_status};
use crate::told::{add, add_answer, add_sent};
use std::alloc::{AllocError, Global};
use std::collections::VecDeque;
use wb_board::Reply;
use wb_codec::Datagram;
use wb_keeping::{KeptCall, KeptDone, KeptMember};
use wb_member::Query;

/// Adds the event that says what became of the drawop that came in or was drawn, if there is one.
fn add_became(
    events: &mut VecDeque<Event>,
    call: KeptCall<'_>,
    became: Option<Reply>,
) -> Result<(), AllocError>
    ensures { OnOk result (events.new.items ≡
        events.old.items ++ became_events (line_of call.entry) (outcome_in became)) }
{
    match call {
        KeptCall::Came {
            datagram: Datagram::Draw(_),
            ..
        }
        | KeptCall::Added { .. } => add(events, outcome_event(became)),
        KeptCall::Came { .. } | KeptCall::Ticked { .. } | KeptCall::Tuned(_) => Ok(()),
    }
}

/// Something happens to the member.
pub(crate) fn perform(
    alloc: Global,
    kept: &mut KeptMember,
    call: KeptCall<'_>,
    events: &mut VecDeque<Event>,
) -> Result<u32, AllocError>
    requires { IsWithin (line_of call) }
    ensures { IfOk result (Performs (line_of call.entry) kept.old kept.new
        events.old.items events.new.items) }
{
    match kept.call(alloc, call) {
        Ok(KeptDone { sent, became }) => {
            add_sent(events, sent)?;
            add_became(events, call, became)?;
            Ok(DONE)
        }
        Err(fault) => kept_status(fault),
    }
}

/// It is asked a question.
pub(crate) fn ask(
    alloc: Global,
    kept: &mut KeptMember,
    query: Query,
    events: &mut VecDeque<Event>,
) -> Result<u32, AllocError>
    requires { IsAnswerable query }
    ensures { IfOk result (Answers query kept.old kept.new events.old.items events.new.items) }
{
    let answer = kept.answer(alloc, query)?;
    add_answer(events, answer)?;
    Ok(DONE)
}
