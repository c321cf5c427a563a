//! What happens to a judged member, and the events that follow.
ghost use Rattle.std.specs.Prelude.{IfOk, MatchResult};
ghost use Rattle.wb_judging.specs.Calling.{IsWithin};
ghost use Rattle.wb_c.specs.Judging.{Denies, Gives, Judges};

use crate::event::Event;
use crate::status::{DONE, judged_status};
use crate::told::add_judged;
use std::alloc::{AllocError, Global};
use std::collections::VecDeque;
use wb_judging::{Call, Event as JudgedEvent, JudgedFault, JudgedMember};

/// Adds the events that follow from a call, or says why it is refused.
fn tell(
    did: Result<Vec<JudgedEvent>, JudgedFault>,
    events: &mut VecDeque<Event>,
) -> Result<u32, AllocError>
    ensures { MatchResult did
        (λ given. Gives given.items events.old.items events.new.items result)
        (λ fault. Denies fault events.old.items events.new.items result) }
{
    match did {
        Ok(given) => {
            add_judged(events, given)?;
            Ok(DONE)
        }
        Err(fault) => judged_status(fault),
    }
}

/// Something happens to a judged member.
pub(crate) fn perform(
    alloc: Global,
    member: &mut JudgedMember,
    call: &Call,
    events: &mut VecDeque<Event>,
) -> Result<u32, AllocError>
    requires { IsWithin call.now }
    ensures { IfOk result (Judges call.now member.old member.new events.old.items events.new.items) }
{
    tell(member.call(alloc, call), events)
}
