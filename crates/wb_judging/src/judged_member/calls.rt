//! What happens to a judged member.
ghost use Rattle.std.specs.Prelude.{◌≡◌, IfOk, IsTrue, is_some};
ghost use Rattle.std.specs.Option.{option_map};
ghost use Rattle.wb_names.specs.Moments.{IsMoment};
ghost use Rattle.wb_names.specs.Shapes.{op_of};
ghost use Rattle.wb_judge.specs.Judging.{draws};
ghost use Rattle.wb_judging.specs.Calling.{Answers, IsWithin, is_early};
ghost use Rattle.wb_judging.specs.Judged.{Held, Judged, UserDrew};
ghost use Rattle.wb_judging.specs.Performing.{IsJudgedAt, Performs};
ghost use Rattle.wb_judging.specs.Refusing.{IsRefusedAs, draw_fault, held_fault};
ghost use Rattle.wb_judging.specs.declared.judged_fault.JudgedFault.TheVariants.{Kept};

use crate::call::Call;
use crate::event::Event;
use crate::facts::has_number;
use crate::handing::{perform, recall};
use crate::hearing::hear_recalled;
use crate::judged_fault::JudgedFault;
use crate::judged_member::JudgedMember;
use crate::record::{Giver, RecordLine};
use std::alloc::Global;
use wb_keeper::KeepFault;
use wb_keeping::{KeptCall, KeptFault};
use wb_names::{PageId, Shape, shape_of};

/// A moment is before the present one.
const BACK_IN_TIME: JudgedFault = JudgedFault::Kept(KeptFault::Host(KeepFault::BackInTime));

/// No number is left for a drawing.
const NO_NUMBER: JudgedFault = JudgedFault::Kept(KeptFault::Numbers);

impl JudgedMember {
    /// Something happens to the member, and these events follow; or the call is refused, and the
    /// member stays as it was.
    ///
    /// What others give, a moment and a time of day are refused before the present moment, and for
    /// nothing else. The user draws nothing if somebody has our number too, or no cell is left for
    /// a drawing, or our numbers on the page are used up below 2^31; and then as the kept member
    /// refuses it. A line of the record is refused only if it has a drawop of ours that is not held
    /// and has a number from 2^31 on, which no call records.
    pub fn call(&mut self, alloc: Global, call: &Call) -> Result<Vec<Event>, JudgedFault>
        requires { IsWithin call.now }
        ensures { Answers call.now self.old result self.new }
    {
        if self.is_early(call) {
            return Err(BACK_IN_TIME);
        }
        match call {
            Call::CameFrom {
                now,
                origin,
                datagram,
            } => self.take(alloc, *now, *origin, datagram),
            Call::Passed { now, news } => self.pass(alloc, *now, news),
            Call::UserDrew { now, page, op } => self.add(alloc, *now, *page, shape_of(op)),
            Call::Held(line) => self.held(alloc, line),
        }
    }

    /// Whether a call is of a moment before the present one, and so is refused.
    fn is_early(&self, call: &Call) -> bool
        ensures { (h : Judged) → IsJudgedAt self.now h → result ≡ is_early call.now h }
    {
        match call {
            Call::UserDrew { .. } | Call::Held(_) => false,
            Call::CameFrom { now, .. } | Call::Passed { now, .. } => {
                *now < self.kept.member().moment()
            }
        }
    }

    /// Its user draws.
    fn add(
        &mut self,
        alloc: Global,
        now: u64,
        page: PageId,
        shape: Shape<'_>,
    ) -> Result<Vec<Event>, JudgedFault>
        requires { IsMoment now }
        ensures fault { (h : Judged) → IsJudgedAt self.old h →
            IsRefusedAs (draw_fault now page (op_of shape.entry) h) result }
        ensures refused { (h : Judged) → IsJudgedAt self.old h →
            IsTrue (is_some (draw_fault now page (op_of shape.entry) h)) → self.new ≡ self.old }
        ensures does { IfOk result (λ events.
            Performs (UserDrew now page (op_of shape.entry)) self.old events.items self.new) }
    {
        let held = self.kept.member().held();
        if let Some(fault) = self.judge.adding_fault(is_drawing(&shape), held) {
            return Err(JudgedFault::Judge(fault));
        }
        if !has_number(&self.kept, page) {
            return Err(NO_NUMBER);
        }
        let time = self.judge.time_of_day(now);
        let call = KeptCall::Added {
            now,
            page,
            time,
            shape,
        };
        let did = perform(&mut self.kept, alloc, call)?;
        let mut events = Vec::new(alloc);
        self.tell(alloc, now, Giver::User, Vec::new(alloc), did, &mut events)?;
        Ok(events)
    }

    /// A line of its record is taken.
    fn held(&mut self, alloc: Global, line: &RecordLine) -> Result<Vec<Event>, JudgedFault>
        ensures fault { (h : Judged) → IsJudgedAt self.old h →
            IsRefusedAs (option_map Kept (held_fault line.now h)) result }
        ensures refused { (h : Judged) → IsJudgedAt self.old h →
            IsTrue (is_some (held_fault line.now h)) → self.new ≡ self.old }
        ensures does { IfOk result (λ events.
            Performs (Held line.now) self.old events.items self.new) }
    {
        let now = self.kept.member().moment();
        let did = recall(&mut self.kept, alloc, now, line)?;
        hear_recalled(&mut self.judge, line, did.fate);
        let mut events = Vec::new(alloc);
        self.tell(alloc, now, Giver::Past, Vec::new(alloc), did, &mut events)?;
        Ok(events)
    }
}

/// Whether an operation draws: it is neither a delete nor a restore.
fn is_drawing(shape: &Shape<'_>) -> bool
    ensures { result ≡ draws (op_of shape.now) }
{
    !matches!(shape, Shape::Aimed(..))
}
