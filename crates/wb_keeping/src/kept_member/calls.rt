//! What happens to a self-managing member.
ghost use Rattle.std.specs.Prelude.{◌≡◌, ◌≤◌, ◌<◌, [], IfOk, OnErr, OnOk, IsTrue, is_some, nat_le};
ghost use Rattle.wb_names.specs.Arrivals.{Left};
ghost use Rattle.wb_names.specs.Moments.{IsMoment};
ghost use Rattle.wb_names.specs.Faults.{value_unless};
ghost use Rattle.wb_names.specs.Shapes.{op_of};
ghost use Rattle.wb_member.specs.Holding.{outcome_in};
ghost use Rattle.wb_member.specs.Opened.{becomes, present};
ghost use Rattle.wb_member.specs.declared.calls.Call.TheVariants.{Tune};
ghost use Rattle.wb_keeping.specs.Calls.{IsWithin, Tuned, became_of, doing_of, fault_of, line_of};
ghost use Rattle.wb_keeping.specs.Kept.{Calls, adds, came, drawing, draws, performs, ticks};
ghost use Rattle.wb_keeping.specs.Performing.{Does, IsKeptAt, Keeping, LeavesSome, after_doing, sent_by_doing, view_of};
ghost use Rattle.wb_keeping.specs.Refusing.{IsRefusedBy, add_fault, came_as, came_fault, drawing_fault, drawn_as, is_unknown, is_unknown_of_ours, tick_fault};

use crate::drawings::time_of;
use crate::kept_call::KeptCall;
use crate::kept_fault::KeptFault;
use crate::kept_member::{KeptDone, KeptMember};
use std::alloc::{AllocError, Global};
use wb_board::Reply;
use wb_codec::Datagram;
use wb_keeper::KeepFault;
use wb_names::{Drawop, FIRST_FORGED, Name, PageId, Shape};
use wb_recovery::Tuning;

impl KeptMember {
    /// Something happens to the member. Answers what is to be sent, and what became of the drawop
    /// that came or was drawn: a drawing is among what is sent, unless the board is full. Or the
    /// call is refused, and the member stays as it was: before the present moment; if a drawop of
    /// this member's own came that it does not hold, with a number that it would never reach; if
    /// its user draws while it listens, without a number left on the page, or an operation that
    /// can't be one of a drawop under the next number; and for constants out of their range. If
    /// an allocation fails, it has performed the first of its lines, or none, and what these sent
    /// is lost, as a datagram may be.
    pub fn call(&mut self, alloc: Global, call: KeptCall<'_>) -> Result<KeptDone, KeptFault>
        requires { IsWithin (line_of call) }
        ensures fault { (k : Keeping) → IsKeptAt self.old k →
            IsRefusedBy (fault_of (line_of call.entry) k) result }
        ensures refused { (k : Keeping) → IsKeptAt self.old k →
            IsTrue (is_some (fault_of (line_of call.entry) k)) → self.new ≡ self.old }
        ensures sent { IfOk result (λ done. (k : Keeping) → IsKeptAt self.old k →
            (done.sent.items ≡ sent_by_doing (doing_of (line_of call.entry)) k) ×
            IsKeptAt self.new (after_doing (doing_of (line_of call.entry)) k)) }
        ensures became { IfOk result (λ done. (k : Keeping) → IsKeptAt self.old k →
            outcome_in done.became ≡ became_of (line_of call.entry) k.host) }
        ensures left { OnErr result
            (LeavesSome (doing_of (line_of call.entry)) self.old self.new) }
    {
        match call {
            KeptCall::Came { now, datagram } => self.handle_datagram(alloc, now, datagram),
            KeptCall::Ticked { now } => self.tick(alloc, now),
            KeptCall::Added {
                now,
                page,
                time,
                shape,
            } => self.add(alloc, now, page, time, shape),
            KeptCall::Tuned(constants) => self.tune(alloc, constants),
        }
    }

    /// A datagram came in.
    fn handle_datagram(
        &mut self,
        alloc: Global,
        now: u64,
        datagram: &Datagram,
    ) -> Result<KeptDone, KeptFault>
        requires { IsMoment now }
        ensures fault { (k : Keeping) → IsKeptAt self.old k →
            IsRefusedBy (came_fault now datagram.now k) result }
        ensures refused { (k : Keeping) → IsKeptAt self.old k →
            IsTrue (is_some (came_fault now datagram.now k)) → self.new ≡ self.old }
        ensures sent { IfOk result (λ done. (k : Keeping) → IsKeptAt self.old k →
            (done.sent.items ≡ sent_by_doing (came now datagram.now) k) ×
            IsKeptAt self.new (after_doing (came now datagram.now) k)) }
        ensures became { IfOk result (λ done. (k : Keeping) → IsKeptAt self.old k →
            outcome_in done.became ≡ came_as datagram.now k.host) }
        ensures left { OnErr result (LeavesSome (came now datagram.now) self.old self.new) }
    {
        if !self.is_time(now) {
            return Err(KeptFault::Host(KeepFault::BackInTime));
        }
        if self.is_unknown_of_ours(datagram) {
            return Err(KeptFault::Ours);
        }
        let mut sent = self.go_on(alloc, now)?;
        let became = self.hears(alloc, datagram)?;
        self.timed(alloc, &mut sent)?;
        Ok(KeptDone { sent, became })
    }

    /// Time goes on.
    fn tick(&mut self, alloc: Global, now: u64) -> Result<KeptDone, KeptFault>
        requires { IsMoment now }
        ensures fault { (k : Keeping) → IsKeptAt self.old k →
            IsRefusedBy (tick_fault now k) result }
        ensures refused { (k : Keeping) → IsKeptAt self.old k →
            IsTrue (is_some (tick_fault now k)) → self.new ≡ self.old }
        ensures sent { IfOk result (λ done. (k : Keeping) → IsKeptAt self.old k →
            (done.sent.items ≡ sent_by_doing (ticks now) k) ×
            IsKeptAt self.new (after_doing (ticks now) k)) }
        ensures became { IfOk result (λ done. outcome_in done.became ≡ Left) }
        ensures left { OnErr result (LeavesSome (ticks now) self.old self.new) }
    {
        if !self.is_time(now) {
            return Err(KeptFault::Host(KeepFault::BackInTime));
        }
        let mut sent = self.go_on(alloc, now)?;
        self.timed(alloc, &mut sent)?;
        Ok(KeptDone { sent, became: None })
    }

    /// Its user draws.
    fn add(
        &mut self,
        alloc: Global,
        now: u64,
        page: PageId,
        time: u64,
        shape: Shape<'_>,
    ) -> Result<KeptDone, KeptFault>
        requires { IsMoment now }
        ensures fault { (k : Keeping) → IsKeptAt self.old k →
            IsRefusedBy (add_fault now page time (op_of shape.entry) k) result }
        ensures refused { (k : Keeping) → IsKeptAt self.old k →
            IsTrue (is_some (add_fault now page time (op_of shape.entry) k)) → self.new ≡ self.old }
        ensures sent { IfOk result (λ done. (k : Keeping) → IsKeptAt self.old k →
            (done.sent.items ≡ sent_by_doing (adds now page time (op_of shape.entry)) k) ×
            IsKeptAt self.new (after_doing (adds now page time (op_of shape.entry)) k)) }
        ensures became { IfOk result (λ done. (k : Keeping) → IsKeptAt self.old k →
            outcome_in done.became ≡ drawn_as page time (op_of shape.entry) k.host) }
        ensures left { OnErr result
            (LeavesSome (adds now page time (op_of shape.entry)) self.old self.new) }
    {
        if !self.is_time(now) {
            return Err(KeptFault::Host(KeepFault::BackInTime));
        }
        if self.policy.is_listening(now) {
            return Err(KeptFault::Listening);
        }
        let drawop = self.drawing(page, time, shape)?;
        let mut sent = self.go_on(alloc, now)?;
        let became = self.take_drawing(&mut sent, &drawop)?;
        self.end_where_full(alloc)?;
        self.timed(alloc, &mut sent)?;
        Ok(KeptDone { sent, became })
    }

    /// Its drawing is taken, and sent. If it was asked for, it pays as one that came.
    fn take_drawing(
        &mut self,
        sent: &mut Vec<Datagram>,
        drawop: &Drawop,
    ) -> Result<Option<Reply>, AllocError>
        ensures became { IfOk result (λ reply. (k : Keeping) → IsKeptAt self.old k →
            outcome_in reply ≡ becomes drawop.now k.host) }
        ensures does { OnOk result
            (Does (draws drawop.now) self.old self.new sent.old.items sent.new.items) }
        ensures left { OnErr result (LeavesSome (draws drawop.now) self.old self.new) }
    {
        let was_asked = self.is_asked(&drawop.name());
        self.pay_drawing(was_asked);
        let reply = self.draw(sent, drawop)?;
        Ok(reply)
    }

    /// Its timers are given other constants.
    fn tune(&mut self, alloc: Global, constants: Tuning) -> Result<KeptDone, KeptFault>
        ensures fault { (k : Keeping) → IsKeptAt self.old k →
            IsRefusedBy (fault_of (Tuned constants) k) result }
        ensures err { OnErr result (self.new ≡ self.old) }
        ensures sent { IfOk result (λ done. (k : Keeping) → IsKeptAt self.old k →
            (done.sent.items ≡ []) ×
            IsKeptAt self.new (after_doing (performs (Calls (Tune constants))) k)) }
        ensures became { IfOk result (λ done. outcome_in done.became ≡ Left) }
    {
        match self.member.set_constants(constants) {
            Ok(()) => Ok(KeptDone {
                sent: Vec::new(alloc),
                became: None,
            }),
            Err(_) => Err(KeptFault::Host(KeepFault::Range)),
        }
    }

    /// Whether a moment is not before the present one.
    fn is_time(&self, now: u64) -> bool
        ensures { (k : Keeping) → IsKeptAt self.now k → result ≡ nat_le (present k.host) now }
    {
        self.member.moment() <= now
    }

    /// Whether it is a drawop of this member that is not held, with a number from 2^31 on.
    fn is_unknown_of_ours(&self, datagram: &Datagram) -> bool
        ensures { (k : Keeping) → IsKeptAt self.now k →
            result ≡ is_unknown_of_ours datagram.now k.host }
    {
        match datagram {
            Datagram::Draw(drawop) => self.is_unknown(drawop.name()),
            _ => false,
        }
    }

    /// Whether it is a name of this member that is not held, with a number from 2^31 on.
    fn is_unknown(&self, name: Name) -> bool
        ensures { (k : Keeping) → IsKeptAt self.now k → result ≡ is_unknown name k.host }
    {
        name.source() == self.member.me() && name.seq() >= FIRST_FORGED && !self.member.holds(&name)
    }

    /// Its next drawing on a page.
    fn drawing(&self, page: PageId, time: u64, shape: Shape<'_>) -> Result<Drawop, KeptFault>
        ensures { (k : Keeping) → IsKeptAt self.now k →
            result ≡ value_unless (drawing_fault page time (op_of shape.entry) k)
            (drawing (view_of k.host) page time (op_of shape.entry)) }
    {
        let Some(number) = self.member.next_number(page) else {
            return Err(KeptFault::Numbers);
        };
        let name = Name::new(self.member.me(), page, number)?;
        let later = time_of(self.member.drawops(), page, time);
        Ok(Drawop::new(name, later, shape)?)
    }
}
