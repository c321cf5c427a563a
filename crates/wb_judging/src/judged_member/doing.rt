//! The parts of a call.
ghost use Rattle.std.specs.Prelude.{◌≡◌, ◌++◌, [], drop, IfOk, OnOk, nat_le, true, None};
ghost use Rattle.wb_names.specs.Moments.{IsMoment};
ghost use Rattle.wb_judge.specs.Adding.{own_echo};
ghost use Rattle.wb_member.specs.Opened.{present};
ghost use Rattle.wb_keeping.specs.Performing.{IsKeptAt, Keeping};
ghost use Rattle.wb_judging.specs.Events.{gain_events, told};
ghost use Rattle.wb_judging.specs.Judged.{CameFrom, Judged, Passed};
ghost use Rattle.wb_judging.specs.News.{IsTellable};
ghost use Rattle.wb_judging.specs.Hearing.{after_sends};
ghost use Rattle.wb_judging.specs.Performing.{IsJudgedAt, Performs};
ghost use Rattle.wb_judging.specs.Recording.{gain_lines};
ghost use Rattle.wb_judging.specs.Refusing.{IsRefusedAs};

use crate::event::Event;
use crate::facts::facts_of;
use crate::handing::{Did, hand, perform};
use crate::hearing::{hear_fate, hear_sent};
use crate::judged_fault::JudgedFault;
use crate::judged_member::JudgedMember;
use crate::news::{News, tell_news};
use crate::record::{Giver, RecordLine, add_gain_lines};
use crate::telling::{add_advice, add_became, add_dropped, add_gain, add_sent, gained};
use crate::weighing::{Weighed, weigh};
use std::alloc::{AllocError, Global};
use wb_codec::Datagram;
use wb_judge::Origin;
use wb_keeping::KeptCall;

impl JudgedMember {
    /// Tells what its kept member did for a line, after these lines of the record, and has its
    /// judge hear which reports were sent.
    pub(super) fn tell(
        &mut self,
        alloc: Global,
        now: u64,
        giver: Giver,
        first: Vec<RecordLine>,
        did: Did,
        events: &mut Vec<Event>,
    ) -> Result<(), AllocError>
        ensures kept { self.new.kept ≡ self.old.kept }
        ensures judge { OnOk result (self.new.judge ≡ after_sends did.sent.items self.old.judge) }
        ensures events { OnOk result ((k : Keeping) → IsKeptAt self.old.kept k →
            events.new.items ≡ events.old.items ++ told
            (gain_events now
            (first.items ++ gain_lines giver self.old.judge.strange.given (drop did.held k.host.is.held))
            (drop did.held k.host.is.held))
            (own_echo now self.old.judge) did.sent.items did.fate) }
    {
        let Did { held, sent, fate } = did;
        let mut lines = first;
        let gained = gained(self.kept.member().drawops(), held);
        add_gain_lines(&mut lines, giver, self.judge.strange(), gained)?;
        add_gain(events, now, &lines, gained)?;
        let echo = self.judge.own_echo(now);
        hear_sent(&mut self.judge, sent.as_slice());
        add_sent(events, alloc, echo, sent)?;
        add_became(events, fate)
    }

    /// Time goes on to a moment that is not before the present one, and the judge hears some news
    /// first.
    pub(super) fn pass(
        &mut self,
        alloc: Global,
        now: u64,
        news: &News,
    ) -> Result<Vec<Event>, JudgedFault>
        requires moment { IsMoment now }
        requires told { IsTellable news.now }
        ensures fault { (h : Judged) → IsJudgedAt self.old h →
            nat_le (present h.kept.host) now ≡ true → IsRefusedAs None result }
        ensures does { IfOk result (λ events.
            Performs (Passed now news.now) self.old events.items self.new) }
    {
        let mut events = tell_news(&mut self.judge, alloc, now, news)?;
        let did = perform(&mut self.kept, alloc, KeptCall::Ticked { now })?;
        self.tell(alloc, now, Giver::Others, Vec::new(alloc), did, &mut events)?;
        Ok(events)
    }

    /// A datagram came in from an origin, at a moment that is not before the present one.
    pub(super) fn take(
        &mut self,
        alloc: Global,
        now: u64,
        origin: Origin,
        datagram: &Datagram,
    ) -> Result<Vec<Event>, JudgedFault>
        requires { IsMoment now }
        ensures fault { (h : Judged) → IsJudgedAt self.old h →
            nat_le (present h.kept.host) now ≡ true → IsRefusedAs None result }
        ensures does { IfOk result (λ events.
            Performs (CameFrom now origin datagram.now) self.old events.items self.new) }
    {
        let facts = facts_of(&mut self.kept, now, datagram)?;
        let weighed = weigh(&mut self.judge, &self.kept, alloc, origin, datagram, &facts)?;
        let Weighed { verdict, lines } = weighed;
        let did = hand(&mut self.kept, alloc, now, datagram, verdict.why)?;
        hear_fate(&mut self.judge, now, origin, datagram, did.fate);
        let mut events = Vec::new(alloc);
        add_dropped(&mut events, verdict.why)?;
        self.tell(alloc, now, Giver::Others, lines, did, &mut events)?;
        add_advice(&mut events, &verdict, facts.lacking)?;
        Ok(events)
    }
}
