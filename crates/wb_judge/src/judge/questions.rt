//! A question that came in: a request, or one for pages.

ghost use Rattle.std.specs.Prelude.{◌≡◌, ◌<◌, ◌^◌};
ghost use Rattle.wb_names.specs.Moments.{IsMoment};
ghost use Rattle.wb_judge.specs.Judging.{after_held, after_question, after_repair, after_request, after_stranger, held_verdict, is_repaired, missed_verdict, question_verdict, repairs_ahead, request_verdict, stranger_verdict};
ghost use Rattle.wb_judge.specs.Strange.{is_there};

use super::Judge;
use crate::facts::Facts;
use crate::limits::{ASKED_AHEAD, ASKED_PAUSE, REPAIR_PAUSE, REPAIRS_AHEAD, REPAIRS_OF_ONE};
use crate::origin::Origin;
use crate::verdict::{Verdict, Why};
use wb_names::Name;

impl Judge {
    /// What becomes of a request.
    pub(super) fn judge_request(&mut self, origin: Origin, name: &Name, facts: &Facts) -> Verdict
        requires { IsMoment facts.now.at }
        ensures verdict { result ≡ request_verdict origin name.now facts.now self.old }
        ensures after { self.new ≡ after_request origin facts.now self.old }
    {
        if facts.holds {
            return self.judge_held(origin, facts.at);
        }
        self.judge_missed(origin, name, facts.at)
    }

    /// A request for what is held, which brings a repair.
    #[tactic(auto, unfolding(crate::specs::Judging::held_verdict, crate::specs::Judging::after_held))]
    fn judge_held(&mut self, origin: Origin, now: u64) -> Verdict
        requires { IsMoment now }
        ensures verdict { result ≡ held_verdict origin now self.old }
        ensures after { self.new ≡ after_held origin now self.old }
    {
        if !self.knows(origin, now) {
            return self.judge_stranger(now);
        }
        if !self.repairs(origin, now) {
            return Verdict::dropped(Why::Flood);
        }
        Verdict::TAKEN
    }

    /// A request for what is not held, which backs our own off.
    #[tactic(auto, unfolding(crate::specs::Judging::missed_verdict))]
    fn judge_missed(&self, origin: Origin, name: &Name, now: u64) -> Verdict
        requires { IsMoment now }
        ensures { result ≡ missed_verdict origin name.now now self.now }
    {
        if self.hushes(origin, name, now) {
            return Verdict::TAKEN;
        }
        if self.knows(origin, now) {
            return Verdict::dropped(Why::Again);
        }
        Verdict::dropped(Why::Stranger)
    }

    /// What becomes of a question for pages.
    #[tactic(auto, unfolding(crate::specs::Judging::question_verdict, crate::specs::Judging::after_question))]
    pub(super) fn judge_question(&mut self, origin: Origin, now: u64) -> Verdict
        requires { IsMoment now }
        ensures verdict { result ≡ question_verdict origin now self.old }
        ensures after { self.new ≡ after_question origin now self.old }
    {
        if self.knows(origin, now) {
            return Verdict::TAKEN;
        }
        self.judge_stranger(now)
    }

    /// A stranger asks for what has an answer: few at a time are taken.
    #[tactic(auto, unfolding(crate::specs::Judging::stranger_verdict, crate::specs::Judging::after_stranger))]
    fn judge_stranger(&mut self, now: u64) -> Verdict
        requires { IsMoment now }
        ensures verdict { result ≡ stranger_verdict now self.old }
        ensures after { self.new ≡ after_stranger now self.old }
    {
        if !self.asked.take(ASKED_AHEAD, ASKED_PAUSE, now) {
            return Verdict::dropped(Why::Flood);
        }
        Verdict::TAKEN
    }

    /// Whether a repair for a member is paid for, which it then is.
    #[tactic(auto, unfolding(crate::specs::Judging::is_repaired, crate::specs::Judging::after_repair))]
    fn repairs(&mut self, origin: Origin, now: u64) -> bool
        requires { IsMoment now }
        ensures repaired { result ≡ is_repaired origin now self.old }
        ensures after { self.new ≡ after_repair origin now self.old }
    {
        let ahead = repairs_ahead(origin, self.served);
        if !self.repairs.take(ahead, REPAIR_PAUSE, now) {
            return false;
        }
        self.served = Some(origin);
        true
    }
}

/// Up to how far ahead repairs are paid for, if one more is to be for this member.
fn repairs_ahead(origin: Origin, served: Option<Origin>) -> u64
    ensures ahead { result ≡ repairs_ahead origin served }
    ensures within { result < 2 ^ 32 }
{
    if is_there(origin, served) {
        REPAIRS_OF_ONE
    } else {
        REPAIRS_AHEAD
    }
}

/// Whether this origin is the one, if there is one.
fn is_there(origin: Origin, there: Option<Origin>) -> bool
    ensures { result ≡ is_there origin there }
{
    match there {
        None => false,
        Some(other) => other.is(&origin),
    }
}
