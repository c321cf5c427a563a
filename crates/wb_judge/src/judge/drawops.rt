//! A drawop that came in.

ghost use Rattle.std.specs.Prelude.{◌≡◌, ◌<◌, ◌^◌};
ghost use Rattle.wb_names.specs.Moments.{IsMoment};
ghost use Rattle.wb_judge.specs.Judging.{ahead_of, draws, drawop_verdict, is_ahead, is_claimed, is_forged_drawop};

use super::Judge;
use crate::facts::Facts;
use crate::limits::{AHEAD_KNOWN, AHEAD_STRANGER};
use crate::origin::Origin;
use crate::verdict::{Verdict, Warning, Why};
use wb_names::{Drawop, FIRST_FORGED, Op};

impl Judge {
    /// What becomes of a drawop.
    #[tactic(auto, unfolding(crate::specs::Judging::drawop_verdict))]
    pub(super) fn judge_drawop(&self, origin: Origin, drawop: &Drawop, facts: &Facts) -> Verdict
        requires { IsMoment facts.now.at }
        ensures { result ≡ drawop_verdict origin drawop.now facts.now self.now }
    {
        let known = self.knows(origin, facts.at);
        if facts.holds {
            return if self.hushes(origin, &drawop.name(), facts.at) {
                Verdict::TAKEN
            } else {
                Verdict::dropped(Why::Again)
            };
        }
        if self.is_forged_drawop(known, drawop, facts) {
            return Verdict::dropped(Why::Own);
        }
        if !known && self.is_claimed(origin, drawop.name().source(), facts.at) {
            return Verdict::dropped(Why::Speaks);
        }
        if self.is_ahead(known, drawop.time(), facts.at) {
            return Verdict::dropped(Why::Ahead);
        }
        if self.is_full(facts.held) && (draws(drawop.op()) || !known) {
            return Verdict::warned(Why::Full, Warning::NoCell);
        }
        if !known && self.strange.is_over(origin) {
            if self.strange.is_open() {
                return Verdict::warned(Why::Share, Warning::NoShare);
            }
            return Verdict::dropped(Why::Share);
        }
        if !known && self.strange.is_wide(&drawop.name()) {
            return Verdict::dropped(Why::Pages);
        }
        if !known && self.told.leaves_holes(&drawop.name(), facts.top) {
            return Verdict::dropped(Why::Holes);
        }
        Verdict::TAKEN
    }

    /// Whether a stranger's drawop is under the number of a member that speaks from elsewhere. Where
    /// origins have owners that is a repair, as anybody may give one.
    fn is_claimed(&self, origin: Origin, number: u32, now: u64) -> bool
        ensures { result ≡ is_claimed origin number now self.now }
    {
        origin.owner.is_none() && self.others.is_bound_elsewhere(number, origin, now)
    }

    /// Whether a drawop that has our number is not ours, or raises our numbers. While we listen none
    /// is taken, and then those of members that we have lost.
    #[tactic(auto, unfolding(crate::specs::Judging::is_forged_drawop))]
    fn is_forged_drawop(&self, known: bool, drawop: &Drawop, facts: &Facts) -> bool
        ensures { result ≡ is_forged_drawop known drawop.now facts.now self.now }
    {
        let name = drawop.name();
        name.source() == self.me
            && (FIRST_FORGED <= name.seq() || facts.above || facts.listens || !known)
    }

    /// Whether a time is too far ahead of the time of day.
    #[tactic(auto, unfolding(crate::specs::Judging::is_ahead))]
    fn is_ahead(&self, known: bool, time: u64, now: u64) -> bool
        requires { IsMoment now }
        ensures { result ≡ is_ahead known time now self.now }
    {
        self.clock.time_of_day(now) + ahead_of(known) < time
    }
}

/// How far ahead of the time of day the time of a drawop may be.
fn ahead_of(known: bool) -> u64
    ensures ahead { result ≡ ahead_of known }
    ensures within { result < 2 ^ 37 }
{
    if known { AHEAD_KNOWN } else { AHEAD_STRANGER }
}

/// Whether an operation draws: it is neither a delete nor a restore.
pub fn draws(op: &Op) -> bool
    ensures { result ≡ draws op.now }
{
    !matches!(op, Op::Aimed(..))
}
