//! A report that came in: a session message, or a page state.

ghost use Rattle.std.specs.Prelude.{◌≡◌, ◌<◌, ◌^◌, if◌then◌else◌};
ghost use Rattle.wb_names.specs.Moments.{IsMoment};
ghost use Rattle.wb_judge.specs.Judging.{admitted_verdict, after_admitted, after_admitting, after_answer, after_fetching, after_hearing, after_own, after_report, fetched_from, fetching_at, is_admitted, is_elsewhere, is_fetched, is_forged_mark, is_recent, is_twin, mark_warning, new_ahead, own_verdict, report_verdict, speaking};

use super::Judge;
use crate::aliens::Alien;
use crate::facts::Facts;
use crate::limits::{
    FETCH_AGAIN, FETCH_PAUSE, FORGED_ABOVE, LACKING, NEW_AHEAD, NEW_OF_ONE, NEW_PAUSE,
};
use crate::origin::Origin;
use crate::others::Other;
use crate::report::Report;
use crate::verdict::{Verdict, Warning, Why};

impl Judge {
    /// What becomes of a session message under our own number.
    #[tactic(auto, unfolding(crate::specs::Judging::own_verdict, crate::specs::Judging::after_own))]
    pub(super) fn judge_own(
        &mut self,
        origin: Origin,
        sent: u64,
        report: &Report,
        now: u64,
    ) -> Verdict
        ensures verdict { result ≡ own_verdict sent report.now now self.old }
        ensures after { self.new ≡ after_own origin sent report.now now self.old }
    {
        if self.own.has(sent) {
            return Verdict::dropped(Why::Own);
        }
        self.aliens.put(Alien {
            origin,
            sent,
            at: now,
        });
        if self.has_twin || !self.own.is_answered(report.echo, now) {
            return Verdict::dropped(Why::Own);
        }
        self.has_twin = true;
        Verdict::warned(Why::Own, Warning::Twin)
    }

    /// What becomes of a report of another number.
    #[tactic(auto, unfolding(crate::specs::Judging::report_verdict, crate::specs::Judging::after_report))]
    pub(super) fn judge_report(&mut self, origin: Origin, report: &Report, facts: &Facts) -> Verdict
        requires { IsMoment facts.now.at }
        ensures verdict { result ≡ report_verdict origin report.now facts.now self.old }
        ensures after { self.new ≡ after_report origin report.now facts.now self.old }
    {
        let answer = self.own.is_answered(report.echo, facts.at);
        if self.is_elsewhere(origin, report, answer, facts.at) {
            return Verdict::dropped(Why::Speaks);
        }
        if !self.admits(origin, report.speaker, answer, facts.at) {
            return Verdict::dropped(Why::Crowd);
        }
        self.take_report(origin, report, answer, facts)
    }

    /// What becomes of a report for which there is room.
    #[tactic(auto, unfolding(crate::specs::Judging::admitted_verdict, crate::specs::Judging::after_admitted))]
    fn take_report(
        &mut self,
        origin: Origin,
        report: &Report,
        answer: bool,
        facts: &Facts,
    ) -> Verdict
        requires { IsMoment facts.now.at }
        ensures verdict { result ≡ admitted_verdict origin report.now answer facts.now self.old }
        ensures after { self.new ≡ after_admitted origin report.now answer facts.now self.old }
    {
        if is_forged_mark(report, facts) {
            return Verdict::warned(Why::Mark, Warning::ForgedMark);
        }
        let fetches = self.hear(origin, report.speaker, answer, facts.lacking, facts.at);
        Verdict {
            why: None,
            warning: mark_warning(report, facts),
            fetch: fetched_from(origin, fetches),
        }
    }

    /// Whether it does not answer us, and its number is bound to another origin.
    #[tactic(auto, unfolding(crate::specs::Judging::is_elsewhere))]
    fn is_elsewhere(&self, origin: Origin, report: &Report, answer: bool, now: u64) -> bool
        ensures { result ≡ is_elsewhere origin report.now answer now self.now }
    {
        !answer && self.others.is_bound_elsewhere(report.speaker, origin, now)
    }

    /// Whether there is room for a number that speaks from there, which it then pays for, if it is
    /// new there.
    #[tactic(auto, unfolding(crate::specs::Judging::is_admitted, crate::specs::Judging::after_admitting))]
    fn admits(&mut self, origin: Origin, number: u32, answer: bool, now: u64) -> bool
        requires { IsMoment now }
        ensures admitted { result ≡ is_admitted origin number answer now self.old }
        ensures after { self.new ≡ (if result then after_admitting origin number answer now self.old else self.old) }
    {
        if let Some(other) = self.others.get(number) {
            if answer || other.origin.is(&origin) {
                return true;
            }
        }
        let ahead = self.new_ahead(origin);
        if answer {
            self.answering.take(ahead, NEW_PAUSE, now)
        } else {
            self.hearing.take(ahead, NEW_PAUSE, now)
        }
    }

    /// Up to how far ahead new numbers are paid for, if one more is to speak from there.
    fn new_ahead(&self, origin: Origin) -> u64
        ensures ahead { result ≡ new_ahead origin self.now.others }
        ensures within { result < 2 ^ 32 }
    {
        if self.others.has_speaker(origin) {
            NEW_OF_ONE
        } else {
            NEW_AHEAD
        }
    }

    /// A number speaks from there, and answers us or not: whether a stream of it begins.
    #[tactic(auto, unfolding(crate::specs::Judging::after_hearing))]
    fn hear(&mut self, origin: Origin, number: u32, answer: bool, lacking: u64, now: u64) -> bool
        requires { IsMoment now }
        ensures fetches { result ≡ is_fetched (speaking origin number answer now self.old) lacking now self.old }
        ensures after { self.new ≡ after_hearing origin number answer lacking now self.old }
    {
        let other = self.speaking(origin, number, answer, now);
        let fetches = self.is_fetched(&other, lacking, now);
        self.answered(answer, origin, now);
        self.fetching(fetches, now);
        self.others.put(fetching_at(fetches, now, other));
        fetches
    }

    /// What is remembered of a number that speaks from there.
    #[tactic(auto, unfolding(crate::specs::Judging::speaking))]
    fn speaking(&self, origin: Origin, number: u32, answer: bool, now: u64) -> Other
        ensures { result ≡ speaking origin number answer now self.now }
    {
        let other = self.others.spoken(number, origin, now);
        if answer {
            return Other {
                answered: Some(now),
                ..other
            };
        }
        other
    }

    /// It answers us, or not: a member speaks from there, and what came from there is a member's.
    #[tactic(auto, unfolding(crate::specs::Judging::after_answer))]
    fn answered(&mut self, answer: bool, origin: Origin, now: u64)
        ensures { self.new ≡ after_answer answer origin now self.old }
    {
        if answer {
            self.known.put(origin, now);
            self.strange.take_out(origin);
        }
    }

    /// A stream begins, or not.
    #[tactic(auto, unfolding(crate::specs::Judging::after_fetching))]
    fn fetching(&mut self, fetches: bool, now: u64)
        requires { IsMoment now }
        ensures { self.new ≡ after_fetching fetches now self.old }
    {
        if fetches {
            self.fetch_at = now + FETCH_PAUSE;
        }
    }

    /// Whether a stream of a number begins.
    #[tactic(auto, unfolding(crate::specs::Judging::is_fetched))]
    fn is_fetched(&self, other: &Other, lacking: u64, now: u64) -> bool
        ensures { result ≡ is_fetched other.now lacking now self.now }
    {
        other.answered.is_some()
            && LACKING <= lacking
            && self.fetch_at <= now
            && !is_recent(other.fetched, now)
    }
}

/// A number of which a stream begins, or not.
fn fetching_at(fetches: bool, now: u64, other: Other) -> Other
    ensures { result ≡ fetching_at fetches now other }
{
    if fetches {
        return Other {
            fetched: Some(now),
            ..other
        };
    }
    other
}

/// From where a stream is taken, if one begins.
fn fetched_from(origin: Origin, fetches: bool) -> Option<Origin>
    ensures { result ≡ fetched_from origin fetches }
{
    if fetches { Some(origin) } else { None }
}

/// Whether a stream began lately.
fn is_recent(fetched: Option<u64>, now: u64) -> bool
    ensures { result ≡ is_recent fetched now }
{
    match fetched {
        None => false,
        Some(at) => now.saturating_sub(at) < FETCH_AGAIN,
    }
}

/// Whether a report has a mark of ours that nobody draws up to, while we listen.
fn is_forged_mark(report: &Report, facts: &Facts) -> bool
    ensures { result ≡ is_forged_mark report.now facts.now }
{
    facts.listens && facts.top as u64 + FORGED_ABOVE < report.own_mark as u64
}

/// The warning that a mark of ours is above what we hold, once we do not listen.
fn mark_warning(report: &Report, facts: &Facts) -> Option<Warning>
    ensures { result ≡ mark_warning report.now facts.now }
{
    if !facts.listens && facts.top < report.own_mark {
        return Some(Warning::ForgedMark);
    }
    None
}
