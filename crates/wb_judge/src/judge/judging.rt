//! Any datagram that came in.

ghost use Rattle.std.specs.Prelude.{◌≡◌};
ghost use Rattle.wb_names.specs.Moments.{IsMoment};
ghost use Rattle.wb_judge.specs.Judging.{after_judging, after_of, after_own, after_question, after_report, after_request, after_said, after_telling, own_verdict, question_verdict, report_verdict, request_verdict, said_verdict, verdict, verdict_of};
ghost use Rattle.wb_judge.specs.Verdicts.{dropped, warned};

use super::Judge;
use crate::facts::Facts;
use crate::origin::Origin;
use crate::report::Report;
use crate::verdict::{Verdict, Warning, Why};
use wb_codec::Datagram;
use wb_names::Name;

impl Judge {
    /// What becomes of a datagram that came from an origin.
    pub fn judge(&mut self, origin: Origin, datagram: &Datagram, facts: &Facts) -> Verdict
        requires { IsMoment facts.now.at }
        ensures verdict { result ≡ verdict origin datagram.now facts.now self.old }
        ensures after { self.new ≡ after_judging origin datagram.now facts.now self.old }
    {
        self.known.renew(origin, facts.at);
        let verdict = self.judge_any(origin, datagram, facts);
        self.hear_marks(origin, datagram, facts.at);
        verdict
    }

    /// A member tells the marks of its report.
    fn hear_marks(&mut self, origin: Origin, datagram: &Datagram, now: u64)
        ensures { self.new ≡ after_telling origin datagram.now now self.old }
    {
        if !self.knows(origin, now) {
            return;
        }
        match datagram {
            Datagram::Session { page, marks, .. } => self.told.put_all(*page, marks.as_slice()),
            Datagram::PageState { page, marks, .. } => self.told.put_all(*page, marks.as_slice()),
            _ => {}
        }
    }

    /// What becomes of a datagram, by its kind.
    fn judge_any(&mut self, origin: Origin, datagram: &Datagram, facts: &Facts) -> Verdict
        requires { IsMoment facts.now.at }
        ensures verdict { result ≡ verdict_of origin datagram.now facts.now self.old }
        ensures after { self.new ≡ after_of origin datagram.now facts.now self.old }
    {
        match datagram {
            Datagram::Draw(drawop) => self.judge_drawop(origin, drawop, facts),
            Datagram::Session {
                sender,
                sent,
                marks,
                echoes,
                ..
            } => {
                let report = Report::of_session(
                    self.me,
                    *sender,
                    marks.as_slice(),
                    echoes.as_slice(),
                );
                self.judge_session(origin, *sent, &report, facts)
            }
            Datagram::PageState { sender, marks, .. } => {
                let report = Report::of_page(self.me, *sender, marks.as_slice());
                self.judge_page(origin, &report, facts)
            }
            Datagram::Request { asker, name } => self.judge_asked(origin, *asker, name, facts),
            Datagram::AskPages { asker } => self.judge_asking(origin, *asker, facts.at),
        }
    }

    /// A session message.
    fn judge_session(
        &mut self,
        origin: Origin,
        sent: u64,
        report: &Report,
        facts: &Facts,
    ) -> Verdict
        requires { IsMoment facts.now.at }
        ensures verdict { result ≡ said_verdict origin report.now.speaker self.old (own_verdict sent report.now facts.now.at self.old) (report_verdict origin report.now facts.now self.old) }
        ensures after { self.new ≡ after_said origin report.now.speaker self.old (after_own origin sent report.now facts.now.at self.old) (after_report origin report.now facts.now self.old) }
    {
        if self.is_forged(report.speaker, origin) {
            return impostor(report.speaker);
        }
        if report.speaker == self.me {
            return self.judge_own(origin, sent, report, facts.at);
        }
        self.judge_report(origin, report, facts)
    }

    /// A page state.
    fn judge_page(&mut self, origin: Origin, report: &Report, facts: &Facts) -> Verdict
        requires { IsMoment facts.now.at }
        ensures verdict { result ≡ said_verdict origin report.now.speaker self.old (dropped Why.Own) (report_verdict origin report.now facts.now self.old) }
        ensures after { self.new ≡ after_said origin report.now.speaker self.old self.old (after_report origin report.now facts.now self.old) }
    {
        if self.is_forged(report.speaker, origin) {
            return impostor(report.speaker);
        }
        if report.speaker == self.me {
            return Verdict::dropped(Why::Own);
        }
        self.judge_report(origin, report, facts)
    }

    /// A request.
    fn judge_asked(&mut self, origin: Origin, asker: u32, name: &Name, facts: &Facts) -> Verdict
        requires { IsMoment facts.now.at }
        ensures verdict { result ≡ said_verdict origin asker self.old (dropped Why.Own) (request_verdict origin name.now facts.now self.old) }
        ensures after { self.new ≡ after_said origin asker self.old self.old (after_request origin facts.now self.old) }
    {
        if self.is_forged(asker, origin) {
            return impostor(asker);
        }
        if asker == self.me {
            return Verdict::dropped(Why::Own);
        }
        self.judge_request(origin, name, facts)
    }

    /// A question for pages.
    fn judge_asking(&mut self, origin: Origin, asker: u32, now: u64) -> Verdict
        requires { IsMoment now }
        ensures verdict { result ≡ said_verdict origin asker self.old (dropped Why.Own) (question_verdict origin now self.old) }
        ensures after { self.new ≡ after_said origin asker self.old self.old (after_question origin now self.old) }
    {
        if self.is_forged(asker, origin) {
            return impostor(asker);
        }
        if asker == self.me {
            return Verdict::dropped(Why::Own);
        }
        self.judge_question(origin, now)
    }
}

/// Another owner speaks under a number.
fn impostor(number: u32) -> Verdict
    ensures { result ≡ warned Why.Speaks (Warning.Impostor number) }
{
    Verdict::warned(Why::Speaks, Warning::Impostor(number))
}
