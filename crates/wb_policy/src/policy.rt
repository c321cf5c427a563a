//! The policy of a self-managing host: all that it remembers, and what each thing that happens
//! makes of it.

ghost use Rattle.std.specs.Prelude.{◌≡◌, ◌≤◌, ◌<◌, ◌+◌, if◌then◌else◌, nat_le, nat_lt};
ghost use Rattle.wb_names.specs.Moments.{IsMoment};
ghost use Rattle.wb_policy.specs.declared.limits.TheConstants.{LISTEN_LIMIT, LONGEST_GAP, LONGEST_PAUSE, MEMBERS, MOST_BYTES, MOST_DELAY, SHORTEST_GAP, SHORTEST_PAUSE};
ghost use Rattle.wb_policy.specs.Delays.{bounded};
ghost use Rattle.wb_policy.specs.Policy.{after_answer, after_beat, after_came, after_drawing, after_echoing, after_leaping, after_question, after_report, after_state, after_taking_up, after_turn, after_wanting, begun, in_next_leaps, in_next_round, next_moment, sooner, after_echo};
ghost use Rattle.wb_policy.specs.Leaps.{far_name};
ghost use Rattle.wb_policy.specs.Questions.{is_due, is_to_answer};
ghost use Rattle.wb_policy.specs.Turns.{name_in};
ghost use Rattle.wb_policy.specs.Credit.{is_covered};
ghost use Rattle.wb_policy.specs.Wanting.{is_wanted, passes_on};

use crate::credit::Credit;
use crate::delays::Delays;
use crate::leaps::Leaps;
use crate::limits::{ANSWER, FIRST_QUESTION, FIRST_REPORT, STREAM, TIMERS_BEFORE_TURNS};
use crate::pace::Pace;
use crate::questions::{Questions, answer_pause};
use crate::reports::{Reports, Told};
use crate::turns::Turns;
use crate::wanting::Candidate;
use std::marker::Model;
use wb_gaps::Hole;
use wb_names::Name;
use wb_random::RandomWords;

/// What a self-managing host remembers: a fixed number of integers, whatever comes in. Moments are
/// in microseconds, below 2^48.
#[derive(Drop)]
pub struct Policy {
    /// Nothing is added before this moment.
    ready: u64,
    reports: Reports,
    questions: Questions,
    turns: Turns,
    leaps: Leaps,
    pace: Pace,
    told: Told,
    /// The last source that had its turn among the echoes.
    echoed: u32,
    credit: Credit,
    delays: Delays,
    words: RandomWords,
}

impl Model for Policy {
    ghost use Rattle.std.specs.Prelude.{◌≤◌};
    ghost use Rattle.wb_policy.specs.Policy.{Policy as PolicyValue};
    ghost use Rattle.wb_policy.specs.declared.limits.TheConstants.{MOST_WAIT};

    ghost Value = { PolicyValue };

    ghost view = { λ p. record {
      ready = p.ready;
      reports = p.reports;
      questions = p.questions;
      turns = p.turns;
      leaps = p.leaps;
      pace = p.pace;
      told = p.told;
      echoed = p.echoed;
      owed = p.credit.owed;
      usual = p.delays;
      words = p.words;
    } };

    ghost invariant = { λ p. (1 ≤ p.reports.rate) × (p.questions.wait ≤ MOST_WAIT) };
}

impl Policy {
    /// Begins at a moment. The reports of all members together take `rate` bytes a second, at least
    /// 1. For `listen` microseconds, below 2^32, nothing is added. The first word of the seed says
    /// when it reports, the second when it asks for pages.
    #[tactic(auto, unfolding(crate::specs::Words::started))]
    pub fn new(now: u64, rate: u64, listen: u64, seed: u64) -> Policy
        requires moment { IsMoment now }
        requires rate { 1 ≤ rate }
        requires listen { listen < LISTEN_LIMIT }
        ensures { result ≡ begun now rate listen seed }
    {
        let mut words = RandomWords::new(STREAM, seed);
        let report = words.up_to(FIRST_REPORT);
        let question = words.up_to(FIRST_QUESTION);
        Policy {
            ready: now + listen,
            reports: Reports {
                rate,
                due: now + report,
            },
            questions: Questions::new(now, question),
            turns: Turns::START,
            leaps: Leaps::START,
            pace: Pace::new(now),
            told: Told::START,
            echoed: 0,
            credit: Credit::WHOLE,
            delays: Delays::new(),
            words,
        }
    }

    /// Whether nothing is to be added yet.
    pub fn is_listening(&self, now: u64) -> bool
        ensures { result ≡ nat_lt now self.now.ready }
    {
        now < self.ready
    }

    /// The least moment at which it has something to do.
    pub fn due(&self) -> u64
        ensures { result ≡ next_moment self.now }
    {
        let first = self.reports.due.min(self.pace.due);
        let question = sooner(first, self.questions.ask);
        sooner(question, self.questions.answer)
    }

    /// A name may be wanted: whether it is to be asked for, which costs credit.
    pub fn want(&mut self, candidate: &Candidate, may_start_anew: bool, now: u64) -> bool
        requires { IsMoment now }
        ensures wanted { result ≡ is_wanted candidate.now.is_held candidate.now.is_full
            may_start_anew candidate.now.is_known candidate.now.level candidate.now.asks self.old.owed now }
        ensures spent { self.new ≡ (if result then after_wanting now self.old else self.old) }
    {
        if !candidate.is_wanted(&self.credit, may_start_anew, now) {
            return false;
        }
        self.credit.spend(now);
        true
    }

    /// Whether less is owed than these request timers cost, by one of them at least.
    pub fn is_covered(&self, asks: usize, now: u64) -> bool
        ensures { result ≡ is_covered asks self.now.owed now }
    {
        self.credit.is_covered(asks, now)
    }

    /// A name that was asked for came: it pays, and turns come each second again.
    pub fn came(&mut self)
        ensures { self.new ≡ after_came self.old }
    {
        self.credit.repay();
        self.pace.hurry();
    }

    /// Its user drew a name that it asked for, which pays too.
    pub fn drew(&mut self)
        ensures { self.new ≡ after_drawing self.old }
    {
        self.credit.repay();
    }

    /// Whether turns pass over what is asked for, while `young` request timers that are not old
    /// stand.
    pub fn passes_on(&self, young: usize, now: u64) -> bool
        ensures { result ≡ passes_on young self.now.owed now }
    {
        young < TIMERS_BEFORE_TURNS && self.credit.is_left(true, now)
    }

    /// The next hole in turn begins after this number of this source on this page.
    pub fn turns(&self) -> Turns
        ensures { result ≡ self.now.turns }
    {
        self.turns
    }

    /// Whether a turn is due.
    pub fn is_turn(&self, now: u64) -> bool
        ensures { result ≡ nat_le self.now.pace.due now }
    {
        self.pace.is_due(now)
    }

    /// A turn comes by the clock. So turns are at least a second apart, and at most 16.
    pub fn beat(&mut self, now: u64)
        requires { IsMoment now }
        ensures after { self.new ≡ after_beat now self.old }
        ensures rare { now + SHORTEST_GAP ≤ self.new.pace.due }
        ensures soon { self.new.pace.due ≤ now + LONGEST_GAP }
    {
        self.pace.turned(now);
    }

    /// It is the turn of a hole: which of its names is wanted.
    pub fn take_turn(&mut self, hole: Hole) -> Name
        requires counted { 1 ≤ hole.gap.first }
        requires filled { hole.gap.first ≤ hole.gap.last }
        ensures name { result ≡ name_in self.old.turns hole }
        ensures turn { self.new ≡ after_turn hole self.old }
    {
        self.turns.take(hole)
    }

    /// No hole is left in this round.
    pub fn begin_round(&mut self)
        ensures { self.new ≡ in_next_round self.old }
    {
        self.turns.begin_again();
    }

    /// The next hole of which a name is asked for beside others begins after this number.
    pub fn leaps(&self) -> Leaps
        ensures { result ≡ self.now.leaps }
    {
        self.leaps
    }

    /// Another name came: which name of a hole is wanted beside its neighbours.
    pub fn leap(&mut self, hole: Hole) -> Name
        requires counted { 1 ≤ hole.gap.first }
        requires filled { hole.gap.first ≤ hole.gap.last }
        ensures name { result ≡ far_name self.old.leaps hole }
        ensures turn { self.new ≡ after_leaping hole self.old }
    {
        self.leaps.take(hole)
    }

    /// No hole is left in this round of them.
    pub fn leap_again(&mut self)
        ensures { self.new ≡ in_next_leaps self.old }
    {
        self.leaps.begin_again();
    }

    /// An echo gave a delay: which one is to be set.
    pub fn measure(&mut self, micros: u64) -> u64
        ensures bounded { result ≡ bounded micros }
        ensures usual { self.new ≡ after_echo micros self.old }
    {
        self.delays.told(micros)
    }

    /// Whether it is to ask for pages now, and when again.
    pub fn asks_pages(&mut self, now: u64) -> bool
        requires { IsMoment now }
        ensures due { result ≡ is_due now self.old.questions.ask }
        ensures after { self.new ≡ (if result then after_question now self.old else self.old) }
    {
        if !self.questions.is_to_ask(now) {
            return false;
        }
        let drawn = self.words.up_to(self.questions.wait as u32);
        self.questions.asked(now, drawn);
        true
    }

    /// Another member asks for pages, and this one holds something or not.
    pub fn take_question(&mut self, now: u64, holds: bool)
        requires { IsMoment now }
        ensures { self.new ≡ (if is_to_answer now holds self.old.questions then
            after_taking_up now self.old else self.old) }
    {
        if self.questions.takes_up(now, holds) {
            let drawn = self.words.up_to(ANSWER);
            self.questions.take_up(now, drawn);
        }
    }

    /// Whether it is to answer with its pages now.
    pub fn is_to_answer(&self, now: u64) -> bool
        ensures { result ≡ is_due now self.now.questions.answer }
    {
        self.questions.is_to_answer(now)
    }

    /// It answered by some page states, which are paid for by the rate of reports.
    pub fn answered(&mut self, now: u64, states: usize)
        requires { IsMoment now }
        ensures { self.new ≡ after_answer now states self.old }
    {
        let pause = answer_pause(self.reports.rate, states);
        self.questions.answered(now, pause);
    }

    /// Another member sent a page state.
    pub fn hear_state(&mut self, now: u64)
        requires { IsMoment now }
        ensures { self.new ≡ after_state now self.old }
    {
        self.questions.heard(now);
    }

    /// Whether a report is due.
    pub fn reports(&self, now: u64) -> bool
        ensures { result ≡ nat_le self.now.reports.due now }
    {
        self.reports.is_due(now)
    }

    /// What reports told so far.
    pub fn told(&self) -> Told
        ensures { result ≡ self.now.told }
    {
        self.told
    }

    /// It reported `bytes` bytes, among `members` members: what reports told then. So they are
    /// at least a second apart, and at most 96.
    pub fn reported(&mut self, now: u64, told: Told, members: u64, bytes: u64)
        requires moment { IsMoment now }
        requires members { members ≤ MEMBERS }
        requires bytes { bytes ≤ MOST_BYTES }
        ensures after { self.new ≡ after_report now told members bytes self.old }
        ensures rare { now + SHORTEST_PAUSE ≤ self.new.reports.due }
        ensures soon { self.new.reports.due ≤ now + LONGEST_PAUSE }
    {
        let mean = self.reports.mean_time(members, bytes);
        let drawn = self.words.up_to(mean as u32);
        self.reports.reported(now, mean, drawn);
        self.told = told;
    }

    /// The last source that had its turn among the echoes.
    pub fn echoed(&self) -> u32
        ensures { result ≡ self.now.echoed }
    {
        self.echoed
    }

    /// Turns of echoes go on after this source.
    pub fn echoed_up_to(&mut self, echoed: u32)
        ensures { self.new ≡ after_echoing echoed self.old }
    {
        self.echoed = echoed;
    }

    /// The usual delay: at most a second.
    pub fn usual(&self) -> u64
        ensures usual { result ≡ self.now.usual }
        ensures near { result ≤ MOST_DELAY }
    {
        self.delays.usual()
    }
}

/// The lesser of a moment and of another, if there is one.
pub fn sooner(moment: u64, other: Option<u64>) -> u64
    ensures { result ≡ sooner moment other }
{
    match other {
        Some(other) => moment.min(other),
        None => moment,
    }
}
