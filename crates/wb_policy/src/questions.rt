//! Questions for pages: when this member asks for them, and when it answers others.

ghost use Rattle.std.specs.Prelude.{◌≡◌, ◌≤◌, ◌<◌, ◌^◌};
ghost use Rattle.wb_names.specs.Moments.{IsMoment};
ghost use Rattle.wb_policy.specs.declared.limits.TheConstants.{ANSWER, FIRST_QUESTION, LONGEST_MEAN, MOST_WAIT, QUIET};
ghost use Rattle.wb_policy.specs.Questions.{answer_pause, answered_at, asked_at, heard_at, is_due, is_to_answer, opened_at, to_answer};

use crate::limits::{FIRST_WAIT, LONGEST_MEAN, MOST_PAGES, MOST_WAIT, QUIET, SECOND, STATE_BYTES};

/// When a member asks which pages there are, and when it answers others, in microseconds.
#[derive(Clone, Copy, Debug, PartialEq, Eq)]
pub struct Questions {
    /// When it asks next. None once another member sent a page state.
    pub ask: Option<u64>,
    /// Its wait after that, from `FIRST_WAIT` to `MOST_WAIT`.
    pub wait: u64,
    /// When it answers a question. None if none is to be answered.
    pub answer: Option<u64>,
    /// Before this moment no question is taken up, since somebody answered one.
    pub quiet: u64,
}

impl Questions {
    /// It asks after `drawn` microseconds, from 0 to `FIRST_QUESTION`.
    pub fn new(now: u64, drawn: u64) -> Questions
        requires moment { IsMoment now }
        requires drawn { drawn ≤ FIRST_QUESTION }
        ensures { result ≡ opened_at now drawn }
    {
        Questions {
            ask: Some(now + drawn),
            wait: FIRST_WAIT,
            answer: None,
            quiet: 0,
        }
    }

    /// Whether it is to ask.
    pub fn is_to_ask(&self, now: u64) -> bool
        ensures { result ≡ is_due now self.now.ask }
    {
        is_due(now, self.ask)
    }

    /// It asked. The number is drawn from 0 to its wait.
    pub fn asked(&mut self, now: u64, drawn: u64)
        requires moment { IsMoment now }
        requires wait { self.old.wait ≤ MOST_WAIT }
        requires drawn { drawn ≤ self.old.wait }
        ensures { self.new ≡ asked_at now drawn self.old }
    {
        self.ask = Some(now + self.wait / 2 + drawn);
        self.wait = (2 * self.wait).min(MOST_WAIT);
    }

    /// Another member asks: whether this one, which holds something or not, takes the question up.
    pub fn takes_up(&self, now: u64, holds: bool) -> bool
        ensures { result ≡ is_to_answer now holds self.now }
    {
        holds && self.answer.is_none() && self.quiet <= now
    }

    /// It will answer after `drawn` microseconds, from 0 to `ANSWER`.
    pub fn take_up(&mut self, now: u64, drawn: u64)
        requires moment { IsMoment now }
        requires drawn { drawn ≤ ANSWER }
        ensures { self.new ≡ to_answer now drawn self.old }
    {
        self.answer = Some(now + drawn);
    }

    /// Whether it is to answer now.
    pub fn is_to_answer(&self, now: u64) -> bool
        ensures { result ≡ is_due now self.now.answer }
    {
        is_due(now, self.answer)
    }

    /// It answered, and takes up no question for this time.
    pub fn answered(&mut self, now: u64, pause: u64)
        requires moment { IsMoment now }
        requires pause { pause ≤ LONGEST_MEAN }
        ensures { self.new ≡ answered_at now pause self.old }
    {
        self.answer = None;
        self.quiet = now + pause;
    }

    /// Another member sent a page state.
    pub fn heard(&mut self, now: u64)
        requires { IsMoment now }
        ensures { self.new ≡ heard_at now self.old }
    {
        self.ask = None;
        self.answer = None;
        self.quiet = self.quiet.max(now + QUIET);
    }
}

/// How long page states are paid for: they take `rate` bytes a second, each counted with its most
/// bytes. From 1 to 64 seconds.
pub fn answer_pause(rate: u64, states: usize) -> u64
    requires { 1 ≤ rate }
    ensures pause { result ≡ answer_pause rate states }
    ensures longest { result ≤ LONGEST_MEAN }
{
    let bytes = states.min(MOST_PAGES) as u64 * STATE_BYTES;
    (bytes * SECOND / rate).max(QUIET).min(LONGEST_MEAN)
}

/// Whether a moment is due.
fn is_due(now: u64, moment: Option<u64>) -> bool
    ensures { result ≡ is_due now moment }
{
    match moment {
        Some(moment) => moment <= now,
        None => false,
    }
}
