//! The timers of one name, and how each call changes them.
ghost use Rattle.std.specs.Prelude.{◌≡◌, ◌^◌, ◌<◌, false, true, IsTrue, IfSome, is_none, is_some};
ghost use Rattle.wb_names.specs.Moments.{IsMoment};
ghost use Rattle.wb_recovery.specs.Delays.{IsDelay};
ghost use Rattle.wb_recovery.specs.Timing.{are_constants, backed_off, noticed, asked, fired_ask, fired_answer, quiet_after, with_ask, with_answer, ask_due, answer_due, is_standing, AreDelays};

use crate::expiry::expiry;
use crate::tuning::Tuning;

/// A request timer: its name is missed, and is asked for when the timer is due.
#[derive(Clone, Copy, Debug, PartialEq, Eq)]
pub struct AskTimer {
    /// How often it was backed off since it was set, up to 16.
    pub level: u32,
    /// The moment at which it fires, in microseconds.
    pub due: u64,
    /// Before this moment, in microseconds, requests of others are ignored.
    pub deaf: u64,
    /// The delay that it was last set or backed off with, in microseconds.
    pub delay: u64,
}

/// An answer timer: its name was asked for, and is answered when the timer is due.
#[derive(Clone, Copy, Debug, PartialEq, Eq)]
pub struct AnswerTimer {
    /// The moment at which it fires, in microseconds.
    pub due: u64,
    /// The delay that it was set with, in microseconds.
    pub delay: u64,
}

/// What is kept of one name.
#[derive(Clone, Copy, Debug, PartialEq, Eq)]
pub(crate) struct Timers {
    pub(crate) ask: Option<AskTimer>,
    pub(crate) answer: Option<AnswerTimer>,
    /// Before this moment, in microseconds, no answer timer is set.
    pub(crate) quiet: u64,
}

impl AskTimer {
    /// The most that a level can be.
    const MAX_LEVEL: u32 = 16;

    /// The timer one level up, drawn anew, deaf for half of its wait.
    pub(crate) fn backed_off(self, tuning: Tuning, now: u64, delay: u64, word: u64) -> AskTimer
        requires tuning { IsTrue (are_constants tuning) }
        requires moment { IsMoment now }
        requires delay { IsDelay delay }
        ensures { result ≡ backed_off tuning self now delay word }
    {
        let level = self.level.min(AskTimer::MAX_LEVEL - 1) + 1;
        let due = expiry(now, level, tuning.c1, tuning.c2, delay, word);
        AskTimer {
            level,
            due,
            deaf: now + (due - now) / 2,
            delay,
        }
    }
}

impl Timers {
    /// What is kept of a name without timers.
    pub(crate) const NONE: Timers = Timers {
        ask: None,
        answer: None,
        quiet: 0,
    };

    /// The name is missed: the request timer to set, if none stands.
    pub(crate) fn noticed(
        &self,
        tuning: Tuning,
        now: u64,
        delay: u64,
        word: u64,
    ) -> Option<AskTimer>
        requires tuning { IsTrue (are_constants tuning) }
        requires moment { IsMoment now }
        requires delay { IsDelay delay }
        ensures timers { with_ask self.now result ≡ noticed tuning now delay word self.now }
        ensures set { is_some result ≡ is_none self.now.ask }
        ensures delay { IfSome result (λ ask. IsDelay ask.delay) }
    {
        if self.ask.is_some() {
            return None;
        }
        let due = expiry(now, 0, tuning.c1, tuning.c2, delay, word);
        Some(AskTimer {
            level: 0,
            due,
            deaf: 0,
            delay,
        })
    }

    /// Another member asks for the name, which is not held: the request timer backed off, if one
    /// stands that is not deaf.
    pub(crate) fn overheard(
        &self,
        tuning: Tuning,
        now: u64,
        delay: u64,
        word: u64,
    ) -> Option<AskTimer>
        requires tuning { IsTrue (are_constants tuning) }
        requires moment { IsMoment now }
        requires delay { IsDelay delay }
        ensures timers { with_ask self.now result ≡ asked tuning false now delay word self.now }
        ensures delay { IfSome result (λ ask. IsDelay ask.delay) }
    {
        match self.ask {
            Some(ask) if ask.deaf <= now => Some(ask.backed_off(tuning, now, delay, word)),
            _ => None,
        }
    }

    /// Another member asks for the name, which is held: the answer timer to set, if none stands and
    /// the name is not quiet.
    pub(crate) fn asked_for(
        &self,
        tuning: Tuning,
        now: u64,
        delay: u64,
        word: u64,
    ) -> Option<AnswerTimer>
        requires tuning { IsTrue (are_constants tuning) }
        requires moment { IsMoment now }
        requires delay { IsDelay delay }
        ensures timers { with_answer self.now result ≡ asked tuning true now delay word self.now }
        ensures delay { IfSome result (λ answer. IsDelay answer.delay) }
    {
        if self.answer.is_some() || now < self.quiet {
            return None;
        }
        let due = expiry(now, 0, tuning.d1, tuning.d2, delay, word);
        Some(AnswerTimer { due, delay })
    }

    /// The moment at which the request timer is due.
    #[inline(always)]
    pub(crate) fn ask_due(&self) -> Option<u64>
        ensures { result ≡ ask_due self.now }
    {
        self.ask.map(|ask| ask.due)
    }

    /// The moment at which the answer timer is due.
    #[inline(always)]
    pub(crate) fn answer_due(&self) -> Option<u64>
        ensures { result ≡ answer_due self.now }
    {
        self.answer.map(|answer| answer.due)
    }

    /// Whether a timer stands.
    pub(crate) fn is_standing(&self) -> bool
        ensures { result ≡ is_standing self.now }
    {
        self.ask.is_some() || self.answer.is_some()
    }

    /// The timers once the request timer has fired, if it is due: it backs off with its own delay.
    pub(crate) fn ask_fired(self, tuning: Tuning, now: u64, word: u64) -> Timers
        requires tuning { IsTrue (are_constants tuning) }
        requires moment { IsMoment now }
        requires delays { AreDelays self }
        ensures timers { result ≡ record self { ask = fired_ask tuning now word self.ask } }
        ensures delays { AreDelays result }
    {
        match self.ask {
            Some(ask) if ask.due <= now => Timers {
                ask: Some(ask.backed_off(tuning, now, ask.delay, word)),
                ..self
            },
            _ => self,
        }
    }

    /// The timers once the answer timer has fired, if it is due: it ends, and leaves the name
    /// quiet.
    pub(crate) fn answer_fired(self, now: u64) -> Timers
        requires moment { IsMoment now }
        requires delays { AreDelays self }
        ensures timers { result ≡ record self {
          answer = fired_answer now self.answer;
          quiet = quiet_after now self.quiet self.answer;
        } }
        ensures delays { AreDelays result }
    {
        match self.answer {
            Some(answer) if answer.due <= now => Timers {
                answer: None,
                quiet: now + 3 * answer.delay,
                ..self
            },
            _ => self,
        }
    }
}
