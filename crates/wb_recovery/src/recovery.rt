//! The request and answer timers of one host.
ghost use Rattle.std.specs.Prelude.{◌≡◌, ◌+◌, ◌*◌, ◌<◌, ◌≤◌, ◌^◌, ◌∷◌, ◌&&◌, [], ℕ, List, Option, is_some, false, true, if◌then◌else◌, IsTrue, IsOk, IfOk, OnOk, OnErr, IfSome, MatchOption, MatchResult, length};
ghost use Rattle.std.specs.List.Sorted.{IsStrictlySortedBy};
ghost use Rattle.wb_names.specs.Values.{NameValue};
ghost use Rattle.wb_names.specs.Orders.{same_name, name_cmp};
ghost use Rattle.wb_recovery.specs.Faults.{is_delay, call_fault, IsCheckedBy};
ghost use Rattle.wb_recovery.specs.Timing.{are_constants, is_standing, AreDelays, with_ask, with_answer};
ghost use Rattle.wb_recovery.specs.Values.{record_in, timers_in, names_in, Replaces};
ghost use Rattle.std.specs.Prelude.{Some as some, None as none};
ghost use Rattle.wb_names.specs.Moments.{IsMoment};
ghost use Rattle.wb_recovery.specs.Delays.{IsDelay};
ghost use Rattle.wb_recovery.specs.Events.{Event, Notice, Asked, Got, Tick, Tune, names_of, timers_of, asking, due_asks, actions_of, IsNextDue};
ghost use Rattle.wb_recovery.specs.Accepted.{StandsFor, Accepts};
ghost use Rattle.wb_recovery.specs.declared.tuning.Tuning.{Tuning as Constants};

mod notices;
mod stopping;

use crate::alarms::Alarms;
use crate::fault::{DELAY_LIMIT, RecoveryFault, TuningFault};
use crate::missed::Missed;
use crate::plan::Action;
use crate::records::{copy_of, rewrite, timers_of};
use crate::timers::{AnswerTimer, AskTimer, Timers};
use crate::tuning::Tuning;
use std::alloc::{AllocError, Global};
use std::collections::BTreeMap;
use std::marker::Model;
use wb_names::{MOMENT_LIMIT, Name};

/// The request and answer timers of one host.
///
/// What it holds is a function of the calls that it accepted: the contracts say of each call that a
/// recovery which stands for a list of calls stands, once it has accepted this one, for the list
/// with this one too. `timers_of` says what the timers of a name are after such a list.
#[derive(Debug, Drop)]
pub struct Recovery {
    tuning: Tuning,
    /// The moment of the last accepted call, in microseconds.
    moment: u64,
    /// What is kept of each name that ever had a timer.
    records: BTreeMap<Name, Timers>,
    /// The alarms of the request timers, which say what is due without a walk over all names.
    asks: Alarms,
    /// The alarms of the answer timers.
    answers: Alarms,
}

impl Model for Recovery {
    ghost use Rattle.wb_recovery.specs.Values.{RecoveryValue};
    ghost use Rattle.wb_recovery.specs.Consistent.{IsConsistent};

    ghost Value = { RecoveryValue };

    ghost view = { λ r.
        record { tuning = r.tuning; moment = r.moment; records = r.records.entries } };

    ghost invariant = { λ r. IsConsistent r.tuning r.moment r.records r.asks r.answers };
}

impl Recovery {
    /// A recovery without timers. A constant that is not 1 to 16 is refused with `Constant`.
    pub fn new(alloc: Global, tuning: Tuning) -> Result<Recovery, TuningFault>
        ensures constants { MatchResult result (λ r. IsTrue (are_constants tuning))
            (λ e. are_constants tuning ≡ false) }
        ensures empty { IfOk result (StandsFor tuning []) }
    {
        if !tuning.is_in_range() {
            return Err(TuningFault::Constant);
        }
        Ok(Recovery {
            tuning,
            moment: 0,
            records: BTreeMap::new(alloc),
            asks: Alarms::new(alloc),
            answers: Alarms::new(alloc),
        })
    }

    /// Takes other constants, for each timer that is set or backed off from now on. A timer that
    /// stands keeps its moment, and the present moment stays.
    ///
    /// Refused with `Constant` if one is not 1 to 16.
    pub fn tune(&mut self, tuning: Tuning) -> Result<(), TuningFault>
        ensures constants { MatchResult result (λ done. IsTrue (are_constants tuning))
            (λ e. are_constants tuning ≡ false) }
        ensures ok { OnOk result (Accepts (Tune tuning) self.old self.new) }
        ensures moment { self.new.moment ≡ self.old.moment }
        ensures err { OnErr result (self.new ≡ self.old) }
    {
        if !tuning.is_in_range() {
            return Err(TuningFault::Constant);
        }
        self.tuning = tuning;
        Ok(())
    }

    /// A name is missed: sets its request timer, unless one stands. `now` and `delay` are in
    /// microseconds.
    ///
    /// Refused with `BackInTime`, `Range` or `Memory`, in this order.
    pub fn notice(
        &mut self,
        name: Name,
        now: u64,
        delay: u64,
        word: u64,
    ) -> Result<(), RecoveryFault>
        ensures fault { IsCheckedBy (call_fault self.old.moment now (is_delay delay)) result }
        ensures ok { OnOk result (Accepts (Notice name now delay word) self.old self.new) }
        ensures moment { OnOk result (self.new.moment ≡ now) }
        ensures err { OnErr result (self.new ≡ self.old) }
    {
        self.check(now, delay < DELAY_LIMIT)?;
        self.start(Missed { name, delay, word }, now)?;
        self.moment = now;
        Ok(())
    }

    /// Another member asks for a name. If it is not held, a request timer of it that is not deaf
    /// backs off; `delay` is that to the name's source. If it is held, an answer timer is set,
    /// unless one stands or the name is quiet; `delay` is that to the member who asks. `now` and
    /// `delay` are in microseconds.
    ///
    /// Refused with `BackInTime`, `Range` or `Memory`, in this order.
    pub fn asked(
        &mut self,
        name: Name,
        held: bool,
        now: u64,
        delay: u64,
        word: u64,
    ) -> Result<(), RecoveryFault>
        ensures fault { IsCheckedBy (call_fault self.old.moment now (is_delay delay)) result }
        ensures ok { OnOk result (Accepts (Asked name held now delay word) self.old self.new) }
        ensures moment { OnOk result (self.new.moment ≡ now) }
        ensures err { OnErr result (self.new ≡ self.old) }
    {
        self.check(now, delay < DELAY_LIMIT)?;
        let before = self.timers(&name);
        if held {
            let answer = before.asked_for(self.tuning, now, delay, word);
            self.set_answer(name, before, answer)?;
        } else {
            let ask = before.overheard(self.tuning, now, delay, word);
            self.set_ask(name, before, ask)?;
        }
        self.moment = now;
        Ok(())
    }

    /// A name has come: its timers end, and if one stood the name is quiet for three delays to its
    /// source. `now` and `delay` are in microseconds.
    ///
    /// Refused with `BackInTime` or `Range`, in this order. It takes no memory.
    pub fn got(&mut self, name: Name, now: u64, delay: u64) -> Result<(), RecoveryFault>
        ensures fault { MatchOption (call_fault self.old.moment now (is_delay delay)) (IsOk result)
            (λ fault. result ≡ Err fault) }
        ensures ok { OnOk result (Accepts (Got name now delay) self.old self.new) }
        ensures moment { OnOk result (self.new.moment ≡ now) }
        ensures err { OnErr result (self.new ≡ self.old) }
    {
        self.check(now, delay < DELAY_LIMIT)?;
        let before = self.timers(&name);
        if before.is_standing() {
            self.end(name, before, now + 3 * delay);
        }
        self.moment = now;
        Ok(())
    }

    /// Time goes on to a moment: each timer that is due by then fires once. Answers what to send: a
    /// request for each name whose request timer fires, ascending, and then the drawop of each name
    /// whose answer timer fires, ascending.
    ///
    /// A request timer that fires backs off with its own delay, and takes a word: the first word
    /// goes to the smallest name. An answer timer that fires takes none; it ends, and its name is
    /// quiet for three of its delays. If nothing is due, the timers are seldom looked at. The
    /// moment is in microseconds. There are at least as many words as `due_count` says at this
    /// moment.
    ///
    /// Refused with `BackInTime`, `Range` or `Memory`, in this order.
    pub fn tick(
        &mut self,
        alloc: Global,
        now: u64,
        words: &[u64],
    ) -> Result<Vec<Action>, RecoveryFault>
        requires { length (due_asks (names_in self.old) (timers_in self.old) now) ≤
            length words.now }
        ensures fault { IsCheckedBy (call_fault self.old.moment now true) result }
        ensures actions { IfOk result (λ actions. (constants : Constants) (events : List Event) →
            StandsFor constants events self.old → actions.items ≡ actions_of constants events now) }
        ensures ok { OnOk result (Accepts (Tick now words.now) self.old self.new) }
        ensures moment { OnOk result (self.new.moment ≡ now) }
        ensures err { OnErr result (self.new ≡ self.old) }
    {
        self.stop_and_tick(alloc, &[], now, words)
    }

    /// How many request timers are due at a moment, in microseconds, and so how many words `tick`
    /// then needs. If none is due, the timers are seldom looked at.
    pub fn due_count(&self, now: u64) -> usize
        ensures count { result ≡ length (due_asks (names_in self.now) (timers_in self.now) now) }
        ensures events { (constants : Constants) (events : List Event) →
            StandsFor constants events self.now →
            result ≡ length (due_asks (names_of events) (timers_of constants events) now) }
    {
        self.asks.count_until(now)
    }

    /// How many request timers stand: a number that is kept.
    pub fn asks(&self) -> usize
        ensures count { result ≡ length (asking (names_in self.now) (timers_in self.now)) }
        ensures events { (constants : Constants) (events : List Event) →
            StandsFor constants events self.now →
            result ≡ length (asking (names_of events) (timers_of constants events)) }
    {
        self.asks.len()
    }

    /// The least moment at which a timer is due, in microseconds, and so when the next `tick` has
    /// something to do: a moment that is kept. None if no timer stands.
    pub fn next_due(&self) -> Option<u64>
        ensures { IsNextDue (timers_in self.now) result }
    {
        match (self.asks.first(), self.answers.first()) {
            (Some(ask), Some(answer)) => Some(ask.min(answer)),
            (Some(due), None) | (None, Some(due)) => Some(due),
            (None, None) => None,
        }
    }

    /// The request timer of a name.
    pub fn ask_of(&self, name: &Name) -> Option<AskTimer>
        ensures { result ≡ (timers_in self.now name.now).ask }
    {
        self.timers(name).ask
    }

    /// The answer timer of a name.
    pub fn answer_of(&self, name: &Name) -> Option<AnswerTimer>
        ensures { result ≡ (timers_in self.now name.now).answer }
    {
        self.timers(name).answer
    }

    /// The moment before which the name is not answered, in microseconds, or 0.
    pub fn quiet_of(&self, name: &Name) -> u64
        ensures { result ≡ (timers_in self.now name.now).quiet }
    {
        self.timers(name).quiet
    }

    /// An equal recovery. A change of one leaves the other as it is.
    pub fn copy(&self, alloc: Global) -> Result<Recovery, AllocError>
        ensures { IfOk result (λ r. r ≡ self.now) }
    {
        Ok(Recovery {
            tuning: self.tuning,
            moment: self.moment,
            records: copy_of(&self.records)?,
            asks: self.asks.copy()?,
            answers: self.answers.copy()?,
        })
    }

    /// What is kept of a name.
    fn timers(&self, name: &Name) -> Timers
        ensures timers { result ≡ timers_in self.now name.now }
        ensures delays { AreDelays result }
        ensures ordered { IsStrictlySortedBy name_cmp (names_in self.now) }
    {
        timers_of(&self.records, name)
    }

    /// Refuses a moment below the last one, and then a moment, or some delay of the call, out of
    /// its range.
    fn check(&self, now: u64, in_range: bool) -> Result<(), RecoveryFault>
        ensures fault { MatchOption (call_fault self.now.moment now in_range) (IsOk result)
            (λ fault. result ≡ Err fault) }
        ensures moment { OnOk result (IsMoment now) }
        ensures delays { OnOk result (in_range ≡ true) }
        ensures tuning { IsTrue (are_constants self.now.tuning) }
        ensures ordered { IsStrictlySortedBy name_cmp (names_in self.now) }
    {
        if now < self.moment {
            return Err(RecoveryFault::BackInTime);
        }
        if now >= MOMENT_LIMIT || !in_range {
            return Err(RecoveryFault::Range);
        }
        Ok(())
    }

    /// Sets or moves the request timer of a name, if one is given.
    fn set_ask(
        &mut self,
        name: Name,
        before: Timers,
        ask: Option<AskTimer>,
    ) -> Result<(), AllocError>
        requires before { before ≡ timers_in self.old name }
        requires delay { IfSome ask (λ timer. IsDelay timer.delay) }
        ensures ok { OnOk result (Replaces self.old self.new name (with_ask before ask)) }
        ensures records { OnOk result ((n : NameValue) →
            record_in self.new n ≡ (if same_name name n && is_some ask then
            some (with_ask before ask) else record_in self.old n)) }
        ensures err { OnErr result (self.new ≡ self.old) }
    {
        let Some(ask) = ask else {
            return Ok(());
        };
        self.asks.set(name, ask.due)?;
        let after = Timers {
            ask: Some(ask),
            ..before
        };
        if self.records.insert(name, after).is_err() {
            self.asks.end(name);
            return Err(AllocError);
        }
        Ok(())
    }

    /// Sets the answer timer of a name, if one is given.
    fn set_answer(
        &mut self,
        name: Name,
        before: Timers,
        answer: Option<AnswerTimer>,
    ) -> Result<(), AllocError>
        requires before { before ≡ timers_in self.old name }
        requires delay { IfSome answer (λ timer. IsDelay timer.delay) }
        ensures ok { OnOk result (Replaces self.old self.new name (with_answer before answer)) }
        ensures err { OnErr result (self.new ≡ self.old) }
    {
        let Some(answer) = answer else {
            return Ok(());
        };
        self.answers.set(name, answer.due)?;
        let after = Timers {
            answer: Some(answer),
            ..before
        };
        if self.records.insert(name, after).is_err() {
            self.answers.end(name);
            return Err(AllocError);
        }
        Ok(())
    }

    /// Ends the timers of a name, of which one stands, and leaves it quiet up to a moment. It takes
    /// no memory, since the name has its record.
    fn end(&mut self, name: Name, before: Timers, quiet: u64)
        requires before { before ≡ timers_in self.old name }
        requires standing { is_standing before ≡ true }
        ensures { Replaces self.old self.new name
            (record { ask = none; answer = none; quiet = quiet }) }
    {
        self.asks.end(name);
        self.answers.end(name);
        let after = Timers {
            ask: None,
            answer: None,
            quiet,
        };
        rewrite(&mut self.records, name, after);
    }
}
