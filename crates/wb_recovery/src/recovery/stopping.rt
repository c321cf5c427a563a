//! A tick before which some timers are stopped.

ghost use Rattle.std.specs.Prelude.{◌≡◌, ◌<◌, ◌≤◌, ◌^◌, ◌∷◌, ℕ, Bool, List, true, filter, length, IfOk, OnOk, OnErr};
ghost use Rattle.std.specs.Fn.{FnReturnsAt};
ghost use Rattle.std.specs.List.{list_all};
ghost use Rattle.std.specs.BTreeSet.{contains};
ghost use Rattle.wb_names.specs.Moments.{IsMoment};
ghost use Rattle.wb_names.specs.Values.{NameValue};
ghost use Rattle.wb_names.specs.Orders.{name_cmp};
ghost use Rattle.wb_recovery.specs.Faults.{is_delay, call_fault, IsCheckedBy};
ghost use Rattle.wb_recovery.specs.Values.{timers_in, names_in};
ghost use Rattle.wb_recovery.specs.Events.{Event, Tick, asking, due_asks, actions_of};
ghost use Rattle.wb_recovery.specs.Accepted.{StandsFor};
ghost use Rattle.wb_recovery.specs.Alarms.{Tells};
ghost use Rattle.wb_recovery.specs.Stopping.{receipts, is_received, EndsAll, FiresThese, IsPlan, IsPlanOf};
ghost use Rattle.wb_recovery.specs.declared.missed.Received.{Received as AReceived};
ghost use Rattle.wb_recovery.specs.declared.tuning.Tuning.{Tuning as Constants};

use crate::fault::{DELAY_LIMIT, RecoveryFault};
use crate::firing::{actions, answer_all, ask_all, asked_after};
use crate::missed::Received;
use crate::plan::{Action, Plan};
use crate::recovery::Recovery;
use std::alloc::{AllocError, Global};
use std::collections::BTreeSet;
use wb_names::Name;

impl Recovery {
    /// Names have come, and time goes on to a moment: stops the timers of these names, each as
    /// `got` does, and then fires what is due as `tick` does, as one call. Answers what to send.
    /// The moment is in microseconds. There are at least as many words as `due_count` says at this
    /// moment.
    ///
    /// Refused with `BackInTime`, `Range` (a delay of any of them) or `Memory`, in this order.
    pub fn stop_and_tick(
        &mut self,
        alloc: Global,
        received: &[Received],
        now: u64,
        words: &[u64],
    ) -> Result<Vec<Action>, RecoveryFault>
        requires { length (due_asks (names_in self.old) (timers_in self.old) now) ≤
            length words.now }
        ensures fault { IsCheckedBy (call_fault self.old.moment now
            (list_all (λ c. is_delay c.delay) received.now)) result }
        ensures actions { IfOk result (λ actions. (constants : Constants) (events : List Event) →
            StandsFor constants events self.old →
            actions.items ≡ actions_of constants (receipts now events received.now) now) }
        ensures ok { OnOk result ((constants : Constants) (events : List Event) →
            StandsFor constants events self.old →
            StandsFor constants (Tick now words.now ∷ receipts now events received.now) self.new) }
        ensures moment { OnOk result (self.new.moment ≡ now) }
        ensures err { OnErr result (self.new ≡ self.old) }
    {
        let plan = self.plan(alloc, received, now, words)?;
        Ok(self.commit(plan, received))
    }

    /// What `stop_and_tick` would do at this moment, in microseconds. It changes nothing: `commit`
    /// does it. If nothing is due and no name has come, it takes no memory. There are at least as
    /// many words as `due_count` says at this moment.
    ///
    /// Refused as `stop_and_tick`.
    pub fn plan(
        &self,
        alloc: Global,
        received: &[Received],
        now: u64,
        words: &[u64],
    ) -> Result<Plan, RecoveryFault>
        requires { length (due_asks (names_in self.now) (timers_in self.now) now) ≤
            length words.now }
        ensures fault { IsCheckedBy (call_fault self.now.moment now
            (list_all (λ c. is_delay c.delay) received.now)) result }
        ensures actions { IfOk result (λ plan. (constants : Constants) (events : List Event) →
            StandsFor constants events self.now →
            plan.actions.items ≡ actions_of constants (receipts now events received.now) now) }
        ensures moment { IfOk result (λ plan. plan.moment ≡ now) }
        ensures plan { IfOk result (IsPlanOf self.now received.now words.now) }
    {
        self.check(now, are_delays(received))?;
        let stopped = stopped_names(alloc, received)?;
        let asking = self.asks.names_until(alloc, now, &stopped)?;
        let answering = self.answers.names_until(alloc, now, &stopped)?;
        let actions = actions(alloc, &asking, &answering)?;
        let after = asked_after(alloc, self.tuning, &self.records, &asking, now, words)?;
        Ok(Plan {
            moment: now,
            actions,
            asking,
            after,
            answering,
        })
    }

    /// Does what a plan for these names says, and answers what to send. Between the two no call may
    /// change the timers. It draws nothing and takes no memory, so it cannot be refused.
    pub fn commit(&mut self, plan: Plan, received: &[Received]) -> Vec<Action>
        requires { IsPlan self.old received.now plan }
        ensures actions { result ≡ plan.actions }
        ensures ok { (words : List ℕ) → IsPlanOf self.old received.now words plan →
            (constants : Constants) (events : List Event) → StandsFor constants events self.old →
            StandsFor constants (Tick plan.moment words ∷
            receipts plan.moment events received.now) self.new }
        ensures moment { self.new.moment ≡ plan.moment }
    {
        self.fire(&plan);
        self.end_all(received, plan.moment);
        self.moment = plan.moment;
        plan.actions
    }

    /// The names for which a request timer stands and that pass a test, ascending. It copies these
    /// alone, and takes no memory if none passes.
    pub fn asked_where<F: Fn(&Name) -> bool>(
        &self,
        alloc: Global,
        test: F,
    ) -> Result<Vec<Name>, AllocError>
        requires { F.IsAlwaysCallable test }
        ensures { (p : NameValue → Bool) → Tells (FnReturnsAt F.Fn test) p → IfOk result
            (λ names. names.items ≡ filter p (asking (names_in self.now) (timers_in self.now))) }
    {
        self.asks.names_where(alloc, test)
    }

    /// Fires the timers that a plan names. It takes no memory.
    fn fire(&mut self, plan: &Plan)
        requires { (received : List AReceived) × IsPlan self.old received plan.now }
        ensures { (received : List AReceived) (words : List ℕ) →
            IsPlanOf self.old received words plan.now → FiresThese plan.now.moment words
            plan.now.asking.items plan.now.answering.items self.old self.new }
    {
        ask_all(&mut self.records, &mut self.asks, &plan.asking, &plan.after);
        answer_all(
            &mut self.records,
            &mut self.answers,
            &plan.answering,
            plan.moment,
        );
        self.asks.renew();
        self.answers.renew();
    }

    /// Ends the timers of these names. It takes no memory.
    fn end_all(&mut self, received: &[Received], now: u64)
        requires moment { IsMoment now }
        requires delays { list_all (λ c. is_delay c.delay) received.now ≡ true }
        ensures { EndsAll now received.now self.old self.new }
    {
        for one in received {
            let before = self.timers(&one.name);
            if before.is_standing() {
                self.end(one.name, before, now + 3 * one.delay);
            }
        }
    }
}

/// Whether the delay of each is in its range.
fn are_delays(received: &[Received]) -> bool
    ensures { result ≡ list_all (λ c. is_delay c.delay) received.now }
{
    received.iter().all(|one| one.delay < DELAY_LIMIT)
}

/// The names that have come, to be looked up in.
fn stopped_names(alloc: Global, received: &[Received]) -> Result<BTreeSet<Name>, AllocError>
    ensures { IfOk result (λ names. (n : NameValue) →
        contains name_cmp names n ≡ is_received received.now n) }
{
    let mut names = BTreeSet::new(alloc);
    for one in received {
        names.insert(one.name)?;
    }
    Ok(names)
}
