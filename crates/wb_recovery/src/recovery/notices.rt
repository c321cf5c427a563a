//! Notices of many names, all or none.

ghost use Rattle.std.specs.Prelude.{◌≤◌, ◌≡◌, ◌<◌, ◌^◌, ◌&&◌, List, true, is_none, is_some, if◌then◌else◌, OnOk, OnErr, MatchOption, IsOk};
ghost use Rattle.std.specs.Prelude.{Some as some};
ghost use Rattle.std.specs.List.{list_all};
ghost use Rattle.std.specs.List.Sorted.{IsStrictlySortedBy};
ghost use Rattle.wb_names.specs.Moments.{IsMoment};
ghost use Rattle.wb_recovery.specs.Delays.{IsDelay};
ghost use Rattle.wb_names.specs.Values.{NameValue};
ghost use Rattle.wb_names.specs.Orders.{same_name, name_cmp};
ghost use Rattle.wb_recovery.specs.Faults.{is_delay, call_fault, IsCheckedBy};
ghost use Rattle.wb_recovery.specs.Timing.{noticed};
ghost use Rattle.wb_recovery.specs.Values.{record_in, timers_in, names_in, Replaces};
ghost use Rattle.wb_recovery.specs.Events.{Event};
ghost use Rattle.wb_recovery.specs.Accepted.{StandsFor};
ghost use Rattle.wb_recovery.specs.Noticing.{notices, unset_at, taken_back};
ghost use Rattle.wb_recovery.specs.declared.tuning.Tuning.{Tuning as Constants};

use crate::fault::{DELAY_LIMIT, RecoveryFault};
use crate::missed::Missed;
use crate::records::rewrite;
use crate::recovery::Recovery;
use crate::timers::Timers;
use std::alloc::{AllocError, Global};
use wb_names::Name;

impl Recovery {
    /// Names are missed: sets the request timer of each, in order, unless one stands. All are set
    /// or none: if memory runs out, those that were set are taken away again. `now` and the delays
    /// are in microseconds.
    ///
    /// Refused with `BackInTime`, `Range` (a delay of any of them) or `Memory`, in this order.
    pub fn notice_all(
        &mut self,
        alloc: Global,
        missed: &[Missed],
        now: u64,
    ) -> Result<(), RecoveryFault>
        ensures fault { IsCheckedBy
            (call_fault self.old.moment now (list_all (λ m. is_delay m.delay) missed.now)) result }
        ensures ok { OnOk result ((constants : Constants) (events : List Event) →
            StandsFor constants events self.old →
            StandsFor constants (notices now events missed.now) self.new) }
        ensures moment { OnOk result (self.new.moment ≤ now) }
        ensures err { OnErr result (self.new ≡ self.old) }
    {
        self.check(now, are_delays(missed))?;
        let mut set = Vec::new(alloc);
        for one in missed {
            if self.start_noted(*one, now, &mut set).is_err() {
                self.take_back(set);
                return Err(RecoveryFault::Memory);
            }
        }
        self.moment = if missed.is_empty() { self.moment } else { now };
        Ok(())
    }

    /// Sets the request timer of one name, unless one stands. Notes the name first, with whether it
    /// had a record.
    fn start_noted(
        &mut self,
        one: Missed,
        now: u64,
        set: &mut Vec<(Name, bool)>,
    ) -> Result<(), AllocError>
        requires moment { IsMoment now }
        requires delay { IsDelay one.delay }
        ensures ok { OnOk result (Replaces self.old self.new one.name
            (noticed self.old.tuning now one.delay one.word (timers_in self.old one.name))) }
        ensures back { (n : NameValue) → taken_back n set.new.items (record_in self.new n) ≡
            taken_back n set.old.items (record_in self.old n) }
        ensures err { OnErr result (self.new ≡ self.old) }
        ensures ordered { IsStrictlySortedBy name_cmp (names_in self.old) }
    {
        if self.timers(&one.name).ask.is_some() {
            return Ok(());
        }
        set.push((one.name, self.has_record(&one.name)))?;
        self.start(one, now)
    }

    /// Whether a name ever had a timer.
    fn has_record(&self, name: &Name) -> bool
        ensures { result ≡ is_some (record_in self.now name.now) }
    {
        self.records.contains_key(name)
    }

    /// Sets the request timer of one name, unless one stands.
    pub(super) fn start(&mut self, one: Missed, now: u64) -> Result<(), AllocError>
        requires moment { IsMoment now }
        requires delay { IsDelay one.delay }
        ensures ok { OnOk result (Replaces self.old self.new one.name
            (noticed self.old.tuning now one.delay one.word (timers_in self.old one.name))) }
        ensures records { OnOk result ((n : NameValue) → record_in self.new n ≡
            (if same_name one.name n && is_none (timers_in self.old one.name).ask then
            some (noticed self.old.tuning now one.delay one.word (timers_in self.old one.name)) else
            record_in self.old n)) }
        ensures err { OnErr result (self.new ≡ self.old) }
    {
        let before = self.timers(&one.name);
        let ask = before.noticed(self.tuning, now, one.delay, one.word);
        self.set_ask(one.name, before, ask)
    }

    /// Takes the request timers of these names away, the last first.
    fn take_back(&mut self, set: Vec<(Name, bool)>)
        ensures back { (n : NameValue) →
            record_in self.new n ≡ taken_back n set.items (record_in self.old n) }
        ensures tuning { self.new.tuning ≡ self.old.tuning }
        ensures moment { self.new.moment ≡ self.old.moment }
        ensures ordered { IsStrictlySortedBy name_cmp (names_in self.old) →
            IsStrictlySortedBy name_cmp (names_in self.new) }
    {
        let mut set = set;
        while let Some(last) = set.pop() {
            self.unset_ask(last.0, last.1);
        }
    }

    /// Takes the request timer of a name away, if one stands, and the record too if the name had
    /// none before.
    fn unset_ask(&mut self, name: Name, had: bool)
        ensures back { (n : NameValue) →
            record_in self.new n ≡ unset_at n (name, had) (record_in self.old n) }
        ensures tuning { self.new.tuning ≡ self.old.tuning }
        ensures moment { self.new.moment ≡ self.old.moment }
        ensures ordered { IsStrictlySortedBy name_cmp (names_in self.new) }
    {
        let timers = self.timers(&name);
        if timers.ask.is_none() {
            return;
        }
        self.asks.end(name);
        if had {
            let after = Timers {
                ask: None,
                ..timers
            };
            rewrite(&mut self.records, name, after);
        } else {
            self.answers.end(name);
            self.records.remove(&name);
        }
    }
}

/// Whether the delay of each is in its range.
fn are_delays(missed: &[Missed]) -> bool
    ensures { result ≡ list_all (λ m. is_delay m.delay) missed.now }
{
    missed.iter().all(|one| one.delay < DELAY_LIMIT)
}
