//! What fires, and what becomes of it.

ghost use Rattle.std.specs.Prelude.{◌≡◌, ◌<◌, ◌≤◌, ◌^◌, ◌++◌, length, map, true, is_some, IsTrue, IfOk, Contains, if◌then◌else◌};
ghost use Rattle.std.specs.BTreeMap.{IsOrdered};
ghost use Rattle.std.specs.List.Sorted.{IsStrictlySortedBy};
ghost use Rattle.wb_names.specs.Moments.{IsMoment};
ghost use Rattle.wb_names.specs.Values.{NameValue};
ghost use Rattle.wb_names.specs.Orders.{name_cmp};
ghost use Rattle.wb_recovery.specs.declared.plan.Action.TheVariants.{Ask, Answer};
ghost use Rattle.wb_recovery.specs.declared.timers.Timers.{Timers as SomeTimers};
ghost use Rattle.wb_recovery.specs.Timing.{are_constants, is_answer_due, ask_due, answer_due, AreDelays};
ghost use Rattle.wb_recovery.specs.Alarms.{among, Keep};
ghost use Rattle.wb_recovery.specs.Values.{timers_at};
ghost use Rattle.wb_recovery.specs.Firing.{with_ask_fired, with_answer_fired};

use crate::alarms::Alarms;
use crate::plan::Action;
use crate::records::{rewrite, timers_of};
use crate::timers::Timers;
use crate::tuning::Tuning;
use std::alloc::{AllocError, Global};
use std::collections::BTreeMap;
use wb_names::Name;

/// The actions of a tick: requests, and then answers.
pub(crate) fn actions(
    alloc: Global,
    asking: &[Name],
    answering: &[Name],
) -> Result<Vec<Action>, AllocError>
    ensures { IfOk result
        (λ actions. actions.items ≡ map Ask asking.now ++ map Answer answering.now) }
{
    let requests = asking.iter().map(|name| Action::Ask(*name));
    let answers = answering.iter().map(|name| Action::Answer(*name));
    requests.chain(answers).collect(alloc)
}

/// What is kept of each of these names once its request timer has fired, if it is due, with its own
/// word.
pub(crate) fn asked_after(
    alloc: Global,
    tuning: Tuning,
    records: &BTreeMap<Name, Timers>,
    asking: &[Name],
    now: u64,
    words: &[u64],
) -> Result<Vec<Timers>, AllocError>
    requires tuning { IsTrue (are_constants tuning) }
    requires moment { IsMoment now }
    requires delays { (n : NameValue) → AreDelays (timers_at records.now.entries n) }
    requires rising { IsStrictlySortedBy name_cmp asking.now }
    requires words { length asking.now ≤ length words.now }
    ensures { IfOk result (λ after. after.items ≡
        map (with_ask_fired tuning now words.now asking.now (timers_at records.now.entries))
        asking.now) }
{
    let mut after = Vec::new(alloc);
    for (count, name) in asking.iter().enumerate() {
        let before = timers_of(records, name);
        after.push(before.ask_fired(tuning, now, words[count]))?;
    }
    Ok(after)
}

/// Writes over the records of these names, each of which has a request timer, and moves their
/// alarms. It takes no memory.
pub(crate) fn ask_all(
    records: &mut BTreeMap<Name, Timers>,
    alarms: &mut Alarms,
    asking: &[Name],
    after: &[Timers],
)
    requires ordered { IsOrdered name_cmp records.old }
    requires kept { Keep (λ n. ask_due (timers_at records.old.entries n)) alarms.old }
    requires rising { IsStrictlySortedBy name_cmp asking.now }
    requires standing { (n : NameValue) → Contains asking.now n →
        is_some (ask_due (timers_at records.old.entries n)) ≡ true }
    requires each { (f : NameValue → SomeTimers) × (after.now ≡ map f asking.now) }
    ensures written { (f : NameValue → SomeTimers) →
        after.now ≡ map f asking.now → (n : NameValue) → timers_at records.new.entries n ≡
        (if among asking.now n then f n else timers_at records.old.entries n) }
    ensures kept { Keep (λ n. ask_due (timers_at records.new.entries n)) alarms.new }
    ensures ordered { IsOrdered name_cmp records.new }
{
    for (count, name) in asking.iter().enumerate() {
        let timers = after[count];
        alarms.follow(*name, timers.ask_due());
        rewrite(records, *name, timers);
    }
}

/// Ends the answer timers of these names, which are due, and their alarms. It takes no memory.
pub(crate) fn answer_all(
    records: &mut BTreeMap<Name, Timers>,
    alarms: &mut Alarms,
    answering: &[Name],
    now: u64,
)
    requires moment { IsMoment now }
    requires ordered { IsOrdered name_cmp records.old }
    requires delays { (n : NameValue) → AreDelays (timers_at records.old.entries n) }
    requires kept { Keep (λ n. answer_due (timers_at records.old.entries n)) alarms.old }
    requires rising { IsStrictlySortedBy name_cmp answering.now }
    requires due { (n : NameValue) → Contains answering.now n →
        is_answer_due now (timers_at records.old.entries n).answer ≡ true }
    ensures written { (n : NameValue) → timers_at records.new.entries n ≡
        (if among answering.now n then with_answer_fired now (timers_at records.old.entries) n else
        timers_at records.old.entries n) }
    ensures delays { (n : NameValue) → AreDelays (timers_at records.new.entries n) }
    ensures kept { Keep (λ n. answer_due (timers_at records.new.entries n)) alarms.new }
    ensures ordered { IsOrdered name_cmp records.new }
{
    for name in answering {
        let timers = timers_of(records, name);
        alarms.clear(*name);
        rewrite(records, *name, timers.answer_fired(now));
    }
}
