//! The moments at which timers are due.

ghost use Rattle.std.specs.Prelude.{◌≡◌, ◌≢◌, ℕ, Bool, Option, true, filter, nat_le, length, IsSome, IfOk, OnOk, OnErr};
ghost use Rattle.std.specs.Prelude.{Some as some, None as none};
ghost use Rattle.std.specs.Prelude.{◌&&◌, not, is_some, if◌then◌else◌};
ghost use Rattle.std.specs.BTreeMap.{get, keys, values, IsOrdered};
ghost use Rattle.std.specs.BTreeSet.{contains};
ghost use Rattle.std.specs.Fn.{FnReturnsAt};
ghost use Rattle.std.specs.List.{filter_map};
ghost use Rattle.wb_names.specs.Values.{NameValue};
ghost use Rattle.wb_names.specs.Orders.{name_cmp};
ghost use Rattle.wb_names.specs.Listing.{Lists};
ghost use Rattle.wb_recovery.specs.Alarms.{Keep, Tells, is_until, is_after, with_due, due_name, earlier, earliest, CountsAll, CountsUntil, IsFirst};

use std::alloc::{AllocError, Global};
use std::collections::{BTreeMap, BTreeSet};
use wb_names::Name;

/// The moments at which all timers of one kind are due, by name. A timer that moves or ends takes
/// no memory: only one that is set for a name without one does.
#[derive(Debug, Drop)]
pub(crate) struct Alarms {
    dues: BTreeMap<Name, u64>,
    /// No timer is due before this moment, so that up to it none is looked at. None if none stands.
    soonest: Option<u64>,
    /// Whether that moment is known to be the first one. It is not once the alarm at it was moved
    /// or taken away.
    is_exact: bool,
}

impl Alarms {
    /// No alarms.
    pub(crate) fn new(alloc: Global) -> Alarms
        ensures kept { Keep (λ n. none) result }
        ensures exact { result.is_exact ≡ true }
    {
        Alarms {
            dues: BTreeMap::new(alloc),
            soonest: None,
            is_exact: true,
        }
    }

    /// The same alarms.
    pub(crate) fn copy(&self) -> Result<Alarms, AllocError>
        ensures dues { IfOk result (λ alarms. alarms.dues.entries ≡ self.now.dues.entries) }
        ensures soonest { IfOk result (λ alarms. alarms.soonest ≡ self.now.soonest) }
        ensures exact { IfOk result (λ alarms. alarms.is_exact ≡ self.now.is_exact) }
    {
        Ok(Alarms {
            dues: self.dues.clone()?,
            soonest: self.soonest,
            is_exact: self.is_exact,
        })
    }

    /// The least moment at which a timer is due: the bound, which is exact.
    pub(crate) fn first(&self) -> Option<u64>
        requires { self.now.is_exact ≡ true }
        ensures { (dues : NameValue → Option ℕ) → Keep dues self.now → IsFirst dues result }
    {
        self.soonest
    }

    /// The least of the moments.
    fn least(&self) -> Option<u64>
        ensures least { result ≡ earliest none (values self.now.dues) }
        ensures ordered { IsOrdered name_cmp self.now.dues }
    {
        let mut least = None;
        for due in self.dues.values() {
            least = Some(earlier(least, *due));
        }
        least
    }

    /// How many timers there are: a number that the map keeps.
    pub(crate) fn len(&self) -> usize
        ensures { (dues : NameValue → Option ℕ) → Keep dues self.now → CountsAll dues result }
    {
        self.dues.len()
    }

    /// How many timers are due by this moment. Before the bound no timer is looked at.
    pub(crate) fn count_until(&self, now: u64) -> usize
        ensures { (dues : NameValue → Option ℕ) → Keep dues self.now → CountsUntil now dues result }
    {
        if self.is_ahead_of(now) {
            return 0;
        }
        self.due_len(now)
    }

    /// Whether the bound is after this moment, so that no timer is due by then.
    fn is_ahead_of(&self, now: u64) -> bool
        ensures { result ≡ is_after now self.now.soonest }
    {
        match self.soonest {
            Some(soonest) => now < soonest,
            None => true,
        }
    }

    /// How many of the moments have come.
    fn due_len(&self, now: u64) -> usize
        ensures len { result ≡ length (filter (λ d. nat_le d now) (values self.now.dues)) }
        ensures ordered { IsOrdered name_cmp self.now.dues }
    {
        self.dues.values().filter(|due| **due <= now).count()
    }

    /// The names whose timers are due by this moment, ascending, without the stopped ones. Before
    /// the bound no timer is looked at, and no memory is taken.
    pub(crate) fn names_until(
        &self,
        alloc: Global,
        now: u64,
        stopped: &BTreeSet<Name>,
    ) -> Result<Vec<Name>, AllocError>
        ensures { (dues : NameValue → Option ℕ) → Keep dues self.now →
            IfOk result (λ v. Lists name_cmp (λ n.
            (not (contains name_cmp stopped.now n) && is_until now (dues n)) ≡ true) v.items) }
    {
        if self.is_ahead_of(now) {
            return Ok(Vec::new(alloc));
        }
        self.due_names(alloc, now, stopped)
    }

    /// The same, by a look at each.
    fn due_names(
        &self,
        alloc: Global,
        now: u64,
        stopped: &BTreeSet<Name>,
    ) -> Result<Vec<Name>, AllocError>
        ensures ordered { IsOrdered name_cmp self.now.dues }
        ensures names { IfOk result (λ v. v.items ≡ filter_map
            (λ e. due_name (contains name_cmp stopped.now) now e.0 e.1) self.now.dues.entries) }
    {
        let dues = self.dues.iter();
        let names = dues.filter_map(|(name, due)| due_name(*name, *due, now, stopped));
        names.collect(alloc)
    }

    /// The names that have a timer and pass a test, ascending. It copies these alone.
    pub(crate) fn names_where<F: Fn(&Name) -> bool>(
        &self,
        alloc: Global,
        test: F,
    ) -> Result<Vec<Name>, AllocError>
        requires { F.IsAlwaysCallable test }
        ensures { (p : NameValue → Bool) →
            Tells (FnReturnsAt F.Fn test) p → (dues : NameValue → Option ℕ) → Keep dues self.now →
            IfOk result (λ v. Lists name_cmp (λ n. (p n && is_some (dues n)) ≡ true) v.items) }
    {
        self.some_names(alloc, test)
    }

    /// The same, in terms of the map.
    fn some_names<F: Fn(&Name) -> bool>(
        &self,
        alloc: Global,
        test: F,
    ) -> Result<Vec<Name>, AllocError>
        requires { F.IsAlwaysCallable test }
        ensures ordered { IsOrdered name_cmp self.now.dues }
        ensures names { (p : NameValue → Bool) → Tells (FnReturnsAt F.Fn test) p →
            IfOk result (λ v. v.items ≡ filter p (keys self.now.dues)) }
    {
        let mut names = Vec::new(alloc);
        for name in self.dues.keys() {
            if test(name) {
                names.push(*name)?;
            }
        }
        Ok(names)
    }

    /// Sets the alarm of a name, or moves it. The bound is exact then. A refused call leaves it as
    /// it was.
    pub(crate) fn set(&mut self, name: Name, due: u64) -> Result<(), AllocError>
        ensures ok { OnOk result ((dues : NameValue → Option ℕ) → Keep dues self.old →
            Keep (with_due dues name (some due)) self.new) }
        ensures renewed { OnOk result (self.new.is_exact ≡ true) }
        ensures err { OnErr result ((dues : NameValue → Option ℕ) → Keep dues self.old →
            Keep dues self.new) }
        ensures exact { OnErr result (self.new.is_exact ≡ self.old.is_exact) }
    {
        self.put(name, due)?;
        self.renew();
        Ok(())
    }

    /// Takes the alarm of a name away. The bound is exact then.
    pub(crate) fn end(&mut self, name: Name)
        ensures kept { (dues : NameValue → Option ℕ) → Keep dues self.old →
            Keep (with_due dues name none) self.new }
        ensures exact { self.new.is_exact ≡ true }
    {
        self.clear(name);
        self.renew();
    }

    /// Sets the alarm of a name, or moves it, with a bound that need not be exact.
    fn put(&mut self, name: Name, due: u64) -> Result<(), AllocError>
        ensures ok { OnOk result ((dues : NameValue → Option ℕ) → Keep dues self.old →
            Keep (with_due dues name (some due)) self.new) }
        ensures err { OnErr result ((dues : NameValue → Option ℕ) → Keep dues self.old →
            Keep dues self.new) }
        ensures exact { OnErr result (self.new.is_exact ≡ self.old.is_exact) }
    {
        let old = self.dues.insert(name, due)?;
        let soonest = earlier(self.soonest, due);
        self.is_exact = soonest == due || self.is_exact_without(old);
        self.soonest = Some(soonest);
        Ok(())
    }

    /// Moves the alarm of a name that has one, or takes it away, as one of many: `renew` comes
    /// after the last. It takes no memory.
    pub(crate) fn follow(&mut self, name: Name, due: Option<u64>)
        requires { IsSome (get name_cmp self.old.dues name) }
        ensures { (dues : NameValue → Option ℕ) → Keep dues self.old →
            Keep (with_due dues name due) self.new }
    {
        match due {
            Some(due) => {
                // Only an insertion of a new name can need memory.
                let _ = self.dues.insert(name, due);
                self.soonest = Some(earlier(self.soonest, due));
                self.is_exact = false;
            }
            None => self.clear(name),
        }
    }

    /// Takes the alarm of a name away, as one of many: `renew` comes after the last.
    pub(crate) fn clear(&mut self, name: Name)
        ensures { (dues : NameValue → Option ℕ) → Keep dues self.old →
            Keep (with_due dues name none) self.new }
    {
        let old = self.dues.remove(&name);
        self.is_exact = self.is_exact_without(old);
    }

    /// The same alarms, with a bound that is exact. They are looked through only if the alarm at
    /// the bound was moved or taken away.
    pub(crate) fn renew(&mut self)
        ensures kept { (dues : NameValue → Option ℕ) → Keep dues self.old → Keep dues self.new }
        ensures exact { self.new.is_exact ≡ true }
    {
        if !self.is_exact {
            self.soonest = self.least();
            self.is_exact = true;
        }
    }

    /// Whether the bound is exact, and not this moment, whose alarm was moved or taken away.
    fn is_exact_without(&self, old: Option<u64>) -> bool
        ensures exact { result ≡ true → self.now.is_exact ≡ true }
        ensures other { result ≡ true → old ≢ self.now.soonest }
    {
        self.is_exact && old != self.soonest
    }
}

/// The lesser of two moments, of which there may be one.
fn earlier(first: Option<u64>, due: u64) -> u64
    ensures { result ≡ earlier first due }
{
    match first {
        Some(first) => first.min(due),
        None => due,
    }
}

/// A name whose timer is due by this moment, unless it is stopped.
fn due_name(name: Name, due: u64, now: u64, stopped: &BTreeSet<Name>) -> Option<Name>
    ensures { result ≡ due_name (contains name_cmp stopped.now) now name due }
{
    (due <= now && !stopped.contains(&name)).then_some(name)
}
