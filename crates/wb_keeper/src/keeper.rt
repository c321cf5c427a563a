//! A keeper: what one member asks for, answers and reports.
//!
//! It follows Floyd, Jacobson, Liu, McCanne and Zhang, "A Reliable Multicast Framework for
//! Light-weight Sessions and Application Level Framing", 1997: `session` and `hear` its part on
//! session messages, which tell the state of a page and the delays of members; `notice`,
//! `arrived` and `tick` its part on loss recovery, by requests and repairs; `missing` its rule that
//! a gap in the numbers of a source, or a number that is reported and not held, is a loss.

ghost use Rattle.std.specs.Prelude.{◌≡◌, ◌<◌, ◌≤◌, ◌^◌, [], ℕ, List, false, IsTrue, IsOk, IfOk, OnOk, OnErr, MatchOption, MatchResult, length};
ghost use Rattle.wb_names.specs.Moments.{IsMoment};
ghost use Rattle.wb_recovery.specs.Delays.{IsDelay};
ghost use Rattle.wb_recovery.specs.Timing.{are_constants};
ghost use Rattle.wb_recovery.specs.Values.{timers_in, names_in};
ghost use Rattle.wb_recovery.specs.Events.{asking, due_asks, IsNextDue, names_of, timers_of};
ghost use Rattle.wb_recovery.specs.declared.tuning.Tuning.{Tuning as Constants};
ghost use Rattle.wb_keeper.specs.Dues.{next_due_of};
ghost use Rattle.wb_keeper.specs.Keeper.{KeeperCall, SetDelay, SetConstants, events_of};
ghost use Rattle.wb_keeper.specs.Keeping.{StandsFor, Keeps, delay_at, marks_at};
ghost use Rattle.wb_keeper.specs.KeepFaults.{moment_fault, delay_fault, IsKeptBy};

mod arrivals;
mod asked;
mod giving_up;
mod hearing;
mod knowing;
mod missing;
mod notices;
mod sessions;
mod taking_in;
mod ticks;

use crate::keep_fault::KeepFault;
use std::alloc::Global;
use std::collections::BTreeMap;
use std::marker::Model;
use wb_names::{MOMENT_LIMIT, Marks, PageId};
use wb_recovery::{DELAY_LIMIT, Recovery, Tuning, TuningFault, UNKNOWN_DELAY};

/// Of a session message: the moment of its sender's clock that it named, and the moment at which it
/// was heard, both in microseconds.
#[derive(Clone, Copy, Debug, PartialEq, Eq)]
pub(crate) struct Heard {
    pub(crate) sent: u64,
    pub(crate) at: u64,
}

/// What one member keeps of its session: when it asks for what is missing and answers others, the
/// marks that it heard of each page, the session messages that it heard, and the delays to others.
///
/// What it holds is a function of the calls that it accepted: the contracts say of each call that a
/// keeper which stands for a list of calls stands, once it has accepted this one, for the list with
/// this one too.
#[derive(Debug, Drop)]
pub struct Keeper {
    me: u32,
    /// The moment of the last accepted call that has one, in microseconds.
    moment: u64,
    recovery: Recovery,
    /// The delays that were set or heard, by source, in microseconds.
    delays: BTreeMap<u32, u64>,
    /// The last session message of each of the first 65,535 members that sent one.
    heard: BTreeMap<u32, Heard>,
    /// The marks that others told, by page.
    marks: BTreeMap<PageId, Marks>,
    /// The marks of a page of which others told none.
    none: Marks,
}

impl Model for Keeper {
    ghost use Rattle.wb_keeper.specs.Keeping.{KeeperValue, IsWithinLimits};

    ghost Value = { KeeperValue };

    ghost view = { λ k. record {
      me = k.me;
      moment = k.moment;
      recovery = k.recovery;
      delays = k.delays.entries;
      heard = k.heard.entries;
      marks = k.marks.entries;
    } };

    ghost invariant = { λ k. IsWithinLimits k.moment k.recovery k.delays k.heard k.none };
}

impl Keeper {
    /// The keeper of the member `me`, which has heard nothing. A constant that is not 1 to 16 is
    /// refused with `Constant`.
    pub fn new(alloc: Global, me: u32, tuning: Tuning) -> Result<Keeper, TuningFault>
        ensures constants { MatchResult result (λ r. IsTrue (are_constants tuning))
            (λ e. are_constants tuning ≡ false) }
        ensures empty { IfOk result (StandsFor me tuning []) }
    {
        let recovery = Recovery::new(alloc, tuning)?;
        match Marks::new(Vec::new(alloc)) {
            Ok(none) => Ok(Keeper {
                me,
                moment: 0,
                recovery,
                delays: BTreeMap::new(alloc),
                heard: BTreeMap::new(alloc),
                marks: BTreeMap::new(alloc),
                none,
            }),
            Err(_) => unreachable!(),
        }
    }

    /// Sets the delay to a source, in microseconds below 2^24, until another is set or heard. The
    /// unknown delay takes no room, since each source has it that has no other.
    ///
    /// Refused with `Range` or `Memory`, in this order.
    pub fn set_delay(&mut self, source: u32, micros: u64) -> Result<(), KeepFault>
        ensures fault { IsKeptBy (delay_fault micros) result }
        ensures ok { OnOk result (Keeps (SetDelay source micros) self.old self.new) }
        ensures err { OnErr result (self.new ≡ self.old) }
    {
        if micros >= DELAY_LIMIT {
            return Err(KeepFault::Range);
        }
        if micros == UNKNOWN_DELAY {
            self.delays.remove(&source);
            return Ok(());
        }
        if self.delays.insert(source, micros).is_err() {
            return Err(KeepFault::Memory);
        }
        Ok(())
    }

    /// Gives the timers other constants, each 1 to 16: what is set or backed off from now on is by
    /// them. A timer that stands keeps its moment.
    ///
    /// Refused with `Constant`.
    pub fn set_constants(&mut self, constants: Tuning) -> Result<(), TuningFault>
        ensures constants { MatchResult result (λ done. IsTrue (are_constants constants))
            (λ e. are_constants constants ≡ false) }
        ensures ok { OnOk result (Keeps (SetConstants constants) self.old self.new) }
        ensures err { OnErr result (self.new ≡ self.old) }
    {
        self.recovery.tune(constants)
    }

    /// The moment of the last accepted call that has one, in microseconds, and 0 before there is
    /// one.
    pub fn moment(&self) -> u64
        ensures moment { result ≡ self.now.moment }
        ensures range { IsMoment result }
    {
        self.moment
    }

    /// The number of its member.
    pub fn me(&self) -> u32
        ensures { result ≡ self.now.me }
    {
        self.me
    }

    /// The delay to a source, in microseconds: the unknown delay if none was set or heard.
    pub fn delay(&self, source: u32) -> u64
        ensures delay { result ≡ delay_at self.now.delays source }
        ensures near { IsDelay result }
    {
        let delay = self.delays.get(&source).copied();
        delay.unwrap_or(UNKNOWN_DELAY)
    }

    /// The greatest numbers that others told of a page. Empty if none did.
    pub fn marks(&self, page: PageId) -> &Marks
        ensures { result.now ≡ marks_at self.now.marks page }
    {
        match self.marks.get(&page) {
            Some(marks) => marks,
            None => &self.none,
        }
    }

    /// How many request timers are due at a moment, in microseconds, and so how many words `tick`
    /// then wants. Which of them a tick stops, since what they ask for is held, the accepted calls
    /// tell too.
    pub fn due_count(&self, now: u64) -> usize
        ensures count { result ≡
            length (due_asks (names_in self.now.recovery) (timers_in self.now.recovery) now) }
        ensures calls { (me : ℕ) (constants : Constants) (calls : List KeeperCall) →
            StandsFor me constants calls self.now → result ≡ length (due_asks
            (names_of (events_of me calls)) (timers_of constants (events_of me calls)) now) }
    {
        self.recovery.due_count(now)
    }

    /// How many request timers stand.
    pub fn asks(&self) -> usize
        ensures count { result ≡
            length (asking (names_in self.now.recovery) (timers_in self.now.recovery)) }
        ensures calls { (me : ℕ) (constants : Constants) (calls : List KeeperCall) →
            StandsFor me constants calls self.now → result ≡ length
            (asking (names_of (events_of me calls)) (timers_of constants (events_of me calls))) }
    {
        self.recovery.asks()
    }

    /// The least moment at which a timer is due, in microseconds, and so when the next `tick` has
    /// something to do. None if no timer stands.
    pub fn next_due(&self) -> Option<u64>
        ensures due { IsNextDue (timers_in self.now.recovery) result }
        ensures calls { (me : ℕ) (constants : Constants) (calls : List KeeperCall) →
            StandsFor me constants calls self.now →
            result ≡ next_due_of constants (events_of me calls) }
    {
        self.recovery.next_due()
    }

    /// Refuses a moment below the last one, and then one out of its range.
    fn check(&self, now: u64) -> Result<(), KeepFault>
        ensures fault { MatchOption (moment_fault self.now.moment now) (IsOk result)
            (λ fault. result ≡ Err fault) }
        ensures after { OnOk result (self.now.moment ≤ now) }
        ensures moment { OnOk result (IsMoment now) }
    {
        if now < self.moment {
            return Err(KeepFault::BackInTime);
        }
        if now >= MOMENT_LIMIT {
            return Err(KeepFault::Range);
        }
        Ok(())
    }
}
