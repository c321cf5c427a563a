//! How much may be asked for.

ghost use Rattle.std.specs.Prelude.{◌≡◌, ◌<◌, ◌^◌, IsTrue};
ghost use Rattle.wb_names.specs.Moments.{IsMoment};
ghost use Rattle.wb_policy.specs.Credit.{has_credit, is_covered, repaid, spent};
ghost use Rattle.wb_policy.specs.Wanting.{is_paid};

use crate::limits::{COST, PAYS, PLACES, PLACES_OF_LAST};

/// The credit of a member that asks for names. Each name that is asked for is paid for in a quarter
/// of a second, and 64 may be asked for at once. What came pays for two names: for itself, and for
/// one that is asked for again since its request was lost. So a member that is answered asks as
/// fast as it is answered, and one that is not, for four names a second.
#[derive(Clone, Copy, Debug, PartialEq, Eq)]
pub struct Credit {
    /// Names are paid for up to this moment.
    pub owed: u64,
}

impl Credit {
    /// What a name that was asked for pays when it comes, in microseconds.
    const CAME: u64 = PAYS * COST;

    /// The most that may be owed when another name is asked for, in microseconds.
    const MOST: u64 = (PLACES - 1) * COST;

    /// The most if that is a name that comes last.
    const LAST: u64 = (PLACES_OF_LAST - 1) * COST;

    /// The whole credit.
    pub const WHOLE: Credit = Credit { owed: 0 };

    /// Whether another name may be asked for at this moment. What comes last leaves sixteen places
    /// to all others.
    pub fn is_left(&self, takes_any: bool, now: u64) -> bool
        ensures { result ≡ is_paid takes_any self.now.owed now }
    {
        let most = if takes_any {
            Credit::MOST
        } else {
            Credit::LAST
        };
        self.owed.saturating_sub(now) <= most
    }

    /// Whether less is owed at this moment than `count` timers cost, by one of them at least. So
    /// one may give way to another, or start anew, and no more is owed than stands asked.
    pub fn is_covered(&self, count: usize, now: u64) -> bool
        ensures { result ≡ is_covered count self.now.owed now }
    {
        let most = (count as u64).saturating_sub(1).saturating_mul(COST);
        self.owed.saturating_sub(now) <= most
    }

    /// A name is asked for.
    pub fn spend(&mut self, now: u64)
        requires left { IsTrue (has_credit self.old.owed now) }
        requires moment { IsMoment now }
        ensures { self.new.owed ≡ spent self.old.owed now }
    {
        self.owed = self.owed.max(now) + COST;
    }

    /// A name that was asked for came.
    pub fn repay(&mut self)
        ensures { self.new.owed ≡ repaid self.old.owed }
    {
        self.owed = self.owed.saturating_sub(Credit::CAME);
    }
}
