//! What a member shows to whoever judges for it: when it is to ask, and for what. None of it
//! changes the member.
ghost use Rattle.std.specs.Prelude.{◌≡◌, ◌<◌, ◌≤◌, ◌^◌, length, IfOk, IfSome};
ghost use Rattle.wb_names.specs.History.{IsHeld};
ghost use Rattle.wb_gaps.specs.Greatest.{IsWholeFrom};
ghost use Rattle.wb_recovery.specs.Delays.{IsDelay};
ghost use Rattle.wb_board.specs.Counts.{MAX_CELLS};
ghost use Rattle.wb_member.specs.Holding.{IsOpenAt};
ghost use Rattle.wb_member.specs.Judged.{is_full, holds, asked_names, level, delay, echoes, highest, hole_after};
ghost use Rattle.wb_member.specs.Opened.{Opened};

use crate::member::Member;
use std::alloc::{AllocError, Global};
use wb_gaps::Hole;
use wb_names::{Drawop, Echoes, Name, PageId};

impl Member {
    /// The drawops that are held, the newest last.
    pub fn drawops(&self) -> &[Drawop]
        ensures drawops { (host : Opened) → IsOpenAt self.now host → result.now ≡ host.is.held }
        ensures few { length result.now ≤ MAX_CELLS }
    {
        self.desk.list()
    }

    /// Whether its board has no cell for another drawop.
    pub fn is_full(&self) -> bool
        ensures { (host : Opened) → IsOpenAt self.now host → result ≡ is_full host }
    {
        self.desk.rows_left() == 0
    }

    /// Whether a drawop of this name is held.
    pub fn holds(&self, name: &Name) -> bool
        ensures { (host : Opened) → IsOpenAt self.now host → result ≡ holds host name.now }
    {
        self.desk.find(name).is_some()
    }

    /// The delay to a source in microseconds: the last set or measured, or 100,000 before any.
    pub fn delay(&self, source: u32) -> u64
        ensures delay { (host : Opened) → IsOpenAt self.now host → result ≡ delay host source }
        ensures near { IsDelay result }
    {
        self.keeper.delay(source)
    }

    /// How many request timers stand.
    pub fn asks(&self) -> usize
        ensures { (host : Opened) → IsOpenAt self.now host → result ≡ length (asked_names host) }
    {
        self.keeper.asks()
    }

    /// The names for which a request timer stands, ascending.
    pub fn asked_names(&self, alloc: Global) -> Result<Vec<Name>, AllocError>
        ensures { IfOk result (λ names. (host : Opened) → IsOpenAt self.now host →
            names.items ≡ asked_names host) }
    {
        self.keeper.asked_names(alloc)
    }

    /// How often the request timer of a name was backed off since it was set, up to 16. None if
    /// none stands.
    pub fn level(&self, name: &Name) -> Option<u32>
        ensures { (host : Opened) → IsOpenAt self.now host → result ≡ level host name.now }
    {
        self.keeper.level(name)
    }

    /// An echo to each sender that is remembered, ascending: those of its next session message.
    pub fn echoes(&self, alloc: Global) -> Result<Echoes, AllocError>
        ensures { IfOk result (λ all. (host : Opened) → IsOpenAt self.now host →
            all ≡ echoes host) }
    {
        self.keeper.echoes(alloc, self.keeper.moment())
    }

    /// The greatest number of a source on a page that is held, or 0.
    pub fn highest(&mut self, page: PageId, source: u32) -> Result<u32, AllocError>
        ensures same { self.new ≡ self.old }
        ensures number { IfOk result (λ number. (host : Opened) → IsOpenAt self.old host →
            number ≡ highest page source host) }
    {
        let holdings = self.desk.holdings()?;
        Ok(holdings.highest(page, source))
    }

    /// The least number from which on all of a source are held on a page, up to the greatest that
    /// is. 0 if none is held. It costs one look-up.
    pub fn whole_from(&mut self, page: PageId, source: u32) -> Result<u32, AllocError>
        ensures same { self.new ≡ self.old }
        ensures number { IfOk result (λ number. (host : Opened) → IsOpenAt self.old host →
            IsWholeFrom (IsHeld host.is.held page source) (highest page source host) number) }
    {
        let holdings = self.desk.holdings()?;
        Ok(holdings.whole_from(page, source))
    }

    /// The first hole that begins after this number of a source on a page: holes are the missing
    /// ranges of all pages below what is held, ascending by page, source and number.
    pub fn hole_after(
        &mut self,
        page: PageId,
        source: u32,
        number: u32,
    ) -> Result<Option<Hole>, AllocError>
        ensures same { self.new ≡ self.old }
        ensures hole { IfOk result (λ found. (host : Opened) → IsOpenAt self.old host →
            found ≡ hole_after page source number host) }
    {
        let holdings = self.desk.holdings()?;
        Ok(holdings.hole_after(page, source, number))
    }
}
