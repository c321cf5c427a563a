//! What a desk holds of its list, by page, source and number.
ghost use Rattle.std.specs.Prelude.{◌≡◌, ◌≤◌, [], OnOk, length, if◌then◌else◌};
ghost use Rattle.wb_names.specs.History.{highest, is_of};
ghost use Rattle.wb_gaps.specs.Holdings.{HoldNamesOf};
ghost use Rattle.wb_board.specs.Counts.{MAX_CELLS};
ghost use Rattle.wb_board.specs.Held.{HoldsFirst};

use std::alloc::{AllocError, Global};
use wb_gaps::Holdings;
use wb_history::Pass;
use wb_names::{Drawop, PageId};

/// What is held of a beginning of the list, and how many drawops that is.
#[derive(Drop)]
pub(crate) struct Held {
    pub(crate) holdings: Holdings,
    taken: usize,
}

impl Held {
    /// Nothing of a list is held.
    pub(crate) fn new(alloc: Global) -> Held
        ensures { (result.holdings ≡ []) × (result.taken ≡ 0) }
    {
        Held {
            holdings: Holdings::new(alloc),
            taken: 0,
        }
    }

    /// Takes in what the pass has seen since. If an allocation fails, it holds what it has taken
    /// in.
    pub(crate) fn catch_up(&mut self, pass: &Pass) -> Result<(), AllocError>
        requires { HoldsFirst pass.now.seen self.old }
        ensures holds { HoldsFirst pass.now.seen self.new }
        ensures all { OnOk result (HoldNamesOf pass.now.seen self.new.holdings) }
        ensures few { length self.new.holdings ≤ MAX_CELLS }
    {
        let list = pass.list();
        for place in self.taken..list.len() {
            self.holdings.put(&list[place])?;
            self.taken = place + 1;
        }
        Ok(())
    }

    /// The greatest number of a source on a page in the list, or 0: by look-ups in what was taken
    /// in, and by a walk through what came since. So it needs no memory.
    pub(crate) fn highest(&self, list: &[Drawop], page: PageId, source: u32) -> u32
        requires { HoldsFirst list.now self.now }
        ensures { result ≡ highest page source list.now }
    {
        let taken = self.holdings.highest(page, source);
        taken.max(highest(&list[self.taken..], page, source))
    }
}

/// The greatest number of a source on a page, or 0 if it has no drawop there.
fn highest(list: &[Drawop], page: PageId, source: u32) -> u32
    ensures { result ≡ highest page source list.now }
{
    let mut highest = 0;
    for drawop in list {
        highest = number_on(drawop, page, source).max(highest);
    }
    highest
}

/// The number of a drawop, if it is of the source and on the page, and else 0.
fn number_on(drawop: &Drawop, page: PageId, source: u32) -> u32
    ensures { result ≡ (if is_of page source drawop.now then drawop.now.name.seq else 0) }
{
    let name = drawop.name();
    if name.page() == page && name.source() == source {
        name.seq()
    } else {
        0
    }
}
