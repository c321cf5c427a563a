//! What is asked of holdings: which numbers a page lacks, its report, and which pages there are.

ghost use Rattle.std.specs.Prelude.{◌≡◌, ◌≤◌, List, IfOk, length};
ghost use Rattle.std.specs.BTreeMap.{IsOrdered};
ghost use Rattle.wb_names.specs.Marks.{IsReport};
ghost use Rattle.wb_names.specs.Values.{DrawopValue};
ghost use Rattle.wb_names.specs.declared.entries.TheConstants.{MAX_ENTRIES};
ghost use Rattle.wb_gaps.specs.Gaps.{AreGaps};
ghost use Rattle.wb_gaps.specs.Holdings.{HoldNamesOf};
ghost use Rattle.wb_gaps.specs.Pages.{ArePages};
ghost use Rattle.wb_gaps.specs.Runs.{runs_left};
ghost use Rattle.wb_gaps.specs.Starts.{AreRanges, runs_on, start_cmp};

use crate::highest::highs;
use crate::holdings::{Holdings, Start};
use crate::missing::Missing;
use crate::run::Runs;
use crate::telling::pages_past;
use std::alloc::{AllocError, Global};
use std::collections::BTreeMap;
use wb_names::{Gap, Marks, PageId};

impl Holdings {
    /// The gaps of a page, found one by one. It walks the ranges of the page and the marks
    /// together, so that stopping early saves the rest. To begin costs a look-up.
    pub fn missing<'a>(&'a self, page: PageId, marks: &'a Marks) -> Missing<'a>
        ensures { (history : List DrawopValue) → HoldNamesOf history self.now →
            AreGaps history page marks.now result }
    {
        Missing::new(runs_of(&self.ranges, page), marks.as_slice())
    }

    /// The sequence numbers of a page that are missing: those from 1 up to the greatest that is
    /// held or that the marks know of a source, without those that are held. They come as ranges,
    /// ascending by source and number, that do not overlap or touch. It costs what the page has of
    /// ranges and of marks.
    pub fn gaps(&self, alloc: Global, page: PageId, marks: &Marks) -> Result<Vec<Gap>, AllocError>
        ensures { (history : List DrawopValue) → HoldNamesOf history self.now →
            IfOk result (λ gaps. AreGaps history page marks.now gaps.items) }
    {
        self.missing(page, marks).collect(alloc)
    }

    /// The report of a page: for each source that has a drawop there, ascending, its greatest
    /// sequence number, as session messages tell it (Floyd and others, 1997). At most 65,535 ranges
    /// are held, so that there are not too many marks. It costs what the page has of ranges.
    pub fn report(&self, alloc: Global, page: PageId) -> Result<Marks, AllocError>
        requires { length self.now ≤ MAX_ENTRIES }
        ensures { (history : List DrawopValue) → HoldNamesOf history self.now →
            IfOk result (λ marks. IsReport history page marks) }
    {
        let marks = highs(alloc, runs_of(&self.ranges, page))?;
        Ok(Marks::from_ascending(marks))
    }

    /// How many ranges are held: if nothing is missing, one of each page and source.
    pub fn range_count(&self) -> usize
        ensures { result ≡ length self.now }
    {
        self.ranges.len()
    }

    /// The pages that have drawops, ascending, each once. It costs the pages: a look-up for each.
    pub fn pages(&self, alloc: Global) -> Result<Vec<PageId>, AllocError>
        ensures { (history : List DrawopValue) → HoldNamesOf history self.now →
            IfOk result (λ pages. ArePages history pages.items) }
    {
        let pages = pages_past(alloc, &self.ranges, None, self.ranges.len())?;
        Ok(pages)
    }
}

/// The runs of a page, ascending.
pub(crate) fn runs_of(ranges: &BTreeMap<Start, u32>, page: PageId) -> Runs<'_>
    requires { AreRanges ranges.now.entries }
    ensures ordered { IsOrdered start_cmp ranges.now }
    ensures runs { runs_left result ≡ runs_on page ranges.now.entries }
{
    let from = Start {
        page,
        source: 0,
        first: 0,
    };
    let to = Start {
        page,
        source: u32::MAX,
        first: u32::MAX,
    };
    Runs {
        ranges: ranges.range(from..=to),
    }
}
