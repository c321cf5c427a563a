//! What a member tells others of the pages that it holds.
ghost use Rattle.std.specs.Prelude.{◌≡◌, ◌≤◌, IfOk};
ghost use Rattle.wb_gaps.specs.Telling.{last_source, marks_after, pages_after};
ghost use Rattle.wb_names.specs.declared.entries.TheConstants.{MAX_ENTRIES};
ghost use Rattle.wb_member.specs.Holding.{IsOpenAt};
ghost use Rattle.wb_member.specs.Opened.{Opened};

use crate::member::Member;
use std::alloc::{AllocError, Global};
use wb_names::{Marks, PageId};

impl Member {
    /// The next marks of the report of a page, at most `most`: those of sources above `last`, or
    /// the first ones. It costs look-ups for these alone.
    pub fn marks_after(
        &mut self,
        alloc: Global,
        page: PageId,
        last: Option<u32>,
        most: usize,
    ) -> Result<Marks, AllocError>
        requires { most ≤ MAX_ENTRIES }
        ensures same { self.new ≡ self.old }
        ensures marks { IfOk result (λ marks. (host : Opened) → IsOpenAt self.old host →
            marks ≡ marks_after host.is.held page last most) }
    {
        let holdings = self.desk.holdings()?;
        let marks = holdings.marks_after(alloc, page, last, most)?;
        Ok(marks)
    }

    /// The last source of the report of a page, if it has one. It costs one look-up.
    pub fn last_source(&mut self, page: PageId) -> Result<Option<u32>, AllocError>
        ensures same { self.new ≡ self.old }
        ensures last { IfOk result (λ last. (host : Opened) → IsOpenAt self.old host →
            last ≡ last_source host.is.held page) }
    {
        let holdings = self.desk.holdings()?;
        Ok(holdings.last_source(page))
    }

    /// The next pages that have a drawop, at most `most`: those after `last`, or the first ones. It
    /// costs a look-up for each of these.
    pub fn pages_after(
        &mut self,
        alloc: Global,
        last: Option<PageId>,
        most: usize,
    ) -> Result<Vec<PageId>, AllocError>
        ensures same { self.new ≡ self.old }
        ensures pages { IfOk result (λ pages. (host : Opened) → IsOpenAt self.old host →
            pages.items ≡ pages_after host.is.held last most) }
    {
        let holdings = self.desk.holdings()?;
        let pages = holdings.pages_after(alloc, last, most)?;
        Ok(pages)
    }
}
