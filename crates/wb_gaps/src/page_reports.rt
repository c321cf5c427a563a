//! What a member reports of all its pages.

ghost use Rattle.std.specs.Prelude.{◌≤◌, List, IfOk, length};
ghost use Rattle.wb_names.specs.Values.{DrawopValue};
ghost use Rattle.wb_names.specs.declared.entries.TheConstants.{MAX_ENTRIES};
ghost use Rattle.wb_gaps.specs.Holdings.{HoldNamesOf};
ghost use Rattle.wb_gaps.specs.PageReports.{AreReports};

use crate::holdings::Holdings;
use std::alloc::{AllocError, Global};
use wb_names::{Marks, PageId};

/// A page with its report.
#[derive(Debug, Drop)]
pub struct PageReport {
    /// The page.
    pub page: PageId,
    /// Of each source that has a drawop there, the greatest sequence number.
    pub marks: Marks,
}

impl Holdings {
    /// Each page that has drawops with its report, ascending by page. At most 65,535 ranges are
    /// held, so that no report has too many marks. It costs what is held of ranges, and a look-up
    /// for each page.
    pub fn reports(&self, alloc: Global) -> Result<Vec<PageReport>, AllocError>
        requires { length self.now ≤ MAX_ENTRIES }
        ensures { (history : List DrawopValue) → HoldNamesOf history self.now →
            IfOk result (λ reports. AreReports history reports.items) }
    {
        let pages = self.pages(alloc)?;
        let mut reports = Vec::new(alloc);
        for page in &pages {
            let marks = self.report(alloc, *page)?;
            reports.push(PageReport { page: *page, marks })?;
        }
        Ok(reports)
    }
}
