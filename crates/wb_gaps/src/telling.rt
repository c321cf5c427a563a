//! A part of what a member reports: the next marks of a page, its last source, and the next pages.

ghost use Rattle.std.specs.Prelude.{◌≡◌, ◌≤◌, List, IfOk, filter, length, take};
ghost use Rattle.std.specs.BTreeMap.{IsOrdered};
ghost use Rattle.wb_names.specs.Ascending.{is_above};
ghost use Rattle.wb_names.specs.Listing.{Lists};
ghost use Rattle.wb_names.specs.Orders.{page_cmp};
ghost use Rattle.wb_names.specs.Values.{DrawopValue, MarkValue};
ghost use Rattle.wb_names.specs.declared.entries.TheConstants.{MAX_ENTRIES};
ghost use Rattle.wb_names.specs.declared.name.PageId.{PageId};
ghost use Rattle.wb_gaps.specs.Holdings.{HoldNamesOf};
ghost use Rattle.wb_gaps.specs.LastNumbers.{AreGreatest};
ghost use Rattle.wb_gaps.specs.Starts.{AreRanges, HasPage, IsLastSource, IsNextPage, IsNextSource, is_past, past_page, past_source, runs_on, start_cmp};
ghost use Rattle.wb_gaps.specs.Telling.{last_source, marks_after, pages_after};

use crate::holdings::{Holdings, Start, highest_in};
use std::alloc::{AllocError, Global};
use std::collections::BTreeMap;
use std::ops::Bound;
use wb_names::{Mark, Marks, PageId};

impl Holdings {
    /// The next marks of the report of a page, at most `most`: those of sources above `last`, or
    /// the first ones. It costs two look-ups for each, and one,
    /// whatever the page has.
    pub fn marks_after(
        &self,
        alloc: Global,
        page: PageId,
        last: Option<u32>,
        most: usize,
    ) -> Result<Marks, AllocError>
        requires { most ≤ MAX_ENTRIES }
        ensures { (history : List DrawopValue) → HoldNamesOf history self.now →
            IfOk result (λ marks. marks ≡ marks_after history page last most) }
    {
        let marks = marks_above(alloc, &self.ranges, page, last, most)?;
        Ok(Marks::from_ascending(marks))
    }

    /// The last source of the report of a page, if it has one. It costs one look-up.
    pub fn last_source(&self, page: PageId) -> Option<u32>
        ensures { (history : List DrawopValue) → HoldNamesOf history self.now →
            result ≡ last_source history page }
    {
        source_at_end(&self.ranges, page)
    }

    /// The next pages that have drawops, at most `most`: those after `last`, or the first ones. It
    /// costs a look-up for each, however many there are.
    pub fn pages_after(
        &self,
        alloc: Global,
        last: Option<PageId>,
        most: usize,
    ) -> Result<Vec<PageId>, AllocError>
        ensures { (history : List DrawopValue) → HoldNamesOf history self.now →
            IfOk result (λ pages. pages.items ≡ pages_after history last most) }
    {
        let pages = pages_past(alloc, &self.ranges, last, most)?;
        Ok(pages)
    }
}

/// The next marks of the greatest numbers of a page: those of sources above `last`, at most `most`.
fn marks_above(
    alloc: Global,
    ranges: &BTreeMap<Start, u32>,
    page: PageId,
    last: Option<u32>,
    most: usize,
) -> Result<Vec<Mark>, AllocError>
    requires { AreRanges ranges.now.entries }
    ensures ordered { IsOrdered start_cmp ranges.now }
    ensures marks { (all : List MarkValue) → AreGreatest (runs_on page ranges.now.entries) all →
        IfOk result (λ marks. marks.items ≡ take most (filter (λ m. is_above last m.source) all)) }
{
    let mut marks = Vec::new(alloc);
    let mut last = last;
    while let Some(source) = next_source(ranges, page, last) {
        if marks.len() == most {
            return Ok(marks);
        }
        let high = highest_in(ranges, page, source);
        marks.push(Mark::new(source, high).unwrap())?;
        last = Some(source);
    }
    Ok(marks)
}

/// The first source of a page above the last one, or the first of all.
fn next_source(ranges: &BTreeMap<Start, u32>, page: PageId, last: Option<u32>) -> Option<u32>
    requires { AreRanges ranges.now.entries }
    ensures ordered { IsOrdered start_cmp ranges.now }
    ensures next { IsNextSource ranges.now.entries page last result }
{
    let from = past_source(page, last);
    let Some((start, _)) = ranges.range((from, Bound::Unbounded)).next() else {
        return None;
    };
    if start.page != page {
        return None;
    }
    Some(start.source)
}

/// Where the ranges of the later sources of a page begin.
fn past_source(page: PageId, last: Option<u32>) -> Bound<Start>
    ensures { result ≡ past_source page last }
{
    match last {
        Some(source) => Bound::Excluded(Start {
            page,
            source,
            first: u32::MAX,
        }),
        None => Bound::Included(Start {
            page,
            source: 0,
            first: 0,
        }),
    }
}

/// The greatest source of a page that has a range.
fn source_at_end(ranges: &BTreeMap<Start, u32>, page: PageId) -> Option<u32>
    requires { AreRanges ranges.now.entries }
    ensures ordered { IsOrdered start_cmp ranges.now }
    ensures last { IsLastSource ranges.now.entries page result }
{
    let end = Start {
        page,
        source: u32::MAX,
        first: u32::MAX,
    };
    let Some((start, _)) = ranges.range(..=end).next_back() else {
        return None;
    };
    if start.page != page {
        return None;
    }
    Some(start.source)
}

/// The next pages that have ranges: those after `last`, at most `most`.
pub(crate) fn pages_past(
    alloc: Global,
    ranges: &BTreeMap<Start, u32>,
    last: Option<PageId>,
    most: usize,
) -> Result<Vec<PageId>, AllocError>
    requires { AreRanges ranges.now.entries }
    ensures ordered { IsOrdered start_cmp ranges.now }
    ensures pages { (all : List PageId) → Lists page_cmp (HasPage ranges.now.entries) all →
        IfOk result (λ pages. pages.items ≡ take most (filter (is_past last) all)) }
{
    let mut pages = Vec::new(alloc);
    let mut last = last;
    while let Some(page) = next_page(ranges, last) {
        if pages.len() == most {
            return Ok(pages);
        }
        pages.push(page)?;
        last = Some(page);
    }
    Ok(pages)
}

/// The first page after the last one, or the first of all.
fn next_page(ranges: &BTreeMap<Start, u32>, last: Option<PageId>) -> Option<PageId>
    requires { AreRanges ranges.now.entries }
    ensures ordered { IsOrdered start_cmp ranges.now }
    ensures next { IsNextPage ranges.now.entries last result }
{
    let Some((start, _)) = ranges.range((past_page(last), Bound::Unbounded)).next() else {
        return None;
    };
    Some(start.page)
}

/// Where the ranges of later pages begin.
fn past_page(last: Option<PageId>) -> Bound<Start>
    ensures { result ≡ past_page last }
{
    match last {
        Some(page) => Bound::Excluded(Start {
            page,
            source: u32::MAX,
            first: u32::MAX,
        }),
        None => Bound::Unbounded,
    }
}
