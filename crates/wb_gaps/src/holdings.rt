//! What is held, kept as drawops come: the ranges of numbers of each page and source.

ghost use Rattle.std.specs.Prelude.{◌≡◌, ◌+◌, ◌<◌, ◌≤◌, [], ◌∷◌, ◌++◌, List, OnOk, OnErr, IfOk, IsOk, IsTrue, Some as some, None as none, MatchOption, ℕ, false, true, ◌&&◌, if◌then◌else◌, length, nat_lt};
ghost use Rattle.std.specs.BTreeMap.{IsOrdered, is_at};
ghost use Rattle.wb_names.specs.Values.{DrawopValue};
ghost use Rattle.wb_names.specs.History.{IsHeld, highest, name_of};
ghost use Rattle.wb_gaps.specs.Holdings.{HoldNamesOf, HoldsToo, IsHighest, holds};
ghost use Rattle.wb_gaps.specs.Greatest.{IsWholeFrom};
ghost use Rattle.wb_gaps.specs.Starts.{AreKept, AreRanges, Begins, BeginAsBefore, Covers, begins_at, is_among, last_at, ranges_of, start_cmp};

use std::alloc::{AllocError, Global};
use std::collections::{BTreeMap, BTreeSet};
use std::marker::Model;
use wb_names::{Drawop, PageId};

/// Where a range of numbers begins. Ranges are ordered by page, then by source, then by first
/// number.
#[derive(Clone, Copy, Debug, PartialEq, Eq, PartialOrd, Ord)]
pub(crate) struct Start {
    pub(crate) page: PageId,
    pub(crate) source: u32,
    pub(crate) first: u32,
}

/// What is held of a list of drawops that come one by one: of each page and source the ranges of
/// numbers, each as long as it can be. If nothing is missing, that is one range of each page and
/// source.
#[derive(Drop)]
pub struct Holdings {
    pub(crate) ranges: BTreeMap<Start, u32>,
    /// Where those of them begin that do not begin at 1: right below each a hole ends. If nothing is
    /// missing, it is empty.
    pub(crate) behind: BTreeSet<Start>,
}

impl Model for Holdings {
    ghost use Rattle.std.specs.Prelude.{List};
    ghost use Rattle.wb_gaps.specs.Holdings.{HeldRange};

    ghost Value = { List HeldRange };

    ghost use Rattle.wb_gaps.specs.Starts.{ranges_of, AreKept};

    ghost view = { λ h. ranges_of h.ranges.entries };

    ghost invariant = { λ h. AreKept h.ranges.entries h.behind.keys };
}

impl Holdings {
    /// Nothing is held.
    pub fn new(alloc: Global) -> Holdings
        ensures none { result ≡ [] }
        ensures names { HoldNamesOf [] result }
    {
        Holdings {
            ranges: BTreeMap::new(alloc),
            behind: BTreeSet::new(alloc),
        }
    }

    /// Takes in a drawop, which makes at most one range more. One whose name was put before changes
    /// nothing and takes no memory. If an allocation fails, nothing has changed.
    pub fn put(&mut self, drawop: &Drawop) -> Result<(), AllocError>
        ensures ok { OnOk result ((history : List DrawopValue) → HoldNamesOf history self.old →
            HoldNamesOf (history ++ drawop.now ∷ []) self.new) }
        ensures again { IsTrue (holds self.old drawop.now.name) →
            IsOk result × (self.new ≡ self.old) }
        ensures few { length self.new ≤ length self.old + 1 }
        ensures err { OnErr result (self.new ≡ self.old) }
    {
        let name = drawop.name();
        let at = Start {
            page: name.page(),
            source: name.source(),
            first: name.seq(),
        };
        add(&mut self.ranges, &mut self.behind, at)
    }

    /// The greatest number of a source that is held on a page, or 0.
    pub fn highest(&self, page: PageId, source: u32) -> u32
        ensures { (history : List DrawopValue) → HoldNamesOf history self.now →
            result ≡ highest page source history }
    {
        highest_in(&self.ranges, page, source)
    }

    /// The least number from which on all of a source are held on a page, up to the greatest that
    /// is. 0 if none is held. It costs one look-up.
    pub fn whole_from(&self, page: PageId, source: u32) -> u32
        ensures { (history : List DrawopValue) → HoldNamesOf history self.now →
            IsWholeFrom (IsHeld history page source) (highest page source history) result }
    {
        last_start(&self.ranges, page, source)
    }
}

/// The range of this page and source that begins last of those that begin at this number or below.
pub(crate) fn before(ranges: &BTreeMap<Start, u32>, at: Start) -> Option<(Start, u32)>
    ensures ordered { IsOrdered start_cmp ranges.now }
    ensures found { MatchOption result ((first last : ℕ) →
        last_at ranges.now.entries at.page at.source first ≡ some last → at.first < first)
        (λ p. (p.0.page ≡ at.page) × (p.0.source ≡ at.source) × (p.0.first ≤ at.first) ×
        (last_at ranges.now.entries at.page at.source p.0.first ≡ some p.1) ×
        ((first last : ℕ) → last_at ranges.now.entries at.page at.source first ≡ some last →
        first ≤ at.first → first ≤ p.0.first)) }
{
    let Some((start, last)) = ranges.range(..=at).next_back() else {
        return None;
    };
    if start.page != at.page || start.source != at.source {
        return None;
    }
    Some((*start, *last))
}

/// Where the range begins that has this number from now on, or None if one has it.
fn begin(ranges: &BTreeMap<Start, u32>, at: Start) -> Option<Start>
    requires ranges { AreRanges ranges.now.entries }
    requires positive { 1 ≤ at.first }
    ensures { MatchOption result (Covers (last_at ranges.now.entries at.page at.source) at.first)
        (λ s. (s.page ≡ at.page) × (s.source ≡ at.source) ×
        Begins (last_at ranges.now.entries at.page at.source) at.first s.first) }
{
    let Some((start, last)) = before(ranges, at) else {
        return Some(at);
    };
    if at.first <= last {
        return None;
    }
    if last + 1 < at.first {
        return Some(at);
    }
    Some(start)
}

/// The greatest number of a source on a page: the end of its last range.
pub(crate) fn highest_in(ranges: &BTreeMap<Start, u32>, page: PageId, source: u32) -> u32
    requires { AreRanges ranges.now.entries }
    ensures { IsHighest (ranges_of ranges.now.entries) page source result }
{
    let end = Start {
        page,
        source,
        first: u32::MAX,
    };
    match before(ranges, end) {
        Some((_, last)) => last,
        None => 0,
    }
}

/// Where the last range of a source on a page begins, or 0 if there is none.
fn last_start(ranges: &BTreeMap<Start, u32>, page: PageId, source: u32) -> u32
    requires { AreRanges ranges.now.entries }
    ensures { (high : ℕ) → IsHighest (ranges_of ranges.now.entries) page source high →
        IsWholeFrom (λ n. IsTrue (holds (ranges_of ranges.now.entries) (name_of page source n)))
        high result }
{
    let end = Start {
        page,
        source,
        first: u32::MAX,
    };
    match before(ranges, end) {
        Some((start, _)) => start.first,
        None => 0,
    }
}

/// The range that begins right after this number.
fn after(ranges: &BTreeMap<Start, u32>, at: Start) -> Option<(Start, u32)>
    requires ranges { AreRanges ranges.now.entries }
    ensures { MatchOption result
        (last_at ranges.now.entries at.page at.source (at.first + 1) ≡ none)
        (λ p. (p.0.page ≡ at.page) × (p.0.source ≡ at.source) × (p.0.first ≡ at.first + 1)
        × (last_at ranges.now.entries at.page at.source (at.first + 1) ≡ some p.1)) }
{
    let Some(first) = at.first.checked_add(1) else {
        return None;
    };
    let start = Start { first, ..at };
    let Some(last) = ranges.get(&start) else {
        return None;
    };
    Some((start, *last))
}

/// Adds a number, and notes where its range begins now.
fn add(
    ranges: &mut BTreeMap<Start, u32>,
    behind: &mut BTreeSet<Start>,
    at: Start,
) -> Result<(), AllocError>
    requires kept { AreKept ranges.old.entries behind.old.keys }
    requires positive { 1 ≤ at.first }
    ensures kept { AreKept ranges.new.entries behind.new.keys }
    ensures ok { OnOk result (HoldsToo (ranges_of ranges.old.entries)
        (name_of at.page at.source at.first) (ranges_of ranges.new.entries)) }
    ensures again { IsTrue
        (holds (ranges_of ranges.old.entries) (name_of at.page at.source at.first)) →
        IsOk result × (ranges.new.entries ≡ ranges.old.entries) }
    ensures few { length ranges.new.entries ≤ length ranges.old.entries + 1 }
    ensures err { OnErr result (ranges.new.entries ≡ ranges.old.entries) }
{
    let Some(start) = begin(ranges, at) else {
        return Ok(());
    };
    note(behind, start)?;
    match join(ranges, start, at) {
        Ok(Some(next)) => {
            behind.remove(&next);
            Ok(())
        }
        Ok(None) => Ok(()),
        Err(error) => {
            behind.remove(&start);
            Err(error)
        }
    }
}

/// Notes where a range begins, unless it begins at 1.
fn note(behind: &mut BTreeSet<Start>, start: Start) -> Result<(), AllocError>
    ensures ok { OnOk result ((s : Start) → is_among behind.new.keys s ≡
        (if nat_lt 1 start.first && is_at (start_cmp start) s then true
        else is_among behind.old.keys s)) }
    ensures err { OnErr result (behind.new.keys ≡ behind.old.keys) }
{
    if start.first <= 1 {
        return Ok(());
    }
    behind.insert(start)?;
    Ok(())
}

/// Adds a number to the range that begins at `start`, or begins one there. The range right above the
/// number, if there is one, is taken in, and the answer is where that one began. An allocation can
/// fail only for a new range.
fn join(
    ranges: &mut BTreeMap<Start, u32>,
    start: Start,
    at: Start,
) -> Result<Option<Start>, AllocError>
    requires ranges { AreRanges ranges.old.entries }
    requires begins { (start.page ≡ at.page) × (start.source ≡ at.source) ×
        Begins (last_at ranges.old.entries at.page at.source) at.first start.first }
    ensures ordered { IsOrdered start_cmp ranges.new }
    ensures ranges { AreRanges ranges.new.entries }
    ensures ok { OnOk result (HoldsToo (ranges_of ranges.old.entries)
        (name_of at.page at.source at.first) (ranges_of ranges.new.entries)) }
    ensures begin { IfOk result (λ next.
        BeginAsBefore ranges.old.entries ranges.new.entries start next) }
    ensures few { length ranges.new.entries ≤ length ranges.old.entries + 1 }
    ensures err { OnErr result (ranges.new.entries ≡ ranges.old.entries) }
    ensures new { OnErr result (begins_at ranges.old.entries start ≡ false) }
{
    match after(ranges, at) {
        Some((next, last)) => {
            ranges.insert(start, last)?;
            ranges.remove(&next);
            Ok(Some(next))
        }
        None => {
            ranges.insert(start, at.first)?;
            Ok(None)
        }
    }
}
