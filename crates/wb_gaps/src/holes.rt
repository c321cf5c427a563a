//! The holes of what is held: the numbers that a page lacks below the greatest that it has of their
//! source.

ghost use Rattle.std.specs.Prelude.{◌≡◌, ◌+◌, ◌<◌, List, IsTrue, MatchOption, false};
ghost use Rattle.std.specs.BTreeSet.{IsOrdered};
ghost use Rattle.std.specs.Ordering.{is_gt};
ghost use Rattle.std.specs.declared.cmp.Ordering.TheVariants.{Less};
ghost use Rattle.wb_names.specs.Values.{DrawopValue};
ghost use Rattle.wb_gaps.specs.Holdings.{HoldNamesOf};
ghost use Rattle.wb_gaps.specs.Holes.{begins_after, hole_after};
ghost use Rattle.wb_gaps.specs.Starts.{AreRanges, IsHole, begins_at, is_among, last_at, start_cmp};

use crate::holdings::{Holdings, Start, before};
use std::collections::{BTreeMap, BTreeSet};
use std::ops::Bound;
use wb_names::{Gap, PageId};

/// A greatest range of numbers that a page lacks, below one that it has of their source.
#[derive(Clone, Copy, Debug, PartialEq, Eq)]
pub struct Hole {
    /// The page.
    pub page: PageId,
    /// The source, and the first and the last of the numbers.
    pub gap: Gap,
}

impl Holdings {
    /// The first hole that begins after this number of a source on a page, where holes ascend by
    /// page, source and number. None if there is none. It costs four look-ups, whatever is held.
    pub fn hole_after(&self, page: PageId, source: u32, number: u32) -> Option<Hole>
        ensures { (history : List DrawopValue) → HoldNamesOf history self.now →
            result ≡ hole_after history page source number }
    {
        let place = Start {
            page,
            source,
            first: number,
        };
        let start = next_behind(&self.behind, place)?;
        let hole = hole_below(&self.ranges, start);
        if begins_after(place, hole) {
            return Some(hole);
        }
        // the place lies in that hole, so the next one begins after it
        let later = next_behind(&self.behind, start)?;
        Some(hole_below(&self.ranges, later))
    }
}

/// The first of these starts after a place.
fn next_behind(behind: &BTreeSet<Start>, place: Start) -> Option<Start>
    ensures ordered { IsOrdered start_cmp behind.now }
    ensures next { MatchOption result
        ((s : Start) → start_cmp place s ≡ Less → is_among behind.now.keys s ≡ false)
        (λ next. IsTrue (is_among behind.now.keys next) × (start_cmp place next ≡ Less) ×
        ((s : Start) → IsTrue (is_among behind.now.keys s) → start_cmp place s ≡ Less →
        is_gt (start_cmp next s) ≡ false)) }
{
    let (from, to) = (Bound::Excluded(place), Bound::Unbounded);
    let start = behind.range((from, to)).next()?;
    Some(*start)
}

/// The hole that ends right below where a range begins.
fn hole_below(ranges: &BTreeMap<Start, u32>, start: Start) -> Hole
    requires ranges { AreRanges ranges.now.entries }
    requires behind { 1 < start.first }
    requires there { IsTrue (begins_at ranges.now.entries start) }
    ensures place { (result.page ≡ start.page) × (result.gap.source ≡ start.source) }
    ensures last { result.gap.last + 1 ≡ start.first }
    ensures hole { IsHole (last_at ranges.now.entries start.page start.source)
        result.gap.first result.gap.last }
{
    let last = start.first - 1;
    let below = Start {
        first: last,
        ..start
    };
    let first = match before(ranges, below) {
        Some((_, end)) => end + 1,
        None => 1,
    };
    let gap = Gap {
        source: start.source,
        first,
        last,
    };
    Hole {
        page: start.page,
        gap,
    }
}

/// Whether a hole begins after a place.
fn begins_after(place: Start, hole: Hole) -> bool
    ensures { result ≡ begins_after place hole }
{
    let begin = Start {
        page: hole.page,
        source: hole.gap.source,
        first: hole.gap.first,
    };
    place < begin
}
