//! The rows that a pass owns, as ranges: so that a split or a join moves ranges, and no rows.
ghost use Rattle.std.specs.Prelude.{◌≡◌, ◌+◌, ◌-◌, ◌^◌, ◌<◌, ◌≤◌, [], ◌++◌, length, take, drop, IfOk, OnOk, OnErr, MatchOption};
ghost use Rattle.wb_history.specs.declared.ranges.RowRange.{RowRange};
ghost use mathlib.Core.Option.{some};
ghost use lib.ListN.{get_elem?};
ghost use Rattle.std.specs.List.{range_with_len};
ghost use Rattle.wb_history.specs.CellCounts.{IsCellCount};
ghost use Rattle.wb_history.specs.RowRanges.{rows_in};

use std::alloc::{AllocError, Global};
use std::marker::Model;

/// Rows of consecutive numbers, one at least.
#[derive(Clone, Copy)]
pub(crate) struct RowRange {
    pub(crate) first: u32,
    pub(crate) count: u32,
}

/// Rows in order. The last one is used next.
#[derive(Drop)]
pub(crate) struct Rows {
    ranges: Vec<RowRange>,
    count: u32,
}

impl Model for Rows {
    ghost use Rattle.wb_history.specs.RowRanges.{RowsValue, rows_value, AreCounted};

    ghost Value = { RowsValue };

    ghost view = { λ r. rows_value r };

    ghost invariant = { λ r. AreCounted r };
}

impl Rows {
    /// The first `count` rows, from 0 on.
    pub(crate) fn first(alloc: Global, count: u32) -> Result<Rows, AllocError>
        requires { IsCellCount count }
        ensures { IfOk result (λ r. r.items ≡ range_with_len 0 count) }
    {
        let mut ranges = Vec::new(alloc);
        ranges.push(RowRange { first: 0, count })?;
        Ok(Rows { ranges, count })
    }

    /// How many there are.
    pub(crate) fn len(&self) -> u32
        ensures { result ≡ length self.now.items }
    {
        self.count
    }

    /// The row that is used next.
    #[tactic(auto, using(crate::proofs::RowLists::last_is))]
    pub(crate) fn last(&self) -> Option<u32>
        ensures { MatchOption result (self.now.items ≡ [])
            (λ r. get_elem? self.now.items (length self.now.items - 1) ≡ some r) }
    {
        let parts = self.ranges.len();
        if parts == 0 {
            return None;
        }
        let range = self.ranges[parts - 1];
        Some(range.first + (range.count - 1))
    }

    /// Takes the last row out.
    #[tactic(auto, using(crate::proofs::RowLists::one_less, crate::proofs::RowLists::none_left))]
    pub(crate) fn take_last(&mut self)
        requires { 0 < length self.old.items }
        ensures { self.new.items ≡ take (length self.old.items - 1) self.old.items }
    {
        let last = self.ranges.len() - 1;
        let range = self.ranges[last];
        self.count -= 1;
        self.ranges.truncate(last);
        if range.count > 1 {
            self.ranges.push_reserved(RowRange {
                first: range.first,
                count: range.count - 1,
            });
        }
    }

    /// Takes the last `rows` rows out. A refused call changes nothing.
    pub(crate) fn split_off(&mut self, rows: u32) -> Result<Rows, AllocError>
        requires { rows ≤ length self.old.items }
        ensures items { OnOk result (self.new.items ≡
            take (length self.old.items - rows) self.old.items) }
        ensures tail { IfOk result
            (λ r. r.items ≡ drop (length self.old.items - rows) self.old.items) }
        ensures err { OnErr result (self.new ≡ self.old) }
    {
        let keep = self.count - rows;
        let (at, part) = place_of(self.ranges.as_slice(), keep);
        let mut ranges = self.ranges.split_off(at)?;
        self.count = keep;
        if part == 0 {
            return Ok(Rows {
                ranges,
                count: rows,
            });
        }
        let range = ranges[0];
        self.ranges.push_reserved(RowRange {
            first: range.first,
            count: part,
        });
        ranges[0] = RowRange {
            first: range.first + part,
            count: range.count - part,
        };
        Ok(Rows {
            ranges,
            count: rows,
        })
    }

    /// Makes room for the ranges of another.
    pub(crate) fn reserve(&mut self, other: &Rows) -> Result<(), AllocError>
        ensures items { self.new.items ≡ self.old.items }
        ensures room { OnOk result (other.now.parts ≤ self.new.room) }
    {
        self.ranges.reserve(other.ranges.len())
    }

    /// Puts the rows of another after these, for whose ranges there is room.
    pub(crate) fn append(&mut self, other: Rows)
        requires room { other.parts ≤ self.old.room }
        requires few { length self.old.items + length other.items < 2 ^ 32 }
        ensures { self.new.items ≡ self.old.items ++ other.items }
    {
        let Ok(()) = self.ranges.extend_from_slice(other.ranges.as_slice()) else {
            unreachable!()
        };
        self.count += other.count;
    }
}

/// The range that the first `rows` rows reach into, and how many of its rows they take; past the
/// last range if they are all rows.
#[tactic(auto, using(crate::proofs::RowLists::rows_more, crate::proofs::Lists::at_read))]
fn place_of(ranges: &[RowRange], rows: u32) -> (usize, u32)
    requires { rows ≤ length (rows_in ranges.now) }
    ensures before { length (rows_in (take result.0 ranges.now)) + result.1 ≡ rows }
    ensures inside { (result.0 ≤ length ranges.now) × (0 < result.1 →
        (r : RowRange) × (get_elem? ranges.now result.0 ≡ some r) × (result.1 < r.count)) }
{
    let mut left = rows;
    for (i, range) in ranges.iter().enumerate() {
        if left < range.count {
            return (i, left);
        }
        left -= range.count;
    }
    (ranges.len(), 0)
}
