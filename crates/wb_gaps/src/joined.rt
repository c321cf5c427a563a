//! Two ascending lists of marks, taken as one.

ghost use Rattle.std.specs.Prelude.{◌≡◌, ◌≤◌, [], ◌∷◌, MatchOption, IfOk};
ghost use Rattle.wb_names.specs.Ascending.{AreMarks};
ghost use Rattle.wb_gaps.specs.Joining.{joined};
ghost use Rattle.wb_gaps.specs.Merging.{source_count};

use std::alloc::{AllocError, Global};
use std::cmp::Ordering;
use wb_names::Mark;

/// What is left of two lists of marks, both ascending by source.
#[derive(Drop)]
pub(crate) struct Joined<'a> {
    pub(crate) first: &'a [Mark],
    pub(crate) second: &'a [Mark],
}

impl Joined<'_> {
    /// Takes the mark of the next source that either has; if both have it, the one with the greater
    /// number.
    pub(crate) fn next(&mut self) -> Option<Mark>
        ensures { let before = joined self.old.first.now self.old.second.now in
            let after = joined self.new.first.now self.new.second.now in
            MatchOption result (before ≡ []) (λ m. before ≡ m ∷ after) }
    {
        let Some((first, later_first)) = self.first.split_first() else {
            let (second, later_second) = self.second.split_first()?;
            self.second = later_second;
            return Some(*second);
        };
        let Some((second, later_second)) = self.second.split_first() else {
            self.first = later_first;
            return Some(*first);
        };
        match first.source().cmp(&second.source()) {
            Ordering::Less => {
                self.first = later_first;
                Some(*first)
            }
            Ordering::Greater => {
                self.second = later_second;
                Some(*second)
            }
            Ordering::Equal => {
                self.first = later_first;
                self.second = later_second;
                Some(if first.high() < second.high() {
                    *second
                } else {
                    *first
                })
            }
        }
    }
}

/// How many sources two lists of marks have together.
pub(crate) fn count_sources(first: &[Mark], second: &[Mark]) -> usize
    requires first { AreMarks first.now }
    requires second { AreMarks second.now }
    ensures { result ≡ source_count first.now second.now }
{
    let mut left = Joined { first, second };
    let mut count = 0;
    while let Some(_) = left.next() {
        count += 1;
    }
    count
}

/// The marks of two lists, ascending, each source once. The caller knows how many there are.
pub(crate) fn join(
    alloc: Global,
    first: &[Mark],
    second: &[Mark],
    count: usize,
) -> Result<Vec<Mark>, AllocError>
    ensures { IfOk result (λ marks. marks.items ≡ joined first.now second.now) }
{
    let mut left = Joined { first, second };
    let mut marks = Vec::with_capacity(alloc, count)?;
    while let Some(mark) = left.next() {
        marks.push(mark)?;
    }
    Ok(marks)
}
