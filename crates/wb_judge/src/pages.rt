//! In which order pages are listed, so that strangers push none out.

ghost use Rattle.std.specs.Prelude.{◌≡◌, IsPermutation, nat_eq};
ghost use Rattle.std.specs.List.{list_all, list_any};
ghost use Rattle.std.specs.List.Sorted.{IsSortedBy};
ghost use Rattle.std.specs.Ordering.{is_lt};
ghost use Rattle.wb_judge.specs.Pages.{is_listed_before, place_of, rank_of};
ghost use Rattle.wb_judge.specs.Strange.{has_name};

use crate::strange::Strange;
use std::cmp::Ordering;
use wb_names::{Name, PageId};

/// Whose drawops a page has.
#[derive(Clone, Copy, Debug, PartialEq, Eq)]
pub enum Rank {
    /// Some are ours.
    Ours,
    /// Some are of members, and none is ours.
    Members,
    /// All are of strangers.
    Strangers,
}

impl Rank {
    /// Pages of the least place are listed first.
    fn place(self) -> u8
        ensures { result ≡ place_of self }
    {
        match self {
            Rank::Ours => 0,
            Rank::Members => 1,
            Rank::Strangers => 2,
        }
    }
}

/// A page that is drawn on: whose drawops it has, when it was drawn on last, and how many of its
/// drawops are held. Of two drawops the one that came later has the greater number in `last`.
#[derive(Clone, Copy, Debug)]
pub struct Listed {
    pub page: PageId,
    pub rank: Rank,
    pub last: u32,
    pub count: u32,
}

/// Whose drawops a page has: these names are held of it.
pub(crate) fn rank_of(me: u32, strange: &Strange, names: &[Name]) -> Rank
    ensures { result ≡ rank_of me strange.now.given names.now }
{
    if has_ours(me, names) {
        return Rank::Ours;
    }
    if are_strange(strange, names) {
        return Rank::Strangers;
    }
    Rank::Members
}

/// Whether one of these is ours.
fn has_ours(me: u32, names: &[Name]) -> bool
    ensures { result ≡ list_any (λ n. nat_eq n.source me) names.now }
{
    names.iter().any(|name| name.source() == me)
}

/// Whether no known origin gave any of these.
fn are_strange(strange: &Strange, names: &[Name]) -> bool
    ensures { result ≡ list_all (λ n. has_name n strange.now.given) names.now }
{
    names.iter().all(|name| strange.has(name))
}

/// Puts pages in the order in which they are listed: first ours, then those of members, then those
/// of strangers alone, and of each kind first the one that was drawn on last.
pub fn put_in_order(pages: &mut [Listed])
    ensures same { IsPermutation pages.old pages.new }
    ensures order { IsSortedBy is_listed_before pages.new }
{
    pages.sort_unstable_by(|one, other| by_rank(one, other));
}

/// The order in which two pages are listed.
fn by_rank(one: &Listed, other: &Listed) -> Ordering
    ensures { is_lt result ≡ is_listed_before one.now other.now }
{
    let ranked = one.rank.place().cmp(&other.rank.place());
    ranked.then(other.last.cmp(&one.last))
}
