//! How many drawops of a page are missing.
ghost use Rattle.std.specs.Prelude.{◌≡◌, ◌≤◌, ◌+◌, ◌-◌, ◌^◌, length, min};
ghost use Rattle.std.specs.List.{count_by, list_any, sum_by};
ghost use Rattle.wb_judging.specs.Missing.{is_beyond, is_in, missing_of, range_len};

use wb_names::{Gap, Name, PageId};

/// How many numbers a range has.
fn range_len(gap: &Gap) -> u64
    ensures { result ≡ range_len gap.now }
{
    (u64::from(gap.last) + 1).saturating_sub(u64::from(gap.first))
}

/// How many numbers these ranges have, or the greatest of 64 bits.
fn ranges_len(gaps: &[Gap]) -> u64
    ensures { result ≡ min (sum_by range_len gaps.now) (2 ^ 64 - 1) }
{
    let mut total: u64 = 0;
    for gap in gaps {
        total = total.saturating_add(range_len(gap));
    }
    total
}

/// Whether a name is in a range, if it is of its page.
fn is_in(name: &Name, gap: &Gap) -> bool
    ensures { result ≡ is_in name.now gap.now }
{
    name.source() == gap.source && gap.first <= name.seq() && name.seq() <= gap.last
}

/// Whether a name is in one of these ranges, if it is of their page.
fn is_listed(gaps: &[Gap], name: &Name) -> bool
    ensures { result ≡ list_any (is_in name.now) gaps.now }
{
    gaps.iter().any(|gap| is_in(name, gap))
}

/// Whether a name is of the page and in none of its ranges.
fn is_beyond(page: PageId, gaps: &[Gap], name: &Name) -> bool
    ensures { result ≡ is_beyond page gaps.now name.now }
{
    name.page() == page && !is_listed(gaps, name)
}

/// How many of these names are of the page and in none of its ranges.
fn count_beyond(page: PageId, gaps: &[Gap], names: &[Name]) -> u64
    ensures { result ≡ count_by (is_beyond page gaps.now) names.now }
{
    let mut count: u64 = 0;
    for name in names {
        if is_beyond(page, gaps, name) {
            count += 1;
        }
    }
    count
}

/// How many numbers the missing ranges of a page have, and how many of these names lie beyond.
pub(crate) fn missing_of(page: PageId, gaps: &[Gap], asked: &[Name]) -> u64
    ensures { result ≡ missing_of page gaps.now asked.now }
{
    ranges_len(gaps).saturating_add(count_beyond(page, gaps, asked))
}
