//! Reports: when one is due, and which marks it has.

ghost use Rattle.std.specs.Prelude.{◌≡◌, ◌≤◌, ◌<◌, ◌^◌, ◌+◌, ◌*◌, List, filter, length, nat_le, nat_lt, take};
ghost use Rattle.wb_names.specs.Moments.{IsMoment};
ghost use Rattle.wb_names.specs.declared.name.PageId.{PageId};
ghost use Rattle.wb_policy.specs.declared.limits.TheConstants.{HEARD, LONGEST_MEAN, LONGEST_PAUSE, MEMBERS, MOST_BYTES, SHORTEST_MEAN, SHORTEST_PAUSE};
ghost use Rattle.wb_policy.specs.Reports.{first_of_pages, from_source, is_after, is_telling, is_untold, mean_time, members_in, next_report, page_after, report_bytes};

use crate::limits::{
    ECHO_BYTES, HEAD_BYTES, HEARD, LONGEST_MEAN, MARK_BYTES, SECOND, SHORTEST_MEAN,
};
use crate::turns::Turns;
use wb_names::{Echo, Echoes, MAX_ENTRIES, Marks, PageId};

/// When a member reports, in microseconds.
#[derive(Clone, Copy, Debug, PartialEq, Eq)]
pub struct Reports {
    /// How many bytes a second the reports of all members together may take.
    pub rate: u64,
    /// When the next one is due.
    pub due: u64,
}

/// What reports told so far. Every second report tells what is in turn: page by page, and of a page
/// 64 marks at a time. The others tell the page that changed last.
#[derive(Clone, Copy, Debug, PartialEq, Eq)]
pub struct Told {
    /// The page of the last report in turn.
    pub page: PageId,
    /// The last source of that report, if it had one.
    pub last: Option<u32>,
    /// The last source that the page had when its telling began.
    pub until: u32,
    /// Whether the last report told what was in turn.
    pub in_turn: bool,
}

impl Told {
    /// Before the first report.
    pub const START: Told = Told {
        page: PageId {
            creator: 0,
            number: 0,
        },
        last: None,
        until: 0,
        in_turn: false,
    };
}

impl Reports {
    /// The mean time between two reports at which those of `members` members, of `bytes` bytes
    /// each, take the rate, but at least 2,000,000 and at most 64,000,000.
    pub fn mean_time(&self, members: u64, bytes: u64) -> u64
        requires rate { 1 ≤ self.now.rate }
        requires members { members ≤ MEMBERS }
        requires bytes { bytes ≤ MOST_BYTES }
        ensures mean { result ≡ mean_time self.now.rate members bytes }
        ensures shortest { SHORTEST_MEAN ≤ result }
        ensures longest { result ≤ LONGEST_MEAN }
    {
        let all = members * bytes * SECOND / self.rate;
        all.max(SHORTEST_MEAN).min(LONGEST_MEAN)
    }

    /// It reported: the next report is due after half of the mean time, and `drawn` more, from 0 to
    /// the mean time. So reports are at least a second apart, and at most 96.
    pub fn reported(&mut self, now: u64, mean: u64, drawn: u64)
        requires moment { IsMoment now }
        requires shortest { SHORTEST_MEAN ≤ mean }
        requires longest { mean ≤ LONGEST_MEAN }
        requires drawn { drawn ≤ mean }
        ensures due { self.new ≡ record self.old { due = next_report now mean drawn } }
        ensures rare { now + SHORTEST_PAUSE ≤ self.new.due }
        ensures soon { self.new.due ≤ now + LONGEST_PAUSE }
    {
        self.due = now + mean / 2 + drawn;
    }

    /// Whether a report is due.
    pub fn is_due(&self, now: u64) -> bool
        ensures { result ≡ nat_le self.now.due now }
    {
        self.due <= now
    }
}

/// How many members there are: this one, and those from whom a session message was heard within 192
/// seconds, which is three of the longest mean times.
pub fn members(echoes: &[Echo]) -> u64
    requires { length echoes.now ≤ MAX_ENTRIES }
    ensures members { result ≡ members_in echoes.now }
    ensures few { result ≤ MEMBERS }
{
    1 + heard_count(echoes) as u64
}

/// How many of the echoes are to members that were heard within 192 seconds.
fn heard_count(echoes: &[Echo]) -> usize
    ensures count { result ≡ length (filter (λ e. nat_lt e.held HEARD) echoes.now) }
    ensures few { result ≤ length echoes.now }
{
    echoes.iter().filter(|echo| echo.held < HEARD).count()
}

/// How many bytes a session message with these marks and echoes has.
pub fn report_bytes(marks: &Marks, echoes: &Echoes) -> u64
    ensures bytes { result ≡ report_bytes marks.now echoes.now }
    ensures few { result ≤ MOST_BYTES }
{
    let (marks, echoes) = (marks.as_slice().len(), echoes.as_slice().len());
    HEAD_BYTES + MARK_BYTES * marks as u64 + ECHO_BYTES * echoes as u64
}

/// Whether the telling of a page goes on: it has not reached the source that was the last when it
/// began. What has come since waits for the next telling, so that it holds no page up.
pub fn is_telling(until: u32, told: Option<u32>) -> bool
    ensures { result ≡ is_telling until told }
{
    match told {
        Some(told) => told < until,
        None => false,
    }
}

/// Whether a source is above the last of earlier slices, if there is one.
pub fn is_untold(told: Option<u32>, source: u32) -> bool
    ensures { result ≡ is_untold told source }
{
    match told {
        Some(told) => told < source,
        None => true,
    }
}

/// After which source a slice begins that has this one first.
pub fn from_source(source: u32) -> Option<u32>
    ensures { result ≡ from_source source }
{
    source.checked_sub(1)
}

/// The next page in the cycle of the pages, or page 0/0 if there is none: the first of those after
/// the last one, `later`, or else of all, `pages`. Each is cut to one page.
#[tactic(auto, using(crate::proofs::NextPages::in_turn))]
pub fn page_after(later: &[PageId], pages: &[PageId]) -> PageId
    ensures { (last : PageId) (all : List PageId) → later.now ≡ take 1 (filter (is_after last) all) →
        pages.now ≡ take 1 all → result ≡ page_after last all }
{
    let page = first_of(later).or(first_of(pages));
    page.unwrap_or(Turns::START.page)
}

/// The first of some pages.
fn first_of(pages: &[PageId]) -> Option<PageId>
    ensures { result ≡ first_of_pages pages.now }
{
    match pages {
        [page, ..] => Some(*page),
        [] => None,
    }
}
