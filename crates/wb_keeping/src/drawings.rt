//! The time of a drawing.

ghost use Rattle.std.specs.Prelude.{◌≡◌};
ghost use Rattle.wb_keeping.specs.Drawings.{drawing_time, is_near, later};

use crate::limits::AHEAD;
use wb_names::{Drawop, PageId};

/// The time of a drawing on a page of a list, if its user's clock shows `time`: it comes after all
/// that the page has, except for what is two days or more ahead. It costs a walk over the list.
pub fn time_of(list: &[Drawop], page: PageId, time: u64) -> u64
    ensures { result ≡ drawing_time list.now page time }
{
    let mut latest = time;
    for drawop in list {
        latest = later(latest, drawop, page, time);
    }
    latest
}

/// The time so far, or the one right after a drawop that is near.
fn later(latest: u64, drawop: &Drawop, page: PageId, time: u64) -> u64
    ensures { result ≡ later page time latest drawop.now }
{
    if is_near(drawop, page, time) {
        latest.max(drawop.time().saturating_add(1))
    } else {
        latest
    }
}

/// Whether a drawop is on the page, and its time less than two days after this one.
fn is_near(drawop: &Drawop, page: PageId, time: u64) -> bool
    ensures { result ≡ is_near page time drawop.now }
{
    drawop.name().page() == page && drawop.time().saturating_sub(time) < AHEAD
}
