//! Which name is asked for when another came.

ghost use Rattle.std.specs.Prelude.{◌≡◌, ◌≤◌};
ghost use Rattle.wb_policy.specs.Leaps.{after_leap, far_in, far_name, next_leaps};

use crate::limits::STRIDE;
use wb_gaps::Hole;
use wb_names::{Gap, Name, PageId};

/// The hole of which a name is asked for when another came: one hole after the other, and one of
/// its numbers, far from those before. So what others hold between two outages is met soon.
#[derive(Clone, Copy, Debug, PartialEq, Eq)]
pub struct Leaps {
    /// The next hole begins after this number of this source on this page.
    pub page: PageId,
    pub source: u32,
    pub number: u32,
    /// How often it went round, modulo 2^32.
    pub round: u32,
}

impl Leaps {
    /// Before the first hole, in the first round.
    pub const START: Leaps = Leaps {
        page: PageId {
            creator: 0,
            number: 0,
        },
        source: 0,
        number: 0,
        round: 0,
    };

    /// Answers which name of a hole is asked for.
    pub fn take(&mut self, hole: Hole) -> Name
        requires counted { 1 ≤ hole.gap.first }
        requires filled { hole.gap.first ≤ hole.gap.last }
        ensures name { result ≡ far_name self.old hole }
        ensures turn { self.new ≡ after_leap self.old hole }
    {
        let number = far_in(self.round, hole.gap);
        self.page = hole.page;
        self.source = hole.gap.source;
        self.number = hole.gap.last;
        Name::new(hole.gap.source, hole.page, number).unwrap()
    }

    /// No hole is left in this round.
    pub fn begin_again(&mut self)
        ensures { self.new ≡ next_leaps self.old }
    {
        *self = Leaps {
            round: self.round.wrapping_add(1),
            ..Leaps::START
        };
    }
}

/// Which number of a hole is asked for in a round.
fn far_in(round: u32, gap: Gap) -> u32
    requires counted { 1 ≤ gap.first }
    requires filled { gap.first ≤ gap.last }
    ensures number { result ≡ far_in round gap }
    ensures first { gap.first ≤ result }
    ensures last { result ≤ gap.last }
{
    let count = (gap.last - gap.first) as u64 + 1;
    let place = STRIDE * round as u64 % count;
    gap.first + place as u32
}
