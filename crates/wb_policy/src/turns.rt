//! Whose turn it is among the holes.

ghost use Rattle.std.specs.Prelude.{◌≡◌, ◌≤◌};
ghost use Rattle.wb_policy.specs.Turns.{after_hole, is_through, name_in, next_round, number_in, window_in};

use crate::limits::WINDOW;
use wb_gaps::Hole;
use wb_names::{Gap, Name, PageId};

/// Which hole has its turn. They come one after the other, and after the last one another round
/// begins. Each keeps its turn for a window of at most 64 of its numbers.
#[derive(Clone, Copy, Debug, PartialEq, Eq)]
pub struct Turns {
    /// The next hole begins after this number of this source on this page.
    pub page: PageId,
    pub source: u32,
    pub number: u32,
    /// How often the turn went round, modulo 2^32.
    pub round: u32,
    /// How many of the numbers of its window had their turn in this round.
    pub step: u32,
}

impl Turns {
    /// Before the first hole, in the first round.
    pub const START: Turns = Turns {
        page: PageId {
            creator: 0,
            number: 0,
        },
        source: 0,
        number: 0,
        round: 0,
        step: 0,
    };

    /// It is the turn of a hole: answers which of its names is asked for.
    pub fn take(&mut self, hole: Hole) -> Name
        requires counted { 1 ≤ hole.gap.first }
        requires filled { hole.gap.first ≤ hole.gap.last }
        ensures name { result ≡ name_in self.old hole }
        ensures turn { self.new ≡ after_hole self.old hole }
    {
        let number = self.number_in(hole.gap);
        if self.is_through(hole.gap) {
            self.page = hole.page;
            self.source = hole.gap.source;
            self.number = hole.gap.last;
            self.step = 0;
        } else {
            self.step += 1;
        }
        Name::new(hole.gap.source, hole.page, number).unwrap()
    }

    /// No hole is left in this round.
    pub fn begin_again(&mut self)
        ensures { self.new ≡ next_round self.old }
    {
        *self = Turns {
            round: self.round.wrapping_add(1),
            ..Turns::START
        };
    }

    /// Which number of a hole has its turn.
    fn number_in(&self, gap: Gap) -> u32
        requires filled { gap.first ≤ gap.last }
        ensures number { result ≡ number_in self.now gap }
        ensures first { gap.first ≤ result }
        ensures last { result ≤ gap.last }
    {
        let number = window_in(self.round, gap) + self.step as u64;
        number.min(gap.last as u64) as u32
    }

    /// Whether it is the last turn of a hole in this round.
    fn is_through(&self, gap: Gap) -> bool
        requires filled { gap.first ≤ gap.last }
        ensures { result ≡ is_through self.now gap }
    {
        let number = window_in(self.round, gap) + self.step as u64;
        WINDOW <= self.step as u64 + 1 || gap.last as u64 <= number
    }
}

/// The first number of the window of a hole in a round.
fn window_in(round: u32, gap: Gap) -> u64
    requires filled { gap.first ≤ gap.last }
    ensures window { result ≡ window_in round gap }
    ensures first { gap.first ≤ result }
    ensures last { result ≤ gap.last }
{
    let windows = (gap.last - gap.first) as u64 / WINDOW + 1;
    gap.first as u64 + WINDOW * (round as u64 % windows)
}
