//! Which numbers of a page are missing.

ghost use Rattle.std.specs.Prelude.{◌≡◌};
ghost use Rattle.wb_gaps.specs.Runs.{runs_left};
ghost use Rattle.wb_gaps.specs.Walk.{walk_of};

use crate::run::Runs;
use crate::walk::Walk;
use std::marker::Model;
use wb_names::{Gap, Mark};

/// The gaps of a page, found one by one: the ranges of sequence numbers that are missing, ascending
/// by source and number. It takes no memory. A gap costs the ranges that are held and the marks
/// since the one before.
#[derive(Drop)]
pub struct Missing<'a> {
    walk: Walk<'a>,
}

impl<'a> Model for Missing<'a> {
    ghost use Rattle.std.specs.Prelude.{List};
    ghost use Rattle.wb_names.specs.declared.gap.Gap.{Gap};
    ghost use Rattle.wb_gaps.specs.Walk.{gaps_left};

    ghost Value = { List Gap };

    ghost view = { λ m. gaps_left m.walk };
}

impl<'a> Missing<'a> {
    /// What these runs leave free, and these marks know of.
    pub(crate) fn new(runs: Runs<'a>, marks: &'a [Mark]) -> Missing<'a>
        ensures { result ≡ walk_of (runs_left runs.entry) marks.now }
    {
        Missing {
            walk: Walk::new(runs, marks),
        }
    }
}

impl<'a> Iterator for Missing<'a> {
    ghost use Rattle.std.specs.Prelude.{length};
    ghost use Rattle.std.specs.Iterator.{at_most};
    ghost use Rattle.std.specs.Map.Iter.{TakesFirst};

    type Item = Gap;

    ghost next_gives = { TakesFirst (λ gap. gap) };

    ghost remaining = { λ gaps. at_most (length gaps) };

    fn next(&mut self) -> Option<Gap> {
        self.walk.next_gap()
    }
}
