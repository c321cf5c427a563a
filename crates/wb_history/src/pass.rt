//! A pass: what one thread knows of a history and owns in it.
ghost use Rattle.std.specs.Prelude.{◌≡◌, ◌↔◌, IsTrue, MatchOption, Contains, Some, slice_get, option_copied};
ghost use Rattle.wb_names.specs.Values.{DrawopValue};
ghost use Rattle.wb_names.specs.History.{HoldsName};
ghost use Rattle.wb_history.specs.Passes.{IsSound, IsWhole};

use crate::cursor::Cursor;
use crate::seen::Seen;
use std::marker::Model;
use wb_names::{Drawop, Name};

/// What one thread knows of a history and owns in it: the drawops that it has seen, the places of
/// those that it added, and rows for more. It takes steps only when it is lent to a call of the
/// history that it came from, and it may go to another thread. A pass that is dropped keeps its
/// rows, so they are lost.
///
/// Of each pass that was joined to it it keeps a list of drawops, with its index, for its next
/// split: at most eight, and about 40 MB of them, which are given back when it is dropped.
#[derive(Drop)]
pub struct Pass {
    pub(crate) cursor: Cursor,
    /// Lists that joined passes brought back, each a front of its own.
    pub(crate) spares: Vec<Seen>,
    pub(crate) cells: u32,
}

impl Model for Pass {
    ghost use Rattle.std.specs.Prelude.{◌≡◌};
    ghost use Rattle.wb_history.specs.Passes.{PassValue};
    ghost use Rattle.wb_history.specs.Indexed.{AreFronts};
    ghost use Rattle.wb_history.specs.Shown.{view_of, PartsAgree};

    ghost Value = { PassValue };

    ghost view = { λ p. view_of p.cursor };

    ghost invariant = { λ p. PartsAgree p.cursor × (p.cells ≡ p.cursor.seat.me.0.cells) ×
        AreFronts p.spares.items p.cursor.seen.items };
}

impl Pass {
    /// The drawops that it has seen, in order of place.
    #[tactic(auto, using(crate::proofs::Shows::sound))]
    pub fn list(&self) -> &[Drawop]
        ensures value { result.now ≡ self.now.seen }
        ensures sound { IsSound self.now }
    {
        self.cursor.seen.as_slice()
    }

    /// The place of the drawop with this name, by one look-up.
    #[tactic(auto, using(crate::proofs::Words::get_is))]
    pub fn place_of(&self, name: &Name) -> Option<u32>
        ensures { MatchOption result (¬ HoldsName self.now.seen name.now) (λ i. (d : DrawopValue) ×
            (slice_get self.now.seen i ≡ Some d) × (d.name ≡ name.now)) }
    {
        match self.cursor.seen.place_of(name) {
            Some(place) => Some(place as u32),
            None => None,
        }
    }

    /// The drawop at a place, from 0.
    pub fn at(&self, place: u32) -> Option<&Drawop>
        ensures { option_copied result ≡ slice_get self.now.seen place }
    {
        let seen = self.cursor.seen.as_slice();
        if (place as usize) < seen.len() {
            Some(&seen[place as usize])
        } else {
            None
        }
    }

    /// Whether this pass, or one that was joined to it, added the drawop at a place.
    pub fn is_mine(&self, place: u32) -> bool
        ensures { IsTrue result ↔ Contains self.now.mine place }
    {
        self.cursor.mine.as_slice().contains(&place)
    }

    /// The number of rows that it owns and has not used.
    #[tactic(auto, using(crate::proofs::Shows::sound))]
    pub fn rows_left(&self) -> u32
        ensures value { result ≡ self.now.free }
        ensures sound { IsSound self.now }
    {
        self.cursor.free.len()
    }

    /// Whether it owns all rows of the history.
    pub fn is_whole(&self) -> bool
        ensures { IsTrue result ↔ IsWhole self.now }
    {
        self.cursor.free.len() as usize + self.cursor.mine.len() == self.cells as usize
    }

    /// The steps on words of its last claim or refresh, and 0 before the first.
    pub fn steps(&self) -> u32
        ensures { result ≡ self.now.steps }
    {
        self.cursor.steps
    }
}
