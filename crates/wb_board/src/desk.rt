//! A desk: what one caller knows of a board and owns in it.
ghost use Rattle.std.specs.Prelude.{◌≡◌, ◌≤◌, ◌↔◌, IsTrue, IfOk, MatchOption, Contains, length};
ghost use Rattle.std.specs.Borrow.{sem};
ghost use Rattle.wb_names.specs.History.{HoldsName, highest};
ghost use Rattle.wb_gaps.specs.Holdings.{HoldNamesOf};
ghost use Rattle.wb_history.specs.Passes.{IsPassOf, IsSound, IsWhole, IsCaughtUp};
ghost use Rattle.wb_board.specs.Counts.{MAX_CELLS};

use crate::board::Board;
use crate::held::Held;
use crate::layers::{Layers, bring_up, shown_on};
use indexmap::IndexMap;
use std::alloc::{AllocError, Global};
use std::marker::Model;
use wb_gaps::Holdings;
use wb_history::Pass;
use wb_names::{Drawop, Name, PageId};

/// What one caller knows of a board and owns in it: the drawops that it has seen, the places of
/// those that it added, and rows for more. It changes only when it is lent to a call of the board
/// that it came from, and it may go to another thread. A desk that is dropped keeps its rows, so
/// they are lost.
#[derive(Drop)]
pub struct Desk {
    pub(crate) pass: Pass,
    /// For each page that was viewed, what it shows of a beginning of the list.
    pub(crate) layers: Layers,
    /// Which numbers of each page and source a beginning of the list has.
    pub(crate) held: Held,
}

impl Model for Desk {
    ghost use Rattle.wb_history.specs.Passes.{PassValue};

    ghost Value = { PassValue };

    ghost use Rattle.wb_board.specs.Held.{AreKeptOf};

    ghost view = { λ d. d.pass };

    ghost invariant = { λ d. AreKeptOf d.pass.seen d.layers.entries d.held };
}

impl Desk {
    ghost use Rattle.wb_board.specs.Board.{IsAnswer, AskView, Shown};
    ghost use Rattle.wb_board.specs.Desks.{ReadsOn};
    ghost use Rattle.wb_board.specs.Borrows.{EndsAs};

    /// The desk of a pass, on which no page was viewed.
    pub(crate) fn new(alloc: Global, pass: Pass) -> Desk
        ensures { result ≡ pass }
    {
        Desk {
            pass,
            layers: IndexMap::new(alloc),
            held: Held::new(alloc),
        }
    }

    /// What a page shows, in the order of display, lent from the desk: it reads the history to its
    /// end first, takes in what came since the page was last viewed, and copies nothing.
    /// `Board::view` is this and a copy. After a fault the desk may have seen more.
    pub fn shown(
        &mut self,
        alloc: Global,
        board: &Board,
        page: PageId,
    ) -> Result<&[Drawop], AllocError>
        requires desk { IsPassOf board.now self.old }
        ensures* desk { sem 𝓛 (EndsAs self.entry.ghost_name
            (λ d. ReadsOn self.old d × IfOk result (λ shown. IsCaughtUp self.old d ×
            IsAnswer d.seen (AskView page) (Shown shown.now)) × (d.cells ≡ board.now.cells))) }
    {
        board.refresh(self)?;
        bring_up(&mut self.layers, alloc, page, self.pass.list())?;
        Ok(shown_on(&self.layers, page))
    }

    /// The numbers that it has seen, lent from the desk, once it took in what came since. After a
    /// fault it has seen the same.
    pub fn holdings(&mut self) -> Result<&Holdings, AllocError>
        ensures* desk { sem 𝓛 (EndsAs self.entry.ghost_name (λ d. d ≡ self.old)) }
        ensures holds { IfOk result (λ holdings. HoldNamesOf self.old.seen holdings.now) }
        ensures few { IfOk result (λ holdings. length holdings.now ≤ MAX_CELLS) }
    {
        self.held.catch_up(&self.pass)?;
        Ok(&self.held.holdings)
    }

    /// The greatest number of a source on a page, of what it has seen. It takes in nothing, and so
    /// it needs no memory.
    pub fn last_number(&self, page: PageId, source: u32) -> u32
        ensures { result ≡ highest page source self.now.seen }
    {
        self.held.highest(self.list(), page, source)
    }

    /// The drawops that it has seen, in order of place.
    pub fn list(&self) -> &[Drawop]
        ensures value { result.now ≡ self.now.seen }
        ensures sound { IsSound self.now }
    {
        self.pass.list()
    }

    /// The drawop with this name, by one look-up.
    pub fn find(&self, name: &Name) -> Option<&Drawop>
        ensures { MatchOption result (¬ HoldsName self.now.seen name.now)
            (λ d. Contains self.now.seen d.now × (d.now.name ≡ name.now)) }
    {
        match self.pass.place_of(name) {
            Some(place) => self.pass.at(place),
            None => None,
        }
    }

    /// The number of rows that it owns and has not used.
    pub fn rows_left(&self) -> u32
        ensures value { result ≡ self.now.free }
        ensures sound { IsSound self.now }
    {
        self.pass.rows_left()
    }

    /// Whether it owns all rows of the board.
    pub fn is_whole(&self) -> bool
        ensures { IsTrue result ↔ IsWhole self.now }
    {
        self.pass.is_whole()
    }
}
