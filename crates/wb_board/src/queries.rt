//! The questions that a board answers: what a page shows, lacks and reports, and which pages there
//! are. Each reads the history to its end first, and answers at the list that the desk has then
//! seen.
ghost use Rattle.std.specs.Prelude.{◌≡◌, IfOk, OnOk};
ghost use Rattle.wb_history.specs.Passes.{IsPassOf, IsCaughtUp};
ghost use Rattle.wb_board.specs.Board.{IsAnswer, AskGaps, AskReport, AskPages, AskView, Gaps, Marks as ReportOf, Pages, Shown};
ghost use Rattle.wb_board.specs.Desks.{ReadsOn};

use crate::board::Board;
use crate::desk::Desk;
use std::alloc::{AllocError, Global};
use wb_names::{Drawop, Gap, Marks, PageId};

impl Board {
    /// Which numbers of a page are missing: those from 1 up to the greatest that the desk or the
    /// marks know of a source, without those that the desk has. They come as ranges, ascending by
    /// source and number. After a fault the desk may have seen more.
    pub fn gaps(
        &self,
        alloc: Global,
        desk: &mut Desk,
        page: PageId,
        marks: &Marks,
    ) -> Result<Vec<Gap>, AllocError>
        requires desk { IsPassOf self.now desk.old }
        ensures desk { ReadsOn desk.old desk.new }
        ensures cells { desk.new.cells ≡ self.now.cells }
        ensures end { OnOk result (IsCaughtUp desk.old desk.new) }
        ensures answer { IfOk result
            (λ gaps. IsAnswer desk.new.seen (AskGaps page marks.now) (Gaps gaps.items)) }
    {
        self.refresh(desk)?;
        let holdings = desk.holdings()?;
        holdings.gaps(alloc, page, marks)
    }

    /// The report of a page: for each source that has a drawop there, ascending, its greatest
    /// number. After a fault the desk may have seen more.
    pub fn report(&self, alloc: Global, desk: &mut Desk, page: PageId) -> Result<Marks, AllocError>
        requires desk { IsPassOf self.now desk.old }
        ensures desk { ReadsOn desk.old desk.new }
        ensures cells { desk.new.cells ≡ self.now.cells }
        ensures end { OnOk result (IsCaughtUp desk.old desk.new) }
        ensures answer { IfOk result
            (λ marks. IsAnswer desk.new.seen (AskReport page) (ReportOf marks)) }
    {
        self.refresh(desk)?;
        let holdings = desk.holdings()?;
        holdings.report(alloc, page)
    }

    /// The pages that have drawops, ascending, each once. After a fault the desk may have seen
    /// more.
    pub fn pages(&self, alloc: Global, desk: &mut Desk) -> Result<Vec<PageId>, AllocError>
        requires desk { IsPassOf self.now desk.old }
        ensures desk { ReadsOn desk.old desk.new }
        ensures cells { desk.new.cells ≡ self.now.cells }
        ensures end { OnOk result (IsCaughtUp desk.old desk.new) }
        ensures answer { IfOk result
            (λ pages. IsAnswer desk.new.seen AskPages (Pages pages.items)) }
    {
        self.refresh(desk)?;
        let holdings = desk.holdings()?;
        holdings.pages(alloc)
    }

    /// What a page shows, in the order of display: a copy of what `Desk::shown` lends. After a
    /// fault the desk may have seen more.
    pub fn view(
        &self,
        alloc: Global,
        desk: &mut Desk,
        page: PageId,
    ) -> Result<Vec<Drawop>, AllocError>
        requires desk { IsPassOf self.now desk.old }
        ensures desk { ReadsOn desk.old desk.new }
        ensures cells { desk.new.cells ≡ self.now.cells }
        ensures end { OnOk result (IsCaughtUp desk.old desk.new) }
        ensures answer { IfOk result
            (λ shown. IsAnswer desk.new.seen (AskView page) (Shown shown.items)) }
    {
        let shown = desk.shown(alloc, self, page)?;
        shown.to_vec(alloc)
    }
}
