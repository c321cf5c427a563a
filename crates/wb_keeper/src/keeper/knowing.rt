//! What a keeper knows of: pages, and the numbers of a source.

ghost use Rattle.std.specs.Prelude.{◌≡◌, ◌≢◌, ◌↔◌, [], ℕ, List, Contains, IfOk, OnOk};
ghost use Rattle.std.specs.List.Sorted.{IsStrictlySortedBy};
ghost use Rattle.std.specs.Map.{keys_of};
ghost use Rattle.wb_names.specs.Ascending.{AreMarks};
ghost use Rattle.wb_names.specs.Orders.{page_cmp};
ghost use Rattle.wb_board.specs.Desks.{IsPassOf, IsCaughtUp, ReadsOn};
ghost use Rattle.wb_names.specs.Marks.{known, mark_of};
ghost use Rattle.wb_names.specs.declared.name.PageId.{PageId};
ghost use Rattle.wb_recovery.specs.declared.tuning.Tuning.{Tuning as Constants};
ghost use Rattle.wb_keeper.specs.Keeper.{KeeperCall};
ghost use Rattle.wb_keeper.specs.Keeping.{StandsFor, marks_at};
ghost use Rattle.wb_keeper.specs.Known.{AreKnownPages, page_where, known_pages, known_number};

use crate::keeper::Keeper;
use std::alloc::{AllocError, Global};
use wb_board::{Board, Desk};
use wb_names::{Mark, Marks, PageId};

impl Keeper {
    /// The pages that have a drawop or of which some mark was heard, ascending, each once. It reads
    /// the history to its end first. After a fault the desk may have seen more.
    pub fn known_pages(
        &self,
        alloc: Global,
        board: &Board,
        desk: &mut Desk,
    ) -> Result<Vec<PageId>, AllocError>
        requires desk { IsPassOf board.now desk.old }
        ensures desk { ReadsOn desk.old desk.new }
        ensures end { OnOk result (IsCaughtUp desk.old desk.new) }
        ensures pages { IfOk result
            (λ pages. AreKnownPages (marks_at self.now.marks) desk.new.seen pages.items) }
        ensures value { IfOk result (λ pages. (me : ℕ) (constants : Constants)
            (calls : List KeeperCall) → StandsFor me constants calls self.now →
            pages.items ≡ known_pages me calls desk.new.seen) }
    {
        let mut pages = board.pages(alloc, desk)?;
        let heard = self.heard_pages(alloc)?;
        for page in &heard {
            pages.push(*page)?;
        }
        pages.sort_unstable();
        pages.dedup();
        Ok(pages)
    }

    /// The pages of which some mark was heard.
    fn heard_pages(&self, alloc: Global) -> Result<Vec<PageId>, AllocError>
        ensures ordered { IsStrictlySortedBy page_cmp (keys_of self.now.marks) }
        ensures pages { IfOk result (λ pages. (page : PageId) →
            Contains pages.items page ↔ (marks_at self.now.marks page ≢ [])) }
    {
        let heard = self
            .marks
            .iter()
            .filter_map(|(page, marks)| page_where(*page, marks));
        heard.collect(alloc)
    }

    /// The greatest number of a source on a page that the desk has or that was heard, or 0.
    pub fn known_number(&self, desk: &Desk, page: PageId, source: u32) -> u32
        ensures number { result ≡ known desk.now.seen page (marks_at self.now.marks page) source }
        ensures value { (me : ℕ) (constants : Constants) (calls : List KeeperCall) →
            StandsFor me constants calls self.now →
            result ≡ known_number me calls desk.now.seen page source }
    {
        let heard = number_of(self.marks(page).as_slice(), source);
        heard.max(desk.last_number(page, source))
    }
}

/// A page, if there are marks of it.
fn page_where(page: PageId, marks: &Marks) -> Option<PageId>
    ensures { result ≡ page_where page marks.now }
{
    match marks.as_slice() {
        [] => None,
        [_, ..] => Some(page),
    }
}

/// The number that marks have for a source, or 0, by a search: marks ascend by source.
pub(super) fn number_of(marks: &[Mark], source: u32) -> u32
    requires { AreMarks marks.now }
    ensures { result ≡ mark_of marks.now source }
{
    match marks.binary_search_by_key(&source, |mark| mark.source()) {
        Ok(place) => marks[place].high(),
        Err(_) => 0,
    }
}
