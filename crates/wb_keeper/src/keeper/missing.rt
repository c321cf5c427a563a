//! Names that are missing, and wanted.

ghost use Rattle.std.specs.Prelude.{◌≡◌, ◌≤◌, ◌++◌, ◌∷◌, [], ℕ, List, All, filter, length, take, IfOk, OnOk};
ghost use Rattle.wb_board.specs.Desks.{IsPassOf, IsCaughtUp, ReadsOn};
ghost use Rattle.wb_recovery.specs.Values.{timers_in};
ghost use Rattle.wb_recovery.specs.declared.tuning.Tuning.{Tuning as Constants};
ghost use Rattle.wb_keeper.specs.Hearing.{marks_heard};
ghost use Rattle.wb_keeper.specs.Keeper.{KeeperCall, events_of};
ghost use Rattle.wb_keeper.specs.Keeping.{StandsFor};
ghost use Rattle.wb_keeper.specs.Missing.{wanted_of, is_unasked, names_in_gap, names_in_gaps};

use crate::keeper::Keeper;
use std::alloc::{AllocError, Global};
use wb_board::{Board, Desk};
use wb_gaps::Missing;
use wb_names::{Gap, Name, PageId};
use wb_recovery::MOST_TIMERS;

impl Keeper {
    /// The names of a page that are missing and for which no request timer stands, ascending, at
    /// most as many as bring the standing request timers to 64. A name is missing up to the
    /// greatest number of its source that the desk then has or that was heard. It reads the history
    /// to its end first, and leaves the keeper as it is. After a fault the desk may have seen more.
    pub fn missing(
        &self,
        alloc: Global,
        board: &Board,
        desk: &mut Desk,
        page: PageId,
    ) -> Result<Vec<Name>, AllocError>
        requires desk { IsPassOf board.now desk.old }
        ensures desk { ReadsOn desk.old desk.new }
        ensures end { OnOk result (IsCaughtUp desk.old desk.new) }
        ensures value { IfOk result
            (λ names. (me : ℕ) (constants : Constants) (calls : List KeeperCall) →
            StandsFor me constants calls self.now → names.items ≡ wanted_of constants
            (events_of me calls) desk.new.seen page (marks_heard me calls page)) }
    {
        board.refresh(desk)?;
        let room = MOST_TIMERS.saturating_sub(self.recovery.asks());
        if room == 0 {
            return Ok(Vec::new(alloc));
        }
        let holdings = desk.holdings()?;
        let gaps = holdings.missing(page, self.marks(page));
        self.unasked(alloc, page, gaps, room)
    }

    /// The first names in the gaps of a page for which no request timer stands. It looks for no gap
    /// once there is no room.
    fn unasked(
        &self,
        alloc: Global,
        page: PageId,
        gaps: Missing<'_>,
        room: usize,
    ) -> Result<Vec<Name>, AllocError>
        requires first { All (λ gap. 1 ≤ gap.first) gaps }
        requires filled { All (λ gap. gap.first ≤ gap.last) gaps }
        ensures { IfOk result (λ names. names.items ≡ take room
            (filter (is_unasked (timers_in self.now.recovery)) (names_in_gaps page gaps.entry))) }
    {
        let mut gaps = gaps;
        let mut names = Vec::new(alloc);
        while names.len() < room {
            let Some(gap) = gaps.next() else {
                return Ok(names);
            };
            self.add_unasked(&mut names, page, gap, room)?;
        }
        Ok(names)
    }

    /// Adds the names in a gap for which no request timer stands, as far as there is room.
    fn add_unasked(
        &self,
        names: &mut Vec<Name>,
        page: PageId,
        gap: Gap,
        room: usize,
    ) -> Result<(), AllocError>
        requires first { 1 ≤ gap.first }
        requires filled { gap.first ≤ gap.last }
        requires room { length names.old.items ≤ room }
        ensures { OnOk result (names.new.items ≡ take room (names.old.items ++
            filter (is_unasked (timers_in self.now.recovery)) (names_in_gap page gap))) }
    {
        for seq in gap.first..=gap.last {
            if names.len() == room {
                return Ok(());
            }
            self.add_if_unasked(names, Name::new(gap.source, page, seq).unwrap())?;
        }
        Ok(())
    }

    /// Adds a name, unless a request timer stands for it.
    fn add_if_unasked(&self, names: &mut Vec<Name>, name: Name) -> Result<(), AllocError>
        ensures { OnOk result (names.new.items ≡
            names.old.items ++ filter (is_unasked (timers_in self.now.recovery)) (name ∷ [])) }
    {
        if self.recovery.ask_of(&name).is_none() {
            names.push(name)?;
        }
        Ok(())
    }
}
