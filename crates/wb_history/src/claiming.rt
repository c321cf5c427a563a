//! How a cursor claims a place for a drawop: its record goes into a free row, and then the next
//! cells are tried one after another with that row, until one is won or names a drawop of its name.
ghost use Rattle.wb_history.specs.Sizes.{row_words, drawop_steps};
ghost use Rattle.std.specs.Prelude.{◌≡◌, ℕ, ◌+◌, ◌-◌, ◌*◌, ◌<◌, ◌≤◌, List, [], ◌∷◌, length, IsOk, MatchOption, MatchResult};
ghost use mathlib.Core.Option.{some};
ghost use lib.ListN.{get_elem?};
ghost use Rattle.wb_names.specs.Values.{DrawopValue};
ghost use Rattle.wb_history.specs.Cursors.{MatchesSeat, Walked, ReadsOne, Won, AtEnd, TellsNamesake, Answered, Refused};
ghost use Rattle.wb_names.specs.History.{HoldsName};
ghost use Rattle.wb_codec.specs.Rows.{row as record_of};
ghost use Rattle.wb_codec.specs.Ranges.{IsDrawop};
ghost use Rattle.wb_history.specs.Seats.{SitsAt};
ghost use Rattle.wb_history.specs.declared.history.TheConstants.{MAX_CELLS};

use crate::cells::CellTable;
use crate::claim::{Claim, ClaimFault};
use crate::cursor::Cursor;
use crate::seen::Seen;
use crate::walk::{answer, answer_at};
use std::alloc::AllocError;
use wb_codec::ROW_WORDS;
use wb_names::Drawop;

impl CellTable {
    /// Exchanges the next cell for the row, in which the record of the drawop stands. Or else reads
    /// the drawop whose cell it is, and answers its place. Room for the drawop is made before, so
    /// that nothing can be refused after the exchange is won; it is put into the list and the index
    /// after, since every moment between the look at a cell and its exchange is one in which
    /// another thread may win the cell.
    fn exchange(
        &self,
        cursor: &mut Cursor,
        row: u32,
        drawop: &Drawop,
    ) -> Result<Option<usize>, AllocError>
        requires cursor { SitsAt self.now cursor.old.seat × MatchesSeat cursor.old ×
            (cursor.old.steps ≤ drawop_steps * length cursor.old.seen.items + drawop_steps) }
        requires row { get_elem? cursor.old.free.items (length cursor.old.free.items - 1) ≡
            some row }
        requires stored { cursor.old.seat.me.0.stored ≡ record_of drawop.now }
        requires new { IsDrawop drawop.now × ¬ HoldsName cursor.old.seen.items drawop.now.name }
        ensures done { MatchResult result (λ o.
            MatchOption o (Won cursor.old [] drawop.now (length cursor.old.seen.items) 1 cursor.new)
            (λ p. ReadsOne cursor.old p cursor.new × (cursor.new.seat.me.0.stored ≡
            cursor.old.seat.me.0.stored))) (λ _. (cursor.new.steps ≤ cursor.old.steps + 1) ×
            Walked cursor.old [] (cursor.new.steps - cursor.old.steps) cursor.new) }
    {
        cursor.seen.reserve(1)?;
        cursor.mine.reserve(1)?;
        let place = cursor.seen.len();
        let found = self.publish(&mut cursor.seat, place, row, drawop);
        cursor.steps += 1;
        if found == 0 {
            cursor.seen.put(drawop);
            cursor.mine.push_reserved(place as u32);
            cursor.free.take_last();
            return Ok(None);
        }
        self.take_drawop(cursor, found)?;
        Ok(Some(place))
    }

    /// Exchanges the next cell for the row until it wins or a drawop of the history has the name.
    fn contend(&self, cursor: &mut Cursor, row: u32, drawop: &Drawop) -> Result<Claim, AllocError>
        requires cursor { SitsAt self.now cursor.old.seat × MatchesSeat cursor.old ×
            (cursor.old.steps ≤ drawop_steps * length cursor.old.seen.items + drawop_steps) }
        requires row { get_elem? cursor.old.free.items (length cursor.old.free.items - 1) ≡
            some row }
        requires stored { cursor.old.seat.me.0.stored ≡ record_of drawop.now }
        requires new { IsDrawop drawop.now × ¬ HoldsName cursor.old.seen.items drawop.now.name }
        ensures done { MatchResult result (Answered cursor.old drawop.now 0 cursor.new)
            (λ _. (more : List DrawopValue) × (extra : ℕ) × (extra ≤ 1) ×
            Walked cursor.old more extra cursor.new) }
    {
        while let Some(place) = self.exchange(cursor, row, drawop)? {
            if let Some(claim) = answer_at(&cursor.seen, place, drawop) {
                return Ok(claim);
            }
        }
        Ok(Claim::Added(cursor.seen.len() as u32 - 1))
    }

    /// Stores the record of the drawop into the last free row.
    fn store(&self, cursor: &mut Cursor, row: u32, drawop: &Drawop)
        requires cursor { SitsAt self.now cursor.old.seat × MatchesSeat cursor.old ×
            (cursor.old.steps ≤ drawop_steps * length cursor.old.seen.items + 1) }
        requires row { get_elem? cursor.old.free.items (length cursor.old.free.items - 1) ≡
            some row }
        requires stored { cursor.old.seat.me.0.stored ≡ [] }
        ensures done { Walked cursor.old [] row_words cursor.new ×
            (cursor.new.seat.me.0.stored ≡ record_of drawop.now) × IsDrawop drawop.now }
    {
        self.store_row(&mut cursor.seat, row as usize, drawop);
        cursor.steps += ROW_WORDS as u32;
    }

    /// Publishes the row with the record of the drawop, unless one of the history has its name.
    fn publish_or_find(
        &self,
        cursor: &mut Cursor,
        row: u32,
        drawop: &Drawop,
    ) -> Result<Claim, AllocError>
        requires cursor { SitsAt self.now cursor.old.seat × MatchesSeat cursor.old ×
            (cursor.old.steps ≤ drawop_steps * length cursor.old.seen.items + 1) }
        requires row { get_elem? cursor.old.free.items (length cursor.old.free.items - 1) ≡
            some row }
        requires stored { cursor.old.seat.me.0.stored ≡ [] }
        requires new { ¬ HoldsName cursor.old.seen.items drawop.now.name }
        ensures done { MatchResult result (Answered cursor.old drawop.now row_words cursor.new)
            (λ _. (more : List DrawopValue) × (extra : ℕ) × (extra ≤ drawop_steps) ×
            Walked cursor.old more extra cursor.new) }
    {
        self.store(cursor, row, drawop);
        self.contend(cursor, row, drawop)
    }

    /// Claims a place for the drawop: by the list, by the drawops that came since, and then with a
    /// row. A row is looked for only once the end was found, so that a name that others added is
    /// answered without one.
    pub(crate) fn claim_with(
        &self,
        cursor: &mut Cursor,
        drawop: &Drawop,
    ) -> Result<Claim, ClaimFault>
        requires cursor { SitsAt self.now cursor.old.seat × MatchesSeat cursor.old ×
            (cursor.old.steps ≡ 0) }
        ensures done { MatchResult result (λ c. (extra : ℕ) ×
            (extra ≤ drawop_steps) × Answered cursor.old drawop.now extra cursor.new c)
            (Refused self.now.cells cursor.old drawop.now cursor.new) }
        ensures known { HoldsName cursor.old.seen.items drawop.now.name →
            IsOk result × (cursor.new ≡ cursor.old) }
    {
        if let Some(claim) = known(&cursor.seen, drawop) {
            return Ok(claim);
        }
        match self.seek(cursor, drawop) {
            Ok(Some(claim)) => return Ok(claim),
            Ok(None) => {}
            Err(_) => return Err(ClaimFault::Memory),
        }
        let Some(row) = cursor.free.last() else {
            return Err(ClaimFault::NoRow);
        };
        match self.publish_or_find(cursor, row, drawop) {
            Ok(claim) => Ok(claim),
            Err(_) => Err(ClaimFault::Memory),
        }
    }
}

/// The answer to a claim of a drawop whose name one of those that were seen has.
#[tactic(auto, using(atomic_table::proofs::Lists::at_index, crate::proofs::Lists::at_same, crate::proofs::Words::get_is))]
fn known(seen: &Seen, drawop: &Drawop) -> Option<Claim>
    requires { length seen.now.items ≤ MAX_CELLS }
    ensures { MatchOption result (¬ HoldsName seen.now.items drawop.now.name)
        (λ c. TellsNamesake seen.now.items drawop.now c) }
{
    let place = seen.place_of(&drawop.name())?;
    Some(answer(drawop, &seen.as_slice()[place], place))
}
