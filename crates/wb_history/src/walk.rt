//! How a cursor goes on along the history. A walk begins at the first cell that the cursor has not
//! seen, so that it reads no filled cell twice.
ghost use Rattle.wb_history.specs.Sizes.{row_words, drawop_steps};
ghost use Rattle.std.specs.Prelude.{◌≡◌, ◌≢◌, ℕ, ◌+◌, ◌*◌, ◌<◌, ◌≤◌, List, [], ◌∷◌, ◌++◌, length, slice_get, Some, MatchOption, MatchResult, IsTrue, ◌↔◌};
ghost use Rattle.wb_names.specs.Values.{DrawopValue};
ghost use Rattle.wb_history.specs.Cursors.{MatchesSeat, Walked, ReadsOne, AtEnd, TellsNamesake, Sought};
ghost use Rattle.wb_names.specs.History.{HoldsName};
ghost use Rattle.wb_history.specs.Seats.{SitsAt, SameSeat};
ghost use Rattle.wb_history.specs.Views.{IsRead};
ghost use Rattle.wb_history.specs.declared.history.TheConstants.{MAX_CELLS};

use crate::cells::CellTable;
use crate::claim::Claim;
use crate::cursor::Cursor;
use crate::seen::Seen;
use std::alloc::AllocError;
use wb_codec::ROW_WORDS;
use wb_names::Drawop;

/// Whether two drawops have one name.
#[inline(always)]
pub(crate) fn is_namesake(held: &Drawop, drawop: &Drawop) -> bool
    ensures { IsTrue result ↔ (held.now.name ≡ drawop.now.name) }
{
    held.name() == drawop.name()
}

/// The answer if the drawop that is held at a place has the name of this one.
pub(crate) fn answer(drawop: &Drawop, held: &Drawop, place: usize) -> Claim
    requires { (held.now.name ≡ drawop.now.name) × (place ≤ MAX_CELLS) }
    ensures { (l : List DrawopValue) → slice_get l place ≡ Some held.now →
        TellsNamesake l drawop.now result }
{
    if held == drawop {
        Claim::Present(place as u32)
    } else {
        Claim::Clash(place as u32)
    }
}

/// The answer if the drawop at this place has the name of the one that is claimed.
pub(crate) fn answer_at(seen: &Seen, place: usize, drawop: &Drawop) -> Option<Claim>
    requires { (place < length seen.now.items) × (place ≤ MAX_CELLS) }
    ensures { MatchOption result ((d : DrawopValue) → slice_get seen.now.items place ≡ Some d →
        d.name ≢ drawop.now.name) (λ c. TellsNamesake seen.now.items drawop.now c) }
{
    let held = &seen.as_slice()[place];
    if is_namesake(held, drawop) {
        Some(answer(drawop, held, place))
    } else {
        None
    }
}

impl CellTable {
    /// Reads the drawop after those that were seen, whose cell was found to hold `found`, and puts
    /// it last. All growth for it comes before its row is read, since the last word read makes it
    /// seen.
    pub(crate) fn take_drawop(&self, cursor: &mut Cursor, found: u64) -> Result<(), AllocError>
        requires cursor { SitsAt self.now cursor.old.seat × MatchesSeat cursor.old ×
            (cursor.old.steps ≤ drawop_steps * (length cursor.old.seen.items + 2)) }
        requires found { (0 < found) × (found ≤ self.now.cells) ×
            (cursor.old.seat.me.0.looking ≡ found) × (cursor.old.seat.me.0.read ≡ []) }
        ensures matches { MatchesSeat cursor.new × (cursor.new.mine.items ≡ cursor.old.mine.items) ×
            (cursor.new.free.items ≡ cursor.old.free.items) }
        ensures done { MatchResult result (λ _. (d : DrawopValue) ×
            (cursor.new.seen.items ≡ cursor.old.seen.items ++ d ∷ []) ×
            (cursor.new.steps ≡ cursor.old.steps + row_words) ×
            IsRead cursor.old.seat.me.0 d cursor.new.seat.me.0 ×
            SameSeat cursor.old.seat cursor.new.seat)
            (λ _. (cursor.new.seen.items ≡ cursor.old.seen.items) ×
            (cursor.new.steps ≡ cursor.old.steps) × (cursor.new.seat ≡ cursor.old.seat)) }
    {
        cursor.seen.reserve(1)?;
        let drawop = self.read_row(&mut cursor.seat, found as usize - 1);
        cursor.seen.put(&drawop);
        cursor.steps += ROW_WORDS as u32;
        Ok(())
    }

    /// Reads the next drawop, if there is one: a load of its cell, and one of each word of its row.
    /// It answers its place.
    pub(crate) fn next_drawop(&self, cursor: &mut Cursor) -> Result<Option<usize>, AllocError>
        requires cursor { SitsAt self.now cursor.old.seat × MatchesSeat cursor.old ×
            (cursor.old.steps ≤ drawop_steps * length cursor.old.seen.items) }
        ensures done { MatchResult result
            (λ o. MatchOption o (AtEnd self.now.cells cursor.old [] cursor.new)
            (λ place. ReadsOne cursor.old place cursor.new))
            (λ _. Walked cursor.old [] 1 cursor.new) }
    {
        let place = cursor.seen.len();
        if place == self.cells as usize {
            return Ok(None);
        }
        let found = self.look(&mut cursor.seat, place);
        cursor.steps += 1;
        if found == 0 {
            return Ok(None);
        }
        self.take_drawop(cursor, found)?;
        Ok(Some(place))
    }

    /// Reads all drawops to the end.
    pub(crate) fn catch_up(&self, cursor: &mut Cursor) -> Result<(), AllocError>
        requires cursor { SitsAt self.now cursor.old.seat × MatchesSeat cursor.old ×
            (cursor.old.steps ≡ 0) }
        ensures done { MatchResult result (λ _. (more : List DrawopValue) ×
            AtEnd self.now.cells cursor.old more cursor.new) (λ _. (more : List DrawopValue) ×
            Walked cursor.old more 1 cursor.new) }
    {
        while let Some(_) = self.next_drawop(cursor)? {}
        Ok(())
    }

    /// Reads drawops until one has the name of this one.
    pub(crate) fn seek(
        &self,
        cursor: &mut Cursor,
        drawop: &Drawop,
    ) -> Result<Option<Claim>, AllocError>
        requires cursor { SitsAt self.now cursor.old.seat × MatchesSeat cursor.old ×
            (cursor.old.steps ≡ 0) }
        requires new { ¬ HoldsName cursor.old.seen.items drawop.now.name }
        ensures done { MatchResult result (Sought self.now.cells cursor.old drawop.now cursor.new)
            (λ _. (more : List DrawopValue) × Walked cursor.old more 1 cursor.new) }
    {
        while let Some(place) = self.next_drawop(cursor)? {
            if let Some(claim) = answer_at(&cursor.seen, place, drawop) {
                return Ok(Some(claim));
            }
        }
        Ok(None)
    }
}
