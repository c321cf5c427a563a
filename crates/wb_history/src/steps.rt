//! Each kind of step on a word, who may take it and what it tells, and the steps on a whole row.
//! Only a won exchange is an event of the history; every other step changes nothing that is seen.
ghost use Rattle.wb_history.specs.Sizes.{row_stride};
ghost use Rattle.std.specs.Prelude.{◌≡◌, ◌≢◌, ℕ, ◌+◌, ◌-◌, ◌*◌, ◌<◌, ◌≤◌, [], ◌∷◌, ◌++◌, length};
ghost use mathlib.Core.Option.{some, none};
ghost use lib.ListN.{get_elem?};
ghost use Rattle.atomic_table.specs.Table.{step};
ghost use Rattle.wb_history.specs.Lawful.{IsConsistent};
ghost use Rattle.wb_history.specs.Plays.{looked, published, confirmed};
ghost use Rattle.wb_names.specs.History.{HoldsName};
ghost use Rattle.wb_codec.specs.Rows.{row as record_of};
ghost use Rattle.wb_codec.specs.Ranges.{IsDrawop};
ghost use Rattle.wb_history.specs.Seats.{SitsAt, SameSeat};
ghost use Rattle.wb_history.specs.Views.{IsRead, IsStored, left_part, right_part, united};

use crate::cells::{CellTable, HistorySeat, ROW_STRIDE};
use crate::rule::{Confirm, Cut, Look, Portion, Publish, ReadLast, ReadWord, StoreWord, Unite};
use wb_codec::{ROW_WORDS, drawop_in, to_row};
use wb_names::Drawop;

impl CellTable {
    /// Loads the first cell that the seat has not seen. It holds 0 while it is free, and otherwise
    /// a row number plus one.
    pub(crate) fn look(&self, seat: &mut HistorySeat, place: usize) -> u64
        requires seat { SitsAt self.now seat.old }
        requires place { (place ≡ length seat.old.me.0.seen) × (place < self.now.cells) }
        ensures seat { SameSeat seat.old seat.new }
        ensures found { looked (step 0 place 0 0 none) seat.old.me result seat.new.me }
    {
        self.table.shared.load::<Look>(seat, place)
    }

    /// The first word of a row. The rows stand after the cells, those of the greatest numbers
    /// first: a pass uses them in this order, so that it goes forward in memory.
    fn row_start(&self, row: usize) -> usize
        requires { row < self.now.cells }
        ensures { result ≡ self.now.cells + (self.now.cells - 1 - row) * row_stride }
    {
        let cells = self.cells as usize;
        cells + (cells - 1 - row) * ROW_STRIDE
    }

    /// Reads the row that the cell names which the seat looked at. Its owner stored it before that
    /// cell was won, and stores nothing there again.
    pub(crate) fn read_row(&self, seat: &mut HistorySeat, row: usize) -> Drawop
        requires seat { SitsAt self.now seat.old }
        requires row { (row < self.now.cells) × (seat.old.me.0.looking ≡ row + 1) ×
            (seat.old.me.0.read ≡ []) }
        ensures seat { SameSeat seat.old seat.new }
        ensures drawop { IsRead seat.old.me.0 result seat.new.me.0 × IsDrawop result ×
            IsConsistent seat.new.me.0 }
    {
        let start = self.row_start(row);
        let mut words = [0u64; ROW_WORDS];
        for i in 0..ROW_WORDS - 1 {
            words[i] = self.table.shared.load::<ReadWord>(seat, start + i);
        }
        words[ROW_WORDS - 1] = self
            .table
            .shared
            .load::<ReadLast>(seat, start + ROW_WORDS - 1);
        match drawop_in(&words) {
            Some(drawop) => drawop,
            None => unreachable!(),
        }
    }

    /// Stores a record into the last free row of the seat, which no cell names, so that no other
    /// seat reads it.
    pub(crate) fn store_row(&self, seat: &mut HistorySeat, row: usize, drawop: &Drawop)
        requires seat { SitsAt self.now seat.old }
        requires row { (row < self.now.cells) × (get_elem? seat.old.me.0.free
            (length seat.old.me.0.free - 1) ≡ some row) × (seat.old.me.0.stored ≡ []) }
        requires consistent { IsConsistent seat.old.me.0 }
        ensures seat { SameSeat seat.old seat.new }
        ensures stored { IsStored seat.old.me.0 (record_of drawop.now) seat.new.me.0 ×
            IsConsistent seat.new.me.0 }
        ensures lawful { IsDrawop drawop.now }
    {
        let start = self.row_start(row);
        let words = to_row(drawop);
        for i in 0..ROW_WORDS {
            self.table
                .shared
                .store::<StoreWord>(seat, start + i, words[i]);
        }
    }

    /// Exchanges the first cell that the seat has not seen, if it is free, for the row in which the
    /// whole record stands. It returns what the cell held: 0 if the exchange was won.
    pub(crate) fn publish(
        &self,
        seat: &mut HistorySeat,
        place: usize,
        row: u32,
        drawop: &Drawop,
    ) -> u64
        requires seat { SitsAt self.now seat.old }
        requires place { (place ≡ length seat.old.me.0.seen) × (place < self.now.cells) }
        requires row { get_elem? seat.old.me.0.free (length seat.old.me.0.free - 1) ≡ some row }
        requires stored { seat.old.me.0.stored ≡ record_of drawop.now }
        requires new { IsDrawop drawop.now × ¬ HoldsName seat.old.me.0.seen drawop.now.name }
        ensures seat { SameSeat seat.old seat.new }
        ensures found { published
            (step 0 place 0 (row + 1) (some drawop.now)) seat.old.me result seat.new.me }
    {
        let new = u64::from(row) + 1;
        self.table
            .shared
            .compare_exchange_with::<Publish>(seat, place, 0, new, drawop)
    }
}

impl CellTable {
    /// Loads the first cell after a join, which tells nothing by itself: of the two lists the
    /// longer begins with the shorter, and a step tells that.
    pub(crate) fn confirm(&self, seat: &mut HistorySeat)
        requires seat { SitsAt self.now seat.old }
        ensures seat { SameSeat seat.old seat.new }
        ensures found { (found : ℕ) × confirmed (step 0 0 0 0 none) seat.old.me found seat.new.me }
    {
        let _found = self.table.shared.load::<Confirm>(seat, 0);
    }

    /// Gives the last rows to a new seat, which has seen the same.
    #[tactic(auto, using(crate::proofs::Ownership::splits))]
    pub(crate) fn cut<B: Portion>(&self, seat: &mut HistorySeat, rows: usize) -> HistorySeat
        requires seat { SitsAt self.now seat.old }
        requires rows { B.rows ≡ rows }
        ensures seat { SameSeat seat.old seat.new × (seat.new.me.0 ≡ left_part rows seat.old.me.0) }
        ensures new { (result.table_id ≡ seat.old.table_id) ×
            (result.me ≡ (right_part rows seat.old.me.0, [])) }
    {
        self.table.shared.split_seat::<Cut<B>>(seat)
    }

    /// Takes in another seat, with what it has seen and its rows and places.
    #[tactic(auto, using(crate::proofs::Ownership::joins))]
    pub(crate) fn unite(&self, seat: &mut HistorySeat, other: HistorySeat)
        requires seat { SitsAt self.now seat.old }
        requires other { SitsAt self.now other × (other.me.1 ≡ []) }
        ensures seat { SameSeat seat.old seat.new ×
            (seat.new.me.0 ≡ united seat.old.me.0 other.me.0) }
    {
        self.table.shared.join_seat::<Unite>(seat, other);
    }
}
