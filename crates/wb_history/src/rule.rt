//! The rule of the table, and what each kind of step tells the pass that takes it.
use crate::knowledge::Knowledge;
use atomic_table::{Join, Play, Split, TableRule};
use std::marker::{Brand, PhantomData};
use wb_names::Drawop;

/// The words and the knowledge of all passes agree on one history.
pub struct OneHistory;

impl TableRule<Drawop, Knowledge, u32> for OneHistory {
    ghost use Rattle.wb_history.specs.Lawful.{Lawful};
    ghost use Rattle.wb_history.specs.Views.{whole_pass};

    ghost holds = { Lawful };

    ghost first = { whole_pass };
}

/// A load of the first cell that the pass has not seen.
pub struct Look;

impl Play<Drawop, Knowledge> for Look {
    ghost use Rattle.wb_history.specs.Plays.{looked};

    ghost then = { looked };
}

/// A load of a word, but for the last one, of the row that such a cell names.
pub struct ReadWord;

impl Play<Drawop, Knowledge> for ReadWord {
    ghost use Rattle.wb_history.specs.Plays.{read_word};

    ghost then = { read_word };
}

/// A load of the last word of such a row.
pub struct ReadLast;

impl Play<Drawop, Knowledge> for ReadLast {
    ghost use Rattle.wb_history.specs.Plays.{read_last};

    ghost then = { read_last };
}

/// A store into a free row.
pub struct StoreWord;

impl Play<Drawop, Knowledge> for StoreWord {
    ghost use Rattle.wb_history.specs.Plays.{stored_word};

    ghost then = { stored_word };
}

/// The exchange of a free cell for a row.
pub struct Publish;

impl Play<Drawop, Knowledge> for Publish {
    ghost use Rattle.wb_history.specs.Plays.{published};

    ghost then = { published };
}

/// A load of a cell that only confirms what the pass knows, after a join.
pub struct Confirm;

impl Play<Drawop, Knowledge> for Confirm {
    ghost use Rattle.wb_history.specs.Plays.{confirmed};

    ghost then = { confirmed };
}

/// A number of rows. Each split picks it.
pub trait Portion {
    ghost use Rattle.std.specs.Prelude.{ℕ};

    ghost rows: { ℕ };
}

impl Portion for Brand {
    ghost rows = { 0 };
}

/// A new pass gets the last rows.
pub struct Cut<B> {
    portion: PhantomData<B>,
}

impl<B: Portion> Split<Knowledge> for Cut<B> {
    ghost use Rattle.wb_history.specs.Views.{left_part, right_part};

    ghost left = { left_part B.rows };

    ghost right = { right_part B.rows };
}

/// Two passes become one.
pub struct Unite;

impl Join<Knowledge> for Unite {
    ghost use Rattle.wb_history.specs.Views.{united, spent};

    ghost both = { united };

    ghost spent = { spent };
}
