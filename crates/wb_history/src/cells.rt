//! The table of a history: its cells, and then its rows.
ghost use Rattle.wb_history.specs.CellCounts.{IsCellCount};
ghost use Rattle.wb_history.specs.Sizes.{row_stride};
ghost use Rattle.std.specs.Prelude.{◌≡◌, ◌+◌, ◌*◌, ◌<◌, ◌≤◌, IfOk};

use crate::knowledge::Knowledge;
use crate::rule::OneHistory;
use atomic_table::{Seat, Table};
use std::alloc::{AllocError, Global};
use wb_names::Drawop;

/// How many words a row has in the table. A record takes the first twelve of them: with sixteen,
/// two lines of a processor's cache, no thread stores into a line that holds a row of another.
pub(crate) const ROW_STRIDE: usize = 16;

/// A seat at the table of a history.
pub(crate) type HistorySeat = Seat<Drawop, Knowledge>;

/// Cells and rows that passes share. Word `p` is cell `p`: it holds 0, or a row number plus one.
#[derive(Drop)]
pub struct CellTable {
    pub(crate) table: Table<Drawop, Knowledge, u32, OneHistory, Global>,
    pub(crate) cells: u32,
    ghost keyed: { table.shared.key ≡ cells },
    ghost sized: { table.shared.table_id.words ≡ cells + cells * row_stride },
    ghost bounded: { IsCellCount cells },
}

impl CellTable {
    ghost use Rattle.wb_history.specs.Views.{whole_pass};
    ghost use Rattle.std.specs.Prelude.{[]};

    /// A table of free cells and rows that no cell names, with the seat that owns all rows.
    #[tactic(auto, using(crate::proofs::Opens::opens))]
    pub(crate) fn make(alloc: Global, cells: u32) -> Result<(CellTable, HistorySeat), AllocError>
        requires { IsCellCount cells }
        ensures { IfOk result (λ t. (t.0.cells ≡ cells) ×
            (t.1.table_id ≡ t.0.table.shared.table_id) × (t.1.me ≡ (whole_pass cells, []))) }
    {
        let words = Vec::from_elem(alloc, 0u64, cells as usize * (ROW_STRIDE + 1))?;
        let (table, seat) = Table::of_words(alloc, words.as_slice(), &cells)?;
        Ok((CellTable { table, cells }, seat))
    }
}
