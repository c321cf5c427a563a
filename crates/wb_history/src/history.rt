//! A history that passes share: opening one, claiming a place in it, and reading on.
ghost use Rattle.std.specs.Prelude.{◌≡◌, ◌≢◌, ◌+◌, ◌*◌, ◌<◌, ◌≤◌, ◌⊎◌, [], Err, IfOk, IsOk, MatchResult, length};
ghost use mathlib.Core.List.{IsPrefix};
ghost use Rattle.wb_names.specs.History.{HoldsName};
ghost use Rattle.wb_history.specs.Passes.{IsOpened, IsPassOf, IsSamePass, IsSound, IsCaughtUp, ReadsOn};
ghost use Rattle.wb_history.specs.Replies.{Claimed, NotClaimed, ClaimSteps, FaultSteps};
ghost use Rattle.wb_history.specs.declared.history.OpenFault.TheVariants as fault;

use crate::cells::CellTable;
use crate::claim::{Claim, ClaimFault};
use crate::cursor::Cursor;
use crate::pass::Pass;
use crate::ranges::Rows;
use crate::seen::Seen;
use std::alloc::{AllocError, Global};
use std::marker::Model;
use thiserror::Error;
use wb_names::Drawop;

/// The most cells of a history. One list of marks can then tell all that a history holds.
pub const MAX_CELLS: u32 = 65_535;

/// One growing history of drawops, in which no name stands twice. Threads share it by reference.
#[derive(Drop)]
pub struct History {
    pub(crate) cells: CellTable,
}

impl Model for History {
    ghost use Rattle.wb_history.specs.Passes.{HistoryValue};
    ghost use Rattle.wb_history.specs.Shown.{history_of};

    ghost Value = { HistoryValue };

    ghost view = { λ h. history_of h.cells };
}

/// Why a history was not opened, in the order of the checks.
#[derive(Clone, Copy, Debug, PartialEq, Eq, Error)]
pub enum OpenFault {
    /// The number of cells is not from 1 to 65,535.
    #[error("cells not from 1 to 65535")]
    Cells,
    /// An allocation failed.
    #[error("out of memory")]
    Memory,
}

impl OpenFault {
    ghost use Rattle.wb_history.specs.Faults.{open_code};

    /// The number of the fault, from 1.
    pub fn code(&self) -> u32
        ensures { result ≡ open_code self.now }
    {
        match self {
            OpenFault::Cells => 1,
            OpenFault::Memory => 2,
        }
    }
}

impl History {
    /// An empty history of `cells` cells, from 1 to 65,535, and as many rows; and the pass that
    /// owns all rows. There is room for as many drawops as there are cells.
    pub fn open(alloc: Global, cells: u32) -> Result<(History, Pass), OpenFault>
        ensures opened { IfOk result (λ t. IsOpened cells t.0 t.1) }
        ensures refused { (cells ≡ 0) ⊎ (MAX_CELLS < cells) → result ≡ Err fault.Cells }
        ensures admitted { 0 < cells → cells ≤ MAX_CELLS → result ≢ Err fault.Cells }
    {
        if cells == 0 || cells > MAX_CELLS {
            return Err(OpenFault::Cells);
        }
        let Ok(free) = Rows::first(alloc, cells) else {
            return Err(OpenFault::Memory);
        };
        let Ok((table, seat)) = CellTable::make(alloc, cells) else {
            return Err(OpenFault::Memory);
        };
        let cursor = Cursor {
            seat,
            seen: Seen::new(alloc),
            mine: Vec::new(alloc),
            free,
            steps: 0,
        };
        let pass = Pass {
            cursor,
            spares: Vec::new(alloc),
            cells,
        };
        Ok((History { cells: table }, pass))
    }

    /// Adds a drawop at the next place, unless one of the history has its name: then it tells
    /// where, and whether that is the same drawop. A name that the pass has seen is answered
    /// without a step and without memory. Otherwise the pass reads what came since; after a fault
    /// it may have seen more, and nothing of this call stands in the history.
    pub fn claim(&self, pass: &mut Pass, drawop: &Drawop) -> Result<Claim, ClaimFault>
        requires pass { IsPassOf self.now pass.old }
        ensures same { IsSamePass pass.old pass.new }
        ensures cells { pass.new.cells ≡ self.now.cells }
        ensures sound { IsSound pass.new }
        ensures grows { IsPrefix pass.old.seen pass.new.seen }
        ensures answer { MatchResult result (Claimed pass.old drawop.now pass.new)
            (NotClaimed pass.old drawop.now pass.new) }
        ensures known { HoldsName pass.old.seen drawop.now.name →
            IsOk result × (pass.new ≡ record pass.old { steps = 0 }) }
        ensures steps { pass.new.made ≡ pass.old.made + pass.new.steps }
        ensures few_steps { MatchResult result (ClaimSteps pass.old pass.new)
            (FaultSteps pass.old pass.new) }
    {
        pass.cursor.steps = 0;
        self.cells.claim_with(&mut pass.cursor, drawop)
    }

    /// Reads the history to its end, and returns the length of the list then seen. After a fault
    /// the pass may have seen more.
    pub fn refresh(&self, pass: &mut Pass) -> Result<u32, AllocError>
        requires pass { IsPassOf self.now pass.old }
        ensures reads { ReadsOn pass.old pass.new }
        ensures cells { pass.new.cells ≡ self.now.cells }
        ensures end { IfOk result (λ n. (n ≡ length pass.new.seen) × IsCaughtUp pass.old pass.new) }
    {
        pass.cursor.steps = 0;
        self.cells.catch_up(&mut pass.cursor)?;
        Ok(pass.cursor.seen.len() as u32)
    }
}
