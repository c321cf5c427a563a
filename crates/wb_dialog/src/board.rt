//! The board that a host opened.
ghost use Rattle.std.specs.Prelude.{◌≡◌, IfOk, true};
ghost use Rattle.wb_board.specs.Counts.{IsCellCount};
ghost use Rattle.wb_recovery.specs.Timing.{are_constants};
ghost use Rattle.wb_member.specs.Holding.{IsOpenAt};
ghost use Rattle.wb_member.specs.Opened.{opened_with};

use std::alloc::{AllocError, Global};
use std::marker::Model;
use wb_member::Member;
use wb_recovery::Tuning;

/// What the line of a board says, but for its workers.
#[derive(Drop)]
pub(crate) struct Board {
    member: u32,
    cells: u32,
    seed: u64,
}

impl Model for Board {
    ghost use Rattle.wb_board.specs.Counts.{IsCellCount};
    ghost use Rattle.wb_dialog.specs.Boards.{BoardValue};

    ghost Value = { BoardValue };

    ghost view = { λ b. record { member = b.member; cells = b.cells; seed = b.seed } };

    ghost invariant = { λ b. IsCellCount b.cells };
}

impl Board {
    /// A board of our number, its cells, and the seed of the member's random words.
    pub fn new(member: u32, cells: u32, seed: u64) -> Self
        requires { IsCellCount cells }
        ensures { result ≡ record { member = member; cells = cells; seed = seed } }
    {
        Board {
            member,
            cells,
            seed,
        }
    }

    /// Its cells.
    pub fn cells(&self) -> u32
        ensures { result ≡ self.now.cells }
    {
        self.cells
    }

    /// The seed of the member's random words.
    pub fn seed(&self) -> u64
        ensures { result ≡ self.now.seed }
    {
        self.seed
    }

    /// Opens it, empty.
    pub fn open(&self, alloc: Global, tuning: Tuning) -> Result<Member, AllocError>
        requires { are_constants tuning ≡ true }
        ensures { IfOk result (λ m.
            IsOpenAt m (opened_with tuning self.now.member self.now.cells self.now.seed)) }
    {
        Member::open(alloc, self.member, self.cells, self.seed, tuning)
    }
}
