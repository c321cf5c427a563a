//! How a judged member begins.
ghost use Rattle.std.specs.Prelude.{◌≡◌, IfOk, true};
ghost use Rattle.wb_recovery.specs.Timing.{are_constants};
ghost use Rattle.wb_judging.specs.Performing.{IsJudgedAt};
ghost use Rattle.wb_dialog.specs.Judged.{begun, opening_of};
ghost use Rattle.wb_dialog.specs.JudgedLines.{IsJudgeLine};

use crate::board::Board;
use crate::judged_line::JudgeLine;
use std::alloc::{AllocError, Global};
use wb_judging::{JudgedMember, Opening};
use wb_recovery::Tuning;

/// How a member begins to be judged.
fn opening_of(line: JudgeLine, board: &Board) -> Opening
    ensures { result ≡ opening_of line board.now }
{
    Opening {
        cells: board.cells(),
        wall: line.wall,
        here: line.here,
        strangers: line.strangers,
        rate: u64::from(line.rate),
        listen: u64::from(line.listen),
        seed: board.seed(),
    }
}

/// A judged member of an empty board, at the moment of a line that begins to judge.
pub(crate) fn begin(
    alloc: Global,
    tuning: Tuning,
    line: JudgeLine,
    board: &Board,
) -> Result<JudgedMember, AllocError>
    requires constants { are_constants tuning ≡ true }
    requires line { IsJudgeLine line }
    ensures { IfOk result (λ m. IsJudgedAt m (begun tuning line board.now)) }
{
    let mut member = board.open(alloc, tuning)?;
    // No moment is before its first, so only memory can fail.
    match member.tick(alloc, line.now) {
        Ok(_) => JudgedMember::begin(alloc, member, &opening_of(line, board)),
        Err(_) => Err(AllocError),
    }
}
