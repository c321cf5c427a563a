//! A batch that others take at the board of a member, by however many threads.
ghost use Rattle.std.specs.Prelude.{◌≡◌, IfOk, IsPermutation, List};
ghost use Rattle.wb_names.specs.Values.{DrawopValue};
ghost use Rattle.wb_member.specs.Board.{OwnsAll, held_of};
ghost use Rattle.wb_member.specs.Holding.{IsOpenAt, board_after};
ghost use Rattle.wb_member.specs.Members.{names_of};
ghost use Rattle.wb_member.specs.Opened.{Opened, batched};

use crate::member::{Member, tell_arrived};
use std::alloc::{AllocError, Global};
use std::marker::Model;
use std::snapshot::Snapshot;
use wb_board::{Board, Desk};
use wb_keeper::Keeper;
use wb_names::{Drawop, Name};
use wb_random::RandomWords;

/// A member whose board is handed out, for a batch to be taken there. It is a member again once its
/// keeper knows of the batch, and no sooner.
#[derive(Drop)]
pub struct AwaitsBatch {
    /// For contracts alone: the desk of the board as it was.
    before: Snapshot<Desk>,
    keeper: Keeper,
    words: RandomWords,
}

impl Model for AwaitsBatch {
    ghost use Rattle.wb_member.specs.Board.{held_of};
    ghost use Rattle.wb_member.specs.Holding.{MemberValue};

    ghost Value = { MemberValue };

    ghost view = { λ a. record {
      board = held_of a.before.value;
      keeper = a.keeper;
      words = a.words;
    } };
}

impl Member {
    /// Hands out its board, with the desk that owns all rows of it.
    pub fn await_batch(self) -> (Board, Desk, AwaitsBatch)
        ensures owns { OwnsAll result.0 result.1 }
        ensures held { held_of result.1 ≡ self.board }
        ensures awaits { result.2 ≡ self }
    {
        let Member {
            board,
            desk,
            keeper,
            words,
        } = self;
        let before = Snapshot::of(&desk);
        let awaits = AwaitsBatch {
            before,
            keeper,
            words,
        };
        (board, desk, awaits)
    }
}

impl AwaitsBatch {
    /// Takes the board back, which took this batch in some order, and tells the keeper what
    /// arrived, in the order of the batch. If an allocation fails, the member is gone.
    pub fn take_back(
        self,
        alloc: Global,
        board: Board,
        desk: Desk,
        batch: &[Drawop],
    ) -> Result<Member, AllocError>
        requires owns { OwnsAll board desk }
        requires taken { (order : List DrawopValue) × IsPermutation batch.now order ×
            (held_of desk ≡ board_after self.board order) }
        ensures { IfOk result (λ member. (host : Opened) (order : List DrawopValue) →
            IsOpenAt self host → held_of desk ≡ board_after self.board order →
            IsOpenAt member (batched batch.now order host)) }
    {
        let AwaitsBatch {
            before: _before,
            mut keeper,
            words,
        } = self;
        let names = names_of(alloc, batch)?;
        tell_arrived(&mut keeper, &desk, &names);
        Ok(Member {
            board,
            desk,
            keeper,
            words,
        })
    }
}

/// The names of drawops, in their order.
fn names_of(alloc: Global, drawops: &[Drawop]) -> Result<Vec<Name>, AllocError>
    ensures { IfOk result (λ names. names.items ≡ names_of drawops.now) }
{
    drawops.iter().map(|drawop| drawop.name()).collect(alloc)
}
