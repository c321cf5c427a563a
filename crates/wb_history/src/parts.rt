//! How a pass is split, how two are joined, and how two tell each other what they have seen.
ghost use Rattle.std.specs.Prelude.{◌≡◌, ◌+◌, ◌<◌, ◌≤◌, [], ◌++◌, Err, IfOk, IfErr, OnOk, OnErr, MatchResult, length, vec_len, vec_capacity};
ghost use mathlib.Core.List.{IsPrefix};
ghost use Rattle.wb_history.specs.Cursors.{MatchesSeat, United};
ghost use Rattle.wb_history.specs.Lists.{longer};
ghost use Rattle.wb_names.specs.History.{IsHistory};
ghost use Rattle.wb_history.specs.Seats.{SitsAt};
ghost use Rattle.wb_history.specs.Sharing.{IsSplit, IsSplitFault, IsJoined};
ghost use Rattle.wb_history.specs.Passes.{IsPassOf, IsSamePass, IsSound, HearsMore, KeepsRows};
ghost use Rattle.wb_history.specs.declared.parts.SplitFault.TheVariants as fault;

use crate::cells::{CellTable, HistorySeat};
use crate::cursor::Cursor;
use crate::history::History;
use crate::pass::Pass;
use crate::seen::Seen;
use crate::spares::{another, keep};
use std::alloc::{AllocError, Global};
use std::marker::Brand;
use std::mem::replace;
use thiserror::Error;
use wb_names::Drawop;

/// Why a pass was not split, in the order of the checks.
#[derive(Clone, Copy, Debug, PartialEq, Eq, Error)]
pub enum SplitFault {
    /// Fewer rows are free than were asked for: this many.
    #[error("only {0} free rows")]
    TooMany(u32),
    /// An allocation failed.
    #[error("out of memory")]
    Memory,
}

impl SplitFault {
    ghost use Rattle.wb_history.specs.Faults.{split_code};

    /// The number of the fault, from 1.
    pub fn code(&self) -> u32
        ensures { result ≡ split_code self.now }
    {
        match self {
            SplitFault::TooMany(_) => 1,
            SplitFault::Memory => 2,
        }
    }
}

/// Why two passes were not joined.
#[derive(Clone, Copy, Debug, PartialEq, Eq, Error)]
pub enum JoinFault {
    /// An allocation failed.
    #[error("out of memory")]
    Memory,
}

impl JoinFault {
    ghost use Rattle.wb_history.specs.Faults.{join_code};

    /// The number of the fault, from 1.
    pub fn code(&self) -> u32
        ensures { result ≡ join_code self.now }
    {
        match self {
            JoinFault::Memory => 1,
        }
    }
}

impl History {
    /// A new pass, which has seen the same and gets `rows` of the free rows. With no rows it can
    /// tell another thread what was seen. A refused call changes nothing.
    pub fn split(&self, alloc: Global, pass: &mut Pass, rows: u32) -> Result<Pass, SplitFault>
        requires pass { IsPassOf self.now pass.old }
        ensures same { IsSamePass pass.old pass.new }
        ensures sound { IsSound pass.new × IfOk result IsSound }
        ensures parts { MatchResult result (IsSplit pass.old rows pass.new)
            (λ e. (pass.new ≡ pass.old) × IsSplitFault pass.old rows e) }
        ensures too_many { pass.old.free < rows → result ≡ Err (fault.TooMany pass.old.free) }
    {
        let have = pass.cursor.free.len();
        if have < rows {
            return Err(SplitFault::TooMany(have));
        }
        let Ok(seen) = another(&mut pass.spares, &pass.cursor.seen) else {
            return Err(SplitFault::Memory);
        };
        let Ok(free) = pass.cursor.free.split_off(rows) else {
            return Err(SplitFault::Memory);
        };
        let seat = self
            .cells
            .cut::<Brand>(&mut pass.cursor.seat, rows as usize);
        let cursor = Cursor {
            seat,
            seen,
            mine: Vec::new(alloc),
            free,
            steps: 0,
        };
        Ok(Pass {
            cursor,
            spares: Vec::new(alloc),
            cells: pass.cells,
        })
    }
}

/// Puts all numbers at the end, for which there is room.
fn append(to: &mut Vec<u32>, from: &[u32])
    requires { vec_len to.old + length from.now ≤ vec_capacity to.old }
    ensures { to.new.items ≡ to.old.items ++ from.now }
{
    let Ok(()) = to.extend_from_slice(from) else {
        unreachable!()
    };
}

impl CellTable {
    /// Makes two cursors one. The load of the first cell tells what the join of the seats does not:
    /// that the longer list begins with the shorter, and that no place was of both. The shorter
    /// comes back.
    fn take_in(&self, cursor: &mut Cursor, other: Cursor) -> Seen
        requires cursor { SitsAt self.now cursor.old.seat × MatchesSeat cursor.old }
        requires other { SitsAt self.now other.seat × MatchesSeat other }
        requires room { (vec_len cursor.old.mine + vec_len other.mine ≤
            vec_capacity cursor.old.mine) × (other.free.parts ≤ cursor.old.free.room) }
        ensures united { United cursor.old other.seat.me.0 cursor.new }
        ensures front { IsPrefix result.items cursor.new.seen.items }
    {
        let Cursor {
            seat,
            seen,
            mine,
            free,
            steps: _,
        } = other;
        self.unite(&mut cursor.seat, seat);
        self.confirm(&mut cursor.seat);
        append(&mut cursor.mine, mine.as_slice());
        cursor.free.append(free);
        if cursor.seen.len() < seen.len() {
            return replace(&mut cursor.seen, seen);
        }
        seen
    }

    /// Takes in a seat that owns nothing and has seen this list, which is no shorter. The cursor's
    /// own list gets what the other has more; there is room for it.
    fn hear(&self, cursor: &mut Cursor, seat: HistorySeat, list: &[Drawop])
        requires cursor { SitsAt self.now cursor.old.seat × MatchesSeat cursor.old }
        requires seat { SitsAt self.now seat × (seat.me.1 ≡ []) × (seat.me.0.mine ≡ []) ×
            (seat.me.0.free ≡ []) }
        requires list { (seat.me.0.seen ≡ list.now) × IsHistory list.now }
        requires room { (length cursor.old.seen.items ≤ length list.now) ×
            (length list.now ≤ length cursor.old.seen.items + cursor.old.seen.room) }
        ensures { United cursor.old seat.me.0 cursor.new }
    {
        self.unite(&mut cursor.seat, seat);
        self.confirm(&mut cursor.seat);
        cursor.seen.extend_to(list);
    }
}

impl History {
    /// Takes in another pass of the history: the pass has then seen the longer list, and owns the
    /// rows and places of both. If it is refused, both are as before, and the other comes back.
    pub fn join(&self, pass: &mut Pass, other: Pass) -> Result<(), (JoinFault, Pass)>
        requires passes { IsPassOf self.now pass.old × IsPassOf self.now other }
        ensures same { IsSamePass pass.old pass.new × (pass.new.steps ≡ pass.old.steps) }
        ensures sound { IsSound pass.new × IfErr result (λ e. IsSound e.1) }
        ensures joined { MatchResult result (λ _. IsJoined pass.old other pass.new)
            (λ e. (pass.new ≡ pass.old) × (e.1 ≡ other)) }
    {
        if pass.cursor.mine.reserve(other.cursor.mine.len()).is_err() {
            return Err((JoinFault::Memory, other));
        }
        if pass.cursor.free.reserve(&other.cursor.free).is_err() {
            return Err((JoinFault::Memory, other));
        }
        let Pass {
            cursor,
            spares: _spares,
            cells: _,
        } = other;
        let shorter = self.cells.take_in(&mut pass.cursor, cursor);
        keep(&mut pass.spares, shorter, pass.cursor.seen.len());
        Ok(())
    }

    /// Lets the hearer, whose list is no longer, know what the teller has seen. A refused call
    /// changes nothing.
    fn tell(&self, teller: &mut Pass, hearer: &mut Pass) -> Result<(), AllocError>
        requires passes { IsPassOf self.now teller.old × IsPassOf self.now hearer.old }
        requires longer { length hearer.old.seen ≤ length teller.old.seen }
        ensures same { IsSamePass teller.old teller.new × IsSamePass hearer.old hearer.new }
        ensures sound { IsSound teller.new × OnOk result (IsSound hearer.new) }
        ensures teller { KeepsRows teller.old teller.new × (teller.new.seen ≡ teller.old.seen) ×
            (teller.new.steps ≡ teller.old.steps) }
        ensures hearer { OnOk result (KeepsRows hearer.old hearer.new ×
            (hearer.new.seen ≡ longer hearer.old.seen teller.old.seen) ×
            IsPrefix hearer.old.seen hearer.new.seen × IsPrefix teller.old.seen hearer.new.seen ×
            (hearer.new.steps ≡ hearer.old.steps)) }
        ensures refused { OnErr result ((teller.new ≡ teller.old) × (hearer.new ≡ hearer.old)) }
    {
        let more = teller.cursor.seen.len() - hearer.cursor.seen.len();
        hearer.cursor.seen.reserve(more)?;
        let message = self.cells.cut::<Brand>(&mut teller.cursor.seat, 0);
        self.cells
            .hear(&mut hearer.cursor, message, teller.cursor.seen.as_slice());
        Ok(())
    }

    /// Both passes have then seen the same list, the longer of their two: the shorter grows where
    /// it lies, by its own allocator. A refused call changes nothing.
    #[tactic(auto, using(crate::proofs::Shows::sound_pass, crate::proofs::Shows::sound_heard))]
    pub fn meet(&self, first: &mut Pass, second: &mut Pass) -> Result<(), AllocError>
        requires passes { IsPassOf self.now first.old × IsPassOf self.now second.old }
        ensures sound { IsSound first.new × IsSound second.new }
        ensures first { HearsMore first.old first.new }
        ensures second { HearsMore second.old second.new }
        ensures met { OnOk result ((first.new.seen ≡ second.new.seen) ×
            (second.new.seen ≡ longer second.old.seen first.old.seen)) }
        ensures refused { OnErr result ((first.new ≡ first.old) × (second.new ≡ second.old)) }
    {
        if first.cursor.seen.len() < second.cursor.seen.len() {
            self.tell(second, first)
        } else {
            self.tell(first, second)
        }
    }
}
