//! A board that desks share: opening one, accepting a drawop, and reading on.
ghost use Rattle.std.specs.Prelude.{◌≡◌, ◌≢◌, ◌+◌, ◌*◌, ◌<◌, ◌≤◌, ◌⊎◌, [], Err, IfOk, IfErr, IsOk, OnOk, OnErr, MatchResult, length};
ghost use mathlib.Core.List.{IsPrefix};
ghost use Rattle.wb_names.specs.History.{HoldsName};
ghost use Rattle.wb_history.specs.Lists.{longer};
ghost use Rattle.wb_history.specs.Passes.{IsOpened, IsPassOf, IsSamePass, IsSound, HearsMore, IsCaughtUp, ReadsOn};
ghost use Rattle.wb_history.specs.Sharing.{IsSplit, IsSplitFault, IsJoined};
ghost use Rattle.wb_history.specs.declared.history.TheConstants.{MAX_CELLS};
ghost use Rattle.wb_history.specs.declared.history.OpenFault.TheVariants as opening;
ghost use Rattle.wb_history.specs.declared.parts.SplitFault.TheVariants as splitting;
ghost use Rattle.wb_board.specs.Replies.{Accepted, NotAccepted, AcceptSteps, RefusalSteps, point_of};
ghost use Rattle.wb_board.specs.Board.{IsAnswer, Accept, Replied};

use crate::desk::Desk;
use crate::reply::{BoardFault, Reply};
use std::alloc::{AllocError, Global};
use std::marker::Model;
use wb_history::{Claim, ClaimFault, History, JoinFault, OpenFault, SplitFault};
use wb_names::Drawop;

/// The most workers that take the drawops of a board at a time, each with a desk of its own.
pub const MAX_WORKERS: u32 = 8;

/// One growing history of drawops, in which no name stands twice. Threads share it by reference.
#[derive(Drop)]
pub struct Board {
    history: History,
}

impl Model for Board {
    ghost use Rattle.wb_history.specs.Passes.{HistoryValue};

    ghost Value = { HistoryValue };

    ghost view = { λ b. b.history };
}

impl Board {
    /// An empty board of `cells` cells, from 1 to 65,535, and as many rows; and the desk that owns
    /// all rows. There is room for as many drawops as there are cells.
    ///
    /// Refused with `Cells`, exactly if the number is not from 1 to 65,535, or `Memory`.
    pub fn open(alloc: Global, cells: u32) -> Result<(Board, Desk), OpenFault>
        ensures opened { IfOk result (λ t. IsOpened cells t.0 t.1) }
        ensures refused { (cells ≡ 0) ⊎ (MAX_CELLS < cells) → result ≡ Err opening.Cells }
        ensures admitted { 0 < cells → cells ≤ MAX_CELLS → result ≢ Err opening.Cells }
    {
        let (history, pass) = History::open(alloc, cells)?;
        Ok((Board { history }, Desk::new(alloc, pass)))
    }

    /// A new desk, which has seen the same and gets `rows` of the free rows. With no rows it can
    /// tell another thread what was seen. A refused call changes nothing.
    ///
    /// Refused with `TooMany` and how many rows are free, exactly if it has fewer, or `Memory`.
    pub fn split(&self, alloc: Global, desk: &mut Desk, rows: u32) -> Result<Desk, SplitFault>
        requires desk { IsPassOf self.now desk.old }
        ensures same { IsSamePass desk.old desk.new }
        ensures sound { IsSound desk.new × IfOk result IsSound }
        ensures parts { MatchResult result (IsSplit desk.old rows desk.new)
            (λ e. (desk.new ≡ desk.old) × IsSplitFault desk.old rows e) }
        ensures too_many { desk.old.free < rows → result ≡ Err (splitting.TooMany desk.old.free) }
    {
        let pass = self.history.split(alloc, &mut desk.pass, rows)?;
        Ok(Desk::new(alloc, pass))
    }

    /// Takes in another desk of the board: the desk has then seen the longer list, and owns the
    /// rows and places of both.
    ///
    /// Refused with `Memory` alone: both are then as before, and the other comes back.
    pub fn join(&self, desk: &mut Desk, other: Desk) -> Result<(), (JoinFault, Desk)>
        requires desks { IsPassOf self.now desk.old × IsPassOf self.now other }
        ensures same { IsSamePass desk.old desk.new × (desk.new.steps ≡ desk.old.steps) }
        ensures sound { IsSound desk.new × IfErr result (λ e. IsSound e.1) }
        ensures joined { MatchResult result (λ _. IsJoined desk.old other desk.new)
            (λ e. (desk.new ≡ desk.old) × (e.1 ≡ other)) }
    {
        let Desk { pass, layers, held } = other;
        if let Err((fault, pass)) = self.history.join(&mut desk.pass, pass) {
            return Err((fault, Desk { pass, layers, held }));
        }
        Ok(())
    }

    /// Both desks have then seen the same list, the longer of their two. Only memory can be
    /// refused, and both are then as before.
    pub fn meet(&self, first: &mut Desk, second: &mut Desk) -> Result<(), AllocError>
        requires desks { IsPassOf self.now first.old × IsPassOf self.now second.old }
        ensures sound { IsSound first.new × IsSound second.new }
        ensures first { HearsMore first.old first.new }
        ensures second { HearsMore second.old second.new }
        ensures met { OnOk result ((first.new.seen ≡ second.new.seen) ×
            (second.new.seen ≡ longer second.old.seen first.old.seen)) }
        ensures refused { OnErr result ((first.new ≡ first.old) × (second.new ≡ second.old)) }
    {
        self.history.meet(&mut first.pass, &mut second.pass)
    }

    /// Accepts a drawop: it becomes the next of the history, unless one there has its name. Then
    /// the reply tells where, and whether that is the same drawop. A name that the desk has seen is
    /// answered without a step and without memory.
    ///
    /// Refused with `NoRow`, if no row is free and the name stands nowhere, or `Memory`. The desk
    /// may then have seen more, and nothing of this call stands in the history.
    pub fn accept(&self, desk: &mut Desk, drawop: &Drawop) -> Result<Reply, BoardFault>
        requires desk { IsPassOf self.now desk.old }
        ensures same { IsSamePass desk.old desk.new }
        ensures cells { desk.new.cells ≡ self.now.cells }
        ensures sound { IsSound desk.new }
        ensures grows { IsPrefix desk.old.seen desk.new.seen }
        ensures reply { IfOk result
            (λ r. IsAnswer (point_of desk.new r) (Accept drawop.now) (Replied r)) }
        ensures answer { MatchResult result (Accepted desk.old drawop.now desk.new)
            (NotAccepted desk.old drawop.now desk.new) }
        ensures known { HoldsName desk.old.seen drawop.now.name →
            IsOk result × (desk.new ≡ record desk.old { steps = 0 }) }
        ensures steps { desk.new.made ≡ desk.old.made + desk.new.steps }
        ensures few_steps { MatchResult result (AcceptSteps desk.old desk.new)
            (RefusalSteps desk.old desk.new) }
    {
        match self.history.claim(&mut desk.pass, drawop) {
            Ok(claim) => match claim {
                Claim::Added(place) => Ok(Reply::New(place)),
                Claim::Present(place) => Ok(Reply::Again(place)),
                Claim::Clash(place) => Ok(Reply::Clash(place)),
            },
            Err(fault) => match fault {
                ClaimFault::NoRow => Err(BoardFault::NoRow),
                ClaimFault::Memory => Err(BoardFault::Memory),
            },
        }
    }

    /// Reads the history to its end. After a fault the desk may have seen more.
    pub fn refresh(&self, desk: &mut Desk) -> Result<(), AllocError>
        requires desk { IsPassOf self.now desk.old }
        ensures reads { ReadsOn desk.old desk.new }
        ensures cells { desk.new.cells ≡ self.now.cells }
        ensures end { OnOk result (IsCaughtUp desk.old desk.new) }
    {
        self.history.refresh(&mut desk.pass)?;
        Ok(())
    }
}
