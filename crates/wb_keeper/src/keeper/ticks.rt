//! Time goes on: what a keeper then asks for and answers.

ghost use Rattle.std.specs.Prelude.{◌≡◌, ◌≢◌, ◌≤◌, ◌⊎◌, ◌∷◌, ℕ, List, length, IfErr, IfOk, OnOk, OnErr};
ghost use Rattle.wb_board.specs.Desks.{IsPassOf, IsSound, IsCaughtUp, ReadsOn};
ghost use Rattle.wb_recovery.specs.Events.{due_asks, actions_of};
ghost use Rattle.wb_recovery.specs.Stopping.{receipts};
ghost use Rattle.wb_recovery.specs.Values.{timers_in, names_in};
ghost use Rattle.wb_recovery.specs.declared.tuning.Tuning.{Tuning as Constants};
ghost use Rattle.wb_keeper.specs.Keeper.{KeeperCall, GoOn, received_of, delay_to, events_of};
ghost use Rattle.wb_keeper.specs.Keeping.{StandsFor, Keeps, delay_at};
ghost use Rattle.wb_keeper.specs.KeepFaults.{moment_fault, IsKeptBy};
ghost use Rattle.wb_keeper.specs.Ticks.{sent_for, sends_for, stopped_in};
ghost use Rattle.wb_keeper.specs.declared.keep_fault.KeepFault.TheVariants.{Memory};

use crate::keep_fault::KeepFault;
use crate::keeper::Keeper;
use crate::keeper::arrivals::is_held;
use std::alloc::{AllocError, Global};
use wb_board::{Board, Desk};
use wb_codec::Datagram;
use wb_names::Name;
use wb_recovery::{Action, Received};

impl Keeper {
    /// Time goes on to a moment: answers what is to be sent, a request for each name whose request
    /// timer fires, ascending, and then the drawop of each name whose answer timer fires,
    /// ascending. It reads the history to its end first, and the request timers of what is held
    /// then are stopped, as by `arrived`, before any fires. The first word goes to the smallest
    /// name that is asked for. A refused call leaves the keeper as it was, and the desk too, except
    /// that it may have seen more if memory ran out. The moment is in microseconds. There are at
    /// least as many words as `due_count` says at this moment.
    ///
    /// Refused with `BackInTime`, `Range` or `Memory`, in this order.
    pub fn tick(
        &mut self,
        alloc: Global,
        board: &Board,
        desk: &mut Desk,
        now: u64,
        words: &[u64],
    ) -> Result<Vec<Datagram>, KeepFault>
        requires desk { IsPassOf board.now desk.old }
        requires words { length (due_asks (names_in self.old.recovery)
            (timers_in self.old.recovery) now) ≤ length words.now }
        ensures fault { IsKeptBy (moment_fault self.old.moment now) result }
        ensures desk { (desk.new ≡ desk.old) ⊎ ReadsOn desk.old desk.new }
        ensures untouched { IfErr result (λ fault. fault ≢ Memory → desk.new ≡ desk.old) }
        ensures end { OnOk result (ReadsOn desk.old desk.new × IsCaughtUp desk.old desk.new) }
        ensures sent { IfOk result (λ sent. (me : ℕ) (constants : Constants)
            (calls : List KeeperCall) → StandsFor me constants calls self.old → sent.items ≡
            sends_for me desk.new.seen (actions_of constants (receipts now (events_of me calls)
            (received_of (delay_to me calls) (stopped_in desk.new.seen self.old.recovery))) now)) }
        ensures ok { OnOk result (Keeps
            (GoOn now words.now (stopped_in desk.new.seen self.old.recovery)) self.old self.new) }
        ensures err { OnErr result (self.new ≡ self.old) }
    {
        self.check(now)?;
        board.refresh(desk)?;
        let received = self.stopped(alloc, desk)?;
        let Ok(plan) = self.recovery.plan(alloc, &received, now, words) else {
            return Err(KeepFault::Memory);
        };
        let sent = self.sends(alloc, desk, plan.actions())?;
        self.recovery.commit(plan, &received);
        self.moment = now;
        Ok(sent)
    }

    /// The names with a request timer that the desk holds, with the delays to their sources.
    fn stopped(&self, alloc: Global, desk: &Desk) -> Result<Vec<Received>, AllocError>
        ensures { IfOk result (λ received. received.items ≡
            received_of (delay_at self.now.delays) (stopped_in desk.now.seen self.now.recovery)) }
    {
        let held = self
            .recovery
            .asked_where(alloc, |name| is_held(desk, name))?;
        self.received_from(alloc, &held)
    }

    /// The names with the delays to their sources.
    fn received_from(&self, alloc: Global, names: &[Name]) -> Result<Vec<Received>, AllocError>
        ensures { IfOk result
            (λ received. received.items ≡ received_of (delay_at self.now.delays) names.now) }
    {
        let received = names.iter().map(|name| Received {
            name: *name,
            delay: self.delay(name.source()),
        });
        received.collect(alloc)
    }

    /// What is sent for these actions.
    fn sends(
        &self,
        alloc: Global,
        desk: &Desk,
        actions: &[Action],
    ) -> Result<Vec<Datagram>, AllocError>
        requires { IsSound desk.now }
        ensures { IfOk result
            (λ sent. sent.items ≡ sends_for self.now.me desk.now.seen actions.now) }
    {
        let sent = actions
            .iter()
            .filter_map(|action| self.sent_for(desk, action));
        sent.collect(alloc)
    }

    /// What is sent for an action.
    fn sent_for(&self, desk: &Desk, action: &Action) -> Option<Datagram>
        requires { IsSound desk.now }
        ensures { result ≡ sent_for self.now.me desk.now.seen action.now }
    {
        match action {
            Action::Ask(name) => Some(Datagram::Request {
                asker: self.me,
                name: *name,
            }),
            Action::Answer(name) => match desk.find(name) {
                Some(drawop) => Some(Datagram::Draw(*drawop)),
                None => None,
            },
        }
    }
}
