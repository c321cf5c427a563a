//! The session message that a keeper sends.

ghost use Rattle.std.specs.Prelude.{◌≡◌, ◌≢◌, ◌≤◌, ◌⊎◌, ℕ, List, length, IfErr, IfOk, OnOk, OnErr};
ghost use Rattle.std.specs.Ordering.{nat_cmp};
ghost use Rattle.std.specs.List.Sorted.{IsStrictlySortedBy};
ghost use Rattle.std.specs.Map.{keys_of};
ghost use Rattle.wb_names.specs.declared.entries.TheConstants.{MAX_ENTRIES};
ghost use Rattle.wb_board.specs.Desks.{IsPassOf, IsCaughtUp, ReadsOn};
ghost use Rattle.wb_recovery.specs.declared.tuning.Tuning.{Tuning as Constants};
ghost use Rattle.wb_keeper.specs.Keeper.{KeeperCall, Report};
ghost use Rattle.wb_keeper.specs.Keeping.{StandsFor, Keeps};
ghost use Rattle.wb_keeper.specs.KeepFaults.{moment_fault, IsKeptBy};
ghost use Rattle.wb_keeper.specs.Sessions.{echoes_at, echoes_of, message_of};
ghost use Rattle.wb_keeper.specs.declared.keep_fault.KeepFault.TheVariants.{Memory};

use crate::keep_fault::KeepFault;
use crate::keeper::Keeper;
use std::alloc::{AllocError, Global};
use wb_board::{Board, Desk};
use wb_codec::Datagram;
use wb_names::{Echo, Echoes, PageId};

impl Keeper {
    /// The session message of this moment: the report of a page at the list that the desk then
    /// sees, and an echo to each member whose session messages are remembered. It reads the history
    /// to its end first. A refused call leaves the keeper as it was, and the desk too, except that
    /// it may have seen more if memory ran out. The moment is in microseconds.
    ///
    /// Refused with `BackInTime`, `Range` or `Memory`, in this order.
    pub fn session(
        &mut self,
        alloc: Global,
        board: &Board,
        desk: &mut Desk,
        now: u64,
        page: PageId,
    ) -> Result<Datagram, KeepFault>
        requires desk { IsPassOf board.now desk.old }
        ensures fault { IsKeptBy (moment_fault self.old.moment now) result }
        ensures desk { (desk.new ≡ desk.old) ⊎ ReadsOn desk.old desk.new }
        ensures untouched { IfErr result (λ fault. fault ≢ Memory → desk.new ≡ desk.old) }
        ensures end { OnOk result (ReadsOn desk.old desk.new × IsCaughtUp desk.old desk.new) }
        ensures value { IfOk result (λ message. (me : ℕ) (constants : Constants)
            (calls : List KeeperCall) → StandsFor me constants calls self.old →
            message ≡ message_of me calls now desk.new.seen page) }
        ensures ok { OnOk result (Keeps (Report now) self.old self.new) }
        ensures err { OnErr result (self.new ≡ self.old) }
    {
        self.check(now)?;
        let marks = board.report(alloc, desk, page)?;
        let echoes = self.echoes(alloc, now)?;
        self.moment = now;
        Ok(Datagram::Session {
            sender: self.me,
            sent: now,
            page,
            marks,
            echoes,
        })
    }

    /// An echo to each member whose session messages are remembered, ascending, as a session message
    /// of this moment has them. The moment is in microseconds.
    pub fn echoes(&self, alloc: Global, now: u64) -> Result<Echoes, AllocError>
        ensures ordered { IsStrictlySortedBy nat_cmp (keys_of self.now.heard) }
        ensures echoes { IfOk result (λ echoes. echoes ≡ echoes_at now self.now.heard) }
        ensures value { IfOk result (λ echoes. (me : ℕ) (constants : Constants)
            (calls : List KeeperCall) → StandsFor me constants calls self.now →
            echoes ≡ echoes_of me calls now) }
    {
        let heard = self.heard_echoes(alloc, now)?;
        match Echoes::new(heard) {
            Ok(echoes) => Ok(echoes),
            Err(_) => unreachable!(),
        }
    }

    /// The echoes at a moment, as a list.
    fn heard_echoes(&self, alloc: Global, now: u64) -> Result<Vec<Echo>, AllocError>
        ensures ordered { IsStrictlySortedBy nat_cmp (keys_of self.now.heard) }
        ensures few { length self.now.heard ≤ MAX_ENTRIES }
        ensures echoes { IfOk result (λ echoes. echoes.items ≡ echoes_at now self.now.heard) }
    {
        let heard = self.heard.iter().map(|(source, heard)| Echo {
            source: *source,
            sent: heard.sent,
            held: now.saturating_sub(heard.at),
        });
        heard.collect(alloc)
    }
}
