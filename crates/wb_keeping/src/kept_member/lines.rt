//! The lines that a policy has its host perform, one by one.
ghost use Rattle.std.specs.Prelude.{◌≡◌, ◌≤◌, ◌<◌, ◌^◌, ◌++◌, ◌∷◌, [], ℕ, false, IfOk, OnErr, OnOk, IfSome, map};
ghost use Rattle.wb_names.specs.Moments.{IsMoment};
ghost use Rattle.wb_recovery.specs.Delays.{IsDelay};
ghost use Rattle.wb_codec.specs.declared.datagram.Datagram.TheVariants.{Draw};
ghost use Rattle.wb_keeper.specs.Hearing.{asks_for_pages};
ghost use Rattle.wb_member.specs.Holding.{outcome_in};
ghost use Rattle.wb_member.specs.Opened.{becomes};
ghost use Rattle.wb_member.specs.declared.calls.Call.TheVariants.{Tick, Hear, SetDelay, Ask, Stop};
ghost use Rattle.wb_keeping.specs.Kept.{Calls, Says, performs, stops_for};
ghost use Rattle.wb_keeping.specs.Performing.{Does, DoesQuietly, IsKeptAt, Keeping, LeavesSome};
ghost use Rattle.wb_keeping.specs.Steps.{back_lines, lends_for, performs_all, set_lines};

use crate::kept_member::KeptMember;
use std::alloc::{AllocError, Global};
use wb_board::Reply;
use wb_codec::Datagram;
use wb_keeper::KeepFault;
use wb_names::{Drawop, Name};
use wb_recovery::UNKNOWN_DELAY;

impl KeptMember {
    /// Time goes on to a moment that is not before the present one, so that only a failed
    /// allocation refuses it. Answers what is to be sent.
    pub(super) fn go_on(&mut self, alloc: Global, now: u64) -> Result<Vec<Datagram>, AllocError>
        requires { IsMoment now }
        ensures does { IfOk result
            (λ sent. Does (performs (Calls (Tick now))) self.old self.new [] sent.items) }
        ensures err { OnErr result (self.new ≡ self.old) }
    {
        match self.member.tick(alloc, now) {
            Ok(sent) => Ok(sent),
            Err(_fault) => Err(AllocError),
        }
    }

    /// It hears a datagram that is not a question for pages, so that nothing is sent at once. If
    /// its marks would be too many, it changes nothing. It is heard at the present moment, so that
    /// only a failed allocation refuses it.
    pub(super) fn hear(&mut self, alloc: Global, datagram: &Datagram) -> Result<(), AllocError>
        requires { (me : ℕ) → asks_for_pages me datagram.now ≡ false }
        ensures does { OnOk result (DoesQuietly (performs (Calls (Hear datagram.now))) self.old self.new) }
        ensures err { OnErr result (self.new ≡ self.old) }
    {
        match self.member.hear(alloc, datagram) {
            Ok(_nothing) => Ok(()),
            Err(KeepFault::TooMany) => Ok(()),
            Err(_fault) => Err(AllocError),
        }
    }

    /// It begins to ask for a name.
    pub(super) fn ask(&mut self, alloc: Global, name: &Name) -> Result<(), AllocError>
        ensures does { OnOk result (DoesQuietly (performs (Calls (Ask name.now))) self.old self.new) }
        ensures err { OnErr result (self.new ≡ self.old) }
    {
        self.member.ask(alloc, name)?;
        Ok(())
    }

    /// It gives up asking for a name.
    pub(super) fn stop(&mut self, name: &Name)
        ensures { DoesQuietly (performs (Calls (Stop name.now))) self.old self.new }
    {
        self.member.stop(name);
    }

    /// It gives up asking for these names.
    pub(super) fn stop_all(&mut self, names: &[Name])
        ensures { DoesQuietly (performs_all (stops_for names.now)) self.old self.new }
    {
        for name in names {
            self.stop(name);
        }
    }

    /// The delay to a source is set, below 2^24 microseconds.
    pub(super) fn set_delay(&mut self, source: u32, micros: u64) -> Result<(), AllocError>
        requires { IsDelay micros }
        ensures does { OnOk result
            (DoesQuietly (performs (Calls (SetDelay source micros))) self.old self.new) }
        ensures err { OnErr result (self.new ≡ self.old) }
    {
        match self.member.set_delay(source, micros) {
            Ok(()) => Ok(()),
            Err(_fault) => Err(AllocError),
        }
    }

    /// A delay is lent to a source, if there is one to lend.
    pub(super) fn lend(&mut self, source: u32, lent: Option<u64>) -> Result<(), AllocError>
        requires { IfSome lent IsDelay }
        ensures does { OnOk result
            (DoesQuietly (performs_all (set_lines source lent)) self.old self.new) }
        ensures err { OnErr result (self.new ≡ self.old) }
    {
        match lent {
            Some(micros) => {
                self.set_delay(source, micros)?;
                Ok(())
            }
            None => Ok(()),
        }
    }

    /// What was lent is taken back: the delay to the source is not known again.
    pub(super) fn take_back(&mut self, source: u32, lent: Option<u64>) -> Result<(), AllocError>
        ensures does { OnOk result
            (DoesQuietly (performs_all (back_lines source lent)) self.old self.new) }
        ensures err { OnErr result (self.new ≡ self.old) }
    {
        match lent {
            Some(_micros) => {
                self.set_delay(source, UNKNOWN_DELAY)?;
                Ok(())
            }
            None => Ok(()),
        }
    }

    /// It begins to ask for a name, while this delay is lent to its source, if there is one.
    pub(super) fn ask_by(
        &mut self,
        alloc: Global,
        name: &Name,
        lent: Option<u64>,
    ) -> Result<(), AllocError>
        requires { IfSome lent IsDelay }
        ensures does { OnOk result
            (DoesQuietly (lends_for name.now.source lent (Calls (Ask name.now))) self.old self.new) }
        ensures left { OnErr result
            (LeavesSome (lends_for name.now.source lent (Calls (Ask name.now))) self.old self.new) }
    {
        let source = name.source();
        self.lend(source, lent)?;
        self.ask(alloc, name)?;
        self.take_back(source, lent)?;
        Ok(())
    }

    /// It hears a datagram that is not a question for pages, while this delay is lent to a
    /// source, if there is one.
    pub(super) fn hear_by(
        &mut self,
        alloc: Global,
        datagram: &Datagram,
        source: u32,
        lent: Option<u64>,
    ) -> Result<(), AllocError>
        requires request { (me : ℕ) → asks_for_pages me datagram.now ≡ false }
        requires lent { IfSome lent IsDelay }
        ensures does { OnOk result
            (DoesQuietly (lends_for source lent (Calls (Hear datagram.now))) self.old self.new) }
        ensures left { OnErr result
            (LeavesSome (lends_for source lent (Calls (Hear datagram.now))) self.old self.new) }
    {
        self.lend(source, lent)?;
        self.hear(alloc, datagram)?;
        self.take_back(source, lent)?;
        Ok(())
    }

    /// A drawop of its own is taken, and then sent, unless its name means another one or the board
    /// is full. Answers what became of it.
    pub(super) fn draw(
        &mut self,
        sent: &mut Vec<Datagram>,
        drawop: &Drawop,
    ) -> Result<Option<Reply>, AllocError>
        ensures became { IfOk result (λ reply. (k : Keeping) → IsKeptAt self.old k →
            outcome_in reply ≡ becomes drawop.now k.host) }
        ensures does { OnOk result (Does
            (performs (Says (Draw drawop.now))) self.old self.new sent.old.items sent.new.items) }
        ensures left { OnErr result
            (LeavesSome (performs (Says (Draw drawop.now))) self.old self.new) }
    {
        let reply = self.member.accept(drawop)?;
        match reply {
            Some(Reply::New(_)) | Some(Reply::Again(_)) => {
                send(sent, Datagram::Draw(*drawop))?;
                Ok(reply)
            }
            Some(Reply::Clash(_)) | None => Ok(reply),
        }
    }
}

/// A datagram is to be sent.
pub(super) fn send(sent: &mut Vec<Datagram>, datagram: Datagram) -> Result<(), AllocError>
    ensures { OnOk result (sent.new.items ≡ sent.old.items ++ datagram ∷ []) }
{
    sent.push(datagram)?;
    Ok(())
}
