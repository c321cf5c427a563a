//! Names that are given up.

ghost use Rattle.std.specs.Prelude.{◌≡◌, IsOk, IfOk, OnErr, MatchOption};
ghost use Rattle.wb_recovery.specs.Values.{timers_in};
ghost use Rattle.wb_keeper.specs.GivingUp.{is_asked, is_timed};
ghost use Rattle.wb_keeper.specs.Keeper.{GiveUp};
ghost use Rattle.wb_keeper.specs.Keeping.{Keeps};
ghost use Rattle.wb_keeper.specs.KeepFaults.{moment_fault};

use crate::keep_fault::KeepFault;
use crate::keeper::Keeper;
use wb_names::Name;

impl Keeper {
    /// Gives up asking for a name. Answers whether a request timer stood for it. If one did, its
    /// timers end, as by `Recovery::got` with a delay of 0, so that it may be asked for and
    /// answered at once again. If none did, the call only moves the moment. It takes no memory. The
    /// moment is in microseconds.
    ///
    /// Refused with `BackInTime` or `Range`, in this order.
    pub fn give_up(&mut self, now: u64, name: &Name) -> Result<bool, KeepFault>
        ensures fault { MatchOption (moment_fault self.old.moment now) (IsOk result)
            (λ fault. result ≡ Err fault) }
        ensures asked { IfOk result
            (λ asked. asked ≡ is_asked (timers_in self.old.recovery) name.now) }
        ensures ok { IfOk result (λ asked. Keeps (GiveUp now name.now asked) self.old self.new) }
        ensures err { OnErr result (self.new ≡ self.old) }
    {
        self.check(now)?;
        self.moment = now;
        if !self.is_asked(name) {
            return Ok(false);
        }
        match self.recovery.got(*name, now, 0) {
            Ok(()) => Ok(true),
            Err(_) => unreachable!(),
        }
    }

    /// Whether a request timer stands for the name.
    pub fn is_asked(&self, name: &Name) -> bool
        ensures { result ≡ is_asked (timers_in self.now.recovery) name.now }
    {
        self.recovery.ask_of(name).is_some()
    }

    /// Whether a timer stands for the name: one to ask for it, or one to answer with it.
    pub fn is_timed(&self, name: &Name) -> bool
        ensures { result ≡ is_timed (timers_in self.now.recovery) name.now }
    {
        self.recovery.ask_of(name).is_some() || self.recovery.answer_of(name).is_some()
    }
}
