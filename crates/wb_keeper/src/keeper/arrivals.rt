//! Drawops that have arrived.

ghost use Rattle.std.specs.Prelude.{◌≡◌, ◌∷◌, List, filter, OnOk, OnErr, IsOk, MatchOption};
ghost use Rattle.wb_names.specs.Values.{NameValue};
ghost use Rattle.wb_recovery.specs.Events.{Event, Got};
ghost use Rattle.wb_recovery.specs.Accepted.{Accepts, StandsFor as TimersStandFor};
ghost use Rattle.wb_recovery.specs.Stopping.{receipts};
ghost use Rattle.wb_recovery.specs.declared.tuning.Tuning.{Tuning as Constants};
ghost use Rattle.wb_keeper.specs.Keeper.{Arrive, received_of, holds};
ghost use Rattle.wb_keeper.specs.Keeping.{Keeps, delay_at};
ghost use Rattle.wb_keeper.specs.KeepFaults.{moment_fault};

use crate::keep_fault::KeepFault;
use crate::keeper::Keeper;
use wb_board::Desk;
use wb_names::Name;

impl Keeper {
    /// Drawops of these names were taken to the board: of each that the desk holds the timers end,
    /// as by `Recovery::got` with the delay to its source. It takes no memory. The moment is in
    /// microseconds.
    ///
    /// Refused with `BackInTime` or `Range`, in this order.
    pub fn arrived(&mut self, desk: &Desk, now: u64, names: &[Name]) -> Result<(), KeepFault>
        ensures fault { MatchOption (moment_fault self.old.moment now) (IsOk result)
            (λ fault. result ≡ Err fault) }
        ensures ok { OnOk result
            (Keeps (Arrive now (filter (holds desk.now.seen) names.now)) self.old self.new) }
        ensures err { OnErr result (self.new ≡ self.old) }
    {
        self.check(now)?;
        self.moment = now;
        self.receive_all(desk, names);
        Ok(())
    }

    /// Ends the timers of those of the names that the desk holds.
    fn receive_all(&mut self, desk: &Desk, names: &[Name])
        ensures rest { self.new ≡ record self.old { recovery = self.new.recovery } }
        ensures came { (constants : Constants) (events : List Event) →
            TimersStandFor constants events self.old.recovery → TimersStandFor constants
            (receipts self.old.moment events (received_of (delay_at self.old.delays)
            (filter (holds desk.now.seen) names.now))) self.new.recovery }
    {
        for name in names {
            if is_held(desk, name) {
                self.receive(*name);
            }
        }
    }

    /// Ends the timers of a name.
    fn receive(&mut self, name: Name)
        ensures rest { self.new ≡ record self.old { recovery = self.new.recovery } }
        ensures came { Accepts (Got name self.old.moment
            (delay_at self.old.delays name.source)) self.old.recovery self.new.recovery }
    {
        let delay = self.delay(name.source());
        match self.recovery.got(name, self.moment, delay) {
            Ok(()) => {}
            Err(_) => unreachable!(),
        }
    }
}

/// Whether the desk holds the name.
pub(crate) fn is_held(desk: &Desk, name: &Name) -> bool
    ensures { result ≡ holds desk.now.seen name.now }
{
    desk.find(name).is_some()
}
