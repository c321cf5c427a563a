//! The names that a keeper asks for, and how often each timer was backed off.

ghost use Rattle.std.specs.Prelude.{◌≡◌, ℕ, List, IfOk};
ghost use Rattle.wb_recovery.specs.Events.{asking, names_of, timers_of};
ghost use Rattle.wb_recovery.specs.Values.{names_in, timers_in};
ghost use Rattle.wb_recovery.specs.declared.tuning.Tuning.{Tuning as Constants};
ghost use Rattle.wb_keeper.specs.GivingUp.{level_of};
ghost use Rattle.wb_keeper.specs.Keeper.{KeeperCall, events_of};
ghost use Rattle.wb_keeper.specs.Keeping.{StandsFor};

use crate::keeper::Keeper;
use std::alloc::{AllocError, Global};
use wb_names::Name;

impl Keeper {
    /// The names for which a request timer stands, ascending. It takes memory for these alone.
    pub fn asked_names(&self, alloc: Global) -> Result<Vec<Name>, AllocError>
        ensures names { IfOk result (λ names.
            names.items ≡ asking (names_in self.now.recovery) (timers_in self.now.recovery)) }
        ensures calls { IfOk result (λ names. (me : ℕ) (constants : Constants)
            (calls : List KeeperCall) → StandsFor me constants calls self.now → names.items ≡
            asking (names_of (events_of me calls)) (timers_of constants (events_of me calls))) }
    {
        self.recovery.asked_where(alloc, |_| true)
    }

    /// How often the request timer of a name was backed off since it was set, up to 16. None if
    /// none stands.
    pub fn level(&self, name: &Name) -> Option<u32>
        ensures { result ≡ level_of (timers_in self.now.recovery) name.now }
    {
        match self.recovery.ask_of(name) {
            Some(ask) => Some(ask.level),
            None => None,
        }
    }
}
