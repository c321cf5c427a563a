//! What a tick is to do, and what it sends.

use crate::timers::Timers;
use wb_names::Name;

/// What a tick asks its caller to send.
#[derive(Clone, Copy, Debug, PartialEq, Eq)]
pub enum Action {
    /// A request for the drawop of this name.
    Ask(Name),
    /// The drawop of this name.
    Answer(Name),
}

/// What a tick will do: `Recovery::plan` works it out and changes nothing, `Recovery::commit` does
/// it.
#[derive(Debug, Drop)]
pub struct Plan {
    /// The moment of the tick, in microseconds.
    pub(crate) moment: u64,
    pub(crate) actions: Vec<Action>,
    /// The names whose request timers fire, ascending, and what is then kept of each.
    pub(crate) asking: Vec<Name>,
    pub(crate) after: Vec<Timers>,
    /// The names whose answer timers fire, ascending.
    pub(crate) answering: Vec<Name>,
}

impl Plan {
    ghost use Rattle.std.specs.Prelude.{◌≡◌};

    /// What is to be sent, as `Recovery::tick` answers it.
    pub fn actions(&self) -> &[Action]
        ensures { result.now ≡ self.now.actions.items }
    {
        &self.actions
    }
}
