//! The loss recovery of a shared whiteboard: when to ask for a drawop that is missing, and when to
//! answer another member who asks.
//!
//! A name that is missed gets a request timer, set at random so that not all members ask at once. A
//! request that another member makes first backs it off, and so does asking oneself; each time the
//! wait doubles. A name that is asked for, and is held here, gets an answer timer in the same way.
//! Once the name has come both timers end, and for three delays it is not answered again.
//!
//! The crate has no clock, sends nothing and holds no drawop: the moment, the delay to the other
//! member and the random word are handed in with each call, and `tick` answers what is to be sent.
//!
//! The rules are those of Floyd, Jacobson, Liu, McCanne and Zhang, "A Reliable Multicast Framework
//! for Light-weight Sessions and Application Level Framing", 1997, in what it says of loss
//! recovery: request timers and their backing off, repair timers, here called answer timers, and
//! the quiet time after a repair. The constants do not adapt. `distance` is that of its session
//! messages.
#![tactic(auto)]

mod alarms;
mod expiry;
mod fault;
mod firing;
pub mod laws;
mod limits;
mod missed;
mod plan;
mod records;
mod recovery;
mod round_trip;
mod timers;
mod tuning;

pub use fault::{DELAY_LIMIT, MAX_DELAY, RecoveryFault, TuningFault};
pub use limits::{MOST_TIMERS, UNKNOWN_DELAY};
pub use missed::{Missed, Received};
pub use plan::{Action, Plan};
pub use recovery::Recovery;
pub use round_trip::distance;
pub use timers::{AnswerTimer, AskTimer};
pub use tuning::{MAX_CONSTANT, Tuning};
