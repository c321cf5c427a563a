//! Workers that take a batch of arrivals on a shared board, each arrival once.
//!
//! `run_batch` splits a desk for each of two to eight workers, or gives the desk itself to one,
//! starts them on threads of their own, and sends them what its source gives, one drawop at a time,
//! through one channel of bounded capacity. The channel is under a rule that no position is
//! received twice; so after the joins the desk knows which arrivals no worker accepted, and takes
//! those again, in order. What comes out is what one thread would have made of the arrivals in some
//! order, and with one worker in the order given.
//!
//! Threads are started here, and joined here, each of them. Nothing is promised of time, or that
//! two workers run at once; a call waits for the threads that it started.
//!
//! `relay` has one desk accept a drawop on a thread of its own, and tells another desk of it.
//!
//! In reading order: where drawops come from (`arrivals`, or a list: `listed`) and what is called
//! round each accept (`gate`); the call (`batch`), its workers (`workers`) or the one (`alone`),
//! what each does (`worker`) and what they share (`shared`), and the sender's part (`sender`); the
//! `channel` with its messages; `relays`; and the law of its replies (`laws`).
#![tactic(auto)]

mod alone;
mod arrivals;
mod batch;
mod channel;
mod fault;
mod gate;
pub mod laws;
mod listed;
mod relays;
mod sender;
mod shared;
mod worker;
mod workers;

pub use arrivals::{Arrivals, KnownArrivals};
pub use batch::{Batch, run_batch};
pub use fault::FeedFault;
pub use gate::{Gate, NoGate};
pub use listed::Listed;
pub use relays::{RelayFault, relay};
