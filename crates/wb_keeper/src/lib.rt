//! The session state of one member: what it hears and answers, misses and asks for.
//!
//! A keeper has the timers and delays of its member, the marks that others told, and the senders
//! that it echoes. It reads the history of a board through a desk, which its caller lends to each
//! call, and never adds a drawop.
//!
//! The crate opens no socket, has no clock and starts no thread: each call gets its moment, and the
//! random words that it wants.
//!
//! In reading order: `keeper` has what a member hears and answers, misses and asks for, and
//! `keep_fault` why a call is refused. `laws` says what holds of each list of accepted calls.
#![tactic(auto)]

mod keep_fault;
mod keeper;
pub mod laws;

pub use keep_fault::KeepFault;
pub use keeper::Keeper;
