//! A self-managing member of a session: a board and its keeper, and the policy that manages them.
//! The policy is the crate wb_policy. Here is who performs what it decides, and which time a
//! drawing gets.
//!
//! It has no clock and no network: it is handed datagrams, moments, which are in microseconds, and
//! drawings, and gives what is to be sent. What it does for each of them is a list of lines of
//! `specs/Kept.antt`, which any host could be handed by its driver.
//!
//! In reading order: `limits` has the numbers; `drawings` has the time of a drawing; `kept_call`
//! says what may happen to a member, and `kept_fault` why that is refused; `kept_member` performs
//! what the policy decides. `laws` says what
//! follows for all that may come in.
#![tactic(auto)]

mod drawings;
mod kept_call;
mod kept_fault;
mod kept_member;
pub mod laws;
mod limits;

pub use drawings::time_of;
pub use kept_call::KeptCall;
pub use kept_fault::KeptFault;
pub use kept_member::{KeptDone, KeptMember};
