//! A host for programs in C, and in languages that call C.
//!
//! A host is opened, takes one line a call, and is closed; `include/wb.h` has what each call owes.
//! Numbers and byte slices alone cross, and the place of a host, which its caller keeps. Each host
//! is its own: there is no thread, no global, no clock and no socket. The block of a line goes into
//! the caller's buffer, or is kept until there is one with room for it.
#![tactic(auto)]

mod by_bytes;
mod calls;
mod event;
mod held;
mod judged_event;
mod judged_serving;
mod judging;
pub mod laws;
mod parts;
mod performing;
mod query;
mod room;
mod serving;
mod status;
mod taken;
mod told;
