//! One member of a session of the whiteboard: a machine that is handed what happens, and asked what
//! follows.
//!
//! It has a board, what its keeper holds of the session, and its random words. Datagrams and
//! moments are handed in; datagrams, pages and the next moment come out. It reads no line, starts
//! no thread and has no clock. A call that is refused or can't allocate changes nothing.
//!
//! In reading order: `calls` has what happens to a member, and `questions` what it is asked;
//! `batches` has others take a batch at its board, and `member` does what is called for.
//! `specs/Members.antt` says what a member is, and `specs/Calls.antt` what each call makes of it.
#![tactic(auto)]

mod batches;
mod calls;
pub mod laws;
mod member;
mod questions;

pub use batches::AwaitsBatch;
pub use calls::{Call, Done, Found};
pub use member::{Member, STREAM};
pub use questions::{Answer, Query};
