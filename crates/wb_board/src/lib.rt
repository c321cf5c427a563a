//! A board that threads share, as its callers see it.
//!
//! A board is one growing history of drawops that threads share; a desk is what one caller knows of
//! it and owns in it. Each reply is what a whiteboard of one thread answers at a point of that
//! history, and never before anything that the caller's desk had seen.
//!
//! The crate opens no socket, has no clock and starts no thread. A desk is used with the board that
//! it came from, which is its caller's duty. No call waits for another thread, and nothing is
//! promised of which of two callers comes first.
//!
//! In reading order: `board` has the calls that open, divide and extend a board, `queries` what it
//! answers of pages, `desk` what a desk tells by itself, and `reply` the answers to an arrival;
//! `layers` keeps what viewed pages show, and `held` which numbers there are. `laws` says what
//! follows for many callers, and for two boards.
#![tactic(auto)]

mod board;
mod desk;
mod held;
pub mod laws;
mod layers;
mod queries;
mod reply;

pub use board::{Board, MAX_WORKERS};
pub use desk::Desk;
pub use reply::{BoardFault, Reply};
pub use wb_history::{JoinFault, MAX_CELLS, OpenFault, SplitFault};
