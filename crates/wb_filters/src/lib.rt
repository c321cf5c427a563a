//! Scripts with datagrams in words: one filter turns the readable lines of a script into lines that
//! a whiteboard runs, and the other turns what arrives and what is sent back into words.
//!
//! `hex_line` and `words_line` turn one line, and `run_filter` turns a source of them line by line.
#![tactic(auto)]

mod carrier;
mod comment;
mod fault;
mod filtering;
mod hexing;
pub mod laws;
mod line;
mod wording;

pub use fault::{FilterFault, LineFault, TurnFault};
pub use filtering::{Direction, Filter, run_filter};
pub use hexing::hex_line;
pub use wording::words_line;
