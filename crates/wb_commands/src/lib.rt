//! Lines that speak to one member: what a line says, what it does to the member, and what is
//! printed for it.
//!
//! A line hands in a datagram, sets the moment or a delay, or asks. `parse_line` reads one, or
//! names its first fault; `take` does what it says, and answers what it comes to, a `Told`;
//! `told_text` is its text, and `act` prints it. The texts of batches and sent datagrams stand here
//! too. What a script and a host have in common is here, and below both. A line does not know its
//! number. Batches, workers and the lines of a driver are of the crates above; there is no thread,
//! no clock and no loop here.
#![tactic(auto)]

mod acting;
mod answers;
mod command;
mod fault;
pub mod laws;
mod listing;
mod parsing;
mod sent_lines;
mod told;

pub use acting::{act, answered, take};
pub use answers::{arrival_line, batch_line, told_text};
pub use command::Command;
pub use fault::{LineFault, Untaken};
pub use parsing::{
    datagram, four_words, no_words, number_word, one_word, page, parse_line, two_words, u32_word,
};
pub use sent_lines::{send_line, sends_text};
pub use told::Told;
pub use wb_board::MAX_WORKERS;
