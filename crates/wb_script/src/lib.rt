//! Scripts for a whiteboard, and what they print.
//!
//! A script stands in for the network and the clock of a host: its lines hand in the datagrams that
//! arrive, set the moment, and ask for what a page shows. This crate runs lines, has workers take
//! their batches, and writes exactly what one thread prints for them, each batch taken in some
//! order: as it came, if one worker takes it. `wb_commands` has what one line says and does, and
//! `wb_lines` what reads text.
#![tactic(auto)]

mod arriving;
mod checking;
mod driving;
mod fault;
mod host;
pub mod laws;
mod part;
mod running;
mod said;
mod taking;
mod workplace;

pub use checking::check;
pub use fault::RunFault;
pub use running::{Summary, run};
pub use wb_feed::{Gate, NoGate};
