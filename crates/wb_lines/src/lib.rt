//! Text that comes and goes line by line: what reads it, what stands in a line, and what waits to
//! be written.
//!
//! `drive` hands the lines of a source to a handler, and writes what it prints. A caller who takes
//! several lines together pulls them from a `Progress`. Both stand on `LineReader`, which reads the
//! lines, and on `Output`, which holds text until it is written. A line has words, numbers and
//! hexadecimal digits, which stand in modules of their own. Nothing here knows what the lines say.
#![tactic(auto)]

mod content;
mod driving;
mod fault;
mod handler;
mod hexadecimal;
pub mod laws;
mod line_reader;
mod lines;
mod numbers;
mod output;
mod progress;
mod saying;
mod words;

pub use content::{without_carriage_return, without_end};
pub use driving::{close, drive, fault_of};
pub use fault::DriveFault;
pub use handler::{Handler, Stop};
pub use hexadecimal::unhex;
pub use line_reader::{Found, LineReader, MAX_LINE_LEN, Pulled};
pub use lines::{First, Lines, Seen};
pub use numbers::number;
pub use output::{Output, Unwritten};
pub use progress::Progress;
pub use saying::Saying;
pub use words::next_word;
