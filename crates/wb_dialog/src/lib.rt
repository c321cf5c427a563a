//! A whiteboard host that a program talks to, line by line.
//!
//! The program, a driver, has the sockets, the clock and the screen. It writes lines: those of a
//! script, the datagrams that came in, what it wants to say, and what it asks of the host. Each
//! line is answered by one block: what it prints, and then `ok DUE` with the next moment at which a
//! timer is due, or `refused FAULT`. A refused line changes nothing. This crate has no clock, no
//! socket, no file and no thread.
//!
//! A host is closed until its board is open, and then driven: its driver decides what is sent. A
//! line makes it self-managing, or judged: from then on it decides for itself, and if it is judged,
//! also which datagrams it takes, by their origins.
//!
//! In reading order: `line` has the lines of any host, `judged_line` those of a judged one besides,
//! and `said` what a line says, by which hosts have it. `words`, `recorded`, `judged_parsing` and
//! `adding` read what follows a first word, and `parsing` is the table of first words; `fault` says
//! why a line is refused. `told` is what a line comes to. `answering`, `keeping` and
//! `judged_answering` do what a line says at a member and answer that; they print nothing.
//! `record_text`, `texts` and `blocks` print it, and know no member. `board` is what a host keeps
//! until it begins to be kept or judged (`beginning`). `opened` has the three kinds of an open host:
//! `driving`, `keeping` and `judged` say what a line does at each. `dialog` joins them into a
//! handler of lines, and `hosting` runs it. `laws` says what follows.
#![tactic(auto)]

mod adding;
mod answering;
mod beginning;
mod blocks;
mod board;
mod dialog;
mod driving;
mod fault;
mod hosting;
mod judged;
mod judged_answering;
mod judged_line;
mod judged_parsing;
mod keeping;
pub mod laws;
mod line;
mod opened;
mod parsing;
mod record_text;
mod recorded;
mod said;
mod texts;
mod told;
mod words;

pub use dialog::Dialog;
pub use fault::{HostFault, Refusal};
pub use hosting::host;
pub use judged_line::{JudgeLine, JudgedLine};
pub use line::{DriverLine, LINES_VERSION};
pub use record_text::write_record;
pub use said::Said;
