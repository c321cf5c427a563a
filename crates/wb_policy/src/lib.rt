//! What a self-managing host decides: when it reports, how much of a page at a time, what it asks
//! for and how fast, and which delay it takes for one that it does not know.
//!
//! It follows Floyd, Jacobson, Liu, McCanne and Zhang, "A Reliable Multicast Framework for
//! Light-weight Sessions and Application Level Framing", 1997, where that leaves the choice to the
//! application. Its state is a fixed number of integers, whatever comes in. It has no clock, no
//! board and no timers: moments, which are in microseconds, and what a member holds and heard are
//! handed in. Who performs what is decided is the crate wb_keeping.
//!
//! In reading order: `limits` has the numbers; `credit` says how much may be asked for, `wanting`
//! which names, `turns` which hole comes next, `pace` when, and `leaps` which beside what came;
//! `questions` asks for pages and answers others; `reports` says when a report is due, and which
//! marks it has;
//! `delays` bounds what echoes give; `choices` takes parts of what was heard and is held;
//! `policy` joins what is remembered. `laws` says what follows.
#![tactic(auto)]

mod choices;
mod credit;
mod delays;
pub mod laws;
mod leaps;
pub mod limits;
mod pace;
mod policy;
mod questions;
mod reports;
mod turns;
mod wanting;

pub use choices::{
    echoed, echoed_delay, firsts, is_here, last_source, near_names, newest, next_turn, own_echo,
    own_marks, told_names,
};
pub use credit::Credit;
pub use delays::Delays;
pub use leaps::Leaps;
pub use pace::Pace;
pub use policy::{Policy, sooner};
pub use questions::Questions;
pub use reports::{
    Reports, Told, from_source, is_telling, is_untold, members, page_after, report_bytes,
};
pub use turns::Turns;
pub use wanting::{AskedName, Candidate, giving_way, oldest, young_count};
