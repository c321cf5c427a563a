//! The judgement of a member: which datagrams it takes, who is known, who may fill its board, whose
//! times it believes, when it has a twin, and from whom it takes a stream.
//!
//! It has no board, no network and no clock. The caller hands in the moment, the origin of a
//! datagram, and what the board says of it (`Facts`), and gets what becomes of it (`Verdict`). All
//! that is remembered is bounded, and allocated when a judge begins: no later call allocates.
//! Moments and times are in microseconds.
//!
//! An origin is known once a report came from there that echoes a moment at which we reported
//! lately. Nobody knows such a moment who did not hear that report, so a report vouches for nobody
//! but itself. What no known origin gave has a share of the board.
//!
//! In reading order: `limits` has the numbers; `origin` says where datagrams come from; `bucket`
//! takes some at once and then one in each pause; `own_reports` are our moments, and who answers
//! us; `aliens` are reports under our number; `known`, `others` and `strange` are the origins that are known, the numbers that were heard,
//! and the share of strangers; `told` are the marks that members told; `pages` lists pages; `report`, `facts` and `verdict` say what is
//! judged and what becomes of it; `judge` joins them. `laws` says what follows.
#![tactic(auto)]

mod aliens;
mod bucket;
mod day_clock;
mod facts;
mod firm;
mod judge;
mod known;
pub mod laws;
mod limits;
mod origin;
mod others;
mod own_reports;
mod pages;
mod report;
mod rows;
mod strange;
mod told;
mod verdict;

pub use aliens::{Alien, Aliens};
pub use bucket::Bucket;
pub use day_clock::DayClock;
pub use facts::Facts;
pub use judge::{AddFault, Judge, Start};
pub use known::{Known, KnownOrigin};
pub use limits::{AHEAD_KNOWN, AHEAD_STRANGER, FRESH, PATIENCE, SILENCE, TIME_LIMIT};
pub use origin::Origin;
pub use others::{Other, Others};
pub use own_reports::OwnReports;
pub use pages::{Listed, Rank, put_in_order};
pub use report::Report;
pub use rows::Row;
pub use strange::{Given, Strange};
pub use told::{Told, ToldMark};
pub use verdict::{Verdict, Warning, Why};
