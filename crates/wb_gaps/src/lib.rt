//! What a list of drawops lacks, reports and holds: missing ranges, marks and pages.
//!
//! Members of a whiteboard find their losses by comparing what they hold with what others report.
//! This crate keeps what is held as drawops come, as ranges of numbers (`holdings`), and answers of
//! it (`asked`) which pages there are, the greatest number of each source on a page, and which
//! numbers of a page are missing (`missing`), found one by one (`walk`); which hole comes after a
//! place (`holes`); the reports of all pages (`page_reports`); and it merges what two members
//! reported (`merged`). Each of these is a walk over ascending runs of numbers (`run`): a report
//! wants the last of each source (`highest`), and a merge two lists of marks taken as one
//! (`joined`). It costs what the page has of ranges. A part of a report or of the pages costs
//! look-ups for that part alone (`telling`), and the next hole four look-ups (`holes`).
//!
//! It knows no board, no clock and no datagram, and it asks for nothing that is missing. The
//! definitions speak of the list of drawops that came, in any order, in which a name may stand
//! twice.
#![tactic(auto)]

mod asked;
mod highest;
mod holdings;
mod holes;
mod joined;
pub mod laws;
mod merged;
mod missing;
mod page_reports;
mod run;
mod telling;
mod walk;

pub use holdings::Holdings;
pub use holes::Hole;
pub use merged::{MergeFault, merge_marks};
pub use missing::Missing;
pub use page_reports::PageReport;
