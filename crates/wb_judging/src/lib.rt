//! A judged member: a kept member with a judge in front of it.
//!
//! The judge looks at each line that is handed in, and hands the kept member one line in its place:
//! the same, or a tick of that moment. So whatever it drops is, to the kept member, a datagram that
//! the network lost, and all that is proved of kept members holds of judged ones. It also has the
//! time of day, from which the user's drawings get their times.
//!
//! A call gives events, in the order in which they are to be dealt with. Moments and times of day
//! are in microseconds. There is no clock, no network and no file: moments, datagrams and where
//! these came from are handed in.
//!
//! In reading order: `call` has what happens to a member, `news` what its judge hears as time goes
//! on, and `event` what follows from it; `facts` is what the kept member says of a datagram, for the
//! judge; `handing` hands it a line, and the judge hears in `hearing` what it did; `echoing` is the
//! echo under our own number that a report has besides; `record` is what is recorded; `owners` are
//! those of numbers; `weighing` has a datagram judged; `telling` makes events; `since` compares what a page shows with what it showed,
//! and `missing` counts what a page lacks; `judged_member` joins them.
//! `laws` says what follows, and `specs/Handing.antt` and `specs/Performing.antt` what each call
//! does.
#![tactic(auto)]

mod call;
mod echoing;
mod event;
mod facts;
mod handing;
mod hearing;
mod judged_fault;
mod judged_member;
pub mod laws;
mod missing;
mod news;
mod owners;
mod record;
mod since;
mod telling;
mod weighing;

pub use call::Call;
pub use event::{Event, Fate};
pub use judged_fault::JudgedFault;
pub use judged_member::{JudgedMember, Opening};
pub use news::News;
pub use record::RecordLine;
pub use since::{ShownAt, Since};
