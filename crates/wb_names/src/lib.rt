//! Names and drawops of a shared whiteboard, and the small lists that members tell one another.
//!
//! Any member may create a page and draw on any page. Each step of a drawing is a drawop: it has a
//! name that always means the same data, a time, and one operation. This crate says which names,
//! drawops, marks and echoes there are, when two are the same, and in which order drawops are
//! displayed. It also has the two ends that the layers above read from and write to. It does not
//! know datagrams, boards or threads.
//!
//! The words are those of Floyd, Jacobson, Liu, McCanne and Zhang, "A Reliable Multicast Framework
//! for Light-weight Sessions and Application Level Framing", 1997.
#![tactic(auto)]

mod drawop;
mod echo;
mod entries;
mod fault;
mod gap;
pub mod laws;
mod mark;
mod moment;
mod name;
mod order;
mod parts;
mod same;
mod shape;
mod stream;
mod text;

pub use drawop::Drawop;
pub use echo::Echo;
pub use entries::{Echoes, Entries, Entry, MAX_ENTRIES, Marks};
pub use fault::{FieldFault, ListFault};
pub use gap::Gap;
pub use mark::Mark;
pub use moment::{MAX_MOMENT, MOMENT_LIMIT};
pub use name::{FIRST_FORGED, Name, PageId};
pub use order::{before, display_order};
pub use parts::{Change, Figure, Op, OpKind, Stroke, Target};
pub use shape::{MAX_COORDINATE, Shape, shape_of};
pub use stream::{FromRead, Sink, Source, ToWrite};
pub use text::Text;
