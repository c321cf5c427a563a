//! Bodies whose checks have passed, their lists still bytes.

use wb_names::{Drawop, Name, PageId};

/// A list that is still bytes: those from its first entry on, and how many entries it has.
#[derive(Clone, Copy)]
pub(crate) struct Unread<'a> {
    pub(crate) count: u16,
    pub(crate) bytes: &'a [u8],
}

/// A body of which every check has passed. Its lists are still bytes, since no memory is taken
/// before the last check.
#[derive(Clone, Copy)]
pub(crate) enum Body<'a> {
    Draw(Drawop),
    Session {
        sender: u32,
        sent: u64,
        page: PageId,
        marks: Unread<'a>,
        echoes: Unread<'a>,
    },
    Request {
        asker: u32,
        name: Name,
    },
    AskPages {
        asker: u32,
    },
    PageState {
        sender: u32,
        page: PageId,
        marks: Unread<'a>,
    },
}
