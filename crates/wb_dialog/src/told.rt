//! What a line comes to, before it is printed.
use wb_board::Reply;
use wb_codec::Datagram;
use wb_commands::Told as MemberTold;
use wb_display::Canvas;
use wb_judge::{Listed, Other};
use wb_judging::{Event, Since};

/// Whether a self-managing host tells what became of a drawop: a batch of its own.
#[derive(Clone, Copy)]
pub(crate) enum Batch {
    Untold,
    Told(Option<Reply>),
}

/// What a line comes to.
#[derive(Drop)]
pub(crate) enum Told {
    /// It prints nothing.
    Nothing,
    /// The number of the lines.
    Version,
    /// What any member answers to a call or a question.
    Member(MemberTold),
    /// A datagram of ours goes out.
    Send(Datagram),
    /// What became of a drawop, which is a batch of its own: None if the board has no cell for it.
    Batch(Option<Reply>),
    /// What a self-managing host sends, and then a batch.
    Sent {
        sent: Vec<Datagram>,
        batch: Batch,
    },
    /// What follows from a call of a judged member.
    Events(Vec<Event>),
    /// Which numbers were heard lately.
    Members(Vec<Other>),
    /// Which pages are drawn on.
    Pages(Vec<Listed>),
    /// The canvas of a page, of this size.
    Canvas {
        canvas: Canvas,
        width: u32,
        height: u32,
    },
    /// What a page shows otherwise than it did.
    Since(Since),
    /// How many drawops of a page are missing.
    Lacks(u64),
    /// A datagram that is to be said in words.
    Words(Datagram),
}
