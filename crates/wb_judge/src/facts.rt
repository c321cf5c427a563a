//! What a member says of itself, and of a datagram that came in.

/// What a member says of itself, and of a datagram that came in. What does not bear on the kind of
/// the datagram may be anything.
#[derive(Clone, Copy, Debug)]
pub struct Facts {
    /// The moment, which is not before that of the last call.
    pub at: u64,
    /// How many drawops the board holds on all pages.
    pub held: u32,
    /// Whether it draws nothing yet, since it just began.
    pub listens: bool,
    /// Whether it holds the drawop that came, or what a request asks for.
    pub holds: bool,
    /// Whether the drawop that came has a number above all of ours on its page that are held or were
    /// heard of.
    pub above: bool,
    /// The greatest number that it holds, or 0: of ours on the page of a report; of the source of a
    /// drawop on its page.
    pub top: u32,
    /// How many numbers up to the marks of a report it does not hold.
    pub lacking: u64,
}
