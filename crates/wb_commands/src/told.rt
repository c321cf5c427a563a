//! What a line comes to at a member, before it is printed.
use wb_member::{Answer, Done};

/// What a line comes to at a member, before it is printed.
#[derive(Drop)]
pub enum Told {
    /// It prints nothing.
    Nothing,
    /// What a call did.
    Done(Done),
    /// The answer to a question.
    Answer(Answer),
}
