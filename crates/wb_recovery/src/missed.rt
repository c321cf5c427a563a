//! A name that is missed, and one that has come.
use wb_names::Name;

/// A name that is missed, and what its request timer is drawn with.
#[derive(Clone, Copy, Debug, PartialEq, Eq)]
pub struct Missed {
    pub name: Name,
    /// The delay to the name's source, in microseconds.
    pub delay: u64,
    /// A random word.
    pub word: u64,
}

/// A name that has come.
#[derive(Clone, Copy, Debug, PartialEq, Eq)]
pub struct Received {
    pub name: Name,
    /// The delay to the name's source, in microseconds.
    pub delay: u64,
}
