//! Runs of sequence numbers that are missing.

/// Sequence numbers of a source that are missing on some page: all from the first to the last, both
/// of them missing.
#[derive(Clone, Copy, Debug, PartialEq, Eq)]
pub struct Gap {
    /// The source.
    pub source: u32,
    /// The first number that is missing.
    pub first: u32,
    /// The last number that is missing, at least the first.
    pub last: u32,
}
