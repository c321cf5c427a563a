//! The numbers that those who keep timers share.

/// The delay to a source while it is not known, in microseconds: a tenth of a second.
pub const UNKNOWN_DELAY: u64 = 100_000;

/// The most request timers that stand, of those that a member sets by itself.
pub const MOST_TIMERS: usize = 64;
