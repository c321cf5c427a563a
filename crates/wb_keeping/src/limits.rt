//! The numbers of what a self-managing member does. Times are in microseconds.

/// How far ahead times are believed: two days, so that a drawing also comes after those of a member
/// whose clock shows tomorrow.
pub const AHEAD: u64 = 172_800_000_000;

/// How long requests of a name are counted: ten minutes.
pub const MINUTES: u64 = 600_000_000;

/// The most requests of a name in that time, if it is not asked for anew.
pub const MOST_REQUESTS: u64 = 15;
