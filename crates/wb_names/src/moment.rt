//! Which moments there are. Each layer that is handed one looks at this limit for itself.

/// Each moment is below this many microseconds, nearly nine years.
pub const MOMENT_LIMIT: u64 = 1 << 48;

/// The greatest moment, in microseconds.
pub const MAX_MOMENT: u64 = MOMENT_LIMIT - 1;
