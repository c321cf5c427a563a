//! The numbers of the judgement. Moments and times are in microseconds.

/// How many moments of our own reports are remembered. Nobody knows one who did not hear that
/// report, so whoever echoes it is a member.
pub const MOST_OWN: usize = 256;

/// The most origins of which the last report under our number is remembered that is not ours.
pub const MOST_ALIENS: usize = 8;

/// An echo of a moment that is older answers nobody.
pub const FRESH: u64 = 256_000_000;

/// Of two clocks one may go faster than the other by one part in this many.
pub const DRIFT: u64 = 4_096;

/// An origin that answered us is known until it was silent for longer than this.
pub const SILENCE: u64 = 600_000_000;

/// A number that has no owner stays with its origin until it was silent for longer than this: three
/// of the longest intervals between two reports.
pub const PATIENCE: u64 = 192_000_000;

/// The most origins that are known.
pub const MOST_KNOWN: usize = 1_024;

/// The most numbers that are remembered.
pub const MOST_OTHERS: usize = 1_024;

/// One cell in `STRANGERS` is for all that no known origin gave.
pub const STRANGERS: u32 = 16;

/// One cell in `OF_ORIGIN` is for what one unknown origin gave.
pub const OF_ORIGIN: u32 = 128;

/// But each of these two shares has at least this many cells.
pub const LEAST_SHARE: u32 = 16;

/// The most pages with drawops that no known origin gave. A member reports its pages in turn, so
/// each of these delays the reports of what members draw.
pub const STRANGE_PAGES: usize = 16;

/// The most sources that such drawops have, summed over the pages.
pub const STRANGE_ROWS: usize = 256;

/// The most marks that are remembered of those that members told.
pub const MOST_TOLD: usize = 1_024;

/// One cell in `RESERVE` is kept for deletes and restores of members.
pub const RESERVE: u32 = 32;

/// 256 new numbers are heard at once, and then one in each second: one more is heard if those
/// before are paid for up to this far ahead at most.
pub const NEW_AHEAD: u64 = 255_000_000;

/// While more than half of these are used up, none is heard of an origin that has a number: so there
/// is room for one that has none.
pub const NEW_OF_ONE: u64 = 127_000_000;

/// What a new number costs.
pub const NEW_PAUSE: u64 = 1_000_000;

/// 64 questions of origins that are not known are taken at once, and then sixteen in each second.
pub const ASKED_AHEAD: u64 = 3_937_500;

/// What such a question costs.
pub const ASKED_PAUSE: u64 = 62_500;

/// 512 requests of members for what is held are taken at once, and then 500 in each second. Each
/// brings a repair at most, which is sent to everybody.
pub const REPAIRS_AHEAD: u64 = 1_022_000;

/// While more than half of these are used up, none is taken of the member that had the last.
pub const REPAIRS_OF_ONE: u64 = 510_000;

/// What such a request costs.
pub const REPAIR_PAUSE: u64 = 2_000;

/// For how long a name that is firm stays so.
pub const FIRM_TIME: u64 = 2_000_000;

/// Beside 32 others and more a name is firm for 2 s in each 250 s.
pub const MOST_SHARING: usize = 31;

/// A member that lacks this many numbers takes a stream; one that lacks fewer asks for each.
pub const LACKING: u64 = 500;

/// After a stream began, none begins for this long.
pub const FETCH_PAUSE: u64 = 10_000_000;

/// And none of the same member for this long.
pub const FETCH_AGAIN: u64 = 60_000_000;

/// A mark of ours that is further above what we hold is forged, since nobody draws as many on a
/// page. While we listen we take no drawop of ours, so a start raises no number by more.
pub const FORGED_ABOVE: u64 = 65_536;

/// How far ahead of the time of day that of a drawop from a known origin may be.
pub const AHEAD_KNOWN: u64 = 86_400_000_000;

/// How far ahead that of any other may be.
pub const AHEAD_STRANGER: u64 = 60_000_000;

/// Times of day are below this: in microseconds since 1970, for 146,000 years.
pub const TIME_LIMIT: u64 = 1 << 62;
