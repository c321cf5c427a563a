//! The numbers of the policy. Times and delays are in microseconds.

use wb_names::MAX_ENTRIES;

/// A second.
pub const SECOND: u64 = 1_000_000;

// ---- what is asked for

/// What a name costs that is asked for: it is paid for in this time.
pub const COST: u64 = 250_000;

/// How many names one pays for that was asked for and came: itself, and one that is asked for again
/// since its request was lost.
pub const PAYS: u64 = 2;

/// How many names may be asked for at once.
pub const PLACES: u64 = 64;

/// How many of these places what comes last may take.
pub const PLACES_OF_LAST: u64 = 48;

/// Turns pass over what is asked for while fewer request timers than this stand. So they give up
/// old timers alone.
pub const TIMERS_BEFORE_TURNS: usize = 56;

/// The level from which a timer is old: it has then waited 15 to 30 times its delay, times the
/// first constant of requests.
pub const OLD_LEVEL: u32 = 4;

/// How far the neighbours of a drawop reach, which are wanted when it comes.
pub const REACH: u32 = 64;

/// How many numbers of a hole have their turn in one round.
pub const WINDOW: u64 = 64;

/// When a name came, one is asked for this far from the one before it in its hole.
pub const STRIDE: u64 = 19;

/// Rounds of turns are counted below this number, and begin again at 0.
pub const ROUND_LIMIT: u64 = 1 << 32;

// ---- when a name has its turn

/// The shortest time from one turn to the next.
pub const SHORTEST_GAP: u64 = SECOND;

/// The longest time from one turn to the next.
pub const LONGEST_GAP: u64 = 16 * SECOND;

/// While turns bring nothing, each gap is longer than the one before by this part of it.
pub const STEADINESS: u64 = 128;

// ---- what is believed

/// The usual delay at first. If it is too small, that costs some more requests; if it is too
/// great, it costs seconds.
pub const FIRST_DELAY: u64 = 20_000;

/// The least delay that is believed.
pub const LEAST_DELAY: u64 = 10_000;

/// The greatest delay that is believed.
pub const MOST_DELAY: u64 = 1_000_000;

// ---- what is reported

/// The longest time before the first report.
pub const FIRST_REPORT: u32 = 1_000_000;

/// The shortest mean time between two reports.
pub const SHORTEST_MEAN: u64 = 2_000_000;

/// The longest mean time between two reports.
pub const LONGEST_MEAN: u64 = 64_000_000;

/// The shortest time between two reports: half of the shortest mean time.
pub const SHORTEST_PAUSE: u64 = SHORTEST_MEAN / 2;

/// The longest time between two reports: the longest mean time and half of it.
pub const LONGEST_PAUSE: u64 = LONGEST_MEAN + LONGEST_MEAN / 2;

/// For how long a member counts after it was heard: three of the longest mean times.
pub const HEARD: u64 = 3 * LONGEST_MEAN;

/// The most members that are counted: this one, and those of a list of echoes.
pub const MEMBERS: u64 = 1 + MAX_ENTRIES as u64;

/// The most bytes a second that reports may take.
pub const MAX_RATE: u32 = 1_000_000;

/// The most marks of one report.
pub const MOST_MARKS: usize = 64;

/// The most echoes of one report.
pub const MOST_ECHOES: usize = 32;

/// How many of these echo members that have answered, before the others have their turn.
pub const MOST_FIRSTS: usize = 24;

/// The most pages of an answer.
pub const MOST_PAGES: usize = 64;

/// The bytes of a session message without its marks and echoes.
pub const HEAD_BYTES: u64 = 32;

/// The bytes of a mark.
pub const MARK_BYTES: u64 = 8;

/// The bytes of an echo.
pub const ECHO_BYTES: u64 = 20;

/// The most bytes of a report: a head, `MOST_MARKS` marks and `MOST_ECHOES` echoes.
pub const MOST_REPORT_BYTES: u64 = 1_184;

/// No session message has more bytes than this.
pub const MOST_BYTES: u64 = 2_000_000;

// ---- questions for pages

/// The longest time before the first question.
pub const FIRST_QUESTION: u32 = 200_000;

/// The wait after the first question.
pub const FIRST_WAIT: u64 = 1_000_000;

/// The longest wait.
pub const MOST_WAIT: u64 = 64_000_000;

/// The longest time before an answer.
pub const ANSWER: u32 = 500_000;

/// The most bytes of a page state.
pub const STATE_BYTES: u64 = 534;

/// How long a question is not taken up after an answer, at least.
pub const QUIET: u64 = 1_000_000;

// ---- the beginning

/// A member listens for less than this before it adds anything.
pub const LISTEN_LIMIT: u64 = 1 << 32;

/// The stream that a policy takes its words from. The timers of its member have another.
pub const STREAM: u64 = 55;
