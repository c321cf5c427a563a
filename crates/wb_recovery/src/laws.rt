//! Laws of the timers over any list of accepted calls, and of their limits. Each function does nothing: its contract is
//! a law, for proofs to cite.

ghost use Rattle.std.specs.Prelude.{◌≡◌, ◌^◌, ◌-◌};
ghost use Rattle.wb_recovery.specs.declared.fault.TheConstants.{DELAY_LIMIT, MAX_DELAY};
ghost use Rattle.wb_recovery.specs.declared.limits.TheConstants.{MOST_TIMERS, UNKNOWN_DELAY};
ghost use Rattle.wb_recovery.specs.declared.tuning.TheConstants.{MAX_CONSTANT};
ghost use Rattle.wb_recovery.specs.Laws.{RequestStands, AnswerStands, LevelCounts, RequestStays, AnswerStays, QuietStays, DeafStays, QuietIsNotAnswered, UnnamedHasNone};

/// A request timer stands exactly if a notice was made of its name, and the name did not come
/// since.
pub fn request_stands()
    ensures { RequestStands }
{}

/// An answer timer stands exactly if one was set, and since then its name did not come and it did
/// not fire.
pub fn answer_stands()
    ensures { AnswerStands }
{}

/// A name that was neither missed nor asked for while held has no timers, and is not quiet.
pub fn unnamed_has_none()
    ensures { UnnamedHasNone }
{}

/// The level of a request timer is the number of its back-offs since it was set, up to 16.
pub fn level_counts()
    ensures { LevelCounts }
{}

/// A request timer is as its last set or back-off left it: its moment, the moment up to which it is
/// deaf and its delay stay under all other calls, until the name comes.
pub fn request_stays()
    ensures { RequestStays }
{}

/// An answer timer is as it was set, until it ends.
pub fn answer_stays()
    ensures { AnswerStays }
{}

/// A name is quiet up to the moment that the last arrival which ended a timer of it, or its last
/// answer, left.
pub fn quiet_stays()
    ensures { QuietStays }
{}

/// A request of another member does not back off what is deaf.
pub fn deaf_is_not_backed_off()
    ensures { DeafStays }
{}

/// A request of another member for what is quiet sets no answer timer.
pub fn quiet_is_not_answered()
    ensures { QuietIsNotAnswered }
{}

/// The limits: of delays in microseconds, of the constants of the timers, and of how many stand; and
/// the delay that is not known, in microseconds.
pub fn limits()
    ensures delays { (DELAY_LIMIT ≡ 2 ^ 24) × (MAX_DELAY ≡ 2 ^ 24 - 1) }
    ensures constants { MAX_CONSTANT ≡ 16 }
    ensures timers { MOST_TIMERS ≡ 64 }
    ensures unknown { UNKNOWN_DELAY ≡ 100000 }
{}
