//! Laws of progress. Each function does nothing: its contract is a law, for proofs to cite.

ghost use Rattle.wb_progress.specs.Bounds.{AnswersAreBounded, TimersAreBounded};
ghost use Rattle.wb_progress.specs.Calls.{AnswersGoOn, QuietBegins, RequestsAreHeard, RequestsBegin, RequestsGoOn};
ghost use Rattle.wb_progress.specs.InTime.{RequestIsAnsweredBut, TimerLeadsBut, TimerLeadsOrIsGivenUp};
ghost use Rattle.wb_progress.specs.Standing.{AnswersAreKept, QuietHasCause, RequestsAreKept, RequestsAreTaken, RequestsLeadOn};
ghost use Rattle.wb_progress.specs.Keepers.{AnswersStayNear, DelaysFit, KeepersAreBounded};
ghost use Rattle.wb_progress.specs.Repairs.{AnswersAreSoon, AskedAnewIsSoon, AskerAsks, GivenUpIsIdle, HolderAnswers, MissesStand, RequestsSet, TicksAnswer, TicksAsk, TicksClear, TicksEnd, TicksLeave};

/// No timer stands further ahead than the delays of the calls allow, and none is quiet for longer, if
/// none did at first; so it is of answers alone.
pub fn timers_are_bounded()
    ensures timers { TimersAreBounded }
    ensures answers { AnswersAreBounded }
{}

/// The same of a keeper, whose delays are below 2^24 microseconds; and of one call of a keeper, whose
/// answers were near before it.
pub fn keepers_are_bounded()
    ensures delays { DelaysFit }
    ensures timers { KeepersAreBounded }
    ensures stays { AnswersStayNear }
{}

/// What one tick, one request and one miss do to the timers of a name.
pub fn calls_tell_timers()
    ensures asks { TicksAsk }
    ensures answers { TicksAnswer }
    ensures clears { TicksClear }
    ensures ends { TicksEnd }
    ensures leaves { TicksLeave }
    ensures sets { RequestsSet }
    ensures stands { MissesStand }
    ensures idle { GivenUpIsIdle }
{}

/// A keeper that misses a name comes to ask for it, and one that holds it comes to send it to one
/// that asks, if time goes on far enough.
pub fn repairs_come()
    ensures asker { AskerAsks }
    ensures anew { AskedAnewIsSoon }
    ensures soon { AnswersAreSoon }
    ensures holder { HolderAnswers }
{}

/// A timer stands as it was set until a call ends it, and a name is quiet only for a cause of the
/// last three delays.
pub fn timers_stand()
    ensures answers { AnswersAreKept }
    ensures requests { RequestsAreKept }
    ensures quiet { QuietHasCause }
    ensures taken { RequestsAreTaken }
    ensures leads { RequestsLeadOn }
{}

/// What one call makes of the timers of a name: each stands as it was set until the call ends it,
/// and begins for a stated cause and a stated wait.
pub fn calls_begin_and_end_timers()
    ensures answers { AnswersGoOn }
    ensures requests { RequestsGoOn }
    ensures quiet { QuietBegins }
    ensures begin { RequestsBegin }
    ensures heard { RequestsAreHeard }
{}

/// If keepers, their drivers and the network keep to stated times, whatever other names are given
/// up: a request for a name that a live place held is answered to all if no place that holds it
/// gives it up, and a request timer leads to one if the name is not given up. If it is, the timer
/// leads to one, or its own place gives it up first.
pub fn what_is_not_given_up_comes()
    ensures answered { RequestIsAnsweredBut }
    ensures leads { TimerLeadsBut }
    ensures or_given_up { TimerLeadsOrIsGivenUp }
{}
