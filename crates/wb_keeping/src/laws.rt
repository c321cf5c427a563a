//! What follows from a policy that is performed, proved for all runs of it. The functions do
//! nothing: each stands here for its clause.

ghost use Rattle.std.specs.Prelude.{◌≡◌};
ghost use Rattle.wb_keeping.specs.Bounds.{FewAreNotRefused, FewNamesAreAsked, FewRequestsAtOnce, FewTimersStand, LittleIsSaid, NamesAreSeldomRequested, OwedStands, StatesArePaid};
ghost use Rattle.wb_keeping.specs.Fairness.{OnlyHeldIsAnswered, ReportsTell, TurnsAreTaken, WantedIsAsked};
ghost use Rattle.wb_keeping.specs.Laws.{ANumberIsLeft, CallsAreOfPolicies, DrawingIsNotLocked, KeptHostsAreHosts, NothingIsDue, TimeComesFirst, WantedIsPaid};
ghost use Rattle.wb_keeping.specs.declared.limits.TheConstants.{AHEAD, MINUTES, MOST_REQUESTS};

/// A name that is wanted is asked for only if it is not held and there is credit, and then it costs.
/// Else nothing is done.
pub fn wanted_is_paid()
    ensures { WantedIsPaid }
{}

/// A self-managing host takes what comes in as a host does whose driver ticks first. If nothing of
/// its own is due, time goes on as at a host that its driver drives.
pub fn time_goes_on()
    ensures first { TimeComesFirst }
    ensures alone { NothingIsDue }
{}

/// A self-managing host is a host whose driver hands in lines: for each list of what comes, ticks
/// and is drawn, there is one list of these, after which such a host is the same member, and has
/// sent the same datagrams in the same order. Its policy asks for names one by one, and says what
/// it reports: it does not look for all that a page lacks, nor call for a session message.
pub fn kept_hosts_are_hosts()
    ensures same { KeptHostsAreHosts }
    ensures calls { CallsAreOfPolicies }
{}

/// Drawing is never locked, whatever comes in: a number is left on each page, so that a drawing is
/// refused for its moment, while the member listens, and for its operation, and for nothing else.
pub fn drawing_is_never_locked()
    ensures numbers { ANumberIsLeft }
    ensures taken { DrawingIsNotLocked }
{}

/// At most 64 request timers stand at a host that is self-managing from its opening on, whatever
/// comes in, and however many of the lines of its policy were performed. So no line sends more than
/// 64 requests.
pub fn few_timers_stand()
    ensures timers { FewTimersStand }
    ensures requests { FewRequestsAtOnce }
{}

/// Whatever comes in, a host that is self-managing from its opening on requests a name at most 15
/// times in ten minutes in which it is not asked for anew: each request doubles the wait for the
/// next, and those after the first 15 take longer than that.
pub fn names_are_seldom_requested()
    ensures { NamesAreSeldomRequested }
{}

/// Whatever comes in, a self-managing host asks from one moment to another for at most 64 names,
/// for one more in each quarter of a second, and for two more for each that it asked for and that
/// came or that its user drew.
pub fn few_names_are_asked()
    ensures { FewNamesAreAsked }
{}

/// Whatever comes in, the board of a host that is self-managing from its opening on is full, or no
/// more is owed than stands asked. So while fewer than 64 request timers stand, nothing that is
/// reported, leapt to, or has its turn is refused for want of credit.
pub fn no_more_is_owed_than_stands()
    ensures owed { OwedStands }
    ensures asked { FewAreNotRefused }
{}

/// Whatever comes in, its reports are a second apart or more; page states come at most 64 at once,
/// and then a second apart or more; questions for pages are half a second apart or more. Page
/// states are paid for by the rate of reports, 534 bytes each.
pub fn little_is_said()
    ensures said { LittleIsSaid }
    ensures paid { StatesArePaid }
{}

/// A turn is that of the hole that comes next among those of what is held, and a report tells what
/// comes next of the marks of that, or what changed last.
pub fn turns_are_taken()
    ensures turns { TurnsAreTaken }
    ensures reports { ReportsTell }
{}

/// A name that is wanted has a request timer then, unless it is held, the board is full, or there
/// is no credit. It is so of each host that answers for what it holds alone, as every host does.
pub fn wanted_names_are_asked_for()
    ensures answers { OnlyHeldIsAnswered }
    ensures asked { WantedIsAsked }
{}

/// The limit of requests.
pub fn limits()
    ensures { MOST_REQUESTS ≡ 15 }
{}

/// The other numbers, in microseconds.
pub fn numbers()
    ensures { (AHEAD ≡ 172800000000) × (MINUTES ≡ 600000000) }
{}
