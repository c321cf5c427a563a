//! What follows from the judgement, proved for whatever comes in. The functions do nothing: each
//! stands here for its clause.

ghost use Rattle.std.specs.Prelude.{◌≡◌, ◌^◌};
ghost use Rattle.wb_judge.specs.declared.limits.TheConstants.{AHEAD_KNOWN, AHEAD_STRANGER, ASKED_AHEAD, ASKED_PAUSE, DRIFT, FIRM_TIME, FRESH, LEAST_SHARE, MOST_ALIENS, MOST_KNOWN, MOST_OTHERS, MOST_OWN, MOST_SHARING, MOST_TOLD, OF_ORIGIN, PATIENCE, REPAIRS_AHEAD, REPAIRS_OF_ONE, REPAIR_PAUSE, RESERVE, SILENCE, STRANGERS, STRANGE_PAGES, STRANGE_ROWS, TIME_LIMIT};
ghost use Rattle.wb_judge.specs.Members.{KnownAgain, KnownBeside, MembersAreHeard, NumbersBeside, RequestsArePaidFor, RequestsHaveRoom};
ghost use Rattle.wb_judge.specs.Laws.{AMemberIsNotDropped, AliensStay, ClaimsBindNobody, FewAreTaken, NamesCountOnce, NamesTakeTurns, NewcomersHaveRoom, NobodyHushesFirmNames, NumbersStay, OnlyAnswersMakeKnown, OnlyMembersTell, OwnersAreRecalled, OwnersBeside, OwnersStay, RepairsAreFew, RepairsAreShared, ReplayIsNoTwin, SharesStay, StateIsBounded, StaysStrange, StrangersAreFew, StrangersHaveAShare, StrangersHushNobody, StrangersLeaveNoHoles, TurnsAreFew, VouchesForNobody};

/// An origin becomes known by an answer that came from there, and by nothing else. A number that
/// has answered us stays where it speaks, while it speaks or has an owner, until it answers from
/// elsewhere.
pub fn only_answers_make_known()
    ensures known { OnlyAnswersMakeKnown }
    ensures numbers { NumbersStay }
{}

/// If the network keeps origins, whoever answers under a number keeps it, and no other owner speaks
/// under it, while its origin is remembered. Whoever only claims a number keeps it from nobody.
pub fn owners_stay()
    ensures stay { OwnersStay }
    ensures claims { ClaimsBindNobody }
{}

/// Whoever answered under a number before a start, as the record says, owns it after that, unless
/// somebody has answered under it since. It takes no number from another while there is room.
pub fn owners_are_recalled()
    ensures recalled { OwnersAreRecalled }
    ensures beside { OwnersBeside }
{}

/// A member's drawop is not dropped that is not ours, is at most a day ahead of the time of day,
/// and has a cell. But a copy of what is held is dropped while its name is firm.
pub fn a_member_is_not_dropped()
    ensures { AMemberIsNotDropped }
{}

/// Of a datagram of a member, of any of the five kinds, nothing else is dropped than what would hush
/// us of a firm name, if its number speaks from there and it is fit: a drawop as above, a request
/// that is not one of too many, and a report without a forged mark of ours.
pub fn members_are_heard()
    ensures { MembersAreHeard }
{}

/// While members speak they stay members. What comes from one makes it known for ten minutes more,
/// makes no other unknown, and moves no number.
pub fn members_stay()
    ensures again { KnownAgain }
    ensures beside { KnownBeside }
    ensures numbers { NumbersBeside }
{}

/// A member's request for what is held is one of too many only if more than 255 requests of members
/// were handed in within the last 1.024 seconds.
pub fn requests_have_room()
    ensures room { RequestsHaveRoom }
    ensures paid { RequestsArePaidFor }
{}

/// A datagram vouches for nobody: what another origin gave stays strange, and what its own gave
/// too, unless it answers.
pub fn nobody_is_vouched_for()
    ensures others { VouchesForNobody }
    ensures own { StaysStrange }
{}

/// However many unknown origins give whatever they like, while none of them answers, no more of
/// that is taken in than the share of strangers, in which a name counts once.
pub fn strangers_have_a_share()
    ensures share { StrangersHaveAShare }
    ensures once { NamesCountOnce }
    ensures stays { SharesStay }
{}

/// A stranger hushes no repair of ours. Questions of strangers are taken up to a limit at once and
/// then one in each pause, and so are numbers that are new.
pub fn strangers_hush_nobody()
    ensures repairs { StrangersHushNobody }
    ensures few { FewAreTaken }
{}

/// A drawop of a stranger that is taken in is the next of its source on its page, or an earlier one,
/// so it leaves no number missing, unless a member told a number as high. What strangers report
/// tells nothing.
pub fn strangers_leave_no_holes()
    ensures holes { StrangersLeaveNoHoles }
    ensures told { OnlyMembersTell }
{}

/// Of a name that is firm here nothing that others send hushes us: a copy of what is held ends no
/// answer of ours, and a request for what is not held backs none of ours off. Each name is firm for
/// two seconds, in one of as many turns as the members that are here make it.
pub fn nobody_hushes_firm_names()
    ensures firm { NobodyHushesFirmNames }
    ensures turns { NamesTakeTurns }
    ensures few { TurnsAreFew }
{}

/// From one moment to another at most 512 requests of members for what is held are handed in, and
/// one in each 2 ms; of strangers' requests and questions 64, and one in each 62.5 ms. The second
/// half of those of members is for more than one.
pub fn repairs_are_few()
    ensures members { RepairsAreFew }
    ensures strangers { StrangersAreFew }
    ensures shared { RepairsAreShared }
{}

/// However many numbers speak from origins that have one, whether they answer or not, there is room
/// for a number of an origin that has none.
pub fn newcomers_have_room()
    ensures { NewcomersHaveRoom }
{}

/// What answers nobody, as a replay, shows no twin.
pub fn a_replay_is_no_twin()
    ensures { ReplayIsNoTwin }
{}

/// Of up to eight origins the last report under our number is remembered that is not ours: noise of
/// one hides no twin at another.
pub fn noise_hides_no_twin()
    ensures { AliensStay }
{}

/// How many moments of ours, origins, numbers and told marks are remembered; the limit of times; and by how many
/// others names take turns at being firm, at most.
pub fn limits()
    ensures remembered { (MOST_OWN ≡ 256) × (MOST_KNOWN ≡ 1024) × (MOST_OTHERS ≡ 1024) × (MOST_ALIENS ≡ 8) × (MOST_TOLD ≡ 1024) }
    ensures time { TIME_LIMIT ≡ 2 ^ 62 }
    ensures sharing { MOST_SHARING ≡ 31 }
{}

/// The other numbers of the judgement: in microseconds how long an echo is fresh, and an origin or
/// a number may be silent; by one part in how many clocks may differ; the parts of a board, pages and sources for strangers; how far ahead a
/// time may be; how far ahead repairs for members and questions of strangers are paid for, and what
/// one costs; and how long a turn of a firm name is.
pub fn numbers()
    ensures silent { (FRESH ≡ 256000000) × (SILENCE ≡ 600000000) × (PATIENCE ≡ 192000000) }
    ensures clocks { DRIFT ≡ 4096 }
    ensures shares { (STRANGERS ≡ 16) × (OF_ORIGIN ≡ 128) × (LEAST_SHARE ≡ 16) × (RESERVE ≡ 32) }
    ensures wide { (STRANGE_PAGES ≡ 16) × (STRANGE_ROWS ≡ 256) }
    ensures ahead { (AHEAD_KNOWN ≡ 86400000000) × (AHEAD_STRANGER ≡ 60000000) }
    ensures repairs { (REPAIRS_AHEAD ≡ 1022000) × (REPAIRS_OF_ONE ≡ 510000) × (REPAIR_PAUSE ≡ 2000) }
    ensures asked { (ASKED_AHEAD ≡ 3937500) × (ASKED_PAUSE ≡ 62500) }
    ensures firm { FIRM_TIME ≡ 2000000 }
{}

/// All that a judge remembers is bounded.
pub fn state_is_bounded()
    ensures { StateIsBounded }
{}
